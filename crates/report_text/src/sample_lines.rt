// The report of random schedules: what they show. No write takes memory.
ghost use Rattle.std.specs.Prelude.{◌≡◌, false};
ghost use Rattle.term_core.specs.Stream.{Writes};
ghost use Rattle.tree_excuses.specs.Excuses.{counted, excuses_in};
ghost use Rattle.report_text.specs.SampleText.{sample_first_line, sample_last_line, sample_result, text_of_sample};

use crate::report::{write_all_findings, write_counts};
use term_core::{Sink, WriteFault, write_all, write_number};
use tree_excuses::{Excuses, Standing};
use tree_findings::{FindingList, Findings};

/// How random schedules were taken, which their report tells.
#[derive(Clone, Copy, Debug, PartialEq, Eq)]
pub struct Sampled {
    /// How many steps a schedule may have.
    pub depth: u64,
    /// How many schedules were followed.
    pub runs: u64,
    /// The seed that they are of.
    pub seed: u64,
}

/// Writes what random schedules show: how they were taken, then each error that counts, each refusal and each error that
/// is taken as normal, as `write_report` does, how many they are, and the result. `WriteFault` comes only where the sink
/// has failed, and then a beginning of the report was written. It takes no memory.
pub fn write_sample<W: Sink>(
    sink: &mut W,
    sampled: Sampled,
    excuses: &Excuses,
    findings: &Findings,
) -> Result<(), WriteFault>
    requires { W.has_failed sink.old ≡ false }
    ensures { Writes (W.contents sink.old) (W.contents sink.new) (W.has_failed sink.new) result (text_of_sample sampled (excuses_in excuses.now) findings.now) }
{
    write_sample_first_line(sink, sampled)?;
    write_all_findings(sink, excuses, findings)?;
    write_counts(sink, excuses, findings)?;
    write_sample_last_line(sink, excuses, findings)
}

/// Writes the first line of a report of random schedules: how many steps each may have, how many were followed, and the
/// seed that they are of. `WriteFault` comes only where the sink has failed, and then a beginning of the line was written.
/// It takes no memory.
pub fn write_sample_first_line<W: Sink>(sink: &mut W, sampled: Sampled) -> Result<(), WriteFault>
    requires { W.has_failed sink.old ≡ false }
    ensures { Writes (W.contents sink.old) (W.contents sink.new) (W.has_failed sink.new) result (sample_first_line sampled) }
{
    write_all(sink, b"depth ")?;
    write_number(sampled.depth, sink)?;
    write_all(sink, b", runs ")?;
    write_number(sampled.runs, sink)?;
    write_all(sink, b", seed ")?;
    write_number(sampled.seed, sink)?;
    write_all(sink, b"\n")
}

/// Writes the last line of a report of random schedules: whether they show errors that count. Where they do not, nothing
/// is said of other schedules: it is never `clean`. `WriteFault` comes only where the sink has failed, and then a beginning
/// of the line was written. It takes no memory.
pub fn write_sample_last_line<W: Sink>(
    sink: &mut W,
    excuses: &Excuses,
    findings: &Findings,
) -> Result<(), WriteFault>
    requires { W.has_failed sink.old ≡ false }
    ensures { Writes (W.contents sink.old) (W.contents sink.new) (W.has_failed sink.new) result (sample_last_line (excuses_in excuses.now) findings.now) }
{
    let errors = findings.errors();
    write_all(sink, b"result: ")?;
    write_sample_result(sink, excuses, errors)?;
    write_all(sink, b"\n")
}

// Writes the result: whether there are errors that count.
fn write_sample_result<W: Sink>(
    sink: &mut W,
    excuses: &Excuses,
    errors: &FindingList,
) -> Result<(), WriteFault>
    requires { W.has_failed sink.old ≡ false }
    ensures { Writes (W.contents sink.old) (W.contents sink.new) (W.has_failed sink.new) result (sample_result (counted (excuses_in excuses.now) errors.now)) }
{
    if excuses.count(Standing::Counts, errors) == 0 {
        write_all(sink, b"nothing found")
    } else {
        write_all(sink, b"errors")
    }
}
