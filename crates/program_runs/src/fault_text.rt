// The line by which a refusal is reported. No write takes memory.
ghost use Rattle.std.specs.Prelude.{◌≡◌, false};
ghost use Rattle.term_core.specs.Stream.{Writes};
ghost use Rattle.program_runs.specs.FaultText.{placed, text_of_read_fault, text_of_schedule_fault, text_of_cover_fault, text_of_job_fault, text_of_report_fault, text_of_fault};

use crate::verdict::RunFault;
use core_reader::ReadFault;
use report_reader::ReportFault;
use search_crew::SearchFault;
use search_job_lines::JobFault;
use term_core::{ScheduleFault, Sink, WriteFault, write_all, write_number};
use tree_covers::CoverFault;

/// Writes the line of a refusal: the part that refused, the fault by its number and its name, and its
/// place. `WriteFault` comes only where the sink has failed, and then a beginning of the line was
/// written.
pub fn write_fault<W: Sink>(sink: &mut W, fault: &RunFault) -> Result<(), WriteFault>
    requires { W.has_failed sink.old ≡ false }
    ensures { Writes (W.contents sink.old) (W.contents sink.new) (W.has_failed sink.new) result (text_of_fault fault.now) }
{
    match fault {
        RunFault::Input(fault) => write_read_fault(sink, fault),
        RunFault::ReadFailed => write_all(sink, b"input: read failed\n"),
        RunFault::Schedule(fault) => write_schedule_fault(sink, fault),
        RunFault::NotEnabled(step) => {
            write_placed(sink, b"replay: 1 NotEnabled at step ", *step)
        }
        RunFault::ReplayCutOff => write_all(sink, b"replay: 2 Memory\n"),
        RunFault::Explore(SearchFault::Memory) => write_all(sink, b"explore: 1 Memory\n"),
        RunFault::Explore(SearchFault::NoThread) => write_all(sink, b"explore: 2 NoThread\n"),
        RunFault::Explore(SearchFault::StrangePool) => write_all(sink, b"explore: 3 StrangePool\n"),
        RunFault::Cover(fault) => write_cover_fault(sink, fault),
        RunFault::Job(fault) => write_job_fault(sink, fault),
        RunFault::Report(fault) => write_report_fault(sink, fault),
        RunFault::ReportCutOff => write_all(sink, b"explore: 1 Memory\n"),
        RunFault::CoverCutOff => write_all(sink, b"cover: 7 Memory\n"),
        RunFault::Output => write_all(sink, b"output failed\n"),
    }
}

// Writes the line of a module's refusal.
fn write_read_fault<W: Sink>(sink: &mut W, fault: &ReadFault) -> Result<(), WriteFault>
    requires { W.has_failed sink.old ≡ false }
    ensures { Writes (W.contents sink.old) (W.contents sink.new) (W.has_failed sink.new) result (text_of_read_fault fault.now) }
{
    match fault {
        ReadFault::BadToken(at) => write_placed(sink, b"input: 1 BadToken at ", *at),
        ReadFault::Expected(at) => write_placed(sink, b"input: 2 Expected at ", *at),
        ReadFault::Unbound(at) => write_placed(sink, b"input: 3 Unbound at ", *at),
        ReadFault::DuplicateVariable(at) => {
            write_placed(sink, b"input: 4 DuplicateVariable at ", *at)
        }
        ReadFault::DuplicateFunction(at) => {
            write_placed(sink, b"input: 5 DuplicateFunction at ", *at)
        }
        ReadFault::NoFunction(at) => write_placed(sink, b"input: 6 NoFunction at ", *at),
        ReadFault::HigherOrder(at) => write_placed(sink, b"input: 7 HigherOrder at ", *at),
        ReadFault::UnsupportedCall(at) => write_placed(sink, b"input: 8 UnsupportedCall at ", *at),
        ReadFault::EffectInGuard(at) => write_placed(sink, b"input: 9 EffectInGuard at ", *at),
        ReadFault::TooDeep(at) => write_placed(sink, b"input: 10 TooDeep at ", *at),
        ReadFault::BadInteger(at) => write_placed(sink, b"input: 11 BadInteger at ", *at),
        ReadFault::NotUtf8(at) => write_placed(sink, b"input: 12 NotUtf8 at ", *at),
        ReadFault::NoMain(at) => write_placed(sink, b"input: 13 NoMain at ", *at),
        ReadFault::UnsupportedForm(at) => write_placed(sink, b"input: 14 UnsupportedForm at ", *at),
        ReadFault::Memory => write_all(sink, b"input: 15 Memory\n"),
        ReadFault::TooLong(at) => write_placed(sink, b"input: 16 TooLong at ", *at),
    }
}

// Writes the line of a schedule's refusal.
fn write_schedule_fault<W: Sink>(sink: &mut W, fault: &ScheduleFault) -> Result<(), WriteFault>
    requires { W.has_failed sink.old ≡ false }
    ensures { Writes (W.contents sink.old) (W.contents sink.new) (W.has_failed sink.new) result (text_of_schedule_fault fault.now) }
{
    match fault {
        ScheduleFault::BadStep(at) => write_placed(sink, b"schedule: 1 BadStep at ", *at),
        ScheduleFault::Memory => write_all(sink, b"schedule: 2 Memory\n"),
    }
}

// Writes the line of a cover's refusal.
fn write_cover_fault<W: Sink>(sink: &mut W, fault: &CoverFault) -> Result<(), WriteFault>
    requires { W.has_failed sink.old ≡ false }
    ensures { Writes (W.contents sink.old) (W.contents sink.new) (W.has_failed sink.new) result (text_of_cover_fault fault.now) }
{
    match fault {
        CoverFault::Missing(line) => write_placed(sink, b"cover: 1 Missing at line ", *line),
        CoverFault::Strange(line) => write_placed(sink, b"cover: 2 Strange at line ", *line),
        CoverFault::Short(line) => write_placed(sink, b"cover: 3 Short at line ", *line),
        CoverFault::Long(line) => write_placed(sink, b"cover: 4 Long at line ", *line),
        CoverFault::ErrorFound(line) => write_placed(sink, b"cover: 5 ErrorFound at line ", *line),
        CoverFault::BadLine(line) => write_placed(sink, b"cover: 6 BadLine at line ", *line),
        CoverFault::Memory => write_all(sink, b"cover: 7 Memory\n"),
    }
}

// Writes the line of a job's refusal.
fn write_job_fault<W: Sink>(sink: &mut W, fault: &JobFault) -> Result<(), WriteFault>
    requires { W.has_failed sink.old ≡ false }
    ensures { Writes (W.contents sink.old) (W.contents sink.new) (W.has_failed sink.new) result (text_of_job_fault fault.now) }
{
    match fault {
        JobFault::NoBar => write_all(sink, b"job: 1 NoBar\n"),
        JobFault::BadStep(at) => write_placed(sink, b"job: 2 BadStep at ", *at),
        JobFault::BadSleeper(at) => write_placed(sink, b"job: 3 BadSleeper at ", *at),
        JobFault::TooLong => write_all(sink, b"job: 4 TooLong\n"),
        JobFault::NotEnabled(step) => write_placed(
            sink,
            b"job: 5 NotEnabled at step ",
            *step as usize,
        ),
        JobFault::NotAsleep(step) => write_placed(
            sink,
            b"job: 6 NotAsleep at step ",
            *step as usize,
        ),
        JobFault::Memory => write_all(sink, b"job: 7 Memory\n"),
    }
}

// Writes the line of the refusal of reports.
fn write_report_fault<W: Sink>(sink: &mut W, fault: &ReportFault) -> Result<(), WriteFault>
    requires { W.has_failed sink.old ≡ false }
    ensures { Writes (W.contents sink.old) (W.contents sink.new) (W.has_failed sink.new) result (text_of_report_fault fault.now) }
{
    match fault {
        ReportFault::BadLine(line) => write_placed(
            sink,
            b"report: 1 BadLine at line ",
            *line as usize,
        ),
        ReportFault::TooDeep(line) => write_placed(
            sink,
            b"report: 2 TooDeep at line ",
            *line as usize,
        ),
        ReportFault::Memory => write_all(sink, b"report: 3 Memory\n"),
        ReportFault::TooManyNodes => write_all(sink, b"report: 4 TooManyNodes\n"),
    }
}

// Writes a line of words with a number after them.
fn write_placed<W: Sink>(sink: &mut W, words: &[u8], number: usize) -> Result<(), WriteFault>
    requires { W.has_failed sink.old ≡ false }
    ensures { Writes (W.contents sink.old) (W.contents sink.new) (W.has_failed sink.new) result (placed words.now number) }
{
    write_all(sink, words)?;
    write_number(number as u64, sink)?;
    write_all(sink, b"\n")
}
