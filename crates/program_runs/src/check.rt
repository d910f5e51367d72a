// A check of a cover, from the bytes that the program is given to the line that it writes.
ghost use Rattle.program_runs.specs.Ends.{WritesNothing, IsRefusedBefore, IsHandedOn};
ghost use Rattle.std.specs.Prelude.{◌≡◌, ◌==◌, true, false, IfSome, OnOk, Err};
ghost use Rattle.tree_excuses.specs.Excuses.{counts, excuses_in};
ghost use Rattle.world_identities.specs.Identities.{flags_in};
ghost use Rattle.program_runs.specs.Checked.{IsCheckOf, text_of_good};
ghost use Rattle.program_runs.specs.Input.{IsUnread};
ghost use Rattle.program_runs.specs.Status.{status_of};
ghost use Rattle.term_core.specs.Stream.{Writes};

use crate::input::read_whole;
use crate::verdict::{RunFault, Verdict};
use crate::watched::Watched;
use core_reader::read_module;
use search_crew::Observer;
use std::alloc::Global;
use term_core::{Sink, Source, WriteFault, write_all, write_number};
use tree_covers::{CoverFault, check_cover, split_at_mark};
use tree_excuses::Excuses;
use world_identities::Flags;

/// Reads a module and the cover after it from the source, and checks the cover: where it is good, no schedule of at
/// most so many steps shows anything that counts as an error, whoever wrote it. The module is what comes before the
/// first line that is exactly `%%cover`. The answer is one line, and the sink is flushed. The observer is informed of
/// each line that is good. It waits for nobody.
///
/// # Errors
///
/// `Input` where what comes before the mark is no module, `ReadFailed` where the source cannot be read, `Cover` where
/// the cover is refused, and then nothing was written; without a mark the first line is missing. `Output` where the
/// sink has failed, at a write or at the flush: then a beginning of the line was written.
pub fn run_check<R: Source, O: Observer, W: Sink>(
    alloc: Global,
    source: &mut R,
    depth: u64,
    flags: Flags,
    excuses: &Excuses,
    observer: &O,
    sink: &mut W,
) -> Result<Verdict, RunFault>
    requires readable { R.has_failed source.old ≡ false }
    requires writable { W.has_failed sink.old ≡ false }

    // Where the source reports its bytes.
    ensures run { IfSome (R.remaining source.old) (λ input.
        IsCheckOf input depth (counts (flags_in flags) (excuses_in excuses.now)) (W.contents sink.old) (W.contents sink.new) (W.has_failed sink.new) result) }

    // Whether or not it does.
    ensures silent { IsRefusedBefore result → WritesNothing (W.contents sink.old) (W.contents sink.new) (W.has_failed sink.new) }
    ensures read_failed { result ≡ Err RunFault.ReadFailed → IsUnread (R.remaining source.old) (R.has_failed source.new) }
    // The source has not failed else.
    ensures sound { (result ≡ Err RunFault.ReadFailed → ⊥) → R.has_failed source.new ≡ false }
    ensures output_failed { result ≡ Err RunFault.Output → W.has_failed sink.new ≡ true }
    // Status 4 comes where the sink has failed, and only there.
    ensures failed { W.has_failed sink.new ≡ (status_of result == 4) }
    ensures flushed { IsHandedOn result (W.is_flushed sink.new) }
{
    let text = read_whole(alloc, source)?;
    let (module_text, behind) = split_at_mark(&text);
    let program = read_module(alloc, module_text)?;
    let Some(cover_text) = behind else {
        return Err(RunFault::Cover(CoverFault::Short(1)));
    };
    check_cover(
        alloc,
        &program,
        depth,
        flags,
        excuses,
        cover_text,
        &Watched { observer },
    )?;
    write_good(sink, depth)?;
    Ok(Verdict::Done)
}

// Writes that a cover is good, and flushes the sink.
fn write_good<W: Sink>(sink: &mut W, depth: u64) -> Result<(), WriteFault>
    requires { W.has_failed sink.old ≡ false }
    ensures written { Writes (W.contents sink.old) (W.contents sink.new) (W.has_failed sink.new) result (text_of_good depth) }
    ensures flushed { OnOk result (W.is_flushed sink.new ≡ true) }
{
    write_good_line(sink, depth)?;
    if sink.flush().is_err() {
        return Err(WriteFault);
    }
    Ok(())
}

// Writes that a cover is good.
fn write_good_line<W: Sink>(sink: &mut W, depth: u64) -> Result<(), WriteFault>
    requires { W.has_failed sink.old ≡ false }
    ensures { Writes (W.contents sink.old) (W.contents sink.new) (W.has_failed sink.new) result (text_of_good depth) }
{
    write_all(sink, b"cover good to depth ")?;
    write_number(depth, sink)?;
    write_all(sink, b"\n")
}
