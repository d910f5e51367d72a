// A replay of the program, from the bytes that it is given to the bytes that it writes.
ghost use Rattle.program_runs.specs.Ends.{WritesNothing, IsRefusedBefore, IsHandedOn};
ghost use Rattle.std.specs.Prelude.{◌≡◌, ◌==◌, true, false, IfSome, OnOk, Err};
ghost use Rattle.program_runs.specs.Replayed.{IsReplayOf};
ghost use Rattle.program_runs.specs.Input.{IsReadWithin};
ghost use Rattle.program_runs.specs.Status.{status_of};

use crate::input::read_input;
use crate::verdict::{RunFault, Verdict};
use core_reader::read_module;
use std::alloc::Global;
use term_core::{Sink, Source, read_schedule};
use world_replay::replay_and_flush;

/// Reads a module from the source, and replays the schedule of this text in it: the line of each event
/// is written to the sink as it happens, and the sink is flushed at the end. Nothing is written before
/// module and schedule were read.
///
/// # Errors
///
/// `Input` where the source gives no module, `ReadFailed` where it cannot be read, `Schedule` where
/// the text is that of no schedule, and then nothing was written; where both are refused it is the
/// module's refusal. `NotEnabled` where a step is not enabled, with the lines of the steps before it. `ReplayCutOff` where
/// there was no memory for the next step, and a lack of memory in each other part as its own. `Output` where the sink has
/// failed, at a write or at the flush: then a beginning of the lines was written.
pub fn run_replay<R: Source, W: Sink>(
    alloc: Global,
    source: &mut R,
    schedule: &str,
    sink: &mut W,
) -> Result<Verdict, RunFault>
    requires readable { R.has_failed source.old ≡ false }
    requires writable { W.has_failed sink.old ≡ false }

    // Where the source reports its bytes.
    ensures run { IfSome (R.remaining source.old) (λ input.
        IsReplayOf input schedule.now (W.contents sink.old) (W.contents sink.new) (W.has_failed sink.new) result) }

    // Whether or not it does.
    ensures silent { IsRefusedBefore result → WritesNothing (W.contents sink.old) (W.contents sink.new) (W.has_failed sink.new) }
    ensures read_failed { result ≡ Err RunFault.ReadFailed → R.has_failed source.new ≡ true }
    // The source has not failed else.
    ensures sound { (result ≡ Err RunFault.ReadFailed → ⊥) → R.has_failed source.new ≡ false }
    ensures reads { OnOk result (IsReadWithin (R.remaining source.old) (R.remaining source.new)) }
    ensures output_failed { result ≡ Err RunFault.Output → W.has_failed sink.new ≡ true }
    // Status 4 comes where the sink has failed, and only there.
    ensures failed { W.has_failed sink.new ≡ (status_of result == 4) }
    ensures flushed { IsHandedOn result (W.is_flushed sink.new) }
{
    let text = read_input(alloc, source)?;
    let program = read_module(alloc, &text)?;
    let steps = read_schedule(alloc, schedule.as_bytes())?;
    replay_and_flush(alloc, &program, &steps, sink)?;
    Ok(Verdict::Done)
}
