// The replay of one schedule.
ghost use Rattle.std.specs.Prelude.{◌≡◌, ℕ, true, false, List, None, Some, OnOk};
ghost use Rattle.term_core.specs.Schedule.{AreLawful};
ghost use Rattle.term_core.specs.Text.{text_of_schedule};
ghost use Rattle.term_core.specs.declared.step.Step.{Step};
ghost use Rattle.world_core.specs.Seen.{program_in};
ghost use Rattle.world_model.specs.Asking.{program_of};
ghost use Rattle.world_model.specs.Requests.{Program};
ghost use Rattle.world_model.specs.Run.{run};
ghost use Rattle.world_replay.specs.Replay.{Replays, ReplaysStep, StopsAt, reached, stop};

use crate::replay_fault::ReplayFault;
use core_tree::Module;
use std::alloc::Global;
use term_core::{Sink, Step};
use world_core::{World, WorldFault};
use world_event_text::write_event;

/// Where no step of a schedule stops a replay, the schedule is a run with the history that is reached; else the steps
/// before that step are a run, and with that step they are not.
pub fn replays_are_runs()
    ensures whole { (a : Program) (steps : List Step) → stop a steps ≡ None → run a steps ≡ Some (reached a steps) }
    ensures part { (a : Program) (steps : List Step) (place : ℕ) → stop a steps ≡ Some place → StopsAt a steps place (reached a steps) }
{}

/// A text is that of at most one schedule.
pub fn texts_say_one_schedule()
    ensures { (text : List ℕ) (steps others : List Step) → AreLawful steps → AreLawful others → text ≡ text_of_schedule steps → text ≡ text_of_schedule others → steps ≡ others }
{}

/// Takes the steps of a schedule one after another in a new world of the module, and writes the line
/// of each event as it happens.
///
/// # Errors
///
/// `NotEnabled` at the first step that is not enabled, by its place in the schedule from 1, and then
/// the lines of the steps before it were written; `Memory` where memory ran out, and then the lines of
/// the steps that were taken were written, each whole; `Write` where the sink failed: then a beginning
/// of the lines was written.
pub fn replay<W: Sink>(
    alloc: Global,
    program: &Module,
    steps: &[Step],
    sink: &mut W,
) -> Result<(), ReplayFault>
    requires { W.has_failed sink.old ≡ false }
    ensures { Replays (program_of program.now) steps.now (W.contents sink.old) (W.contents sink.new) (W.has_failed sink.new) result }
{
    let Ok(mut world) = World::open(alloc, program) else {
        return Err(ReplayFault::Memory);
    };
    for (index, step) in steps.iter().enumerate() {
        replay_step(alloc, &mut world, index + 1, step, sink)?;
    }
    Ok(())
}

/// Replays as `replay` does, and then flushes the sink, so that no line that was written is held back.
///
/// # Errors
///
/// Those of `replay`, and `Write` also where the flush failed.
pub fn replay_and_flush<W: Sink>(
    alloc: Global,
    program: &Module,
    steps: &[Step],
    sink: &mut W,
) -> Result<(), ReplayFault>
    requires { W.has_failed sink.old ≡ false }
    ensures replay { Replays (program_of program.now) steps.now (W.contents sink.old) (W.contents sink.new) (W.has_failed sink.new) result }
    ensures flushed { W.has_failed sink.new ≡ false → W.is_flushed sink.new ≡ true }
{
    let outcome = replay(alloc, program, steps, sink);
    if sink.failed() {
        return outcome;
    }
    if sink.flush().is_err() {
        return Err(ReplayFault::Write);
    }
    outcome
}

// Takes a step, the one of this place in the schedule, and writes the line of its event.
fn replay_step<W: Sink>(
    alloc: Global,
    world: &mut World<'_>,
    place: usize,
    step: &Step,
    sink: &mut W,
) -> Result<(), ReplayFault>
    requires sound { W.has_failed sink.old ≡ false }
    requires lives { world.old.spent ≡ false }
    ensures step { ReplaysStep (program_in world.old) world.old.history place step.now (W.contents sink.old) (W.contents sink.new) (W.has_failed sink.new) world.new.history result }
    ensures lives { OnOk result (world.new.spent ≡ false) }
    ensures program { OnOk result (world.new.program ≡ world.old.program) }
{
    match world.step(alloc, step) {
        Ok(()) => {}
        Err(WorldFault::NotEnabled) => return Err(ReplayFault::NotEnabled(place)),
        Err(WorldFault::Memory) => return Err(ReplayFault::Memory),
    }
    let Some(event) = world.last_event() else {
        unreachable!()
    };
    write_event(sink, place as u64, event)?;
    Ok(())
}
