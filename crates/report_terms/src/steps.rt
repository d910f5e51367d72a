// The steps of a schedule, taken one after another in a world, with the line of each event.
ghost use Rattle.std.specs.Prelude.{◌≡◌, [], false, OnOk};
ghost use Rattle.world_core.specs.Seen.{program_in};
ghost use Rattle.world_replay.specs.Replay.{reached};
ghost use Rattle.report_explained.specs.Explained.{IsExplained};
ghost use Rattle.report_terms.specs.TermsReport.{event_lines};
ghost use Rattle.report_terms.specs.inside.ToldSteps.{TellsStep};

use crate::events::write_event_line;
use report_explained::ExplainFault;
use std::alloc::Global;
use term_core::{Sink, Step};
use world_core::{World, WorldFault};

/// Takes the steps of a schedule one after another in a new world, up to one that is not enabled, and writes the line of
/// each event.
pub(crate) fn write_steps<W: Sink>(
    alloc: Global,
    world: &mut World<'_>,
    steps: &[Step],
    sink: &mut W,
) -> Result<(), ExplainFault>
    requires sound { W.has_failed sink.old ≡ false }
    requires lives { world.old.spent ≡ false }
    requires begins { world.old.history ≡ [] }
    ensures written { IsExplained (event_lines (reached (program_in world.old) steps.now)) (W.contents sink.old) (W.contents sink.new) (W.has_failed sink.new) result }
    ensures history { OnOk result (world.new.history ≡ reached (program_in world.old) steps.now) }
    ensures lives { OnOk result (world.new.spent ≡ false) }
{
    for (index, step) in steps.iter().enumerate() {
        let is_enabled = write_step(alloc, world, index + 1, step, sink)?;
        if !is_enabled {
            return Ok(());
        }
    }
    Ok(())
}

// Takes a step, the one of this number, and writes the line of its event. Answers whether the step is enabled: where it
// is not, nothing is done.
fn write_step<W: Sink>(
    alloc: Global,
    world: &mut World<'_>,
    number: usize,
    step: &Step,
    sink: &mut W,
) -> Result<bool, ExplainFault>
    requires sound { W.has_failed sink.old ≡ false }
    requires lives { world.old.spent ≡ false }
    ensures step { TellsStep (program_in world.old) world.old.history number step.now (W.contents sink.old) (W.contents sink.new) (W.has_failed sink.new) world.new.history result }
    ensures lives { OnOk result (world.new.spent ≡ false) }
    ensures program { OnOk result (world.new.program ≡ world.old.program) }
{
    match world.step(alloc, step) {
        Ok(()) => {}
        Err(WorldFault::NotEnabled) => return Ok(false),
        Err(WorldFault::Memory) => return Err(ExplainFault::Memory),
    }
    let Some(event) = world.last_event() else {
        unreachable!()
    };
    write_event_line(alloc, number as u64, event, sink)?;
    Ok(true)
}
