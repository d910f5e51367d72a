// Plans: what a step would do.
ghost use Rattle.std.specs.Prelude.{◌≡◌, option_map};
ghost use Rattle.world_footprints.specs.Deeds.{deed_in};
ghost use Rattle.world_footprints.specs.Plans.{written_by};
ghost use Rattle.world_footprints.specs.inside.Masks.{Covers};
ghost use Rattle.world_records.specs.Cells.{cells_in};
ghost use Rattle.world_records.specs.Changes.{all_changes_in};

use crate::deed::Deed;
use crate::mask::{mask_of, mask_of_written};
use term_core::Step;
use world_planned::planned::Planned;

/// What a step would do: its deed, or none where it is not enabled; the cells that it reads; and what it changes.
/// Beside them are the masks of the cells that it reads and writes, which distinguish most plans without a look at the
/// cells.
pub struct Plan {
    /// The step.
    pub step: Step,
    /// What it would do, where it is enabled.
    pub deed: Option<Deed>,
    /// What it reads, and what it changes other than that its turn counts or its signal leaves the channel.
    pub planned: Planned,
    pub(crate) read_mask: u64,
    pub(crate) write_mask: u64,
    ghost reads_covered: { Covers read_mask (cells_in planned.reads.items) },
    ghost writes_covered: { Covers write_mask (written_by step (option_map deed_in deed) (all_changes_in planned.changes.items)) },
}

// Dropped by a call, so that no crate above proves again how.
impl Drop for Plan {
    fn drop(self) {
        let Plan {
            step: _,
            deed: _,
            planned: _,
            read_mask: _,
            write_mask: _,
        } = self;
    }
}

impl Plan {
    /// The plan of a step, with the masks of its cells. It takes no memory.
    pub fn new(step: Step, deed: Option<Deed>, planned: Planned) -> Plan
        ensures step { result.step ≡ step }
        ensures deed { result.deed ≡ deed }
        ensures planned { result.planned ≡ planned }
    {
        let read_mask = mask_of(planned.reads.as_slice());
        let write_mask = mask_of_written(&step, &deed, planned.changes.as_slice());
        Plan {
            step,
            deed,
            planned,
            read_mask,
            write_mask,
        }
    }
}
