// Whether steps write what others read or write, by their plans.
ghost use Rattle.std.specs.Prelude.{◌≡◌, Some};
ghost use Rattle.world_footprints.specs.Deeds.{deed_in};
ghost use Rattle.world_footprints.specs.Plans.{written_by};
ghost use Rattle.world_footprints.specs.Footprints.{written_in};
ghost use Rattle.world_model.specs.Independence.{some_meet};
ghost use Rattle.world_records.specs.Cells.{cells_in};
ghost use Rattle.world_records.specs.Changes.{all_changes_in};

use crate::deed::Deed;
use crate::meeting::{writes_meet_changes, writes_meet_deed, writes_meet_some};
use crate::plan::Plan;

/// Whether a step writes a cell that meets one that another step reads. It takes no memory.
pub fn meets(writer: &Plan, reader: &Plan) -> bool
    ensures { result ≡ some_meet (written_in writer.now) (cells_in reader.now.planned.reads.items) }
{
    if writer.write_mask & reader.read_mask == 0 {
        return false;
    }
    writes_meet_some(writer, reader.planned.reads.as_slice())
}

// Whether a step writes a cell that meets one that another step writes that does this.
fn writes_meet_writes(one: &Plan, other: &Plan, deed: &Deed) -> bool
    ensures { result ≡ some_meet (written_in one.now) (written_by other.now.step (Some (deed_in deed.now)) (all_changes_in other.now.planned.changes.items)) }
{
    let changes = other.planned.changes.as_slice();
    writes_meet_deed(one, &other.step, deed) || writes_meet_changes(one, changes)
}

/// Whether two steps write cells that meet. It takes no memory.
pub fn both_write(one: &Plan, other: &Plan) -> bool
    ensures { result ≡ some_meet (written_in one.now) (written_in other.now) }
{
    if one.write_mask & other.write_mask == 0 {
        return false;
    }
    match &other.deed {
        Some(deed) => writes_meet_writes(one, other, deed),
        None => false,
    }
}
