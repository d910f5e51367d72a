// When cells meet: they are the same, or one is a part of the other; and what a planned step writes. None of this takes
// memory.
ghost use Rattle.std.specs.Prelude.{◌≡◌, map};
ghost use Rattle.world_footprints.specs.Deeds.{deed_in};
ghost use Rattle.world_footprints.specs.Plans.{first_changes};
ghost use Rattle.world_footprints.specs.Footprints.{written_in};
ghost use Rattle.world_footprints.specs.Views.{view_in, views_in};
ghost use Rattle.world_footprints.specs.inside.Places.{place_of_channel, place_of_name, place_of_process, place_of_reference};
ghost use Rattle.term_core.specs.Term.{meaning_of};
ghost use Rattle.world_model.specs.Cells as cells;
ghost use Rattle.world_model.specs.Cells.{meet};
ghost use Rattle.world_model.specs.Changes.{cell_of};
ghost use Rattle.world_model.specs.Independence.{one_meets, some_meet};
ghost use Rattle.world_model.specs.Names.{Name, same_ref, ref_of};
ghost use Rattle.world_records.specs.Cells.{cells_in, channel_cell, name_cell, process_cell, reference_cell};
ghost use Rattle.world_records.specs.Changes.{all_changes_in, changes_in};

use crate::deed::Deed;
use crate::mask::{place_in_mask, with_bit};
use crate::plan::Plan;
use crate::view::{View, Views, changed_cells, first_cells, view_of};
use term_core::{Atom, Pid, RefId, Step, Term};
use world_records::{Cell, Change, ChannelPart, NamePart, ProcessPart, ReferencePart};

// The place of a part of processes among all such.
fn place_of_process(part: ProcessPart) -> u8
    ensures { result ≡ place_of_process part }
{
    match part {
        ProcessPart::Machine => 0,
        ProcessPart::Alive => 1,
        ProcessPart::Trap => 2,
        ProcessPart::Taken => 3,
        ProcessPart::Mailed => 4,
        ProcessPart::Links => 5,
        ProcessPart::Watchers => 6,
        ProcessPart::NameOf => 7,
        ProcessPart::Owned => 8,
    }
}

// The place of a part of channels.
fn place_of_channel(part: ChannelPart) -> u8
    ensures { result ≡ place_of_channel part }
{
    match part {
        ChannelPart::Front => 0,
        ChannelPart::Tail => 1,
    }
}

// The place of a part of names.
fn place_of_name(part: NamePart) -> u8
    ensures { result ≡ place_of_name part }
{
    match part {
        NamePart::Holder => 0,
        NamePart::TableName => 1,
    }
}

// The place of a part of references.
fn place_of_reference(part: ReferencePart) -> u8
    ensures { result ≡ place_of_reference part }
{
    match part {
        ReferencePart::Watch => 0,
        ReferencePart::Table => 1,
        ReferencePart::Guard => 2,
    }
}

// Whether two references are one.
fn are_one(id: &RefId, other: &RefId) -> bool
    ensures { result ≡ same_ref (ref_of id.now) (ref_of other.now) }
{
    *id == *other
}

// Whether a cell meets one of a process.
fn meets_process(part: ProcessPart, pid: &Pid, other: View<'_>) -> bool
    ensures { result ≡ meet (process_cell part pid.now) (view_in other.entry) }
{
    match other {
        View::OfProcess(other_part, other_pid) => {
            place_of_process(part) == place_of_process(other_part) && pid == other_pid
        }
        _ => false,
    }
}

// Whether a cell meets one of a channel.
fn meets_channel(part: ChannelPart, from: &Pid, to: &Pid, other: View<'_>) -> bool
    ensures { result ≡ meet (channel_cell part from.now to.now) (view_in other.entry) }
{
    match other {
        View::OfChannel(other_part, other_from, other_to) => {
            place_of_channel(part) == place_of_channel(other_part)
                && from == other_from
                && to == other_to
        }
        _ => false,
    }
}

// Whether a part of names says who holds one.
fn is_holder(part: NamePart) -> bool
    ensures { (name : Name) → result ≡ meet (name_cell part name) cells.Holders }
{
    match part {
        NamePart::Holder => true,
        NamePart::TableName => false,
    }
}

// Whether a cell meets all holders of names.
fn meets_holders(other: View<'_>) -> bool
    ensures { result ≡ meet cells.Holders (view_in other.entry) }
{
    match other {
        View::OfName(part, _) => is_holder(part),
        View::Holders => true,
        _ => false,
    }
}

// Whether a cell meets one of a name.
fn meets_name(part: NamePart, name: &Atom, other: View<'_>) -> bool
    ensures { result ≡ meet (name_cell part name.now) (view_in other.entry) }
{
    match other {
        View::OfName(other_part, other_name) => {
            place_of_name(part) == place_of_name(other_part) && name == other_name
        }
        View::Holders => is_holder(part),
        _ => false,
    }
}

// Whether a cell meets one of a reference.
fn meets_reference(part: ReferencePart, id: &RefId, other: View<'_>) -> bool
    ensures { result ≡ meet (reference_cell part (ref_of id.now)) (view_in other.entry) }
{
    match other {
        View::OfReference(other_part, other_id) => {
            place_of_reference(part) == place_of_reference(other_part) && are_one(id, other_id)
        }
        _ => false,
    }
}

// Whether a cell meets a row.
fn meets_row(id: &RefId, key: &Term, other: View<'_>) -> bool
    ensures { result ≡ meet (cells.Row (ref_of id.now) (meaning_of key.now)) (view_in other.entry) }
{
    match other {
        View::Row(other_id, other_key) => are_one(id, other_id) && key == other_key,
        View::Rows(other_id) => are_one(id, other_id),
        _ => false,
    }
}

// Whether a cell meets all rows of a table.
fn meets_rows(id: &RefId, other: View<'_>) -> bool
    ensures { result ≡ meet (cells.Rows (ref_of id.now)) (view_in other.entry) }
{
    match other {
        View::Row(other_id, _) => are_one(id, other_id),
        View::Rows(other_id) => are_one(id, other_id),
        _ => false,
    }
}

/// Whether two cells meet: they are the same, or one is a part of the other, as a row is of all rows of its table and the
/// holder of a name of all holders. It takes no memory.
pub(crate) fn meet(one: View<'_>, other: View<'_>) -> bool
    ensures { result ≡ meet (view_in one.entry) (view_in other.entry) }
{
    match one {
        View::OfProcess(part, pid) => meets_process(part, pid, other),
        View::OfChannel(part, from, to) => meets_channel(part, from, to, other),
        View::OfName(part, name) => meets_name(part, name, other),
        View::OfReference(part, id) => meets_reference(part, id, other),
        View::Row(id, key) => meets_row(id, key, other),
        View::Rows(id) => meets_rows(id, other),
        View::Holders => meets_holders(other),
    }
}

/// Whether one of the cells that a change is of meets another cell. It takes no memory.
pub(crate) fn change_meets(change: &Change, cell: View<'_>) -> bool
    ensures { result ≡ one_meets (map cell_of (changes_in change.now)) (view_in cell.entry) }
{
    let (one, other) = changed_cells(change);
    if meet(one, cell) {
        return true;
    }
    match other {
        Some(other) => meet(other, cell),
        None => false,
    }
}

// Whether one of the cells of these changes meets another cell.
fn changes_meet(changes: &[Change], cell: View<'_>) -> bool
    ensures { result ≡ one_meets (map cell_of (all_changes_in changes.now)) (view_in cell.entry) }
{
    for change in changes {
        if change_meets(change, cell) {
            return true;
        }
    }
    false
}

// Whether the cell of what a deed changes first meets another cell.
fn deed_meets(step: &Step, deed: &Deed, cell: View<'_>) -> bool
    ensures { result ≡ one_meets (map cell_of (first_changes step.now (deed_in deed.now))) (view_in cell.entry) }
{
    let Some((one, other)) = first_cells(step, deed) else {
        return false;
    };
    if meet(one, cell) {
        return true;
    }
    match other {
        Some(other) => meet(other, cell),
        None => false,
    }
}

// Whether what a planned step does writes a cell that meets another one.
fn deed_or_changes_meet(writer: &Plan, cell: View<'_>) -> bool
    ensures { result ≡ one_meets (written_in writer.now) (view_in cell.entry) }
{
    let changes = writer.planned.changes.as_slice();
    match &writer.deed {
        Some(deed) => deed_meets(&writer.step, deed, cell) || changes_meet(changes, cell),
        None => false,
    }
}

// Whether a planned step writes a cell that meets another one. Where no cell that it writes has the place of that one in
// the masks, none is looked at.
fn writes_meet(writer: &Plan, cell: View<'_>) -> bool
    ensures { result ≡ one_meets (written_in writer.now) (view_in cell.entry) }
{
    let bit = with_bit(0, place_in_mask(cell));
    if writer.write_mask & bit == 0 {
        return false;
    }
    deed_or_changes_meet(writer, cell)
}

/// Whether a planned step writes a cell that meets one of these. It takes no memory.
pub(crate) fn writes_meet_some(writer: &Plan, cells: &[Cell]) -> bool
    ensures { result ≡ some_meet (written_in writer.now) (cells_in cells.now) }
{
    for cell in cells {
        if writes_meet(writer, view_of(cell)) {
            return true;
        }
    }
    false
}

// Whether a planned step writes a cell that meets one of these, one or two.
fn writes_meet_views(writer: &Plan, views: Views<'_>) -> bool
    ensures { result ≡ some_meet (written_in writer.now) (views_in views.entry) }
{
    let (one, other) = views;
    if writes_meet(writer, one) {
        return true;
    }
    match other {
        Some(other) => writes_meet(writer, other),
        None => false,
    }
}

/// Whether a planned step writes a cell that meets one of those of changes. It takes no memory.
pub(crate) fn writes_meet_changes(writer: &Plan, changes: &[Change]) -> bool
    ensures { result ≡ some_meet (written_in writer.now) (map cell_of (all_changes_in changes.now)) }
{
    for change in changes {
        if writes_meet_views(writer, changed_cells(change)) {
            return true;
        }
    }
    false
}

/// Whether a planned step writes a cell that meets what a deed changes first. It takes no memory.
pub(crate) fn writes_meet_deed(writer: &Plan, step: &Step, deed: &Deed) -> bool
    ensures { result ≡ some_meet (written_in writer.now) (map cell_of (first_changes step.now (deed_in deed.now))) }
{
    match first_cells(step, deed) {
        Some(views) => writes_meet_views(writer, views),
        None => false,
    }
}
