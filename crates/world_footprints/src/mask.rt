// Masks: for each cell of a list a bit is set, so that lists whose masks have no bit in common have no cells that meet.
ghost use Rattle.std.specs.Int.{bit_at};
ghost use Rattle.std.specs.Prelude.{◌≡◌, ◌<◌, ℕ, map, option_map};
ghost use Rattle.world_footprints.specs.inside.Masks.{Covers, class_of_channel, class_of_pid, class_of_ref, place_in_mask, place_of};
ghost use Rattle.world_footprints.specs.Deeds.{deed_in};
ghost use Rattle.world_footprints.specs.Plans.{first_changes, written_by};
ghost use Rattle.world_footprints.specs.Views.{view_in, views_in};
ghost use Rattle.world_model.specs.Changes.{cell_of};
ghost use Rattle.world_records.specs.Changes.{all_changes_in};
ghost use Rattle.world_records.specs.Cells.{cells_in, channel_cell, name_cell, process_cell, reference_cell};
ghost use Rattle.world_model.specs.Names.{Name, Pid, Ref, ref_of};

use crate::deed::Deed;
use crate::view::{View, Views, changed_cells, first_cells, view_of};
use term_core::{Pid, RefId, Step};
use world_records::{Cell, Change, ChannelPart, NamePart, ProcessPart, ReferencePart};

// The class of a process among four: by the last of its numbers.
fn class_of_pid(pid: &Pid) -> u64
    ensures value { result ≡ class_of_pid pid.now }
    ensures small { result < 4 }
{
    match pid.numbers().last() {
        Some(number) => *number % 4,
        None => 0,
    }
}

// The class of a reference among four: by its number.
fn class_of_ref(id: &RefId) -> u64
    ensures value { result ≡ class_of_ref (ref_of id.now) }
    ensures small { result < 4 }
{
    id.number() % 4
}

// The class of a channel among four.
fn class_of_channel(from: &Pid, to: &Pid) -> u64
    ensures value { result ≡ class_of_channel from.now to.now }
    ensures small { result < 4 }
{
    (class_of_pid(from) + 2 * class_of_pid(to)) % 4
}

// The kind of the cells of a part of processes, among sixteen.
fn kind_of_process(part: ProcessPart) -> u64
    ensures value { (p : Pid) → place_in_mask (process_cell part p) ≡ place_of result (class_of_pid p) }
    ensures small { result < 16 }
{
    match part {
        ProcessPart::Machine => 0,
        ProcessPart::Alive => 1,
        ProcessPart::Trap => 2,
        ProcessPart::Taken => 3,
        ProcessPart::Mailed => 4,
        ProcessPart::Links => 5,
        ProcessPart::Watchers => 6,
        ProcessPart::NameOf => 7,
        ProcessPart::Owned => 8,
    }
}

// The kind of the cells of a part of channels, among sixteen.
fn kind_of_channel(part: ChannelPart) -> u64
    ensures value { (s r : Pid) → place_in_mask (channel_cell part s r) ≡ place_of result (class_of_channel s r) }
    ensures small { result < 16 }
{
    match part {
        ChannelPart::Front => 9,
        ChannelPart::Tail => 10,
    }
}

// The place of the cells of a part of names.
fn place_of_name(part: NamePart) -> u64
    ensures value { (name : Name) → place_in_mask (name_cell part name) ≡ result }
    ensures small { result < 16 }
{
    match part {
        NamePart::Holder => 11,
        NamePart::TableName => 12,
    }
}

// The kind of the cells of a part of references, among sixteen.
fn kind_of_reference(part: ReferencePart) -> u64
    ensures value { (ref : Ref) → place_in_mask (reference_cell part ref) ≡ place_of result (class_of_ref ref) }
    ensures small { result < 16 }
{
    match part {
        ReferencePart::Watch => 13,
        ReferencePart::Guard => 13,
        ReferencePart::Table => 14,
    }
}

// The place of a kind and a class in a mask.
fn place_of(kind: u64, class: u64) -> u64
    requires { (kind < 16) × (class < 4) }
    ensures value { result ≡ place_of kind class }
    ensures small { result < 64 }
{
    kind + 16 * class
}

/// The place of a cell in a mask, from 0 to 63. A row and all rows of its table have one place, and so
/// have the holder of a name and all holders, and the watch and the guard of a reference. It takes no memory.
pub(crate) fn place_in_mask(cell: View<'_>) -> u64
    ensures value { result ≡ place_in_mask (view_in cell.entry) }
    ensures small { result < 64 }
{
    match cell {
        View::OfProcess(part, pid) => place_of(kind_of_process(part), class_of_pid(pid)),
        View::OfChannel(part, from, to) => {
            place_of(kind_of_channel(part), class_of_channel(from, to))
        }
        View::OfName(part, _) => place_of_name(part),
        View::OfReference(part, id) => place_of(kind_of_reference(part), class_of_ref(id)),
        View::Row(id, _) => place_of(15, class_of_ref(id)),
        View::Rows(id) => place_of(15, class_of_ref(id)),
        View::Holders => place_of_name(NamePart::Holder),
    }
}

/// A mask with the bit at a place set. It takes no memory.
pub(crate) fn with_bit(mask: u64, place: u64) -> u64
    requires { place < 64 }
    ensures set { bit_at result place ≡ 1 }
    ensures kept { (i : ℕ) → bit_at mask i ≡ 1 → bit_at result i ≡ 1 }
{
    mask | (1u64 << place)
}

/// The mask of cells: the bits at their places are set. It takes no memory.
pub(crate) fn mask_of(cells: &[Cell]) -> u64
    ensures { Covers result (cells_in cells.now) }
{
    let mut mask = 0u64;
    for cell in cells {
        mask = with_bit(mask, place_in_mask(view_of(cell)));
    }
    mask
}

// A mask with the bits of one cell, or two, set.
fn with_views(mask: u64, views: Views<'_>) -> u64
    ensures set { Covers result (views_in views.entry) }
    ensures kept { (i : ℕ) → bit_at mask i ≡ 1 → bit_at result i ≡ 1 }
{
    let (one, other) = views;
    let mask = with_bit(mask, place_in_mask(one));
    match other {
        Some(other) => with_bit(mask, place_in_mask(other)),
        None => mask,
    }
}

// The mask of what a deed changes first.
fn mask_of_deed(step: &Step, deed: &Deed) -> u64
    ensures { Covers result (map cell_of (first_changes step.now (deed_in deed.now))) }
{
    match first_cells(step, deed) {
        Some(views) => with_views(0u64, views),
        None => 0u64,
    }
}

// The mask of changes, with the bits of another one.
fn with_changes(first: u64, changes: &[Change]) -> u64
    ensures set { Covers result (map cell_of (all_changes_in changes.now)) }
    ensures kept { (i : ℕ) → bit_at first i ≡ 1 → bit_at result i ≡ 1 }
{
    let mut mask = first;
    for change in changes {
        mask = with_views(mask, changed_cells(change));
    }
    mask
}

/// The mask of the cells that a step writes by this deed and these changes. It takes no memory.
pub(crate) fn mask_of_written(step: &Step, deed: &Option<Deed>, changes: &[Change]) -> u64
    ensures { Covers result (written_by step.now (option_map deed_in deed.now) (all_changes_in changes.now)) }
{
    match deed {
        Some(deed) => with_changes(mask_of_deed(step, deed), changes),
        None => 0u64,
    }
}
