// Cells as they are looked at: those that a step reads, and those of its changes. None of this takes memory.
ghost use Rattle.std.specs.Prelude.{◌≡◌, ◌∷◌, [], map};
ghost use Rattle.ets_rules.specs.Changes.{changes_of_tables};
ghost use Rattle.world_model.specs.Names.{ref_of};
ghost use Rattle.world_footprints.specs.Deeds.{deed_in};
ghost use Rattle.world_footprints.specs.Plans.{first_changes, first_of_delivery, first_of_turn};
ghost use Rattle.world_footprints.specs.Views.{AreWritten, view_in, views_in};
ghost use Rattle.world_model.specs.Changes.{cell_of};
ghost use Rattle.world_records.specs.Cells.{cell_in, name_cell, process_cell, reference_cell};
ghost use Rattle.world_records.specs.declared.cell.NamePart.TheVariants.{Holder};
ghost use Rattle.world_records.specs.declared.cell.ProcessPart.TheVariants.{NameOf, Watchers};
ghost use Rattle.world_records.specs.declared.cell.ReferencePart.TheVariants.{Watch};
ghost use Rattle.world_records.specs.Changes.{changes_in};

use crate::deed::Deed;
use ets_rules::TableChange;
use term_core::{Atom, Pid, RefId, Step, Term};
use world_records::{Cell, Change, ChannelPart, NamePart, ProcessPart, ReferencePart};

/// A cell of the explored world.
#[derive(Clone, Copy)]
pub enum View<'a> {
    /// Of a process.
    OfProcess(ProcessPart, &'a Pid),
    /// Of the channel from the first process to the second.
    OfChannel(ChannelPart, &'a Pid, &'a Pid),
    /// Of a name.
    OfName(NamePart, &'a Atom),
    /// Of a reference.
    OfReference(ReferencePart, &'a RefId),
    /// The objects under a key of the table of this reference.
    Row(&'a RefId, &'a Term),
    /// All rows of the table of this reference.
    Rows(&'a RefId),
    /// Who holds any name.
    Holders,
}

/// One cell, or two.
pub type Views<'a> = (View<'a>, Option<View<'a>>);

/// A cell as it is looked at.
pub fn view_of(cell: &Cell) -> View<'_>
    ensures { view_in result ≡ cell_in cell.now }
{
    match cell {
        Cell::OfProcess(part, pid) => View::OfProcess(*part, pid),
        Cell::OfChannel(part, from, to) => View::OfChannel(*part, from, to),
        Cell::OfName(part, name) => View::OfName(*part, name),
        Cell::OfReference(part, id) => View::OfReference(*part, id),
        Cell::Row(id, key) => View::Row(id, key),
        Cell::Rows(id) => View::Rows(id),
        Cell::Holders => View::Holders,
    }
}

// A cell of a process alone.
fn of_process(part: ProcessPart, pid: &Pid) -> Views<'_>
    ensures { views_in result ≡ process_cell part pid.now ∷ [] }
{
    (View::OfProcess(part, pid), None)
}

// A cell of a reference alone.
fn of_reference(part: ReferencePart, id: &RefId) -> Views<'_>
    ensures { views_in result ≡ reference_cell part (ref_of id.now) ∷ [] }
{
    (View::OfReference(part, id), None)
}

// A cell of each of two processes, or two of one.
fn of_both<'a>(
    part: ProcessPart,
    pid: &'a Pid,
    other_part: ProcessPart,
    other: &'a Pid,
) -> Views<'a>
    ensures { views_in result ≡ process_cell part pid.now ∷ process_cell other_part other.now ∷ [] }
{
    (
        View::OfProcess(part, pid),
        Some(View::OfProcess(other_part, other)),
    )
}

// Those of a watch.
fn of_watch<'a>(id: &'a RefId, target: &'a Pid) -> Views<'a>
    ensures { views_in result ≡ reference_cell Watch (ref_of id.now) ∷ process_cell Watchers target.now ∷ [] }
{
    (
        View::OfReference(ReferencePart::Watch, id),
        Some(View::OfProcess(ProcessPart::Watchers, target)),
    )
}

// Those of a name and its holder.
fn of_holder<'a>(name: &'a Atom, pid: &'a Pid) -> Views<'a>
    ensures { views_in result ≡ name_cell Holder name.now ∷ process_cell NameOf pid.now ∷ [] }
{
    (
        View::OfName(NamePart::Holder, name),
        Some(View::OfProcess(ProcessPart::NameOf, pid)),
    )
}

// The cells that a change of tables is of.
fn table_cells(change: &TableChange) -> Views<'_>
    ensures { views_in result ≡ map cell_of (changes_of_tables change.now) }
{
    match change {
        TableChange::RowWritten(id, key, _) => (View::Row(id, key), None),
        TableChange::RowsCleared(id) => (View::Rows(id), None),
        TableChange::TableSet(id, _, _, _)
        | TableChange::TableTouched(id)
        | TableChange::OwnerSet(id, _)
        | TableChange::HeirSet(id, _) => of_reference(ReferencePart::Table, id),
        TableChange::TableRemoved(id) => (
            View::OfReference(ReferencePart::Table, id),
            Some(View::Rows(id)),
        ),
        TableChange::NameSet(name, _) | TableChange::NameCleared(name) => {
            (View::OfName(NamePart::TableName, name), None)
        }
        TableChange::OwnedAdded(pid, _)
        | TableChange::OwnedRemoved(pid, _)
        | TableChange::OwnedCleared(pid) => of_process(ProcessPart::Owned, pid),
    }
}

/// The cells that a change is of.
pub fn changed_cells(change: &Change) -> Views<'_>
    ensures { views_in result ≡ map cell_of (changes_in change.now) }
{
    match change {
        Change::ProcessStarted { child, .. } => {
            of_both(ProcessPart::Machine, child, ProcessPart::Alive, child)
        }
        Change::ProcessEnded(pid, _) => of_both(ProcessPart::Machine, pid, ProcessPart::Alive, pid),
        Change::TrapSet(pid, _) => of_process(ProcessPart::Trap, pid),
        Change::MessageAdded(pid, _) => of_process(ProcessPart::Mailed, pid),
        Change::MessageTaken(pid, _) => of_process(ProcessPart::Taken, pid),
        Change::SignalPut(from, to, _) => (View::OfChannel(ChannelPart::Tail, from, to), None),
        Change::LinkAdded(pid, other) | Change::LinkRemoved(pid, other) => {
            of_both(ProcessPart::Links, pid, ProcessPart::Links, other)
        }
        Change::WatchSet(id, target) | Change::WatchCleared(id, target) => of_watch(id, target),
        Change::GuardSet(id, _) | Change::GuardCleared(id) | Change::GuardUnwatched(id) => {
            of_reference(ReferencePart::Guard, id)
        }
        Change::NameRegistered(name, pid) | Change::NameUnregistered(name, pid) => of_holder(
            name, pid,
        ),
        Change::NameCleared(pid) => of_process(ProcessPart::NameOf, pid),
        Change::OfTables(change) => table_cells(change),
        Change::CellTouched(cell) => (view_of(cell), None),
    }
}

// Those of a turn that does this.
fn turn_cells<'a>(pid: &'a Pid, deed: &Deed) -> Option<Views<'a>>
    ensures { AreWritten result (map cell_of (first_of_turn pid.now (deed_in deed.now))) }
{
    match deed {
        Deed::EndedItself { .. } | Deed::Ended(_) | Deed::RanAway => Some(of_both(
            ProcessPart::Machine,
            pid,
            ProcessPart::Alive,
            pid,
        )),
        Deed::Delivered(_, _) => None,
        Deed::Served { .. } | Deed::Refused { .. } | Deed::Received(_) | Deed::TimedOut => {
            Some(of_process(ProcessPart::Machine, pid))
        }
    }
}

// That of a delivery that does this.
fn delivery_cells<'a>(from: &'a Pid, to: &'a Pid, deed: &Deed) -> Option<Views<'a>>
    ensures { AreWritten result (map cell_of (first_of_delivery from.now to.now (deed_in deed.now))) }
{
    match deed {
        Deed::Delivered(_, _) => Some((View::OfChannel(ChannelPart::Front, from, to), None)),
        _ => None,
    }
}

/// The cells of what a deed changes first.
pub fn first_cells<'a>(step: &'a Step, deed: &Deed) -> Option<Views<'a>>
    ensures { AreWritten result (map cell_of (first_changes step.now (deed_in deed.now))) }
{
    match step {
        Step::Turn(pid) => turn_cells(pid, deed),
        Step::Deliver(from, to) => delivery_cells(from, to, deed),
    }
}
