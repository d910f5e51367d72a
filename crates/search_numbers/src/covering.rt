// The columns of all places that a planned step touches.
ghost use Rattle.std.specs.Prelude.{◌≡◌, true, map, option_map, IfOk, OnOk};
ghost use Rattle.search_numbers.specs.inside.Covered.{AreWithin, CoversMore, CoversPlaces, CoversSeen, CoversViews, life_in};
ghost use Rattle.search_numbers.specs.Local.{CoversPlan};
ghost use Rattle.search_numbers.specs.Stored.{Follows, covers};
ghost use Rattle.world_footprints.specs.Deeds.{deed_in};
ghost use Rattle.world_footprints.specs.Plans.{first_changes, written_by};
ghost use Rattle.world_footprints.specs.Views.{view_in, views_in};
ghost use Rattle.world_model.specs.Changes.{cell_of};
ghost use Rattle.world_records.specs.Cells.{cells_in, process_cell};
ghost use Rattle.world_records.specs.Changes.{all_changes_in};
ghost use Rattle.world_records.specs.Places.{place_of};

use crate::store::Store;
use std::alloc::{AllocError, Global};
use term_core::{Pid, Step};
use world_footprints::view::{View, changed_cells, first_cells, view_of};
use world_footprints::{Deed, Plan};
use world_records::{Cell, Change, ChannelPart, NamePart, Place, ProcessPart, ReferencePart};

// Where a part of a process lies. `AllocError` where its copies can no longer be counted.
fn place_of_process(part: ProcessPart, pid: &Pid) -> Result<Place, AllocError>
    ensures { IfOk result (λ place. place ≡ place_of (process_cell part pid.now)) }
{
    match part {
        ProcessPart::Machine => Ok(Place::Course(pid.copy()?)),
        ProcessPart::Alive | ProcessPart::Trap | ProcessPart::Taken | ProcessPart::Mailed => {
            Ok(Place::Inbox(pid.copy()?))
        }
        ProcessPart::Links => Ok(Place::Links),
        ProcessPart::Watchers => Ok(Place::Watches),
        ProcessPart::NameOf => Ok(Place::Names),
        ProcessPart::Owned => Ok(Place::Tables),
    }
}

// Where a cell lies. `AllocError` where the copies of its processes can no longer be counted.
fn place_of(cell: View<'_>) -> Result<Place, AllocError>
    ensures { IfOk result (λ place. place ≡ place_of (view_in cell.entry)) }
{
    match cell {
        View::OfProcess(part, pid) => place_of_process(part, pid),
        View::OfChannel(_, from, to) => Ok(Place::Channel(from.copy()?, to.copy()?)),
        View::OfName(NamePart::Holder, _) => Ok(Place::Names),
        View::OfName(NamePart::TableName, _) => Ok(Place::Tables),
        View::Holders => Ok(Place::Names),
        View::OfReference(ReferencePart::Watch, _) => Ok(Place::Watches),
        View::OfReference(ReferencePart::Guard, _) => Ok(Place::Watches),
        View::OfReference(ReferencePart::Table, _) => Ok(Place::Tables),
        View::Row(_, _) | View::Rows(_) => Ok(Place::Tables),
    }
}

// Adds the column of a place to those of others. `AllocError` if there is no memory for it.
fn cover(store: &mut Store<'_>, place: Place, columns: &mut Vec<usize>) -> Result<(), AllocError>
    ensures covers { OnOk result (covers store.new.places.items columns.new.items place ≡ true) }
    ensures more { CoversMore store.old columns.old.items store.new columns.new.items }
{
    let column = store.add(place)?;
    if !columns.as_slice().contains(&column) {
        columns.push(column)?;
    }
    Ok(())
}

// The process that lives or not by a cell, if it says that of one.
fn life_of<'a>(cell: View<'a>) -> Option<&'a Pid>
    ensures { option_map (λ pid. pid.now) result ≡ life_in (view_in cell.entry) }
{
    match cell {
        View::OfProcess(ProcessPart::Alive, pid) => Some(pid),
        _ => None,
    }
}

// Adds the columns of all places from which a cell is seen: where it lies, and of whether a process lives its course too.
// `AllocError` if there is no memory for them.
fn cover_seen(
    store: &mut Store<'_>,
    cell: View<'_>,
    columns: &mut Vec<usize>,
) -> Result<(), AllocError>
    ensures covers { OnOk result (CoversSeen store.new columns.new.items (view_in cell.entry)) }
    ensures more { CoversMore store.old columns.old.items store.new columns.new.items }
{
    cover(store, place_of(cell)?, columns)?;
    match life_of(cell) {
        Some(pid) => cover(store, Place::Course(pid.copy()?), columns),
        None => Ok(()),
    }
}

// Adds those of one cell, or of two.
fn cover_views(
    store: &mut Store<'_>,
    views: (View<'_>, Option<View<'_>>),
    columns: &mut Vec<usize>,
) -> Result<(), AllocError>
    ensures covers { OnOk result (CoversViews store.new columns.new.items (views_in views.entry)) }
    ensures more { CoversMore store.old columns.old.items store.new columns.new.items }
{
    let (one, other) = views;
    cover_seen(store, one, columns)?;
    match other {
        Some(other) => cover_seen(store, other, columns),
        None => Ok(()),
    }
}

// Adds the columns of the places in which cells lie that are read.
fn cover_reads(
    store: &mut Store<'_>,
    cells: &[Cell],
    columns: &mut Vec<usize>,
) -> Result<(), AllocError>
    ensures covers { OnOk result (CoversPlaces store.new columns.new.items (cells_in cells.now)) }
    ensures more { CoversMore store.old columns.old.items store.new columns.new.items }
{
    for cell in cells {
        cover(store, place_of(view_of(cell))?, columns)?;
    }
    Ok(())
}

// Adds those of what a deed changes first.
fn cover_deed(
    store: &mut Store<'_>,
    step: &Step,
    deed: &Deed,
    columns: &mut Vec<usize>,
) -> Result<(), AllocError>
    ensures covers { OnOk result (CoversViews store.new columns.new.items (map cell_of (first_changes step.now (deed_in deed.now)))) }
    ensures more { CoversMore store.old columns.old.items store.new columns.new.items }
{
    match first_cells(step, deed) {
        Some(views) => cover_views(store, views, columns),
        None => Ok(()),
    }
}

// Adds those of changes.
fn cover_changes(
    store: &mut Store<'_>,
    changes: &[Change],
    columns: &mut Vec<usize>,
) -> Result<(), AllocError>
    ensures covers { OnOk result (CoversViews store.new columns.new.items (map cell_of (all_changes_in changes.now))) }
    ensures more { CoversMore store.old columns.old.items store.new columns.new.items }
{
    for change in changes {
        cover_views(store, changed_cells(change), columns)?;
    }
    Ok(())
}

// Adds those of all that a step writes by this deed and these changes.
fn cover_written(
    store: &mut Store<'_>,
    step: &Step,
    deed: &Option<Deed>,
    changes: &[Change],
    columns: &mut Vec<usize>,
) -> Result<(), AllocError>
    ensures covers { OnOk result (CoversViews store.new columns.new.items (written_by step.now (option_map deed_in deed.now) (all_changes_in changes.now))) }
    ensures more { CoversMore store.old columns.old.items store.new columns.new.items }
{
    match deed {
        Some(deed) => {
            cover_deed(store, step, deed, columns)?;
            cover_changes(store, changes, columns)
        }
        None => Ok(()),
    }
}

/// The columns of all places that a planned step touches: those in which the cells lie that it reads, and those from which
/// what it writes is seen. Places that have no column get one. `AllocError` if there is no memory for them.
pub(crate) fn columns_of(
    alloc: Global,
    store: &mut Store<'_>,
    plan: &Plan,
) -> Result<Vec<usize>, AllocError>
    ensures covers { IfOk result (λ columns. CoversPlan (covers store.new.places.items columns.items) plan.now) }
    ensures within { IfOk result (λ columns. AreWithin store.new columns.items) }
    ensures follows { Follows store.new store.old }
    ensures parts { store.new.parts ≡ store.old.parts }
{
    let mut columns = Vec::new(alloc);
    cover_reads(store, plan.planned.reads.as_slice(), &mut columns)?;
    cover_written(
        store,
        &plan.step,
        &plan.deed,
        plan.planned.changes.as_slice(),
        &mut columns,
    )?;
    Ok(columns)
}
