// The tables of a process that ends (ets manual, `new/2`, option `heir`).
ghost use Rattle.std.specs.Prelude.{◌≡◌, [], OnOk, map, option_copied, option_map};
ghost use Rattle.ets_store.specs.Tables.{settings_in};
ghost use Rattle.world_model.specs.Names.{ref_of};
ghost use Rattle.world_planned.specs.inside.Planned.{Adds};
ghost use Rattle.world_model.specs.Cells as cells;
ghost use Rattle.world_model.specs.Changes.{AliveCleared, changed};
ghost use Rattle.world_model.specs.Ends.{alive_if};
ghost use Rattle.world_planned.specs.inside.Seen.{AtEnd, PlansTable, PlansTables, WhereAlive, heir_of_table, lives_if};

use crate::planned::Planned;
use crate::readings::outlives;
use ets_rules::{Passed, pass_on};
use ets_store::Table;
use std::alloc::{AllocError, Global};
use std::collections::BTreeSet;
use term_core::{Pid, RefId};
use world_records::{ProcessPart, Records, ReferencePart};

// The process that inherits a table, where one is there and has an heir.
fn heir_of<'t>(table: Option<&'t Table>) -> Option<&'t Pid>
    ensures { option_copied result ≡ heir_of_table (option_map settings_in (option_copied table.entry)) }
{
    let table = table?;
    match &table.heir {
        Some(heir) => Some(&heir.pid),
        None => None,
    }
}

// Whether an heir lives is read, if there is one.
fn read_heir(heir: Option<&Pid>, planned: &mut Planned) -> Result<(), AllocError>
    ensures { OnOk result (Adds (alive_if (option_copied heir.entry)) [] planned.old planned.new) }
{
    match heir {
        Some(heir) => planned.read_process(ProcessPart::Alive, heir),
        None => Ok(()),
    }
}

// Whether there is an heir, and it lives when a process is dead.
fn is_left(records: &Records<'_>, pid: &Pid, heir: Option<&Pid>) -> bool
    ensures { WhereAlive records.now (λ w. result ≡ lives_if (changed (AliveCleared pid.now) w) (option_copied heir.entry)) }
{
    match heir {
        Some(heir) => outlives(records, pid, heir),
        None => false,
    }
}

// A table that a process has when it ends: it goes to its heir, if that lives, or goes.
fn end_table(
    records: &Records<'_>,
    alloc: Global,
    pid: &Pid,
    id: &RefId,
    planned: &mut Planned,
) -> Result<(), AllocError>
    ensures { OnOk result (AtEnd records.now (λ w. PlansTable w pid.now (ref_of id.now) planned.old planned.new)) }
{
    let table = records.tables().get(id);
    let heir = heir_of(table);
    planned.read_reference(ReferencePart::Table, id)?;
    read_heir(heir, planned)?;
    let Passed { changes, transfer } = pass_on(alloc, pid, id, table, is_left(records, pid, heir))?;
    planned.change_tables(changes)?;
    planned.tell_owner(pid, transfer)?;
    Ok(())
}

// Each of these tables of a process that ends.
fn end_each(
    records: &Records<'_>,
    alloc: Global,
    pid: &Pid,
    owned: &BTreeSet<RefId>,
    planned: &mut Planned,
) -> Result<(), AllocError>
    ensures { OnOk result (AtEnd records.now (λ w. PlansTables w pid.now (map ref_of owned.now.keys) planned.old planned.new)) }
{
    for id in owned.iter() {
        end_table(records, alloc, pid, id, planned)?;
    }
    Ok(())
}

/// The tables of a process that ends: each is read, and whether its heir lives; each goes to its heir, or goes.
/// `AllocError` if there is no memory.
pub(crate) fn end_tables(
    records: &Records<'_>,
    alloc: Global,
    pid: &Pid,
    planned: &mut Planned,
) -> Result<(), AllocError>
    ensures { OnOk result (AtEnd records.now (λ w. PlansTables w pid.now (w (cells.Owned pid.now)) planned.old planned.new)) }
{
    let Some(owned) = records.tables().owned(pid) else {
        return Ok(());
    };
    end_each(records, alloc, pid, owned, planned)?;
    Ok(())
}
