// What a process leaves to others at its end, and what that reads (Erlang reference manual, "Processes": "Process
// Termination").
ghost use Rattle.std.specs.Prelude.{◌≡◌, ◌∷◌, [], OnOk, map};
ghost use Rattle.proc_links.specs.Links.{partners_in};
ghost use Rattle.proc_links.specs.Put.{put_of, puts_by};
ghost use Rattle.proc_links.specs.Watchers.{watchers_in};
ghost use Rattle.proc_links.specs.declared.links.Links as declared;
ghost use Rattle.world_planned.specs.inside.Planned.{Adds};
ghost use Rattle.world_planned.specs.inside.Seen.{PlansTold, SeesEnd};
ghost use Rattle.term_core.specs.Term.{meaning_of};
ghost use Rattle.world_model.specs.Cells as cells;
ghost use Rattle.world_model.specs.Cells.{Contents};
ghost use Rattle.world_model.specs.Changes as changes;
ghost use Rattle.world_model.specs.Changes.{AliveCleared, changed};
ghost use Rattle.world_model.specs.Ends.{left_by, name_left, reads_of_end};

use crate::planned::Planned;
use crate::readings::Outliving;
use crate::tables::end_tables;
use ets_rules::TableChange;
use proc_links::{Links, Watchers, on_end};
use proc_signals::Signal;
use std::alloc::{AllocError, Global};
use term_core::{Pid, Term};
use world_records::{Change, ProcessPart, Records};

// Whether each partner of a process lives is read.
fn read_partners(links: &Links, pid: &Pid, planned: &mut Planned) -> Result<(), AllocError>
    ensures { OnOk result (Adds (map cells.Alive (partners_in links.now pid.now)) [] planned.old planned.new) }
{
    let Some(partners) = links.partners(pid) else {
        return Ok(());
    };
    for partner in partners.iter() {
        planned.read_process(ProcessPart::Alive, partner)?;
    }
    Ok(())
}

// Whether the maker of each watch of a process lives is read.
fn read_makers(watchers: &Watchers, pid: &Pid, planned: &mut Planned) -> Result<(), AllocError>
    ensures { OnOk result (Adds (map (λ ref. cells.Alive ref.pid) (watchers_in watchers.now pid.now)) [] planned.old planned.new) }
{
    let Some(references) = watchers.watchers_of(pid) else {
        return Ok(());
    };
    for reference in references.iter() {
        planned.read_process(ProcessPart::Alive, reference.pid())?;
    }
    Ok(())
}

// A process puts these signals.
fn put(pid: &Pid, told: Vec<(Pid, Signal)>, planned: &mut Planned) -> Result<(), AllocError>
    ensures { OnOk result (Adds [] (puts_by pid.now (map put_of told.items)) planned.old planned.new) }
{
    for (to, signal) in told {
        planned.change(Change::SignalPut(pid.copy()?, to, signal))?;
    }
    Ok(())
}

// The partners and the watchers of a process that ends: whether each lives is read, and those that do are informed.
fn tell(
    records: &Records<'_>,
    alloc: Global,
    links: &Links,
    pid: &Pid,
    reason: &Term,
    planned: &mut Planned,
) -> Result<(), AllocError>
    ensures { OnOk result ((w : Contents) → SeesEnd records.now links.now w → PlansTold w pid.now (meaning_of reason.now) planned.old planned.new) }
{
    let watchers = records.watchers();
    read_partners(links, pid, planned)?;
    read_makers(watchers, pid, planned)?;
    let living = Outliving { records, pid };
    let told = on_end(alloc, pid, reason, &living, links, watchers)?;
    put(pid, told, planned)?;
    Ok(())
}

// A process that ends has no tables.
fn empty(pid: &Pid, planned: &mut Planned) -> Result<(), AllocError>
    ensures { OnOk result (Adds [] (changes.OwnedCleared pid.now ∷ []) planned.old planned.new) }
{
    planned.change(Change::OfTables(TableChange::OwnedCleared(pid.copy()?)))?;
    Ok(())
}

// The name of a process that ends.
fn leave_name(records: &Records<'_>, pid: &Pid, planned: &mut Planned) -> Result<(), AllocError>
    ensures { OnOk result ((links : declared.Links) (w : Contents) → SeesEnd records.now links w →
        Adds [] (name_left pid.now (w (cells.NameOf pid.now))) planned.old planned.new) }
{
    match records.names().name_of(pid) {
        Some(name) => {
            planned.change(Change::NameUnregistered(name.copy()?, pid.copy()?))?;
            Ok(())
        }
        None => {
            planned.change(Change::NameCleared(pid.copy()?))?;
            Ok(())
        }
    }
}

// What a process reads of itself at its end.
fn read_itself(pid: &Pid, planned: &mut Planned) -> Result<(), AllocError>
    ensures { OnOk result (Adds (cells.Owned pid.now ∷ cells.Links pid.now ∷ cells.Watchers pid.now ∷ cells.NameOf pid.now ∷ []) [] planned.old planned.new) }
{
    planned.read_process(ProcessPart::Owned, pid)?;
    planned.read_process(ProcessPart::Links, pid)?;
    planned.read_process(ProcessPart::Watchers, pid)?;
    planned.read_process(ProcessPart::NameOf, pid)?;
    Ok(())
}

/// What a process leaves to others at its end with this reason, where it has these links. `AllocError` if there is no
/// memory.
pub fn leave(
    records: &Records<'_>,
    alloc: Global,
    links: &Links,
    pid: &Pid,
    reason: &Term,
    planned: &mut Planned,
) -> Result<(), AllocError>
    ensures { OnOk result ((w : Contents) → SeesEnd records.now links.now w →
        Adds (reads_of_end w pid.now) (left_by (changed (AliveCleared pid.now) w) pid.now (meaning_of reason.now)) planned.old planned.new) }
{
    read_itself(pid, planned)?;
    end_tables(records, alloc, pid, planned)?;
    empty(pid, planned)?;
    tell(records, alloc, links, pid, reason, planned)?;
    leave_name(records, pid, planned)?;
    Ok(())
}
