// What a new table changes (ets manual, `new/2`).
ghost use Rattle.std.specs.Prelude.{◌≡◌, IfOk, OnOk, if◌then◌else◌, map};
ghost use Rattle.ets_calls.specs.Options.{option_in};
ghost use Rattle.ets_rules.specs.Changes.{all_changes_of_tables};
ghost use Rattle.ets_rules.specs.inside.Planned.{Adds};
ghost use Rattle.term_core.specs.Term.{meaning_of};
ghost use Rattle.world_model.specs.Names.{ref_of};
ghost use Rattle.world_model.specs.NewTables.{made, means_if};
ghost use Rattle.world_model.specs.Tables.{handle_of, table_of};
ghost use Rattle.world_model.specs.Terms.{atom, reference};

use crate::change::TableChange;
use crate::changes::Changes;
use ets_calls::TableOption;
use ets_calls::settings::is_named;
use std::alloc::{AllocError, Global};
use term_core::{Atom, Pid, RefId, Term};

/// What finds a new table, and what it changes that it is made.
#[derive(Drop)]
pub struct Created {
    /// Its name, where it is to be found by it, or else the reference of its creation.
    pub handle: Term,
    /// The changes, one after the other.
    pub changes: Vec<TableChange>,
}

// What finds a new table: its name, where it is to be found by it, or else its reference.
fn handle(id: &RefId, name: &Atom, by_name: bool) -> Result<Term, AllocError>
    ensures { IfOk result (λ term. meaning_of term ≡ (if by_name then atom name.now else reference (ref_of id.now))) }
{
    if by_name {
        return Ok(Term::Atom(name.copy()?));
    }
    Ok(Term::Ref(id.copy()?))
}

// A new name means a table, where it is to be found by it.
fn mean_if(id: &RefId, name: &Atom, by_name: bool, changes: &mut Changes) -> Result<(), AllocError>
    ensures { OnOk result (Adds (means_if by_name name.now (ref_of id.now)) changes.old changes.new) }
{
    if by_name {
        return changes.add(TableChange::NameSet(name.copy()?, id.copy()?));
    }
    Ok(())
}

/// What it changes that a process makes a table with this name and these options under the reference of this creation,
/// which nothing refuses, and what finds it. `AllocError` if there is no memory.
pub fn create(
    alloc: Global,
    owner: &Pid,
    id: &RefId,
    name: &Atom,
    options: Vec<TableOption>,
) -> Result<Created, AllocError>
    ensures handle { IfOk result (λ created. meaning_of created.handle ≡ handle_of (ref_of id.now) (table_of owner.now name.now (map option_in options.items))) }
    ensures changes { IfOk result (λ created. all_changes_of_tables created.changes.items ≡ made owner.now (ref_of id.now) name.now (map option_in options.items)) }
{
    let by_name = is_named(&options);
    let handle = handle(id, name, by_name)?;
    let mut changes = Changes::new(alloc);
    changes.add(TableChange::TableSet(id.copy()?, owner.copy()?, name.copy()?, options))?;
    changes.add(TableChange::OwnedAdded(owner.copy()?, id.copy()?))?;
    mean_if(id, name, by_name, &mut changes)?;
    Ok(Created {
        handle,
        changes: changes.list,
    })
}
