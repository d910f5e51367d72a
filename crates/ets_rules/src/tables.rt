// The tables of a world, and what finds one (ets manual, `new/2`).
ghost use Rattle.std.specs.Prelude.{◌≡◌, [], None, Some, IfOk, IfSome, List, map, option_copied, option_map, true};
ghost use Rattle.ets_calls.specs.Arguments.{argument_in};
ghost use Rattle.ets_rules.specs.Tables.{Hold, IsUnchanged, found_of, held_in, meant_in, owned_in};
ghost use Rattle.proc_groups.specs.Groups.{members_of};
ghost use Rattle.world_model.specs.Names.{ref_of};
ghost use Rattle.world_model.specs.Cells as cells;
ghost use Rattle.world_model.specs.Cells.{Contents};
ghost use Rattle.world_model.specs.TableAccess.{as_found, find, meant, unless_named};
ghost use Rattle.world_model.specs.Names as names;

use crate::found::FoundTable;
use ets_calls::TableArgument;
use ets_store::Table;
use ets_tables::Registry;
use std::alloc::{AllocError, Global};
use std::collections::BTreeSet;
use std::hash::Hasher;
use term_core::{Atom, Pid, RefId};

/// The tables of a world, with their names and owners. Copies share all of it until one of them is written.
#[derive(Drop)]
pub struct Tables {
    pub(crate) registry: Registry,
}

impl Tables {
    /// No tables, or `AllocError` if there is no memory.
    pub fn new(alloc: Global) -> Result<Tables, AllocError>
        ensures tables { IfOk result (λ begun. (t : names.Ref) → held_in begun t ≡ None) }
        ensures names { IfOk result (λ begun. (name : names.Name) → meant_in begun name ≡ None) }
        ensures owned { IfOk result (λ begun. (p : names.Pid) → owned_in begun p ≡ []) }
    {
        Ok(Tables {
            registry: Registry::new(alloc)?,
        })
    }

    /// The same tables, which share memory with these, or `AllocError` where the copies can no longer be counted. It
    /// is one step, whatever their number.
    pub fn copy(&self) -> Result<Tables, AllocError>
        ensures { IfOk result (λ copied. IsUnchanged self.now copied) }
    {
        Ok(Tables {
            registry: self.registry.copy()?,
        })
    }

    /// Whether each reference finds the same table with the same rows, each name means the same, and each process owns
    /// the same tables: where it is so, these hold all contents that the others hold. It takes no memory.
    pub fn is_same(&self, other: &Tables) -> bool
        ensures same { result ≡ true → IsUnchanged self.now other.now }
        ensures agrees { result ≡ true → (v : Contents) → Hold other.now v → Hold self.now v }
    {
        self.registry.is_same(&other.registry)
    }

    /// Feeds a hasher with the owner and the rows of each table, by which a search finds what may be the same: it gives
    /// the same for tables that are. It takes no memory.
    pub fn feed<H: Hasher>(&self, state: &mut H) {
        self.registry.feed(state);
    }

    /// A table by the reference of its creation: its name, owner, heir and settings, and its rows. It takes no
    /// memory.
    pub fn get(&self, id: &RefId) -> Option<&Table>
        ensures { option_copied result ≡ held_in self.now (ref_of id.now) }
    {
        self.registry.get(id)
    }

    /// The tables that a process owns, by the references of their creations, in order; `None` where it owns none. It
    /// takes no memory.
    pub fn owned(&self, pid: &Pid) -> Option<&BTreeSet<RefId>>
        ensures { map ref_of (members_of (option_copied result)) ≡ owned_in self.now pid.now }
    {
        self.registry.owned(pid)
    }

    // The table with this reference.
    fn at<'t>(&'t self, id: &'t RefId) -> Option<FoundTable<'t>>
        ensures found { (v : Contents) → Hold self.now v → option_map found_of result ≡ as_found (ref_of id.now) (v (cells.Table (ref_of id.now))) }
        ensures held { IfSome result (λ found. held_in self.now (ref_of found.id.now) ≡ Some found.table.now) }
    {
        match self.registry.get(id) {
            Some(table) => Some(FoundTable { id, table }),
            None => None,
        }
    }

    // The table that a name means.
    fn named<'t>(&'t self, name: &Atom) -> Option<FoundTable<'t>>
        ensures found { (v : Contents) → Hold self.now v → option_map found_of result ≡ meant v (v (cells.TableName name.now)) }
        ensures held { IfSome result (λ found. held_in self.now (ref_of found.id.now) ≡ Some found.table.now) }
    {
        match self.registry.named(name) {
            Some(id) => self.at(id),
            None => None,
        }
    }

    // The table with this reference, if it is not to be found by its name.
    fn unnamed<'t>(&'t self, id: &'t RefId) -> Option<FoundTable<'t>>
        ensures found { (v : Contents) → Hold self.now v → option_map found_of result ≡ unless_named (as_found (ref_of id.now) (v (cells.Table (ref_of id.now)))) }
        ensures held { IfSome result (λ found. held_in self.now (ref_of found.id.now) ≡ Some found.table.now) }
    {
        match self.at(id) {
            Some(found) if !found.table.is_named => Some(found),
            _ => None,
        }
    }

    /// The table that an argument finds: a name finds the table that was made to be found by it, a reference one
    /// that was not. It takes no memory (ets manual, `new/2`, option `named_table`).
    pub fn find<'t>(&'t self, argument: &'t TableArgument) -> Option<FoundTable<'t>>
        ensures found { (v : Contents) → Hold self.now v → option_map found_of result ≡ find v (argument_in argument.now) }
        ensures held { IfSome result (λ found. held_in self.now (ref_of found.id.now) ≡ Some found.table.now) }
    {
        match argument {
            TableArgument::ByName(name) => self.named(name),
            TableArgument::ByReference(id) => self.unnamed(id),
            TableArgument::ByNothing => None,
        }
    }
}
