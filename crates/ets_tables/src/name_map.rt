// The references under their names.
ghost use Rattle.std.specs.Prelude.{◌≡◌, OnOk, OnErr, Some, None, option_copied, option_map, if◌then◌else◌, true};
ghost use Rattle.world_model.specs.Names as names;
ghost use Rattle.world_model.specs.Names.{same_name, ref_of};
ghost use Rattle.ets_tables.specs.Shelves.{MeanTheSame, named_in};

use std::alloc::{AllocError, Global};
use std::collections::BTreeMap;
use term_core::{Atom, RefId};

/// The references of tables under the names that mean them.
#[derive(Drop)]
pub(crate) struct NameMap {
    references: BTreeMap<Atom, RefId>,
}

impl Clone for NameMap {
    ghost use Rattle.ets_tables.specs.Shelves.{MeanTheSame};

    ghost is_clone = { MeanTheSame };

    /// The same names, each a copy.
    fn clone(&self) -> Result<NameMap, AllocError> {
        Ok(NameMap {
            references: self.references.clone()?,
        })
    }
}

impl NameMap {
    /// No names. It takes no memory.
    pub(crate) fn new(alloc: Global) -> NameMap
        ensures { (name : names.Name) → named_in result name ≡ None }
    {
        NameMap {
            references: BTreeMap::new(alloc),
        }
    }

    /// Whether each name means the same. It takes no memory.
    pub(crate) fn is_same(&self, other: &NameMap) -> bool
        ensures { result ≡ true → MeanTheSame self.now other.now }
    {
        self.references == other.references
    }

    /// What a name means, if anything. It takes no memory.
    pub(crate) fn get(&self, name: &Atom) -> Option<&RefId>
        ensures { option_map ref_of (option_copied result) ≡ named_in self.now name.now }
    {
        self.references.get(name)
    }

    /// A name means a table.
    pub(crate) fn put(&mut self, name: &Atom, id: &RefId) -> Result<(), AllocError>
        ensures ok { OnOk result ((other : names.Name) → named_in self.new other ≡ (if same_name name.now other then Some (ref_of id.now) else named_in self.old other)) }
        ensures err { OnErr result ((other : names.Name) → named_in self.new other ≡ named_in self.old other) }
    {
        self.references.insert(name.copy()?, id.copy()?)?;
        Ok(())
    }

    /// A name means nothing. It takes no memory.
    pub(crate) fn remove(&mut self, name: &Atom)
        ensures { (other : names.Name) → named_in self.new other ≡ (if same_name name.now other then None else named_in self.old other) }
    {
        drop(self.references.remove(name));
    }
}
