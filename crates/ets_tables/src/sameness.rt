// Whether two registries of tables are the same.
ghost use Rattle.std.specs.Prelude.{◌≡◌, true};
ghost use Rattle.ets_store.specs.Tables.{IsSameTable};
ghost use Rattle.ets_tables.specs.Shelves.{AreSame};
ghost use Rattle.ets_tables.specs.Tables.{AreTables, IsUnchanged};
ghost use Rattle.ets_tables.specs.inside.Alike.{AreSameTables};
ghost use Rattle.world_model.specs.Cells.{Contents};

use crate::registry::Registry;
use crate::shelves::Shelves;
use ets_store::Table;
use std::collections::BTreeMap;
use std::sync::Arc;
use term_core::RefId;

// Whether two maps have the same references, each with the same table.
fn same_tables(one: &BTreeMap<RefId, Arc<Table>>, other: &BTreeMap<RefId, Arc<Table>>) -> bool
    ensures { result ≡ true → AreSameTables one.now.entries other.now.entries }
{
    let mut left = one.iter();
    let mut right = other.iter();
    loop {
        match (left.next(), right.next()) {
            (None, None) => return true,
            (Some((id, table)), Some((other_id, other_table))) => {
                if id != other_id {
                    return false;
                }
                if !table.is_same(other_table) {
                    return false;
                }
            }
            _ => return false,
        }
    }
}

impl Shelves {
    // Whether the two have the same tables, names and owners.
    fn is_same(&self, other: &Shelves) -> bool
        ensures { result ≡ true → AreSame self.now other.now }
    {
        if !self.names.is_same(&other.names) {
            return false;
        }
        if !self.owned.is_same(&other.owned) {
            return false;
        }
        same_tables(&self.tables, &other.tables)
    }
}

impl Registry {
    /// Whether each reference finds the same table with the same rows, each name means the same, and each process has
    /// the same tables: where it is so, these agree with all contents that the others agree with. It takes no memory.
    pub fn is_same(&self, other: &Registry) -> bool
        ensures same { result ≡ true → IsUnchanged self.now other.now }
        ensures agrees { result ≡ true → (v : Contents) → AreTables other.now v → AreTables self.now v }
    {
        self.shelves.is_same(&other.shelves)
    }
}
