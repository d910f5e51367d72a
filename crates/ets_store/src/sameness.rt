// Whether two tables are the same: their settings, and their objects under each key.
ghost use Rattle.std.specs.Prelude.{◌≡◌, option_copied, true};
ghost use Rattle.ets_store.specs.Tables.{IsSameTable, heir_in};
ghost use Rattle.ets_store.specs.inside.Alike.{heir_seen};

use crate::row_map::RowMap;
use crate::rows::Rows;
use crate::table::{Heir, Table};

impl RowMap {
    // Whether the two have the same keys, with the same objects under each.
    fn is_same(&self, other: &RowMap) -> bool
        ensures { result ≡ true → self.now ≡ other.now }
    {
        self.entries == other.entries
    }
}

impl Rows {
    /// Whether the two have one kind, one position of keys, and the same objects under each key, in one order. It
    /// takes no memory.
    pub fn is_same(&self, other: &Rows) -> bool
        ensures { result ≡ true → self.now ≡ other.now }
    {
        if self.kind != other.kind {
            return false;
        }
        if self.position != other.position {
            return false;
        }
        self.map.is_same(&other.map)
    }
}

impl Heir {
    // Whether the two are one process, which is given the same data.
    fn is_same(&self, other: &Heir) -> bool
        ensures { result ≡ true → heir_seen self.now ≡ heir_seen other.now }
    {
        if self.pid != other.pid {
            return false;
        }
        self.data == other.data
    }
}

// Whether two tables have the same heir, or none.
fn same_heir(one: Option<&Heir>, other: Option<&Heir>) -> bool
    ensures { result ≡ true → heir_in (option_copied one.entry) ≡ heir_in (option_copied other.entry) }
{
    match (one, other) {
        (None, None) => true,
        (Some(one), Some(other)) => one.is_same(other),
        _ => false,
    }
}

impl Table {
    // Whether the two have one name, and are both found by it or both not.
    fn same_name(&self, other: &Table) -> bool
        ensures name { result ≡ true → self.now.name ≡ other.now.name }
        ensures is_named { result ≡ true → self.now.is_named ≡ other.now.is_named }
    {
        if self.is_named != other.is_named {
            return false;
        }
        self.name == other.name
    }

    // Whether the two have one owner and one heir, and give others the same access.
    fn same_access(&self, other: &Table) -> bool
        ensures owner { result ≡ true → self.now.owner ≡ other.now.owner }
        ensures heir { result ≡ true → heir_in self.now.heir ≡ heir_in other.now.heir }
        ensures protection { result ≡ true → self.now.protection ≡ other.now.protection }
    {
        if self.protection != other.protection {
            return false;
        }
        if self.owner != other.owner {
            return false;
        }
        same_heir(self.heir.as_ref(), other.heir.as_ref())
    }

    /// Whether the two have the same settings and the same rows. It takes no memory.
    pub fn is_same(&self, other: &Table) -> bool
        ensures { result ≡ true → IsSameTable self.now other.now }
    {
        if !self.same_name(other) {
            return false;
        }
        if !self.same_access(other) {
            return false;
        }
        self.rows.is_same(&other.rows)
    }
}
