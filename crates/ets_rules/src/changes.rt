// Changes of tables that are planned, one after the other.
ghost use Rattle.std.specs.Prelude.{◌≡◌, [], OnOk};
ghost use Rattle.ets_rules.specs.Changes.{all_changes_of_tables, changes_of_tables};
ghost use Rattle.ets_rules.specs.inside.Planned.{Adds};

use crate::change::TableChange;
use std::alloc::{AllocError, Global};

/// What is planned to change so far.
#[derive(Drop)]
pub(crate) struct Changes {
    pub(crate) list: Vec<TableChange>,
}

impl Changes {
    /// Nothing changes yet. It takes no memory.
    pub(crate) fn new(alloc: Global) -> Changes
        ensures { all_changes_of_tables result.list.items ≡ [] }
    {
        Changes {
            list: Vec::new(alloc),
        }
    }

    /// Something changes.
    pub(crate) fn add(&mut self, change: TableChange) -> Result<(), AllocError>
        ensures { OnOk result (Adds (changes_of_tables change) self.old self.new) }
    {
        self.list.push(change)?;
        Ok(())
    }
}
