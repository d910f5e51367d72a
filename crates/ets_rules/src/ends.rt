// Where the tables of a process go when it ends (ets manual, `new/2`, option `heir`).
ghost use Rattle.std.specs.Prelude.{◌≡◌, [], ◌∷◌, ◌++◌, IfOk, OnOk, OnErr, map, option_copied, option_map};
ghost use Rattle.ets_rules.specs.Plans.{SaysOfHeir, SaysOfHeirOf};
ghost use Rattle.ets_rules.specs.Tables.{Hold, IsUnchanged, told_in};
ghost use Rattle.ets_rules.specs.inside.Ending.{AtEnd, Leaves, WhereAlive};
ghost use Rattle.ets_store.specs.Tables.{heir_in, settings_in};
ghost use Rattle.ets_tables.specs.Ends.{tables_left, transfer_of, transfers_in};
ghost use Rattle.world_model.specs.Cells as cells;
ghost use Rattle.world_model.specs.Cells.{AreAlive, Contents};
ghost use Rattle.world_model.specs.Changes.{OwnedCleared, after};
ghost use Rattle.world_model.specs.Ends.{table_passes, tables_pass};
ghost use Rattle.world_model.specs.Names.{ref_of};
ghost use Rattle.std.specs.BTreeSet.{contains};
ghost use Rattle.term_core.specs.Order.{order_of_lists};

use crate::leaving::pass_on;
use crate::tables::Tables;
use ets_store::{Heir, Table};
use ets_tables::Transfer;
use std::alloc::{AllocError, Global};
use std::collections::BTreeSet;
use term_core::{Pid, RefId};

// Whether there is an heir, and it lives.
fn lives(heir: &Option<Heir>, living: &BTreeSet<Pid>) -> bool
    ensures { WhereAlive living.now (λ v. SaysOfHeir result v (heir_in heir.now)) }
{
    match heir {
        Some(heir) => living.contains(&heir.pid),
        None => false,
    }
}

// Whether the heir of a table lives, if there is one.
fn heir_lives(table: Option<&Table>, living: &BTreeSet<Pid>) -> bool
    ensures { WhereAlive living.now (λ v. SaysOfHeirOf result v (option_map settings_in (option_copied table.entry))) }
{
    match table {
        Some(table) => lives(&table.heir, living),
        None => false,
    }
}

impl Tables {
    // A table of a process that ends goes to its heir, which is informed, or goes: that is done in a copy.
    fn leave(
        &self,
        alloc: Global,
        pid: &Pid,
        id: &RefId,
        living: &BTreeSet<Pid>,
        changed: &mut Tables,
    ) -> Result<Option<Transfer>, AllocError>
        ensures ok { OnOk result (AtEnd self.now living.now (λ v. Leaves (table_passes v pid.now (ref_of id.now) (v (cells.Table (ref_of id.now)))) changed.old changed.new)) }
        ensures told { IfOk result (λ transfer. AtEnd self.now living.now (λ v. transfers_in (table_passes v pid.now (ref_of id.now) (v (cells.Table (ref_of id.now)))) ≡ told_in transfer)) }
    {
        let table = self.get(id);
        let left = pass_on(alloc, pid, id, table, heir_lives(table, living))?;
        changed.change_each(alloc, left.changes.as_slice())?;
        Ok(left.transfer)
    }

    // Each of these tables of a process that ends.
    fn leave_each(
        &self,
        alloc: Global,
        pid: &Pid,
        owned: &BTreeSet<RefId>,
        living: &BTreeSet<Pid>,
        changed: &mut Tables,
    ) -> Result<Vec<Transfer>, AllocError>
        ensures ok { OnOk result (AtEnd self.now living.now (λ v. Leaves (tables_pass v pid.now (map ref_of owned.now.keys)) changed.old changed.new)) }
        ensures told { IfOk result (λ transfers. AtEnd self.now living.now (λ v. transfers_in (tables_pass v pid.now (map ref_of owned.now.keys)) ≡ map transfer_of transfers.items)) }
    {
        let mut transfers = Vec::new(alloc);
        for id in owned.iter() {
            let told = self.leave(alloc, pid, id, living, changed)?;
            if let Some(transfer) = told {
                transfers.push(transfer)?;
            }
        }
        Ok(transfers)
    }

    // All tables that a process has when it ends.
    fn leave_all(
        &self,
        alloc: Global,
        pid: &Pid,
        living: &BTreeSet<Pid>,
        changed: &mut Tables,
    ) -> Result<Vec<Transfer>, AllocError>
        ensures ok { OnOk result (AtEnd self.now living.now (λ v. Leaves (tables_left v pid.now) changed.old changed.new)) }
        ensures told { IfOk result (λ transfers. AtEnd self.now living.now (λ v. transfers_in (tables_left v pid.now) ≡ map transfer_of transfers.items)) }
    {
        let Some(owned) = self.owned(pid) else {
            return Ok(Vec::new(alloc));
        };
        let transfers = self.leave_each(alloc, pid, owned, living, changed)?;
        Ok(transfers)
    }

    /// What the end of a process does to its tables, where those in the set live and the process does not: in the
    /// order of their creation each goes to its heir, where that lives, and is else destroyed with its rows, and its
    /// name means nothing then. The answer has the messages to the heirs, in that order. `AllocError` if there is no
    /// memory for it, and then nothing is changed.
    pub fn owner_ends(
        &mut self,
        alloc: Global,
        pid: &Pid,
        living: &BTreeSet<Pid>,
    ) -> Result<Vec<Transfer>, AllocError>
        ensures tables { OnOk result ((v : Contents) → Hold self.old v → AreAlive (contains order_of_lists living.now) v → Hold self.new (after (tables_left v pid.now ++ (OwnedCleared pid.now ∷ [])) v)) }
        ensures told { IfOk result (λ transfers. (v : Contents) → Hold self.old v → AreAlive (contains order_of_lists living.now) v → transfers_in (tables_left v pid.now) ≡ map transfer_of transfers.items) }
        ensures err { OnErr result (IsUnchanged self.old self.new) }
    {
        let mut changed = self.copy()?;
        let transfers = self.leave_all(alloc, pid, living, &mut changed)?;
        changed.empty(pid)?;
        *self = changed;
        Ok(transfers)
    }
}
