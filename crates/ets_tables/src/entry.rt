// Writes of one table, which may be shared with copies.
ghost use Rattle.std.specs.Prelude.{◌≡◌, OnOk, OnErr};
ghost use Rattle.ets_store.specs.Tables.{settings_in, heir_in, IsSameTable};
ghost use Rattle.world_model.specs.Tables.{owned_by, with_heir};

use ets_store::{Heir, Table};
use std::alloc::AllocError;
use std::sync::Arc;
use term_core::Pid;

/// Makes a process the owner of a table, or `AllocError` if there is no memory for what is shared with a copy:
/// then it is as it was.
pub(crate) fn hand(entry: &mut Arc<Table>, to: &Pid) -> Result<(), AllocError>
    ensures ok { OnOk result (settings_in entry.new.value ≡ owned_by to.now (settings_in entry.old.value)) }
    ensures rows { entry.new.value.rows ≡ entry.old.value.rows }
    ensures err { OnErr result (settings_in entry.new.value ≡ settings_in entry.old.value) }
{
    let owner = to.copy()?;
    let table = Arc::make_mut(entry)?;
    table.owner = owner;
    Ok(())
}

/// Gives a table another heir, or none, or `AllocError` if there is no memory for what is shared with a copy:
/// then it is as it was, and the heir is dropped.
pub(crate) fn entrust(entry: &mut Arc<Table>, heir: Option<Heir>) -> Result<(), AllocError>
    ensures ok { OnOk result (settings_in entry.new.value ≡ with_heir (heir_in heir) (settings_in entry.old.value)) }
    ensures rows { entry.new.value.rows ≡ entry.old.value.rows }
    ensures err { OnErr result (settings_in entry.new.value ≡ settings_in entry.old.value) }
{
    let table = Arc::make_mut(entry)?;
    table.heir = heir;
    Ok(())
}
