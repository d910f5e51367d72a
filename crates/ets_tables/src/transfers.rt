// The message to a new owner of a table (ets manual, `give_away/3`; `new/2`, option `heir`).
ghost use Rattle.std.specs.Prelude.{◌≡◌, IfOk};
ghost use Rattle.term_core.specs.Term.{meaning_of};
ghost use Rattle.ets_store.specs.Tables.{settings_in};
ghost use Rattle.world_model.specs.Names.{ref_of};
ghost use Rattle.world_model.specs.Signals as signals;
ghost use Rattle.world_model.specs.Tables.{handle_of};

use ets_store::Table;
use std::alloc::{AllocError, Global};
use term_core::{Pid, RefId, Term, Terms};

/// A message to the new owner of a table that is given away, or to the heir of one whose owner ended.
#[derive(Drop)]
pub struct Transfer {
    /// The process that owns the table now.
    pub to: Pid,
    /// The message, `{'ETS-TRANSFER',Table,FromPid,Data}`.
    pub message: Term,
}

/// What finds a table: its name, where it is found by that, or else its reference (ets manual, `new/2`).
/// `AllocError` where the copies of either can no longer be counted.
pub fn handle(id: &RefId, table: &Table) -> Result<Term, AllocError>
    ensures { IfOk result (λ term. meaning_of term ≡ handle_of (ref_of id.now) (settings_in table.now)) }
{
    if table.is_named {
        return Ok(Term::Atom(table.name.copy()?));
    }
    Ok(Term::Ref(id.copy()?))
}

/// The message `{'ETS-TRANSFER',Table,FromPid,GiftData}` to a new owner of a table (ets manual, `give_away/3`), or
/// `AllocError` if there is no memory for it.
pub fn transfer_message(
    alloc: Global,
    id: &RefId,
    table: &Table,
    from: &Pid,
    gift: &Term,
) -> Result<Term, AllocError>
    ensures { IfOk result (λ message. meaning_of message ≡ signals.transfer_message (handle_of (ref_of id.now) (settings_in table.now)) from.now (meaning_of gift.now)) }
{
    let mut parts = Terms::new(alloc);
    parts.push(Term::atom(alloc, "ETS-TRANSFER")?)?;
    parts.push(handle(id, table)?)?;
    parts.push(Term::Pid(from.copy()?))?;
    parts.push(gift.copy()?)?;
    Ok(Term::tuple(alloc, parts)?)
}
