// What calls that are served answer, leave and report (ets manual, each under the name of its call).
ghost use Rattle.std.specs.Prelude.{◌≡◌, [], IfOk, OnOk, OnErr, codes};
ghost use Rattle.ets_calls.specs.Arguments.{argument_in};
ghost use Rattle.ets_calls.specs.Calls.{call_in};
ghost use Rattle.ets_rules.specs.Changes.{CanApply, all_changes_of_tables};
ghost use Rattle.ets_rules.specs.Tables.{Hold, IsUnchanged, WhereNotRefused, told_in};
ghost use Rattle.ets_tables.specs.Ends.{transfers_in};
ghost use Rattle.term_core.specs.Term.{meaning_of};
ghost use Rattle.world_model.specs.Cells.{Contents};
ghost use Rattle.world_model.specs.Changes.{after};
ghost use Rattle.world_model.specs.Terms.{atom};

use crate::change::TableChange;
use crate::serving::serve;
use crate::tables::Tables;
use ets_calls::{TableArgument, TableCall};
use ets_tables::Transfer;
use std::alloc::{AllocError, Global};
use term_core::Term;

/// What a call answers, and what it sends to another process, if anything.
#[derive(Drop)]
pub struct Done {
    /// The answer.
    pub answer: Term,
    /// The message to the new owner of a table that is given away.
    pub transfer: Option<Transfer>,
}

// What `info/2` answers where there is no table.
fn nothing_found(alloc: Global) -> Result<Done, AllocError>
    ensures answer { IfOk result (λ done. meaning_of done.answer ≡ atom (codes "undefined")) }
    ensures told { IfOk result (λ done. told_in done.transfer ≡ []) }
{
    Ok(Done {
        answer: Term::atom(alloc, "undefined")?,
        transfer: None,
    })
}

impl Tables {
    /// Does several changes, one after the other. `AllocError` if there is no memory, and then the tables may be changed
    /// in part.
    pub(crate) fn change_each(
        &mut self,
        alloc: Global,
        changes: &[TableChange],
    ) -> Result<(), AllocError>
        ensures { OnOk result ((v : Contents) → Hold self.old v → CanApply v (all_changes_of_tables changes.now) → Hold self.new (after (all_changes_of_tables changes.now) v)) }
    {
        for change in changes {
            self.change(alloc, change)?;
        }
        Ok(())
    }

    // The same, on a copy that takes the place of these tables when all is done: where there is no memory, nothing is
    // changed.
    fn change_all(&mut self, alloc: Global, changes: &[TableChange]) -> Result<(), AllocError>
        ensures ok { OnOk result ((v : Contents) → Hold self.old v → CanApply v (all_changes_of_tables changes.now) → Hold self.new (after (all_changes_of_tables changes.now) v)) }
        ensures err { OnErr result (IsUnchanged self.old self.new) }
    {
        let mut changed = self.copy()?;
        changed.change_each(alloc, changes)?;
        *self = changed;
        Ok(())
    }

    /// Does what a call does that no rule refuses: gives its answer, changes the tables, and says what it sends to
    /// another process. `AllocError` if there is no memory for it, and then nothing is changed. For a call that is
    /// refused it promises nothing else: judge it first, by `judge`.
    pub fn apply(
        &mut self,
        alloc: Global,
        argument: &TableArgument,
        call: &TableCall,
    ) -> Result<Done, AllocError>
        ensures tables { OnOk result (WhereNotRefused self.old (argument_in argument.now) (call_in call.now) (λ v l. Hold self.new (after l.changes v))) }
        ensures answer { IfOk result (λ done. WhereNotRefused self.old (argument_in argument.now) (call_in call.now) (λ v l. meaning_of done.answer ≡ l.answer)) }
        ensures told { IfOk result (λ done. WhereNotRefused self.old (argument_in argument.now) (call_in call.now) (λ v l. told_in done.transfer ≡ transfers_in l.changes)) }
        ensures err { OnErr result (IsUnchanged self.old self.new) }
    {
        let Some(found) = self.find(argument) else {
            let done = nothing_found(alloc)?;
            return Ok(done);
        };
        let served = serve(alloc, found, call)?;
        self.change_all(alloc, served.changes.as_slice())?;
        Ok(Done {
            answer: served.answer,
            transfer: served.transfer,
        })
    }
}
