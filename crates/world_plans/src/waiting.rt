// Calls that wait.
ghost use Rattle.std.specs.Prelude.{◌≡◌, option_copied};
ghost use Rattle.term_core.specs.Term.{meaning_of};
ghost use Rattle.world_plans.specs.inside.Waiting.{another, asked_of};
ghost use Rattle.world_model.specs.Calls.{call_of, call_of_one, call_of_two};
ghost use Rattle.world_model.specs.Names as names;
ghost use Rattle.world_model.specs.Steps.{must_wait};
ghost use Rattle.world_model.specs.Terms.{process_in};
ghost use Rattle.world_records.specs.Records.{OfWorld};

use core_tree::CallKind;
use proc_calls::process_item_in;
use term_core::{Pid, Term, Terms};
use world_records::Records;

// The process that a call with this one argument asks about.
fn asked_alone(kind: CallKind, whom: &Term) -> Option<&Pid>
    ensures { (caller : names.Pid) → option_copied result ≡ asked_of caller (call_of_one kind (meaning_of whom.now)) }
{
    match kind {
        CallKind::IsProcessAlive => {}
        _ => return None,
    }
    match whom {
        Term::Pid(pid) => Some(pid),
        _ => None,
    }
}

// The process that a term is, if it is another one.
fn another<'a>(caller: &Pid, whom: &'a Term) -> Option<&'a Pid>
    ensures { option_copied result ≡ another caller.now (process_in (meaning_of whom.now)) }
{
    match whom {
        Term::Pid(pid) if *pid != *caller => Some(pid),
        _ => None,
    }
}

// The process that a call with these two arguments asks about.
fn asked_with<'a>(caller: &Pid, kind: CallKind, whom: &'a Term, item: &Term) -> Option<&'a Pid>
    ensures { option_copied result ≡ asked_of caller.now (call_of_two kind (meaning_of whom.now) (meaning_of item.now)) }
{
    match kind {
        CallKind::ProcessInfo => {}
        _ => return None,
    }
    process_item_in(item)?;
    another(caller, whom)
}

// The process that a call asks about.
fn asked_of<'a>(caller: &Pid, kind: CallKind, arguments: &'a Terms) -> Option<&'a Pid>
    ensures { option_copied result ≡ asked_of caller.now (call_of kind arguments.now) }
{
    match arguments.as_slice() {
        [whom] => asked_alone(kind, whom),
        [whom, item] => asked_with(caller, kind, whom, item),
        _ => None,
    }
}

/// Whether a call must wait: `is_process_alive/1` of a process that lives does, and `process_info/2` of another one, until
/// the caller's own signals to it have arrived (erlang manual, `is_process_alive/1`, `process_info/2`). It takes no memory.
pub(crate) fn must_wait(
    records: &Records<'_>,
    caller: &Pid,
    kind: CallKind,
    arguments: &Terms,
) -> bool
    ensures { OfWorld records.now (λ m v. result ≡ must_wait v caller.now (call_of kind arguments.now)) }
{
    let Some(whom) = asked_of(caller, kind, arguments) else {
        return false;
    };
    records.processes().lives(whom) && records.channels().front(caller, whom).is_some()
}
