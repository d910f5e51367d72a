// What becomes of a signal where it takes effect (Erlang reference manual, "Processes": "Sending Exit
// Signals" and "Receiving Exit Signals").
ghost use Rattle.std.specs.Prelude.{◌≡◌, IfOk, option_copied};
ghost use Rattle.term_core.specs.Term.{meaning_of};
ghost use Rattle.world_model.specs.Names.{ref_of};
ghost use Rattle.world_model.specs.Signals as signals;
ghost use Rattle.proc_links.specs.Process.{are_trapped};
ghost use Rattle.proc_links.specs.Effects.{fate_in, is_own};

use crate::process::Exits;
use std::alloc::{AllocError, Global};
use term_core::{Atom, Pid, RefId, Term, Terms};

/// What becomes of a signal.
#[derive(Drop)]
pub enum Effect {
    /// It ends the process, with this reason.
    Ends(Term),
    /// It is ignored.
    Ignored,
    /// It is dropped, since what it is about is gone.
    Dropped,
    /// It puts this message into the mailbox.
    Put(Term),
}

/// Who sent an exit signal.
#[derive(Clone, Copy, Debug, PartialEq, Eq)]
pub enum Sender {
    /// The process that it is for.
    Itself,
    /// Another process.
    Another,
}

/// The message `{'EXIT',From,Reason}`, or `AllocError` if there is no memory for it.
pub fn exit_message(alloc: Global, from: &Pid, reason: &Term) -> Result<Term, AllocError>
    ensures { IfOk result (λ message. meaning_of message ≡ signals.exit_message from.now (meaning_of reason.now)) }
{
    let mut parts = Terms::new(alloc);
    parts.push(Term::atom(alloc, "EXIT")?)?;
    parts.push(Term::Pid(from.copy()?))?;
    parts.push(reason.copy()?)?;
    Ok(Term::tuple(alloc, parts)?)
}

// What the message of a watch calls its process: that process, or the name by which the watch was made, with the node.
fn watched_as(alloc: Global, from: &Pid, name: Option<&Atom>) -> Result<Term, AllocError>
    ensures { IfOk result (λ who. meaning_of who ≡ signals.watched_as from.now (option_copied name.entry)) }
{
    let Some(name) = name else {
        return Ok(Term::Pid(from.copy()?));
    };
    let mut parts = Terms::new(alloc);
    parts.push(Term::Atom(name.copy()?))?;
    parts.push(Term::atom(alloc, "nonode@nohost")?)?;
    Ok(Term::tuple(alloc, parts)?)
}

/// The message `{'DOWN',Ref,'process',From,Reason}` of a watch, with `{Name,Node}` in the place of the process where it
/// was made by a name, or `AllocError` if there is no memory for it.
pub fn down_message(
    alloc: Global,
    reference: &RefId,
    from: &Pid,
    name: Option<&Atom>,
    reason: &Term,
) -> Result<Term, AllocError>
    ensures { IfOk result (λ message. meaning_of message ≡ signals.down_message (ref_of reference.now) (signals.watched_as from.now (option_copied name.entry)) (meaning_of reason.now)) }
{
    let mut parts = Terms::new(alloc);
    parts.push(Term::atom(alloc, "DOWN")?)?;
    parts.push(Term::Ref(reference.copy()?))?;
    parts.push(Term::atom(alloc, "process")?)?;
    parts.push(watched_as(alloc, from, name)?)?;
    parts.push(reason.copy()?)?;
    Ok(Term::tuple(alloc, parts)?)
}

/// What an exit signal of `exit/2` does, from this sender: reason `kill` always ends the process, with
/// `killed`; else it is a message where the process traps exits; else `normal` is ignored, unless it is
/// from the process itself; and any other reason ends it. `AllocError` if there is no memory for a message.
pub fn on_exit(
    alloc: Global,
    sender: Sender,
    from: &Pid,
    reason: &Term,
    exits: Exits,
) -> Result<Effect, AllocError>
    ensures { IfOk result (λ effect. fate_in effect ≡ signals.exit_fate (are_trapped exits) (is_own sender) from.now (meaning_of reason.now)) }
{
    if reason.is_the_atom("kill") {
        return Ok(Effect::Ends(Term::atom(alloc, "killed")?));
    }
    let effect = as_exit(alloc, sender, from, reason, exits)?;
    Ok(effect)
}

/// The same, where `kill` is a reason as any other.
pub(crate) fn as_exit(
    alloc: Global,
    sender: Sender,
    from: &Pid,
    reason: &Term,
    exits: Exits,
) -> Result<Effect, AllocError>
    ensures { IfOk result (λ effect. fate_in effect ≡ signals.as_exit (are_trapped exits) (is_own sender) from.now (meaning_of reason.now)) }
{
    match (exits, sender) {
        (Exits::Trapped, _) => Ok(Effect::Put(exit_message(alloc, from, reason)?)),
        (Exits::Untrapped, Sender::Another) if reason.is_the_atom("normal") => Ok(Effect::Ignored),
        (Exits::Untrapped, _) => Ok(Effect::Ends(reason.copy()?)),
    }
}
