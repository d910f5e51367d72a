// What a signal does where it takes effect, whatever its kind, and which signals the end of a process puts (Erlang
// reference manual, "Processes": "Receiving Exit Signals" and "Process Termination").
ghost use Rattle.std.specs.Prelude.{◌≡◌, IfOk, map};
ghost use Rattle.term_core.specs.Term.{meaning_of};
ghost use Rattle.world_model.specs.Events as events;
ghost use Rattle.world_model.specs.Names.{ref_of};
ghost use Rattle.proc_links.specs.Effects.{IsEffectOf};
ghost use Rattle.proc_links.specs.Put.{AreSignalsOfEnd, put_of};
ghost use Rattle.proc_signals.specs.Signal.{signal_of};

use crate::effect::{Effect, Sender, on_exit};
use crate::guards::Guards;
use crate::links::Links;
use crate::living::Living;
use crate::process::Exits;
use crate::watchers::Watchers;
use proc_signals::Signal;
use std::alloc::{AllocError, Global};
use term_core::{Pid, RefId, Term};

/// What a signal from one process does at another, with what exit signals are to that one: a message is put into the
/// mailbox; an exit signal acts as `on_exit` says, that of a link and that of a watch as `Links::on_link_exit` and
/// `Watchers::on_down` say, and a message to a reference as `Guards::on_message` and `Guards::on_elapsed`. `AllocError` if
/// there is no memory for a message.
pub fn on_signal(
    alloc: Global,
    signal: &Signal,
    from: &Pid,
    to: &Pid,
    exits: Exits,
    links: &Links,
    watchers: &Watchers,
    guards: &Guards,
) -> Result<Effect, AllocError>
    ensures { IfOk result (λ effect. IsEffectOf links.now watchers.now guards.now exits from.now to.now (signal_of signal.now) effect) }
{
    match signal {
        Signal::Message(message) => Ok(Effect::Put(message.copy()?)),
        Signal::Exit(reason) => on_exit(alloc, Sender::Another, from, reason, exits),
        Signal::LinkExit(reason) => links.on_link_exit(alloc, from, to, reason, exits),
        Signal::Down(reference, reason) => {
            watchers.on_down(alloc, reference, from, guards.watch_name(reference), reason)
        }
        Signal::Guarded(reference, message) => guards.on_message(reference, to, message),
        Signal::Elapsed(reference, message) => guards.on_elapsed(reference, message),
    }
}

// The exit signals of links for these processes.
fn link_exits(alloc: Global, pids: &[Pid], reason: &Term) -> Result<Vec<(Pid, Signal)>, AllocError>
    ensures { IfOk result (λ told. map put_of told.items ≡ map (λ q. (q, events.LinkExit (meaning_of reason.now))) pids.now) }
{
    let mut told = Vec::new(alloc);
    for pid in pids {
        told.push((pid.copy()?, Signal::LinkExit(reason.copy()?)))?;
    }
    Ok(told)
}

// The signals of watches for the makers of these references.
fn downs(
    alloc: Global,
    references: &[RefId],
    reason: &Term,
) -> Result<Vec<(Pid, Signal)>, AllocError>
    ensures { IfOk result (λ told. map put_of told.items ≡ map (λ ref. (ref.pid, events.Down ref (meaning_of reason.now))) (map ref_of references.now)) }
{
    let mut told = Vec::new(alloc);
    for reference in references {
        let down = Signal::Down(reference.copy()?, reason.copy()?);
        told.push((reference.pid().copy()?, down))?;
    }
    Ok(told)
}

/// The signals that the end of a process with this reason puts, each with the process that it is for: those of its
/// links to its partners that live, in the order of pids, and then those of its watches to the watchers that live,
/// in the order of references. `AllocError` if there is no memory for them.
pub fn on_end<L: Living>(
    alloc: Global,
    pid: &Pid,
    reason: &Term,
    living: &L,
    links: &Links,
    watchers: &Watchers,
) -> Result<Vec<(Pid, Signal)>, AllocError>
    ensures { IfOk result (λ told. AreSignalsOfEnd links.now watchers.now (L.lives living.now) pid.now (meaning_of reason.now) (map put_of told.items)) }
{
    let partners = links.told(alloc, pid, living)?;
    let mut told = link_exits(alloc, partners.as_slice(), reason)?;
    let references = watchers.told(alloc, pid, living)?;
    let mut later = downs(alloc, references.as_slice(), reason)?;
    told.append(&mut later)?;
    Ok(told)
}
