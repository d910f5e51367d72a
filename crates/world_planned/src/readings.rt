// What the records of a world say of single cells. None of this takes memory.
ghost use Rattle.std.specs.List.{list_any};
ghost use Rattle.std.specs.Prelude.{◌≡◌, ◌<◌, ◌^◌, length, true, option_copied, option_map};
ghost use Rattle.proc_links.specs.Guards.{guard_of};
ghost use Rattle.proc_links.specs.Process.{are_trapped, is_alive};
ghost use Rattle.proc_machines.specs.Processes.{lives_in};
ghost use Rattle.proc_signals.specs.Signal.{signal_of};
ghost use Rattle.term_core.specs.Term.{meaning_of};
ghost use Rattle.world_model.specs.Cells as cells;
ghost use Rattle.world_model.specs.Cells.{Contents};
ghost use Rattle.world_model.specs.Changes.{AliveCleared, changed, is_of_watch};
ghost use Rattle.world_model.specs.Guards.{aliased, ends_by_reply, is_alias_of, watch_name};
ghost use Rattle.world_model.specs.Mailboxes.{mailbox_in, selected_of};
ghost use Rattle.world_model.specs.Names as names;
ghost use Rattle.world_model.specs.Names.{same_pid, ref_of};
ghost use Rattle.world_model.specs.Signals.{first_of, waiting_in};
ghost use Rattle.world_records.specs.Records.{OfWorld, processes_of};

use proc_links::{Exits, Guard, Life, Living};
use proc_signals::Signal;
use term_core::{Atom, Pid, RefId, Term};
use world_records::Records;

/// Whether a process lives.
pub fn lives(records: &Records<'_>, pid: &Pid) -> bool
    ensures { OfWorld records.now (λ m v. result ≡ v (cells.Alive pid.now)) }
{
    records.processes().lives(pid)
}

/// Whether a process lives, as calls of links and names ask it.
pub fn life(records: &Records<'_>, pid: &Pid) -> Life
    ensures { OfWorld records.now (λ m v. is_alive result ≡ v (cells.Alive pid.now)) }
{
    if lives(records, pid) {
        return Life::Lives;
    }
    Life::Gone
}

/// The processes that live when one is dead.
#[derive(Drop)]
pub(crate) struct Outliving<'r, 'm> {
    pub(crate) records: &'r Records<'m>,
    pub(crate) pid: &'r Pid,
}

impl<'r, 'm> Living for Outliving<'r, 'm> {
    ghost use Rattle.world_planned.specs.inside.Outliving.{outlives_by};

    ghost lives = { outlives_by };

    fn lives(&self, pid: &Pid) -> bool {
        *self.pid != *pid && self.records.processes().lives(pid)
    }
}

/// Whether a process lives when another one is dead.
pub(crate) fn outlives(records: &Records<'_>, pid: &Pid, other: &Pid) -> bool
    ensures { (w : Contents) → ((q : names.Pid) → lives_in (processes_of records.now) q ≡ w (cells.Alive q)) → result ≡ changed (AliveCleared pid.now) w (cells.Alive other.now) }
{
    let living = Outliving { records, pid };
    living.lives(other)
}

/// What exit signals are to a process (erlang manual, `process_flag/2`).
pub fn exits(records: &Records<'_>, pid: &Pid) -> Exits
    ensures { OfWorld records.now (λ m v. are_trapped result ≡ v (cells.Trap pid.now)) }
{
    records.processes().exits(pid)
}

/// Whether a process traps exits.
pub fn traps(records: &Records<'_>, pid: &Pid) -> bool
    ensures { OfWorld records.now (λ m v. result ≡ v (cells.Trap pid.now)) }
{
    match exits(records, pid) {
        Exits::Trapped => true,
        Exits::Untrapped => false,
    }
}

/// Whether a process has another one among its partners.
pub fn has_partner(records: &Records<'_>, pid: &Pid, other: &Pid) -> bool
    ensures { OfWorld records.now (λ m v. result ≡ list_any (same_pid other.now) (v (cells.Links pid.now))) }
{
    records.links().are_linked(pid, other)
}

/// Who holds a name.
pub fn holder<'r>(records: &'r Records<'_>, name: &Atom) -> Option<&'r Pid>
    ensures { OfWorld records.now (λ m v. option_copied result ≡ v (cells.Holder name.now)) }
{
    records.names().whereis(name)
}

/// Which name a process has.
pub fn name_of<'r>(records: &'r Records<'_>, pid: &Pid) -> Option<&'r Atom>
    ensures { OfWorld records.now (λ m v. option_copied result ≡ v (cells.NameOf pid.now)) }
{
    records.names().name_of(pid)
}

/// The process that a reference watches.
pub fn watched<'r>(records: &'r Records<'_>, reference: &RefId) -> Option<&'r Pid>
    ensures { OfWorld records.now (λ m v. option_copied result ≡ v (cells.Watch (ref_of reference.now))) }
{
    records.watchers().watch_of(reference)
}

/// What lets messages in that are sent to a reference.
pub fn guard<'r>(records: &'r Records<'_>, reference: &RefId) -> Option<&'r Guard>
    ensures { OfWorld records.now (λ m v. option_map guard_of (option_copied result) ≡ v (cells.Guard (ref_of reference.now))) }
{
    records.guards().guard_of(reference)
}

/// The process that a reference is an alias of.
pub fn aliased<'r>(records: &'r Records<'_>, reference: &RefId) -> Option<&'r Pid>
    ensures { OfWorld records.now (λ m v. option_copied result ≡ aliased (v (cells.Guard (ref_of reference.now)))) }
{
    records.guards().alias_of(reference)
}

/// The name by which the watch of a reference was made.
pub fn watch_name<'r>(records: &'r Records<'_>, reference: &RefId) -> Option<&'r Atom>
    ensures { OfWorld records.now (λ m v. option_copied result ≡ watch_name (v (cells.Guard (ref_of reference.now)))) }
{
    records.guards().watch_name(reference)
}

/// Whether a reference is an alias of a process.
pub fn is_alias(records: &Records<'_>, reference: &RefId, pid: &Pid) -> bool
    ensures { OfWorld records.now (λ m v. result ≡ is_alias_of pid.now (v (cells.Guard (ref_of reference.now)))) }
{
    records.guards().is_alias_of(reference, pid)
}

/// Whether a reference is an alias of a process that a message through it ends.
pub fn ends_by_reply(records: &Records<'_>, reference: &RefId, pid: &Pid) -> bool
    ensures { OfWorld records.now (λ m v. result ≡ ends_by_reply pid.now (v (cells.Guard (ref_of reference.now)))) }
{
    records.guards().ends_by_reply(reference, pid)
}

/// The oldest signal on its way from one process to another.
pub fn front<'r>(records: &'r Records<'_>, from: &Pid, to: &Pid) -> Option<&'r Signal>
    ensures { OfWorld records.now (λ m v. option_map (λ signal. signal_of signal.now) result ≡ first_of (waiting_in v from.now to.now)) }
{
    records.channels().front(from, to)
}

/// The message of a watch in the mailbox of a process, if it is there.
pub fn down<'r>(records: &'r Records<'_>, pid: &Pid, reference: &RefId) -> Option<&'r Term>
    ensures { OfWorld records.now (λ m v. option_map (λ message. meaning_of message.now) result ≡ selected_of (is_of_watch (ref_of reference.now)) (mailbox_in v pid.now)) }
{
    match records.mailboxes().of(pid) {
        Some(mailbox) => mailbox.down(reference),
        None => None,
    }
}

/// How many messages are in the mailbox of a process, fewer than 2^63.
pub fn queue_length(records: &Records<'_>, pid: &Pid) -> usize
    ensures length { OfWorld records.now (λ m v. result ≡ length (mailbox_in v pid.now)) }
    ensures fits { result < 2 ^ 63 }
{
    match records.mailboxes().of(pid) {
        Some(mailbox) => mailbox.len(),
        None => 0,
    }
}
