// Which processes wait at a deadlock or with unread messages, and which messages are in their mailboxes then. No write
// takes memory.
ghost use Rattle.std.specs.Prelude.{◌≡◌, false};
ghost use Rattle.term_core.specs.Stream.{Writes};
ghost use Rattle.term_core.specs.Term.{meaning_of};
ghost use Rattle.world_identities.specs.Identities.{identity_in};
ghost use Rattle.proc_mailboxes.specs.Mailboxes.{messages_in};
ghost use Rattle.world_model.specs.Mailboxes.{mailbox_in};
ghost use Rattle.world_model.specs.World.{contents};
ghost use Rattle.world_event_text.specs.CallText.{behind_comma, text_of_arguments};
ghost use Rattle.report_explained.specs.Explained.{indented, text_of_all_waiting, text_of_waiting, text_of_waits};

use proc_mailboxes::Mailboxes;
use proc_signals::Mailbox;
use term_core::{Pid, Sink, Term, WriteFault, write_all, write_pid, write_term};
use world_core::World;
use world_identities::Identity;

/// Writes a line for each process of a deadlock, or of those with unread messages, and nothing where something else was
/// found.
pub(crate) fn write_waits<W: Sink>(
    world: &World<'_>,
    identity: &Identity,
    sink: &mut W,
) -> Result<(), WriteFault>
    requires sound { W.has_failed sink.old ≡ false }
    requires lives { world.now.spent ≡ false }
    ensures { Writes (W.contents sink.old) (W.contents sink.new) (W.has_failed sink.new) result (text_of_waits world.now.history (identity_in identity.now)) }
{
    match identity {
        Identity::Deadlock(processes) => write_all_waiting(world, processes, sink),
        Identity::Unread(pids) => write_all_waiting(world, pids, sink),
        _ => Ok(()),
    }
}

// Writes a line for each of these processes.
fn write_all_waiting<W: Sink>(
    world: &World<'_>,
    processes: &[Pid],
    sink: &mut W,
) -> Result<(), WriteFault>
    requires sound { W.has_failed sink.old ≡ false }
    requires lives { world.now.spent ≡ false }
    ensures { Writes (W.contents sink.old) (W.contents sink.new) (W.has_failed sink.new) result (text_of_all_waiting world.now.history processes.now) }
{
    for pid in processes {
        write_waiting(world, pid, sink)?;
    }
    Ok(())
}

// Writes that a process waits, and the messages in its mailbox, on a line after four blanks.
fn write_waiting<W: Sink>(world: &World<'_>, pid: &Pid, sink: &mut W) -> Result<(), WriteFault>
    requires sound { W.has_failed sink.old ≡ false }
    requires lives { world.now.spent ≡ false }
    ensures { Writes (W.contents sink.old) (W.contents sink.new) (W.has_failed sink.new) result (indented (text_of_waiting pid.now (mailbox_in (contents world.now.history) pid.now))) }
{
    let mailboxes = world.records().mailboxes();
    write_all(sink, b"    ")?;
    write_pid(pid, sink)?;
    write_all(sink, b" waits, mailbox [")?;
    write_messages_of(mailboxes, pid, sink)?;
    write_all(sink, b"]\n")
}

// Writes the messages of a process with commas between them, the oldest first.
fn write_messages_of<W: Sink>(
    mailboxes: &Mailboxes,
    pid: &Pid,
    sink: &mut W,
) -> Result<(), WriteFault>
    requires { W.has_failed sink.old ≡ false }
    ensures { Writes (W.contents sink.old) (W.contents sink.new) (W.has_failed sink.new) result (text_of_arguments (messages_in mailboxes.now pid.now)) }
{
    match mailboxes.of(pid) {
        Some(mailbox) => write_messages(mailbox, sink),
        None => Ok(()),
    }
}

// Writes the messages of a mailbox with commas between them, the oldest first.
fn write_messages<W: Sink>(mailbox: &Mailbox, sink: &mut W) -> Result<(), WriteFault>
    requires { W.has_failed sink.old ≡ false }
    ensures { Writes (W.contents sink.old) (W.contents sink.new) (W.has_failed sink.new) result (text_of_arguments mailbox.now) }
{
    let Some(first) = mailbox.get(0) else {
        return Ok(());
    };
    write_term(first, sink)?;
    for place in 1..mailbox.len() {
        let Some(message) = mailbox.get(place) else {
            unreachable!()
        };
        write_behind_comma(message, sink)?;
    }
    Ok(())
}

// Writes a message after a comma.
fn write_behind_comma<W: Sink>(message: &Term, sink: &mut W) -> Result<(), WriteFault>
    requires { W.has_failed sink.old ≡ false }
    ensures { Writes (W.contents sink.old) (W.contents sink.new) (W.has_failed sink.new) result (behind_comma (meaning_of message.now)) }
{
    write_all(sink, b",")?;
    write_term(message, sink)
}
