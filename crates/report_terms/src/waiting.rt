// Which processes wait at a deadlock or with unread messages, and which messages are in their mailboxes then.
ghost use Rattle.std.specs.Prelude.{◌≡◌, false};
ghost use Rattle.world_identities.specs.Identities.{identity_in};
ghost use Rattle.proc_mailboxes.specs.Mailboxes.{messages_in};
ghost use Rattle.world_model.specs.Mailboxes.{mailbox_in};
ghost use Rattle.world_model.specs.World.{contents};
ghost use Rattle.report_explained.specs.Explained.{IsExplained};
ghost use Rattle.report_terms.specs.Strings.{strings_of_terms};
ghost use Rattle.report_terms.specs.TermsReport.{waits_line, waits_lines, who_waits};

use crate::strings::{write_pid_string, write_term_after_comma, write_term_string};
use proc_mailboxes::Mailboxes;
use proc_signals::Mailbox;
use report_explained::ExplainFault;
use std::alloc::Global;
use term_core::{Pid, Sink, write_all};
use world_core::World;
use world_identities::Identity;

/// Writes a line for each process of a deadlock, or of those with unread messages, and nothing where something else was
/// found.
pub(crate) fn write_waits<W: Sink>(
    alloc: Global,
    world: &World<'_>,
    identity: &Identity,
    sink: &mut W,
) -> Result<(), ExplainFault>
    requires sound { W.has_failed sink.old ≡ false }
    requires lives { world.now.spent ≡ false }
    ensures { IsExplained (who_waits world.now.history (identity_in identity.now)) (W.contents sink.old) (W.contents sink.new) (W.has_failed sink.new) result }
{
    match identity {
        Identity::Deadlock(processes) => write_all_waiting(alloc, world, processes, sink),
        Identity::Unread(pids) => write_all_waiting(alloc, world, pids, sink),
        _ => Ok(()),
    }
}

// Writes a line for each of these processes.
fn write_all_waiting<W: Sink>(
    alloc: Global,
    world: &World<'_>,
    processes: &[Pid],
    sink: &mut W,
) -> Result<(), ExplainFault>
    requires sound { W.has_failed sink.old ≡ false }
    requires lives { world.now.spent ≡ false }
    ensures { IsExplained (waits_lines world.now.history processes.now) (W.contents sink.old) (W.contents sink.new) (W.has_failed sink.new) result }
{
    for pid in processes {
        write_waiting(alloc, world, pid, sink)?;
    }
    Ok(())
}

// Writes the line of a process that waits, with the messages in its mailbox.
fn write_waiting<W: Sink>(
    alloc: Global,
    world: &World<'_>,
    pid: &Pid,
    sink: &mut W,
) -> Result<(), ExplainFault>
    requires sound { W.has_failed sink.old ≡ false }
    requires lives { world.now.spent ≡ false }
    ensures { IsExplained (waits_line pid.now (mailbox_in (contents world.now.history) pid.now)) (W.contents sink.old) (W.contents sink.new) (W.has_failed sink.new) result }
{
    let mailboxes = world.records().mailboxes();
    write_all(sink, b"{waits,")?;
    write_pid_string(pid, sink)?;
    write_all(sink, b",[")?;
    write_messages_of(alloc, mailboxes, pid, sink)?;
    write_all(sink, b"]}.\n")?;
    Ok(())
}

// Writes the messages of a process with commas between them, the oldest first.
fn write_messages_of<W: Sink>(
    alloc: Global,
    mailboxes: &Mailboxes,
    pid: &Pid,
    sink: &mut W,
) -> Result<(), ExplainFault>
    requires { W.has_failed sink.old ≡ false }
    ensures { IsExplained (strings_of_terms (messages_in mailboxes.now pid.now)) (W.contents sink.old) (W.contents sink.new) (W.has_failed sink.new) result }
{
    match mailboxes.of(pid) {
        Some(mailbox) => write_messages(alloc, mailbox, sink),
        None => Ok(()),
    }
}

// Writes the messages of a mailbox with commas between them, the oldest first.
fn write_messages<W: Sink>(
    alloc: Global,
    mailbox: &Mailbox,
    sink: &mut W,
) -> Result<(), ExplainFault>
    requires { W.has_failed sink.old ≡ false }
    ensures { IsExplained (strings_of_terms mailbox.now) (W.contents sink.old) (W.contents sink.new) (W.has_failed sink.new) result }
{
    let Some(first) = mailbox.get(0) else {
        return Ok(());
    };
    write_term_string(alloc, first, sink)?;
    for place in 1..mailbox.len() {
        let Some(message) = mailbox.get(place) else {
            unreachable!()
        };
        write_term_after_comma(alloc, message, sink)?;
    }
    Ok(())
}
