// The texts of what schedules show. No write takes memory.
ghost use Rattle.std.specs.Prelude.{◌≡◌, false};
ghost use Rattle.term_core.specs.Stream.{Writes};
ghost use Rattle.term_core.specs.Term.{meaning_of};
ghost use Rattle.world_identities.specs.Identities.{identity_in};
ghost use Rattle.report_text.specs.IdentityText.{text_of_ended, pid_behind_blank, text_of_deadlock, text_of_unread, text_of_runaway, text_of_refused_call, text_of_identity};

use core_tree::CallKind;
use term_core::{Pid, Sink, Term, Terms, WriteFault, write_all, write_number, write_pid};
use world_event_text::{write_broken_rule, write_call, write_end};
use world_identities::Identity;
use world_model::rule::Rule;

/// Writes what a schedule shows, without the end of a line: `PID ends REASON`, `deadlock of PID PID ..`,
/// `PID runs away`, `PID request K ets:fun(args) -> badarg (..)` with the brackets of the transcript, or
/// `unread messages of PID PID ..`. `WriteFault` comes only where the sink has failed, and then a beginning
/// of the text was written. It takes no memory.
pub fn write_identity<W: Sink>(sink: &mut W, identity: &Identity) -> Result<(), WriteFault>
    requires { W.has_failed sink.old ≡ false }
    ensures { Writes (W.contents sink.old) (W.contents sink.new) (W.has_failed sink.new) result (text_of_identity (identity_in identity.now)) }
{
    match identity {
        Identity::End { pid, reason } => write_ended(sink, pid, reason),
        Identity::Deadlock(processes) => write_deadlock(sink, processes),
        Identity::Runaway(pid) => write_runaway(sink, pid),
        Identity::Refusal {
            pid,
            request,
            kind,
            arguments,
            rule,
            owner,
        } => write_refused_call(sink, pid, *request, *kind, arguments, *rule, owner),
        Identity::Unread(processes) => write_unread(sink, processes),
    }
}

// Writes a process that ended.
fn write_ended<W: Sink>(sink: &mut W, pid: &Pid, reason: &Term) -> Result<(), WriteFault>
    requires { W.has_failed sink.old ≡ false }
    ensures { Writes (W.contents sink.old) (W.contents sink.new) (W.has_failed sink.new) result (text_of_ended pid.now (meaning_of reason.now)) }
{
    write_pid(pid, sink)?;
    write_all(sink, b" ")?;
    write_end(sink, reason)
}

// Writes the processes that wait for ever.
fn write_deadlock<W: Sink>(sink: &mut W, processes: &[Pid]) -> Result<(), WriteFault>
    requires { W.has_failed sink.old ≡ false }
    ensures { Writes (W.contents sink.old) (W.contents sink.new) (W.has_failed sink.new) result (text_of_deadlock processes.now) }
{
    write_all(sink, b"deadlock of")?;
    for pid in processes {
        write_behind_blank(sink, pid)?;
    }
    Ok(())
}

// Writes the processes that have messages which they do not take.
fn write_unread<W: Sink>(sink: &mut W, processes: &[Pid]) -> Result<(), WriteFault>
    requires { W.has_failed sink.old ≡ false }
    ensures { Writes (W.contents sink.old) (W.contents sink.new) (W.has_failed sink.new) result (text_of_unread processes.now) }
{
    write_all(sink, b"unread messages of")?;
    for pid in processes {
        write_behind_blank(sink, pid)?;
    }
    Ok(())
}

// Writes a process after a blank.
fn write_behind_blank<W: Sink>(sink: &mut W, pid: &Pid) -> Result<(), WriteFault>
    requires { W.has_failed sink.old ≡ false }
    ensures { Writes (W.contents sink.old) (W.contents sink.new) (W.has_failed sink.new) result (pid_behind_blank pid.now) }
{
    write_all(sink, b" ")?;
    write_pid(pid, sink)
}

// Writes a process that ran away.
fn write_runaway<W: Sink>(sink: &mut W, pid: &Pid) -> Result<(), WriteFault>
    requires { W.has_failed sink.old ≡ false }
    ensures { Writes (W.contents sink.old) (W.contents sink.new) (W.has_failed sink.new) result (text_of_runaway pid.now) }
{
    write_pid(pid, sink)?;
    write_all(sink, b" runs away")
}

// Writes a call of a table that was refused, with the number of its request.
fn write_refused_call<W: Sink>(
    sink: &mut W,
    pid: &Pid,
    request: u64,
    kind: CallKind,
    arguments: &Terms,
    rule: Rule,
    owner: &Option<Pid>,
) -> Result<(), WriteFault>
    requires { W.has_failed sink.old ≡ false }
    ensures { Writes (W.contents sink.old) (W.contents sink.new) (W.has_failed sink.new) result (text_of_refused_call pid.now request kind arguments.now rule owner.now) }
{
    write_pid(pid, sink)?;
    write_all(sink, b" request ")?;
    write_number(request, sink)?;
    write_all(sink, b" ")?;
    write_call(sink, kind, arguments)?;
    write_all(sink, b" -> ")?;
    write_broken_rule(sink, rule, owner)
}
