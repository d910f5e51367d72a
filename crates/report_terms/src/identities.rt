// What schedules show, as terms of Erlang.
ghost use Rattle.std.specs.Prelude.{◌≡◌, ◌++◌, codes, false};
ghost use Rattle.term_core.specs.Term.{meaning_of};
ghost use Rattle.world_identities.specs.Identities.{identity_in};
ghost use Rattle.report_explained.specs.Explained.{IsExplained};
ghost use Rattle.report_terms.specs.Strings.{strings_of_pids};
ghost use Rattle.report_terms.specs.IdentityTerms.{end_as_term, identity_as_term, refused_call_as_term, runaway_as_term};

use crate::calls::{write_call, write_rule};
use crate::strings::{write_pid_string, write_pid_strings, write_term_string};
use core_tree::CallKind;
use report_explained::ExplainFault;
use std::alloc::Global;
use term_core::{Pid, Sink, Term, Terms, write_all, write_number};
use world_identities::Identity;
use world_model::rule::Rule;

/// Writes what a schedule shows.
pub(crate) fn write_identity<W: Sink>(
    alloc: Global,
    identity: &Identity,
    sink: &mut W,
) -> Result<(), ExplainFault>
    requires { W.has_failed sink.old ≡ false }
    ensures { IsExplained (identity_as_term (identity_in identity.now)) (W.contents sink.old) (W.contents sink.new) (W.has_failed sink.new) result }
{
    match identity {
        Identity::End { pid, reason } => write_end(alloc, pid, reason, sink),
        Identity::Deadlock(pids) => write_processes(b"{deadlock,[", pids, sink),
        Identity::Runaway(pid) => write_runaway(pid, sink),
        Identity::Refusal {
            pid,
            request,
            kind,
            arguments,
            rule,
            owner,
        } => write_refused_call(alloc, pid, *request, *kind, arguments, *rule, owner, sink),
        Identity::Unread(pids) => write_processes(b"{unread,[", pids, sink),
    }
}

// Writes a process that ended.
fn write_end<W: Sink>(
    alloc: Global,
    pid: &Pid,
    reason: &Term,
    sink: &mut W,
) -> Result<(), ExplainFault>
    requires { W.has_failed sink.old ≡ false }
    ensures { IsExplained (end_as_term pid.now (meaning_of reason.now)) (W.contents sink.old) (W.contents sink.new) (W.has_failed sink.new) result }
{
    write_all(sink, b"{ends,")?;
    write_pid_string(pid, sink)?;
    write_all(sink, b",")?;
    write_term_string(alloc, reason, sink)?;
    write_all(sink, b"}")?;
    Ok(())
}

// Writes what is shown of several processes: the beginning of its term, which names it, and then the processes.
fn write_processes<W: Sink>(
    beginning: &[u8],
    processes: &[Pid],
    sink: &mut W,
) -> Result<(), ExplainFault>
    requires { W.has_failed sink.old ≡ false }
    ensures { IsExplained (beginning.now ++ (strings_of_pids processes.now ++ codes "]}")) (W.contents sink.old) (W.contents sink.new) (W.has_failed sink.new) result }
{
    write_all(sink, beginning)?;
    write_pid_strings(processes, sink)?;
    write_all(sink, b"]}")?;
    Ok(())
}

// Writes a process that ran away.
fn write_runaway<W: Sink>(pid: &Pid, sink: &mut W) -> Result<(), ExplainFault>
    requires { W.has_failed sink.old ≡ false }
    ensures { IsExplained (runaway_as_term pid.now) (W.contents sink.old) (W.contents sink.new) (W.has_failed sink.new) result }
{
    write_all(sink, b"{runs_away,")?;
    write_pid_string(pid, sink)?;
    write_all(sink, b"}")?;
    Ok(())
}

// Writes a call of a table that was refused, with the number of its request.
fn write_refused_call<W: Sink>(
    alloc: Global,
    pid: &Pid,
    request: u64,
    kind: CallKind,
    arguments: &Terms,
    rule: Rule,
    owner: &Option<Pid>,
    sink: &mut W,
) -> Result<(), ExplainFault>
    requires { W.has_failed sink.old ≡ false }
    ensures { IsExplained (refused_call_as_term pid.now request kind arguments.now rule owner.now) (W.contents sink.old) (W.contents sink.new) (W.has_failed sink.new) result }
{
    write_all(sink, b"{refused,")?;
    write_pid_string(pid, sink)?;
    write_all(sink, b",")?;
    write_number(request, sink)?;
    write_all(sink, b",")?;
    write_call(alloc, kind, arguments, sink)?;
    write_all(sink, b",")?;
    write_rule(rule, owner, sink)?;
    write_all(sink, b"}")?;
    Ok(())
}
