// Calls, and the rules that refuse them, as terms of Erlang.
ghost use Rattle.std.specs.Prelude.{◌≡◌, false};
ghost use Rattle.term_core.specs.Stream.{Writes};
ghost use Rattle.report_explained.specs.Explained.{IsExplained};
ghost use Rattle.report_terms.specs.CallTerms.{call_as_term, names_of_call, owner_as_term, rule_as_term};

use crate::strings::{write_in_marks, write_pid_string, write_term_strings};
use core_tree::CallKind;
use report_explained::ExplainFault;
use std::alloc::Global;
use term_core::{Pid, Sink, Terms, WriteFault, write_all, write_number};
use world_event_text::rule_name;
use world_identities::number_of_rule;
use world_model::rule::Rule;

/// Writes a call with its arguments.
pub(crate) fn write_call<W: Sink>(
    alloc: Global,
    kind: CallKind,
    arguments: &Terms,
    sink: &mut W,
) -> Result<(), ExplainFault>
    requires { W.has_failed sink.old ≡ false }
    ensures { IsExplained (call_as_term kind arguments.now) (W.contents sink.old) (W.contents sink.new) (W.has_failed sink.new) result }
{
    write_all(sink, b"{call,")?;
    write_names(kind, sink)?;
    write_all(sink, b",[")?;
    write_term_strings(alloc, arguments, sink)?;
    write_all(sink, b"]}")?;
    Ok(())
}

// Writes the names of the module and of the function of a call.
fn write_names<W: Sink>(kind: CallKind, sink: &mut W) -> Result<(), WriteFault>
    requires { W.has_failed sink.old ≡ false }
    ensures { Writes (W.contents sink.old) (W.contents sink.new) (W.has_failed sink.new) result (names_of_call kind) }
{
    let module_name = kind.module_name().as_bytes();
    let function_name = kind.function_name().as_bytes();
    write_in_marks(module_name, sink)?;
    write_all(sink, b",")?;
    write_in_marks(function_name, sink)
}

/// Writes a rule by its number and its name, with the owner of the table where one is reported.
pub(crate) fn write_rule<W: Sink>(
    rule: Rule,
    owner: &Option<Pid>,
    sink: &mut W,
) -> Result<(), WriteFault>
    requires { W.has_failed sink.old ≡ false }
    ensures { Writes (W.contents sink.old) (W.contents sink.new) (W.has_failed sink.new) result (rule_as_term rule owner.now) }
{
    let number = number_of_rule(rule);
    let name = rule_name(rule).as_bytes();
    write_all(sink, b"{rule,")?;
    write_number(number, sink)?;
    write_all(sink, b",'")?;
    write_all(sink, name)?;
    write_all(sink, b"',")?;
    write_owner(owner, sink)?;
    write_all(sink, b"}")
}

// Writes the owner of a table where one is reported, else `none`.
fn write_owner<W: Sink>(owner: &Option<Pid>, sink: &mut W) -> Result<(), WriteFault>
    requires { W.has_failed sink.old ≡ false }
    ensures { Writes (W.contents sink.old) (W.contents sink.new) (W.has_failed sink.new) result (owner_as_term owner.now) }
{
    match owner {
        Some(pid) => write_pid_string(pid, sink),
        None => write_all(sink, b"none"),
    }
}
