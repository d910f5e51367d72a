// The texts of calls and of the rules that refuse them.
ghost use Rattle.std.specs.Prelude.{◌≡◌, false};
ghost use Rattle.term_core.specs.Stream.{Writes};
ghost use Rattle.term_core.specs.Term.{meaning_of};
ghost use Rattle.world_event_text.specs.CallText.{name_of_rule, text_of_rule, text_of_told_owner, text_of_owner, text_of_broken_rule, behind_comma, text_of_arguments, text_of_call};

use core_tree::CallKind;
use term_core::{
    Pid, Sink, Term, Terms, WriteFault, write_all, write_number, write_pid, write_term,
};
use world_identities::number_of_rule;
use world_model::rule::Rule;

/// Writes a call as `mod:fun(args)`. Where the sink fails, a beginning of that was written. It takes no memory.
pub fn write_call<W: Sink>(
    sink: &mut W,
    kind: CallKind,
    arguments: &Terms,
) -> Result<(), WriteFault>
    requires { W.has_failed sink.old ≡ false }
    ensures { Writes (W.contents sink.old) (W.contents sink.new) (W.has_failed sink.new) result (text_of_call kind arguments.now) }
{
    let module_name = kind.module_name().as_bytes();
    let function_name = kind.function_name().as_bytes();
    write_all(sink, module_name)?;
    write_all(sink, b":")?;
    write_all(sink, function_name)?;
    write_all(sink, b"(")?;
    write_arguments(sink, arguments)?;
    write_all(sink, b")")
}

// Writes arguments with commas between them.
fn write_arguments<W: Sink>(sink: &mut W, arguments: &Terms) -> Result<(), WriteFault>
    requires { W.has_failed sink.old ≡ false }
    ensures { Writes (W.contents sink.old) (W.contents sink.new) (W.has_failed sink.new) result (text_of_arguments arguments.now) }
{
    let Some((first, others)) = arguments.as_slice().split_first() else {
        return Ok(());
    };
    write_term(first, sink)?;
    for argument in others {
        write_behind_comma(sink, argument)?;
    }
    Ok(())
}

// Writes an argument after a comma.
fn write_behind_comma<W: Sink>(sink: &mut W, argument: &Term) -> Result<(), WriteFault>
    requires { W.has_failed sink.old ≡ false }
    ensures { Writes (W.contents sink.old) (W.contents sink.new) (W.has_failed sink.new) result (behind_comma (meaning_of argument.now)) }
{
    write_all(sink, b",")?;
    write_term(argument, sink)
}

/// Writes the error of a call of a table, with the rule, and with the owner where one is reported. Where the sink fails, a
/// beginning of that was written.
pub fn write_broken_rule<W: Sink>(
    sink: &mut W,
    rule: Rule,
    owner: &Option<Pid>,
) -> Result<(), WriteFault>
    requires { W.has_failed sink.old ≡ false }
    ensures { Writes (W.contents sink.old) (W.contents sink.new) (W.has_failed sink.new) result (text_of_broken_rule rule owner.now) }
{
    write_all(sink, b"badarg (")?;
    write_rule(sink, rule)?;
    write_owner(sink, owner)?;
    write_all(sink, b")")
}

// Writes a rule by its number and its name.
fn write_rule<W: Sink>(sink: &mut W, rule: Rule) -> Result<(), WriteFault>
    requires { W.has_failed sink.old ≡ false }
    ensures { Writes (W.contents sink.old) (W.contents sink.new) (W.has_failed sink.new) result (text_of_rule rule) }
{
    let name = rule_name(rule).as_bytes();
    write_number(number_of_rule(rule), sink)?;
    write_all(sink, b" ")?;
    write_all(sink, name)
}

// Writes the owner of a table, where one is reported.
fn write_owner<W: Sink>(sink: &mut W, owner: &Option<Pid>) -> Result<(), WriteFault>
    requires { W.has_failed sink.old ≡ false }
    ensures { Writes (W.contents sink.old) (W.contents sink.new) (W.has_failed sink.new) result (text_of_owner owner.now) }
{
    match owner {
        Some(pid) => write_told_owner(sink, pid),
        None => Ok(()),
    }
}

// Writes an owner after what comes before it.
fn write_told_owner<W: Sink>(sink: &mut W, pid: &Pid) -> Result<(), WriteFault>
    requires { W.has_failed sink.old ≡ false }
    ensures { Writes (W.contents sink.old) (W.contents sink.new) (W.has_failed sink.new) result (text_of_told_owner pid.now) }
{
    write_all(sink, b", owner ")?;
    write_pid(pid, sink)
}

/// The name of a rule. It takes no memory.
pub fn rule_name(rule: Rule) -> &'static str
    ensures { result.now ≡ name_of_rule rule }
{
    match rule {
        Rule::BadTable => "BadTable",
        Rule::NoTable => "NoTable",
        Rule::PrivateRead => "PrivateRead",
        Rule::PrivateWrite => "PrivateWrite",
        Rule::ProtectedWrite => "ProtectedWrite",
        Rule::NotOwner => "NotOwner",
        Rule::BadName => "BadName",
        Rule::BadOption => "BadOption",
        Rule::NameTaken => "NameTaken",
        Rule::NotObject => "NotObject",
        Rule::ShortObject => "ShortObject",
        Rule::BadPosition => "BadPosition",
        Rule::NoKey => "NoKey",
        Rule::NotInteger => "NotInteger",
        Rule::BagRefused => "BagRefused",
        Rule::DeadTarget => "DeadTarget",
        Rule::OwnTarget => "OwnTarget",
        Rule::BadItem => "BadItem",
        Rule::CounterRange => "CounterRange",
    }
}
