// What calls answer, as text, and whether that is what a row says.
ghost use Rattle.std.specs.Prelude.{◌≡◌, false};

use crate::tuple_parts::parts_of;
use core_pure_calls::{Class, Dictionary, Outcome, answer};
use core_tree::PureCall;
use std::alloc::{AllocError, Global};
use std::test::Fail;
use term_core::{Output, Pid, Term, Terms, WriteFault, write_all, write_term};
use test_support::same;

// The pid `P.1`.
pub(crate) fn own(alloc: Global) -> Result<Pid, AllocError> {
    Pid::new(alloc, vec![in alloc; 1u64]?)
}

fn class_text(class: Class) -> &'static [u8] {
    match class {
        Class::Error => b"error ",
        Class::Exit => b"exit ",
        Class::Throw => b"throw ",
    }
}

// Writes the class and the reason of an exception.
fn write_exception(
    class: Class,
    reason: &Term,
    sink: &mut Output<Vec<u8>>,
) -> Result<(), WriteFault>
    requires { sink.old.has_failed ≡ false }
{
    write_all(sink, class_text(class))?;
    write_term(reason, sink)
}

// Writes the value, or the class and the reason.
fn write_outcome(outcome: &Outcome, sink: &mut Output<Vec<u8>>) -> Result<(), WriteFault>
    requires { sink.old.has_failed ≡ false }
{
    match outcome {
        Outcome::Value(term) => write_term(term, sink),
        Outcome::Raised(class, reason) => write_exception(*class, reason, sink),
    }
}

// The value, or the class and the reason.
fn text_of(alloc: Global, outcome: &Outcome) -> Result<Vec<u8>, WriteFault> {
    let mut sink = Output::new(Vec::new(alloc));
    write_outcome(outcome, &mut sink)?;
    Ok(sink.writer)
}

// What a call of the process `P.1` with this dictionary answers.
fn answered(
    alloc: Global,
    dictionary: &mut Dictionary,
    call: PureCall,
    arguments: Terms,
) -> Result<Vec<u8>, Fail> {
    let outcome = answer(alloc, &own(alloc)?, dictionary, call, arguments)?;
    Ok(text_of(alloc, &outcome)?)
}

// The call of a text, as `lists:append/2`.
fn named(text: &str) -> Option<PureCall> {
    let (module, rest) = text.split_once(':')?;
    let (function, arity) = rest.rsplit_once('/')?;
    PureCall::named(module, function, arity.parse().ok()?)
}

// The call of a row, and what follows it.
pub(crate) fn call_of(row: &str) -> Option<(PureCall, &str)> {
    let (call, rest) = row.split_once(' ')?;
    Some((named(call)?, rest))
}

// The call of a row, its arguments, and what it answers.
fn split_row(row: &str) -> Option<(PureCall, &str, &str)> {
    let (call, rest) = call_of(row)?;
    let (arguments, want) = rest.split_once(" = ")?;
    Some((call, arguments, want))
}

// Checks that the call of a row answers as the row says.
pub(crate) fn answers(alloc: Global, dictionary: &mut Dictionary, row: &str) -> Result<(), Fail> {
    let (call, arguments, want) = split_row(row).ok_or("a row has a call and its answer")?;
    let text = answered(alloc, dictionary, call, parts_of(alloc, arguments)?)?;
    same(text.as_slice(), want.as_bytes())
}
