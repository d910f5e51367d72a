// Exceptions (Erlang reference manual, "Errors and Error Handling"): their classes, and the terms that report them.
ghost use Rattle.std.specs.Prelude.{◌≡◌, ◌≤◌, IfOk};
ghost use Rattle.term_core.specs.Term.{meaning_of};
ghost use Rattle.core_semantics.specs.Ask.{reason_of};
ghost use Rattle.core_semantics.specs.Evaluation.{begins_with, caught, caught_values, class_in, class_name, class_named, match_reason, raised_again, trace_of};
ghost use Rattle.core_eval.specs.inside.Steps.{Means, load};

use crate::build::{error, limited, pair};
use crate::control::Control;
use core_pure_calls::Class;
use std::alloc::{AllocError, Global};
use term_core::{Term, Terms, Word};

// Whether the value is a tuple that begins with the atom of this text.
fn begins_with(value: &Term, text: &str) -> bool
    ensures { result ≡ begins_with text.now (meaning_of value.now) }
{
    match value {
        Term::Tuple(parts) => match parts.as_slice().first() {
            Some(first) => first.is_the_atom(text),
            None => false,
        },
        _ => false,
    }
}

// The atom of a class.
fn class_name(class: Class) -> Term
    ensures { meaning_of result ≡ class_name class }
{
    match class {
        Class::Error => Term::word(Word::Error),
        Class::Exit => Term::word(Word::Exit),
        Class::Throw => Term::word(Word::Throw),
    }
}

// The class of this name.
fn class_named(name: &Term) -> Option<Class>
    ensures { result ≡ class_named (meaning_of name.now) }
{
    if name.is_the_atom("error") {
        Some(Class::Error)
    } else if name.is_the_atom("exit") {
        Some(Class::Exit)
    } else if name.is_the_atom("throw") {
        Some(Class::Throw)
    } else {
        None
    }
}

// The trace of an exception, which reports its class.
fn trace_of(alloc: Global, class: Class) -> Result<Term, AllocError>
    ensures { IfOk result (λ trace. meaning_of trace ≡ trace_of class) }
{
    pair(alloc, Term::word(Word::TraceTag), class_name(class))
}

// The class that a trace reports.
fn class_in(trace: &Term) -> Option<Class>
    ensures { result ≡ class_in (meaning_of trace.now) }
{
    let Term::Tuple(parts) = trace else {
        return None;
    };
    if parts.len() != 2 {
        return None;
    }
    if !parts.as_slice()[0].is_the_atom("$trace") {
        return None;
    }
    class_named(&parts.as_slice()[1])
}

/// The values of the variables of a handler: the class, the reason, and the trace where there are more than
/// two.
pub(crate) fn caught_values(
    alloc: Global,
    count: usize,
    class: Class,
    reason: Term,
) -> Result<Terms, AllocError>
    ensures { IfOk result (λ values. values ≡ caught_values count class (meaning_of reason)) }
{
    let mut values = Terms::new(alloc);
    values.push(class_name(class))?;
    values.push(reason)?;
    if count > 2 {
        values.push(trace_of(alloc, class)?)?;
    }
    Ok(values)
}

/// The value that `catch` makes of an exception, or the error `'system_limit'` where it is too large.
pub(crate) fn caught<'m>(
    alloc: Global,
    class: Class,
    reason: Term,
) -> Result<Control<'m>, AllocError>
    ensures same { IfOk result (λ next. Means next (caught class (meaning_of reason))) }
    ensures less { IfOk result (λ next. load next ≤ 2) }
{
    match class {
        Class::Error => {
            let told = pair(alloc, reason, Term::Nil)?;
            Ok(limited(pair(alloc, Term::word(Word::ExitTag), told)?))
        }
        Class::Exit => Ok(limited(pair(alloc, Term::word(Word::ExitTag), reason)?)),
        Class::Throw => Ok(Control::Return(reason)),
    }
}

/// The reason of a failed match: where the clauses of a function failed, their atom alone.
pub(crate) fn match_reason(reason: Term) -> Term
    ensures { meaning_of result ≡ match_reason (meaning_of reason) }
{
    if begins_with(&reason, "function_clause") {
        Term::word(Word::FunctionClause)
    } else {
        reason
    }
}

/// An exception that was caught before, raised again with the class that its trace reports.
pub(crate) fn raise_again<'m>(trace: &Term, reason: Term) -> Control<'m>
    ensures same { Means result (raised_again (class_in (meaning_of trace.now)) (meaning_of reason)) }
    ensures less { load result ≡ 0 }
{
    match class_in(trace) {
        Some(class) => Control::Raise(class, reason),
        None => error(Word::BadArgument),
    }
}

/// The reason of the end of a process by an exception that nothing handles.
pub(crate) fn end_of(alloc: Global, class: Class, reason: Term) -> Result<Term, AllocError>
    ensures { IfOk result (λ end. meaning_of end ≡ reason_of class (meaning_of reason)) }
{
    match class {
        Class::Error => pair(alloc, reason, Term::Nil),
        Class::Exit => Ok(reason),
        Class::Throw => {
            let uncaught = pair(alloc, Term::word(Word::NoCatch), reason)?;
            pair(alloc, uncaught, Term::Nil)
        }
    }
}
