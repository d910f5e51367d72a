// What a call gives, and why it is refused.
ghost use Rattle.std.specs.Prelude.{◌≡◌};
ghost use Rattle.term_core.specs.Term.{meaning_of};
ghost use Rattle.term_core.specs.Words.{text_of_word};
ghost use Rattle.core_pure_calls.specs.Outcomes.{integer_or_refusal, outcome_of, refusal_name, refused, truth_or_refusal};
ghost use Rattle.core_pure_calls.specs.Answers.{truth};

use term_core::{Term, Word};

/// The class of an exception (Erlang reference manual, "Errors and Error Handling").
#[derive(Clone, Copy)]
pub enum Class {
    /// An error, as a wrong argument raises it.
    Error,
    /// An exit.
    Exit,
    /// A term that is thrown.
    Throw,
}

/// What a call gives, or the exception that it raises.
#[derive(Drop)]
pub enum Outcome {
    /// The value of the call.
    Value(Term),
    /// An exception: its class and its reason.
    Raised(Class, Term),
}

/// Why a call gives no value: the reason of the error that it raises.
#[derive(Clone, Copy)]
pub(crate) enum Refusal {
    BadArgument,
    BadArithmetic,
    FunctionClause,
    SystemLimit,
    Undefined,
}

impl Refusal {
    // The reason.
    fn word(self) -> Word
        ensures { text_of_word result ≡ refusal_name self }
    {
        match self {
            Refusal::BadArgument => Word::BadArgument,
            Refusal::BadArithmetic => Word::BadArithmetic,
            Refusal::FunctionClause => Word::FunctionClause,
            Refusal::SystemLimit => Word::SystemLimit,
            Refusal::Undefined => Word::Undefined,
        }
    }
}

/// The error of a refused call.
pub(crate) fn refuse(refusal: Refusal) -> Outcome
    ensures { outcome_of result ≡ refused refusal }
{
    Outcome::Raised(Class::Error, Term::word(refusal.word()))
}

// The atom of a boolean.
fn truth(is_true: bool) -> Term
    ensures { meaning_of result ≡ truth is_true }
{
    if is_true {
        Term::word(Word::True)
    } else {
        Term::word(Word::False)
    }
}

/// An integer, or the error of a refused call.
pub(crate) fn integer_or_refusal(number: Result<i64, Refusal>) -> Outcome
    ensures { outcome_of result ≡ integer_or_refusal number }
{
    match number {
        Ok(number) => Outcome::Value(Term::Int(number)),
        Err(refusal) => refuse(refusal),
    }
}

/// A boolean, or the error of a refused call.
pub(crate) fn truth_or_refusal(is_true: Result<bool, Refusal>) -> Outcome
    ensures { outcome_of result ≡ truth_or_refusal is_true }
{
    match is_true {
        Ok(is_true) => Outcome::Value(truth(is_true)),
        Err(refusal) => refuse(refusal),
    }
}
