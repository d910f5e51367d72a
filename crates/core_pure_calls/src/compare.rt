// Comparisons (Erlang reference manual, "Term Comparisons") and booleans ("Boolean Expressions").
ghost use Rattle.std.specs.Prelude.{◌≡◌};
ghost use Rattle.term_core.specs.Term.{meaning_of};
ghost use Rattle.core_pure_calls.specs.Comparing.{are_different, are_equal, boolean_in, conjunction, disjunction, exclusion, is_at_least, is_at_most, is_greater, is_less, negation};
ghost use Rattle.core_pure_calls.specs.Outcomes.{truth_or_refusal};

use crate::outcome::Refusal;
use term_core::Term;

/// `==` and `=:=` of two terms.
pub(crate) fn are_equal(first: &Term, second: &Term) -> bool
    ensures { result ≡ are_equal (meaning_of first.now) (meaning_of second.now) }
{
    first.cmp(second).is_eq()
}

/// `/=` and `=/=` of two terms.
pub(crate) fn are_different(first: &Term, second: &Term) -> bool
    ensures { result ≡ are_different (meaning_of first.now) (meaning_of second.now) }
{
    first.cmp(second).is_ne()
}

/// `<` of two terms.
pub(crate) fn is_less(first: &Term, second: &Term) -> bool
    ensures { result ≡ is_less (meaning_of first.now) (meaning_of second.now) }
{
    first.cmp(second).is_lt()
}

/// `=<` of two terms.
pub(crate) fn is_at_most(first: &Term, second: &Term) -> bool
    ensures { result ≡ is_at_most (meaning_of first.now) (meaning_of second.now) }
{
    first.cmp(second).is_le()
}

/// `>` of two terms.
pub(crate) fn is_greater(first: &Term, second: &Term) -> bool
    ensures { result ≡ is_greater (meaning_of first.now) (meaning_of second.now) }
{
    first.cmp(second).is_gt()
}

/// `>=` of two terms.
pub(crate) fn is_at_least(first: &Term, second: &Term) -> bool
    ensures { result ≡ is_at_least (meaning_of first.now) (meaning_of second.now) }
{
    first.cmp(second).is_ge()
}

/// The boolean that a term is.
pub(crate) fn boolean(term: &Term) -> Option<bool>
    ensures { result ≡ boolean_in (meaning_of term.now) }
{
    if term.is_the_atom("true") {
        Some(true)
    } else if term.is_the_atom("false") {
        Some(false)
    } else {
        None
    }
}

/// `and` of two terms.
pub(crate) fn conjunction(first: &Term, second: &Term) -> Result<bool, Refusal>
    ensures { truth_or_refusal result ≡ conjunction (meaning_of first.now) (meaning_of second.now) }
{
    match (boolean(first), boolean(second)) {
        (Some(a), Some(b)) => Ok(a && b),
        _ => Err(Refusal::BadArgument),
    }
}

/// `or` of two terms.
pub(crate) fn disjunction(first: &Term, second: &Term) -> Result<bool, Refusal>
    ensures { truth_or_refusal result ≡ disjunction (meaning_of first.now) (meaning_of second.now) }
{
    match (boolean(first), boolean(second)) {
        (Some(a), Some(b)) => Ok(a || b),
        _ => Err(Refusal::BadArgument),
    }
}

/// `xor` of two terms.
pub(crate) fn exclusion(first: &Term, second: &Term) -> Result<bool, Refusal>
    ensures { truth_or_refusal result ≡ exclusion (meaning_of first.now) (meaning_of second.now) }
{
    match (boolean(first), boolean(second)) {
        (Some(a), Some(b)) => Ok(a != b),
        _ => Err(Refusal::BadArgument),
    }
}

/// `not` of a term.
pub(crate) fn negation(term: &Term) -> Result<bool, Refusal>
    ensures { truth_or_refusal result ≡ negation (meaning_of term.now) }
{
    match boolean(term) {
        Some(is_true) => Ok(!is_true),
        None => Err(Refusal::BadArgument),
    }
}
