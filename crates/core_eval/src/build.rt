// The terms that evaluation builds.
ghost use Rattle.std.specs.Prelude.{◌≡◌, ◌≤◌, ◌++◌, ◌∷◌, [], IfOk};
ghost use Rattle.term_core.specs.Meaning.{Tuple, meanings_of};
ghost use Rattle.term_core.specs.Term.{meaning_of};
ghost use Rattle.term_core.specs.Words.{text_of_word};
ghost use Rattle.core_semantics.specs.Evaluation.{error, limited, limited_error};
ghost use Rattle.core_eval.specs.inside.Steps.{Means, load};

use crate::control::Control;
use core_pure_calls::Class;
use std::alloc::{AllocError, Global};
use term_core::{Term, Terms, Word};

/// The most nodes of a term that is built in evaluation.
const NODE_LIMIT: u64 = 10_000;

/// An error with this atom as its reason.
pub(crate) fn error<'m>(word: Word) -> Control<'m>
    ensures same { Means result (error (text_of_word word)) }
    ensures less { load result ≡ 0 }
{
    Control::Raise(Class::Error, Term::word(word))
}

/// The tuple of two terms.
pub(crate) fn pair(alloc: Global, first: Term, second: Term) -> Result<Term, AllocError>
    ensures { IfOk result (λ pair. meaning_of pair ≡ Tuple (meanings_of (meaning_of first ∷ meaning_of second ∷ []))) }
{
    let mut parts = Terms::new(alloc);
    parts.push(first)?;
    parts.push(second)?;
    Term::tuple(alloc, parts)
}

/// One term as several.
pub(crate) fn single(alloc: Global, term: Term) -> Result<Terms, AllocError>
    ensures { IfOk result (λ terms. terms ≡ meaning_of term ∷ []) }
{
    let mut terms = Terms::new(alloc);
    terms.push(term)?;
    Ok(terms)
}

/// The term, or the error `'system_limit'` in its place where it has too many nodes.
pub(crate) fn limited<'m>(term: Term) -> Control<'m>
    ensures same { Means result (limited (meaning_of term)) }
    ensures less { load result ≤ 2 }
{
    if term.nodes() <= NODE_LIMIT {
        Control::Return(term)
    } else {
        error(Word::SystemLimit)
    }
}

/// An error with the term as its reason, or the error `'system_limit'` where that has too many nodes.
pub(crate) fn limited_error<'m>(reason: Term) -> Control<'m>
    ensures same { Means result (limited_error (meaning_of reason)) }
    ensures less { load result ≡ 0 }
{
    if reason.nodes() <= NODE_LIMIT {
        Control::Raise(Class::Error, reason)
    } else {
        error(Word::SystemLimit)
    }
}

/// The terms with one more at their end.
pub(crate) fn with_last(terms: Terms, last: Term) -> Result<Terms, AllocError>
    ensures { IfOk result (λ all. all ≡ terms ++ meaning_of last ∷ []) }
{
    let mut all = terms;
    all.push(last)?;
    Ok(all)
}
