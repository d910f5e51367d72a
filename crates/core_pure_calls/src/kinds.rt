// The kinds of terms (Erlang reference manual, module erlang, `is_integer/1` and its neighbours).
ghost use Rattle.std.specs.Prelude.{◌≡◌};
ghost use Rattle.term_core.specs.Meaning.{Tuple, meanings_of};
ghost use Rattle.term_core.specs.Term.{meaning_of};
ghost use Rattle.core_pure_calls.specs.Kinds.{begin_with, is_atom, is_boolean, is_integer, is_list, is_pid, is_record_of, is_reference, is_tuple, record_test};
ghost use Rattle.core_pure_calls.specs.Outcomes.{truth_or_refusal};

use crate::arithmetic::integer;
use crate::compare::{are_equal, boolean};
use crate::outcome::Refusal;
use term_core::{Term, Terms};

/// Whether a term is an integer, and so a number.
pub(crate) fn is_integer(term: &Term) -> bool
    ensures { result ≡ is_integer (meaning_of term.now) }
{
    integer(term).is_some()
}

/// Whether a term is an atom.
pub(crate) fn is_atom(term: &Term) -> bool
    ensures { result ≡ is_atom (meaning_of term.now) }
{
    matches!(term, Term::Atom(_))
}

/// Whether a term is a boolean.
pub(crate) fn is_boolean(term: &Term) -> bool
    ensures { result ≡ is_boolean (meaning_of term.now) }
{
    boolean(term).is_some()
}

/// Whether a term is a tuple.
pub(crate) fn is_tuple(term: &Term) -> bool
    ensures { result ≡ is_tuple (meaning_of term.now) }
{
    matches!(term, Term::Tuple(_))
}

/// Whether a term is nil or a list cell.
pub(crate) fn is_list(term: &Term) -> bool
    ensures { result ≡ is_list (meaning_of term.now) }
{
    matches!(term, Term::Nil | Term::Cons(_))
}

/// Whether a term is a pid.
pub(crate) fn is_pid(term: &Term) -> bool
    ensures { result ≡ is_pid (meaning_of term.now) }
{
    matches!(term, Term::Pid(_))
}

/// Whether a term is a reference.
pub(crate) fn is_reference(term: &Term) -> bool
    ensures { result ≡ is_reference (meaning_of term.now) }
{
    matches!(term, Term::Ref(_))
}

// Whether these parts begin with a term.
fn begin_with(tag: &Term, parts: &Terms) -> bool
    ensures { result ≡ begin_with (meaning_of tag.now) (meanings_of parts.now) }
{
    match parts.as_slice().first() {
        Some(first) => are_equal(first, tag),
        None => false,
    }
}

// Whether a term is a tuple of so many parts that begins with the tag.
fn is_record_of(tag: &Term, size: i64, term: &Term) -> bool
    ensures { result ≡ is_record_of (meaning_of tag.now) size (meaning_of term.now) }
{
    let Some(parts) = term.as_tuple() else {
        return false;
    };
    size >= 0 && size as u64 == parts.len() as u64 && begin_with(tag, parts)
}

/// `is_record` of a term, a tag and a size.
pub(crate) fn record_test(term: &Term, tag: &Term, size: &Term) -> Result<bool, Refusal>
    ensures { truth_or_refusal result ≡ record_test (meaning_of term.now) (meaning_of tag.now) (meaning_of size.now) }
{
    match integer(size) {
        Some(size) if is_atom(tag) => Ok(is_record_of(tag, size, term)),
        _ => Err(Refusal::BadArgument),
    }
}
