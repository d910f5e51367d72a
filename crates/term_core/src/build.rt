// Atoms of texts; tuples and lists, built of their parts.
ghost use Rattle.std.specs.Prelude.{◌≡◌, IfOk, map};
ghost use Rattle.term_core.specs.Meaning as terms;
ghost use Rattle.term_core.specs.Meaning.{meanings_of};
ghost use Rattle.term_core.specs.Term.{meaning_of, list_onto};
ghost use Rattle.term_core.specs.Words.{text_of_word};

use crate::atom::Atom;
use crate::term::{Pair, Term, Terms};
use crate::word::Word;
use std::alloc::{AllocError, Global};
use std::sync::Arc;

impl Term {
    /// The atom of this text, or `AllocError` where there is no memory for it.
    pub fn atom(alloc: Global, text: &str) -> Result<Term, AllocError>
        ensures { IfOk result (λ atom. meaning_of atom ≡ terms.Atom text.now) }
    {
        Ok(Term::Atom(Atom::new(alloc, text)?))
    }

    /// The atom of a word of the language. It takes no memory.
    pub fn word(word: Word) -> Term
        ensures { meaning_of result ≡ terms.Atom (text_of_word word) }
    {
        Term::Atom(Atom::from_word(word))
    }

    /// The list cell of a head and a tail, or `AllocError` if there is no memory for it, and then both are
    /// dropped.
    pub fn cell(alloc: Global, head: Term, tail: Term) -> Result<Term, AllocError>
        ensures { IfOk result (λ cell. meaning_of cell ≡ terms.Cons (meaning_of head) (meaning_of tail)) }
    {
        Ok(Term::Cons(Arc::new(alloc, Pair::new(head, tail))?))
    }

    /// The tuple of these parts, or `AllocError` if there is no memory for it, and then they are dropped.
    pub fn tuple(alloc: Global, parts: Terms) -> Result<Term, AllocError>
        ensures { IfOk result (λ tuple. meaning_of tuple ≡ terms.Tuple (meanings_of parts)) }
    {
        Ok(Term::Tuple(Arc::new(alloc, parts)?))
    }
}

/// The list of these heads that goes on with the tail, or `AllocError` if there is no memory for it, and
/// then heads and tail are dropped.
pub fn list_onto(alloc: Global, heads: Vec<Term>, tail: Term) -> Result<Term, AllocError>
    ensures { IfOk result (λ list. meaning_of list ≡ list_onto (map meaning_of heads.items) (meaning_of tail)) }
{
    let mut heads = heads;
    let mut list = tail;
    while let Some(head) = heads.pop() {
        list = Term::cell(alloc, head, list)?;
    }
    Ok(list)
}
