// A term is read mark by mark: what is open lies on a stack of its own.
ghost use Rattle.std.specs.Prelude.{ℕ, List, ◌+◌, ◌-◌, ◌≡◌, ◌≢◌, ◌≤◌, [], length, IfOk, IfErr, MatchResult};
ghost use Rattle.term_core.specs.Meaning.{Meaning};
ghost use Rattle.term_core.specs.Term.{meaning_of};
ghost use Rattle.term_core.specs.TermText.{text_of_term};
ghost use Rattle.term_reader.specs.Lawful.{IsLawful, HasPlace, MayRefuse};

use crate::brackets::{State, begin, go_on, place_of};
use crate::fault::TermFault;
use std::alloc::Global;
use term_core::Term;

/// A text is that of at most one lawful term.
pub fn texts_say_one_term()
    ensures { (text : List ℕ) (term other : Meaning) → IsLawful term → IsLawful other → text ≡ text_of_term term → text ≡ text_of_term other → term ≡ other }
{}

/// Reads a term from its text: integers of 64 bits in decimal, atoms in single quotes with escapes, pids as `P.2.1`,
/// references as `#P.2`, tuples as `{a,b}`, lists as `[a,b]` and `[a,b|t]`, without blanks. These are the texts that
/// `write_term` writes, and no others: so numbers have no needless zeros, an escape is used only where one is needed,
/// and the last tail after a bar is no list.
///
/// Nothing calls itself: what is open lies on a stack in memory. No more than 10,000 brackets and braces
/// are open at once, since a term that is nested deeper might not be dropped or printed on the native stack.
///
/// # Errors
///
/// `BadTerm` where the text is the text of no term, with the place of the first item that cannot be where it is: a
/// mark, a number, a pid, a reference or an atom, or the end of the text. `TooDeep` where more than 10,000 brackets and
/// braces would be open at once, so that a term with this text is higher than 10,000, with the place of the first too
/// many. `Memory` where there was no memory for the term. What was read is dropped.
pub fn read_term(alloc: Global, text: &[u8]) -> Result<Term, TermFault>
    // What is read has this text.
    ensures ok { IfOk result (λ read. IsLawful (meaning_of read) × (text.now ≡ text_of_term (meaning_of read))) }

    // The text of a term is read as that term, unless it is too deep or memory runs out.
    ensures only { (term : Meaning) → IsLawful term → text.now ≡ text_of_term term
        → MatchResult result (λ read. meaning_of read ≡ term) (λ fault. MayRefuse term fault) }

    // What comes before the place of a bad item can go on to the text of a term, and with that item to none. What ends in
    // a bracket or a brace too many can go on too, and, unless it is closed at once, only to terms that are too high.
    ensures place { IfErr result (λ fault. HasPlace text.now fault) }
{
    let mut state = State::Wanted(Vec::new(alloc), text);
    'marks: loop {
        let next = match state {
            State::Wanted(outer, rest) => begin(alloc, text, outer, rest),
            State::Found(mut outer, term, rest) => {
                let Some(last) = outer.pop() else {
                    return ended(text, term, rest);
                };
                go_on(alloc, text, outer, last, term, rest)
            }
        };
        match next {
            Ok(reached) => state = reached,
            Err(fault) => return Err(fault),
        }
    }
}

// The term, if nothing follows it.
fn ended(text: &[u8], term: Term, rest: &[u8]) -> Result<Term, TermFault>
    requires { length rest.now ≤ length text.now }
    ensures ok { IfOk result (λ read. (meaning_of read ≡ meaning_of term) × (rest.now ≡ [])) }
    ensures fault { IfErr result (λ fault. (rest.now ≢ []) × (fault ≡ TermFault.BadTerm (length text.now - length rest.now + 1))) }
{
    if rest.is_empty() {
        Ok(term)
    } else {
        Err(TermFault::BadTerm(place_of(text, rest)))
    }
}
