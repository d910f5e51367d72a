// When a pattern matches a term: the atom '_' in it stands for any term.
ghost use Rattle.std.specs.Prelude.{◌≡◌};
ghost use Rattle.term_core.specs.Meaning.{meanings_of};
ghost use Rattle.term_core.specs.Term.{meaning_of};
ghost use Rattle.tree_excuses.specs.Patterns.{all_match, matches};

use term_core::{Pair, Term, Terms};

/// Whether a pattern matches a term. It goes along the tails of lists by a loop, and into heads and the parts of tuples by
/// recursion, and never further than the pattern does. It takes no memory.
#[cycle(patterns)]
pub(crate) fn matches(pattern: &Term, term: &Term) -> bool
    ensures { result ≡ matches (meaning_of pattern.now) (meaning_of term.now) }
{
    let mut left = pattern;
    let mut right = term;
    loop {
        match (left, right) {
            (Term::Cons(p), Term::Cons(q)) => {
                let p: &Pair = p;
                let q: &Pair = q;
                if !matches(p.head(), q.head()) {
                    return false;
                }
                left = p.tail();
                right = q.tail();
            }
            (Term::Tuple(patterns), Term::Tuple(terms)) => return all_match(patterns, terms),
            _ => return left.is_the_atom("_") || *left == *right,
        }
    }
}

// Whether as many patterns match these terms, each the one at its place.
#[cycle(patterns)]
fn all_match(left: &Terms, right: &Terms) -> bool
    ensures { result ≡ all_match (meanings_of left.now) (meanings_of right.now) }
{
    let patterns = left.as_slice();
    let terms = right.as_slice();
    if patterns.len() != terms.len() {
        return false;
    }
    for i in 0..patterns.len() {
        if !matches(&patterns[i], &terms[i]) {
            return false;
        }
    }
    true
}
