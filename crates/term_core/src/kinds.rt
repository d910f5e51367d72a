// What a term holds, where it is of a kind.
ghost use Rattle.std.specs.Prelude.{◌≡◌, option_map};
ghost use Rattle.term_core.specs.Kinds.{cell_in, is_the_atom, tuple_in};
ghost use Rattle.term_core.specs.Term.{meaning_of};

use crate::term::{Pair, Term, Terms};

impl Term {
    /// Whether it is the atom of this text.
    pub fn is_the_atom(&self, text: &str) -> bool
        ensures { result ≡ is_the_atom text.now (meaning_of self.now) }
    {
        match self {
            Term::Atom(atom) => atom.as_str() == text,
            _ => false,
        }
    }

    /// Its parts, if it is a tuple.
    #[tactic(auto, using(crate::proofs::TupleParts::parts_of_tuple))]
    pub fn as_tuple(&self) -> Option<&Terms>
        ensures { option_map (λ parts. parts.now) result ≡ tuple_in (meaning_of self.now) }
    {
        match self {
            Term::Tuple(parts) => {
                let parts: &Terms = parts;
                Some(parts)
            }
            _ => None,
        }
    }

    /// Its head and its tail, if it is a list cell.
    pub fn as_cell(&self) -> Option<&Pair>
        ensures { option_map (λ pair. pair.now) result ≡ cell_in (meaning_of self.now) }
    {
        match self {
            Term::Cons(cell) => {
                let pair: &Pair = cell;
                Some(pair)
            }
            _ => None,
        }
    }
}
