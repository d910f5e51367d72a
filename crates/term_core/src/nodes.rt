// The size of a term.
ghost use Rattle.std.specs.Prelude.{◌≡◌, ◌-◌, ◌^◌, min};
ghost use Rattle.term_core.specs.Meaning.{node_count, sum_of_nodes};
ghost use Rattle.term_core.specs.Term.{meaning_of};

use crate::term::{Pair, Term, Terms};

impl Term {
    /// Its size in nodes: 1 for each integer, atom, reference, pid, nil, tuple and list cell, and the
    /// nodes of its parts; `u64::MAX` where there are more. It takes no memory, and one step.
    pub fn nodes(&self) -> u64
        ensures { result ≡ min (node_count (meaning_of self.now)) (2 ^ 64 - 1) }
    {
        match self {
            Term::Cons(cell) => {
                let pair: &Pair = cell;
                pair.nodes
            }
            Term::Tuple(parts) => parts.nodes().saturating_add(1),
            _ => 1,
        }
    }
}

impl Terms {
    /// The sizes of the terms together, in nodes; `u64::MAX` where there are more. It takes no memory,
    /// and one step.
    pub fn nodes(&self) -> u64
        ensures { result ≡ min (sum_of_nodes self.now) (2 ^ 64 - 1) }
    {
        self.nodes
    }
}
