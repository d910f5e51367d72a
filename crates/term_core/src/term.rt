// Terms. Tuples and list cells are shared by all that hold them, and know their sizes.
ghost use Rattle.std.specs.Prelude.{◌≡◌, map};
ghost use Rattle.term_core.specs.Term.{meaning_of};

use crate::atom::Atom;
use crate::pid::{Pid, RefId};
use std::marker::Model;
use std::sync::Arc;

/// A term: an integer of 64 bits, an atom, a reference, a pid, a tuple, nil, or a list cell. A copy
/// shares the parts of tuples and cells.
#[derive(Drop)]
#[cycle(term)]
pub enum Term {
    Int(i64),
    Atom(Atom),
    Ref(RefId),
    Pid(Pid),
    Tuple(Arc<Terms>),
    Nil,
    Cons(Arc<Pair>),
}

/// A list cell, with its size. Contracts see it as the pair of what its parts mean.
#[cycle(term)]
pub struct Pair {
    pub(crate) head: Term,
    pub(crate) tail: Term,
    pub(crate) nodes: u64,
}

impl Model for Pair {
    ghost use Rattle.std.specs.Prelude.{◌≡◌, ◌+◌, ◌-◌, ◌^◌, min};
    ghost use Rattle.std.specs.Coded.{coded×};
    ghost use Rattle.term_core.specs.Meaning.{Meaning, Cons, node_count};
    ghost use Rattle.term_core.specs.inside.MeaningCodes.{coded_meaning};

    ghost Value = { Meaning × Meaning };

    ghost coded = { coded× coded_meaning coded_meaning };

    ghost use Rattle.term_core.specs.Term.{meaning_of};

    ghost view = { λ p. (meaning_of p.head, meaning_of p.tail) };

    ghost invariant = { λ p. p.nodes ≡ min (node_count (Cons (meaning_of p.head) (meaning_of p.tail))) (2 ^ 64 - 1) };

    ghost size = { λ v. node_count v.0 + node_count v.1 };

    ghost use Rattle.std.proofs.Common.{arith};
    ghost use Rattle.term_core.specs.inside.Depth.{deep_le};

    ghost size_decreases = { λ a h. Prim.omega (arith, deep_le a.head, deep_le a.tail) };
}

/// The parts of a tuple, and the arguments of a call, with their size. Contracts see them as a list.
#[cycle(term)]
pub struct Terms {
    pub(crate) items: Vec<Term>,
    pub(crate) nodes: u64,
}

// Dropped by a call, so that no crate above proves again how.
impl Drop for Terms {
    #[cycle(drop)]
    fn drop(self) {
        let Terms { items: _, nodes: _ } = self;
    }
}

impl Terms {
    /// The terms, taken out. It takes no memory.
    pub fn into_vec(self) -> Vec<Term>
        ensures { map meaning_of result.items ≡ self }
    {
        let Terms {
            items,
            nodes: _nodes,
        } = self;
        items
    }
}

impl Model for Terms {
    ghost use Rattle.std.specs.Prelude.{◌≡◌, ◌-◌, ◌^◌, min, List, map};
    ghost use Rattle.std.specs.Coded.{coded_list};
    ghost use Rattle.term_core.specs.Meaning.{Meaning, sum_of_nodes};
    ghost use Rattle.term_core.specs.inside.MeaningCodes.{coded_meaning};

    ghost Value = { List Meaning };

    ghost coded = { coded_list coded_meaning };

    ghost use Rattle.term_core.specs.Term.{meaning_of};

    ghost view = { λ a. map meaning_of a.items.items };

    ghost invariant = { λ a. a.nodes ≡ min (sum_of_nodes (map meaning_of a.items.items)) (2 ^ 64 - 1) };

    ghost size = { sum_of_nodes };

    ghost use Rattle.std.proofs.Common.{arith};
    ghost use Rattle.term_core.specs.inside.Depth.{most_le};

    ghost size_decreases = { λ a h. Prim.omega (arith, most_le a.items.items) };
}

impl Pair {
    /// The cell of a head and a tail. It takes no memory.
    pub fn new(head: Term, tail: Term) -> Pair
        ensures { result ≡ (meaning_of head, meaning_of tail) }
    {
        let parts = head.nodes().saturating_add(tail.nodes());
        Pair {
            head,
            tail,
            nodes: parts.saturating_add(1),
        }
    }

    /// The head.
    pub fn head(&self) -> &Term
        ensures { meaning_of result.now ≡ self.now.0 }
    {
        &self.head
    }

    /// The tail.
    pub fn tail(&self) -> &Term
        ensures { meaning_of result.now ≡ self.now.1 }
    {
        &self.tail
    }

    /// The head and the tail.
    pub fn into_parts(self) -> (Term, Term)
        ensures head { meaning_of result.0 ≡ self.0 }
        ensures tail { meaning_of result.1 ≡ self.1 }
    {
        let Pair {
            head,
            tail,
            nodes: _nodes,
        } = self;
        (head, tail)
    }
}

impl Drop for Pair {
    // A list is dropped by a loop over its tails, so that it may be of any length. It ends at a cell
    // that others hold as well.
    #[cycle(drop)]
    fn drop(self) {
        let Pair {
            head,
            mut tail,
            nodes: _nodes,
        } = self;
        drop(head);
        loop {
            match tail {
                Term::Cons(cell) => match Arc::into_inner(cell) {
                    Some(pair) => {
                        let (head, rest) = pair.into_parts();
                        drop(head);
                        tail = rest;
                    }
                    None => return,
                },
                last => {
                    drop(last);
                    return;
                }
            }
        }
    }
}
