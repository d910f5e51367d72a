// The parts of a tuple: made, added to, read, and taken out.
ghost use Rattle.std.specs.Prelude.{◌≡◌, ◌-◌, ◌^◌, min, [], ◌∷◌, ◌++◌, length, map, OnOk, OnErr};
ghost use Rattle.term_core.specs.Meaning.{sum_of_nodes};
ghost use Rattle.term_core.specs.Term.{meaning_of};

use crate::term::{Term, Terms};
use std::alloc::{AllocError, Global};

// The sizes of terms together, in nodes; `u64::MAX` where there are more.
fn nodes_of(items: &[Term]) -> u64
    ensures { result ≡ min (sum_of_nodes (map meaning_of items.now)) (2 ^ 64 - 1) }
{
    let mut count: u64 = 0;
    for item in items {
        count = count.saturating_add(item.nodes());
    }
    count
}

impl Terms {
    /// No terms. It takes no memory.
    pub fn new(alloc: Global) -> Terms
        ensures { result ≡ [] }
    {
        Terms {
            items: Vec::new(alloc),
            nodes: 0,
        }
    }

    /// These terms. It takes no memory.
    pub fn from_vec(items: Vec<Term>) -> Terms
        ensures { result ≡ map meaning_of items.items }
    {
        let nodes = nodes_of(items.as_slice());
        Terms { items, nodes }
    }

    /// Adds a term at the end, or `AllocError` if there is no memory for it: then the terms are as they were,
    /// and the term is dropped.
    pub fn push(&mut self, term: Term) -> Result<(), AllocError>
        ensures pushed { OnOk result (self.new ≡ self.old ++ meaning_of term ∷ []) }
        ensures unchanged { OnErr result (self.new ≡ self.old) }
    {
        let nodes = self.nodes.saturating_add(term.nodes());
        self.items.push(term)?;
        self.nodes = nodes;
        Ok(())
    }

    /// How many terms there are.
    pub fn len(&self) -> usize
        ensures { result ≡ length self.now }
    {
        self.items.len()
    }

    /// The terms.
    pub fn as_slice(&self) -> &[Term]
        ensures { map meaning_of result.now ≡ self.now }
    {
        self.items.as_slice()
    }
}
