// Hashes of terms, atoms, pids, references and steps: equal values are hashed alike.
ghost use Rattle.std.specs.Prelude.{◌≡◌};
ghost use Rattle.std.proofs.Common.{rules};
ghost use Rattle.std.specs.List.{fold};
ghost use Rattle.std.specs.Hash as fed;
ghost use Rattle.std.specs.Cmp.Rules.{hashing};
ghost use Rattle.term_core.specs.Term.{meaning_of};
ghost use Rattle.term_core.specs.inside.OrderLaws.{same_term, same_pair, same_items};
ghost use Rattle.term_core.specs.inside.StepOrderLaws.{same_reference_id, same_step};
ghost use Rattle.term_core.specs.HashInput.{writes_of_term, writes_of_pid, writes_of_items, writes_of_pair, writes_of_reference_id, writes_of_step};
ghost use Rattle.term_core.specs.inside.HashInputLaws.{fed_alike};

use crate::atom::Atom;
use crate::pid::{Pid, RefId};
use crate::step::Step;
use crate::term::{Pair, Term, Terms};
use std::hash::{Hash, Hasher};

// Feeds a term to a hasher. It goes along the tails of lists by a loop, and into heads and the parts
// of tuples by recursion.
#[cycle(hash)]
fn feed_term<H: Hasher>(term: &Term, state: &mut H)
    ensures { state.new ≡ fold H.write state.old (writes_of_term (meaning_of term.now)) }
{
    let mut rest = term;
    loop {
        match rest {
            Term::Cons(pair) => {
                let pair: &Pair = pair;
                state.write_u8(6);
                feed_term(&pair.head, state);
                rest = &pair.tail;
            }
            Term::Tuple(parts) => {
                state.write_u8(4);
                return feed_parts(parts, state);
            }
            Term::Int(number) => {
                state.write_u8(0);
                return number.hash(state);
            }
            Term::Atom(atom) => {
                state.write_u8(1);
                return atom.hash(state);
            }
            Term::Ref(reference) => {
                state.write_u8(2);
                return reference.hash(state);
            }
            Term::Pid(pid) => {
                state.write_u8(3);
                return pid.hash(state);
            }
            Term::Nil => return state.write_u8(5),
        }
    }
}

// Feeds how many terms there are, and each of them.
#[cycle(hash)]
fn feed_parts<H: Hasher>(parts: &Terms, state: &mut H)
    ensures { state.new ≡ fold H.write state.old (writes_of_items parts.now) }
{
    state.write_usize(parts.items.len());
    for i in 0..parts.items.len() {
        feed_term(&parts.items[i], state);
    }
}

impl Hash for Atom {
    ghost hash_input = { fed.str };

    ghost respects_eq = { Prim.search (hashing, rules) };

    /// Feeds the text.
    fn hash<H: Hasher>(&self, state: &mut H) {
        self.as_str().hash(state);
    }
}

impl Hash for Pid {
    ghost hash_input = { writes_of_pid };

    ghost respects_eq = { Prim.search (hashing, rules) };

    /// Feeds how many numbers there are, and each of them.
    fn hash<H: Hasher>(&self, state: &mut H) {
        self.numbers().hash(state);
    }
}

impl Hash for RefId {
    ghost hash_input = { writes_of_reference_id };

    ghost respects_eq = { fed_alike writes_of_reference_id same_reference_id };

    /// Feeds the pid, and the number.
    fn hash<H: Hasher>(&self, state: &mut H) {
        self.pid().hash(state);
        self.number().hash(state);
    }
}

impl Hash for Step {
    ghost hash_input = { writes_of_step };

    ghost respects_eq = { fed_alike writes_of_step same_step };

    /// Feeds 0 for a turn or 1 for a delivery, and the pids.
    fn hash<H: Hasher>(&self, state: &mut H) {
        match self {
            Step::Turn(pid) => {
                state.write_u8(0);
                pid.hash(state);
            }
            Step::Deliver(from, to) => {
                state.write_u8(1);
                from.hash(state);
                to.hash(state);
            }
        }
    }
}

impl Hash for Term {
    ghost hash_input = { λ term. writes_of_term (meaning_of term) };

    ghost respects_eq = { λ a b. fed_alike writes_of_term same_term (meaning_of a) (meaning_of b) };

    /// Feeds the kind, and the parts.
    fn hash<H: Hasher>(&self, state: &mut H) {
        feed_term(self, state);
    }
}

impl Hash for Pair {
    ghost hash_input = { writes_of_pair };

    ghost respects_eq = { fed_alike writes_of_pair same_pair };

    /// Feeds the head, and the tail.
    fn hash<H: Hasher>(&self, state: &mut H) {
        feed_term(&self.head, state);
        feed_term(&self.tail, state);
    }
}

impl Hash for Terms {
    ghost hash_input = { writes_of_items };

    ghost respects_eq = { fed_alike writes_of_items same_items };

    /// Feeds how many terms there are, and each of them.
    fn hash<H: Hasher>(&self, state: &mut H) {
        feed_parts(self, state);
    }
}
