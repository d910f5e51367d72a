// The order of terms (Erlang reference manual, "Term Comparisons").
ghost use Rattle.std.specs.Prelude.{◌≡◌, ◌↔◌, refl, length, IsTrue};
ghost use Rattle.std.specs.Ordering.{eq_by_cmp, as_partial_cmp, on, nat_cmp, ordering_then};
ghost use Rattle.std.specs.Cmp.{IsTotalOrder, partial_order_from_total, partial_equiv_from_equiv, eq_by_cmp_equiv, on_per, on_equiv, on_po, on_total};
ghost use Rattle.term_core.specs.Meaning.{Meaning};
ghost use Rattle.term_core.specs.Term.{meaning_of};
ghost use Rattle.term_core.specs.Order.{order_of_terms, order_of_items, order_of_pairs, rank_of};
ghost use Rattle.term_core.specs.inside.OrderLaws.{terms_total, items_total, pairs_total};

use crate::term::{Pair, Term, Terms};
use std::cmp::Ordering;

pub mod names;
pub mod steps;

// The place of the term's kind among the kinds.
fn rank(term: &Term) -> u8
    ensures { result ≡ rank_of (meaning_of term.now) }
{
    match term {
        Term::Int(_) => 0,
        Term::Atom(_) => 1,
        Term::Ref(_) => 2,
        Term::Pid(_) => 3,
        Term::Tuple(_) => 4,
        Term::Nil => 5,
        Term::Cons(_) => 6,
    }
}

// Which of two terms comes first. It goes along the tails of lists by a loop, and into heads and the
// parts of tuples by recursion.
#[cycle(order)]
fn order_of(a: &Term, b: &Term) -> Ordering
    ensures { result ≡ order_of_terms (meaning_of a.now) (meaning_of b.now) }
{
    let mut left = a;
    let mut right = b;
    loop {
        match (left, right) {
            (Term::Cons(p), Term::Cons(q)) => {
                let p: &Pair = p;
                let q: &Pair = q;
                let heads = order_of(&p.head, &q.head);
                if heads.is_ne() {
                    return heads;
                }
                left = &p.tail;
                right = &q.tail;
            }
            (Term::Tuple(xs), Term::Tuple(ys)) => return order_of_tuples(xs, ys),
            (Term::Int(m), Term::Int(n)) => return m.cmp(n),
            (Term::Atom(t), Term::Atom(u)) => return t.cmp(u),
            (Term::Ref(r), Term::Ref(s)) => return r.cmp(s),
            (Term::Pid(p), Term::Pid(q)) => return p.cmp(q),
            _ => return rank(left).cmp(&rank(right)),
        }
    }
}

// Which of two tuples comes first: the smaller one, and of two of one size the one with the lesser part where they
// first differ.
#[cycle(order)]
fn order_of_tuples(a: &Terms, b: &Terms) -> Ordering
    ensures { result ≡ ordering_then (nat_cmp (length a.now) (length b.now)) (order_of_items a.now b.now) }
{
    if a.items.len() != b.items.len() {
        return a.items.len().cmp(&b.items.len());
    }
    for i in 0..a.items.len() {
        let parts = order_of(&a.items[i], &b.items[i]);
        if parts.is_ne() {
            return parts;
        }
    }
    Ordering::Equal
}

/// The order of terms is total, and it distinguishes any two terms that are not the same.
pub fn terms_are_ordered()
    ensures total { IsTotalOrder order_of_terms }
    ensures same { (a b : Meaning) → order_of_terms a b ≡ Ordering.Equal → a ≡ b }
{}

impl PartialEq for Term {
    ghost eq = { on meaning_of (eq_by_cmp order_of_terms) };

    ghost laws = { on_per meaning_of (partial_equiv_from_equiv (eq_by_cmp_equiv terms_total)) };

    /// Whether the two terms are the same. Tuples of different sizes are distinguished at once. It takes no memory.
    fn eq(&self, other: &Term) -> bool
        ensures value { result ≡ eq_by_cmp order_of_terms (meaning_of self.now) (meaning_of other.now) }
        ensures same { IsTrue result ↔ (meaning_of self.now ≡ meaning_of other.now) }
    {
        order_of(self, other).is_eq()
    }
}

impl Eq for Term {
    ghost laws = { on_equiv meaning_of (eq_by_cmp_equiv terms_total) };
}

impl PartialOrd for Term {
    ghost partial_cmp = { on meaning_of (as_partial_cmp order_of_terms) };

    ghost laws = { on_po meaning_of (partial_order_from_total terms_total) };

    fn partial_cmp(&self, other: &Term) -> Option<Ordering> {
        Some(order_of(self, other))
    }
}

impl Ord for Term {
    ghost cmp = { on meaning_of order_of_terms };

    ghost total = { on_total meaning_of terms_total };

    ghost matches_partial_cmp = { λ a b. refl };

    ghost matches_eq = { λ a b. refl };

    /// The order of terms: integers by value, then atoms by their characters, references by pid and
    /// number, pids by their numbers, tuples by size and then from left to right, nil, and list cells
    /// by head, then by tail (Erlang reference manual, "Term Comparisons"). It takes no memory.
    fn cmp(&self, other: &Term) -> Ordering {
        order_of(self, other)
    }
}

impl PartialEq for Pair {
    ghost eq = { eq_by_cmp order_of_pairs };

    ghost laws = { partial_equiv_from_equiv (eq_by_cmp_equiv pairs_total) };

    /// Whether the two have the same head and the same tail.
    fn eq(&self, other: &Pair) -> bool
        ensures value { result ≡ eq_by_cmp order_of_pairs self.now other.now }
        ensures same { IsTrue result ↔ (self.now ≡ other.now) }
    {
        self.head == other.head && self.tail == other.tail
    }
}

impl Eq for Pair {
    ghost laws = { eq_by_cmp_equiv pairs_total };
}

impl PartialOrd for Pair {
    ghost partial_cmp = { as_partial_cmp order_of_pairs };

    ghost laws = { partial_order_from_total pairs_total };

    fn partial_cmp(&self, other: &Pair) -> Option<Ordering> {
        Some(self.cmp(other))
    }
}

impl Ord for Pair {
    ghost cmp = { order_of_pairs };

    ghost total = { pairs_total };

    ghost matches_partial_cmp = { λ a b. refl };

    ghost matches_eq = { λ a b. refl };

    /// By head, then by tail. It takes no memory.
    fn cmp(&self, other: &Pair) -> Ordering {
        let heads = self.head.cmp(&other.head);
        heads.then_with(|| self.tail.cmp(&other.tail))
    }
}

impl PartialEq for Terms {
    ghost eq = { eq_by_cmp order_of_items };

    ghost laws = { partial_equiv_from_equiv (eq_by_cmp_equiv items_total) };

    /// Whether the two have the same terms.
    fn eq(&self, other: &Terms) -> bool
        ensures value { result ≡ eq_by_cmp order_of_items self.now other.now }
        ensures same { IsTrue result ↔ (self.now ≡ other.now) }
    {
        self.cmp(other).is_eq()
    }
}

impl Eq for Terms {
    ghost laws = { eq_by_cmp_equiv items_total };
}

impl PartialOrd for Terms {
    ghost partial_cmp = { as_partial_cmp order_of_items };

    ghost laws = { partial_order_from_total items_total };

    fn partial_cmp(&self, other: &Terms) -> Option<Ordering> {
        Some(self.cmp(other))
    }
}

impl Ord for Terms {
    ghost cmp = { order_of_items };

    ghost total = { items_total };

    ghost matches_partial_cmp = { λ a b. refl };

    ghost matches_eq = { λ a b. refl };

    /// Item by item: the first that differs decides, and a list comes before its longer ones. It takes
    /// no memory.
    fn cmp(&self, other: &Terms) -> Ordering {
        self.items.cmp(&other.items)
    }
}
