// The order of atoms, pids and references.
ghost use Rattle.std.specs.Prelude.{◌≡◌, ◌↔◌, IsTrue, refl, bytes_eq};
ghost use Rattle.std.specs.Ordering.{eq_by_cmp, as_partial_cmp};
ghost use Rattle.std.specs.Cmp.{partial_order_from_total, partial_equiv_from_equiv, eq_by_cmp_equiv};
ghost use Rattle.std.specs.Cmp.Lexicographic.{nat_list_eq_equiv, nat_list_cmp_total, texts_ties, texts_po};
ghost use Rattle.term_core.specs.Order.{order_of_lists};
ghost use Rattle.term_core.specs.StepOrder.{order_of_reference_ids};
ghost use Rattle.term_core.specs.inside.StepOrderLaws.{reference_ids_total};

use crate::atom::Atom;
use crate::pid::{Pid, RefId};
use std::cmp::Ordering;

impl PartialEq for Atom {
    ghost eq = { bytes_eq };

    ghost laws = { partial_equiv_from_equiv nat_list_eq_equiv };

    /// Whether the two have the same text.
    fn eq(&self, other: &Atom) -> bool
        ensures value { result ≡ bytes_eq self.now other.now }
        ensures same { IsTrue result ↔ (self.now ≡ other.now) }
    {
        self.as_str() == other.as_str()
    }
}

impl Eq for Atom {
    ghost laws = { nat_list_eq_equiv };
}

impl PartialOrd for Atom {
    ghost partial_cmp = { as_partial_cmp order_of_lists };

    ghost laws = { texts_po };

    fn partial_cmp(&self, other: &Atom) -> Option<Ordering> {
        Some(self.cmp(other))
    }
}

impl Ord for Atom {
    ghost cmp = { order_of_lists };

    ghost total = { nat_list_cmp_total };

    ghost matches_partial_cmp = { λ a b. refl };

    ghost matches_eq = { texts_ties };

    /// By the UTF-8 bytes of their texts, which is the order of their characters. It takes no memory.
    fn cmp(&self, other: &Atom) -> Ordering {
        self.as_str().cmp(other.as_str())
    }
}

impl PartialEq for Pid {
    ghost eq = { bytes_eq };

    ghost laws = { partial_equiv_from_equiv nat_list_eq_equiv };

    /// Whether the two have the same numbers.
    fn eq(&self, other: &Pid) -> bool
        ensures value { result ≡ bytes_eq self.now other.now }
        ensures same { IsTrue result ↔ (self.now ≡ other.now) }
    {
        self.numbers() == other.numbers()
    }
}

impl Eq for Pid {
    ghost laws = { nat_list_eq_equiv };
}

impl PartialOrd for Pid {
    ghost partial_cmp = { as_partial_cmp order_of_lists };

    ghost laws = { texts_po };

    fn partial_cmp(&self, other: &Pid) -> Option<Ordering> {
        Some(self.cmp(other))
    }
}

impl Ord for Pid {
    ghost cmp = { order_of_lists };

    ghost total = { nat_list_cmp_total };

    ghost matches_partial_cmp = { λ a b. refl };

    ghost matches_eq = { texts_ties };

    /// By their numbers: the first that differs decides; a pid comes before its longer ones. It takes no memory.
    fn cmp(&self, other: &Pid) -> Ordering {
        self.numbers().cmp(other.numbers())
    }
}

impl PartialEq for RefId {
    ghost eq = { eq_by_cmp order_of_reference_ids };

    ghost laws = { partial_equiv_from_equiv (eq_by_cmp_equiv reference_ids_total) };

    /// Whether the two have the same pid and the same number.
    fn eq(&self, other: &RefId) -> bool
        ensures value { result ≡ eq_by_cmp order_of_reference_ids self.now other.now }
        ensures same { IsTrue result ↔ (self.now ≡ other.now) }
    {
        self.cmp(other).is_eq()
    }
}

impl Eq for RefId {
    ghost laws = { eq_by_cmp_equiv reference_ids_total };
}

impl PartialOrd for RefId {
    ghost partial_cmp = { as_partial_cmp order_of_reference_ids };

    ghost laws = { partial_order_from_total reference_ids_total };

    fn partial_cmp(&self, other: &RefId) -> Option<Ordering> {
        Some(self.cmp(other))
    }
}

impl Ord for RefId {
    ghost cmp = { order_of_reference_ids };

    ghost total = { reference_ids_total };

    ghost matches_partial_cmp = { λ a b. refl };

    ghost matches_eq = { λ a b. refl };

    /// By pid, then by number. It takes no memory.
    fn cmp(&self, other: &RefId) -> Ordering {
        let pids = self.pid().cmp(other.pid());
        pids.then_with(|| self.number().cmp(&other.number()))
    }
}
