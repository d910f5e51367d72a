// Walks over the keys of a table, in their order (ets manual, `first/1`, `last/1`, `next/2`, `prev/2`). They take
// no memory.
ghost use Rattle.std.specs.FinMap.{keys};
ghost use Rattle.std.specs.List.{filter};
ghost use Rattle.std.specs.Option.{option_map};
ghost use Rattle.std.specs.Ordering.{is_lt, is_gt};
ghost use Rattle.std.specs.Prelude.{◌≡◌, option_copied};
ghost use Rattle.term_core.specs.Order.{order_of_terms};
ghost use Rattle.term_core.specs.Term.{meaning_of};
ghost use Rattle.world_model.specs.Signals.{first_of};
ghost use Rattle.world_model.specs.Walks.{last_of, last_key, key_after, key_before};

use crate::row_map::RowMap;
use crate::rows::Rows;
use std::ops::Bound;
use term_core::Term;
use world_model::table::Kind;

impl RowMap {
    // The least key.
    fn first(&self) -> Option<&Term>
        ensures { option_map meaning_of (option_copied result) ≡ first_of (keys self.now) }
    {
        let mut entries = self.entries.iter();
        match entries.next() {
            Some((key, _)) => Some(key),
            None => None,
        }
    }

    // The greatest key.
    fn last(&self) -> Option<&Term>
        ensures { option_map meaning_of (option_copied result) ≡ last_of (keys self.now) }
    {
        let mut entries = self.entries.iter();
        match entries.next_back() {
            Some((key, _)) => Some(key),
            None => None,
        }
    }

    // The least key above another.
    fn after(&self, key: &Term) -> Option<&Term>
        ensures { option_map meaning_of (option_copied result) ≡ key_after (meaning_of key.now) self.now }
    {
        let bounds: (Bound<&Term>, Bound<&Term>) = (Bound::Excluded(key), Bound::Unbounded);
        let mut above = self.entries.range(bounds);
        match above.next() {
            Some((next, _)) => Some(next),
            None => None,
        }
    }

    // The greatest key below another.
    fn before(&self, key: &Term) -> Option<&Term>
        ensures { option_map meaning_of (option_copied result) ≡ last_of (filter (λ k. is_gt (order_of_terms (meaning_of key.now) k)) (keys self.now)) }
    {
        let bounds: (Bound<&Term>, Bound<&Term>) = (Bound::Unbounded, Bound::Excluded(key));
        let mut below = self.entries.range(bounds);
        match below.next_back() {
            Some((previous, _)) => Some(previous),
            None => None,
        }
    }
}

impl Rows {
    /// The first key, if there is one (ets manual, `first/1`).
    pub fn first(&self) -> Option<&Term>
        ensures { option_map meaning_of (option_copied result) ≡ first_of (keys self.now.rows) }
    {
        self.map.first()
    }

    /// The last key, if there is one: in an ordered_set the greatest, and else as `first` (ets manual, `last/1`).
    pub fn last(&self) -> Option<&Term>
        ensures { option_map meaning_of (option_copied result) ≡ last_key self.now.kind self.now.rows }
    {
        match self.kind {
            Kind::OrderedSet => self.map.last(),
            Kind::Set => self.map.first(),
            Kind::Bag => self.map.first(),
            Kind::DuplicateBag => self.map.first(),
        }
    }

    /// The least key above another, whether that is there or not (ets manual, `next/2`).
    pub fn next(&self, key: &Term) -> Option<&Term>
        ensures { option_map meaning_of (option_copied result) ≡ key_after (meaning_of key.now) self.now.rows }
    {
        self.map.after(key)
    }

    /// In an ordered_set the greatest key below another, whether that is there or not, and else as `next` (ets
    /// manual, `prev/2`).
    pub fn prev(&self, key: &Term) -> Option<&Term>
        ensures { option_map meaning_of (option_copied result) ≡ key_before self.now.kind (meaning_of key.now) self.now.rows }
    {
        match self.kind {
            Kind::OrderedSet => self.map.before(key),
            Kind::Set => self.map.after(key),
            Kind::Bag => self.map.after(key),
            Kind::DuplicateBag => self.map.after(key),
        }
    }
}
