// Rows of numbers, one after the other.
ghost use Rattle.std.specs.Prelude.{◌≡◌, ◌∷◌, ◌++◌, ◌<◌, [], ℕ, List, length, OnOk, Some, slice_get};
ghost use Rattle.search_levels.specs.Rows.{Entry, LieWithin, entries_in};

use crate::span::Span;
use std::alloc::{AllocError, Global};
use std::marker::Model;

/// Rows of numbers, one after the other in one piece of memory, each with what goes with it. Contracts see the list of
/// these.
#[derive(Drop)]
pub struct Rows<T> {
    numbers: Vec<u32>,
    spans: Vec<Span<T>>,
}

impl<T> Model for Rows<T> {
    ghost Value = { List (Entry T) };

    ghost view = { λ rows. entries_in rows.numbers.items rows.spans.items };

    ghost invariant = { λ rows. LieWithin rows.numbers.items rows.spans.items };
}

/// A row, what goes with it, and the number by which it is found.
#[derive(Drop)]
pub struct Seen<'a, T> {
    /// What goes with it.
    pub of: &'a T,
    /// Its numbers.
    pub row: &'a [u32],
    /// The number by which it is found. Nothing is promised of it.
    pub digest: u64,
}

impl<T: Drop> Rows<T> {
    /// No rows. It takes no memory.
    pub fn new(alloc: Global) -> Rows<T>
        ensures { result ≡ [] }
    {
        Rows {
            numbers: Vec::new(alloc),
            spans: Vec::new(alloc),
        }
    }

    /// How many rows there are.
    pub fn len(&self) -> usize
        ensures { result ≡ length self.now }
    {
        self.spans.len()
    }

    /// The row at a place, with what goes with it.
    pub fn at(&self, place: usize) -> Seen<'_, T>
        requires { place < length self.now }
        ensures { slice_get self.now place ≡ Some (record { of = result.of.now; row = result.row.now }) }
    {
        let span = &self.spans[place];
        let Some(row) = self.numbers.get(span.start..span.end) else {
            unreachable!();
        };
        Seen {
            of: &span.of,
            row,
            digest: span.digest,
        }
    }

    /// Puts a row after the others, with what goes with it. `AllocError` if there is no memory for it; then there are those
    /// that were.
    pub fn push(&mut self, of: T, row: &[u32], digest: u64) -> Result<(), AllocError>
        ensures { OnOk result (self.new ≡ self.old ++ record { of = of; row = row.now } ∷ []) }
    {
        let start = self.numbers.len();
        self.numbers.extend_from_slice(row)?;
        let end = self.numbers.len();
        let span = Span {
            start,
            end,
            digest,
            of,
        };
        self.spans.push(span)?;
        Ok(())
    }

    /// Takes all rows away.
    pub fn clear(&mut self)
        ensures { self.new ≡ [] }
    {
        self.spans.clear();
        self.numbers.clear();
    }
}
