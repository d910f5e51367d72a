// Worlds as rows of numbers.
ghost use Rattle.std.specs.Prelude.{◌≡◌, ◌==◌, ◌≤◌, ◌-◌, ℕ, if◌then◌else◌, true, length, slice_get, OnOk, Some};
ghost use Rattle.search_numbers.specs.Rows.{fits, numbers_in, written};

use crate::touch::Touch;
use std::alloc::{AllocError, Global};
use std::hash::{FoldHasher, Hasher};

/// The number of a row at a column; 0 where it has none. It takes no memory.
pub(crate) fn number_in(row: &[u32], column: usize) -> u32
    ensures { result ≡ numbers_in row.now column }
{
    match row.get(column) {
        Some(number) => *number,
        None => 0,
    }
}

/// Whether a row has the numbers that a step found at all columns that it touches. It takes no memory.
pub(crate) fn matches(row: &[u32], touches: &[Touch]) -> bool
    ensures { result ≡ fits touches.now (numbers_in row.now) }
{
    touches
        .iter()
        .all(|touch| number_in(row, touch.column) == touch.before)
}

/// A row that is made: for each column the number of what is kept of its place, 0 where that is as before anything
/// happened. The last number is not 0, so that worlds with the same numbers have the same rows.
#[derive(Drop)]
pub struct Row {
    pub(crate) numbers: Vec<u32>,
    // The shares of its numbers in its digest, taken together.
    digest: u64,
}

// The share of a number at a column in the digest of a row: 0 has none.
fn share(column: usize, number: u32) -> u64 {
    if number == 0 {
        return 0;
    }
    let mut hasher = FoldHasher::default();
    hasher.write_usize(column);
    hasher.write_u32(number);
    hasher.finish()
}

impl Row {
    /// The row of the world before anything happened. It takes no memory.
    pub fn new(alloc: Global) -> Row
        ensures { (c : ℕ) → numbers_in result.numbers.items c ≡ 0 }
    {
        Row {
            numbers: Vec::new(alloc),
            digest: 0,
        }
    }

    /// Its numbers. It takes no memory.
    pub fn numbers(&self) -> &[u32]
        ensures { result.now ≡ self.now.numbers.items }
    {
        self.numbers.as_slice()
    }

    /// A number by which a search finds the rows that may be the same: those that are have the same. It takes no memory.
    pub fn digest(&self) -> u64 {
        self.digest
    }

    // The numbers of a row, with its digest. `AllocError` if there is no memory for them.
    fn become_row(&mut self, row: &[u32], digest: u64) -> Result<(), AllocError>
        ensures { OnOk result (self.new.numbers.items ≡ row.now) }
    {
        self.numbers.clear();
        self.numbers.extend_from_slice(row)?;
        self.digest = digest;
        Ok(())
    }

    // So many columns at least, the new ones with 0.
    #[tactic(auto, using(crate::proofs::Numbers::zero_at_end))]
    fn widen(&mut self, columns: usize) -> Result<(), AllocError>
        ensures numbers { (c : ℕ) → numbers_in self.new.numbers.items c ≡ numbers_in self.old.numbers.items c }
        ensures wide { OnOk result (columns ≤ length self.new.numbers.items) }
    {
        for _ in self.numbers.len()..columns {
            self.numbers.push(0)?;
        }
        Ok(())
    }

    // Puts a number at a column.
    fn put(&mut self, column: usize, number: u32) -> Result<(), AllocError>
        ensures { OnOk result ((c : ℕ) → numbers_in self.new.numbers.items c ≡ (if c == column then number else numbers_in self.old.numbers.items c)) }
    {
        let Some(columns) = column.checked_add(1) else {
            return Err(AllocError);
        };
        self.widen(columns)?;
        self.digest ^= share(column, self.numbers[column]) ^ share(column, number);
        self.numbers[column] = number;
        Ok(())
    }

    // Whether the last number is 0.
    fn ends_with_zero(&self) -> bool
        ensures { result ≡ true → slice_get self.now.numbers.items (length self.now.numbers.items - 1) ≡ Some 0 }
    {
        match self.numbers.last() {
            Some(number) => *number == 0,
            None => false,
        }
    }

    // Takes away the zeros at its end.
    fn trim(&mut self)
        ensures { (c : ℕ) → numbers_in self.new.numbers.items c ≡ numbers_in self.old.numbers.items c }
    {
        for _ in 0..self.numbers.len() {
            if !self.ends_with_zero() {
                return;
            }
            let _zero = self.numbers.pop();
        }
    }

    /// The row after a remembered step, in the place of what was there, from the row before it, whose digest this is.
    /// `AllocError` if there is no memory for it.
    pub(crate) fn become_after(
        &mut self,
        row: &[u32],
        digest: u64,
        touches: &[Touch],
    ) -> Result<(), AllocError>
        ensures { OnOk result ((c : ℕ) → numbers_in self.new.numbers.items c ≡ written touches.now (numbers_in row.now) c) }
    {
        self.become_row(row, digest)?;
        for touch in touches {
            self.put(touch.column, touch.after)?;
        }
        self.trim();
        Ok(())
    }
}
