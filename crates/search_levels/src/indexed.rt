// Rows that are found again.
ghost use Rattle.std.specs.Prelude.{◌≡◌, ◌≤◌, ◌∷◌, ◌++◌, [], OnOk, true};
ghost use Rattle.search_levels.specs.Rows.{HasRow};

use crate::index::Index;
use crate::rows::Rows;
use std::alloc::{AllocError, Global};
use tree_findings::Cause;

/// Rows, one after the other, with an index of them. Those of a level are its states, each once with the first schedule
/// that led there.
#[derive(Drop)]
pub(crate) struct Indexed<T> {
    pub(crate) rows: Rows<T>,
    index: Index,
}

impl<T: Drop> Indexed<T> {
    /// No rows. It takes no memory.
    pub(crate) fn new(alloc: Global) -> Indexed<T>
        ensures { result.rows ≡ [] }
    {
        Indexed {
            rows: Rows::new(alloc),
            index: Index::new(alloc),
        }
    }

    /// Whether this row is there, whose digest this is. It may be `false` all the same where it is. It takes no memory.
    pub(crate) fn has(&self, row: &[u32], digest: u64) -> bool
        ensures { result ≡ true → HasRow self.now.rows row.now }
    {
        let mut probe = self.index.probe(digest);
        for _ in 0..self.rows.len() {
            let Some(place) = self.index.next(&mut probe) else {
                return false;
            };
            if place < self.rows.len() && *self.rows.at(place).row == *row {
                return true;
            }
        }
        false
    }

    /// Puts a row after the others, whose digest this is. `AllocError` if there is no memory for it.
    pub(crate) fn push(&mut self, of: T, row: &[u32], digest: u64) -> Result<(), AllocError>
        ensures { OnOk result (self.new.rows ≡ self.old.rows ++ record { of = of; row = row.now } ∷ []) }
    {
        self.index.put(digest)?;
        self.rows.push(of, row, digest)
    }

    /// Puts a row after the others, whose digest this is, where so many may still be found. `NodeLimit` where none may be
    /// found any more, `Memory` where there is no memory for it.
    pub(crate) fn put(
        &mut self,
        of: T,
        row: &[u32],
        digest: u64,
        left: &mut u64,
    ) -> Result<(), Cause>
        ensures puts { OnOk result (self.new.rows ≡ self.old.rows ++ record { of = of; row = row.now } ∷ []) }
        ensures fewer { left.new ≤ left.old }
    {
        if *left == 0 {
            return Err(Cause::NodeLimit);
        }
        *left -= 1;
        self.push(of, row, digest)?;
        Ok(())
    }
}
