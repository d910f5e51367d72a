// Looking up what is remembered of steps, with learning or without.
ghost use Rattle.std.specs.Prelude.{◌≡◌, Some};

use crate::known::Known;
use std::alloc::{AllocError, AllocFailed, Global};
use std::marker::{Brand, PhantomData};

/// Why it is not told what a step does.
#[derive(Clone, Copy, Debug, PartialEq, Eq)]
pub enum Unknown {
    /// There was no memory for it.
    Memory,
    /// Nothing is remembered of it where the world has such numbers, and nothing was learned.
    Step,
}

impl From<AllocError> for Unknown {
    ghost use Rattle.search_numbers.specs.declared.look.Unknown.TheVariants.{Memory};

    ghost from_gives = { λ _ unknown. unknown ≡ Memory };

    fn from(_error: AllocError) -> Unknown {
        Unknown::Memory
    }
}

impl<T: Drop> From<AllocFailed<T>> for Unknown {
    ghost use Rattle.search_numbers.specs.declared.look.Unknown.TheVariants.{Memory};

    ghost from_gives = { λ _ unknown. unknown ≡ Memory };

    fn from(_error: AllocFailed<T>) -> Unknown {
        Unknown::Memory
    }
}

/// Where steps are learned, only lack of memory leaves one unknown.
impl From<Unknown> for AllocError {
    fn from(_unknown: Unknown) -> AllocError {
        AllocError
    }
}

/// Who looks up what is remembered of steps in the worlds of rows.
pub trait Look<'m>: Sized {
    ghost use Rattle.std.specs.Prelude.{◌≡◌, ℕ, IfOk};
    ghost use Rattle.search_numbers.specs.Knowing.{AreRight, IsAt, KnowsMore};
    ghost use Rattle.search_numbers.specs.Rows.{numbers_in};
    ghost use Rattle.search_numbers.specs.Stored.{Begins, BeginsAt, IsWorldOf};
    ghost use Rattle.search_numbers.specs.declared.known.Known.{Known};
    ghost use Rattle.term_core.specs.declared.step.Step.{Step};

    // What is known of all worlds.
    ghost seen: { Self → Known };

    /// What is known of all worlds. It takes no memory.
    fn known(&self) -> &Known<'m>
        ensures { result.now ≡ seen self.now };

    /// The place of what is remembered in the world of a row of the step that begins at a column. `Unknown` where that is
    /// not told; then no more is promised than that all that was known is known.
    fn look_up(&mut self, alloc: Global, row: &[u32], column: usize) -> Result<usize, Unknown>
        requires world { IsWorldOf (seen self.old).store (numbers_in row.now) }
        requires right { AreRight (seen self.old) }
        requires begins { Begins (seen self.old).store.places.items column }
        ensures answers { IfOk result (λ at. (s : Step) → BeginsAt (seen self.old).store.places.items column s → IsAt (seen self.new) (numbers_in row.now) s at) }
        ensures knows { KnowsMore (seen self.old) (seen self.new) };
}

/// Here a step of which nothing is remembered is learned.
impl<'m> Look<'m> for Known<'m> {
    ghost seen = { λ known. known };

    fn known(&self) -> &Known<'m> {
        self
    }

    fn look_up(&mut self, alloc: Global, row: &[u32], column: usize) -> Result<usize, Unknown> {
        Ok(self.learn_up(alloc, row, column)?)
    }
}

/// What is known while it is only read.
pub trait Lasting {
    ghost use Rattle.std.specs.Prelude.{Option};
    ghost use Rattle.search_numbers.specs.declared.known.Known.{Known};

    // What it is.
    ghost lasts: { Option Known };
}

impl Lasting for Brand {
    ghost use Rattle.std.specs.Prelude.{None};

    ghost lasts = { None };
}

/// What is known, which several may read at a time: nothing is learned, and it stays as it is.
#[derive(Drop)]
pub struct Reader<'k, 'm, K: Lasting> {
    /// What is known.
    pub known: &'k Known<'m>,
    of: PhantomData<K>,
    // It is always the same.
    ghost is: { Some known.now ≡ K.lasts },
}

impl<'k, 'm, K: Lasting> Reader<'k, 'm, K> {
    /// A reader of what is known. It takes no memory.
    pub fn new(known: &'k Known<'m>) -> Reader<'k, 'm, K>
        requires { Some known.now ≡ K.lasts }
        ensures { result.known.now ≡ known.now }
    {
        Reader {
            known,
            of: PhantomData,
        }
    }
}

impl<'k, 'm, K: Lasting> Look<'m> for Reader<'k, 'm, K> {
    ghost seen = { λ reader. reader.known.now };

    fn known(&self) -> &Known<'m> {
        self.known
    }

    fn look_up(&mut self, _alloc: Global, row: &[u32], column: usize) -> Result<usize, Unknown> {
        match self.known.find(row, column) {
            Some(at) => Ok(at),
            None => Err(Unknown::Step),
        }
    }
}
