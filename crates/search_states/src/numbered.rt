// What a search by states knows of its worlds.
ghost use Rattle.std.specs.Prelude.{◌≡◌, IfOk, Some, true};
ghost use Rattle.search_numbers.specs.Rows.{numbers_in};
ghost use Rattle.search_states.specs.inside.Keeping.{AreArrivalsIn, AreRead, CanRead};

use crate::arriving::arrivals_from;
use search_levels::{Arrival, Rows, Worlds};
use search_numbers::{Known, Lasting, Reader, Unknown, goes_on};
use std::alloc::{AllocError, Global};
use std::marker::Brand;
use tree_schedules::Delivery;

/// What is known of all worlds of a search by states, each a row of numbers. A row agrees with each history that leaves the
/// world of its numbers.
#[derive(Drop)]
pub(crate) struct Numbered<'m> {
    pub(crate) known: Known<'m>,
}

// As `arrivals_from`, but nothing is learned: `false` where something is not known that would be needed. `AllocError` if there
// is no memory for it.
fn read_arrivals<K: Lasting>(
    alloc: Global,
    known: &Known<'_>,
    delivery: Delivery,
    row: &[u32],
    digest: u64,
    into: &mut Rows<Arrival>,
) -> Result<bool, AllocError>
    requires lasts { Some known.now ≡ K.lasts }
    requires world { CanRead known.now (numbers_in row.now) }
    ensures arrivals { IfOk result (λ is_known. is_known ≡ true → AreArrivalsIn delivery known.now (numbers_in row.now) into.new) }
    ensures of_known { IfOk result (λ is_known. is_known ≡ true → AreRead known.now into.new) }
{
    let mut reader = Reader::<'_, '_, K>::new(known);
    match arrivals_from(alloc, &mut reader, delivery, row, digest, into) {
        Ok(()) => Ok(true),
        Err(Unknown::Step) => Ok(false),
        Err(Unknown::Memory) => Err(AllocError),
    }
}

impl<'m> Worlds for Numbered<'m> {
    ghost use Rattle.search_states.specs.inside.Keeping.{CanRead, Comes, IsKept};
    ghost use Rattle.search_numbers.specs.Rows.{numbers_in};

    ghost agrees = { λ worlds. IsKept worlds.known };

    ghost is_of = { λ worlds row. CanRead worlds.known (numbers_in row) };

    ghost follows = { λ later earlier. Comes later.known earlier.known };

    fn goes_on(&mut self, alloc: Global, row: &[u32]) -> Result<bool, AllocError> {
        Ok(goes_on(alloc, &mut self.known, row)?)
    }

    fn arrivals(
        &mut self,
        alloc: Global,
        delivery: Delivery,
        row: &[u32],
        digest: u64,
        into: &mut Rows<Arrival>,
    ) -> Result<(), AllocError> {
        arrivals_from(alloc, &mut self.known, delivery, row, digest, into)?;
        Ok(())
    }

    fn known_arrivals(
        &self,
        alloc: Global,
        delivery: Delivery,
        row: &[u32],
        digest: u64,
        into: &mut Rows<Arrival>,
    ) -> Result<bool, AllocError> {
        read_arrivals::<Brand>(alloc, &self.known, delivery, row, digest, into)
    }
}
