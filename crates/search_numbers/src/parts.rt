// Parts: what is kept of each place, and the numbers that stand for it.
ghost use Rattle.std.specs.Prelude.{◌≡◌, ◌+◌, ◌≤◌, ◌<◌, true, length, IfOk, IfSome, OnOk};
ghost use Rattle.core_tree.specs.Syntax.{ModuleTree};
ghost use Rattle.search_numbers.specs.Local.{HasAll};
ghost use Rattle.search_numbers.specs.Rows.{numbers_in};
ghost use Rattle.search_numbers.specs.Stored.{AreSomething, Follows, HasSoFar, IsStore, StandsAt, StandsFor, numbered, part_at};
ghost use Rattle.world_model.specs.Cells.{Contents};
ghost use Rattle.world_records.specs.Places.{AgreesTooAt};
ghost use Rattle.world_records.specs.Records.{Agrees};

use crate::row::number_in;
use crate::store::{Part, Store};
use std::alloc::AllocError;
use std::hash::{FoldHasher, Hasher};
use std::sync::Arc;
use world_records::{Place, Records};

impl<'m> Part<'m> {
    // Whether it is of this place, and the same there as these records.
    fn has(&self, place: &Place, records: &Records<'m>) -> bool
        ensures place { result ≡ true → self.now.place ≡ place.now }
        ensures same { result ≡ true → AgreesTooAt place.now self.now.records.value records.now }
    {
        self.place.is(place) && self.records.is_same_at(place, records)
    }
}

// The number of the part at a place among all. `AllocError` where there is none: so many parts have no room in any memory.
fn number_at(place: usize) -> Result<u32, AllocError>
    ensures { IfOk result (λ number. number ≡ place + 1) }
{
    let Some(number) = place.checked_add(1) else {
        return Err(AllocError);
    };
    match u32::try_from(number) {
        Ok(number) => Ok(number),
        Err(_) => Err(AllocError),
    }
}

// A number by which a part is found, from its column and that of what it has there.
fn digest_of(column: usize, digest: u64) -> u64 {
    let mut hasher = FoldHasher::default();
    hasher.write_usize(column);
    hasher.write_u64(digest);
    hasher.finish()
}

impl<'m> Store<'m> {
    /// What a number stands for. It takes no memory.
    pub(crate) fn numbered(&self, number: u32) -> &Records<'m>
        ensures { result.now ≡ numbered self.now number }
    {
        let Some(place) = (number as usize).checked_sub(1) else {
            return &self.opening;
        };
        match self.parts.get(place) {
            Some(part) => &*part.records,
            None => &self.opening,
        }
    }

    /// The records of a world. `AllocError` if there is no memory for them.
    pub(crate) fn records_of(&self, row: &[u32]) -> Result<Records<'m>, AllocError>
        requires { IsStore self.now }
        ensures agrees { IfOk result (λ records. (m : ModuleTree) (v : Contents) → HasAll m (part_at self.now (numbers_in row.now)) v → Agrees m records v) }
    {
        let mut records = self.opening.copy()?;
        for column in 0..self.places.len() {
            self.take_column(row, column, &mut records)?;
        }
        Ok(records)
    }

    // Takes over what a world has at a column. `AllocError` if there is no memory for it.
    fn take_column(
        &self,
        row: &[u32],
        column: usize,
        records: &mut Records<'m>,
    ) -> Result<(), AllocError>
        requires whole { IsStore self.now }
        requires there { column < length self.now.places.items }
        requires so_far { HasSoFar self.now (numbers_in row.now) column records.old }
        ensures { OnOk result (HasSoFar self.now (numbers_in row.now) (column + 1) records.new) }
    {
        let number = number_in(row, column);
        if number == 0 {
            return Ok(());
        }
        records.take_place(&self.places[column], self.numbered(number))
    }

    // The number of a part of a place that is the same as that of these records, whose digest this is, if one was found.
    fn number_of(&self, place: &Place, records: &Records<'m>, digest: u64) -> Option<usize>
        requires { IsStore self.now }
        ensures { IfSome result (StandsAt self.now place.now records.now) }
    {
        let parts = self.parts.as_slice();
        let mut probe = self.index.probe(digest);
        for _ in 0..parts.len() {
            let at = self.index.next(&mut probe)?;
            if at < parts.len() && parts[at].has(place, records) {
                return Some(at);
            }
        }
        None
    }

    // Keeps a part. `AllocError` if there is no memory for it, or no number is left.
    fn keep(
        &mut self,
        place: &Place,
        records: &Arc<Records<'m>>,
        digest: u64,
    ) -> Result<u32, AllocError>
        requires { AreSomething self.old.opening records.now.value }
        ensures number { IfOk result (λ number. (numbered self.new number ≡ records.now.value) × (number ≤ length self.new.parts.items)) }
        ensures follows { Follows self.new self.old }
        ensures places { self.new.places ≡ self.old.places }
    {
        let number = number_at(self.parts.len())?;
        let part = Part {
            place: place.copy()?,
            records: Arc::try_clone(records)?,
        };
        self.index.put(digest)?;
        self.parts.push(part)?;
        Ok(number)
    }

    /// The number of what records that agree with something have at a column, which is kept if nothing is that is the same.
    /// `AllocError` if there is no memory for it, or no number is left.
    pub(crate) fn number(
        &mut self,
        column: usize,
        records: &Arc<Records<'m>>,
    ) -> Result<u32, AllocError>
        requires whole { IsStore self.old }
        requires there { column < length self.old.places.items }
        requires given { AreSomething self.old.opening records.now.value }
        ensures number { IfOk result (λ number. StandsFor self.new column records.now.value number) }
        ensures kept { IfOk result (λ number. number ≤ length self.new.parts.items) }
        ensures follows { Follows self.new self.old }
        ensures places { self.new.places ≡ self.old.places }
    {
        let place = self.places[column].copy()?;
        if self.opening.is_same_at(&place, records) {
            return Ok(0);
        }
        let digest = digest_of(column, records.digest_at(&place));
        match self.number_of(&place, records, digest) {
            Some(at) => number_at(at),
            None => self.keep(&place, records, digest),
        }
    }
}
