// How a list is searched for what may be the same. Nothing is promised of what is found: whoever asks looks whether it is.
ghost use Rattle.std.specs.Prelude.{◌<◌};

use std::alloc::{AllocError, Global};

// The place of a slot that is free.
const FREE: u32 = u32::MAX;

// A place of the list, by a part of the digest of what stands there.
#[derive(Clone, Copy)]
struct Slot {
    mark: u32,
    place: u32,
}

/// Places of a list, by the digests of what stands there.
#[derive(Drop)]
pub struct Index {
    // The mark of each place.
    marks: Vec<u32>,
    // Each place is in the first slot that was free, from that of its mark on. At least half of them are free.
    slots: Vec<Slot>,
}

/// How far the places of a digest were looked through.
#[derive(Clone, Copy)]
pub struct Probe {
    mark: u32,
    slot: usize,
}

// The part of a digest by which it is found.
fn mark_of(digest: u64) -> u32 {
    let mixed = digest ^ (digest >> 32);
    (mixed % 4_294_967_296) as u32
}

// The slot of a mark among so many: marks are spread over them in their order.
fn slot_of(mark: u32, slots: usize) -> usize {
    (mark as usize).wrapping_mul(slots) >> 32
}

// The slot after this one, or the first one after the last.
fn slot_after(slot: usize, slots: usize) -> usize
    requires { slot < slots }
{
    let next = slot + 1;
    if next < slots { next } else { 0 }
}

// Puts a place into the first slot that is free.
fn settle(slots: &mut [Slot], mark: u32, place: u32) {
    let mut at = slot_of(mark, slots.len());
    for _ in 0..slots.len() {
        if at >= slots.len() {
            return;
        }
        if slots[at].place == FREE {
            slots[at] = Slot { mark, place };
            return;
        }
        at = slot_after(at, slots.len());
    }
}

// Takes the places out of all slots.
fn empty(slots: &mut [Slot]) {
    for slot in slots {
        slot.place = FREE;
    }
}

impl Index {
    /// The index of an empty list. It takes no memory.
    pub fn new(alloc: Global) -> Index {
        Index {
            marks: Vec::new(alloc),
            slots: Vec::new(alloc),
        }
    }

    /// The beginning of a search for the places of a digest. It takes no memory.
    pub fn probe(&self, digest: u64) -> Probe {
        let mark = mark_of(digest);
        Probe {
            mark,
            slot: slot_of(mark, self.slots.len()),
        }
    }

    /// The next place that may have the digest of a search, if there is one. It takes no memory.
    pub fn next(&self, probe: &mut Probe) -> Option<usize> {
        for _ in 0..self.slots.len() {
            let at = probe.slot;
            let slot = self.slots.get(at)?;
            if slot.place == FREE {
                return None;
            }
            probe.slot = slot_after(at, self.slots.len());
            if slot.mark == probe.mark {
                return Some(slot.place as usize);
            }
        }
        None
    }

    // As many slots again, and one. `AllocError` if there is no memory for them.
    fn widen(&mut self) -> Result<(), AllocError> {
        for _ in 0..=self.slots.len() {
            self.slots.push(Slot {
                mark: 0,
                place: FREE,
            })?;
        }
        Ok(())
    }

    // Puts each place into a slot again.
    fn settle_all(&mut self) {
        let slots = self.slots.as_mut_slice();
        empty(slots);
        let mut place = 0;
        for mark in self.marks.as_slice() {
            settle(slots, *mark, place);
            if place < FREE {
                place += 1;
            }
        }
    }

    /// The next place has this digest. `AllocError` if there is no memory for it.
    pub fn put(&mut self, digest: u64) -> Result<(), AllocError> {
        let mark = mark_of(digest);
        self.marks.push(mark)?;
        if self.marks.len() > self.slots.len() / 2 {
            self.widen()?;
            self.settle_all();
        } else if let Ok(place) = u32::try_from(self.marks.len() - 1) {
            settle(self.slots.as_mut_slice(), mark, place);
        }
        Ok(())
    }
}
