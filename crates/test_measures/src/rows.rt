// Tables of many objects: put in, walked and copied.
use ets_store::{Object, Rows};
use std::alloc::{AllocError, Global};
use std::sync::Arc;
use term_core::{Term, Terms};
use world_model::table::Kind;

const COPIES: u32 = 1_000_000;

// The object of a number and an empty list.
fn object(alloc: Global, number: u32) -> Result<Object, AllocError> {
    let mut parts = Terms::new(alloc);
    parts.push(Term::Int(i64::from(number)))?;
    parts.push(Term::Nil)?;
    Ok(Object::new(Arc::new(alloc, parts)?))
}

// A table with the numbers below `size` as keys, put in out of order.
fn filled(alloc: Global, kind: Kind, size: u32) -> Result<Rows, AllocError> {
    let mut rows = Rows::new(alloc, kind, 1)?;
    for number in 0..size {
        rows.insert(alloc, object(alloc, number.reverse_bits())?)?;
    }
    Ok(rows)
}

// How many keys a walk from the first reaches, `size` at most.
fn walked(rows: &Rows, size: u32) -> u32 {
    let mut count: u32 = 0;
    let mut place = rows.first();
    for _ in 0..size {
        if let Some(key) = place {
            count = count.saturating_add(1);
            place = rows.next(key);
        }
    }
    count
}

/// Puts objects into a table and walks over all of their keys.
pub(crate) fn walk_rows(alloc: Global, kind: Kind, size: u32) -> Result<u32, AllocError> {
    let rows = filled(alloc, kind, size)?;
    Ok(walked(&rows, size))
}

/// Copies a table of this size a million times.
pub(crate) fn copy_often(alloc: Global, size: u32) -> Result<u32, AllocError> {
    let mut rows = filled(alloc, Kind::Set, size)?;
    for _ in 0..COPIES {
        rows = rows.copy()?;
    }
    Ok(walked(&rows, size))
}
