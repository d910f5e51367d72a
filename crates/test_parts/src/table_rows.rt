// Rows of tables: each call with ample memory, each kind, and ten thousand rows.
use ets_store::{Object, Rows};
use std::alloc::{AllocError, Global};
use std::sync::Arc;
use std::test::Fail;
use term_core::{Term, Terms, write_term};
use test_support::{MemorySink, holds, same};
use world_model::table::Kind;

const MANY: i64 = 10_000;

/// What is put in, in this order: two objects under the key 1, one of them twice, and one under 2.
const PAIRS: [(i64, i64); 4] = [(2, 7), (1, 5), (1, 6), (1, 5)];

/// `{key,value}`.
fn pair(alloc: Global, key: i64, value: i64) -> Result<Object, AllocError> {
    let mut parts = Terms::new(alloc);
    parts.push(Term::Int(key))?;
    parts.push(Term::Int(value))?;
    Ok(Object::new(Arc::new(alloc, parts)?))
}

/// The objects of `PAIRS`.
fn objects(alloc: Global) -> Result<Vec<Object>, AllocError> {
    let mut objects = Vec::new(alloc);
    for (key, value) in PAIRS {
        objects.push(pair(alloc, key, value)?)?;
    }
    Ok(objects)
}

/// A table with the objects of `PAIRS`.
fn table(alloc: Global, kind: Kind) -> Result<Rows, AllocError> {
    let mut rows = Rows::new(alloc, kind, 1)?;
    rows.insert_all(alloc, objects(alloc)?.as_slice())?;
    Ok(rows)
}

// Checks that a term is printed so.
fn prints(alloc: Global, term: &Term, text: &[u8]) -> Result<(), Fail> {
    let mut sink = MemorySink::with_room(alloc, 1_000)?;
    write_term(term, &mut sink)?;
    same(sink.bytes.as_slice(), text)
}

// Checks that these are all objects of a table.
fn has(alloc: Global, rows: &Rows, text: &[u8]) -> Result<(), Fail> {
    let list = rows.to_list(alloc)?;
    prints(alloc, &list, text)
}

// Whether this is the key that a walk gives.
fn is_key(found: Option<&Term>, key: i64) -> bool {
    found == Some(&Term::Int(key))
}

// Checks that these are all objects of a table of this kind.
fn has_all(alloc: Global, kind: Kind, text: &[u8]) -> Result<(), Fail> {
    let rows = table(alloc, kind)?;
    has(alloc, &rows, text)
}

#[test]
fn sets_hold_one_object_under_a_key(rt: HostRuntime) -> Result<(), Fail> {
    has_all(rt.alloc(), Kind::Set, b"[{1,5},{2,7}]")?;
    has_all(rt.alloc(), Kind::OrderedSet, b"[{1,5},{2,7}]")
}

#[test]
fn bags_hold_several(rt: HostRuntime) -> Result<(), Fail> {
    has_all(rt.alloc(), Kind::Bag, b"[{1,5},{1,6},{2,7}]")?;
    has_all(rt.alloc(), Kind::DuplicateBag, b"[{1,5},{1,6},{1,5},{2,7}]")
}

// Deletes all instances of an object.
fn delete_object(alloc: Global, rows: &mut Rows, key: i64, value: i64) -> Result<(), AllocError> {
    let object = pair(alloc, key, value)?;
    rows.delete_object(alloc, &object)
}

// Checks that all instances of an object go.
fn deletes_object(alloc: Global, rows: &mut Rows) -> Result<(), Fail> {
    delete_object(alloc, rows, 1, 5)?;
    has(alloc, rows, b"[{1,6},{2,7}]")
}

// Checks that all objects under a key go.
fn deletes_key(alloc: Global, rows: &mut Rows) -> Result<(), Fail> {
    rows.delete_key(&Term::Int(1))?;
    has(alloc, rows, b"[{2,7}]")
}

// Checks that objects go, and a copy keeps them.
fn deletes(alloc: Global, rows: &mut Rows, copied: &Rows) -> Result<(), Fail> {
    deletes_object(alloc, rows)?;
    deletes_key(alloc, rows)?;
    has(alloc, copied, b"[{1,5},{1,6},{1,5},{2,7}]")
}

#[test]
fn deletes_objects(rt: HostRuntime) -> Result<(), Fail> {
    let mut rows = table(rt.alloc(), Kind::DuplicateBag)?;
    let copied = rows.copy()?;
    deletes(rt.alloc(), &mut rows, &copied)
}

// Checks that these objects are under the key 1.
fn finds(alloc: Global, rows: &Rows, text: &[u8]) -> Result<(), Fail> {
    let found = rows.lookup(alloc, &Term::Int(1))?;
    prints(alloc, &found, text)
}

// Checks that these objects are taken from under the key 1.
fn takes_out(alloc: Global, rows: &mut Rows, text: &[u8]) -> Result<(), Fail> {
    let taken = rows.take(alloc, &Term::Int(1))?;
    prints(alloc, &taken, text)
}

// Checks that objects are found, then taken, and then gone.
fn takes_once(alloc: Global, rows: &mut Rows) -> Result<(), Fail> {
    finds(alloc, rows, b"[{1,5},{1,6}]")?;
    takes_out(alloc, rows, b"[{1,5},{1,6}]")?;
    takes_out(alloc, rows, b"[]")
}

// Checks that nothing is left once a table is cleared.
fn clears(alloc: Global, rows: &mut Rows) -> Result<(), Fail> {
    rows.clear(alloc)?;
    has(alloc, rows, b"[]")
}

fn takes(alloc: Global, rows: &mut Rows) -> Result<(), Fail> {
    takes_once(alloc, rows)?;
    holds(!rows.has_key(&Term::Int(1)), "a taken key is gone")?;
    clears(alloc, rows)
}

#[test]
fn takes_objects(rt: HostRuntime) -> Result<(), Fail> {
    takes(rt.alloc(), &mut table(rt.alloc(), Kind::Bag)?)
}

// What is put into an object: twice at one position, and once where it has no part.
fn parts(alloc: Global) -> Result<Vec<(usize, Term)>, AllocError> {
    let mut parts = Vec::new(alloc);
    parts.push((2, Term::Int(8)))?;
    parts.push((1, Term::Int(0)))?;
    parts.push((3, Term::Int(9)))?;
    parts.push((2, Term::Nil))?;
    Ok(parts)
}

// Checks that an object with these parts is the tuple with this text.
fn is_with(alloc: Global, parts: &[(usize, Term)], text: &[u8]) -> Result<(), Fail> {
    let object = pair(alloc, 1, 5)?.with_parts(alloc, parts)?;
    prints(alloc, &object.term()?, text)
}

#[test]
fn puts_parts_into_objects(rt: HostRuntime) -> Result<(), Fail> {
    is_with(rt.alloc(), parts(rt.alloc())?.as_slice(), b"{0,[]}")?;
    is_with(rt.alloc(), &[], b"{1,5}")
}

// One part at a position, and one where there is none.
fn puts_one(alloc: Global) -> Result<(), Fail> {
    let object = pair(alloc, 1, 5)?.with_part(alloc, 2, Term::Int(-3))?;
    let object = object.with_part(alloc, 0, Term::Nil)?;
    prints(
        alloc,
        &object.with_part(alloc, 3, Term::Nil)?.term()?,
        b"{1,-3}",
    )
}

#[test]
fn puts_one_part_into_an_object(rt: HostRuntime) -> Result<(), Fail> {
    puts_one(rt.alloc())
}

// Whether two objects with these keys and values are put in, since their keys are new.
fn are_put_in(
    alloc: Global,
    rows: &mut Rows,
    one: (i64, i64),
    two: (i64, i64),
) -> Result<bool, AllocError> {
    let objects = [pair(alloc, one.0, one.1)?, pair(alloc, two.0, two.1)?];
    rows.insert_new(alloc, &objects)
}

// Whether objects are put in where all their keys are new, and not else.
fn are_put_in_where_new(alloc: Global, rows: &mut Rows) -> Result<bool, AllocError> {
    let known = are_put_in(alloc, rows, (3, 1), (2, 1))?;
    let new = are_put_in(alloc, rows, (3, 1), (3, 2))?;
    Ok(!known && new)
}

fn is_new(alloc: Global, rows: &mut Rows) -> Result<(), Fail> {
    let is_so = are_put_in_where_new(alloc, rows)?;
    holds(is_so, "objects are put in where their keys are new")?;
    has(alloc, rows, b"[{1,5},{2,7},{3,2}]")
}

#[test]
fn inserts_what_is_new(rt: HostRuntime) -> Result<(), Fail> {
    is_new(rt.alloc(), &mut table(rt.alloc(), Kind::Set)?)
}

/// The even keys below twenty thousand, the greatest first.
fn many(alloc: Global, kind: Kind) -> Result<Rows, AllocError> {
    let mut rows = Rows::new(alloc, kind, 1)?;
    let mut key = 2 * MANY;
    for _ in 0..MANY {
        key = key.wrapping_sub(2);
        rows.insert(alloc, pair(alloc, key, 7)?)?;
    }
    Ok(rows)
}

// Whether walks over the keys give these.
fn walks(rows: &Rows, last: i64, before: i64) -> bool {
    is_key(rows.first(), 0)
        && is_key(rows.last(), last)
        && is_key(rows.next(&Term::Int(500)), 502)
        && is_key(rows.next(&Term::Int(501)), 502)
        && is_key(rows.prev(&Term::Int(501)), before)
        && rows.next(&Term::Int(19_998)).is_none()
}

#[test]
fn walks_over_many_keys(rt: HostRuntime) -> Result<(), Fail> {
    assert!(rt; walks(&many(rt.alloc(), Kind::OrderedSet)?, 19_998, 500));
    assert!(rt; walks(&many(rt.alloc(), Kind::Set)?, 0, 502));
    Ok(())
}
