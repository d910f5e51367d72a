// What tests make: processes and refused calls; and how they read and refuse texts.
use core_tree::CallKind;
use report_identities::{IdentityFault, read_identity};
use report_text::write_identity;
use std::alloc::{AllocError, Global};
use std::str;
use std::sync::Arc;
use std::test::Fail;
use term_core::{Pid, Term, Terms};
use test_support::{MemorySink, holds, same};
use world_identities::Identity;
use world_model::rule::Rule;

pub(crate) fn pid(alloc: Global, numbers: &[u64]) -> Result<Pid, AllocError> {
    Pid::new(alloc, Vec::from_slice(alloc, numbers)?)
}

// The process with these numbers, if any are given.
fn owner(alloc: Global, numbers: Option<&[u64]>) -> Result<Option<Pid>, AllocError> {
    match numbers {
        Some(numbers) => Ok(Some(pid(alloc, numbers)?)),
        None => Ok(None),
    }
}

// A call that the process P.2 makes in its request of this number.
pub(crate) fn refusal(
    alloc: Global,
    request: u64,
    kind: CallKind,
    arguments: Vec<Term>,
    rule: Rule,
    told: Option<&[u64]>,
) -> Result<Identity, AllocError> {
    Ok(Identity::Refusal {
        pid: pid(alloc, &[2])?,
        request,
        kind,
        arguments: Arc::new(alloc, Terms::from_vec(arguments))?,
        rule,
        owner: owner(alloc, told)?,
    })
}

// Checks that the text is read, and what is read has it.
pub(crate) fn reads_back(alloc: Global, text: &[u8]) -> Result<(), Fail> {
    let read = read_identity(alloc, text)?;
    let mut sink = MemorySink::with_room(alloc, text.len())?;
    write_identity(&mut sink, &read)?;
    same(sink.bytes.as_slice(), text)
}

// Checks that the text is that of this identity, written and read.
pub(crate) fn says(alloc: Global, text: &[u8], identity: &Identity) -> Result<(), Fail> {
    let mut sink = MemorySink::with_room(alloc, text.len())?;
    write_identity(&mut sink, identity)?;
    same(sink.bytes.as_slice(), text)?;
    holds(
        read_identity(alloc, text)? == *identity,
        "another identity is read",
    )
}

// The fault of a text.
pub(crate) fn fault_of(alloc: Global, text: &[u8]) -> Option<IdentityFault> {
    read_identity(alloc, text).err()
}

// The lines of a table, which has some.
pub(crate) fn rows_of(table: &str) -> Result<&str, Fail> {
    let rows = table.trim();
    holds(!rows.is_empty(), "the table has no rows")?;
    Ok(rows)
}

// Checks that a text says nothing.
pub(crate) fn is_refused(alloc: Global, text: &[u8]) -> Result<(), Fail> {
    let told = str::from_utf8(text).unwrap_or("bytes");
    holds(
        fault_of(alloc, text) == Some(IdentityFault::BadIdentity),
        told,
    )
}

// What is between the quotation marks of a row.
fn unquoted(row: &str) -> Option<&str> {
    row.strip_prefix('"')?.strip_suffix('"')
}

// Checks that texts say nothing, each of which is between quotation marks on a line of its own.
pub(crate) fn are_refused(alloc: Global, table: &str) -> Result<(), Fail> {
    for row in rows_of(table)?.lines() {
        let Some(text) = unquoted(row) else {
            return Err(Fail::from("a row is between quotation marks"));
        };
        is_refused(alloc, text.as_bytes())?;
    }
    Ok(())
}
