// Refused calls read back: each rule, with an owner and without, and each call.
use crate::made::{are_refused, reads_back, refusal, says};
use core_tree::{CALLS, CallKind};
use report_identities::read_identity;
use report_text::write_identity;
use std::alloc::Global;
use std::test::Fail;
use term_core::Term;
use test_support::{MemorySink, holds, nested};
use world_model::rule::Rule;

// The rules by their numbers and names.
const RULES: &[(Rule, &str)] = &[
    (Rule::BadTable, "1 BadTable"),
    (Rule::NoTable, "2 NoTable"),
    (Rule::PrivateRead, "3 PrivateRead"),
    (Rule::PrivateWrite, "4 PrivateWrite"),
    (Rule::ProtectedWrite, "5 ProtectedWrite"),
    (Rule::NotOwner, "6 NotOwner"),
    (Rule::BadName, "7 BadName"),
    (Rule::BadOption, "8 BadOption"),
    (Rule::NameTaken, "9 NameTaken"),
    (Rule::NotObject, "10 NotObject"),
    (Rule::ShortObject, "11 ShortObject"),
    (Rule::BadPosition, "12 BadPosition"),
    (Rule::NoKey, "13 NoKey"),
    (Rule::NotInteger, "14 NotInteger"),
    (Rule::BagRefused, "15 BagRefused"),
    (Rule::DeadTarget, "16 DeadTarget"),
    (Rule::OwnTarget, "17 OwnTarget"),
    (Rule::BadItem, "18 BadItem"),
    (Rule::CounterRange, "19 CounterRange"),
];

// Checks that the refusal of `ets:take('t',1)` by this rule is written so and read back.
fn says_refusal(alloc: Global, rule: Rule, told: Option<&[u64]>, text: &[u8]) -> Result<(), Fail> {
    let arguments = vec![in alloc; Term::atom(alloc, "t")?, Term::Int(1)]?;
    let made = refusal(alloc, 3, CallKind::Take, arguments, rule, told)?;
    says(alloc, text, &made)
}

// Checks that a refusal by this rule has its number and name, without an owner and with one.
fn says_rule(alloc: Global, rule: Rule, name: &str) -> Result<(), Fail> {
    let bare = format!(in alloc; "P.2 request 3 ets:take('t',1) -> badarg ({name})")?;
    says_refusal(alloc, rule, None, bare.as_bytes())?;
    let told = format!(in alloc; "P.2 request 3 ets:take('t',1) -> badarg ({name}, owner P.4.1)")?;
    says_refusal(alloc, rule, Some(&[4, 1]), told.as_bytes())
}

#[test]
fn says_each_rule(rt: HostRuntime) -> Result<(), Fail> {
    for &(rule, name) in RULES {
        says_rule(rt.alloc(), rule, name)?;
    }
    Ok(())
}

// So many integers, from 0 on.
fn integers(alloc: Global, count: usize) -> Result<Vec<Term>, Fail> {
    let mut terms = Vec::new(alloc);
    for i in 0..count {
        terms.push(Term::Int(i64::try_from(i)?))?;
    }
    Ok(terms)
}

// How many arguments a call has: by its names and so many it is found.
fn arity_of(kind: CallKind) -> usize {
    for count in 0..5 {
        if CallKind::named(kind.module_name(), kind.function_name(), count) == Some(kind) {
            return count;
        }
    }
    0
}

// Checks that a call is written and read back as it was.
fn says_call(alloc: Global, kind: CallKind) -> Result<(), Fail> {
    let made = refusal(
        alloc,
        1,
        kind,
        integers(alloc, arity_of(kind))?,
        Rule::NoTable,
        None,
    )?;
    let mut sink = MemorySink::with_room(alloc, 100)?;
    write_identity(&mut sink, &made)?;
    holds(
        read_identity(alloc, sink.bytes.as_slice())? == made,
        kind.function_name(),
    )
}

#[test]
fn says_each_call(rt: HostRuntime) -> Result<(), Fail> {
    for kind in CALLS {
        says_call(rt.alloc(), kind)?;
    }
    Ok(())
}

// Calls with another reason, each between quotation marks.
const REASONS: &str = r#"
"P request 1 ets:first(1) -> badarg (1 BadTable"
"P request 1 ets:first(1) -> badarg 1 BadTable)"
"P request 1 ets:first(1) -> badarg ()"
"P request 1 ets:first(1) -> badarg (1)"
"P request 1 ets:first(1) -> badarg (BadTable)"
"P request 1 ets:first(1) -> badarg (2 BadTable)"
"P request 1 ets:first(1) -> badarg (01 BadTable)"
"P request 1 ets:first(1) -> badarg (1  BadTable)"
"P request 1 ets:first(1) -> badarg (1 badTable)"
"P request 1 ets:first(1) -> badarg (20 CounterRange)"
"P request 1 ets:first(1) -> badarg (1 BadTable) "
"P request 1 ets:first(1) -> badarg (1 BadTable))"
"P request 1 ets:first(1) -> badarg ((1 BadTable)"
"P request 1 ets:first(1) -> badarg (1 BadTable,)"
"P request 1 ets:first(1) -> badarg (1 BadTable, owner)"
"P request 1 ets:first(1) -> badarg (1 BadTable, owner )"
"P request 1 ets:first(1) -> badarg (1 BadTable, owner 1)"
"P request 1 ets:first(1) -> badarg (1 BadTable, owner P,)"
"P request 1 ets:first(1) -> badarg (1 BadTable, owner P, owner P)"
"P request 1 ets:first(1) -> badarg (1 BadTable,owner P)"
"P request 1 ets:first(1) -> badarg (1 BadTable, heir P)"
"P request 1 ets:first(1) -> noproc (1 BadTable)"
"P request 1 ets:first(1)-> badarg (1 BadTable)"
"P request 1 ets:first(1)"
"#;

#[test]
fn refuses_other_reasons(rt: HostRuntime) -> Result<(), Fail> {
    are_refused(rt.alloc(), REASONS)
}

#[test]
fn reads_long_arguments(rt: HostRuntime) -> Result<(), Fail> {
    let mut text = nested(
        rt.alloc(),
        "P request 1 ets:insert('t',[",
        "{'a',1},",
        9_999,
        "{}",
        "",
    )?;
    text.push_str("]) -> badarg (10 NotObject, owner P)")?;
    reads_back(rt.alloc(), text.as_bytes())
}
