// Patterns of reasons, as words give them: which ends are taken as normal.
use program_runs::{NAME, Words, read_words};
use std::alloc::{AllocError, Global};
use std::test::Fail;
use term_core::{Pid, Term, list_onto};
use test_support::same;
use tree_excuses::Excuses;
use world_identities::Identity;

// Groups of rows, with an empty line between them. The first line of a group says what its rows show. A row is a
// pattern, whether it matches, and a reason: an end with this reason is taken as normal where it does.
const PATTERNS: &str = "Any term:
'_' matches 7
'_' matches 'killed'
'_' matches {'shutdown',[1,2|'x']}
'_' matches []
'_' matches '_'

Other atoms stand for themselves:
'killed' matches 'killed'
'killed' does not match '_'
'__' does not match 'killed'
'' does not match '_'
'$1' does not match 7

Tuples of the same size, part by part:
{'shutdown','_'} matches {'shutdown',1}
{'shutdown','_'} matches {'shutdown',{'failed',[1,2]}}
{'shutdown','_'} matches {'shutdown','_'}
{'shutdown','_'} does not match {'restart',1}
{'shutdown','_'} does not match 'shutdown'
{'shutdown','_'} does not match {'shutdown'}
{'shutdown','_'} does not match {'shutdown',1,2}
{'shutdown','_'} does not match ['shutdown',1]
{'_',1} does not match {'shutdown',2}
{'_'} does not match {}
{} matches {}
{{'_',1},'_'} matches {{2,1},3}
{{'_',1},'_'} does not match {{2,2},3}

List cells, head and tail:
['_'|'_'] matches [1]
['_'|'_'] matches [1,2,3]
['_'|'_'] matches [1|2]
['_'|'_'] does not match []
['_'|'_'] does not match {1,2}
['_','_'] matches [1,2]
['_','_'] does not match [1]
['_','_'] does not match [1,2,3]
['_','_'] does not match [1,2|3]
['_',1|'_'] matches [2,1,3,4]
['_',1|'_'] does not match [2,2,3,4]
[['_',1],2] matches [[3,1],2]
[['_',1],2] does not match [[3,2],2]
[1,2] does not match [1,3]";

// What words with this pattern excuse.
fn excuses_of(alloc: Global, pattern: &str) -> Result<Excuses, Fail> {
    match read_words(
        alloc,
        &[NAME, "explore", "--depth", "1", "--normal", pattern],
    )? {
        Words::Explore(_, excuses, _) => Ok(excuses),
        _ => Err(Fail::from("the words are no exploration")),
    }
}

// The end of the first process with this reason.
fn end_with(alloc: Global, reason: Term) -> Result<Identity, AllocError> {
    Ok(Identity::End {
        pid: Pid::new(alloc, Vec::new(alloc))?,
        reason,
    })
}

// Checks one row.
fn row_holds(alloc: Global, row: &str) -> Result<(), Fail> {
    let Some((pattern, rest)) = row.split_once(' ') else {
        return Err(Fail::from("a row begins with a pattern"));
    };
    let Some((wanted, reason)) = rest.rsplit_once(' ') else {
        return Err(Fail::from("a row ends with a reason"));
    };
    let mut read = excuses_of(alloc, reason)?;
    let Some(reason) = read.normal.pop() else {
        return Err(Fail::from("the words have no reason"));
    };
    let end = end_with(alloc, reason)?;
    let got = if excuses_of(alloc, pattern)?.excuses(&end) {
        "matches"
    } else {
        "does not match"
    };
    same(got.as_bytes(), wanted.as_bytes())
}

// Checks the rows of one group.
fn group_holds(alloc: Global, group: &str) -> Result<(), Fail> {
    let Some((_, rows)) = group.split_once(":\n") else {
        return Err(Fail::from("a group has a first line and rows"));
    };
    for row in rows.split('\n') {
        row_holds(alloc, row)?;
    }
    Ok(())
}

#[test]
fn patterns_excuse_what_they_match(rt: HostRuntime) -> Result<(), Fail> {
    for group in PATTERNS.split("\n\n") {
        group_holds(rt.alloc(), group)?;
    }
    Ok(())
}

// So many cells in a row are more than a walk by recursion bears.
const MANY: u64 = 100_000;

// A list of so many times the same item, and this tail.
fn list_of(alloc: Global, item: &Term, length: u64, tail: Term) -> Result<Term, AllocError> {
    let mut heads = Vec::new(alloc);
    for _ in 0..length {
        heads.push(item.copy()?)?;
    }
    list_onto(alloc, heads, tail)
}

// Whether a list of so many `'_'` with this tail excuses an end with a list of MANY integers.
fn list_excuses(alloc: Global, patterns: u64, tail: Term) -> Result<bool, AllocError> {
    let any = Term::atom(alloc, "_")?;
    let pattern = list_of(alloc, &any, patterns, tail)?;
    let excuses = Excuses {
        main_deadlock: false,
        normal: vec![in alloc; pattern]?,
    };
    let reason = list_of(alloc, &Term::Int(7), MANY, Term::Nil)?;
    Ok(excuses.excuses(&end_with(alloc, reason)?))
}

#[test]
fn lists_may_be_long(rt: HostRuntime) -> Result<(), Fail> {
    let alloc = rt.alloc();
    assert!(rt; list_excuses(alloc, MANY, Term::Nil)?);
    assert!(rt; !list_excuses(alloc, MANY - 1, Term::Nil)?);
    assert!(rt; !list_excuses(alloc, MANY + 1, Term::Nil)?);
    assert!(rt; list_excuses(alloc, 1, Term::atom(alloc, "_")?)?);
    Ok(())
}
