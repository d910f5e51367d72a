// The order on examples that were put in order by hand.
use crate::tuple_parts::parts_of;
use std::alloc::{AllocError, Global};
use std::cmp::Ordering;
use std::hash::{DefaultHasher, Hash, Hasher};
use std::test::Fail;
use term_core::{Pair, ScheduleFault, Step, Term, Terms, compare_schedules, read_schedule};
use test_support::holds;

/// Terms in ascending order, a line for each kind: integers by value, atoms by their characters, references by pid and then
/// by number, pids by their numbers, tuples by size and then by their parts, and nil and then lists by head and then by tail.
const ASCENDING: &str = "\
{-9223372036854775808,-10,-9,0,9,9223372036854775807}
{'','A','a','ab','b','é'}
{#P.2,#P.10,#P.1.1}
{P,P.1,P.1.1,P.2,P.10}
{{},{9},{1,1},{1,2}}
{[],[1|5],[1],[1,0],[2],[[]]}
";

fn hash_of<T: Hash>(value: &T) -> u64 {
    let mut state = DefaultHasher::new();
    value.hash(&mut state);
    state.finish()
}

/// Whether two values have this order, and `==`, `<` and the hash are those of it.
fn compares<T: Ord + Hash>(a: &T, b: &T, want: Ordering) -> bool {
    let is_equal = want == Ordering::Equal;
    a.cmp(b) == want
        && (*a == *b) == is_equal
        && (*a < *b) == (want == Ordering::Less)
        && (hash_of(a) == hash_of(b)) == is_equal
}

/// Whether the order of this value and of each in a slice is that of its place and theirs.
fn has_its_place<T: Ord + Hash>(a: &T, i: usize, values: &[T]) -> bool {
    for (j, b) in values.iter().enumerate() {
        if !compares(a, b, i.cmp(&j)) {
            return false;
        }
    }
    true
}

/// Whether the order of the values is that of their places, where the two slices hold the same values in
/// ascending order.
fn are_ascending<T: Ord + Hash>(one: &[T], two: &[T]) -> bool {
    for (i, a) in one.iter().enumerate() {
        if !has_its_place(a, i, two) {
            return false;
        }
    }
    true
}

// Checks that the order of the values is that of their places, where the two slices hold the same values.
fn ascend<T: Ord + Hash>(one: &[T], two: &[T]) -> Result<(), Fail> {
    holds(are_ascending(one, two), "each value has its place")
}

// The parts of the tuple in each line.
fn all_parts(alloc: Global, lines: &str) -> Result<Vec<Terms>, Fail> {
    let mut all = Vec::new(alloc);
    for line in lines.lines() {
        all.push(parts_of(alloc, line)?)?;
    }
    Ok(all)
}

fn push_terms(all: &mut Vec<Term>, terms: Terms) -> Result<(), AllocError> {
    for term in terms.into_vec() {
        all.push(term)?;
    }
    Ok(())
}

// The terms of all lines, one after another.
fn all_terms(alloc: Global, lines: &str) -> Result<Vec<Term>, Fail> {
    let mut all = Vec::new(alloc);
    for line in lines.lines() {
        push_terms(&mut all, parts_of(alloc, line)?)?;
    }
    Ok(all)
}

#[test]
fn terms_stand_in_the_written_order(rt: HostRuntime) -> Result<(), Fail> {
    let one = all_terms(rt.alloc(), ASCENDING)?;
    let two = all_terms(rt.alloc(), ASCENDING)?;
    holds(one.len() == 30, "there are 30 terms")?;
    ascend(&one, &two)
}

// Parts of tuples in ascending order.
const PARTS: &str = "\
{}
{1}
{1,1}
{1,2,0}
{2}
";

#[test]
fn lists_of_terms_go_item_by_item(rt: HostRuntime) -> Result<(), Fail> {
    let lists = all_parts(rt.alloc(), PARTS)?;
    ascend(&lists, &lists)
}

// Heads and tails of cells in ascending order.
const CELLS: [(i64, i64); 3] = [(1, 2), (1, 3), (2, 1)];

fn cells(alloc: Global) -> Result<Vec<Pair>, AllocError> {
    let mut made = Vec::new(alloc);
    for (head, tail) in CELLS {
        made.push(Pair::new(Term::Int(head), Term::Int(tail)))?;
    }
    Ok(made)
}

#[test]
fn cells_go_by_head_and_then_by_tail(rt: HostRuntime) -> Result<(), Fail> {
    let pairs = cells(rt.alloc())?;
    ascend(&pairs, &pairs)
}

// Steps in ascending order, as a schedule.
const STEPS: &[u8] = b"P P.1 P.9 P.10 P>P.1 P>P.2 P.1>P P.1>P.2";

#[test]
fn turns_come_before_deliveries(rt: HostRuntime) -> Result<(), Fail> {
    let one = read_schedule(rt.alloc(), STEPS)?;
    let two = read_schedule(rt.alloc(), STEPS)?;
    holds(one.len() == 8, "there are 8 steps")?;
    ascend(&one, &two)
}

// Schedules in ascending order, the first without a step.
const SCHEDULES: &str = "
P
P.9
P>P.1
P P
P P.9
P P>P.1
P.9 P
P P P
";

// Whether this schedule, at this place of the table, has the order of its place to each in the table.
fn is_ordered(alloc: Global, schedule: &[Step], i: usize) -> Result<bool, ScheduleFault> {
    for (j, text) in SCHEDULES.lines().enumerate() {
        let other = read_schedule(alloc, text.as_bytes())?;
        if compare_schedules(schedule, &other) != i.cmp(&j) {
            return Ok(false);
        }
    }
    Ok(true)
}

#[test]
fn schedules_go_by_length_first(rt: HostRuntime) -> Result<(), Fail> {
    for (i, text) in SCHEDULES.lines().enumerate() {
        let schedule = read_schedule(rt.alloc(), text.as_bytes())?;
        holds(is_ordered(rt.alloc(), &schedule, i)?, text)?;
    }
    Ok(())
}

/// Whether the lesser comes before the greater, the greater after it, and the lesser with itself.
pub(crate) fn differ(lesser: &Term, greater: &Term) -> bool {
    compares(lesser, greater, Ordering::Less)
        && compares(greater, lesser, Ordering::Greater)
        && compares(lesser, lesser, Ordering::Equal)
}
