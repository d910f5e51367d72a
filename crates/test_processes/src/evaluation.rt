// Small modules, and what their processes ask.
mod applications;
mod blocks;
mod clauses;
mod exceptions;
mod own_calls;
mod receives;
mod runs;
mod sameness;

use crate::requests::text_of;
use core_eval::{Answer, Machine};
use core_reader::Module;
use runs::{MAIN, ask_all, ask_long, asks, ends, first_process, process, program, run_on};
use std::alloc::{AllocError, Global};
use std::test::Fail;
use term_core::{Pid, Term};
use test_support::{nested, same};

// Bodies, and below each what a process with it asks; each request is answered by its number.
const IN_ORDER: &str = "\
% a call in each place of a tuple, a list, a list with a tail, a `do`, a `let` and a call
call 'ets':'lookup'('t',call 'ets':'insert'({call 'ets':'lookup'('t',101),call 'ets':'lookup'('t',102)},[[call 'ets':'lookup'('t',103),call 'ets':'lookup'('t',104)],[call 'ets':'lookup'('t',105)|call 'ets':'lookup'('t',106)]|do call 'ets':'lookup'('t',107) let <X> = call 'ets':'lookup'('t',108) in X]))
lookup 't' 101
lookup 't' 102
lookup 't' 103
lookup 't' 104
lookup 't' 105
lookup 't' 106
lookup 't' 107
lookup 't' 108
insert {1,2} [[3,4],[5|6]|8]
lookup 't' 9
'normal'

% the outer variable is 1, the inner 2
let <X> = 1 in do let <X> = 2 in call 'ets':'lookup'('t',X) call 'ets':'lookup'('t',X)
lookup 't' 2
lookup 't' 1
'normal'";

// Long bodies: the front, how often what is repeated, and the rest; and below each what is asked.
const UP_TO_THE_LIMIT: &str = "\
% 10,000 nodes: a tuple and 9,999 integers
{
9998 times 1,
1}
'normal'

{
9999 times 1,
1}
{'system_limit',[]}

% 10,000 nodes: 4,999 cells, 4,998 integers, a tuple of one integer, and nil
[
4998 times 1,
{1}]
'normal'

% 10,001 nodes: 5,000 cells, 5,000 integers, and nil
[
4999 times 1,
1]
{'system_limit',[]}

% the same, with nil as the tail
[
4999 times 1,
1|[]]
{'system_limit',[]}

% 9,999 nodes, and 10,001
\"
4999 times a
\"
'normal'

\"
5000 times a
\"
{'system_limit',[]}";

#[test]
fn evaluates(rt: HostRuntime) -> Result<(), Fail> {
    ask_all(rt.alloc(), MAIN, IN_ORDER)?;
    ask_long(rt.alloc(), UP_TO_THE_LIMIT)
}

// Checks that a thousand levels run to the normal end, each of which opens so and closes so.
fn levels_run(alloc: Global, opening: &str, closing: &str) -> Result<(), Fail> {
    let body = nested(alloc, "", opening, 999, "7", closing)?;
    asks(alloc, MAIN, body.as_str(), "'normal'")
}

// A `do` in a `do`; it is the first part of the outer one, or the second.
#[test]
fn a_thousand_levels_run(rt: HostRuntime) -> Result<(), Fail> {
    levels_run(rt.alloc(), "do ", " 7")?;
    levels_run(rt.alloc(), "do 7 ", "")
}

// Strings and several values, and below each what is asked.
const STRINGS_AND_VALUES: &str = "\
call 'ets':'lookup'('t',\"aa\")
lookup 't' [97,97]
'normal'

let <X,Y> = <1,2> in call 'ets':'insert'(Y,X)
insert 2 1
'normal'

<1,2>
'normal'

<>
'normal'

call 'ets':'lookup'('t',<1>)
lookup 't' 1
'normal'

call 'ets':'lookup'('t',<1,2>)
{'value_count',[]}

let <X> = <1,2> in X
{'value_count',[]}

let <X,Y> = 1 in X
{'value_count',[]}

do <> 7
{'value_count',[]}";

#[test]
fn evaluates_strings_and_values(rt: HostRuntime) -> Result<(), Fail> {
    ask_all(rt.alloc(), MAIN, STRINGS_AND_VALUES)
}

// Answers that do not fit, and then a refusal.
fn refuse(alloc: Global, machine: &mut Machine) -> Result<(), AllocError> {
    machine.resume(alloc, Answer::TimedOut)?;
    machine.resume(alloc, Answer::Message(Term::Nil))?;
    let badarg = Term::atom(alloc, "badarg")?;
    machine.resume(alloc, Answer::Raise(badarg))
}

// Checks that a machine asks this after these answers.
fn refused_ends(alloc: Global, machine: &mut Machine, want: &str) -> Result<(), Fail> {
    refuse(alloc, machine)?;
    ends(alloc, machine, want)
}

// What a copy of the request of a machine is as text.
fn last_of(alloc: Global, machine: &Machine) -> Result<Vec<u8>, Fail> {
    let last = machine.request().copy()?;
    Ok(text_of(alloc, &last)?)
}

// What a machine asks, and the last of it again.
fn run_on_twice(alloc: Global, machine: &mut Machine) -> Result<Vec<u8>, Fail> {
    let mut text = run_on(alloc, machine)?;
    let last = last_of(alloc, machine)?;
    text.extend_from_slice(last.as_slice())?;
    Ok(text)
}

// Checks that a machine asks this, the last of it twice.
fn ends_twice(alloc: Global, machine: &mut Machine, want: &str) -> Result<(), Fail> {
    let text = run_on_twice(alloc, machine)?;
    same(text.as_slice(), want.as_bytes())
}

// Checks that a copy asks this, the last of it twice.
fn copy_ends_twice(alloc: Global, machine: &Machine, want: &str) -> Result<(), Fail> {
    let mut other = machine.copy(alloc)?;
    ends_twice(alloc, &mut other, want)
}

const CALLS: &str = "call 'ets':'lookup'('t',call 'ets':'lookup'('t',5))";

#[test]
fn refused_calls_end_the_process(rt: HostRuntime) -> Result<(), Fail> {
    let program = program(rt.alloc(), MAIN, CALLS)?;
    let mut machine = first_process(rt.alloc(), &program, "main")?;
    refused_ends(rt.alloc(), &mut machine, "{'badarg',[]}")
}

#[test]
fn a_copy_asks_the_same(rt: HostRuntime) -> Result<(), Fail> {
    let program = program(rt.alloc(), MAIN, CALLS)?;
    let machine = first_process(rt.alloc(), &program, "main")?;
    let want = "lookup 't' 5\nlookup 't' 1\n'normal''normal'";
    copy_ends_twice(rt.alloc(), &machine, want)
}

const CHILD: [u64; 1] = [1];

// The process `P.1` of a module at the function with this name.
fn child_process<'m>(
    alloc: Global,
    program: &'m Module,
    name: &str,
) -> Result<Machine<'m>, AllocError> {
    let numbers = Vec::from_slice(alloc, &CHILD)?;
    process(alloc, program, Pid::new(alloc, numbers)?, name)
}

// Checks that the process `P.1` that is to begin with the function with this name asks this.
fn child_begins(alloc: Global, program: &Module, name: &str, want: &str) -> Result<(), Fail> {
    let mut machine = child_process(alloc, program, name)?;
    ends(alloc, &mut machine, want)
}

// A function that is not exported, and one that is not there.
#[test]
fn other_processes_begin_at_exports(rt: HostRuntime) -> Result<(), Fail> {
    let program = program(rt.alloc(), MAIN, "0")?;
    child_begins(rt.alloc(), &program, "main", "{'undef',[]}")?;
    child_begins(rt.alloc(), &program, "none", "{'undef',[]}")
}
