// Receives: which messages they take, how they go on, and which timeouts there are.
use super::blocks::halves;
use super::runs::{MAIN, ends, first_process, program};
use crate::requests::text_of;
use core_eval::{Answer, Machine};
use core_reader::Module;
use std::alloc::{AllocError, Global};
use std::test::Fail;
use term_core::{Term, Terms};
use test_support::{holds, same};

// Checks that a machine asks this.
fn stands(alloc: Global, machine: &Machine, want: &str) -> Result<(), Fail> {
    let text = text_of(alloc, machine.request())?;
    same(text.as_slice(), want.as_bytes())
}

// The pair of the atom `'a'` and a number.
fn pair(alloc: Global, number: i64) -> Result<Term, AllocError> {
    let mut parts = Terms::new(alloc);
    parts.push(Term::atom(alloc, "a")?)?;
    parts.push(Term::Int(number))?;
    Term::tuple(alloc, parts)
}

// A function with the parameters 1 and 2 that receives pairs with its first, and the atom `'b'`.
const PAIRS: &str =
    "module 'm' [] attributes [] 'main'/0 = fun () -> do apply 'f'/2(1,2) 'x' 'f'/2 = fun (X,Y) -> ";

const OF_PAIRS: &str =
    "receive <{'a',Z}> when call 'erlang':'=:='(Z,X) -> call 'ets':'insert'(Z,Y) <{'a',Z}> when call 'erlang':'error'(Z) -> 0 <'b'> when 'true' -> call 'ets':'lookup'('t',X) after 'infinity' -> 'late'";

// Checks that a machine takes a message, as it should, or does not, as it should.
fn selects(alloc: Global, machine: &Machine, message: &Term, want: bool) -> Result<(), Fail> {
    let is_taken = machine.selects(alloc, message)?;
    holds(is_taken == want, "a message is taken, or not")
}

// Checks that a machine takes the pair of a number, as it should, or does not, as it should.
fn selects_pair(alloc: Global, machine: &Machine, number: i64, want: bool) -> Result<(), Fail> {
    let message = pair(alloc, number)?;
    selects(alloc, machine, &message, want)
}

// Checks that a machine takes an atom, as it should, or does not, as it should.
fn selects_atom(alloc: Global, machine: &Machine, name: &str, want: bool) -> Result<(), Fail> {
    let message = Term::atom(alloc, name)?;
    selects(alloc, machine, &message, want)
}

// Checks that a machine takes the pairs with its first parameter.
fn takes_its_pairs(alloc: Global, machine: &Machine) -> Result<(), Fail> {
    selects_pair(alloc, machine, 1, true)?;
    selects_pair(alloc, machine, 2, false)
}

// Checks that a machine takes its atom.
fn takes_its_atom(alloc: Global, machine: &Machine) -> Result<(), Fail> {
    selects_atom(alloc, machine, "b", true)?;
    selects_atom(alloc, machine, "c", false)
}

// Checks that a machine receives, and takes what its clauses select.
fn takes_its_own(alloc: Global, machine: &Machine) -> Result<(), Fail> {
    stands(alloc, machine, "receives")?;
    takes_its_pairs(alloc, machine)?;
    takes_its_atom(alloc, machine)
}

// A machine gets the pair of a number.
fn resume_with_pair(alloc: Global, machine: &mut Machine, number: i64) -> Result<(), AllocError> {
    let message = pair(alloc, number)?;
    machine.resume(alloc, Answer::Message(message))
}

// A machine gets an atom.
fn resume_with_atom(alloc: Global, machine: &mut Machine, name: &str) -> Result<(), AllocError> {
    let message = Term::atom(alloc, name)?;
    machine.resume(alloc, Answer::Message(message))
}

// A machine gets answers that do not fit.
fn resume_wrongly(alloc: Global, machine: &mut Machine) -> Result<(), AllocError> {
    machine.resume(alloc, Answer::TimedOut)?;
    machine.resume(alloc, Answer::Value(Term::Nil))
}

// Checks that what does not fit changes nothing, and that a pair goes on to the end.
fn goes_on_with_a_pair(alloc: Global, machine: &mut Machine) -> Result<(), Fail> {
    resume_wrongly(alloc, machine)?;
    stands(alloc, machine, "receives")?;
    resume_with_pair(alloc, machine, 1)?;
    ends(alloc, machine, "insert 1 2\n'normal'")?;
    selects_pair(alloc, machine, 1, false)
}

fn takes_and_goes_on(alloc: Global, machine: &mut Machine) -> Result<(), Fail> {
    takes_its_own(alloc, machine)?;
    goes_on_with_a_pair(alloc, machine)
}

#[test]
fn receives_take_what_a_clause_selects(rt: HostRuntime) -> Result<(), Fail> {
    let alloc = rt.alloc();
    let program = program(alloc, PAIRS, OF_PAIRS)?;
    let mut machine = first_process(alloc, &program, "main")?;
    takes_and_goes_on(alloc, &mut machine)
}

// Checks that a machine, once the other has gone on, still takes the atom and goes on with it.
fn goes_on_with_an_atom(alloc: Global, machine: &mut Machine) -> Result<(), Fail> {
    stands(alloc, machine, "receives")?;
    selects_atom(alloc, machine, "b", true)?;
    resume_with_atom(alloc, machine, "b")?;
    stands(alloc, machine, "lookup 't' 1")
}

fn go_apart(alloc: Global, machine: &mut Machine, copy: &mut Machine) -> Result<(), Fail> {
    resume_with_pair(alloc, machine, 1)?;
    goes_on_with_an_atom(alloc, copy)?;
    stands(alloc, machine, "insert 1 2")
}

// Checks that a copy waits for the same, and goes its own way.
fn copy_goes_its_own_way(alloc: Global, machine: &mut Machine) -> Result<(), Fail> {
    let mut copy = machine.copy(alloc)?;
    go_apart(alloc, machine, &mut copy)
}

#[test]
fn a_copy_receives_the_same(rt: HostRuntime) -> Result<(), Fail> {
    let alloc = rt.alloc();
    let program = program(alloc, PAIRS, OF_PAIRS)?;
    let mut machine = first_process(alloc, &program, "main")?;
    copy_goes_its_own_way(alloc, &mut machine)
}

// Timeouts, what is asked with them, and what where no message came in time.
const TIMEOUTS: &str = "\
0 -> receives -> lookup 't' 9
4294967295 -> receives -> lookup 't' 9
'infinity' -> receives -> receives
4294967296 -> {'timeout_value',[]} -> {'timeout_value',[]}
-1 -> {'timeout_value',[]} -> {'timeout_value',[]}
'soon' -> {'timeout_value',[]} -> {'timeout_value',[]}";

// Checks that a machine asks the first, and then the other where no message came in time.
fn times_out(alloc: Global, machine: &mut Machine, first: &str, then: &str) -> Result<(), Fail> {
    stands(alloc, machine, first)?;
    machine.resume(alloc, Answer::TimedOut)?;
    stands(alloc, machine, then)
}

// Checks that the first process of a module does so.
fn times_out_in(alloc: Global, program: &Module, first: &str, then: &str) -> Result<(), Fail> {
    let mut machine = first_process(alloc, program, "main")?;
    times_out(alloc, &mut machine, first, then)
}

// The module with a receive that has this timeout.
fn with_timeout(alloc: Global, timeout: &str) -> Result<Module, Fail> {
    let body = format!(in alloc;
        "receive <X> when 'true' -> X after {timeout} -> call 'ets':'lookup'('t',9)"
    )?;
    program(alloc, MAIN, body.as_str())
}

// Checks that the module with the timeout of a line does so.
fn times_out_so(alloc: Global, line: &str) -> Result<(), Fail> {
    let (timeout, asked) = halves(line, " -> ")?;
    let (first, then) = halves(asked, " -> ")?;
    let program = with_timeout(alloc, timeout)?;
    times_out_in(alloc, &program, first, then)
}

#[test]
fn timeouts_are_judged_first(rt: HostRuntime) -> Result<(), Fail> {
    for line in TIMEOUTS.split('\n') {
        times_out_so(rt.alloc(), line)?;
    }
    Ok(())
}
