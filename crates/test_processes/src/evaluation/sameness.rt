// Machines that came to one request in different ways, and have the same left to do or not.
use super::blocks::{below_comment, first_line};
use super::runs::{MAIN, first_process, program};
use core_eval::{Answer, Machine};
use core_reader::Module;
use std::alloc::{AllocError, Global};
use std::test::Fail;
use term_core::Term;
use test_support::holds;

// Bodies, and above each whether its machines are the same once a first request was answered by 1 and by 2.
const ROWS: &str = "\
% the answer is dropped
same
do call 'ets':'lookup'('t',0) call 'ets':'lookup'('t',3)

% it is asked for
different
let <X> = call 'ets':'lookup'('t',0) in call 'ets':'lookup'('t',X)

% it is kept in a variable
different
let <X> = call 'ets':'lookup'('t',0) in do call 'ets':'lookup'('t',3) X

% it is kept as a part
different
{call 'ets':'lookup'('t',0),call 'ets':'lookup'('t',3)}

% the same code in two places is gone on with
same
case call 'ets':'lookup'('t',0) of <1> when 'true' -> do call 'ets':'lookup'('t',3) 4 <2> when 'true' -> do call 'ets':'lookup'('t',3) 4 end

% other code is
different
case call 'ets':'lookup'('t',0) of <1> when 'true' -> do call 'ets':'lookup'('t',3) 4 <2> when 'true' -> do call 'ets':'lookup'('t',3) 5 end

% a receive of the same clauses in two places waits
same
case call 'ets':'lookup'('t',0) of <1> when 'true' -> receive <'a'> when 'true' -> 4 after 'infinity' -> 5 <2> when 'true' -> receive <'a'> when 'true' -> 4 after 'infinity' -> 5 end

% one of other clauses does
different
case call 'ets':'lookup'('t',0) of <1> when 'true' -> receive <'a'> when 'true' -> 4 after 'infinity' -> 5 <2> when 'true' -> receive <'b'> when 'true' -> 4 after 'infinity' -> 5 end";

// The first process once its first request was answered by this number.
fn answered(alloc: Global, program: &Module, number: i64) -> Result<Machine<'_>, AllocError> {
    let mut machine = first_process(alloc, program, "main")?;
    machine.resume(alloc, Answer::Value(Term::Int(number)))?;
    Ok(machine)
}

// Checks that two machines of this body are the same where they got one answer, and also or not where they got two.
fn is_compared(alloc: Global, body: &str, want: bool) -> Result<(), Fail> {
    let program = program(alloc, MAIN, body)?;
    let one = answered(alloc, &program, 1)?;
    holds(one.is_same(&answered(alloc, &program, 1)?), body)?;
    let other = answered(alloc, &program, 2)?;
    holds(one.is_same(&other) == want, body)
}

// Checks that the machines of the body of a block are the same, or different, as it says.
fn is_compared_so(alloc: Global, block: &str) -> Result<(), Fail> {
    let (word, body) = first_line(below_comment(block)?)?;
    match word {
        "same" => is_compared(alloc, body, true),
        "different" => is_compared(alloc, body, false),
        _ => Err(Fail::from("machines are the same or different")),
    }
}

#[test]
fn machines_are_compared(rt: HostRuntime) -> Result<(), Fail> {
    for block in ROWS.split("\n\n") {
        is_compared_so(rt.alloc(), block)?;
    }
    Ok(())
}
