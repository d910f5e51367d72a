// Modules from texts, and what their processes ask, as text.
use super::blocks::{below_comment, first_line, halves};
use crate::requests::text_of;
use core_eval::{Answer, Machine, Request, start};
use core_reader::{Module, read_module};
use std::alloc::{AllocError, Global};
use std::test::Fail;
use term_core::{Atom, Pid, Term, Terms};
use test_support::{nested, same};

// What comes before the body of `'main'/0`, where the module `m` has no other function.
pub(crate) const MAIN: &str = "module 'm' [] attributes [] 'main'/0 = fun () -> ";

// The module of this text.
fn module_of(alloc: Global, text: &str) -> Result<Module, Fail> {
    let module = read_module(alloc, text.as_bytes())?;
    Ok(module)
}

// The module whose last function has this body, and what comes before it.
pub(crate) fn program(alloc: Global, front: &str, body: &str) -> Result<Module, Fail> {
    let text = format!(in alloc; "{front}{body} end")?;
    module_of(alloc, text.as_str())
}

// A process at the function of `m` with this name.
pub(crate) fn process<'m>(
    alloc: Global,
    program: &'m Module,
    pid: Pid,
    name: &str,
) -> Result<Machine<'m>, AllocError> {
    let function_name = Atom::new(alloc, name)?;
    let none = Terms::new(alloc);
    start(alloc, program, pid, &program.name, &function_name, none)
}

// The first process of the module, at the function with this name.
pub(crate) fn first_process<'m>(
    alloc: Global,
    program: &'m Module,
    name: &str,
) -> Result<Machine<'m>, AllocError> {
    process(alloc, program, Pid::new(alloc, Vec::new(alloc))?, name)
}

// What the machine asks, one request a line; each call is answered by its number.
pub(crate) fn run_on(alloc: Global, machine: &mut Machine) -> Result<Vec<u8>, Fail> {
    let mut text = text_of(alloc, machine.request())?;
    for number in 1..20 {
        if let Request::Call(_, _) = machine.request() {
            machine.resume(alloc, Answer::Value(Term::Int(number)))?;
            text.push(b'\n')?;
            text.extend_from_slice(text_of(alloc, machine.request())?.as_slice())?;
        }
    }
    Ok(text)
}

// Checks that a machine asks this to its end.
pub(crate) fn ends(alloc: Global, machine: &mut Machine, want: &str) -> Result<(), Fail> {
    let text = run_on(alloc, machine)?;
    same(text.as_slice(), want.as_bytes())
}

// Checks that the first process that begins with the function of this name asks this.
pub(crate) fn begins(alloc: Global, program: &Module, name: &str, want: &str) -> Result<(), Fail> {
    let mut machine = first_process(alloc, program, name)?;
    ends(alloc, &mut machine, want)
}

// Checks that the first process of the module with this front and this last body asks this.
pub(crate) fn asks(alloc: Global, front: &str, body: &str, want: &str) -> Result<(), Fail> {
    let program = program(alloc, front, body)?;
    begins(alloc, &program, "main", want)
}

// Checks that the body of a block asks what is below it.
fn asks_so(alloc: Global, front: &str, block: &str) -> Result<(), Fail> {
    let (body, want) = first_line(below_comment(block)?)?;
    asks(alloc, front, body, want)
}

// Checks that each of these bodies asks what is below it.
pub(crate) fn ask_all(alloc: Global, front: &str, blocks: &str) -> Result<(), Fail> {
    for block in blocks.split("\n\n") {
        asks_so(alloc, front, block)?;
    }
    Ok(())
}

// Checks that a body of `'main'/0` asks this: its front, so many times the unit, and the rest.
pub(crate) fn asks_long(
    alloc: Global,
    front: &str,
    unit: &str,
    count: usize,
    back: &str,
    want: &str,
) -> Result<(), Fail> {
    let body = nested(alloc, front, unit, count, back, "")?;
    asks(alloc, MAIN, body.as_str(), want)
}

// Checks that the long body of a block asks what is below it. A line of the block is the front of the body, one says how
// often it repeats what, and one is the rest.
fn asks_long_so(alloc: Global, block: &str) -> Result<(), Fail> {
    let (front, block) = first_line(below_comment(block)?)?;
    let (repeated, block) = first_line(block)?;
    let (back, want) = first_line(block)?;
    let (count, unit) = halves(repeated, " times ")?;
    asks_long(alloc, front, unit, count.parse()?, back, want)
}

// Checks that each of these long bodies asks what is below it.
pub(crate) fn ask_long(alloc: Global, blocks: &str) -> Result<(), Fail> {
    for block in blocks.split("\n\n") {
        asks_long_so(alloc, block)?;
    }
    Ok(())
}
