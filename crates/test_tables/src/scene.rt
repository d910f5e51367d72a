// A few processes and their tables: each line is a call of one of them, and what it results in is compared as text.
ghost use Rattle.std.specs.Prelude.{◌≡◌, false};

use crate::lines::{Line, lines_of};
use crate::world::happen_in_a_world;
use core_eval::{Answer, Machine, Request, start};
use core_reader::{Module, ReadFault, read_module};
use core_tree::CallKind;
use ets_calls::{TableArgument, TableCall, TableOption, TableRequest};
use ets_rules::{Tables, Transfer};
use std::alloc::{AllocError, Global};
use std::collections::BTreeSet;
use std::fmt::Write;
use std::test::Fail;
use term_core::{
    Atom, Output, Pid, RefId, Term, Terms, WriteFault, write_all, write_number, write_pid,
    write_term,
};
use test_support::same;
use world_model::rule::Rule;

// What a call resulted in: its answer, with what is sent to other processes, or its rule, with the owner that is
// reported.
#[derive(Drop)]
enum Outcome {
    Served(Term, Vec<Transfer>),
    Refused(Rule, Option<Pid>),
}

// The tables, and the processes that live.
#[derive(Drop)]
struct Scene {
    tables: Tables,
    living: BTreeSet<Pid>,
}

// The process of a number: the first of 0, and of another the one that the request with this number spawned.
pub(crate) fn pid_of(alloc: Global, number: u64) -> Result<Pid, AllocError> {
    let mut numbers = Vec::new(alloc);
    if number > 0 {
        numbers.push(number)?;
    }
    Pid::new(alloc, numbers)
}

// An answer with nothing sent to others.
fn served(alloc: Global, answer: Term) -> Result<Outcome, AllocError> {
    Ok(Outcome::Served(answer, Vec::new(alloc)))
}

// What is sent, as a list.
fn told_by(alloc: Global, transfer: Option<Transfer>) -> Result<Vec<Transfer>, AllocError> {
    let mut told = Vec::new(alloc);
    if let Some(transfer) = transfer {
        told.push(transfer)?;
    }
    Ok(told)
}

impl Scene {
    // Four processes, and no table.
    fn new(alloc: Global) -> Result<Scene, AllocError> {
        let mut living = BTreeSet::new(alloc);
        for number in 0..4 {
            living.insert(pid_of(alloc, number)?)?;
        }
        Ok(Scene {
            tables: Tables::new(alloc)?,
            living,
        })
    }

    // The refusal by this rule, with the owner that it reports.
    fn refused(&self, argument: &TableArgument, rule: Rule) -> Result<Outcome, AllocError> {
        let told = match self.tables.told_owner(argument, rule) {
            Some(owner) => Some(owner.copy()?),
            None => None,
        };
        Ok(Outcome::Refused(rule, told))
    }

    // A call with a table argument.
    fn on_table(
        &mut self,
        alloc: Global,
        caller: &Pid,
        argument: &TableArgument,
        call: &TableCall,
    ) -> Result<Outcome, AllocError> {
        match self.tables.judge(caller, argument, call, &self.living) {
            Some(rule) => self.refused(argument, rule),
            None => {
                let done = self.tables.apply(alloc, argument, call)?;
                Ok(Outcome::Served(done.answer, told_by(alloc, done.transfer)?))
            }
        }
    }

    // A new table, under the reference of this request of its owner.
    fn new_table(
        &mut self,
        alloc: Global,
        owner: &Pid,
        request: u64,
        name: &Option<Atom>,
        options: &Option<Vec<TableOption>>,
    ) -> Result<Outcome, AllocError> {
        if let Some(rule) = self.tables.judge_new(name, options) {
            return Ok(Outcome::Refused(rule, None));
        }
        let id = RefId::new(alloc, owner.copy()?, request)?;
        let answer = match (name, options) {
            (Some(name), Some(options)) => {
                self.tables
                    .make(alloc, owner, &id, name, options.as_slice())?
            }
            _ => Term::Nil,
        };
        served(alloc, answer)
    }

    // A call of this process, its request of this number.
    fn call(
        &mut self,
        alloc: Global,
        caller: &Pid,
        request: u64,
        kind: CallKind,
        arguments: &Terms,
    ) -> Result<Outcome, AllocError> {
        match TableRequest::of(alloc, kind, arguments)? {
            TableRequest::OnTable(argument, call) => {
                self.on_table(alloc, caller, &argument, &call)
            }
            TableRequest::New(name, options) => {
                self.new_table(alloc, caller, request, &name, &options)
            }
            TableRequest::Other => served(alloc, Term::Nil),
        }
    }
}

// What is sent to processes when tables come to them.
fn write_transfers(told: &[Transfer], sink: &mut Output<Vec<u8>>) -> Result<(), WriteFault>
    requires { sink.old.has_failed ≡ false }
{
    for transfer in told {
        write_all(sink, b", ")?;
        write_pid(&transfer.to, sink)?;
        write_all(sink, b" gets ")?;
        write_term(&transfer.message, sink)?;
    }
    Ok(())
}

// What a call resulted in, as text.
fn write_outcome(outcome: &Outcome, sink: &mut Output<Vec<u8>>) -> Result<(), WriteFault>
    requires { sink.old.has_failed ≡ false }
{
    match outcome {
        Outcome::Served(answer, told) => {
            write_term(answer, sink)?;
            write_transfers(told.as_slice(), sink)
        }
        Outcome::Refused(rule, None) => write_number(u64::from(*rule as u8), sink),
        Outcome::Refused(rule, Some(owner)) => {
            write_number(u64::from(*rule as u8), sink)?;
            write_all(sink, b" of ")?;
            write_pid(owner, sink)
        }
    }
}

// The text of what a call resulted in.
fn text_of(alloc: Global, outcome: &Outcome) -> Result<Vec<u8>, WriteFault> {
    let mut sink = Output::new(Vec::new(alloc));
    write_outcome(outcome, &mut sink)?;
    Ok(sink.writer)
}

// The answer that goes on, where a refusal is the empty list.
fn answer_of(outcome: Outcome) -> Term {
    match outcome {
        Outcome::Served(answer, _) => answer,
        Outcome::Refused(_, _) => Term::Nil,
    }
}

// What comes before the call of a line, where its answer gets this name or none.
fn push_front(text: &mut String, name: &str) -> Result<(), AllocError> {
    if name.is_empty() {
        text.push_str("do ")
    } else {
        write!(text, "let <{name}> = ")
    }
}

// What comes after it.
fn push_back(text: &mut String, name: &str) -> Result<(), AllocError> {
    if name.is_empty() {
        text.push(' ')
    } else {
        text.push_str(" in ")
    }
}

// A call that carries who calls, the name of the call and its arguments.
fn push_carrier(
    text: &mut String,
    who: u64,
    call: &str,
    arguments: &str,
) -> Result<(), AllocError> {
    write!(
        text,
        "call 'ets':'insert'({{{who},'{call}'}},[{arguments}])"
    )
}

// The line as a part of the body of `main/0`.
fn push_line(text: &mut String, line: &Line) -> Result<(), AllocError> {
    push_front(text, line.name)?;
    push_carrier(text, line.who, line.call, line.arguments)?;
    push_back(text, line.name)
}

// A module with the body of `main/0`: a call for each line.
fn text_of_lines(alloc: Global, lines: &[Line]) -> Result<String, AllocError> {
    let mut text = String::from_str(alloc, "module 'm' [] attributes [] 'main'/0 = fun () -> ")?;
    for line in lines {
        push_line(&mut text, line)?;
    }
    text.push_str("'ok' end")?;
    Ok(text)
}

// The items of a list.
fn items_of(alloc: Global, list: &Term) -> Result<Terms, AllocError> {
    let mut items = Terms::new(alloc);
    let mut rest = list;
    while let Some(pair) = rest.as_cell() {
        items.push(pair.head().copy()?)?;
        rest = pair.tail();
    }
    Ok(items)
}

// The number of the process that calls, and the name of the call.
fn carried(first: &Term) -> Option<(u64, &str)> {
    let Term::Tuple(parts) = first else {
        return None;
    };
    match parts.as_slice() {
        [Term::Int(who), Term::Atom(name)] => Some((who.unsigned_abs(), name.as_str())),
        _ => None,
    }
}

// The process that these arguments number.
fn numbered(alloc: Global, arguments: &Terms) -> Result<Outcome, AllocError> {
    let number = match arguments.as_slice() {
        [Term::Int(number)] => number.unsigned_abs(),
        _ => 0,
    };
    served(alloc, Term::Pid(pid_of(alloc, number)?))
}

// A reference that is no table's.
fn referred(alloc: Global, caller: Pid, request: u64) -> Result<Outcome, AllocError> {
    let reference = RefId::new(alloc, caller, request)?;
    served(alloc, Term::Ref(reference))
}

impl Scene {
    // The end of a process: its tables go.
    fn end(&mut self, alloc: Global, pid: &Pid) -> Result<Outcome, AllocError> {
        self.living.remove(pid);
        let told = self.tables.owner_ends(alloc, pid, &self.living)?;
        Ok(Outcome::Served(Term::Nil, told))
    }

    // What a line results in: a call of the table, the process of a number, or an end.
    fn line(
        &mut self,
        alloc: Global,
        request: u64,
        first: &Term,
        second: &Term,
    ) -> Result<Outcome, AllocError> {
        let Some((who, name)) = carried(first) else {
            return served(alloc, Term::Nil);
        };
        let caller = pid_of(alloc, who)?;
        let arguments = items_of(alloc, second)?;
        match (name, CallKind::named("ets", name, arguments.len())) {
            ("pid", _) => numbered(alloc, &arguments),
            ("ref", _) => referred(alloc, caller, request),
            ("ends", _) => self.end(alloc, &caller),
            (_, Some(kind)) => self.call(alloc, &caller, request, kind, &arguments),
            (_, None) => served(alloc, Term::Nil),
        }
    }

    // What the call that a machine waits at results in.
    fn asked(
        &mut self,
        alloc: Global,
        request: u64,
        asks: &Request,
    ) -> Result<Outcome, AllocError> {
        if let Request::Call(_kind, arguments) = asks {
            if let [first, second] = arguments.as_slice() {
                return self.line(alloc, request, first, second);
            }
        }
        served(alloc, Term::Nil)
    }
}

// Checks that a call resulted in this.
fn came_to(alloc: Global, outcome: &Outcome, want: &str) -> Result<(), Fail> {
    let text = text_of(alloc, outcome)?;
    same(text.as_slice(), want.as_bytes())
}

// Checks that the call that a machine waits at results in this, and goes on to the next.
fn happens(
    alloc: Global,
    scene: &mut Scene,
    machine: &mut Machine,
    request: u64,
    want: &str,
) -> Result<(), Fail> {
    let outcome = scene.asked(alloc, request, machine.request())?;
    came_to(alloc, &outcome, want)?;
    machine.resume(alloc, Answer::Value(answer_of(outcome)))?;
    Ok(())
}

// Checks that each line results in what it says, one after the other.
fn lines_happen(alloc: Global, machine: &mut Machine, lines: &[Line]) -> Result<(), Fail> {
    let mut scene = Scene::new(alloc)?;
    let mut request: u64 = 0;
    for line in lines {
        request = request.saturating_add(1);
        happens(alloc, &mut scene, machine, request, line.want)?;
    }
    Ok(())
}

// A machine at the first call of a module.
fn machine_of<'m>(alloc: Global, program: &'m Module) -> Result<Machine<'m>, AllocError> {
    let main = Atom::new(alloc, "main")?;
    let first = pid_of(alloc, 0)?;
    start(
        alloc,
        program,
        first,
        &program.name,
        &main,
        Terms::new(alloc),
    )
}

// The module of these lines.
fn program_of(alloc: Global, lines: &[Line]) -> Result<Module, ReadFault> {
    let text = text_of_lines(alloc, lines)?;
    read_module(alloc, text.as_bytes())
}

// Checks that each line results in what it says, in a process of this module.
fn lines_happen_in(alloc: Global, program: &Module, lines: &[Line]) -> Result<(), Fail> {
    let mut machine = machine_of(alloc, program)?;
    lines_happen(alloc, &mut machine, lines)
}

// Checks that each of these lines results in what it says, one after the other, with four processes and no table at first:
// by calls of the tables alone, and then in a world, where each step is planned and done as it was planned.
fn scene_happens(alloc: Global, lines: &[Line]) -> Result<(), Fail> {
    let program = program_of(alloc, lines)?;
    lines_happen_in(alloc, &program, lines)?;
    happen_in_a_world(alloc, lines)
}

/// Checks that each line of each of these scenes results in what it says.
pub(crate) fn happen(alloc: Global, scenes: &str) -> Result<(), Fail> {
    for scene in scenes.split("\n\n") {
        let lines = lines_of(alloc, scene)?;
        scene_happens(alloc, lines.as_slice())?;
    }
    Ok(())
}
