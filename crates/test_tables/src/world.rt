// The same lines in a world, as the program plays them: five processes take turns and send to each other, and each step
// is planned and then done as it was planned.
ghost use Rattle.std.specs.Prelude.{◌≡◌, false};

use crate::lines::Line;
use crate::scene::pid_of;
use core_reader::{Module, ReadFault, read_module};
use proc_signals::Signal;
use std::alloc::{AllocError, Global};
use std::fmt::Write;
use std::test::Fail;
use term_core::{Output, Pid, Step, WriteFault, write_all, write_number, write_pid, write_term};
use test_support::same;
use world_plans::{Deed, Plan, Refusal, perform, plan_step};
use world_records::{Change, Records};

// The number of the process that asks the others to make their calls: it is the fourth that the first one spawns.
const DRIVER: u64 = 4;

// What a process does for a line: it receives what was answered so far, and sends what its call answers. A process that
// is to end receives and does nothing else.
fn push_task(text: &mut String, number: u64, line: &Line, names: &str) -> Result<(), AllocError> {
    let (call, arguments) = (line.call, line.arguments);
    write!(text, "receive <{{{number},D{names}}}> when 'true' -> ")?;
    match call {
        "ends" => Ok(()),
        "ref" => write!(
            text,
            "do call 'erlang':'!'(D,{{{number},call 'erlang':'make_ref'()}}) "
        ),
        _ => write!(
            text,
            "do call 'erlang':'!'(D,{{{number},try call 'ets':'{call}'({arguments}) of <A> -> A catch <K,V,S> -> []}}) "
        ),
    }
}

// The name of an answer, after those before it.
fn push_name(names: &mut String, name: &str) -> Result<(), AllocError> {
    if name.is_empty() {
        return Ok(());
    }
    write!(names, ",{name}")
}

// Whether a line is one that the process of this number plays: which process has a number is known without one.
fn is_of(line: &Line, who: u64) -> bool {
    line.who == who && line.call != "pid"
}

// What the process of this number does, one line after the other.
fn push_tasks(
    alloc: Global,
    text: &mut String,
    who: u64,
    lines: &[Line],
) -> Result<(), AllocError> {
    let mut names = String::new(alloc);
    let mut number: u64 = 0;
    for line in lines {
        number = number.saturating_add(1);
        if is_of(line, who) {
            push_task(text, number, line, names.as_str())?;
        }
        push_name(&mut names, line.name)?;
    }
    text.push_str("'ok'")
}

// The ends of what it does.
fn push_ends(text: &mut String, who: u64, lines: &[Line]) -> Result<(), AllocError> {
    for line in lines {
        if is_of(line, who) {
            text.push_str(" after 'infinity' -> 'x'")?;
        }
    }
    Ok(())
}

// The body of the process of this number.
fn push_body(alloc: Global, text: &mut String, who: u64, lines: &[Line]) -> Result<(), AllocError> {
    push_tasks(alloc, text, who, lines)?;
    push_ends(text, who, lines)
}

// What a line asks for: that the process makes its call, with all that was answered so far, and answers.
fn push_order(text: &mut String, number: u64, line: &Line, names: &str) -> Result<(), AllocError> {
    let (name, who) = (line.name, line.who);
    if line.call == "pid" {
        let arguments = line.arguments;
        return write!(text, "let <{name}> = P{arguments} in ");
    }
    write!(
        text,
        "do call 'erlang':'!'(P{who},{{{number},call 'erlang':'self'(){names}}}) "
    )?;
    if line.call == "ends" {
        return Ok(());
    }
    let bound = if name.is_empty() { "A" } else { name };
    write!(
        text,
        "let <{bound}> = receive <{{{number},B}}> when 'true' -> B after 'infinity' -> 'x' in "
    )
}

// The body of the process that asks for each line.
fn push_orders(alloc: Global, text: &mut String, lines: &[Line]) -> Result<(), AllocError> {
    let mut names = String::new(alloc);
    let mut number: u64 = 0;
    for line in lines {
        number = number.saturating_add(1);
        push_order(text, number, line, names.as_str())?;
        push_name(&mut names, line.name)?;
    }
    text.push_str("'ok'")
}

// The functions of the three processes that the first one spawns before the fourth.
fn push_others(alloc: Global, text: &mut String, lines: &[Line]) -> Result<(), AllocError> {
    for who in 1..DRIVER {
        write!(text, " 'p{who}'/0 = fun () -> ")?;
        push_body(alloc, text, who, lines)?;
    }
    Ok(())
}

// A module that plays these lines.
fn text_of_lines(alloc: Global, lines: &[Line]) -> Result<String, AllocError> {
    let mut text = String::from_str(
        alloc,
        "module 'm' ['main'/0,'p1'/0,'p2'/0,'p3'/0,'driver'/4] attributes [] 'main'/0 = fun () -> let <P1> = call 'erlang':'spawn'('m','p1',[]) in let <P2> = call 'erlang':'spawn'('m','p2',[]) in let <P3> = call 'erlang':'spawn'('m','p3',[]) in do call 'erlang':'spawn'('m','driver',[call 'erlang':'self'(),P1,P2,P3]) ",
    )?;
    push_body(alloc, &mut text, 0, lines)?;
    push_others(alloc, &mut text, lines)?;
    text.push_str(" 'driver'/4 = fun (P0,P1,P2,P3) -> ")?;
    push_orders(alloc, &mut text, lines)?;
    text.push_str(" end")?;
    Ok(text)
}

// The module of these lines.
fn program_of(alloc: Global, lines: &[Line]) -> Result<Module, ReadFault> {
    let text = text_of_lines(alloc, lines)?;
    read_module(alloc, text.as_bytes())
}

// What is refused, as text.
fn write_refusal(refusal: &Refusal, sink: &mut Output<Vec<u8>>) -> Result<(), WriteFault>
    requires { sink.old.has_failed ≡ false }
{
    match refusal {
        Refusal::BadArgument => write_all(sink, b"badarg"),
        Refusal::NoProcess => write_all(sink, b"noproc"),
        Refusal::ByRule(rule, None) => write_number(u64::from(*rule as u8), sink),
        Refusal::ByRule(rule, Some(owner)) => {
            write_number(u64::from(*rule as u8), sink)?;
            write_all(sink, b" of ")?;
            write_pid(owner, sink)
        }
    }
}

// What a turn does, as text: an answer, a refusal, or an end, which is the empty list.
fn write_deed(deed: &Deed, sink: &mut Output<Vec<u8>>) -> Result<(), WriteFault>
    requires { sink.old.has_failed ≡ false }
{
    match deed {
        Deed::Served {
            kind: _,
            arguments: _,
            answer,
        } => write_term(answer, sink),
        Deed::Refused {
            kind: _,
            arguments: _,
            refusal,
        } => write_refusal(refusal, sink),
        Deed::Ended(_) => write_all(sink, b"[]"),
        _ => write_all(sink, b"does something else"),
    }
}

// A message that a turn puts for a process, as text.
fn write_told(to: &Pid, signal: &Signal, sink: &mut Output<Vec<u8>>) -> Result<(), WriteFault>
    requires { sink.old.has_failed ≡ false }
{
    let Signal::Message(message) = signal else {
        return write_all(sink, b", another signal is put");
    };
    write_all(sink, b", ")?;
    write_pid(to, sink)?;
    write_all(sink, b" gets ")?;
    write_term(message, sink)
}

// The text of such a message.
fn text_of_told(alloc: Global, to: &Pid, signal: &Signal) -> Result<Vec<u8>, WriteFault> {
    let mut sink = Output::new(Vec::new(alloc));
    write_told(to, signal, &mut sink)?;
    Ok(sink.writer)
}

// The text of what a turn does itself.
fn text_of_deed(alloc: Global, deed: &Option<Deed>) -> Result<Vec<u8>, WriteFault> {
    let mut sink = Output::new(Vec::new(alloc));
    match deed {
        Some(deed) => write_deed(deed, &mut sink)?,
        None => write_all(&mut sink, b"waits")?,
    }
    Ok(sink.writer)
}

// The text of what a turn does, and of what it puts for others.
fn text_of(alloc: Global, plan: &Plan) -> Result<Vec<u8>, Fail> {
    let mut text = text_of_deed(alloc, &plan.deed)?;
    for change in plan.planned.changes.iter() {
        if let Change::SignalPut(_, to, signal) = change {
            text.extend_from_slice(text_of_told(alloc, to, signal)?.as_slice())?;
        }
    }
    Ok(text)
}

// The turn of the process of this number.
fn turn_of(alloc: Global, number: u64) -> Result<Step, AllocError> {
    Ok(Step::Turn(pid_of(alloc, number)?))
}

// The delivery from one process to another.
fn delivery_of(alloc: Global, from: u64, to: u64) -> Result<Step, AllocError> {
    Ok(Step::Deliver(pid_of(alloc, from)?, pid_of(alloc, to)?))
}

// The plan of a step, which has one.
fn planned_as(alloc: Global, records: &Records<'_>, step: Step) -> Result<Plan, Fail> {
    match plan_step(records, alloc, step)? {
        Some(plan) => Ok(plan),
        None => Err(Fail::from("no plan")),
    }
}

// Plans a step and does it so.
fn go(alloc: Global, records: &mut Records<'_>, step: Step) -> Result<(), Fail> {
    let plan = planned_as(alloc, records, step)?;
    perform(records, alloc, &plan)?;
    Ok(())
}

// Checks that the turn of a process is planned to result in this, and does it so.
fn comes_to(alloc: Global, records: &mut Records<'_>, who: u64, want: &str) -> Result<(), Fail> {
    let plan = planned_as(alloc, records, turn_of(alloc, who)?)?;
    same(text_of(alloc, &plan)?.as_slice(), want.as_bytes())?;
    perform(records, alloc, &plan)?;
    Ok(())
}

// Asks a process for a line: the order goes out, is delivered and is received.
fn asks(alloc: Global, records: &mut Records<'_>, who: u64) -> Result<(), Fail> {
    go(alloc, records, turn_of(alloc, DRIVER)?)?;
    go(alloc, records, delivery_of(alloc, DRIVER, who)?)?;
    go(alloc, records, turn_of(alloc, who)?)
}

// A process answers: so does what it sends.
fn answers(alloc: Global, records: &mut Records<'_>, who: u64) -> Result<(), Fail> {
    go(alloc, records, turn_of(alloc, who)?)?;
    go(alloc, records, delivery_of(alloc, who, DRIVER)?)?;
    go(alloc, records, turn_of(alloc, DRIVER)?)
}

// Checks that a line results in this.
fn line_happens(
    alloc: Global,
    records: &mut Records<'_>,
    line: &Line,
    want: &str,
) -> Result<(), Fail> {
    asks(alloc, records, line.who)?;
    comes_to(alloc, records, line.who, want)?;
    if line.call == "ends" {
        return Ok(());
    }
    answers(alloc, records, line.who)
}

// The number of the first process's turn that makes the call of its next line, after so many lines of its own: it took
// four turns to spawn the others, and takes three for each line.
fn turn_number(own: u64) -> u64 {
    own.saturating_mul(3).saturating_add(6)
}

// What a line results in here: a new reference has the number of the turn that made it.
fn wanted(alloc: Global, own: u64, want: &str) -> Result<String, AllocError> {
    if want.starts_with("#P.") {
        let number = turn_number(own);
        return format!(in alloc; "#P.{number}");
    }
    String::from_str(alloc, want)
}

// Checks that each line results in what it says, one after the other.
fn lines_happen(alloc: Global, records: &mut Records<'_>, lines: &[Line]) -> Result<(), Fail> {
    let mut own: u64 = 0;
    for line in lines {
        if line.call == "pid" {
            continue;
        }
        let want = wanted(alloc, own, line.want)?;
        line_happens(alloc, records, line, want.as_str())?;
        if line.who == 0 {
            own = own.saturating_add(1);
        }
    }
    Ok(())
}

/// Checks that each of these lines results in what it says in a world, where each step is planned and then done as it was
/// planned.
pub(crate) fn happen_in_a_world(alloc: Global, lines: &[Line]) -> Result<(), Fail> {
    let program = program_of(alloc, lines)?;
    let mut records = Records::open(alloc, &program)?;
    for _spawned in 0..DRIVER {
        go(alloc, &mut records, turn_of(alloc, 0)?)?;
    }
    lines_happen(alloc, &mut records, lines)
}
