// Applications of the module's own functions.
use super::blocks::{below_comment, first_line, halves};
use super::runs::{ask_all, begins, ends, first_process, program};
use core_eval::Machine;
use core_reader::Module;
use core_tree::{Call, Callee, Expr, Exprs, FunctionName, NamedFunction, Variable};
use std::alloc::{AllocError, Global};
use std::fmt::Write;
use std::test::Fail;
use term_core::Atom;
use test_support::nested;

// Functions; `swap` and `fails` are exported.
const FUNCTIONS: &str =
    "module 'm' ['swap'/2,'fails'/0] attributes [] 'swap'/2 = fun (X,Y) -> {Y,X} 'take'/1 = fun (X) -> call 'ets':'lookup'('t',X) 'two'/0 = fun () -> <1,2> 'fails'/0 = fun () -> primop 'match_fail'(5) 'letters'/0 = fun () -> call 'ets':'lookup'('t',\"aa\") 'each'/1 = fun (X) -> case X of <[X|Y]> when 'true' -> do call 'ets':'lookup'('t',X) apply 'each'/1(Y) <[]> when 'true' -> 'done' end 'main'/0 = fun () -> ";

// Applications, and below each what is asked.
const APPLICATIONS: &str = "\
call 'ets':'lookup'('t',apply 'swap'/2(1,2))
lookup 't' {2,1}
'normal'

call 'ets':'lookup'('t',call 'm':'swap'(1,2))
lookup 't' {2,1}
'normal'

let <X> = 1 in do apply 'take'/1(3) call 'ets':'lookup'('t',X)
lookup 't' 3
lookup 't' 1
'normal'

let <X,Y> = apply 'two'/0() in call 'ets':'insert'(Y,X)
insert 2 1
'normal'

apply 'two'/0()
'normal'

call 'ets':'lookup'('t',apply 'two'/0())
{'value_count',[]}

apply 'fails'/0()
{5,[]}

call 'ets':'lookup'('t',catch call 'm':'fails'())
lookup 't' {'EXIT',{5,[]}}
'normal'

% the answer to the call in the function is its value
call 'ets':'lookup'('t',apply 'letters'/0())
lookup 't' [97,97]
lookup 't' 1
'normal'

call 'ets':'lookup'('t',apply 'each'/1([7,8,9]))
lookup 't' 7
lookup 't' 8
lookup 't' 9
lookup 't' 'done'
'normal'";

#[test]
fn functions_are_applied(rt: HostRuntime) -> Result<(), Fail> {
    ask_all(rt.alloc(), FUNCTIONS, APPLICATIONS)
}

fn function(alloc: Global, name: &str, arity: u8) -> Result<FunctionName, AllocError> {
    let name = Atom::new(alloc, name)?;
    Ok(FunctionName { name, arity })
}

// So many ones.
fn ones(alloc: Global, count: u8) -> Result<Exprs, AllocError> {
    let mut arguments = Vec::new(alloc);
    for _ in 0..count {
        arguments.push(Expr::Integer(1))?;
    }
    Ok(Exprs(arguments))
}

// An application to ones of a function of this name and number of arguments.
fn application(alloc: Global, name: &str, arity: u8) -> Result<Expr, AllocError> {
    let arguments = ones(alloc, arity)?;
    let function = function(alloc, name, arity)?;
    Ok(Expr::Call(Call {
        at: 0,
        callee: Callee::Defined(NamedFunction { at: 0, function }),
        arguments,
    }))
}

fn variable(alloc: Global, name: &str) -> Result<Expr, AllocError> {
    let name = Vec::from_slice(alloc, name.as_bytes())?;
    Ok(Expr::Variable(Variable { at: 0, name }))
}

// The module whose last function has this body, and what comes before it.
fn redefined(alloc: Global, front: &str, body: Expr) -> Result<Module, Fail> {
    let mut program = program(alloc, front, "0")?;
    if let Some(definition) = program.definitions.last_mut() {
        definition.body = body;
    }
    Ok(program)
}

// A function with a variable that applies the last one.
const APPLIES_THE_LAST: &str =
    "module 'm' [] attributes [] 'main'/0 = fun () -> let <X> = 1 in apply 'free'/0() 'free'/0 = fun () -> ";

// No module that is read has such a function: it sees the variables of its caller.
#[test]
fn functions_see_no_other_variables(rt: HostRuntime) -> Result<(), Fail> {
    let other = variable(rt.alloc(), "X")?;
    let program = redefined(rt.alloc(), APPLIES_THE_LAST, other)?;
    begins(rt.alloc(), &program, "main", "{'unbound',[]}")
}

// Checks that an application of such a function ends the process.
fn is_undefined(alloc: Global, name: &str, arity: u8) -> Result<(), Fail> {
    let other = application(alloc, name, arity)?;
    let program = redefined(alloc, FUNCTIONS, other)?;
    begins(alloc, &program, "main", "{'undef',[]}")
}

// Functions that are not there, or with another number of arguments: no module that is read has such an application.
#[test]
fn applied_functions_are_defined(rt: HostRuntime) -> Result<(), Fail> {
    is_undefined(rt.alloc(), "none", 0)?;
    is_undefined(rt.alloc(), "swap", 1)?;
    is_undefined(rt.alloc(), "swap", 0)
}

// A chain of functions `f0/1` to `f1110/1`, each of which applies the next to its argument, and the last the first;
// `f0/1` takes the first item off, and gives `'done'` for the empty list. Applied to a list of n items, `f0/1` makes
// 1,111 * n applications; another link makes 1,111 more except for its index. The number of the last link.
const LAST: u64 = 1_110;

// Functions with no parameter: the name of each, its body, and what a process asks that begins with it.
const ROWS: &str = "\
% 1 + 1,110 + 8 * 1,111 applications
below
call 'ets':'lookup'('t',apply 'f1'/1(\"aaaaaaaa\"))
lookup 't' 'done'
'normal'

% 1 + 9 * 1,111 applications
at
call 'ets':'lookup'('t',apply 'f0'/1(\"aaaaaaaaa\"))
lookup 't' 'done'
'normal'

% 1 + 1 + 9 * 1,111 applications
beyond
call 'ets':'lookup'('t',apply 'f1110'/1(\"aaaaaaaaa\"))
runs away

caught
call 'ets':'lookup'('t',catch apply 'f1110'/1(\"aaaaaaaaa\"))
runs away

tried
call 'ets':'lookup'('t',try apply 'f1110'/1(\"aaaaaaaaa\") of <X> -> X catch <X,Y> -> {X,Y})
runs away

% the limit's number of applications, and one before them
twice
do apply 'f0'/1(\"\") call 'ets':'lookup'('t',apply 'f0'/1(\"aaaaaaaaa\"))
runs away

% the limit's number of applications, an answer, and the limit's number again
anew
do apply 'f0'/1(\"aaaaaaaaa\") do call 'ets':'lookup'('t',1) call 'ets':'lookup'('t',apply 'f0'/1(\"aaaaaaaaa\"))
lookup 't' 1
lookup 't' 'done'
'normal'

% and with one more after the answer
anew_beyond
do apply 'f0'/1(\"aaaaaaaaa\") do call 'ets':'lookup'('t',1) call 'ets':'lookup'('t',apply 'f1110'/1(\"aaaaaaaaa\"))
lookup 't' 1
runs away";

// The name of a link and the number of its parameters.
fn push_name(text: &mut String, link: u64) -> Result<(), AllocError> {
    write!(text, "'f{link}'/1")
}

// A link that applies the next within what is around it.
fn push_link(
    text: &mut String,
    link: u64,
    next: u64,
    around: (&str, &str),
) -> Result<(), AllocError> {
    let (front, back) = around;
    push_name(text, link)?;
    text.push_str(" = fun (X) -> ")?;
    text.push_str(front)?;
    text.push_str("apply ")?;
    push_name(text, next)?;
    text.push_str("(X)")?;
    text.push_str(back)?;
    text.push(' ')
}

// The links from the second on.
fn push_links(text: &mut String, around: (&str, &str)) -> Result<(), AllocError> {
    for link in 1..LAST {
        push_link(text, link, link + 1, around)?;
    }
    push_link(text, LAST, 0, around)
}

// A function with this name, no parameter and this body.
fn push_function(text: &mut String, name: &str, body: &str) -> Result<(), AllocError> {
    write!(text, "'{name}'/0 = fun () -> {body} ")
}

// The name, the body and the requests of a row.
fn parts_of(row: &str) -> Result<(&str, &str, &str), Fail> {
    let (name, row) = first_line(below_comment(row)?)?;
    let (body, want) = first_line(row)?;
    Ok((name, body, want))
}

// The functions of the rows.
fn push_rows(text: &mut String) -> Result<(), Fail> {
    for row in ROWS.split("\n\n") {
        let (name, body, _want) = parts_of(row)?;
        push_function(text, name, body)?;
    }
    Ok(())
}

// The first link: what comes before its application and what there is to do with it, and what comes after.
const FIRST_LINK: &str =
    "module 'm' [] attributes [] 'f0'/1 = fun (X) -> case X of <[X|Y]> when 'true' -> ";

const NO_ITEM: &str = " <[]> when 'true' -> 'done' end ";

// The functions of the rows, and the chain.
fn chain(alloc: Global, around: (&str, &str)) -> Result<Module, Fail> {
    let (front, back) = around;
    let mut text = format!(in alloc; "{FIRST_LINK}{front}apply 'f1'/1(Y){back}{NO_ITEM}")?;
    push_links(&mut text, around)?;
    push_rows(&mut text)?;
    text.push_str("'main'/0 = fun () -> ")?;
    program(alloc, text.as_str(), "0")
}

fn go_on(alloc: Global, program: &Module) -> Result<(), Fail> {
    for row in ROWS.split("\n\n") {
        let (name, _body, want) = parts_of(row)?;
        begins(alloc, program, name, want)?;
    }
    Ok(())
}

// Checks the rows over a chain whose links have this around their applications.
fn go_on_within(alloc: Global, front: &str, back: &str) -> Result<(), Fail> {
    let program = chain(alloc, (front, back))?;
    go_on(alloc, &program)
}

// As the last thing that a link does, and with something left to do after it.
#[test]
fn applications_go_on_up_to_the_limit(rt: HostRuntime) -> Result<(), Fail> {
    go_on_within(rt.alloc(), "", "")?;
    go_on_within(rt.alloc(), "do ", " 'done'")
}

// The number that `down/1` counts down from, which makes one application more than that; whether it is done then or runs
// away; and the attributes of its module.
const ALLOWING: &str = "\
% no attribute
9999 done []
10000 away []

% a number
2 done ['explore_applications' = [3]]
3 away ['explore_applications' = [3]]
0 done ['explore_applications' = [1]]
1 away ['explore_applications' = [1]]
999999 done ['explore_applications' = [1000000]]
1000000 away ['explore_applications' = [1000000]]

% no number that can be said
9999 done ['explore_applications' = [0]]
10000 away ['explore_applications' = [0]]
9 done ['explore_applications' = [-3]]
9999 done ['explore_applications' = [1000001]]
10000 away ['explore_applications' = [1000001]]

% not a list of one integer
9 done ['explore_applications' = 3]
9 done ['explore_applications' = []]
9 done ['explore_applications' = [3,3]]
9 done ['explore_applications' = ['3']]
9 done ['explore_applications' = [[3]]]
9 done ['explore_applications' = {3}]
9 done ['explore_applications' = [3|3]]
9 done ['explore_applications' = \"\\003\"]

% another name, and the first of the name that says a number
9 done ['applications' = [3]]
3 done ['explore_applications' = [0], 'vsn' = [1], 'explore_applications' = [4], 'explore_applications' = [9]]
4 away ['explore_applications' = [0], 'vsn' = [1], 'explore_applications' = [4], 'explore_applications' = [9]]";

// What is asked where a process is done, or runs away.
fn asked_by(word: &str) -> Result<&'static str, Fail> {
    match word {
        "done" => Ok("lookup 't' 'done'\n'normal'"),
        "away" => Ok("runs away"),
        _ => Err(Fail::from("a process is done or runs away")),
    }
}

// A module with these attributes, whose first process counts down from this number.
fn counting(alloc: Global, attributes: &str, number: &str) -> Result<Module, Fail> {
    let head = format!(in alloc;
        "module 'm' [] attributes {attributes} 'down'/1 = fun (N) -> case N of <0> when 'true' -> 'done' <M> when 'true' -> apply 'down'/1(call 'erlang':'-'(M,1)) end 'main'/0 = fun () -> "
    )?;
    let body = format!(in alloc; "call 'ets':'lookup'('t',apply 'down'/1({number}))")?;
    program(alloc, head.as_str(), body.as_str())
}

// Checks that a module with the attributes of a line allows so many applications.
fn allows(alloc: Global, line: &str) -> Result<(), Fail> {
    let (number, line) = halves(line, " ")?;
    let (word, attributes) = halves(line, " ")?;
    let program = counting(alloc, attributes, number)?;
    begins(alloc, &program, "main", asked_by(word)?)
}

// Checks that the modules of a block do.
fn each_allows(alloc: Global, block: &str) -> Result<(), Fail> {
    for line in below_comment(block)?.split('\n') {
        allows(alloc, line)?;
    }
    Ok(())
}

#[test]
fn modules_allow_applications(rt: HostRuntime) -> Result<(), Fail> {
    for block in ALLOWING.split("\n\n") {
        each_allows(rt.alloc(), block)?;
    }
    Ok(())
}

// A function that applies itself within 20 constructs until its argument is 0, and asks then: at 9,000 some
// 200,000 frames are on the stack.
const DEEP: &str =
    "module 'm' [] attributes [] 'f'/1 = fun (N) -> case N of <0> when 'true' -> call 'ets':'lookup'('t','deep') <M> when 'true' -> ";

fn deep(alloc: Global, opening: &str, closing: &str) -> Result<Module, Fail> {
    let applied = "apply 'f'/1(call 'erlang':'-'(N,1))";
    let mut front = nested(alloc, DEEP, opening, 20, applied, closing)?;
    front.push_str(" end 'main'/0 = fun () -> ")?;
    let body = "call 'ets':'insert'('t',apply 'f'/1(9000))";
    program(alloc, front.as_str(), body)
}

// A copy is dropped in its depth.
fn is_dropped(alloc: Global, machine: &Machine) -> Result<(), AllocError> {
    let _copied = machine.copy(alloc)?;
    Ok(())
}

// One machine goes on after the other has ended.
fn end_alike(
    alloc: Global,
    machine: &mut Machine,
    copied: &mut Machine,
    want: &str,
) -> Result<(), Fail> {
    ends(alloc, machine, want)?;
    ends(alloc, copied, want)
}

// A copy goes on after the machine has ended.
fn is_copied(alloc: Global, machine: &mut Machine, want: &str) -> Result<(), Fail> {
    let mut copied = machine.copy(alloc)?;
    end_alike(alloc, machine, &mut copied, want)
}

// One copy is dropped in its depth, and one goes on after the machine has ended.
fn is_kept(alloc: Global, program: &Module, want: &str) -> Result<(), Fail> {
    let mut machine = first_process(alloc, program, "main")?;
    is_dropped(alloc, &machine)?;
    is_copied(alloc, &mut machine, want)
}

// Checks that with constructs that open so and close so a process asks this.
fn is_kept_within(alloc: Global, opening: &str, closing: &str, want: &str) -> Result<(), Fail> {
    let program = deep(alloc, opening, closing)?;
    is_kept(alloc, &program, want)
}

// A `do` drops what it is given in its depth; the others give it on.
#[test]
fn a_stack_of_200000_frames_is_kept_copied_and_dropped(rt: HostRuntime) -> Result<(), Fail> {
    let done = "lookup 't' 'deep'\ninsert 't' 'done'\n'normal'";
    let answer = "lookup 't' 'deep'\ninsert 't' 1\n'normal'";
    is_kept_within(rt.alloc(), "do ", " 'done'", done)?;
    is_kept_within(rt.alloc(), "catch ", "", answer)?;
    is_kept_within(rt.alloc(), "let <X> = ", " in X", answer)
}
