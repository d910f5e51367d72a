// Names of calls, and modules that are the same or are not.
use core_reader::{ReadFault, read_module};
use core_tree::{
    Call, CallKind, Callee, Case, Clauses, Definition, Expr, Exprs, FunctionName, Module,
    NamedFunction, PureCall, Variable,
};
use std::alloc::{AllocError, Global};
use std::test::Fail;
use term_core::Atom;
use test_support::{holds, same};

// Calls with their names and numbers of arguments.
const CALL_NAMES: [(CallKind, &str, &str, usize); 7] = [
    (CallKind::Spawn, "erlang", "spawn", 3),
    (CallKind::Bang, "erlang", "!", 2),
    (CallKind::MakeRef, "erlang", "make_ref", 0),
    (CallKind::TableToList, "ets", "tab2list", 1),
    (CallKind::UpdateCounter, "ets", "update_counter", 3),
    (CallKind::DeleteTable, "ets", "delete", 1),
    (CallKind::DeleteKey, "ets", "delete", 2),
];

// Checks that a call has these names, and is found by them and by the number of its arguments.
fn is_named(kind: CallKind, module: &str, function: &str, arity: usize) -> Result<(), Fail> {
    same(kind.module_name().as_bytes(), module.as_bytes())?;
    same(kind.function_name().as_bytes(), function.as_bytes())?;
    let found = CallKind::named(module, function, arity);
    holds(found == Some(kind), function)
}

#[test]
fn names_calls() -> Result<(), Fail> {
    for (kind, module, function, arity) in &CALL_NAMES {
        is_named(*kind, module, function, *arity)?;
    }
    Ok(())
}

// Pure calls with their names and numbers of arguments.
const PURE_CALL_NAMES: [(PureCall, &str, &str, usize); 8] = [
    (PureCall::Add, "erlang", "+", 2),
    (PureCall::Keep, "erlang", "+", 1),
    (PureCall::AtMost, "erlang", "=<", 2),
    (PureCall::SetElement, "erlang", "setelement", 3),
    (PureCall::OwnPid, "erlang", "self", 0),
    (PureCall::ErrorWith, "erlang", "error", 2),
    (PureCall::Reverse, "lists", "reverse", 1),
    (PureCall::AppendLists, "lists", "append", 2),
];

// Checks that a call is found by its names and the number of its arguments, and not by a number greater by 3.
fn is_found(call: PureCall, module: &str, function: &str, arity: usize) -> Result<(), Fail> {
    let found = PureCall::named(module, function, arity);
    holds(found == Some(call), function)?;
    let more = arity.saturating_add(3);
    let found = PureCall::named(module, function, more);
    holds(found.is_none(), function)
}

#[test]
fn finds_pure_calls() -> Result<(), Fail> {
    for (call, module, function, arity) in &PURE_CALL_NAMES {
        is_found(*call, module, function, *arity)?;
    }
    Ok(())
}

// The texts below differ from one another, and each part of each form differs between two of them.

// Expressions in which `A` and `B` are bound.
const EXPRESSIONS: &str = "\
1
2
$a
$b
\"\"
\"a\"
\"ab\"
'a'
'b'
A
B
{}
{1,1}
{1,2}
[]
[1,1]
[1,2]
<>
<1,1>
<1,2>
[1|1]
[1,1|1]
[2|1]
[1|2]
let <A> = 1 in 1
let <B> = 1 in 1
let <A> = 2 in 1
let <A> = 1 in 2
do 1 1
do 2 1
do 1 2
catch 1
catch 2
try 1 of <A> -> 1 catch <C,D> -> 1
try 1 of <B> -> 1 catch <C,D> -> 1
try 1 of <A> -> 1 catch <E,D> -> 1
try 2 of <A> -> 1 catch <C,D> -> 1
try 1 of <A> -> 2 catch <C,D> -> 1
try 1 of <A> -> 1 catch <C,D> -> 2
case 1 of <7,1> when 1 -> 1 <7,1> when 1 -> 1 end
case 1 of <7,1> when 1 -> 1 <7,1> when 1 -> 1 <7,1> when 1 -> 1 end
case 2 of <7,1> when 1 -> 1 end
case 1 of <7,1> when 2 -> 1 end
case 1 of <7,1> when 1 -> 2 end
receive after 1 -> 1
receive after 2 -> 1
receive after 1 -> 2
receive 7 when 1 -> 1 after 1 -> 1
receive 8 when 1 -> 1 after 1 -> 1
receive 7 when 1 -> 2 after 1 -> 1
receive 7 when 1 -> 1 7 when 1 -> 1 after 1 -> 1
call 'ets':'insert'(1,1)
call 'ets':'insert'(1,2)
";

// Patterns.
const PATTERNS: &str = "\
1
2
$a
$b
\"a\"
\"b\"
'a'
'b'
A
B
{}
{1,1}
{1,2}
[]
[1,1]
[1,2]
[1|1]
[1,1|1]
[2|1]
[1|2]
A = 1
B = 1
A = 2
";

// Exports and attributes.
const FRONTS: &str = "\
['f'/1] attributes []
['f'/2] attributes []
['g'/1] attributes []
[] attributes ['a' = 1]
[] attributes ['a' = 2]
[] attributes ['a' = $a]
[] attributes ['a' = $b]
[] attributes ['a' = \"a\"]
[] attributes ['a' = \"b\"]
[] attributes ['a' = 'a']
[] attributes ['a' = 'b']
[] attributes ['a' = {}]
[] attributes ['a' = {1,1}]
[] attributes ['a' = {1,2}]
[] attributes ['a' = []]
[] attributes ['a' = [1,1]]
[] attributes ['a' = [1,2]]
[] attributes ['a' = [1|1]]
[] attributes ['a' = [1,1|1]]
[] attributes ['a' = [2|1]]
[] attributes ['a' = [1|2]]
[] attributes ['b' = 1]
";

// Modules by their names and their definitions in order.
const WHOLE: &str = "\
module 'm' [] attributes [] 'main'/0 = fun () -> 1 end
module 'n' [] attributes [] 'main'/0 = fun () -> 1 end
module 'm' [] attributes [] 'f'/1 = fun (A) -> 1 'g'/1 = fun (A) -> 1 'main'/0 = fun () -> 1 end
module 'm' [] attributes [] 'g'/1 = fun (A) -> 1 'f'/1 = fun (A) -> 1 'main'/0 = fun () -> 1 end
module 'm' [] attributes [] 'f'/1 = fun (A) -> 1 'g'/2 = fun (A,B) -> 1 'main'/0 = fun () -> 1 end
module 'm' [] attributes [] 'f'/1 = fun (A) -> 1 'g'/1 = fun (B) -> 1 'main'/0 = fun () -> 1 end
";

// The functions that the other modules have, except for the one with the expression.
const FUNCTIONS: &str =
    " 'main'/0 = fun () -> 1 'f'/1 = fun (A) -> 1 'f'/2 = fun (A,B) -> 1 'g'/1 = fun (A) -> 1 'h'/2 = fun (A,B) -> ";

// The text of a module with its tokens so many blanks further on; its parts are a front, and an expression between two
// texts.
fn text_of(
    alloc: Global,
    shift: &str,
    front: &str,
    before: &str,
    expression: &str,
    after: &str,
) -> Result<String, AllocError> {
    format!(in alloc; "{shift}module 'm' {front}{FUNCTIONS}{before}{expression}{after} end")
}

// Reads one more module.
fn push_module(alloc: Global, all: &mut Vec<Module>, text: &str) -> Result<(), ReadFault> {
    let module = read_module(alloc, text.as_bytes())?;
    all.push(module)?;
    Ok(())
}

const NO_FRONT: &str = "[] attributes []";

// The modules with the expressions above.
fn push_expressions(alloc: Global, all: &mut Vec<Module>, shift: &str) -> Result<(), ReadFault> {
    for expression in EXPRESSIONS.lines() {
        let text = text_of(alloc, shift, NO_FRONT, "", expression, "")?;
        push_module(alloc, all, text.as_str())?;
    }
    Ok(())
}

// The modules with the patterns above.
fn push_patterns(alloc: Global, all: &mut Vec<Module>, shift: &str) -> Result<(), ReadFault> {
    for pattern in PATTERNS.lines() {
        let after = "> when 1 -> 1 end";
        let text = text_of(alloc, shift, NO_FRONT, "case 1 of <7,", pattern, after)?;
        push_module(alloc, all, text.as_str())?;
    }
    Ok(())
}

// The modules with the fronts above.
fn push_fronts(alloc: Global, all: &mut Vec<Module>, shift: &str) -> Result<(), ReadFault> {
    for front in FRONTS.lines() {
        let text = text_of(alloc, shift, front, "", "0", "")?;
        push_module(alloc, all, text.as_str())?;
    }
    Ok(())
}

// The whole modules above.
fn push_whole(alloc: Global, all: &mut Vec<Module>, shift: &str) -> Result<(), ReadFault> {
    for whole in WHOLE.lines() {
        let text = format!(in alloc; "{shift}{whole}")?;
        push_module(alloc, all, text.as_str())?;
    }
    Ok(())
}

// The modules with the expressions and with the patterns.
fn push_bodies(alloc: Global, all: &mut Vec<Module>, shift: &str) -> Result<(), ReadFault> {
    push_expressions(alloc, all, shift)?;
    push_patterns(alloc, all, shift)
}

// All modules of the texts above.
fn push_all(alloc: Global, all: &mut Vec<Module>, shift: &str) -> Result<(), ReadFault> {
    push_bodies(alloc, all, shift)?;
    push_fronts(alloc, all, shift)?;
    push_whole(alloc, all, shift)
}

fn modules(alloc: Global, shift: &str) -> Result<Vec<Module>, ReadFault> {
    let mut all = Vec::new(alloc);
    push_all(alloc, &mut all, shift)?;
    Ok(all)
}

// Checks that a module is the same as the one at this place of a row, and as no other of it.
fn is_apart(one: &Module, there: &[Module], i: usize) -> Result<(), Fail> {
    for (j, other) in there.iter().enumerate() {
        let is_same = *one == *other;
        holds(
            is_same == (i == j),
            "modules are the same at one place of the rows, and not else",
        )?;
    }
    Ok(())
}

// Checks that two modules are the same where they are at one place of the two rows, and only there.
fn are_apart(here: &[Module], there: &[Module]) -> Result<(), Fail> {
    for (i, one) in here.iter().enumerate() {
        is_apart(one, there, i)?;
    }
    Ok(())
}

#[test]
fn compares_modules_but_for_places(rt: HostRuntime) -> Result<(), Fail> {
    let here = modules(rt.alloc(), "")?;
    let there = modules(rt.alloc(), "     ")?;
    holds(here.len() == 104, "there are 104 modules")?;
    are_apart(&here, &there)
}

// What is compared below differs in one part alone, as no two texts do.

fn function(alloc: Global, name: &str, arity: u8) -> Result<FunctionName, AllocError> {
    let name = Atom::new(alloc, name)?;
    Ok(FunctionName { name, arity })
}

fn exported(alloc: Global, name: &str, arity: u8) -> Result<Callee, AllocError> {
    let function = function(alloc, name, arity)?;
    Ok(Callee::Exported(function))
}

fn defined(alloc: Global, at: usize, name: &str, arity: u8) -> Result<Callee, AllocError> {
    let function = function(alloc, name, arity)?;
    Ok(Callee::Defined(NamedFunction { at, function }))
}

fn callee(alloc: Global, at: usize, i: usize) -> Result<Callee, AllocError> {
    match i {
        0 => Ok(Callee::World(CallKind::Insert)),
        1 => Ok(Callee::World(CallKind::Lookup)),
        2 => Ok(Callee::Pure(PureCall::Add)),
        3 => Ok(Callee::Pure(PureCall::Subtract)),
        4 => exported(alloc, "f", 1),
        5 => exported(alloc, "f", 2),
        6 => exported(alloc, "g", 1),
        7 => defined(alloc, at, "f", 1),
        8 => defined(alloc, at, "f", 2),
        9 => defined(alloc, at, "g", 1),
        10 => Ok(Callee::MatchFail),
        _ => Ok(Callee::Raise),
    }
}

// A call with no argument.
fn call(alloc: Global, at: usize, i: usize) -> Result<Expr, AllocError> {
    let callee = callee(alloc, at, i)?;
    Ok(Expr::Call(Call {
        at,
        callee,
        arguments: Exprs(Vec::new(alloc)),
    }))
}

// A `case` with no clause.
fn case(alloc: Global, at: usize) -> Result<Expr, AllocError> {
    let case = Case {
        at,
        value: Expr::Integer(1),
        clauses: Clauses(Vec::new(alloc)),
    };
    Ok(Expr::Case(Box::new(alloc, case)?))
}

/// A call of each callee, a `case` with no clause, and an integer.
fn body(alloc: Global, at: usize, i: usize) -> Result<Expr, AllocError> {
    match i {
        0..=11 => call(alloc, at, i),
        12 => case(alloc, at),
        _ => Ok(Expr::Integer(1)),
    }
}

// One parameter.
fn parameters(alloc: Global, at: usize, name: &str) -> Result<Vec<Variable>, AllocError> {
    let name = Vec::from_slice(alloc, name.as_bytes())?;
    Ok(vec![in alloc; Variable { at, name }]?)
}

fn definition(
    alloc: Global,
    at: usize,
    parameter: &str,
    body: Expr,
) -> Result<Definition, AllocError> {
    let parameters = parameters(alloc, at, parameter)?;
    Ok(Definition {
        at,
        parameters,
        body,
    })
}

// Functions by their names, their numbers of arguments, a parameter and a body.
const DEFINED: [(&str, u8, &str, usize); 17] = [
    ("f", 1, "A", 0),
    ("f", 1, "A", 1),
    ("f", 1, "A", 2),
    ("f", 1, "A", 3),
    ("f", 1, "A", 4),
    ("f", 1, "A", 5),
    ("f", 1, "A", 6),
    ("f", 1, "A", 7),
    ("f", 1, "A", 8),
    ("f", 1, "A", 9),
    ("f", 1, "A", 10),
    ("f", 1, "A", 11),
    ("f", 1, "A", 12),
    ("f", 1, "A", 13),
    ("g", 1, "A", 13),
    ("f", 2, "A", 13),
    ("f", 1, "B", 13),
];

// A function, with this place at all that has one.
fn define(
    alloc: Global,
    module: &mut Module,
    at: usize,
    row: &(&str, u8, &str, usize),
) -> Result<(), AllocError> {
    let function = function(alloc, row.0, row.1)?;
    let body = body(alloc, at, row.3)?;
    let definition = definition(alloc, at, row.2, body)?;
    module.definitions.insert(function, definition)?;
    Ok(())
}

const SMALLEST: &[u8] = b"module 'm' [] attributes [] 'main'/0 = fun () -> 1 end";

/// A module of no text: a definition is added to one that was read.
fn with_definition(
    alloc: Global,
    at: usize,
    row: &(&str, u8, &str, usize),
) -> Result<Module, ReadFault> {
    let mut module = read_module(alloc, SMALLEST)?;
    define(alloc, &mut module, at, row)?;
    Ok(module)
}

// All of them in modules, with this place at all that has one.
fn modules_of_no_text(alloc: Global, at: usize) -> Result<Vec<Module>, ReadFault> {
    let mut all = Vec::new(alloc);
    for row in &DEFINED {
        let module = with_definition(alloc, at, row)?;
        all.push(module)?;
    }
    Ok(all)
}

#[test]
fn compares_what_no_text_says(rt: HostRuntime) -> Result<(), Fail> {
    let here = modules_of_no_text(rt.alloc(), 0)?;
    let there = modules_of_no_text(rt.alloc(), 5)?;
    are_apart(&here, &there)
}
