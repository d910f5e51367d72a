// Modules read from tokens, also from those of more than a text of lawful length.
use core_reader::{Module, read_tokens};
use core_tokens::{ReadFault, tokens};
use core_tree::{Definition, Expr, FunctionName};
use std::alloc::{AllocError, Global};
use std::fmt::Write;
use std::test::Fail;
use test_support::{holds, nested, same};

// What the tokens of a text spell.
fn read(alloc: Global, text: &str) -> Result<Module, ReadFault> {
    let all = tokens(alloc, text.as_bytes())?;
    read_tokens(alloc, &all, text.len())
}

const MODULE: &str =
    "module 'm' [ 'main' / 0 ] attributes [ 'a' = { 1 , [ 'x' | 2 ] } ] 'main' / 0 = fun ( ) -> let < X > = call 'ets' : 'new' ( 't' , [ ] ) in X end";

// Checks that this is `main/0` at its place, with a `let` for a body.
fn is_main(name: &FunctionName, definition: &Definition) -> Result<(), Fail> {
    same(name.name.as_str().as_bytes(), b"main")?;
    holds(name.arity == 0, "it has no parameter")?;
    holds(definition.at == 67, "it is at 67")?;
    holds(matches!(definition.body, Expr::Let(_)), "its body is a let")
}

// Checks that a module has this one function.
fn has_main(module: &Module) -> Result<(), Fail> {
    same(module.name.as_str().as_bytes(), b"m")?;
    holds(module.exports.len() == 1, "there is one export")?;
    holds(module.attributes.len() == 1, "there is one attribute")?;
    holds(module.definitions.len() == 1, "there is one definition")?;
    for (name, definition) in &module.definitions {
        is_main(name, definition)?;
    }
    Ok(())
}

#[test]
fn reads_a_module(rt: HostRuntime) -> Result<(), Fail> {
    let module = read(rt.alloc(), MODULE)?;
    has_main(&module)
}

// The first fault, and a text that is no module; an empty line between two of them.
const FAULTS: &str = "\
13 NoMain at 30
module 'm' [ ] attributes [ ] end

2 Expected at 34
module 'm' [ ] attributes [ ] end 'x'

2 Expected at 29
module 'm' [ ] attributes [ ]

6 NoFunction at 13
module 'm' [ 'f' / 1 ] attributes [ ] 'main' / 0 = fun ( ) -> 1 end

2 Expected at 49
module 'm' [ ] attributes [ ] 'main' / 0 = fun ( X ) -> X end

3 Unbound at 54
module 'm' [ ] attributes [ ] 'main' / 0 = fun ( ) -> X end

4 DuplicateVariable at 50
module 'm' [ ] attributes [ ] 'f' / 2 = fun ( X , X ) -> X end

5 DuplicateFunction at 53
module 'm' [ ] attributes [ ] 'f' / 0 = fun ( ) -> 1 'f' / 0 = fun ( ) -> 1 end

7 HigherOrder at 51
module 'm' [ ] attributes [ ] 'f' / 0 = fun ( ) -> fun end

7 HigherOrder at 51
module 'm' [ ] attributes [ ] 'f' / 0 = fun ( ) -> 'f' / 0 end

2 Expected at 56
module 'm' [ ] attributes [ ] 'f' / 0 = fun ( ) -> case end

14 UnsupportedForm at 57
module 'm' [ ] attributes [ ] 'f' / 0 = fun ( ) -> { 1 , # } end

8 UnsupportedCall at 51
module 'm' [ ] attributes [ ] 'f' / 0 = fun ( ) -> call X : 'b' ( ) end

8 UnsupportedCall at 51
module 'm' [ ] attributes [ ] 'f' / 0 = fun ( ) -> call 'a' : 'b' ( call 'c' : 'd' ( ) ) end

7 HigherOrder at 68
module 'm' [ ] attributes [ ] 'f' / 0 = fun ( ) -> call 'a' : 'b' ( fun ) end

8 UnsupportedCall at 53
module 'm' [ ] attributes [ ] 'f' / 0 = fun ( ) -> { call 'a' : 'b' ( ) 2 } end";

// Checks that the tokens of a text are read, or refused with this fault.
fn answers_with(alloc: Global, text: &str, fault: Option<ReadFault>) -> Result<(), Fail> {
    let answer = read(alloc, text).err();
    holds(answer == fault, text)
}

// The fault of a text, as text.
fn fault_of(alloc: Global, text: &str) -> Result<String, AllocError> {
    match read(alloc, text) {
        Ok(_) => String::from_str(alloc, "no fault"),
        Err(fault) => format!(in alloc; "{fault}"),
    }
}

// Checks that the tokens of the text of a row are refused with its fault.
fn refuses(alloc: Global, row: &str) -> Result<(), Fail> {
    let (fault, text) = row.split_once('\n').ok_or("a row has two parts")?;
    let found = fault_of(alloc, text)?;
    holds(found.as_str() == fault, row)
}

#[test]
fn finds_the_first_fault(rt: HostRuntime) -> Result<(), Fail> {
    for row in FAULTS.split("\n\n") {
        refuses(rt.alloc(), row)?;
    }
    Ok(())
}

// What comes before a body, which begins at 54.
const FRONT: &str = "module 'm' [ ] attributes [ ] 'main' / 0 = fun ( ) -> ";

// The module with this body.
fn in_front(alloc: Global, body: &str) -> Result<String, AllocError> {
    format!(in alloc; "{FRONT}{body} end")
}

// The module whose body is so many lists, one in another, around an integer.
fn in_lists(alloc: Global, depth: usize) -> Result<String, AllocError> {
    let body = nested(alloc, "", "[", depth, "1", "]")?;
    in_front(alloc, body.as_str())
}

// How many lists, and the fault.
const DEPTHS: [(usize, Option<ReadFault>); 3] = [
    (999, None),
    // the integer opens level 1,001
    (1_000, Some(ReadFault::TooDeep(1_054))),
    // the last bracket opens it
    (1_001, Some(ReadFault::TooDeep(1_054))),
];

#[test]
fn nests_a_thousand_levels(rt: HostRuntime) -> Result<(), Fail> {
    for (depth, fault) in DEPTHS {
        let text = in_lists(rt.alloc(), depth)?;
        answers_with(rt.alloc(), text.as_str(), fault)?;
    }
    Ok(())
}

#[test]
fn reads_a_long_list(rt: HostRuntime) -> Result<(), Fail> {
    let body = nested(rt.alloc(), "[", "1,", 100_000, "1]", "")?;
    let text = in_front(rt.alloc(), body.as_str())?;
    answers_with(rt.alloc(), text.as_str(), None)
}

// How many definitions a module has.
fn definition_count(alloc: Global, text: &str) -> Result<usize, ReadFault> {
    let module = read(alloc, text)?;
    Ok(module.definitions.len())
}

// A module with so many definitions beside `main/0`.
fn definitions(alloc: Global, count: u64) -> Result<String, AllocError> {
    let front = "module 'm' [] attributes [] 'main'/0 = fun () -> 1 ";
    let mut text = String::from_str(alloc, front)?;
    for number in 0..count {
        write!(text, "'f{number}'/0 = fun () -> 1 ")?;
    }
    text.push_str("end")?;
    Ok(text)
}

// More than a text of lawful length has room for.
#[test]
fn reads_70000_definitions(rt: HostRuntime) -> Result<(), Fail> {
    let text = definitions(rt.alloc(), 70_000)?;
    let count = definition_count(rt.alloc(), text.as_str())?;
    holds(count == 70_001, "there are 70001 definitions")
}
