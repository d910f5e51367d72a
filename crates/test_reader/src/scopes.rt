// Modules as the grammar reads them, and whether they are closed.
use core_reader::read_module;
use core_scopes::{Defined, Draft, Front, closed_module};
use core_tokens::ReadFault;
use core_tree::Module;
use indexmap::IndexMap;
use std::alloc::{AllocError, Global};
use std::mem::replace;
use std::test::Fail;
use test_support::holds;

// A module that was read, as the grammar reads it; its last `end` is said to be at 30.
fn draft_of(alloc: Global, module: Module) -> Result<Draft, AllocError> {
    let mut module = module;
    let front = Front {
        name: module.name.copy()?,
        exports: replace(&mut module.exports, Vec::new(alloc)),
        attributes: replace(&mut module.attributes, Vec::new(alloc)),
    };
    let mut definitions = Vec::new(alloc);
    for (function, definition) in replace(&mut module.definitions, IndexMap::new(alloc)) {
        definitions.push(Defined {
            function,
            definition,
        })?;
    }
    Ok(Draft {
        front,
        definitions,
        end: 30,
    })
}

// An outer variable, a second one and an inner one are read, and a function is applied.
const CLOSED: &[u8] =
    b"module 'm' ['f'/0] attributes ['a' = 1] 'main'/0 = fun () -> apply 'f'/0() 'f'/0 = fun () -> let <X,Z> = <1,2> in case 3 of <Y> when 'true' -> {X,Y,Z} end end";

// The module of a text, closed once more.
fn closed_again(alloc: Global, text: &[u8]) -> Result<Module, ReadFault> {
    let module = read_module(alloc, text)?;
    let draft = draft_of(alloc, module)?;
    closed_module(alloc, draft)
}

// Whether it is the same.
fn is_handed_out(alloc: Global, text: &[u8]) -> Result<bool, ReadFault> {
    let closed = closed_again(alloc, text)?;
    let module = read_module(alloc, text)?;
    Ok(closed == module)
}

#[test]
fn hands_out_a_closed_module(rt: HostRuntime) -> Result<(), Fail> {
    let is_same = is_handed_out(rt.alloc(), CLOSED)?;
    holds(is_same, "a closed module is handed out")
}

// The fault of a module without so many of its definitions.
fn fault_without(alloc: Global, text: &[u8], count: usize) -> Result<Option<ReadFault>, ReadFault> {
    let module = read_module(alloc, text)?;
    let mut draft = draft_of(alloc, module)?;
    let kept = draft.definitions.len().saturating_sub(count);
    draft.definitions.truncate(kept);
    Ok(closed_module(alloc, draft).err())
}

// Checks the fault of a module without so many of its definitions.
fn has_fault_without(
    alloc: Global,
    text: &[u8],
    count: usize,
    fault: ReadFault,
) -> Result<(), Fail> {
    let found = fault_without(alloc, text, count)?;
    holds(found == Some(fault), "what is not defined is named")
}

const ONLY_MAIN: &[u8] = b"module 'm' [] attributes [] 'main'/0 = fun () -> 1 end";

#[test]
fn names_what_is_not_defined(rt: HostRuntime) -> Result<(), Fail> {
    has_fault_without(rt.alloc(), CLOSED, 1, ReadFault::NoFunction(12))?;
    has_fault_without(rt.alloc(), CLOSED, 2, ReadFault::NoFunction(12))?;
    has_fault_without(rt.alloc(), ONLY_MAIN, 1, ReadFault::NoMain(30))
}
