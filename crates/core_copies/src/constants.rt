// Copies of the constants of attributes. They go into the parts by recursion, and along lists by loops.
ghost use Rattle.std.specs.Prelude.{◌≡◌, IfOk};
ghost use Rattle.core_tree.specs.Tree.{constant_of};

use crate::names::{copy_atom, copy_characters};
use core_tree::{Const, Consts, OntoConst};
use std::alloc::{AllocError, Global};

/// The same constant.
#[cycle(constants)]
pub(crate) fn copy_const(alloc: Global, constant: &Const) -> Result<Const, AllocError>
    ensures { IfOk result (λ copied. constant_of copied ≡ constant_of constant.now) }
{
    match constant {
        Const::Integer(number) => Ok(Const::Integer(*number)),
        Const::Character(character) => Ok(Const::Character(*character)),
        Const::Text(characters) => Ok(Const::Text(copy_characters(alloc, characters)?)),
        Const::Atom(atom) => Ok(Const::Atom(copy_atom(alloc, atom)?)),
        Const::Tuple(parts) => Ok(Const::Tuple(copy_consts(alloc, parts)?)),
        Const::List(items) => Ok(Const::List(copy_consts(alloc, items)?)),
        Const::Onto(onto) => Ok(Const::Onto(Box::new(alloc, copy_onto_const(alloc, onto)?)?)),
    }
}

#[cycle(constants)]
fn copy_onto_const(alloc: Global, onto: &OntoConst) -> Result<OntoConst, AllocError>
    ensures { IfOk result (λ copied. copied ≡ onto.now) }
{
    Ok(OntoConst {
        items: copy_consts(alloc, &onto.items)?,
        tail: copy_const(alloc, &onto.tail)?,
    })
}

// The same constants in order.
#[cycle(constants)]
fn copy_consts(alloc: Global, constants: &Consts) -> Result<Consts, AllocError>
    ensures { IfOk result (λ copied. copied ≡ constants.now) }
{
    let mut copied = Vec::with_capacity(alloc, constants.0.len())?;
    for constant in &constants.0 {
        copied.push(copy_const(alloc, constant)?)?;
    }
    Ok(Consts(copied))
}
