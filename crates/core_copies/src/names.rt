// Copies of names: atoms, texts, variables, names of functions, and what a call applies.
ghost use Rattle.std.specs.Prelude.{◌≡◌, IfOk};
ghost use Rattle.core_tree.specs.Tree.{callee_of};

use core_tree::{Callee, FunctionName, NamedFunction, Variable};
use std::alloc::{AllocError, Global};
use term_core::Atom;

/// The same atom with a text of its own. `Atom::copy` would share the text.
pub(crate) fn copy_atom(alloc: Global, atom: &Atom) -> Result<Atom, AllocError>
    ensures { IfOk result (λ copied. copied ≡ atom.now) }
{
    Atom::new(alloc, atom.as_str())
}

/// The same characters.
pub(crate) fn copy_characters(alloc: Global, characters: &[char]) -> Result<Vec<char>, AllocError>
    ensures { IfOk result (λ copied. copied.items ≡ characters.now) }
{
    characters.to_vec(alloc)
}

/// The same variable at the same place.
pub(crate) fn copy_variable(alloc: Global, variable: &Variable) -> Result<Variable, AllocError>
    ensures { IfOk result (λ copied. copied ≡ variable.now) }
{
    Ok(Variable {
        at: variable.at,
        name: variable.name.to_vec(alloc)?,
    })
}

/// The same variables in order.
pub(crate) fn copy_variables(
    alloc: Global,
    variables: &[Variable],
) -> Result<Vec<Variable>, AllocError>
    ensures { IfOk result (λ copied. copied.items ≡ variables.now) }
{
    let mut copied = Vec::with_capacity(alloc, variables.len())?;
    for variable in variables {
        copied.push(copy_variable(alloc, variable)?)?;
    }
    Ok(copied)
}

/// The same name of a function.
pub(crate) fn copy_function(
    alloc: Global,
    function: &FunctionName,
) -> Result<FunctionName, AllocError>
    ensures { IfOk result (λ copied. copied ≡ function.now) }
{
    Ok(FunctionName {
        name: copy_atom(alloc, &function.name)?,
        arity: function.arity,
    })
}

/// The same name of a function at the same place.
pub(crate) fn copy_named(alloc: Global, named: &NamedFunction) -> Result<NamedFunction, AllocError>
    ensures { IfOk result (λ copied. copied ≡ named.now) }
{
    Ok(NamedFunction {
        at: named.at,
        function: copy_function(alloc, &named.function)?,
    })
}

/// What a call applies, the same.
pub(crate) fn copy_callee(alloc: Global, callee: &Callee) -> Result<Callee, AllocError>
    ensures { IfOk result (λ copied. callee_of copied ≡ callee_of callee.now) }
{
    match callee {
        Callee::World(kind) => Ok(Callee::World(*kind)),
        Callee::Pure(kind) => Ok(Callee::Pure(*kind)),
        Callee::Exported(function) => Ok(Callee::Exported(copy_function(alloc, function)?)),
        Callee::Defined(named) => Ok(Callee::Defined(copy_named(alloc, named)?)),
        Callee::MatchFail => Ok(Callee::MatchFail),
        Callee::Raise => Ok(Callee::Raise),
    }
}
