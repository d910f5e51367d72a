// Where a process begins, and what it applies.
ghost use Rattle.std.specs.Prelude.{◌≡◌, true, false, IfOk, OnOk, option_map, option_copied};
ghost use Rattle.core_semantics.specs.Applications.{definition};
ghost use Rattle.core_semantics.specs.Ask.{entry, first_function, is_exported};
ghost use Rattle.core_eval.specs.inside.Functions.{function_in};
ghost use Rattle.core_eval.specs.inside.Steps.{Begins, IsBared, keeps_once};
ghost use Rattle.core_stack.specs.Holes.{keeps_on_top};

use crate::build::error;
use crate::control::Control;
use core_stack::{Bindings, Frame, Stack};
use core_tree::{Definition, FunctionName, Module, NamedFunction};
use std::alloc::{AllocError, Global};
use term_core::{Atom, Pid, Terms, Word};

/// The definition of the function that a process begins with: in this module, and one that it exports, except for the
/// first process.
pub(crate) fn first_definition<'m>(
    program: &'m Module,
    pid: &Pid,
    module_name: &Atom,
    function_name: &Atom,
    arguments: &Terms,
) -> Result<Option<&'m Definition>, AllocError>
    ensures { IfOk result (λ found.
        option_map function_in (option_copied found)
        ≡ first_function program.now pid.now (entry module_name.now function_name.now arguments.now)) }
{
    let Ok(arity) = u8::try_from(arguments.len()) else {
        return Ok(None);
    };
    let function = FunctionName {
        name: function_name.copy()?,
        arity,
    };
    if program.name == *module_name
        && (pid.numbers().is_empty() || is_exported(program.exports.as_slice(), &function))
    {
        Ok(definition_of(program, &function))
    } else {
        Ok(None)
    }
}

// Whether a function is among the exports.
fn is_exported(exports: &[NamedFunction], function: &FunctionName) -> bool
    ensures { result ≡ is_exported function.now exports.now }
{
    exports.iter().any(|export| *function == export.function)
}

// The definition of a function.
fn definition_of<'m>(program: &'m Module, function: &FunctionName) -> Option<&'m Definition>
    ensures { option_map function_in (option_copied result) ≡ definition function.now program.now.definitions }
{
    program.definitions.get(function)
}

/// Into the body of a function with these arguments as its parameters, and no other variable in scope.
/// Without a function it is undefined.
pub(crate) fn begin<'m>(
    alloc: Global,
    stack: &mut Stack<'m>,
    function: Option<&'m Definition>,
    arguments: Terms,
) -> Result<Control<'m>, AllocError>
    ensures same { IfOk result (λ next.
        Begins stack.old stack.new next (option_map function_in (option_copied function.entry)) arguments) }
    ensures small { keeps_on_top stack.old ≡ false → IfOk result (λ _. keeps_once stack.new ≡ true) }
{
    let Some(definition) = function else {
        return Ok(error(Word::Undefined));
    };
    match Bindings::of(alloc, definition.parameters.as_slice(), arguments)? {
        Some(bindings) => {
            stack.push(Frame::Applied(bindings))?;
            Ok(Control::Evaluate(&definition.body))
        }
        None => Ok(error(Word::ValueCount)),
    }
}

// Pops the scope frames on top: a function body does not see its caller's variables. `AllocError` as
// `Stack::pop`.
fn bare(alloc: Global, stack: &mut Stack<'_>) -> Result<(), AllocError>
    ensures { OnOk result (IsBared stack.old stack.new) }
{
    'kept: while stack.keeps_on_top() {
        let _frame = stack.pop(alloc)?;
    }
    Ok(())
}

/// Into the body of the function that is applied to these arguments. The scope frames on top of the stack are
/// popped first, since the body sees none of their variables: this makes tail calls run in constant stack.
pub(crate) fn apply<'m>(
    alloc: Global,
    program: &'m Module,
    stack: &mut Stack<'m>,
    function: &FunctionName,
    arguments: Terms,
) -> Result<Control<'m>, AllocError>
    ensures same { IfOk result (λ next.
        Begins stack.old stack.new next (definition function.now program.now.definitions) arguments) }
    ensures small { IfOk result (λ _. keeps_once stack.new ≡ true) }
{
    bare(alloc, stack)?;
    begin(alloc, stack, definition_of(program, function), arguments)
}
