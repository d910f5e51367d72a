// Copies of modules, with their exports, attributes and definitions.
ghost use Rattle.std.specs.Prelude.{◌≡◌, IfOk, map};
ghost use Rattle.core_tree.specs.Syntax.{Function};
ghost use Rattle.core_tree.specs.Definitions.{definition_of};

use crate::constants::copy_const;
use crate::expressions::copy_expr;
use crate::names::{copy_atom, copy_function, copy_named, copy_variables};
use core_tree::{Attribute, Definition, FunctionName, Module, NamedFunction};
use indexmap::IndexMap;
use std::alloc::{AllocError, Global};

// The same exports in order.
fn copy_exports(alloc: Global, exports: &[NamedFunction]) -> Result<Vec<NamedFunction>, AllocError>
    ensures { IfOk result (λ copied. copied.items ≡ exports.now) }
{
    let mut copied = Vec::with_capacity(alloc, exports.len())?;
    for export in exports {
        copied.push(copy_named(alloc, export)?)?;
    }
    Ok(copied)
}

fn copy_attribute(alloc: Global, attribute: &Attribute) -> Result<Attribute, AllocError>
    ensures { IfOk result (λ copied. copied ≡ attribute.now) }
{
    Ok(Attribute {
        name: copy_atom(alloc, &attribute.name)?,
        value: copy_const(alloc, &attribute.value)?,
    })
}

// The same attributes in order.
fn copy_attributes(alloc: Global, attributes: &[Attribute]) -> Result<Vec<Attribute>, AllocError>
    ensures { IfOk result (λ copied. copied.items ≡ attributes.now) }
{
    let mut copied = Vec::with_capacity(alloc, attributes.len())?;
    for attribute in attributes {
        copied.push(copy_attribute(alloc, attribute)?)?;
    }
    Ok(copied)
}

fn copy_definition(alloc: Global, definition: &Definition) -> Result<Definition, AllocError>
    ensures { IfOk result (λ copied. (f : Function) → definition_of (f, copied) ≡ definition_of (f, definition.now)) }
{
    Ok(Definition {
        at: definition.at,
        parameters: copy_variables(alloc, &definition.parameters)?,
        body: copy_expr(alloc, &definition.body)?,
    })
}

// The same definitions by the same names, in order.
fn copy_definitions(
    alloc: Global,
    definitions: &IndexMap<FunctionName, Definition>,
) -> Result<IndexMap<FunctionName, Definition>, AllocError>
    ensures { IfOk result (λ copied. map definition_of copied.entries ≡ map definition_of definitions.now.entries) }
{
    let mut copied = IndexMap::with_capacity(alloc, definitions.len())?;
    for (function, definition) in definitions {
        copied.insert(
            copy_function(alloc, function)?,
            copy_definition(alloc, definition)?,
        )?;
    }
    Ok(copied)
}

/// The same module, which shares no memory with this one: one name, and the same exports, attributes and
/// definitions at the same places, each in the same order. `AllocError` if there is no memory for it.
pub fn copy_module(alloc: Global, module: &Module) -> Result<Module, AllocError>
    ensures { IfOk result (λ copied. copied ≡ «module».now) }
{
    Ok(Module {
        name: copy_atom(alloc, &module.name)?,
        exports: copy_exports(alloc, &module.exports)?,
        attributes: copy_attributes(alloc, &module.attributes)?,
        definitions: copy_definitions(alloc, &module.definitions)?,
    })
}
