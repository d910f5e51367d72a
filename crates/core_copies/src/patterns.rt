// Copies of patterns. They go into the parts by recursion, and along rows by loops.
ghost use Rattle.std.specs.Prelude.{◌≡◌, IfOk};
ghost use Rattle.core_tree.specs.Tree.{pattern_of};

use crate::names::{copy_atom, copy_characters, copy_variable};
use core_tree::{Alias, OntoPattern, Pattern, Patterns};
use std::alloc::{AllocError, Global};

// The same pattern.
#[cycle(patterns)]
fn copy_pattern(alloc: Global, pattern: &Pattern) -> Result<Pattern, AllocError>
    ensures { IfOk result (λ copied. pattern_of copied ≡ pattern_of pattern.now) }
{
    match pattern {
        Pattern::Integer(number) => Ok(Pattern::Integer(*number)),
        Pattern::Character(character) => Ok(Pattern::Character(*character)),
        Pattern::Text(characters) => Ok(Pattern::Text(copy_characters(alloc, characters)?)),
        Pattern::Atom(atom) => Ok(Pattern::Atom(copy_atom(alloc, atom)?)),
        Pattern::Variable(variable) => Ok(Pattern::Variable(copy_variable(alloc, variable)?)),
        Pattern::Tuple(parts) => Ok(Pattern::Tuple(copy_patterns(alloc, parts)?)),
        Pattern::List(items) => Ok(Pattern::List(copy_patterns(alloc, items)?)),
        Pattern::Onto(onto) => Ok(Pattern::Onto(Box::new(alloc, copy_onto_pattern(alloc, onto)?)?)),
        Pattern::Alias(alias) => Ok(Pattern::Alias(Box::new(alloc, copy_alias(alloc, alias)?)?)),
    }
}

#[cycle(patterns)]
fn copy_onto_pattern(alloc: Global, onto: &OntoPattern) -> Result<OntoPattern, AllocError>
    ensures { IfOk result (λ copied. copied ≡ onto.now) }
{
    Ok(OntoPattern {
        items: copy_patterns(alloc, &onto.items)?,
        tail: copy_pattern(alloc, &onto.tail)?,
    })
}

#[cycle(patterns)]
fn copy_alias(alloc: Global, alias: &Alias) -> Result<Alias, AllocError>
    ensures { IfOk result (λ copied. copied ≡ alias.now) }
{
    Ok(Alias {
        variable: copy_variable(alloc, &alias.variable)?,
        whole: copy_pattern(alloc, &alias.whole)?,
    })
}

/// The same patterns in order.
#[cycle(patterns)]
pub(crate) fn copy_patterns(alloc: Global, patterns: &Patterns) -> Result<Patterns, AllocError>
    ensures { IfOk result (λ copied. copied ≡ patterns.now) }
{
    let mut copied = Vec::with_capacity(alloc, patterns.0.len())?;
    for pattern in &patterns.0 {
        copied.push(copy_pattern(alloc, pattern)?)?;
    }
    Ok(Patterns(copied))
}
