// Patterns that are matched against values (Core Erlang 1.0.3, "Pattern matching").
ghost use Rattle.std.specs.Prelude.{◌≡◌, IfOk, option_map};
ghost use Rattle.core_tree.specs.Syntax.{patterns_of};
ghost use Rattle.core_tree.specs.Tree.{pattern_of};
ghost use Rattle.term_core.specs.Term.{meaning_of};
ghost use Rattle.core_stack.specs.Matching.{is_nil, is_number, is_text, match, match_each};
ghost use Rattle.core_stack.specs.inside.Matched.{IsMatch, MatchesItems};

use crate::bindings::Bindings;
use core_tree::{Alias, OntoPattern, Pattern, Patterns};
use std::alloc::AllocError;
use term_core::{Pair, Term, Terms};

/// Whether the value is this integer.
pub(crate) fn is_integer(value: &Term, wanted: i64) -> bool
    ensures { result ≡ is_number wanted (meaning_of value.now) }
{
    match value {
        Term::Int(number) => *number == wanted,
        _ => false,
    }
}

/// Whether the value is nil.
pub(crate) fn is_nil(value: &Term) -> bool
    ensures { result ≡ is_nil (meaning_of value.now) }
{
    matches!(value, Term::Nil)
}

/// Whether the value is the list of the numbers of these characters.
pub(crate) fn is_text(value: &Term, characters: &[char]) -> bool
    ensures { result ≡ is_text characters.now (meaning_of value.now) }
{
    let mut left = value;
    'characters: for character in characters {
        let Term::Cons(cell) = left else {
            return false;
        };
        let cell: &Pair = cell;
        if !is_integer(cell.head(), *character as i64) {
            return false;
        }
        left = cell.tail();
    }
    is_nil(left)
}

/// Whether the value matches the pattern. Its variables, from left to right, come on top of the bindings;
/// where it does not match, some of them may. `AllocError` if there is no memory for it.
#[cycle(matching)]
pub fn matches<'m>(
    pattern: &'m Pattern,
    value: &Term,
    bindings: &mut Bindings<'m>,
) -> Result<bool, AllocError>
    ensures { IfOk result (λ found. IsMatch found bindings.new (match (pattern_of pattern.now) (meaning_of value.now) bindings.old)) }
{
    match pattern {
        Pattern::Integer(number) => Ok(is_integer(value, *number)),
        Pattern::Character(character) => Ok(is_integer(value, *character as i64)),
        Pattern::Text(characters) => Ok(is_text(value, characters)),
        Pattern::Atom(atom) => Ok(value.is_the_atom(atom.as_str())),
        Pattern::Variable(variable) => {
            bindings.push(variable.name.as_slice(), value.copy()?)?;
            Ok(true)
        }
        Pattern::Tuple(parts) => match value {
            Term::Tuple(values) => matches_each(parts, values, bindings),
            _ => Ok(false),
        },
        Pattern::List(items) => match matches_items(items, value, bindings)? {
            Some(Term::Nil) => Ok(true),
            _ => Ok(false),
        },
        Pattern::Onto(onto) => {
            let onto: &'m OntoPattern = onto;
            match matches_items(&onto.items, value, bindings)? {
                Some(tail) => matches(&onto.tail, tail, bindings),
                None => Ok(false),
            }
        }
        Pattern::Alias(alias) => {
            let alias: &'m Alias = alias;
            bindings.push(alias.variable.name.as_slice(), value.copy()?)?;
            matches(&alias.whole, value, bindings)
        }
    }
}

/// Whether there are as many values as patterns, and each matches its own.
#[cycle(matching)]
pub fn matches_each<'m>(
    patterns: &'m Patterns,
    values: &Terms,
    bindings: &mut Bindings<'m>,
) -> Result<bool, AllocError>
    ensures { IfOk result (λ found. IsMatch found bindings.new (match_each (patterns_of patterns.now) values.now bindings.old)) }
{
    let items = values.as_slice();
    if patterns.0.len() != items.len() {
        return Ok(false);
    }
    for i in 0..patterns.0.len() {
        if !matches(&patterns.0[i], &items[i], bindings)? {
            return Ok(false);
        }
    }
    Ok(true)
}

// What is left of a list after its first items, if these match the patterns.
#[cycle(matching)]
fn matches_items<'m, 'v>(
    patterns: &'m Patterns,
    value: &'v Term,
    bindings: &mut Bindings<'m>,
) -> Result<Option<&'v Term>, AllocError>
    ensures { IfOk result (λ rest.
        MatchesItems (patterns_of patterns.now) (meaning_of value.now) (option_map (λ tail. meaning_of tail.now) rest) bindings.old bindings.new) }
{
    let mut left = value;
    'items: for pattern in &patterns.0 {
        let Term::Cons(cell) = left else {
            return Ok(None);
        };
        let cell: &Pair = cell;
        if !matches(pattern, cell.head(), bindings)? {
            return Ok(None);
        }
        left = cell.tail();
    }
    Ok(Some(left))
}
