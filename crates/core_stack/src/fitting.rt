// Whether a value matches a pattern, where nothing is bound (Core Erlang 1.0.3, "Pattern matching"). It takes no memory.
ghost use Rattle.std.specs.Prelude.{◌≡◌, Bool, is_some, map, option_map};
ghost use Rattle.core_tree.specs.Syntax.{patterns_of};
ghost use Rattle.core_tree.specs.Tree.{pattern_of};
ghost use Rattle.term_core.specs.Term.{meaning_of};
ghost use Rattle.term_core.specs.Meaning.{Meaning};
ghost use Rattle.core_stack.specs.Matching.{Environment, match};
ghost use Rattle.core_stack.specs.inside.Fitting.{fits, each_fits, items_fit};
ghost use Rattle.core_stack.specs.inside.Fitted.{behind_items};

use crate::matching::{is_integer, is_nil, is_text};
use core_tree::{Alias, OntoPattern, Pattern, Patterns};
use term_core::{Pair, Term};

/// Whether the value matches the pattern, whatever is bound before. It binds nothing and takes no memory.
pub fn fits(pattern: &Pattern, value: &Term) -> bool
    ensures { (before : Environment) → is_some (match (pattern_of pattern.now) (meaning_of value.now) before) ≡ result }
{
    value_fits(pattern, value)
}

// Whether the value matches the pattern.
#[cycle(fitting)]
fn value_fits(pattern: &Pattern, value: &Term) -> bool
    ensures { result ≡ fits (pattern_of pattern.now) (meaning_of value.now) }
{
    match pattern {
        Pattern::Integer(number) => is_integer(value, *number),
        Pattern::Character(character) => is_integer(value, *character as i64),
        Pattern::Text(characters) => is_text(value, characters),
        Pattern::Atom(atom) => value.is_the_atom(atom.as_str()),
        Pattern::Variable(_) => true,
        Pattern::Tuple(parts) => match value {
            Term::Tuple(values) => parts_fit(parts, values.as_slice()),
            _ => false,
        },
        Pattern::List(items) => match items_fit(items, value) {
            Some(tail) => is_nil(tail),
            None => false,
        },
        Pattern::Onto(onto) => {
            let onto: &OntoPattern = onto;
            match items_fit(&onto.items, value) {
                Some(tail) => value_fits(&onto.tail, tail),
                None => false,
            }
        }
        Pattern::Alias(alias) => {
            let alias: &Alias = alias;
            value_fits(&alias.whole, value)
        }
    }
}

// Whether there are as many values as patterns, and each matches its own.
#[cycle(fitting)]
fn parts_fit(patterns: &Patterns, values: &[Term]) -> bool
    ensures { result ≡ each_fits (patterns_of patterns.now) (map meaning_of values.now) }
{
    let mut left = values;
    'parts: for pattern in &patterns.0 {
        let Some((value, rest)) = left.split_first() else {
            return false;
        };
        if !value_fits(pattern, value) {
            return false;
        }
        left = rest;
    }
    left.is_empty()
}

// What is left of a list after its first items, if these match the patterns.
#[cycle(fitting)]
fn items_fit<'v>(patterns: &Patterns, value: &'v Term) -> Option<&'v Term>
    ensures { (behind : Meaning → Bool) → items_fit (patterns_of patterns.now) behind (meaning_of value.now) ≡ behind_items (option_map (λ tail. meaning_of tail.now) result) behind }
{
    let mut left = value;
    'items: for pattern in &patterns.0 {
        let Term::Cons(cell) = left else {
            return None;
        };
        let cell: &Pair = cell;
        if !value_fits(pattern, cell.head()) {
            return None;
        }
        left = cell.tail();
    }
    Some(left)
}
