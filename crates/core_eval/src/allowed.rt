// How many applications a module allows its processes between two requests.
ghost use Rattle.std.specs.Prelude.{◌≡◌, map};
ghost use Rattle.core_semantics.specs.Limits.{allowed_by, number_allowed, number_alone, number_of, number_said, said_by};
ghost use Rattle.core_tree.specs.Constant.{constants_of};
ghost use Rattle.core_tree.specs.Tree.{constant_of};

use core_tree::{Attribute, Const};

// So many, where a module says nothing of it.
const USUAL_LIMIT: usize = 10_000;

// The most that a module can allow.
const MOST_ALLOWED: i64 = 1_000_000;

// The name of the attribute by which a module says it.
const LIMIT_NAME: &str = "explore_applications";

/// The most applications of its functions that a process of a module with these attributes may make between two requests:
/// as many as the first attribute `explore_applications` says that says a number from 1 to 1,000,000, and 10,000 where
/// none does.
pub(crate) fn allowed_by(attributes: &[Attribute]) -> usize
    ensures { result ≡ allowed_by attributes.now }
{
    for attribute in attributes {
        if let Some(number) = said_by(attribute) {
            return number;
        }
    }
    USUAL_LIMIT
}

// The number that an attribute says, if it is the one that says it.
fn said_by(attribute: &Attribute) -> Option<usize>
    ensures { result ≡ said_by attribute.now }
{
    if attribute.name.as_str() == LIMIT_NAME {
        number_said(&attribute.value)
    } else {
        None
    }
}

// The number that a value says: the one in a list, as the compiler writes it.
fn number_said(value: &Const) -> Option<usize>
    ensures { result ≡ number_said (constant_of value.now) }
{
    match value {
        Const::List(items) => number_alone(items.0.as_slice()),
        _ => None,
    }
}

// The number of an item that is alone.
fn number_alone(items: &[Const]) -> Option<usize>
    ensures { result ≡ number_alone (constants_of (map constant_of items.now)) }
{
    match items {
        [item] => number_of(item),
        _ => None,
    }
}

// The number that an integer is.
fn number_of(item: &Const) -> Option<usize>
    ensures { result ≡ number_of (constant_of item.now) }
{
    match item {
        Const::Integer(number) => number_allowed(*number),
        _ => None,
    }
}

// A number that can be said.
fn number_allowed(number: i64) -> Option<usize>
    ensures { result ≡ number_allowed number }
{
    if number < 1 || number > MOST_ALLOWED {
        return None;
    }
    Some(number as usize)
}
