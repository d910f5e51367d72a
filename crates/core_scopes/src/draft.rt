// A module as the grammar reads it: nothing is known yet of its scopes.
use core_tree::{Attribute, Definition, FunctionName, NamedFunction};
use term_core::Atom;

/// A definition with its name.
#[derive(Drop)]
pub struct Defined {
    /// The name of the function.
    pub function: FunctionName,
    /// What it is defined as.
    pub definition: Definition,
}

/// What comes before the definitions of a module.
#[derive(Drop)]
pub struct Front {
    /// The name of the module.
    pub name: Atom,
    /// The functions that other modules may call, in the order of the text. Whether they are defined is not
    /// known yet.
    pub exports: Vec<NamedFunction>,
    /// The attributes in the order of the text.
    pub attributes: Vec<Attribute>,
}

/// A module as the grammar reads it (Core Erlang 1.0.3, "Module definitions"): nothing is known yet of its
/// scopes, nor whether a function is defined once.
#[derive(Drop)]
pub struct Draft {
    /// What comes before the definitions.
    pub front: Front,
    /// The definitions in the order of the text.
    pub definitions: Vec<Defined>,
    /// The place of the last `end`.
    pub end: usize,
}
