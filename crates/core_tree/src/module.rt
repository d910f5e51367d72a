// Modules: what a text that is accepted says (Core Erlang 1.0.3, "Module definitions").
use crate::constant::Const;
use crate::tree::Expr;
use crate::variable::Variable;
use indexmap::IndexMap;
use std::hash::{Hash, Hasher};
use std::marker::Model;
use term_core::Atom;

/// The name of a function: an atom and the number of its arguments, 0 to 255.
pub struct FunctionName {
    /// The name without the number of arguments.
    pub name: Atom,
    /// The number of arguments.
    pub arity: u8,
}

// Dropped by a call, so that no crate above proves again how.
impl Drop for FunctionName {
    fn drop(self) {
        let FunctionName { name: _, arity: _ } = self;
    }
}

impl Model for FunctionName {
    ghost use Rattle.core_tree.specs.Syntax.{Function};
    ghost use Rattle.core_tree.specs.inside.SyntaxCodes.{coded_function};

    ghost Value = { Function };

    ghost coded = { coded_function };

    ghost view = { λ f. record { name = f.name; arity = f.arity } };
}

impl PartialEq for FunctionName {
    ghost use Rattle.std.specs.Prelude.{◌==◌};
    ghost use Rattle.std.proofs.Common.{rules};
    ghost use Rattle.std.specs.Cmp.Rules.{comparing};
    ghost use Rattle.core_tree.specs.Functions.{same_function};

    ghost eq = { same_function };

    ghost laws = { Prim.search (comparing, rules) };

    fn eq(&self, other: &FunctionName) -> bool {
        self.name == other.name && self.arity == other.arity
    }
}

impl Eq for FunctionName {
    ghost use Rattle.std.proofs.Common.{rules};
    ghost use Rattle.std.specs.Cmp.Rules.{comparing};

    ghost laws = { Prim.search (comparing, rules) };
}

impl Hash for FunctionName {
    ghost use Rattle.std.specs.Prelude.{◌++◌};
    ghost use Rattle.std.specs.Hash as fed;
    ghost use Rattle.std.proofs.Common.{rules};
    ghost use Rattle.std.specs.Cmp.Rules.{hashing};

    ghost hash_input = { λ f. fed.str f.name ++ fed.u8 f.arity };

    ghost respects_eq = { Prim.search (hashing, rules) };

    fn hash<H: Hasher>(&self, state: &mut H) {
        self.name.hash(state);
        self.arity.hash(state);
    }
}

/// A function's name at its place.
#[derive(Drop)]
pub struct NamedFunction {
    /// The place of its first byte in the text.
    pub at: usize,
    /// The name.
    pub function: FunctionName,
}

impl Model for NamedFunction {
    ghost use Rattle.core_tree.specs.Syntax.{NamedAt};
    ghost use Rattle.core_tree.specs.inside.SyntaxCodes.{coded_named};

    ghost Value = { NamedAt };

    ghost coded = { coded_named };

    ghost view = { λ e. record { at = e.at; function = e.function } };
}

/// An attribute. One has a meaning to processes: `explore_applications` (docs/LANGUAGE.md, "Evaluation").
pub struct Attribute {
    /// The name of the attribute.
    pub name: Atom,
    /// What the attribute is set to.
    pub value: Const,
}

// Dropped by a call, so that no crate above proves again how.
impl Drop for Attribute {
    fn drop(self) {
        let Attribute { name: _, value: _ } = self;
    }
}

impl Model for Attribute {
    ghost use Rattle.core_tree.specs.Syntax.{AttributeTree};
    ghost use Rattle.core_tree.specs.inside.SyntaxCodes.{coded_attribute};
    ghost use Rattle.core_tree.specs.Tree.{constant_of};

    ghost Value = { AttributeTree };

    ghost coded = { coded_attribute };

    ghost view = { λ a. record { name = a.name; value = constant_of a.value } };
}

/// What a function's name is defined as: its parameters, as many as the name says, and its body.
pub struct Definition {
    /// The place of the first byte of the name.
    pub at: usize,
    /// The parameters in order.
    pub parameters: Vec<Variable>,
    /// What a call of the function evaluates.
    pub body: Expr,
}

// Dropped by a call, so that no crate above proves again how.
impl Drop for Definition {
    fn drop(self) {
        let Definition {
            at: _,
            parameters: _,
            body: _,
        } = self;
    }
}

/// A module (Core Erlang 1.0.3, "Module definitions").
pub struct Module {
    /// The name of the module.
    pub name: Atom,
    /// The functions that other modules may call, in the order of the text.
    pub exports: Vec<NamedFunction>,
    /// The attributes in the order of the text.
    pub attributes: Vec<Attribute>,
    /// The definitions by name, in the order of the text.
    pub definitions: IndexMap<FunctionName, Definition>,
}

// Dropped by a call, so that no crate above proves again how.
impl Drop for Module {
    fn drop(self) {
        let Module {
            name: _,
            exports: _,
            attributes: _,
            definitions: _,
        } = self;
    }
}

impl Model for Module {
    ghost use Rattle.std.specs.Prelude.{map};
    ghost use Rattle.core_tree.specs.Syntax.{ModuleTree};
    ghost use Rattle.core_tree.specs.inside.SyntaxCodes.{coded_module};
    ghost use Rattle.core_tree.specs.Definitions.{definition_of};

    ghost Value = { ModuleTree };

    ghost coded = { coded_module };

    ghost view = { λ m. record {
      name = m.name;
      exports = m.exports.items;
      attributes = m.attributes.items;
      definitions = map definition_of m.definitions.entries;
    } };
}
