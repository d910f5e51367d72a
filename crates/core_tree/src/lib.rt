// The tree of a module of Core Erlang 1.0.3, and when two modules are the same.
#![tactic(auto)]

pub mod constant;
pub mod module;
pub mod pattern;
mod sameness;
pub mod tree;
pub mod variable;

pub use constant::{Const, Consts, OntoConst};
pub use core_calls::{CALLS, CallKind, PURE_CALLS, PureCall};
pub use module::{Attribute, Definition, FunctionName, Module, NamedFunction};
pub use pattern::{Alias, OntoPattern, Pattern, Patterns};
pub use tree::{
    Call, Callee, Case, Catch, Clause, Clauses, Do, Expr, Exprs, Let, Onto, Receive, Try,
};
pub use variable::Variable;
