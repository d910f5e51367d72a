// From the tokens of Core Erlang 1.0.3 to a module, and from the bytes of a text to its module.
#![tactic(auto)]

mod grammar;
pub mod laws;
pub mod module_text;
pub mod module_tokens;

pub use core_tokens::{ReadFault, check_text, tokens};
pub use core_tree::{
    Alias, Attribute, Call, CallKind, Callee, Case, Catch, Clause, Clauses, Const, Consts,
    Definition, Do, Expr, Exprs, FunctionName, Let, Module, NamedFunction, Onto, OntoConst,
    OntoPattern, Pattern, Patterns, PureCall, Try, Variable,
};
pub use module_text::read_module;
pub use module_tokens::read_tokens;
