// Variables (Core Erlang 1.0.3, "Variable names").
use std::marker::Model;

/// A variable at its place (Core Erlang 1.0.3, "Variable names").
pub struct Variable {
    /// The place of its first byte in the text.
    pub at: usize,
    /// Its name, which is ASCII.
    pub name: Vec<u8>,
}

// Dropped by a call, so that no crate above proves again how.
impl Drop for Variable {
    fn drop(self) {
        let Variable { at: _, name: _ } = self;
    }
}

impl Model for Variable {
    ghost use Rattle.core_tree.specs.Syntax.{Mention};
    ghost use Rattle.core_tree.specs.inside.SyntaxCodes.{coded_mention};

    ghost Value = { Mention };

    ghost coded = { coded_mention };

    ghost view = { λ v. record { at = v.at; name = v.name.items } };
}
