// The constants of attributes (Core Erlang 1.0.3, "Constant literals"). Contracts see them as the data of
// specs/Syntax.antt. The depth of a constant that was read is at most 1,000 levels; its lists have any
// length.
use std::marker::Model;
use term_core::Atom;

/// A constant, the value of an attribute (Core Erlang 1.0.3, "Constant literals").
#[derive(Drop)]
#[cycle(constant)]
pub enum Const {
    /// An integer of 64 bits.
    Integer(i64),
    /// `$c`: one character.
    Character(char),
    /// `"c.."`: a string, by its characters.
    Text(Vec<char>),
    /// An atom.
    Atom(Atom),
    /// `{c, ..}`: a tuple.
    Tuple(Consts),
    /// `[c, ..]`: a list of any length, with nil after it.
    List(Consts),
    /// `[c, .. | c]`: items in front of a constant.
    Onto(Box<OntoConst>),
}

/// Constants in order. Contracts see them as a list.
#[cycle(constant)]
pub struct Consts(pub Vec<Const>);

// Dropped by a call, so that no crate above proves again how.
impl Drop for Consts {
    #[cycle(constant_drop)]
    fn drop(self) {
        let Consts(_) = self;
    }
}

impl Model for Consts {
    ghost use Rattle.std.specs.Prelude.{List, map};
    ghost use Rattle.std.specs.Coded.{coded_list};
    ghost use Rattle.core_tree.specs.Syntax.{Constant};
    ghost use Rattle.core_tree.specs.inside.Sizes.{size_of_constant_list};
    ghost use Rattle.core_tree.specs.inside.SyntaxCodes.{coded_constant};

    ghost Value = { List Constant };

    ghost coded = { coded_list coded_constant };

    ghost use Rattle.core_tree.specs.Tree.{constant_of};

    ghost view = { λ a. map constant_of a.0.items };

    ghost size = { size_of_constant_list };

    ghost use Rattle.std.proofs.Common.{arith};
    ghost use Rattle.core_tree.specs.inside.Depth.{most_constant_le};

    ghost size_decreases = { λ a h. Prim.omega (arith, most_constant_le a.0.items) };
}

/// The first items of a list and the constant after them. Contracts see it as the pair of both.
#[cycle(constant)]
pub struct OntoConst {
    /// The items in front, at least one where they were read.
    pub items: Consts,
    /// What follows them.
    pub tail: Const,
}

// Dropped by a call, so that no crate above proves again how.
impl Drop for OntoConst {
    #[cycle(constant_drop)]
    fn drop(self) {
        let OntoConst { items: _, tail: _ } = self;
    }
}

impl Model for OntoConst {
    ghost use Rattle.std.specs.Prelude.{List, ◌+◌};
    ghost use Rattle.std.specs.Coded.{coded×, coded_list};
    ghost use Rattle.core_tree.specs.Syntax.{Constant};
    ghost use Rattle.core_tree.specs.inside.Sizes.{size_of_constant, size_of_constant_list};
    ghost use Rattle.core_tree.specs.inside.SyntaxCodes.{coded_constant};

    ghost Value = { List Constant × Constant };

    ghost coded = { coded× (coded_list coded_constant) coded_constant };

    ghost use Rattle.core_tree.specs.Tree.{constant_of};

    ghost view = { λ a. (a.items, constant_of a.tail) };

    ghost size = { λ v. 1 + (size_of_constant_list v.0 + size_of_constant v.1) };

    ghost use Rattle.std.proofs.Common.{arith};
    ghost use Rattle.core_tree.specs.inside.Depth.{deep_constant_le};

    ghost size_decreases = { λ a h. Prim.omega (arith, deep_constant_le a.tail) };
}
