// Patterns (Core Erlang 1.0.3, "Patterns"). Contracts see them as the data of specs/Syntax.antt. The depth
// of a pattern that was read is at most 1,000 levels; its lists have any length.
use crate::variable::Variable;
use std::marker::Model;
use term_core::Atom;

/// A pattern, which a value matches or not (Core Erlang 1.0.3, "Patterns").
#[derive(Drop)]
#[cycle(pattern)]
pub enum Pattern {
    /// An integer of 64 bits.
    Integer(i64),
    /// `$c`: one character, which stands for its number.
    Character(char),
    /// `"c.."`: a string, by its characters, which stands for the list of their numbers.
    Text(Vec<char>),
    /// An atom.
    Atom(Atom),
    /// A variable, which any value matches.
    Variable(Variable),
    /// `{p, ..}`: a tuple of as many parts.
    Tuple(Patterns),
    /// `[p, ..]`: a list of as many items, with nil after it.
    List(Patterns),
    /// `[p, .. | p]`: items in front of what the last pattern matches.
    Onto(Box<OntoPattern>),
    /// `V = p`: a pattern, and a variable for the whole of what matches it.
    Alias(Box<Alias>),
}

/// Patterns in order. Contracts see them as a list.
#[cycle(pattern)]
pub struct Patterns(pub Vec<Pattern>);

// Dropped by a call, so that no crate above proves again how.
impl Drop for Patterns {
    #[cycle(pattern_drop)]
    fn drop(self) {
        let Patterns(_) = self;
    }
}

impl Model for Patterns {
    ghost use Rattle.std.specs.Prelude.{List, map};
    ghost use Rattle.std.specs.Coded.{coded_list};
    ghost use Rattle.core_tree.specs.Syntax.{Pattern as Shape};
    ghost use Rattle.core_tree.specs.inside.Sizes.{size_of_pattern_list};
    ghost use Rattle.core_tree.specs.inside.SyntaxCodes.{coded_pattern};

    ghost Value = { List Shape };

    ghost coded = { coded_list coded_pattern };

    ghost use Rattle.core_tree.specs.Tree.{pattern_of};

    ghost view = { λ a. map pattern_of a.0.items };

    ghost size = { size_of_pattern_list };

    ghost use Rattle.std.proofs.Common.{arith};
    ghost use Rattle.core_tree.specs.inside.Depth.{most_pattern_le};

    ghost size_decreases = { λ a h. Prim.omega (arith, most_pattern_le a.0.items) };
}

/// The patterns of the first items of a list and that of what follows them. Contracts see it as the pair of both.
#[cycle(pattern)]
pub struct OntoPattern {
    /// The patterns of the first items, at least one where they were read.
    pub items: Patterns,
    /// The pattern of what follows them.
    pub tail: Pattern,
}

// Dropped by a call, so that no crate above proves again how.
impl Drop for OntoPattern {
    #[cycle(pattern_drop)]
    fn drop(self) {
        let OntoPattern { items: _, tail: _ } = self;
    }
}

impl Model for OntoPattern {
    ghost use Rattle.std.specs.Prelude.{List, ◌+◌};
    ghost use Rattle.std.specs.Coded.{coded×, coded_list};
    ghost use Rattle.core_tree.specs.Syntax.{Pattern as Shape};
    ghost use Rattle.core_tree.specs.inside.Sizes.{size_of_pattern, size_of_pattern_list};
    ghost use Rattle.core_tree.specs.inside.SyntaxCodes.{coded_pattern};

    ghost Value = { List Shape × Shape };

    ghost coded = { coded× (coded_list coded_pattern) coded_pattern };

    ghost use Rattle.core_tree.specs.Tree.{pattern_of};

    ghost view = { λ a. (a.items, pattern_of a.tail) };

    ghost size = { λ v. 1 + (size_of_pattern_list v.0 + size_of_pattern v.1) };

    ghost use Rattle.std.proofs.Common.{arith};
    ghost use Rattle.core_tree.specs.inside.Depth.{deep_pattern_le};

    ghost size_decreases = { λ a h. Prim.omega (arith, deep_pattern_le a.tail) };
}

/// A variable that names what the whole of a pattern matches. Contracts see it as the pair of both.
#[cycle(pattern)]
pub struct Alias {
    /// The variable.
    pub variable: Variable,
    /// The pattern.
    pub whole: Pattern,
}

// Dropped by a call, so that no crate above proves again how.
impl Drop for Alias {
    #[cycle(pattern_drop)]
    fn drop(self) {
        let Alias {
            variable: _,
            whole: _,
        } = self;
    }
}

impl Model for Alias {
    ghost use Rattle.std.specs.Prelude.{◌+◌};
    ghost use Rattle.std.specs.Coded.{coded×};
    ghost use Rattle.core_tree.specs.Syntax.{Mention, Pattern as Shape};
    ghost use Rattle.core_tree.specs.inside.Sizes.{size_of_pattern};
    ghost use Rattle.core_tree.specs.inside.SyntaxCodes.{coded_mention, coded_pattern};

    ghost Value = { Mention × Shape };

    ghost coded = { coded× coded_mention coded_pattern };

    ghost use Rattle.core_tree.specs.Tree.{pattern_of};

    ghost view = { λ a. (a.variable, pattern_of a.whole) };

    ghost size = { λ v. size_of_pattern v.1 };

    ghost use Rattle.std.proofs.Common.{arith};
    ghost use Rattle.core_tree.specs.inside.Depth.{deep_pattern_le};

    ghost size_decreases = { λ a h. Prim.omega (arith, deep_pattern_le a.whole) };
}
