// The expressions of a module (Core Erlang 1.0.3, "Expressions"). Contracts see them as the data of
// specs/Syntax.antt. The depth of an expression that was read is at most 1,000 levels; its lists have any
// length.
use crate::module::{FunctionName, NamedFunction};
use crate::pattern::Patterns;
use crate::variable::Variable;
use core_calls::{CallKind, PureCall};
use std::marker::Model;
use term_core::Atom;

/// What a `call`, an `apply` or a `primop` applies to its arguments. Contracts see it as the data of
/// specs/Syntax.antt.
#[derive(Drop)]
pub enum Callee {
    /// A call that the explored world serves.
    World(CallKind),
    /// A call that the process answers by itself.
    Pure(PureCall),
    /// An exported function of this module, by `call` and its name.
    Exported(FunctionName),
    /// A defined function of this module, by `apply`, and the place of its name.
    Defined(NamedFunction),
    /// `primop 'match_fail'(e)`: raises an error.
    MatchFail,
    /// `primop 'raise'(e, e)`: raises what was caught before.
    Raise,
}

/// An expression (Core Erlang 1.0.3, "Expressions").
#[derive(Drop)]
#[cycle(expr)]
pub enum Expr {
    /// An integer of 64 bits.
    Integer(i64),
    /// `$c`: one character, which stands for its number.
    Character(char),
    /// `"c.."`: a string, by its characters, which stands for the list of their numbers.
    Text(Vec<char>),
    /// An atom.
    Atom(Atom),
    /// A variable, which stands for its value.
    Variable(Variable),
    /// `{e, ..}`: a tuple.
    Tuple(Exprs),
    /// `[e, ..]`: a list of any length, with nil after it.
    List(Exprs),
    /// `[e, .. | e]`: items in front of a value.
    Onto(Box<Onto>),
    /// `<e, ..>`: several values, or none, at once.
    Values(Exprs),
    /// `let <V, ..> = e in e`: binds variables to the values of an expression.
    Let(Box<Let>),
    /// `case e of clause .. end`: goes on by the first clause that the values match.
    Case(Box<Case>),
    /// `do e e`: evaluates the first for its effect, and then the second.
    Do(Box<Do>),
    /// `call 'module':'function'(e, ..)`, `apply 'f'/n(e, ..)` or `primop 'name'(e, ..)`: applies something
    /// to arguments.
    Call(Call),
    /// `try e of <V, ..> -> e catch <V, ..> -> e`: handles what an expression raises.
    Try(Box<Try>),
    /// `catch e`: makes a value of what an expression raises.
    Catch(Box<Catch>),
    /// `receive clause .. after e -> e`: waits for a message that a clause takes, or for the timeout.
    Receive(Box<Receive>),
}

/// Expressions in order. Contracts see them as a list.
#[cycle(expr)]
pub struct Exprs(pub Vec<Expr>);

// Dropped by a call, so that no crate above proves again how.
impl Drop for Exprs {
    #[cycle(expr_drop)]
    fn drop(self) {
        let Exprs(_) = self;
    }
}

impl Model for Exprs {
    ghost use Rattle.std.specs.Prelude.{List, map};
    ghost use Rattle.std.specs.Coded.{coded_list};
    ghost use Rattle.core_tree.specs.Syntax.{Tree};
    ghost use Rattle.core_tree.specs.inside.Sizes.{size_of_list};
    ghost use Rattle.core_tree.specs.inside.SyntaxCodes.{coded_tree};

    ghost Value = { List Tree };

    ghost coded = { coded_list coded_tree };

    ghost use Rattle.core_tree.specs.Tree.{tree_of};

    ghost view = { λ a. map tree_of a.0.items };

    ghost size = { size_of_list };

    ghost use Rattle.std.proofs.Common.{arith};
    ghost use Rattle.core_tree.specs.inside.Depth.{most_le};

    ghost size_decreases = { λ a h. Prim.omega (arith, most_le a.0.items) };
}

/// The first items of a list and what follows them. Contracts see it as the pair of both.
#[cycle(expr)]
pub struct Onto {
    /// The first items, at least one where they were read.
    pub items: Exprs,
    /// What follows them.
    pub tail: Expr,
}

// Dropped by a call, so that no crate above proves again how.
impl Drop for Onto {
    #[cycle(expr_drop)]
    fn drop(self) {
        let Onto { items: _, tail: _ } = self;
    }
}

impl Model for Onto {
    ghost use Rattle.std.specs.Prelude.{List, ◌+◌};
    ghost use Rattle.std.specs.Coded.{coded×, coded_list};
    ghost use Rattle.core_tree.specs.Syntax.{Tree};
    ghost use Rattle.core_tree.specs.inside.Sizes.{size_of, size_of_list};
    ghost use Rattle.core_tree.specs.inside.SyntaxCodes.{coded_tree};

    ghost Value = { List Tree × Tree };

    ghost coded = { coded× (coded_list coded_tree) coded_tree };

    ghost use Rattle.core_tree.specs.Tree.{tree_of};

    ghost view = { λ a. (a.items, tree_of a.tail) };

    ghost size = { λ v. 1 + (size_of_list v.0 + size_of v.1) };

    ghost use Rattle.std.proofs.Common.{arith};
    ghost use Rattle.core_tree.specs.inside.Depth.{deep_le};

    ghost size_decreases = { λ a h. Prim.omega (arith, deep_le a.tail) };
}

/// The variables of a `let`, the expression whose values they take, and the body. Contracts see it as
/// the tuple of the three.
#[cycle(expr)]
pub struct Let {
    /// The variables, as many as there are values.
    pub variables: Vec<Variable>,
    /// The expression that gives the values.
    pub value: Expr,
    /// The expression in which the variables are bound.
    pub body: Expr,
}

// Dropped by a call, so that no crate above proves again how.
impl Drop for Let {
    #[cycle(expr_drop)]
    fn drop(self) {
        let Let {
            variables: _,
            value: _,
            body: _,
        } = self;
    }
}

impl Model for Let {
    ghost use Rattle.std.specs.Prelude.{List, ◌+◌, refl};
    ghost use Rattle.std.specs.Coded.{coded×, coded_list, code_by};
    ghost use Rattle.core_tree.specs.Syntax.{Mention, Tree};
    ghost use Rattle.core_tree.specs.inside.Sizes.{size_of};
    ghost use Rattle.core_tree.specs.inside.SyntaxCodes.{coded_mention, coded_tree};

    ghost Value = { List Mention × Tree × Tree };

    ghost coded = { code_by (List Mention × (Tree × Tree)) (coded× (coded_list coded_mention) (coded× coded_tree coded_tree))
        (λ v. (v.0, (v.1, v.2))) (λ p. (p.0, p.1.0, p.1.1)) (λ _. refl) };

    ghost use Rattle.core_tree.specs.Tree.{tree_of};

    ghost view = { λ a. (a.variables.items, tree_of a.value, tree_of a.body) };

    ghost size = { λ v. size_of v.1 + size_of v.2 };

    ghost use Rattle.std.proofs.Common.{arith};
    ghost use Rattle.core_tree.specs.inside.Depth.{deep_le};

    ghost size_decreases = { λ a h. Prim.omega (arith, deep_le a.value, deep_le a.body) };
}

/// Two expressions, the first of which is evaluated for its effect. Contracts see it as their pair.
#[cycle(expr)]
pub struct Do {
    /// The expression whose value is dropped.
    pub first: Expr,
    /// The expression whose values are those of the whole.
    pub second: Expr,
}

// Dropped by a call, so that no crate above proves again how.
impl Drop for Do {
    #[cycle(expr_drop)]
    fn drop(self) {
        let Do {
            first: _,
            second: _,
        } = self;
    }
}

impl Model for Do {
    ghost use Rattle.std.specs.Prelude.{◌+◌};
    ghost use Rattle.std.specs.Coded.{coded×};
    ghost use Rattle.core_tree.specs.Syntax.{Tree};
    ghost use Rattle.core_tree.specs.inside.Sizes.{size_of};
    ghost use Rattle.core_tree.specs.inside.SyntaxCodes.{coded_tree};

    ghost Value = { Tree × Tree };

    ghost coded = { coded× coded_tree coded_tree };

    ghost use Rattle.core_tree.specs.Tree.{tree_of};

    ghost view = { λ a. (tree_of a.first, tree_of a.second) };

    ghost size = { λ v. size_of v.0 + size_of v.1 };

    ghost use Rattle.std.proofs.Common.{arith};
    ghost use Rattle.core_tree.specs.inside.Depth.{deep_le};

    ghost size_decreases = { λ a h. Prim.omega (arith, deep_le a.first, deep_le a.second) };
}

/// A call, an `apply` or a `primop`: the place of its word, what it applies, and as many arguments as that
/// has. Contracts see it as the tuple of the three.
#[cycle(expr)]
pub struct Call {
    /// The place of the first byte of its word.
    pub at: usize,
    /// What is applied.
    pub callee: Callee,
    /// The arguments in order.
    pub arguments: Exprs,
}

// Dropped by a call, so that no crate above proves again how.
impl Drop for Call {
    #[cycle(expr_drop)]
    fn drop(self) {
        let Call {
            at: _,
            callee: _,
            arguments: _,
        } = self;
    }
}

impl Model for Call {
    ghost use Rattle.std.specs.Prelude.{ℕ, List, ◌+◌, refl};
    ghost use Rattle.std.specs.Coded.{coded×, coded_list, coded_ℕ, code_by};
    ghost use Rattle.core_tree.specs.Syntax.{Callee as Target, Tree};
    ghost use Rattle.core_tree.specs.inside.Sizes.{size_of_list};
    ghost use Rattle.core_tree.specs.inside.SyntaxCodes.{coded_callee, coded_tree};

    ghost Value = { ℕ × Target × List Tree };

    ghost coded = { code_by (ℕ × (Target × List Tree)) (coded× coded_ℕ (coded× coded_callee (coded_list coded_tree)))
        (λ v. (v.0, (v.1, v.2))) (λ p. (p.0, p.1.0, p.1.1)) (λ _. refl) };

    ghost use Rattle.core_tree.specs.Tree.{callee_of};

    ghost view = { λ a. (a.at, callee_of a.callee, a.arguments) };

    ghost size = { λ v. 1 + size_of_list v.2 };

    ghost use Rattle.std.proofs.Common.{arith};

    ghost size_decreases = { λ a h. Prim.omega arith };
}

/// A clause of a `case`, with as many patterns as there are values, or of a `receive`, with one: its patterns, a
/// guard and a body. Contracts see it as the
/// record of the three.
#[cycle(expr)]
pub struct Clause {
    /// The patterns, one for each value.
    pub patterns: Patterns,
    /// The guard, which has to give `'true'` for the clause to be taken.
    pub guard: Expr,
    /// What is evaluated where the clause is taken.
    pub body: Expr,
}

// Dropped by a call, so that no crate above proves again how.
impl Drop for Clause {
    #[cycle(expr_drop)]
    fn drop(self) {
        let Clause {
            patterns: _,
            guard: _,
            body: _,
        } = self;
    }
}

impl Model for Clause {
    ghost use Rattle.std.specs.Prelude.{◌+◌};
    ghost use Rattle.core_tree.specs.Syntax.{ClauseTree};
    ghost use Rattle.core_tree.specs.inside.Sizes.{size_of};
    ghost use Rattle.core_tree.specs.inside.SyntaxCodes.{coded_clause};

    ghost Value = { ClauseTree };

    ghost coded = { coded_clause };

    ghost use Rattle.core_tree.specs.Tree.{tree_of};

    ghost view = { λ a. record { patterns = a.patterns; guard = tree_of a.guard; body = tree_of a.body } };

    ghost size = { λ v. size_of v.guard + size_of v.body };

    ghost use Rattle.std.proofs.Common.{arith};
    ghost use Rattle.core_tree.specs.inside.Depth.{deep_le};

    ghost size_decreases = { λ a h. Prim.omega (arith, deep_le a.guard, deep_le a.body) };
}

/// Clauses in order, at least one where they were read. Contracts see them as a list.
#[cycle(expr)]
pub struct Clauses(pub Vec<Clause>);

// Dropped by a call, so that no crate above proves again how.
impl Drop for Clauses {
    #[cycle(expr_drop)]
    fn drop(self) {
        let Clauses(_) = self;
    }
}

impl Model for Clauses {
    ghost use Rattle.std.specs.Prelude.{List};
    ghost use Rattle.std.specs.Coded.{coded_list};
    ghost use Rattle.core_tree.specs.Syntax.{ClauseTree};
    ghost use Rattle.core_tree.specs.inside.Sizes.{size_of_clause_list};
    ghost use Rattle.core_tree.specs.inside.SyntaxCodes.{coded_clause};

    ghost Value = { List ClauseTree };

    ghost coded = { coded_list coded_clause };

    ghost view = { λ a. a.0.items };

    ghost size = { size_of_clause_list };

    ghost use Rattle.std.proofs.Common.{arith};
    ghost use Rattle.core_tree.specs.inside.Depth.{most_clause_le};

    ghost size_decreases = { λ a h. Prim.omega (arith, most_clause_le a.0.items) };
}

/// A choice by clauses: the place of its word `case`, the expression whose values are matched, and the
/// clauses. Contracts see it as the tuple of the three.
#[cycle(expr)]
pub struct Case {
    /// The place of the first byte of its word.
    pub at: usize,
    /// The expression that gives the values.
    pub value: Expr,
    /// The clauses, which are tried in order.
    pub clauses: Clauses,
}

// Dropped by a call, so that no crate above proves again how.
impl Drop for Case {
    #[cycle(expr_drop)]
    fn drop(self) {
        let Case {
            at: _,
            value: _,
            clauses: _,
        } = self;
    }
}

impl Model for Case {
    ghost use Rattle.std.specs.Prelude.{ℕ, List, ◌+◌, refl};
    ghost use Rattle.std.specs.Coded.{coded×, coded_list, coded_ℕ, code_by};
    ghost use Rattle.core_tree.specs.Syntax.{ClauseTree, Tree};
    ghost use Rattle.core_tree.specs.inside.Sizes.{size_of, size_of_clause_list};
    ghost use Rattle.core_tree.specs.inside.SyntaxCodes.{coded_clause, coded_tree};

    ghost Value = { ℕ × Tree × List ClauseTree };

    ghost coded = { code_by (ℕ × (Tree × List ClauseTree)) (coded× coded_ℕ (coded× coded_tree (coded_list coded_clause)))
        (λ v. (v.0, (v.1, v.2))) (λ p. (p.0, p.1.0, p.1.1)) (λ _. refl) };

    ghost use Rattle.core_tree.specs.Tree.{tree_of};

    ghost view = { λ a. (a.at, tree_of a.value, a.clauses) };

    ghost size = { λ v. 1 + (size_of v.1 + size_of_clause_list v.2) };

    ghost use Rattle.std.proofs.Common.{arith};
    ghost use Rattle.core_tree.specs.inside.Depth.{deep_le};

    ghost size_decreases = { λ a h. Prim.omega (arith, deep_le a.value) };
}

/// An expression whose exceptions are handled: the place of its word `try`; the expression, the variables of
/// its values and what is evaluated with them; the two or three variables of an exception and its handler.
/// Contracts see it as the tuple of the six.
#[cycle(expr)]
pub struct Try {
    /// The place of the first byte of its word.
    pub at: usize,
    /// The expression whose exceptions are handled.
    pub value: Expr,
    /// The variables of its values.
    pub variables: Vec<Variable>,
    /// What is evaluated with its values; what this raises is not handled here.
    pub body: Expr,
    /// The variables of an exception, two or three.
    pub caught: Vec<Variable>,
    /// What is evaluated with an exception.
    pub handler: Expr,
}

// Dropped by a call, so that no crate above proves again how.
impl Drop for Try {
    #[cycle(expr_drop)]
    fn drop(self) {
        let Try {
            at: _,
            value: _,
            variables: _,
            body: _,
            caught: _,
            handler: _,
        } = self;
    }
}

impl Model for Try {
    ghost use Rattle.std.specs.Prelude.{ℕ, List, ◌+◌, refl};
    ghost use Rattle.std.specs.Coded.{coded×, coded_list, coded_ℕ, code_by};
    ghost use Rattle.core_tree.specs.Syntax.{Mention, Tree};
    ghost use Rattle.core_tree.specs.inside.Sizes.{size_of};
    ghost use Rattle.core_tree.specs.inside.SyntaxCodes.{coded_mention, coded_tree};

    ghost Value = { ℕ × Tree × List Mention × Tree × List Mention × Tree };

    ghost coded = { code_by (ℕ × (Tree × (List Mention × (Tree × (List Mention × Tree)))))
        (coded× coded_ℕ (coded× coded_tree (coded× (coded_list coded_mention) (coded× coded_tree (coded× (coded_list coded_mention) coded_tree)))))
        (λ v. (v.0, (v.1, (v.2, (v.3, (v.4, v.5)))))) (λ p. (p.0, p.1.0, p.1.1.0, p.1.1.1.0, p.1.1.1.1.0, p.1.1.1.1.1)) (λ _. refl) };

    ghost use Rattle.core_tree.specs.Tree.{tree_of};

    ghost view = { λ a. (a.at, tree_of a.value, a.variables.items, tree_of a.body, a.caught.items, tree_of a.handler) };

    ghost size = { λ v. size_of v.1 + (size_of v.3 + size_of v.5) };

    ghost use Rattle.std.proofs.Common.{arith};
    ghost use Rattle.core_tree.specs.inside.Depth.{deep_le};

    ghost size_decreases = { λ a h. Prim.omega (arith, deep_le a.value, deep_le a.body, deep_le a.handler) };
}

/// An expression whose exceptions become its value: the place of its word `catch`, and the expression.
/// Contracts see it as the pair of both.
#[cycle(expr)]
pub struct Catch {
    /// The place of the first byte of its word.
    pub at: usize,
    /// The expression.
    pub value: Expr,
}

// Dropped by a call, so that no crate above proves again how.
impl Drop for Catch {
    #[cycle(expr_drop)]
    fn drop(self) {
        let Catch { at: _, value: _ } = self;
    }
}

impl Model for Catch {
    ghost use Rattle.std.specs.Prelude.{ℕ};
    ghost use Rattle.std.specs.Coded.{coded×, coded_ℕ};
    ghost use Rattle.core_tree.specs.Syntax.{Tree};
    ghost use Rattle.core_tree.specs.inside.Sizes.{size_of};
    ghost use Rattle.core_tree.specs.inside.SyntaxCodes.{coded_tree};

    ghost Value = { ℕ × Tree };

    ghost coded = { coded× coded_ℕ coded_tree };

    ghost use Rattle.core_tree.specs.Tree.{tree_of};

    ghost view = { λ a. (a.at, tree_of a.value) };

    ghost size = { λ v. size_of v.1 };

    ghost use Rattle.std.proofs.Common.{arith};
    ghost use Rattle.core_tree.specs.inside.Depth.{deep_le};

    ghost size_decreases = { λ a h. Prim.omega (arith, deep_le a.value) };
}

/// A receive: the place of its word `receive`, its clauses, its timeout, and what is evaluated where no message
/// came in time (Core Erlang 1.0.3, "Receive"). Contracts see it as the tuple of the four.
#[cycle(expr)]
pub struct Receive {
    /// The place of the first byte of its word.
    pub at: usize,
    /// The clauses, none or more, which are tried in order; each has one pattern.
    pub clauses: Clauses,
    /// The expression that gives the timeout, in milliseconds or `'infinity'`.
    pub timeout: Expr,
    /// What is evaluated where no message came in time.
    pub action: Expr,
}

// Dropped by a call, so that no crate above proves again how.
impl Drop for Receive {
    #[cycle(expr_drop)]
    fn drop(self) {
        let Receive {
            at: _,
            clauses: _,
            timeout: _,
            action: _,
        } = self;
    }
}

impl Model for Receive {
    ghost use Rattle.std.specs.Prelude.{ℕ, List, ◌+◌, refl};
    ghost use Rattle.std.specs.Coded.{coded×, coded_list, coded_ℕ, code_by};
    ghost use Rattle.core_tree.specs.Syntax.{ClauseTree, Tree};
    ghost use Rattle.core_tree.specs.inside.Sizes.{size_of, size_of_clause_list};
    ghost use Rattle.core_tree.specs.inside.SyntaxCodes.{coded_clause, coded_tree};

    ghost Value = { ℕ × List ClauseTree × Tree × Tree };

    ghost coded = { code_by (ℕ × (List ClauseTree × (Tree × Tree))) (coded× coded_ℕ (coded× (coded_list coded_clause) (coded× coded_tree coded_tree)))
        (λ v. (v.0, (v.1, (v.2, v.3)))) (λ p. (p.0, p.1.0, p.1.1.0, p.1.1.1)) (λ _. refl) };

    ghost use Rattle.core_tree.specs.Tree.{tree_of};

    ghost view = { λ a. (a.at, a.clauses, tree_of a.timeout, tree_of a.action) };

    ghost size = { λ v. 1 + (size_of_clause_list v.1 + (size_of v.2 + size_of v.3)) };

    ghost use Rattle.std.proofs.Common.{arith};
    ghost use Rattle.core_tree.specs.inside.Depth.{deep_le};

    ghost size_decreases = { λ a h. Prim.omega (arith, deep_le a.timeout, deep_le a.action) };
}
