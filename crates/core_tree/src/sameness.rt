// Whether two modules are the same except for the places of their parts.
ghost use Rattle.std.specs.Prelude.{◌≡◌, ◌↔◌, ◌&&◌, IsTrue, map};
ghost use Rattle.std.specs.Ordering.{on, eq_of_both};
ghost use Rattle.std.specs.Cmp.{partial_equiv_from_equiv, on_per, on_equiv, and_equiv};
ghost use Rattle.std.specs.Cmp.Lexicographic.{pointwise, lists_equiv};
ghost use Rattle.core_tree.specs.Syntax.{patterns_of, trees_of, clauses_of, constants_of};
ghost use Rattle.core_tree.specs.Tree.{callee_of, onto_pattern, alias_pattern, pattern_of, onto_tree, let_tree, case_tree, do_tree, call_tree, try_tree, catch_tree, receive_tree, tree_of, onto_constant, constant_of};
ghost use Rattle.core_tree.specs.Definitions.{definition_of};
ghost use Rattle.core_tree.specs.Sameness.{bare_module};
ghost use Rattle.core_tree.specs.Alike.{same_mention, same_kind, same_pure, same_callee, same_pattern, same_patterns, same_tree, same_trees, same_clause, same_clauses, same_constant, same_constants, same_named, same_attribute, same_definition, same_module};
ghost use Rattle.core_tree.specs.inside.AlikeLaws.{mentions_equal, exports_equal, attributes_equal, trees_equal, callees_equal, choices_equal, modules_equal};

use crate::constant::{Const, Consts, OntoConst};
use crate::module::{Attribute, Definition, FunctionName, Module, NamedFunction};
use crate::pattern::{Alias, OntoPattern, Pattern, Patterns};
use crate::tree::{
    Call, Callee, Case, Catch, Clause, Clauses, Do, Expr, Exprs, Let, Onto, Receive, Try,
};
use crate::variable::Variable;
use core_calls::{CallKind, PureCall};
use indexmap::IndexMap;

impl PartialEq for Variable {
    ghost eq = { same_mention };

    ghost laws = { partial_equiv_from_equiv mentions_equal };

    /// Whether the two have one name, wherever they are.
    fn eq(&self, other: &Variable) -> bool {
        self.name == other.name
    }
}

impl Eq for Variable {
    ghost laws = { mentions_equal };
}

impl PartialEq for NamedFunction {
    ghost eq = { same_named };

    ghost laws = { partial_equiv_from_equiv exports_equal };

    /// Whether the two name one function, wherever they are.
    fn eq(&self, other: &NamedFunction) -> bool {
        self.function == other.function
    }
}

impl Eq for NamedFunction {
    ghost laws = { exports_equal };
}

fn same_kind(a: CallKind, b: CallKind) -> bool
    ensures { result ≡ same_kind a b }
{
    a == b
}

fn same_pure(a: PureCall, b: PureCall) -> bool
    ensures { result ≡ same_pure a b }
{
    a == b
}

// Whether two calls apply the same.
fn same_callee(a: &Callee, b: &Callee) -> bool
    ensures { result ≡ same_callee (callee_of a.now) (callee_of b.now) }
{
    match (a, b) {
        (Callee::World(k), Callee::World(l)) => same_kind(*k, *l),
        (Callee::Pure(k), Callee::Pure(l)) => same_pure(*k, *l),
        (Callee::Exported(f), Callee::Exported(g)) => f == g,
        (Callee::Defined(f), Callee::Defined(g)) => f == g,
        (Callee::MatchFail, Callee::MatchFail) => true,
        (Callee::Raise, Callee::Raise) => true,
        _ => false,
    }
}

// Whether two patterns are of one form and have the same parts. It goes into the parts by recursion.
#[cycle(patterns)]
fn same_pattern(a: &Pattern, b: &Pattern) -> bool
    ensures { result ≡ same_pattern (pattern_of a.now) (pattern_of b.now) }
{
    match (a, b) {
        (Pattern::Integer(m), Pattern::Integer(n)) => m == n,
        (Pattern::Character(c), Pattern::Character(d)) => c == d,
        (Pattern::Text(t), Pattern::Text(u)) => t == u,
        (Pattern::Atom(t), Pattern::Atom(u)) => t == u,
        (Pattern::Variable(v), Pattern::Variable(w)) => v == w,
        (Pattern::Tuple(ps), Pattern::Tuple(qs)) => same_patterns(ps, qs),
        (Pattern::List(ps), Pattern::List(qs)) => same_patterns(ps, qs),
        (Pattern::Onto(p), Pattern::Onto(q)) => same_onto_pattern(p, q),
        (Pattern::Alias(p), Pattern::Alias(q)) => same_alias(p, q),
        _ => false,
    }
}

#[cycle(patterns)]
fn same_onto_pattern(a: &OntoPattern, b: &OntoPattern) -> bool
    ensures { result ≡ same_pattern (onto_pattern a.now) (onto_pattern b.now) }
{
    same_patterns(&a.items, &b.items) && same_pattern(&a.tail, &b.tail)
}

#[cycle(patterns)]
fn same_alias(a: &Alias, b: &Alias) -> bool
    ensures { result ≡ same_pattern (alias_pattern a.now) (alias_pattern b.now) }
{
    a.variable == b.variable && same_pattern(&a.whole, &b.whole)
}

// Whether two rows of patterns are as long, and the same item by item.
#[cycle(patterns)]
fn same_patterns(a: &Patterns, b: &Patterns) -> bool
    ensures { result ≡ same_patterns (patterns_of a.now) (patterns_of b.now) }
{
    if a.0.len() != b.0.len() {
        return false;
    }
    for i in 0..a.0.len() {
        if !same_pattern(&a.0[i], &b.0[i]) {
            return false;
        }
    }
    true
}

// Whether two expressions are of one form and have the same parts. It goes into the parts by recursion.
#[cycle(sameness)]
fn same_expr(a: &Expr, b: &Expr) -> bool
    ensures { result ≡ same_tree (tree_of a.now) (tree_of b.now) }
{
    match (a, b) {
        (Expr::Integer(m), Expr::Integer(n)) => m == n,
        (Expr::Character(c), Expr::Character(d)) => c == d,
        (Expr::Text(t), Expr::Text(u)) => t == u,
        (Expr::Atom(t), Expr::Atom(u)) => t == u,
        (Expr::Variable(v), Expr::Variable(w)) => v == w,
        (Expr::Tuple(xs), Expr::Tuple(ys)) => same_exprs(xs, ys),
        (Expr::List(xs), Expr::List(ys)) => same_exprs(xs, ys),
        (Expr::Onto(p), Expr::Onto(q)) => same_onto(p, q),
        (Expr::Values(xs), Expr::Values(ys)) => same_exprs(xs, ys),
        (Expr::Let(p), Expr::Let(q)) => same_let(p, q),
        (Expr::Case(p), Expr::Case(q)) => same_case(p, q),
        (Expr::Do(p), Expr::Do(q)) => same_do(p, q),
        (Expr::Call(p), Expr::Call(q)) => same_call(p, q),
        (Expr::Try(p), Expr::Try(q)) => same_try(p, q),
        (Expr::Catch(p), Expr::Catch(q)) => same_catch(p, q),
        (Expr::Receive(p), Expr::Receive(q)) => same_receive(p, q),
        _ => false,
    }
}

#[cycle(sameness)]
fn same_onto(a: &Onto, b: &Onto) -> bool
    ensures { result ≡ same_tree (onto_tree a.now) (onto_tree b.now) }
{
    same_exprs(&a.items, &b.items) && same_expr(&a.tail, &b.tail)
}

#[cycle(sameness)]
fn same_let(a: &Let, b: &Let) -> bool
    ensures { result ≡ same_tree (let_tree a.now) (let_tree b.now) }
{
    a.variables == b.variables && same_expr(&a.value, &b.value) && same_expr(&a.body, &b.body)
}

#[cycle(sameness)]
fn same_do(a: &Do, b: &Do) -> bool
    ensures { result ≡ same_tree (do_tree a.now) (do_tree b.now) }
{
    same_expr(&a.first, &b.first) && same_expr(&a.second, &b.second)
}

#[cycle(sameness)]
fn same_call(a: &Call, b: &Call) -> bool
    ensures { result ≡ same_tree (call_tree a.now) (call_tree b.now) }
{
    same_callee(&a.callee, &b.callee) && same_exprs(&a.arguments, &b.arguments)
}

#[cycle(sameness)]
fn same_case(a: &Case, b: &Case) -> bool
    ensures { result ≡ same_tree (case_tree a.now) (case_tree b.now) }
{
    same_expr(&a.value, &b.value) && same_clauses(&a.clauses, &b.clauses)
}

#[cycle(sameness)]
fn same_receive(a: &Receive, b: &Receive) -> bool
    ensures { result ≡ same_tree (receive_tree a.now) (receive_tree b.now) }
{
    same_clauses(&a.clauses, &b.clauses)
        && same_expr(&a.timeout, &b.timeout)
        && same_expr(&a.action, &b.action)
}

#[cycle(sameness)]
fn same_clause(a: &Clause, b: &Clause) -> bool
    ensures { result ≡ same_clause a.now b.now }
{
    same_patterns(&a.patterns, &b.patterns)
        && same_expr(&a.guard, &b.guard)
        && same_expr(&a.body, &b.body)
}

// Whether two rows of clauses are as long, and the same clause by clause.
#[cycle(sameness)]
fn same_clauses(a: &Clauses, b: &Clauses) -> bool
    ensures { result ≡ same_clauses (clauses_of a.now) (clauses_of b.now) }
{
    if a.0.len() != b.0.len() {
        return false;
    }
    for i in 0..a.0.len() {
        if !same_clause(&a.0[i], &b.0[i]) {
            return false;
        }
    }
    true
}

#[cycle(sameness)]
fn same_try(a: &Try, b: &Try) -> bool
    ensures { result ≡ same_tree (try_tree a.now) (try_tree b.now) }
{
    same_expr(&a.value, &b.value)
        && a.variables == b.variables
        && same_expr(&a.body, &b.body)
        && a.caught == b.caught
        && same_expr(&a.handler, &b.handler)
}

#[cycle(sameness)]
fn same_catch(a: &Catch, b: &Catch) -> bool
    ensures { result ≡ same_tree (catch_tree a.now) (catch_tree b.now) }
{
    same_expr(&a.value, &b.value)
}

// Whether two rows of expressions are as long, and the same item by item.
#[cycle(sameness)]
fn same_exprs(a: &Exprs, b: &Exprs) -> bool
    ensures { result ≡ same_trees (trees_of a.now) (trees_of b.now) }
{
    if a.0.len() != b.0.len() {
        return false;
    }
    for i in 0..a.0.len() {
        if !same_expr(&a.0[i], &b.0[i]) {
            return false;
        }
    }
    true
}

// Whether two constants are of one form and have the same parts. It goes into the parts by recursion.
#[cycle(constants)]
fn same_const(a: &Const, b: &Const) -> bool
    ensures { result ≡ same_constant (constant_of a.now) (constant_of b.now) }
{
    match (a, b) {
        (Const::Integer(m), Const::Integer(n)) => m == n,
        (Const::Character(c), Const::Character(d)) => c == d,
        (Const::Text(t), Const::Text(u)) => t == u,
        (Const::Atom(t), Const::Atom(u)) => t == u,
        (Const::Tuple(cs), Const::Tuple(ds)) => same_consts(cs, ds),
        (Const::List(cs), Const::List(ds)) => same_consts(cs, ds),
        (Const::Onto(p), Const::Onto(q)) => same_onto_const(p, q),
        _ => false,
    }
}

#[cycle(constants)]
fn same_onto_const(a: &OntoConst, b: &OntoConst) -> bool
    ensures { result ≡ same_constant (onto_constant a.now) (onto_constant b.now) }
{
    same_consts(&a.items, &b.items) && same_const(&a.tail, &b.tail)
}

// Whether two rows of constants are as long, and the same item by item.
#[cycle(constants)]
fn same_consts(a: &Consts, b: &Consts) -> bool
    ensures { result ≡ same_constants (constants_of a.now) (constants_of b.now) }
{
    if a.0.len() != b.0.len() {
        return false;
    }
    for i in 0..a.0.len() {
        if !same_const(&a.0[i], &b.0[i]) {
            return false;
        }
    }
    true
}

impl PartialEq for Callee {
    ghost eq = { on callee_of same_callee };

    ghost laws = { on_per callee_of (partial_equiv_from_equiv callees_equal) };

    /// Whether the two apply the same, wherever they are.
    fn eq(&self, other: &Callee) -> bool {
        same_callee(self, other)
    }
}

impl PartialEq for Expr {
    ghost eq = { on tree_of same_tree };

    ghost laws = { on_per tree_of (partial_equiv_from_equiv trees_equal) };

    /// Whether the two are of one form and have the same parts, wherever they are. It takes no memory.
    fn eq(&self, other: &Expr) -> bool {
        same_expr(self, other)
    }
}

impl PartialEq for Clause {
    ghost eq = { same_clause };

    ghost laws = { partial_equiv_from_equiv choices_equal };

    /// Whether the two have the same patterns, the same guard and the same body, wherever they are.
    fn eq(&self, other: &Clause) -> bool {
        same_clause(self, other)
    }
}

impl PartialEq for Attribute {
    ghost eq = { same_attribute };

    ghost laws = { partial_equiv_from_equiv attributes_equal };

    /// Whether the two have one name and one value.
    fn eq(&self, other: &Attribute) -> bool {
        self.name == other.name && same_const(&self.value, &other.value)
    }
}

impl Eq for Attribute {
    ghost laws = { attributes_equal };
}

impl PartialEq for Definition {
    ghost eq = { eq_of_both (on (λ d. d.parameters.items) (pointwise same_mention)) (on (λ d. tree_of d.body) same_tree) };

    ghost laws = { partial_equiv_from_equiv (and_equiv (on_equiv (λ d. d.parameters.items) (lists_equiv mentions_equal)) (on_equiv (λ d. tree_of d.body) trees_equal)) };

    /// Whether the two have the same parameters and the same body, wherever they are.
    fn eq(&self, other: &Definition) -> bool {
        self.parameters == other.parameters && same_expr(&self.body, &other.body)
    }
}

impl Eq for Definition {
    ghost laws = { and_equiv (on_equiv (λ d. d.parameters.items) (lists_equiv mentions_equal)) (on_equiv (λ d. tree_of d.body) trees_equal) };
}

// Whether two maps hold the same names with the same definitions in the same order.
fn same_definitions(
    a: &IndexMap<FunctionName, Definition>,
    b: &IndexMap<FunctionName, Definition>,
) -> bool
    ensures { result ≡ pointwise same_definition (map definition_of a.now.entries) (map definition_of b.now.entries) }
{
    a.as_slice() == b.as_slice()
}

fn same_modules(a: &Module, b: &Module) -> bool
    ensures { result ≡ same_module a.now b.now }
{
    a.name == b.name
        && a.exports == b.exports
        && a.attributes == b.attributes
        && same_definitions(&a.definitions, &b.definitions)
}

impl PartialEq for Module {
    ghost eq = { same_module };

    ghost laws = { partial_equiv_from_equiv modules_equal };

    /// Whether the two are the same except for the places of their parts: one name, and the same exports, attributes
    /// and definitions, each in the same order. It takes no memory.
    fn eq(&self, other: &Module) -> bool
        ensures value { result ≡ same_module self.now other.now }
        ensures same { IsTrue result ↔ (bare_module self.now ≡ bare_module other.now) }
    {
        same_modules(self, other)
    }
}

impl Eq for Module {
    ghost laws = { modules_equal };
}
