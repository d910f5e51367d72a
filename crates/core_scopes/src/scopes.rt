// Scopes: each variable has a binding, each function that is called a definition or an export, and a guard
// no effect (Core Erlang 1.0.3, "Lexical scoping" and "Static constraints").
ghost use Rattle.std.specs.Prelude.{◌≡◌, [], ◌∷◌, ◌++◌};
ghost use Rattle.core_tree.specs.Syntax.{patterns_of, trees_of, clauses_of};
ghost use Rattle.core_tree.specs.Callee as callees;
ghost use Rattle.core_tree.specs.Tree.{callee_of, onto_pattern, alias_pattern, pattern_of, onto_tree, let_tree, case_tree, do_tree, call_tree, try_tree, catch_tree, receive_tree, tree_of};
ghost use Rattle.core_tree.specs.Definitions.{keys_in};
ghost use Rattle.core_scopes.specs.Scopes.{bound_by, variables_of, variables_of_all};
ghost use Rattle.core_scopes.specs.inside.Environment.{shown, bound_in, setting_in, AddsUnlessMemory, BindsUnlessMemory, check_clause};
ghost use Rattle.core_scopes.specs.Outcomes.{GivesUnlessMemory};
ghost use Rattle.core_scopes.specs.ScopeChecks.{is_among, is_defined, check_variable, check_effect, check_callee, check_tree, check_trees, check_clauses};

use core_tokens::ReadFault;
use core_tree::{
    Alias, Call, Callee, Case, Catch, Clause, Clauses, Definition, Do, Expr, Exprs, FunctionName,
    Let, NamedFunction, Onto, OntoPattern, Pattern, Patterns, PureCall, Receive, Try, Variable,
};
use indexmap::{IndexMap, IndexSet};
use std::alloc::Global;

/// The variables that are bound: those of one list or of the patterns of a clause, by their names, and those
/// around them.
#[derive(Clone, Copy)]
pub(crate) enum Scope<'s, 'n> {
    Top,
    Within(&'s IndexSet<&'n [u8]>, &'s Scope<'s, 'n>),
}

/// The setting of an expression: the functions that are defined, those that are exported, and whether it is part
/// of a guard.
#[derive(Clone, Copy)]
pub(crate) struct Setting<'d, 'e, 'f> {
    pub alloc: Global,
    pub definitions: &'d IndexMap<FunctionName, Definition>,
    pub exported: &'e IndexSet<&'f FunctionName>,
    pub in_guard: bool,
}

fn is_named(names: &IndexSet<&[u8]>, name: &[u8]) -> bool
    ensures { result ≡ is_among (shown names.now.keys) name.now }
{
    names.contains(name)
}

// Whether a variable of the name is bound.
fn is_bound(scope: &Scope, name: &[u8]) -> bool
    ensures { result ≡ is_among (bound_in scope.now) name.now }
{
    let mut inner = scope;
    while let Scope::Within(names, outer) = inner {
        if is_named(names, name) {
            return true;
        }
        inner = outer;
    }
    false
}

fn check_variable(scope: &Scope, variable: &Variable) -> Result<(), ReadFault>
    ensures { result ≡ check_variable (bound_in scope.now) variable.now }
{
    if is_bound(scope, &variable.name) {
        Ok(())
    } else {
        Err(ReadFault::Unbound(variable.at))
    }
}

// Puts a variable after those that are bound with it. The fault is `DuplicateVariable`, if one of them has
// its name.
fn bind<'a>(names: &mut IndexSet<&'a [u8]>, variable: &'a Variable) -> Result<(), ReadFault>
    ensures { AddsUnlessMemory (variable.now ∷ []) result (shown names.old.keys) (shown names.new.keys) }
{
    if names.insert(variable.name.as_slice())? {
        Ok(())
    } else {
        Err(ReadFault::DuplicateVariable(variable.at))
    }
}

/// The names of the variables of a list, which differ from each other. The fault is `DuplicateVariable` at the
/// first variable that has the name of one before it.
pub(crate) fn distinct<'a>(
    alloc: Global,
    variables: &'a [Variable],
) -> Result<IndexSet<&'a [u8]>, ReadFault>
    ensures { BindsUnlessMemory variables.now result }
{
    let mut names = IndexSet::new(alloc);
    'variables: for variable in variables {
        bind(&mut names, variable)?;
    }
    Ok(names)
}

// Binds the variables of a pattern, from left to right.
#[cycle(patterns)]
fn bind_pattern<'a>(names: &mut IndexSet<&'a [u8]>, pattern: &'a Pattern) -> Result<(), ReadFault>
    ensures { AddsUnlessMemory (variables_of (pattern_of pattern.now)) result (shown names.old.keys) (shown names.new.keys) }
{
    match pattern {
        Pattern::Integer(_) | Pattern::Character(_) | Pattern::Text(_) | Pattern::Atom(_) => Ok(()),
        Pattern::Variable(variable) => bind(names, variable),
        Pattern::Tuple(patterns) | Pattern::List(patterns) => bind_patterns(names, patterns),
        Pattern::Onto(onto) => bind_onto(names, onto),
        Pattern::Alias(alias) => bind_alias(names, alias),
    }
}

#[cycle(patterns)]
fn bind_onto<'a>(names: &mut IndexSet<&'a [u8]>, onto: &'a OntoPattern) -> Result<(), ReadFault>
    ensures { AddsUnlessMemory (variables_of (onto_pattern onto.now)) result (shown names.old.keys) (shown names.new.keys) }
{
    bind_patterns(names, &onto.items)?;
    bind_pattern(names, &onto.tail)
}

// The variable for the whole comes before those of its pattern.
#[cycle(patterns)]
fn bind_alias<'a>(names: &mut IndexSet<&'a [u8]>, alias: &'a Alias) -> Result<(), ReadFault>
    ensures { AddsUnlessMemory (variables_of (alias_pattern alias.now)) result (shown names.old.keys) (shown names.new.keys) }
{
    bind(names, &alias.variable)?;
    bind_pattern(names, &alias.whole)
}

#[cycle(patterns)]
fn bind_patterns<'a>(
    names: &mut IndexSet<&'a [u8]>,
    patterns: &'a Patterns,
) -> Result<(), ReadFault>
    ensures { AddsUnlessMemory (variables_of_all (patterns_of patterns.now)) result (shown names.old.keys) (shown names.new.keys) }
{
    'patterns: for pattern in &patterns.0 {
        bind_pattern(names, pattern)?;
    }
    Ok(())
}

// The names of the variables of a clause's patterns, which differ from each other (Core Erlang 1.0.3,
// "Patterns"). The fault is `DuplicateVariable` at the first variable that has the name of one before it.
fn bound_by<'a>(alloc: Global, patterns: &'a Patterns) -> Result<IndexSet<&'a [u8]>, ReadFault>
    ensures { BindsUnlessMemory (bound_by patterns.now) result }
{
    let mut names = IndexSet::new(alloc);
    bind_patterns(&mut names, patterns)?;
    Ok(names)
}

// A guard has no effect (Core Erlang 1.0.3, "Static constraints"). The fault is `EffectInGuard`.
fn check_effect(setting: &Setting, at: usize) -> Result<(), ReadFault>
    ensures { result ≡ check_effect (setting_in setting.now) at }
{
    if setting.in_guard {
        Err(ReadFault::EffectInGuard(at))
    } else {
        Ok(())
    }
}

fn is_exported(setting: &Setting, function: &FunctionName) -> bool
    ensures { result ≡ is_defined (shown setting.now.exported.now.keys) function.now }
{
    setting.exported.contains(&function)
}

/// Whether a function of the name is defined.
pub(crate) fn is_defined(
    definitions: &IndexMap<FunctionName, Definition>,
    name: &FunctionName,
) -> bool
    ensures { result ≡ is_defined (keys_in definitions.now.entries) name.now }
{
    definitions.contains_key(name)
}

// An exported function of this module is called outside of guards. Faults: `UnsupportedCall` where it is not
// exported, `EffectInGuard`.
fn check_exported(setting: &Setting, at: usize, function: &FunctionName) -> Result<(), ReadFault>
    ensures { result ≡ check_callee (setting_in setting.now) at (callees.Exported function.now) }
{
    if is_exported(setting, function) {
        check_effect(setting, at)
    } else {
        Err(ReadFault::UnsupportedCall(at))
    }
}

// A defined function is applied outside of guards. Faults: `EffectInGuard`, `NoFunction` at its name.
fn check_defined(setting: &Setting, at: usize, named: &NamedFunction) -> Result<(), ReadFault>
    ensures { result ≡ check_callee (setting_in setting.now) at (callees.Defined named.now) }
{
    check_effect(setting, at)?;
    if is_defined(setting.definitions, &named.function) {
        Ok(())
    } else {
        Err(ReadFault::NoFunction(named.at))
    }
}

// A call that the process answers by itself is one without its dictionary in guards. The fault is `EffectInGuard`.
fn check_own(setting: &Setting, at: usize, call: PureCall) -> Result<(), ReadFault>
    ensures { result ≡ check_callee (setting_in setting.now) at (callees.Pure call) }
{
    if call.is_of_dictionary() {
        check_effect(setting, at)
    } else {
        Ok(())
    }
}

// What the call at the place calls may be called there.
fn check_callee(setting: &Setting, at: usize, callee: &Callee) -> Result<(), ReadFault>
    ensures { result ≡ check_callee (setting_in setting.now) at (callee_of callee.now) }
{
    match callee {
        Callee::Pure(kind) => check_own(setting, at, *kind),
        Callee::World(_) | Callee::MatchFail | Callee::Raise => check_effect(setting, at),
        Callee::Exported(function) => check_exported(setting, at, function),
        Callee::Defined(named) => check_defined(setting, at, named),
    }
}

/// Each variable of the expression is bound, there or around it, and each call may be made. The fault is the
/// first in the text. It goes into the parts by recursion.
#[cycle(scopes)]
pub(crate) fn check_expr<'n>(
    setting: &Setting,
    scope: &Scope<'_, 'n>,
    expr: &'n Expr,
) -> Result<(), ReadFault>
    ensures { GivesUnlessMemory (λ u. u) result (check_tree (setting_in setting.now) (bound_in scope.now) (tree_of expr.now)) }
{
    match expr {
        Expr::Integer(_) | Expr::Character(_) | Expr::Text(_) | Expr::Atom(_) => Ok(()),
        Expr::Variable(variable) => check_variable(scope, variable),
        Expr::Tuple(items) | Expr::List(items) | Expr::Values(items) => {
            check_exprs(setting, scope, items)
        }
        Expr::Onto(onto) => check_onto(setting, scope, onto),
        Expr::Let(binding) => check_let(setting, scope, binding),
        Expr::Case(case) => check_case(setting, scope, case),
        Expr::Do(both) => check_do(setting, scope, both),
        Expr::Call(call) => check_call(setting, scope, call),
        Expr::Try(handled) => check_try(setting, scope, handled),
        Expr::Catch(caught) => check_catch(setting, scope, caught),
        Expr::Receive(receive) => check_receive(setting, scope, receive),
    }
}

// The same, where variables are bound.
#[cycle(scopes)]
fn check_within<'a, 's, 'n>(
    setting: &Setting,
    scope: &'a Scope<'s, 'n>,
    names: &'a IndexSet<&'n [u8]>,
    expr: &'n Expr,
) -> Result<(), ReadFault>
    ensures { GivesUnlessMemory (λ u. u) result (check_tree (setting_in setting.now) (shown names.now.keys ++ bound_in scope.now) (tree_of expr.now)) }
{
    check_expr(setting, &Scope::Within(&*names, &*scope), expr)
}

#[cycle(scopes)]
fn check_onto<'n>(setting: &Setting, scope: &Scope<'_, 'n>, onto: &'n Onto) -> Result<(), ReadFault>
    ensures { GivesUnlessMemory (λ u. u) result (check_tree (setting_in setting.now) (bound_in scope.now) (onto_tree onto.now)) }
{
    check_exprs(setting, scope, &onto.items)?;
    check_expr(setting, scope, &onto.tail)
}

// The variables of a `let` differ, and its body sees them.
#[cycle(scopes)]
fn check_let<'n>(
    setting: &Setting,
    scope: &Scope<'_, 'n>,
    binding: &'n Let,
) -> Result<(), ReadFault>
    ensures { GivesUnlessMemory (λ u. u) result (check_tree (setting_in setting.now) (bound_in scope.now) (let_tree binding.now)) }
{
    let names = distinct(setting.alloc, &binding.variables)?;
    check_expr(setting, scope, &binding.value)?;
    check_within(setting, &*scope, &names, &binding.body)
}

#[cycle(scopes)]
fn check_case<'n>(setting: &Setting, scope: &Scope<'_, 'n>, case: &'n Case) -> Result<(), ReadFault>
    ensures { GivesUnlessMemory (λ u. u) result (check_tree (setting_in setting.now) (bound_in scope.now) (case_tree case.now)) }
{
    check_expr(setting, scope, &case.value)?;
    check_clauses(setting, scope, &case.clauses)
}

#[cycle(scopes)]
fn check_do<'n>(setting: &Setting, scope: &Scope<'_, 'n>, both: &'n Do) -> Result<(), ReadFault>
    ensures { GivesUnlessMemory (λ u. u) result (check_tree (setting_in setting.now) (bound_in scope.now) (do_tree both.now)) }
{
    check_expr(setting, scope, &both.first)?;
    check_expr(setting, scope, &both.second)
}

#[cycle(scopes)]
fn check_call<'n>(setting: &Setting, scope: &Scope<'_, 'n>, call: &'n Call) -> Result<(), ReadFault>
    ensures { GivesUnlessMemory (λ u. u) result (check_tree (setting_in setting.now) (bound_in scope.now) (call_tree call.now)) }
{
    check_callee(setting, call.at, &call.callee)?;
    check_exprs(setting, scope, &call.arguments)
}

// The variables of each list of a `try` differ; the body sees those of the values, and the handler those of
// the exception.
#[cycle(scopes)]
fn check_try<'n>(
    setting: &Setting,
    scope: &Scope<'_, 'n>,
    handled: &'n Try,
) -> Result<(), ReadFault>
    ensures { GivesUnlessMemory (λ u. u) result (check_tree (setting_in setting.now) (bound_in scope.now) (try_tree handled.now)) }
{
    check_expr(setting, scope, &handled.value)?;
    let names = distinct(setting.alloc, &handled.variables)?;
    check_within(setting, &*scope, &names, &handled.body)?;
    let caught = distinct(setting.alloc, &handled.caught)?;
    check_within(setting, &*scope, &caught, &handled.handler)
}

#[cycle(scopes)]
fn check_catch<'n>(
    setting: &Setting,
    scope: &Scope<'_, 'n>,
    caught: &'n Catch,
) -> Result<(), ReadFault>
    ensures { GivesUnlessMemory (λ u. u) result (check_tree (setting_in setting.now) (bound_in scope.now) (catch_tree caught.now)) }
{
    check_expr(setting, scope, &caught.value)
}

// A receive is an effect. Its clauses bind variables in their own parts alone; the timeout and the action see those
// around it. Fault: `EffectInGuard` at the word.
#[cycle(scopes)]
fn check_receive<'n>(
    setting: &Setting,
    scope: &Scope<'_, 'n>,
    receive: &'n Receive,
) -> Result<(), ReadFault>
    ensures { GivesUnlessMemory (λ u. u) result (check_tree (setting_in setting.now) (bound_in scope.now) (receive_tree receive.now)) }
{
    check_effect(setting, receive.at)?;
    check_clauses(setting, scope, &receive.clauses)?;
    check_expr(setting, scope, &receive.timeout)?;
    check_expr(setting, scope, &receive.action)
}

// The variables of the patterns differ, and the guard and the body see them.
#[cycle(scopes)]
fn check_clause<'n>(
    setting: &Setting,
    scope: &Scope<'_, 'n>,
    clause: &'n Clause,
) -> Result<(), ReadFault>
    ensures { GivesUnlessMemory (λ u. u) result (check_clause (setting_in setting.now) (bound_in scope.now) clause.now) }
{
    let names = bound_by(setting.alloc, &clause.patterns)?;
    let guard = Setting {
        in_guard: true,
        ..*setting
    };
    check_within(&guard, &*scope, &names, &clause.guard)?;
    check_within(setting, &*scope, &names, &clause.body)
}

#[cycle(scopes)]
fn check_clauses<'n>(
    setting: &Setting,
    scope: &Scope<'_, 'n>,
    clauses: &'n Clauses,
) -> Result<(), ReadFault>
    ensures { GivesUnlessMemory (λ u. u) result (check_clauses (setting_in setting.now) (bound_in scope.now) (clauses_of clauses.now)) }
{
    'clauses: for clause in &clauses.0 {
        check_clause(setting, scope, clause)?;
    }
    Ok(())
}

#[cycle(scopes)]
fn check_exprs<'n>(
    setting: &Setting,
    scope: &Scope<'_, 'n>,
    exprs: &'n Exprs,
) -> Result<(), ReadFault>
    ensures { GivesUnlessMemory (λ u. u) result (check_trees (setting_in setting.now) (bound_in scope.now) (trees_of exprs.now)) }
{
    'exprs: for expr in &exprs.0 {
        check_expr(setting, scope, expr)?;
    }
    Ok(())
}
