// Copies of expressions. They go into the parts by recursion, and along rows by loops.
ghost use Rattle.std.specs.Prelude.{◌≡◌, IfOk};
ghost use Rattle.core_tree.specs.Tree.{tree_of};

use crate::names::{copy_atom, copy_callee, copy_characters, copy_variable, copy_variables};
use crate::patterns::copy_patterns;
use core_tree::{Call, Case, Catch, Clause, Clauses, Do, Expr, Exprs, Let, Onto, Receive, Try};
use std::alloc::{AllocError, Global};

/// The same expression.
#[cycle(expressions)]
pub(crate) fn copy_expr(alloc: Global, expr: &Expr) -> Result<Expr, AllocError>
    ensures { IfOk result (λ copied. tree_of copied ≡ tree_of expr.now) }
{
    match expr {
        Expr::Integer(number) => Ok(Expr::Integer(*number)),
        Expr::Character(character) => Ok(Expr::Character(*character)),
        Expr::Text(characters) => Ok(Expr::Text(copy_characters(alloc, characters)?)),
        Expr::Atom(atom) => Ok(Expr::Atom(copy_atom(alloc, atom)?)),
        Expr::Variable(variable) => Ok(Expr::Variable(copy_variable(alloc, variable)?)),
        Expr::Tuple(parts) => Ok(Expr::Tuple(copy_exprs(alloc, parts)?)),
        Expr::List(items) => Ok(Expr::List(copy_exprs(alloc, items)?)),
        Expr::Onto(onto) => Ok(Expr::Onto(Box::new(alloc, copy_onto(alloc, onto)?)?)),
        Expr::Values(values) => Ok(Expr::Values(copy_exprs(alloc, values)?)),
        Expr::Let(binding) => Ok(Expr::Let(Box::new(alloc, copy_let(alloc, binding)?)?)),
        Expr::Case(choice) => Ok(Expr::Case(Box::new(alloc, copy_case(alloc, choice)?)?)),
        Expr::Do(both) => Ok(Expr::Do(Box::new(alloc, copy_do(alloc, both)?)?)),
        Expr::Call(call) => Ok(Expr::Call(copy_call(alloc, call)?)),
        Expr::Try(attempt) => Ok(Expr::Try(Box::new(alloc, copy_try(alloc, attempt)?)?)),
        Expr::Catch(caught) => Ok(Expr::Catch(Box::new(alloc, copy_catch(alloc, caught)?)?)),
        Expr::Receive(receive) => Ok(Expr::Receive(Box::new(
            alloc,
            copy_receive(alloc, receive)?,
        )?)),
    }
}

#[cycle(expressions)]
fn copy_onto(alloc: Global, onto: &Onto) -> Result<Onto, AllocError>
    ensures { IfOk result (λ copied. copied ≡ onto.now) }
{
    Ok(Onto {
        items: copy_exprs(alloc, &onto.items)?,
        tail: copy_expr(alloc, &onto.tail)?,
    })
}

#[cycle(expressions)]
fn copy_let(alloc: Global, binding: &Let) -> Result<Let, AllocError>
    ensures { IfOk result (λ copied. copied ≡ binding.now) }
{
    Ok(Let {
        variables: copy_variables(alloc, &binding.variables)?,
        value: copy_expr(alloc, &binding.value)?,
        body: copy_expr(alloc, &binding.body)?,
    })
}

#[cycle(expressions)]
fn copy_do(alloc: Global, both: &Do) -> Result<Do, AllocError>
    ensures { IfOk result (λ copied. copied ≡ both.now) }
{
    Ok(Do {
        first: copy_expr(alloc, &both.first)?,
        second: copy_expr(alloc, &both.second)?,
    })
}

#[cycle(expressions)]
fn copy_call(alloc: Global, call: &Call) -> Result<Call, AllocError>
    ensures { IfOk result (λ copied. copied ≡ call.now) }
{
    Ok(Call {
        at: call.at,
        callee: copy_callee(alloc, &call.callee)?,
        arguments: copy_exprs(alloc, &call.arguments)?,
    })
}

#[cycle(expressions)]
fn copy_case(alloc: Global, choice: &Case) -> Result<Case, AllocError>
    ensures { IfOk result (λ copied. copied ≡ choice.now) }
{
    Ok(Case {
        at: choice.at,
        value: copy_expr(alloc, &choice.value)?,
        clauses: copy_clauses(alloc, &choice.clauses)?,
    })
}

#[cycle(expressions)]
fn copy_receive(alloc: Global, receive: &Receive) -> Result<Receive, AllocError>
    ensures { IfOk result (λ copied. copied ≡ receive.now) }
{
    Ok(Receive {
        at: receive.at,
        clauses: copy_clauses(alloc, &receive.clauses)?,
        timeout: copy_expr(alloc, &receive.timeout)?,
        action: copy_expr(alloc, &receive.action)?,
    })
}

#[cycle(expressions)]
fn copy_clause(alloc: Global, clause: &Clause) -> Result<Clause, AllocError>
    ensures { IfOk result (λ copied. copied ≡ clause.now) }
{
    Ok(Clause {
        patterns: copy_patterns(alloc, &clause.patterns)?,
        guard: copy_expr(alloc, &clause.guard)?,
        body: copy_expr(alloc, &clause.body)?,
    })
}

// The same clauses in order.
#[cycle(expressions)]
fn copy_clauses(alloc: Global, clauses: &Clauses) -> Result<Clauses, AllocError>
    ensures { IfOk result (λ copied. copied ≡ clauses.now) }
{
    let mut copied = Vec::with_capacity(alloc, clauses.0.len())?;
    for clause in &clauses.0 {
        copied.push(copy_clause(alloc, clause)?)?;
    }
    Ok(Clauses(copied))
}

#[cycle(expressions)]
fn copy_try(alloc: Global, attempt: &Try) -> Result<Try, AllocError>
    ensures { IfOk result (λ copied. copied ≡ attempt.now) }
{
    Ok(Try {
        at: attempt.at,
        value: copy_expr(alloc, &attempt.value)?,
        variables: copy_variables(alloc, &attempt.variables)?,
        body: copy_expr(alloc, &attempt.body)?,
        caught: copy_variables(alloc, &attempt.caught)?,
        handler: copy_expr(alloc, &attempt.handler)?,
    })
}

#[cycle(expressions)]
fn copy_catch(alloc: Global, caught: &Catch) -> Result<Catch, AllocError>
    ensures { IfOk result (λ copied. copied ≡ caught.now) }
{
    Ok(Catch {
        at: caught.at,
        value: copy_expr(alloc, &caught.value)?,
    })
}

// The same expressions in order.
#[cycle(expressions)]
fn copy_exprs(alloc: Global, exprs: &Exprs) -> Result<Exprs, AllocError>
    ensures { IfOk result (λ copied. copied ≡ exprs.now) }
{
    let mut copied = Vec::with_capacity(alloc, exprs.0.len())?;
    for expr in &exprs.0 {
        copied.push(copy_expr(alloc, expr)?)?;
    }
    Ok(Exprs(copied))
}
