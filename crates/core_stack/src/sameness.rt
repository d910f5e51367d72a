// Whether two frames are the same except for the places of their code in the text.
ghost use Rattle.std.specs.Prelude.{◌≡◌, true, map};
ghost use Rattle.core_tree.specs.Sameness.{bare_callee, bare_clause, bare_mention, bare_tree};
ghost use Rattle.core_tree.specs.Tree.{callee_of, tree_of};
ghost use Rattle.core_stack.specs.inside.Bare.{bare_hole, bare_purpose};
ghost use Rattle.core_stack.specs.inside.Frames.{hole_of, purpose_of};

use crate::bindings::Bindings;
use crate::frame::{Frame, Purpose};
use core_tree::{Callee, Clause, Expr, Receive, Try, Variable};
use term_core::Terms;

fn same_expression(a: &Expr, b: &Expr) -> bool
    ensures { result ≡ true → bare_tree (tree_of a.now) ≡ bare_tree (tree_of b.now) }
{
    *a == *b
}

fn same_expressions(a: &[Expr], b: &[Expr]) -> bool
    ensures { result ≡ true → map bare_tree (map tree_of a.now) ≡ map bare_tree (map tree_of b.now) }
{
    *a == *b
}

fn same_callee(a: &Callee, b: &Callee) -> bool
    ensures { result ≡ true → bare_callee (callee_of a.now) ≡ bare_callee (callee_of b.now) }
{
    *a == *b
}

fn same_clauses(a: &[Clause], b: &[Clause]) -> bool
    ensures { result ≡ true → map bare_clause a.now ≡ map bare_clause b.now }
{
    *a == *b
}

fn same_variables(a: &[Variable], b: &[Variable]) -> bool
    ensures { result ≡ true → map bare_mention a.now ≡ map bare_mention b.now }
{
    *a == *b
}

fn same_values(a: &Terms, b: &Terms) -> bool
    ensures { result ≡ true → a.now ≡ b.now }
{
    *a == *b
}

// The timeout of a receive that waits no longer matters.
fn same_receive(a: &Receive, b: &Receive) -> bool
    ensures clauses { result ≡ true → map bare_clause a.now.1 ≡ map bare_clause b.now.1 }
    ensures action { result ≡ true → bare_tree a.now.3 ≡ bare_tree b.now.3 }
{
    same_clauses(a.clauses.0.as_slice(), b.clauses.0.as_slice())
        && same_expression(&a.action, &b.action)
}

// What a `try` protects no longer matters where it is being evaluated.
fn same_try(a: &Try, b: &Try) -> bool
    ensures variables { result ≡ true → map bare_mention a.now.2 ≡ map bare_mention b.now.2 }
    ensures body { result ≡ true → bare_tree a.now.3 ≡ bare_tree b.now.3 }
    ensures caught { result ≡ true → map bare_mention a.now.4 ≡ map bare_mention b.now.4 }
    ensures handler { result ≡ true → bare_tree a.now.5 ≡ bare_tree b.now.5 }
{
    same_variables(a.variables.as_slice(), b.variables.as_slice())
        && same_expression(&a.body, &b.body)
        && same_variables(a.caught.as_slice(), b.caught.as_slice())
        && same_expression(&a.handler, &b.handler)
}

fn same_purpose(a: Purpose<'_>, b: Purpose<'_>) -> bool
    ensures { result ≡ true → bare_purpose (purpose_of a.entry) ≡ bare_purpose (purpose_of b.entry) }
{
    match (a, b) {
        (Purpose::Tuple, Purpose::Tuple) => true,
        (Purpose::List, Purpose::List) => true,
        (Purpose::Onto(tail), Purpose::Onto(other)) => same_expression(tail, other),
        (Purpose::Call(callee), Purpose::Call(other)) => same_callee(callee, other),
        (Purpose::Values, Purpose::Values) => true,
        _ => false,
    }
}

fn same_bindings(a: &Bindings<'_>, b: &Bindings<'_>) -> bool
    ensures { result ≡ true → a.now ≡ b.now }
{
    a.is_same(b)
}

/// Whether two frames have the same values and the same code, wherever that is in the text.
pub(crate) fn same_frame(a: &Frame<'_>, b: &Frame<'_>) -> bool
    ensures { result ≡ true → bare_hole (hole_of a.now) ≡ bare_hole (hole_of b.now) }
{
    match (a, b) {
        (Frame::Parts(purpose, done, later), Frame::Parts(to, ready, others)) => {
            same_purpose(*purpose, *to)
                && same_values(done, ready)
                && same_expressions(later, others)
        }
        (Frame::Tail(items), Frame::Tail(others)) => same_values(items, others),
        (Frame::Body(variables, body), Frame::Body(names, other)) => {
            same_variables(variables, names) && same_expression(body, other)
        }
        (Frame::Second(second), Frame::Second(other)) => same_expression(second, other),
        (Frame::Clauses(clauses), Frame::Clauses(others)) => same_clauses(clauses, others),
        (Frame::Guard(bindings, body, rest, values), Frame::Guard(bound, other, more, items)) => {
            same_bindings(bindings, bound)
                && same_expression(body, other)
                && same_clauses(rest, more)
                && same_values(values, items)
        }
        (Frame::Receive(receive), Frame::Receive(other)) => same_receive(receive, other),
        (Frame::Try(protected), Frame::Try(other)) => same_try(protected, other),
        (Frame::Catch, Frame::Catch) => true,
        (Frame::Kept(bindings), Frame::Kept(others)) => same_bindings(bindings, others),
        (Frame::Applied(bindings), Frame::Applied(others)) => same_bindings(bindings, others),
        _ => false,
    }
}
