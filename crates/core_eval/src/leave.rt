// The steps of the machine out of an expression, with its values or with what it raises, to what the frame
// above it leaves to do.
ghost use Rattle.std.specs.Prelude.{◌≡◌, ◌+◌, ◌*◌, ◌∷◌, [], IfOk, IsTrue, codes, length};
ghost use Rattle.core_tree.specs.Expression as trees;
ghost use Rattle.core_tree.specs.Syntax.{clauses_of};
ghost use Rattle.core_tree.specs.inside.Sizes.{size_of_clause_list};
ghost use Rattle.core_tree.specs.Tree.{tree_of};
ghost use Rattle.term_core.specs.Term.{meaning_of};
ghost use Rattle.core_semantics.specs.Evaluation.{Raises, Yields, as_one, choose, no_clause};
ghost use Rattle.core_stack.specs.inside.Frames.{hole_of};
ghost use Rattle.core_stack.specs.Holes.{scope};
ghost use Rattle.core_eval.specs.Filled.{filled};
ghost use Rattle.core_eval.specs.inside.Steps.{EntersWith, GoesOn, Judges, Means, load, work_in};

use crate::build::{error, limited, limited_error, pair, single, with_last};
use crate::control::Control;
use crate::enter::gather;
use crate::exception::{caught, caught_values};
use crate::receiving::wait;
use core_pure_calls::Class;
use core_stack::{Bindings, Frame, Stack, matches_each};
use core_tree::{Clause, Expr, Try, Variable};
use std::alloc::{AllocError, Global};
use term_core::{Term, Terms, Word, list_onto};

/// Out of an expression with its one value.
pub(crate) fn leave<'m>(
    alloc: Global,
    stack: &mut Stack<'m>,
    frame: Frame<'m>,
    value: Term,
) -> Result<Control<'m>, AllocError>
    ensures { IfOk result (λ next.
        GoesOn stack.old stack.new next
        (λ setting s. filled setting (hole_of frame.entry) (scope stack.old) (Yields (meaning_of value ∷ []) s))
        (2 + work_in (hole_of frame.entry))) }
{
    match frame {
        Frame::Parts(purpose, done, later) => gather(
            alloc,
            stack,
            purpose,
            with_last(done, value)?,
            later,
        ),
        Frame::Tail(items) => Ok(limited(list_onto(alloc, items.into_vec(), value)?)),
        Frame::Body(variables, body) => bind_one(alloc, stack, variables, body, value),
        Frame::Second(second) => Ok(Control::Evaluate(second)),
        Frame::Clauses(clauses) => choose(alloc, stack, clauses, single(alloc, value)?),
        Frame::Guard(bindings, body, others, values) if value.is_the_atom("true") => {
            stack.push(Frame::Kept(bindings))?;
            Ok(Control::Evaluate(body))
        }
        Frame::Guard(_, _, others, values) => choose(alloc, stack, others, values),
        Frame::Receive(receive) => wait(stack, receive, &value),
        Frame::Try(protected) => enter_body(alloc, stack, protected, single(alloc, value)?),
        Frame::Catch | Frame::Kept(_) | Frame::Applied(_) => Ok(Control::Return(value)),
    }
}

/// Out of an expression with its values; there may be any number of them.
pub(crate) fn leave_with<'m>(
    alloc: Global,
    stack: &mut Stack<'m>,
    frame: Frame<'m>,
    values: Terms,
) -> Result<Control<'m>, AllocError>
    ensures { IfOk result (λ next.
        GoesOn stack.old stack.new next
        (λ setting s. filled setting (hole_of frame.entry) (scope stack.old) (Yields values s))
        (2 + work_in (hole_of frame.entry))) }
{
    if values.len() != 1 {
        return leave_several(alloc, stack, frame, values);
    }
    let Some(value) = values.into_vec().pop() else {
        unreachable!()
    };
    leave(alloc, stack, frame, value)
}

// Out of an expression with no value or with more than one.
fn leave_several<'m>(
    alloc: Global,
    stack: &mut Stack<'m>,
    frame: Frame<'m>,
    values: Terms,
) -> Result<Control<'m>, AllocError>
    requires { length values ≡ 1 → ⊥ }
    ensures { IfOk result (λ next.
        GoesOn stack.old stack.new next
        (λ setting s. filled setting (hole_of frame.entry) (scope stack.old) (Yields values s))
        (2 + work_in (hole_of frame.entry))) }
{
    match frame {
        Frame::Parts(_, _, _) => Ok(error(Word::ValueCount)),
        Frame::Tail(_) => Ok(error(Word::ValueCount)),
        Frame::Second(_) => Ok(error(Word::ValueCount)),
        Frame::Receive(_) => Ok(error(Word::ValueCount)),
        Frame::Body(variables, body) => bind(alloc, stack, variables, body, values),
        Frame::Clauses(clauses) => choose(alloc, stack, clauses, values),
        Frame::Guard(_, _, others, judged) => choose(alloc, stack, others, judged),
        Frame::Try(protected) => enter_body(alloc, stack, protected, values),
        Frame::Catch | Frame::Kept(_) | Frame::Applied(_) => Ok(Control::Values(values)),
    }
}

/// Out of an expression with the exception that it raises.
pub(crate) fn leave_raised<'m>(
    alloc: Global,
    stack: &mut Stack<'m>,
    frame: Frame<'m>,
    class: Class,
    reason: Term,
) -> Result<Control<'m>, AllocError>
    ensures { IfOk result (λ next.
        GoesOn stack.old stack.new next
        (λ setting s. filled setting (hole_of frame.entry) (scope stack.old) (Raises class (meaning_of reason) s))
        (work_in (hole_of frame.entry))) }
{
    match frame {
        Frame::Guard(_, _, others, given) => choose(alloc, stack, others, given),
        Frame::Try(protected) => bind(
            alloc,
            stack,
            protected.caught.as_slice(),
            &protected.handler,
            caught_values(alloc, protected.caught.len(), class, reason)?,
        ),
        Frame::Catch => caught(alloc, class, reason),
        _ => Ok(Control::Raise(class, reason)),
    }
}

// Into the body of a `try` with the values that it protected; what the body raises is not handled there.
fn enter_body<'m>(
    alloc: Global,
    stack: &mut Stack<'m>,
    protected: &'m Try,
    values: Terms,
) -> Result<Control<'m>, AllocError>
    ensures { IfOk result (λ next. EntersWith stack.old stack.new next protected.now.2 values protected.now.3) }
{
    let variables = protected.variables.as_slice();
    bind(alloc, stack, variables, &protected.body, values)
}

/// Into the guard of the first clause that the values match, or to the error that none does.
pub(crate) fn choose<'m>(
    alloc: Global,
    stack: &mut Stack<'m>,
    clauses: &'m [Clause],
    values: Terms,
) -> Result<Control<'m>, AllocError>
    ensures { IfOk result (λ next.
        GoesOn stack.old stack.new next
        (λ setting s. choose setting (clauses_of clauses.now) values (scope stack.old) s)
        (2 + 4 * size_of_clause_list clauses.now)) }
{
    let mut left = clauses;
    while let Some((clause, others)) = left.split_first() {
        let mut bindings = Bindings::new(alloc);
        if matches_each(&clause.patterns, &values, &mut bindings)? {
            return judge(stack, bindings, clause, others, values);
        }
        left = others;
    }
    no_clause(alloc, values)
}

// Into the guard of a clause that the values match, or where that is `'true'` into its body.
fn judge<'m>(
    stack: &mut Stack<'m>,
    bindings: Bindings<'m>,
    clause: &'m Clause,
    others: &'m [Clause],
    values: Terms,
) -> Result<Control<'m>, AllocError>
    ensures { IfOk result (λ next. Judges stack.old stack.new next bindings.entry clause.now others.now values) }
{
    if is_true(&clause.guard) {
        stack.push(Frame::Kept(bindings))?;
        return Ok(Control::Evaluate(&clause.body));
    }
    stack.push(Frame::Guard(bindings, &clause.body, others, values))?;
    Ok(Control::Evaluate(&clause.guard))
}

/// Whether an expression is the atom `'true'`.
pub(crate) fn is_true(expression: &Expr) -> bool
    ensures { IsTrue result → tree_of expression.now ≡ trees.Atom (codes "true") }
{
    match expression {
        Expr::Atom(atom) => atom.as_str() == "true",
        _ => false,
    }
}

// The error that no clause is taken: its reason reports the values.
fn no_clause<'m>(alloc: Global, values: Terms) -> Result<Control<'m>, AllocError>
    ensures same { IfOk result (λ next. Means next (no_clause values)) }
    ensures less { IfOk result (λ next. load next ≡ 0) }
{
    let whole = as_one(alloc, values)?;
    let reason = pair(alloc, Term::word(Word::CaseClause), whole)?;
    Ok(limited_error(reason))
}

// Several values as one: what is one already, else the tuple of them.
fn as_one(alloc: Global, values: Terms) -> Result<Term, AllocError>
    ensures { IfOk result (λ whole. meaning_of whole ≡ as_one values) }
{
    if values.len() != 1 {
        return Term::tuple(alloc, values);
    }
    let Some(value) = values.into_vec().pop() else {
        unreachable!()
    };
    Ok(value)
}

// Into a body with these values as its variables; another number of values than variables is an error.
fn bind<'m>(
    alloc: Global,
    stack: &mut Stack<'m>,
    variables: &'m [Variable],
    body: &'m Expr,
    values: Terms,
) -> Result<Control<'m>, AllocError>
    ensures { IfOk result (λ next. EntersWith stack.old stack.new next variables.now values (tree_of body.now)) }
{
    match Bindings::of(alloc, variables, values)? {
        Some(bindings) => {
            stack.push(Frame::Kept(bindings))?;
            Ok(Control::Evaluate(body))
        }
        None => Ok(error(Word::ValueCount)),
    }
}

// Into a body with this one value, as `bind`: for one variable it makes no list of values.
fn bind_one<'m>(
    alloc: Global,
    stack: &mut Stack<'m>,
    variables: &'m [Variable],
    body: &'m Expr,
    value: Term,
) -> Result<Control<'m>, AllocError>
    ensures { IfOk result (λ next. EntersWith stack.old stack.new next variables.now (meaning_of value ∷ []) (tree_of body.now)) }
{
    let [variable] = variables else {
        return bind(alloc, stack, variables, body, single(alloc, value)?);
    };
    let mut bindings = Bindings::new(alloc);
    bindings.push(variable.name.as_slice(), value)?;
    stack.push(Frame::Kept(bindings))?;
    Ok(Control::Evaluate(body))
}
