// The steps of the machine into an expression.
ghost use Rattle.std.specs.Prelude.{◌≤◌, [], IfOk, IfSome, map};
ghost use Rattle.core_tree.specs.Callee as callees;
ghost use Rattle.core_tree.specs.Tree.{callee_of, onto_tree, let_tree, case_tree, do_tree, call_tree, try_tree, catch_tree, receive_tree, tree_of};
ghost use Rattle.term_core.specs.Term.{meaning_of};
ghost use Rattle.core_semantics.specs.Evaluation.{called_with, limited, value_or_error};
ghost use Rattle.core_stack.specs.Matching.{lookup, text_of};
ghost use Rattle.core_stack.specs.inside.Frames.{purpose_of};
ghost use Rattle.core_stack.specs.Holes.{scope};
ghost use Rattle.core_eval.specs.inside.Steps.{GoesOn, Means, MeansIn, Enters, GathersOn, IsValueOf, Skips, load};

use crate::build::{error, limited};
use crate::control::Control;
use crate::exception::{match_reason, raise_again};
use core_pure_calls::Class;
use core_stack::{Frame, Purpose, Stack};
use core_tree::{Call, Callee, Case, Catch, Do, Expr, Let, Onto, Receive, Try, Variable};
use std::alloc::{AllocError, Global};
use term_core::{Term, Terms, Word, list_onto};

/// Into an expression.
pub(crate) fn enter<'m>(
    alloc: Global,
    stack: &mut Stack<'m>,
    expression: &'m Expr,
) -> Result<Control<'m>, AllocError>
    ensures { IfOk result (λ next. Enters stack.old stack.new next (tree_of expression.now)) }
{
    match expression {
        Expr::Integer(number) => Ok(Control::Return(Term::Int(*number))),
        Expr::Character(character) => Ok(Control::Return(Term::Int(*character as i64))),
        Expr::Text(characters) => text(alloc, characters),
        Expr::Atom(atom) => Ok(Control::Return(Term::Atom(atom.copy()?))),
        Expr::Variable(variable) => value_of(stack, variable),
        Expr::Tuple(parts) => enter_parts(alloc, stack, Purpose::Tuple, parts.0.as_slice()),
        Expr::List(items) => enter_parts(alloc, stack, Purpose::List, items.0.as_slice()),
        Expr::Onto(onto) => enter_onto(alloc, stack, onto),
        Expr::Values(values) => enter_parts(alloc, stack, Purpose::Values, values.0.as_slice()),
        Expr::Let(inner) => enter_let(stack, inner),
        Expr::Do(both) => enter_do(stack, both),
        Expr::Call(call) => enter_call(alloc, stack, call),
        Expr::Case(case) => enter_case(stack, case),
        Expr::Receive(receive) => enter_receive(stack, receive),
        Expr::Try(protected) => enter_try(stack, protected),
        Expr::Catch(protected) => enter_catch(stack, protected),
    }
}

// Into the first of several expressions.
fn enter_parts<'m>(
    alloc: Global,
    stack: &mut Stack<'m>,
    purpose: Purpose<'m>,
    parts: &'m [Expr],
) -> Result<Control<'m>, AllocError>
    ensures { IfOk result (λ next.
        GathersOn stack.old stack.new next (purpose_of purpose.entry) [] (map tree_of parts.now)) }
{
    let room = Vec::with_capacity(alloc, parts.len())?;
    gather(alloc, stack, purpose, Terms::from_vec(room), parts)
}

// The value of a variable.
fn value_of<'m>(stack: &mut Stack<'m>, variable: &'m Variable) -> Result<Control<'m>, AllocError>
    ensures { IfOk result (λ next.
        GoesOn stack.old stack.new next (λ setting s. value_or_error (lookup variable.now.name (scope stack.old)) s) 3) }
{
    match stack.lookup(variable.name.as_slice()) {
        Some(value) => Ok(Control::Return(value.copy()?)),
        None => Ok(error(Word::Unbound)),
    }
}

// Into the first items of a list that goes on.
fn enter_onto<'m>(
    alloc: Global,
    stack: &mut Stack<'m>,
    onto: &'m Onto,
) -> Result<Control<'m>, AllocError>
    ensures { IfOk result (λ next. Enters stack.old stack.new next (onto_tree onto.now)) }
{
    enter_parts(
        alloc,
        stack,
        Purpose::Onto(&onto.tail),
        onto.items.0.as_slice(),
    )
}

// Into the value of a `let`.
fn enter_let<'m>(stack: &mut Stack<'m>, inner: &'m Let) -> Result<Control<'m>, AllocError>
    ensures { IfOk result (λ next. Enters stack.old stack.new next (let_tree inner.now)) }
{
    stack.push(Frame::Body(inner.variables.as_slice(), &inner.body))?;
    Ok(Control::Evaluate(&inner.value))
}

// Into the first expression of a `do`.
fn enter_do<'m>(stack: &mut Stack<'m>, both: &'m Do) -> Result<Control<'m>, AllocError>
    ensures { IfOk result (λ next. Enters stack.old stack.new next (do_tree both.now)) }
{
    stack.push(Frame::Second(&both.second))?;
    Ok(Control::Evaluate(&both.first))
}

// Into the expression whose values the clauses of a `case` match.
fn enter_case<'m>(stack: &mut Stack<'m>, case: &'m Case) -> Result<Control<'m>, AllocError>
    ensures { IfOk result (λ next. Enters stack.old stack.new next (case_tree case.now)) }
{
    stack.push(Frame::Clauses(case.clauses.0.as_slice()))?;
    Ok(Control::Evaluate(&case.value))
}

// Into the timeout of a receive.
fn enter_receive<'m>(stack: &mut Stack<'m>, receive: &'m Receive) -> Result<Control<'m>, AllocError>
    ensures { IfOk result (λ next. Enters stack.old stack.new next (receive_tree receive.now)) }
{
    stack.push(Frame::Receive(receive))?;
    Ok(Control::Evaluate(&receive.timeout))
}

// Into the expression that a `try` protects.
fn enter_try<'m>(stack: &mut Stack<'m>, protected: &'m Try) -> Result<Control<'m>, AllocError>
    ensures { IfOk result (λ next. Enters stack.old stack.new next (try_tree protected.now)) }
{
    stack.push(Frame::Try(protected))?;
    Ok(Control::Evaluate(&protected.value))
}

// Into the expression that a `catch` protects.
fn enter_catch<'m>(stack: &mut Stack<'m>, protected: &'m Catch) -> Result<Control<'m>, AllocError>
    ensures { IfOk result (λ next. Enters stack.old stack.new next (catch_tree protected.now)) }
{
    stack.push(Frame::Catch)?;
    Ok(Control::Evaluate(&protected.value))
}

// The list of the numbers of a string's characters.
fn text<'m>(alloc: Global, characters: &[char]) -> Result<Control<'m>, AllocError>
    ensures same { IfOk result (λ next. Means next (limited (text_of characters.now))) }
    ensures less { IfOk result (λ next. load next ≤ 2) }
{
    let mut numbers = Vec::new(alloc);
    'characters: for character in characters {
        numbers.push(Term::Int(*character as i64))?;
    }
    Ok(limited(list_onto(alloc, numbers, Term::Nil)?))
}

// Into the arguments of what is called.
fn enter_call<'m>(
    alloc: Global,
    stack: &mut Stack<'m>,
    call: &'m Call,
) -> Result<Control<'m>, AllocError>
    ensures { IfOk result (λ next. Enters stack.old stack.new next (call_tree call.now)) }
{
    let purpose = Purpose::Call(&call.callee);
    enter_parts(alloc, stack, purpose, call.arguments.0.as_slice())
}

/// To the next of several expressions that takes a step of its own, or to what their values are for.
pub(crate) fn gather<'m>(
    alloc: Global,
    stack: &mut Stack<'m>,
    purpose: Purpose<'m>,
    done: Terms,
    later: &'m [Expr],
) -> Result<Control<'m>, AllocError>
    ensures { IfOk result (λ next.
        GathersOn stack.old stack.new next (purpose_of purpose.entry) done (map tree_of later.now)) }
{
    let mut done = done;
    let left = take_simple(stack, &mut done, later)?;
    enter_next(alloc, stack, purpose, done, left)
}

// Adds the values of the first expressions that are simple, and gives the others.
fn take_simple<'m>(
    stack: &Stack<'m>,
    done: &mut Terms,
    later: &'m [Expr],
) -> Result<&'m [Expr], AllocError>
    ensures { IfOk result (λ left. Skips (scope stack.now) done.old (map tree_of later.now) done.new (map tree_of left.now)) }
{
    let mut left = later;
    'parts: while let Some((first, others)) = left.split_first() {
        let Some(value) = simple_value(stack, first)? else {
            return Ok(left);
        };
        done.push(value)?;
        left = others;
    }
    Ok(left)
}

// The value of a number, an atom, or a variable that is bound.
fn simple_value(stack: &Stack<'_>, expression: &Expr) -> Result<Option<Term>, AllocError>
    ensures { IfOk result (λ found. IfSome found (λ value. IsValueOf (scope stack.now) (tree_of expression.now) (meaning_of value))) }
{
    match expression {
        Expr::Integer(number) => Ok(Some(Term::Int(*number))),
        Expr::Character(character) => Ok(Some(Term::Int(*character as i64))),
        Expr::Atom(atom) => Ok(Some(Term::Atom(atom.copy()?))),
        Expr::Variable(variable) => match stack.lookup(variable.name.as_slice()) {
            Some(value) => Ok(Some(value.copy()?)),
            None => Ok(None),
        },
        _ => Ok(None),
    }
}

// Into the next of several expressions, or to what their values are for.
fn enter_next<'m>(
    alloc: Global,
    stack: &mut Stack<'m>,
    purpose: Purpose<'m>,
    done: Terms,
    later: &'m [Expr],
) -> Result<Control<'m>, AllocError>
    ensures { IfOk result (λ next.
        GathersOn stack.old stack.new next (purpose_of purpose.entry) done (map tree_of later.now)) }
{
    match later.split_first() {
        Some((first, others)) => {
            stack.push(Frame::Parts(purpose, done, others))?;
            Ok(Control::Evaluate(first))
        }
        None => complete(alloc, stack, purpose, done),
    }
}

// To what several values are for.
fn complete<'m>(
    alloc: Global,
    stack: &mut Stack<'m>,
    purpose: Purpose<'m>,
    done: Terms,
) -> Result<Control<'m>, AllocError>
    ensures { IfOk result (λ next.
        GathersOn stack.old stack.new next (purpose_of purpose.entry) done []) }
{
    match purpose {
        Purpose::Tuple => Ok(limited(Term::tuple(alloc, done)?)),
        Purpose::List => Ok(limited(list_onto(alloc, done.into_vec(), Term::Nil)?)),
        Purpose::Onto(tail) => {
            stack.push(Frame::Tail(done))?;
            Ok(Control::Evaluate(tail))
        }
        Purpose::Call(callee) => Ok(dispatch(callee, done)),
        Purpose::Values => Ok(Control::Values(done)),
    }
}

// What is called, applied to its arguments.
fn dispatch<'m>(callee: &'m Callee, arguments: Terms) -> Control<'m>
    ensures same { MeansIn result (λ setting s. called_with setting (callee_of callee.now) arguments s) }
    ensures less { load result ≤ 3 }
{
    match callee {
        Callee::World(kind) => Control::Ask(*kind, arguments),
        Callee::Pure(kind) => Control::Answer(*kind, arguments),
        Callee::MatchFail => fail_match(arguments),
        Callee::Raise => raise(arguments),
        Callee::Exported(function) => Control::Apply(function, arguments),
        Callee::Defined(named) => Control::Apply(&named.function, arguments),
    }
}

// `primop 'match_fail'`: the error that its one argument reports.
fn fail_match<'m>(arguments: Terms) -> Control<'m>
    ensures same { MeansIn result (λ setting s. called_with setting callees.MatchFail arguments s) }
    ensures less { load result ≤ 2 }
{
    let mut reasons = arguments.into_vec();
    match reasons.pop() {
        Some(reason) if reasons.is_empty() => Control::Raise(Class::Error, match_reason(reason)),
        _ => error(Word::Undefined),
    }
}

// `primop 'raise'`: the exception given by its two arguments, the trace and the reason.
fn raise<'m>(arguments: Terms) -> Control<'m>
    ensures same { MeansIn result (λ setting s. called_with setting callees.Raise arguments s) }
    ensures less { load result ≤ 2 }
{
    let mut parts = arguments.into_vec();
    if parts.len() != 2 {
        return error(Word::Undefined);
    }
    match parts.pop() {
        Some(reason) => raise_again(&parts[0], reason),
        None => error(Word::Undefined),
    }
}
