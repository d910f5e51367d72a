// Which messages a receive takes (Core Erlang 1.0.3, "Receive").
ghost use Rattle.std.specs.Prelude.{◌≡◌, ◌++◌, ◌∷◌, [], IfOk, is_some};
ghost use Rattle.core_tree.specs.Syntax.{ModuleTree, clauses_of, patterns_of};
ghost use Rattle.core_tree.specs.Tree.{tree_of};
ghost use Rattle.term_core.specs.Term.{meaning_of};
ghost use Rattle.core_semantics.specs.Applications.{setting_of};
ghost use Rattle.core_semantics.specs.Evaluation.{at_rest, evaluate, holds, is_true, selects};
ghost use Rattle.core_stack.specs.Holes.{scope};
ghost use Rattle.core_stack.specs.Matching.{match_each};
ghost use Rattle.core_eval.specs.inside.Steps.{gave_true, is_selected_by};

use crate::build::single;
use crate::control::{Control, Halt, Pause};
use crate::leave::is_true;
use crate::run::advance;
use core_pure_calls::Dictionary;
use core_stack::{Bindings, Frame, Stack, fits, matches_each};
use core_tree::{Clause, Expr, Patterns};
use std::alloc::{AllocError, Global};
use term_core::{Pid, Term, Terms};

/// Whether one of the clauses matches the message and has a guard that holds, in the scope of the stack. A message that no
/// pattern matches takes no memory.
pub(crate) fn selects<'m>(
    alloc: Global,
    own: &Pid,
    stack: &Stack<'m>,
    clauses: &'m [Clause],
    message: &Term,
) -> Result<bool, AllocError>
    ensures { IfOk result (λ found. (m : ModuleTree) →
        found ≡ selects (setting_of m own.now) (clauses_of clauses.now) (scope stack.now) (meaning_of message.now)) }
{
    let mut left = clauses;
    while let Some((clause, others)) = left.split_first() {
        if takes(alloc, own, stack, clause, message)? {
            return Ok(true);
        }
        left = others;
    }
    Ok(false)
}

// Whether there is one pattern, and the message matches it.
fn fits_alone(patterns: &Patterns, message: &Term) -> bool
    ensures { result ≡ is_some (match_each (patterns_of patterns.now) (meaning_of message.now ∷ []) []) }
{
    match patterns.0.as_slice() {
        [pattern] => fits(pattern, message),
        _ => false,
    }
}

// Whether the message matches a clause whose guard holds. Where that is `'true'` nothing is bound.
fn takes<'m>(
    alloc: Global,
    own: &Pid,
    stack: &Stack<'m>,
    clause: &'m Clause,
    message: &Term,
) -> Result<bool, AllocError>
    ensures { IfOk result (λ held. (m : ModuleTree) →
        held ≡ is_selected_by (setting_of m own.now) (scope stack.now) clause.now (meaning_of message.now)) }
{
    if !fits_alone(&clause.patterns, message) {
        return Ok(false);
    }
    if is_true(&clause.guard) {
        return Ok(true);
    }
    let values = single(alloc, message.copy()?)?;
    let mut bindings = Bindings::new(alloc);
    if !matches_each(&clause.patterns, &values, &mut bindings)? {
        return Ok(false);
    }
    holds(alloc, own, stack, bindings, &clause.guard)
}

// Whether a guard gives `'true'`, with these variables on top of those in the scope of the stack. It is evaluated
// apart, where it can neither ask for anything nor apply a function, and sees an empty dictionary.
fn holds<'m>(
    alloc: Global,
    own: &Pid,
    stack: &Stack<'m>,
    bindings: Bindings<'m>,
    guard: &'m Expr,
) -> Result<bool, AllocError>
    ensures { IfOk result (λ held. (m : ModuleTree) →
        held ≡ holds (evaluate (setting_of m own.now) (tree_of guard.now) (bindings.entry ++ scope stack.now) at_rest)) }
{
    let mut apart = Stack::new(alloc);
    apart.push(Frame::Kept(stack.variables(alloc)?))?;
    apart.push(Frame::Kept(bindings))?;
    let mut empty = Dictionary::new();
    let pause = advance(alloc, own, &mut apart, &mut empty, Control::Evaluate(guard))?;
    Ok(gave_true(&pause))
}

// Whether an evaluation that comes there gave `'true'` and nothing else.
fn gave_true(pause: &Pause) -> bool
    ensures { result ≡ gave_true pause.now }
{
    match pause {
        Pause::Halt(Halt::Values(values)) => are_true(values),
        Pause::Halt(Halt::Raise(_, _) | Halt::Ask(_, _) | Halt::Wait(_)) => false,
        Pause::Application(_, _) => false,
    }
}

// Whether these values are `'true'` and nothing else.
fn are_true(values: &Terms) -> bool
    ensures { result ≡ is_true values.now }
{
    match values.as_slice() {
        [value] => value.is_the_atom("true"),
        _ => false,
    }
}
