// The frames of the stack: what is still to do with the values of an expression, or with what it raises.
ghost use Rattle.std.specs.Prelude.{◌≡◌, ◌∷◌, ◌++◌, List, IfOk, OnOk, option_map};
ghost use Rattle.core_stack.specs.inside.Frames.{hole_of};
ghost use Rattle.core_stack.specs.Holes.{waits_on};
ghost use Rattle.core_stack.specs.Holes.{Hole, hides, kept_in, only_keeps};
ghost use Rattle.core_stack.specs.Matching.{lookup};
ghost use Rattle.term_core.specs.Term.{meaning_of};

use crate::bindings::{Bindings, Seen};
use core_tree::{Callee, Clause, Expr, Receive, Try, Variable};
use std::alloc::{AllocError, Global};
use std::hash::{Hash, Hasher};
use term_core::{Term, Terms};

/// What several expressions are evaluated for.
#[derive(Clone, Copy)]
pub enum Purpose<'m> {
    /// The parts of a tuple.
    Tuple,
    /// The items of a list.
    List,
    /// The items of a list that goes on with the value of this expression.
    Onto(&'m Expr),
    /// The arguments of what is called.
    Call(&'m Callee),
    /// Values side by side.
    Values,
}

/// An expression with one part that is being evaluated.
#[derive(Drop)]
pub enum Frame<'m> {
    /// One of several expressions: what they are for, the values of those before it, and those after it.
    Parts(Purpose<'m>, Terms, &'m [Expr]),
    /// The tail after these items of a list.
    Tail(Terms),
    /// The values of a `let`: its variables and its body.
    Body(&'m [Variable], &'m Expr),
    /// The first expression of a `do`, and the second.
    Second(&'m Expr),
    /// The values of a `case`, and its clauses.
    Clauses(&'m [Clause]),
    /// The guard of a clause: what its patterns bind, its body, the clauses after it, and the values of the
    /// `case`.
    Guard(Bindings<'m>, &'m Expr, &'m [Clause], Terms),
    /// The timeout of a receive; while the process waits, the receive itself.
    Receive(&'m Receive),
    /// What a `try` protects.
    Try(&'m Try),
    /// What a `catch` protects.
    Catch,
    /// An expression inside the scope of these variables.
    Kept(Bindings<'m>),
    /// The body of a function, with its parameters as the only variables in scope.
    Applied(Bindings<'m>),
}

impl<'m> Frame<'m> {
    /// The value of the innermost variable of this name that the frame keeps.
    pub fn lookup(&self, name: &[u8]) -> Option<&Term>
        ensures { option_map (λ found. meaning_of found.now) result ≡ lookup name.now (kept_in (hole_of self.now)) }
    {
        match self {
            Frame::Kept(bindings) | Frame::Applied(bindings) => bindings.lookup(name),
            Frame::Guard(bindings, _, _, _) => bindings.lookup(name),
            _ => None,
        }
    }

    /// Adds the variables that the frame keeps, or some of them with `AllocError` if there is no memory for it.
    pub fn see(&self, seen: &mut Seen<'m>) -> Result<(), AllocError>
        ensures { OnOk result (seen.new ≡ seen.old ++ kept_in (hole_of self.now)) }
    {
        match self {
            Frame::Kept(bindings) | Frame::Applied(bindings) => seen.add(bindings),
            Frame::Guard(bindings, _, _, _) => seen.add(bindings),
            _ => Ok(()),
        }
    }

    /// The receive whose timeout the frame leaves out.
    pub fn receive(&self) -> Option<&'m Receive>
        ensures { (below : List Hole) → option_map (λ receive. (receive.now.1, receive.now.3)) result ≡ waits_on (hole_of self.now ∷ below) }
    {
        match self {
            Frame::Receive(receive) => Some(receive),
            _ => None,
        }
    }

    /// Whether no variable below the frame is in scope above it.
    pub fn hides_below(&self) -> bool
        ensures { result ≡ hides (hole_of self.now) }
    {
        matches!(self, Frame::Applied(_))
    }

    /// Whether the frame only keeps variables, so that what leaves it is what reached it.
    pub fn only_keeps(&self) -> bool
        ensures { result ≡ only_keeps (hole_of self.now) }
    {
        matches!(self, Frame::Kept(_) | Frame::Applied(_))
    }

    /// The same frame, or `AllocError` if there is no memory for it.
    pub fn copy(&self, alloc: Global) -> Result<Frame<'m>, AllocError>
        ensures { IfOk result (λ copied. hole_of copied ≡ hole_of self.now) }
    {
        Ok(match self {
            Frame::Parts(purpose, done, later) => Frame::Parts(*purpose, done.copy(alloc)?, later),
            Frame::Tail(items) => Frame::Tail(items.copy(alloc)?),
            Frame::Body(variables, body) => Frame::Body(variables, body),
            Frame::Second(second) => Frame::Second(second),
            Frame::Clauses(clauses) => Frame::Clauses(clauses),
            Frame::Guard(bindings, body, others, values) => {
                Frame::Guard(bindings.copy(alloc)?, body, others, values.copy(alloc)?)
            }
            Frame::Receive(receive) => Frame::Receive(receive),
            Frame::Try(protected) => Frame::Try(protected),
            Frame::Catch => Frame::Catch,
            Frame::Kept(bindings) => Frame::Kept(bindings.copy(alloc)?),
            Frame::Applied(bindings) => Frame::Applied(bindings.copy(alloc)?),
        })
    }

    /// Feeds a hasher with the kind and the values of the frame, and with how much code it has: the same for frames that
    /// are the same. It takes no memory.
    pub(crate) fn feed<H: Hasher>(&self, state: &mut H) {
        match self {
            Frame::Parts(_, done, later) => {
                state.write_u8(0);
                done.hash(state);
                state.write_usize(later.len());
            }
            Frame::Tail(items) => {
                state.write_u8(1);
                items.hash(state);
            }
            Frame::Body(variables, _) => {
                state.write_u8(2);
                state.write_usize(variables.len());
            }
            Frame::Second(_) => state.write_u8(3),
            Frame::Clauses(clauses) => {
                state.write_u8(4);
                state.write_usize(clauses.len());
            }
            Frame::Guard(bindings, _, clauses, values) => {
                state.write_u8(5);
                bindings.feed(state);
                state.write_usize(clauses.len());
                values.hash(state);
            }
            Frame::Receive(receive) => {
                state.write_u8(6);
                state.write_usize(receive.clauses.0.len());
            }
            Frame::Try(_) => state.write_u8(7),
            Frame::Catch => state.write_u8(8),
            Frame::Kept(bindings) => {
                state.write_u8(9);
                bindings.feed(state);
            }
            Frame::Applied(bindings) => {
                state.write_u8(10);
                bindings.feed(state);
            }
        }
    }
}
