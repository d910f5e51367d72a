// Copies of terms and of their parts. A copy of one term, atom, pid, reference or step shares what it is
// made of: it takes no memory and one step, and fails only where so many copies are held that they can
// no longer be counted.
ghost use Rattle.std.specs.Prelude.{◌≡◌, IfOk};
ghost use Rattle.term_core.specs.Term.{meaning_of};

use crate::atom::{Atom, Text};
use crate::pid::{Pid, RefId};
use crate::step::Step;
use crate::term::{Term, Terms};
use std::alloc::{AllocError, Global};
use std::sync::Arc;

impl Atom {
    /// The same atom, or `AllocError` where its copies can no longer be counted.
    pub fn copy(&self) -> Result<Atom, AllocError>
        ensures { IfOk result (λ copied. copied ≡ self.now) }
    {
        let text = match &self.text {
            Text::Known(word) => Text::Known(*word),
            Text::Shared(text) => Text::Shared(Arc::try_clone(text)?),
        };
        Ok(Atom { text })
    }
}

impl Pid {
    /// The same pid, or `AllocError` where its copies can no longer be counted.
    pub fn copy(&self) -> Result<Pid, AllocError>
        ensures { IfOk result (λ copied. copied ≡ self.now) }
    {
        Ok(Pid {
            numbers: Arc::try_clone(&self.numbers)?,
        })
    }
}

impl RefId {
    /// The same reference, or `AllocError` where its copies can no longer be counted.
    pub fn copy(&self) -> Result<RefId, AllocError>
        ensures { IfOk result (λ copied. copied ≡ self.now) }
    {
        Ok(RefId {
            creation: Arc::try_clone(&self.creation)?,
        })
    }
}

impl Step {
    /// The same step, or `AllocError` where the copies of its pids can no longer be counted.
    pub fn copy(&self) -> Result<Step, AllocError>
        ensures { IfOk result (λ copied. copied ≡ self.now) }
    {
        match self {
            Step::Turn(pid) => Ok(Step::Turn(pid.copy()?)),
            Step::Deliver(from, to) => Ok(Step::Deliver(from.copy()?, to.copy()?)),
        }
    }
}

impl Term {
    /// The same term, or `AllocError` where its copies can no longer be counted.
    pub fn copy(&self) -> Result<Term, AllocError>
        ensures { IfOk result (λ copied. meaning_of copied ≡ meaning_of self.now) }
    {
        match self {
            Term::Int(number) => Ok(Term::Int(*number)),
            Term::Atom(atom) => Ok(Term::Atom(atom.copy()?)),
            Term::Ref(reference) => Ok(Term::Ref(reference.copy()?)),
            Term::Pid(pid) => Ok(Term::Pid(pid.copy()?)),
            Term::Tuple(parts) => Ok(Term::Tuple(Arc::try_clone(parts)?)),
            Term::Nil => Ok(Term::Nil),
            Term::Cons(cell) => Ok(Term::Cons(Arc::try_clone(cell)?)),
        }
    }
}

impl Terms {
    /// The same terms, each a copy, or `AllocError` if there is no memory for them.
    pub fn copy(&self, alloc: Global) -> Result<Terms, AllocError>
        ensures { IfOk result (λ copied. copied ≡ self.now) }
    {
        let mut items = Vec::with_capacity(alloc, self.items.len())?;
        for part in &self.items {
            items.push(part.copy()?)?;
        }
        Ok(Terms {
            items,
            nodes: self.nodes,
        })
    }
}

impl Clone for Atom {
    ghost is_clone = { λ a b. b ≡ a };

    /// The same atom, as `copy` gives it.
    fn clone(&self) -> Result<Atom, AllocError> {
        self.copy()
    }
}

impl Clone for Pid {
    ghost is_clone = { λ a b. b ≡ a };

    /// The same pid, as `copy` gives it.
    fn clone(&self) -> Result<Pid, AllocError> {
        self.copy()
    }
}

impl Clone for RefId {
    ghost is_clone = { λ a b. b ≡ a };

    /// The same reference, as `copy` gives it.
    fn clone(&self) -> Result<RefId, AllocError> {
        self.copy()
    }
}

impl Clone for Term {
    ghost is_clone = { λ a b. meaning_of b ≡ meaning_of a };

    /// The same term, as `copy` gives it.
    fn clone(&self) -> Result<Term, AllocError> {
        self.copy()
    }
}

impl Clone for Terms {
    ghost is_clone = { λ a b. b ≡ a };

    /// The same terms, as `copy` gives them.
    fn clone(&self) -> Result<Terms, AllocError> {
        self.copy(*self.items.allocator())
    }
}
