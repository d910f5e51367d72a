// What a process asks of the world that it runs in, and what it is answered.
ghost use Rattle.std.specs.Prelude.{◌≡◌, IfOk, true};
ghost use Rattle.core_eval.specs.Requests.{told_by};
ghost use Rattle.term_core.specs.Term.{meaning_of};

use core_tree::CallKind;
use std::alloc::AllocError;
use std::hash::{Hash, Hasher};
use std::sync::Arc;
use term_core::{Term, Terms};

/// What a process that runs asks of the world.
#[derive(Drop)]
pub enum Request {
    /// A call of a process or of a table, with its arguments, as many as the call has.
    Call(CallKind, Arc<Terms>),
    /// A receive; it waits for ever where its timeout is `'infinity'`. `Machine::selects` says which messages it takes.
    Receive { waits: bool },
    /// The process has ended, with this reason.
    End(Term),
    /// The process made as many applications of its module's functions as that allows since its start or its last answer, and
    /// would make one more. Nothing catches it, and no answer fits.
    Runaway,
}

/// What the world answers to a request.
#[derive(Drop)]
pub enum Answer {
    /// To a call: its value.
    Value(Term),
    /// To a call: it is refused, which raises this reason as an error.
    Raise(Term),
    /// To a receive: a message that it takes.
    Message(Term),
    /// To a receive that does not wait for ever: no such message came in time.
    TimedOut,
}

fn same_kind(a: CallKind, b: CallKind) -> bool
    ensures { result ≡ true → a ≡ b }
{
    a == b
}

fn same_terms(a: &Terms, b: &Terms) -> bool
    ensures { result ≡ true → a.now ≡ b.now }
{
    *a == *b
}

fn same_term(a: &Term, b: &Term) -> bool
    ensures { result ≡ true → meaning_of a.now ≡ meaning_of b.now }
{
    *a == *b
}

impl Request {
    /// Whether two requests say the same. It takes no memory.
    pub fn is_same(&self, other: &Request) -> bool
        ensures { result ≡ true → told_by self.now ≡ told_by other.now }
    {
        match (self, other) {
            (Request::Call(kind, arguments), Request::Call(asked, others)) => {
                same_kind(*kind, *asked) && same_terms(arguments, others)
            }
            (Request::Receive { waits }, Request::Receive { waits: others }) => *waits == *others,
            (Request::End(reason), Request::End(other)) => same_term(reason, other),
            (Request::Runaway, Request::Runaway) => true,
            _ => false,
        }
    }

    /// Feeds a hasher with what is asked: the same for requests that say the same. It takes no memory.
    pub(crate) fn feed<H: Hasher>(&self, state: &mut H) {
        match self {
            Request::Call(kind, arguments) => {
                state.write_u8(0);
                kind.hash(state);
                arguments.hash(state);
            }
            Request::Receive { waits } => {
                state.write_u8(1);
                waits.hash(state);
            }
            Request::End(reason) => {
                state.write_u8(2);
                reason.hash(state);
            }
            Request::Runaway => state.write_u8(3),
        }
    }

    /// The same request, or `AllocError` where its copies can no longer be counted. It takes no memory.
    pub fn copy(&self) -> Result<Request, AllocError>
        ensures { IfOk result (λ copied. told_by copied ≡ told_by self.now) }
    {
        Ok(match self {
            Request::Call(kind, arguments) => Request::Call(*kind, Arc::try_clone(arguments)?),
            Request::Receive { waits } => Request::Receive { waits: *waits },
            Request::End(reason) => Request::End(reason.copy()?),
            Request::Runaway => Request::Runaway,
        })
    }
}
