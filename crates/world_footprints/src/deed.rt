// What happens in a world.
use core_tree::CallKind;
use proc_links::Effect;
use proc_signals::Signal;
use std::sync::Arc;
use term_core::{Step, Term, Terms};
use world_planned::reply::Refusal;

/// What a step did.
#[derive(Drop)]
pub enum Deed {
    /// A call was served.
    Served {
        kind: CallKind,
        arguments: Arc<Terms>,
        answer: Term,
    },
    /// A call was refused.
    Refused {
        kind: CallKind,
        arguments: Arc<Terms>,
        refusal: Refusal,
    },
    /// A call ended its caller with this reason (erlang manual, `exit/2`).
    EndedItself {
        kind: CallKind,
        arguments: Arc<Terms>,
        reason: Term,
    },
    /// A receive took this message (Erlang reference manual, "Receive").
    Received(Term),
    /// A receive reached its timeout.
    TimedOut,
    /// The process ended with this reason.
    Ended(Term),
    /// The process made too many applications without a request.
    RanAway,
    /// A signal was delivered, with this effect (Erlang reference manual, "Processes": "Receiving Exit Signals").
    Delivered(Signal, Effect),
}

/// A step, and what it did.
pub struct Event {
    /// The step.
    pub step: Step,
    /// What it did.
    pub deed: Deed,
}

// Dropped by a call, so that no crate above proves again how.
impl Drop for Event {
    fn drop(self) {
        let Event { step: _, deed: _ } = self;
    }
}
