// What happened, shared by the worlds that saw it happen.
ghost use Rattle.std.specs.Prelude.{◌≡◌, ◌∷◌, Some, IfOk, option_map};
ghost use Rattle.world_core.specs.Shared.{events_in};
ghost use Rattle.world_model.specs.Run.{latest};
ghost use Rattle.world_footprints.specs.Deeds.{event_in};

use std::alloc::{AllocError, Global};
use std::marker::Model;
use std::sync::Arc;
use world_plans::Event;

/// The events of a world, the latest first. Copies share them.
#[derive(Drop)]
#[cycle(events)]
pub(crate) enum Events {
    /// Nothing happened yet.
    Nothing,
    /// An event, with those before it.
    Then(Arc<Link>),
}

/// An event with those before it. Contracts see the history of all of them.
#[cycle(events)]
pub(crate) struct Link {
    event: Event,
    before: Events,
}

impl Model for Link {
    ghost use Rattle.std.specs.Prelude.{◌∷◌, List, length};
    ghost use Rattle.world_model.specs.Events.{History};
    ghost use Rattle.world_core.specs.inside.EventCodes.{coded_history};

    ghost Value = { History };

    ghost coded = { coded_history };

    ghost use Rattle.world_footprints.specs.Deeds.{event_in};
    ghost use Rattle.world_core.specs.Shared.{events_in};

    ghost view = { λ l. event_in l.event ∷ events_in l.before };

    ghost size = { length };

    ghost use Rattle.std.proofs.Common.{arith};

    ghost size_decreases = { λ a h. Prim.grind arith };
}

impl Link {
    // The event, and those before it.
    fn into_parts(self) -> (Event, Events)
        ensures { self ≡ event_in result.0 ∷ events_in result.1 }
    {
        let Link { event, before } = self;
        (event, before)
    }
}

impl Drop for Link {
    // Events are dropped by a loop, so that there may be any number. It ends at one that other worlds saw as well.
    fn drop(self) {
        let Link { event, mut before } = self;
        drop(event);
        loop {
            match before {
                Events::Then(link) => match Arc::into_inner(link) {
                    Some(link) => {
                        let (event, rest) = link.into_parts();
                        drop(event);
                        before = rest;
                    }
                    None => return,
                },
                Events::Nothing => return,
            }
        }
    }
}

impl Events {
    /// These events with one more, or `AllocError` if there is no memory for it, and then they are dropped.
    pub(crate) fn with(self, alloc: Global, event: Event) -> Result<Events, AllocError>
        ensures { IfOk result (λ events. events_in events ≡ event_in event ∷ events_in self) }
    {
        let link = Link {
            event,
            before: self,
        };
        Ok(Events::Then(Arc::new(alloc, link)?))
    }

    /// The same events. It takes no memory and one step, or fails with `AllocError` where the copies can no longer be
    /// counted.
    pub(crate) fn copy(&self) -> Result<Events, AllocError>
        ensures { IfOk result (λ copied. events_in copied ≡ events_in self.now) }
    {
        match self {
            Events::Nothing => Ok(Events::Nothing),
            Events::Then(link) => Ok(Events::Then(Arc::try_clone(link)?)),
        }
    }

    /// The latest event, if there is one. It takes no memory.
    pub(crate) fn latest(&self) -> Option<&Event>
        ensures { option_map (λ event. event_in event.now) result ≡ latest (Some (events_in self.now)) }
    {
        match self {
            Events::Nothing => None,
            Events::Then(link) => {
                let link: &Link = link;
                Some(&link.event)
            }
        }
    }
}
