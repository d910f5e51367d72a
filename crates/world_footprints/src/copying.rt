// Deeds that are copied.
ghost use Rattle.std.specs.Prelude.{◌≡◌, IfOk};
ghost use Rattle.proc_links.specs.Effects.{fate_in};
ghost use Rattle.world_footprints.specs.Deeds.{deed_in};
ghost use Rattle.world_planned.specs.Replies.{refusal_in};

use crate::deed::Deed;
use proc_links::Effect;
use std::alloc::AllocError;
use std::sync::Arc;
use term_core::Pid;
use world_planned::reply::Refusal;

/// The same owner, if there is one, or `AllocError` where the copies can no longer be counted.
pub fn copy_owner(owner: &Option<Pid>) -> Result<Option<Pid>, AllocError>
    ensures { IfOk result (λ copied. copied ≡ owner.now) }
{
    match owner {
        Some(pid) => Ok(Some(pid.copy()?)),
        None => Ok(None),
    }
}

// The same refusal.
fn copy_refusal(refusal: &Refusal) -> Result<Refusal, AllocError>
    ensures { IfOk result (λ copied. refusal_in copied ≡ refusal_in refusal.now) }
{
    match refusal {
        Refusal::BadArgument => Ok(Refusal::BadArgument),
        Refusal::NoProcess => Ok(Refusal::NoProcess),
        Refusal::ByRule(rule, owner) => Ok(Refusal::ByRule(*rule, copy_owner(owner)?)),
    }
}

// The same effect.
fn copy_effect(effect: &Effect) -> Result<Effect, AllocError>
    ensures { IfOk result (λ copied. fate_in copied ≡ fate_in effect.now) }
{
    match effect {
        Effect::Ends(reason) => Ok(Effect::Ends(reason.copy()?)),
        Effect::Ignored => Ok(Effect::Ignored),
        Effect::Dropped => Ok(Effect::Dropped),
        Effect::Put(message) => Ok(Effect::Put(message.copy()?)),
    }
}

/// The same deed, which shares its terms with this one, or `AllocError` where the copies can no longer be counted.
pub fn copy_deed(deed: &Deed) -> Result<Deed, AllocError>
    ensures { IfOk result (λ copied. deed_in copied ≡ deed_in deed.now) }
{
    match deed {
        Deed::Served {
            kind,
            arguments,
            answer,
        } => Ok(Deed::Served {
            kind: *kind,
            arguments: Arc::try_clone(arguments)?,
            answer: answer.copy()?,
        }),
        Deed::Refused {
            kind,
            arguments,
            refusal,
        } => Ok(Deed::Refused {
            kind: *kind,
            arguments: Arc::try_clone(arguments)?,
            refusal: copy_refusal(refusal)?,
        }),
        Deed::EndedItself {
            kind,
            arguments,
            reason,
        } => Ok(Deed::EndedItself {
            kind: *kind,
            arguments: Arc::try_clone(arguments)?,
            reason: reason.copy()?,
        }),
        Deed::Received(message) => Ok(Deed::Received(message.copy()?)),
        Deed::TimedOut => Ok(Deed::TimedOut),
        Deed::Ended(reason) => Ok(Deed::Ended(reason.copy()?)),
        Deed::RanAway => Ok(Deed::RanAway),
        Deed::Delivered(signal, effect) => {
            Ok(Deed::Delivered(signal.copy()?, copy_effect(effect)?))
        }
    }
}
