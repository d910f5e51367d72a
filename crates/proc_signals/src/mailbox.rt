// Mailboxes.
ghost use Rattle.std.specs.Prelude.{◌≡◌, ◌<◌, ◌^◌, Bool, [], ◌∷◌, ◌++◌, IfOk, IfSome, OnOk, OnErr, Some, length, slice_get, option_and_then, option_map};
ghost use Rattle.std.specs.Cmp.Lexicographic.{pointwise};
ghost use Rattle.std.specs.List.{remove};
ghost use Rattle.term_core.specs.Meaning.{Meaning};
ghost use Rattle.term_core.specs.Term.{meaning_of};
ghost use Rattle.world_model.specs.Cells.{Contents};
ghost use Rattle.world_model.specs.Changes.{MessageAdded, after, changed, without_first, is_of_watch};
ghost use Rattle.world_model.specs.Mailboxes.{mailbox_in, picked, selected_of};
ghost use Rattle.world_model.specs.Names.{Pid as PidSeen, ref_of, same_term};
ghost use Rattle.proc_signals.specs.Mailbox.{first_place, IsMailbox, IsTakenAt};

use crate::messages::Messages;
use std::alloc::{AllocError, Global};
use std::hash::Hasher;
use std::marker::Model;
use std::sync::Arc;
use term_core::{RefId, Term};

/// What takes some messages and not others, as a receive does.
pub trait Selector {
    ghost use Rattle.std.specs.Prelude.{Bool};
    ghost use Rattle.term_core.specs.Meaning.{Meaning};

    ghost takes: { Self → Meaning → Bool };

    /// Whether it takes this message, or `AllocError` if that cannot be determined for lack of memory.
    fn selects(&self, alloc: Global, message: &Term) -> Result<bool, AllocError>
        ensures { IfOk result (λ selected. selected ≡ takes self.now (meaning_of message.now)) };
}

/// The messages of a process that have arrived, the oldest first. Contracts see them as a list. Copies
/// share the messages until one of them is changed.
pub struct Mailbox {
    messages: Arc<Messages>,
}

// Dropped by a call, so that no crate above proves again how.
impl Drop for Mailbox {
    fn drop(self) {
        let Mailbox { messages: _ } = self;
    }
}

impl Model for Mailbox {
    ghost use Rattle.std.specs.Prelude.{List};
    ghost use Rattle.std.specs.Coded.{coded_list};
    ghost use Rattle.term_core.specs.Meaning.{Meaning};
    ghost use Rattle.term_core.specs.inside.MeaningCodes.{coded_meaning};

    ghost Value = { List Meaning };

    ghost coded = { coded_list coded_meaning };

    ghost view = { λ m. m.messages.value };
}

impl Mailbox {
    /// No messages, or `AllocError` if there is no memory for it.
    pub fn new(alloc: Global) -> Result<Mailbox, AllocError>
        ensures { IfOk result (λ mailbox. mailbox ≡ []) }
    {
        Ok(Mailbox {
            messages: Arc::new(alloc, Messages::new(alloc))?,
        })
    }

    /// The same mailbox, or `AllocError` where its copies can no longer be counted. It takes no memory and
    /// one step.
    pub fn copy(&self) -> Result<Mailbox, AllocError>
        ensures { IfOk result (λ copied. copied ≡ self.now) }
    {
        Ok(Mailbox {
            messages: Arc::try_clone(&self.messages)?,
        })
    }

    /// Whether the two have the same messages, in one order. It takes no memory.
    pub fn is_same(&self, other: &Mailbox) -> bool
        ensures { result ≡ pointwise same_term self.now other.now }
    {
        self.messages.is_same(&other.messages)
    }

    /// Feeds a hasher with the messages: the same for mailboxes that are the same. It takes no memory.
    pub fn feed<H: Hasher>(&self, state: &mut H) {
        self.messages.feed(state);
    }

    /// How many messages there are, fewer than 2^63.
    pub fn len(&self) -> usize
        ensures length { result ≡ length self.now }
        ensures fits { result < 2 ^ 63 }
    {
        self.messages.len()
    }

    /// The message at a place, counted from 0, if there is one. It takes no memory.
    pub fn get(&self, place: usize) -> Option<&Term>
        ensures { option_map (λ message. meaning_of message.now) result ≡ slice_get self.now place }
    {
        self.messages.get(place)
    }

    /// A message comes in, after the others (Erlang reference manual, "Processes", "Delivery of Signals"), or
    /// `AllocError` if there is no memory for it: then the mailbox is as it was, and the message is dropped.
    #[tactic(auto, using(crate::proofs::Cells::mails_follow))]
    pub fn put(&mut self, message: Term) -> Result<(), AllocError>
        ensures ok { OnOk result (self.new ≡ self.old ++ meaning_of message ∷ []) }
        ensures mails { OnOk result ((v : Contents) (p : PidSeen) →
            IsMailbox self.old v p → IsMailbox self.new (changed (MessageAdded p (meaning_of message)) v) p) }
        ensures err { OnErr result (self.new ≡ self.old) }
    {
        let messages = Arc::make_mut(&mut self.messages)?;
        messages.put(message)?;
        Ok(())
    }

    /// The place of the oldest message that is selected, if there is one, counted from 0 (Erlang reference manual,
    /// "Expressions", "Receive"). `AllocError` where the selector has no memory to decide.
    #[tactic(auto, using(crate::proofs::Removing::found_selected, crate::proofs::Removing::found_within))]
    pub fn find_match<S: Selector>(
        &self,
        alloc: Global,
        selector: &S,
    ) -> Result<Option<usize>, AllocError>
        ensures found { IfOk result (λ found. found ≡ first_place (S.takes selector.now) self.now) }
        ensures within { IfOk result (λ found. IfSome found (λ place. place < length self.now)) }
        ensures selected { IfOk result (λ found.
            option_and_then (slice_get self.now) found ≡ selected_of (S.takes selector.now) self.now) }
    {
        let found = self.messages.find_match(alloc, selector)?;
        Ok(found)
    }

    /// Takes out the message at a place; the others keep their order. `AllocError` if there is no memory for
    /// it, and then the mailbox is as it was.
    pub fn take_at(&mut self, place: usize) -> Result<Term, AllocError>
        requires { place < length self.old }
        ensures message { IfOk result (λ message. slice_get self.old place ≡ Some (meaning_of message)) }
        ensures rest { OnOk result (self.new ≡ remove self.old place) }
        ensures picks { IfOk result (λ message. IsTakenAt place (meaning_of message) self.old self.new) }
        ensures err { OnErr result (self.new ≡ self.old) }
    {
        let messages = Arc::make_mut(&mut self.messages)?;
        Ok(messages.take_at(place))
    }

    /// The oldest message of a watch, if there is one: a tuple of five with this reference second (OTP, module
    /// `erlang`, `demonitor/2` with the option `flush`). It takes no memory.
    #[tactic(auto, using(crate::proofs::Removing::place_selected, crate::proofs::Removing::none_selected))]
    pub fn down(&self, reference: &RefId) -> Option<&Term>
        ensures { option_map (λ message. meaning_of message.now) result ≡ selected_of (is_of_watch (ref_of reference.now)) self.now }
    {
        let Some(place) = self.messages.find_down(reference) else {
            return None;
        };
        self.get(place)
    }

    /// Takes out the oldest message of a watch, if there is one: a tuple of five with this reference second
    /// (OTP, module `erlang`, `demonitor/2` with the option `flush`). `AllocError` if there is no memory for
    /// it, and then the mailbox is as it was.
    #[tactic(auto, using(crate::proofs::Removing::place_removed, crate::proofs::Removing::none_removed, crate::proofs::Cells::picked_follows))]
    pub fn flush_down(&mut self, reference: &RefId) -> Result<(), AllocError>
        ensures ok { OnOk result (self.new ≡ without_first (is_of_watch (ref_of reference.now)) self.old) }
        ensures flushes { OnOk result ((v : Contents) (p : PidSeen) →
            IsMailbox self.old v p → IsMailbox self.new (after (picked p (selected_of (is_of_watch (ref_of reference.now)) (mailbox_in v p))) v) p) }
        ensures err { OnErr result (self.new ≡ self.old) }
    {
        let Some(place) = self.messages.find_down(reference) else {
            return Ok(());
        };
        drop(self.take_at(place)?);
        Ok(())
    }
}
