// A mailbox as the map holds it.
ghost use Rattle.std.specs.Prelude.{◌≡◌, ◌<◌, [], ◌∷◌, ◌++◌, Some, IfOk, OnOk, OnErr, length, slice_get};
ghost use Rattle.std.specs.List.{remove};
ghost use Rattle.term_core.specs.Term.{meaning_of};

use proc_signals::Mailbox;
use std::alloc::{AllocError, Global};
use std::marker::Model;
use term_core::Term;

/// A mailbox; a clone shares its messages. Contracts see its messages.
#[derive(Drop)]
pub(crate) struct Held {
    mailbox: Mailbox,
}

impl Model for Held {
    ghost use Rattle.std.specs.Prelude.{List};
    ghost use Rattle.std.specs.Coded.{coded_list};
    ghost use Rattle.term_core.specs.Meaning.{Meaning};
    ghost use Rattle.term_core.specs.inside.MeaningCodes.{coded_meaning};

    ghost Value = { List Meaning };

    ghost coded = { coded_list coded_meaning };

    ghost view = { λ h. h.mailbox };
}

impl Clone for Held {
    ghost is_clone = { λ a b. b ≡ a };

    /// The same mailbox, or `AllocError` where its copies can no longer be counted.
    fn clone(&self) -> Result<Held, AllocError> {
        Ok(Held {
            mailbox: self.mailbox.copy()?,
        })
    }
}

impl PartialEq for Held {
    ghost use Rattle.std.specs.Cmp.{partial_equiv_from_equiv};
    ghost use Rattle.std.specs.Cmp.Lexicographic.{pointwise};
    ghost use Rattle.proc_mailboxes.specs.inside.Alike.{same_messages, messages_equal};

    ghost eq = { same_messages };

    ghost laws = { partial_equiv_from_equiv messages_equal };

    /// Whether the two have the same messages, in one order. It takes no memory.
    fn eq(&self, other: &Held) -> bool {
        self.mailbox.is_same(&other.mailbox)
    }
}

impl Held {
    /// A mailbox with one message.
    pub(crate) fn of(alloc: Global, message: Term) -> Result<Held, AllocError>
        ensures { IfOk result (λ held. held ≡ meaning_of message ∷ []) }
    {
        let mut mailbox = Mailbox::new(alloc)?;
        mailbox.put(message)?;
        Ok(Held { mailbox })
    }

    /// The mailbox.
    pub(crate) fn mailbox(&self) -> &Mailbox
        ensures { result.now ≡ self.now }
    {
        &self.mailbox
    }

    /// A message comes in.
    pub(crate) fn put(&mut self, message: Term) -> Result<(), AllocError>
        ensures ok { OnOk result (self.new ≡ self.old ++ meaning_of message ∷ []) }
        ensures err { OnErr result (self.new ≡ self.old) }
    {
        self.mailbox.put(message)?;
        Ok(())
    }

    /// The message at a place is taken out.
    pub(crate) fn take_at(&mut self, place: usize) -> Result<Term, AllocError>
        requires { place < length self.old }
        ensures message { IfOk result (λ message. slice_get self.old place ≡ Some (meaning_of message)) }
        ensures rest { OnOk result (self.new ≡ remove self.old place) }
        ensures err { OnErr result (self.new ≡ self.old) }
    {
        let message = self.mailbox.take_at(place)?;
        Ok(message)
    }
}
