// Mailboxes by their processes, as they lie in memory.
ghost use Rattle.std.specs.Prelude.{◌≡◌, ◌<◌, [], ◌∷◌, ◌++◌, IfOk, OnOk, OnErr, length, option_copied, option_map, slice_get, true};
ghost use Rattle.std.specs.List.{remove};
ghost use Rattle.proc_mailboxes.specs.Mailboxes.{IsChangedAt, TakesFrom, messages_in};
ghost use Rattle.proc_signals.specs.Channels.{beside};
ghost use Rattle.term_core.specs.Term.{meaning_of};

use crate::held::Held;
use proc_signals::Mailbox;
use std::alloc::{AllocError, Global};
use std::collections::BTreeMap;
use std::hash::Hasher;
use std::marker::Model;
use term_core::{Pid, Term};

/// The mailbox of each process that ever had a message. Contracts see the processes in their order, each
/// with its messages.
#[derive(Drop)]
pub(crate) struct MailboxMap {
    mailboxes: BTreeMap<Pid, Held>,
}

impl Model for MailboxMap {
    ghost use Rattle.std.specs.Prelude.{ℕ, List};
    ghost use Rattle.std.specs.Coded.{coded_list, coded×, coded_ℕ};
    ghost use Rattle.term_core.specs.Meaning.{Meaning};
    ghost use Rattle.term_core.specs.inside.MeaningCodes.{coded_meaning};

    ghost Value = { List (List ℕ × List Meaning) };

    ghost coded = { coded_list (coded× (coded_list coded_ℕ) (coded_list coded_meaning)) };

    ghost view = { λ m. m.mailboxes.entries };
}

impl Clone for MailboxMap {
    ghost is_clone = { λ a b. b ≡ a };

    /// The same mailboxes, shared, or `AllocError` if there is no memory for it.
    fn clone(&self) -> Result<MailboxMap, AllocError> {
        Ok(MailboxMap {
            mailboxes: self.mailboxes.clone()?,
        })
    }
}

impl MailboxMap {
    /// No mailboxes. It takes no memory.
    pub(crate) fn new(alloc: Global) -> MailboxMap
        ensures { result ≡ [] }
    {
        MailboxMap {
            mailboxes: BTreeMap::new(alloc),
        }
    }

    /// Whether one process has a mailbox with the same messages in both, or in none of them. It takes no memory.
    pub(crate) fn is_same_at(&self, pid: &Pid, other: &MailboxMap) -> bool
        ensures { result ≡ true → messages_in self.now pid.now ≡ messages_in other.now pid.now }
    {
        match (self.mailboxes.get(pid), other.mailboxes.get(pid)) {
            (None, None) => true,
            (Some(one), Some(another)) => *one == *another,
            _ => false,
        }
    }

    /// Feeds a hasher with the messages of one process: the same for mailboxes that are the same. It takes no memory.
    pub(crate) fn feed_at<H: Hasher>(&self, pid: &Pid, state: &mut H) {
        if let Some(held) = self.mailboxes.get(pid) {
            held.mailbox().feed(state);
        }
    }

    /// The mailbox of a process, if it has one. It takes no memory.
    pub(crate) fn get(&self, pid: &Pid) -> Option<&Mailbox>
        ensures { option_copied result ≡ beside self.now pid.now }
    {
        match self.mailboxes.get(pid) {
            Some(held) => Some(held.mailbox()),
            None => None,
        }
    }

    /// A message comes in to a process, after the others, or `AllocError` if there is no memory for it; then the
    /// message is dropped.
    pub(crate) fn put(&mut self, alloc: Global, pid: &Pid, message: Term) -> Result<(), AllocError>
        ensures ok { OnOk result (IsChangedAt pid.now (λ messages. messages ++ meaning_of message ∷ []) self.old self.new) }
        ensures err { OnErr result (self.new ≡ self.old) }
    {
        if let Some(mailbox) = self.mailboxes.get_mut(pid) {
            mailbox.put(message)?;
            return Ok(());
        }
        self.open(alloc, pid, message)?;
        Ok(())
    }

    // Begins the mailbox of a process with a message.
    fn open(&mut self, alloc: Global, pid: &Pid, message: Term) -> Result<(), AllocError>
        requires { messages_in self.old pid.now ≡ [] }
        ensures ok { OnOk result (IsChangedAt pid.now (λ messages. messages ++ meaning_of message ∷ []) self.old self.new) }
        ensures err { OnErr result (self.new ≡ self.old) }
    {
        let mailbox = Held::of(alloc, message)?;
        self.mailboxes.insert(pid.copy()?, mailbox)?;
        Ok(())
    }

    /// Takes over the mailbox of one process, which both share then, or has none for it where the other has none.
    /// `AllocError` if there is no memory for it.
    pub(crate) fn take_from(&mut self, pid: &Pid, other: &MailboxMap) -> Result<(), AllocError>
        ensures { OnOk result (TakesFrom pid.now other.now self.old self.new) }
    {
        let Some(held) = other.mailboxes.get(pid) else {
            self.mailboxes.remove(pid);
            return Ok(());
        };
        self.mailboxes.insert(pid.copy()?, held.clone()?)?;
        Ok(())
    }

    /// Takes out the message of a process at a place, or `AllocError` if there is no memory for it.
    pub(crate) fn take_at(&mut self, pid: &Pid, place: usize) -> Result<Option<Term>, AllocError>
        requires { place < length (messages_in self.old pid.now) }
        ensures message { IfOk result (λ taken. option_map meaning_of taken ≡ slice_get (messages_in self.old pid.now) place) }
        ensures rest { OnOk result (IsChangedAt pid.now (λ messages. remove messages place) self.old self.new) }
        ensures err { OnErr result (self.new ≡ self.old) }
    {
        let Some(mailbox) = self.mailboxes.get_mut(pid) else {
            return Ok(None);
        };
        let message = mailbox.take_at(place)?;
        Ok(Some(message))
    }
}
