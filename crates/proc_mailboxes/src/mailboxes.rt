// The mailboxes of all processes: copies share them until one of them is changed.
ghost use Rattle.std.specs.Prelude.{◌≡◌, ◌<◌, [], ◌∷◌, ◌++◌, IfOk, IfSome, OnOk, OnErr, None, length, option_and_then, option_copied, option_map, slice_get, true};
ghost use Rattle.std.specs.List.{remove};
ghost use Rattle.proc_mailboxes.specs.Mailboxes.{AreMailboxes, IsChangedAt, IsTakenFrom, IsUnchanged, TakesFrom, messages_in, messages_of};
ghost use Rattle.proc_signals.specs.Mailbox.{first_place};
ghost use Rattle.term_core.specs.Term.{meaning_of};
ghost use Rattle.world_model.specs.Cells.{Contents};
ghost use Rattle.world_model.specs.Changes.{MessageAdded, after, changed};
ghost use Rattle.world_model.specs.Mailboxes.{picked, selected_of};
ghost use Rattle.world_model.specs.Names as names;

use crate::mailbox_map::MailboxMap;
use crate::same::Same;
use proc_signals::{Mailbox, Selector};
use std::alloc::{AllocError, Global};
use std::hash::Hasher;
use std::marker::Model;
use std::sync::Arc;
use term_core::{Pid, Term};

/// The messages that arrived at each process, the oldest first (Erlang reference manual, "Processes",
/// "Delivery of Signals"). Contracts read those of a process with `messages_in`. Copies share them until one
/// of them is changed; then it clones the pointers to mailboxes, and the one mailbox.
pub struct Mailboxes {
    mailboxes: Arc<MailboxMap>,
}

// Dropped by a call, so that no crate above proves again how.
impl Drop for Mailboxes {
    fn drop(self) {
        let Mailboxes { mailboxes: _ } = self;
    }
}

impl Model for Mailboxes {
    ghost use Rattle.std.specs.Prelude.{ℕ, List};
    ghost use Rattle.std.specs.Coded.{coded_list, coded×, coded_ℕ};
    ghost use Rattle.term_core.specs.Meaning.{Meaning};
    ghost use Rattle.term_core.specs.inside.MeaningCodes.{coded_meaning};

    ghost Value = { List (List ℕ × List Meaning) };

    ghost coded = { coded_list (coded× (coded_list coded_ℕ) (coded_list coded_meaning)) };

    ghost view = { λ m. m.mailboxes.value };
}

impl Mailboxes {
    /// Every process has no messages. `AllocError` if there is no memory.
    pub fn new(alloc: Global) -> Result<Mailboxes, AllocError>
        ensures { IfOk result (λ mailboxes. (p : names.Pid) → messages_in mailboxes p ≡ []) }
    {
        Ok(Mailboxes {
            mailboxes: Arc::new(alloc, MailboxMap::new(alloc))?,
        })
    }

    /// The same mailboxes, or `AllocError` where their copies can no longer be counted. It takes no memory
    /// and one step.
    pub fn copy(&self) -> Result<Mailboxes, AllocError>
        ensures { IfOk result (λ copied. IsUnchanged self.now copied) }
    {
        Ok(Mailboxes {
            mailboxes: Arc::try_clone(&self.mailboxes)?,
        })
    }

    /// Whether one process has the same messages in both. It takes no memory.
    pub fn is_same_at(&self, pid: &Pid, other: &Mailboxes) -> bool
        ensures { result ≡ true → messages_in self.now pid.now ≡ messages_in other.now pid.now }
    {
        self.mailboxes.is_same_at(pid, &other.mailboxes)
    }

    /// Feeds a hasher with the messages of one process, by which a search finds what may be the same: it gives the same for
    /// messages that are. It takes no memory.
    pub fn feed_at<H: Hasher>(&self, pid: &Pid, state: &mut H) {
        self.mailboxes.feed_at(pid, state);
    }

    /// Takes over the messages of one process from other mailboxes, and shares its mailbox with them; the other processes
    /// have the messages that they had. `AllocError` if there is no memory: then the mailboxes may be changed in part, and
    /// the caller drops them.
    pub fn take_from(&mut self, pid: &Pid, other: &Mailboxes) -> Result<(), AllocError>
        ensures ok { OnOk result (TakesFrom pid.now other.now self.old self.new) }
    {
        let mailboxes = Arc::make_mut(&mut self.mailboxes)?;
        mailboxes.take_from(pid, &other.mailboxes)?;
        Ok(())
    }

    /// The mailbox of a process, which may be empty, or `None` where no message ever came in. It takes no memory.
    pub fn of(&self, pid: &Pid) -> Option<&Mailbox>
        ensures { messages_of (option_copied result) ≡ messages_in self.now pid.now }
    {
        self.mailboxes.get(pid)
    }

    /// A message comes in to a process, after the others. `AllocError` if there is no memory: then nothing is changed,
    /// and the message is dropped.
    pub fn put(&mut self, alloc: Global, pid: &Pid, message: Term) -> Result<(), AllocError>
        ensures ok { OnOk result (IsChangedAt pid.now (λ messages. messages ++ meaning_of message ∷ []) self.old self.new) }
        ensures mails { OnOk result ((v : Contents) → AreMailboxes self.old v →
            AreMailboxes self.new (changed (MessageAdded pid.now (meaning_of message)) v)) }
        ensures err { OnErr result (IsUnchanged self.old self.new) }
    {
        let mailboxes = Arc::make_mut(&mut self.mailboxes)?;
        mailboxes.put(alloc, pid, message)?;
        Ok(())
    }

    /// The place of the oldest message of a process that is selected, if there is one, counted from 0 (Erlang reference
    /// manual, "Expressions", "Receive"). `AllocError` where the selector has no memory to decide.
    pub fn first<S: Selector>(
        &self,
        alloc: Global,
        pid: &Pid,
        selector: &S,
    ) -> Result<Option<usize>, AllocError>
        ensures found { IfOk result (λ found. found ≡ first_place (S.takes selector.now) (messages_in self.now pid.now)) }
        ensures within { IfOk result (λ found. IfSome found (λ place. place < length (messages_in self.now pid.now))) }
        ensures selected { IfOk result (λ found.
            option_and_then (slice_get (messages_in self.now pid.now)) found ≡ selected_of (S.takes selector.now) (messages_in self.now pid.now)) }
    {
        let Some(mailbox) = self.mailboxes.get(pid) else {
            return Ok(None);
        };
        let found = mailbox.find_match(alloc, selector)?;
        Ok(found)
    }

    /// Takes out the oldest message of a process that is selected, if there is one; the others keep their order
    /// (Erlang reference manual, "Expressions", "Receive"). `AllocError` if there is no memory, and then nothing
    /// is changed.
    pub fn take<S: Selector>(
        &mut self,
        alloc: Global,
        pid: &Pid,
        selector: &S,
    ) -> Result<Option<Term>, AllocError>
        ensures taken { IfOk result (λ taken. option_map meaning_of taken ≡ selected_of (S.takes selector.now) (messages_in self.old pid.now)) }
        ensures picks { IfOk result (λ taken. (v : Contents) → AreMailboxes self.old v →
            AreMailboxes self.new (after (picked pid.now (option_map meaning_of taken)) v)) }
        ensures none { IfOk result (λ taken. taken ≡ None → IsUnchanged self.old self.new) }
        ensures err { OnErr result (IsUnchanged self.old self.new) }
    {
        let Some(place) = self.first(alloc, pid, selector)? else {
            return Ok(None);
        };
        let taken = self.take_at(pid, place)?;
        Ok(taken)
    }

    /// Takes out the oldest message of a process that is the same as this one, if there is one. `AllocError` if there
    /// is no memory, and then nothing is changed.
    pub fn remove(&mut self, alloc: Global, pid: &Pid, message: &Term) -> Result<(), AllocError>
        ensures picks { OnOk result (IsTakenFrom pid.now (meaning_of message.now) self.old self.new) }
        ensures err { OnErr result (IsUnchanged self.old self.new) }
    {
        let selector = Same { message };
        let _taken = self.take(alloc, pid, &selector)?;
        Ok(())
    }

    // Takes out the message of a process at a place.
    fn take_at(&mut self, pid: &Pid, place: usize) -> Result<Option<Term>, AllocError>
        requires { place < length (messages_in self.old pid.now) }
        ensures message { IfOk result (λ taken. option_map meaning_of taken ≡ slice_get (messages_in self.old pid.now) place) }
        ensures rest { OnOk result (IsChangedAt pid.now (λ messages. remove messages place) self.old self.new) }
        ensures err { OnErr result (self.new ≡ self.old) }
    {
        let mailboxes = Arc::make_mut(&mut self.mailboxes)?;
        let taken = mailboxes.take_at(pid, place)?;
        Ok(taken)
    }
}
