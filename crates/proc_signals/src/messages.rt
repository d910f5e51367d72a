// The messages of a mailbox, as they lie in memory.
ghost use Rattle.std.specs.Prelude.{◌≡◌, ◌<◌, ◌^◌, [], ◌∷◌, ◌++◌, IfOk, OnOk, OnErr, Some, length, slice_get, option_map, map};
ghost use Rattle.std.specs.Cmp.Lexicographic.{pointwise};
ghost use Rattle.std.specs.List.{remove};
ghost use Rattle.term_core.specs.Term.{meaning_of};
ghost use Rattle.proc_signals.specs.Mailbox.{first_place};
ghost use Rattle.world_model.specs.Changes.{is_of_watch as is_watch_message, has_second as is_second};
ghost use Rattle.world_model.specs.Names.{same_term, ref_of};
ghost use Rattle.world_model.specs.Terms.{reference as ref_meaning};

use crate::mailbox::Selector;
use std::alloc::{AllocError, Global};
use std::collections::VecDeque;
use std::hash::{Hash, Hasher};
use std::marker::Model;
use term_core::{RefId, Term};

/// Messages, the oldest first.
#[derive(Drop)]
pub(crate) struct Messages {
    items: VecDeque<Term>,
}

impl Model for Messages {
    ghost use Rattle.std.specs.Prelude.{List, map};
    ghost use Rattle.std.specs.Coded.{coded_list};
    ghost use Rattle.term_core.specs.Meaning.{Meaning};
    ghost use Rattle.term_core.specs.Term.{meaning_of};
    ghost use Rattle.term_core.specs.inside.MeaningCodes.{coded_meaning};

    ghost Value = { List Meaning };

    ghost coded = { coded_list coded_meaning };

    ghost view = { λ m. map meaning_of m.items.items };
}

impl Clone for Messages {
    ghost is_clone = { λ a b. b ≡ a };

    /// The same messages, each a copy, or `AllocError` if there is no memory for them.
    fn clone(&self) -> Result<Messages, AllocError> {
        let mut items = VecDeque::with_capacity(*self.items.allocator(), self.items.len())?;
        for message in self.items.iter() {
            items.push_back(message.copy()?)?;
        }
        Ok(Messages { items })
    }
}

impl Messages {
    /// No messages. It takes no memory.
    pub(crate) fn new(alloc: Global) -> Messages
        ensures { result ≡ [] }
    {
        Messages {
            items: VecDeque::new(alloc),
        }
    }

    /// Whether the two have the same messages, in one order. It takes no memory.
    pub(crate) fn is_same(&self, other: &Messages) -> bool
        ensures { result ≡ pointwise same_term self.now other.now }
    {
        self.items == other.items
    }

    /// Feeds a hasher with the messages, the oldest first: the same for messages that are the same. It takes no memory.
    pub(crate) fn feed<H: Hasher>(&self, state: &mut H) {
        state.write_usize(self.items.len());
        for message in self.items.iter() {
            message.hash(state);
        }
    }

    /// How many there are, fewer than 2^63.
    pub(crate) fn len(&self) -> usize
        ensures length { result ≡ length self.now }
        ensures fits { result < 2 ^ 63 }
    {
        self.items.len()
    }

    /// The message at a place.
    pub(crate) fn get(&self, place: usize) -> Option<&Term>
        ensures { option_map (λ message. meaning_of message.now) result ≡ slice_get self.now place }
    {
        self.items.get(place)
    }

    /// Puts a message after the others, or `AllocError` if there is no memory for it; then the message is dropped.
    pub(crate) fn put(&mut self, message: Term) -> Result<(), AllocError>
        ensures ok { OnOk result (self.new ≡ self.old ++ meaning_of message ∷ []) }
        ensures err { OnErr result (self.new ≡ self.old) }
    {
        self.items.push_back(message)?;
        Ok(())
    }

    /// Takes out the message at a place.
    #[tactic(auto, using(crate::proofs::Removing::map_remove))]
    pub(crate) fn take_at(&mut self, place: usize) -> Term
        requires { place < length self.old }
        ensures message { slice_get self.old place ≡ Some (meaning_of result) }
        ensures rest { self.new ≡ remove self.old place }
    {
        self.items.remove(place).unwrap()
    }

    /// Where the oldest message lies that is selected.
    pub(crate) fn find_match<S: Selector>(
        &self,
        alloc: Global,
        selector: &S,
    ) -> Result<Option<usize>, AllocError>
        ensures { IfOk result (λ found. found ≡ first_place (S.takes selector.now) self.now) }
    {
        for (place, message) in self.items.iter().enumerate() {
            if selector.selects(alloc, message)? {
                return Ok(Some(place));
            }
        }
        Ok(None)
    }

    /// Where the oldest message of this watch lies.
    pub(crate) fn find_down(&self, reference: &RefId) -> Option<usize>
        ensures { result ≡ first_place (is_watch_message (ref_of reference.now)) self.now }
    {
        for (place, message) in self.items.iter().enumerate() {
            if is_of_watch(message, reference) {
                return Some(place);
            }
        }
        None
    }
}

// Whether a message is a tuple of five with this reference second, as that of a watch is.
fn is_of_watch(message: &Term, reference: &RefId) -> bool
    ensures { result ≡ is_watch_message (ref_of reference.now) (meaning_of message.now) }
{
    match message {
        Term::Tuple(parts) => has_second(parts.as_slice(), reference),
        _ => false,
    }
}

// Whether these are five, and the second is this reference.
#[tactic(auto, using(crate::proofs::Downs::second_of_five, crate::proofs::Downs::not_five))]
fn has_second(parts: &[Term], reference: &RefId) -> bool
    ensures { result ≡ is_second (ref_of reference.now) (map meaning_of parts.now) }
{
    if parts.len() != 5 {
        return false;
    }
    is_reference(&parts[1], reference)
}

// Whether a term is this reference.
fn is_reference(term: &Term, reference: &RefId) -> bool
    ensures { result ≡ same_term (ref_meaning (ref_of reference.now)) (meaning_of term.now) }
{
    match term {
        Term::Ref(other) => reference == other,
        _ => false,
    }
}
