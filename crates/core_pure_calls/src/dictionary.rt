// The process dictionary (Erlang reference manual, module erlang, `put/2`, `get/0`, `get/1`, `get_keys/0`, `get_keys/1`,
// `erase/0`, `erase/1`).
ghost use Rattle.std.specs.Prelude.{◌≡◌, ◌++◌, [], IfOk, OnOk, map, true};
ghost use Rattle.term_core.specs.Term.{meaning_of};
ghost use Rattle.core_pure_calls.specs.Dictionary.{above, all_of, below, keys_of, keys_with, pair_of, value_of, with_value, without_key};
ghost use Rattle.core_pure_calls.specs.Lists.{list_of};
ghost use Rattle.core_pure_calls.specs.Entries.{entry_of};

use crate::compare::{are_equal, is_greater, is_less};
use std::alloc::{AllocError, Global};
use std::hash::{Hash, Hasher};
use std::marker::Model;
use std::sync::Arc;
use term_core::{Term, Terms, list_onto};

/// A key and its value.
#[derive(PartialEq, Drop)]
pub(crate) struct Entry {
    key: Term,
    value: Term,
}

impl Entry {
    // The same entry, or `AllocError` where its copies can no longer be counted.
    fn copy(&self) -> Result<Entry, AllocError>
        ensures { IfOk result (λ copied. entry_of copied ≡ entry_of self.now) }
    {
        Ok(Entry {
            key: self.key.copy()?,
            value: self.value.copy()?,
        })
    }

    // The key and its value as a term.
    fn pair(&self, alloc: Global) -> Result<Term, AllocError>
        ensures { IfOk result (λ pair. meaning_of pair ≡ pair_of (entry_of self.now)) }
    {
        let mut parts = Terms::new(alloc);
        parts.push(self.key.copy()?)?;
        parts.push(self.value.copy()?)?;
        Term::tuple(alloc, parts)
    }
}

/// What a process keeps for itself: one value for each key. Contracts see it as the list of the keys with their values, in
/// the order of the keys. Copies share the entries; without any it takes no memory.
pub struct Dictionary {
    entries: Option<Arc<Vec<Entry>>>,
}

// Dropped by a call, so that no crate above proves again how.
impl Drop for Dictionary {
    fn drop(self) {
        let Dictionary { entries: _ } = self;
    }
}

impl Model for Dictionary {
    ghost use Rattle.core_pure_calls.specs.Dictionary.{Dictionary};
    ghost use Rattle.core_pure_calls.specs.Entries.{coded_dictionary};

    ghost Value = { Dictionary };

    ghost coded = { coded_dictionary };

    ghost use Rattle.std.specs.Prelude.{map};
    ghost use Rattle.core_pure_calls.specs.Entries.{entry_of, items_of};

    ghost view = { λ d. map entry_of (items_of d.entries) };
}

impl Dictionary {
    /// That of a process that begins, which keeps nothing.
    pub fn new() -> Dictionary
        ensures { result ≡ [] }
    {
        Dictionary { entries: None }
    }

    // That of these entries.
    fn of(alloc: Global, entries: Vec<Entry>) -> Result<Dictionary, AllocError>
        ensures { IfOk result (λ dictionary. dictionary ≡ map entry_of entries.items) }
    {
        Ok(Dictionary {
            entries: Some(Arc::new(alloc, entries)?),
        })
    }

    // The entries.
    fn entries(&self) -> &[Entry]
        ensures { map entry_of result.now ≡ self.now }
    {
        match &self.entries {
            Some(entries) => entries.as_slice(),
            None => &[],
        }
    }

    /// The same, or `AllocError` where its copies can no longer be counted. It takes no memory.
    pub fn copy(&self) -> Result<Dictionary, AllocError>
        ensures { IfOk result (λ copied. copied ≡ self.now) }
    {
        let entries = match &self.entries {
            Some(entries) => Some(Arc::try_clone(entries)?),
            None => None,
        };
        Ok(Dictionary { entries })
    }

    /// Whether two processes keep the same. It takes no memory.
    pub fn is_same(&self, other: &Dictionary) -> bool
        ensures { result ≡ true → self.now ≡ other.now }
    {
        self.entries() == other.entries()
    }

    /// Feeds a hasher with what is kept: the same for dictionaries that are the same. It takes no memory.
    pub fn feed<H: Hasher>(&self, state: &mut H) {
        state.write_usize(self.entries().len());
        for entry in self.entries() {
            entry.key.hash(state);
            entry.value.hash(state);
        }
    }

    /// The value of a key, or `'undefined'`.
    pub(crate) fn value_of(&self, alloc: Global, key: &Term) -> Result<Term, AllocError>
        ensures { IfOk result (λ value. meaning_of value ≡ value_of (meaning_of key.now) self.now) }
    {
        for entry in self.entries() {
            if are_equal(&entry.key, key) {
                return entry.value.copy();
            }
        }
        Term::atom(alloc, "undefined")
    }

    // Copies of what is kept under lesser keys.
    fn below(&self, alloc: Global, key: &Term) -> Result<Vec<Entry>, AllocError>
        ensures { IfOk result (λ copied. map entry_of copied.items ≡ below (meaning_of key.now) self.now) }
    {
        let mut copied = Vec::new(alloc);
        for entry in self.entries() {
            if is_less(&entry.key, key) {
                copied.push(entry.copy()?)?;
            }
        }
        Ok(copied)
    }

    // Puts copies of what is kept under greater keys after other entries.
    fn push_above(&self, key: &Term, entries: &mut Vec<Entry>) -> Result<(), AllocError>
        ensures { OnOk result (map entry_of entries.new.items ≡ map entry_of entries.old.items ++ above (meaning_of key.now) self.now) }
    {
        for entry in self.entries() {
            if is_greater(&entry.key, key) {
                entries.push(entry.copy()?)?;
            }
        }
        Ok(())
    }

    /// With this value for a key.
    pub(crate) fn with_value(
        &self,
        alloc: Global,
        key: &Term,
        value: &Term,
    ) -> Result<Dictionary, AllocError>
        ensures { IfOk result (λ changed. changed ≡ with_value (meaning_of key.now) (meaning_of value.now) self.now) }
    {
        let mut entries = self.below(alloc, key)?;
        entries.push(Entry {
            key: key.copy()?,
            value: value.copy()?,
        })?;
        self.push_above(key, &mut entries)?;
        Dictionary::of(alloc, entries)
    }

    /// Without a key.
    pub(crate) fn without_key(&self, alloc: Global, key: &Term) -> Result<Dictionary, AllocError>
        ensures { IfOk result (λ changed. changed ≡ without_key (meaning_of key.now) self.now) }
    {
        let mut entries = self.below(alloc, key)?;
        self.push_above(key, &mut entries)?;
        Dictionary::of(alloc, entries)
    }

    /// All keys with their values, as a list.
    pub(crate) fn all_of(&self, alloc: Global) -> Result<Term, AllocError>
        ensures { IfOk result (λ list. meaning_of list ≡ all_of self.now) }
    {
        let mut pairs = Vec::new(alloc);
        for entry in self.entries() {
            pairs.push(entry.pair(alloc)?)?;
        }
        list_onto(alloc, pairs, Term::Nil)
    }

    /// All keys, as a list.
    pub(crate) fn keys_of(&self, alloc: Global) -> Result<Term, AllocError>
        ensures { IfOk result (λ list. meaning_of list ≡ keys_of self.now) }
    {
        let mut keys = Vec::new(alloc);
        for entry in self.entries() {
            keys.push(entry.key.copy()?)?;
        }
        list_onto(alloc, keys, Term::Nil)
    }

    /// The keys with a value, as a list.
    pub(crate) fn keys_with(&self, alloc: Global, value: &Term) -> Result<Term, AllocError>
        ensures { IfOk result (λ list. meaning_of list ≡ list_of (keys_with (meaning_of value.now) self.now)) }
    {
        let mut keys = Vec::new(alloc);
        for entry in self.entries() {
            if are_equal(&entry.value, value) {
                keys.push(entry.key.copy()?)?;
            }
        }
        list_onto(alloc, keys, Term::Nil)
    }
}
