// Atoms.
ghost use Rattle.std.specs.Prelude.{◌≡◌, IfOk, string_bytes};
ghost use Rattle.term_core.specs.Words.{text_of_word};

use crate::word::Word;
use std::alloc::{AllocError, Global};
use std::marker::Model;
use std::sync::Arc;

/// Where the text of an atom lies.
#[derive(Drop)]
pub(crate) enum Text {
    /// In the program itself.
    Known(Word),
    /// In memory that its copies share.
    Shared(Arc<String>),
}

/// An atom, which is its text. Contracts see it as the list of the text's UTF-8 bytes, whose order is
/// the order of its characters (Core Erlang 1.0.3, "Atom"; the Erlang reference manual, "Atom"). Copies
/// share the text.
pub struct Atom {
    pub(crate) text: Text,
}

// Dropped by a call, so that no crate above proves again how.
impl Drop for Atom {
    fn drop(self) {
        let Atom { text: _ } = self;
    }
}

impl Model for Atom {
    ghost use Rattle.std.specs.Prelude.{ℕ, List};
    ghost use Rattle.term_core.specs.AtomTexts.{text_in};

    ghost Value = { List ℕ };

    ghost view = { λ a. text_in a.text };
}

impl Atom {
    /// The atom of this text, or `AllocError` where there is no memory for it.
    pub fn new(alloc: Global, text: &str) -> Result<Atom, AllocError>
        ensures { IfOk result (λ atom. atom ≡ text.now) }
    {
        Atom::from_string(alloc, String::from_str(alloc, text)?)
    }

    /// The atom of this text, which is taken over, or `AllocError` where there is no memory for it, and
    /// then the text is dropped.
    pub fn from_string(alloc: Global, text: String) -> Result<Atom, AllocError>
        ensures { IfOk result (λ atom. atom ≡ string_bytes text) }
    {
        Ok(Atom {
            text: Text::Shared(Arc::new(alloc, text)?),
        })
    }

    /// The atom of a word of the language. It takes no memory.
    pub fn from_word(word: Word) -> Atom
        ensures { result ≡ text_of_word word }
    {
        Atom {
            text: Text::Known(word),
        }
    }

    /// The text.
    pub fn as_str(&self) -> &str
        ensures { result.now ≡ self.now }
    {
        match &self.text {
            Text::Known(word) => word.text(),
            Text::Shared(text) => text.as_str(),
        }
    }
}
