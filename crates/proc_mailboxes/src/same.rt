// The selector of the messages that are the same as one.
use proc_signals::Selector;
use std::alloc::{AllocError, Global};
use term_core::Term;

/// Selects the messages that are the same as this one.
#[derive(Drop)]
pub(crate) struct Same<'t> {
    pub(crate) message: &'t Term,
}

impl<'t> Selector for Same<'t> {
    ghost use Rattle.proc_mailboxes.specs.inside.Same.{takes_same};

    ghost takes = { takes_same };

    fn selects(&self, _alloc: Global, message: &Term) -> Result<bool, AllocError> {
        Ok(*self.message == *message)
    }
}
