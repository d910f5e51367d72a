// Terms within the texts of what schedules show.
ghost use Rattle.report_identities.specs.inside.Reading.{ReadsTerm};

use crate::fault::IdentityFault;
use std::alloc::Global;
use term_core::Term;
use term_reader::{TermFault, read_term};

/// Reads a term, without the place of a fault.
pub(crate) fn read_one_term(alloc: Global, text: &[u8]) -> Result<Term, IdentityFault>
    ensures { ReadsTerm text.now result }
{
    match read_term(alloc, text) {
        Ok(term) => Ok(term),
        Err(TermFault::BadTerm(_)) => Err(IdentityFault::BadIdentity),
        Err(TermFault::TooDeep(_)) => Err(IdentityFault::TooDeep),
        Err(TermFault::Memory) => Err(IdentityFault::Memory),
    }
}
