// The arguments of calls.
ghost use Rattle.std.specs.Prelude.{◌≡◌, [], ◌∷◌, ◌++◌, IfOk, MatchResult};
ghost use Rattle.report_identities.specs.inside.Reading.{AreArguments, MayRefuseArguments};
ghost use Rattle.std.specs.List.{AllByRecursion};
ghost use Rattle.term_core.specs.Meaning.{Meaning, Tuple, meanings_of};
ghost use Rattle.world_event_text.specs.CallText.{text_of_arguments};
ghost use Rattle.term_reader.specs.Height.{height};
ghost use Rattle.term_reader.specs.Lawful.{IsLawful};
ghost use Rattle.report_identities.specs.Lawful.{MayRefuse};

use crate::fault::IdentityFault;
use crate::terms::read_one_term;
use std::alloc::{AllocError, Global};
use std::sync::Arc;
use term_core::{Term, Terms};

// The text between braces.
fn braced(alloc: Global, text: &[u8]) -> Result<Vec<u8>, AllocError>
    ensures { IfOk result (λ bytes. bytes.items ≡ 123 ∷ (text.now ++ 125 ∷ [])) }
{
    let mut bytes = Vec::with_capacity(alloc, text.len() + 2)?;
    bytes.push(b'{')?;
    bytes.extend_from_slice(text)?;
    bytes.push(b'}')?;
    Ok(bytes)
}

/// Reads arguments with commas between them: the parts of a tuple, from the text between its braces.
pub(crate) fn read_arguments(alloc: Global, text: &[u8]) -> Result<Arc<Terms>, IdentityFault>
    ensures { MatchResult result (λ read. AreArguments text.now read.value) (λ fault. MayRefuseArguments text.now fault) }
{
    let bytes = braced(alloc, text)?;
    let term = read_one_term(alloc, bytes.as_slice())?;
    match term {
        Term::Tuple(arguments) => Ok(arguments),
        _ => Err(IdentityFault::BadIdentity),
    }
}
