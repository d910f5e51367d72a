// What is said of words that the command line refuses and its parser does not.
ghost use Rattle.std.specs.Prelude.{◌≡◌, string_bytes, IfOk, IsErr};
ghost use Rattle.program_words.specs.RefusalText.{text_of_no_term, text_of_too_deep};

use std::alloc::{AllocError, Global};
use term_reader::TermFault;

/// What is said of a text of `--normal` that is read as no term, with the byte at which it is none.
///
/// # Errors
///
/// `AllocError` where there was no memory to read the term, or there is none for the words.
pub fn text_of_no_term(alloc: Global, text: &str, fault: TermFault) -> Result<String, AllocError>
    ensures message { IfOk result (λ message. string_bytes message ≡ text_of_no_term text.now fault) }
    ensures memory { fault ≡ TermFault.Memory → IsErr result }
{
    match fault {
        TermFault::BadTerm(at) => format!(in alloc; "'{text}' is no term: see its byte {at}"),
        TermFault::TooDeep(at) => {
            format!(in alloc; "'{text}' has more than 10000 nodes: see its byte {at}")
        }
        TermFault::Memory => Err(AllocError),
    }
}

/// What is said of jobs at this place in a tree that is not so many steps deep.
///
/// # Errors
///
/// `AllocError` where there is no memory for the words.
pub fn text_of_too_deep(alloc: Global, place: u64, steps: u64) -> Result<String, AllocError>
    ensures message { IfOk result (λ message. string_bytes message ≡ text_of_too_deep place steps) }
{
    format!(in alloc; "invalid value '{place}' for '--at <D>': {place} is not in 0..={steps}")
}
