// The text of a refused call in pieces.
ghost use Rattle.std.specs.Prelude.{MatchOption};
ghost use Rattle.report_identities.specs.inside.CallPieces.{IsCutInto, IsCutIntoNone};

use crate::cuts::{before_words, cut_at_first, cut_at_last};

/// The pieces of a refused call's text.
#[derive(Drop)]
pub(crate) struct CallPieces<'a> {
    /// The number of the request.
    pub(crate) request: &'a [u8],
    /// The name of the call, as `ets:insert`.
    pub(crate) name: &'a [u8],
    /// The arguments, with commas between them.
    pub(crate) arguments: &'a [u8],
    /// The rule, the owner where one is reported, and the last bracket.
    pub(crate) reason: &'a [u8],
}

/// Cuts the text of a refused call after ` request ` into its pieces: at the first blank, at the first bracket after
/// that, and at the last bracket, since neither a rule nor a process has one, while atoms may have any.
pub(crate) fn cut_call(text: &[u8]) -> Option<CallPieces<'_>>
    ensures { MatchOption result (IsCutIntoNone text.now)
        (λ pieces. IsCutInto text.now pieces.request.now pieces.name.now pieces.arguments.now pieces.reason.now) }
{
    let (request, call) = cut_at_first(text, b' ')?;
    let (name, inside) = cut_at_first(call, b'(')?;
    let (front, reason) = cut_at_last(inside, b'(')?;
    let arguments = before_words(front, b") -> badarg ")?;
    Some(CallPieces {
        request,
        name,
        arguments,
        reason,
    })
}
