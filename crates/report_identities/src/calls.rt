// The names of calls.
ghost use Rattle.std.specs.Prelude.{◌≡◌, MatchOption};
ghost use Rattle.core_calls.specs.Calls.{signature};
ghost use Rattle.core_calls.specs.declared.call.CallKind.{CallKind};
ghost use Rattle.report_identities.specs.inside.CallPieces.{NamesCall, NamesNoCall, name_of_call};

use crate::cuts::cut_at_first;
use core_calls::CallKind;
use std::str;

/// The call of this name, as `ets:insert`, and so many arguments, if there is one.
pub(crate) fn read_kind(name: &[u8], arity: usize) -> Option<CallKind>
    ensures { MatchOption result
        ((kind : CallKind) → name.now ≡ name_of_call kind → arity ≡ (signature kind).arity → ⊥)
        (λ kind. (name.now ≡ name_of_call kind) × (arity ≡ (signature kind).arity)) }
{
    let (module_bytes, function_bytes) = cut_at_first(name, b':')?;
    call_named(module_bytes, function_bytes, arity)
}

// The call of these two names and so many arguments, if there is one.
fn call_named(module_bytes: &[u8], function_bytes: &[u8], arity: usize) -> Option<CallKind>
    ensures { MatchOption result (NamesNoCall module_bytes.now function_bytes.now arity) (λ kind. NamesCall module_bytes.now function_bytes.now arity kind) }
{
    let Ok(module_text) = str::from_utf8(module_bytes) else {
        return None;
    };
    let Ok(function_text) = str::from_utf8(function_bytes) else {
        return None;
    };
    CallKind::named(module_text, function_text, arity)
}
