// The calls that a process answers by itself.
ghost use Rattle.std.specs.Prelude.{◌≡◌, ◌≤◌, IfOk, OnOk};
ghost use Rattle.core_pure_calls.specs.Calls.{answer_of, kept_by};
ghost use Rattle.core_semantics.specs.Evaluation.{limited_answer};
ghost use Rattle.core_eval.specs.inside.Steps.{Means, load};

use crate::build::limited;
use crate::control::Control;
use core_pure_calls::{Dictionary, Outcome, answer};
use core_tree::PureCall;
use std::alloc::{AllocError, Global};
use term_core::{Pid, Terms};

/// The value of a call of the process with this pid and this dictionary, or the error `'system_limit'` in its place where
/// it has too many nodes, or the exception that the call raises. The dictionary is then as the call leaves it.
pub(crate) fn answer_call<'m>(
    alloc: Global,
    own: &Pid,
    dictionary: &mut Dictionary,
    kind: PureCall,
    arguments: Terms,
) -> Result<Control<'m>, AllocError>
    ensures same { IfOk result (λ next. Means next (limited_answer (answer_of own.now dictionary.old kind arguments))) }
    ensures kept { OnOk result (dictionary.new ≡ kept_by kind arguments dictionary.old) }
    ensures less { IfOk result (λ next. load next ≤ 2) }
{
    match answer(alloc, own, dictionary, kind, arguments)? {
        Outcome::Value(value) => Ok(limited(value)),
        Outcome::Raised(class, reason) => Ok(Control::Raise(class, reason)),
    }
}
