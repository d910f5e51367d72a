// Receiving (Core Erlang 1.0.3, "Receive"): from its timeout to the request, and from the answer on.
ghost use Rattle.std.specs.Prelude.{◌≡◌, List, IfOk};
ghost use Rattle.core_calls.specs.declared.call.CallKind.{CallKind};
ghost use Rattle.term_core.specs.Meaning.{Meaning};
ghost use Rattle.term_core.specs.Term.{meaning_of};
ghost use Rattle.core_semantics.specs.Evaluation.{waits_with};
ghost use Rattle.core_stack.specs.Holes.{Hole};
ghost use Rattle.core_eval.specs.Requests.{answered_of, told_by};
ghost use Rattle.core_eval.specs.Told as told;
ghost use Rattle.core_eval.specs.inside.Steps.{Answers, EntersReceive};

use crate::build::{error, single};
use crate::control::Control;
use crate::leave::choose;
use crate::request::{Answer, Request};
use core_pure_calls::Class;
use core_stack::{Frame, Stack};
use core_tree::Receive;
use std::alloc::{AllocError, Global};
use term_core::{Term, Word};

/// The longest timeout, in milliseconds.
const LONGEST_TIMEOUT: i64 = 4_294_967_295;

// Whether a receive with this timeout waits for ever; none where it is no timeout.
fn waits_with(timeout: &Term) -> Option<bool>
    ensures { result ≡ waits_with (meaning_of timeout.now) }
{
    match timeout {
        Term::Int(number) => {
            if *number < 0 || *number > LONGEST_TIMEOUT {
                None
            } else {
                Some(false)
            }
        }
        _ => {
            if timeout.is_the_atom("infinity") {
                Some(true)
            } else {
                None
            }
        }
    }
}

/// To the request of a receive with this timeout, or to the error that this is no timeout.
pub(crate) fn wait<'m>(
    stack: &mut Stack<'m>,
    receive: &'m Receive,
    timeout: &Term,
) -> Result<Control<'m>, AllocError>
    ensures { IfOk result (λ next. EntersReceive stack.old stack.new next (meaning_of timeout.now) receive.now.1 receive.now.3) }
{
    match waits_with(timeout) {
        Some(waits) => {
            stack.push(Frame::Receive(receive))?;
            Ok(Control::Wait(waits))
        }
        None => Ok(error(Word::TimeoutValue)),
    }
}

/// What a process that waits at a request goes on with when it is answered, or none where the answer does not fit; then
/// the stack stays as it is. `AllocError` if there is no memory for it, and then the stack is lost.
pub(crate) fn take<'m>(
    alloc: Global,
    stack: &mut Stack<'m>,
    request: &Request,
    answer: Answer,
) -> Result<Option<Control<'m>>, AllocError>
    ensures { IfOk result (λ next. Answers stack.old stack.new (told_by request.now) (answered_of answer) next) }
{
    match request {
        Request::Call(_, _) => Ok(take_reply(answer)),
        Request::Receive { waits } => take_message(alloc, stack, *waits, answer),
        Request::End(_) | Request::Runaway => Ok(None),
    }
}

// What goes on after a call.
fn take_reply<'m>(answer: Answer) -> Option<Control<'m>>
    ensures { (kind : CallKind) (arguments : List Meaning) (holes : List Hole) → Answers holes holes (told.Call kind arguments) (answered_of answer) result }
{
    match answer {
        Answer::Value(value) => Some(Control::Return(value)),
        Answer::Raise(reason) => Some(Control::Raise(Class::Error, reason)),
        Answer::Message(_) | Answer::TimedOut => None,
    }
}

// What goes on after the receive on top of the stack.
fn take_message<'m>(
    alloc: Global,
    stack: &mut Stack<'m>,
    waits: bool,
    answer: Answer,
) -> Result<Option<Control<'m>>, AllocError>
    ensures { IfOk result (λ next. Answers stack.old stack.new (told.Receive waits) (answered_of answer) next) }
{
    let Some(receive) = stack.receive() else {
        return Ok(None);
    };
    match answer {
        Answer::Message(message) => {
            let _frame = stack.pop(alloc)?;
            let values = single(alloc, message)?;
            Ok(Some(choose(alloc, stack, receive.clauses.0.as_slice(), values)?))
        }
        Answer::TimedOut if !waits => {
            let _frame = stack.pop(alloc)?;
            Ok(Some(Control::Evaluate(&receive.action)))
        }
        _ => Ok(None),
    }
}
