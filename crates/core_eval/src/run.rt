// The run of a machine to its next request. `Control` is what is to be done next: an expression to evaluate, or a result to
// hand on. A frame of the stack is what is still to do with the result of what stands in it. `advance` takes one step after
// another, into an expression (`enter`) or out of a frame with its result (`leave`), until the body stops (`Halt`) or
// applies a function (`Pause`). `run` counts the applications.
ghost use Rattle.std.specs.Prelude.{◌≡◌, List, IfOk};
ghost use Rattle.core_semantics.specs.Applications.{setting_of};
ghost use Rattle.core_semantics.specs.Ask.{request_of};
ghost use Rattle.core_semantics.specs.Evaluation.{Setting, State};
ghost use Rattle.core_stack.specs.Holes.{Hole};
ghost use Rattle.core_eval.specs.Filled.{standing};
ghost use Rattle.core_eval.specs.Requests.{told_by};
ghost use Rattle.core_eval.specs.inside.Steps.{AsksNext, ComesTo, halted};

use crate::allowed::allowed_by;
use crate::build::single;
use crate::control::{Control, Halt, Pause};
use crate::enter::enter;
use crate::entry::apply;
use crate::exception::end_of;
use crate::leave::{leave, leave_raised, leave_with};
use crate::pure::answer_call;
use crate::request::Request;
use core_pure_calls::Dictionary;
use core_stack::Stack;
use core_tree::Module;
use std::alloc::{AllocError, Global};
use std::sync::Arc;
use term_core::{Pid, Term, Word};

/// Runs the process with this pid and this dictionary to the next request or the end, from what is on top of the stack. Where one more application than
/// the module allows would be made since the start or the last answer, the request is a runaway.
pub(crate) fn run<'m>(
    alloc: Global,
    program: &'m Module,
    own: &Pid,
    stack: &mut Stack<'m>,
    dictionary: &mut Dictionary,
    control: Control<'m>,
) -> Result<Request, AllocError>
    ensures { IfOk result (λ request.
        AsksNext (setting_of program.now own.now) stack.old dictionary.old control.entry stack.new dictionary.new (told_by request)) }
{
    let allowed = allowed_by(program.attributes.as_slice());
    let mut control = control;
    'applications: for _made in 0..allowed {
        control = match advance(alloc, own, stack, dictionary, control)? {
            Pause::Halt(halt) => return request_at(alloc, halt),
            Pause::Application(function, arguments) => {
                apply(alloc, program, stack, function, arguments)?
            }
        };
    }
    match advance(alloc, own, stack, dictionary, control)? {
        Pause::Halt(halt) => request_at(alloc, halt),
        Pause::Application(_, _) => Ok(Request::Runaway),
    }
}

// The request of a process whose evaluation stops there: one that gives values ends normally.
fn request_at(alloc: Global, halt: Halt) -> Result<Request, AllocError>
    ensures { IfOk result (λ request. (setting : Setting) (holes : List Hole) (s : State) →
        standing setting holes s.dictionary (told_by request) s.answers ≡ request_of (halted setting holes halt s)) }
{
    Ok(match halt {
        Halt::Values(_values) => Request::End(Term::word(Word::Normal)),
        Halt::Raise(class, reason) => Request::End(end_of(alloc, class, reason)?),
        Halt::Ask(kind, arguments) => Request::Call(kind, Arc::new(alloc, arguments)?),
        Halt::Wait(waits) => Request::Receive { waits },
    })
}

/// Runs the process with this pid and this dictionary to where it stops, or to the next application, from what is on top
/// of the stack.
pub(crate) fn advance<'m>(
    alloc: Global,
    own: &Pid,
    stack: &mut Stack<'m>,
    dictionary: &mut Dictionary,
    control: Control<'m>,
) -> Result<Pause<'m>, AllocError>
    ensures { IfOk result (λ pause. ComesTo own.now stack.old dictionary.old control.entry stack.new dictionary.new pause) }
{
    let mut control = control;
    loop {
        control = match control {
            Control::Evaluate(expression) => enter(alloc, stack, expression)?,
            Control::Return(value) => match stack.pop(alloc)? {
                Some(frame) => leave(alloc, stack, frame, value)?,
                None => return Ok(Pause::Halt(Halt::Values(single(alloc, value)?))),
            },
            Control::Values(values) => {
                let Some(frame) = stack.pop(alloc)? else {
                    return Ok(Pause::Halt(Halt::Values(values)));
                };
                leave_with(alloc, stack, frame, values)?
            }
            Control::Raise(class, reason) => match stack.pop(alloc)? {
                Some(frame) => leave_raised(alloc, stack, frame, class, reason)?,
                None => return Ok(Pause::Halt(Halt::Raise(class, reason))),
            },
            Control::Answer(kind, arguments) => answer_call(
                alloc, own, dictionary, kind, arguments,
            )?,
            Control::Ask(kind, arguments) => {
                return Ok(Pause::Halt(Halt::Ask(kind, arguments)));
            }
            Control::Wait(waits) => return Ok(Pause::Halt(Halt::Wait(waits))),
            Control::Apply(function, arguments) => {
                return Ok(Pause::Application(function, arguments));
            }
        };
    }
}
