// What is on top of the stack of a machine that runs, and where it pauses.
use core_pure_calls::Class;
use core_tree::{CallKind, Expr, FunctionName, PureCall};
use term_core::{Term, Terms};

/// What is to be done next.
#[derive(Drop)]
pub(crate) enum Control<'m> {
    /// To evaluate this expression.
    Evaluate(&'m Expr),
    /// To go on with this value of the innermost expression.
    Return(Term),
    /// To go on with these values of the innermost expression, any number of them.
    Values(Terms),
    /// To raise an exception of this class with this reason.
    Raise(Class, Term),
    /// To answer this call by itself.
    Answer(PureCall, Terms),
    /// To ask the world for this call.
    Ask(CallKind, Terms),
    /// To wait for a message, for ever or not, in the receive on top of the stack.
    Wait(bool),
    /// To apply this function of the module to arguments.
    Apply(&'m FunctionName, Terms),
}

/// Where the evaluation of a body stops.
#[derive(Drop)]
pub(crate) enum Halt {
    /// It has given these values.
    Values(Terms),
    /// It has raised an exception of this class with this reason, which nothing handles.
    Raise(Class, Term),
    /// It asks the world for this call.
    Ask(CallKind, Terms),
    /// It waits for a message, for ever or not, in the receive on top of the stack.
    Wait(bool),
}

/// What the evaluation of a body reaches by itself.
#[derive(Drop)]
pub(crate) enum Pause<'m> {
    /// It stops here.
    Halt(Halt),
    /// At an application of this function of the module to arguments.
    Application(&'m FunctionName, Terms),
}
