// The transcript: one line for each event. No write takes memory.
ghost use Rattle.std.specs.Prelude.{◌≡◌, false};
ghost use Rattle.term_core.specs.Stream.{Writes};
ghost use Rattle.term_core.specs.Term.{meaning_of};
ghost use Rattle.proc_links.specs.Effects.{fate_in};
ghost use Rattle.proc_signals.specs.Signal.{signal_of};
ghost use Rattle.world_model.specs.Names.{ref_of};
ghost use Rattle.world_planned.specs.Replies.{refusal_in};
ghost use Rattle.world_footprints.specs.Deeds.{deed_in, event_in};
ghost use Rattle.world_event_text.specs.EventText.{text_of_end, text_of_answer, text_of_refusal, text_of_refused, text_of_last_call, text_of_received, text_of_fate, after_arrow, text_of_message, text_of_exit, text_of_down, text_unless_put, text_of_guarded, text_of_delivered, text_of_deed, text_of_event};

use crate::call_text::{write_broken_rule, write_call};
use core_tree::CallKind;
use proc_links::Effect;
use proc_signals::Signal;
use term_core::{
    RefId, Sink, Term, Terms, WriteFault, write_all, write_number, write_reference, write_step,
    write_term,
};
use world_plans::{Deed, Event, Refusal};

/// Writes the line of the event of this number: the number, the step (of a turn the process whose turn it
/// was), and what it did. `WriteFault` comes only where the sink has failed, and then a beginning of the
/// line was written. It takes no memory.
pub fn write_event<W: Sink>(sink: &mut W, number: u64, event: &Event) -> Result<(), WriteFault>
    requires { W.has_failed sink.old ≡ false }
    ensures { Writes (W.contents sink.old) (W.contents sink.new) (W.has_failed sink.new) result (text_of_event number (event_in event.now)) }
{
    write_number(number, sink)?;
    write_all(sink, b" ")?;
    write_step(&event.step, sink)?;
    write_all(sink, b" ")?;
    write_deed(sink, &event.deed)?;
    write_all(sink, b"\n")
}

// Writes what a step did.
fn write_deed<W: Sink>(sink: &mut W, deed: &Deed) -> Result<(), WriteFault>
    requires { W.has_failed sink.old ≡ false }
    ensures { Writes (W.contents sink.old) (W.contents sink.new) (W.has_failed sink.new) result (text_of_deed (deed_in deed.now)) }
{
    match deed {
        Deed::Served {
            kind,
            arguments,
            answer,
        } => write_answer(sink, *kind, arguments, answer),
        Deed::Refused {
            kind,
            arguments,
            refusal,
        } => write_refused(sink, *kind, arguments, refusal),
        Deed::EndedItself {
            kind,
            arguments,
            reason,
        } => write_last_call(sink, *kind, arguments, reason),
        Deed::Received(message) => write_received(sink, message),
        Deed::TimedOut => write_all(sink, b"times out"),
        Deed::Ended(reason) => write_end(sink, reason),
        Deed::RanAway => write_all(sink, b"runs away"),
        Deed::Delivered(signal, effect) => write_delivered(sink, signal, effect),
    }
}

// Writes a call that was served, with its answer.
fn write_answer<W: Sink>(
    sink: &mut W,
    kind: CallKind,
    arguments: &Terms,
    answer: &Term,
) -> Result<(), WriteFault>
    requires { W.has_failed sink.old ≡ false }
    ensures { Writes (W.contents sink.old) (W.contents sink.new) (W.has_failed sink.new) result (text_of_answer kind arguments.now (meaning_of answer.now)) }
{
    write_call(sink, kind, arguments)?;
    write_all(sink, b" -> ")?;
    write_term(answer, sink)
}

// Writes a call that was refused, with the reason why.
fn write_refused<W: Sink>(
    sink: &mut W,
    kind: CallKind,
    arguments: &Terms,
    refusal: &Refusal,
) -> Result<(), WriteFault>
    requires { W.has_failed sink.old ≡ false }
    ensures { Writes (W.contents sink.old) (W.contents sink.new) (W.has_failed sink.new) result (text_of_refused kind arguments.now (refusal_in refusal.now)) }
{
    write_call(sink, kind, arguments)?;
    write_all(sink, b" -> ")?;
    write_refusal(sink, refusal)
}

// Writes why a call was refused.
fn write_refusal<W: Sink>(sink: &mut W, refusal: &Refusal) -> Result<(), WriteFault>
    requires { W.has_failed sink.old ≡ false }
    ensures { Writes (W.contents sink.old) (W.contents sink.new) (W.has_failed sink.new) result (text_of_refusal (refusal_in refusal.now)) }
{
    match refusal {
        Refusal::BadArgument => write_all(sink, b"badarg"),
        Refusal::NoProcess => write_all(sink, b"noproc"),
        Refusal::ByRule(rule, owner) => write_broken_rule(sink, *rule, owner),
    }
}

// Writes a call that ended its caller, with the reason of the end.
fn write_last_call<W: Sink>(
    sink: &mut W,
    kind: CallKind,
    arguments: &Terms,
    reason: &Term,
) -> Result<(), WriteFault>
    requires { W.has_failed sink.old ≡ false }
    ensures { Writes (W.contents sink.old) (W.contents sink.new) (W.has_failed sink.new) result (text_of_last_call kind arguments.now (meaning_of reason.now)) }
{
    write_call(sink, kind, arguments)?;
    write_all(sink, b" -> ")?;
    write_end(sink, reason)
}

// Writes that a receive took a message.
fn write_received<W: Sink>(sink: &mut W, message: &Term) -> Result<(), WriteFault>
    requires { W.has_failed sink.old ≡ false }
    ensures { Writes (W.contents sink.old) (W.contents sink.new) (W.has_failed sink.new) result (text_of_received (meaning_of message.now)) }
{
    write_all(sink, b"receives ")?;
    write_term(message, sink)
}

/// Writes the end of a process. Where the sink fails, a beginning of that was written.
pub fn write_end<W: Sink>(sink: &mut W, reason: &Term) -> Result<(), WriteFault>
    requires { W.has_failed sink.old ≡ false }
    ensures { Writes (W.contents sink.old) (W.contents sink.new) (W.has_failed sink.new) result (text_of_end (meaning_of reason.now)) }
{
    write_all(sink, b"ends ")?;
    write_term(reason, sink)
}

// Writes a signal that was delivered, and what became of it.
fn write_delivered<W: Sink>(
    sink: &mut W,
    signal: &Signal,
    effect: &Effect,
) -> Result<(), WriteFault>
    requires { W.has_failed sink.old ≡ false }
    ensures { Writes (W.contents sink.old) (W.contents sink.new) (W.has_failed sink.new) result (text_of_delivered (signal_of signal.now) (fate_in effect.now)) }
{
    match signal {
        Signal::Message(message) => write_message(sink, message),
        Signal::Exit(reason) => write_exit(sink, reason, effect),
        Signal::LinkExit(reason) => write_exit(sink, reason, effect),
        Signal::Down(reference, _) => write_down(sink, reference, effect),
        Signal::Guarded(reference, message) => {
            write_guarded(sink, b" by alias ", reference, message, effect)
        }
        Signal::Elapsed(reference, message) => {
            write_guarded(sink, b" by timer ", reference, message, effect)
        }
    }
}

// Writes a message that was delivered.
fn write_message<W: Sink>(sink: &mut W, message: &Term) -> Result<(), WriteFault>
    requires { W.has_failed sink.old ≡ false }
    ensures { Writes (W.contents sink.old) (W.contents sink.new) (W.has_failed sink.new) result (text_of_message (meaning_of message.now)) }
{
    write_all(sink, b"brings ")?;
    write_term(message, sink)
}

// Writes an exit signal that was delivered, and what became of it.
fn write_exit<W: Sink>(sink: &mut W, reason: &Term, effect: &Effect) -> Result<(), WriteFault>
    requires { W.has_failed sink.old ≡ false }
    ensures { Writes (W.contents sink.old) (W.contents sink.new) (W.has_failed sink.new) result (text_of_exit (meaning_of reason.now) (fate_in effect.now)) }
{
    write_all(sink, b"exit ")?;
    write_term(reason, sink)?;
    write_after_arrow(sink, effect)
}

// Writes that a watched process ended, by the reference of the watch, and what became of that signal.
fn write_down<W: Sink>(sink: &mut W, reference: &RefId, effect: &Effect) -> Result<(), WriteFault>
    requires { W.has_failed sink.old ≡ false }
    ensures { Writes (W.contents sink.old) (W.contents sink.new) (W.has_failed sink.new) result (text_of_down (ref_of reference.now) (fate_in effect.now)) }
{
    write_all(sink, b"down ")?;
    write_reference(reference, sink)?;
    write_after_arrow(sink, effect)
}

// Writes a message by an alias or a timer, as the words say, with its reference; and what became of the message where it
// did not come into the mailbox.
fn write_guarded<W: Sink>(
    sink: &mut W,
    words: &[u8],
    reference: &RefId,
    message: &Term,
    effect: &Effect,
) -> Result<(), WriteFault>
    requires { W.has_failed sink.old ≡ false }
    ensures { Writes (W.contents sink.old) (W.contents sink.new) (W.has_failed sink.new) result (text_of_guarded words.now (ref_of reference.now) (meaning_of message.now) (fate_in effect.now)) }
{
    write_message(sink, message)?;
    write_all(sink, words)?;
    write_reference(reference, sink)?;
    write_unless_put(sink, effect)
}

// Writes what became of a message where it did not come into the mailbox.
fn write_unless_put<W: Sink>(sink: &mut W, effect: &Effect) -> Result<(), WriteFault>
    requires { W.has_failed sink.old ≡ false }
    ensures { Writes (W.contents sink.old) (W.contents sink.new) (W.has_failed sink.new) result (text_unless_put (fate_in effect.now)) }
{
    match effect {
        Effect::Put(_) => Ok(()),
        Effect::Ends(_) | Effect::Ignored | Effect::Dropped => write_after_arrow(sink, effect),
    }
}

// Writes what became of a signal after an arrow.
fn write_after_arrow<W: Sink>(sink: &mut W, effect: &Effect) -> Result<(), WriteFault>
    requires { W.has_failed sink.old ≡ false }
    ensures { Writes (W.contents sink.old) (W.contents sink.new) (W.has_failed sink.new) result (after_arrow (fate_in effect.now)) }
{
    write_all(sink, b" -> ")?;
    write_effect(sink, effect)
}

// Writes what became of a signal.
fn write_effect<W: Sink>(sink: &mut W, effect: &Effect) -> Result<(), WriteFault>
    requires { W.has_failed sink.old ≡ false }
    ensures { Writes (W.contents sink.old) (W.contents sink.new) (W.has_failed sink.new) result (text_of_fate (fate_in effect.now)) }
{
    match effect {
        Effect::Ends(reason) => write_end(sink, reason),
        Effect::Ignored => write_all(sink, b"ignored"),
        Effect::Dropped => write_all(sink, b"dropped"),
        Effect::Put(message) => write_term(message, sink),
    }
}
