// The lines of events: what steps do, as terms of Erlang.
ghost use Rattle.std.specs.Prelude.{◌≡◌, false};
ghost use Rattle.term_core.specs.Stream.{Writes};
ghost use Rattle.term_core.specs.Term.{meaning_of};
ghost use Rattle.proc_links.specs.Effects.{fate_in};
ghost use Rattle.proc_signals.specs.Signal.{signal_of};
ghost use Rattle.world_model.specs.Names.{ref_of};
ghost use Rattle.world_planned.specs.Replies.{refusal_in};
ghost use Rattle.world_footprints.specs.Deeds.{deed_in, event_in};
ghost use Rattle.report_explained.specs.Explained.{IsExplained};
ghost use Rattle.report_terms.specs.EventTerms.{deed_as_term, delivered_as_term, down_as_term, event_line, exit_as_term, fate_as_term, guarded_as_term, refusal_as_term, refused_as_term, word_and_term, word_call_and_term};

use crate::calls::{write_call, write_rule};
use crate::strings::{
    write_reference_string, write_step_string, write_term_after_comma, write_term_string,
};
use core_tree::CallKind;
use proc_links::Effect;
use proc_signals::Signal;
use report_explained::ExplainFault;
use std::alloc::Global;
use term_core::{RefId, Sink, Term, Terms, WriteFault, write_all, write_number};
use world_plans::{Deed, Event, Refusal};

/// Writes the line of the event of this number: the step, and what it did.
pub(crate) fn write_event_line<W: Sink>(
    alloc: Global,
    number: u64,
    event: &Event,
    sink: &mut W,
) -> Result<(), ExplainFault>
    requires { W.has_failed sink.old ≡ false }
    ensures { IsExplained (event_line number (event_in event.now)) (W.contents sink.old) (W.contents sink.new) (W.has_failed sink.new) result }
{
    write_all(sink, b"{event,")?;
    write_number(number, sink)?;
    write_all(sink, b",")?;
    write_step_string(&event.step, sink)?;
    write_all(sink, b",")?;
    write_deed(alloc, &event.deed, sink)?;
    write_all(sink, b"}.\n")?;
    Ok(())
}

// Writes what a step did.
fn write_deed<W: Sink>(alloc: Global, deed: &Deed, sink: &mut W) -> Result<(), ExplainFault>
    requires { W.has_failed sink.old ≡ false }
    ensures { IsExplained (deed_as_term (deed_in deed.now)) (W.contents sink.old) (W.contents sink.new) (W.has_failed sink.new) result }
{
    match deed {
        Deed::Served {
            kind,
            arguments,
            answer,
        } => write_word_call_and_term(alloc, b"answers", *kind, arguments, answer, sink),
        Deed::Refused {
            kind,
            arguments,
            refusal,
        } => write_refused(alloc, *kind, arguments, refusal, sink),
        Deed::EndedItself {
            kind,
            arguments,
            reason,
        } => write_word_call_and_term(alloc, b"ends_by", *kind, arguments, reason, sink),
        Deed::Received(message) => write_word_and_term(alloc, b"receives", message, sink),
        Deed::TimedOut => write_word(b"times_out", sink),
        Deed::Ended(reason) => write_word_and_term(alloc, b"ends", reason, sink),
        Deed::RanAway => write_word(b"runs_away", sink),
        Deed::Delivered(signal, effect) => write_delivered(alloc, signal, effect, sink),
    }
}

// Writes a word.
fn write_word<W: Sink>(word: &[u8], sink: &mut W) -> Result<(), ExplainFault>
    requires { W.has_failed sink.old ≡ false }
    ensures { IsExplained word.now (W.contents sink.old) (W.contents sink.new) (W.has_failed sink.new) result }
{
    write_all(sink, word)?;
    Ok(())
}

// Writes a word and a term.
fn write_word_and_term<W: Sink>(
    alloc: Global,
    word: &[u8],
    term: &Term,
    sink: &mut W,
) -> Result<(), ExplainFault>
    requires { W.has_failed sink.old ≡ false }
    ensures { IsExplained (word_and_term word.now (meaning_of term.now)) (W.contents sink.old) (W.contents sink.new) (W.has_failed sink.new) result }
{
    write_all(sink, b"{")?;
    write_all(sink, word)?;
    write_all(sink, b",")?;
    write_term_string(alloc, term, sink)?;
    write_all(sink, b"}")?;
    Ok(())
}

// Writes a word, a call and a term.
fn write_word_call_and_term<W: Sink>(
    alloc: Global,
    word: &[u8],
    kind: CallKind,
    arguments: &Terms,
    term: &Term,
    sink: &mut W,
) -> Result<(), ExplainFault>
    requires { W.has_failed sink.old ≡ false }
    ensures { IsExplained (word_call_and_term word.now kind arguments.now (meaning_of term.now)) (W.contents sink.old) (W.contents sink.new) (W.has_failed sink.new) result }
{
    write_all(sink, b"{")?;
    write_all(sink, word)?;
    write_all(sink, b",")?;
    write_call(alloc, kind, arguments, sink)?;
    write_all(sink, b",")?;
    write_term_string(alloc, term, sink)?;
    write_all(sink, b"}")?;
    Ok(())
}

// Writes a call that was refused, with the reason why.
fn write_refused<W: Sink>(
    alloc: Global,
    kind: CallKind,
    arguments: &Terms,
    refusal: &Refusal,
    sink: &mut W,
) -> Result<(), ExplainFault>
    requires { W.has_failed sink.old ≡ false }
    ensures { IsExplained (refused_as_term kind arguments.now (refusal_in refusal.now)) (W.contents sink.old) (W.contents sink.new) (W.has_failed sink.new) result }
{
    write_all(sink, b"{refused,")?;
    write_call(alloc, kind, arguments, sink)?;
    write_all(sink, b",")?;
    write_refusal(refusal, sink)?;
    write_all(sink, b"}")?;
    Ok(())
}

// Writes why a call was refused.
fn write_refusal<W: Sink>(refusal: &Refusal, sink: &mut W) -> Result<(), WriteFault>
    requires { W.has_failed sink.old ≡ false }
    ensures { Writes (W.contents sink.old) (W.contents sink.new) (W.has_failed sink.new) result (refusal_as_term (refusal_in refusal.now)) }
{
    match refusal {
        Refusal::BadArgument => write_all(sink, b"badarg"),
        Refusal::NoProcess => write_all(sink, b"noproc"),
        Refusal::ByRule(rule, owner) => write_rule(*rule, owner, sink),
    }
}

// Writes a signal that was delivered, and what became of it.
fn write_delivered<W: Sink>(
    alloc: Global,
    signal: &Signal,
    effect: &Effect,
    sink: &mut W,
) -> Result<(), ExplainFault>
    requires { W.has_failed sink.old ≡ false }
    ensures { IsExplained (delivered_as_term (signal_of signal.now) (fate_in effect.now)) (W.contents sink.old) (W.contents sink.new) (W.has_failed sink.new) result }
{
    match signal {
        Signal::Message(message) => write_word_and_term(alloc, b"brings", message, sink),
        Signal::Exit(reason) => write_exit(alloc, reason, effect, sink),
        Signal::LinkExit(reason) => write_exit(alloc, reason, effect, sink),
        Signal::Down(reference, _) => write_down(alloc, reference, effect, sink),
        Signal::Guarded(reference, message) => {
            write_guarded(alloc, b"{alias,", reference, message, effect, sink)
        }
        Signal::Elapsed(reference, message) => {
            write_guarded(alloc, b"{timer,", reference, message, effect, sink)
        }
    }
}

// Writes an exit signal that was delivered, and what became of it.
fn write_exit<W: Sink>(
    alloc: Global,
    reason: &Term,
    effect: &Effect,
    sink: &mut W,
) -> Result<(), ExplainFault>
    requires { W.has_failed sink.old ≡ false }
    ensures { IsExplained (exit_as_term (meaning_of reason.now) (fate_in effect.now)) (W.contents sink.old) (W.contents sink.new) (W.has_failed sink.new) result }
{
    write_all(sink, b"{exit,")?;
    write_term_string(alloc, reason, sink)?;
    write_all(sink, b",")?;
    write_effect(alloc, effect, sink)?;
    write_all(sink, b"}")?;
    Ok(())
}

// Writes that a watched process ended, by the reference of the watch, and what became of that signal.
fn write_down<W: Sink>(
    alloc: Global,
    reference: &RefId,
    effect: &Effect,
    sink: &mut W,
) -> Result<(), ExplainFault>
    requires { W.has_failed sink.old ≡ false }
    ensures { IsExplained (down_as_term (ref_of reference.now) (fate_in effect.now)) (W.contents sink.old) (W.contents sink.new) (W.has_failed sink.new) result }
{
    write_all(sink, b"{down,")?;
    write_reference_string(reference, sink)?;
    write_all(sink, b",")?;
    write_effect(alloc, effect, sink)?;
    write_all(sink, b"}")?;
    Ok(())
}

// Writes a message by an alias or a timer: the beginning of its term, which says which, the reference, the message, and
// what became of it.
fn write_guarded<W: Sink>(
    alloc: Global,
    beginning: &[u8],
    reference: &RefId,
    message: &Term,
    effect: &Effect,
    sink: &mut W,
) -> Result<(), ExplainFault>
    requires { W.has_failed sink.old ≡ false }
    ensures { IsExplained (guarded_as_term beginning.now (ref_of reference.now) (meaning_of message.now) (fate_in effect.now)) (W.contents sink.old) (W.contents sink.new) (W.has_failed sink.new) result }
{
    write_all(sink, beginning)?;
    write_reference_string(reference, sink)?;
    write_term_after_comma(alloc, message, sink)?;
    write_all(sink, b",")?;
    write_effect(alloc, effect, sink)?;
    write_all(sink, b"}")?;
    Ok(())
}

// Writes what became of a signal.
fn write_effect<W: Sink>(alloc: Global, effect: &Effect, sink: &mut W) -> Result<(), ExplainFault>
    requires { W.has_failed sink.old ≡ false }
    ensures { IsExplained (fate_as_term (fate_in effect.now)) (W.contents sink.old) (W.contents sink.new) (W.has_failed sink.new) result }
{
    match effect {
        Effect::Ends(reason) => write_word_and_term(alloc, b"ends", reason, sink),
        Effect::Ignored => write_word(b"ignored", sink),
        Effect::Dropped => write_word(b"dropped", sink),
        Effect::Put(message) => write_word_and_term(alloc, b"message", message, sink),
    }
}
