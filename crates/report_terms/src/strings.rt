// Texts as strings of Erlang. Only the text of a term takes memory: it is made there before it is written with its escapes.
ghost use Rattle.std.specs.Prelude.{◌≡◌, ◌++◌, false, IfErr, IfOk, OnOk};
ghost use Rattle.term_core.specs.Stream.{Writes};
ghost use Rattle.term_core.specs.Term.{meaning_of};
ghost use Rattle.term_core.specs.TermText.{text_of_term};
ghost use Rattle.world_model.specs.Names.{ref_of};
ghost use Rattle.report_explained.specs.Explained.{IsExplained};
ghost use Rattle.report_terms.specs.Strings.{escaped_byte, in_marks, pid_after_comma, quoted, string_of_pid, string_of_reference, string_of_schedule, string_of_step, string_of_term, strings_of_pids, strings_of_terms, term_after_comma};

use report_explained::ExplainFault;
use std::alloc::Global;
use term_core::{
    Output, Pid, RefId, Sink, Step, Term, Terms, WriteFault, write_all, write_pid, write_reference,
    write_schedule, write_step, write_term,
};

// Writes a text between quotation marks, with escapes.
fn write_quoted<W: Sink>(text: &[u8], sink: &mut W) -> Result<(), WriteFault>
    requires { W.has_failed sink.old ≡ false }
    ensures { Writes (W.contents sink.old) (W.contents sink.new) (W.has_failed sink.new) result (quoted text.now) }
{
    write_all(sink, b"\"")?;
    for byte in text {
        write_escaped_byte(*byte, sink)?;
    }
    write_all(sink, b"\"")
}

// Writes a byte of a string.
fn write_escaped_byte<W: Sink>(byte: u8, sink: &mut W) -> Result<(), WriteFault>
    requires { W.has_failed sink.old ≡ false }
    ensures { Writes (W.contents sink.old) (W.contents sink.new) (W.has_failed sink.new) result (escaped_byte byte) }
{
    match byte {
        b'"' => write_all(sink, b"\\\""),
        b'\\' => write_all(sink, b"\\\\"),
        _ => write_all(sink, &[byte]),
    }
}

/// Writes a text that needs no escape between quotation marks.
pub(crate) fn write_in_marks<W: Sink>(text: &[u8], sink: &mut W) -> Result<(), WriteFault>
    requires { W.has_failed sink.old ≡ false }
    ensures { Writes (W.contents sink.old) (W.contents sink.new) (W.has_failed sink.new) result (in_marks text.now) }
{
    write_all(sink, b"\"")?;
    write_all(sink, text)?;
    write_all(sink, b"\"")
}

/// Writes a pid as a string.
pub(crate) fn write_pid_string<W: Sink>(pid: &Pid, sink: &mut W) -> Result<(), WriteFault>
    requires { W.has_failed sink.old ≡ false }
    ensures { Writes (W.contents sink.old) (W.contents sink.new) (W.has_failed sink.new) result (string_of_pid pid.now) }
{
    write_all(sink, b"\"")?;
    write_pid(pid, sink)?;
    write_all(sink, b"\"")
}

/// Writes a reference as a string.
pub(crate) fn write_reference_string<W: Sink>(
    reference: &RefId,
    sink: &mut W,
) -> Result<(), WriteFault>
    requires { W.has_failed sink.old ≡ false }
    ensures { Writes (W.contents sink.old) (W.contents sink.new) (W.has_failed sink.new) result (string_of_reference (ref_of reference.now)) }
{
    write_all(sink, b"\"")?;
    write_reference(reference, sink)?;
    write_all(sink, b"\"")
}

/// Writes a step as a string.
pub(crate) fn write_step_string<W: Sink>(step: &Step, sink: &mut W) -> Result<(), WriteFault>
    requires { W.has_failed sink.old ≡ false }
    ensures { Writes (W.contents sink.old) (W.contents sink.new) (W.has_failed sink.new) result (string_of_step step.now) }
{
    write_all(sink, b"\"")?;
    write_step(step, sink)?;
    write_all(sink, b"\"")
}

/// Writes a schedule as a string.
pub(crate) fn write_schedule_string<W: Sink>(steps: &[Step], sink: &mut W) -> Result<(), WriteFault>
    requires { W.has_failed sink.old ≡ false }
    ensures { Writes (W.contents sink.old) (W.contents sink.new) (W.has_failed sink.new) result (string_of_schedule steps.now) }
{
    write_all(sink, b"\"")?;
    write_schedule(steps, sink)?;
    write_all(sink, b"\"")
}

/// Writes pids as strings with commas between them.
pub(crate) fn write_pid_strings<W: Sink>(pids: &[Pid], sink: &mut W) -> Result<(), WriteFault>
    requires { W.has_failed sink.old ≡ false }
    ensures { Writes (W.contents sink.old) (W.contents sink.new) (W.has_failed sink.new) result (strings_of_pids pids.now) }
{
    let Some((first, others)) = pids.split_first() else {
        return Ok(());
    };
    write_pid_string(first, sink)?;
    for pid in others {
        write_pid_after_comma(pid, sink)?;
    }
    Ok(())
}

// Writes a pid as a string after a comma.
fn write_pid_after_comma<W: Sink>(pid: &Pid, sink: &mut W) -> Result<(), WriteFault>
    requires { W.has_failed sink.old ≡ false }
    ensures { Writes (W.contents sink.old) (W.contents sink.new) (W.has_failed sink.new) result (pid_after_comma pid.now) }
{
    write_all(sink, b",")?;
    write_pid_string(pid, sink)
}

/// Writes a term as a string. `Memory` comes before anything was written.
pub(crate) fn write_term_string<W: Sink>(
    alloc: Global,
    term: &Term,
    sink: &mut W,
) -> Result<(), ExplainFault>
    requires { W.has_failed sink.old ≡ false }
    ensures { IsExplained (string_of_term (meaning_of term.now)) (W.contents sink.old) (W.contents sink.new) (W.has_failed sink.new) result }
{
    let text = text_of(alloc, term)?;
    write_quoted(text.as_slice(), sink)?;
    Ok(())
}

// The text of a term.
fn text_of(alloc: Global, term: &Term) -> Result<Vec<u8>, ExplainFault>
    ensures text { IfOk result (λ text. text.items ≡ text_of_term (meaning_of term.now)) }
    ensures memory { IfErr result (λ fault. fault ≡ ExplainFault.Memory) }
{
    let mut buffer = Output::new(Vec::new(alloc));
    match append_text(term, &mut buffer) {
        Ok(()) => Ok(buffer.writer),
        Err(_) => Err(ExplainFault::Memory),
    }
}

// The text of a term comes after what the buffer holds, unless there is no memory for it.
fn append_text(term: &Term, buffer: &mut Output<Vec<u8>>) -> Result<(), WriteFault>
    requires { buffer.old.has_failed ≡ false }
    ensures { OnOk result (buffer.new.writer.items ≡ buffer.old.writer.items ++ text_of_term (meaning_of term.now)) }
{
    write_term(term, buffer)
}

/// Writes terms as strings with commas between them.
pub(crate) fn write_term_strings<W: Sink>(
    alloc: Global,
    terms: &Terms,
    sink: &mut W,
) -> Result<(), ExplainFault>
    requires { W.has_failed sink.old ≡ false }
    ensures { IsExplained (strings_of_terms terms.now) (W.contents sink.old) (W.contents sink.new) (W.has_failed sink.new) result }
{
    let Some((first, others)) = terms.as_slice().split_first() else {
        return Ok(());
    };
    write_term_string(alloc, first, sink)?;
    for term in others {
        write_term_after_comma(alloc, term, sink)?;
    }
    Ok(())
}

/// Writes a term as a string after a comma.
pub(crate) fn write_term_after_comma<W: Sink>(
    alloc: Global,
    term: &Term,
    sink: &mut W,
) -> Result<(), ExplainFault>
    requires { W.has_failed sink.old ≡ false }
    ensures { IsExplained (term_after_comma (meaning_of term.now)) (W.contents sink.old) (W.contents sink.new) (W.has_failed sink.new) result }
{
    write_all(sink, b",")?;
    write_term_string(alloc, term, sink)?;
    Ok(())
}
