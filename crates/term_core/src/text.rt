// The texts of numbers, pids, references, atoms, steps and schedules. No write takes memory.
ghost use Rattle.std.specs.Prelude.{◌≡◌, false};
ghost use Rattle.std.specs.Fmt.{decimal, signed_decimal};
ghost use Rattle.term_core.specs.Stream.{Writes};
ghost use Rattle.term_core.specs.Text.{dotted, behind_blank, text_of_pid, text_of_delivery, text_of_step, text_of_schedule};
ghost use Rattle.term_core.specs.TermText.{printed_byte, plain_byte, text_of_atom, text_of_reference};

use crate::atom::Atom;
use crate::pid::{Pid, RefId};
use crate::step::Step;
use crate::stream::{Sink, WriteFault, write_all};
use itoa::Buffer;

/// Writes a number in decimal. `WriteFault` comes only where the sink has failed, and then a beginning
/// of the text was written.
pub fn write_number<S: Sink>(number: u64, sink: &mut S) -> Result<(), WriteFault>
    requires { S.has_failed sink.old ≡ false }
    ensures { Writes (S.contents sink.old) (S.contents sink.new) (S.has_failed sink.new) result (decimal number) }
{
    let mut buffer = Buffer::new();
    write_all(sink, buffer.format(number).as_bytes())
}

/// Writes an integer in decimal, with its sign where it is negative. `WriteFault` comes only where the
/// sink has failed, and then a beginning of the text was written.
pub fn write_integer<S: Sink>(integer: i64, sink: &mut S) -> Result<(), WriteFault>
    requires { S.has_failed sink.old ≡ false }
    ensures { Writes (S.contents sink.old) (S.contents sink.new) (S.has_failed sink.new) result (signed_decimal integer) }
{
    let mut buffer = Buffer::new();
    write_all(sink, buffer.format(integer).as_bytes())
}

/// Writes a pid, as `P.2.1`. `WriteFault` comes only where the sink has failed, and then a beginning
/// of the text was written.
pub fn write_pid<S: Sink>(pid: &Pid, sink: &mut S) -> Result<(), WriteFault>
    requires { S.has_failed sink.old ≡ false }
    ensures { Writes (S.contents sink.old) (S.contents sink.new) (S.has_failed sink.new) result (text_of_pid pid.now) }
{
    write_all(sink, b"P")?;
    for number in pid.numbers() {
        write_dotted(*number, sink)?;
    }
    Ok(())
}

// Writes a number after a dot.
fn write_dotted<S: Sink>(number: u64, sink: &mut S) -> Result<(), WriteFault>
    requires { S.has_failed sink.old ≡ false }
    ensures { Writes (S.contents sink.old) (S.contents sink.new) (S.has_failed sink.new) result (dotted number) }
{
    write_all(sink, b".")?;
    write_number(number, sink)
}

/// Writes a reference, as `#P.2`. `WriteFault` comes only where the sink has failed, and then a
/// beginning of the text was written.
pub fn write_reference<S: Sink>(reference: &RefId, sink: &mut S) -> Result<(), WriteFault>
    requires { S.has_failed sink.old ≡ false }
    ensures { Writes (S.contents sink.old) (S.contents sink.new) (S.has_failed sink.new) result (text_of_reference reference.now.0 reference.now.1) }
{
    write_all(sink, b"#")?;
    write_pid(reference.pid(), sink)?;
    write_dotted(reference.number(), sink)
}

/// Writes an atom in single quotes, with escapes. `WriteFault` comes only where the sink has failed,
/// and then a beginning of the text was written.
pub fn write_atom<S: Sink>(atom: &Atom, sink: &mut S) -> Result<(), WriteFault>
    requires { S.has_failed sink.old ≡ false }
    ensures { Writes (S.contents sink.old) (S.contents sink.new) (S.has_failed sink.new) result (text_of_atom atom.now) }
{
    write_all(sink, b"'")?;
    let text = atom.as_str();
    let bytes = text.as_bytes();
    for byte in bytes {
        write_atom_byte(*byte, sink)?;
    }
    write_all(sink, b"'")
}

// Writes a byte of an atom, as the escapes require.
fn write_atom_byte<S: Sink>(byte: u8, sink: &mut S) -> Result<(), WriteFault>
    requires { S.has_failed sink.old ≡ false }
    ensures { Writes (S.contents sink.old) (S.contents sink.new) (S.has_failed sink.new) result (printed_byte byte) }
{
    match byte {
        b'\'' => write_all(sink, b"\\'"),
        b'\\' => write_all(sink, b"\\\\"),
        8 => write_all(sink, b"\\b"),
        9 => write_all(sink, b"\\t"),
        10 => write_all(sink, b"\\n"),
        11 => write_all(sink, b"\\v"),
        12 => write_all(sink, b"\\f"),
        13 => write_all(sink, b"\\r"),
        27 => write_all(sink, b"\\e"),
        127 => write_all(sink, b"\\d"),
        _ => write_plain_byte(byte, sink),
    }
}

// Writes a byte that has no letter of its own: in octal digits below 32, else as it is.
fn write_plain_byte<S: Sink>(byte: u8, sink: &mut S) -> Result<(), WriteFault>
    requires { S.has_failed sink.old ≡ false }
    ensures { Writes (S.contents sink.old) (S.contents sink.new) (S.has_failed sink.new) result (plain_byte byte) }
{
    if byte < 32 {
        let octal = [
            b'\\',
            b'0' + byte / 64,
            b'0' + byte / 8 % 8,
            b'0' + byte % 8,
        ];
        write_all(sink, &octal)
    } else {
        write_all(sink, &[byte])
    }
}

/// Writes a step: a turn as its pid, a delivery as `from>to`. `WriteFault` comes only where the sink
/// has failed, and then a beginning of the text was written.
pub fn write_step<S: Sink>(step: &Step, sink: &mut S) -> Result<(), WriteFault>
    requires { S.has_failed sink.old ≡ false }
    ensures { Writes (S.contents sink.old) (S.contents sink.new) (S.has_failed sink.new) result (text_of_step step.now) }
{
    match step {
        Step::Turn(pid) => write_pid(pid, sink),
        Step::Deliver(from, to) => write_delivery(from, to, sink),
    }
}

// Writes the two pids of a delivery.
fn write_delivery<S: Sink>(from: &Pid, to: &Pid, sink: &mut S) -> Result<(), WriteFault>
    requires { S.has_failed sink.old ≡ false }
    ensures { Writes (S.contents sink.old) (S.contents sink.new) (S.has_failed sink.new) result (text_of_delivery from.now to.now) }
{
    write_pid(from, sink)?;
    write_all(sink, b">")?;
    write_pid(to, sink)
}

/// Writes the steps of a schedule with one blank between them. `WriteFault` comes only where the sink
/// has failed, and then a beginning of the text was written.
pub fn write_schedule<S: Sink>(steps: &[Step], sink: &mut S) -> Result<(), WriteFault>
    requires { S.has_failed sink.old ≡ false }
    ensures { Writes (S.contents sink.old) (S.contents sink.new) (S.has_failed sink.new) result (text_of_schedule steps.now) }
{
    let Some((first, others)) = steps.split_first() else {
        return Ok(());
    };
    write_step(first, sink)?;
    for step in others {
        write_next_step(step, sink)?;
    }
    Ok(())
}

// Writes a step after a blank.
fn write_next_step<S: Sink>(step: &Step, sink: &mut S) -> Result<(), WriteFault>
    requires { S.has_failed sink.old ≡ false }
    ensures { Writes (S.contents sink.old) (S.contents sink.new) (S.has_failed sink.new) result (behind_blank step.now) }
{
    write_all(sink, b" ")?;
    write_step(step, sink)
}
