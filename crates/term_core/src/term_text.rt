// The text of a term. No write takes memory.
ghost use Rattle.std.specs.Prelude.{◌≡◌, false, ◌∷◌, ◌++◌};
ghost use Rattle.term_core.specs.Stream.{Writes};
ghost use Rattle.term_core.specs.Meaning.{meanings_of};
ghost use Rattle.term_core.specs.Term.{meaning_of};
ghost use Rattle.term_core.specs.TermText.{text_of_term, text_of_tuple, text_of_tail, text_of_end};

use crate::stream::{Sink, WriteFault, write_all};
use crate::term::{Pair, Term, Terms};
use crate::text::{write_atom, write_integer, write_pid, write_reference};

/// Writes a term: integers in decimal, atoms in single quotes with escapes, pids as `P.2.1`, references
/// as `#P.2`, tuples as `{a,b}`, lists as `[a,b]` and `[a,b|t]`, without blanks. `WriteFault` comes only
/// where the sink has failed, and then a beginning of the text was written.
#[cycle(write)]
pub fn write_term<S: Sink>(term: &Term, sink: &mut S) -> Result<(), WriteFault>
    requires { S.has_failed sink.old ≡ false }
    ensures { Writes (S.contents sink.old) (S.contents sink.new) (S.has_failed sink.new) result (text_of_term (meaning_of term.now)) }
{
    match term {
        Term::Int(integer) => write_integer(*integer, sink),
        Term::Atom(atom) => write_atom(atom, sink),
        Term::Ref(reference) => write_reference(reference, sink),
        Term::Pid(pid) => write_pid(pid, sink),
        Term::Tuple(parts) => write_tuple(parts, sink),
        Term::Nil => write_all(sink, b"[]"),
        Term::Cons(cell) => write_list(cell, sink),
    }
}

// Writes a tuple in braces, with commas between its parts.
#[cycle(write)]
fn write_tuple<S: Sink>(parts: &Terms, sink: &mut S) -> Result<(), WriteFault>
    requires { S.has_failed sink.old ≡ false }
    ensures { Writes (S.contents sink.old) (S.contents sink.new) (S.has_failed sink.new) result (text_of_tuple (meanings_of parts.now)) }
{
    if parts.items.is_empty() {
        return write_all(sink, b"{}");
    }
    let mut mark = b'{';
    for part in &parts.items {
        write_behind(mark, part, sink)?;
        mark = b',';
    }
    write_all(sink, b"}")
}

// Writes a list that has a cell in brackets, with commas between its heads.
#[cycle(write)]
fn write_list<S: Sink>(pair: &Pair, sink: &mut S) -> Result<(), WriteFault>
    requires { S.has_failed sink.old ≡ false }
    ensures { Writes (S.contents sink.old) (S.contents sink.new) (S.has_failed sink.new) result (91 ∷ (text_of_term pair.now.0 ++ text_of_tail pair.now.1)) }
{
    write_behind(b'[', &pair.head, sink)?;
    let mut rest = &pair.tail;
    while let Term::Cons(cell) = rest {
        let pair: &Pair = cell;
        write_behind(b',', &pair.head, sink)?;
        rest = &pair.tail;
    }
    write_last_tail(rest, sink)
}

// Writes the end of a list: only the bracket where its last tail is nil, else that tail after a bar.
#[cycle(write)]
fn write_last_tail<S: Sink>(tail: &Term, sink: &mut S) -> Result<(), WriteFault>
    requires { S.has_failed sink.old ≡ false }
    ensures { Writes (S.contents sink.old) (S.contents sink.new) (S.has_failed sink.new) result (text_of_end (meaning_of tail.now)) }
{
    if let Term::Nil = tail {
        return write_all(sink, b"]");
    }
    write_behind(b'|', tail, sink)?;
    write_all(sink, b"]")
}

// Writes a mark and a term after it.
#[cycle(write)]
fn write_behind<S: Sink>(mark: u8, term: &Term, sink: &mut S) -> Result<(), WriteFault>
    requires { S.has_failed sink.old ≡ false }
    ensures { Writes (S.contents sink.old) (S.contents sink.new) (S.has_failed sink.new) result (mark ∷ text_of_term (meaning_of term.now)) }
{
    write_all(sink, &[mark])?;
    write_term(term, sink)
}
