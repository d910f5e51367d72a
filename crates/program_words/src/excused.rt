// What a command line excuses: the terms of its texts, and its flags.
ghost use Rattle.std.specs.Prelude.{◌≡◌, ◌≤◌, ◌&&◌, ◌||◌, List, map, IfOk, IfErr, IsErr};
ghost use Rattle.clap.specs.Values.{kind_of};
ghost use Rattle.clap.specs.Words.{found_of, rows_of, subcommand_rows_of};
ghost use Rattle.term_core.specs.Meaning.{Meaning, node_count};
ghost use Rattle.term_core.specs.Term.{meaning_of};
ghost use Rattle.term_core.specs.TermText.{text_of_term};
ghost use Rattle.term_reader.specs.Lawful.{IsLawful};
ghost use Rattle.tree_excuses.specs.Excuses.{Excuses as Excused};
ghost use Rattle.program_words.specs.Words.{AreSmall};
ghost use Rattle.program_words.specs.inside.Found.{AreExcusesIn, AreTextsOf, AskExcuses, rows_in, texts_in};

use crate::command_line::NAME;
use crate::refusals::text_of_no_term;
use clap::error::ErrorKind;
use clap::{ArgMatches, Command, Error};
use std::alloc::{AllocError, Global};
use term_core::Term;
use term_reader::{TermFault, read_term};
use tree_excuses::Excuses;
use world_identities::Flags;

// How many terms may be given.
const MOST_NORMAL: usize = 16;

// What is said where more than one flag of deadlocks is given.
const TWO_OF_DEADLOCKS: &str =
    "only one of the arguments '--allow-deadlock', '--main-deadlock' and '--idle-servers' can be used";

/// What the command that was found excuses, together with its flags.
pub(crate) fn read_excuses(
    alloc: Global,
    matches: &ArgMatches<'_>,
    flags: Flags,
) -> Result<Excuses, Error>
    ensures ok { IfOk result (λ read. AreExcusesIn flags (rows_in (subcommand_rows_of matches.now)) read) }
    ensures refused { IfErr result (λ e. (excuses : Excused) → AskExcuses flags (rows_in (subcommand_rows_of matches.now)) excuses → kind_of e ≡ ErrorKind.OutOfMemory) }
{
    match matches.subcommand() {
        Some((_, given)) => read_given(alloc, given, flags),
        None => Ok(Excuses::none(alloc)),
    }
}

// What these matches excuse, together with these flags.
fn read_given(alloc: Global, given: &ArgMatches<'_>, flags: Flags) -> Result<Excuses, Error>
    ensures ok { IfOk result (λ read. AreExcusesIn flags (rows_of (found_of given.now)) read) }
    ensures refused { IfErr result (λ e. (excuses : Excused) → AskExcuses flags (rows_of (found_of given.now)) excuses → kind_of e ≡ ErrorKind.OutOfMemory) }
{
    let main_deadlock = given.get_flag("main-deadlock");
    let idle_servers = given.get_flag("idle-servers");
    if are_two(flags.allow_deadlock, main_deadlock, idle_servers) {
        return Err(Command::new(alloc, NAME).error(ErrorKind::ArgumentConflict, TWO_OF_DEADLOCKS)?);
    }
    let normal = read_normal(alloc, given)?;
    Ok(Excuses {
        main_deadlock: is_main_excused(main_deadlock, idle_servers),
        normal,
    })
}

// Whether more than one of the flags of deadlocks is given.
fn are_two(allow_deadlock: bool, main_deadlock: bool, idle_servers: bool) -> bool
    ensures { result ≡ ((allow_deadlock && (main_deadlock || idle_servers)) || (main_deadlock && idle_servers)) }
{
    (allow_deadlock && (main_deadlock || idle_servers)) || (main_deadlock && idle_servers)
}

// Whether a deadlock without the first process is normal: either of these flags makes it so.
fn is_main_excused(main_deadlock: bool, idle_servers: bool) -> bool
    ensures { result ≡ (main_deadlock || idle_servers) }
{
    main_deadlock || idle_servers
}

// The terms that are given.
fn read_normal(alloc: Global, given: &ArgMatches<'_>) -> Result<Vec<Term>, Error>
    ensures ok { IfOk result (λ terms. AreTextsOf (map meaning_of terms.items) (texts_in (rows_of (found_of given.now)))) }
    ensures refused { IfErr result (λ e. (terms : List Meaning) → AreTextsOf terms (texts_in (rows_of (found_of given.now))) → AreSmall terms → kind_of e ≡ ErrorKind.OutOfMemory) }
{
    match given.get_strs("normal") {
        Some(texts) => read_terms(alloc, texts),
        None => Ok(Vec::new(alloc)),
    }
}

// The terms of these texts.
fn read_terms(alloc: Global, texts: &[&str]) -> Result<Vec<Term>, Error>
    ensures ok { IfOk result (λ terms. AreTextsOf (map meaning_of terms.items) (map (λ text. text.now) texts.now)) }
    ensures refused { IfErr result (λ e. (terms : List Meaning) → AreTextsOf terms (map (λ text. text.now) texts.now) → AreSmall terms → kind_of e ≡ ErrorKind.OutOfMemory) }
{
    if texts.len() > MOST_NORMAL {
        return Err(Command::new(alloc, NAME).error(
            ErrorKind::ValueValidation,
            "the argument '--normal' cannot be used more than 16 times",
        )?);
    }
    let mut terms = Vec::new(alloc);
    for text in texts {
        terms.push(read_text(alloc, text)?)?;
    }
    Ok(terms)
}

// The term of a text.
#[tactic(auto, using(term_reader::proofs::Heights::height_below_nodes))]
fn read_text(alloc: Global, text: &str) -> Result<Term, Error>
    ensures ok { IfOk result (λ read. IsLawful (meaning_of read) × (text.now ≡ text_of_term (meaning_of read))) }
    ensures refused { IfErr result (λ e. (term : Meaning) → IsLawful term → node_count term ≤ 10000 → text.now ≡ text_of_term term → kind_of e ≡ ErrorKind.OutOfMemory) }
{
    match read_term(alloc, text.as_bytes()) {
        Ok(term) => Ok(term),
        Err(fault) => Err(refusal(alloc, text, fault)?),
    }
}

// What is said of a text that is read as no term.
fn refusal(alloc: Global, text: &str, fault: TermFault) -> Result<Error, AllocError>
    ensures { fault ≡ TermFault.Memory → IsErr result }
{
    let message = text_of_no_term(alloc, text, fault)?;
    Command::new(alloc, NAME).error(ErrorKind::ValueValidation, message.as_str())
}
