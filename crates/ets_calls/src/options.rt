// The options of a new table (ets manual, `new/2`).
ghost use Rattle.std.specs.List.{list_any};
ghost use Rattle.std.specs.Prelude.{◌≡◌, IfOk, map, option_map};
ghost use Rattle.ets_calls.specs.Options.{option_in};
ghost use Rattle.ets_store.specs.Tables.{heir_in};
ghost use Rattle.term_core.specs.Term.{meaning_of};
ghost use Rattle.world_model.specs.Tables.{found_beside, plain_options, tuning_words, pair_option, other_option, tuple_option, option_of, options_of};
ghost use Rattle.world_model.specs.Terms.{is_atom};

use crate::argument::positive_in;
use crate::heirs::heir_of_parts;
use ets_store::Heir;
use std::alloc::{AllocError, Global};
use term_core::{Term, Terms};
use world_model::table::{Kind, Protection};

/// One option of a new table.
#[derive(Drop)]
pub enum TableOption {
    /// `set`, `ordered_set`, `bag` or `duplicate_bag`: the kind.
    OfKind(Kind),
    /// `public`, `protected` or `private`: who but the owner may use it.
    Protects(Protection),
    /// `named_table`: it is found by its name.
    Named,
    /// `{keypos, Position}`: the position of its keys, from 1 on.
    AtPosition(usize),
    /// `{heir, none}` or `{heir, Pid, Data}`: who inherits it, if anyone.
    WithHeir(Option<Heir>),
    /// What only tunes, and is read and ignored.
    Tunes,
}

impl TableOption {
    /// The same option. `AllocError` where the copies of what it has can no longer be counted.
    pub fn copy(&self) -> Result<TableOption, AllocError>
        ensures { IfOk result (λ copied. option_in copied ≡ option_in self.now) }
    {
        match self {
            TableOption::OfKind(kind) => Ok(TableOption::OfKind(*kind)),
            TableOption::Protects(protection) => Ok(TableOption::Protects(*protection)),
            TableOption::Named => Ok(TableOption::Named),
            TableOption::AtPosition(position) => Ok(TableOption::AtPosition(*position)),
            TableOption::WithHeir(heir) => Ok(TableOption::WithHeir(copied(heir)?)),
            TableOption::Tunes => Ok(TableOption::Tunes),
        }
    }
}

// The same heir.
fn copied(heir: &Option<Heir>) -> Result<Option<Heir>, AllocError>
    ensures { IfOk result (λ copied. heir_in copied ≡ heir_in heir.now) }
{
    heir.clone()
}

// The option that is the atom of this text.
fn named_option(text: &str) -> Option<TableOption>
    ensures { option_map option_in result ≡ found_beside text.now plain_options }
{
    match text {
        "set" => Some(TableOption::OfKind(Kind::Set)),
        "ordered_set" => Some(TableOption::OfKind(Kind::OrderedSet)),
        "bag" => Some(TableOption::OfKind(Kind::Bag)),
        "duplicate_bag" => Some(TableOption::OfKind(Kind::DuplicateBag)),
        "public" => Some(TableOption::Protects(Protection::Public)),
        "protected" => Some(TableOption::Protects(Protection::Protected)),
        "private" => Some(TableOption::Protects(Protection::Private)),
        "named_table" => Some(TableOption::Named),
        "compressed" => Some(TableOption::Tunes),
        _ => None,
    }
}

// Whether a term is a word that begins a pair which only tunes.
fn is_tuning(word: &Term) -> bool
    ensures { result ≡ list_any (λ text. is_atom text (meaning_of word.now)) tuning_words }
{
    word.is_the_atom("read_concurrency")
        || word.is_the_atom("write_concurrency")
        || word.is_the_atom("decentralized_counters")
}

// The option that a pair is.
fn pair_option(word: &Term, value: &Term) -> Option<TableOption>
    ensures { option_map option_in result ≡ pair_option (meaning_of word.now) (meaning_of value.now) }
{
    if word.is_the_atom("keypos") {
        return positive_in(value).map(TableOption::AtPosition);
    }
    if is_tuning(word) {
        return Some(TableOption::Tunes);
    }
    None
}

// The option that a tuple of these parts is, where it says no heir.
fn other_option(parts: &Terms) -> Option<TableOption>
    ensures { option_map option_in result ≡ other_option parts.now }
{
    match parts.as_slice() {
        [word, value] => pair_option(word, value),
        _ => None,
    }
}

// The option that a tuple of these parts is.
fn tuple_option(parts: &Terms) -> Result<Option<TableOption>, AllocError>
    ensures { IfOk result (λ option. option_map option_in option ≡ tuple_option parts.now) }
{
    match heir_of_parts(parts)? {
        Some(heir) => Ok(Some(TableOption::WithHeir(heir))),
        None => Ok(other_option(parts)),
    }
}

// The option that a term is, if it is one.
fn option_of(term: &Term) -> Result<Option<TableOption>, AllocError>
    ensures { IfOk result (λ option. option_map option_in option ≡ option_of (meaning_of term.now)) }
{
    match term {
        Term::Atom(name) => Ok(named_option(name.as_str())),
        Term::Tuple(parts) => tuple_option(parts),
        _ => Ok(None),
    }
}

/// The options that a proper list is, if each of its items is one, or `AllocError` if there is no memory for
/// them (ets manual, `new/2`).
pub fn options_of(alloc: Global, list: &Term) -> Result<Option<Vec<TableOption>>, AllocError>
    ensures { IfOk result (λ options. option_map (λ os. map option_in os.items) options ≡ options_of (meaning_of list.now)) }
{
    let mut options = Vec::new(alloc);
    let mut rest = list;
    while let Some(pair) = rest.as_cell() {
        let Some(option) = option_of(pair.head())? else {
            return Ok(None);
        };
        options.push(option)?;
        rest = pair.tail();
    }
    match rest {
        Term::Nil => Ok(Some(options)),
        _ => Ok(None),
    }
}
