// What is reported about a table (ets manual, `info/1`, `info/2`), and the terms that answers are made of.
ghost use Rattle.std.specs.Prelude.{◌≡◌, ◌∷◌, ◌++◌, [], IfOk, OnOk, codes, length, map};
ghost use Rattle.ets_answers.specs.inside.Held.{held_item, held_items, held_pair};
ghost use Rattle.ets_store.specs.Tables.{settings_in, heir_in};
ghost use Rattle.term_core.specs.Term.{meaning_of};
ghost use Rattle.world_model.specs.Ends.{heir_pid};
ghost use Rattle.world_model.specs.Rows.{all_objects};
ghost use Rattle.world_model.specs.Terms.{process_or, truth, number};
ghost use Rattle.world_model.specs.Walks.{kind_name, protection_name};

use ets_store::{Heir, Table};
use std::alloc::{AllocError, Global};
use term_core::{Term, Terms, Word, list_onto};
use world_model::table::{Item, Kind, Protection};

/// The boolean as a term. It takes no memory.
pub(crate) fn truth(holds: bool) -> Term
    ensures { meaning_of result ≡ truth holds }
{
    if holds {
        return Term::word(Word::True);
    }
    Term::word(Word::False)
}

// The name of a kind.
fn kind_name(kind: Kind) -> &'static str
    ensures { result.now ≡ kind_name kind }
{
    match kind {
        Kind::Set => "set",
        Kind::OrderedSet => "ordered_set",
        Kind::Bag => "bag",
        Kind::DuplicateBag => "duplicate_bag",
    }
}

// The name of a protection.
fn protection_name(protection: Protection) -> &'static str
    ensures { result.now ≡ protection_name protection }
{
    match protection {
        Protection::Public => "public",
        Protection::Protected => "protected",
        Protection::Private => "private",
    }
}

// A number as a term, or `AllocError` where it has more than the 63 bits of an integer: no memory has that many
// objects.
fn number(count: u64) -> Result<Term, AllocError>
    ensures { IfOk result (λ term. meaning_of term ≡ number count) }
{
    match i64::try_from(count) {
        Ok(count) => Ok(Term::Int(count)),
        Err(_) => Err(AllocError),
    }
}

// The pid of an heir, or the atom `none`.
fn heir_or_none(alloc: Global, heir: &Option<Heir>) -> Result<Term, AllocError>
    ensures { IfOk result (λ term. meaning_of term ≡ process_or (codes "none") (heir_pid (heir_in heir.now))) }
{
    match heir {
        Some(heir) => Ok(Term::Pid(heir.pid.copy()?)),
        None => Term::atom(alloc, "none"),
    }
}

// How many objects a table has.
fn size(table: &Table) -> Result<Term, AllocError>
    ensures { IfOk result (λ term. meaning_of term ≡ number (length (all_objects table.now.rows.rows))) }
{
    number(table.rows.size())
}

/// What is reported about a table under an item, or `AllocError` if there is no memory for it, or it is a number of
/// more than 63 bits. Without an item it is `'true'`.
pub(crate) fn item_answer(
    table: &Table,
    alloc: Global,
    item: Option<Item>,
) -> Result<Term, AllocError>
    ensures { IfOk result (λ answer. meaning_of answer ≡ held_item (settings_in table.now) table.now.rows.rows item) }
{
    let Some(item) = item else {
        return Ok(truth(true));
    };
    match item {
        Item::Name => Ok(Term::Atom(table.name.copy()?)),
        Item::Type => Term::atom(alloc, kind_name(table.kind())),
        Item::Protection => Term::atom(alloc, protection_name(table.protection)),
        Item::Owner => Ok(Term::Pid(table.owner.copy()?)),
        Item::Size => size(table),
        Item::Position => number(table.position() as u64),
        Item::Heir => heir_or_none(alloc, &table.heir),
        Item::NamedTable => Ok(truth(table.is_named)),
    }
}

// Adds what is reported under an item, with its name, after other pairs.
fn add_pair(
    table: &Table,
    alloc: Global,
    name: &str,
    item: Item,
    pairs: &mut Vec<Term>,
) -> Result<(), AllocError>
    ensures { OnOk result (map meaning_of pairs.new.items ≡ map meaning_of pairs.old.items ++ held_pair (settings_in table.now) table.now.rows.rows (name.now, item) ∷ []) }
{
    let mut parts = Vec::with_capacity(alloc, 2)?;
    parts.push(Term::atom(alloc, name)?)?;
    parts.push(item_answer(table, alloc, Some(item))?)?;
    pairs.push(Term::tuple(alloc, Terms::from_vec(parts))?)?;
    Ok(())
}

/// What is reported about a table under all items, each with its name, or `AllocError` if there is no memory for it, or
/// it has a number of more than 63 bits.
pub(crate) fn items_answer(table: &Table, alloc: Global) -> Result<Term, AllocError>
    ensures { IfOk result (λ answer. meaning_of answer ≡ held_items (settings_in table.now) table.now.rows.rows) }
{
    let mut pairs = Vec::with_capacity(alloc, 8)?;
    add_pair(table, alloc, "owner", Item::Owner, &mut pairs)?;
    add_pair(table, alloc, "heir", Item::Heir, &mut pairs)?;
    add_pair(table, alloc, "name", Item::Name, &mut pairs)?;
    add_pair(table, alloc, "size", Item::Size, &mut pairs)?;
    add_pair(table, alloc, "named_table", Item::NamedTable, &mut pairs)?;
    add_pair(table, alloc, "type", Item::Type, &mut pairs)?;
    add_pair(table, alloc, "keypos", Item::Position, &mut pairs)?;
    add_pair(table, alloc, "protection", Item::Protection, &mut pairs)?;
    list_onto(alloc, pairs, Term::Nil)
}
