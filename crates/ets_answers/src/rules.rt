// Who may call, and the rules of the arguments, each for the line of its call (ets manual). None takes memory.
ghost use Rattle.std.specs.BTreeSet.{contains};
ghost use Rattle.std.specs.List.{list_any};
ghost use Rattle.std.specs.Prelude.{◌≡◌, false, map, option_map};
ghost use Rattle.ets_answers.specs.inside.Held.{held_target, held_walk};
ghost use Rattle.ets_calls.specs.Arguments.{changes_in};
ghost use Rattle.ets_calls.specs.Calls.{call_in};
ghost use Rattle.ets_store.specs.Parts.{part_in};
ghost use Rattle.ets_store.specs.Tables.{settings_in, heir_in};
ghost use Rattle.term_core.specs.Meaning.{Meaning};
ghost use Rattle.term_core.specs.Order.{order_of_lists};
ghost use Rattle.term_core.specs.Term.{meaning_of};
ghost use Rattle.world_model.specs.TableAccess.{class_of, access_rule, rule_of_none};
ghost use Rattle.world_model.specs.Names.{same_pid};
ghost use Rattle.world_model.specs.Objects.{objects_rule, one_object, place_rule, element_rule, is_key_or_none, is_misplaced, changes_rule, unplaced_rule, update_rule};
ghost use Rattle.world_model.specs.Ownership.{gift_rule, heirs_rule};
ghost use Rattle.world_model.specs.Rows.{is_short, under};
ghost use Rattle.world_model.specs.Tables.{is_bag, is_ordered};
ghost use Rattle.world_model.specs.Walks.{item_rule};
ghost use Rattle.world_model.specs.declared.table.Class.TheVariants.{Read, Write};

use ets_calls::TableCall;
use ets_store::{Heir, Object, Table};
use std::collections::BTreeSet;
use term_core::{Pid, Term};
use world_model::rule::Rule;
use world_model::table::{Class, Item, Kind, Protection};

/// What a call does with its table, which determines who may call (ets manual, "Table Access Control"). It takes no
/// memory.
pub fn class_of(call: &TableCall) -> Class
    ensures { result ≡ class_of (call_in call.now) }
{
    match call {
        TableCall::Lookup(_)
        | TableCall::Member(_)
        | TableCall::LookupElement(_, _)
        | TableCall::First
        | TableCall::Last
        | TableCall::Next(_)
        | TableCall::Prev(_)
        | TableCall::ToList => Class::Read,
        TableCall::Insert(_)
        | TableCall::InsertNew(_)
        | TableCall::DeleteTable
        | TableCall::DeleteKey(_)
        | TableCall::DeleteObject(_)
        | TableCall::DeleteAll
        | TableCall::Take(_)
        | TableCall::UpdateCounter(_, _, _)
        | TableCall::UpdateElement(_, _) => Class::Write,
        TableCall::GiveAway(_, _) | TableCall::SetOptions(_) => Class::Owners,
        TableCall::Info(_) | TableCall::InfoAll => Class::Open,
    }
}

/// The rule that refuses a call of this class where no table is found: all but those that are for every
/// process. It takes no memory.
pub fn rule_of_none(class: Class) -> Option<Rule>
    ensures { result ≡ rule_of_none class }
{
    match class {
        Class::Read | Class::Write | Class::Owners => Some(Rule::NoTable),
        Class::Open => None,
    }
}

// The rule that refuses a reader that does not own the table.
fn reader_rule(protection: Protection) -> Option<Rule>
    ensures { result ≡ access_rule Read protection false }
{
    match protection {
        Protection::Private => Some(Rule::PrivateRead),
        Protection::Protected => None,
        Protection::Public => None,
    }
}

// The rule that refuses a writer that does not own the table.
fn writer_rule(protection: Protection) -> Option<Rule>
    ensures { result ≡ access_rule Write protection false }
{
    match protection {
        Protection::Private => Some(Rule::PrivateWrite),
        Protection::Protected => Some(Rule::ProtectedWrite),
        Protection::Public => None,
    }
}

/// The rule that refuses a call of this class by a process, by the protection of the table and its owner, if
/// one does (ets manual, "Table Access Control"). It takes no memory.
pub fn caller_rule(class: Class, table: &Table, caller: &Pid) -> Option<Rule>
    ensures { result ≡ access_rule class (settings_in table.now).protection (same_pid (settings_in table.now).owner caller.now) }
{
    if table.owner == *caller {
        return None;
    }
    match class {
        Class::Open => None,
        Class::Owners => Some(Rule::NotOwner),
        Class::Read => reader_rule(table.protection),
        Class::Write => writer_rule(table.protection),
    }
}

/// Whether an object has no part at a position.
pub(crate) fn is_short(position: usize, object: &Object) -> bool
    ensures { result ≡ is_short position object.now }
{
    match object.part(position) {
        Some(_) => false,
        None => true,
    }
}

// Whether one of these objects has no part at a position.
fn has_short(position: usize, objects: &[Object]) -> bool
    ensures { result ≡ list_any (is_short position) objects.now }
{
    objects.iter().any(|object| is_short(position, object))
}

/// The rule that refuses objects to be put in where keys have this position: they are no objects, or one is too short
/// to have a key (ets manual, `insert/2`).
pub(crate) fn objects_rule(position: usize, objects: &Option<Vec<Object>>) -> Option<Rule>
    ensures { result ≡ objects_rule position (option_map (λ os. os.items) objects.now) }
{
    let Some(objects) = objects else {
        return Some(Rule::NotObject);
    };
    if has_short(position, objects.as_slice()) {
        return Some(Rule::ShortObject);
    }
    None
}

/// The rule that refuses an object to be taken out: it is no object, or is too short to have a key (ets manual,
/// `delete_object/2`).
pub(crate) fn object_rule(position: usize, object: &Option<Object>) -> Option<Rule>
    ensures { result ≡ objects_rule position (one_object object.now) }
{
    let Some(object) = object else {
        return Some(Rule::NotObject);
    };
    if is_short(position, object) {
        return Some(Rule::ShortObject);
    }
    None
}

// The rule that refuses a position where one of the objects has no part.
fn place_rule(position: usize, there: &[Object]) -> Option<Rule>
    ensures { result ≡ place_rule position there.now }
{
    if has_short(position, there) {
        return Some(Rule::BadPosition);
    }
    None
}

/// The rule that refuses `lookup_element/3`: the position is not a valid one, no object is there, or one is too short.
pub(crate) fn element_rule(position: Option<usize>, there: &[Object]) -> Option<Rule>
    ensures { result ≡ element_rule position there.now }
{
    let Some(position) = position else {
        return Some(Rule::BadPosition);
    };
    if there.is_empty() {
        return Some(Rule::NoKey);
    }
    place_rule(position, there)
}

/// Whether a table of this kind may have several objects under a key.
pub(crate) fn is_bag(kind: Kind) -> bool
    ensures { result ≡ is_bag kind }
{
    match kind {
        Kind::Set => false,
        Kind::OrderedSet => false,
        Kind::Bag => true,
        Kind::DuplicateBag => true,
    }
}

// Whether walks over a table of this kind go by the order of keys.
fn is_ordered(kind: Kind) -> bool
    ensures { result ≡ is_ordered kind }
{
    match kind {
        Kind::Set => false,
        Kind::OrderedSet => true,
        Kind::Bag => false,
        Kind::DuplicateBag => false,
    }
}

/// The rule that refuses `next/2` and `prev/2`: the key that they go on from is not there, except in an ordered_set.
pub(crate) fn walk_rule(table: &Table, key: &Term) -> Option<Rule>
    ensures { result ≡ held_walk (settings_in table.now).kind (meaning_of key.now) table.now.rows.rows }
{
    if is_ordered(table.kind()) {
        return None;
    }
    if table.rows.has_key(key) {
        return None;
    }
    Some(Rule::NoKey)
}

/// Whether a position may not be written: 0, or that of the key.
pub(crate) fn is_key_or_none(key: usize, position: usize) -> bool
    ensures { result ≡ is_key_or_none key position }
{
    position == 0 || position == key
}

// Whether an object has no part that may be written at this position, where keys have another one.
fn is_misplaced(key: usize, object: &Object, position: usize) -> bool
    ensures { (value : Meaning) → result ≡ is_misplaced key object.now (position, value) }
{
    is_key_or_none(key, position) || is_short(position, object)
}

// Whether one of these changes is where an object has no part that may be written.
fn one_is_misplaced(key: usize, object: &Object, changes: &[(usize, Term)]) -> bool
    ensures { result ≡ list_any (is_misplaced key object.now) (map part_in changes.now) }
{
    for change in changes {
        if is_misplaced(key, object, change.0) {
            return true;
        }
    }
    false
}

// The rule that refuses changes of an object where keys have a position: they are no changes, or one is where no part
// is that may be written.
fn changes_rule(key: usize, changes: &Option<Vec<(usize, Term)>>, object: &Object) -> Option<Rule>
    ensures { result ≡ changes_rule key (changes_in changes.now) object.now }
{
    let Some(changes) = changes else {
        return Some(Rule::BadPosition);
    };
    if one_is_misplaced(key, object, changes.as_slice()) {
        return Some(Rule::BadPosition);
    }
    None
}

// Whether one of these changes is where no part may be written.
fn one_is_unplaced(key: usize, changes: &[(usize, Term)]) -> bool
    ensures { result ≡ list_any (λ change. is_key_or_none key change.0) (map part_in changes.now) }
{
    for change in changes {
        if is_key_or_none(key, change.0) {
            return true;
        }
    }
    false
}

// The rule that refuses changes where the key is missing: they are no changes, or one is where no part may be written.
fn unplaced_rule(key: usize, changes: &Option<Vec<(usize, Term)>>) -> Option<Rule>
    ensures { result ≡ unplaced_rule key (changes_in changes.now) }
{
    let Some(changes) = changes else {
        return Some(Rule::BadPosition);
    };
    if one_is_unplaced(key, changes.as_slice()) {
        return Some(Rule::BadPosition);
    }
    None
}

/// The rule that refuses `update_element/3`: the table is a bag, or the changes are refused.
pub(crate) fn update_rule(
    table: &Table,
    key: &Term,
    changes: &Option<Vec<(usize, Term)>>,
) -> Option<Rule>
    ensures { result ≡ update_rule (settings_in table.now) (changes_in changes.now) (under table.now.rows.rows (meaning_of key.now)) }
{
    if is_bag(table.kind()) {
        return Some(Rule::BagRefused);
    }
    match table.rows.objects(key).first() {
        Some(object) => changes_rule(table.position(), changes, object),
        None => unplaced_rule(table.position(), changes),
    }
}

// The rule that refuses a process that is given a table: it is not alive, or the owner.
fn gift_rule(table: &Table, to: &Pid, living: &BTreeSet<Pid>) -> Option<Rule>
    ensures { result ≡ gift_rule (settings_in table.now) to.now (contains order_of_lists living.now to.now) }
{
    if !living.contains(to) {
        return Some(Rule::DeadTarget);
    }
    if *to == table.owner {
        return Some(Rule::OwnTarget);
    }
    None
}

/// The rule that refuses `give_away/3`: the new owner is no process, is not alive, or is the owner.
pub(crate) fn target_rule(table: &Table, to: &Option<Pid>, living: &BTreeSet<Pid>) -> Option<Rule>
    ensures { result ≡ held_target (settings_in table.now) (contains order_of_lists living.now) to.now }
{
    match to {
        Some(to) => gift_rule(table, to, living),
        None => Some(Rule::DeadTarget),
    }
}

/// The rule that refuses `setopts/2`: the options are no heirs.
pub(crate) fn heirs_rule(heirs: &Option<Vec<Option<Heir>>>) -> Option<Rule>
    ensures { result ≡ heirs_rule (option_map (λ hs. map heir_in hs.items) heirs.now) }
{
    match heirs {
        Some(_) => None,
        None => Some(Rule::BadOption),
    }
}

/// The rule that refuses `info/2`: there is no such item.
pub(crate) fn item_rule(item: Option<Item>) -> Option<Rule>
    ensures { result ≡ item_rule item }
{
    match item {
        Some(_) => None,
        None => Some(Rule::BadItem),
    }
}
