// Counters (ets manual, `update_counter/3`, `update_counter/4`): what a sum is, and which rule refuses what is added. None
// takes memory.
ghost use Rattle.std.specs.List.{list_any};
ghost use Rattle.std.specs.Prelude.{◌≡◌, ◌+◌, ◌∷◌, [], None, Some, IfOk, IfErr, MatchOption, map, option_map, option_copied, option_and_then};
ghost use Rattle.ets_answers.specs.inside.Counting.{integer_at, RefusesPart};
ghost use Rattle.ets_answers.specs.inside.Refused.{refused_by};
ghost use Rattle.ets_calls.specs.Arguments.{addition_in, increment_in};
ghost use Rattle.ets_store.specs.Tables.{settings_in};
ghost use Rattle.term_core.specs.Term.{meaning_of};
ghost use Rattle.world_model.specs.Calls.{AfterKey};
ghost use Rattle.world_model.specs.Objects as objects;
ghost use Rattle.world_model.specs.Objects.{additions_of, additions_rule, all_added, counter_rule, counted_from, is_key_or_none, is_past, limited, range_rule, start_of, start_rule, sum_rule, sums_rule};
ghost use Rattle.world_model.specs.Rows.{part_at, under};
ghost use Rattle.world_model.specs.Terms.{integer_in};

use crate::rules::{is_bag, is_key_or_none, is_short};
use ets_calls::{Addition, Increment};
use ets_store::{Object, Table};
use term_core::Term;
use world_model::rule::Rule;

// ---- sums

// Whether a sum is past a limit: above it, or below it where something is taken away.
fn is_past(amount: i64, limit: i64, sum: i64) -> bool
    ensures { result ≡ is_past amount limit sum }
{
    if amount < 0 {
        return sum < limit;
    }
    limit < sum
}

// A sum, or what takes its place past the limit.
fn limited(addition: Addition, sum: i64) -> i64
    ensures { result ≡ limited (addition_in addition).amount (addition_in addition).limit sum }
{
    match addition.limit {
        Some((limit, value)) if is_past(addition.amount, limit, sum) => value,
        _ => sum,
    }
}

// What an integer becomes by an addition. A sum of more than 64 bits is past every limit.
fn counted(addition: Addition, number: i64) -> Result<i64, Rule>
    ensures rule { refused_by result ≡ range_rule (objects.counted (addition_in addition) number) }
    ensures sum { IfOk result (λ sum. sum ≡ objects.counted (addition_in addition) number) }
{
    match number.checked_add(addition.amount) {
        Some(sum) => Ok(limited(addition, sum)),
        None => match addition.limit {
            Some((_, value)) => Ok(value),
            None => Err(Rule::CounterRange),
        },
    }
}

/// What an element becomes by an addition, or the rule that refuses it: there is none, it is no integer, or the sum has
/// more than 64 bits.
pub(crate) fn counted_from(addition: Addition, element: Option<&Term>) -> Result<i64, Rule>
    ensures rule { refused_by result ≡ sum_rule (addition_in addition) (option_map meaning_of (option_copied element.entry)) }
    ensures sum { IfOk result (λ sum. sum ≡ counted_from (addition_in addition) (option_and_then integer_in (option_map meaning_of (option_copied element.entry)))) }
{
    match element {
        Some(Term::Int(number)) => counted(addition, *number),
        Some(_) => Err(Rule::NotInteger),
        None => Err(Rule::BadPosition),
    }
}

// ---- the rules of several additions to an object, one after the other

// The integer that an object has at a position, or the rule that refuses what has none.
fn integer_at(object: &Object, position: usize) -> Result<i64, Rule>
    ensures rule { IfErr result (λ rule. RefusesPart rule (part_at position object.now)) }
    ensures number { IfOk result (λ number. Some number ≡ integer_at position object.now) }
{
    match object.part(position) {
        Some(Term::Int(number)) => Ok(*number),
        Some(_) => Err(Rule::NotInteger),
        None => Err(Rule::BadPosition),
    }
}

// The integer that an object has at a position after additions that are not refused, or the rule that refuses what has
// none.
fn integer_after(object: &Object, done: &[Addition], position: usize) -> Result<i64, Rule>
    requires { sums_rule (map addition_in done.now) object.now ≡ None }
    ensures rule { IfErr result (λ rule. RefusesPart rule (part_at position (all_added (map addition_in done.now) object.now))) }
    ensures number { IfOk result (λ number. Some number ≡ integer_at position (all_added (map addition_in done.now) object.now)) }
{
    let mut number = integer_at(object, position)?;
    for earlier in done {
        if earlier.position == position {
            number = counted(*earlier, number)?;
        }
    }
    Ok(number)
}

// The rule that refuses an addition after others, which are not refused.
fn rule_after(object: &Object, done: &[Addition], addition: Addition) -> Option<Rule>
    requires { sums_rule (map addition_in done.now) object.now ≡ None }
    ensures { result ≡ sum_rule (addition_in addition) (part_at (addition_in addition).position (all_added (map addition_in done.now) object.now)) }
{
    match integer_after(object, done, addition.position) {
        Ok(number) => counted(addition, number).err(),
        Err(rule) => Some(rule),
    }
}

// The rule that refuses additions to an object, one after the other.
fn sums_rule(object: &Object, additions: &[Addition]) -> Option<Rule>
    ensures { result ≡ sums_rule (map addition_in additions.now) object.now }
{
    let mut index = 0;
    while index < additions.len() {
        let rule = rule_after(object, &additions[..index], additions[index]);
        if rule.is_some() {
            return rule;
        }
        index += 1;
    }
    None
}

// ---- the object that is added to

/// The object that is added to, the one that is there or else the default, or the rule that refuses it: there is none,
/// or the default is no object, or too short to have a key where keys have this position.
pub(crate) fn start_of<'t>(
    key: usize,
    default: &'t Option<Option<Object>>,
    there: &'t [Object],
) -> Result<&'t Object, Rule>
    ensures rule { refused_by result ≡ start_rule key default.now there.now }
    ensures object { IfOk result (λ object. object.now ≡ start_of default.now there.now) }
{
    if let Some(None) = default {
        return Err(Rule::NotObject);
    }
    if let Some(object) = there.first() {
        return Ok(object);
    }
    match default {
        Some(Some(object)) if !is_short(key, object) => Ok(object),
        Some(_) => Err(Rule::ShortObject),
        None => Err(Rule::NoKey),
    }
}

// ---- what is added

// The rule that refuses one addition.
fn one_rule(
    key: usize,
    addition: Addition,
    default: &Option<Option<Object>>,
    there: &[Object],
) -> Option<Rule>
    ensures { result ≡ additions_rule key (addition_in addition ∷ []) default.now there.now }
{
    if is_key_or_none(key, addition.position) {
        return Some(Rule::BadPosition);
    }
    match start_of(key, default, there) {
        Ok(object) => counted_from(addition, object.part(addition.position)).err(),
        Err(rule) => Some(rule),
    }
}

/// The addition of an integer after the key, where keys have this position, if an object is that long.
#[tactic(auto, using(crate::proofs::AfterKey::no_part_after))]
pub(crate) fn after_key(key: usize, amount: i64, object: &Object) -> Option<Addition>
    ensures { MatchOption result (part_at (key + 1) object.now ≡ None) (λ addition. addition_in addition ∷ [] ≡ additions_of key (AfterKey amount)) }
{
    if object.len() <= key {
        return None;
    }
    Some(Addition {
        position: key + 1,
        amount,
        limit: None,
    })
}

// The rule that refuses an integer that is added to an object after the key.
fn amount_rule(key: usize, amount: i64, object: &Object) -> Option<Rule>
    ensures { result ≡ sums_rule (additions_of key (AfterKey amount)) object.now }
{
    match after_key(key, amount, object) {
        Some(addition) => counted_from(addition, object.part(addition.position)).err(),
        None => Some(Rule::BadPosition),
    }
}

// The rule that refuses an integer that is added after the key.
#[tactic(auto, using(crate::proofs::AfterKey::after_is_free))]
fn rule_after_key(
    key: usize,
    amount: i64,
    default: &Option<Option<Object>>,
    there: &[Object],
) -> Option<Rule>
    ensures { result ≡ additions_rule key (additions_of key (AfterKey amount)) default.now there.now }
{
    match start_of(key, default, there) {
        Ok(object) => amount_rule(key, amount, object),
        Err(rule) => Some(rule),
    }
}

// Whether one of these additions is where no part may be written.
fn one_is_misplaced(key: usize, additions: &[Addition]) -> bool
    ensures { result ≡ list_any (λ addition. is_key_or_none key addition.position) (map addition_in additions.now) }
{
    for addition in additions {
        if is_key_or_none(key, addition.position) {
            return true;
        }
    }
    false
}

// The rule that refuses several additions.
fn several_rule(
    key: usize,
    additions: &[Addition],
    default: &Option<Option<Object>>,
    there: &[Object],
) -> Option<Rule>
    ensures { result ≡ additions_rule key (map addition_in additions.now) default.now there.now }
{
    if one_is_misplaced(key, additions) {
        return Some(Rule::BadPosition);
    }
    match start_of(key, default, there) {
        Ok(object) => sums_rule(object, additions),
        Err(rule) => Some(rule),
    }
}

/// The rule that refuses `update_counter/3` and `update_counter/4`: the table is a bag, what is added is no such thing, a
/// position may not be written, there is no object and no default, the default is no object or too short, or an object
/// has no element at a position, or no integer, or a sum has more than 64 bits.
pub(crate) fn counter_rule(
    table: &Table,
    key: &Term,
    increment: &Increment,
    default: &Option<Option<Object>>,
) -> Option<Rule>
    ensures { result ≡ counter_rule (settings_in table.now) (increment_in increment.now) default.now (under table.now.rows.rows (meaning_of key.now)) }
{
    if is_bag(table.kind()) {
        return Some(Rule::BagRefused);
    }
    let there = table.rows.objects(key);
    match increment {
        Increment::AfterKey(amount) => rule_after_key(table.position(), *amount, default, there),
        Increment::AtPlace(addition) => one_rule(table.position(), *addition, default, there),
        Increment::InTurn(additions) => {
            several_rule(table.position(), additions.as_slice(), default, there)
        }
        Increment::NotGiven => Some(Rule::NotInteger),
    }
}
