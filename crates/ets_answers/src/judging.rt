// The rule that refuses the arguments of a call (ets manual).
ghost use Rattle.std.specs.BTreeSet.{contains};
ghost use Rattle.std.specs.Prelude.{◌≡◌};
ghost use Rattle.ets_answers.specs.At.{found_at, HoldsRows};
ghost use Rattle.ets_answers.specs.inside.Held.{held_rule};
ghost use Rattle.ets_calls.specs.Calls.{call_in};
ghost use Rattle.ets_store.specs.Tables.{settings_in};
ghost use Rattle.term_core.specs.Order.{order_of_lists};
ghost use Rattle.world_model.specs.Cells.{AreAlive, Contents};
ghost use Rattle.world_model.specs.Names.{Pid, Ref};
ghost use Rattle.world_model.specs.TableLines.{table_line};

use crate::counters::counter_rule;
use crate::rules::{
    element_rule, heirs_rule, item_rule, object_rule, objects_rule, target_rule, update_rule,
    walk_rule,
};
use ets_calls::TableCall;
use ets_store::Table;
use std::collections::BTreeSet;
use term_core::Pid;
use world_model::rule::Rule;

/// The rule that refuses the arguments of a call, of all that fail the first, if one does: where the caller may call,
/// it is by this that the call is refused (ets manual). `living` has the processes that live. It takes no memory.
pub fn argument_rule(table: &Table, call: &TableCall, living: &BTreeSet<Pid>) -> Option<Rule>
    ensures { (v : Contents) (p : Pid) (ref : Ref) → HoldsRows table.now ref v → AreAlive (contains order_of_lists living.now) v → result ≡ (table_line v p (found_at ref table.now) (call_in call.now)).rule }
{
    rule_of(table, call, living)
}

// The same, by what the table holds.
fn rule_of(table: &Table, call: &TableCall, living: &BTreeSet<Pid>) -> Option<Rule>
    ensures { result ≡ held_rule (settings_in table.now) table.now.rows.rows (contains order_of_lists living.now) (call_in call.now) }
{
    match call {
        TableCall::Lookup(_) => None,
        TableCall::Member(_) => None,
        TableCall::LookupElement(key, position) => {
            element_rule(*position, table.rows.objects(key))
        }
        TableCall::First => None,
        TableCall::Last => None,
        TableCall::Next(key) => walk_rule(table, key),
        TableCall::Prev(key) => walk_rule(table, key),
        TableCall::ToList => None,
        TableCall::Insert(objects) => objects_rule(table.position(), objects),
        TableCall::InsertNew(objects) => objects_rule(table.position(), objects),
        TableCall::DeleteTable => None,
        TableCall::DeleteKey(_) => None,
        TableCall::DeleteObject(object) => object_rule(table.position(), object),
        TableCall::DeleteAll => None,
        TableCall::Take(_) => None,
        TableCall::UpdateCounter(key, increment, default) => {
            counter_rule(table, key, increment, default)
        }
        TableCall::UpdateElement(key, changes) => update_rule(table, key, changes),
        TableCall::GiveAway(to, _) => target_rule(table, to, living),
        TableCall::SetOptions(heirs) => heirs_rule(heirs),
        TableCall::Info(item) => item_rule(*item),
        TableCall::InfoAll => None,
    }
}
