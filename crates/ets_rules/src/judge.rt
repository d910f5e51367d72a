// Which rule refuses a call: the first that fails of the table argument, what it finds, who may call, and then the
// other arguments from left to right (ets manual, "Table Access Control" and each call). None of this takes memory.
ghost use Rattle.std.specs.Prelude.{◌≡◌, Some, map, option_map, option_copied};
ghost use Rattle.ets_answers.specs.At.{HoldsRows, found_at};
ghost use Rattle.ets_calls.specs.Arguments.{argument_in};
ghost use Rattle.ets_calls.specs.Calls.{call_in};
ghost use Rattle.ets_calls.specs.Options.{option_in};
ghost use Rattle.ets_rules.specs.Tables.{Hold, IsFoundBy, found_of};
ghost use Rattle.world_model.specs.Calls as calls;
ghost use Rattle.world_model.specs.Cells.{AreAlive, Contents};
ghost use Rattle.world_model.specs.Events.{ByRule};
ghost use Rattle.world_model.specs.TableAccess.{find};
ghost use Rattle.world_model.specs.TableRules.{found_line, table_rule, told_owner, tells_owner};
ghost use Rattle.world_model.specs.Lines.{line};
ghost use Rattle.world_model.specs.Names.{Ref};
ghost use Rattle.world_model.specs.NewTables.{by_rule};
ghost use Rattle.std.specs.BTreeSet.{contains};
ghost use Rattle.term_core.specs.Order.{order_of_lists};

use crate::found::FoundTable;
use crate::tables::Tables;
use ets_answers::{argument_rule, caller_rule, class_of, rule_of_none};
use ets_calls::settings::is_named;
use ets_calls::{TableArgument, TableCall, TableOption};
use ets_store::Table;
use std::collections::BTreeSet;
use term_core::{Atom, Pid};
use world_model::rule::Rule;

// The rule that refuses a call at a table that is found.
fn rule_at(table: &Table, caller: &Pid, call: &TableCall, living: &BTreeSet<Pid>) -> Option<Rule>
    ensures { (v : Contents) (ref : Ref) → HoldsRows table.now ref v → AreAlive (contains order_of_lists living.now) v → result ≡ (found_line v caller.now (call_in call.now) (Some (found_at ref table.now))).rule }
{
    match caller_rule(class_of(call), table, caller) {
        Some(rule) => Some(rule),
        None => argument_rule(table, call, living),
    }
}

// Whether a refusal by this rule reports the owner: not where the table, its name or the options are at fault.
fn tells_owner(rule: Rule) -> bool
    ensures { result ≡ tells_owner rule }
{
    match rule {
        Rule::BadTable => false,
        Rule::NoTable => false,
        Rule::BadName => false,
        Rule::BadOption => false,
        Rule::NameTaken => false,
        _ => true,
    }
}

/// The one rule by which a call of this process is refused at what its argument finds, where those in the set live;
/// `None` where it is served.
pub fn judge_found(
    caller: &Pid,
    argument: &TableArgument,
    found: Option<FoundTable<'_>>,
    call: &TableCall,
    living: &BTreeSet<Pid>,
) -> Option<Rule>
    ensures { (v : Contents) → IsFoundBy v (argument_in argument.now) found.entry → AreAlive (contains order_of_lists living.now) v → result ≡ table_rule v caller.now (argument_in argument.now) (call_in call.now) }
{
    if let TableArgument::ByNothing = argument {
        return Some(Rule::BadTable);
    }
    match found {
        Some(found) => rule_at(found.table, caller, call, living),
        None => rule_of_none(class_of(call)),
    }
}

/// The owner that a refusal by this rule reports, of the table that is found; `None` where it reports none.
pub fn owner_of_found<'t>(found: Option<FoundTable<'t>>, rule: Rule) -> Option<&'t Pid>
    ensures { option_copied result ≡ told_owner rule (option_map found_of found.entry) }
{
    if !tells_owner(rule) {
        return None;
    }
    match found {
        Some(found) => Some(&found.table.owner),
        None => None,
    }
}

impl Tables {
    /// The one rule by which a call of this process is refused, where those in the set live; `None` where it is
    /// served.
    pub fn judge(
        &self,
        caller: &Pid,
        argument: &TableArgument,
        call: &TableCall,
        living: &BTreeSet<Pid>,
    ) -> Option<Rule>
        ensures { (v : Contents) → Hold self.now v → AreAlive (contains order_of_lists living.now) v → result ≡ table_rule v caller.now (argument_in argument.now) (call_in call.now) }
    {
        judge_found(caller, argument, self.find(argument), call, living)
    }

    /// The one rule by which a new table is refused: its name is no atom, its options are no such, or it is to be
    /// found by a name that is in use; `None` where it is made (ets manual, `new/2`).
    pub fn judge_new(&self, name: &Option<Atom>, options: &Option<Vec<TableOption>>) -> Option<Rule>
        ensures { (v : Contents) (p : Pid) → Hold self.now v → option_map (by_rule None) result ≡ (line v p (calls.New name.now (option_map (λ os. map option_in os.items) options.now))).refusal }
    {
        let Some(name) = name else {
            return Some(Rule::BadName);
        };
        let Some(options) = options else {
            return Some(Rule::BadOption);
        };
        if is_named(options) && self.registry.named(name).is_some() {
            return Some(Rule::NameTaken);
        }
        None
    }

    /// The owner that a refusal by this rule reports, of the table that the argument finds; `None` where it reports
    /// none.
    pub fn told_owner<'t>(&'t self, argument: &'t TableArgument, rule: Rule) -> Option<&'t Pid>
        ensures { (v : Contents) → Hold self.now v → option_copied result ≡ told_owner rule (find v (argument_in argument.now)) }
    {
        owner_of_found(self.find(argument), rule)
    }
}
