// Calls of tables: what each results in, what it reads, and what it changes (the Erlang manual, module `ets`).
ghost use Rattle.std.specs.Prelude.{◌≡◌, ◌∷◌, [], true, IfOk, OnOk, Some, map, option_map};
ghost use Rattle.ets_answers.specs.Touches.{touch_in};
ghost use Rattle.ets_calls.specs.Arguments.{argument_in};
ghost use Rattle.ets_calls.specs.Calls.{call_in};
ghost use Rattle.ets_calls.specs.Options.{option_in};
ghost use Rattle.ets_rules.specs.Plans.{OfServedLine};
ghost use Rattle.ets_rules.specs.Tables.{IsFoundBy, found_of};
ghost use Rattle.world_model.specs.Names.{ref_of};
ghost use Rattle.world_planned.specs.inside.Planned.{Adds};
ghost use Rattle.world_planned.specs.Replies.{NamesMeanTables};
ghost use Rattle.world_planned.specs.inside.PlannedCalls.{IsReply, Plans, changes_of_reply};
ghost use Rattle.term_core.specs.Term.{meaning_of};
ghost use Rattle.world_model.specs.Calls as calls;
ghost use Rattle.world_model.specs.Calls.{call_of, is_of_tables};
ghost use Rattle.world_model.specs.Cells as cells;
ghost use Rattle.world_model.specs.Cells.{Contents};
ghost use Rattle.world_model.specs.Ends.{alive_if};
ghost use Rattle.world_model.specs.TableAccess.{reads_of_find};
ghost use Rattle.world_model.specs.TableRules.{rows_of_found, target_read, told_owner};
ghost use Rattle.world_model.specs.NewTables.{new_reads};
ghost use Rattle.world_model.specs.RowFootprints.{cells_of};
ghost use Rattle.world_records.specs.Records.{OfWorld};
ghost use Rattle.world_table_calls.specs.inside.TableCalls.{OfFoundLine, PlansOnTable, RepliesUnlessRefused, WhereFound};

use core_tree::CallKind;
use ets_answers::{Touched, rows_read};
use ets_calls::settings::is_named;
use ets_calls::{TableArgument, TableCall, TableOption, TableRequest};
use ets_rules::{Created, FoundTable, Served, create, judge_found, owner_of_found, serve};
use std::alloc::{AllocError, Global};
use term_core::{Atom, Pid, RefId, Term, Terms};
use world_model::rule::Rule;
use world_planned::planned::Planned;
use world_planned::reply::{Refusal, Reply};
use world_planned::spawning::next_reference;
use world_records::{NamePart, ProcessPart, Records, ReferencePart};

// The rows of these keys are read.
fn read_keys(id: &RefId, keys: &[Term], planned: &mut Planned) -> Result<(), AllocError>
    ensures { OnOk result (Adds (map (cells.Row (ref_of id.now)) (map meaning_of keys.now)) [] planned.old planned.new) }
{
    for key in keys {
        planned.read_row(id, key)?;
    }
    Ok(())
}

// The rows that are touched are read.
fn read_touched(id: &RefId, touched: &Touched, planned: &mut Planned) -> Result<(), AllocError>
    ensures { OnOk result (Adds (cells_of (ref_of id.now) (touch_in touched.now)) [] planned.old planned.new) }
{
    match touched {
        Touched::NoRow => Ok(()),
        Touched::RowsOfKeys(keys) => read_keys(id, keys.as_slice(), planned),
        Touched::EachRow => planned.read_rows(id),
    }
}

// Whether a process lives is read, if there is one.
fn read_whom(whom: &Option<Pid>, planned: &mut Planned) -> Result<(), AllocError>
    ensures { OnOk result (Adds (alive_if whom.now) [] planned.old planned.new) }
{
    match whom {
        Some(whom) => planned.read_process(ProcessPart::Alive, whom),
        None => Ok(()),
    }
}

// The target of a `give_away/3` is looked at whatever is found.
fn read_target(call: &TableCall, planned: &mut Planned) -> Result<(), AllocError>
    ensures { OnOk result (Adds (target_read (call_in call.now)) [] planned.old planned.new) }
{
    match call {
        TableCall::GiveAway(to, _) => read_whom(to, planned),
        _ => Ok(()),
    }
}

// The name that is to find a table, and the table that it finds, if it does.
fn read_named(
    name: &Atom,
    found: Option<FoundTable<'_>>,
    planned: &mut Planned,
) -> Result<(), AllocError>
    ensures { OnOk result ((v : Contents) → NamesMeanTables v → IsFoundBy v (calls.ByName name.now) found.entry → Adds (reads_of_find v (calls.ByName name.now)) [] planned.old planned.new) }
{
    planned.read_name(NamePart::TableName, name)?;
    if let Some(found) = found {
        planned.read_reference(ReferencePart::Table, found.id)?;
    }
    Ok(())
}

// What finding this by an argument reads.
fn read_find(
    argument: &TableArgument,
    found: Option<FoundTable<'_>>,
    planned: &mut Planned,
) -> Result<(), AllocError>
    ensures { OnOk result ((v : Contents) → NamesMeanTables v → IsFoundBy v (argument_in argument.now) found.entry → Adds (reads_of_find v (argument_in argument.now)) [] planned.old planned.new) }
{
    match argument {
        TableArgument::ByName(name) => read_named(name, found, planned),
        TableArgument::ByReference(id) => planned.read_reference(ReferencePart::Table, id),
        TableArgument::ByNothing => Ok(()),
    }
}

// The rows that a call reads of the table that is found, if one is.
fn read_found(
    alloc: Global,
    caller: &Pid,
    found: Option<FoundTable<'_>>,
    call: &TableCall,
    planned: &mut Planned,
) -> Result<(), AllocError>
    ensures { OnOk result (Adds (rows_of_found caller.now (call_in call.now) (option_map found_of found.entry)) [] planned.old planned.new) }
{
    let Some(found) = found else {
        return Ok(());
    };
    let touched = rows_read(alloc, found.table, call, caller)?;
    read_touched(found.id, &touched, planned)?;
    Ok(())
}

// What a call that no rule refuses answers, changes and sends at a table.
fn serve_at(
    alloc: Global,
    found: FoundTable<'_>,
    call: &TableCall,
    planned: &mut Planned,
) -> Result<Term, AllocError>
    ensures answer { IfOk result (λ answer. OfServedLine found.entry (call_in call.now) (λ l. meaning_of answer ≡ l.answer)) }
    ensures adds { OnOk result (OfServedLine found.entry (call_in call.now) (λ l. Adds [] l.changes planned.old planned.new)) }
{
    let Served {
        answer,
        changes,
        transfer,
    } = serve(alloc, found, call)?;
    planned.change_tables(changes)?;
    planned.tell_owner(&found.table.owner, transfer)?;
    Ok(answer)
}

// What a call that no rule refuses answers and changes, whatever is found.
fn serve_found(
    alloc: Global,
    found: Option<FoundTable<'_>>,
    call: &TableCall,
    planned: &mut Planned,
) -> Result<Term, AllocError>
    ensures answer { IfOk result (λ answer. OfFoundLine found.entry (call_in call.now) (λ l. meaning_of answer ≡ l.answer)) }
    ensures adds { OnOk result (OfFoundLine found.entry (call_in call.now) (λ l. Adds [] l.changes planned.old planned.new)) }
{
    match found {
        Some(found) => {
            let answer = serve_at(alloc, found, call, planned)?;
            Ok(answer)
        }
        None => {
            let answer = Term::atom(alloc, "undefined")?;
            Ok(answer)
        }
    }
}

// The owner that a refusal by this rule reports, of the table that is found.
fn told_owner(found: Option<FoundTable<'_>>, rule: Rule) -> Result<Option<Pid>, AllocError>
    ensures { IfOk result (λ owner. owner ≡ told_owner rule (option_map found_of found.entry)) }
{
    match owner_of_found(found, rule) {
        Some(owner) => Ok(Some(owner.copy()?)),
        None => Ok(None),
    }
}

// What a call results in whose table argument finds this, and what it changes.
fn reply_of(
    records: &Records<'_>,
    alloc: Global,
    caller: &Pid,
    argument: &TableArgument,
    found: Option<FoundTable<'_>>,
    call: &TableCall,
    planned: &mut Planned,
) -> Result<Reply, AllocError>
    ensures reply { IfOk result (λ reply. WhereFound records.now (argument_in argument.now) found.entry (λ v. IsReply v caller.now (calls.OnTable (argument_in argument.now) (call_in call.now)) reply)) }
    ensures adds { IfOk result (λ reply. WhereFound records.now (argument_in argument.now) found.entry (λ v. PlansOnTable v caller.now (argument_in argument.now) (call_in call.now) reply planned.old planned.new)) }
{
    let living = records.processes().living();
    if let Some(rule) = judge_found(caller, argument, found, call, living) {
        let owner = told_owner(found, rule)?;
        return Ok(Reply::Refused(Refusal::ByRule(rule, owner)));
    }
    let answer = serve_found(alloc, found, call, planned)?;
    Ok(Reply::Served(answer))
}

// A call with a table argument.
fn on_table(
    records: &Records<'_>,
    alloc: Global,
    caller: &Pid,
    argument: &TableArgument,
    call: &TableCall,
    planned: &mut Planned,
) -> Result<Reply, AllocError>
    ensures { IfOk result (λ reply. Plans caller.now (calls.OnTable (argument_in argument.now) (call_in call.now)) records.now reply planned.old planned.new) }
{
    let found = records.tables().find(argument);
    read_target(call, planned)?;
    read_find(argument, found, planned)?;
    read_found(alloc, caller, found, call, planned)?;
    let reply = reply_of(records, alloc, caller, argument, found, call, planned)?;
    Ok(reply)
}

// The name of a new table, which is looked at where it is to be found by it.
fn read_new_name(
    name: &Atom,
    options: &Option<Vec<TableOption>>,
    planned: &mut Planned,
) -> Result<(), AllocError>
    ensures { OnOk result (Adds (new_reads name.now (option_map (λ os. map option_in os.items) options.now)) [] planned.old planned.new) }
{
    match options {
        Some(options) if !is_named(options) => Ok(()),
        _ => planned.read_name(NamePart::TableName, name),
    }
}

// A new table, which nothing refuses.
fn make(
    records: &Records<'_>,
    alloc: Global,
    caller: &Pid,
    name: &Atom,
    options: Vec<TableOption>,
    planned: &mut Planned,
) -> Result<Reply, AllocError>
    ensures reply { IfOk result (λ reply. RepliesUnlessRefused records.now caller.now (calls.New (Some name.now) (Some (map option_in options.items))) reply) }
    ensures adds { IfOk result (λ reply. OfWorld records.now (λ m v. Adds [] (changes_of_reply v caller.now (calls.New (Some name.now) (Some (map option_in options.items))) reply) planned.old planned.new)) }
{
    let id = next_reference(records, alloc, caller)?;
    let Created {
        handle,
        changes: made,
    } = create(alloc, caller, &id, name, options)?;
    planned.change_tables(made)?;
    Ok(Reply::Served(handle))
}

// `new/2` of a table with a name.
fn make_named(
    records: &Records<'_>,
    alloc: Global,
    caller: &Pid,
    name: &Option<Atom>,
    options: Option<Vec<TableOption>>,
    planned: &mut Planned,
) -> Result<Reply, AllocError>
    ensures { IfOk result (λ reply. Plans caller.now (calls.New name.now (option_map (λ os. map option_in os.items) options)) records.now reply planned.old planned.new) }
{
    let Some(named) = name else {
        return Ok(Reply::Refused(Refusal::ByRule(Rule::BadName, None)));
    };
    read_new_name(named, &options, planned)?;
    if let Some(rule) = records.tables().judge_new(name, &options) {
        return Ok(Reply::Refused(Refusal::ByRule(rule, None)));
    }
    let Some(options) = options else {
        return Ok(Reply::Refused(Refusal::ByRule(Rule::BadOption, None)));
    };
    let reply = make(records, alloc, caller, named, options, planned)?;
    Ok(reply)
}

/// What a call of tables results in, what it reads, and what it changes. `AllocError` if there is no memory.
pub fn plan_table_call(
    records: &Records<'_>,
    alloc: Global,
    caller: &Pid,
    kind: CallKind,
    arguments: &Terms,
    planned: &mut Planned,
) -> Result<Reply, AllocError>
    ensures { IfOk result (λ reply. is_of_tables (call_of kind arguments.now) ≡ true → Plans caller.now (call_of kind arguments.now) records.now reply planned.old planned.new) }
{
    match TableRequest::of(alloc, kind, arguments)? {
        TableRequest::OnTable(argument, call) => {
            let reply = on_table(records, alloc, caller, &argument, &call, planned)?;
            Ok(reply)
        }
        TableRequest::New(name, options) => {
            let reply = make_named(records, alloc, caller, &name, options, planned)?;
            Ok(reply)
        }
        TableRequest::Other => Ok(Reply::Refused(Refusal::BadArgument)),
    }
}
