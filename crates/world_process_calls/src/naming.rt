// Names, flags and questions of processes (erlang manual, `register/2`, `unregister/1`, `whereis/1`,
// `process_flag/2`, `is_process_alive/1`).
ghost use Rattle.std.specs.Prelude.{◌≡◌, ◌∷◌, [], IfOk, OnOk, None, Some, codes, is_none, option_map};
ghost use Rattle.proc_calls.specs.Arguments.{traps};
ghost use Rattle.proc_links.specs.Process.{are_trapped};
ghost use Rattle.world_planned.specs.inside.Planned.{Adds};
ghost use Rattle.world_planned.specs.inside.PlannedCalls.{Plans};
ghost use Rattle.term_core.specs.Term.{meaning_of};
ghost use Rattle.world_model.specs.Calls as calls;
ghost use Rattle.world_model.specs.Cells as cells;
ghost use Rattle.world_model.specs.Names as names;
ghost use Rattle.world_model.specs.ProcessLines.{register_refusal};
ghost use Rattle.world_model.specs.Terms.{process_or};
ghost use Rattle.world_records.specs.Records.{OfWorld};
ghost use Rattle.world_records.specs.declared.records.Records as declared;

use proc_calls::Trapping;
use proc_links::{Exits, Naming};
use std::alloc::{AllocError, Global};
use term_core::{Atom, Pid, Term};
use world_planned::planned::Planned;
use world_planned::readings::{holder, life, lives, traps};
use world_planned::reply::{Refusal, Reply, done, truth};
use world_records::{Change, ChannelPart, NamePart, ProcessPart, Records};

// Whether `register/2` is served.
fn can_register(records: &Records<'_>, name: &Atom, whom: &Pid) -> bool
    ensures { OfWorld records.now (λ m v. result ≡ is_none (register_refusal name.now (v (cells.Alive whom.now)) (v (cells.Holder name.now)) (v (cells.NameOf whom.now)))) }
{
    let life = life(records, whom);
    match records.names().judge_registration(name, whom, life) {
        Naming::Served => true,
        Naming::Refused => false,
    }
}

// What `register/2` reads.
fn read_register(name: &Atom, whom: &Pid, planned: &mut Planned) -> Result<(), AllocError>
    ensures { OnOk result (Adds (cells.Alive whom.now ∷ cells.Holder name.now ∷ cells.NameOf whom.now ∷ []) [] planned.old planned.new) }
{
    planned.read_process(ProcessPart::Alive, whom)?;
    planned.read_name(NamePart::Holder, name)?;
    planned.read_process(ProcessPart::NameOf, whom)
}

// `register/2` of a name for a process.
fn register_for(
    records: &Records<'_>,
    name: Atom,
    whom: Pid,
    planned: &mut Planned,
) -> Result<Reply, AllocError>
    ensures { IfOk result (λ reply. (caller : names.Pid) → Plans caller (calls.Register (Some name) (Some whom)) records.now reply planned.old planned.new) }
{
    read_register(&name, &whom, planned)?;
    if can_register(records, &name, &whom) {
        planned.change(Change::NameRegistered(name, whom))?;
        return Ok(Reply::Served(done()));
    }
    Ok(Reply::Refused(Refusal::BadArgument))
}

// `register/2` of a process, with no name.
fn register_nameless(whom: &Pid, planned: &mut Planned) -> Result<Reply, AllocError>
    ensures { IfOk result (λ reply. (records : declared.Records) (caller : names.Pid) → Plans caller (calls.Register None (Some whom.now)) records reply planned.old planned.new) }
{
    planned.read_process(ProcessPart::Alive, whom)?;
    planned.read_process(ProcessPart::NameOf, whom)?;
    Ok(Reply::Refused(Refusal::BadArgument))
}

// `register/2` of a name, with no process.
fn register_nobody(name: &Atom, planned: &mut Planned) -> Result<Reply, AllocError>
    ensures { IfOk result (λ reply. (records : declared.Records) (caller : names.Pid) → Plans caller (calls.Register (Some name.now) None) records reply planned.old planned.new) }
{
    planned.read_name(NamePart::Holder, name)?;
    Ok(Reply::Refused(Refusal::BadArgument))
}

/// `register/2`. `AllocError` if there is no memory.
pub(crate) fn register(
    records: &Records<'_>,
    name: Option<Atom>,
    whom: Option<Pid>,
    planned: &mut Planned,
) -> Result<Reply, AllocError>
    ensures { IfOk result (λ reply. (caller : names.Pid) → Plans caller (calls.Register name whom) records.now reply planned.old planned.new) }
{
    match (name, whom) {
        (Some(name), Some(whom)) => register_for(records, name, whom, planned),
        (Some(name), None) => register_nobody(&name, planned),
        (None, Some(whom)) => register_nameless(&whom, planned),
        (None, None) => Ok(Reply::Refused(Refusal::BadArgument)),
    }
}

// `unregister/1` of a name.
fn unregister_name(
    records: &Records<'_>,
    name: Atom,
    planned: &mut Planned,
) -> Result<Reply, AllocError>
    ensures { IfOk result (λ reply. (caller : names.Pid) → Plans caller (calls.Unregister (Some name)) records.now reply planned.old planned.new) }
{
    planned.read_name(NamePart::Holder, &name)?;
    let Some(whom) = holder(records, &name) else {
        return Ok(Reply::Refused(Refusal::BadArgument));
    };
    planned.read_process(ProcessPart::Alive, whom)?;
    planned.change(Change::NameUnregistered(name, whom.copy()?))?;
    Ok(Reply::Served(done()))
}

/// `unregister/1`. `AllocError` if there is no memory.
pub(crate) fn unregister(
    records: &Records<'_>,
    name: Option<Atom>,
    planned: &mut Planned,
) -> Result<Reply, AllocError>
    ensures { IfOk result (λ reply. (caller : names.Pid) → Plans caller (calls.Unregister name) records.now reply planned.old planned.new) }
{
    match name {
        Some(name) => unregister_name(records, name, planned),
        None => Ok(Reply::Refused(Refusal::BadArgument)),
    }
}

// The answer of `whereis/1`.
fn holder_or(alloc: Global, records: &Records<'_>, name: &Atom) -> Result<Term, AllocError>
    ensures { IfOk result (λ answer. OfWorld records.now (λ m v. meaning_of answer ≡ process_or (codes "undefined") (v (cells.Holder name.now)))) }
{
    match holder(records, name) {
        Some(pid) => Ok(Term::Pid(pid.copy()?)),
        None => Term::atom(alloc, "undefined"),
    }
}

// `whereis/1` of a name.
fn find_name(
    records: &Records<'_>,
    alloc: Global,
    name: &Atom,
    planned: &mut Planned,
) -> Result<Reply, AllocError>
    ensures { IfOk result (λ reply. (caller : names.Pid) → Plans caller (calls.WhereIs (Some name.now)) records.now reply planned.old planned.new) }
{
    planned.read_name(NamePart::Holder, name)?;
    let answer = holder_or(alloc, records, name)?;
    Ok(Reply::Served(answer))
}

/// `whereis/1`. `AllocError` if there is no memory.
pub(crate) fn whereis(
    records: &Records<'_>,
    alloc: Global,
    name: Option<Atom>,
    planned: &mut Planned,
) -> Result<Reply, AllocError>
    ensures { IfOk result (λ reply. (caller : names.Pid) → Plans caller (calls.WhereIs name) records.now reply planned.old planned.new) }
{
    match name {
        Some(name) => find_name(records, alloc, &name, planned),
        None => Ok(Reply::Refused(Refusal::BadArgument)),
    }
}

// `is_process_alive/1` of a process.
fn ask_life(
    records: &Records<'_>,
    caller: &Pid,
    whom: &Pid,
    planned: &mut Planned,
) -> Result<Reply, AllocError>
    ensures { IfOk result (λ reply. Plans caller.now (calls.IsAlive (Some whom.now)) records.now reply planned.old planned.new) }
{
    planned.read_process(ProcessPart::Alive, whom)?;
    planned.read_channel(ChannelPart::Front, caller, whom)?;
    planned.read_channel(ChannelPart::Tail, caller, whom)?;
    Ok(Reply::Served(truth(lives(records, whom))))
}

/// `is_process_alive/1`, where no signal of the caller to the process is on its way. `AllocError` if there is no
/// memory.
pub(crate) fn is_alive(
    records: &Records<'_>,
    caller: &Pid,
    whom: Option<Pid>,
    planned: &mut Planned,
) -> Result<Reply, AllocError>
    ensures { IfOk result (λ reply. Plans caller.now (calls.IsAlive whom) records.now reply planned.old planned.new) }
{
    match whom {
        Some(whom) => ask_life(records, caller, &whom, planned),
        None => Ok(Reply::Refused(Refusal::BadArgument)),
    }
}

// What a flag asks for.
fn exits_of(trapping: Trapping) -> Exits
    ensures { are_trapped result ≡ traps trapping }
{
    match trapping {
        Trapping::Traps => Exits::Trapped,
        Trapping::Obeys => Exits::Untrapped,
    }
}

// `process_flag/2` of the flag that is known.
fn set_trap(
    records: &Records<'_>,
    caller: &Pid,
    trapping: Trapping,
    planned: &mut Planned,
) -> Result<Reply, AllocError>
    ensures { IfOk result (λ reply. Plans caller.now (calls.Flag (Some (traps trapping))) records.now reply planned.old planned.new) }
{
    planned.read_process(ProcessPart::Trap, caller)?;
    planned.change(Change::TrapSet(caller.copy()?, exits_of(trapping)))?;
    Ok(Reply::Served(truth(traps(records, caller))))
}

/// `process_flag/2`. `AllocError` if there is no memory.
pub(crate) fn set_flag(
    records: &Records<'_>,
    caller: &Pid,
    trapping: Option<Trapping>,
    planned: &mut Planned,
) -> Result<Reply, AllocError>
    ensures { IfOk result (λ reply. Plans caller.now (calls.Flag (option_map traps trapping)) records.now reply planned.old planned.new) }
{
    match trapping {
        Some(trapping) => set_trap(records, caller, trapping, planned),
        None => Ok(Reply::Refused(Refusal::BadArgument)),
    }
}
