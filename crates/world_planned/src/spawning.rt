// Processes that begin, and what is created by them (erlang manual, `spawn/3`, `spawn_link/3`, `spawn_monitor/3`,
// `make_ref/0`).
ghost use Rattle.std.specs.Prelude.{◌≡◌, ◌∷◌, [], IfOk, OnOk, Some, option_map};
ghost use Rattle.proc_calls.specs.Arguments.{origin_in, way_in};
ghost use Rattle.world_model.specs.Names.{ref_of};
ghost use Rattle.world_planned.specs.inside.Planned.{Adds};
ghost use Rattle.world_planned.specs.inside.PlannedCalls.{Plans};
ghost use Rattle.term_core.specs.Term.{meaning_of};
ghost use Rattle.world_model.specs.Calls as calls;
ghost use Rattle.world_model.specs.Changes as changes;
ghost use Rattle.world_model.specs.ProcessLines.{bound, child_told, next_child, next_ref};
ghost use Rattle.world_records.specs.Records.{OfWorld};

use crate::planned::Planned;
use crate::reply::{Refusal, Reply};
use proc_calls::{Origin, SpawnWay};
use std::alloc::{AllocError, Global};
use term_core::{Pid, RefId, Term, Terms};
use world_records::{Change, Records};

/// The reference that a process creates next (erlang manual, `make_ref/0`). `AllocError` if there is no memory, or no
/// number is left.
pub fn next_reference(
    records: &Records<'_>,
    alloc: Global,
    caller: &Pid,
) -> Result<RefId, AllocError>
    ensures { IfOk result (λ reference. OfWorld records.now (λ m v. ref_of reference ≡ next_ref v caller.now)) }
{
    let number = records.next_number(caller)?;
    let pid = caller.copy()?;
    let reference = RefId::new(alloc, pid, number)?;
    Ok(reference)
}

/// The process that a process begins next, or the sender of the timer that it starts next. `AllocError` if there is no
/// memory, or no number is left.
pub fn next_process(records: &Records<'_>, alloc: Global, caller: &Pid) -> Result<Pid, AllocError>
    ensures { IfOk result (λ child. OfWorld records.now (λ m v. child ≡ next_child v caller.now)) }
{
    let number = records.next_number(caller)?;
    let mut numbers = Vec::new(alloc);
    numbers.extend_from_slice(caller.numbers())?;
    numbers.push(number)?;
    let child = Pid::new(alloc, numbers)?;
    Ok(child)
}

// The pair of a process and the reference that watches it.
fn pair_of(alloc: Global, child: &Pid, reference: &RefId) -> Result<Term, AllocError>
    ensures { IfOk result (λ pair. meaning_of pair ≡ child_told calls.Watched child.now (ref_of reference.now)) }
{
    let mut parts = Terms::new(alloc);
    parts.push(Term::Pid(child.copy()?))?;
    parts.push(Term::Ref(reference.copy()?))?;
    let pair = Term::tuple(alloc, parts)?;
    Ok(pair)
}

// The answer of a spawn.
fn answer_of(
    alloc: Global,
    way: SpawnWay,
    child: &Pid,
    reference: &RefId,
) -> Result<Term, AllocError>
    ensures { IfOk result (λ answer. meaning_of answer ≡ child_told (way_in way) child.now (ref_of reference.now)) }
{
    match way {
        SpawnWay::Alone | SpawnWay::Linked => Ok(Term::Pid(child.copy()?)),
        SpawnWay::Watched => pair_of(alloc, child, reference),
    }
}

// A new process is bound to its parent as it was spawned.
fn bind(
    way: SpawnWay,
    caller: &Pid,
    child: &Pid,
    reference: &RefId,
    planned: &mut Planned,
) -> Result<(), AllocError>
    ensures { OnOk result (Adds [] (bound (way_in way) caller.now child.now (ref_of reference.now)) planned.old planned.new) }
{
    match way {
        SpawnWay::Alone => Ok(()),
        SpawnWay::Linked => planned.change(Change::LinkAdded(caller.copy()?, child.copy()?)),
        SpawnWay::Watched => planned.change(Change::WatchSet(reference.copy()?, child.copy()?)),
    }
}

// A process begins in this function, and lives.
fn begin_in(child: &Pid, origin: Origin, planned: &mut Planned) -> Result<(), AllocError>
    ensures { OnOk result (Adds [] (changes.MachineStarted child.now (origin_in origin) ∷ changes.AliveSet child.now ∷ []) planned.old planned.new) }
{
    let Origin {
        module_name,
        function_name,
        arguments,
    } = origin;
    planned.change(Change::ProcessStarted {
        child: child.copy()?,
        module_name,
        function_name,
        arguments,
    })
}

// A new process begins in this function.
fn begin(
    records: &Records<'_>,
    alloc: Global,
    caller: &Pid,
    way: SpawnWay,
    origin: Origin,
    planned: &mut Planned,
) -> Result<Reply, AllocError>
    ensures { IfOk result (λ reply. Plans caller.now (calls.Spawn (way_in way) (Some (origin_in origin))) records.now reply planned.old planned.new) }
{
    let child = next_process(records, alloc, caller)?;
    let reference = next_reference(records, alloc, caller)?;
    begin_in(&child, origin, planned)?;
    bind(way, caller, &child, &reference, planned)?;
    let answer = answer_of(alloc, way, &child, &reference)?;
    Ok(Reply::Served(answer))
}

/// `spawn/3`, `spawn_link/3`, `spawn_monitor/3`. `AllocError` if there is no memory.
pub fn spawn(
    records: &Records<'_>,
    alloc: Global,
    caller: &Pid,
    way: SpawnWay,
    origin: Option<Origin>,
    planned: &mut Planned,
) -> Result<Reply, AllocError>
    ensures { IfOk result (λ reply. Plans caller.now (calls.Spawn (way_in way) (option_map origin_in origin)) records.now reply planned.old planned.new) }
{
    match origin {
        Some(origin) => begin(records, alloc, caller, way, origin, planned),
        None => Ok(Reply::Refused(Refusal::BadArgument)),
    }
}

/// `make_ref/0`, which reads and changes nothing. `AllocError` if there is no memory.
pub fn make_ref(
    records: &Records<'_>,
    alloc: Global,
    caller: &Pid,
    planned: &mut Planned,
) -> Result<Reply, AllocError>
    ensures { IfOk result (λ reply. Plans caller.now calls.MakeRef records.now reply planned.old planned.new) }
{
    let reference = next_reference(records, alloc, caller)?;
    Ok(Reply::Served(Term::Ref(reference)))
}
