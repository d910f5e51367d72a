// How a step is remembered.
ghost use Rattle.std.specs.Prelude.{◌≡◌, true, is_some, IfOk, option_map};
ghost use Rattle.search_numbers.specs.inside.Covered.{AreWithin};
ghost use Rattle.search_numbers.specs.inside.Learning.{AreTouched, AreUntouched, IsDeadIn, IsLearned, IsPlannedIn};
ghost use Rattle.search_numbers.specs.Rows.{numbers_in};
ghost use Rattle.search_numbers.specs.Stored.{AreSomething, BeginsAt, Follows, IsStore, IsWorldOf};
ghost use Rattle.world_footprints.specs.Deeds.{deed_in};
ghost use Rattle.world_footprints.specs.Footprints.{IsPlan};
ghost use Rattle.world_footprints.specs.Plans.{IsNewFor, actor_of, left};
ghost use Rattle.world_model.specs.Asking.{program_of};
ghost use Rattle.world_records.specs.Records.{Agrees, OfWorld};

use crate::covering::columns_of;
use crate::remembered::Remembered;
use crate::row::number_in;
use crate::store::Store;
use crate::touch::Touch;
use std::alloc::{AllocError, Global};
use std::sync::Arc;
use term_core::{Pid, Step};
use world_core::shown_by_plan;
use world_plans::{Plan, perform, plan_step};
use world_records::{Place, Records};

// Whose turn a step is, or the process that it delivers to.
fn actor_of(step: &Step) -> &Pid
    ensures { result.now ≡ actor_of step.now }
{
    match step {
        Step::Turn(pid) => pid,
        Step::Deliver(_, to) => to,
    }
}

// What a step touches that leaves all as it is.
fn untouched(alloc: Global, row: &[u32], columns: &[usize]) -> Result<Vec<Touch>, AllocError>
    ensures { IfOk result (λ touches. AreUntouched (numbers_in row.now) columns.now touches.items) }
{
    let mut touches = Vec::with_capacity(alloc, columns.len())?;
    for column in columns {
        let number = number_in(row, *column);
        touches.push(Touch {
            column: *column,
            before: number,
            after: number,
        })?;
    }
    Ok(touches)
}

// What a step touches that leaves these records. `AllocError` if there is no memory for it, or for what is new in them.
fn touched<'m>(
    alloc: Global,
    store: &mut Store<'m>,
    row: &[u32],
    columns: &[usize],
    after: &Arc<Records<'m>>,
) -> Result<Vec<Touch>, AllocError>
    requires { AreWithin store.old columns.now × AreSomething store.old.opening after.now.value × IsStore store.old }
    ensures touches { IfOk result (λ touches. AreTouched store.new (numbers_in row.now) after.now.value columns.now touches.items) }
    ensures follows { Follows store.new store.old }
    ensures places { store.new.places ≡ store.old.places }
{
    let mut touches = Vec::with_capacity(alloc, columns.len())?;
    for column in columns {
        let number = store.number(*column, after)?;
        touches.push(Touch {
            column: *column,
            before: number_in(row, *column),
            after: number,
        })?;
    }
    Ok(touches)
}

// The step of a process that does not live, or one that is delivered to it, is not enabled.
fn learn_of_the_dead(
    alloc: Global,
    store: &mut Store<'_>,
    row: &[u32],
    step: &Step,
    begins: usize,
) -> Result<Remembered, AllocError>
    requires dead { IsDeadIn store.old (numbers_in row.now) (actor_of step.now) }
    requires begins { BeginsAt store.old.places.items begins step.now }
    ensures learned { IfOk result (λ learned. IsLearned store.new (numbers_in row.now) step.now learned) }
    ensures follows { Follows store.new store.old }
{
    let column = store.add(Place::Inbox(actor_of(step).copy()?))?;
    let touches = untouched(alloc, row, &[column])?;
    Ok(Remembered {
        step: step.copy()?,
        column: begins,
        touches,
        shown: None,
    })
}

// The records that a planned step leaves. `AllocError` if there is no memory for them.
fn left_by<'m>(
    alloc: Global,
    records: Records<'m>,
    plan: &Plan,
) -> Result<Arc<Records<'m>>, AllocError>
    ensures { IfOk result (λ after. OfWorld records.entry (λ m v. IsPlan (program_of m) v plan.now → IsNewFor v plan.now.step → Agrees m after.value (left v plan.now.step (option_map deed_in plan.now.deed)))) }
{
    let mut records = records;
    perform(&mut records, alloc, plan)?;
    Ok(Arc::new(alloc, records)?)
}

// What an enabled step does that was planned for these records.
fn learn_of_an_event<'m>(
    alloc: Global,
    store: &mut Store<'m>,
    row: &[u32],
    records: Records<'m>,
    plan: &Plan,
    columns: &[usize],
    begins: usize,
) -> Result<Remembered, AllocError>
    requires planned { IsPlannedIn store.old (numbers_in row.now) records plan.now columns.now }
    requires enabled { is_some plan.now.deed ≡ true }
    requires begins { BeginsAt store.old.places.items begins plan.now.step }
    ensures learned { IfOk result (λ learned. IsLearned store.new (numbers_in row.now) plan.now.step learned) }
    ensures follows { Follows store.new store.old }
{
    let shown = shown_by_plan(&records, alloc, plan)?;
    let after = left_by(alloc, records, plan)?;
    let touches = touched(alloc, store, row, columns, &after)?;
    Ok(Remembered {
        step: plan.step.copy()?,
        column: begins,
        touches,
        shown: Some(shown),
    })
}

/// What a step does in a world, which begins at the place of a column. `AllocError` if there is no memory for it.
pub(crate) fn learn<'m>(
    alloc: Global,
    store: &mut Store<'m>,
    row: &[u32],
    step: &Step,
    begins: usize,
) -> Result<Remembered, AllocError>
    requires world { IsWorldOf store.old (numbers_in row.now) }
    requires begins { BeginsAt store.old.places.items begins step.now }
    ensures learned { IfOk result (λ learned. IsLearned store.new (numbers_in row.now) step.now learned) }
    ensures follows { Follows store.new store.old }
{
    let records = store.records_of(row)?;
    let Some(plan) = plan_step(&records, alloc, step.copy()?)? else {
        return learn_of_the_dead(alloc, store, row, step, begins);
    };
    let columns = columns_of(alloc, store, &plan)?;
    if plan.deed.is_some() {
        return learn_of_an_event(
            alloc,
            store,
            row,
            records,
            &plan,
            columns.as_slice(),
            begins,
        );
    }
    Ok(Remembered {
        step: step.copy()?,
        column: begins,
        touches: untouched(alloc, row, columns.as_slice())?,
        shown: None,
    })
}
