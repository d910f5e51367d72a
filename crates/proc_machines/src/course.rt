// How far one process has come.
ghost use Rattle.std.specs.Prelude.{◌≡◌, ◌∷◌, ◌+◌, [], Some, None, IfOk, option_copied, true};
ghost use Rattle.core_eval.specs.Requests.{answered_of};
ghost use Rattle.core_tree.specs.Syntax.{ModuleTree};
ghost use Rattle.world_model.specs.Cells as cells;
ghost use Rattle.world_model.specs.Names as names;

use core_eval::{Answer, Machine};
use std::alloc::{AllocError, Global};
use std::hash::Hasher;

/// A process that was begun: its machine until it ends, and how many turns it took.
#[derive(Drop)]
pub(crate) struct Course<'m> {
    pub(crate) machine: Option<Machine<'m>>,
    pub(crate) turns: u64,
}

ghost use Rattle.proc_machines.specs.Courses.{AreOneIf, AreSameIf, IsSameCourse, StandsAs, turned, turns_of, standing_of};

/// How many turns a process took; none where it was never begun.
pub(crate) fn turns_of(course: Option<&Course<'_>>) -> u64
    ensures { result ≡ turns_of (option_copied course.entry) }
{
    match course {
        Some(course) => course.turns,
        None => 0,
    }
}

/// How many turns there are after one more, or `AllocError` where no number is left for it: a history of so many
/// events has no room in any memory.
pub(crate) fn next_turn(course: Option<&Course<'_>>) -> Result<u64, AllocError>
    ensures { IfOk result (λ turns. turns ≡ turns_of (option_copied course.entry) + 1) }
{
    match turns_of(course).checked_add(1) {
        Some(turns) => Ok(turns),
        None => Err(AllocError),
    }
}

// A machine that ran on with an answer, or `AllocError` if there is no memory for it; the one that it is made from
// stays as it was.
fn resumed<'m>(
    alloc: Global,
    machine: &Machine<'m>,
    answer: Answer,
) -> Result<Machine<'m>, AllocError>
    ensures { IfOk result (λ resumed. (m : ModuleTree) (p : names.Pid) (c : cells.Course) →
        StandsAs m p c (Some machine.now) → StandsAs m p (turned (answered_of answer ∷ []) c) (Some resumed)) }
{
    let mut machine = machine.copy(alloc)?;
    machine.resume(alloc, answer)?;
    Ok(machine)
}

/// The machine of a process, until it ends.
pub(crate) fn machine_of<'a, 'm>(course: Option<&'a Course<'m>>) -> Option<&'a Machine<'m>>
    ensures { option_copied result ≡ standing_of (option_copied course.entry) }
{
    match course {
        Some(course) => course.machine.as_ref(),
        None => None,
    }
}

// A machine that ran on with an answer, if there is one.
fn run_on<'m>(
    alloc: Global,
    machine: Option<&Machine<'m>>,
    answer: Answer,
) -> Result<Option<Machine<'m>>, AllocError>
    ensures stands { IfOk result (λ next. (m : ModuleTree) (p : names.Pid) (c : cells.Course) →
        StandsAs m p c (option_copied machine.entry) → StandsAs m p (turned (answered_of answer ∷ []) c) next) }
    ensures gone { IfOk result (λ next. option_copied machine.entry ≡ None → next ≡ None) }
{
    let Some(machine) = machine else {
        drop(answer);
        return Ok(None);
    };
    Ok(Some(resumed(alloc, machine, answer)?))
}

/// A course after a turn that is answered, or `AllocError` if there is no memory for it.
pub(crate) fn answered<'m>(
    alloc: Global,
    course: Option<&Course<'m>>,
    answer: Answer,
) -> Result<Course<'m>, AllocError>
    ensures turns { IfOk result (λ next. next.turns ≡ turns_of (option_copied course.entry) + 1) }
    ensures stands { IfOk result (λ next. (m : ModuleTree) (p : names.Pid) (c : cells.Course) →
        StandsAs m p c (standing_of (option_copied course.entry)) → StandsAs m p (turned (answered_of answer ∷ []) c) next.machine) }
    ensures gone { IfOk result (λ next. standing_of (option_copied course.entry) ≡ None → next.machine ≡ None) }
{
    let turns = next_turn(course)?;
    let machine = run_on(alloc, machine_of(course), answer)?;
    Ok(Course { machine, turns })
}

/// A course after a last turn, which ends the process, or `AllocError` where no number is left for it.
pub(crate) fn ended<'m>(course: Option<&Course<'m>>) -> Result<Course<'m>, AllocError>
    ensures turns { IfOk result (λ last. last.turns ≡ turns_of (option_copied course.entry) + 1) }
    ensures gone { IfOk result (λ last. last.machine ≡ None) }
{
    let turns = next_turn(course)?;
    Ok(Course {
        machine: None,
        turns,
    })
}

/// A course that is cut off by a signal. It takes no memory.
pub(crate) fn killed<'m>(course: Option<&Course<'m>>) -> Course<'m>
    ensures turns { result.turns ≡ turns_of (option_copied course.entry) }
    ensures gone { result.machine ≡ None }
{
    Course {
        machine: None,
        turns: turns_of(course),
    }
}

// Whether two machines of one module ask the same, or there are none.
fn same_machine(one: Option<&Machine<'_>>, other: Option<&Machine<'_>>) -> bool
    ensures { result ≡ true → AreOneIf (option_copied one.entry) (option_copied other.entry) }
{
    match (one, other) {
        (None, None) => true,
        (Some(one), Some(other)) => one.is_same(other),
        _ => false,
    }
}

/// Whether two courses are the same, or there are none. It takes no memory.
pub(crate) fn same_course(one: Option<&Course<'_>>, other: Option<&Course<'_>>) -> bool
    ensures { result ≡ true → AreSameIf (option_copied one.entry) (option_copied other.entry) }
{
    match (one, other) {
        (None, None) => true,
        (Some(one), Some(other)) => one.is_same(other),
        _ => false,
    }
}

impl Course<'_> {
    /// Whether two courses have as many turns and machines that ask the same. It takes no memory.
    pub(crate) fn is_same(&self, other: &Course<'_>) -> bool
        ensures { result ≡ true → IsSameCourse self.now other.now }
    {
        if self.turns != other.turns {
            return false;
        }
        same_machine(self.machine.as_ref(), other.machine.as_ref())
    }

    /// Feeds a hasher with the number of turns and the machine: the same for courses that are the same. It takes no memory.
    pub(crate) fn feed<H: Hasher>(&self, state: &mut H) {
        state.write_u64(self.turns);
        if let Some(machine) = &self.machine {
            machine.feed(state);
        }
    }
}
