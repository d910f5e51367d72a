// How far each process has come: copies share it until one of them is changed.
ghost use Rattle.std.specs.Prelude.{◌≡◌, ◌≢◌, ◌<◌, ◌≤◌, length, IfOk, OnOk, OnErr, None, option_copied, position};
ghost use Rattle.std.specs.List.{AllWithin, HoldsAt};
ghost use Rattle.std.specs.List.Sorted.{IsStrictlySortedBy, IsStrictlySortedBy-prop};
ghost use Rattle.std.specs.Map.{keys_of};
ghost use Rattle.term_core.specs.Order.{order_of_lists};
ghost use Rattle.world_model.specs.Names as names;
ghost use Rattle.world_model.specs.Names.{same_pid};

use crate::course::Course;
use std::alloc::{AllocError, Global};
use std::cmp::Ordering;
use std::sync::Arc;
use term_core::Pid;

/// How many processes are looked through from the front; where there are more, one is found by binary search.
const FEW: usize = 8;

/// The processes that were begun, each with its course, in the order of processes. Most often they are few, so a list
/// is copied and dropped faster than a map, and searched as fast.
#[derive(Drop)]
pub(crate) struct CourseList<'m> {
    entries: Vec<(Pid, Arc<Course<'m>>)>,
    ghost in_order: { IsStrictlySortedBy order_of_lists (keys_of entries.items) } by { IsStrictlySortedBy-prop order_of_lists (keys_of entries.items) },
}

impl<'m> Clone for CourseList<'m> {
    ghost use Rattle.proc_machines.specs.Courses.{listed};

    ghost is_clone = { λ a b. listed b ≡ listed a };

    /// The same list, which shares the courses with this one, with room for one more, or `AllocError` if there is no
    /// memory for it.
    fn clone(&self) -> Result<CourseList<'m>, AllocError> {
        let mut entries = Vec::with_capacity(*self.entries.allocator(), self.entries.len() + 1)?;
        for (pid, course) in self.entries.as_slice() {
            entries.push((pid.copy()?, Arc::try_clone(course)?))?;
        }
        Ok(CourseList { entries })
    }
}

impl<'m> CourseList<'m> {
    ghost use Rattle.proc_machines.specs.Courses.{IsLeftOut, IsPut, IsTakenOver, listed};

    // Where a process is or is put in: after those that come before it.
    fn room(&self, pid: &Pid) -> usize
        ensures within { result ≤ length self.now.entries.items }
        ensures before { AllWithin (λ entry. order_of_lists entry.0 pid.now ≡ Ordering.Less) self.now.entries.items 0 result }
        ensures behind { result < length self.now.entries.items → HoldsAt (λ entry. order_of_lists entry.0 pid.now ≢ Ordering.Less) self.now.entries.items result }
    {
        let entries = self.entries.as_slice();
        entries.partition_point(|entry| entry.0.cmp(pid).is_lt())
    }

    // The place of a process, if it was begun, found by binary search.
    fn place_by_halves(&self, pid: &Pid) -> Option<usize>
        ensures { result ≡ position (λ entry. same_pid pid.now entry.0) self.now.entries.items }
    {
        let place = self.room(pid);
        if place < self.entries.len() && *pid == self.entries[place].0 {
            return Some(place);
        }
        None
    }

    // The place of a process, if it was begun.
    fn place(&self, pid: &Pid) -> Option<usize>
        ensures { result ≡ position (λ entry. same_pid pid.now entry.0) self.now.entries.items }
    {
        if self.entries.len() > FEW {
            return self.place_by_halves(pid);
        }
        for (place, entry) in self.entries.as_slice().iter().enumerate() {
            if *pid == entry.0 {
                return Some(place);
            }
        }
        None
    }

    // Gives a process a course in place of the one that it had. `AllocError` if there is no memory: then the list
    // stays as it was.
    fn put(&mut self, pid: &Pid, course: Arc<Course<'m>>) -> Result<(), AllocError>
        ensures ok { OnOk result (IsPut pid.now course.entry.value (listed self.old) (listed self.new)) }
        ensures err { OnErr result (listed self.new ≡ listed self.old) }
    {
        let Some(place) = self.place(pid) else {
            let place = self.room(pid);
            self.entries.insert(place, (pid.copy()?, course))?;
            return Ok(());
        };
        self.entries[place].1 = course;
        Ok(())
    }

    // Leaves out a process, with its course. It takes no memory.
    fn leave_out(&mut self, pid: &Pid)
        ensures { IsLeftOut pid.now (listed self.old) (listed self.new) }
    {
        let Some(place) = self.place(pid) else {
            return;
        };
        self.entries.remove(place);
    }

    // Gives a process the course that it has in another list, which both share then; where it has none there, it is
    // left out.
    fn take_from(&mut self, pid: &Pid, other: &CourseList<'m>) -> Result<(), AllocError>
        ensures { OnOk result (IsTakenOver pid.now (listed other.now) (listed self.old) (listed self.new)) }
    {
        let Some(place) = other.place(pid) else {
            self.leave_out(pid);
            return Ok(());
        };
        let course = Arc::try_clone(&other.entries[place].1)?;
        self.put(pid, course)?;
        Ok(())
    }
}

/// The course of each process that was begun.
#[derive(Drop)]
pub(crate) struct Courses<'m> {
    courses: Arc<CourseList<'m>>,
}

impl<'m> Courses<'m> {
    ghost use Rattle.proc_machines.specs.Courses.{AreSame, HasAt, TakesAt, course_at};

    /// No courses, or `AllocError` if there is no memory.
    pub(crate) fn new(alloc: Global) -> Result<Courses<'m>, AllocError>
        ensures { IfOk result (λ begun. (p : names.Pid) → course_at begun p ≡ None) }
    {
        Ok(Courses {
            courses: Arc::new(
                alloc,
                CourseList {
                    entries: Vec::new(alloc),
                },
            )?,
        })
    }

    /// The same courses, or `AllocError` where the copies can no longer be counted.
    pub(crate) fn copy(&self) -> Result<Courses<'m>, AllocError>
        ensures { IfOk result (λ copied. AreSame self.now copied) }
    {
        Ok(Courses {
            courses: Arc::try_clone(&self.courses)?,
        })
    }

    /// The course of a process, or `None` where it was never begun. It takes no memory.
    pub(crate) fn of(&self, pid: &Pid) -> Option<&Course<'m>>
        ensures { option_copied result ≡ course_at self.now pid.now }
    {
        let place = self.courses.place(pid)?;
        Some(&self.courses.entries[place].1)
    }

    /// Gives a process a course in place of the one that it had. `AllocError` if there is no memory: then nothing
    /// is changed, and the course is dropped.
    pub(crate) fn put(
        &mut self,
        alloc: Global,
        pid: &Pid,
        course: Course<'m>,
    ) -> Result<(), AllocError>
        ensures ok { OnOk result (HasAt pid.now course.entry self.old self.new) }
        ensures err { OnErr result (AreSame self.old self.new) }
    {
        let course = Arc::new(alloc, course)?;
        let courses = Arc::make_mut(&mut self.courses)?;
        courses.put(pid, course)?;
        Ok(())
    }

    /// Takes over the course of one process from others, and shares it with them. `AllocError` if there is no memory.
    pub(crate) fn take_from(&mut self, pid: &Pid, other: &Courses<'m>) -> Result<(), AllocError>
        ensures { OnOk result (TakesAt pid.now other.now self.old self.new) }
    {
        let courses = Arc::make_mut(&mut self.courses)?;
        courses.take_from(pid, &other.courses)?;
        Ok(())
    }
}
