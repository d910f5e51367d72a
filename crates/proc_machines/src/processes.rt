// The processes of a world (Erlang reference manual, "Processes").
ghost use Rattle.std.specs.Prelude.{◌≡◌, ◌+◌, ◌∷◌, [], false, true, IfOk, OnOk, OnErr, IfSome, Some, option_copied, option_map, is_some};
ghost use Rattle.std.specs.BTreeSet.{contains};
ghost use Rattle.core_eval.specs.Requests.{answered_of, told_by};
ghost use Rattle.core_tree.specs.Syntax.{ModuleTree};
ghost use Rattle.proc_links.specs.Process.{are_trapped};
ghost use Rattle.proc_machines.specs.Courses.{AreSameIf, StandsAs};
ghost use Rattle.proc_machines.specs.Receivers.{taken_by};
ghost use Rattle.proc_machines.specs.Processes.{Agrees, IsClosed, IsRequestOf, IsUnchanged, TakesCourse, TakesFlags, changes_begun, course_in, lives_in, traps_in, turns_in, request_with, selects_in, standing_in};
ghost use Rattle.term_core.specs.Meaning.{Meaning};
ghost use Rattle.term_core.specs.Order.{order_of_lists};
ghost use Rattle.world_model.specs.Cells as cells;
ghost use Rattle.world_model.specs.Cells.{Contents};
ghost use Rattle.world_model.specs.Changes.{after, TurnTaken, MachineHalted, AliveCleared, TrapSet};
ghost use Rattle.world_model.specs.Names as names;
ghost use Rattle.world_model.specs.Requests.{Spawned};
ghost use Rattle.world_model.specs.Steps.{asked};
ghost use Rattle.world_model.specs.World.{beginning};

use crate::course::{
    Course, answered, ended, killed, machine_of, next_turn, same_course, turns_of,
};
use crate::courses::Courses;
use crate::pids::Pids;
use crate::receiver::Receiver;
use core_eval::{Answer, Machine, Request, start};
use core_tree::Module;
use proc_links::Exits;
use std::alloc::{AllocError, Global};
use std::collections::BTreeSet;
use std::hash::{Hash, Hasher};
use term_core::{Atom, Pid, Terms};

/// The processes of a module: the machine of each that lives, how many turns each took, which of them live, and which
/// trap exits. Copies share all of it until one of them is changed: then what is changed is copied, and of the machines
/// only the one that runs on.
pub struct Processes<'m> {
    program: &'m Module,
    courses: Courses<'m>,
    living: Pids,
    trapping: Pids,
}

// Dropped by a call, so that no crate above proves again how.
impl Drop for Processes<'_> {
    fn drop(self) {
        let Processes {
            program: _,
            courses: _,
            living: _,
            trapping: _,
        } = self;
    }
}

// The first process of a module, at the first request of `main/0`.
fn first<'m>(alloc: Global, program: &'m Module) -> Result<Machine<'m>, AllocError>
    ensures { IfOk result (λ machine. StandsAs program.now [] (beginning (cells.Machine [])) (Some machine)) }
{
    let main = Atom::new(alloc, "main")?;
    let pid = Pid::new(alloc, Vec::new(alloc))?;
    start(alloc, program, pid, &program.name, &main, Terms::new(alloc))
}

impl<'m> Processes<'m> {
    /// The processes in the beginning: the first one lives, and is at the first request of `main/0` of the module.
    /// `AllocError` if there is no memory.
    pub fn open(alloc: Global, program: &'m Module) -> Result<Processes<'m>, AllocError>
        ensures { IfOk result (λ opened. Agrees program.now opened beginning) }
    {
        let pid = Pid::new(alloc, Vec::new(alloc))?;
        let course = Course {
            machine: Some(first(alloc, program)?),
            turns: 0,
        };
        let mut courses = Courses::new(alloc)?;
        courses.put(alloc, &pid, course)?;
        let mut living = Pids::new(alloc)?;
        living.put(&pid)?;
        Ok(Processes {
            program,
            courses,
            living,
            trapping: Pids::new(alloc)?,
        })
    }

    /// The same processes, which share memory with these, or `AllocError` where the copies can no longer be
    /// counted.
    pub fn copy(&self) -> Result<Processes<'m>, AllocError>
        ensures { IfOk result (λ copied. IsUnchanged self.now copied) }
    {
        Ok(Processes {
            program: self.program,
            courses: self.courses.copy()?,
            living: self.living.copy()?,
            trapping: self.trapping.copy()?,
        })
    }

    /// Whether one process took as many turns in both and has machines that ask the same, or was begun in neither. It takes no
    /// memory.
    pub fn is_same_course(&self, pid: &Pid, other: &Processes<'_>) -> bool
        ensures { result ≡ true → AreSameIf (course_in self.now pid.now) (course_in other.now pid.now) }
    {
        same_course(self.courses.of(pid), other.courses.of(pid))
    }

    /// Whether one process lives in both or in neither, and traps exits in both or in neither. It takes no memory.
    pub fn is_same_flags(&self, pid: &Pid, other: &Processes<'_>) -> bool
        ensures lives { result ≡ true → lives_in self.now pid.now ≡ lives_in other.now pid.now }
        ensures traps { result ≡ true → traps_in self.now pid.now ≡ traps_in other.now pid.now }
    {
        if self.lives(pid) != other.lives(pid) {
            return false;
        }
        self.trapping.has(pid) == other.trapping.has(pid)
    }

    /// Feeds a hasher with the course of one process, by which a search finds what may be the same: it gives the same for
    /// courses that are. It takes no memory.
    pub fn feed_course<H: Hasher>(&self, pid: &Pid, state: &mut H) {
        if let Some(course) = self.courses.of(pid) {
            course.feed(state);
        }
    }

    /// Feeds a hasher with whether one process lives and whether it traps exits, by which a search finds what may be the
    /// same. It takes no memory.
    pub fn feed_flags<H: Hasher>(&self, pid: &Pid, state: &mut H) {
        self.lives(pid).hash(state);
        self.trapping.has(pid).hash(state);
    }

    /// Takes over how far one process has come, with its machine, from other processes, and shares it with them; which
    /// processes live and trap exits stays, and so do the other courses. `AllocError` if there is no memory: then the
    /// processes may be changed in part, and the caller drops them.
    pub fn take_course(&mut self, pid: &Pid, other: &Processes<'m>) -> Result<(), AllocError>
        ensures ok { OnOk result (TakesCourse pid.now other.now self.old self.new) }
    {
        self.courses.take_from(pid, &other.courses)?;
        Ok(())
    }

    /// Takes over from other processes whether one process lives and whether it traps exits; how far it has come stays,
    /// and all of the others stays. `AllocError` if there is no memory: then the processes may be changed in part, and
    /// the caller drops them.
    pub fn take_flags(&mut self, pid: &Pid, other: &Processes<'_>) -> Result<(), AllocError>
        ensures ok { OnOk result (TakesFlags pid.now other.now self.old self.new) }
    {
        self.living.take_from(pid, &other.living)?;
        self.trapping.take_from(pid, &other.trapping)?;
        Ok(())
    }

    /// Whether a process lives: it was begun and has not ended. It takes no memory.
    pub fn lives(&self, pid: &Pid) -> bool
        ensures { result ≡ lives_in self.now pid.now }
    {
        self.living.has(pid)
    }

    /// Those that live. It takes no memory.
    pub fn living(&self) -> &BTreeSet<Pid>
        ensures { (p : names.Pid) → contains order_of_lists result.now p ≡ lives_in self.now p }
    {
        self.living.all()
    }

    /// What exit signals are to a process (the Erlang manual, `process_flag/2`). It takes no memory.
    pub fn exits(&self, pid: &Pid) -> Exits
        ensures { are_trapped result ≡ traps_in self.now pid.now }
    {
        if self.trapping.has(pid) {
            Exits::Trapped
        } else {
            Exits::Untrapped
        }
    }

    /// How many turns a process took. It takes no memory.
    pub fn turns(&self, pid: &Pid) -> u64
        ensures { result ≡ turns_in self.now pid.now }
    {
        turns_of(self.courses.of(pid))
    }

    /// The number of the next turn of a process, by which what it creates in that turn is named. `AllocError` where no
    /// number is left.
    pub fn next_number(&self, pid: &Pid) -> Result<u64, AllocError>
        ensures { IfOk result (λ number. number ≡ turns_in self.now pid.now + 1) }
    {
        let number = next_turn(self.courses.of(pid))?;
        Ok(number)
    }

    // The machine of a process, until it ends.
    fn machine(&self, pid: &Pid) -> Option<&Machine<'m>>
        ensures stands { option_copied result ≡ standing_in self.now pid.now }
        ensures there { (m : ModuleTree) (v : Contents) → Agrees m self.now v → is_some result ≡ lives_in self.now pid.now }
    {
        machine_of(self.courses.of(pid))
    }

    /// What a process asks, if it lives. It takes no memory.
    pub fn request(&self, pid: &Pid) -> Option<&Request>
        ensures asked { IsRequestOf self.now pid.now (option_map (λ request. request_with (selects_in self.now pid.now) (told_by request.now)) result) }
        ensures there { (m : ModuleTree) (v : Contents) → Agrees m self.now v → is_some result ≡ lives_in self.now pid.now }
    {
        let machine = self.machine(pid)?;
        Some(machine.request())
    }

    /// What takes the messages that the receive of a process selects, if the process lives. It takes no memory.
    pub fn receiver<'a>(&'a self, pid: &Pid) -> Option<Receiver<'a, 'm>>
        ensures selects { IfSome result (λ receiver. taken_by receiver ≡ selects_in self.now pid.now) }
        ensures there { (m : ModuleTree) (v : Contents) → Agrees m self.now v → is_some result ≡ lives_in self.now pid.now }
    {
        let machine = self.machine(pid)?;
        Some(Receiver { machine })
    }

    /// A process begins, with a function of a module and its arguments, which are taken over (the Erlang manual,
    /// `spawn/3`), and runs to its first request. `AllocError` if there is no memory, and then nothing is changed.
    pub fn begin(
        &mut self,
        alloc: Global,
        child: &Pid,
        module_name: &Atom,
        function_name: &Atom,
        arguments: Terms,
    ) -> Result<(), AllocError>
        ensures ok { OnOk result ((m : ModuleTree) (v : Contents) → Agrees m self.old v →
            Agrees m self.new (after (changes_begun child.now (Spawned module_name.now function_name.now arguments)) v)) }
        ensures err { OnErr result (IsUnchanged self.old self.new) }
    {
        let machine = start(
            alloc,
            self.program,
            child.copy()?,
            module_name,
            function_name,
            arguments,
        )?;
        let course = Course {
            machine: Some(machine),
            turns: 0,
        };
        let mut living = self.living.copy()?;
        living.put(child)?;
        self.courses.put(alloc, child, course)?;
        self.living = living;
        Ok(())
    }

    /// A process takes a turn, and runs on with what it is answered. `AllocError` if there is no memory, or no
    /// number for the turn, and then nothing is changed.
    pub fn turn(&mut self, alloc: Global, pid: &Pid, answer: Answer) -> Result<(), AllocError>
        ensures ok { OnOk result ((m : ModuleTree) (v : Contents) → Agrees m self.old v →
            Agrees m self.new (after (TurnTaken pid.now (answered_of answer ∷ []) ∷ []) v)) }
        ensures err { OnErr result (IsUnchanged self.old self.new) }
    {
        let course = answered(alloc, self.courses.of(pid), answer)?;
        self.courses.put(alloc, pid, course)?;
        Ok(())
    }

    // Gives a process its last course, with which it no longer lives.
    fn close(&mut self, alloc: Global, pid: &Pid, course: Course<'m>) -> Result<(), AllocError>
        ensures ok { OnOk result (IsClosed pid.now course.entry self.old self.new) }
        ensures err { OnErr result (IsUnchanged self.old self.new) }
    {
        let mut living = self.living.copy()?;
        living.take(pid)?;
        self.courses.put(alloc, pid, course)?;
        self.living = living;
        Ok(())
    }

    /// A process ends by a turn of its own, and its machine is dropped (Erlang reference manual, "Processes": "Process
    /// Termination"). `AllocError` if there is no memory, or no number for the turn, and then nothing is changed.
    pub fn end(&mut self, alloc: Global, pid: &Pid) -> Result<(), AllocError>
        ensures ok { OnOk result ((m : ModuleTree) (v : Contents) (reason : Meaning) → Agrees m self.old v →
            Agrees m self.new (after (TurnTaken pid.now [] ∷ MachineHalted pid.now reason ∷ AliveCleared pid.now ∷ []) v)) }
        ensures err { OnErr result (IsUnchanged self.old self.new) }
    {
        let course = ended(self.courses.of(pid))?;
        self.close(alloc, pid, course)?;
        Ok(())
    }

    /// A process is ended by a signal, without a turn, and its machine is dropped (Erlang reference manual,
    /// "Processes": "Receiving Exit Signals"). `AllocError` if there is no memory, and then nothing is changed.
    pub fn kill(&mut self, alloc: Global, pid: &Pid) -> Result<(), AllocError>
        ensures ok { OnOk result ((m : ModuleTree) (v : Contents) (reason : Meaning) → Agrees m self.old v →
            Agrees m self.new (after (MachineHalted pid.now reason ∷ AliveCleared pid.now ∷ []) v)) }
        ensures err { OnErr result (IsUnchanged self.old self.new) }
    {
        let course = killed(self.courses.of(pid));
        self.close(alloc, pid, course)?;
        Ok(())
    }

    /// Exit signals are messages to a process from now on, or end it (the Erlang manual, `process_flag/2`).
    /// `AllocError` if there is no memory, and then nothing is changed.
    pub fn set_trap(&mut self, pid: &Pid, exits: Exits) -> Result<(), AllocError>
        ensures ok { OnOk result ((m : ModuleTree) (v : Contents) → Agrees m self.old v →
            Agrees m self.new (after (TrapSet pid.now (are_trapped exits) ∷ []) v)) }
        ensures err { OnErr result (IsUnchanged self.old self.new) }
    {
        match exits {
            Exits::Trapped => self.trapping.put(pid)?,
            Exits::Untrapped => self.trapping.take(pid)?,
        }
        Ok(())
    }
}
