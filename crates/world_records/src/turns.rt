// Turns of processes, and processes that begin (Erlang reference manual, "Processes").
ghost use Rattle.std.specs.Prelude.{◌≡◌, ◌∷◌, ◌+◌, [], IfOk, OnOk};
ghost use Rattle.core_eval.specs.Requests.{answered_of};
ghost use Rattle.core_tree.specs.Syntax.{ModuleTree};
ghost use Rattle.proc_machines.specs.Processes.{turns_in};
ghost use Rattle.term_core.specs.Meaning.{Meaning};
ghost use Rattle.world_model.specs.Cells.{Contents};
ghost use Rattle.world_model.specs.Changes.{after, MachineStarted, AliveCleared, MachineHalted, AliveSet, TurnTaken};
ghost use Rattle.world_model.specs.Requests.{Spawned};
ghost use Rattle.world_records.specs.Records.{Agrees, Follows, processes_of};

use crate::records::Records;
use core_eval::Answer;
use std::alloc::{AllocError, Global};
use term_core::{Atom, Pid, Terms};

impl<'m> Records<'m> {
    /// The number of the next turn of a process, by which what it creates then is named. `AllocError` where no number
    /// is left.
    pub fn next_number(&self, pid: &Pid) -> Result<u64, AllocError>
        ensures { IfOk result (λ number. number ≡ turns_in (processes_of self.now) pid.now + 1) }
    {
        let number = self.processes.next_number(pid)?;
        Ok(number)
    }

    /// A process takes a turn, and runs on with what it is answered. `AllocError` if there is no memory.
    pub fn turn(&mut self, alloc: Global, pid: &Pid, answer: Answer) -> Result<(), AllocError>
        ensures { OnOk result (Follows (λ v. TurnTaken pid.now (answered_of answer ∷ []) ∷ []) self.old self.new) }
    {
        self.processes.turn(alloc, pid, answer)?;
        Ok(())
    }

    /// A process takes its last turn, ends, and no longer lives; what else its end leaves is not done. `AllocError` if
    /// there is no memory.
    pub fn end_turn(&mut self, alloc: Global, pid: &Pid) -> Result<(), AllocError>
        ensures { OnOk result ((m : ModuleTree) (v : Contents) (reason : Meaning) → Agrees m self.old v → Agrees m self.new (after (TurnTaken pid.now [] ∷ MachineHalted pid.now reason ∷ AliveCleared pid.now ∷ []) v)) }
    {
        self.processes.end(alloc, pid)?;
        Ok(())
    }

    /// A process begins with a function of a module and its arguments, and runs to its first request (erlang manual,
    /// `spawn/3`). `AllocError` if there is no memory.
    pub(crate) fn begin(
        &mut self,
        alloc: Global,
        child: &Pid,
        module_name: &Atom,
        function_name: &Atom,
        arguments: Terms,
    ) -> Result<(), AllocError>
        ensures { OnOk result (Follows (λ v. MachineStarted child.now (Spawned module_name.now function_name.now arguments) ∷ AliveSet child.now ∷ []) self.old self.new) }
    {
        self.processes
            .begin(alloc, child, module_name, function_name, arguments)?;
        Ok(())
    }
}
