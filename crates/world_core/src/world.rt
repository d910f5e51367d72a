// The world of one schedule.
ghost use Rattle.std.specs.Prelude.{◌≡◌, ◌↔◌, ◌∷◌, ◌++◌, [], true, false, Some, None, IfOk, OnOk, OnErr, IfErr, IsErr, IfNone, IfSome, IsSome, MatchResult, Contains, option_map, map};
ghost use Rattle.world_identities.specs.Identities.{identity_in};
ghost use Rattle.term_core.specs.declared.step.Step.{Step};
ghost use Rattle.world_core.specs.Advanced.{Advances};
ghost use Rattle.world_core.specs.Seen.{new_world, program_in};
ghost use Rattle.world_core.specs.declared.fault.WorldFault.TheVariants.{NotEnabled, Memory};
ghost use Rattle.world_model.specs.Run.{enabled_steps, extended, latest, next_event, run, schedule_of};
ghost use Rattle.world_model.specs.Shown.{shown, shown_at_rest, shown_last};
ghost use Rattle.world_model.specs.StepLaws.{AreInOrder};
ghost use Rattle.world_model.specs.World.{alive, contents};
ghost use Rattle.world_records.specs.Records.{Agrees};
ghost use Rattle.world_footprints.specs.Deeds.{event_in};
ghost use Rattle.world_footprints.specs.Footprints.{IsPlan};

use crate::events::Events;
use crate::fault::WorldFault;
use crate::shows::shown_by_world;
use core_tree::Module;
use std::alloc::{AllocError, Global};
use std::marker::Model;
use term_core::{Pid, Step};
use world_identities::Identity;
use world_plans::{Event, Plan, copy_deed, perform, plan_step};
use world_records::Records;
use world_steps::enabled_steps;

/// A world: what the processes of a module, their signals and their tables are after what happened so far, and what
/// happened. Contracts see the module, the events, the latest first, and whether memory ran out once; all else is
/// determined by the events. Copies share all of it until one of them takes a step.
pub struct World<'m> {
    program: &'m Module,
    records: Records<'m>,
    events: Events,
    is_spent: bool,
}

// Dropped by a call, so that no crate above proves again how.
impl Drop for World<'_> {
    fn drop(self) {
        let World {
            program: _,
            records: _,
            events: _,
            is_spent: _,
        } = self;
    }
}

impl<'m> Model for World<'m> {
    ghost use Rattle.std.specs.Prelude.{◌≡◌, false};
    ghost use Rattle.world_core.specs.Seen.{Seen, coded_seen};

    ghost Value = { Seen };

    ghost coded = { coded_seen };

    ghost use Rattle.world_core.specs.inside.Worlds.{IsWorld};
    ghost use Rattle.world_core.specs.Shared.{events_in};

    ghost view = { λ w. record { program = w.program.now; history = events_in w.events; spent = w.is_spent } };

    ghost invariant = { λ w. w.is_spent ≡ false → IsWorld w.program.now (events_in w.events) w.records };
}

impl<'m> World<'m> {
    /// The world of a module before anything happened: its first process is at its first request.
    ///
    /// # Errors
    ///
    /// `Memory` where memory ran out.
    pub fn open(alloc: Global, program: &'m Module) -> Result<World<'m>, WorldFault>
        ensures { MatchResult result (λ world. world ≡ new_world program.now) (λ fault. fault ≡ Memory) }
    {
        Ok(World {
            program,
            records: Records::open(alloc, program)?,
            events: Events::Nothing,
            is_spent: false,
        })
    }

    /// The same world, which shares memory with this one. It is one step for each of its parts, whatever they hold and
    /// however much happened.
    ///
    /// # Errors
    ///
    /// `Memory` where the copies can no longer be counted, or memory ran out in an earlier step.
    pub fn copy(&self) -> Result<World<'m>, WorldFault>
        ensures copied { IfOk result (λ copied. copied ≡ self.now) }
        ensures memory { IfErr result (λ fault. fault ≡ Memory) }
        ensures spent { self.now.spent ≡ true → IsErr result }
    {
        if self.is_spent {
            // A spent world is not copied.
            return Err(WorldFault::Memory);
        }
        Ok(World {
            program: self.program,
            records: self.records.copy()?,
            events: self.events.copy()?,
            is_spent: false,
        })
    }

    /// The steps that are enabled, in their order: turns of processes that live and need not wait, and then deliveries
    /// of signals to processes that live.
    ///
    /// # Errors
    ///
    /// `Memory` where memory ran out, now or in an earlier step.
    pub fn enabled(&self, alloc: Global) -> Result<Vec<Step>, WorldFault>
        ensures listed { IfOk result (λ steps. steps.items ≡ enabled_steps (program_in self.now) self.now.history) }
        ensures memory { IfErr result (λ fault. fault ≡ Memory) }
        ensures spent { self.now.spent ≡ true → IsErr result }
    {
        if self.is_spent {
            // A spent world does not show what is enabled.
            return Err(WorldFault::Memory);
        }
        let steps = enabled_steps(&self.records, alloc)?;
        Ok(steps)
    }

    /// Takes a step: the one event that it adds is the last one then.
    ///
    /// # Errors
    ///
    /// `NotEnabled` where there is no such event, and then the world is unchanged; `Memory` where memory ran out, now
    /// or in an earlier step: the world is spent, and every later call answers `Memory`.
    pub fn step(&mut self, alloc: Global, step: &Step) -> Result<(), WorldFault>
        ensures ok { OnOk result (extended self.old.history (next_event (program_in self.old) self.old.history step.now) ≡ Some self.new.history) }
        ensures lives { OnOk result (self.new.spent ≡ false) }
        ensures program { self.new.program ≡ self.old.program }
        ensures not_enabled { result ≡ Err NotEnabled → next_event (program_in self.old) self.old.history step.now ≡ None }
        ensures unchanged { result ≡ Err NotEnabled → self.new ≡ self.old }
        ensures only { self.old.spent ≡ false → next_event (program_in self.old) self.old.history step.now ≡ None → IsErr result }
        ensures spent { result ≡ Err Memory → self.new.spent ≡ true }
        ensures kept { OnErr result (self.new.history ≡ self.old.history) }
        ensures stays_spent { self.old.spent ≡ true → result ≡ Err Memory }
    {
        if self.is_spent {
            // A spent world stays spent.
            return Err(WorldFault::Memory);
        }
        match self.plan(alloc, step) {
            Ok(Some(plan)) => self.perform(alloc, &plan),
            Ok(None) => Err(WorldFault::NotEnabled),
            Err(error) => {
                self.is_spent = true;
                Err(WorldFault::from(error))
            }
        }
    }

    // The plan of a step; none where its process does not live, and then the step is not enabled.
    fn plan(&self, alloc: Global, step: &Step) -> Result<Option<Plan>, AllocError>
        requires lives { self.now.spent ≡ false }
        ensures step { IfOk result (λ planned. IfSome planned (λ plan. plan.step ≡ step.now)) }
        ensures plan { IfOk result (λ planned. IfSome planned (λ plan. IsPlan (program_in self.now) (contents self.now.history) plan)) }
        ensures none { IfOk result (λ planned. IfNone planned (next_event (program_in self.now) self.now.history step.now ≡ None)) }
    {
        plan_step(&self.records, alloc, step.copy()?)
    }

    /// Takes the step of a plan that was made of a world with this history: what is planned is done, and the one event that
    /// it adds is the last one then.
    ///
    /// # Errors
    ///
    /// As `step` has them.
    pub fn perform(&mut self, alloc: Global, plan: &Plan) -> Result<(), WorldFault>
        requires plan { IsPlan (program_in self.old) (contents self.old.history) plan.now }
        ensures ok { OnOk result (extended self.old.history (next_event (program_in self.old) self.old.history plan.now.step) ≡ Some self.new.history) }
        ensures lives { OnOk result (self.new.spent ≡ false) }
        ensures program { self.new.program ≡ self.old.program }
        ensures not_enabled { result ≡ Err NotEnabled → next_event (program_in self.old) self.old.history plan.now.step ≡ None }
        ensures unchanged { result ≡ Err NotEnabled → self.new ≡ self.old }
        ensures only { self.old.spent ≡ false → next_event (program_in self.old) self.old.history plan.now.step ≡ None → IsErr result }
        ensures spent { result ≡ Err Memory → self.new.spent ≡ true }
        ensures kept { OnErr result (self.new.history ≡ self.old.history) }
        ensures stays_spent { self.old.spent ≡ true → result ≡ Err Memory }
    {
        if self.is_spent {
            // A spent world stays spent.
            return Err(WorldFault::Memory);
        }
        let Some(deed) = &plan.deed else {
            return Err(WorldFault::NotEnabled);
        };
        self.is_spent = true;
        perform(&mut self.records, alloc, plan)?;
        let event = Event {
            step: plan.step.copy()?,
            deed: copy_deed(deed)?,
        };
        let before = self.events.copy()?;
        self.events = before.with(alloc, event)?;
        self.is_spent = false;
        Ok(())
    }

    /// Takes one step after the other.
    ///
    /// # Errors
    ///
    /// `NotEnabled` at the first step that is not enabled, with its place, counted from 1: the steps before it were
    /// taken. `Memory` where memory ran out, with the place of the step then, or 1 where it ran out before: the world
    /// is spent.
    pub fn advance(&mut self, alloc: Global, steps: &[Step]) -> Result<(), (u64, WorldFault)>
        ensures advanced { Advances self.old steps.now result self.new }
        ensures program { self.new.program ≡ self.old.program }
        ensures stays_spent { self.old.spent ≡ true → result ≡ Err (1, Memory) }
    {
        if self.is_spent {
            // A spent world stays spent.
            return Err((1, WorldFault::Memory));
        }
        for (index, step) in steps.iter().enumerate() {
            match self.step(alloc, step) {
                Ok(()) => {}
                Err(fault) => return Err((index as u64 + 1, fault)),
            }
        }
        Ok(())
    }

    /// The event that happened last, if anything did. It takes no memory.
    pub fn last_event(&self) -> Option<&Event>
        ensures event { option_map (λ event. event_in event.now) result ≡ latest (Some self.now.history) }

        // The events are the history of their steps.
        ensures is_run { self.now.spent ≡ false → run (program_in self.now) (schedule_of self.now.history) ≡ Some self.now.history }
    {
        self.events.latest()
    }

    /// What the world shows, its errors and its refusal: by its last event the end of a process with another reason
    /// than `normal`, a process that made too many applications without a request, or a refused call of a table; and
    /// where no step is enabled the deadlock of those that live, and what they leave unread, where the first process is
    /// not among them (`Identity::is_error` and `Identity::is_refusal` say which is which).
    ///
    /// # Errors
    ///
    /// `Memory` where memory ran out, now or in an earlier step.
    pub fn errors_here(&self, alloc: Global) -> Result<Vec<Identity>, WorldFault>
        ensures shown { IfOk result (λ found. map identity_in found.items ≡ shown (program_in self.now) self.now.history) }
        ensures memory { IfErr result (λ fault. fault ≡ Memory) }
        ensures spent { self.now.spent ≡ true → IsErr result }
    {
        let enabled = self.enabled(alloc)?;
        let found = self.errors_among(alloc, enabled.as_slice())?;
        Ok(found)
    }

    /// The same for a caller that has the enabled steps, as `enabled` gives them. With other steps, it answers a
    /// deadlock, and what is unread, exactly where the list is empty and some process lives.
    ///
    /// # Errors
    ///
    /// `Memory` where memory ran out, now or in an earlier step.
    pub fn errors_among(&self, alloc: Global, enabled: &[Step]) -> Result<Vec<Identity>, WorldFault>
        ensures shown { IfOk result (λ found. map identity_in found.items ≡ shown_last self.now.history ++ shown_at_rest enabled.now self.now.history) }
        ensures memory { IfErr result (λ fault. fault ≡ Memory) }
        ensures spent { self.now.spent ≡ true → IsErr result }
    {
        if self.is_spent {
            // What a spent world shows is not known.
            return Err(WorldFault::Memory);
        }
        let found = shown_by_world(&self.records, alloc, self.events.latest(), enabled)?;
        Ok(found)
    }

    /// The parts of the world, which are what the history leaves: processes, mailboxes, signals on their way, links,
    /// watches, names and tables. Of a spent world they may be anything. It takes no memory.
    pub fn records(&self) -> &Records<'m>
        ensures { self.now.spent ≡ false → Agrees self.now.program result.now (contents self.now.history) }
    {
        &self.records
    }

    /// Whether a process lives; of a spent world that may be either. It takes no memory.
    pub fn alive(&self, pid: &Pid) -> bool
        ensures { self.now.spent ≡ false → result ≡ alive self.now.history pid.now }
    {
        self.records.processes().lives(pid)
    }
}
