// The names of jobs.
ghost use Rattle.std.specs.Prelude.{◌≡◌, IfOk};

use std::alloc::{AllocError, Global};
use std::marker::Model;
use term_core::{Pid, Step};
use tree_findings::copy_schedule;

/// What a job is called: the steps that lead to its node, and those that sleep there.
pub struct JobName {
    /// The steps that lead to its node.
    pub prefix: Vec<Step>,
    /// The steps that sleep there.
    pub slept: Vec<Step>,
}

// Dropped by a call, so that no crate above proves again how.
impl Drop for JobName {
    fn drop(self) {
        let JobName {
            prefix: _,
            slept: _,
        } = self;
    }
}

impl Model for JobName {
    ghost use Rattle.tree_coverage.specs.Jobs.{Job};
    ghost use Rattle.search_jobs.specs.inside.Codes.{coded_name};

    ghost Value = { Job };

    ghost coded = { coded_name };

    ghost view = { λ n. record { prefix = n.prefix.items; slept = n.slept.items } };
}

/// A job that was handed out.
pub struct Ticket {
    /// Its number, 0 for a job that was not handed out.
    pub number: u64,
    /// What the job is called.
    pub name: JobName,
}

// Dropped by a call, so that no crate above proves again how.
impl Drop for Ticket {
    fn drop(self) {
        let Ticket { number: _, name: _ } = self;
    }
}

impl Model for Ticket {
    ghost use Rattle.search_jobs.specs.Explorations.{TicketSeen};
    ghost use Rattle.search_jobs.specs.inside.Codes.{coded_ticket};

    ghost Value = { TicketSeen };

    ghost coded = { coded_ticket };

    ghost view = { λ t. record { number = t.number; name = t.name } };
}

// A process with memory of its own, or `AllocError` if there is no memory for it.
fn own_pid(alloc: Global, pid: &Pid) -> Result<Pid, AllocError>
    ensures { IfOk result (λ own. own ≡ pid.now) }
{
    let numbers = Vec::from_slice(alloc, pid.numbers())?;
    Pid::new(alloc, numbers)
}

// A step with memory of its own, or `AllocError` if there is no memory for it.
fn own_step(alloc: Global, step: &Step) -> Result<Step, AllocError>
    ensures { IfOk result (λ own. own ≡ step.now) }
{
    match step {
        Step::Turn(pid) => Ok(Step::Turn(own_pid(alloc, pid)?)),
        Step::Deliver(from, to) => Ok(Step::Deliver(own_pid(alloc, from)?, own_pid(alloc, to)?)),
    }
}

// Steps with memory of their own, or `AllocError` if there is no memory for them.
fn own_steps(alloc: Global, steps: &[Step]) -> Result<Vec<Step>, AllocError>
    ensures { IfOk result (λ own. own.items ≡ steps.now) }
{
    let mut own = Vec::with_capacity(alloc, steps.len())?;
    for step in steps {
        own.push(own_step(alloc, step)?)?;
    }
    Ok(own)
}

impl JobName {
    /// The same name, or `AllocError` if there is no memory for it.
    pub fn copy(&self, alloc: Global) -> Result<JobName, AllocError>
        ensures { IfOk result (λ copied. copied ≡ self.now) }
    {
        Ok(JobName {
            prefix: copy_schedule(alloc, self.prefix.as_slice())?,
            slept: copy_schedule(alloc, self.slept.as_slice())?,
        })
    }

    /// The same name, which shares no memory with this one, or `AllocError` if there is no memory for it.
    pub fn own(&self, alloc: Global) -> Result<JobName, AllocError>
        ensures { IfOk result (λ own. own ≡ self.now) }
    {
        Ok(JobName {
            prefix: own_steps(alloc, self.prefix.as_slice())?,
            slept: own_steps(alloc, self.slept.as_slice())?,
        })
    }
}

impl Ticket {
    /// The same ticket, or `AllocError` if there is no memory for it.
    pub fn copy(&self, alloc: Global) -> Result<Ticket, AllocError>
        ensures { IfOk result (λ copied. copied ≡ self.now) }
    {
        Ok(Ticket {
            number: self.number,
            name: self.name.copy(alloc)?,
        })
    }
}
