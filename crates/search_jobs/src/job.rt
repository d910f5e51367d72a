// Jobs: a node, and all nodes below it.
ghost use Rattle.std.specs.Prelude.{◌≡◌, IfOk};
ghost use Rattle.tree_coverage.specs.Jobs.{root};
ghost use Rattle.world_identities.specs.Identities.{flags_in};
ghost use Rattle.search_jobs.specs.Explorations.{exploration_in};
ghost use Rattle.search_jobs.specs.Reached.{IsJob};

use crate::exploration::Exploration;
use crate::names::JobName;
use core_tree::Module;
use std::alloc::{AllocError, Global};
use std::marker::Model;
use tree_findings::Options;

/// A job: a node of the tree of schedules, and all nodes below it. It holds its exploration, its name, and the number of
/// its ticket, 0 while it has none. It holds no world, so that nothing of one goes from thread to thread.
pub struct Job<'m> {
    exploration: Exploration<'m>,
    name: JobName,
    number: u64,
}

// Dropped by a call, so that no crate above proves again how.
impl Drop for Job<'_> {
    fn drop(self) {
        let Job {
            exploration: _,
            name: _,
            number: _,
        } = self;
    }
}

impl<'m> Model for Job<'m> {
    ghost use Rattle.search_jobs.specs.Explorations.{JobSeen, exploration_in};
    ghost use Rattle.search_jobs.specs.inside.Codes.{coded_job};
    ghost use Rattle.search_jobs.specs.Reached.{IsJob};

    ghost Value = { JobSeen };

    ghost coded = { coded_job };

    ghost view = { λ j. record { exploration = exploration_in j.exploration; name = j.name; number = j.number } };

    ghost invariant = { λ j. IsJob (exploration_in j.exploration) j.name };
}

impl<'m> Job<'m> {
    /// The job of the whole tree: no step is taken yet, and none sleeps. It takes no memory.
    pub fn root(alloc: Global, program: &'m Module, options: &Options) -> Job<'m>
        ensures { result ≡ record {
          exploration = record { program = program.now; depth = options.now.depth; flags = flags_in options.now.flags };
          name = root;
          number = 0;
        } }
    {
        Job {
            exploration: Exploration::of(program, options),
            name: JobName {
                prefix: Vec::new(alloc),
                slept: Vec::new(alloc),
            },
            number: 0,
        }
    }

    /// The job of a node with its name, which is one of the exploration. It has no ticket.
    pub fn of_node(exploration: Exploration<'m>, name: JobName) -> Job<'m>
        requires { IsJob (exploration_in exploration) name }
        ensures { result ≡ record { exploration = exploration_in exploration.entry; name = name; number = 0 } }
    {
        Job {
            exploration,
            name,
            number: 0,
        }
    }

    /// What is explored.
    pub fn exploration(&self) -> Exploration<'m>
        ensures { exploration_in result ≡ self.now.exploration }
    {
        self.exploration
    }

    /// What the job is called.
    pub fn name(&self) -> &JobName
        ensures { result.now ≡ self.now.name }
    {
        &self.name
    }

    /// What the job is called; the rest of it is let go.
    pub fn into_name(self) -> JobName
        ensures { result ≡ self.entry.name }
    {
        let Job {
            exploration: _,
            name,
            number: _,
        } = self;
        name
    }

    /// The number of its ticket, 0 if it has none.
    pub fn number(&self) -> u64
        ensures { result ≡ self.now.number }
    {
        self.number
    }

    /// Gives it the number of a ticket.
    pub fn set_number(&mut self, number: u64)
        ensures { self.new ≡ record { exploration = self.old.exploration; name = self.old.name; number = number } }
    {
        self.number = number;
    }

    /// The same job, or `AllocError` if there is no memory for it.
    pub fn copy(&self, alloc: Global) -> Result<Job<'m>, AllocError>
        ensures { IfOk result (λ copied. copied ≡ self.now) }
    {
        Ok(Job {
            exploration: self.exploration,
            name: self.name.copy(alloc)?,
            number: self.number,
        })
    }

    /// The same job, whose name shares no memory with this one, or `AllocError` if there is no memory for it.
    pub fn own(&self, alloc: Global) -> Result<Job<'m>, AllocError>
        ensures { IfOk result (λ own. own ≡ self.now) }
    {
        Ok(Job {
            exploration: self.exploration,
            name: self.name.own(alloc)?,
            number: self.number(),
        })
    }

    /// Its name is that of a node of what is explored: its schedule runs, and has no more steps than the depth. It changes
    /// nothing.
    pub fn names_a_node(&self)
        ensures { IsJob self.now.exploration self.now.name }
    {
        let _number = self.number;
    }
}
