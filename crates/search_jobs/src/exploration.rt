// What is explored.
ghost use Rattle.std.specs.Prelude.{◌≡◌};
ghost use Rattle.world_identities.specs.Identities.{flags_in};
ghost use Rattle.search_jobs.specs.Explorations.{exploration_in};

use core_tree::Module;
use tree_findings::Options;
use world_identities::Flags;

/// A module, how many steps a schedule may have, and what counts as an error.
#[derive(Clone, Copy)]
pub struct Exploration<'m> {
    /// The module.
    pub program: &'m Module,
    /// How many steps a schedule may have.
    pub depth: u64,
    /// What counts as an error.
    pub flags: Flags,
}

impl<'m> Exploration<'m> {
    /// The exploration of a module that is asked for by the options.
    pub fn of(program: &'m Module, options: &Options) -> Exploration<'m>
        ensures { exploration_in result ≡ record { program = program.now; depth = options.now.depth; flags = flags_in options.now.flags } }
    {
        Exploration {
            program,
            depth: options.depth,
            flags: options.flags,
        }
    }
}
