// The standing of an error that was found: whether it counts, or is taken as normal.
ghost use Rattle.std.specs.Prelude.{◌≡◌};
ghost use Rattle.world_identities.specs.Identities.{identity_in};
ghost use Rattle.tree_excuses.specs.Excuses.{excuses_in, stands};

use crate::excuses::Excuses;
use world_identities::Identity;

/// The standing of an error that was found.
#[derive(Clone, Copy)]
pub enum Standing {
    /// It counts.
    Counts,
    /// It is excused, and so taken as normal.
    Normal,
}

impl Standing {
    /// Whether an error has this standing: it counts where it is not excused, and is normal where it is. It takes no
    /// memory.
    pub fn is_of(self, excuses: &Excuses, error: &Identity) -> bool
        ensures { result ≡ stands (excuses_in excuses.now) self (identity_in error.now) }
    {
        match self {
            Standing::Counts => !excuses.excuses(error),
            Standing::Normal => excuses.excuses(error),
        }
    }
}
