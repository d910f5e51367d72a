// What can stop a replay.
ghost use Rattle.std.specs.Prelude.{◌≡◌};
ghost use Rattle.world_replay.specs.declared.replay_fault.ReplayFault.TheVariants.{Write as WriteFailed};

use term_core::WriteFault;

/// Why a replay did not reach its end.
#[derive(Clone, Copy, Debug, PartialEq, Eq)]
pub enum ReplayFault {
    /// The step of this place in the schedule, counted from 1, is not enabled. The lines of the steps
    /// before it were written.
    NotEnabled(usize),
    /// There was no memory. A beginning of the lines was written.
    Memory,
    /// A line could not be written or flushed. A beginning of the lines was.
    Write,
}

impl From<WriteFault> for ReplayFault {
    ghost from_gives = { λ _ fault. fault ≡ WriteFailed };

    fn from(_fault: WriteFault) -> ReplayFault {
        ReplayFault::Write
    }
}
