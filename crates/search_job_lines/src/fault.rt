// Why a line is that of no job.
ghost use Rattle.std.specs.Prelude.{◌≡◌};

use thiserror::Error;
use world_core::WorldFault;

/// Why a line is not taken as that of a job. The faults are looked for in this order.
#[derive(Clone, Copy, Debug, PartialEq, Eq, Error)]
pub enum JobFault {
    /// No bar is in the line, with a blank before it and after it.
    #[error("1 NoBar")]
    NoBar,
    /// What comes before the first bar is no schedule: the first byte, counted from 0, of its first step that is not
    /// one.
    #[error("2 BadStep at {0}")]
    BadStep(usize),
    /// What comes after the bar is no schedule: the first byte, counted from 0 after the bar with its blanks, of its
    /// first step that is not one.
    #[error("3 BadSleeper at {0}")]
    BadSleeper(usize),
    /// The schedule has more steps than the depth.
    #[error("4 TooLong")]
    TooLong,
    /// The first step of the schedule that is not enabled, counted from 1.
    #[error("5 NotEnabled at step {0}")]
    NotEnabled(u64),
    /// The first of the sleeping steps that is not enabled after the schedule, counted from 1.
    #[error("6 NotAsleep at step {0}")]
    NotAsleep(u64),
    /// There was no memory.
    #[error("7 Memory")]
    Memory,
}

impl From<WorldFault> for JobFault {
    ghost use Rattle.search_job_lines.specs.declared.fault.JobFault.TheVariants.{Memory};

    ghost from_gives = { λ _ fault. fault ≡ Memory };

    fn from(fault: WorldFault) -> JobFault {
        match fault {
            WorldFault::NotEnabled | WorldFault::Memory => JobFault::Memory,
        }
    }
}
