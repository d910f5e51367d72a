// Schedules as text: the steps with one blank between them.
ghost use Rattle.std.specs.Prelude.{◌≡◌, ℕ, ◌<◌, List, length, IfOk, IsErrOf, MatchResult};
ghost use Rattle.term_core.specs.Schedule.{AreLawful, IsFirstBadStep};
ghost use Rattle.term_core.specs.Text.{text_of_schedule};
ghost use Rattle.term_core.specs.declared.step.Step.{Step};

mod words;

use crate::schedule::words::{read_step, split_before};
use crate::step::Step;
use std::alloc::{AllocError, AllocFailed, Global};
use thiserror::Error;

/// Why bytes are no schedule, or cannot be read as one.
#[derive(Clone, Copy, Debug, PartialEq, Eq, Error)]
pub enum ScheduleFault {
    /// The first byte, counted from 0, of the first step that is not one.
    #[error("1 BadStep at {0}")]
    BadStep(usize),
    /// There was no memory.
    #[error("2 Memory")]
    Memory,
}

impl From<AllocError> for ScheduleFault {
    ghost use Rattle.term_core.specs.declared.schedule.ScheduleFault.TheVariants.{Memory};

    ghost from_gives = { λ _ fault. fault ≡ Memory };

    fn from(_error: AllocError) -> ScheduleFault {
        ScheduleFault::Memory
    }
}

impl<T: Drop> From<AllocFailed<T>> for ScheduleFault {
    ghost use Rattle.term_core.specs.declared.schedule.ScheduleFault.TheVariants.{Memory};

    ghost from_gives = { λ _ fault. fault ≡ Memory };

    fn from(_error: AllocFailed<T>) -> ScheduleFault {
        ScheduleFault::Memory
    }
}

/// Reads a schedule from its text: its steps with one blank between them. The empty text is the empty
/// schedule. A step is a pid, as `P` or `P.2.1`, or a delivery, as `P.2>P`; numbers are 1 to
/// 18446744073709551615 without leading zeros.
///
/// # Errors
///
/// `BadStep` where the text is the text of no schedule, with the first byte of the first step that is
/// not one; `Memory` where there was no memory for the steps or their pids.
pub fn read_schedule(alloc: Global, text: &[u8]) -> Result<Vec<Step>, ScheduleFault>
    // What is read has this text.
    ensures ok { IfOk result (λ steps. AreLawful steps.items × (text.now ≡ text_of_schedule steps.items)) }

    // The text of a schedule is read as that schedule, unless memory runs out.
    ensures only { (steps : List Step) → AreLawful steps → text.now ≡ text_of_schedule steps
        → MatchResult result (λ read. read.items ≡ steps) (λ fault. fault ≡ ScheduleFault.Memory) }

    // A fault of the text is its first.
    ensures bad_step { (at : ℕ) → IsErrOf result (ScheduleFault.BadStep at) → IsFirstBadStep text.now at }
{
    if text.is_empty() {
        return Ok(Vec::new(alloc));
    }
    read_steps(alloc, text)
}

// Reads the steps of a text that is not empty.
fn read_steps(alloc: Global, text: &[u8]) -> Result<Vec<Step>, ScheduleFault>
    requires { 0 < length text.now }
    ensures ok { IfOk result (λ steps. AreLawful steps.items × (text.now ≡ text_of_schedule steps.items)) }
    ensures bad_step { (at : ℕ) → IsErrOf result (ScheduleFault.BadStep at) → IsFirstBadStep text.now at }
{
    let mut steps = Vec::new(alloc);
    let mut rest = text;
    'steps: loop {
        let (word, behind) = split_before(rest, b' ');
        let Some(step) = read_step(alloc, word)? else {
            return Err(ScheduleFault::BadStep(text.len() - rest.len()));
        };
        steps.push(step)?;
        let Some((_blank, next)) = behind.split_first() else {
            return Ok(steps);
        };
        rest = next;
    }
}
