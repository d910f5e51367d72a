// The two lines of a finding, what is shown and the schedule that shows it, each by itself.
ghost use Rattle.std.specs.Prelude.{◌≡◌, ◌++◌, MatchOption, IfErr, codes};
ghost use Rattle.std.specs.Fmt.{decimal};
ghost use Rattle.world_identities.specs.Identities.{identity_in};
ghost use Rattle.report_reader.specs.inside.Reading.{HasNoFront, IsHigh, IsNever, Reads, SaysIdentity, SaysSchedule, StopsInLine, stop_of};

use crate::fault::Stop;
use crate::numbers::behind_number;
use crate::pieces::{behind, split_at};
use report_identities::{IdentityFault, read_identity};
use std::alloc::Global;
use term_core::{ScheduleFault, Step, read_schedule};
use world_identities::Identity;

// Where reading stops at a text that is no identity, or is nested too deep.
fn stop_of(fault: IdentityFault, left: usize) -> Stop
    ensures { result ≡ stop_of fault left }
{
    match fault {
        IdentityFault::BadIdentity => Stop::Bad(left),
        IdentityFault::TooDeep => Stop::Deep(left),
        IdentityFault::Memory => Stop::Memory,
    }
}

/// Reads what a schedule shows, to the end of the line.
pub(crate) fn read_identity_line<'t>(
    alloc: Global,
    text: &'t [u8],
) -> Result<(Identity, &'t [u8]), Stop>
    ensures reads { Reads identity_in IsHigh (SaysIdentity text.now) result }
    ensures stops { IfErr result (λ stop. StopsInLine text.now stop) }
{
    let Some((line, rest)) = split_at(text, b'\n') else {
        return Err(Stop::Bad(text.len()));
    };
    match read_identity(alloc, line) {
        Ok(identity) => Ok((identity, rest)),
        Err(fault) => Err(stop_of(fault, text.len())),
    }
}

/// Reads a schedule after two blanks, to the end of the line.
pub(crate) fn read_schedule_line<'t>(
    alloc: Global,
    text: &'t [u8],
) -> Result<(Vec<Step>, &'t [u8]), Stop>
    ensures reads { Reads (λ schedule. schedule.items) IsNever (SaysSchedule text.now) result }
    ensures stops { IfErr result (λ stop. StopsInLine text.now stop) }
{
    let Some(inside) = behind(text, b"  ") else {
        return Err(Stop::Bad(text.len()));
    };
    let Some((line, rest)) = split_at(inside, b'\n') else {
        return Err(Stop::Bad(text.len()));
    };
    match read_schedule(alloc, line) {
        Ok(schedule) => Ok((schedule, rest)),
        Err(ScheduleFault::BadStep(_)) => Err(Stop::Bad(text.len())),
        Err(ScheduleFault::Memory) => Err(Stop::Memory),
    }
}

/// What follows the number of a finding.
pub(crate) fn behind_label(text: &[u8], number: u64) -> Option<&[u8]>
    ensures { MatchOption result (HasNoFront (decimal number ++ codes ": ") text.now) (λ rest. text.now ≡ (decimal number ++ codes ": ") ++ rest.now) }
{
    let rest = behind_number(text, number)?;
    behind(rest, b": ")
}
