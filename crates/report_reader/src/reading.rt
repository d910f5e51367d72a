// Reports read back from their texts.
ghost use Rattle.std.specs.Prelude.{◌≡◌, IfOk};
ghost use Rattle.tree_excuses.specs.Excuses.{excuses_in};
ghost use Rattle.world_identities.specs.Identities.{flags_in};
ghost use Rattle.tree_findings.specs.declared.outcome.Outcome.{Outcome};
ghost use Rattle.report_reader.specs.Lawful.{IsTooHigh};
ghost use Rattle.report_reader.specs.inside.Reading.{Anything, EndsLists, ListsAreHigh, ReadsEnd, ReadsOn, SaysLists, SaysReport, lists_in, outcome_of};

use crate::ends::{behind_counts, behind_result};
use crate::fault::Stop;
use crate::first_line::{Reach, read_first_line};
use crate::kinds::Kind;
use crate::lists::read_findings;
use std::alloc::{AllocError, Global};
use tree_excuses::Excuses;
use tree_findings::{Extent, FindingList, Findings, Outcome};
use world_identities::Flags;

/// What a report lists.
#[derive(Drop)]
struct Listed {
    /// The errors that count.
    errors: FindingList,
    /// The refusals.
    refusals: FindingList,
    /// The errors that are taken as normal.
    normal: FindingList,
}

// Reads the three lists of a report.
fn read_lists<'t>(
    alloc: Global,
    flags: Flags,
    excuses: &Excuses,
    text: &'t [u8],
) -> Result<(Listed, &'t [u8]), Stop>
    ensures { ReadsOn lists_in ListsAreHigh EndsLists (SaysLists (flags_in flags) (excuses_in excuses.now)) text.now result }
{
    let (errors, rest) = read_findings(alloc, Kind::Error, flags, excuses, text)?;
    let (refusals, rest) = read_findings(alloc, Kind::Refusal, flags, excuses, rest)?;
    let (normal, rest) = read_findings(alloc, Kind::Normal, flags, excuses, rest)?;
    Ok((
        Listed {
            errors,
            refusals,
            normal,
        },
        rest,
    ))
}

// What follows the last two lines of a report that came so far and lists this.
fn read_end<'t>(
    excuses: &Excuses,
    reach: Reach,
    listed: &Listed,
    text: &'t [u8],
) -> Result<&'t [u8], Stop>
    ensures { ReadsEnd (excuses_in excuses.now) reach (lists_in listed.now) text.now result }
{
    let errors = listed.errors.len();
    let refusals = listed.refusals.len();
    let normal = listed.normal.len();
    let Some(last) = behind_counts(text, excuses, errors, refusals, normal) else {
        return Err(Stop::Bad(text.len()));
    };
    let Some(rest) = behind_result(last, reach, errors) else {
        return Err(Stop::Bad(last.len()));
    };
    Ok(rest)
}

// The outcome that came so far and lists this.
fn outcome_of(reach: Reach, listed: Listed) -> Result<Outcome, AllocError>
    ensures { IfOk result (λ outcome. outcome ≡ outcome_of reach (lists_in listed)) }
{
    let Listed {
        mut errors,
        refusals,
        normal,
    } = listed;
    errors.merge(normal)?;
    let findings = Findings::of(errors, refusals);
    match reach {
        Reach::Whole(nodes) => Ok(Outcome::Complete(findings, Extent { nodes, cut: 0 })),
        Reach::Stopped(cause) => Ok(Outcome::Incomplete(cause, findings)),
    }
}

/// Reads the report at the beginning of a text, as `write_report` writes it, and gives what follows it. The depth, the
/// flags and the excuses are those of the exploration: what counts as an error and what is taken as normal is not in
/// the text, and the errors of both kinds are put together. Nor does it say at how many nodes the tree is cut, which is
/// read as 0.
pub(crate) fn read_first<'t>(
    alloc: Global,
    depth: u64,
    flags: Flags,
    excuses: &Excuses,
    text: &'t [u8],
) -> Result<(Outcome, &'t [u8]), Stop>
    ensures { ReadsOn (λ outcome. outcome) IsTooHigh Anything (SaysReport depth (flags_in flags) (excuses_in excuses.now)) text.now result }
{
    let Some((reach, rest)) = read_first_line(depth, text) else {
        return Err(Stop::Bad(text.len()));
    };
    let (listed, rest) = read_lists(alloc, flags, excuses, rest)?;
    let rest = read_end(excuses, reach, &listed, rest)?;
    let outcome = outcome_of(reach, listed)?;
    Ok((outcome, rest))
}
