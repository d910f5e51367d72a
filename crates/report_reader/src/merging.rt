// What several outcomes result in.
ghost use Rattle.std.specs.Prelude.{◌≡◌, MatchOption, MatchResult};
ghost use Rattle.tree_findings.specs.Merging.{merged_findings};
ghost use Rattle.report_reader.specs.Merged.{GroupingDoesNotMatter, IsTooMany, MayFail, MergedAreLawful, OrderDoesNotMatter, merged_outcome, sum_of};

use crate::fault::MergeFault;
use tree_findings::{Extent, Findings, Outcome};

// The sums of nodes, and of those at which trees are cut, where they are below 2^64.
fn sum_of(a: Extent, b: Extent) -> Option<Extent>
    ensures { MatchOption result (IsTooMany a b) (λ sum. sum ≡ sum_of a b) }
{
    Some(Extent {
        nodes: a.nodes.checked_add(b.nodes)?,
        cut: a.cut.checked_add(b.cut)?,
    })
}

// All findings of both.
fn merge_findings(into: Findings, more: Findings) -> Result<Findings, MergeFault>
    ensures { MatchResult result (λ findings. findings ≡ merged_findings into more) (λ fault. fault ≡ MergeFault.Memory) }
{
    let mut findings = into;
    findings.merge(more)?;
    Ok(findings)
}

/// What two outcomes result in: the findings of both, each identity with its least schedule, and, where both visited
/// all their nodes, the sums of these. Where one stopped before its end, so did both, for the cause of the first that
/// did.
///
/// # Errors
///
/// `TooManyNodes` where all nodes of both, or those at which their trees are cut, are 2^64 or more; `Memory` where there
/// is no memory. What was found is dropped then.
pub fn merge_outcomes(into: Outcome, more: Outcome) -> Result<Outcome, MergeFault>
    ensures { MatchResult result (λ both. both ≡ merged_outcome into more) (λ fault. MayFail into more fault) }
{
    match (into, more) {
        (Outcome::Complete(f, a), Outcome::Complete(g, b)) => {
            let Some(extent) = sum_of(a, b) else {
                return Err(MergeFault::TooManyNodes);
            };
            Ok(Outcome::Complete(merge_findings(f, g)?, extent))
        }
        (Outcome::Complete(f, _), Outcome::Incomplete(cause, g)) => {
            Ok(Outcome::Incomplete(cause, merge_findings(f, g)?))
        }
        (Outcome::Incomplete(cause, f), Outcome::Complete(g, _)) => {
            Ok(Outcome::Incomplete(cause, merge_findings(f, g)?))
        }
        (Outcome::Incomplete(cause, f), Outcome::Incomplete(_, g)) => {
            Ok(Outcome::Incomplete(cause, merge_findings(f, g)?))
        }
    }
}

/// Outcomes that reports can be read back to result in such an outcome too. Where all nodes were visited it does not
/// depend on the order; nor, in any case, on how the merges are grouped.
pub fn outcomes_are_put_together()
    ensures lawful { MergedAreLawful }
    ensures order { OrderDoesNotMatter }
    ensures grouping { GroupingDoesNotMatter }
{}
