// The reports of a whole text, read one after another and put together.
ghost use Rattle.std.specs.Prelude.{◌≡◌, ◌∷◌, IfErr, IfOk, MatchResult};
ghost use Rattle.tree_excuses.specs.Excuses.{excuses_in};
ghost use Rattle.world_identities.specs.Identities.{flags_in};
ghost use Rattle.report_reader.specs.BadLines.{NamesFirstBadLine};
ghost use Rattle.report_reader.specs.Lawful.{HasLine};
ghost use Rattle.report_reader.specs.Merged.{AreReportsOf, MayRefuseAll, WhereReports, fault_of_merge, merged_all};
ghost use Rattle.tree_findings.specs.declared.outcome.Outcome.{Outcome};

use crate::fault::{MergeFault, ReportFault};
use crate::merging::merge_outcomes;
use crate::places::fault_of;
use crate::reading::read_first;
use std::alloc::Global;
use tree_excuses::Excuses;
use tree_findings::Outcome;
use world_identities::Flags;

// What is answered where outcomes cannot be put together.
fn fault_of_merge(fault: MergeFault) -> ReportFault
    ensures { result ≡ fault_of_merge fault }
{
    match fault {
        MergeFault::TooManyNodes => ReportFault::TooManyNodes,
        MergeFault::Memory => ReportFault::Memory,
    }
}

/// What the reports of a whole text, at least one and one after another, result in. Where a depth is given for the
/// first, that is its depth, and the other depth that of all others; else all are of one depth.
///
/// # Errors
///
/// `BadLine` with the first line, counted from 1 through the whole text, that reports of these depths, these flags and
/// these excuses cannot have after the lines before it; a text without a report is bad at line 1. `TooDeep` with the line of a term in which
/// more than 10,000 brackets and braces are open; `TooManyNodes` where the nodes of the reports are 2^64 or more;
/// `Memory` where there was no memory for what is read. What was read is dropped.
pub fn merge_reports(
    alloc: Global,
    above: Option<u64>,
    depth: u64,
    flags: Flags,
    excuses: &Excuses,
    text: &[u8],
) -> Result<Outcome, ReportFault>
    // The text is that of reports, and the answer is what they result in.
    ensures ok { IfOk result (λ whole. AreReportsOf above depth (flags_in flags) (excuses_in excuses.now) text.now whole) }

    // Reports are read as what they result in, unless a term is too deep, they have too many nodes, or memory runs out.
    ensures only { WhereReports above depth (flags_in flags) (excuses_in excuses.now) text.now (λ first rest.
        MatchResult result (λ whole. whole ≡ merged_all first rest) (λ fault. MayRefuseAll (first ∷ rest) fault)) }

    // The line of a fault is one of the text.
    ensures line { IfErr result (λ fault. HasLine text.now fault) }

    // A bad line is the first that reports cannot have.
    ensures first_bad { IfErr result (λ fault. NamesFirstBadLine above depth (flags_in flags) (excuses_in excuses.now) text.now fault) }
{
    let (mut whole, mut rest) = match read_first(
        alloc,
        above.unwrap_or(depth),
        flags,
        excuses,
        text,
    ) {
        Ok((outcome, rest)) => (outcome, rest),
        Err(stop) => return Err(fault_of(text, stop)),
    };
    'reports: while !rest.is_empty() {
        let (outcome, next) = match read_first(alloc, depth, flags, excuses, rest) {
            Ok((outcome, next)) => (outcome, next),
            Err(stop) => return Err(fault_of(text, stop)),
        };
        whole = match merge_outcomes(whole, outcome) {
            Ok(both) => both,
            Err(fault) => return Err(fault_of_merge(fault)),
        };
        rest = next;
    }
    Ok(whole)
}
