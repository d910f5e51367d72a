// All findings of one kind, as they are listed in a report.
ghost use Rattle.std.specs.Prelude.{◌≡◌, ◌↔◌, ◌+◌, ◌<◌, ◌^◌, length, IfErr, IsTrue};
ghost use Rattle.tree_excuses.specs.Excuses.{excuses_in};
ghost use Rattle.world_identities.specs.Identities.{flags_in, identity_in};
ghost use Rattle.report_reader.specs.Lawful.{HasHigh};
ghost use Rattle.report_reader.specs.inside.Reading.{AllComeBefore, EndsFindings, IsHigh, Reads, ReadsOn, SaysFindings, SaysShown, StopsInLine};

use crate::fault::Stop;
use crate::finding_lines::{behind_label, read_identity_line, read_schedule_line};
use crate::kinds::Kind;
use crate::pieces::behind;
use std::alloc::Global;
use tree_excuses::Excuses;
use tree_findings::{Finding, FindingList};
use world_identities::{Flags, Identity};

// The number of the next finding, counted from 1.
fn next_number(found: &FindingList) -> u64
    ensures number { result ≡ length found.now + 1 }
    ensures room { length found.now + 1 < 2 ^ 64 }
{
    found.as_slice().len() as u64 + 1
}

// Whether an identity comes after all that were found.
fn comes_last(found: &FindingList, identity: &Identity) -> bool
    ensures { IsTrue result ↔ AllComeBefore found.now (identity_in identity.now) }
{
    match found.as_slice().last() {
        Some(finding) => finding.identity.cmp(identity).is_lt(),
        None => true,
    }
}

// Reads what the next finding of a kind shows, after the name of its kind, to the end of the line.
fn read_shown<'t>(
    alloc: Global,
    kind: Kind,
    flags: Flags,
    excuses: &Excuses,
    found: &FindingList,
    text: &'t [u8],
) -> Result<(Identity, &'t [u8]), Stop>
    ensures reads { Reads identity_in IsHigh (SaysShown kind (flags_in flags) (excuses_in excuses.now) found.now text.now) result }
    ensures stops { IfErr result (λ stop. StopsInLine text.now stop) }
    ensures room { length found.now + 1 < 2 ^ 64 }
{
    let Some(shown) = behind_label(text, next_number(found)) else {
        return Err(Stop::Bad(text.len()));
    };
    let (identity, rest) = read_identity_line(alloc, shown)?;
    if !kind.is_of(flags, excuses, &identity) {
        return Err(Stop::Bad(text.len()));
    }
    if !comes_last(found, &identity) {
        return Err(Stop::Bad(text.len()));
    }
    Ok((identity, rest))
}

/// Reads all findings of a kind, as far as they are listed.
pub(crate) fn read_findings<'t>(
    alloc: Global,
    kind: Kind,
    flags: Flags,
    excuses: &Excuses,
    text: &'t [u8],
) -> Result<(FindingList, &'t [u8]), Stop>
    ensures { ReadsOn (λ found. found) HasHigh (EndsFindings kind) (SaysFindings kind (flags_in flags) (excuses_in excuses.now)) text.now result }
{
    let label = kind.label();
    let mut found = FindingList::new(alloc);
    let mut rest = text;
    'findings: while let Some(next) = behind(rest, label) {
        let (identity, below) = read_shown(alloc, kind, flags, excuses, &found, next)?;
        let (schedule, behind) = read_schedule_line(alloc, below)?;
        found.put(Finding { identity, schedule })?;
        rest = behind;
    }
    Ok((found, rest))
}
