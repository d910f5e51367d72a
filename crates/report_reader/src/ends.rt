// The last two lines of a report: how many findings there are of each kind, and the result.
ghost use Rattle.std.specs.Prelude.{◌≡◌, ◌++◌, MatchOption, codes};
ghost use Rattle.std.specs.Fmt.{decimal};
ghost use Rattle.tree_excuses.specs.Excuses.{excuses_in};
ghost use Rattle.report_reader.specs.inside.Reading.{HasNoFront, counts_line, normal_told, result_line, result_told};

use crate::first_line::Reach;
use crate::numbers::behind_number;
use crate::pieces::behind;
use tree_excuses::Excuses;

// What follows a label and a number.
fn behind_count<'t>(text: &'t [u8], label: &[u8], count: usize) -> Option<&'t [u8]>
    ensures { MatchOption result (HasNoFront (label.now ++ decimal count) text.now) (λ rest. text.now ≡ (label.now ++ decimal count) ++ rest.now) }
{
    let number = behind(text, label)?;
    behind_number(number, count as u64)
}

// What follows the number of errors that are taken as normal, which is written where an error may be excused.
fn behind_normal<'t>(text: &'t [u8], excuses: &Excuses, count: usize) -> Option<&'t [u8]>
    ensures { MatchOption result (HasNoFront (normal_told (excuses_in excuses.now) count) text.now) (λ rest. text.now ≡ normal_told (excuses_in excuses.now) count ++ rest.now) }
{
    if excuses.are_any() {
        behind_count(text, b", taken as normal ", count)
    } else {
        Some(text)
    }
}

/// What follows the line of these counts.
pub(crate) fn behind_counts<'t>(
    text: &'t [u8],
    excuses: &Excuses,
    errors: usize,
    refusals: usize,
    normal: usize,
) -> Option<&'t [u8]>
    ensures { MatchOption result (HasNoFront (counts_line (excuses_in excuses.now) errors refusals normal) text.now) (λ rest. text.now ≡ counts_line (excuses_in excuses.now) errors refusals normal ++ rest.now) }
{
    let text = behind_count(text, b"errors ", errors)?;
    let text = behind_count(text, b", refusals ", refusals)?;
    let text = behind_normal(text, excuses, normal)?;
    behind(text, b"\n")
}

// The word of the result, where so many errors count.
fn result_told(reach: Reach, errors: usize) -> &'static [u8]
    ensures { result.now ≡ result_told reach errors }
{
    match reach {
        Reach::Whole(_) => { if errors == 0 { b"clean" } else { b"errors" } }
        Reach::Stopped(_) => b"incomplete",
    }
}

/// What follows the line of the result.
pub(crate) fn behind_result(text: &[u8], reach: Reach, errors: usize) -> Option<&[u8]>
    ensures { MatchOption result (HasNoFront (result_line reach errors) text.now) (λ rest. text.now ≡ result_line reach errors ++ rest.now) }
{
    let word = behind(text, b"result: ")?;
    let rest = behind(word, result_told(reach, errors))?;
    behind(rest, b"\n")
}
