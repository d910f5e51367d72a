// The first line of a report: how many steps a schedule may have, and how far the exploration came.
ghost use Rattle.std.specs.Prelude.{◌≡◌, ◌++◌, ◌<◌, ◌^◌, ℕ, List, MatchOption};
ghost use Rattle.report_text.specs.ReportText.{text_of_nodes};
ghost use Rattle.report_reader.specs.inside.Reading.{HasNoFront, IsLawfulReach, IsRead, SaysReach, text_of_depth, text_of_reach};
ghost use Rattle.report_reader.specs.declared.first_line.Reach.{Reach};

use crate::numbers::behind_number;
use crate::pieces::{before, behind, split_at};
use term_reader::read_number;
use tree_findings::Cause;

/// How far an exploration came.
#[derive(Clone, Copy)]
pub(crate) enum Reach {
    /// So many nodes were visited, which are all.
    Whole(u64),
    /// It stopped for this cause.
    Stopped(Cause),
}

// What follows the depth.
fn behind_depth(text: &[u8], depth: u64) -> Option<&[u8]>
    ensures { MatchOption result (HasNoFront (text_of_depth depth) text.now) (λ rest. text.now ≡ text_of_depth depth ++ rest.now) }
{
    let number = behind(text, b"depth ")?;
    let rest = behind_number(number, depth)?;
    behind(rest, b", ")
}

// The number of nodes, where the text says that all were visited.
fn nodes_of(text: &[u8]) -> Option<u64>
    ensures { MatchOption result
        ((nodes : ℕ) → nodes < 2 ^ 64 → text.now ≡ text_of_nodes nodes → ⊥)
        (λ nodes. (nodes < 2 ^ 64) × (text.now ≡ text_of_nodes nodes)) }
{
    let number = behind(text, b"nodes ")?;
    let digits = before(number, b", complete")?;
    read_number(digits)
}

// How far an exploration came, from its text.
fn reach_of(text: &[u8]) -> Option<Reach>
    ensures { MatchOption result
        ((reach : Reach) → IsLawfulReach reach → text.now ≡ text_of_reach reach → ⊥)
        (λ reach. IsLawfulReach reach × (text.now ≡ text_of_reach reach)) }
{
    if text == b"incomplete: node limit".as_slice() {
        return Some(Reach::Stopped(Cause::NodeLimit));
    }
    if text == b"incomplete: memory".as_slice() {
        return Some(Reach::Stopped(Cause::Memory));
    }
    Some(Reach::Whole(nodes_of(text)?))
}

/// Reads the first line of a report of this depth.
pub(crate) fn read_first_line(depth: u64, text: &[u8]) -> Option<(Reach, &[u8])>
    ensures { MatchOption result
        ((reach : Reach) (rest : List ℕ) → SaysReach depth text.now reach rest → ⊥)
        (λ p. IsRead (SaysReach depth text.now) p.0 p.1.now) }
{
    let (line, rest) = split_at(text, b'\n')?;
    let reach = reach_of(behind_depth(line, depth)?)?;
    Some((reach, rest))
}
