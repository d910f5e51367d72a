// The first and the last line where a report is explained. No write takes memory.
ghost use Rattle.std.specs.Prelude.{◌≡◌, ◌++◌, false};
ghost use Rattle.term_core.specs.Stream.{Writes};
ghost use Rattle.tree_excuses.specs.Excuses.{counted, excuses_in};
ghost use Rattle.report_text.specs.ReportText.{complete_result, explained_extent_by, explained_first_line_by, explained_last_line, explained_result, text_of_all_reached, text_of_complete_and_cuts, text_of_depth_reached, text_of_reach};

use crate::report::{write_complete_by, write_complete_result, write_incomplete_by};
use crate::visited::{Visited, write_schedules};
use term_core::{Sink, WriteFault, write_all, write_number};
use tree_excuses::Excuses;
use tree_findings::{Extent, FindingList, Outcome};

/// Writes the first line of an explained report: how many steps a schedule may have, and how far the exploration
/// came; where all nodes or states were visited, also at how many of them the depth cuts off what could follow.
/// `WriteFault` comes only where the sink has failed, and then a beginning of the line was written. It takes no memory.
pub fn write_explained_first_line<W: Sink>(
    sink: &mut W,
    visited: Visited,
    depth: u64,
    outcome: &Outcome,
) -> Result<(), WriteFault>
    requires { W.has_failed sink.old ≡ false }
    ensures { Writes (W.contents sink.old) (W.contents sink.new) (W.has_failed sink.new) result (explained_first_line_by visited depth outcome.now) }
{
    write_all(sink, b"depth ")?;
    write_number(depth, sink)?;
    write_all(sink, b", ")?;
    write_explained_extent(sink, visited, outcome)?;
    write_all(sink, b"\n")
}

// Writes how far the exploration came.
fn write_explained_extent<W: Sink>(
    sink: &mut W,
    visited: Visited,
    outcome: &Outcome,
) -> Result<(), WriteFault>
    requires { W.has_failed sink.old ≡ false }
    ensures { Writes (W.contents sink.old) (W.contents sink.new) (W.has_failed sink.new) result (explained_extent_by visited outcome.now) }
{
    match outcome {
        Outcome::Complete(_, extent) => write_complete_and_cuts(sink, visited, *extent),
        Outcome::Incomplete(cause, _) => write_incomplete_by(sink, visited, *cause),
    }
}

// Writes that all were visited, how many they are, and at how many of them the depth cuts off what could follow.
fn write_complete_and_cuts<W: Sink>(
    sink: &mut W,
    visited: Visited,
    extent: Extent,
) -> Result<(), WriteFault>
    requires { W.has_failed sink.old ≡ false }
    ensures { Writes (W.contents sink.old) (W.contents sink.new) (W.has_failed sink.new) result (text_of_complete_and_cuts visited extent) }
{
    write_complete_by(sink, visited, extent.nodes)?;
    write_all(sink, b", cut ")?;
    write_number(extent.cut, sink)
}

/// Writes the last line of an explained report: the result, by the errors that count, and where all nodes or states were
/// visited, which schedules it is about: all, where the depth cuts off nothing, and else those up to the depth. Where
/// signals were delivered at once, all are all prompt schedules. `WriteFault` comes only where the sink has failed, and
/// then a beginning of the line was written. It takes no memory.
pub fn write_explained_last_line<W: Sink>(
    sink: &mut W,
    visited: Visited,
    depth: u64,
    excuses: &Excuses,
    outcome: &Outcome,
) -> Result<(), WriteFault>
    requires { W.has_failed sink.old ≡ false }
    ensures { Writes (W.contents sink.old) (W.contents sink.new) (W.has_failed sink.new) result (explained_last_line visited depth (excuses_in excuses.now) outcome.now) }
{
    write_all(sink, b"result: ")?;
    write_explained_result(sink, visited, depth, excuses, outcome)?;
    write_all(sink, b"\n")
}

// Writes the result.
fn write_explained_result<W: Sink>(
    sink: &mut W,
    visited: Visited,
    depth: u64,
    excuses: &Excuses,
    outcome: &Outcome,
) -> Result<(), WriteFault>
    requires { W.has_failed sink.old ≡ false }
    ensures { Writes (W.contents sink.old) (W.contents sink.new) (W.has_failed sink.new) result (explained_result visited depth (excuses_in excuses.now) outcome.now) }
{
    match outcome {
        Outcome::Complete(findings, extent) => {
            write_reached_result(sink, visited, depth, *extent, excuses, findings.errors())
        }
        Outcome::Incomplete(_, _) => write_all(sink, b"incomplete"),
    }
}

// Writes the result where all nodes were visited, and which schedules it is about.
fn write_reached_result<W: Sink>(
    sink: &mut W,
    visited: Visited,
    depth: u64,
    extent: Extent,
    excuses: &Excuses,
    errors: &FindingList,
) -> Result<(), WriteFault>
    requires { W.has_failed sink.old ≡ false }
    ensures { Writes (W.contents sink.old) (W.contents sink.new) (W.has_failed sink.new) result (complete_result (counted (excuses_in excuses.now) errors.now) ++ text_of_reach visited depth extent) }
{
    write_complete_result(sink, excuses, errors)?;
    write_reach(sink, visited, depth, extent)
}

// Writes which schedules the result is about.
fn write_reach<W: Sink>(
    sink: &mut W,
    visited: Visited,
    depth: u64,
    extent: Extent,
) -> Result<(), WriteFault>
    requires { W.has_failed sink.old ≡ false }
    ensures { Writes (W.contents sink.old) (W.contents sink.new) (W.has_failed sink.new) result (text_of_reach visited depth extent) }
{
    if extent.cut == 0 {
        write_all_reached(sink, visited)
    } else {
        write_depth_reached(sink, depth)
    }
}

// Writes that the result is about all schedules that deliver signals as those that were followed.
fn write_all_reached<W: Sink>(sink: &mut W, visited: Visited) -> Result<(), WriteFault>
    requires { W.has_failed sink.old ≡ false }
    ensures { Writes (W.contents sink.old) (W.contents sink.new) (W.has_failed sink.new) result (text_of_all_reached visited) }
{
    write_all(sink, b", all ")?;
    write_schedules(sink, visited.delivery())
}

// Writes that the result is about schedules up to the depth.
fn write_depth_reached<W: Sink>(sink: &mut W, depth: u64) -> Result<(), WriteFault>
    requires { W.has_failed sink.old ≡ false }
    ensures { Writes (W.contents sink.old) (W.contents sink.new) (W.has_failed sink.new) result (text_of_depth_reached depth) }
{
    write_all(sink, b" to depth ")?;
    write_number(depth, sink)
}
