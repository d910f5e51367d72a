// The first line, the line of sums and the last line. No write takes memory.
ghost use Rattle.std.specs.Prelude.{◌≡◌, false};
ghost use Rattle.term_core.specs.Stream.{Writes};
ghost use Rattle.tree_excuses.specs.Excuses.{counted, excuses_in};
ghost use Rattle.report_text.specs.ReportText.{delivery_in};
ghost use Rattle.report_terms.specs.TermsReport.{complete_as_term, complete_line, counts_line, delivery_as_term, depth_as_term, explored_line, extent_as_term, reach_as_term, result_line, sample_result_as_term, sample_result_line, sampled_line, states_cause_as_term, stopped_as_term, stopped_states_as_term, stopped_tree_as_term, tree_cause_as_term, visited_as_term};

use report_text::{Sampled, Visited, write_complete_result};
use term_core::{Sink, WriteFault, write_all, write_number};
use tree_excuses::{Excuses, Standing};
use tree_findings::{Cause, Extent, FindingList, Findings, Outcome};
use tree_schedules::Delivery;

/// Writes the first line of a report of an exploration: how many steps a schedule may have, when signals are delivered, and
/// how far the exploration came.
pub(crate) fn write_explored<W: Sink>(
    visited: Visited,
    depth: u64,
    outcome: &Outcome,
    sink: &mut W,
) -> Result<(), WriteFault>
    requires { W.has_failed sink.old ≡ false }
    ensures { Writes (W.contents sink.old) (W.contents sink.new) (W.has_failed sink.new) result (explored_line visited depth outcome.now) }
{
    write_all(sink, b"{explored,")?;
    write_number(depth, sink)?;
    write_all(sink, b",")?;
    write_delivery_of(visited, sink)?;
    write_all(sink, b",")?;
    write_extent(visited, outcome, sink)?;
    write_all(sink, b"}.\n")
}

// Writes when signals are delivered in the schedules that the report is about.
fn write_delivery_of<W: Sink>(visited: Visited, sink: &mut W) -> Result<(), WriteFault>
    requires { W.has_failed sink.old ≡ false }
    ensures { Writes (W.contents sink.old) (W.contents sink.new) (W.has_failed sink.new) result (delivery_as_term (delivery_in visited)) }
{
    match visited {
        Visited::Nodes => write_delivery(Delivery::AnyTime, sink),
        Visited::States { delivery, .. } => write_delivery(delivery, sink),
    }
}

// Writes a delivery.
fn write_delivery<W: Sink>(delivery: Delivery, sink: &mut W) -> Result<(), WriteFault>
    requires { W.has_failed sink.old ≡ false }
    ensures { Writes (W.contents sink.old) (W.contents sink.new) (W.has_failed sink.new) result (delivery_as_term delivery) }
{
    match delivery {
        Delivery::AnyTime => write_all(sink, b"any_time"),
        Delivery::AtOnce => write_all(sink, b"at_once"),
    }
}

// Writes how far the exploration came.
fn write_extent<W: Sink>(
    visited: Visited,
    outcome: &Outcome,
    sink: &mut W,
) -> Result<(), WriteFault>
    requires { W.has_failed sink.old ≡ false }
    ensures { Writes (W.contents sink.old) (W.contents sink.new) (W.has_failed sink.new) result (extent_as_term visited outcome.now) }
{
    match outcome {
        Outcome::Complete(_, extent) => write_complete(visited, *extent, sink),
        Outcome::Incomplete(cause, _) => write_stopped(visited, *cause, sink),
    }
}

// Writes how many nodes or states were visited, and at how many of them the depth cuts off what could follow.
fn write_complete<W: Sink>(visited: Visited, extent: Extent, sink: &mut W) -> Result<(), WriteFault>
    requires { W.has_failed sink.old ≡ false }
    ensures { Writes (W.contents sink.old) (W.contents sink.new) (W.has_failed sink.new) result (complete_as_term visited extent) }
{
    write_all(sink, b"{")?;
    write_visited(visited, sink)?;
    write_all(sink, b",")?;
    write_number(extent.nodes, sink)?;
    write_all(sink, b",")?;
    write_number(extent.cut, sink)?;
    write_all(sink, b"}")
}

// Writes what was visited.
fn write_visited<W: Sink>(visited: Visited, sink: &mut W) -> Result<(), WriteFault>
    requires { W.has_failed sink.old ≡ false }
    ensures { Writes (W.contents sink.old) (W.contents sink.new) (W.has_failed sink.new) result (visited_as_term visited) }
{
    match visited {
        Visited::Nodes => write_all(sink, b"nodes"),
        Visited::States { .. } => write_all(sink, b"states"),
    }
}

// Writes that the exploration stopped before its end, and why.
fn write_stopped<W: Sink>(visited: Visited, cause: Cause, sink: &mut W) -> Result<(), WriteFault>
    requires { W.has_failed sink.old ≡ false }
    ensures { Writes (W.contents sink.old) (W.contents sink.new) (W.has_failed sink.new) result (stopped_as_term visited cause) }
{
    match visited {
        Visited::Nodes => write_stopped_tree(cause, sink),
        Visited::States { whole_to, .. } => write_stopped_states(cause, whole_to, sink),
    }
}

// Writes that an exploration of the tree stopped before its end, and why.
fn write_stopped_tree<W: Sink>(cause: Cause, sink: &mut W) -> Result<(), WriteFault>
    requires { W.has_failed sink.old ≡ false }
    ensures { Writes (W.contents sink.old) (W.contents sink.new) (W.has_failed sink.new) result (stopped_tree_as_term cause) }
{
    write_all(sink, b"{stopped,")?;
    write_tree_cause(cause, sink)?;
    write_all(sink, b"}")
}

// Writes why an exploration of the tree stopped.
fn write_tree_cause<W: Sink>(cause: Cause, sink: &mut W) -> Result<(), WriteFault>
    requires { W.has_failed sink.old ≡ false }
    ensures { Writes (W.contents sink.old) (W.contents sink.new) (W.has_failed sink.new) result (tree_cause_as_term cause) }
{
    match cause {
        Cause::NodeLimit => write_all(sink, b"node_limit"),
        Cause::Memory => write_all(sink, b"memory"),
    }
}

// Writes that a search of states stopped before its end, why, and of how many steps at most all schedules were followed.
fn write_stopped_states<W: Sink>(
    cause: Cause,
    whole_to: u64,
    sink: &mut W,
) -> Result<(), WriteFault>
    requires { W.has_failed sink.old ≡ false }
    ensures { Writes (W.contents sink.old) (W.contents sink.new) (W.has_failed sink.new) result (stopped_states_as_term cause whole_to) }
{
    write_all(sink, b"{stopped,")?;
    write_states_cause(cause, sink)?;
    write_all(sink, b",")?;
    write_number(whole_to, sink)?;
    write_all(sink, b"}")
}

// Writes why a search of states stopped.
fn write_states_cause<W: Sink>(cause: Cause, sink: &mut W) -> Result<(), WriteFault>
    requires { W.has_failed sink.old ≡ false }
    ensures { Writes (W.contents sink.old) (W.contents sink.new) (W.has_failed sink.new) result (states_cause_as_term cause) }
{
    match cause {
        Cause::NodeLimit => write_all(sink, b"state_limit"),
        Cause::Memory => write_all(sink, b"memory"),
    }
}

/// Writes the first line of a report of random schedules: how many steps each may have, how many were followed, and the
/// seed that they are of.
pub(crate) fn write_sampled<W: Sink>(sampled: Sampled, sink: &mut W) -> Result<(), WriteFault>
    requires { W.has_failed sink.old ≡ false }
    ensures { Writes (W.contents sink.old) (W.contents sink.new) (W.has_failed sink.new) result (sampled_line sampled) }
{
    write_all(sink, b"{sampled,")?;
    write_number(sampled.depth, sink)?;
    write_all(sink, b",")?;
    write_number(sampled.runs, sink)?;
    write_all(sink, b",")?;
    write_number(sampled.seed, sink)?;
    write_all(sink, b"}.\n")
}

/// Writes the line of sums: how many errors count, how many refusals there are, and how many errors are taken as normal.
pub(crate) fn write_counts<W: Sink>(
    excuses: &Excuses,
    findings: &Findings,
    sink: &mut W,
) -> Result<(), WriteFault>
    requires { W.has_failed sink.old ≡ false }
    ensures { Writes (W.contents sink.old) (W.contents sink.new) (W.has_failed sink.new) result (counts_line (excuses_in excuses.now) findings.now) }
{
    let errors = findings.errors();
    let counted = excuses.count(Standing::Counts, errors) as u64;
    let refusals = findings.refusals().len() as u64;
    let taken = excuses.count(Standing::Normal, errors) as u64;
    write_all(sink, b"{counts,")?;
    write_number(counted, sink)?;
    write_all(sink, b",")?;
    write_number(refusals, sink)?;
    write_all(sink, b",")?;
    write_number(taken, sink)?;
    write_all(sink, b"}.\n")
}

/// Writes the last line of a report of an exploration: the result, by the errors that count, and which schedules it is
/// about.
pub(crate) fn write_result<W: Sink>(
    depth: u64,
    excuses: &Excuses,
    outcome: &Outcome,
    sink: &mut W,
) -> Result<(), WriteFault>
    requires { W.has_failed sink.old ≡ false }
    ensures { Writes (W.contents sink.old) (W.contents sink.new) (W.has_failed sink.new) result (result_line depth (excuses_in excuses.now) outcome.now) }
{
    match outcome {
        Outcome::Complete(findings, extent) => {
            write_result_of_all(depth, *extent, excuses, findings.errors(), sink)
        }
        Outcome::Incomplete(_, _) => write_all(sink, b"{result,incomplete}.\n"),
    }
}

// Writes the result where all nodes or states were visited.
fn write_result_of_all<W: Sink>(
    depth: u64,
    extent: Extent,
    excuses: &Excuses,
    errors: &FindingList,
    sink: &mut W,
) -> Result<(), WriteFault>
    requires { W.has_failed sink.old ≡ false }
    ensures { Writes (W.contents sink.old) (W.contents sink.new) (W.has_failed sink.new) result (complete_line depth extent (counted (excuses_in excuses.now) errors.now)) }
{
    write_all(sink, b"{result,")?;
    write_complete_result(sink, excuses, errors)?;
    write_all(sink, b",")?;
    write_reach(depth, extent, sink)?;
    write_all(sink, b"}.\n")
}

// Writes which schedules the result is about.
fn write_reach<W: Sink>(depth: u64, extent: Extent, sink: &mut W) -> Result<(), WriteFault>
    requires { W.has_failed sink.old ≡ false }
    ensures { Writes (W.contents sink.old) (W.contents sink.new) (W.has_failed sink.new) result (reach_as_term depth extent) }
{
    if extent.cut == 0 {
        write_all(sink, b"all")
    } else {
        write_depth(depth, sink)
    }
}

// Writes that the result is about schedules up to the depth.
fn write_depth<W: Sink>(depth: u64, sink: &mut W) -> Result<(), WriteFault>
    requires { W.has_failed sink.old ≡ false }
    ensures { Writes (W.contents sink.old) (W.contents sink.new) (W.has_failed sink.new) result (depth_as_term depth) }
{
    write_all(sink, b"{depth,")?;
    write_number(depth, sink)?;
    write_all(sink, b"}")
}

/// Writes the last line of a report of random schedules: whether they show errors that count. Where they do not, nothing
/// is said of other schedules.
pub(crate) fn write_sample_result<W: Sink>(
    excuses: &Excuses,
    findings: &Findings,
    sink: &mut W,
) -> Result<(), WriteFault>
    requires { W.has_failed sink.old ≡ false }
    ensures { Writes (W.contents sink.old) (W.contents sink.new) (W.has_failed sink.new) result (sample_result_line (excuses_in excuses.now) findings.now) }
{
    let errors = findings.errors();
    write_all(sink, b"{result,")?;
    write_found(excuses, errors, sink)?;
    write_all(sink, b"}.\n")
}

// Writes whether random schedules show errors that count.
fn write_found<W: Sink>(
    excuses: &Excuses,
    errors: &FindingList,
    sink: &mut W,
) -> Result<(), WriteFault>
    requires { W.has_failed sink.old ≡ false }
    ensures { Writes (W.contents sink.old) (W.contents sink.new) (W.has_failed sink.new) result (sample_result_as_term (counted (excuses_in excuses.now) errors.now)) }
{
    if excuses.count(Standing::Counts, errors) == 0 {
        write_all(sink, b"nothing_found")
    } else {
        write_all(sink, b"errors")
    }
}
