// Reports that are put together, from the bytes that the program is given to the report that it writes.
ghost use Rattle.program_runs.specs.Ends.{WritesNothing, IsRefusedBefore, IsHandedOn};
ghost use Rattle.std.specs.Prelude.{◌≡◌, ◌==◌, true, false, IfSome, OnOk, Err};
ghost use Rattle.tree_excuses.specs.Excuses.{excuses_in};
ghost use Rattle.world_identities.specs.Identities.{flags_in};
ghost use Rattle.program_runs.specs.Input.{IsUnread};
ghost use Rattle.program_runs.specs.MergeRuns.{ComesToTree, IsMergeOf, depth_above};
ghost use Rattle.program_runs.specs.Status.{status_of};

use crate::input::read_whole;
use crate::printing::{verdict_of, write_and_flush};
use crate::verdict::{RunFault, Verdict};
use report_reader::merge_reports;
use std::alloc::Global;
use term_core::{Sink, Source};
use tree_excuses::Excuses;
use world_identities::Flags;

/// Reads reports from the source, one after another, and writes the one that they are merged into to the sink, which is
/// flushed: each identity once, with the least of its schedules, and all nodes; incomplete where one of them is, for
/// the cause of the first. They are plain reports of explorations to one depth under these flags and excuses: first
/// that of the tree above the jobs, to one step less than their depth, unless that is 0, and then those of jobs. Where
/// all jobs at that depth have theirs, in whatever order, it is the report of the tree. The reports do not say how many
/// jobs there are, so the caller has to ensure that none is missing.
///
/// # Errors
///
/// `Report` where the bytes are no such reports, with the line, where they have too many nodes, or where there was no
/// memory for what they result in; `Input` where there was no memory for the bytes, `ReadFailed` where the source
/// cannot be read, and then nothing was written. `Output` where the sink has failed, at a write or at the flush: then a
/// beginning of the report was written.
pub fn run_merge<R: Source, W: Sink>(
    alloc: Global,
    source: &mut R,
    depth: u64,
    at: u64,
    flags: Flags,
    excuses: &Excuses,
    sink: &mut W,
) -> Result<Verdict, RunFault>
    requires readable { R.has_failed source.old ≡ false }
    requires writable { W.has_failed sink.old ≡ false }

    // Where the source reports its bytes.
    ensures run { IfSome (R.remaining source.old) (λ input.
        IsMergeOf input depth at (flags_in flags) (excuses_in excuses.now) (W.contents sink.old) (W.contents sink.new) (W.has_failed sink.new) result) }
    ensures tree { IfSome (R.remaining source.old) (λ input.
        ComesToTree input depth at (flags_in flags) (excuses_in excuses.now) (W.contents sink.old) (W.contents sink.new) (W.has_failed sink.new) result) }

    // Whether or not it does.
    ensures silent { IsRefusedBefore result → WritesNothing (W.contents sink.old) (W.contents sink.new) (W.has_failed sink.new) }
    ensures read_failed { result ≡ Err RunFault.ReadFailed → IsUnread (R.remaining source.old) (R.has_failed source.new) }
    // The source has not failed else.
    ensures sound { (result ≡ Err RunFault.ReadFailed → ⊥) → R.has_failed source.new ≡ false }
    ensures output_failed { result ≡ Err RunFault.Output → W.has_failed sink.new ≡ true }
    // Status 4 comes where the sink has failed, and only there.
    ensures failed { W.has_failed sink.new ≡ (status_of result == 4) }
    ensures flushed { IsHandedOn result (W.is_flushed sink.new) }
{
    let text = read_whole(alloc, source)?;
    let outcome = merge_reports(alloc, depth_above(at), depth, flags, excuses, &text)?;
    write_and_flush(sink, depth, excuses, &outcome)?;
    Ok(verdict_of(excuses, &outcome))
}

// The depth of the tree above jobs at a depth; at depth 0 there is nothing above.
fn depth_above(at: u64) -> Option<u64>
    ensures { result ≡ depth_above at }
{
    at.checked_sub(1)
}
