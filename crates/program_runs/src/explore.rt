// An exploration of the program, from the bytes that it is given to the report that it writes.
ghost use Rattle.program_runs.specs.Ends.{WritesNothing, IsRefusedBefore, IsHandedOn};
ghost use Rattle.std.specs.Prelude.{◌≡◌, ◌==◌, ◌≤◌, true, false, IfSome, OnOk, Err};
ghost use Rattle.tree_excuses.specs.Excuses.{excuses_in};
ghost use Rattle.program_runs.specs.Explored.{IsCleanIfSaid, IsExplorationOf};
ghost use Rattle.program_runs.specs.Input.{IsReadWithin};
ghost use Rattle.program_runs.specs.Status.{status_of};

use crate::input::read_input;
use crate::printing::{print_and_flush, verdict_of};
use crate::searching::search_schedules;
use crate::verdict::{RunFault, Verdict};
use core_reader::laws::texts_say_one_module;
use core_reader::read_module;
use program_words::Printed;
use search_crew::Observer;
use std::alloc::Global;
use std::sync::Wait;
use std::thread::Threads;
use term_core::{Sink, Source};
use tree_excuses::Excuses;
use tree_excuses::laws::judged_are_exact;
use tree_findings::Options;

/// Reads a module from the source, searches its schedules within the options, by their tree or by states, and writes the
/// report to the sink, which is flushed at the end: each error, and each table call that is refused, that some schedule of
/// at most so many steps shows, with the least schedule of a node that shows it, or by states of all that do. Where that is asked for, the report is explained:
/// the lines of its schedule come below each, and it says whether the result is about all schedules, since none is
/// longer than the depth; or it is written as Erlang terms, one a line, which hold as much. Where that is asked for, the
/// cover of the tree follows a report without errors: the tree is gone through once more, and each line is written as its
/// node is visited. As many threads search as the options say; their number does not change what is written of a complete
/// exploration. The observer is informed of the work. Nothing is written before the search has ended.
///
/// # Errors
///
/// `Input` where the source gives no module, `ReadFailed` where it cannot be read, `Explore` where the search has no
/// outcome, and then nothing was written. `ReportCutOff` and `CoverCutOff` where there was no memory for the
/// whole report or the whole cover, and `Output` where
/// the sink has failed, at a write or at the flush: then a beginning of the report and the cover was written.
pub fn run_explore<T: Threads + Wait + Sync, R: Source, O: Observer + Sync, W: Sink>(
    rt: &T,
    alloc: Global,
    source: &mut R,
    options: &Options,
    excuses: &Excuses,
    printed: Printed,
    observer: &O,
    sink: &mut W,
) -> Result<Verdict, RunFault>
    requires readable { R.has_failed source.old ≡ false }
    requires writable { W.has_failed sink.old ≡ false }
    requires budget { 1 ≤ options.now.budget }

    // Where the source reports its bytes.
    ensures run { IfSome (R.remaining source.old) (λ input.
        IsExplorationOf input options.now (excuses_in excuses.now) printed (W.contents sink.old) (W.contents sink.new) (W.has_failed sink.new) result) }
    ensures clean { IfSome (R.remaining source.old) (λ input. IsCleanIfSaid input options.now (excuses_in excuses.now) result) }

    // Whether or not it does.
    ensures silent { IsRefusedBefore result → WritesNothing (W.contents sink.old) (W.contents sink.new) (W.has_failed sink.new) }
    ensures read_failed { result ≡ Err RunFault.ReadFailed → R.has_failed source.new ≡ true }
    // The source has not failed else.
    ensures sound { (result ≡ Err RunFault.ReadFailed → ⊥) → R.has_failed source.new ≡ false }
    ensures reads { OnOk result (IsReadWithin (R.remaining source.old) (R.remaining source.new)) }
    ensures output_failed { result ≡ Err RunFault.Output → W.has_failed sink.new ≡ true }
    // Status 4 comes where the sink has failed, and only there.
    ensures failed { W.has_failed sink.new ≡ (status_of result == 4) }
    ensures flushed { IsHandedOn result (W.is_flushed sink.new) }
{
    texts_say_one_module();
    judged_are_exact();
    let text = read_input(alloc, source)?;
    let program = read_module(alloc, &text)?;
    let found = search_schedules(rt, alloc, &program, options, observer)?;
    print_and_flush(
        alloc,
        &program,
        options.depth,
        excuses,
        printed,
        &found,
        observer,
        sink,
    )?;
    Ok(verdict_of(excuses, &found.outcome))
}
