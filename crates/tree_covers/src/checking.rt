// How a cover is checked.
ghost use Rattle.std.specs.Prelude.{◌≡◌, ◌⊎◌, List, IfOk, OnOk, IfErr};
ghost use Rattle.tree_covers.specs.Faults.{IsCoverText, IsFaultOf};
ghost use Rattle.tree_covers.specs.Judging.{judgement_of};
ghost use Rattle.tree_covers.specs.inside.Frames.{place_of};
ghost use Rattle.tree_covers.specs.inside.Lines.{IsLineFault};
ghost use Rattle.tree_coverage.specs.Covers.{ShowsNothing};
ghost use Rattle.tree_excuses.specs.Excuses.{counts, excuses_in};
ghost use Rattle.world_identities.specs.Identities.{flags_in};
ghost use Rattle.term_core.specs.Schedule.{AreLawful};
ghost use Rattle.term_core.specs.Text.{text_of_schedule};
ghost use Rattle.term_core.specs.declared.step.Step.{Step};
ghost use Rattle.world_model.specs.Asking.{program_of};

use crate::fault::CoverFault;
use crate::judging::{Judgement, judge};
use crate::lines::split_line;
use crate::node::Node;
use crate::observer::LineObserver;
use crate::walk::Walk;
use core_tree::Module;
use std::alloc::Global;
use term_core::{ScheduleFault, Step, read_schedule};
use tree_coverage::covers::covers_show_no_error;
use tree_excuses::Excuses;
use world_identities::Flags;

// The steps of a line, the one of this number.
fn read_line(alloc: Global, line: &[u8], number: usize) -> Result<Vec<Step>, CoverFault>
    ensures read { IfOk result (λ steps. AreLawful steps.items × (line.now ≡ text_of_schedule steps.items)) }
    ensures refused { IfErr result (λ fault. (fault ≡ CoverFault.Memory) ⊎ ((fault ≡ CoverFault.BadLine number) × ((steps : List Step) → AreLawful steps → line.now ≡ text_of_schedule steps → ⊥))) }
{
    match read_schedule(alloc, line) {
        Ok(steps) => Ok(steps),
        Err(ScheduleFault::BadStep(_)) => Err(CoverFault::BadLine(number)),
        Err(ScheduleFault::Memory) => Err(CoverFault::Memory),
    }
}

// The steps of the line of a node, the one of this number, where they are good.
fn check_line(
    alloc: Global,
    flags: Flags,
    excuses: &Excuses,
    node: &Node<'_>,
    line: &[u8],
    number: usize,
) -> Result<Vec<Step>, CoverFault>
    ensures lawful { IfOk result (λ steps. AreLawful steps.items × (line.now ≡ text_of_schedule steps.items)) }
    ensures good { IfOk result (λ steps. judgement_of (counts (flags_in flags) (excuses_in excuses.now)) (program_of node.now.program) (place_of node.now) steps.items ≡ Judgement.Good) }
    ensures refused { IfErr result (IsLineFault (counts (flags_in flags) (excuses_in excuses.now)) (program_of node.now.program) (place_of node.now) line.now number) }
{
    let steps = read_line(alloc, line, number)?;
    match judge(alloc, flags, excuses, node, steps.as_slice())? {
        Judgement::Good => Ok(steps),
        Judgement::Missing => Err(CoverFault::Missing(number)),
        Judgement::Strange => Err(CoverFault::Strange(number)),
        Judgement::ErrorFound => Err(CoverFault::ErrorFound(number)),
    }
}

/// Checks whether bytes are the text of a good cover of the tree of so many steps: then no schedule of at most so many
/// steps shows anything that counts as an error, whoever wrote the bytes and in whatever order its lines take their
/// steps. What is an error under the flags counts, unless it is excused. The lines are read once, one after another,
/// and there is one world for each node with children that are not checked. The observer is informed of each line that
/// is good.
///
/// # Errors
///
/// The fault of the first line that is not good, of one that is left over, or of one that is missing; `Memory` where
/// there was no memory.
pub fn check_cover<O: LineObserver>(
    alloc: Global,
    program: &Module,
    depth: u64,
    flags: Flags,
    excuses: &Excuses,
    bytes: &[u8],
    observer: &O,
) -> Result<(), CoverFault>
    ensures good { OnOk result (IsCoverText (counts (flags_in flags) (excuses_in excuses.now)) (program_of program.now) depth bytes.now) }
    // So no schedule shows anything that counts as an error.
    ensures clean { OnOk result (ShowsNothing (counts (flags_in flags) (excuses_in excuses.now)) (program_of program.now) depth) }
    ensures fault { IfErr result (λ fault. IsFaultOf (counts (flags_in flags) (excuses_in excuses.now)) (program_of program.now) depth bytes.now fault) }
    // A good cover is accepted.
    ensures accepted { IsCoverText (counts (flags_in flags) (excuses_in excuses.now)) (program_of program.now) depth bytes.now → IfErr result (λ fault. fault ≡ CoverFault.Memory) }
{
    covers_show_no_error();
    let mut walk = Walk::new(alloc, program, depth)?;
    let mut rest = bytes;
    let mut number = 1;
    while let Some((line, behind)) = split_line(rest) {
        let Some(node) = walk.take(alloc)? else {
            return Err(CoverFault::Long(number));
        };
        let steps = check_line(alloc, flags, excuses, &node, line, number)?;
        observer.visited();
        walk.go_below(node, steps)?;
        rest = behind;
        number += 1;
    }
    let Some(_node) = walk.take(alloc)? else {
        return Ok(());
    };
    Err(CoverFault::Short(number))
}
