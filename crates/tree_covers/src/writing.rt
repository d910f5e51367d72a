// How the cover of a tree is written.
ghost use Rattle.std.specs.Prelude.{◌≡◌, ◌∷◌, ◌++◌, [], false, IfOk};
ghost use Rattle.tree_coverage.specs.Covers.{cover_of, lines_of};
ghost use Rattle.tree_coverage.specs.Jobs.{root, taken_steps};
ghost use Rattle.tree_covers.specs.CoverText.{text_of_cover};
ghost use Rattle.tree_covers.specs.Writing.{IsWritten};
ghost use Rattle.term_core.specs.Stream.{Writes};
ghost use Rattle.term_core.specs.Text.{text_of_schedule};
ghost use Rattle.world_model.specs.Asking.{program_of};

use crate::fault::WriteCoverFault;
use crate::node::Node;
use crate::observer::LineObserver;
use crate::walk::Walk;
use core_tree::Module;
use std::alloc::Global;
use term_core::{Sink, Step, WriteFault, write_all, write_schedule};
use tree_sleep::awake;
use world_core::WorldFault;

// The steps that the search takes at a node: those that are enabled and awake, and none at the depth.
fn taken(alloc: Global, node: &Node<'_>) -> Result<Vec<Step>, WorldFault>
    ensures { IfOk result (λ line. line.items ≡ taken_steps (program_of node.now.program) node.now.left node.now.history node.now.slept) }
{
    if node.left == 0 {
        return Ok(Vec::new(alloc));
    }
    let enabled = node.world.enabled(alloc)?;
    let line = awake(alloc, enabled, node.slept.as_slice())?;
    Ok(line)
}

// Writes a line, with its end.
fn write_line<W: Sink>(sink: &mut W, line: &[Step]) -> Result<(), WriteFault>
    requires { W.has_failed sink.old ≡ false }
    ensures { Writes (W.contents sink.old) (W.contents sink.new) (W.has_failed sink.new) result (text_of_schedule line.now ++ 10 ∷ []) }
{
    write_schedule(line, sink)?;
    write_all(sink, b"\n")
}

/// Writes the mark and the cover of the tree of so many steps: the line of each node as it is visited, so that the
/// memory that it takes grows with the depth and not with the nodes. The observer is informed of each line.
///
/// # Errors
///
/// `Memory` where there was no memory, and `Write` where the sink has failed: then a beginning of the text was written.
pub fn write_cover<W: Sink, O: LineObserver>(
    alloc: Global,
    program: &Module,
    depth: u64,
    sink: &mut W,
    observer: &O,
) -> Result<(), WriteCoverFault>
    requires { W.has_failed sink.old ≡ false }
    ensures { IsWritten (text_of_cover (lines_of (cover_of (program_of program.now) depth root))) (W.contents sink.old) (W.contents sink.new) (W.has_failed sink.new) result }
{
    write_all(sink, b"%%cover\n")?;
    let mut walk = Walk::new(alloc, program, depth)?;
    while let Some(node) = walk.take(alloc)? {
        let line = taken(alloc, &node)?;
        write_line(sink, line.as_slice())?;
        observer.visited();
        walk.go_below(node, line)?;
    }
    Ok(())
}
