// The judgement of a line of a cover, at the node that it belongs to.
ghost use Rattle.std.specs.Prelude.{◌≡◌, ◌&&◌, ◌++◌, true, map, filter, IfOk};
ghost use Rattle.std.specs.List.{list_all};
ghost use Rattle.tree_coverage.specs.Covers.{are_once, is_empty, is_one_of};
ghost use Rattle.tree_covers.specs.Judging.{are_all_there, are_enabled_once, judgement, judgement_of};
ghost use Rattle.tree_covers.specs.inside.Frames.{place_of};
ghost use Rattle.tree_excuses.specs.Excuses.{counts, excuses_in};
ghost use Rattle.world_identities.specs.Identities.{flags_in, identity_in};
ghost use Rattle.world_model.specs.Asking.{program_of};
ghost use Rattle.world_model.specs.Events.{History};
ghost use Rattle.world_model.specs.Requests.{Program};
ghost use Rattle.world_model.specs.Run.{enabled_steps};

use crate::node::Node;
use std::alloc::Global;
use term_core::Step;
use tree_excuses::Excuses;
use tree_sleep::is_one_of;
use world_core::WorldFault;
use world_identities::{Flags, Identity};

/// The judgement of a line.
#[derive(Clone, Copy, Debug, PartialEq, Eq)]
pub enum Judgement {
    /// The node shows nothing that counts as an error, and the line takes enabled steps, each once, and leaves out none
    /// that is awake.
    Good,
    /// The line leaves out an enabled step that does not sleep.
    Missing,
    /// The line has a step that is not enabled, that occurs twice, or that occurs at the depth.
    Strange,
    /// The node shows something that counts as an error.
    ErrorFound,
}

// Whether none of these counts as an error.
fn is_clean(flags: Flags, excuses: &Excuses, identities: &[Identity]) -> bool
    ensures { result ≡ is_empty (filter (counts (flags_in flags) (excuses_in excuses.now)) (map identity_in identities.now)) }
{
    for identity in identities {
        if excuses.counts(flags, identity) {
            return false;
        }
    }
    true
}

// Whether the steps of a line are among those that are enabled, and none occurs twice.
fn are_enabled_once(enabled: &[Step], line: &[Step]) -> bool
    ensures { result ≡ are_once line.now && list_all (is_one_of enabled.now) line.now }
{
    let mut rest = line;
    while let Some((step, later)) = rest.split_first() {
        if !is_one_of(enabled, step) || is_one_of(later, step) {
            return false;
        }
        rest = later;
    }
    true
}

// Whether a step sleeps or is taken.
fn is_in_either(slept: &[Step], line: &[Step], step: &Step) -> bool
    ensures { result ≡ is_one_of (slept.now ++ line.now) step.now }
{
    if is_one_of(slept, step) {
        return true;
    }
    is_one_of(line, step)
}

// Whether each enabled step sleeps or is taken.
fn are_all_there(enabled: &[Step], slept: &[Step], line: &[Step]) -> bool
    ensures { result ≡ list_all (is_one_of (slept.now ++ line.now)) enabled.now }
{
    for step in enabled {
        if !is_in_either(slept, line, step) {
            return false;
        }
    }
    true
}

// The judgement of a line, where these steps are enabled and the node shows nothing that counts as an error.
fn judge_steps(enabled: &[Step], slept: &[Step], left: u64, line: &[Step]) -> Judgement
    ensures { (a : Program) (h : History) → enabled.now ≡ enabled_steps a h → result ≡ judgement true (are_enabled_once a left h line.now) (are_all_there a left h slept.now line.now) }
{
    if left == 0 {
        if !line.is_empty() {
            return Judgement::Strange;
        }
        return Judgement::Good;
    }
    if !are_enabled_once(enabled, line) {
        return Judgement::Strange;
    }
    if !are_all_there(enabled, slept, line) {
        return Judgement::Missing;
    }
    Judgement::Good
}

/// The judgement of the line of a node. `Memory` where there is no memory.
pub(crate) fn judge(
    alloc: Global,
    flags: Flags,
    excuses: &Excuses,
    node: &Node<'_>,
    line: &[Step],
) -> Result<Judgement, WorldFault>
    ensures { IfOk result (λ is. is ≡ judgement_of (counts (flags_in flags) (excuses_in excuses.now)) (program_of node.now.program) (place_of node.now) line.now) }
{
    let enabled = node.world.enabled(alloc)?;
    let identities = node.world.errors_among(alloc, enabled.as_slice())?;
    if !is_clean(flags, excuses, identities.as_slice()) {
        return Ok(Judgement::ErrorFound);
    }
    Ok(judge_steps(enabled.as_slice(), node.slept.as_slice(), node.left, line))
}
