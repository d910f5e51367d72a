// Which step comes next: one of those that may be taken, at random.
ghost use Rattle.std.specs.Prelude.{◌≡◌, ◌∷◌, ◌<◌, [], false, List, MatchOption, length};
ghost use Rattle.std.specs.List.{filter};
ghost use Rattle.search_samples.specs.inside.Walks.{allowed};
ghost use Rattle.term_core.specs.declared.step.Step.{Step as StepOf};
ghost use Rattle.tree_schedules.specs.Deliveries.{is_at_once};
ghost use Rattle.world_model.specs.Names.{IsAmong};

use rand_core::Rng;
use rand_pcg::Pcg32;
use term_core::Step;
use tree_schedules::{Delivery, arrives_at_once};
use world_core::World;

// A number below another one, each as likely as the others: the word times that number, without its lower 32 bits.
fn number_below(count: usize, generator: &mut Pcg32) -> usize
    requires { 0 < count }
    ensures { result < count }
{
    let word = generator.next_u32();
    ((u128::from(word) * count as u128) >> 32) as usize
}

// One of some steps, if there is one.
fn any_of<'s>(steps: &'s [Step], generator: &mut Pcg32) -> Option<&'s Step>
    ensures { MatchOption result (steps.now ≡ []) (λ step. IsAmong step.now steps.now) }
{
    if steps.is_empty() {
        return None;
    }
    let place = number_below(steps.len(), generator);
    Some(&steps[place])
}

// Whether a step delivers a signal that arrives at once, in this world.
fn is_at_once(world: &World<'_>, step: &Step) -> bool
    requires { world.now.spent ≡ false }
    ensures { result ≡ is_at_once world.now.history step.now }
{
    match step {
        Step::Turn(_) => false,
        Step::Deliver(from, to) => arrives_at_once(world.records().channels().front(from, to)),
    }
}

// The first of some steps that delivers such a signal, if there is one.
fn first_at_once<'s>(world: &World<'_>, steps: &'s [Step]) -> Option<&'s Step>
    requires { world.now.spent ≡ false }
    ensures { MatchOption result (filter (is_at_once world.now.history) steps.now ≡ []) (λ step. (rest : List StepOf) × (filter (is_at_once world.now.history) steps.now ≡ step.now ∷ rest)) }
{
    for step in steps {
        if is_at_once(world, step) {
            return Some(step);
        }
    }
    None
}

/// One of the steps that may be taken in a world where these are enabled and signals are delivered so, at random; none where
/// none is enabled.
pub(crate) fn drawn<'s>(
    delivery: Delivery,
    world: &World<'_>,
    enabled: &'s [Step],
    generator: &mut Pcg32,
) -> Option<&'s Step>
    requires { world.now.spent ≡ false }
    ensures { MatchOption result (enabled.now ≡ []) (λ step. IsAmong step.now (allowed delivery world.now.history enabled.now)) }
{
    match delivery {
        Delivery::AnyTime => any_of(enabled, generator),
        Delivery::AtOnce => match first_at_once(world, enabled) {
            Some(step) => Some(step),
            None => any_of(enabled, generator),
        },
    }
}
