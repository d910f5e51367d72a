// What stays of a plan when something happens.
ghost use Rattle.search_agenda.specs.Plans.{PlansSettle};

/// What a plan says of its step also holds after an event that writes no cell that the step reads: what the step would
/// do, what it reads, and what it changes.
pub fn plans_settle()
    ensures { PlansSettle }
{}
