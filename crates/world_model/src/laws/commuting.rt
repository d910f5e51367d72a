// Independent steps commute, and what a step reads settles what it does.
ghost use Rattle.world_model.specs.Commuting.{IndependentCommute};
ghost use Rattle.world_model.specs.Frames.{LeavesOthers, ReadsSettle};

/// Steps that are independent after a history commute there: each is enabled after the other, with the same event, and
/// both orders leave the same in every cell, so that all that histories say is the same.
pub fn independent_steps_commute()
    ensures { IndependentCommute }
{}

/// An event leaves as it was every cell that meets none of those that it writes.
pub fn events_leave_other_cells()
    ensures { LeavesOthers }
{}

/// Histories that agree on the cells that a step reads give it the same event and the same footprint, and
/// leave the same in each cell on which they agreed.
pub fn reads_settle_steps()
    ensures { ReadsSettle }
{}
