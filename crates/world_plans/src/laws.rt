// Laws of plans: what an event changes is what its deed says itself, and then the changes that a plan has; and footprints
// and independence at contents are those of histories, where a history leaves the contents.
ghost use Rattle.world_plans.specs.Independence.{FootprintIsOfHistory, IndependenceIsOfHistory, RunsNameTables, SleepIsOfHistory};
ghost use Rattle.world_footprints.specs.Plans.{ChangesAreInOrder, StepsCanBeApplied};

/// Of each step and each deed: first its turn counts, or its signal leaves the channel, and then come the others.
#[tactic(auto, using(crate::proofs::Turning::in_order))]
pub fn changes_are_in_order()
    ensures { ChangesAreInOrder }
{}

/// What else a step changes can be applied to records once what comes first was: rows are written of tables that are
/// there, and a table is made where none is.
#[tactic(auto, using(crate::proofs::Applied::applies))]
pub fn steps_can_be_applied()
    ensures { StepsCanBeApplied }
{}

/// A step has the footprint after a history that it has at the contents which the history leaves; two steps are
/// independent after it exactly where they are so at these contents; and the same steps stay asleep.
pub fn footprints_are_of_histories()
    ensures footprint { FootprintIsOfHistory }
    ensures independence { IndependenceIsOfHistory }
    ensures sleep { SleepIsOfHistory }
{}

/// In all that happens each name that means a table means one that is there (ets manual, `new/2`, option `named_table`).
pub fn names_mean_tables()
    ensures { RunsNameTables }
{}
