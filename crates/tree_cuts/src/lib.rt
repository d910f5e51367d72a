// Where trees of schedules are cut at their depth, and what those say of all schedules that are cut nowhere.
#![tactic(auto)]

pub mod laws;
