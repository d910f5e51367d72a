// What a process of a module asks: evaluation, exceptions, receives and applications, as definitions and laws.
#![tactic(auto)]

pub mod laws;
