// Which jobs the nodes at one depth of a tree are, and that a tree is what is above them and what they have.
#![tactic(auto)]

pub mod laws;
