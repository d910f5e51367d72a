// Tests of plans: what steps would do, and that they are done so; and of worlds: who lives in them, and their copies.
#![tactic(auto)]

#[cfg(test)]
mod counters;
#[cfg(test)]
mod guards;
#[cfg(test)]
mod lives;
#[cfg(test)]
mod names;
#[cfg(test)]
mod plans;
#[cfg(test)]
mod sameness;
#[cfg(test)]
mod worlds;
