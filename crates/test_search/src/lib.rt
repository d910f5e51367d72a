// Tests of the searches: explorations of the tree with several budgets, by several workers, and of jobs that are not the
// whole tree; explorations by states, with any delivery of signals and at once; random schedules; and what each kind of
// search finds unread.
#![tactic(auto)]

#[cfg(test)]
mod budgets;
#[cfg(test)]
mod handwritten;
#[cfg(test)]
mod idle;
#[cfg(test)]
mod jobs;
#[cfg(test)]
mod modules;
#[cfg(test)]
mod prompt;
#[cfg(test)]
mod samples;
#[cfg(test)]
mod states;
#[cfg(test)]
mod workers;
