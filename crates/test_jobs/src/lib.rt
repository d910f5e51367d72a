// Tests of jobs as lines of text.
#![tactic(auto)]

#[cfg(test)]
mod levels;
#[cfg(test)]
mod lines;
