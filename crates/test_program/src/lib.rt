// Tests of the program: its input, the bytes and the status of a whole run.
#![tactic(auto)]

#[cfg(test)]
mod excused;
#[cfg(test)]
mod explained;
#[cfg(test)]
mod guard_runs;
#[cfg(test)]
mod input;
#[cfg(test)]
mod jobs;
#[cfg(test)]
mod merge;
#[cfg(test)]
mod patterns;
#[cfg(test)]
mod replays;
#[cfg(test)]
mod samples;
#[cfg(test)]
mod terms;
#[cfg(test)]
mod transcripts;
