// What the program does between its words and its exit status: it reads a module, replays a schedule of it, explores
// all of them up to a depth or those of a job, follows random ones, lists jobs, puts reports together, or checks a cover, and
// writes what happened, or why it was refused.
#![tactic(auto)]

pub mod check;
pub mod explore;
pub mod fault_text;
pub mod input;
pub mod job;
pub mod jobs;
pub mod merge;
pub mod print_fault;
mod printing;
pub mod program;
pub mod replay;
pub mod sample;
mod searching;
pub mod theorem;
pub mod verdict;
mod watched;

pub use check::run_check;
pub use explore::run_explore;
pub use fault_text::write_fault;
pub use input::{INPUT_LIMIT, InputFault, PIECE_LIMIT, READ_LIMIT, read_input, read_whole};
pub use job::run_job;
pub use jobs::run_jobs;
pub use merge::run_merge;
pub use program::{WORDS_REFUSED, run, run_to_exit};
pub use program_words::{NAME, Printed, Words, read_words};
pub use replay::run_replay;
pub use sample::run_sample;
pub use verdict::{RunFault, Verdict, status};
pub use world_replay::ReplayFault;
