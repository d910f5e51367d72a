// How a run ends: its verdict or its refusal, and the exit status that reports it.
ghost use Rattle.std.specs.Prelude.{◌≡◌};
ghost use Rattle.program_runs.specs.Status.{status_of, status_of_verdict, status_of_fault, status_of_read_fault, status_of_schedule_fault, status_of_cover_fault, status_of_job_fault, status_of_report_fault};

use crate::input::InputFault;
use crate::print_fault::PrintFault;
use core_reader::ReadFault;
use report_reader::ReportFault;
use search_crew::SearchFault;
use search_job_lines::JobFault;
use term_core::{ScheduleFault, WriteFault};
use tree_covers::CoverFault;
use world_replay::ReplayFault;

/// What a run that was not refused resulted in.
#[derive(Clone, Copy, Debug, PartialEq, Eq)]
pub enum Verdict {
    /// The whole schedule was replayed, the jobs were listed, or the cover is good.
    Done,
    /// All nodes were visited, and none shows an error.
    Clean,
    /// All nodes were visited, or random schedules were followed, and some show errors.
    Errors,
    /// Not all nodes were visited, or random schedules show no error that counts: others may.
    Incomplete,
}

/// Why a run was refused.
#[derive(Clone, Copy, Debug, PartialEq, Eq)]
pub enum RunFault {
    /// The module was refused, or there was no memory to read it.
    Input(ReadFault),
    /// The input could not be read.
    ReadFailed,
    /// The schedule was refused.
    Schedule(ScheduleFault),
    /// The replay stopped before the step of this place in the schedule, counted from 1, which is not enabled.
    NotEnabled(usize),
    /// There was no memory to replay a schedule to its end. A beginning of the lines was written.
    ReplayCutOff,
    /// The search was not begun, or there was no memory for random schedules.
    Explore(SearchFault),
    /// The cover that came with the module was refused.
    Cover(CoverFault),
    /// The line of a job was refused, or there was no memory for jobs.
    Job(JobFault),
    /// A report was refused, or there was no memory for what the reports result in.
    Report(ReportFault),
    /// There was no memory to explain a report to its end, in text or in terms. A beginning of the report was written.
    ReportCutOff,
    /// There was no memory to write a cover to its end. The report, and a beginning of the cover, were written.
    CoverCutOff,
    /// The output could not be written or flushed.
    Output,
}

impl From<InputFault> for RunFault {
    ghost use Rattle.program_runs.specs.Refusals.{refusal_of_input};

    ghost from_gives = { λ fault refusal. refusal ≡ refusal_of_input fault };

    fn from(fault: InputFault) -> RunFault {
        match fault {
            InputFault::ReadFailed => RunFault::ReadFailed,
            InputFault::Memory => RunFault::Input(ReadFault::Memory),
        }
    }
}

impl From<ReadFault> for RunFault {
    ghost use Rattle.program_runs.specs.declared.verdict.RunFault.TheVariants as run;

    ghost from_gives = { λ fault refusal. refusal ≡ run.Input fault };

    fn from(fault: ReadFault) -> RunFault {
        RunFault::Input(fault)
    }
}

impl From<ScheduleFault> for RunFault {
    ghost use Rattle.program_runs.specs.declared.verdict.RunFault.TheVariants as run;

    ghost from_gives = { λ fault refusal. refusal ≡ run.Schedule fault };

    fn from(fault: ScheduleFault) -> RunFault {
        RunFault::Schedule(fault)
    }
}

impl From<ReplayFault> for RunFault {
    ghost use Rattle.program_runs.specs.Refusals.{refusal_of_replay};

    ghost from_gives = { λ fault refusal. refusal ≡ refusal_of_replay fault };

    fn from(fault: ReplayFault) -> RunFault {
        match fault {
            ReplayFault::NotEnabled(step) => RunFault::NotEnabled(step),
            ReplayFault::Memory => RunFault::ReplayCutOff,
            ReplayFault::Write => RunFault::Output,
        }
    }
}

impl From<SearchFault> for RunFault {
    ghost use Rattle.program_runs.specs.declared.verdict.RunFault.TheVariants as run;

    ghost from_gives = { λ fault refusal. refusal ≡ run.Explore fault };

    fn from(fault: SearchFault) -> RunFault {
        RunFault::Explore(fault)
    }
}

impl From<CoverFault> for RunFault {
    ghost use Rattle.program_runs.specs.declared.verdict.RunFault.TheVariants as run;

    ghost from_gives = { λ fault refusal. refusal ≡ run.Cover fault };

    fn from(fault: CoverFault) -> RunFault {
        RunFault::Cover(fault)
    }
}

impl From<JobFault> for RunFault {
    ghost use Rattle.program_runs.specs.declared.verdict.RunFault.TheVariants as run;

    ghost from_gives = { λ fault refusal. refusal ≡ run.Job fault };

    fn from(fault: JobFault) -> RunFault {
        RunFault::Job(fault)
    }
}

impl From<ReportFault> for RunFault {
    ghost use Rattle.program_runs.specs.declared.verdict.RunFault.TheVariants as run;

    ghost from_gives = { λ fault refusal. refusal ≡ run.Report fault };

    fn from(fault: ReportFault) -> RunFault {
        RunFault::Report(fault)
    }
}

impl From<PrintFault> for RunFault {
    ghost use Rattle.program_runs.specs.Refusals.{refusal_of_printing};

    ghost from_gives = { λ fault refusal. refusal ≡ refusal_of_printing fault };

    fn from(fault: PrintFault) -> RunFault {
        match fault {
            PrintFault::ReportCutOff => RunFault::ReportCutOff,
            PrintFault::CoverCutOff => RunFault::CoverCutOff,
            PrintFault::Write => RunFault::Output,
        }
    }
}

impl From<WriteFault> for RunFault {
    ghost use Rattle.program_runs.specs.declared.verdict.RunFault.TheVariants as run;

    ghost from_gives = { λ _ refusal. refusal ≡ run.Output };

    fn from(_fault: WriteFault) -> RunFault {
        RunFault::Output
    }
}

/// The exit status of a run: 0 where it was done, the cover is good, or all nodes were visited and no error was found, 1
/// where all nodes were visited or random schedules were followed and errors were found, 2 where what it was given was
/// refused, 3 where there was no memory, nodes were left, random schedules show nothing or the search has no outcome, and
/// 4 where its output could not be written.
pub fn status(outcome: &Result<Verdict, RunFault>) -> u8
    ensures { result ≡ status_of outcome.now }
{
    match outcome {
        Ok(verdict) => verdict_status(*verdict),
        Err(fault) => fault_status(fault),
    }
}

// The exit status of what was not refused.
fn verdict_status(verdict: Verdict) -> u8
    ensures { result ≡ status_of_verdict verdict }
{
    match verdict {
        Verdict::Done => 0,
        Verdict::Clean => 0,
        Verdict::Errors => 1,
        Verdict::Incomplete => 3,
    }
}

// The exit status of a refusal.
fn fault_status(fault: &RunFault) -> u8
    ensures { result ≡ status_of_fault fault.now }
{
    match fault {
        RunFault::Input(fault) => input_status(fault),
        RunFault::ReadFailed => 2,
        RunFault::Schedule(fault) => schedule_status(fault),
        RunFault::NotEnabled(_) => 2,
        RunFault::ReplayCutOff => 3,
        RunFault::Explore(SearchFault::Memory) => 3,
        RunFault::Explore(SearchFault::NoThread) => 3,
        RunFault::Explore(SearchFault::StrangePool) => 3,
        RunFault::Cover(fault) => cover_status(fault),
        RunFault::Job(fault) => job_status(fault),
        RunFault::Report(fault) => report_status(fault),
        RunFault::ReportCutOff => 3,
        RunFault::CoverCutOff => 3,
        RunFault::Output => 4,
    }
}

// The exit status where the module was refused.
fn input_status(fault: &ReadFault) -> u8
    ensures { result ≡ status_of_read_fault fault.now }
{
    match fault {
        ReadFault::Memory => 3,
        _ => 2,
    }
}

// The exit status where the schedule was refused.
fn schedule_status(fault: &ScheduleFault) -> u8
    ensures { result ≡ status_of_schedule_fault fault.now }
{
    match fault {
        ScheduleFault::BadStep(_) => 2,
        ScheduleFault::Memory => 3,
    }
}

// The exit status where the cover was refused.
fn cover_status(fault: &CoverFault) -> u8
    ensures { result ≡ status_of_cover_fault fault.now }
{
    match fault {
        CoverFault::Memory => 3,
        _ => 2,
    }
}

// The exit status where the line of a job was refused.
fn job_status(fault: &JobFault) -> u8
    ensures { result ≡ status_of_job_fault fault.now }
{
    match fault {
        JobFault::Memory => 3,
        _ => 2,
    }
}

// The exit status where a report was refused.
fn report_status(fault: &ReportFault) -> u8
    ensures { result ≡ status_of_report_fault fault.now }
{
    match fault {
        ReportFault::Memory => 3,
        _ => 2,
    }
}
