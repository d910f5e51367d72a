// What the program promises, in ten statements about each of its runs. The function does nothing: its contract is the
// theorem.
ghost use Rattle.program_runs.specs.Theorem.{AllMeansAll, AllPromptMeansAllPrompt, CleanMeansNone, CleanMeansNoPromptOne, PromptReportIsExact, ReportIsExact, SampleIsShown, ScheduleIsLeast, TablesAreJudged, TranscriptIsTheRun};

use core_reader::laws::said_calls_are_read;
use search_samples::laws::samples_are_shown;
use tree_coverage::jobs::jobs_have_their_nodes;
use tree_coverage::laws::{findings_are_exact, findings_are_of_nodes, nodes_are_listed};
use world_model::laws::headline::table_calls_are_judged;
use world_replay::replay::replays_are_runs;

/// What every run of the program keeps, whatever its words and its input are: clean means none, clean of all schedules
/// means none of any length, a complete report is exact, by states with the least schedule of all; with `--at-once` the
/// same is said of prompt schedules, and of no others; what a sample reports is shown by the schedules beside it; a
/// transcript is that of the run of its schedule, and each call of a table is judged by the one rule. That what the program
/// does is such a run (`IsRun`) is the clause `run` of `run` and `run_to_exit`.
pub fn runs_keep_the_theorem()
    ensures clean { CleanMeansNone }
    ensures all { AllMeansAll }
    ensures exact { ReportIsExact }
    ensures least { ScheduleIsLeast }
    ensures prompt_clean { CleanMeansNoPromptOne }
    ensures prompt_all { AllPromptMeansAllPrompt }
    ensures prompt_exact { PromptReportIsExact }
    ensures sample { SampleIsShown }
    ensures transcript { TranscriptIsTheRun }
    ensures tables { TablesAreJudged }
{
    findings_are_exact();
    findings_are_of_nodes();
    jobs_have_their_nodes();
    nodes_are_listed();
    replays_are_runs();
    said_calls_are_read();
    samples_are_shown();
    table_calls_are_judged();
}
