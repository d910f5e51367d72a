// The words of a command line.
ghost use Rattle.std.specs.Prelude.{◌≡◌, ◌&&◌, ◌||◌, ℕ, List, map, IfOk, IfErr, IsErr};
ghost use Rattle.std.specs.Option.{is_some};
ghost use Rattle.clap.specs.Values.{kind_of};
ghost use Rattle.clap.specs.Words.{subcommand_rows_of};
ghost use Rattle.tree_excuses.specs.Excuses.{Excuses as Excused};
ghost use Rattle.world_identities.specs.declared.flags.Flags.{Flags};
ghost use Rattle.tree_findings.specs.declared.options.Options.{Options};
ghost use Rattle.search_samples.specs.declared.sample.Samples.{Samples};
ghost use Rattle.program_words.specs.declared.words.Printed.{Printed};
ghost use Rattle.program_words.specs.Words.{AreReadAs, AreUnreadable, AsksCheck, AsksExplore, AsksExploreJob, AsksJobs, AsksMerge, AsksReplay, AsksSample, IsCheck, IsExplore, IsExploreJob, IsInRange, IsJobs, IsMerge, IsNamed, IsReplay, IsSample, command_of, is_by_states};
ghost use Rattle.program_words.specs.inside.Found.{AreJobsReadOf, AsksForOne, AsksForSplit, IsCheckReadOf, IsExploreReadOf, IsMergeReadOf, IsReadOf, IsReplayReadOf, IsSampleReadOf, IsSplitReadOf};

use crate::command_line::{
    NAME, Split, command, found_check, found_format, found_job, found_options, found_samples,
    found_schedule, found_split, is_unknown,
};
use crate::excused::read_excuses;
use crate::refusals::text_of_too_deep;
use clap::error::ErrorKind;
use clap::{ArgMatches, Command, Error};
use search_samples::Samples;
use std::alloc::{AllocError, Global};
use std::convert::AsStr;
use tree_excuses::Excuses;
use tree_findings::{Options, Search};
use world_identities::Flags;

// What is said where a job is given with what is printed of no job alone.
const MORE_OF_JOB: &str =
    "the argument '--job' cannot be used with '--explain', '--cover' or '--format terms'";

// What is said where terms are asked for with a cover, which is text.
const COVER_OF_TERMS: &str = "the argument '--format terms' cannot be used with '--cover'";

// What is said of a format that there is not.
const NO_FORMAT: &str = "the argument '--format' takes 'text' or 'terms'";

// What is said where a search by states is asked for what is of the tree.
const TREE_OF_STATES: &str =
    "the arguments '--states' and '--at-once' cannot be used with '--cover' or '--job'";

/// What is printed of an exploration or of random schedules, and how.
#[derive(Clone, Copy, Debug, PartialEq, Eq)]
pub struct Printed {
    /// Whether the report is explained, with its transcript below each finding.
    pub explained: bool,
    /// Whether the cover follows a report that is clean.
    pub cover: bool,
    /// Whether the report is written as Erlang terms, one a line.
    pub terms: bool,
}

/// What the program is asked to do.
#[derive(Drop)]
pub enum Words {
    /// `replay SCHEDULE`: to replay a schedule of the module on standard input.
    Replay(String),
    /// `explore`, with its options, what it excuses and what it prints: to explore the schedules of the module on standard input.
    Explore(Options, Excuses, Printed),
    /// `explore --job LINE`, with its options, what it excuses and the line of the job: to explore the nodes of this job alone.
    ExploreJob(Options, Excuses, String),
    /// `check`, with the depth, what counts as an error and what is excused: to check the cover after the module on
    /// standard input.
    Check(u64, Flags, Excuses),
    /// `jobs`, with the depth of the jobs, which are no deeper than their tree: to list the jobs of the module on standard input.
    Jobs(u64),
    /// `merge`, with the depth of the tree, that of its jobs, which are no deeper, what counts as an error and what is excused: to put the reports on standard input together.
    Merge(u64, u64, Flags, Excuses),
    /// `sample`, with how random schedules are taken, what is excused and what is printed, which is no cover: to follow random schedules of the module on standard input.
    Sample(Samples, Excuses, Printed),
}

/// Reads the words of a command line, the first of which is the program's name.
///
/// # Errors
///
/// The parser's error where the words are not those of a command, where they ask for help, and where
/// there was no memory; an error of the same form where a text of `--normal` is that of no term, where
/// there are more than 16, where more than one of the three flags of deadlocks is given, where the text of `--format`
/// is neither `text` nor `terms`, where a job is given with `--explain`, `--cover` or `--format terms`, where `--states`
/// or `--at-once` is given with `--cover` or a job, where `--format terms` is given with `--cover`, and where `--at` is
/// greater than `--depth`.
pub fn read_words<S: AsStr>(alloc: Global, words: &[S]) -> Result<Words, Error>
    ensures replay { (schedule : List ℕ) → IsReplay (map S.text words.now) schedule → AreReadAs (AsksReplay schedule) result }
    ensures explore { (options : Options) (excuses : Excused) (printed : Printed) → IsExplore (map S.text words.now) options excuses printed
        → AreReadAs (AsksExplore options excuses printed) result }
    ensures explore_job { (options : Options) (excuses : Excused) (line : List ℕ) → IsExploreJob (map S.text words.now) options excuses line
        → AreReadAs (AsksExploreJob options excuses line) result }
    ensures check { (depth : ℕ) (flags : Flags) (excuses : Excused) → IsCheck (map S.text words.now) depth flags excuses → AreReadAs (AsksCheck depth flags excuses) result }
    ensures jobs { (place : ℕ) → IsJobs (map S.text words.now) place → AreReadAs (AsksJobs place) result }
    ensures merge { (steps place : ℕ) (flags : Flags) (excuses : Excused) → IsMerge (map S.text words.now) steps place flags excuses
        → AreReadAs (AsksMerge steps place flags excuses) result }
    ensures sample { (samples : Samples) (excuses : Excused) (printed : Printed) → IsSample (map S.text words.now) samples excuses printed
        → AreReadAs (AsksSample samples excuses printed) result }
    // No text that is that of no term is skipped, nor one past the 16th, nor a flag, nor a format, nor a job, nor a depth past that of the tree.
    ensures unread { AreUnreadable (map S.text words.now) → IsErr result }
    ensures range { IfOk result IsInRange }
    ensures named { IfOk result (λ read. IsNamed (map S.text words.now) (command_of read)) }
{
    let command = command(alloc)?;
    let matches = command.try_get_matches_from(words)?;
    read_command(alloc, &matches)
}

// What the command that was found asks for.
fn read_command(alloc: Global, matches: &ArgMatches<'_>) -> Result<Words, Error>
    ensures ok { IfOk result (IsReadOf (subcommand_rows_of matches.now)) }
    ensures refused { IfErr result (λ e. AsksForOne (subcommand_rows_of matches.now) → kind_of e ≡ ErrorKind.OutOfMemory) }
{
    if let Some(replay) = read_replay(alloc, matches)? {
        return Ok(replay);
    }
    if let Some(exploration) = read_exploration(alloc, matches)? {
        return Ok(exploration);
    }
    if let Some(check) = read_check(alloc, matches)? {
        return Ok(check);
    }
    if let Some(jobs) = read_jobs(alloc, matches)? {
        return Ok(jobs);
    }
    if let Some(merge) = read_merge(alloc, matches)? {
        return Ok(merge);
    }
    if let Some(sample) = read_sample(alloc, matches)? {
        return Ok(sample);
    }
    Err(Command::new(alloc, NAME).error(ErrorKind::MissingSubcommand, "no command")?)
}

// A replay, where it was found.
fn read_replay(alloc: Global, matches: &ArgMatches<'_>) -> Result<Option<Words>, AllocError>
    ensures { IfOk result (IsReplayReadOf (subcommand_rows_of matches.now)) }
{
    let Some(schedule) = found_schedule(matches) else {
        return Ok(None);
    };
    Ok(Some(Words::Replay(String::from_str(alloc, schedule)?)))
}

// An exploration, where it was found: of one job, with only its report printed, or of all.
fn read_exploration(alloc: Global, matches: &ArgMatches<'_>) -> Result<Option<Words>, Error>
    ensures ok { IfOk result (IsExploreReadOf (subcommand_rows_of matches.now)) }
    ensures refused { IfErr result (λ e. AsksForOne (subcommand_rows_of matches.now) → kind_of e ≡ ErrorKind.OutOfMemory) }
{
    let Some((options, printed)) = found_options(matches) else {
        return Ok(None);
    };
    let excuses = read_excuses(alloc, matches, options.flags)?;
    let format = found_format(matches);
    if is_unknown(format) {
        return Err(no_format(alloc)?);
    }
    let job = found_job(matches);
    if asks_tree_of_states(options.search, printed.cover, job) {
        return Err(conflict(alloc, TREE_OF_STATES)?);
    }
    if asks_cover_of_terms(printed) {
        return Err(conflict(alloc, COVER_OF_TERMS)?);
    }
    let Some(line) = job else {
        return Ok(Some(Words::Explore(options, excuses, printed)));
    };
    if prints_more(printed) {
        return Err(conflict(alloc, MORE_OF_JOB)?);
    }
    let line = String::from_str(alloc, line)?;
    Ok(Some(Words::ExploreJob(options, excuses, line)))
}

// Whether a search by states is asked for what is of the tree: its cover, or a job of it.
fn asks_tree_of_states(search: Search, cover: bool, job: Option<&str>) -> bool
    ensures { result ≡ (is_by_states search && (cover || is_some job.entry)) }
{
    match search {
        Search::ByTree => false,
        Search::ByStates(_) => cover || job.is_some(),
    }
}

// Whether a cover is asked for beside terms.
fn asks_cover_of_terms(printed: Printed) -> bool
    ensures { result ≡ (printed.terms && printed.cover) }
{
    printed.terms && printed.cover
}

// Whether more is printed than the report alone, as text.
fn prints_more(printed: Printed) -> bool
    ensures { result ≡ (printed.explained || (printed.cover || printed.terms)) }
{
    printed.explained || printed.cover || printed.terms
}

// An error that says which arguments cannot be used together.
fn conflict(alloc: Global, message: &str) -> Result<Error, AllocError> {
    Command::new(alloc, NAME).error(ErrorKind::ArgumentConflict, message)
}

// An error that says which formats there are.
fn no_format(alloc: Global) -> Result<Error, AllocError> {
    Command::new(alloc, NAME).error(ErrorKind::InvalidValue, NO_FORMAT)
}

// A check, where it was found.
fn read_check(alloc: Global, matches: &ArgMatches<'_>) -> Result<Option<Words>, Error>
    ensures ok { IfOk result (IsCheckReadOf (subcommand_rows_of matches.now)) }
    ensures refused { IfErr result (λ e. AsksForOne (subcommand_rows_of matches.now) → kind_of e ≡ ErrorKind.OutOfMemory) }
{
    let Some((depth, flags)) = found_check(matches) else {
        return Ok(None);
    };
    let excuses = read_excuses(alloc, matches, flags)?;
    Ok(Some(Words::Check(depth, flags, excuses)))
}

// The depth of jobs, where `jobs` was found. What is excused changes no job, but its words are read as those of the others.
fn read_jobs(alloc: Global, matches: &ArgMatches<'_>) -> Result<Option<Words>, Error>
    ensures ok { IfOk result (AreJobsReadOf (subcommand_rows_of matches.now)) }
    ensures refused { IfErr result (λ e. AsksForOne (subcommand_rows_of matches.now) → kind_of e ≡ ErrorKind.OutOfMemory) }
{
    let Some((split, _excuses)) = read_split(alloc, matches, "jobs")? else {
        return Ok(None);
    };
    Ok(Some(Words::Jobs(split.at)))
}

// A merge, where it was found.
fn read_merge(alloc: Global, matches: &ArgMatches<'_>) -> Result<Option<Words>, Error>
    ensures ok { IfOk result (IsMergeReadOf (subcommand_rows_of matches.now)) }
    ensures refused { IfErr result (λ e. AsksForOne (subcommand_rows_of matches.now) → kind_of e ≡ ErrorKind.OutOfMemory) }
{
    let Some((split, excuses)) = read_split(alloc, matches, "merge")? else {
        return Ok(None);
    };
    let merge = Words::Merge(split.depth, split.at, split.flags, excuses);
    Ok(Some(merge))
}

// Random schedules, where they were found.
fn read_sample(alloc: Global, matches: &ArgMatches<'_>) -> Result<Option<Words>, Error>
    ensures ok { IfOk result (IsSampleReadOf (subcommand_rows_of matches.now)) }
    ensures refused { IfErr result (λ e. AsksForOne (subcommand_rows_of matches.now) → kind_of e ≡ ErrorKind.OutOfMemory) }
{
    let Some((samples, printed)) = found_samples(matches) else {
        return Ok(None);
    };
    let excuses = read_excuses(alloc, matches, samples.flags)?;
    let format = found_format(matches);
    if is_unknown(format) {
        return Err(no_format(alloc)?);
    }
    Ok(Some(Words::Sample(samples, excuses, printed)))
}

// Where this command splits the tree, and what it excuses, if it was found.
fn read_split(
    alloc: Global,
    matches: &ArgMatches<'_>,
    command: &str,
) -> Result<Option<(Split, Excuses)>, Error>
    ensures ok { IfOk result (IsSplitReadOf command.now (subcommand_rows_of matches.now)) }
    ensures refused { IfErr result (λ e. AsksForSplit command.now (subcommand_rows_of matches.now) → kind_of e ≡ ErrorKind.OutOfMemory) }
{
    let Some(split) = found_split(matches, command) else {
        return Ok(None);
    };
    let excuses = read_excuses(alloc, matches, split.flags)?;
    if split.at > split.depth {
        return Err(too_deep(alloc, split)?);
    }
    Ok(Some((split, excuses)))
}

// What is said of jobs that are deeper than their tree.
fn too_deep(alloc: Global, split: Split) -> Result<Error, AllocError> {
    let message = text_of_too_deep(alloc, split.at, split.depth)?;
    Command::new(alloc, NAME).error(ErrorKind::ValueValidation, message.as_str())
}
