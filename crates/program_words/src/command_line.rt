// The commands of the program and their arguments, and what the parser found of them.
ghost use Rattle.std.specs.Prelude.{◌≡◌, codes, option_map, IfOk, IfErr};
ghost use Rattle.clap.specs.Values.{kind_of};
ghost use Rattle.clap.specs.Words.{app_of, found_of, one_of, rows_of, subcommand_rows_of};
ghost use Rattle.program_words.specs.Words.{delivers_at_once, is_format};
ghost use Rattle.program_words.specs.inside.CommandLine.{IsArgument, IsMadeAs, at_rule, check_command, command_line, depth_rule, explore_command, flag_rule, format_rule, job_rule, jobs_command, merge_command, nodes_rule, normal_rule, replay_command, runs_rule, sample_command, seed_rule, split_command, workers_rule};
ghost use Rattle.program_words.specs.inside.Found.{AreFlagsOf, AreOptionsOf, AreSamplesOf, IsCheckOf, IsPrintedOf, IsSearchOf, IsSplitOf, ReadsFlag, ReadsNumber, asks_terms, format_in, is_unknown, job_in, rows_in, schedule_in};

use crate::help;
use crate::words::Printed;
use clap::error::ErrorKind;
use clap::{Arg, ArgAction, ArgMatches, Command, Error, value_parser};
use search_samples::Samples;
use std::alloc::Global;
use tree_findings::{Options, Search};
use tree_schedules::Delivery;
use world_identities::Flags;

/// The name of the program.
pub const NAME: &str = "schedule_explorer";

/// How many nodes a worker visits before it hands the rest back.
pub const BUDGET: u64 = 64;

// How many steps a schedule may have.
const MOST_STEPS: i64 = 400;

// How many nodes may be visited, where `--nodes` says so.
const MOST_NODES: i64 = 10_000_000;

// How many threads may explore.
const MOST_WORKERS: i64 = 16;

// How many random schedules may be followed.
const MOST_RUNS: i64 = 1_000_000;

// The greatest seed.
const MOST_SEED: i64 = 4_294_967_295;

// How many are followed where `--runs` is not given.
const DEFAULT_RUNS: &str = "1000";

// Their seed where `--seed` is not given.
const DEFAULT_SEED: &str = "1";

// Where a command splits the tree: into the jobs at one level, and what is above them.
#[derive(Clone, Copy)]
pub(crate) struct Split {
    // How deep the tree is.
    pub depth: u64,
    // How deep the jobs are in it.
    pub at: u64,
    // What counts as an error.
    pub flags: Flags,
}

/// The program's command line.
pub(crate) fn command<'a>(alloc: Global) -> Result<Command<'a>, Error>
    ensures line { IfOk result (λ made. app_of made ≡ command_line) }
    ensures memory { IfErr result (λ e. kind_of e ≡ ErrorKind.OutOfMemory) }
{
    let explorer = Command::new(alloc, NAME)
        .about("Explores the schedules of a concurrent Core Erlang module")
        .after_help(help::OF_THE_PROGRAM)
        .subcommand_required(true)
        .subcommand(replay_command(alloc)?)?
        .subcommand(explore_command(alloc)?)?
        .subcommand(check_command(alloc)?)?
        .subcommand(jobs_command(alloc)?)?
        .subcommand(merge_command(alloc)?)?
        .subcommand(sample_command(alloc)?)?;
    Ok(explorer)
}

// `replay SCHEDULE`.
fn replay_command<'a>(alloc: Global) -> Result<Command<'a>, Error>
    ensures line { IfOk result (λ made. IsMadeAs replay_command made) }
    ensures memory { IfErr result (λ e. kind_of e ≡ ErrorKind.OutOfMemory) }
{
    let schedule = Arg::new(alloc, "SCHEDULE")
        .required(true)
        .action(ArgAction::Set)
        .help("Steps with one blank between them, as one word: \"P P.2 P>P.2\"");
    let replay = Command::new(alloc, "replay")
        .about("Replays one schedule, and prints what each of its steps did")
        .after_help(help::OF_REPLAY)
        .arg(schedule)?;
    Ok(replay)
}

// `explore` and its options.
fn explore_command<'a>(alloc: Global) -> Result<Command<'a>, Error>
    ensures line { IfOk result (λ made. IsMadeAs explore_command made) }
    ensures memory { IfErr result (λ e. kind_of e ≡ ErrorKind.OutOfMemory) }
{
    let explore = Command::new(alloc, "explore")
        .about("Explores all schedules up to a depth, and reports their errors")
        .after_help(help::OF_EXPLORE)
        .arg(depth_option(alloc))?
        .arg(nodes_option(alloc))?
        .arg(workers_option(alloc))?
        .arg(allow_deadlock_flag(alloc))?
        .arg(main_deadlock_flag(alloc))?
        .arg(idle_servers_flag(alloc))?
        .arg(normal_option(alloc))?
        .arg(strict_access_flag(alloc))?
        .arg(explain_flag(
            alloc,
            "Prints below each finding what its schedule does, and\nsays which schedules the result is about",
        ))?
        .arg(flag(
            alloc,
            "cover",
            "Prints after a clean report its cover, for `check`",
        ))?
        .arg(job_option(alloc))?
        .arg(flag(
            alloc,
            "states",
            "Searches by states, level by level, in place of the tree",
        ))?
        .arg(at_once_flag(alloc, "Delivers signals at once, and searches by states"))?
        .arg(format_option(alloc))?;
    Ok(explore)
}

// `check` and its options.
fn check_command<'a>(alloc: Global) -> Result<Command<'a>, Error>
    ensures line { IfOk result (λ made. IsMadeAs check_command made) }
    ensures memory { IfErr result (λ e. kind_of e ≡ ErrorKind.OutOfMemory) }
{
    let check = Command::new(alloc, "check")
        .about("Checks a cover: that no schedule up to a depth shows an error")
        .after_help(help::OF_CHECK)
        .arg(depth_option(alloc))?
        .arg(allow_deadlock_flag(alloc))?
        .arg(main_deadlock_flag(alloc))?
        .arg(idle_servers_flag(alloc))?
        .arg(normal_option(alloc))?
        .arg(strict_access_flag(alloc))?;
    Ok(check)
}

// `jobs` and its options.
fn jobs_command<'a>(alloc: Global) -> Result<Command<'a>, Error>
    ensures line { IfOk result (λ made. IsMadeAs jobs_command made) }
    ensures memory { IfErr result (λ e. kind_of e ≡ ErrorKind.OutOfMemory) }
{
    split_command(
        alloc,
        "jobs",
        "Lists the jobs at one depth of the tree of schedules",
        help::OF_JOBS,
    )
}

// `merge` and its options.
fn merge_command<'a>(alloc: Global) -> Result<Command<'a>, Error>
    ensures line { IfOk result (λ made. IsMadeAs merge_command made) }
    ensures memory { IfErr result (λ e. kind_of e ≡ ErrorKind.OutOfMemory) }
{
    split_command(
        alloc,
        "merge",
        "Makes one report from those of the jobs at one depth and of the tree above",
        help::OF_MERGE,
    )
}

// A command that splits the tree, and its options.
fn split_command<'a>(
    alloc: Global,
    name: &'a str,
    about: &'a str,
    after_help: &'a str,
) -> Result<Command<'a>, Error>
    ensures line { IfOk result (λ made. IsMadeAs (split_command name.entry.now) made) }
    ensures memory { IfErr result (λ e. kind_of e ≡ ErrorKind.OutOfMemory) }
{
    let split = Command::new(alloc, name)
        .about(about)
        .after_help(after_help)
        .arg(depth_option(alloc))?
        .arg(at_option(alloc))?
        .arg(allow_deadlock_flag(alloc))?
        .arg(main_deadlock_flag(alloc))?
        .arg(idle_servers_flag(alloc))?
        .arg(normal_option(alloc))?
        .arg(strict_access_flag(alloc))?;
    Ok(split)
}

// `sample` and its options.
fn sample_command<'a>(alloc: Global) -> Result<Command<'a>, Error>
    ensures line { IfOk result (λ made. IsMadeAs sample_command made) }
    ensures memory { IfErr result (λ e. kind_of e ≡ ErrorKind.OutOfMemory) }
{
    let sample = Command::new(alloc, "sample")
        .about("Follows random schedules up to a depth, and reports their errors")
        .after_help(help::OF_SAMPLE)
        .arg(depth_option(alloc))?
        .arg(runs_option(alloc))?
        .arg(seed_option(alloc))?
        .arg(allow_deadlock_flag(alloc))?
        .arg(main_deadlock_flag(alloc))?
        .arg(idle_servers_flag(alloc))?
        .arg(normal_option(alloc))?
        .arg(strict_access_flag(alloc))?
        .arg(explain_flag(alloc, "Prints below each finding what its schedule does"))?
        .arg(at_once_flag(alloc, "Delivers signals at once"))?
        .arg(format_option(alloc))?;
    Ok(sample)
}

// `--depth N`.
fn depth_option<'a>(alloc: Global) -> Arg<'a>
    ensures { IsArgument depth_rule result }
{
    Arg::new(alloc, "depth")
        .long("depth")
        .required(true)
        .action(ArgAction::Set)
        .value_name("N")
        .value_parser(value_parser!(u64).range(0..=MOST_STEPS))
        .help("How many steps a schedule may have, from 0 to 400")
}

// `--at D`.
fn at_option<'a>(alloc: Global) -> Arg<'a>
    ensures { IsArgument at_rule result }
{
    Arg::new(alloc, "at")
        .long("at")
        .required(true)
        .action(ArgAction::Set)
        .value_name("D")
        .value_parser(value_parser!(u64).range(0..=MOST_STEPS))
        .help("How many steps lead to each job, from 0 to N")
}

// `--nodes N`.
fn nodes_option<'a>(alloc: Global) -> Arg<'a>
    ensures { IsArgument nodes_rule result }
{
    Arg::new(alloc, "nodes")
        .long("nodes")
        .action(ArgAction::Set)
        .value_name("N")
        .value_parser(value_parser!(u64).range(1..=MOST_NODES))
        .default_value("1000000")
        .help("How many nodes of the tree of schedules may be visited,\nfrom 1 to 10000000")
}

// `--workers N`.
fn workers_option<'a>(alloc: Global) -> Arg<'a>
    ensures { IsArgument workers_rule result }
{
    Arg::new(alloc, "workers")
        .long("workers")
        .action(ArgAction::Set)
        .value_name("N")
        .value_parser(value_parser!(u64).range(1..=MOST_WORKERS))
        .default_value("1")
        .help("How many threads explore, from 1 to 16")
}

// `--runs R`.
fn runs_option<'a>(alloc: Global) -> Arg<'a>
    ensures { IsArgument runs_rule result }
{
    Arg::new(alloc, "runs")
        .long("runs")
        .action(ArgAction::Set)
        .value_name("R")
        .value_parser(value_parser!(u64).range(1..=MOST_RUNS))
        .default_value(DEFAULT_RUNS)
        .help("How many random schedules are followed,\nfrom 1 to 1000000")
}

// `--seed S`.
fn seed_option<'a>(alloc: Global) -> Arg<'a>
    ensures { IsArgument seed_rule result }
{
    Arg::new(alloc, "seed")
        .long("seed")
        .action(ArgAction::Set)
        .value_name("S")
        .value_parser(value_parser!(u64).range(0..=MOST_SEED))
        .default_value(DEFAULT_SEED)
        .help("From which number the schedules are drawn,\nfrom 0 to 4294967295")
}

// `--allow-deadlock`.
fn allow_deadlock_flag<'a>(alloc: Global) -> Arg<'a>
    ensures { IsArgument (flag_rule (codes "allow-deadlock")) result }
{
    flag(
        alloc,
        "allow-deadlock",
        "Counts no deadlock as an error, and lists none",
    )
}

// `--main-deadlock`.
fn main_deadlock_flag<'a>(alloc: Global) -> Arg<'a>
    ensures { IsArgument (flag_rule (codes "main-deadlock")) result }
{
    flag(
        alloc,
        "main-deadlock",
        "Counts a deadlock as an error only where P waits",
    )
}

// `--idle-servers`.
fn idle_servers_flag<'a>(alloc: Global) -> Arg<'a>
    ensures { IsArgument (flag_rule (codes "idle-servers")) result }
{
    flag(
        alloc,
        "idle-servers",
        "Counts a deadlock as an error only where P waits; and\nmessages that stay unread, where P has ended",
    )
}

// `--normal TERM`.
fn normal_option<'a>(alloc: Global) -> Arg<'a>
    ensures { IsArgument normal_rule result }
{
    Arg::new(alloc, "normal")
        .long("normal")
        .action(ArgAction::Append)
        .value_name("TERM")
        .help("Takes an end with this reason as normal; may be given\n16 times")
}

// `--job LINE`.
fn job_option<'a>(alloc: Global) -> Arg<'a>
    ensures { IsArgument job_rule result }
{
    Arg::new(alloc, "job")
        .long("job")
        .action(ArgAction::Set)
        .value_name("LINE")
        .help(
            "Visits the nodes of one job only, whose LINE `jobs`\nprints; not with --explain, --cover or --format terms",
        )
}

// `--format FORM`.
fn format_option<'a>(alloc: Global) -> Arg<'a>
    ensures { IsArgument format_rule result }
{
    Arg::new(alloc, "format")
        .long("format")
        .action(ArgAction::Set)
        .value_name("FORM")
        .help(
            "How the report is written: `text`, or `terms` for one\nErlang term a line [default: text]",
        )
}

// `--strict-access`.
fn strict_access_flag<'a>(alloc: Global) -> Arg<'a>
    ensures { IsArgument (flag_rule (codes "strict-access")) result }
{
    flag(
        alloc,
        "strict-access",
        "Counts a table call as an error if it is refused because\nof who makes it",
    )
}

// `--explain`, of which each command says what it prints.
fn explain_flag<'a>(alloc: Global, help: &'a str) -> Arg<'a>
    ensures { IsArgument (flag_rule (codes "explain")) result }
{
    flag(alloc, "explain", help)
}

// `--at-once`, of which each command says what comes of it.
fn at_once_flag<'a>(alloc: Global, help: &'a str) -> Arg<'a>
    ensures { IsArgument (flag_rule (codes "at-once")) result }
{
    flag(alloc, "at-once", help)
}

// An option without a value.
fn flag<'a>(alloc: Global, name: &'a str, help: &'a str) -> Arg<'a>
    ensures { IsArgument (flag_rule name.entry.now) result }
{
    Arg::new(alloc, name)
        .long(name)
        .action(ArgAction::SetTrue)
        .help(help)
}

/// The schedule that is to be replayed.
pub(crate) fn found_schedule<'a>(matches: &ArgMatches<'a>) -> Option<&'a str>
    ensures { option_map (λ word. word.now) result ≡ schedule_in (subcommand_rows_of matches.now) }
{
    matches.subcommand_matches("replay")?.get_str("SCHEDULE")
}

/// The options of the exploration, and what it prints.
pub(crate) fn found_options(matches: &ArgMatches<'_>) -> Option<(Options, Printed)>
    ensures { AreOptionsOf (subcommand_rows_of matches.now) result }
{
    let given = matches.subcommand_matches("explore")?;
    let options = Options {
        depth: found_number(given, "depth")?,
        nodes: found_number(given, "nodes")?,
        budget: BUDGET,
        workers: found_number(given, "workers")?,
        search: found_search(given),
        flags: found_flags(given),
    };
    Some((options, found_printed(given)))
}

/// The depth to which a cover is checked, and what counts as an error.
pub(crate) fn found_check(matches: &ArgMatches<'_>) -> Option<(u64, Flags)>
    ensures { IsCheckOf (subcommand_rows_of matches.now) result }
{
    let given = matches.subcommand_matches("check")?;
    Some((found_number(given, "depth")?, found_flags(given)))
}

/// The depth of the tree that this command splits, that of its jobs, and what counts as an error.
pub(crate) fn found_split(matches: &ArgMatches<'_>, command: &str) -> Option<Split>
    ensures { IsSplitOf command.now (subcommand_rows_of matches.now) result }
{
    let given = matches.subcommand_matches(command)?;
    let depth = found_number(given, "depth")?;
    let at = found_number(given, "at")?;
    Some(Split {
        depth,
        at,
        flags: found_flags(given),
    })
}

/// How random schedules are taken, and what is printed of them.
pub(crate) fn found_samples(matches: &ArgMatches<'_>) -> Option<(Samples, Printed)>
    ensures { AreSamplesOf (subcommand_rows_of matches.now) result }
{
    let given = matches.subcommand_matches("sample")?;
    let depth = found_number(given, "depth")?;
    let runs = found_number(given, "runs")?;
    let seed = found_number(given, "seed")?;
    let samples = Samples {
        depth,
        runs,
        seed,
        delivery: found_delivery(given),
        flags: found_flags(given),
    };
    let printed = Printed {
        explained: given.get_flag("explain"),
        cover: false,
        terms: asks_terms(format_of(given)),
    };
    Some((samples, printed))
}

/// The line of the job that is explored alone.
pub(crate) fn found_job<'a>(matches: &ArgMatches<'a>) -> Option<&'a str>
    ensures { option_map (λ line. line.now) result ≡ job_in (subcommand_rows_of matches.now) }
{
    matches.subcommand_matches("explore")?.get_str("job")
}

/// The text of the format that is given of the command that was found.
pub(crate) fn found_format<'a>(matches: &ArgMatches<'a>) -> Option<&'a str>
    ensures { option_map (λ text. text.now) result ≡ format_in (rows_in (subcommand_rows_of matches.now)) }
{
    match matches.subcommand() {
        Some((_, given)) => format_of(given),
        None => None,
    }
}

/// Whether this format, if there is one, is neither `text` nor `terms`.
pub(crate) fn is_unknown(format: Option<&str>) -> bool
    ensures { result ≡ is_unknown (option_map (λ text. text.now) format.entry) }
{
    match format {
        Some(text) => !is_format(text),
        None => false,
    }
}

// Whether the text is that of a format.
fn is_format(text: &str) -> bool
    ensures { result ≡ is_format text.now }
{
    text == "text" || text == "terms"
}

// Whether this format, if there is one, is that of terms.
fn asks_terms(format: Option<&str>) -> bool
    ensures { result ≡ asks_terms (option_map (λ text. text.now) format.entry) }
{
    match format {
        Some(text) => text == "terms",
        None => false,
    }
}

// The text of `--format`.
fn format_of<'a>(matches: &ArgMatches<'a>) -> Option<&'a str>
    ensures { option_map (λ text. text.now) result ≡ format_in (rows_of (found_of matches.now)) }
{
    matches.get_str("format")
}

// What counts as an error.
fn found_flags(matches: &ArgMatches<'_>) -> Flags
    ensures { AreFlagsOf (rows_of (found_of matches.now)) result }
{
    Flags {
        allow_deadlock: matches.get_flag("allow-deadlock"),
        strict_access: matches.get_flag("strict-access"),
        idle_servers: matches.get_flag("idle-servers"),
    }
}

// How the schedules are searched.
fn found_search(matches: &ArgMatches<'_>) -> Search
    ensures { IsSearchOf (rows_of (found_of matches.now)) result }
{
    let at_once = matches.get_flag("at-once");
    let states = matches.get_flag("states");
    if at_once {
        Search::ByStates(Delivery::AtOnce)
    } else if states {
        Search::ByStates(Delivery::AnyTime)
    } else {
        Search::ByTree
    }
}

// When signals are delivered in random schedules.
fn found_delivery(matches: &ArgMatches<'_>) -> Delivery
    ensures { ReadsFlag (one_of (codes "at-once") (rows_of (found_of matches.now))) (delivers_at_once result) }
{
    let at_once = matches.get_flag("at-once");
    if at_once {
        Delivery::AtOnce
    } else {
        Delivery::AnyTime
    }
}

// What an exploration prints.
fn found_printed(matches: &ArgMatches<'_>) -> Printed
    ensures { IsPrintedOf (rows_of (found_of matches.now)) result }
{
    Printed {
        explained: matches.get_flag("explain"),
        cover: matches.get_flag("cover"),
        terms: asks_terms(format_of(matches)),
    }
}

// The number that an option has.
fn found_number(matches: &ArgMatches<'_>, id: &str) -> Option<u64>
    ensures { ReadsNumber (one_of id.now (rows_of (found_of matches.now))) result }
{
    matches.get_one::<u64>(id)
}
