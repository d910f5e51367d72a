// What the words of a command line are, and what they ask for, as texts.
use program_runs::{NAME, Printed, Words, read_words};
use search_samples::Samples;
use std::alloc::{AllocError, Global};
use std::str;
use std::test::Fail;
use term_core::write_term;
use test_support::{MemorySink, holds, same};
use tree_excuses::Excuses;
use tree_findings::{Options, Search};
use tree_schedules::Delivery;
use world_identities::Flags;

// The lines of a table, which has some.
pub(crate) fn rows_of(table: &str) -> Result<&str, Fail> {
    let rows = table.trim();
    holds(!rows.is_empty(), "the table has no rows")?;
    Ok(rows)
}

// Puts words to others, where blanks are between them.
fn add_words<'a>(words: &mut Vec<&'a str>, text: &'a str) -> Result<(), AllocError> {
    for word in text.split_ascii_whitespace() {
        words.push(word)?;
    }
    Ok(())
}

// The name of the program and the words of a line. Blanks are between them, and a word that has blanks or is empty is
// between quotation marks.
pub(crate) fn words_of(alloc: Global, line: &str) -> Result<Vec<&str>, Fail> {
    let mut words = vec![in alloc; NAME]?;
    let mut is_quoted = false;
    for part in line.split('"') {
        if is_quoted {
            words.push(part)?;
        } else {
            add_words(&mut words, part)?;
        }
        is_quoted = !is_quoted;
    }
    holds(is_quoted, "each quotation mark has another one")?;
    Ok(words)
}

// The flags of what counts as an error.
fn name_of_flags(flags: Flags) -> &'static str {
    match (
        flags.allow_deadlock,
        flags.strict_access,
        flags.idle_servers,
    ) {
        (false, false, false) => "",
        (true, false, false) => ", allow-deadlock",
        (false, true, false) => ", strict-access",
        (true, true, false) => ", allow-deadlock, strict-access",
        (false, false, true) => ", idle-servers",
        _ => ", other flags",
    }
}

// What is printed, and how.
fn name_of_printed(printed: Printed) -> &'static str {
    match (printed.explained, printed.cover, printed.terms) {
        (false, false, false) => "plain",
        (true, false, false) => "explained",
        (false, true, false) => "covered",
        (false, false, true) => "as terms",
        (true, false, true) => "explained as terms",
        _ => "otherwise",
    }
}

// How schedules are searched.
fn name_of_search(search: Search) -> &'static str {
    match search {
        Search::ByTree => "by tree",
        Search::ByStates(Delivery::AnyTime) => "by states",
        Search::ByStates(Delivery::AtOnce) => "by states at once",
    }
}

// When signals are delivered.
fn name_of_delivery(delivery: Delivery) -> &'static str {
    match delivery {
        Delivery::AnyTime => "at any time",
        Delivery::AtOnce => "at once",
    }
}

// What is excused.
fn excused(alloc: Global, excuses: &Excuses) -> Result<String, Fail> {
    let mut text = String::new(alloc);
    if excuses.main_deadlock {
        text.push_str(", main-deadlock")?;
    }
    for term in excuses.normal.as_slice() {
        let mut sink = MemorySink::with_room(alloc, 100)?;
        write_term(term, &mut sink)?;
        text.push_str(", normal ")?;
        text.push_str(str::from_utf8(sink.bytes.as_slice())?)?;
    }
    Ok(text)
}

// The bounds of an exploration, and how it searches.
fn bounds(alloc: Global, options: &Options) -> Result<String, AllocError> {
    let search = name_of_search(options.search);
    format!(in alloc;
        "depth {}, nodes {}, workers {}, {search}",
        options.depth, options.nodes, options.workers
    )
}

// How random schedules are taken.
fn taken(alloc: Global, samples: &Samples) -> Result<String, AllocError> {
    let delivery = name_of_delivery(samples.delivery);
    format!(in alloc;
        "depth {}, runs {}, seed {}, {delivery}",
        samples.depth, samples.runs, samples.seed
    )
}

// What words ask for.
fn asked(alloc: Global, words: &Words) -> Result<String, Fail> {
    match words {
        Words::Replay(schedule) => Ok(format!(in alloc; "replay \"{schedule}\"")?),
        Words::Explore(options, excuses, printed) => {
            let bounds = bounds(alloc, options)?;
            let printed = name_of_printed(*printed);
            let flags = name_of_flags(options.flags);
            let excused = excused(alloc, excuses)?;
            Ok(format!(in alloc; "explore {bounds}, {printed}{flags}{excused}")?)
        }
        Words::ExploreJob(options, excuses, line) => {
            let bounds = bounds(alloc, options)?;
            let flags = name_of_flags(options.flags);
            let excused = excused(alloc, excuses)?;
            Ok(format!(in alloc; "explore job \"{line}\", {bounds}{flags}{excused}")?)
        }
        Words::Check(depth, flags, excuses) => {
            let flags = name_of_flags(*flags);
            let excused = excused(alloc, excuses)?;
            Ok(format!(in alloc; "check depth {depth}{flags}{excused}")?)
        }
        Words::Jobs(depth) => Ok(format!(in alloc; "jobs at {depth}")?),
        Words::Merge(depth, place, flags, excuses) => {
            let flags = name_of_flags(*flags);
            let excused = excused(alloc, excuses)?;
            Ok(format!(in alloc; "merge depth {depth}, at {place}{flags}{excused}")?)
        }
        Words::Sample(samples, excuses, printed) => {
            let taken = taken(alloc, samples)?;
            let printed = name_of_printed(*printed);
            let flags = name_of_flags(samples.flags);
            let excused = excused(alloc, excuses)?;
            Ok(format!(in alloc; "sample {taken}, {printed}{flags}{excused}")?)
        }
    }
}

// Checks that the words of a line ask for this.
pub(crate) fn is_asked(alloc: Global, line: &str, wanted: &str) -> Result<(), Fail> {
    let read = read_words(alloc, words_of(alloc, line)?.as_slice())?;
    same(asked(alloc, &read)?.as_bytes(), wanted.as_bytes())
}

// Checks that the words of each row of a table ask for what follows its arrow.
pub(crate) fn are_asked(alloc: Global, table: &str) -> Result<(), Fail> {
    for row in rows_of(table)?.lines() {
        let Some((line, wanted)) = row.split_once(" -> ") else {
            return Err(Fail::from("a row has words and what they ask for"));
        };
        is_asked(alloc, line, wanted)?;
    }
    Ok(())
}
