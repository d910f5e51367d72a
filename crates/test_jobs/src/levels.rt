// The jobs of the nodes at a depth, as they are written, and as they are read again.
use core_reader::{Module, read_module};
use search_job_lines::{jobs_at, read_job, write_jobs};
use search_jobs::{Exploration, JobName};
use std::alloc::{AllocError, Global};
use std::test::Fail;
use test_support::{MemorySink, holds, nested, same};
use world_identities::Flags;

/// A process spawns another, and both end.
pub(crate) const TWO_END: &str =
    "module 'm' ['main'/0,'c'/0] attributes [] 'main'/0 = fun () -> do call 'erlang':'spawn'('m','c',[]) 'x' 'c'/0 = fun () -> 'x' end\n";

// Two processes make a table each.
const MAKERS: &str =
    "module 'm' ['main'/0,'c'/0] attributes [] 'main'/0 = fun () -> do call 'erlang':'spawn'('m','c',[]) call 'ets':'new'('a',[]) 'c'/0 = fun () -> call 'ets':'new'('b',[]) end\n";

// Two processes write one object of a table.
const ONE_KEY: &str =
    "module 'm' ['main'/0,'c'/0] attributes [] 'main'/0 = fun () -> do call 'ets':'new'('t',['named_table','public']) do call 'erlang':'spawn'('m','c',[]) call 'ets':'insert'('t',{'a',1}) 'c'/0 = fun () -> call 'ets':'insert'('t',{'a',2}) end\n";

// A process goes on for ever.
const ENDLESS: &str =
    "module 'm' ['main'/0] attributes [] 'main'/0 = fun () -> do call 'erlang':'make_ref'() apply 'main'/0() end\n";

// The module of this name.
fn module_named(name: &str) -> Option<&'static str> {
    match name {
        "two_end" => Some(TWO_END),
        "makers" => Some(MAKERS),
        "one_key" => Some(ONE_KEY),
        "endless" => Some(ENDLESS),
        _ => None,
    }
}

// The name of a module, a depth, and the lines of the jobs there, worked out by hand. At the root no step is taken, and
// none sleeps. The step that is taken first sleeps for the other one, which is independent of it. Where all that is
// enabled sleeps nothing is below. A step that depends on the one that is taken does not sleep.
const LEVELS: &str = r#"
two_end 0: " | "
two_end 1: "P | "
two_end 2: "P P | " "P P.1 | P"
two_end 3: "P P P.1 | "
two_end 4:
two_end 18446744073709551615:
makers 2: "P P | " "P P.1 | P"
makers 3: "P P P | " "P P P.1 | P" "P P.1 P.1 | P"
makers 4: "P P P P.1 | " "P P P.1 P.1 | P"
makers 5: "P P P P.1 P.1 | "
one_key 2: "P P | "
one_key 3: "P P P | " "P P P.2 | "
endless 3: "P P P | "
"#;

/// The lines of a table, which has some.
pub(crate) fn rows_of(table: &str) -> Result<&str, Fail> {
    let rows = table.trim();
    holds(!rows.is_empty(), "the table has no rows")?;
    Ok(rows)
}

// The lines that a row has between quotation marks, each with its end.
fn quoted_lines(alloc: Global, row: &str) -> Result<String, Fail> {
    let mut lines = String::new(alloc);
    let mut is_quoted = false;
    for part in row.split('"') {
        if is_quoted {
            lines.push_str(part)?;
            lines.push_str("\n")?;
        }
        is_quoted = !is_quoted;
    }
    holds(is_quoted, "each quotation mark has another one")?;
    Ok(lines)
}

// The module of a row, its depth, and its lines.
fn level(alloc: Global, row: &str) -> Result<(&'static str, u64, String), Fail> {
    let Some((head, lines)) = row.split_once(':') else {
        return Err(Fail::from("a row has a colon"));
    };
    let Some((name, depth)) = head.split_once(' ') else {
        return Err(Fail::from("a row has a module and a depth"));
    };
    let Some(module) = module_named(name) else {
        return Err(Fail::from("no module has the name"));
    };
    Ok((module, depth.parse()?, quoted_lines(alloc, lines)?))
}

// The lines of jobs, which are written so many bytes at once.
pub(crate) fn lines_of(alloc: Global, jobs: &[JobName], piece: usize) -> Result<Vec<u8>, Fail> {
    let mut sink = MemorySink::in_pieces(alloc, 100_000, piece)?;
    write_jobs(jobs, &mut sink)?;
    Ok(sink.bytes)
}

// Checks that the jobs of a row have its lines, however many bytes are written at once.
fn is_worked_out(alloc: Global, row: &str) -> Result<(), Fail> {
    let (module, depth, lines) = level(alloc, row)?;
    let program = read_module(alloc, module.as_bytes())?;
    let jobs = jobs_at(alloc, &program, depth)?;
    let written = lines_of(alloc, jobs.as_slice(), 1)?;
    same(written.as_slice(), lines.as_bytes())?;
    let written = lines_of(alloc, jobs.as_slice(), 1000)?;
    same(written.as_slice(), lines.as_bytes())
}

#[test]
fn jobs_are_as_they_were_worked_out(rt: HostRuntime) -> Result<(), Fail> {
    for row in rows_of(LEVELS)?.lines() {
        is_worked_out(rt.alloc(), row)?;
    }
    Ok(())
}

/// What is explored to a depth.
pub(crate) fn explored<'m>(program: &'m Module, depth: u64) -> Exploration<'m> {
    Exploration {
        program,
        depth,
        flags: Flags {
            allow_deadlock: false,
            strict_access: false,
            idle_servers: false,
        },
    }
}

// One name.
fn alone(alloc: Global, name: JobName) -> Result<Vec<JobName>, AllocError> {
    let mut names = Vec::new(alloc);
    names.push(name)?;
    Ok(names)
}

/// Checks that a line is read as the job that it writes.
pub(crate) fn is_read(
    alloc: Global,
    exploration: Exploration<'_>,
    line: &[u8],
) -> Result<(), Fail> {
    let job = read_job(alloc, exploration, line)?;
    holds(job.number() == 0, "it has a ticket")?;
    let names = alone(alloc, job.into_name())?;
    let written = lines_of(alloc, names.as_slice(), 1000)?;
    let Some((end, front)) = written.as_slice().split_last() else {
        return Err(Fail::from("nothing is written"));
    };
    holds(*end == b'\n', "its line has no end")?;
    same(front, line)
}

// Checks that each line of a row is read, to the depth of its jobs and to a greater one.
fn are_read(alloc: Global, row: &str) -> Result<(), Fail> {
    let (module, depth, lines) = level(alloc, row)?;
    let program = read_module(alloc, module.as_bytes())?;
    for line in lines.as_str().lines() {
        is_read(alloc, explored(&program, depth), line.as_bytes())?;
        is_read(alloc, explored(&program, u64::MAX), line.as_bytes())?;
    }
    Ok(())
}

#[test]
fn lines_are_read_again(rt: HostRuntime) -> Result<(), Fail> {
    for row in rows_of(LEVELS)?.lines() {
        are_read(rt.alloc(), row)?;
    }
    Ok(())
}

// Three hundred steps, one after another.
#[test]
fn a_long_schedule_is_written_and_read(rt: HostRuntime) -> Result<(), Fail> {
    let alloc = rt.alloc();
    let program = read_module(alloc, ENDLESS.as_bytes())?;
    let jobs = jobs_at(alloc, &program, 300)?;
    let written = lines_of(alloc, jobs.as_slice(), 1000)?;
    let wanted = nested(alloc, "P", " P", 299, " | \n", "")?;
    same(written.as_slice(), wanted.as_bytes())?;
    let line = nested(alloc, "P", " P", 299, " | ", "")?;
    is_read(alloc, explored(&program, 300), line.as_bytes())
}

// Checks that a sink with room for so many bytes fails, and has as many of those that are to be written.
fn stops_at(alloc: Global, jobs: &[JobName], wanted: &[u8], room: usize) -> Result<(), Fail> {
    let mut sink = MemorySink::with_room(alloc, room)?;
    let outcome = write_jobs(jobs, &mut sink);
    if outcome.is_err()
        && sink.has_failed
        && sink.bytes.len() == room
        && wanted.starts_with(sink.bytes.as_slice())
    {
        Ok(())
    } else {
        Err(Fail::new(format_args!("at {room}")))
    }
}

// After each byte.
#[test]
fn a_write_that_fails_leaves_what_was_written(rt: HostRuntime) -> Result<(), Fail> {
    let alloc = rt.alloc();
    let wanted = "P P P | \nP P P.1 | P\nP P.1 P.1 | P\n";
    let program = read_module(alloc, MAKERS.as_bytes())?;
    let jobs = jobs_at(alloc, &program, 3)?;
    for room in 0..wanted.len() {
        stops_at(alloc, jobs.as_slice(), wanted.as_bytes(), room)?;
    }
    Ok(())
}
