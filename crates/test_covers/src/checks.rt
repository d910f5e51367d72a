// Checks of covers, from the bytes of a module and a cover to what is written and the status.
use program_runs::{RunFault, Verdict, run_check, status, write_fault};
use search_expansion::Unwatched;
use std::alloc::{AllocError, Global};
use std::test::Fail;
use term_core::{Atom, Term};
use test_support::{MemorySink, MemorySource, same};
use tree_excuses::Excuses;
use world_identities::Flags;

/// A process spawns another, and both end.
pub(crate) const TWO_END: &str =
    "module 'm' ['main'/0,'c'/0] attributes [] 'main'/0 = fun () -> do call 'erlang':'spawn'('m','c',[]) 'x' 'c'/0 = fun () -> 'x' end\n";

// Blocks, with a line `----` between them. The first line of a block says what it is about. Below that is a module, up
// to the line break before the first `$ `. After each `$ ` are the words of a check, and after ` # ` is a remark.
// Below them is what follows the module, up to `<end>`, and below that what the check tells: what it writes, then its
// status, and then the line of its refusal where there is one. A line that ends with a blank has `\x20` there.
const CHECKS: &str = "# A process spawns another, and both end.
module 'm' ['main'/0,'c'/0] attributes [] 'main'/0 = fun () -> do call 'erlang':'spawn'('m','c',[]) 'x' 'c'/0 = fun () -> 'x' end

$ check --depth 3
%%cover
P
P P.1
P.1


<end>
cover good to depth 3
status 0
$ check --depth 3
%%cover
P
P.1 P
P


<end>
cover good to depth 3
status 0
$ check --depth 3 # a step is taken that sleeps
%%cover
P
P P.1
P.1

P

<end>
cover good to depth 3
status 0
$ check --depth 3
%%cover
P
P
P.1

<end>
status 2
cover: 1 Missing at line 2
$ check --depth 3
%%cover
P
P P
<end>
status 2
cover: 2 Strange at line 2
$ check --depth 3
%%cover
P
P P.7
<end>
status 2
cover: 2 Strange at line 2
$ check --depth 3
%%cover
P
<end>
status 2
cover: 3 Short at line 2
$ check --depth 3
%%cover
P
P P.1
P.1



<end>
status 2
cover: 4 Long at line 6
$ check --depth 3
%%cover
p
<end>
status 2
cover: 6 BadLine at line 1
$ check --depth 3
%%cover
P\x20
<end>
status 2
cover: 6 BadLine at line 1
$ check --depth 3 # a last line without its end counts where it is not empty
%%cover
P
P P.1
P.1


P<end>
status 2
cover: 4 Long at line 6
$ check --depth 3 # a step that cannot be taken goes before one that is missing
%%cover
P
P.7
<end>
status 2
cover: 2 Strange at line 2
----
# A process sends to itself and takes that; another one also sends to it. The delivery sleeps after the receive that takes a message which is there.
module 'm' ['main'/0,'c'/1] attributes [] 'main'/0 = fun () -> let <S> = call 'erlang':'self'() in do call 'erlang':'spawn'('m','c',[S]) do call 'erlang':'!'(S,'x') receive <X> when 'true' -> X after 'infinity' -> 'true' 'c'/1 = fun (To) -> call 'erlang':'!'(To,'y') end

$ check --depth 5
%%cover
P
P P.1
P P.1
P P.1
P.1

P P.1 P.1>P



P.1 P.1>P
P.1>P


P.1 P.1>P
P.1>P
P

P
P

<end>
cover good to depth 5
status 0
----
# A process that ends at once.
module 'm' ['main'/0] attributes [] 'main'/0 = fun () -> 'ok' end

$ check --depth 1
%%cover
P<end>
status 2
cover: 3 Short at line 2
$ check --depth 0
%%cover
P
<end>
status 2
cover: 2 Strange at line 1
$ check --depth 0
%%cover

<end>
cover good to depth 0
status 0
$ check --depth 1 # no mark
<end>
status 2
cover: 3 Short at line 1
$ check --depth 1 # a line that is no mark
%%cover\x20
<end>
status 2
cover: 3 Short at line 1
$ check --depth 1 # what follows such a line is part of the module
%%cover\x20
P

<end>
status 2
input: 2 Expected at 75
$ check --depth 1
%%cover<end>
status 2
cover: 3 Short at line 1
$ check --depth 1 # a second mark is a line of the cover
%%cover
%%cover
<end>
status 2
cover: 6 BadLine at line 1
----
# A process that applies itself for ever.
module 'm' ['main'/0] attributes [] 'main'/0 = fun () -> apply 'main'/0() end

$ check --depth 1
%%cover
P

<end>
status 2
cover: 5 ErrorFound at line 2
----
# A process reads a private table of another, which is refused and caught.
module 'm' ['main'/0,'c'/0] attributes [] 'main'/0 = fun () -> do call 'ets':'new'('t',['named_table','private']) call 'erlang':'spawn'('m','c',[]) 'c'/0 = fun () -> try call 'ets':'lookup'('t','a') of <X> -> X catch <K,R> -> 'none' end

$ check --depth 3
%%cover
P
P
P P.2


<end>
cover good to depth 3
status 0
$ check --depth 3 --strict-access
%%cover
P
P
P P.2


<end>
status 2
cover: 5 ErrorFound at line 5
----
# A process that waits for ever.
module 'm' ['main'/0] attributes [] 'main'/0 = fun () -> receive <X> when 'true' -> X after 'infinity' -> 'x' end

$ check --depth 1
%%cover

<end>
status 2
cover: 5 ErrorFound at line 1
$ check --depth 1 --allow-deadlock
%%cover

<end>
cover good to depth 1
status 0
$ check --depth 1 # an error of the node goes before a step that cannot be taken
%%cover
P
<end>
status 2
cover: 5 ErrorFound at line 1
$ check --depth 1
%%cover
x
<end>
status 2
cover: 6 BadLine at line 1
----
# An atom that does not end: the module goes before the cover.
module 'm
$ check --depth 1

%%cover
p
<end>
status 2
input: 1 BadToken at 7
----
# No module.

$ check --depth 1
%%cover
p
<end>
status 2
input: 2 Expected at 0
";

/// The module of a block, and its checks, with `$ ` between them.
pub(crate) fn parts_of_block(block: &str) -> Result<(&str, &str), Fail> {
    let Some((front, checks)) = block.split_once("\n$ ") else {
        return Err(Fail::from("a block has checks"));
    };
    let Some((_, module)) = front.split_once('\n') else {
        return Err(Fail::from("a block has a first line and a module"));
    };
    Ok((module, checks))
}

/// The words of a check, the lines of its cover, and what it tells.
pub(crate) fn parts_of_check(check: &str) -> Result<(&str, &str, &str), Fail> {
    let Some((line, rest)) = check.split_once('\n') else {
        return Err(Fail::from("a check has a line of words"));
    };
    let Some((cover, told)) = rest.split_once("<end>\n") else {
        return Err(Fail::from("a check has an end of its cover"));
    };
    match line.split_once(" # ") {
        Some((words, _)) => Ok((words, cover, told)),
        None => Ok((line, cover, told)),
    }
}

/// The depth of a check, its flags, and what it excuses; the reasons are atoms.
pub(crate) fn options_of(alloc: Global, words: &str) -> Result<(u64, Flags, Excuses), Fail> {
    let mut flags = Flags {
        allow_deadlock: false,
        strict_access: false,
        idle_servers: false,
    };
    let mut excuses = Excuses::none(alloc);
    let Some(options) = words.strip_prefix("check --depth ") else {
        return Err(Fail::from("a check has a depth"));
    };
    let mut options = options.split(' ');
    let Some(depth) = options.next() else {
        return Err(Fail::from("a check has a depth"));
    };
    let Ok(depth) = depth.parse::<u64>() else {
        return Err(Fail::from("a depth is a number"));
    };
    for option in options {
        match option {
            "--allow-deadlock" => flags.allow_deadlock = true,
            "--strict-access" => flags.strict_access = true,
            "--idle-servers" => flags.idle_servers = true,
            "--main-deadlock" => excuses.main_deadlock = true,
            _ => {
                let Some(reason) = option.strip_prefix("--normal=") else {
                    return Err(Fail::from("a check has no such option"));
                };
                excuses.normal.push(Term::Atom(Atom::new(alloc, reason)?))?;
            }
        }
    }
    Ok((depth, flags, excuses))
}

/// The line that reports the outcome on standard error, or nothing.
pub(crate) fn line_of(
    alloc: Global,
    outcome: &Result<Verdict, RunFault>,
) -> Result<Vec<u8>, AllocError> {
    let mut sink = MemorySink::with_room(alloc, 100)?;
    if let Err(fault) = outcome {
        let _ = write_fault(&mut sink, fault);
    }
    Ok(sink.bytes)
}

/// One text after another.
pub(crate) fn joined(alloc: Global, front: &str, behind: &str) -> Result<String, AllocError> {
    let mut text = String::from_str(alloc, front)?;
    text.push_str(behind)?;
    Ok(text)
}

// The bytes of one text after those of another.
fn joined_bytes(alloc: Global, front: &str, behind: &str) -> Result<Vec<u8>, AllocError> {
    let mut bytes = Vec::new(alloc);
    bytes.extend_from_slice(front.as_bytes())?;
    bytes.extend_from_slice(behind.as_bytes())?;
    Ok(bytes)
}

// What a check of these bytes tells; so many of them are read and written at once.
fn told_by_check(
    alloc: Global,
    bytes: &[u8],
    words: &str,
    read: usize,
    write: usize,
) -> Result<Vec<u8>, Fail> {
    let (depth, flags, excuses) = options_of(alloc, words)?;
    let mut source = MemorySource::in_pieces(bytes, read, u64::MAX);
    let mut sink = MemorySink::in_pieces(alloc, 10_000, write)?;
    let outcome = run_check(
        alloc,
        &mut source,
        depth,
        flags,
        &excuses,
        &Unwatched,
        &mut sink,
    );
    let line = line_of(alloc, &outcome)?;
    let ended = format!(in alloc; "status {}\n", status(&outcome))?;
    let mut told = sink.bytes;
    told.extend_from_slice(ended.as_bytes())?;
    told.extend_from_slice(line.as_slice())?;
    Ok(told)
}

// Makes a check in one read and one write for each, and byte by byte.
fn check_holds(alloc: Global, module: &str, check: &str) -> Result<(), Fail> {
    let (words, cover, wanted) = parts_of_check(check)?;
    let bytes = joined_bytes(alloc, module, cover)?;
    for (read, write) in [(10_000, 10_000), (1, 10_000), (10_000, 1)] {
        let got = told_by_check(alloc, &bytes, words, read, write)?;
        same(got.as_slice(), wanted.as_bytes())?;
    }
    Ok(())
}

// Makes the checks of one block.
fn block_holds(alloc: Global, block: &str) -> Result<(), Fail> {
    let (module, checks) = parts_of_block(block)?;
    for check in checks.split("$ ") {
        check_holds(alloc, module, check)?;
    }
    Ok(())
}

#[test]
fn answers_byte_for_byte(rt: HostRuntime) -> Result<(), Fail> {
    for block in CHECKS.split("----\n") {
        block_holds(rt.alloc(), block)?;
    }
    Ok(())
}
