// Checks of covers where some errors are excused: what is excused is no fault of a cover, and all else is.
use crate::checks::{options_of, parts_of_block, parts_of_check};
use core_reader::read_module;
use std::alloc::Global;
use std::test::Fail;
use test_support::same;
use tree_covers::{Unobserved, check_cover};

// Blocks as those of the checks from bytes. Here a cover is its lines alone, and what a check tells is its answer. With
// `--main-deadlock` only deadlocks of the first process count, and each `--normal` has a reason that is excused.
const CHECKS: &str = "# A process that ends with a reason.
module 'm' ['main'/0] attributes [] 'main'/0 = fun () -> call 'erlang':'exit'('bye') end

$ check --depth 1
P

<end>
Err(ErrorFound(2))
$ check --depth 1 --normal=bye
P

<end>
Ok(())
$ check --depth 1 --normal=other --normal=bye
P

<end>
Ok(())
$ check --depth 1 --main-deadlock --normal=other --normal=by
P

<end>
Err(ErrorFound(2))
$ check --depth 1 --normal=bye # the other faults stay what they are
P
P
<end>
Err(Strange(2))
$ check --depth 1 --normal=bye
P
<end>
Err(Short(2))
$ check --depth 1 --normal=bye
P


<end>
Err(Long(3))
----
# A process spawns another, which ends with a reason.
module 'm' ['main'/0,'c'/0] attributes [] 'main'/0 = fun () -> do call 'erlang':'spawn'('m','c',[]) 'x' 'c'/0 = fun () -> call 'erlang':'exit'('bye') end

$ check --depth 3
P
P.1 P
P


<end>
Err(ErrorFound(3))
$ check --depth 3 --normal=bye # below an error that is excused the steps go on
P
P.1 P
P


<end>
Ok(())
$ check --depth 3 --normal=bye
P
P.1 P


<end>
Err(Missing(3))
----
# A process spawns another and ends, and that one waits for ever: a deadlock in which the first process does not wait.
module 'm' ['main'/0,'c'/0] attributes [] 'main'/0 = fun () -> do call 'erlang':'spawn'('m','c',[]) 'x' 'c'/0 = fun () -> receive <X> when 'true' -> X after 'infinity' -> 'x' end

$ check --depth 3
P
P

<end>
Err(ErrorFound(3))
$ check --depth 3 --normal=bye --normal=normal
P
P

<end>
Err(ErrorFound(3))
$ check --depth 3 --main-deadlock
P
P

<end>
Ok(())
$ check --depth 3 --idle-servers --main-deadlock # servers have to be idle, and nothing is unread
P
P

<end>
Ok(())
----
# The same, where that one never takes the message that it gets: it is unread then, whatever is excused.
module 'm' ['main'/0,'c'/0] attributes [] 'main'/0 = fun () -> let <C> = call 'erlang':'spawn'('m','c',[]) in do call 'erlang':'!'(C,'late') 'x' 'c'/0 = fun () -> receive <'go'> when 'true' -> 'x' after 'infinity' -> 'x' end

$ check --depth 4 --main-deadlock
P
P
P P>P.1
P>P.1


<end>
Ok(())
$ check --depth 4 --idle-servers --main-deadlock
P
P
P P>P.1
P>P.1


<end>
Err(ErrorFound(5))
$ check --depth 4 --allow-deadlock --idle-servers --main-deadlock --normal=late --normal=normal
P
P
P P>P.1
P>P.1


<end>
Err(ErrorFound(5))
$ check --depth 3 --idle-servers --main-deadlock
P
P
P P>P.1


<end>
Ok(())
----
# And where both wait: what is unread is no error where the first process waits, and the deadlock is one then.
module 'm' ['main'/0,'c'/0] attributes [] 'main'/0 = fun () -> let <C> = call 'erlang':'spawn'('m','c',[]) in do call 'erlang':'!'(C,'late') receive <'go'> when 'true' -> 'x' after 'infinity' -> 'x' 'c'/0 = fun () -> receive <'go'> when 'true' -> 'x' after 'infinity' -> 'x' end

$ check --depth 3 --allow-deadlock --idle-servers
P
P
P>P.1

<end>
Ok(())
$ check --depth 3 --idle-servers --main-deadlock
P
P
P>P.1

<end>
Err(ErrorFound(4))
----
# A process that waits for ever: a deadlock in which the first process waits.
module 'm' ['main'/0] attributes [] 'main'/0 = fun () -> receive <X> when 'true' -> X after 'infinity' -> 'x' end

$ check --depth 1 --idle-servers --main-deadlock

<end>
Err(ErrorFound(1))
$ check --depth 1 --main-deadlock

<end>
Err(ErrorFound(1))
----
# A process spawns another, and both wait for ever: one in which it waits with another.
module 'm' ['main'/0,'c'/0] attributes [] 'main'/0 = fun () -> do call 'erlang':'spawn'('m','c',[]) receive <X> when 'true' -> X after 'infinity' -> 'x' 'c'/0 = fun () -> receive <X> when 'true' -> X after 'infinity' -> 'x' end

$ check --depth 2 --main-deadlock
P

<end>
Err(ErrorFound(2))
----
# A process ends with a reason, and another waits for ever: of two errors of one node each is asked for.
module 'm' ['main'/0,'c'/0] attributes [] 'main'/0 = fun () -> do call 'erlang':'spawn'('m','c',[]) call 'erlang':'exit'('bye') 'c'/0 = fun () -> receive <X> when 'true' -> X after 'infinity' -> 'x' end

$ check --depth 3 --normal=bye
P
P

<end>
Err(ErrorFound(3))
$ check --depth 3 --main-deadlock
P
P

<end>
Err(ErrorFound(3))
$ check --depth 3 --main-deadlock --normal=bye
P
P

<end>
Ok(())
$ check --depth 2 --main-deadlock # also at the depth
P
P

<end>
Err(ErrorFound(3))
$ check --depth 2 --main-deadlock --normal=bye
P
P

<end>
Ok(())
----
# A process that makes too many applications is refused whatever is excused.
module 'm' ['main'/0] attributes [] 'main'/0 = fun () -> apply 'main'/0() end

$ check --depth 1
P

<end>
Err(ErrorFound(2))
$ check --depth 1 --main-deadlock --normal=bye --normal=normal --normal=killed
P

<end>
Err(ErrorFound(2))
----
# A process reads a private table of another, which is refused and caught.
module 'm' ['main'/0,'c'/0] attributes [] 'main'/0 = fun () -> do call 'ets':'new'('t',['named_table','private']) call 'erlang':'spawn'('m','c',[]) 'c'/0 = fun () -> try call 'ets':'lookup'('t','a') of <X> -> X catch <K,R> -> 'none' end

$ check --depth 3 --main-deadlock --normal=bye --normal=badarg
P
P
P P.2


<end>
Ok(())
$ check --depth 3 --strict-access # a call that is refused is an error
P
P
P P.2


<end>
Err(ErrorFound(5))
$ check --depth 3 --strict-access --main-deadlock --normal=bye --normal=badarg
P
P
P P.2


<end>
Err(ErrorFound(5))
";

// Makes a check of the cover of a module.
fn check_holds(alloc: Global, module: &str, check: &str) -> Result<(), Fail> {
    let (words, cover, wanted) = parts_of_check(check)?;
    let (depth, flags, excuses) = options_of(alloc, words)?;
    let Ok(program) = read_module(alloc, module.as_bytes()) else {
        return Err(Fail::from("a module was refused"));
    };
    let lines = cover.as_bytes();
    let outcome = check_cover(alloc, &program, depth, flags, &excuses, lines, &Unobserved);
    let got = format!(in alloc; "{outcome:?}\n")?;
    same(got.as_bytes(), wanted.as_bytes())
}

// Makes the checks of one block.
fn block_holds(alloc: Global, block: &str) -> Result<(), Fail> {
    let (module, checks) = parts_of_block(block)?;
    for check in checks.split("$ ") {
        check_holds(alloc, module, check)?;
    }
    Ok(())
}

#[test]
fn judges_by_what_counts(rt: HostRuntime) -> Result<(), Fail> {
    for block in CHECKS.split("----\n") {
        block_holds(rt.alloc(), block)?;
    }
    Ok(())
}
