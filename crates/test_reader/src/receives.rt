// Texts with `receive`: those that are modules, and those that are refused, with fault and place.
use crate::language::all_nest;
use crate::module_texts::{answers, are_alike, reads, refuses_every_front};
use core_reader::ReadFault;
use std::alloc::{AllocError, Global};
use std::test::Fail;
use test_support::holds;

// Clauses with one pattern, bare, in angles and annotated; several, and none; receives in one another.
const FORMS: &str = "\
module 'm' ['main'/0] attributes [] 'main'/0 = fun () -> receive after 'infinity' -> 'ok' end

module 'm' ['main'/0] attributes [] 'main'/0 = fun () -> receive X when 'true' -> X after 0 -> 'late' end

module 'm' ['main'/0] attributes [] 'main'/0 = fun () -> receive <X> when 'true' -> X after 0 -> 'late' end

module 'm' ['main'/0] attributes [] 'main'/0 = fun () -> receive ( X -| [] ) when 'true' -> X after 0 -> 'late' end

module 'm' ['main'/0] attributes [] 'main'/0 = fun () -> receive ( <X> -| ['a'] ) when 'true' -> X after 0 -> 'late' end

module 'm' ['main'/0] attributes [] 'main'/0 = fun () -> receive ( ( <X> -| [] ) when 'true' -> X -| [] ) after 0 -> 'late' end

module 'm' ['main'/0] attributes [] 'main'/0 = fun () -> receive <{'a',X}> when call 'erlang':'is_pid'(X) -> X ( ( Y -| [1] ) = [Z|_T] when 'true' -> {Y,Z} -| ['x'] ) 'b' when 'true' -> 'c' after 4294967295 -> 'late' end

module 'm' ['main'/0] attributes [] 'main'/0 = fun () -> receive X when 'true' -> receive <Y> when 'true' -> {X,Y} after 1 -> X after 2 -> 'none' end

module 'm' ['main'/0] attributes [] 'main'/0 = fun () -> receive after receive after 0 -> 5 -> 'ok' end

module 'm' ['main'/0] attributes [] 'main'/0 = fun () -> ( receive after 0 -> 'ok' -| [] ) end

module 'm' ['main'/0] attributes [] 'main'/0 = fun () -> case receive X when 'true' -> X after 0 -> 1 of <Y> when 'true' -> Y end end

module 'm' ['main'/0] attributes [] 'main'/0 = fun () -> let X = 1 in receive X when 'true' -> X Y when call 'erlang':'=:='(Y,X) -> Y after X -> X end

module 'm' ['main'/0] attributes [] 'main'/0 = fun () -> try receive X when 'true' -> X after 0 -> 1 of <Y> -> Y catch <K,R> -> receive after 0 -> {K,R} end

module 'm' ['main'/0] attributes [] 'main'/0 = fun () -> receive<X>when'true'->X after 0->'late' end";

#[test]
fn reads_receives(rt: HostRuntime) -> Result<(), Fail> {
    reads(rt.alloc(), FORMS)
}

// Faults in a `receive`: two patterns or none in angles, what is neither a clause nor `after`, and those of the
// scopes.
const FAULTS: &str = "\
2 Expected at 67
module 'm' ['main'/0] attributes [] 'main'/0 = fun () -> receive <X,Y> when 'true' -> X after 0 -> 1 end

2 Expected at 66
module 'm' ['main'/0] attributes [] 'main'/0 = fun () -> receive <> when 'true' -> 1 after 0 -> 1 end

2 Expected at 69
module 'm' ['main'/0] attributes [] 'main'/0 = fun () -> receive ( <X,Y> -| [] ) when 'true' -> X after 0 -> 1 end

2 Expected at 68
module 'm' ['main'/0] attributes [] 'main'/0 = fun () -> receive ( <> -| [] ) when 'true' -> 1 after 0 -> 1 end

2 Expected at 69
module 'm' ['main'/0] attributes [] 'main'/0 = fun () -> receive ( <X,Y> when 'true' -> X -| [] ) after 0 -> 1 end

2 Expected at 86
module 'm' ['main'/0] attributes [] 'main'/0 = fun () -> receive X when 'true' -> X <Y,Z> when 'true' -> Y after 0 -> 1 end

2 Expected at 66
module 'm' ['main'/0] attributes [] 'main'/0 = fun () -> receive X, Y when 'true' -> X after 0 -> 1 end

2 Expected at 67
module 'm' ['main'/0] attributes [] 'main'/0 = fun () -> receive X -> X after 0 -> 1 end

2 Expected at 84
module 'm' ['main'/0] attributes [] 'main'/0 = fun () -> receive X when 'true' -> X end

2 Expected at 65
module 'm' ['main'/0] attributes [] 'main'/0 = fun () -> receive end

2 Expected at 73
module 'm' ['main'/0] attributes [] 'main'/0 = fun () -> receive after 0 end

2 Expected at 71
module 'm' ['main'/0] attributes [] 'main'/0 = fun () -> receive after -> 1 end

2 Expected at 65
module 'm' ['main'/0] attributes [] 'main'/0 = fun () -> receive let X = 1 in X after 0 -> 1 end

2 Expected at 65
module 'm' ['main'/0] attributes [] 'main'/0 = fun () -> receive fun () -> 1 after 0 -> 1 end

2 Expected at 78
module 'm' ['main'/0] attributes [] 'main'/0 = fun () -> receive after 0 -> 1 after 1 -> 2 end

2 Expected at 57
module 'm' ['main'/0] attributes [] 'main'/0 = fun () -> after 0 -> 1 end

2 Expected at 84
module 'm' ['main'/0] attributes [] 'main'/0 = fun () -> receive X when 'true' -> X of Y end

14 UnsupportedForm at 65
module 'm' ['main'/0] attributes [] 'main'/0 = fun () -> receive 1.5 when 'true' -> 1 after 0 -> 1 end

14 UnsupportedForm at 65
module 'm' ['main'/0] attributes [] 'main'/0 = fun () -> receive # when 'true' -> 1 after 0 -> 1 end

7 HigherOrder at 82
module 'm' ['main'/0] attributes [] 'main'/0 = fun () -> receive X when 'true' -> fun () -> X after 0 -> 1 end

7 HigherOrder at 71
module 'm' ['main'/0] attributes [] 'main'/0 = fun () -> receive after 'main'/0 -> 1 end

7 HigherOrder at 63
module 'm' ['main'/0] attributes [] 'main'/0 = fun () -> apply receive after 0 -> 1(1) end

8 UnsupportedCall at 57
module 'm' ['main'/0] attributes [] 'main'/0 = fun () -> call receive after 0 -> 1:'f'() end

8 UnsupportedCall at 82
module 'm' ['main'/0] attributes [] 'main'/0 = fun () -> receive X when 'true' -> call 'a':'b'(X) after 0 -> 1 end

2 Expected at 80
module 'm' ['main'/0] attributes [] 'main'/0 = fun () -> call 'a':'b'(receive <X,Y> when 'true' -> X after 0 -> 1) end

3 Unbound at 71
module 'm' ['main'/0] attributes [] 'main'/0 = fun () -> receive after X -> 1 end

3 Unbound at 95
module 'm' ['main'/0] attributes [] 'main'/0 = fun () -> receive X when 'true' -> X after 0 -> X end

3 Unbound at 72
module 'm' ['main'/0] attributes [] 'main'/0 = fun () -> receive X when Y -> X after 0 -> 1 end

3 Unbound at 101
module 'm' ['main'/0] attributes [] 'main'/0 = fun () -> receive X when 'true' -> X Y when 'true' -> X after 0 -> 1 end

4 DuplicateVariable at 68
module 'm' ['main'/0] attributes [] 'main'/0 = fun () -> receive {X,X} when 'true' -> X after 0 -> 1 end

4 DuplicateVariable at 70
module 'm' ['main'/0] attributes [] 'main'/0 = fun () -> receive X = {X} when 'true' -> X after 0 -> 1 end

6 NoFunction at 88
module 'm' ['main'/0] attributes [] 'main'/0 = fun () -> receive X when 'true' -> apply 'g'/0() after 0 -> 1 end

9 EffectInGuard at 76
module 'm' ['main'/0] attributes [] 'main'/0 = fun () -> case 1 of <X> when receive after 0 -> 'true' -> 1 end end

9 EffectInGuard at 72
module 'm' ['main'/0] attributes [] 'main'/0 = fun () -> receive X when receive after 0 -> 'true' -> 1 after 0 -> 1 end

9 EffectInGuard at 80
module 'm' ['main'/0] attributes [] 'main'/0 = fun () -> receive X when let Y = receive after 0 -> 1 in 'true' -> 1 after 0 -> 1 end

9 EffectInGuard at 72
module 'm' ['main'/0] attributes [] 'main'/0 = fun () -> receive X when apply 'main'/0() -> 1 after 0 -> 1 end";

#[test]
fn names_faults_of_receives(rt: HostRuntime) -> Result<(), Fail> {
    answers(rt.alloc(), FAULTS)
}

// Each place of a `receive` for an expression, as in the table of the other forms.
const PLACES: &str = "\
17 receive X when 'true' -> ? after 0 -> 1
18 receive <X> when 'true' -> ? after 0 -> 1
0 receive after ? -> 1
5 receive after 1 -> ?
";

#[test]
fn nests_receives_a_thousand_levels(rt: HostRuntime) -> Result<(), Fail> {
    all_nest(rt.alloc(), PLACES)
}

// Ways to write one pattern of one clause, which say the same.
const SAME: &str = "\
X when 'true' -> X
<X> when 'true' -> X
( X -| [] ) when 'true' -> X
( ( <X> -| [] ) -| ['a'] ) when 'true' -> X
( <X> when 'true' -> X -| [] )
";

// A receive with this clause, as text.
fn text_of(alloc: Global, clause: &str) -> Result<String, AllocError> {
    format!(in alloc;
        "module 'm' [] attributes [] 'main'/0 = fun () -> receive {clause} after 0 -> 1 end"
    )
}

// Whether two clauses say the same.
fn says_the_same(alloc: Global, one: &str, other: &str) -> Result<bool, ReadFault> {
    let first = text_of(alloc, one)?;
    let second = text_of(alloc, other)?;
    are_alike(alloc, first.as_bytes(), second.as_bytes())
}

#[test]
fn reads_one_pattern_in_every_way(rt: HostRuntime) -> Result<(), Fail> {
    for clause in SAME.lines() {
        let is_same = says_the_same(rt.alloc(), "X when 'true' -> X", clause)?;
        holds(is_same, clause)?;
    }
    Ok(())
}

#[test]
fn refuses_every_front_of_a_receive(rt: HostRuntime) -> Result<(), Fail> {
    let text = text_of(rt.alloc(), "( <{X,Y}> when 'true' -> X -| [1] )")?;
    let text = text.as_bytes();
    refuses_every_front(rt.alloc(), text)
}
