// Texts of the whole language: those that are modules, and those that are refused, with fault and place.
use crate::module_texts::{answers, answers_with, are_alike, reads, refuses_every_front};
use core_reader::ReadFault;
use std::alloc::{AllocError, Global};
use std::test::Fail;
use test_support::holds;

// Modules with every form; the last ends with a line break.
const FORMS: &str = "\
module 'm' [( 'main'/0 -| [] )] attributes ['a' = ( {1,( 'x' -| [] )} -| [2] )] ( ( 'main'/0 -| [] ) = ( fun () -> 'ok' -| [] ) -| [] ) end

module 'm' ['main'/0] attributes [] 'main'/0 = fun () -> {5,-3,+3,-0} end

( module 'm' ['main'/0] attributes [] 'main'/0 = fun () -> 'ok' end -| ['x'] )

module 'm' ['main'/0] attributes [] 'main'/0 = fun () -> let <A1_@b,_X,_0,Zz> = <1,2,3,4> in {A1_@b,_X,_0,Zz} end

module 'm' ['main'/0] attributes [] 'main'/0 = fun () -> letX = 1 in X end

module 'm' ['main'/0] attributes [] 'main'/0 = fun () -> case {1,2} of <{X,Y}> when call 'erlang':'>'(X,Y) -> 'a' end end

module 'm' ['main'/0] attributes [] 'main'/0 = fun () -> apply 'f'/1(10000) 'f'/1 = fun (N) -> case N of <0> when 'true' -> 'ok' <M> when 'true' -> apply 'f'/1(call 'erlang':'-'(M,1)) end end

module 'm' ['main'/0] attributes [] 'main'/0 = fun () -> try call 'erlang':'throw'('t') of <X> -> X catch <K,R,S> -> primop 'raise'(S,R) end

module 'm' ['main'/0] attributes [] 'main'/0 = fun () -> call 'erlang':'exit'(catch call 'erlang':'hd'([])) end

module 'm' ['main'/0] attributes [] 'main'/0 = fun () -> let <X,Y> = 'a' in X end

module 'm' ['main'/0] attributes [] 'main'/0 = fun () -> {call 'erlang':'error'('a'),call 'erlang':'error'('b')} end

module 'm' ['main'/0] attributes [] 'main'/0 = fun () -> apply 'f'/1(9999) 'f'/1 = fun (N) -> case N of <0> when 'true' -> 'ok' <M> when 'true' -> apply 'f'/1(call 'erlang':'-'(M,1)) end end

module 'm' ['main'/0] attributes [] 'main'/0 = fun () -> call 'erlang':'+'(9223372036854775807,1) end

module 'm' ['main'/0] attributes [] 'main'/0 = fun () -> apply 'main'/0() end

module 'm' ['main'/0,'module_info'/0]
    attributes ['file' = [{\"m.erl\",1}]]
'main'/0 = ( fun () ->
  case ( 3 -| [5] ) of
    <X> when try let <A> = call 'erlang':'hd'(X)
                 in call 'erlang':'=:='(A,1)
             of <V> -> V catch <T,R> -> 'false' -> 'one'
    ( <Y> when 'true' -> 'other' -| ['compiler_generated'] )
  end -| [{'function',{'main',0}}] )
'module_info'/0 = fun () -> call 'erlang':'get_module_info'('m')
end
";

#[test]
fn reads_every_form(rt: HostRuntime) -> Result<(), Fail> {
    reads(rt.alloc(), FORMS)
}

// Faults of forms.
const FAULTS_OF_FORMS: &str = "\
4 DuplicateVariable at 72
module 'm' ['main'/0] attributes [] 'main'/0 = fun () -> case 1 of <X = X> when 'true' -> 1 end end

7 HigherOrder at 65
module 'm' ['main'/0] attributes [] 'main'/0 = fun () -> apply ( X -| [] )(1) end

2 Expected at 73
module 'm' ['main'/0] attributes [] 'main'/0 = fun () -> apply 'main'/2(1) end

2 Expected at 72
module 'm' ['main'/0] attributes [] 'main'/0 = fun () -> apply 'main'/0(1) end

7 HigherOrder at 63
module 'm' ['main'/0] attributes [] 'main'/0 = fun () -> apply 'main'() end

2 Expected at 67
module 'm' ['main'/0] attributes [] 'main'/0 = fun () -> apply 'f' 'g' end

6 NoFunction at 63
module 'm' ['main'/0] attributes [] 'main'/0 = fun () -> apply 'g'/1(1) end

7 HigherOrder at 76
module 'm' ['main'/0] attributes [] 'main'/0 = fun () -> let X = 1 in apply X() end

8 UnsupportedCall at 57
module 'm' ['main'/0] attributes [] 'main'/0 = fun () -> call ( X -| [] ):'y'() end

8 UnsupportedCall at 57
module 'm' ['main'/0] attributes [] 'main'/0 = fun () -> call 'a':'b'(call 'c':'d'()) end

8 UnsupportedCall at 57
module 'm' ['main'/0] attributes [] 'main'/0 = fun () -> call 'other':'g'() end

8 UnsupportedCall at 57
module 'm' ['main'/0] attributes [] 'main'/0 = fun () -> call 'm':'g'() 'g'/0 = fun () -> 'x' end

7 HigherOrder at 70
module 'm' ['main'/0] attributes [] 'main'/0 = fun () -> call 'a':'b'(fun () -> 1) end

2 Expected at 67
module 'm' ['main'/0] attributes [] 'main'/0 = fun () -> case 1 of end end

2 Expected at 81
module 'm' ['main'/0] attributes [] 'main'/0 = fun () -> try 1 of <A> -> A catch K -> K end

2 Expected at 87
module 'm' ['main'/0] attributes [] 'main'/0 = fun () -> try 1 of <A> -> A catch <K,R,S,T> -> K end

2 Expected at 83
module 'm' ['main'/0] attributes [] 'main'/0 = fun () -> try 1 of <A> -> A catch <K> -> K end

4 DuplicateVariable at 84
module 'm' ['main'/0] attributes [] 'main'/0 = fun () -> try 1 of <A> -> A catch <K,K> -> K end

1 BadToken at 57
module 'm' ['main'/0] attributes [] 'main'/0 = fun () -> $\\q end

2 Expected at 71
module 'm' ['main'/0] attributes [] 'main'/0 = fun () -> case 1 of <X> -> 1 end end

1 BadToken at 58
module 'm' ['main'/0] attributes [] 'main'/0 = fun () -> 1. end

9 EffectInGuard at 76
module 'm' ['main'/0] attributes [] 'main'/0 = fun () -> case 1 of <X> when apply 'main'/0() -> 1 end end

9 EffectInGuard at 76
module 'm' ['main'/0] attributes [] 'main'/0 = fun () -> case 1 of <X> when call 'm':'main'() -> 1 end end

9 EffectInGuard at 76
module 'm' ['main'/0] attributes [] 'main'/0 = fun () -> case 1 of <X> when primop 'match_fail'(1) -> 1 end end

9 EffectInGuard at 76
module 'm' ['main'/0] attributes [] 'main'/0 = fun () -> case 1 of <X> when call 'ets':'lookup'('t',1) -> 1 end end

2 Expected at 67
module 'm' ['main'/0] attributes [] 'main'/0 = fun () -> let X = 1 end

1 BadToken at 62
module 'm' ['main'/0] attributes [] 'main'/0 = fun () -> let <_> = 1 in 1 end

6 NoFunction at 12
module 'm' ['z'/9] attributes [] 'main'/0 = fun () -> {X,apply 'q'/0()} 'main'/0 = fun () -> 'ok' end

2 Expected at 60
module 'm' ['main'/0] attributes [] 'main'/0 = fun () -> {5 -3} end

1 BadToken at 59
module 'm' ['main'/0] attributes [] 'main'/0 = fun () -> 12x end

4 DuplicateVariable at 71
module 'm' ['main'/0] attributes [] 'main'/0 = fun () -> case 1 of <{X,X}> when 'true' -> 1 end end

4 DuplicateVariable at 74
module 'm' ['main'/0] attributes [] 'main'/0 = fun () -> case <1,2> of <X,X> when 'true' -> 1 end end

14 UnsupportedForm at 57
module 'm' ['main'/0] attributes [] 'main'/0 = fun () -> primop 'raise'(1) end

14 UnsupportedForm at 57
module 'm' ['main'/0] attributes [] 'main'/0 = fun () -> primop 'x'(primop 'y'()) end

14 UnsupportedForm at 57
module 'm' ['main'/0] attributes [] 'main'/0 = fun () -> primop 'other'(1) end

6 NoFunction at 64
module 'm' ['main'/0] attributes [] 'main'/0 = fun () -> {apply 'q'/0(),X} end

1 BadToken at 57
module 'm' ['main'/0] attributes [] 'main'/0 = fun () -> \"abc end

3 Unbound at 76
module 'm' ['main'/0] attributes [] 'main'/0 = fun () -> case 1 of <X> when Y -> 1 end end

3 Unbound at 57
module 'm' ['main'/0] attributes [] 'main'/0 = fun () -> X end

4 DuplicateVariable at 64
module 'm' ['main'/0] attributes [] 'main'/0 = fun () -> let <X,X> = <1,2> in X end";

#[test]
fn names_faults_of_forms(rt: HostRuntime) -> Result<(), Fail> {
    answers(rt.alloc(), FAULTS_OF_FORMS)
}

// What a compiler writes of a small module, as Core Erlang 1.0.3.
fn compiled() -> &'static [u8] {
    b"module 'm' ['main'/0,'module_info'/0]
    attributes ['file' = [{\"m.erl\",1}]]
'main'/0 = ( fun () ->
  case ( 3 -| [5] ) of
    <X> when try let <A> = call 'erlang':'hd'(X)
                 in call 'erlang':'=:='(A,1)
             of <V> -> V catch <T,R> -> 'false' -> 'one'
    ( <Y> when 'true' -> 'other' -| ['compiler_generated'] )
  end -| [{'function',{'main',0}}] )
'module_info'/0 = fun () -> call 'erlang':'get_module_info'('m')
end"
}

#[test]
fn refuses_every_front_of_a_compiled_module(rt: HostRuntime) -> Result<(), Fail> {
    refuses_every_front(rt.alloc(), compiled())
}

// So many times the front, a middle, and as many times the back, as the body of `main/0`; and where the middle is.
fn around(
    alloc: Global,
    count: usize,
    front: &[u8],
    middle: &[u8],
    back: &[u8],
) -> Result<(Vec<u8>, usize), AllocError> {
    let mut text = Vec::from_slice(alloc, b"module 'm' [] attributes [] 'main'/0 = fun () -> ")?;
    for _ in 0..count {
        text.extend_from_slice(front)?;
    }
    let place = text.len();
    text.extend_from_slice(middle)?;
    for _ in 0..count {
        text.extend_from_slice(back)?;
    }
    text.extend_from_slice(b" end")?;
    Ok((text, place))
}

// How far before its end a form has the first token one level deeper, and the form, with `?` in the place of an expression:
// a thousand levels are read, one more is not.
const PLACES: &str = "\
0 {?}
0 [?]
2 [1|?]
0 <?>
0 ( ? -| [] )
5 let X = 1 in ?
0 let <X> = ? in 1
2 do 1 ?
0 case ? of X when 'true' -> 1 end
22 case 1 of X when 'true' -> ? end
0 catch ?
0 try ? of X -> 1 catch <A,B> -> 2
0 call 'erlang':'hd'(?)
0 primop 'match_fail'(?)
";

// Checks that a text is read, twice to the same module.
fn reads_alike(alloc: Global, text: &[u8]) -> Result<(), Fail> {
    let is_same = are_alike(alloc, text, text)?;
    holds(is_same, "a text is read to the same module again")
}

// Checks that a form is read a thousand levels deep.
fn nests_to_the_limit(alloc: Global, front: &[u8], back: &[u8]) -> Result<(), Fail> {
    let (text, _) = around(alloc, 999, front, b"1", back)?;
    reads_alike(alloc, text.as_slice())
}

// Checks that a form is refused one level deeper, at a place so far before its end.
fn stops_past_the_limit(
    alloc: Global,
    front: &[u8],
    back: &[u8],
    before: usize,
) -> Result<(), Fail> {
    let (text, place) = around(alloc, 1_000, front, b"1", back)?;
    let fault = ReadFault::TooDeep(place.saturating_sub(before));
    answers_with(alloc, text.as_slice(), Some(fault))
}

// The number of a row, and its form before and after the expression.
fn split_row(row: &str) -> Option<(usize, &str, &str)> {
    let (before, form) = row.split_once(' ')?;
    let (front, back) = form.split_once('?')?;
    Some((before.parse().ok()?, front, back))
}

// Checks that the form of a row is read a thousand levels deep, and not one level deeper.
fn nests(alloc: Global, row: &str) -> Result<(), Fail> {
    let (before, front, back) = split_row(row).ok_or("a row has a number and a form")?;
    nests_to_the_limit(alloc, front.as_bytes(), back.as_bytes())?;
    stops_past_the_limit(alloc, front.as_bytes(), back.as_bytes(), before)
}

pub(super) fn all_nest(alloc: Global, rows: &str) -> Result<(), Fail> {
    for row in rows.lines() {
        nests(alloc, row)?;
    }
    Ok(())
}

#[test]
fn nests_a_thousand_levels_in_every_place(rt: HostRuntime) -> Result<(), Fail> {
    all_nest(rt.alloc(), PLACES)
}
