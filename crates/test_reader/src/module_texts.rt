// Texts with the fault and the place that the rules give each, and whole modules.
use core_reader::{ReadFault, read_module};
use std::alloc::{AllocError, Global};
use std::str;
use std::test::Fail;
use test_support::{holds, nested};

// Checks that the reader answers to this text with this fault, or with none.
pub(super) fn answers_with(
    alloc: Global,
    text: &[u8],
    fault: Option<ReadFault>,
) -> Result<(), Fail> {
    let answer = read_module(alloc, text).err();
    holds(answer == fault, str::from_utf8(text).unwrap_or("bytes"))
}

// Checks that a text is refused, and not for lack of memory.
fn refuses(alloc: Global, text: &[u8]) -> Result<(), Fail> {
    let answer = read_module(alloc, text).err();
    let is_refused = answer.is_some() && answer != Some(ReadFault::Memory);
    holds(is_refused, str::from_utf8(text).unwrap_or("bytes"))
}

// Checks that a text is read, and none of what it begins with.
pub(super) fn refuses_every_front(alloc: Global, text: &[u8]) -> Result<(), Fail> {
    answers_with(alloc, text, None)?;
    for end in 0..text.len() {
        refuses(alloc, &text[..end])?;
    }
    Ok(())
}

// Whether two texts are read to the same module.
pub(super) fn are_alike(alloc: Global, one: &[u8], other: &[u8]) -> Result<bool, ReadFault> {
    let first = read_module(alloc, one)?;
    let second = read_module(alloc, other)?;
    Ok(first == second)
}

// The fault of a text, as text.
fn fault_of(alloc: Global, text: &[u8]) -> Result<String, AllocError> {
    match read_module(alloc, text) {
        Ok(_) => String::from_str(alloc, "no fault"),
        Err(fault) => format!(in alloc; "{fault}"),
    }
}

// Checks that the reader answers to this text with the fault that has this text.
fn has_fault(alloc: Global, text: &[u8], fault: &str) -> Result<(), Fail> {
    let found = fault_of(alloc, text)?;
    holds(
        found.as_str() == fault,
        str::from_utf8(text).unwrap_or("bytes"),
    )
}

// Checks each row of a table, an empty line between two of them: the reader answers with the fault in the first line to
// the text after it.
pub(super) fn answers(alloc: Global, table: &str) -> Result<(), Fail> {
    for row in table.split("\n\n") {
        let (fault, text) = row.split_once('\n').ok_or("a row has two parts")?;
        has_fault(alloc, text.as_bytes(), fault)?;
    }
    Ok(())
}

// Checks that each text is read, an empty line between two of them.
pub(super) fn reads(alloc: Global, table: &str) -> Result<(), Fail> {
    for text in table.split("\n\n") {
        answers_with(alloc, text.as_bytes(), None)?;
    }
    Ok(())
}

// Texts of modules; the last ends with a line break.
const MODULES: &str = "\
module 'm' ['main'/0] attributes ['a' = 1, 'b' = {'x',[1,2|'y']}, 'c' = []] 'main'/0 = fun () -> 'ok' end

% a
module % b
 'm' ['main'/0] attributes [] 'main'/0 = fun () -> 'ok' end % c

module 'm' ['main'/0] attributes [] 'main'/0 = fun () -> '' end

module 'm' ['main'/0] attributes [] 'main'/0 = fun () -> 9223372036854775807 end

module 'm' ['main'/0] attributes [] 'main'/0 = fun () -> -9223372036854775808 end

module 'm' [] attributes [] 'main'/0 = fun () -> 'ok' end

 \t\r
 module'm'['main'/0]attributes[]'main'/0=fun()->'ok'end
";

#[test]
fn accepts_texts_of_modules(rt: HostRuntime) -> Result<(), Fail> {
    reads(rt.alloc(), MODULES)
}

// Faults of tokens and of the encoding.
const BAD_TOKENS: &str = "\
1 BadToken at 7
module 'm

11 BadInteger at 16
module 'm' ['a'/256]

11 BadInteger at 16
module 'm' ['a'/-1]

1 BadToken at 57
module 'm' ['main'/0] attributes [] 'main'/0 = fun () -> '\\q' end

1 BadToken at 57
module 'm' ['main'/0] attributes [] 'main'/0 = fun () -> @ end

11 BadInteger at 57
module 'm' ['main'/0] attributes [] 'main'/0 = fun () -> -9223372036854775809 end

11 BadInteger at 57
module 'm' ['main'/0] attributes [] 'main'/0 = fun () -> 9223372036854775808 end

1 BadToken at 57
module 'm' ['main'/0] attributes [] 'main'/0 = fun () -> 'o
k' end

1 BadToken at 57
module 'm' ['main'/0] attributes [] 'main'/0 = fun () -> endx end

1 BadToken at 57
module 'm' ['main'/0] attributes [] 'main'/0 = fun () -> foo end

1 BadToken at 63
module 'm' ['main'/0] attributes [] 'main'/0 = fun () -> { end @

1 BadToken at 57
module 'm' ['main'/0] attributes [] 'main'/0 = fun () -> 'ok end";

#[test]
fn names_bad_tokens(rt: HostRuntime) -> Result<(), Fail> {
    answers(rt.alloc(), BAD_TOKENS)?;
    has_fault(rt.alloc(), b"module \xff", "12 NotUtf8 at 7")
}

// Tokens with which the grammar cannot go on.
const UNEXPECTED_TOKENS: &str = "\
2 Expected at 61
module 'm' ['main'/0] attributes [] 'main'/0 = fun () -> 'ok'

2 Expected at 58
module 'm' ['main'/0] attributes [] 'main'/0 = fun () -> [|1] end

2 Expected at 52
module 'm' ['main'/0] attributes [] 'main'/0 = fun (X) -> X end

2 Expected at 60
module 'm' ['main'/0] attributes [] 'main'/0 = fun () -> {1 2} end

2 Expected at 69
module 'm' ['main'/0] attributes [] 'main'/0 = fun () -> let <X> = 1 X end

2 Expected at 66
module 'm' ['main'/0] attributes [] 'main'/0 = fun () -> 'ok' end 'x'

2 Expected at 60
module 'm' ['main'/0] attributes [] 'main'/0 = fun () -> [1,] end";

#[test]
fn names_unexpected_tokens(rt: HostRuntime) -> Result<(), Fail> {
    answers(rt.alloc(), UNEXPECTED_TOKENS)?;
    has_fault(rt.alloc(), b"", "2 Expected at 0")
}

// Forms and calls that are not read.
const FORMS_NOT_READ: &str = "\
7 HigherOrder at 57
module 'm' ['main'/0] attributes [] 'main'/0 = fun () -> fun (X) -> X end

8 UnsupportedCall at 76
module 'm' ['main'/0] attributes [] 'main'/0 = fun () -> let <X> = 'ets' in call X:'lookup'(1,2) end

14 UnsupportedForm at 57
module 'm' ['main'/0] attributes [] 'main'/0 = fun () -> 1.0e5 end

14 UnsupportedForm at 57
module 'm' ['main'/0] attributes [] 'main'/0 = fun () -> 1.5 end

7 HigherOrder at 60
module 'm' ['main'/0] attributes [] 'main'/0 = fun () -> {1,fun () -> 'x'} end

7 HigherOrder at 57
module 'm' ['main'/0] attributes [] 'main'/0 = fun () -> 'main'/0 end

14 UnsupportedForm at 57
module 'm' ['main'/0] attributes [] 'main'/0 = fun () -> # end

7 HigherOrder at 57
module 'm' ['main'/0] attributes [] 'main'/0 = fun () -> letrec 'f'/0 = fun () -> 'x' in 'y' end

14 UnsupportedForm at 57
module 'm' ['main'/0] attributes [] 'main'/0 = fun () -> ~ end

8 UnsupportedCall at 57
module 'm' ['main'/0] attributes [] 'main'/0 = fun () -> call 'ets':'lookup'(1) end

8 UnsupportedCall at 57
module 'm' ['main'/0] attributes [] 'main'/0 = fun () -> call 'ets':'nothing'(1) end";

#[test]
fn names_forms_that_are_not_read(rt: HostRuntime) -> Result<(), Fail> {
    answers(rt.alloc(), FORMS_NOT_READ)
}

// Faults of the scopes; in the last five one module, in each with one name changed.
const FAULTS_OF_SCOPES: &str = "\
13 NoMain at 28
module 'm' [] attributes [] end

5 DuplicateFunction at 62
module 'm' ['main'/0] attributes [] 'main'/0 = fun () -> 'ok' 'main'/0 = fun () -> 'ok' end

4 DuplicateVariable at 77
module 'm' ['main'/0] attributes [] 'main'/0 = fun () -> 'ok' 'f'/2 = fun (X,X) -> X end

6 NoFunction at 21
module 'm' ['main'/0,'g'/1] attributes [] 'main'/0 = fun () -> 'ok' end

13 NoMain at 60
module 'm' ['main'/1] attributes [] 'main'/1 = fun (X) -> X end

13 NoMain at 56
module 'm' ['f'/0] attributes [] 'f'/0 = fun () -> 'ok' end

3 Unbound at 58
module 'm' ['main'/0] attributes [] 'main'/0 = fun () -> {A,B} end

3 Unbound at 77
module 'm' ['main'/0] attributes [] 'main'/0 = fun () -> do let <X> = 1 in X X end

3 Unbound at 57
module 'm' ['main'/0] attributes [] 'main'/0 = fun () -> X 'main'/0 = fun () -> 'ok' end

3 Unbound at 67
module 'm' ['main'/0] attributes [] 'main'/0 = fun () -> let <X> = X in X end

3 Unbound at 57
module 'm' ['main'/0] attributes [] 'main'/0 = fun () -> X end

13 NoMain at 90
module 'm' ['f'/1] attributes [] 'f'/1 = fun (X) -> case X of <1> when 'true' -> 'ok' end end

13 NoMain at 108
module 'm' [] attributes [] 'f'/0 = fun () -> case <> of <> when 'true' -> 'ok' end 'main'/1 = fun (X) -> X end % end

13 NoMain at 124
( ( module 'm' ['f'/1] attributes [] 'f'/1 = fun (X) -> case X of <Y> when 'true' -> case Y of <Z> when 'true' -> Z end end end -| ['end',{'end',\"end\"}] ) -| [( 'end' -| [] )] )

6 NoFunction at 12
module 'm' ['f'/0] attributes [] 'main'/0 = fun () -> apply 'f'/0() 'g'/0 = fun () -> let <X,Z> = <1,2> in case 3 of <Y> when 'true' -> X end end

5 DuplicateFunction at 65
module 'm' ['f'/0] attributes [] 'f'/0 = fun () -> apply 'f'/0() 'f'/0 = fun () -> let <X,Z> = <1,2> in case 3 of <Y> when 'true' -> X end end

4 DuplicateVariable at 93
module 'm' ['f'/0] attributes [] 'main'/0 = fun () -> apply 'f'/0() 'f'/0 = fun () -> let <X,X> = <1,2> in case 3 of <Y> when 'true' -> X end end

3 Unbound at 136
module 'm' ['f'/0] attributes [] 'main'/0 = fun () -> apply 'f'/0() 'f'/0 = fun () -> let <X,Z> = <1,2> in case 3 of <Y> when 'true' -> Q end end

13 NoMain at 143
module 'm' ['f'/0] attributes [] 'start'/0 = fun () -> apply 'f'/0() 'f'/0 = fun () -> let <X,Z> = <1,2> in case 3 of <Y> when 'true' -> X end end";

#[test]
fn names_faults_of_scopes(rt: HostRuntime) -> Result<(), Fail> {
    answers(rt.alloc(), FAULTS_OF_SCOPES)
}

#[test]
fn answers_long_texts(rt: HostRuntime) -> Result<(), Fail> {
    let mut text = vec![in rt.alloc(); b' '; 1_048_576]?;
    answers_with(rt.alloc(), &text, Some(ReadFault::Expected(1_048_576)))?;
    text.push(b' ')?;
    answers_with(rt.alloc(), &text, Some(ReadFault::TooLong(1_048_576)))
}

// A list of half a million integers fills the text.
#[test]
fn reads_a_module_of_a_million_tokens(rt: HostRuntime) -> Result<(), Fail> {
    let front = "module 'm' [] attributes [] 'main'/0 = fun () -> [";
    let mut text = nested(rt.alloc(), front, "1,", 524_260, "1] end", "")?;
    holds(text.len() == 1_048_576, "the text is as long as it may be")?;
    answers_with(rt.alloc(), text.as_bytes(), None)?;
    text.push(' ')?;
    let too_long = Some(ReadFault::TooLong(1_048_576));
    answers_with(rt.alloc(), text.as_bytes(), too_long)
}

// A module with every form that is read.
fn whole() -> &'static [u8] {
    b"module 'm' ['main'/0,'f'/2]
    attributes ['file' = [{\"m.erl\",1}], 'x' = [$a,'b'|[]]]
'main'/0 = fun () ->
    let <T> = call 'ets':'new'('t',['named_table'|[]]) in
    do call 'ets':'insert'(T,{'a',1,-2,{},[]}) % and then
    let X = call 'ets':'lookup'(T,'a') in [X,T|X]
'f'/2 = fun (A,B) -> {A,[B]}
end"
}

#[test]
fn refuses_every_front_of_a_module(rt: HostRuntime) -> Result<(), Fail> {
    refuses_every_front(rt.alloc(), whole())
}

#[test]
fn reads_equal_values_from_one_text(rt: HostRuntime) -> Result<(), Fail> {
    let other = b"module 'm' [] attributes [] 'main'/0 = fun () -> 1 end";
    let is_same = are_alike(rt.alloc(), whole(), whole())?;
    let is_other = !are_alike(rt.alloc(), whole(), other)?;
    holds(is_same && is_other, "one text says one module")
}
