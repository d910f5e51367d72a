// The tokens of texts, each with its place, and the faults.
use core_tokens::{Lexeme, ReadFault, Token, tokens};
use std::alloc::{AllocError, Global};
use std::fmt::Write;
use std::test::Fail;
use test_support::{holds, same};

// The characters of a variable.
fn put_variable(out: &mut String, name: &[u8]) -> Result<(), AllocError> {
    for c in name {
        out.push(char::from(*c))?;
    }
    Ok(())
}

// The codes of the characters of a string.
fn put_string(out: &mut String, characters: &[char]) -> Result<(), AllocError> {
    out.push('"')?;
    for c in characters {
        write!(out, "{},", u32::from(*c))?;
    }
    out.push('"')
}

// What a token holds, a string as the codes of its characters.
fn put_lexeme(out: &mut String, lexeme: &Lexeme) -> Result<(), AllocError> {
    match lexeme {
        Lexeme::Word(keyword) => write!(out, "{keyword:?}"),
        Lexeme::Mark(mark) => write!(out, "{mark:?}"),
        Lexeme::Atom(atom) => write!(out, "'{}'", atom.as_str()),
        Lexeme::Variable(name) => put_variable(out, name),
        Lexeme::Integer(number) => write!(out, "{number}"),
        Lexeme::Float => out.push_str("float"),
        Lexeme::Character(c) => write!(out, "${}", u32::from(*c)),
        Lexeme::Text(characters) => put_string(out, characters),
    }
}

// The place of a token, and what it holds.
fn put(out: &mut String, token: &Token) -> Result<(), AllocError> {
    let at = token.at;
    write!(out, " {at}:")?;
    put_lexeme(out, &token.lexeme)
}

fn put_all(out: &mut String, found: &[Token]) -> Result<(), AllocError> {
    for token in found {
        put(out, token)?;
    }
    Ok(())
}

// The tokens of a text, or its fault.
fn put_answer(out: &mut String, answer: &Result<Vec<Token>, ReadFault>) -> Result<(), AllocError> {
    match answer {
        Ok(found) => put_all(out, found),
        Err(fault) => write!(out, " {fault}"),
    }
}

// The tokens of a text, or its fault.
fn shown(alloc: Global, text: &[u8]) -> Result<String, AllocError> {
    let mut out = String::new(alloc);
    put_answer(&mut out, &tokens(alloc, text))?;
    Ok(out)
}

// A row has a text between backquotes, and then its tokens or its fault, a blank before each.

// Blanks, comments, words and marks.
const WORDS: &str = "
``
` \t\n\r`
`% a comment`
`% a \u{e9} comment\nend % more` 15:End
`% one\r% two\n( ` 12:LeftParenthesis
`module attributes end fun let in case of when` 0:Module 7:Attributes 18:End 22:Fun 26:Let 30:In 33:Case 38:Of 41:When
`apply call primop do try catch receive after letrec` 0:Apply 6:Call 11:Primop 18:Do 21:Try 25:Catch 31:Receive 39:After 45:Letrec
`endx` 1 BadToken at 0
`letX` 0:Let 3:X
`foo` 1 BadToken at 0
`modul` 1 BadToken at 0
`end1` 0:End 3:1
`()[]{}<>,|=/:#~` 0:LeftParenthesis 1:RightParenthesis 2:LeftBracket 3:RightBracket 4:LeftBrace 5:RightBrace 6:Less 7:Greater 8:Comma 9:Bar 10:Equals 11:Slash 12:Colon 13:Hash 14:Tilde
`->-|` 0:Arrow 2:Note
`- >` 1 BadToken at 0
`-` 1 BadToken at 0
`+` 1 BadToken at 0
`-->` 1 BadToken at 0
`-x` 1 BadToken at 0
`-5` 0:-5";

// Signs, integers and floats.
const NUMBERS: &str = "
`+5` 0:5
`-0` 0:0
`5-3` 0:5 1:-3
`5->3` 0:5 1:Arrow 3:3
`5+3` 0:5 1:3
`007` 0:7
`12x` 1 BadToken at 2
`1.` 1 BadToken at 1
`1.x` 1 BadToken at 1
`1.5` 0:float
`-1.5e-3` 0:float
`1.5E+10,` 0:float 7:Comma
`1.5e` 1 BadToken at 3
`1.5e-` 1 BadToken at 3
`1.5end` 0:float 3:End
`1.5e3end` 0:float 5:End
`12e5` 1 BadToken at 2
`99999999999999999999999999.5` 0:float
`1.2.3` 1 BadToken at 3
`9223372036854775807` 0:9223372036854775807
`9223372036854775808` 11 BadInteger at 0";

// Integers at the ends of their ranges, and arities.
const RANGES: &str = "
`-9223372036854775808` 0:-9223372036854775808
` -9223372036854775809` 11 BadInteger at 1
`18446744073709551617` 11 BadInteger at 0
`99999999999999999999999999999` 11 BadInteger at 0
`000000000000000000000000000000255` 0:255
`/255` 0:Slash 1:255
`/256` 11 BadInteger at 1
`/ 255` 0:Slash 2:255
`/%c\n256` 11 BadInteger at 4
`/ -1` 11 BadInteger at 2
`/-0` 0:Slash 1:0
`/256.5` 0:Slash 1:float
`/(256` 0:Slash 1:LeftParenthesis 2:256
`256/` 0:256 3:Slash
`256 @` 1 BadToken at 4
`/256 @` 11 BadInteger at 1
`@ /256` 1 BadToken at 0
`X` 0:X
`Xyz_1@A` 0:Xyz_1@A";

// Variables and atoms.
const NAMES: &str = "
`_` 1 BadToken at 0
`_ X` 1 BadToken at 0
`__` 0:__
`_1` 0:_1
`_@c` 0:_@c
`X-1` 0:X 1:-1
`X\u{e9}` 1 BadToken at 1
`'main'` 0:'main'
`''` 0:''
`'\u{e9}\u{20ac}\u{1f600}'X` 0:'\u{e9}\u{20ac}\u{1f600}' 11:X
`'a b\tc'` 0:'a b\tc'
`'\"'` 0:'\"'
`'\\b\\d\\e\\f\\n\\r\\s\\t\\v\\\\\\'\\\"'` 0:'\u{8}\u{7f}\u{1b}\u{c}\n\r \t\u{b}\\'\"'
`'\\101\\7\\477\\1018'` 0:'A\u{7}\u{13f}A8'
`'\\1a'` 0:'\u{1}a'
`'\\18'` 0:'\u{1}8'
`'\\377'` 0:'\u{ff}'";

// What is wrong between quotes, strings and characters.
const QUOTES: &str = "
`'unclosed` 1 BadToken at 0
`end 'unclosed` 1 BadToken at 4
`'a\nb'` 1 BadToken at 0
`'a\rb'` 1 BadToken at 0
`'\\^c'` 1 BadToken at 0
`'\\q'` 1 BadToken at 0
`'\\8'` 1 BadToken at 0
`'\\` 1 BadToken at 0
`'` 1 BadToken at 0
`\"\"` 0:\"\"
`\"a\\n\u{20ac}'\"` 0:\"97,10,8364,39,\"
`\"open` 1 BadToken at 0
`\"a\nb\"` 1 BadToken at 0
`$a` 0:$97
`$ $\n$\u{20ac}` 0:$32 2:$10 4:$8364
`$\\n$\\101$\\\\$'$\"` 0:$10 3:$65 8:$92 11:$39 13:$34
`$\\477$\\1018` 0:$319 5:$65 10:8
`$%c` 1 BadToken at 2
`$\\q` 1 BadToken at 0
`$\\` 1 BadToken at 0
`$` 1 BadToken at 0
`'a'\u{e9}` 1 BadToken at 3
`; ` 1 BadToken at 0
`module 'm' ['main'/0]` 0:Module 7:'m' 11:LeftBracket 12:'main' 18:Slash 19:0 20:RightBracket
`\u{a0}` 1 BadToken at 0";

// Checks that the text of a row has its tokens, or its fault; the first backquote of the row is left out.
fn expect(alloc: Global, row: &str) -> Result<(), Fail> {
    let (text, want) = row.split_once('`').ok_or("a row has two parts")?;
    let found = shown(alloc, text.as_bytes())?;
    same(found.as_bytes(), want.as_bytes())
}

// Checks each row, which is after a line break and a backquote.
fn expect_all(alloc: Global, table: &str) -> Result<(), Fail> {
    let rows = table.strip_prefix("\n`").ok_or("a table has a row")?;
    for row in rows.split("\n`") {
        expect(alloc, row)?;
    }
    Ok(())
}

#[test]
fn reads_tokens(rt: HostRuntime) -> Result<(), Fail> {
    expect_all(rt.alloc(), WORDS)?;
    expect_all(rt.alloc(), NUMBERS)?;
    expect_all(rt.alloc(), RANGES)?;
    expect_all(rt.alloc(), NAMES)?;
    expect_all(rt.alloc(), QUOTES)
}

// The faults, and their texts.
const FAULTS: [(ReadFault, &str); 16] = [
    (ReadFault::BadToken(21), "1 BadToken at 21"),
    (ReadFault::Expected(22), "2 Expected at 22"),
    (ReadFault::Unbound(23), "3 Unbound at 23"),
    (
        ReadFault::DuplicateVariable(24),
        "4 DuplicateVariable at 24",
    ),
    (
        ReadFault::DuplicateFunction(25),
        "5 DuplicateFunction at 25",
    ),
    (ReadFault::NoFunction(26), "6 NoFunction at 26"),
    (ReadFault::HigherOrder(27), "7 HigherOrder at 27"),
    (ReadFault::UnsupportedCall(28), "8 UnsupportedCall at 28"),
    (ReadFault::EffectInGuard(29), "9 EffectInGuard at 29"),
    (ReadFault::TooDeep(30), "10 TooDeep at 30"),
    (ReadFault::BadInteger(31), "11 BadInteger at 31"),
    (ReadFault::NotUtf8(32), "12 NotUtf8 at 32"),
    (ReadFault::NoMain(33), "13 NoMain at 33"),
    (ReadFault::UnsupportedForm(34), "14 UnsupportedForm at 34"),
    (ReadFault::Memory, "15 Memory"),
    (ReadFault::TooLong(36), "16 TooLong at 36"),
];

// Checks that a fault is written so.
fn writes_fault(alloc: Global, fault: ReadFault, want: &str) -> Result<(), Fail> {
    let text = format!(in alloc; "{fault}")?;
    same(text.as_bytes(), want.as_bytes())
}

#[test]
fn writes_faults(rt: HostRuntime) -> Result<(), Fail> {
    for (fault, want) in &FAULTS {
        writes_fault(rt.alloc(), *fault, want)?;
    }
    Ok(())
}

// A byte so many times over.
fn repeated(alloc: Global, byte: u8, count: usize) -> Result<Vec<u8>, AllocError> {
    let mut bytes = Vec::new(alloc);
    for _ in 0..count {
        bytes.push(byte)?;
    }
    Ok(bytes)
}

// A string of a million characters that is not closed.
fn open_string(alloc: Global) -> Result<Vec<u8>, AllocError> {
    let mut text = repeated(alloc, b'"', 1)?;
    let characters = repeated(alloc, b'a', 1_000_000)?;
    text.extend_from_slice(&characters)?;
    Ok(text)
}

// How many tokens a text has.
fn count(alloc: Global, text: &[u8]) -> Result<usize, ReadFault> {
    let found = tokens(alloc, text)?;
    Ok(found.len())
}

#[test]
fn long_texts(rt: HostRuntime) -> Result<(), Fail> {
    let alloc = rt.alloc();
    let marks = repeated(alloc, b',', 1_000_000)?;
    holds(count(alloc, &marks)? == 1_000_000, "each mark is a token")?;
    let mut text = open_string(alloc)?;
    let fault = count(alloc, &text).err();
    holds(fault == Some(ReadFault::BadToken(0)), "a string is closed")?;
    text.push(b'"')?;
    holds(count(alloc, &text)? == 1, "a string is one token")
}
