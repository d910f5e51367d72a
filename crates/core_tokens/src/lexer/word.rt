// Words, variables and marks.
ghost use Rattle.std.specs.Prelude.{◌≡◌, ◌≤◌, length};
ghost use Rattle.std.specs.List.{prefix_len};
ghost use Rattle.std.specs.Option.{option_map};
ghost use Rattle.std.specs.Char.{is_ascii_lowercase};
ghost use Rattle.core_tokens.specs.TokenText.{is_in_name, is_variable_name};
ghost use Rattle.core_tokens.specs.inside.Lexing.{run_of, behind_run, keyword_of, word_at, name_at, mark_of, mark_behind_minus, mark_at};

use crate::token::{Keyword, Mark};

// The keyword of these letters.
#[tactic(auto, unfolding(crate::specs::inside::Lexing::keyword_of))]
fn keyword(word: &[u8]) -> Option<Keyword>
    ensures { result ≡ keyword_of word.now }
{
    if word == b"module".as_slice() {
        return Some(Keyword::Module);
    }
    if word == b"attributes".as_slice() {
        return Some(Keyword::Attributes);
    }
    if word == b"end".as_slice() {
        return Some(Keyword::End);
    }
    if word == b"fun".as_slice() {
        return Some(Keyword::Fun);
    }
    if word == b"let".as_slice() {
        return Some(Keyword::Let);
    }
    if word == b"in".as_slice() {
        return Some(Keyword::In);
    }
    if word == b"case".as_slice() {
        return Some(Keyword::Case);
    }
    if word == b"of".as_slice() {
        return Some(Keyword::Of);
    }
    if word == b"when".as_slice() {
        return Some(Keyword::When);
    }
    if word == b"apply".as_slice() {
        return Some(Keyword::Apply);
    }
    if word == b"call".as_slice() {
        return Some(Keyword::Call);
    }
    if word == b"primop".as_slice() {
        return Some(Keyword::Primop);
    }
    if word == b"do".as_slice() {
        return Some(Keyword::Do);
    }
    if word == b"try".as_slice() {
        return Some(Keyword::Try);
    }
    if word == b"catch".as_slice() {
        return Some(Keyword::Catch);
    }
    if word == b"receive".as_slice() {
        return Some(Keyword::Receive);
    }
    if word == b"after".as_slice() {
        return Some(Keyword::After);
    }
    if word == b"letrec".as_slice() {
        return Some(Keyword::Letrec);
    }
    None
}

// How many lower-case letters come first.
fn letter_count(text: &[u8]) -> usize
    ensures count { result ≡ prefix_len is_ascii_lowercase text.now }
    ensures within { result ≤ length text.now }
{
    text.iter().take_while(|c| c.is_ascii_lowercase()).count()
}

// The lower-case letters at the front, and what follows them.
fn letters(text: &[u8]) -> (&[u8], &[u8])
    ensures front { result.0.now ≡ run_of is_ascii_lowercase text.now }
    ensures rest { result.1.now ≡ behind_run is_ascii_lowercase text.now }
{
    text.split_at(letter_count(text))
}

/// The keyword at the front and what follows it. All the lower-case letters there are one word.
#[tactic(auto, unfolding(crate::specs::inside::Lexing::word_at))]
pub(crate) fn word(text: &[u8]) -> Option<(Keyword, &[u8])>
    ensures { option_map (λ x. (x.0, x.1.now)) result ≡ word_at text.now }
{
    let (letters, rest) = letters(text);
    Some((keyword(letters)?, rest))
}

fn is_in_name(c: u8) -> bool
    ensures { result ≡ is_in_name c }
{
    c.is_ascii_alphanumeric() || c == b'_' || c == b'@'
}

// How many bytes that a name may have come first.
fn name_count(text: &[u8]) -> usize
    ensures count { result ≡ prefix_len is_in_name text.now }
    ensures within { result ≤ length text.now }
{
    text.iter().take_while(|c| is_in_name(**c)).count()
}

// The bytes at the front that a name may have, and what follows them.
fn name_run(text: &[u8]) -> (&[u8], &[u8])
    ensures front { result.0.now ≡ run_of is_in_name text.now }
    ensures rest { result.1.now ≡ behind_run is_in_name text.now }
{
    text.split_at(name_count(text))
}

fn is_variable_name(name: &[u8]) -> bool
    ensures { result ≡ is_variable_name name.now }
{
    match name {
        [] => false,
        [only] => only.is_ascii_uppercase(),
        [first, ..] => first.is_ascii_uppercase() || *first == b'_',
    }
}

/// The variable's name at the front and what follows it.
#[tactic(auto, unfolding(crate::specs::inside::Lexing::name_at))]
pub(crate) fn variable_name(text: &[u8]) -> Option<(&[u8], &[u8])>
    ensures { option_map (λ x. (x.0.now, x.1.now)) result ≡ name_at text.now }
{
    let (name, rest) = name_run(text);
    if is_variable_name(name) {
        Some((name, rest))
    } else {
        None
    }
}

// The mark of this one character.
#[tactic(auto, unfolding(crate::specs::inside::Lexing::mark_of))]
fn short_mark(c: u8) -> Option<Mark>
    ensures { result ≡ mark_of c }
{
    match c {
        b'(' => Some(Mark::LeftParenthesis),
        b')' => Some(Mark::RightParenthesis),
        b'[' => Some(Mark::LeftBracket),
        b']' => Some(Mark::RightBracket),
        b'{' => Some(Mark::LeftBrace),
        b'}' => Some(Mark::RightBrace),
        b'<' => Some(Mark::Less),
        b'>' => Some(Mark::Greater),
        b',' => Some(Mark::Comma),
        b'|' => Some(Mark::Bar),
        b'=' => Some(Mark::Equals),
        b'/' => Some(Mark::Slash),
        b':' => Some(Mark::Colon),
        b'#' => Some(Mark::Hash),
        b'~' => Some(Mark::Tilde),
        _ => None,
    }
}

// The mark of a minus and what follows it.
#[tactic(auto, unfolding(crate::specs::inside::Lexing::mark_behind_minus))]
fn mark_behind_minus(text: &[u8]) -> Option<(Mark, &[u8])>
    ensures { option_map (λ x. (x.0, x.1.now)) result ≡ mark_behind_minus text.now }
{
    match text {
        [b'>', rest @ ..] => Some((Mark::Arrow, rest)),
        [b'|', rest @ ..] => Some((Mark::Note, rest)),
        _ => None,
    }
}

/// The mark at the front and what follows it.
#[tactic(auto, unfolding(crate::specs::inside::Lexing::mark_at))]
pub(crate) fn mark(text: &[u8]) -> Option<(Mark, &[u8])>
    ensures { option_map (λ x. (x.0, x.1.now)) result ≡ mark_at text.now }
{
    match text {
        [] => None,
        [b'-', rest @ ..] => mark_behind_minus(rest),
        [first, rest @ ..] => Some((short_mark(*first)?, rest)),
    }
}
