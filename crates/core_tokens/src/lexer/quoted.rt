// Characters, escapes and what is between quotes.
ghost use Rattle.std.specs.Prelude.{◌≡◌, ◌+◌, ◌*◌, ◌^◌, ◌<◌, ◌≤◌, IfSome, Ok, encode_utf8_all, string_bytes};
ghost use Rattle.std.specs.Option.{option_map};
ghost use Rattle.std.specs.Str.{continuation_len};
ghost use Rattle.core_tokens.specs.TokenText.{escape_of, stands_raw};
ghost use Rattle.core_tokens.specs.inside.Lexing.{GivesUnlessMemory, only_character, character_at, octal_digit_at, longer_octal, octal_at, escape_at, unit_at, behind_quote_at, quoted_at, dollar_at};

use super::trouble::TokenError;
use std::alloc::Global;

// How many bytes after this first one belong to its character.
fn continuation_len(first: u8) -> usize
    ensures count { result ≡ continuation_len first }
    ensures bound { result ≤ 3 }
{
    match first {
        0..=127 => 0,
        128..=223 => 1,
        224..=239 => 2,
        240..=255 => 3,
    }
}

// The character that the bytes are in UTF-8.
fn only_character(text: &[u8]) -> Option<char>
    ensures { result ≡ only_character text.now }
{
    let Ok(text) = str::from_utf8(text) else {
        return None;
    };
    let mut characters = text.chars();
    let Some(first) = characters.next() else {
        return None;
    };
    if characters.as_str().is_empty() {
        Some(first)
    } else {
        None
    }
}

/// The first character of bytes in UTF-8, and what follows it. `None` where no character begins.
#[tactic(auto, unfolding(crate::specs::inside::Lexing::character_at))]
pub(crate) fn first_character(text: &[u8]) -> Option<(char, &[u8])>
    ensures { option_map (λ x. (x.0, x.1.now)) result ≡ character_at text.now }
{
    let [first, ..] = text else {
        return None;
    };
    let len = (continuation_len(*first) + 1).min(text.len());
    let (front, rest) = text.split_at(len);
    Some((only_character(front)?, rest))
}

// An octal digit's number, and what follows it.
#[tactic(auto, unfolding(crate::specs::inside::Lexing::octal_digit_at))]
fn octal_digit(text: &[u8]) -> Option<(u32, &[u8])>
    ensures found { option_map (λ x. (x.0, x.1.now)) result ≡ octal_digit_at text.now }
    ensures small { IfSome result (λ x. x.0 < 8) }
{
    match text {
        [digit @ b'0'..=b'7', rest @ ..] => Some((u32::from(digit - b'0'), rest)),
        _ => None,
    }
}

// The number with one more octal digit, if there is one, and what follows.
#[tactic(auto, unfolding(crate::specs::inside::Lexing::longer_octal))]
fn longer_octal(number: u32, text: &[u8]) -> (u32, &[u8])
    requires { number < 2 ^ 16 }
    ensures longer { (result.0, result.1.now) ≡ longer_octal number text.now }
    ensures bound { result.0 < 8 * number + 8 }
{
    match octal_digit(text) {
        Some((digit, rest)) => (8 * number + digit, rest),
        None => (number, text),
    }
}

// The number of one to three octal digits, and what follows them.
#[tactic(auto, unfolding(crate::specs::inside::Lexing::octal_at))]
fn octal(text: &[u8]) -> Option<(u32, &[u8])>
    ensures found { option_map (λ x. (x.0, x.1.now)) result ≡ octal_at text.now }
    ensures small { IfSome result (λ x. x.0 < 512) }
{
    let (first, rest) = octal_digit(text)?;
    let (second, rest) = longer_octal(first, rest);
    Some(longer_octal(second, rest))
}

// What a letter or a sign after a backslash stands for.
fn escape_letter(c: u8) -> Option<char>
    ensures { result ≡ escape_of c }
{
    match c {
        b'b' => Some('\u{8}'),
        b'd' => Some('\u{7f}'),
        b'e' => Some('\u{1b}'),
        b'f' => Some('\u{c}'),
        b'n' => Some('\n'),
        b'r' => Some('\r'),
        b's' => Some(' '),
        b't' => Some('\t'),
        b'v' => Some('\u{b}'),
        b'\\' => Some('\\'),
        b'\'' => Some('\''),
        b'"' => Some('"'),
        _ => None,
    }
}

/// The character of the escape after a backslash, and what follows it.
#[tactic(auto, unfolding(crate::specs::inside::Lexing::escape_at))]
pub(crate) fn escape(text: &[u8]) -> Option<(char, &[u8])>
    ensures { option_map (λ x. (x.0, x.1.now)) result ≡ escape_at text.now }
{
    let [first, rest @ ..] = text else {
        return None;
    };
    if let Some(character) = escape_letter(*first) {
        return Some((character, rest));
    }
    let (number, rest) = octal(text)?;
    Some((char::from_u32(number)?, rest))
}

// Whether a character stands for itself between these quotes.
fn stands_raw(quote: u8, c: char) -> bool
    ensures { result ≡ stands_raw quote c }
{
    !(c == char::from(quote) || c == '\\' || c == '\n' || c == '\r')
}

// One character or escape between quotes, and what follows it.
#[tactic(auto, unfolding(crate::specs::inside::Lexing::unit_at))]
fn unit(quote: u8, text: &[u8]) -> Option<(char, &[u8])>
    ensures { option_map (λ x. (x.0, x.1.now)) result ≡ unit_at quote text.now }
{
    match text {
        [] => None,
        [b'\\', rest @ ..] => escape(rest),
        [_, ..] => {
            let (character, rest) = first_character(text)?;
            stands_raw(quote, character).then_some((character, rest))
        }
    }
}

// What follows a closing quote at the front.
#[tactic(auto, unfolding(crate::specs::inside::Lexing::behind_quote_at))]
fn behind_quote(quote: u8, text: &[u8]) -> Option<&[u8]>
    ensures { option_map (λ x. x.now) result ≡ behind_quote_at quote text.now }
{
    match text {
        [first, rest @ ..] if *first == quote => Some(rest),
        _ => None,
    }
}

/// The characters up to the closing quote, and what follows it.
///
/// # Errors
///
/// `NoToken` where the quote is not closed, or where no character or escape comes before that.
pub(crate) fn quoted(
    alloc: Global,
    quote: u8,
    text: &[u8],
) -> Result<(Vec<char>, &[u8]), TokenError>
    ensures { GivesUnlessMemory (λ x. (x.0.items, x.1.now)) result (quoted_at quote text.now) }
{
    let mut characters = Vec::new(alloc);
    let mut rest = text;
    for _ in 0..text.len() {
        if let Some(after) = behind_quote(quote, rest) {
            return Ok((characters, after));
        }
        let Some((character, after)) = unit(quote, rest) else {
            return Err(TokenError::NoToken);
        };
        characters.push(character)?;
        rest = after;
    }
    Err(TokenError::NoToken)
}

/// The text of these characters.
pub(crate) fn string_of(alloc: Global, characters: &[char]) -> Result<String, TokenError>
    ensures { GivesUnlessMemory (λ s. string_bytes s) result (Ok (encode_utf8_all characters.now)) }
{
    let mut text = String::new(alloc);
    for c in characters {
        text.push(*c)?;
    }
    Ok(text)
}

/// The character or escape after `$`, and what follows it.
#[tactic(auto, unfolding(crate::specs::inside::Lexing::dollar_at))]
pub(crate) fn dollar_character(text: &[u8]) -> Option<(char, &[u8])>
    ensures { option_map (λ x. (x.0, x.1.now)) result ≡ dollar_at text.now }
{
    match text {
        [] => None,
        [b'\\', rest @ ..] => escape(rest),
        [_, ..] => first_character(text),
    }
}
