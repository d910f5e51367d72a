// Integers and floats.
ghost use Rattle.std.specs.Prelude.{◌≡◌, ◌-◌, ◌^◌, ◌≤◌, length, min};
ghost use Rattle.std.specs.List.{prefix_len};
ghost use Rattle.std.specs.Option.{option_map};
ghost use Rattle.std.specs.Char.{is_ascii_digit};
ghost use Rattle.core_tokens.specs.Piece.{shape_of};
ghost use Rattle.core_tokens.specs.TokenText.{decimal_value};
ghost use Rattle.core_tokens.specs.inside.Lexing.{GivesUnlessMemory, run_of, behind_run, sign_at, digits_at, fraction_at, exponent_at, integer_of, number_at};

use super::trouble::TokenError;
use crate::token::Lexeme;

// Whether a minus comes first, and what follows the sign.
#[tactic(auto, unfolding(crate::specs::inside::Lexing::sign_at))]
fn sign(text: &[u8]) -> (bool, &[u8])
    ensures { (result.0, result.1.now) ≡ sign_at text.now }
{
    match text {
        [b'-', rest @ ..] => (true, rest),
        [b'+', rest @ ..] => (false, rest),
        _ => (false, text),
    }
}

// How many digits come first.
fn digit_count(text: &[u8]) -> usize
    ensures count { result ≡ prefix_len is_ascii_digit text.now }
    ensures within { result ≤ length text.now }
{
    text.iter().take_while(|c| c.is_ascii_digit()).count()
}

// The digits at the front, and what follows them.
fn digit_run(text: &[u8]) -> (&[u8], &[u8])
    ensures front { result.0.now ≡ run_of is_ascii_digit text.now }
    ensures rest { result.1.now ≡ behind_run is_ascii_digit text.now }
{
    text.split_at(digit_count(text))
}

// The digits at the front, at least one, and what follows them.
#[tactic(auto, unfolding(crate::specs::inside::Lexing::digits_at))]
fn digits(text: &[u8]) -> Option<(&[u8], &[u8])>
    ensures { option_map (λ x. (x.0.now, x.1.now)) result ≡ digits_at text.now }
{
    let (digits, rest) = digit_run(text);
    match digits {
        [] => None,
        [_, ..] => Some((digits, rest)),
    }
}

// What follows the fraction at the front.
#[tactic(auto, unfolding(crate::specs::inside::Lexing::fraction_at))]
fn behind_fraction(text: &[u8]) -> Option<&[u8]>
    ensures { option_map (λ x. x.now) result ≡ fraction_at text.now }
{
    let [b'.', after @ ..] = text else {
        return None;
    };
    let (_, rest) = digits(after)?;
    Some(rest)
}

// What follows the exponent at the front.
#[tactic(auto, unfolding(crate::specs::inside::Lexing::exponent_at))]
fn behind_exponent(text: &[u8]) -> Option<&[u8]>
    ensures { option_map (λ x. x.now) result ≡ exponent_at text.now }
{
    let [b'e' | b'E', after @ ..] = text else {
        return None;
    };
    let (_, unsigned) = sign(after);
    let (_, rest) = digits(unsigned)?;
    Some(rest)
}

// The number that the digits write, or the largest `u64` where it is larger.
fn magnitude(digits: &[u8]) -> u64
    ensures { result ≡ min (decimal_value digits.now) (2 ^ 64 - 1) }
{
    let mut value = 0u64;
    for digit in digits {
        value = value
            .saturating_mul(10)
            .saturating_add(u64::from(digit.saturating_sub(b'0')));
    }
    value
}

// The integer of these digits and this sign.
#[tactic(auto, unfolding(crate::specs::inside::Lexing::integer_of))]
fn integer(negative: bool, digits: &[u8]) -> Result<i64, TokenError>
    ensures { GivesUnlessMemory (λ n. n) result (integer_of negative (decimal_value digits.now)) }
{
    let magnitude = magnitude(digits);
    let value = if negative {
        0i64.checked_sub_unsigned(magnitude)
    } else {
        0i64.checked_add_unsigned(magnitude)
    };
    value.ok_or(TokenError::OutOfRange)
}

/// The integer or float at the front and what follows it.
///
/// # Errors
///
/// `NoToken` where there is no number, `OutOfRange` for an integer that does not fit 64 bits.
#[tactic(auto, unfolding(crate::specs::inside::Lexing::number_at))]
pub(crate) fn number(text: &[u8]) -> Result<(Lexeme, &[u8]), TokenError>
    ensures { GivesUnlessMemory (λ x. (shape_of x.0, x.1.now)) result (number_at text.now) }
{
    let (negative, unsigned) = sign(text);
    let Some((digits, rest)) = digits(unsigned) else {
        return Err(TokenError::NoToken);
    };
    match behind_fraction(rest) {
        Some(after) => Ok((Lexeme::Float, behind_exponent(after).unwrap_or(after))),
        None => Ok((Lexeme::Integer(integer(negative, digits)?), rest)),
    }
}
