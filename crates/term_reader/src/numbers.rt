// Numbers in decimal, as they are written: without needless zeros.
ghost use Rattle.std.specs.Prelude.{◌≡◌, ◌≢◌, ℕ, ℤ, pos, ◌==◌, ◌≤◌, ◌<◌, ◌^◌, true, [], ◌∷◌, drop, position, slice_index, IfOk, MatchOption, IsTrue, ◌↔◌};
ghost use Rattle.std.specs.Fmt.{decimal, signed_decimal};
ghost use Rattle.std.specs.List.{before_first, position_or_len};
ghost use Rattle.term_core.specs.Integers.{has_64_bits};
ghost use Rattle.term_core.specs.Schedule.{IsLawfulNumber};
ghost use Rattle.term_reader.specs.inside.Leaves.{BeginsInteger, IsOfNoNumbers, IsOfNumbers};

use std::alloc::{AllocError, Global};
use std::str;

// Whether the first byte is a digit that a number of more than one digit may begin with.
fn begins_number(digits: &[u8]) -> bool
    ensures { IsTrue result ↔ ((49 ≤ slice_index digits.now 0) × (slice_index digits.now 0 ≤ 57)) }
{
    matches!(digits.first(), Some(b'1'..=b'9'))
}

// Whether the text is that of the number 0.
fn is_zero(digits: &[u8]) -> bool
    ensures { IsTrue result ↔ (digits.now ≡ 48 ∷ []) }
{
    digits.len() == 1 && digits[0] == b'0'
}

// The number above 0 that these digits write, or `None` where they write no such number.
fn read_positive(digits: &[u8]) -> Option<u64>
    ensures { MatchOption result
        ((n : ℕ) → IsLawfulNumber n → digits.now ≡ decimal n → ⊥)
        (λ n. IsLawfulNumber n × (digits.now ≡ decimal n)) }
{
    if !begins_number(digits) {
        return None;
    }
    str::from_utf8(digits).ok()?.parse().ok()
}

/// The number that these digits are, as `write_number` writes it: without needless zeros; `None` where they
/// are no number below 2^64. It takes no memory.
pub fn read_number(digits: &[u8]) -> Option<u64>
    ensures { MatchOption result
        ((n : ℕ) → n < 2 ^ 64 → digits.now ≡ decimal n → ⊥)
        (λ n. (n < 2 ^ 64) × (digits.now ≡ decimal n)) }
{
    if is_zero(digits) {
        Some(0)
    } else {
        read_positive(digits)
    }
}

// Whether the text begins as an integer other than 0 may.
fn begins_integer(text: &[u8]) -> bool
    ensures { IsTrue result ↔ BeginsInteger text.now }
{
    match text.split_first() {
        Some((b'-', digits)) => begins_number(digits),
        _ => begins_number(text),
    }
}

// The integer other than 0 with this text, or `None` where no such integer has it.
fn read_other_integer(text: &[u8]) -> Option<i64>
    ensures { MatchOption result
        ((n : ℤ) → has_64_bits n ≡ true → n ≢ pos 0 → text.now ≡ signed_decimal n → ⊥)
        (λ n. (has_64_bits n ≡ true) × (text.now ≡ signed_decimal n)) }
{
    if !begins_integer(text) {
        return None;
    }
    str::from_utf8(text).ok()?.parse().ok()
}

/// The integer with this text, or `None` where no integer of 64 bits has it.
pub(crate) fn read_integer(text: &[u8]) -> Option<i64>
    ensures { MatchOption result
        ((n : ℤ) → has_64_bits n ≡ true → text.now ≡ signed_decimal n → ⊥)
        (λ n. (has_64_bits n ≡ true) × (text.now ≡ signed_decimal n)) }
{
    if is_zero(text) {
        Some(0)
    } else {
        read_other_integer(text)
    }
}

// The place of the first dot.
fn place_of_dot(text: &[u8]) -> Option<usize>
    ensures { result ≡ position (λ byte. byte == 46) text.now }
{
    text.iter().position(|byte| *byte == b'.')
}

// Splits before the first dot: what comes before it, and the rest, which begins with it.
fn split_before_dot(text: &[u8]) -> (&[u8], &[u8])
    ensures front { result.0.now ≡ before_first (λ byte. byte == 46) text.now }
    ensures rest { result.1.now ≡ drop (position_or_len (λ byte. byte == 46) text.now) text.now }
{
    text.split_at(place_of_dot(text).unwrap_or(text.len()))
}

/// The numbers that this text writes, each after a dot, or `None` where it is the text of none.
pub(crate) fn read_numbers(alloc: Global, text: &[u8]) -> Result<Option<Vec<u64>>, AllocError>
    ensures { IfOk result (λ found. MatchOption found (IsOfNoNumbers text.now) (λ numbers. IsOfNumbers text.now numbers.items)) }
{
    let mut numbers = Vec::new(alloc);
    let mut rest = text;
    'numbers: while let Some((dot, behind)) = rest.split_first() {
        if *dot != b'.' {
            return Ok(None);
        }
        let (digits, next) = split_before_dot(behind);
        let Some(number) = read_number(digits) else {
            return Ok(None);
        };
        numbers.push(number)?;
        rest = next;
    }
    Ok(Some(numbers))
}
