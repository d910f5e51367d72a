// Arithmetic (Erlang reference manual, "Arithmetic Expressions").
ghost use Rattle.std.specs.Prelude.{◌≡◌, ℤ, pos, SomeIff, FitsSigned};
ghost use Rattle.std.specs.Int.{w64};
ghost use Rattle.term_core.specs.Term.{meaning_of};
ghost use Rattle.core_pure_calls.specs.Answers.{integer_in, whole};
ghost use Rattle.core_pure_calls.specs.Arithmetic.{absolute, bit_and, bit_or, bit_xor, difference, quotient_of, bit_not, plus_of, remainder_of, negative, product, quotient, remainder, sum};
ghost use Rattle.core_pure_calls.specs.Outcomes.{integer_or_refusal};

use crate::outcome::Refusal;
use term_core::Term;

/// The integer that a term is.
pub(crate) fn integer(term: &Term) -> Option<i64>
    ensures { result ≡ integer_in (meaning_of term.now) }
{
    match term {
        Term::Int(number) => Some(*number),
        _ => None,
    }
}

// A result that fits 64 bits.
fn in_range(number: Option<i64>) -> Result<i64, Refusal>
    ensures { (z : ℤ) → SomeIff number (FitsSigned w64 z) z → integer_or_refusal result ≡ whole z }
{
    match number {
        Some(number) => Ok(number),
        None => Err(Refusal::SystemLimit),
    }
}

/// A number of things that fits 64 bits with a sign.
pub(crate) fn count(number: u64) -> Result<i64, Refusal>
    ensures { integer_or_refusal result ≡ whole (pos number) }
{
    match i64::try_from(number) {
        Ok(number) => Ok(number),
        Err(_) => Err(Refusal::SystemLimit),
    }
}

/// `+` of two terms.
pub(crate) fn sum(first: &Term, second: &Term) -> Result<i64, Refusal>
    ensures { integer_or_refusal result ≡ sum (meaning_of first.now) (meaning_of second.now) }
{
    match (integer(first), integer(second)) {
        (Some(a), Some(b)) => in_range(a.checked_add(b)),
        _ => Err(Refusal::BadArithmetic),
    }
}

/// `-` of two terms.
pub(crate) fn difference(first: &Term, second: &Term) -> Result<i64, Refusal>
    ensures { integer_or_refusal result ≡ difference (meaning_of first.now) (meaning_of second.now) }
{
    match (integer(first), integer(second)) {
        (Some(a), Some(b)) => in_range(a.checked_sub(b)),
        _ => Err(Refusal::BadArithmetic),
    }
}

/// `*` of two terms.
pub(crate) fn product(first: &Term, second: &Term) -> Result<i64, Refusal>
    ensures { integer_or_refusal result ≡ product (meaning_of first.now) (meaning_of second.now) }
{
    match (integer(first), integer(second)) {
        (Some(a), Some(b)) => in_range(a.checked_mul(b)),
        _ => Err(Refusal::BadArithmetic),
    }
}

/// `+` of one term.
pub(crate) fn plus_of(term: &Term) -> Result<i64, Refusal>
    ensures { integer_or_refusal result ≡ plus_of (meaning_of term.now) }
{
    match integer(term) {
        Some(number) => Ok(number),
        None => Err(Refusal::BadArithmetic),
    }
}

/// `-` of one term.
pub(crate) fn negative(term: &Term) -> Result<i64, Refusal>
    ensures { integer_or_refusal result ≡ negative (meaning_of term.now) }
{
    match integer(term) {
        Some(number) => in_range(number.checked_neg()),
        None => Err(Refusal::BadArithmetic),
    }
}

// The quotient of two integers, towards zero.
fn quotient_of(dividend: i64, divisor: i64) -> Result<i64, Refusal>
    ensures { integer_or_refusal result ≡ quotient_of dividend divisor }
{
    if divisor == 0 {
        return Err(Refusal::BadArithmetic);
    }
    in_range(dividend.checked_div(divisor))
}

/// `div` of two terms.
pub(crate) fn quotient(first: &Term, second: &Term) -> Result<i64, Refusal>
    ensures { integer_or_refusal result ≡ quotient (meaning_of first.now) (meaning_of second.now) }
{
    match (integer(first), integer(second)) {
        (Some(a), Some(b)) => quotient_of(a, b),
        _ => Err(Refusal::BadArithmetic),
    }
}

// The remainder of the division of two integers towards zero.
fn remainder_of(dividend: i64, divisor: i64) -> Result<i64, Refusal>
    ensures { integer_or_refusal result ≡ remainder_of dividend divisor }
{
    if divisor == 0 {
        return Err(Refusal::BadArithmetic);
    }
    Ok(dividend.wrapping_rem(divisor))
}

/// `rem` of two terms.
pub(crate) fn remainder(first: &Term, second: &Term) -> Result<i64, Refusal>
    ensures { integer_or_refusal result ≡ remainder (meaning_of first.now) (meaning_of second.now) }
{
    match (integer(first), integer(second)) {
        (Some(a), Some(b)) => remainder_of(a, b),
        _ => Err(Refusal::BadArithmetic),
    }
}

/// `abs` of a term.
pub(crate) fn absolute(term: &Term) -> Result<i64, Refusal>
    ensures { integer_or_refusal result ≡ absolute (meaning_of term.now) }
{
    match integer(term) {
        Some(number) => in_range(number.checked_abs()),
        None => Err(Refusal::BadArgument),
    }
}

/// `band` of two terms.
pub(crate) fn bit_and(first: &Term, second: &Term) -> Result<i64, Refusal>
    ensures { integer_or_refusal result ≡ bit_and (meaning_of first.now) (meaning_of second.now) }
{
    match (integer(first), integer(second)) {
        (Some(a), Some(b)) => Ok(a & b),
        _ => Err(Refusal::BadArithmetic),
    }
}

/// `bor` of two terms.
pub(crate) fn bit_or(first: &Term, second: &Term) -> Result<i64, Refusal>
    ensures { integer_or_refusal result ≡ bit_or (meaning_of first.now) (meaning_of second.now) }
{
    match (integer(first), integer(second)) {
        (Some(a), Some(b)) => Ok(a | b),
        _ => Err(Refusal::BadArithmetic),
    }
}

/// `bxor` of two terms.
pub(crate) fn bit_xor(first: &Term, second: &Term) -> Result<i64, Refusal>
    ensures { integer_or_refusal result ≡ bit_xor (meaning_of first.now) (meaning_of second.now) }
{
    match (integer(first), integer(second)) {
        (Some(a), Some(b)) => Ok(a ^ b),
        _ => Err(Refusal::BadArithmetic),
    }
}

/// `bnot` of a term.
pub(crate) fn bit_not(term: &Term) -> Result<i64, Refusal>
    ensures { integer_or_refusal result ≡ bit_not (meaning_of term.now) }
{
    match integer(term) {
        Some(number) => Ok(!number),
        None => Err(Refusal::BadArithmetic),
    }
}
