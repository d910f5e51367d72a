// The parts of a schedule's text: steps, pids and numbers.
ghost use Rattle.std.specs.Prelude.{◌≡◌, ℕ, ◌==◌, ◌≤◌, List, slice_index, position, drop, IsTrue, ◌↔◌, IfOk, MatchOption};
ghost use Rattle.std.specs.List.{before_first, position_or_len};
ghost use Rattle.std.specs.Fmt.{decimal};
ghost use Rattle.term_core.specs.Schedule.{IsLawfulNumber, IsLawfulPid, IsLawfulStep};
ghost use Rattle.term_core.specs.Text.{text_of_pid, text_of_step};
ghost use Rattle.term_core.specs.declared.step.Step.{Step};

use crate::pid::Pid;
use crate::step::Step;
use std::alloc::{AllocError, Global};
use std::str;

// The place of the first `mark`.
fn place_of(bytes: &[u8], mark: u8) -> Option<usize>
    ensures { result ≡ position (λ byte. byte == mark) bytes.now }
{
    bytes.iter().position(|byte| *byte == mark)
}

/// Splits before the first `mark`: what comes before it, and the rest, which begins with it. Without a mark, the rest
/// is empty.
pub(crate) fn split_before(bytes: &[u8], mark: u8) -> (&[u8], &[u8])
    ensures front { result.0.now ≡ before_first (λ byte. byte == mark) bytes.now }
    ensures rest { result.1.now ≡ drop (position_or_len (λ byte. byte == mark) bytes.now) bytes.now }
{
    bytes.split_at(place_of(bytes, mark).unwrap_or(bytes.len()))
}

/// The step with this text, or `None` where no step has it.
pub(crate) fn read_step(alloc: Global, word: &[u8]) -> Result<Option<Step>, AllocError>
    ensures { IfOk result (λ found. MatchOption found
        ((step : Step) → IsLawfulStep step → word.now ≡ text_of_step step → ⊥)
        (λ step. IsLawfulStep step × (word.now ≡ text_of_step step))) }
{
    let (from, behind) = split_before(word, b'>');
    let Some(from) = read_pid(alloc, from)? else {
        return Ok(None);
    };
    let Some((_mark, to)) = behind.split_first() else {
        return Ok(Some(Step::Turn(from)));
    };
    let Some(to) = read_pid(alloc, to)? else {
        return Ok(None);
    };
    Ok(Some(Step::Deliver(from, to)))
}

// The pid with this text, or `None` where no pid has it.
fn read_pid(alloc: Global, text: &[u8]) -> Result<Option<Pid>, AllocError>
    ensures { IfOk result (λ found. MatchOption found
        ((pid : List ℕ) → IsLawfulPid pid → text.now ≡ text_of_pid pid → ⊥)
        (λ pid. IsLawfulPid pid × (text.now ≡ text_of_pid pid))) }
{
    let Some((b'P', mut rest)) = text.split_first() else {
        return Ok(None);
    };
    let mut numbers = Vec::new(alloc);
    'numbers: while let Some((dot, behind)) = rest.split_first() {
        if *dot != b'.' {
            return Ok(None);
        }
        let (digits, next) = split_before(behind, b'.');
        let Some(number) = read_number(digits) else {
            return Ok(None);
        };
        numbers.push(number)?;
        rest = next;
    }
    Ok(Some(Pid::new(alloc, numbers)?))
}

// The number that these digits write, or `None` where they write no number.
fn read_number(digits: &[u8]) -> Option<u64>
    ensures { MatchOption result
        ((n : ℕ) → IsLawfulNumber n → digits.now ≡ decimal n → ⊥)
        (λ n. IsLawfulNumber n × (digits.now ≡ decimal n)) }
{
    if !begins_number(digits) {
        return None;
    }
    str::from_utf8(digits).ok()?.parse().ok()
}

// Whether the first byte is a digit that a number may begin with.
fn begins_number(digits: &[u8]) -> bool
    ensures { IsTrue result ↔ ((49 ≤ slice_index digits.now 0) × (slice_index digits.now 0 ≤ 57)) }
{
    matches!(digits.first(), Some(b'1'..=b'9'))
}
