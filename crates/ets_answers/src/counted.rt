// What a counter comes to (ets manual, `update_counter/3`, `update_counter/4`): what it answers, and the object that it
// leaves.
ghost use Rattle.std.specs.Prelude.{◌≡◌, ◌∷◌, [], IfOk, OnOk, map};
ghost use Rattle.ets_answers.specs.At.{IsCountedAt};
ghost use Rattle.ets_answers.specs.inside.Counting.{AddSums, Answer, Leave, LeaveUnder};
ghost use Rattle.ets_calls.specs.Arguments.{addition_in, increment_in};
ghost use Rattle.term_core.specs.Term.{meaning_of};
ghost use Rattle.world_model.specs.Objects.{additions_of, sums_answer};

use crate::answers::first_or_ok;
use crate::counters::{after_key, counted_from, start_of};
use crate::items::truth;
use ets_calls::{Addition, Increment};
use ets_store::{Object, Table};
use std::alloc::{AllocError, Global};
use std::sync::Arc;
use term_core::{Term, Terms, list_onto};

/// What a counter that is not refused comes to.
#[derive(Drop)]
pub struct Counted {
    /// The answer: the sum, or the list of sums.
    pub answer: Term,
    /// The object that it leaves under its key.
    pub object: Object,
}

// An object as an addition leaves it, with the sum after others. Where the addition is refused all is as it was.
fn add(
    alloc: Global,
    addition: Addition,
    object: Object,
    sums: &mut Vec<Term>,
) -> Result<Object, AllocError>
    ensures sums { OnOk result (AddSums (addition_in addition ∷ []) object (map meaning_of sums.old.items) (map meaning_of sums.new.items)) }
    ensures object { IfOk result (Leave (addition_in addition ∷ []) object) }
{
    match counted_from(addition, object.part(addition.position)) {
        Ok(sum) => {
            sums.push(Term::Int(sum))?;
            object.with_part(alloc, addition.position, Term::Int(sum))
        }
        Err(_) => Ok(object),
    }
}

// The same of several, one after the other.
fn add_each(
    alloc: Global,
    additions: &[Addition],
    object: Object,
    sums: &mut Vec<Term>,
) -> Result<Object, AllocError>
    ensures sums { OnOk result (AddSums (map addition_in additions.now) object (map meaning_of sums.old.items) (map meaning_of sums.new.items)) }
    ensures object { IfOk result (Leave (map addition_in additions.now) object) }
{
    let mut object = object;
    for addition in additions {
        object = add(alloc, *addition, object, sums)?;
    }
    Ok(object)
}

// The same of what is given.
fn add_given(
    alloc: Global,
    key: usize,
    increment: &Increment,
    object: Object,
    sums: &mut Vec<Term>,
) -> Result<Object, AllocError>
    ensures sums { OnOk result (AddSums (additions_of key (increment_in increment.now)) object (map meaning_of sums.old.items) (map meaning_of sums.new.items)) }
    ensures object { IfOk result (Leave (additions_of key (increment_in increment.now)) object) }
{
    match increment {
        Increment::AfterKey(amount) => match after_key(key, *amount, &object) {
            Some(addition) => add(alloc, addition, object, sums),
            None => Ok(object),
        },
        Increment::AtPlace(addition) => add(alloc, *addition, object, sums),
        Increment::InTurn(additions) => add_each(alloc, additions.as_slice(), object, sums),
        Increment::NotGiven => Ok(object),
    }
}

// The answer with these sums.
fn answer_of(alloc: Global, increment: &Increment, sums: Vec<Term>) -> Result<Term, AllocError>
    ensures { IfOk result (λ answer. meaning_of answer ≡ sums_answer (increment_in increment.now) (map meaning_of sums.items)) }
{
    match increment {
        Increment::InTurn(_) => list_onto(alloc, sums, Term::Nil),
        _ => first_or_ok(sums),
    }
}

// What it comes to from this object.
fn counted_on(
    alloc: Global,
    position: usize,
    key: &Term,
    increment: &Increment,
    object: Object,
) -> Result<Counted, AllocError>
    ensures answer { IfOk result (λ counted. Answer (increment_in increment.now) (additions_of position (increment_in increment.now)) object (meaning_of counted.answer)) }
    ensures object { IfOk result (λ counted. LeaveUnder position (meaning_of key.now) (additions_of position (increment_in increment.now)) object counted.object) }
{
    let mut sums = Vec::new(alloc);
    let object = add_given(alloc, position, increment, object, &mut sums)?;
    Ok(Counted {
        answer: answer_of(alloc, increment, sums)?,
        object: object.with_part(alloc, position, key.copy()?)?,
    })
}

// No object, of a counter that is refused.
fn none(alloc: Global) -> Result<Counted, AllocError> {
    let object = Object::new(Arc::new(alloc, Terms::from_vec(Vec::new(alloc)))?);
    Ok(Counted {
        answer: truth(true),
        object,
    })
}

/// What `update_counter/3` and `update_counter/4` come to where no rule refuses them, or `AllocError` if there is no memory
/// for it (ets manual). Of a call that is refused it promises nothing.
pub fn counted_by(
    alloc: Global,
    table: &Table,
    key: &Term,
    increment: &Increment,
    default: &Option<Option<Object>>,
) -> Result<Counted, AllocError>
    ensures { IfOk result (λ counted. IsCountedAt table.now (meaning_of key.now) (increment_in increment.now) default.now (meaning_of counted.answer) counted.object) }
{
    match start_of(table.position(), default, table.rows.objects(key)) {
        Ok(object) => counted_on(alloc, table.position(), key, increment, object.copy()?),
        Err(_) => none(alloc),
    }
}
