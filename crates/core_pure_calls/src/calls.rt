// The calls by the number of their arguments.
ghost use Rattle.std.specs.Prelude.{◌≡◌, IfOk, OnErr, OnOk, map, unwrap_or};
ghost use Rattle.term_core.specs.Term.{meaning_of};
ghost use Rattle.core_pure_calls.specs.Calls.{answer_of, answer_to_none, answer_to_one, answer_to_three, answer_to_two, kept_by};
ghost use Rattle.core_pure_calls.specs.Outcomes.{outcome_of};

use crate::dictionary::Dictionary;
use crate::outcome::{Outcome, integer_or_refusal, truth_or_refusal};
use crate::{arithmetic, compare, kinds, lists, raise, tuples};
use core_tree::PureCall;
use std::alloc::{AllocError, Global};
use term_core::{Pid, Term, Terms};

// What a call without arguments gives.
fn answer_to_none(
    alloc: Global,
    own: &Pid,
    dictionary: &Dictionary,
    call: PureCall,
) -> Result<Outcome, AllocError>
    ensures { IfOk result (λ outcome. outcome_of outcome ≡ answer_to_none own.now dictionary.now call) }
{
    match call {
        PureCall::OwnPid => Ok(Outcome::Value(Term::Pid(own.copy()?))),
        PureCall::GetAll => Ok(Outcome::Value(dictionary.all_of(alloc)?)),
        PureCall::EraseAll => Ok(Outcome::Value(dictionary.all_of(alloc)?)),
        PureCall::GetKeys => Ok(Outcome::Value(dictionary.keys_of(alloc)?)),
        _ => Ok(raise::undefined()),
    }
}

// What a call of one argument gives.
fn answer_to_one(
    alloc: Global,
    dictionary: &Dictionary,
    call: PureCall,
    a: &Term,
) -> Result<Outcome, AllocError>
    ensures { IfOk result (λ outcome. outcome_of outcome ≡ answer_to_one dictionary.now call (meaning_of a.now)) }
{
    match call {
        PureCall::Keep => Ok(integer_or_refusal(arithmetic::plus_of(a))),
        PureCall::Negate => Ok(integer_or_refusal(arithmetic::negative(a))),
        PureCall::Absolute => Ok(integer_or_refusal(arithmetic::absolute(a))),
        PureCall::BitNot => Ok(integer_or_refusal(arithmetic::bit_not(a))),
        PureCall::Not => Ok(truth_or_refusal(compare::negation(a))),
        PureCall::IsInteger => Ok(truth_or_refusal(Ok(kinds::is_integer(a)))),
        PureCall::IsNumber => Ok(truth_or_refusal(Ok(kinds::is_integer(a)))),
        PureCall::IsAtom => Ok(truth_or_refusal(Ok(kinds::is_atom(a)))),
        PureCall::IsBoolean => Ok(truth_or_refusal(Ok(kinds::is_boolean(a)))),
        PureCall::IsTuple => Ok(truth_or_refusal(Ok(kinds::is_tuple(a)))),
        PureCall::IsList => Ok(truth_or_refusal(Ok(kinds::is_list(a)))),
        PureCall::IsPid => Ok(truth_or_refusal(Ok(kinds::is_pid(a)))),
        PureCall::IsReference => Ok(truth_or_refusal(Ok(kinds::is_reference(a)))),
        PureCall::IsFloat => Ok(truth_or_refusal(Ok(false))),
        PureCall::IsBinary => Ok(truth_or_refusal(Ok(false))),
        PureCall::TupleSize => Ok(integer_or_refusal(tuples::size_of_tuple(a))),
        PureCall::Head => lists::head_of(a),
        PureCall::Tail => lists::tail_of(a),
        PureCall::Length => Ok(integer_or_refusal(lists::length_of(a))),
        PureCall::TupleToList => tuples::list_of_tuple(alloc, a),
        PureCall::ListToTuple => lists::tuple_of_list(alloc, a),
        PureCall::Error => raise::error_with(a),
        PureCall::Exit => raise::exit_with(a),
        PureCall::Throw => raise::throw_of(a),
        PureCall::Reverse => lists::reversed(alloc, a),
        PureCall::Get => Ok(Outcome::Value(dictionary.value_of(alloc, a)?)),
        PureCall::Erase => Ok(Outcome::Value(dictionary.value_of(alloc, a)?)),
        PureCall::GetKeysOf => Ok(Outcome::Value(dictionary.keys_with(alloc, a)?)),
        _ => Ok(raise::undefined()),
    }
}

// What a call of two arguments gives.
fn answer_to_two(
    alloc: Global,
    dictionary: &Dictionary,
    call: PureCall,
    a: &Term,
    b: &Term,
) -> Result<Outcome, AllocError>
    ensures { IfOk result (λ outcome. outcome_of outcome ≡ answer_to_two dictionary.now call (meaning_of a.now) (meaning_of b.now)) }
{
    match call {
        PureCall::Add => Ok(integer_or_refusal(arithmetic::sum(a, b))),
        PureCall::Subtract => Ok(integer_or_refusal(arithmetic::difference(a, b))),
        PureCall::Multiply => Ok(integer_or_refusal(arithmetic::product(a, b))),
        PureCall::Divide => Ok(integer_or_refusal(arithmetic::quotient(a, b))),
        PureCall::Remainder => Ok(integer_or_refusal(arithmetic::remainder(a, b))),
        PureCall::BitAnd => Ok(integer_or_refusal(arithmetic::bit_and(a, b))),
        PureCall::BitOr => Ok(integer_or_refusal(arithmetic::bit_or(a, b))),
        PureCall::BitXor => Ok(integer_or_refusal(arithmetic::bit_xor(a, b))),
        PureCall::Equal => Ok(truth_or_refusal(Ok(compare::are_equal(a, b)))),
        PureCall::NotEqual => Ok(truth_or_refusal(Ok(compare::are_different(a, b)))),
        PureCall::Same => Ok(truth_or_refusal(Ok(compare::are_equal(a, b)))),
        PureCall::NotSame => Ok(truth_or_refusal(Ok(compare::are_different(a, b)))),
        PureCall::Less => Ok(truth_or_refusal(Ok(compare::is_less(a, b)))),
        PureCall::AtMost => Ok(truth_or_refusal(Ok(compare::is_at_most(a, b)))),
        PureCall::Greater => Ok(truth_or_refusal(Ok(compare::is_greater(a, b)))),
        PureCall::AtLeast => Ok(truth_or_refusal(Ok(compare::is_at_least(a, b)))),
        PureCall::And => Ok(truth_or_refusal(compare::conjunction(a, b))),
        PureCall::Or => Ok(truth_or_refusal(compare::disjunction(a, b))),
        PureCall::Xor => Ok(truth_or_refusal(compare::exclusion(a, b))),
        PureCall::Element => tuples::element(a, b),
        PureCall::Append => lists::appended(alloc, a, b),
        PureCall::Without => lists::subtracted(alloc, a, b),
        PureCall::ErrorWith => raise::error_with(a),
        PureCall::Member => Ok(truth_or_refusal(lists::membership(a, b))),
        PureCall::AppendLists => lists::appended(alloc, a, b),
        PureCall::Put => Ok(Outcome::Value(dictionary.value_of(alloc, a)?)),
        _ => Ok(raise::undefined()),
    }
}

// What a call of three arguments gives.
fn answer_to_three(
    alloc: Global,
    call: PureCall,
    a: &Term,
    b: &Term,
    c: &Term,
) -> Result<Outcome, AllocError>
    ensures { IfOk result (λ outcome. outcome_of outcome ≡ answer_to_three call (meaning_of a.now) (meaning_of b.now) (meaning_of c.now)) }
{
    match call {
        PureCall::IsRecord => Ok(truth_or_refusal(kinds::record_test(a, b, c))),
        PureCall::SetElement => tuples::with_element(alloc, a, b, c),
        _ => Ok(raise::undefined()),
    }
}

// What a call of the process with this pid and this dictionary gives.
fn answer_of(
    alloc: Global,
    own: &Pid,
    dictionary: &Dictionary,
    call: PureCall,
    arguments: &[Term],
) -> Result<Outcome, AllocError>
    ensures { IfOk result (λ outcome. outcome_of outcome ≡ answer_of own.now dictionary.now call (map meaning_of arguments.now)) }
{
    match arguments {
        [] => answer_to_none(alloc, own, dictionary, call),
        [a] => answer_to_one(alloc, dictionary, call, a),
        [a, b] => answer_to_two(alloc, dictionary, call, a, b),
        [a, b, c] => answer_to_three(alloc, call, a, b, c),
        _ => Ok(raise::undefined()),
    }
}

// The dictionary after a call that may change it; none after another one.
fn kept_by(
    alloc: Global,
    call: PureCall,
    arguments: &[Term],
    dictionary: &Dictionary,
) -> Result<Option<Dictionary>, AllocError>
    ensures { IfOk result (λ kept. unwrap_or kept dictionary.now ≡ kept_by call (map meaning_of arguments.now) dictionary.now) }
{
    match (call, arguments) {
        (PureCall::Put, [key, value]) => Ok(Some(dictionary.with_value(alloc, key, value)?)),
        (PureCall::Erase, [key]) => Ok(Some(dictionary.without_key(alloc, key)?)),
        (PureCall::EraseAll, []) => Ok(Some(Dictionary::new())),
        _ => Ok(None),
    }
}

/// What a call of the process with this pid and this dictionary gives: its value, or the exception that it raises (Erlang
/// reference manual, modules `erlang` and `lists`). The dictionary is then as the call leaves it.
///
/// A wrong argument is the error `'badarg'`, in arithmetic `'badarith'`, which is looked at first; an
/// integer outside 64 bits is the error `'system_limit'`; `lists:reverse/1` of what has no second cell and
/// is no proper list is the error `'function_clause'`; `get_module_info` and a call with another number of
/// arguments than it has are the error `'undef'`. Terms of any size are answered. The arguments are
/// dropped. It fails with `AllocError` if there is no memory for it, and the dictionary is unchanged then.
pub fn answer(
    alloc: Global,
    own: &Pid,
    dictionary: &mut Dictionary,
    call: PureCall,
    arguments: Terms,
) -> Result<Outcome, AllocError>
    ensures given { IfOk result (λ outcome. outcome_of outcome ≡ answer_of own.now dictionary.old call arguments) }
    ensures kept { OnOk result (dictionary.new ≡ kept_by call arguments dictionary.old) }
    ensures unchanged { OnErr result (dictionary.new ≡ dictionary.old) }
{
    let outcome = answer_of(alloc, own, dictionary, call, arguments.as_slice())?;
    if let Some(kept) = kept_by(alloc, call, arguments.as_slice(), dictionary)? {
        *dictionary = kept;
    }
    Ok(outcome)
}
