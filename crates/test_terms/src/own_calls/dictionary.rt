// The process dictionary: calls one after another, each with what it answers.
use super::answers::answers;
use core_pure_calls::Dictionary;
use std::alloc::Global;
use std::test::Fail;
use test_support::holds;

// Checks that the calls answer this in turn, and gives the dictionary that they leave.
fn played(alloc: Global, rows: &str) -> Result<Dictionary, Fail> {
    let mut dictionary = Dictionary::new();
    for row in rows.lines() {
        answers(alloc, &mut dictionary, row)?;
    }
    Ok(dictionary)
}

// A key has one value, the one that was put last; keys are in their order, whichever was put first.
const PUT: &str = "\
erlang:put/2 {'b',1} = 'undefined'
erlang:put/2 {'a',2} = 'undefined'
erlang:put/2 {'b',3} = 1
erlang:put/2 {7,'x'} = 'undefined'
erlang:get/1 {'b'} = 3
erlang:get/1 {'c'} = 'undefined'
erlang:get/0 {} = [{7,'x'},{'a',2},{'b',3}]
erlang:get_keys/0 {} = [7,'a','b']
erlang:put/2 {'a','undefined'} = 2
";

// A key of any kind, and the value that is there no longer after it was erased.
const ERASED: &str = "\
erlang:erase/1 {'a'} = 'undefined'
erlang:put/2 {{'a',1},[]} = 'undefined'
erlang:put/2 {P.2,1} = 'undefined'
erlang:put/2 {[],1} = 'undefined'
erlang:get_keys/1 {1} = [P.2,[]]
erlang:get_keys/1 {[]} = [{'a',1}]
erlang:get_keys/1 {2} = []
erlang:erase/1 {P.2} = 1
erlang:get/1 {P.2} = 'undefined'
erlang:erase/0 {} = [{{'a',1},[]},{[],1}]
erlang:get/0 {} = []
";

#[test]
fn a_key_has_the_value_that_was_put_last(rt: HostRuntime) -> Result<(), Fail> {
    played(rt.alloc(), PUT)?;
    Ok(())
}

#[test]
fn what_is_erased_is_gone(rt: HostRuntime) -> Result<(), Fail> {
    let left = played(rt.alloc(), ERASED)?;
    holds(left.is_same(&Dictionary::new()), "nothing is left")
}

// Checks that a dictionary and its copy are the same, and not once a key is erased in one of them.
fn stays_as_it_is(
    alloc: Global,
    dictionary: &mut Dictionary,
    copied: &Dictionary,
) -> Result<(), Fail> {
    holds(copied.is_same(dictionary), "a copy is the same")?;
    answers(alloc, dictionary, "erlang:erase/1 {7} = 'x'")?;
    let is_one_same = copied.is_same(dictionary) || dictionary.is_same(copied);
    holds(!is_one_same, "a copy stays as it is")
}

#[test]
fn a_copy_stays_as_it_is(rt: HostRuntime) -> Result<(), Fail> {
    let mut dictionary = played(rt.alloc(), PUT)?;
    let copied = dictionary.copy()?;
    stays_as_it_is(rt.alloc(), &mut dictionary, &copied)
}
