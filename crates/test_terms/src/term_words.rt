// Terms made from words, the parts of a term before it.
use std::alloc::{AllocError, Global};
use term_core::{Pid, RefId, Term, Terms, list_onto};

#[derive(Clone, Copy)]
pub(crate) enum Word {
    Int(i64),
    Name(&'static str),
    Pid(&'static [u64]),
    // a pid and a number
    Ref(&'static [u64], u64),
    // of so many parts
    Tuple(usize),
    // of so many items
    List(usize),
    // so many items, and the tail
    Onto(usize),
}

fn pid(alloc: Global, numbers: &[u64]) -> Result<Pid, AllocError> {
    Pid::new(alloc, Vec::from_slice(alloc, numbers)?)
}

fn reference(alloc: Global, numbers: &[u64], number: u64) -> Result<Term, AllocError> {
    let pid = pid(alloc, numbers)?;
    Ok(Term::Ref(RefId::new(alloc, pid, number)?))
}

fn last(terms: &mut Vec<Term>) -> Term {
    terms.pop().unwrap_or(Term::Nil)
}

// The last terms, this many.
fn take(alloc: Global, terms: &mut Vec<Term>, count: usize) -> Result<Vec<Term>, AllocError> {
    let mut taken = Vec::new(alloc);
    for _ in 0..count {
        taken.push(last(terms))?;
    }
    taken.reverse();
    Ok(taken)
}

fn tuple(alloc: Global, terms: &mut Vec<Term>, count: usize) -> Result<Term, AllocError> {
    Term::tuple(alloc, Terms::from_vec(take(alloc, terms, count)?))
}

fn onto(alloc: Global, terms: &mut Vec<Term>, count: usize) -> Result<Term, AllocError> {
    let tail = last(terms);
    list_onto(alloc, take(alloc, terms, count)?, tail)
}

fn list(alloc: Global, terms: &mut Vec<Term>, count: usize) -> Result<Term, AllocError> {
    list_onto(alloc, take(alloc, terms, count)?, Term::Nil)
}

fn made(alloc: Global, terms: &mut Vec<Term>, word: Word) -> Result<Term, AllocError> {
    match word {
        Word::Int(number) => Ok(Term::Int(number)),
        Word::Name(text) => Term::atom(alloc, text),
        Word::Pid(numbers) => Ok(Term::Pid(pid(alloc, numbers)?)),
        Word::Ref(numbers, number) => reference(alloc, numbers, number),
        Word::Tuple(count) => tuple(alloc, terms, count),
        Word::List(count) => list(alloc, terms, count),
        Word::Onto(count) => onto(alloc, terms, count),
    }
}

// All the terms that the words make.
fn all_of(alloc: Global, words: &[Word]) -> Result<Vec<Term>, AllocError> {
    let mut terms = Vec::new(alloc);
    for word in words {
        let term = made(alloc, &mut terms, *word)?;
        terms.push(term)?;
    }
    Ok(terms)
}

pub(crate) fn terms(alloc: Global, words: &[Word]) -> Result<Terms, AllocError> {
    Ok(Terms::from_vec(all_of(alloc, words)?))
}

// The last of them.
pub(crate) fn term(alloc: Global, words: &[Word]) -> Result<Term, AllocError> {
    let mut terms = all_of(alloc, words)?;
    Ok(last(&mut terms))
}
