// Who inherits a table, as options say (ets manual, `new/2`, option `heir`, and `setopts/2`).
ghost use Rattle.std.specs.Prelude.{◌≡◌, ◌∷◌, [], IfOk, map, option_map};
ghost use Rattle.ets_store.specs.Tables.{heir_in};
ghost use Rattle.term_core.specs.Term.{meaning_of};
ghost use Rattle.world_model.specs.Tables.{heir_of_parts, heir_option, heirs_of};
ghost use Rattle.world_model.specs.Terms.{each_in};

use crate::argument::process_in;
use ets_store::Heir;
use std::alloc::{AllocError, Global};
use term_core::{Term, Terms};

// Nobody as the heir, where the pair is `{heir, none}`.
fn no_heir(word: &Term, none: &Term) -> Option<Option<Heir>>
    ensures { option_map heir_in result ≡ heir_of_parts (meaning_of word.now ∷ meaning_of none.now ∷ []) }
{
    if word.is_the_atom("heir") && none.is_the_atom("none") {
        return Some(None);
    }
    None
}

// The heir that the triple is, where it is `{heir, Pid, Data}`.
fn some_heir(word: &Term, to: &Term, gift: &Term) -> Result<Option<Option<Heir>>, AllocError>
    ensures { IfOk result (λ heir. option_map heir_in heir ≡ heir_of_parts (meaning_of word.now ∷ meaning_of to.now ∷ meaning_of gift.now ∷ [])) }
{
    if !word.is_the_atom("heir") {
        return Ok(None);
    }
    match process_in(to)? {
        Some(pid) => Ok(Some(Some(Heir {
            pid,
            data: gift.copy()?,
        }))),
        None => Ok(None),
    }
}

/// The heir that a tuple of these parts says, if it is an option that says one, or `AllocError` where the
/// copies of the process and the data can no longer be counted (ets manual, `new/2`).
pub(crate) fn heir_of_parts(parts: &Terms) -> Result<Option<Option<Heir>>, AllocError>
    ensures { IfOk result (λ heir. option_map heir_in heir ≡ heir_of_parts parts.now) }
{
    match parts.as_slice() {
        [word, none] => Ok(no_heir(word, none)),
        [word, to, gift] => some_heir(word, to, gift),
        _ => Ok(None),
    }
}

// The heir that a term says, if it is an option that says one.
fn heir_option(term: &Term) -> Result<Option<Option<Heir>>, AllocError>
    ensures { IfOk result (λ heir. option_map heir_in heir ≡ heir_option (meaning_of term.now)) }
{
    match term {
        Term::Tuple(parts) => heir_of_parts(parts),
        _ => Ok(None),
    }
}

// The heirs that the items of a proper list say, if each says one.
fn heirs_in_list(alloc: Global, list: &Term) -> Result<Option<Vec<Option<Heir>>>, AllocError>
    ensures { IfOk result (λ heirs. option_map (λ hs. map heir_in hs.items) heirs ≡ each_in heir_option (meaning_of list.now)) }
{
    let mut heirs = Vec::new(alloc);
    let mut rest = list;
    while let Some(pair) = rest.as_cell() {
        let Some(heir) = heir_option(pair.head())? else {
            return Ok(None);
        };
        heirs.push(heir)?;
        rest = pair.tail();
    }
    match rest {
        Term::Nil => Ok(Some(heirs)),
        _ => Ok(None),
    }
}

// One heir.
fn one(alloc: Global, heir: Option<Heir>) -> Result<Vec<Option<Heir>>, AllocError>
    ensures { IfOk result (λ heirs. heirs.items ≡ heir ∷ []) }
{
    let mut heirs = Vec::with_capacity(alloc, 1)?;
    heirs.push(heir)?;
    Ok(heirs)
}

/// The heirs that a term says, one after the other: one option, or a proper list of options, or `AllocError` if
/// there is no memory for the list (ets manual, `setopts/2`).
pub fn heirs_of(alloc: Global, term: &Term) -> Result<Option<Vec<Option<Heir>>>, AllocError>
    ensures { IfOk result (λ heirs. option_map (λ hs. map heir_in hs.items) heirs ≡ heirs_of (meaning_of term.now)) }
{
    match heir_option(term)? {
        Some(heir) => Ok(Some(one(alloc, heir)?)),
        None => heirs_in_list(alloc, term),
    }
}
