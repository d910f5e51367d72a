// The objects that a call is given (ets manual, `insert/2`).
ghost use Rattle.std.specs.Prelude.{◌≡◌, ◌∷◌, [], IfOk, option_map};
ghost use Rattle.term_core.specs.Term.{meaning_of};
ghost use Rattle.world_model.specs.Calls.{objects_of};
ghost use Rattle.world_model.specs.Terms.{parts_in, each_in};

use ets_store::Object;
use std::alloc::{AllocError, Global};
use std::sync::Arc;
use term_core::Term;

/// The object that a term is, if it is a tuple, or `AllocError` where its copies can no longer be counted.
#[tactic(auto, using(crate::proofs::Listing::parts_in_tuple))]
pub fn object_in(term: &Term) -> Result<Option<Object>, AllocError>
    ensures { IfOk result (λ object. object ≡ parts_in (meaning_of term.now)) }
{
    match term {
        Term::Tuple(parts) => Ok(Some(Object::new(Arc::try_clone(parts)?))),
        _ => Ok(None),
    }
}

// The objects of a proper list, if each item is one.
fn objects_in_list(alloc: Global, list: &Term) -> Result<Option<Vec<Object>>, AllocError>
    ensures { IfOk result (λ objects. option_map (λ os. os.items) objects ≡ each_in parts_in (meaning_of list.now)) }
{
    let mut objects = Vec::new(alloc);
    let mut rest = list;
    while let Some(pair) = rest.as_cell() {
        let Some(object) = object_in(pair.head())? else {
            return Ok(None);
        };
        objects.push(object)?;
        rest = pair.tail();
    }
    match rest {
        Term::Nil => Ok(Some(objects)),
        _ => Ok(None),
    }
}

// One object.
fn one(alloc: Global, object: Object) -> Result<Vec<Object>, AllocError>
    ensures { IfOk result (λ objects. objects.items ≡ object ∷ []) }
{
    let mut objects = Vec::with_capacity(alloc, 1)?;
    objects.push(object)?;
    Ok(objects)
}

/// The objects that a term is: one tuple, or a proper list of tuples, or `AllocError` if there is no memory for
/// the list (ets manual, `insert/2`).
pub fn objects_of(alloc: Global, term: &Term) -> Result<Option<Vec<Object>>, AllocError>
    ensures { IfOk result (λ objects. option_map (λ os. os.items) objects ≡ objects_of (meaning_of term.now)) }
{
    match object_in(term)? {
        Some(object) => Ok(Some(one(alloc, object)?)),
        None => objects_in_list(alloc, term),
    }
}
