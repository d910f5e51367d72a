// Objects: the tuples that tables hold (ets manual, "Description").
ghost use Rattle.std.specs.Prelude.{◌≡◌, IfOk, OnOk, length, map, option_copied};
ghost use Rattle.std.specs.Option.{option_map};
ghost use Rattle.ets_store.specs.Parts.{part_in};
ghost use Rattle.term_core.specs.Term.{meaning_of};
ghost use Rattle.world_model.specs.Rows.{part_at, same_object, with_part, with_parts};
ghost use Rattle.world_model.specs.Terms.{tuple};

use std::alloc::{AllocError, Global};
use std::hash::{Hash, Hasher};
use std::marker::Model;
use std::sync::Arc;
use term_core::{Term, Terms};

/// An object: a tuple, shared with the terms that it came in. Contracts see it as the list of its parts.
pub struct Object(Arc<Terms>);

// Dropped by a call, so that no crate above proves again how.
impl Drop for Object {
    fn drop(self) {
        let Object(_) = self;
    }
}

impl Model for Object {
    ghost use Rattle.std.specs.Prelude.{List};
    ghost use Rattle.std.specs.Coded.{coded_list};
    ghost use Rattle.term_core.specs.Meaning.{Meaning};
    ghost use Rattle.term_core.specs.inside.MeaningCodes.{coded_meaning};

    ghost Value = { List Meaning };

    ghost coded = { coded_list coded_meaning };

    ghost view = { λ o. o.0.value };
}

impl Clone for Object {
    ghost is_clone = { λ a b. b ≡ a };

    /// The same object, as `copy` gives it.
    fn clone(&self) -> Result<Object, AllocError> {
        self.copy()
    }
}

impl PartialEq for Object {
    ghost use Rattle.std.specs.Cmp.{partial_equiv_from_equiv};
    ghost use Rattle.ets_store.specs.inside.Alike.{objects_equal};

    ghost eq = { same_object };

    ghost laws = { partial_equiv_from_equiv objects_equal };

    /// Whether the two are the same tuple. It takes no memory.
    fn eq(&self, other: &Object) -> bool {
        self.is_same(other)
    }
}

impl Object {
    /// The object that a tuple of these parts is. It takes no memory.
    pub fn new(parts: Arc<Terms>) -> Object
        ensures { result ≡ parts.value }
    {
        Object(parts)
    }

    /// The same object, or `AllocError` where its copies can no longer be counted.
    pub fn copy(&self) -> Result<Object, AllocError>
        ensures { IfOk result (λ copied. copied ≡ self.now) }
    {
        Ok(Object(Arc::try_clone(&self.0)?))
    }

    /// The tuple that it is, or `AllocError` where its copies can no longer be counted.
    pub fn term(&self) -> Result<Term, AllocError>
        ensures { IfOk result (λ term. meaning_of term ≡ tuple self.now) }
    {
        Ok(Term::Tuple(Arc::try_clone(&self.0)?))
    }

    /// How many parts it has. It takes no memory.
    pub fn len(&self) -> usize
        ensures { result ≡ length self.now }
    {
        self.0.len()
    }

    /// Its part at a position, from 1 on, if it is that long. It takes no memory.
    pub fn part(&self, position: usize) -> Option<&Term>
        ensures { option_map meaning_of (option_copied result) ≡ part_at position self.now }
    {
        let parts = self.0.as_slice();
        if position == 0 {
            return None;
        }
        if parts.len() < position {
            return None;
        }
        Some(&parts[position - 1])
    }

    /// Whether the two are the same tuple. It takes no memory.
    pub fn is_same(&self, other: &Object) -> bool
        ensures { result ≡ same_object self.now other.now }
    {
        let parts: &Terms = &self.0;
        let others: &Terms = &other.0;
        parts == others
    }

    /// Feeds a hasher with the terms of the object: the same for objects that are the same. It takes no memory.
    pub(crate) fn feed<H: Hasher>(&self, state: &mut H) {
        self.0.hash(state);
    }

    /// The object with another part at a position, or `AllocError` if there is no memory for it, and then the
    /// part is dropped. Where it has no part there it stays as it is.
    pub fn with_part(
        &self,
        alloc: Global,
        position: usize,
        value: Term,
    ) -> Result<Object, AllocError>
        ensures { IfOk result (λ object. object ≡ with_part position (meaning_of value) self.now) }
    {
        let mut parts = self.0.copy(alloc)?.into_vec();
        put_part(&mut parts, position, value);
        Ok(Object(Arc::new(alloc, Terms::from_vec(parts))?))
    }

    /// The object with copies of other parts, each at its position, one after the other, or `AllocError` if there is no
    /// memory for it. A part at a position that it has not is left out.
    pub fn with_parts(&self, alloc: Global, parts: &[(usize, Term)]) -> Result<Object, AllocError>
        ensures { IfOk result (λ object. object ≡ with_parts (map part_in parts.now) self.now) }
    {
        let mut own = self.0.copy(alloc)?.into_vec();
        put_parts(&mut own, parts)?;
        Ok(Object(Arc::new(alloc, Terms::from_vec(own))?))
    }
}

// Puts other parts at positions, one after the other, or `AllocError` where the copies of one can no longer be counted.
fn put_parts(own: &mut Vec<Term>, parts: &[(usize, Term)]) -> Result<(), AllocError>
    ensures { OnOk result (map meaning_of own.new.items ≡ with_parts (map part_in parts.now) (map meaning_of own.old.items)) }
{
    for part in parts {
        put_part(own, part.0, part.1.copy()?);
    }
    Ok(())
}

// Puts another part at a position, if there is one.
fn put_part(parts: &mut Vec<Term>, position: usize, value: Term)
    ensures { map meaning_of parts.new.items ≡ with_part position (meaning_of value) (map meaning_of parts.old.items) }
{
    if position == 0 {
        return;
    }
    if parts.len() < position {
        return;
    }
    parts[position - 1] = value;
}
