// The objects under one key.
ghost use Rattle.std.specs.Prelude.{◌≡◌, ◌∷◌, ◌++◌, [], IfOk, OnOk, OnErr, IsTrue, ◌↔◌, length, map, option_copied};
ghost use Rattle.std.specs.List.{filter, list_any};
ghost use Rattle.term_core.specs.Meaning.{Meaning};
ghost use Rattle.term_core.specs.Term.{meaning_of};
ghost use Rattle.world_model.specs.Rows.{tuples, same_object, rewritten, Removes, stored};
ghost use Rattle.world_model.specs.Terms.{tuple};
ghost use Rattle.world_model.specs.declared.table.Kind.TheVariants.{Bag};

use crate::object::Object;
use std::alloc::{AllocError, Global};
use std::hash::Hasher;
use std::marker::Model;
use term_core::{Term, list_onto};
use world_model::table::Kind;

/// The objects under one key, the oldest first. Contracts see them as a list.
#[derive(Drop)]
pub(crate) struct Objects {
    items: Vec<Object>,
}

impl Model for Objects {
    ghost use Rattle.std.specs.Prelude.{List};
    ghost use Rattle.std.specs.Coded.{coded_list};
    ghost use Rattle.term_core.specs.Meaning.{Meaning};
    ghost use Rattle.term_core.specs.inside.MeaningCodes.{coded_meaning};

    ghost Value = { List (List Meaning) };

    ghost coded = { coded_list (coded_list coded_meaning) };

    ghost view = { λ o. o.items.items };
}

impl Clone for Objects {
    ghost is_clone = { λ a b. b ≡ a };

    /// The same objects, each a copy.
    fn clone(&self) -> Result<Objects, AllocError> {
        Ok(Objects {
            items: self.items.clone()?,
        })
    }
}

impl PartialEq for Objects {
    ghost use Rattle.std.specs.Cmp.{partial_equiv_from_equiv};
    ghost use Rattle.ets_store.specs.inside.Alike.{lists_equal, same_objects};

    ghost eq = { same_objects };

    ghost laws = { partial_equiv_from_equiv lists_equal };

    /// Whether the two have the same objects, in one order. It takes no memory.
    fn eq(&self, other: &Objects) -> bool {
        self.items == other.items
    }
}

impl Objects {
    /// No objects. It takes no memory.
    pub(crate) fn new(alloc: Global) -> Objects
        ensures { result ≡ [] }
    {
        Objects {
            items: Vec::new(alloc),
        }
    }

    /// One object, or `AllocError` if there is no memory for it, and then it is dropped.
    pub(crate) fn one(alloc: Global, object: Object) -> Result<Objects, AllocError>
        ensures { IfOk result (λ objects. objects ≡ object ∷ []) }
    {
        let mut items = Vec::with_capacity(alloc, 1)?;
        items.push(object)?;
        Ok(Objects { items })
    }

    /// Feeds a hasher with all objects: the same for objects that are the same. It takes no memory.
    pub(crate) fn feed<H: Hasher>(&self, state: &mut H) {
        state.write_usize(self.items.len());
        for object in self.items.as_slice() {
            object.feed(state);
        }
    }

    /// The objects.
    pub(crate) fn as_slice(&self) -> &[Object]
        ensures { result.now ≡ self.now }
    {
        self.items.as_slice()
    }

    /// Adds an object after the others, or `AllocError` if there is no memory for it: then they are as they were, and
    /// it is dropped.
    pub(crate) fn push(&mut self, object: Object) -> Result<(), AllocError>
        ensures ok { OnOk result (self.new ≡ self.old ++ object ∷ []) }
        ensures err { OnErr result (self.new ≡ self.old) }
    {
        self.items.push(object)?;
        Ok(())
    }

    /// Whether the list is empty.
    pub(crate) fn is_empty(&self) -> bool
        ensures { IsTrue result ↔ (self.now ≡ []) }
    {
        self.items.is_empty()
    }

    /// Whether one of them is this object.
    pub(crate) fn holds(&self, object: &Object) -> bool
        ensures { result ≡ list_any (same_object object.now) self.now }
    {
        self.items.iter().any(|item| object.is_same(item))
    }

    /// Those that are not this object, each a copy, or `AllocError` if there is no memory for them.
    pub(crate) fn without(&self, alloc: Global, object: &Object) -> Result<Objects, AllocError>
        ensures { IfOk result (λ objects. objects ≡ rewritten (Removes object.now) self.now) }
    {
        let mut items = Vec::new(alloc);
        for item in &self.items {
            if !object.is_same(item) {
                items.push(item.copy()?)?;
            }
        }
        Ok(Objects { items })
    }

    // These and an object after them, each a copy, or `AllocError` if there is no memory for them, and then the object
    // is dropped.
    fn with_last(&self, object: Object) -> Result<Objects, AllocError>
        ensures { IfOk result (λ objects. objects ≡ self.now ++ object ∷ []) }
    {
        let mut objects = self.clone()?;
        objects.push(object)?;
        Ok(objects)
    }

    /// The objects once another one is put in, as the kind of the table says, or `AllocError` if there is no
    /// memory for them, and then the object is dropped.
    pub(crate) fn with(
        &self,
        alloc: Global,
        kind: Kind,
        object: Object,
    ) -> Result<Objects, AllocError>
        ensures { IfOk result (λ objects. objects ≡ stored kind object self.now) }
    {
        match kind {
            Kind::Set => Objects::one(alloc, object),
            Kind::OrderedSet => Objects::one(alloc, object),
            Kind::Bag => self.with_once(object),
            Kind::DuplicateBag => self.with_last(object),
        }
    }

    // An object among these, once.
    fn with_once(&self, object: Object) -> Result<Objects, AllocError>
        ensures { IfOk result (λ objects. objects ≡ stored Bag object self.now) }
    {
        if self.holds(&object) {
            return self.clone();
        }
        self.with_last(object)
    }

    /// The list of the objects, or `AllocError` if there is no memory for it.
    pub(crate) fn list(&self, alloc: Global) -> Result<Term, AllocError>
        ensures { IfOk result (λ list. meaning_of list ≡ tuples self.now) }
    {
        let mut terms = Vec::with_capacity(alloc, self.items.len())?;
        add_terms(&mut terms, self.items.as_slice())?;
        list_onto(alloc, terms, Term::Nil)
    }
}

/// Adds the tuples that objects are after some terms, or `AllocError` if there is no memory for them.
pub(crate) fn add_terms(terms: &mut Vec<Term>, objects: &[Object]) -> Result<(), AllocError>
    ensures { OnOk result (map meaning_of terms.new.items ≡ map meaning_of terms.old.items ++ map tuple objects.now) }
{
    for object in objects {
        terms.push(object.term()?)?;
    }
    Ok(())
}
