// The values of variables.
ghost use Rattle.std.specs.Prelude.{◌≡◌, ◌∷◌, ◌++◌, [], IfOk, OnOk, option_map, true};
ghost use Rattle.core_stack.specs.Matching.{bound, lookup};
ghost use Rattle.term_core.specs.Term.{meaning_of};

use core_tree::Variable;
use std::alloc::{AllocError, Global};
use std::hash::{Hash, Hasher};
use std::marker::Model;
use term_core::{Term, Terms};

/// A variable and its value.
#[derive(PartialEq, Drop)]
pub struct Binding<'m> {
    name: &'m [u8],
    value: Term,
}

/// Variables and their values, the innermost last. Contracts see them as a list, the innermost first.
pub struct Bindings<'m>(Vec<Binding<'m>>);

// Dropped by a call, so that no crate above proves again how.
impl Drop for Bindings<'_> {
    fn drop(self) {
        let Bindings(_) = self;
    }
}

impl<'m> Model for Bindings<'m> {
    ghost use Rattle.core_stack.specs.Matching.{Environment};
    ghost use Rattle.core_stack.specs.inside.HoleCodes.{coded_environment};

    ghost Value = { Environment };

    ghost coded = { coded_environment };

    ghost use Rattle.std.specs.Prelude.{map, reverse};
    ghost use Rattle.core_stack.specs.inside.Bindings.{binding_of};

    ghost view = { λ b. reverse (map binding_of b.0.items) };
}

impl<'m> Bindings<'m> {
    /// No variable.
    pub fn new(alloc: Global) -> Bindings<'m>
        ensures { result ≡ [] }
    {
        Bindings(Vec::new(alloc))
    }

    // No variable, with room for so many, or `AllocError` if there is no memory for it.
    fn with_room(alloc: Global, count: usize) -> Result<Bindings<'m>, AllocError>
        ensures { IfOk result (λ bindings. bindings ≡ []) }
    {
        Ok(Bindings(Vec::with_capacity(alloc, count)?))
    }

    /// One more variable, the innermost.
    pub fn push(&mut self, name: &'m [u8], value: Term) -> Result<(), AllocError>
        ensures { OnOk result (self.new ≡ (name.now, meaning_of value) ∷ self.old) }
    {
        self.0.push(Binding { name, value })?;
        Ok(())
    }

    /// The variables with these values, if they are as many.
    pub fn of(
        alloc: Global,
        variables: &'m [Variable],
        values: Terms,
    ) -> Result<Option<Bindings<'m>>, AllocError>
        ensures { IfOk result (λ bindings. bindings ≡ bound variables.now values []) }
    {
        let mut bindings = Bindings::with_room(alloc, variables.len())?;
        let mut left = variables;
        let mut later = values.into_vec();
        later.reverse();
        while let Some(value) = later.pop() {
            let Some((variable, others)) = left.split_first() else {
                return Ok(None);
            };
            bindings.push(variable.name.as_slice(), value)?;
            left = others;
        }
        if left.is_empty() {
            Ok(Some(bindings))
        } else {
            Ok(None)
        }
    }

    /// The value of the innermost variable of this name.
    pub fn lookup(&self, name: &[u8]) -> Option<&Term>
        ensures { option_map (λ found. meaning_of found.now) result ≡ lookup name.now self.now }
    {
        let mut left = self.0.len();
        while left > 0 {
            left -= 1;
            if self.0[left].name == name {
                return Some(&self.0[left].value);
            }
        }
        None
    }

    /// Whether the variables have the same names and values, in the same order. It takes no memory.
    pub fn is_same(&self, other: &Bindings<'_>) -> bool
        ensures { result ≡ true → self.now ≡ other.now }
    {
        self.0 == other.0
    }

    /// Feeds a hasher with the values, by which a search finds what may be the same: it gives the same for bindings that
    /// are. It takes no memory.
    pub fn feed<H: Hasher>(&self, state: &mut H) {
        state.write_usize(self.0.len());
        for binding in &self.0 {
            binding.value.hash(state);
        }
    }

    /// The same variables, or `AllocError` if there is no memory for it.
    pub fn copy(&self, alloc: Global) -> Result<Bindings<'m>, AllocError>
        ensures { IfOk result (λ copied. copied ≡ self.now) }
    {
        let mut copied = Vec::with_capacity(alloc, self.0.len())?;
        for binding in &self.0 {
            copied.push(Binding {
                name: binding.name,
                value: binding.value.copy()?,
            })?;
        }
        Ok(Bindings(copied))
    }
}

/// Variables and their values that are gathered from the inside out. Contracts see them as a list, the
/// innermost first.
pub struct Seen<'m>(Vec<Binding<'m>>);

// Dropped by a call, so that no crate above proves again how.
impl Drop for Seen<'_> {
    fn drop(self) {
        let Seen(_) = self;
    }
}

impl<'m> Model for Seen<'m> {
    ghost use Rattle.core_stack.specs.Matching.{Environment};
    ghost use Rattle.core_stack.specs.inside.HoleCodes.{coded_environment};

    ghost Value = { Environment };

    ghost coded = { coded_environment };

    ghost use Rattle.std.specs.Prelude.{map};
    ghost use Rattle.core_stack.specs.inside.Bindings.{binding_of};

    ghost view = { λ s. map binding_of s.0.items };
}

impl<'m> Seen<'m> {
    /// No variable.
    pub fn new(alloc: Global) -> Seen<'m>
        ensures { result ≡ [] }
    {
        Seen(Vec::new(alloc))
    }

    /// Adds variables that lie further out, or some of them with `AllocError` if there is no memory for it.
    pub fn add(&mut self, bindings: &Bindings<'m>) -> Result<(), AllocError>
        ensures { OnOk result (self.new ≡ self.old ++ bindings.now) }
    {
        let mut left = bindings.0.len();
        while left > 0 {
            left -= 1;
            let binding = &bindings.0[left];
            self.0.push(Binding {
                name: binding.name,
                value: binding.value.copy()?,
            })?;
        }
        Ok(())
    }

    /// The same variables.
    pub fn into_bindings(self) -> Bindings<'m>
        ensures { result ≡ self.entry }
    {
        let Seen(mut items) = self;
        items.reverse();
        Bindings(items)
    }
}
