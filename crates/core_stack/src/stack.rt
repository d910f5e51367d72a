// The stack of a machine.
ghost use Rattle.std.specs.Prelude.{◌≡◌, ◌∷◌, [], OnOk, IfOk, MatchOption, option_map, true};
ghost use Rattle.core_stack.specs.inside.Bare.{bare_holes};
ghost use Rattle.core_stack.specs.inside.Frames.{hole_of};
ghost use Rattle.core_stack.specs.Holes.{scope};
ghost use Rattle.core_stack.specs.Matching.{lookup};
ghost use Rattle.core_stack.specs.Holes.{keeps_on_top, waits_on};
ghost use Rattle.term_core.specs.Term.{meaning_of};

use crate::bindings::{Bindings, Seen};
use crate::frame::Frame;
use crate::layers::Layers;
use core_tree::Receive;
use std::alloc::{AllocError, Global};
use std::hash::Hasher;
use std::marker::Model;
use std::mem::replace;
use term_core::Term;

/// Frames: those that were put on top since the stack was settled, the innermost last, and below them those
/// that its copies share. Contracts see them as the list of what they leave out, the innermost first.
pub struct Stack<'m> {
    top: Vec<Frame<'m>>,
    below: Layers<'m>,
}

// Dropped by a call, so that no crate above proves again how.
impl Drop for Stack<'_> {
    fn drop(self) {
        let Stack { top: _, below: _ } = self;
    }
}

impl<'m> Model for Stack<'m> {
    ghost use Rattle.std.specs.Prelude.{List};
    ghost use Rattle.std.specs.Coded.{coded_list};
    ghost use Rattle.core_stack.specs.Holes.{Hole};
    ghost use Rattle.core_stack.specs.inside.HoleCodes.{coded_hole};

    ghost Value = { List Hole };

    ghost coded = { coded_list coded_hole };

    ghost use Rattle.core_stack.specs.inside.Layers.{holes_onto};

    ghost view = { λ s. holes_onto s.top.items s.below };
}

impl<'m> Stack<'m> {
    /// A stack with no frame.
    pub fn new(alloc: Global) -> Stack<'m>
        ensures { result ≡ [] }
    {
        Stack {
            top: Vec::new(alloc),
            below: Layers::End,
        }
    }

    /// Puts a frame on top, or drops it with `AllocError` if there is no memory for it.
    pub fn push(&mut self, frame: Frame<'m>) -> Result<(), AllocError>
        ensures { OnOk result (self.new ≡ hole_of frame.entry ∷ self.old) }
    {
        self.top.push(frame)?;
        Ok(())
    }

    /// Takes the top frame, or fails with `AllocError` if there is no memory for a copy of a frame that
    /// others share.
    pub fn pop(&mut self, alloc: Global) -> Result<Option<Frame<'m>>, AllocError>
        ensures { IfOk result (λ popped. MatchOption popped ((self.old ≡ []) × (self.new ≡ [])) (λ frame.
            self.old ≡ hole_of frame ∷ self.new)) }
    {
        match self.top.pop() {
            Some(frame) => Ok(Some(frame)),
            None => self.below.pop(alloc),
        }
    }

    /// The value of the innermost variable in scope of this name.
    pub fn lookup(&self, name: &[u8]) -> Option<&Term>
        ensures { option_map (λ found. meaning_of found.now) result ≡ lookup name.now (scope self.now) }
    {
        let mut left = self.top.len();
        while left > 0 {
            left -= 1;
            let frame = &self.top[left];
            if let Some(value) = frame.lookup(name) {
                return Some(value);
            }
            if frame.hides_below() {
                return None;
            }
        }
        self.below.lookup(name)
    }

    /// All variables in scope, or `AllocError` if there is no memory for them.
    pub fn variables(&self, alloc: Global) -> Result<Bindings<'m>, AllocError>
        ensures { IfOk result (λ bindings. bindings ≡ scope self.now) }
    {
        let mut seen = Seen::new(alloc);
        let mut left = self.top.len();
        while left > 0 {
            left -= 1;
            let frame = &self.top[left];
            frame.see(&mut seen)?;
            if frame.hides_below() {
                return Ok(seen.into_bindings());
            }
        }
        self.below.see(&mut seen)?;
        Ok(seen.into_bindings())
    }

    /// The receive on top.
    pub fn receive(&self) -> Option<&'m Receive>
        ensures { option_map (λ receive. (receive.now.1, receive.now.3)) result ≡ waits_on self.now }
    {
        match self.top.last() {
            Some(frame) => frame.receive(),
            None => self.below.receive(),
        }
    }

    /// Whether two stacks have the same values and the same code, wherever that is in the text, both of them settled; no
    /// more is said of stacks that are not. It takes no memory.
    pub fn is_same(&self, other: &Stack<'_>) -> bool
        ensures { result ≡ true → bare_holes self.now ≡ bare_holes other.now }
    {
        self.top.is_empty() && other.top.is_empty() && self.below.is_same(&other.below)
    }

    /// Feeds a hasher with the frames of a stack that is settled: the same for stacks that are the same. It takes no
    /// memory.
    pub fn feed<H: Hasher>(&self, state: &mut H) {
        self.below.feed(state);
    }

    /// Whether the frame on top only keeps variables.
    pub fn keeps_on_top(&self) -> bool
        ensures { result ≡ keeps_on_top self.now }
    {
        match self.top.last() {
            Some(frame) => frame.only_keeps(),
            None => self.below.keeps_on_top(),
        }
    }

    /// Lets copies share all frames: from then on a copy takes no memory and one step, until a frame is
    /// put on top. `AllocError` if there is no memory for it, and then frames are lost.
    pub fn settle(&mut self, alloc: Global) -> Result<(), AllocError>
        ensures { OnOk result (self.new ≡ self.old) }
    {
        let below = replace(&mut self.below, Layers::End);
        self.below = below.with_all(alloc, &mut self.top)?;
        Ok(())
    }

    /// The same stack, or `AllocError` if there is no memory for it.
    pub fn copy(&self, alloc: Global) -> Result<Stack<'m>, AllocError>
        ensures { IfOk result (λ copied. copied ≡ self.now) }
    {
        let mut top = Vec::with_capacity(alloc, self.top.len())?;
        for frame in &self.top {
            top.push(frame.copy(alloc)?)?;
        }
        let below = self.below.copy()?;
        Ok(Stack { top, below })
    }
}
