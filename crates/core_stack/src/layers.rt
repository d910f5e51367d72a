// The frames that copies of a stack share.
ghost use Rattle.std.specs.Prelude.{◌≡◌, ◌∷◌, ◌++◌, [], IfOk, OnOk, MatchOption, option_map, true};
ghost use Rattle.core_stack.specs.inside.Frames.{hole_of};
ghost use Rattle.core_stack.specs.inside.Bare.{bare_holes};
ghost use Rattle.core_stack.specs.inside.Layers.{holes_in, holes_onto};
ghost use Rattle.core_stack.specs.Holes.{scope};
ghost use Rattle.core_stack.specs.Matching.{lookup};
ghost use Rattle.core_stack.specs.Holes.{keeps_on_top, waits_on};
ghost use Rattle.term_core.specs.Term.{meaning_of};

use crate::bindings::Seen;
use crate::frame::Frame;
use crate::sameness::same_frame;
use core_tree::Receive;
use std::alloc::{AllocError, Global};
use std::hash::Hasher;
use std::marker::Model;
use std::mem::replace;
use std::sync::Arc;
use term_core::Term;

/// Frames one below the other, the innermost first.
#[derive(Drop)]
#[cycle(layers)]
pub enum Layers<'m> {
    End,
    On(Arc<Layer<'m>>),
}

/// A frame on top of others. Contracts see the list of what they leave out, the innermost first.
#[cycle(layers)]
pub struct Layer<'m> {
    frame: Frame<'m>,
    below: Layers<'m>,
}

impl<'m> Model for Layer<'m> {
    ghost use Rattle.std.specs.Prelude.{◌∷◌, List, length};
    ghost use Rattle.std.specs.Coded.{coded_list};
    ghost use Rattle.core_stack.specs.Holes.{Hole};
    ghost use Rattle.core_stack.specs.inside.HoleCodes.{coded_hole};

    ghost Value = { List Hole };

    ghost coded = { coded_list coded_hole };

    ghost use Rattle.core_stack.specs.inside.Frames.{hole_of};
    ghost use Rattle.core_stack.specs.inside.Layers.{holes_in};

    ghost view = { λ l. hole_of l.frame ∷ holes_in l.below };

    ghost size = { length };

    ghost use Rattle.std.proofs.Common.{arith};

    ghost size_decreases = { λ a h. Prim.grind arith };
}

impl<'m> Layer<'m> {
    // The frame, and those below it.
    fn into_parts(self) -> (Frame<'m>, Layers<'m>)
        ensures { self.entry ≡ hole_of result.0 ∷ holes_in result.1 }
    {
        let Layer { frame, below } = self;
        (frame, below)
    }
}

impl<'m> Drop for Layer<'m> {
    // Layers are dropped by a loop, so that there may be any number. It ends at one that others hold as well.
    #[cycle(drop)]
    fn drop(self) {
        let Layer { frame, mut below } = self;
        drop(frame);
        loop {
            match below {
                Layers::On(layer) => match Arc::into_inner(layer) {
                    Some(layer) => {
                        let (frame, rest) = layer.into_parts();
                        drop(frame);
                        below = rest;
                    }
                    None => return,
                },
                end => {
                    drop(end);
                    return;
                }
            }
        }
    }
}

impl<'m> Layers<'m> {
    /// These frames with one more on top, or `AllocError` if there is no memory for it, and then all are
    /// dropped.
    pub fn with(self, alloc: Global, frame: Frame<'m>) -> Result<Layers<'m>, AllocError>
        ensures { IfOk result (λ layers. holes_in layers ≡ hole_of frame.entry ∷ holes_in self.entry) }
    {
        let layer = Layer { frame, below: self };
        Ok(Layers::On(Arc::new(alloc, layer)?))
    }

    /// These frames with those on top, the last of which is the innermost, or `AllocError` if there is no memory for
    /// it, and then frames are dropped.
    pub fn with_all(
        self,
        alloc: Global,
        frames: &mut Vec<Frame<'m>>,
    ) -> Result<Layers<'m>, AllocError>
        ensures all { IfOk result (λ layers. holes_in layers ≡ holes_onto frames.old.items self.entry) }
        ensures taken { OnOk result (frames.new.items ≡ []) }
    {
        let mut layers = self;
        frames.reverse();
        'frames: while let Some(frame) = frames.pop() {
            layers = layers.with(alloc, frame)?;
        }
        Ok(layers)
    }

    /// The same frames. It takes no memory and one step, or fails with `AllocError` where the copies can
    /// no longer be counted.
    pub fn copy(&self) -> Result<Layers<'m>, AllocError>
        ensures { IfOk result (λ copied. holes_in copied ≡ holes_in self.now) }
    {
        match self {
            Layers::End => Ok(Layers::End),
            Layers::On(layer) => Ok(Layers::On(Arc::try_clone(layer)?)),
        }
    }

    /// Takes the top frame; of one that others hold as well, a copy. `AllocError` if there is no memory
    /// for it.
    pub fn pop(&mut self, alloc: Global) -> Result<Option<Frame<'m>>, AllocError>
        ensures { IfOk result (λ popped. MatchOption popped ((holes_in self.old ≡ []) × (holes_in self.new ≡ [])) (λ frame.
            holes_in self.old ≡ hole_of frame ∷ holes_in self.new)) }
    {
        let Layers::On(layer) = replace(self, Layers::End) else {
            return Ok(None);
        };
        match Arc::try_unwrap(layer) {
            Ok(layer) => {
                let (frame, below) = layer.into_parts();
                *self = below;
                Ok(Some(frame))
            }
            Err(layer) => {
                let layer: &Layer = &layer;
                *self = layer.below.copy()?;
                Ok(Some(layer.frame.copy(alloc)?))
            }
        }
    }

    /// The value of the innermost variable in scope of this name.
    pub fn lookup(&self, name: &[u8]) -> Option<&Term>
        ensures { option_map (λ found. meaning_of found.now) result ≡ lookup name.now (scope (holes_in self.now)) }
    {
        let mut left = self;
        while let Layers::On(layer) = left {
            let layer: &Layer = layer;
            if let Some(value) = layer.frame.lookup(name) {
                return Some(value);
            }
            if layer.frame.hides_below() {
                return None;
            }
            left = &layer.below;
        }
        None
    }

    /// Adds the variables in scope, or some of them with `AllocError` if there is no memory for it.
    pub fn see(&self, seen: &mut Seen<'m>) -> Result<(), AllocError>
        ensures { OnOk result (seen.new ≡ seen.old ++ scope (holes_in self.now)) }
    {
        let mut left = self;
        while let Layers::On(layer) = left {
            let layer: &Layer = layer;
            layer.frame.see(seen)?;
            if layer.frame.hides_below() {
                return Ok(());
            }
            left = &layer.below;
        }
        Ok(())
    }

    /// Whether two stacks of frames have the same values and the same code, wherever that is in the text. It takes no
    /// memory.
    pub fn is_same(&self, other: &Layers<'_>) -> bool
        ensures { result ≡ true → bare_holes (holes_in self.now) ≡ bare_holes (holes_in other.now) }
    {
        let mut left = self;
        let mut right = other;
        loop {
            match (left, right) {
                (Layers::End, Layers::End) => return true,
                (Layers::On(one), Layers::On(two)) => {
                    let one: &Layer = one;
                    let two: &Layer = two;
                    if !same_frame(&one.frame, &two.frame) {
                        return false;
                    }
                    left = &one.below;
                    right = &two.below;
                }
                _ => return false,
            }
        }
    }

    /// Feeds a hasher with all frames, the innermost first: the same for stacks of frames that are the same. It takes no
    /// memory.
    pub(crate) fn feed<H: Hasher>(&self, state: &mut H) {
        let mut left = self;
        while let Layers::On(layer) = left {
            let layer: &Layer = layer;
            layer.frame.feed(state);
            left = &layer.below;
        }
    }

    /// The receive on top.
    pub fn receive(&self) -> Option<&'m Receive>
        ensures { option_map (λ receive. (receive.now.1, receive.now.3)) result ≡ waits_on (holes_in self.now) }
    {
        match self {
            Layers::End => None,
            Layers::On(layer) => layer.frame.receive(),
        }
    }

    /// Whether the frame on top only keeps variables.
    pub fn keeps_on_top(&self) -> bool
        ensures { result ≡ keeps_on_top (holes_in self.now) }
    {
        match self {
            Layers::End => false,
            Layers::On(layer) => layer.frame.only_keeps(),
        }
    }
}
