// Steps that are remembered.
ghost use Rattle.std.specs.Prelude.{◌≡◌, true, is_some};
ghost use Rattle.search_numbers.specs.Rows.{fits, numbers_in};

use crate::row::matches;
use crate::touch::Touch;
use term_core::Step;
use world_identities::Identity;

/// A step as it was in one world: in each world that has the same numbers where it touches it, it does the same.
#[derive(Drop)]
pub struct Remembered {
    pub(crate) step: Step,
    // The column of the place where it begins.
    pub(crate) column: usize,
    pub(crate) touches: Vec<Touch>,
    // What its event shows, but for a deadlock after it; `None` where it is not enabled.
    pub(crate) shown: Option<Vec<Identity>>,
}

impl Remembered {
    /// Whether it is the step that begins at the place of a column, in a world that has its numbers. It takes no memory.
    pub(crate) fn is_of(&self, column: usize, row: &[u32]) -> bool
        ensures column { result ≡ true → self.now.column ≡ column }
        ensures matches { result ≡ true → fits self.now.touches.items (numbers_in row.now) ≡ true }
    {
        self.column == column && matches(row, self.touches.as_slice())
    }

    /// Whether it is enabled in a world that has its numbers. It takes no memory.
    pub(crate) fn is_enabled_in(&self, row: &[u32]) -> bool
        ensures enabled { result ≡ true → is_some self.now.shown ≡ true }
        ensures matches { result ≡ true → fits self.now.touches.items (numbers_in row.now) ≡ true }
    {
        self.shown.is_some() && matches(row, self.touches.as_slice())
    }
}
