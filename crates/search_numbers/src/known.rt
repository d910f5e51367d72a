// What is known of all worlds of a search.
ghost use Rattle.std.specs.Prelude.{◌≡◌, ◌∷◌, ◌++◌, ◌<◌, [], ℕ, true, is_some, length, map, slice_get, IfOk, IfSome, OnOk, Some};
ghost use Rattle.search_numbers.specs.Knowing.{AreRight, GoesOn, IsAt, IsTaken, IsThere, KnowsMore};
ghost use Rattle.search_numbers.specs.inside.Finding.{IsFoundAt};
ghost use Rattle.search_numbers.specs.Remembering.{IsRight, identities_in, shown_in};
ghost use Rattle.search_numbers.specs.Rows.{numbers_in};
ghost use Rattle.search_numbers.specs.Stored.{AreOf, Begins, BeginsAt, IsWorldOf, part_at};
ghost use Rattle.search_numbers.specs.Local.{HasAll};
ghost use Rattle.core_tree.specs.Syntax.{ModuleTree};
ghost use Rattle.search_numbers.specs.declared.remembered.Remembered.{Remembered};
ghost use Rattle.term_core.specs.declared.step.Step.{Step};
ghost use Rattle.world_identities.specs.Identities.{identity_in};
ghost use Rattle.world_model.specs.Cells.{Contents};
ghost use Rattle.world_records.specs.Records.{Agrees};

use crate::learning::learn;
use crate::places::step_at;
use crate::remembered::Remembered;
use crate::row::{Row, number_in};
use crate::store::Store;
use core_tree::Module;
use search_levels::{Arrival, Index};
use std::alloc::{AllocError, Global};
use std::hash::{FoldHasher, Hasher};
use term_core::Step;
use world_identities::Identity;
use world_records::Records;

/// What is known of all worlds of a search: their parts, and the steps that were taken or were not enabled, each by the
/// numbers of what it touches.
#[derive(Drop)]
pub struct Known<'m> {
    pub(crate) store: Store<'m>,
    // The shapes of steps, each once, and where those of a beginning are.
    shapes: Vec<Shape>,
    beginnings: Index,
    pub(crate) remembered: Vec<Remembered>,
    // Where the steps of a digest are.
    index: Index,
}

// Which columns a step touches that begins at a column where a world has this number.
#[derive(Drop)]
struct Shape {
    column: usize,
    number: u32,
    touched: Vec<usize>,
}

impl Shape {
    // Whether it is one of the steps that begin at a column with this number.
    fn begins_at(&self, column: usize, number: u32) -> bool {
        self.column == column && self.number == number
    }
}

// A number by which the shapes of the steps are found that begin at a column with this number.
fn digest_of_beginning(column: usize, number: u32) -> u64 {
    let mut hasher = FoldHasher::default();
    hasher.write_usize(column);
    hasher.write_u32(number);
    hasher.finish()
}

// Copies of what is shown, if anything is. `AllocError` if there is no memory for them.
fn copies(alloc: Global, shown: &Option<Vec<Identity>>) -> Result<Vec<Identity>, AllocError>
    ensures { IfOk result (λ copied. map identity_in copied.items ≡ identities_in (shown_in shown.now)) }
{
    let mut copied = Vec::new(alloc);
    if let Some(shown) = shown {
        for identity in shown.as_slice() {
            copied.push(identity.copy(alloc)?)?;
        }
    }
    Ok(copied)
}

// A number by which a step is found, from its shape and the numbers of a world there.
fn digest_of(row: &[u32], shape: usize, columns: &[usize]) -> u64 {
    let mut hasher = FoldHasher::default();
    hasher.write_usize(shape);
    for column in columns {
        hasher.write_u32(number_in(row, *column));
    }
    hasher.finish()
}

// The columns that a remembered step touches. `AllocError` if there is no memory for them.
fn columns_of(alloc: Global, learned: &Remembered) -> Result<Vec<usize>, AllocError> {
    let mut columns = Vec::with_capacity(alloc, learned.touches.len())?;
    for touch in learned.touches.as_slice() {
        columns.push(touch.column)?;
    }
    Ok(columns)
}

impl<'m> Known<'m> {
    /// What is known before anything happened in a module. `AllocError` if there is no memory for it.
    pub fn open(alloc: Global, program: &'m Module) -> Result<Known<'m>, AllocError>
        ensures are { IfOk result (λ known. AreOf known.store (λ c. 0) program.now []) }
        ensures world { IfOk result (λ known. IsWorldOf known.store (λ c. 0)) }
        ensures right { IfOk result AreRight }
    {
        Ok(Known {
            store: Store::open(alloc, program)?,
            shapes: Vec::new(alloc),
            beginnings: Index::new(alloc),
            remembered: Vec::new(alloc),
            index: Index::new(alloc),
        })
    }

    // The place of what is remembered of the step that begins at a column, if one of this shape is found that has the numbers of
    // a world.
    fn find_by(&self, row: &[u32], column: usize, shape: usize) -> Option<usize>
        ensures { IfSome result (IsFoundAt self.now (numbers_in row.now) column) }
    {
        let touched = self.shapes.get(shape)?.touched.as_slice();
        let mut probe = self.index.probe(digest_of(row, shape, touched));
        for _ in 0..self.remembered.len() {
            let at = self.index.next(&mut probe)?;
            if at < self.remembered.len() && self.remembered[at].is_of(column, row) {
                return Some(at);
            }
        }
        None
    }

    /// The place of what is remembered of the step that begins at a column, if one is found that has the numbers of a world. It
    /// takes no memory.
    pub(crate) fn find(&self, row: &[u32], column: usize) -> Option<usize>
        ensures { IfSome result (IsFoundAt self.now (numbers_in row.now) column) }
    {
        let number = number_in(row, column);
        let mut probe = self.beginnings.probe(digest_of_beginning(column, number));
        for _ in 0..self.shapes.len() {
            let shape = self.beginnings.next(&mut probe)?;
            if self.shapes.get(shape)?.begins_at(column, number) {
                if let Some(at) = self.find_by(row, column, shape) {
                    return Some(at);
                }
            }
        }
        None
    }

    // The place of a shape, if there is one that is the same.
    fn shape_of(&self, shape: &Shape) -> Option<usize> {
        let mut probe = self
            .beginnings
            .probe(digest_of_beginning(shape.column, shape.number));
        for _ in 0..self.shapes.len() {
            let at = self.beginnings.next(&mut probe)?;
            let there = self.shapes.get(at)?;
            if there.begins_at(shape.column, shape.number) && there.touched == shape.touched {
                return Some(at);
            }
        }
        None
    }

    // The place of a shape, which is put after the others where there is none that is the same. `AllocError` if there is no
    // memory for it.
    fn keep_shape(&mut self, shape: Shape) -> Result<usize, AllocError>
        ensures store { self.new.store ≡ self.old.store }
        ensures remembered { self.new.remembered ≡ self.old.remembered }
    {
        if let Some(at) = self.shape_of(&shape) {
            return Ok(at);
        }
        let at = self.shapes.len();
        self.beginnings
            .put(digest_of_beginning(shape.column, shape.number))?;
        self.shapes.push(shape)?;
        Ok(at)
    }

    // Remembers a step of a world. `AllocError` if there is no memory for it.
    fn remember(
        &mut self,
        alloc: Global,
        row: &[u32],
        column: usize,
        learned: Remembered,
    ) -> Result<usize, AllocError>
        requires { IsRight self.old.store learned }
        ensures place { IfOk result (λ at. at ≡ length self.old.remembered.items) }
        ensures more { OnOk result (self.new.remembered.items ≡ self.old.remembered.items ++ learned ∷ []) }
        ensures knows { KnowsMore self.old self.new }
    {
        let touched = columns_of(alloc, &learned)?;
        let columns = touched.clone()?;
        let number = number_in(row, column);
        let shape = self.keep_shape(Shape {
            column,
            number,
            touched,
        })?;
        let at = self.remembered.len();
        self.index.put(digest_of(row, shape, columns.as_slice()))?;
        self.remembered.push(learned)?;
        Ok(at)
    }

    /// The place of what is remembered in a world of the step that begins at a column, which is learned where nothing is.
    /// `AllocError` if there is no memory for it.
    pub(crate) fn learn_up(
        &mut self,
        alloc: Global,
        row: &[u32],
        column: usize,
    ) -> Result<usize, AllocError>
        requires world { IsWorldOf self.old.store (numbers_in row.now) }
        requires right { AreRight self.old }
        requires begins { Begins self.old.store.places.items column }
        ensures answers { IfOk result (λ at. (s : Step) → BeginsAt self.old.store.places.items column s → IsAt self.new (numbers_in row.now) s at) }
        ensures knows { KnowsMore self.old self.new }
    {
        if let Some(at) = self.find(row, column) {
            return Ok(at);
        }
        let Some(step) = step_at(&self.store.places[column])? else {
            unreachable!();
        };
        let learned = learn(alloc, &mut self.store, row, &step, column)?;
        self.remember(alloc, row, column, learned)
    }

    /// Whether what is remembered at a place is of a step that is enabled where a world has its numbers. It takes no memory.
    pub(crate) fn is_enabled_at(&self, at: usize) -> bool
        requires { at < length self.now.remembered.items }
        ensures { (r : Remembered) → slice_get self.now.remembered.items at ≡ Some r → result ≡ is_some r.shown }
    {
        self.remembered[at].shown.is_some()
    }

    /// Whether one of the steps that are remembered at these places is enabled in a world, as far as its numbers show it. It takes
    /// no memory.
    pub fn is_one_enabled(&self, places: &[usize], row: &[u32]) -> bool
        ensures { result ≡ true → AreRight self.now → GoesOn self.now (numbers_in row.now) true }
    {
        for at in places {
            if let Some(remembered) = self.remembered.get(*at) {
                if remembered.is_enabled_in(row) {
                    return true;
                }
            }
        }
        false
    }

    /// The records of a world. `AllocError` if there is no memory for them.
    pub fn records_of(&self, row: &[u32]) -> Result<Records<'m>, AllocError>
        requires { IsWorldOf self.now.store (numbers_in row.now) }
        ensures { IfOk result (λ records. (m : ModuleTree) (v : Contents) → HasAll m (part_at self.now.store (numbers_in row.now)) v → Agrees m records v) }
    {
        self.store.records_of(row)
    }

    /// What a remembered step does in the world of a row, whose digest this is, but for a deadlock after it; the row of the
    /// world after it is put in the place of another one. `AllocError` if there is no memory for it.
    pub fn take(
        &self,
        alloc: Global,
        row: &[u32],
        digest: u64,
        at: usize,
        after: &mut Row,
    ) -> Result<Arrival, AllocError>
        requires world { IsWorldOf self.now.store (numbers_in row.now) }
        requires right { AreRight self.now }
        requires there { IsThere self.now (numbers_in row.now) at }
        ensures taken { IfOk result (IsTaken self.now (numbers_in row.now) at (numbers_in after.new.numbers.items)) }
        ensures world { OnOk result (IsWorldOf self.now.store (numbers_in after.new.numbers.items)) }
    {
        let remembered = &self.remembered[at];
        after.become_after(row, digest, remembered.touches.as_slice())?;
        Ok(Arrival {
            step: remembered.step.copy()?,
            shown: copies(alloc, &remembered.shown)?,
        })
    }
}
