// The places of all worlds, their columns, and the steps that begin there.
ghost use Rattle.std.specs.Map.{keys_of};
ghost use Rattle.std.specs.Prelude.{◌≡◌, false, List, IfOk, OnErr, OnOk, Some, slice_get};
ghost use Rattle.search_numbers.specs.Rows.{numbers_in};
ghost use Rattle.term_core.specs.declared.step.Step.{Step};
ghost use Rattle.world_model.specs.Names.{IsAmong};
ghost use Rattle.world_records.specs.declared.place.Place.{Place};
ghost use Rattle.search_numbers.specs.Stored.{AreAsked, BeginsAt, EachBegins, Follows, HasMore, HaveColumns, IsIdle, IsStore, column_in, is_at_once_in, is_delivery, module_in, numbered, step_at};

use crate::row::number_in;
use crate::store::Store;
use core_tree::Module;
use search_levels::Index;
use std::alloc::{AllocError, Global};
use std::collections::BTreeMap;
use term_core::{Pid, Step};
use tree_schedules::arrives_at_once;
use world_records::{Place, Records};

/// The step that begins at a place, if one does. `AllocError` where its copies can no longer be counted.
pub(crate) fn step_at(place: &Place) -> Result<Option<Step>, AllocError>
    ensures { IfOk result (λ step. step ≡ step_at place.now) }
{
    match place {
        Place::Course(pid) => Ok(Some(Step::Turn(pid.copy()?))),
        Place::Channel(from, to) => Ok(Some(Step::Deliver(from.copy()?, to.copy()?))),
        _ => Ok(None),
    }
}

impl<'m> Store<'m> {
    /// What is kept before anything happened in a module: nothing but that, with the course of the first process as the
    /// only place. `AllocError` if there is no memory for it.
    pub(crate) fn open(alloc: Global, program: &'m Module) -> Result<Store<'m>, AllocError>
        ensures module { IfOk result (λ store. module_in store.opening ≡ program.now) }
        ensures whole { IfOk result (λ store. IsStore store) }
    {
        let first = Pid::new(alloc, Vec::new(alloc))?;
        let mut places = Vec::new(alloc);
        places.push(Place::Course(first.copy()?))?;
        let mut steps = BTreeMap::new(alloc);
        let _before = steps.insert(Step::Turn(first), 0)?;
        Ok(Store {
            opening: Records::open(alloc, program)?,
            places,
            parts: Vec::new(alloc),
            index: Index::new(alloc),
            steps,
        })
    }

    /// The column of a place, if it has one. It takes no memory.
    pub(crate) fn column(&self, place: &Place) -> Option<usize>
        ensures { result ≡ column_in self.now.places.items place.now }
    {
        self.places.as_slice().iter().position(|it| place.is(it))
    }

    /// The column of a place, which gets one if it has none. `AllocError` if there is no memory for it.
    pub(crate) fn add(&mut self, place: Place) -> Result<usize, AllocError>
        ensures column { IfOk result (λ column. column_in self.new.places.items place ≡ Some column) }
        ensures follows { Follows self.new self.old }
        ensures parts { self.new.parts ≡ self.old.parts }
    {
        if let Some(column) = self.column(&place) {
            return Ok(column);
        }
        let column = self.places.len();
        self.places.reserve(1)?;
        self.begin(&place, column)?;
        self.places.push(place)?;
        Ok(column)
    }

    // Puts the step that begins at a place, if one does, among the steps, with the column that the place gets.
    fn begin(&mut self, place: &Place, column: usize) -> Result<(), AllocError>
        ensures opening { self.new.opening ≡ self.old.opening }
        ensures places { self.new.places ≡ self.old.places }
        ensures parts { self.new.parts ≡ self.old.parts }
        ensures more { HasMore (keys_of self.old.steps.entries) (keys_of self.new.steps.entries) }
        ensures own { OnOk result ((s : Step) → step_at place.now ≡ Some s → IsAmong s (keys_of self.new.steps.entries)) }
        ensures each { (qs : List Place) → slice_get qs column ≡ Some place.now → EachBegins qs self.old.steps.entries → EachBegins qs self.new.steps.entries }
        ensures stays { OnErr result (self.new.steps.entries ≡ self.old.steps.entries) }
    {
        if let Some(step) = step_at(place)? {
            let _before = self.steps.insert(step, column)?;
        }
        Ok(())
    }

    // Whether the step that begins at the place of a column is a delivery: the place is a channel. It takes no memory.
    fn is_channel(&self, column: usize) -> bool
        ensures { (s : Step) → BeginsAt self.now.places.items column s → result ≡ is_delivery s }
    {
        match self.places.get(column) {
            Some(Place::Channel(_, _)) => true,
            _ => false,
        }
    }

    /// Whether the step that begins at the place of a column delivers a signal that arrives at once, by what a world has at that
    /// place. It takes no memory.
    pub(crate) fn is_at_once(&self, row: &[u32], column: usize) -> bool
        ensures { (s : Step) → BeginsAt self.now.places.items column s → result ≡ is_at_once_in (numbered self.now (numbers_in row.now column)) s }
    {
        match self.places.get(column) {
            Some(Place::Channel(from, to)) => {
                let kept = self.numbered(number_in(row, column));
                arrives_at_once(kept.channels().front(from, to))
            }
            _ => false,
        }
    }

    // Whether the step that begins at the place of a column may be enabled in a world: it is no delivery of a channel that is as
    // before anything happened.
    fn may_be_enabled(&self, row: &[u32], column: usize) -> bool
        requires { HaveColumns self.now.places.items }
        ensures { result ≡ false → (s : Step) → BeginsAt self.now.places.items column s → IsIdle self.now.places.items (numbers_in row.now) s }
    {
        !self.is_channel(column) || number_in(row, column) != 0
    }

    /// The columns of the places whose steps may be enabled in a world, in the order of these steps. `AllocError` if there is no
    /// memory for them.
    pub(crate) fn asked(&self, alloc: Global, row: &[u32]) -> Result<Vec<usize>, AllocError>
        requires { IsStore self.now }
        ensures { IfOk result (λ asked. AreAsked self.now (numbers_in row.now) asked.items) }
    {
        let mut asked = Vec::with_capacity(alloc, self.steps.len())?;
        for (_, column) in self.steps.iter() {
            if self.may_be_enabled(row, *column) {
                asked.push(*column)?;
            }
        }
        Ok(asked)
    }
}
