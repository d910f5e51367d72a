// The parts of all worlds of a search, each kept once.

use search_levels::Index;
use std::collections::BTreeMap;
use std::sync::Arc;
use term_core::Step;
use world_records::{Place, Records};

/// What is kept of a place: records that have it there.
#[derive(Drop)]
pub(crate) struct Part<'m> {
    pub(crate) place: Place,
    pub(crate) records: Arc<Records<'m>>,
}

/// The parts of all worlds of a search. Each place has a column, and each part that a place ever had is kept once and has
/// a number, which stays.
#[derive(Drop)]
pub struct Store<'m> {
    pub(crate) opening: Records<'m>,
    pub(crate) places: Vec<Place>,
    pub(crate) parts: Vec<Part<'m>>,
    // Where the parts of a digest are.
    pub(crate) index: Index,
    // The steps that begin at places, each with the column that its place has.
    pub(crate) steps: BTreeMap<Step, usize>,
}
