// A table that is found.
use ets_store::Table;
use term_core::RefId;

/// A table that an argument finds, with the reference of its creation.
#[derive(Clone, Copy)]
pub struct FoundTable<'t> {
    /// The reference of its creation.
    pub id: &'t RefId,
    /// The table.
    pub table: &'t Table,
}
