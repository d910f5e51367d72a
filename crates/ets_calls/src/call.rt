// The calls of tables as they are understood: which call, and what each argument is (the Erlang manual, module
// `ets`). An argument that is not of its kind is `None`, or the variant that says so.
use crate::increment::Increment;
use ets_store::{Heir, Object};
use term_core::{Pid, Term};
use world_model::table::Item;

/// A call with a table argument, and its other arguments.
#[derive(Drop)]
pub enum TableCall {
    /// `lookup/2`: the key.
    Lookup(Term),
    /// `member/2`: the key.
    Member(Term),
    /// `lookup_element/3`: the key, and the position if it is one.
    LookupElement(Term, Option<usize>),
    /// `first/1`.
    First,
    /// `last/1`.
    Last,
    /// `next/2`: the key.
    Next(Term),
    /// `prev/2`: the key.
    Prev(Term),
    /// `tab2list/1`.
    ToList,
    /// `insert/2`: the objects, if they are such.
    Insert(Option<Vec<Object>>),
    /// `insert_new/2`: the objects, if they are such.
    InsertNew(Option<Vec<Object>>),
    /// `delete/1`.
    DeleteTable,
    /// `delete/2`: the key.
    DeleteKey(Term),
    /// `delete_object/2`: the object, if it is one.
    DeleteObject(Option<Object>),
    /// `delete_all_objects/1`.
    DeleteAll,
    /// `take/2`: the key.
    Take(Term),
    /// `update_counter/3`, `update_counter/4`: the key, what is added, and the object that is taken where none is there,
    /// if one is given, and if that is one.
    UpdateCounter(Term, Increment, Option<Option<Object>>),
    /// `update_element/3`: the key, and the positions with what is to be there, if they are such.
    UpdateElement(Term, Option<Vec<(usize, Term)>>),
    /// `give_away/3`: the new owner, if it is a process, and the data that it is given.
    GiveAway(Option<Pid>, Term),
    /// `setopts/2`: the heirs, one after the other, if the options are such.
    SetOptions(Option<Vec<Option<Heir>>>),
    /// `info/2`: the item, if it is one.
    Info(Option<Item>),
    /// `info/1`.
    InfoAll,
}
