// Which rows of its table each call writes.
use crate::lines::below_comment;
use core_tree::CallKind;
use ets_answers::{Touched, rows_written};
use ets_calls::TableRequest;
use ets_calls::objects::objects_of;
use ets_store::{Rows, Table};
use std::alloc::{AllocError, Global};
use std::test::Fail;
use term_core::{Atom, Output, Pid, Term, Terms, list_onto, write_all, write_term};
use term_reader::read_term;
use test_support::same;
use world_model::table::{Kind, Protection};

// The objects of the table, whose keys come second.
const OBJECTS: &str = "[{10,1},{20,2}]";

// Blocks of lines, each below a comment: the name of a call, its arguments after the table as a tuple, and the keys whose
// rows it writes, or none, or all.
const CALLS: &str = "\
% objects are put in
insert {{30,3}} -> [3]
insert {{30,1}} -> [1]
insert {[{30,3},{40,1},{50,'a',5}]} -> [3,1,'a']
insert {[]} -> []
insert_new {{30,3}} -> [3]
insert_new {[{40,4},{30,3}]} -> [4,3]
insert_new {[]} -> []

% insert_new answers false
insert_new {{30,1}} -> none
insert_new {[{30,3},{40,2}]} -> none

% a part of an object is 10, but no key
insert_new {{1,10}} -> [10]

% objects are taken out or changed
delete {1} -> [1]
delete {9} -> [9]
delete {} -> all
delete_object {{10,1}} -> [1]
delete_object {{7,9}} -> [9]
delete_all_objects {} -> all
take {2} -> [2]
take {9} -> [9]
update_counter {1,{1,5}} -> [1]
update_counter {1,[{1,5},{1,6}]} -> [1]
update_counter {1,[]} -> [1]
update_counter {1,{1,5},{0,'d'}} -> [1]
update_counter {3,{1,5},{0,'d'}} -> [3]
update_counter {3,[],{0,'d'}} -> [3]
update_element {2,{1,'new'}} -> [2]
update_element {2,[{1,'new'},{1,'old'}]} -> [2]

% nothing is written
update_element {3,{1,'new'}} -> none
update_element {3,[]} -> none
info {} -> none
lookup {1} -> none
member {1} -> none
lookup_element {1,1} -> none
first {} -> none
last {} -> none
next {1} -> none
prev {1} -> none
tab2list {} -> none
info {'size'} -> none
give_away {P.1,'data'} -> none
setopts {{'heir','none'}} -> none
setopts {{'heir',P.1,'data'}} -> none";

// The table: a set that the first process owns.
fn table(alloc: Global) -> Result<Table, Fail> {
    let mut rows = Rows::new(alloc, Kind::Set, 2)?;
    let objects = read_term(alloc, OBJECTS.as_bytes())?;
    if let Some(objects) = objects_of(alloc, &objects)? {
        rows.insert_all(alloc, objects.as_slice())?;
    }
    Ok(Table {
        name: Atom::new(alloc, "t")?,
        is_named: true,
        owner: Pid::new(alloc, Vec::new(alloc))?,
        heir: None,
        protection: Protection::Public,
        rows,
    })
}

// The table and these arguments.
fn arguments_of(alloc: Global, text: &str) -> Result<Terms, Fail> {
    let mut arguments = Terms::new(alloc);
    arguments.push(Term::atom(alloc, "t")?)?;
    if let Term::Tuple(parts) = read_term(alloc, text.as_bytes())? {
        for part in parts.as_slice() {
            arguments.push(part.copy()?)?;
        }
    }
    Ok(arguments)
}

// Keys as a list.
fn list_of(alloc: Global, keys: &[Term]) -> Result<Term, AllocError> {
    let mut heads = Vec::new(alloc);
    for key in keys {
        heads.push(key.copy()?)?;
    }
    list_onto(alloc, heads, Term::Nil)
}

// The keys of the rows as a list, or whether they are none or all.
fn text_of(alloc: Global, touched: &Touched) -> Result<Vec<u8>, Fail> {
    let mut sink = Output::new(Vec::new(alloc));
    match touched {
        Touched::NoRow => write_all(&mut sink, b"none")?,
        Touched::RowsOfKeys(keys) => write_term(&list_of(alloc, keys.as_slice())?, &mut sink)?,
        Touched::EachRow => write_all(&mut sink, b"all")?,
    }
    Ok(sink.writer)
}

// What a call of the table writes, as text.
fn written(alloc: Global, name: &str, arguments: &str) -> Result<Vec<u8>, Fail> {
    let table = table(alloc)?;
    let arguments = arguments_of(alloc, arguments)?;
    let Some(kind) = CallKind::named("ets", name, arguments.len()) else {
        return Err(Fail::from("there is no such call"));
    };
    match TableRequest::of(alloc, kind, &arguments)? {
        TableRequest::OnTable(_, call) => {
            let touched = rows_written(alloc, &table, &call)?;
            text_of(alloc, &touched)
        }
        _ => Err(Fail::from("it is no call of a table")),
    }
}

// The name of the call of a line, its arguments, and what it writes.
fn parts_of(line: &str) -> Option<(&str, &str, &str)> {
    let (call, wanted) = line.split_once(" -> ")?;
    let (name, arguments) = call.split_once(' ')?;
    Some((name, arguments, wanted))
}

// Checks that the call of a line writes what the line says.
fn writes_so(alloc: Global, line: &str) -> Result<(), Fail> {
    let Some((name, arguments, wanted)) = parts_of(line) else {
        return Err(Fail::from("a line says what its call writes"));
    };
    let text = written(alloc, name, arguments)?;
    same(text.as_slice(), wanted.as_bytes())
}

// Checks that each call of a block writes what its line says.
fn write_so(alloc: Global, block: &str) -> Result<(), Fail> {
    for line in below_comment(block)?.split('\n') {
        writes_so(alloc, line)?;
    }
    Ok(())
}

#[test]
fn calls_write_rows(rt: HostRuntime) -> Result<(), Fail> {
    for block in CALLS.split("\n\n") {
        write_so(rt.alloc(), block)?;
    }
    Ok(())
}
