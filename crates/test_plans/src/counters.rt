// What counters and changes of elements would do, where their key is there and where it is not, and what asks for all items.
use crate::plans::{Line, does, go, module_of, turn_of};
use std::alloc::Global;
use std::test::Fail;
use world_records::Records;

// Each is the third turn: before it a table is made, and gets an object.
const LINES: [Line; 14] = [
    (
        "call 'ets':'update_counter'('t','k',[{2,1},{2,1}])",
        "[6,7]",
        "Machine Alive TableName Table Row",
        "RowWritten",
    ),
    (
        "call 'ets':'update_counter'('t','k',[])",
        "[]",
        "Machine Alive TableName Table Row",
        "RowWritten",
    ),
    (
        "call 'ets':'update_counter'('t','k',{2,5,9,0})",
        "0",
        "Machine Alive TableName Table Row",
        "RowWritten",
    ),
    (
        "call 'ets':'update_counter'('t','k',[{2,1},{3,1}])",
        "12 of P",
        "Machine Alive TableName Table Row",
        "",
    ),
    (
        "call 'ets':'update_counter'('t','l',[])",
        "13 of P",
        "Machine Alive TableName Table Row",
        "",
    ),
    (
        "call 'ets':'update_counter'('t','l',1,{'d',3})",
        "4",
        "Machine Alive TableName Table Row",
        "RowWritten",
    ),
    (
        "call 'ets':'update_counter'('t','l',[],{'d',3})",
        "[]",
        "Machine Alive TableName Table Row",
        "RowWritten",
    ),
    (
        "call 'ets':'update_counter'('t','k',1,'d')",
        "10 of P",
        "Machine Alive TableName Table Row",
        "",
    ),
    (
        "call 'ets':'update_counter'('t','l',1,{})",
        "11 of P",
        "Machine Alive TableName Table Row",
        "",
    ),
    (
        "call 'ets':'update_element'('t','k',[{2,'a'},{2,'b'}])",
        "'true'",
        "Machine Alive TableName Table Row",
        "RowWritten",
    ),
    (
        "call 'ets':'update_element'('t','k',[{2,'a'},{1,'b'}])",
        "12 of P",
        "Machine Alive TableName Table Row",
        "",
    ),
    (
        "call 'ets':'update_element'('t','l',[{2,'a'},{3,'b'}])",
        "'false'",
        "Machine Alive TableName Table Row",
        "",
    ),
    (
        "call 'ets':'info'('t')",
        "[{'owner',P},{'heir','none'},{'name','t'},{'size',1},{'named_table','true'},{'type','set'},{'keypos',1},{'protection','protected'}]",
        "Machine Alive TableName Table Rows",
        "",
    ),
    (
        "call 'ets':'info'('u')",
        "'undefined'",
        "Machine Alive TableName",
        "",
    ),
];

// What is done before.
const FRONT: &str = "do call 'ets':'new'('t',['named_table']) do call 'ets':'insert'('t',{'k',5}) ";

// Checks that each line results in what it says.
fn come_third(alloc: Global, lines: &[Line]) -> Result<(), Fail> {
    for line in lines {
        let (call, _want, _reads, _changes) = line;
        let text = format!(in alloc; "{FRONT}{call}")?;
        let program = module_of(alloc, text.as_str())?;
        let mut records = Records::open(alloc, &program)?;
        go(alloc, &mut records, turn_of(alloc, 0)?)?;
        go(alloc, &mut records, turn_of(alloc, 0)?)?;
        does(alloc, &records, turn_of(alloc, 0)?, line)?;
    }
    Ok(())
}

#[test]
fn counters_are_planned(rt: HostRuntime) -> Result<(), Fail> {
    come_third(rt.alloc(), &LINES)
}
