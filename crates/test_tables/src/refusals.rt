// The one rule by which a call is refused, in the order of its arguments.
use crate::scene::happen;
use std::test::Fail;

// What is no object, and what is too short to have a key.
const OBJECTS_ARE_JUDGED: &str = "\
% insert into a set whose keys come second
0 new('t',['named_table',{'keypos',2}]) -> 't'
0 insert('t',[]) -> 'true'
0 insert('t',1) -> 10 of P
0 insert('t','a') -> 10 of P
0 insert('t',[1]) -> 10 of P
0 insert('t',[{1,2}|{3,4}]) -> 10 of P
0 insert('t',[{1,2},'x']) -> 10 of P
0 insert('t',{}) -> 11 of P
0 insert('t',{1}) -> 11 of P
0 insert('t',[{1,2},{}]) -> 11 of P
0 insert('t',[{9,9},{9}]) -> 11 of P
0 insert('t',[]) -> 'true'
0 insert('t',['x',{}]) -> 10 of P
0 insert('t',[{},'x']) -> 10 of P
0 tab2list('t') -> []

% insert_new into a set
0 new('t',['named_table']) -> 't'
0 insert('t',[]) -> 'true'
0 insert_new('t',1) -> 10 of P
0 insert_new('t','a') -> 10 of P
0 insert_new('t',[1]) -> 10 of P
0 insert_new('t',[{1,2}|{3,4}]) -> 10 of P
0 insert_new('t',[{1,2},'x']) -> 10 of P
0 insert_new('t',{}) -> 11 of P
0 insert_new('t',{1}) -> 'true'
0 insert_new('t',[{1,2},{}]) -> 11 of P
0 insert_new('t',[{9,9},{9}]) -> 'true'
0 insert_new('t',[]) -> 'true'
0 insert_new('t',['x',{}]) -> 10 of P
0 tab2list('t') -> [{1},{9}]

% insert into a duplicate bag
Made1 = 0 new('b',['duplicate_bag']) -> #P.1
0 insert(Made1,[{1,'x'},{1,'w'},{1,'x'},{2,'y'},{0,'z'},{2,'y'}]) -> 'true'
0 insert(Made1,{}) -> 11 of P";

#[test]
fn objects_are_judged(rt: HostRuntime) -> Result<(), Fail> {
    happen(rt.alloc(), OBJECTS_ARE_JUDGED)
}

// What may not be counted up or replaced, and where.
const UPDATES_ARE_JUDGED: &str = "\
% update_counter in a set
0 new('t',['named_table']) -> 't'
0 insert('t',[{1,'x'},{'a',5,6},{[1,2],7},{{},1,'c'},{1,'w'},{'b'},{2,-3}]) -> 'true'
0 update_counter('t',2,'a') -> 14 of P
0 update_counter('t',2,{}) -> 14 of P
0 update_counter('t',2,{1}) -> 14 of P
0 update_counter('t',2,{'x',1}) -> 14 of P
0 update_counter('t',2,{1,'x'}) -> 14 of P
0 update_counter('t',2,{2,1,1}) -> 14 of P
0 update_counter('t',2,{2,1,1,'x'}) -> 14 of P
0 update_counter('t',2,{2,1,'x',1}) -> 14 of P
0 update_counter('t',2,{2,1,1,1,1}) -> 14 of P
0 update_counter('t',2,[1]) -> 14 of P
0 update_counter('t',2,[{2,1},1]) -> 14 of P
0 update_counter('t',2,[{2,1}|{2,1}]) -> 14 of P
0 update_counter('t',2,[{1,1},'x']) -> 14 of P
0 update_counter('t',2,[{2,1},{1,1}]) -> 12 of P
0 update_counter('t',2,{0,'x'}) -> 14 of P
0 update_counter('t',2,{2,{}}) -> 14 of P
0 update_counter('t',2,call 'erlang':'self'()) -> 14 of P
0 lookup('t',2) -> [{2,-3}]

% update_counter in a bag
0 new('t',['named_table','bag']) -> 't'
0 insert('t',[{1,'x'},{'a',5,6},{[1,2],7},{{},1,'c'},{1,'w'},{'b'},{2,-3}]) -> 'true'
0 update_counter('t',2,'a') -> 15 of P
0 update_counter('t',2,{}) -> 15 of P
0 update_counter('t',2,{1}) -> 15 of P
0 update_counter('t',2,{'x',1}) -> 15 of P
0 update_counter('t',2,{1,'x'}) -> 15 of P
0 update_counter('t',2,{2,1,1}) -> 15 of P
0 update_counter('t',2,[]) -> 15 of P
0 update_counter('t',2,[{2,1}]) -> 15 of P
0 update_counter('t',2,{0,'x'}) -> 15 of P
0 update_counter('t',2,{2,{}}) -> 15 of P
0 update_counter('t',2,call 'erlang':'self'()) -> 15 of P
0 update_counter('t',2,1,{'d',0}) -> 15 of P
0 update_counter('t','none','x','x') -> 15 of P
0 lookup('t',2) -> [{2,-3}]

% update_counter to both ends of 64 bits, in an ordered set whose keys come second
0 new('t',['named_table',{'keypos',2},'ordered_set']) -> 't'
0 insert('t',[{0,1}]) -> 'true'
0 update_counter('t',1,{1,9223372036854775807}) -> 9223372036854775807
0 update_counter('t',1,{1,1}) -> 19 of P
0 update_counter('t',1,{1,-1}) -> 9223372036854775806
0 update_counter('t',1,{1,1}) -> 9223372036854775807
0 update_counter('t',1,{1,-9223372036854775808}) -> -1
0 update_counter('t',1,{1,-9223372036854775808}) -> 19 of P
0 update_counter('t',1,{1,0}) -> -1
0 lookup('t',1) -> [{-1,1}]

% update_element in a set
0 new('t',['named_table']) -> 't'
0 insert('t',[{1,'x'},{'a',5,6},{[1,2],7},{{},1,'c'},{1,'w'},{'b'},{2,-3}]) -> 'true'
0 update_element('t',2,'a') -> 12 of P
0 update_element('t',2,1) -> 12 of P
0 update_element('t',2,{}) -> 12 of P
0 update_element('t',2,{1}) -> 12 of P
0 update_element('t',2,{'x',1}) -> 12 of P
0 update_element('t',2,{2,1,1}) -> 12 of P
0 update_element('t',2,[{2,1},'x']) -> 12 of P
0 update_element('t',2,[{2,1}|{2,1}]) -> 12 of P
0 update_element('t',2,[{2,1},{1,1}]) -> 12 of P
0 update_element('t',2,[{2,1},{0,1}]) -> 12 of P
0 update_element('t',2,[{2,1},{3,1}]) -> 12 of P
0 update_element('t',2,{{},1}) -> 12 of P
0 lookup('t',2) -> [{2,-3}]

% update_element where the key is missing looks at what it is given
0 new('t',['named_table']) -> 't'
0 insert('t',{1,'x'}) -> 'true'
0 update_element('t',2,'a') -> 12 of P
0 update_element('t',2,{1,1}) -> 12 of P
0 update_element('t',2,[{2,1},{0,1}]) -> 12 of P
0 update_element('t',2,[{2,1}|{2,1}]) -> 12 of P
0 update_element('t',2,{9,1}) -> 'false'
0 update_element('t',2,[]) -> 'false'
0 tab2list('t') -> [{1,'x'}]

% update_counter with a default that may not be put in
0 new('t',['named_table',{'keypos',2}]) -> 't'
0 insert('t',{5,'k'}) -> 'true'
0 update_counter('t','none',{1,1},{}) -> 11 of P
0 update_counter('t','none',{1,1},{'d'}) -> 11 of P
0 update_counter('t','none',[],{'d'}) -> 11 of P
0 update_counter('t','none',1,{0,'d'}) -> 12 of P
0 update_counter('t','none',{1,1},{'x','d'}) -> 14 of P
0 update_counter('t','none',[{1,1},{3,1}],{0,'d'}) -> 12 of P
0 update_counter('t','none',{1,9223372036854775807},{1,'d'}) -> 19 of P
0 update_counter('t','none',{2,1},{1,2}) -> 12 of P
0 update_counter('t','none',{2,1},'x') -> 12 of P
0 update_counter('t','none','x','x') -> 14 of P
0 update_counter('t','none',{1,1},'x') -> 10 of P
0 update_counter('t','none',{1,1},[{1,'d'}]) -> 10 of P
0 update_counter('t','k',{1,1},'x') -> 10 of P
0 update_counter('t','k',[],[]) -> 10 of P
0 update_counter('t','k',{1,1},{}) -> 6
0 update_counter('t','k',[],{'d'}) -> []
0 tab2list('t') -> [{6,'k'}]

% update_element in a bag whose keys come second
0 new('t',['named_table','bag',{'keypos',2}]) -> 't'
0 insert('t',[{'x',1},{5,'a',6},{7,[1,2]},{1,{},'c'},{'w',1},{'z','b'},{-3,2}]) -> 'true'
0 update_element('t',2,'a') -> 15 of P
0 update_element('t',2,1) -> 15 of P
0 update_element('t',2,{}) -> 15 of P
0 update_element('t',2,{1}) -> 15 of P
0 update_element('t',2,{'x',1}) -> 15 of P
0 update_element('t',2,{2,1,1}) -> 15 of P
0 update_element('t',2,[]) -> 15 of P
0 update_element('t',2,[{2,1}]) -> 15 of P
0 update_element('t',2,{{},1}) -> 15 of P
0 lookup('t',2) -> [{-3,2}]";

#[test]
fn updates_are_judged(rt: HostRuntime) -> Result<(), Fail> {
    happen(rt.alloc(), UPDATES_ARE_JUDGED)
}

// Options of new tables.
const OPTIONS_ARE_JUDGED: &str = "\
% the name is judged first, then the options, and last whether the name is taken
0 new(1,['none']) -> 7
0 new('t','none') -> 8
0 new('t',['named_table','none']) -> 8
0 new('t',['named_table']) -> 't'
0 new('t',['none','named_table']) -> 8
0 new('t',['named_table']) -> 9
0 new({},['named_table']) -> 7
Made8 = 0 new('t',[]) -> #P.8

% no options
Made1 = 0 new('t',[]) -> #P.1
0 insert(Made1,[{1,2,3},{1,2,4},{1,1,3}]) -> 'true'
0 tab2list(Made1) -> [{1,1,3}]
0 lookup(Made1,1) -> [{1,1,3}]
0 lookup(Made1,3) -> []

% a set
Made1 = 0 new('t',['set']) -> #P.1
0 insert(Made1,[{1,2,3},{1,2,4},{1,1,3}]) -> 'true'
0 tab2list(Made1) -> [{1,1,3}]
0 lookup(Made1,1) -> [{1,1,3}]
0 lookup(Made1,3) -> []

% a set and then a bag
Made1 = 0 new('t',['set','bag']) -> #P.1
0 insert(Made1,[{1,2,3},{1,2,4},{1,1,3}]) -> 'true'
0 tab2list(Made1) -> [{1,2,3},{1,2,4},{1,1,3}]
0 lookup(Made1,1) -> [{1,2,3},{1,2,4},{1,1,3}]
0 lookup(Made1,3) -> []

% two places of the key
Made1 = 0 new('t',[{'keypos',3},{'keypos',1}]) -> #P.1
0 insert(Made1,[{1,2,3},{1,2,4},{1,1,3}]) -> 'true'
0 tab2list(Made1) -> [{1,1,3}]
0 lookup(Made1,1) -> [{1,1,3}]
0 lookup(Made1,3) -> []

% a place of the key that is no number
0 new('t',[{'keypos','x'}]) -> 8

% no place of the key
0 new('t',['keypos']) -> 8

% a name of no option
0 new('t',['Set']) -> 8

% options that are no list
0 new('t',{'keypos',1}) -> 8

% an heir that is none
0 new('t',['named_table',{'heir','none'}]) -> 't'
0 info('t','heir') -> 'none'
0 setopts('t',{'heir','none'}) -> 'true'
0 info('t','heir') -> 'none'

% an heir without data
0 new('t',['named_table',{'heir',call 'erlang':'self'()}]) -> 8
0 info('t','heir') -> 'undefined'
0 setopts('t',{'heir',call 'erlang':'self'()}) -> 2
0 info('t','heir') -> 'undefined'

% an heir that is no process
0 new('t',['named_table',{'heir',1,'d'}]) -> 8
0 info('t','heir') -> 'undefined'
0 setopts('t',{'heir',1,'d'}) -> 2
0 info('t','heir') -> 'undefined'

% an atom for an heir
0 new('t',['named_table','heir']) -> 8
0 info('t','heir') -> 'undefined'
0 setopts('t','heir') -> 2
0 info('t','heir') -> 'undefined'

% a list for an heir
0 new('t',['named_table',['heir','none']]) -> 8
0 info('t','heir') -> 'undefined'
0 setopts('t',['heir','none']) -> 2
0 info('t','heir') -> 'undefined'

% info of an atom that is no item
0 new('t',['named_table']) -> 't'
0 info('t','x') -> 18 of P
0 info('none','x') -> 'undefined'
0 info(1,'x') -> 1
Made5 = 0 ref() -> #P.5
0 info(Made5,'x') -> 'undefined'

% info of a tuple
0 new('t',['named_table']) -> 't'
0 info('t',{}) -> 18 of P
0 info('none',{}) -> 'undefined'
0 info(1,{}) -> 1
Made5 = 0 ref() -> #P.5
0 info(Made5,{}) -> 'undefined'

% info of a list
0 new('t',['named_table']) -> 't'
0 info('t',['size']) -> 18 of P
0 info('none',['size']) -> 'undefined'
0 info(1,['size']) -> 1
Made5 = 0 ref() -> #P.5
0 info(Made5,['size']) -> 'undefined'";

#[test]
fn options_are_judged(rt: HostRuntime) -> Result<(), Fail> {
    happen(rt.alloc(), OPTIONS_ARE_JUDGED)
}

// A table argument that is not valid, or finds no table, before all else.
const TABLE_ARGUMENTS_ARE_JUDGED_FIRST: &str = "\
% insert
0 insert(1,'x') -> 1
0 insert({},'x') -> 1
0 insert([],'x') -> 1
0 insert(call 'erlang':'self'(),'x') -> 1
0 insert(['t'],'x') -> 1
0 insert('none','x') -> 2
Made7 = 0 ref() -> #P.7
0 insert(Made7,'x') -> 2

% lookup_element
0 lookup_element(1,1,0) -> 1
0 lookup_element({},1,0) -> 1
0 lookup_element([],1,0) -> 1
0 lookup_element(call 'erlang':'self'(),1,0) -> 1
0 lookup_element(['t'],1,0) -> 1
0 lookup_element('none',1,0) -> 2
Made7 = 0 ref() -> #P.7
0 lookup_element(Made7,1,0) -> 2

% info of a table that is not found by its name
Made1 = 0 new('t',[]) -> #P.1
0 info('t','name') -> 'undefined'
0 info('t') -> 'undefined'
0 info(1) -> 1
0 info([]) -> 1

% setopts
0 setopts('t',[]) -> 2
0 setopts(1,'x') -> 1
Made3 = 0 ref() -> #P.3
0 setopts(Made3,'x') -> 2";

#[test]
fn table_arguments_are_judged_first(rt: HostRuntime) -> Result<(), Fail> {
    happen(rt.alloc(), TABLE_ARGUMENTS_ARE_JUDGED_FIRST)
}
