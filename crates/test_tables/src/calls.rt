// What each call of a table answers and leaves, in each kind of table.
use crate::scene::happen;
use std::test::Fail;

// What is looked up, in a bag, a set and a table whose keys come second.
const OBJECTS_ARE_FOUND: &str = "\
% lookup in a bag whose keys come second
0 new('t',['named_table','bag',{'keypos',2}]) -> 't'
0 insert('t',[{'x',1},{5,'a',6},{7,[1,2]},{1,{},'c'},{'w',1},{'z','b'},{-3,2}]) -> 'true'
0 lookup('t',1) -> [{'x',1},{'w',1}]
0 lookup('t','a') -> [{5,'a',6}]
0 lookup('t',[1,2]) -> [{7,[1,2]}]
0 lookup('t',{}) -> [{1,{},'c'}]
0 lookup('t','b') -> [{'z','b'}]
0 lookup('t',2) -> [{-3,2}]
0 lookup('t','none') -> []
0 lookup('t',[]) -> []
0 lookup('t',-1) -> []
0 lookup('t',{1}) -> []

% member of a set
0 new('t',['named_table']) -> 't'
0 insert('t',[{1,'x'},{'a',5,6},{[1,2],7},{{},1,'c'},{1,'w'},{'b'},{2,-3}]) -> 'true'
0 member('t',1) -> 'true'
0 member('t','a') -> 'true'
0 member('t',[1,2]) -> 'true'
0 member('t',{}) -> 'true'
0 member('t','b') -> 'true'
0 member('t',2) -> 'true'
0 member('t','none') -> 'false'
0 member('t',[]) -> 'false'
0 member('t',-1) -> 'false'
0 member('t',{1}) -> 'false'

% lookup_element in a bag
0 new('t',['named_table','bag']) -> 't'
0 insert('t',[{1,'x'},{'a',5,6},{[1,2],7},{{},1,'c'},{1,'w'},{'b'},{2,-3}]) -> 'true'
0 lookup_element('t',1,1) -> [1,1]
0 lookup_element('t',1,2) -> ['x','w']
0 lookup_element('t',1,3) -> 12 of P
0 lookup_element('t','a',1) -> ['a']
0 lookup_element('t','a',3) -> [6]
0 lookup_element('t','a',4) -> 12 of P
0 lookup_element('t','b',1) -> ['b']
0 lookup_element('t','b',2) -> 12 of P
0 lookup_element('t','none',1) -> 13 of P
0 lookup_element('t',1,0) -> 12 of P
0 lookup_element('t',1,-1) -> 12 of P
0 lookup_element('t',1,'x') -> 12 of P
0 lookup_element('t','none',0) -> 12 of P
0 lookup_element('t',1,9223372036854775807) -> 12 of P
0 lookup_element('t',1,{}) -> 12 of P

% lookup_element in an ordered set whose keys come second
0 new('t',['named_table',{'keypos',2},'ordered_set']) -> 't'
0 insert('t',[{'x',1},{5,'a',6},{7,[1,2]},{1,{},'c'},{'w',1},{'z','b'},{-3,2}]) -> 'true'
0 lookup_element('t',1,1) -> 'w'
0 lookup_element('t',1,2) -> 1
0 lookup_element('t',1,3) -> 12 of P
0 lookup_element('t','a',1) -> 5
0 lookup_element('t','a',3) -> 6
0 lookup_element('t','a',4) -> 12 of P
0 lookup_element('t','b',1) -> 'z'
0 lookup_element('t','b',2) -> 'b'
0 lookup_element('t','none',1) -> 13 of P
0 lookup_element('t',1,0) -> 12 of P
0 lookup_element('t',1,-1) -> 12 of P
0 lookup_element('t',1,'x') -> 12 of P
0 lookup_element('t','none',0) -> 12 of P
0 lookup_element('t',1,9223372036854775807) -> 12 of P
0 lookup_element('t',1,{}) -> 12 of P";

#[test]
fn objects_are_found(rt: HostRuntime) -> Result<(), Fail> {
    happen(rt.alloc(), OBJECTS_ARE_FOUND)
}

// What is put in, in the order in which it comes.
const OBJECTS_ARE_PUT_IN: &str = "\
% the order of objects in a set
0 new('t',['named_table']) -> 't'
0 insert('t',[{1,1},{0,1},{1,2}]) -> 'true'
0 insert('t',{1,1}) -> 'true'
0 insert('t',{1,0}) -> 'true'
0 insert('t',{1,1}) -> 'true'
0 lookup('t',1) -> [{1,1}]
0 delete_object('t',{1,1}) -> 'true'
0 insert('t',{1,1}) -> 'true'
0 lookup('t',1) -> [{1,1}]
0 tab2list('t') -> [{0,1},{1,1}]

% the order of objects in an ordered set whose keys come second
0 new('t',['named_table',{'keypos',2},'ordered_set']) -> 't'
0 insert('t',[{1,1},{0,1},{1,2}]) -> 'true'
0 insert('t',{1,1}) -> 'true'
0 insert('t',{1,0}) -> 'true'
0 insert('t',{1,1}) -> 'true'
0 lookup('t',1) -> [{1,1}]
0 delete_object('t',{1,1}) -> 'true'
0 insert('t',{1,1}) -> 'true'
0 lookup('t',1) -> [{1,1}]
0 tab2list('t') -> [{1,0},{1,1},{1,2}]

% the order of objects in a bag
0 new('t',['named_table','bag']) -> 't'
0 insert('t',[{1,1},{0,1},{1,2}]) -> 'true'
0 insert('t',{1,1}) -> 'true'
0 insert('t',{1,0}) -> 'true'
0 insert('t',{1,1}) -> 'true'
0 lookup('t',1) -> [{1,1},{1,2},{1,0}]
0 delete_object('t',{1,1}) -> 'true'
0 insert('t',{1,1}) -> 'true'
0 lookup('t',1) -> [{1,2},{1,0},{1,1}]
0 tab2list('t') -> [{0,1},{1,2},{1,0},{1,1}]

% insert_new into a bag
0 new('t',['named_table','bag']) -> 't'
0 insert('t',[{1,'x'},{'a',5,6},{[1,2],7},{{},1,'c'},{1,'w'},{'b'},{2,-3}]) -> 'true'
0 insert_new('t',{1,2,'new'}) -> 'false'
0 insert_new('t',{8,9}) -> 'true'
0 insert_new('t',[{10,11},{12,13}]) -> 'true'
0 insert_new('t',[{14,15},{8,9}]) -> 'false'
0 lookup('t',14) -> []
0 lookup('t',15) -> []
0 insert_new('t',[{20,21},{20,21},{22,21},{20,23}]) -> 'true'
0 insert_new('t',[]) -> 'true'
0 tab2list('t') -> [{1,'x'},{1,'w'},{2,-3},{8,9},{10,11},{12,13},{20,21},{20,23},{22,21},{'a',5,6},{'b'},{{},1,'c'},{[1,2],7}]

% insert_new into an ordered set whose keys come second
0 new('t',['named_table',{'keypos',2},'ordered_set']) -> 't'
0 insert('t',[{'x',1},{5,'a',6},{7,[1,2]},{1,{},'c'},{'w',1},{'z','b'},{-3,2}]) -> 'true'
0 insert_new('t',{1,2,'new'}) -> 'false'
0 insert_new('t',{8,9}) -> 'true'
0 insert_new('t',[{10,11},{12,13}]) -> 'true'
0 insert_new('t',[{14,15},{8,9}]) -> 'false'
0 lookup('t',14) -> []
0 lookup('t',15) -> []
0 insert_new('t',[{20,21},{20,21},{22,21},{20,23}]) -> 'true'
0 insert_new('t',[]) -> 'true'
0 tab2list('t') -> [{'w',1},{-3,2},{8,9},{10,11},{12,13},{22,21},{20,23},{5,'a',6},{'z','b'},{1,{},'c'},{7,[1,2]}]

% insert_new into a duplicate bag that has one of the keys
Made1 = 0 new('b',['duplicate_bag']) -> #P.1
0 insert(Made1,[{1,'x'},{1,'w'},{1,'x'},{2,'y'},{0,'z'},{2,'y'}]) -> 'true'
0 insert_new(Made1,[{9,'a'},{1,'b'}]) -> 'false'
0 tab2list(Made1) -> [{0,'z'},{1,'x'},{1,'w'},{1,'x'},{2,'y'},{2,'y'}]";

#[test]
fn objects_are_put_in(rt: HostRuntime) -> Result<(), Fail> {
    happen(rt.alloc(), OBJECTS_ARE_PUT_IN)
}

// What is taken out: objects, keys, all of them, and the table.
const OBJECTS_ARE_TAKEN_OUT: &str = "\
% delete: keys of a bag, all its objects, and the bag
0 new('t',['named_table','bag']) -> 't'
0 insert('t',[{1,'x'},{'a',5,6},{[1,2],7},{{},1,'c'},{1,'w'},{'b'},{2,-3}]) -> 'true'
0 delete('t',1) -> 'true'
0 delete('t','none') -> 'true'
0 delete('t',[1,2]) -> 'true'
0 delete('t',1) -> 'true'
0 tab2list('t') -> [{2,-3},{'a',5,6},{'b'},{{},1,'c'}]
0 first('t') -> 2
0 delete_all_objects('t') -> 'true'
0 tab2list('t') -> []
0 delete('t') -> 'true'
0 lookup('t',1) -> 2
0 delete('t') -> 2
0 delete('t',1) -> 2
0 delete_all_objects('t') -> 2

% delete_object in a bag
0 new('t',['named_table','bag']) -> 't'
0 insert('t',[{1,'x'},{'a',5,6},{[1,2],7},{{},1,'c'},{1,'w'},{'b'},{2,-3}]) -> 'true'
0 delete_object('t',{1,'x'}) -> 'true'
0 delete_object('t',{1,'x'}) -> 'true'
0 delete_object('t',{'x',1}) -> 'true'
0 delete_object('t',{'a',5}) -> 'true'
0 delete_object('t',{'a',5,6}) -> 'true'
0 delete_object('t',{5,'a',6}) -> 'true'
0 delete_object('t',{'none',1}) -> 'true'
0 delete_object('t',{'none',1,2}) -> 'true'
0 delete_object('t',1) -> 10 of P
0 delete_object('t',{}) -> 11 of P
0 delete_object('t',{'b'}) -> 'true'
0 delete_object('t',[{1,'x'}]) -> 10 of P
0 delete_object('t','a') -> 10 of P
0 tab2list('t') -> [{1,'w'},{2,-3},{{},1,'c'},{[1,2],7}]

% delete_object in a set whose keys come second
0 new('t',['named_table',{'keypos',2}]) -> 't'
0 insert('t',[{'x',1},{5,'a',6},{7,[1,2]},{1,{},'c'},{'w',1},{'z','b'},{-3,2}]) -> 'true'
0 delete_object('t',{1,'x'}) -> 'true'
0 delete_object('t',{1,'x'}) -> 'true'
0 delete_object('t',{'x',1}) -> 'true'
0 delete_object('t',{'a',5}) -> 'true'
0 delete_object('t',{'a',5,6}) -> 'true'
0 delete_object('t',{5,'a',6}) -> 'true'
0 delete_object('t',{'none',1}) -> 'true'
0 delete_object('t',{'none',1,2}) -> 'true'
0 delete_object('t',1) -> 10 of P
0 delete_object('t',{}) -> 11 of P
0 delete_object('t',{'b'}) -> 11 of P
0 delete_object('t',[{1,'x'}]) -> 10 of P
0 delete_object('t','a') -> 10 of P
0 tab2list('t') -> [{'w',1},{-3,2},{'z','b'},{1,{},'c'},{7,[1,2]}]

% delete_object in a duplicate bag
Made1 = 0 new('b',['duplicate_bag']) -> #P.1
0 insert(Made1,[{1,'x'},{1,'w'},{1,'x'},{2,'y'},{0,'z'},{2,'y'}]) -> 'true'
0 delete_object(Made1,{1,'x'}) -> 'true'
0 lookup(Made1,1) -> [{1,'w'}]

% take from a bag
0 new('t',['named_table','bag']) -> 't'
0 insert('t',[{1,'x'},{'a',5,6},{[1,2],7},{{},1,'c'},{1,'w'},{'b'},{2,-3}]) -> 'true'
0 take('t',1) -> [{1,'x'},{1,'w'}]
0 take('t',1) -> []
0 take('t','none') -> []
0 take('t',{}) -> [{{},1,'c'}]
0 tab2list('t') -> [{2,-3},{'a',5,6},{'b'},{[1,2],7}]
0 insert('t',{1,1,1}) -> 'true'
0 take('t',1) -> [{1,1,1}]

% take from a duplicate bag
Made1 = 0 new('b',['duplicate_bag']) -> #P.1
0 insert(Made1,[{1,'x'},{1,'w'},{1,'x'},{2,'y'},{0,'z'},{2,'y'}]) -> 'true'
0 take(Made1,2) -> [{2,'y'},{2,'y'}]
0 tab2list(Made1) -> [{0,'z'},{1,'x'},{1,'w'},{1,'x'}]

% a table is deleted, and another gets its name
0 new('t',['named_table','bag']) -> 't'
0 insert('t',[{1,1},{1,2}]) -> 'true'
0 delete('t') -> 'true'
0 new('t',['named_table']) -> 't'
0 insert('t',[{1,1},{1,2}]) -> 'true'
0 tab2list('t') -> [{1,2}]";

#[test]
fn objects_are_taken_out(rt: HostRuntime) -> Result<(), Fail> {
    happen(rt.alloc(), OBJECTS_ARE_TAKEN_OUT)
}

// Elements that are counted up, to both ends of 64 bits, and replaced.
const ELEMENTS_ARE_UPDATED: &str = "\
% update_counter in a set whose keys come second
0 new('t',['named_table',{'keypos',2}]) -> 't'
0 insert('t',[{'x',1},{5,'a',6},{7,[1,2]},{1,{},'c'},{'w',1},{'z','b'},{-3,2}]) -> 'true'
0 update_counter('t',2,1) -> 12 of P
0 update_counter('t',2,-10) -> 12 of P
0 update_counter('t',2,{1,5}) -> 2
0 update_counter('t',2,{2,5}) -> 12 of P
0 update_counter('t',2,{0,1}) -> 12 of P
0 update_counter('t',2,{-1,1}) -> 12 of P
0 update_counter('t',2,{4,1}) -> 12 of P
0 update_counter('t',1,1) -> 12 of P
0 update_counter('t',1,{1,1}) -> 14 of P
0 update_counter('t','a',1) -> 7
0 update_counter('t','a',{3,10}) -> 17
0 update_counter('t','a',{2,10}) -> 12 of P
0 update_counter('t','a',{1,10}) -> 15
0 update_counter('t','b',{1,1}) -> 14 of P
0 update_counter('t','none',1) -> 13 of P
0 update_counter('t','none','x') -> 14 of P
0 update_counter('t','none',{2,1}) -> 12 of P

% update_counter in an ordered set
0 new('t',['named_table','ordered_set']) -> 't'
0 insert('t',[{1,'x'},{'a',5,6},{[1,2],7},{{},1,'c'},{1,'w'},{'b'},{2,-3}]) -> 'true'
0 update_counter('t',2,1) -> -2
0 update_counter('t',2,-10) -> -12
0 update_counter('t',2,{2,5}) -> -7
0 update_counter('t',2,{1,5}) -> 12 of P
0 update_counter('t',2,{0,1}) -> 12 of P
0 update_counter('t',2,{-1,1}) -> 12 of P
0 update_counter('t',2,{4,1}) -> 12 of P
0 update_counter('t',1,1) -> 14 of P
0 update_counter('t',1,{2,1}) -> 14 of P
0 update_counter('t','a',1) -> 6
0 update_counter('t','a',{3,10}) -> 16
0 update_counter('t','a',{2,10}) -> 16
0 update_counter('t','a',{1,10}) -> 12 of P
0 update_counter('t','b',{2,1}) -> 12 of P
0 update_counter('t','none',1) -> 13 of P
0 update_counter('t','none','x') -> 14 of P
0 update_counter('t','none',{1,1}) -> 12 of P

% update_counter to both ends of 64 bits, in a set
0 new('t',['named_table']) -> 't'
0 insert('t',[{1,0}]) -> 'true'
0 update_counter('t',1,{2,9223372036854775807}) -> 9223372036854775807
0 update_counter('t',1,{2,1}) -> 19 of P
0 update_counter('t',1,{2,-1}) -> 9223372036854775806
0 update_counter('t',1,{2,1}) -> 9223372036854775807
0 update_counter('t',1,{2,-9223372036854775808}) -> -1
0 update_counter('t',1,{2,-9223372036854775808}) -> 19 of P
0 update_counter('t',1,{2,0}) -> -1
0 lookup('t',1) -> [{1,-1}]

% update_element in an ordered set whose keys come second
0 new('t',['named_table',{'keypos',2},'ordered_set']) -> 't'
0 insert('t',[{'x',1},{5,'a',6},{7,[1,2]},{1,{},'c'},{'w',1},{'z','b'},{-3,2}]) -> 'true'
0 update_element('t',2,{1,'new'}) -> 'true'
0 update_element('t',2,{2,'new'}) -> 12 of P
0 update_element('t',2,{0,1}) -> 12 of P
0 update_element('t',2,{-1,1}) -> 12 of P
0 update_element('t',2,{3,1}) -> 12 of P
0 update_element('t','a',{3,{'t'}}) -> 'true'
0 update_element('t','none',{1,1}) -> 'false'
0 update_element('t','none',{9,1}) -> 'false'
0 update_element('t','none',{0,1}) -> 12 of P
0 update_element('t','none',{2,1}) -> 12 of P
0 update_element('t','b',{1,1}) -> 'true'
0 tab2list('t') -> [{'w',1},{'new',2},{5,'a',{'t'}},{1,'b'},{1,{},'c'},{7,[1,2]}]

% update_counter with several additions, one after the other, in a set
0 new('t',['named_table']) -> 't'
0 insert('t',[{'k',5,'a',7},{'m'}]) -> 'true'
0 update_counter('t','k',[{2,1},{4,-2}]) -> [6,5]
0 update_counter('t','k',[{2,1},{2,10},{2,-5}]) -> [7,17,12]
0 update_counter('t','k',[{4,1}]) -> [6]
0 update_counter('t','k',[]) -> []
0 update_counter('t','m',[]) -> []
0 update_counter('t','none',[]) -> 13 of P
0 update_counter('t','none',[{2,1}]) -> 13 of P
0 update_counter('t','k',[{2,1},{3,1}]) -> 14 of P
0 update_counter('t','k',[{2,1},{5,1}]) -> 12 of P
0 update_counter('t','k',[{2,1},{2,9223372036854775807}]) -> 19 of P
0 tab2list('t') -> [{'k',12,'a',6},{'m'}]

% update_counter with limits, in an ordered set
0 new('t',['named_table','ordered_set']) -> 't'
0 insert('t',{'k',5}) -> 'true'
0 update_counter('t','k',{2,4,9,0}) -> 9
0 update_counter('t','k',{2,1,9,0}) -> 0
0 update_counter('t','k',{2,0,-1,7}) -> 7
0 update_counter('t','k',{2,0,7,1}) -> 7
0 update_counter('t','k',{2,-2,5,100}) -> 5
0 update_counter('t','k',{2,-1,5,100}) -> 100
0 update_counter('t','k',{2,-1,200,3}) -> 3
0 update_counter('t','k',[{2,1,9,0},{2,6},{2,1,9,0}]) -> [4,10,0]
0 update_counter('t','k',{2,9223372036854775807,9223372036854775807,1}) -> 9223372036854775807
0 update_counter('t','k',{2,1,9223372036854775807,-9223372036854775808}) -> -9223372036854775808
0 update_counter('t','k',{2,-1,-9223372036854775808,9223372036854775807}) -> 9223372036854775807
0 update_counter('t','k',[{2,1,5,6},{2,9223372036854775807}]) -> 19 of P
0 lookup('t','k') -> [{'k',9223372036854775807}]

% update_counter with a default, in a set
0 new('t',['named_table']) -> 't'
0 update_counter('t','k',1,{'d',3}) -> 4
0 update_counter('t','k',1,{'d',3}) -> 5
0 update_counter('t','a',[{3,1},{2,2},{3,1}],{'d',1,1,'x'}) -> [2,3,3]
0 update_counter('t','b',[],{'d'}) -> []
0 update_counter('t','c',{2,8,9,0},{'d',2}) -> 0
0 tab2list('t') -> [{'a',3,3,'x'},{'b'},{'c',0},{'k',5}]

% update_counter with a default, in an ordered set whose keys come second
0 new('t',['named_table','ordered_set',{'keypos',2}]) -> 't'
0 update_counter('t','k',1,{1,'d',5}) -> 6
0 update_counter('t','k',{1,7},{1,'d',5}) -> 8
0 update_counter('t','l',{1,7},{1,'d'}) -> 8
0 tab2list('t') -> [{8,'k',6},{8,'l'}]

% update_element with several parts, one after the other
0 new('t',['named_table']) -> 't'
0 insert('t',[{'k',1,2},{'m'}]) -> 'true'
0 update_element('t','k',[{2,'a'},{3,'b'},{2,'c'}]) -> 'true'
0 update_element('t','k',[]) -> 'true'
0 update_element('t','m',[]) -> 'true'
0 update_element('t','m',[{2,1}]) -> 12 of P
0 update_element('t','none',[{2,1}]) -> 'false'
0 tab2list('t') -> [{'k','c','b'},{'m'}]";

#[test]
fn elements_are_updated(rt: HostRuntime) -> Result<(), Fail> {
    happen(rt.alloc(), ELEMENTS_ARE_UPDATED)
}

// What `info` reports about a table, of its size, and of none.
const ITEMS_ARE_TOLD: &str = "\
% info about a table with several options of a kind
Made1 = 0 new('t',['bag','set','ordered_set','private','public',{'keypos',3},{'heir','none'},{'heir',call 'erlang':'self'(),1}]) -> #P.1
0 insert(Made1,[{1,2,3},{1,2,4},{2,2,3},{1,2,3}]) -> 'true'
0 info(Made1,'name') -> 't'
0 info(Made1,'type') -> 'ordered_set'
0 info(Made1,'protection') -> 'public'
0 info(Made1,'owner') -> P
0 info(Made1,'size') -> 2
0 info(Made1,'keypos') -> 3
0 info(Made1,'heir') -> P
0 info(Made1,'named_table') -> 'false'
0 info(Made1) -> [{'owner',P},{'heir',P},{'name','t'},{'size',2},{'named_table','false'},{'type','ordered_set'},{'keypos',3},{'protection','public'}]

% info about a bag
0 new('t',['bag','public','named_table',{'heir',call 'erlang':'self'(),'d'}]) -> 't'
0 insert('t',[{1,2,3},{1,2,4},{2,2,3},{1,2,3}]) -> 'true'
0 info('t','name') -> 't'
0 info('t','type') -> 'bag'
0 info('t','protection') -> 'public'
0 info('t','owner') -> P
0 info('t','size') -> 3
0 info('t','keypos') -> 1
0 info('t','heir') -> P
0 info('t','named_table') -> 'true'
0 info('t') -> [{'owner',P},{'heir',P},{'name','t'},{'size',3},{'named_table','true'},{'type','bag'},{'keypos',1},{'protection','public'}]

% the size while objects go
0 new('t',['named_table','bag']) -> 't'
0 insert('t',[{1,1},{1,2},{2,1},{1,1}]) -> 'true'
0 info('t','size') -> 3
0 delete_object('t',{1,1}) -> 'true'
0 info('t','size') -> 2
0 take('t',1) -> [{1,2}]
0 info('t','size') -> 1
0 delete_all_objects('t') -> 'true'
0 info('t','size') -> 0

% the name of a table that is not found by it
Made1 = 0 new('some name',[]) -> #P.1
0 info(Made1,'name') -> 'some name'

% the type of a duplicate bag
Made1 = 0 new('b',['duplicate_bag']) -> #P.1
0 insert(Made1,[{1,'x'},{1,'w'},{1,'x'},{2,'y'},{0,'z'},{2,'y'}]) -> 'true'
0 info(Made1,'type') -> 'duplicate_bag'";

#[test]
fn items_are_told(rt: HostRuntime) -> Result<(), Fail> {
    happen(rt.alloc(), ITEMS_ARE_TOLD)
}
