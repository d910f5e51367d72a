// Walks over the keys of tables.
use crate::scene::happen;
use std::test::Fail;

// Walks from keys that are there, and from keys that are not.
const KEYS_ARE_WALKED: &str = "\
% from the keys of an ordered set
0 new('t',['named_table','ordered_set']) -> 't'
0 insert('t',[{1,'x'},{'a',5,6},{[1,2],7},{{},1,'c'},{1,'w'},{'b'},{2,-3}]) -> 'true'
0 first('t') -> 1
0 last('t') -> [1,2]
0 tab2list('t') -> [{1,'w'},{2,-3},{'a',5,6},{'b'},{{},1,'c'},{[1,2],7}]
0 next('t',1) -> 2
0 prev('t',1) -> '$end_of_table'
0 next('t',2) -> 'a'
0 prev('t',2) -> 1
0 next('t','a') -> 'b'
0 prev('t','a') -> 2
0 next('t','b') -> {}
0 prev('t','b') -> 'a'
0 next('t',{}) -> [1,2]
0 prev('t',{}) -> 'b'
0 next('t',[1,2]) -> '$end_of_table'
0 prev('t',[1,2]) -> {}

% from other keys, in an ordered set whose keys come second
0 new('t',['named_table',{'keypos',2},'ordered_set']) -> 't'
0 insert('t',[{'x',1},{5,'a',6},{7,[1,2]},{1,{},'c'},{'w',1},{'z','b'},{-3,2}]) -> 'true'
0 next('t',0) -> 1
0 prev('t',0) -> '$end_of_table'
0 next('t',3) -> 'a'
0 prev('t',3) -> 2
0 next('t','aa') -> 'b'
0 prev('t','aa') -> 'a'
0 next('t','z') -> {}
0 prev('t','z') -> 'b'
0 next('t',{1}) -> [1,2]
0 prev('t',{1}) -> {}
0 next('t',[]) -> [1,2]
0 prev('t',[]) -> {}
0 next('t',[9]) -> '$end_of_table'
0 prev('t',[9]) -> [1,2]
0 next('t',-9223372036854775808) -> 1
0 prev('t',-9223372036854775808) -> '$end_of_table'
0 next('t',call 'erlang':'self'()) -> {}
0 prev('t',call 'erlang':'self'()) -> 'b'

% from the keys of a bag
0 new('t',['named_table','bag']) -> 't'
0 insert('t',[{1,'x'},{'a',5,6},{[1,2],7},{{},1,'c'},{1,'w'},{'b'},{2,-3}]) -> 'true'
0 first('t') -> 1
0 last('t') -> 1
0 tab2list('t') -> [{1,'x'},{1,'w'},{2,-3},{'a',5,6},{'b'},{{},1,'c'},{[1,2],7}]
0 next('t',1) -> 2
0 prev('t',1) -> 2
0 next('t',2) -> 'a'
0 prev('t',2) -> 'a'
0 next('t','a') -> 'b'
0 prev('t','a') -> 'b'
0 next('t','b') -> {}
0 prev('t','b') -> {}
0 next('t',{}) -> [1,2]
0 prev('t',{}) -> [1,2]
0 next('t',[1,2]) -> '$end_of_table'
0 prev('t',[1,2]) -> '$end_of_table'

% from other keys, in a bag
0 new('t',['named_table','bag']) -> 't'
0 insert('t',[{1,'x'},{'a',5,6},{[1,2],7},{{},1,'c'},{1,'w'},{'b'},{2,-3}]) -> 'true'
0 next('t',0) -> 13 of P
0 prev('t',0) -> 13 of P
0 next('t',3) -> 13 of P
0 prev('t',3) -> 13 of P
0 next('t','aa') -> 13 of P
0 prev('t','aa') -> 13 of P
0 next('t','z') -> 13 of P
0 prev('t','z') -> 13 of P
0 next('t',{1}) -> 13 of P
0 prev('t',{1}) -> 13 of P
0 next('t',[]) -> 13 of P
0 prev('t',[]) -> 13 of P
0 next('t',[9]) -> 13 of P
0 prev('t',[9]) -> 13 of P
0 next('t',-9223372036854775808) -> 13 of P
0 prev('t',-9223372036854775808) -> 13 of P
0 next('t',call 'erlang':'self'()) -> 13 of P
0 prev('t',call 'erlang':'self'()) -> 13 of P

% an ordered set without objects
0 new('t',['named_table','ordered_set']) -> 't'
0 insert('t',[]) -> 'true'
0 first('t') -> '$end_of_table'
0 last('t') -> '$end_of_table'
0 tab2list('t') -> []
0 next('t',1) -> '$end_of_table'
0 prev('t',1) -> '$end_of_table'
0 next('t','$end_of_table') -> '$end_of_table'
0 lookup('t',1) -> []
0 member('t',1) -> 'false'
0 take('t',1) -> []
0 delete('t',1) -> 'true'
0 delete_all_objects('t') -> 'true'

% from the keys of a duplicate bag
Made1 = 0 new('b',['duplicate_bag']) -> #P.1
0 insert(Made1,[{1,'x'},{1,'w'},{1,'x'},{2,'y'},{0,'z'},{2,'y'}]) -> 'true'
0 first(Made1) -> 0
0 next(Made1,0) -> 1
0 next(Made1,1) -> 2
0 next(Made1,2) -> '$end_of_table'
0 last(Made1) -> 0
0 prev(Made1,1) -> 2";

#[test]
fn keys_are_walked(rt: HostRuntime) -> Result<(), Fail> {
    happen(rt.alloc(), KEYS_ARE_WALKED)
}
