// Who may call, who owns a table, and where it goes when its owner ends.
use crate::scene::happen;
use std::test::Fail;

// Calls of others than the owner, by the protection of the table.
const OTHERS_ARE_REFUSED: &str = "\
% insert into a private table
0 new('t',['named_table','private']) -> 't'
0 insert('t',[{1,1},{2,2}]) -> 'true'
C3 = 0 pid(3) -> P.3
3 insert('t','x') -> 4 of P
3 insert('t',{2,5}) -> 4 of P
3 tab2list('t') -> 3 of P

% lookup_element in a private table
0 new('t',['named_table','private']) -> 't'
0 insert('t',[{1,1},{2,2}]) -> 'true'
C3 = 0 pid(3) -> P.3
3 lookup_element('t',1,0) -> 3 of P
3 lookup_element('t',1,2) -> 3 of P
3 tab2list('t') -> 3 of P

% update_counter in a protected table
0 new('t',['named_table','protected']) -> 't'
0 insert('t',[{1,1},{2,2}]) -> 'true'
C3 = 0 pid(3) -> P.3
3 update_counter('t',1,'x') -> 5 of P
3 update_counter('t',1,{2,5}) -> 5 of P
3 update_counter('t',1,[]) -> 5 of P
3 update_counter('t',3,1,{3,0}) -> 5 of P
3 update_element('t',3,[]) -> 5 of P
3 tab2list('t') -> [{1,1},{2,2}]

% member of a protected table
0 new('t',['named_table','protected']) -> 't'
0 insert('t',[{1,1},{2,2}]) -> 'true'
C3 = 0 pid(3) -> P.3
3 member('t',1) -> 'true'
3 member('t',1) -> 'true'
3 tab2list('t') -> [{1,1},{2,2}]

% take from a public table
0 new('t',['named_table','public']) -> 't'
0 insert('t',[{1,1},{2,2}]) -> 'true'
C3 = 0 pid(3) -> P.3
3 take('t',1) -> [{1,1}]
3 take('t',1) -> []
3 tab2list('t') -> [{2,2}]

% the owner is judged before the arguments
0 new('t',['named_table','private']) -> 't'
C2 = 0 pid(2) -> P.2
2 give_away('t','x',1) -> 6 of P
2 setopts('t','x') -> 6 of P
2 info('t','x') -> 18 of P
2 update_counter('t',1,'x') -> 4 of P
2 update_counter('t',1,[],'x') -> 4 of P
2 update_element('t',1,[]) -> 4 of P
2 lookup_element('t',1,'x') -> 3 of P

% info about a private table of another
0 new('t',['named_table','private']) -> 't'
0 insert('t',{1,1}) -> 'true'
C3 = 0 pid(3) -> P.3
3 info('t','size') -> 1
3 info('t','owner') -> P
3 info('t','protection') -> 'private'
3 info('t','x') -> 18 of P
3 info('t') -> [{'owner',P},{'heir','none'},{'name','t'},{'size',1},{'named_table','true'},{'type','set'},{'keypos',1},{'protection','private'}]";

#[test]
fn others_are_refused(rt: HostRuntime) -> Result<(), Fail> {
    happen(rt.alloc(), OTHERS_ARE_REFUSED)
}

// Tables that are given away, and who may write them then.
const TABLES_ARE_GIVEN_AWAY: &str = "\
% the rights to a private table pass
0 new('t',['named_table','private']) -> 't'
0 insert('t',{1,1}) -> 'true'
C3 = 0 pid(3) -> P.3
0 give_away('t',C3,{'d',[C3]}) -> 'true', P.3 gets {'ETS-TRANSFER','t',P,{'d',[P.3]}}
0 lookup('t',1) -> 3 of P.3
0 insert('t',{2,2}) -> 4 of P.3
0 delete('t') -> 4 of P.3
0 give_away('t',C3,'again') -> 6 of P.3
0 setopts('t',[]) -> 6 of P.3
0 ends() -> []
3 insert('t',{3,3}) -> 'true'
3 lookup('t',1) -> [{1,1}]
3 info('t','owner') -> P.3

% the rights to a protected table pass
0 new('t',['named_table','protected']) -> 't'
0 insert('t',{1,1}) -> 'true'
C3 = 0 pid(3) -> P.3
0 give_away('t',C3,{'d',[C3]}) -> 'true', P.3 gets {'ETS-TRANSFER','t',P,{'d',[P.3]}}
0 lookup('t',1) -> [{1,1}]
0 insert('t',{2,2}) -> 5 of P.3
0 delete('t') -> 5 of P.3
0 give_away('t',C3,'again') -> 6 of P.3
0 setopts('t',[]) -> 6 of P.3
0 ends() -> []
3 insert('t',{3,3}) -> 'true'
3 lookup('t',1) -> [{1,1}]
3 info('t','owner') -> P.3

% to a process that has ended
C1 = 0 pid(1) -> P.1
0 new('t',['named_table']) -> 't'
1 ends() -> []
0 give_away('t',C1,'d') -> 16 of P
0 info('t','owner') -> P

% by another than the owner
0 new('t',['named_table','public']) -> 't'
C2 = 0 pid(2) -> P.2
2 give_away('t',C2,'d') -> 6 of P
2 give_away('t',1,'d') -> 6 of P
2 give_away('t','x','d') -> 6 of P

% to oneself
0 new('t',['named_table']) -> 't'
0 give_away('t',call 'erlang':'self'(),'d') -> 17 of P

% to another and back
0 new('t',['named_table']) -> 't'
C0 = 0 pid(0) -> P
C2 = 0 pid(2) -> P.2
0 give_away('t',C2,1) -> 'true', P.2 gets {'ETS-TRANSFER','t',P,1}
2 give_away('t',C0,{'back',1}) -> 'true', P gets {'ETS-TRANSFER','t',P.2,{'back',1}}
0 info('t','owner') -> P";

#[test]
fn tables_are_given_away(rt: HostRuntime) -> Result<(), Fail> {
    happen(rt.alloc(), TABLES_ARE_GIVEN_AWAY)
}

// Tables whose owner ends: they go to an heir that lives, or are gone.
const TABLES_GO_TO_HEIRS: &str = "\
% two tables go to two heirs
C1 = 0 pid(1) -> P.1
C2 = 0 pid(2) -> P.2
0 new('a',['named_table',{'heir',C2,1}]) -> 'a'
0 new('b',['named_table',{'heir',C1,2}]) -> 'b'
0 ends() -> [], P.2 gets {'ETS-TRANSFER','a',P,1}, P.1 gets {'ETS-TRANSFER','b',P,2}

% there is no heir
C1 = 0 pid(1) -> P.1
0 new('t',['named_table','public',{'heir','none'}]) -> 't'
0 info('t','heir') -> 'none'
0 ends() -> []
1 lookup('t',1) -> 2

% the heir has ended
C1 = 0 pid(1) -> P.1
0 new('t',['named_table',{'heir',C1,'d'}]) -> 't'
1 ends() -> []
C3 = 0 pid(3) -> P.3
0 ends() -> []
3 lookup('t',1) -> 2

% given to another, and to the heir when that ends
C1 = 0 pid(1) -> P.1
C2 = 0 pid(2) -> P.2
0 new('t',['named_table',{'heir',C2,'h'}]) -> 't'
0 give_away('t',C1,'g') -> 'true', P.1 gets {'ETS-TRANSFER','t',P,'g'}
0 ends() -> []
1 ends() -> [], P.2 gets {'ETS-TRANSFER','t',P.1,'h'}
2 info('t','owner') -> P.2

% the last heir that is named is none
C1 = 0 pid(1) -> P.1
0 new('t',['named_table',{'heir',C1,1},{'heir','none'}]) -> 't'

% setopts names another heir
C1 = 0 pid(1) -> P.1
C2 = 0 pid(2) -> P.2
0 new('t',['named_table',{'heir',C1,'old'}]) -> 't'
0 setopts('t',{'heir',C2,'new'}) -> 'true'
0 ends() -> [], P.2 gets {'ETS-TRANSFER','t',P,'new'}

% setopts takes the heir away
C1 = 0 pid(1) -> P.1
0 new('t',['named_table',{'heir',C1,'old'}]) -> 't'
0 setopts('t',{'heir','none'}) -> 'true'

% the heir has ended, and the key is an atom
C1 = 0 pid(1) -> P.1
0 new('t',['named_table',{'heir',C1,'d'}]) -> 't'
C3 = 0 pid(3) -> P.3
1 ends() -> []
0 ends() -> []
3 lookup('t','a') -> 2";

#[test]
fn tables_go_to_heirs(rt: HostRuntime) -> Result<(), Fail> {
    happen(rt.alloc(), TABLES_GO_TO_HEIRS)
}
