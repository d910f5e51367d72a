// What calls answer, a row a line: the call by its module, its name and the number of its arguments; the arguments of this
// row, as the parts of a tuple; and the value, or a class and a reason. The process that calls has the pid `P.1`.

// Each call once, in the order of `PURE_CALLS`.
pub(crate) const EACH: &str = "\
erlang:+/2 {1,2} = 3
erlang:-/2 {1,2} = -1
erlang:*/2 {3,-4} = -12
erlang:+/1 {5} = 5
erlang:-/1 {5} = -5
erlang:div/2 {7,2} = 3
erlang:rem/2 {7,2} = 1
erlang:abs/1 {-7} = 7
erlang:band/2 {12,10} = 8
erlang:bor/2 {12,10} = 14
erlang:bxor/2 {12,10} = 6
erlang:bnot/1 {5} = -6
erlang:==/2 {1,1} = 'true'
erlang:/=/2 {1,1} = 'false'
erlang:=:=/2 {'a','a'} = 'true'
erlang:=/=/2 {'a','b'} = 'true'
erlang:</2 {1,'a'} = 'true'
erlang:=</2 {2,1} = 'false'
erlang:>/2 {'b','a'} = 'true'
erlang:>=/2 {1,1} = 'true'
erlang:and/2 {'true','false'} = 'false'
erlang:or/2 {'true','false'} = 'true'
erlang:xor/2 {'true','true'} = 'false'
erlang:not/1 {'true'} = 'false'
erlang:is_integer/1 {1} = 'true'
erlang:is_number/1 {'a'} = 'false'
erlang:is_atom/1 {'a'} = 'true'
erlang:is_boolean/1 {'false'} = 'true'
erlang:is_tuple/1 {{}} = 'true'
erlang:is_list/1 {[]} = 'true'
erlang:is_pid/1 {P.1} = 'true'
erlang:is_reference/1 {#P.1.2} = 'true'
erlang:is_float/1 {1} = 'false'
erlang:is_binary/1 {[]} = 'false'
erlang:is_record/3 {{'a',1},'a',2} = 'true'
erlang:element/2 {2,{'a','b'}} = 'b'
erlang:setelement/3 {2,{'a','b'},'c'} = {'a','c'}
erlang:tuple_size/1 {{'a','b'}} = 2
erlang:hd/1 {[1,2]} = 1
erlang:tl/1 {[1,2]} = [2]
erlang:length/1 {[1,2]} = 2
erlang:++/2 {[1,2],[3]} = [1,2,3]
erlang:--/2 {[1,2,3,2],[2]} = [1,3,2]
erlang:tuple_to_list/1 {{1,2}} = [1,2]
erlang:list_to_tuple/1 {[1,2]} = {1,2}
erlang:self/0 {} = P.1
erlang:put/2 {'k',1} = 'undefined'
erlang:get/1 {'k'} = 'undefined'
erlang:get/0 {} = []
erlang:get_keys/0 {} = []
erlang:get_keys/1 {1} = []
erlang:erase/1 {'k'} = 'undefined'
erlang:erase/0 {} = []
erlang:error/1 {'a'} = error 'a'
erlang:error/2 {'a',[1]} = error 'a'
erlang:exit/1 {'a'} = exit 'a'
erlang:throw/1 {'a'} = throw 'a'
erlang:get_module_info/1 {'m'} = error 'undef'
erlang:get_module_info/2 {'m','exports'} = error 'undef'
lists:reverse/1 {[1,2,3]} = [3,2,1]
lists:member/2 {2,[1,2]} = 'true'
lists:append/2 {[1],[2]} = [1,2]
";

// The ends of the range, signs, and what is no integer.
pub(crate) const NUMBERS: &str = "\
erlang:+/2 {9223372036854775807,0} = 9223372036854775807
erlang:+/2 {9223372036854775807,1} = error 'system_limit'
erlang:+/2 {-9223372036854775808,-1} = error 'system_limit'
erlang:+/2 {9223372036854775807,-9223372036854775808} = -1
erlang:+/2 {9223372036854775807,'a'} = error 'badarith'
erlang:+/2 {'a',-9223372036854775808} = error 'badarith'
erlang:-/2 {-9223372036854775808,1} = error 'system_limit'
erlang:-/2 {0,-9223372036854775808} = error 'system_limit'
erlang:-/2 {-1,-9223372036854775808} = 9223372036854775807
erlang:-/2 {1,[]} = error 'badarith'
erlang:*/2 {-9223372036854775808,-1} = error 'system_limit'
erlang:*/2 {-9223372036854775808,1} = -9223372036854775808
erlang:*/2 {4294967296,2147483648} = error 'system_limit'
erlang:*/2 {4294967296,-2147483648} = -9223372036854775808
erlang:*/2 {9223372036854775807,{}} = error 'badarith'
erlang:+/1 {-9223372036854775808} = -9223372036854775808
erlang:+/1 {'a'} = error 'badarith'
erlang:-/1 {-9223372036854775808} = error 'system_limit'
erlang:-/1 {9223372036854775807} = -9223372036854775807
erlang:-/1 {[]} = error 'badarith'
erlang:div/2 {7,-2} = -3
erlang:div/2 {-7,2} = -3
erlang:div/2 {-7,-2} = 3
erlang:div/2 {-9223372036854775808,-1} = error 'system_limit'
erlang:div/2 {-9223372036854775808,1} = -9223372036854775808
erlang:div/2 {1,0} = error 'badarith'
erlang:div/2 {-9223372036854775808,0} = error 'badarith'
erlang:div/2 {'a',0} = error 'badarith'
erlang:div/2 {0,'a'} = error 'badarith'
erlang:rem/2 {-7,2} = -1
erlang:rem/2 {7,-2} = 1
erlang:rem/2 {-7,-2} = -1
erlang:rem/2 {-9223372036854775808,-1} = 0
erlang:rem/2 {-9223372036854775808,9223372036854775807} = -1
erlang:rem/2 {7,0} = error 'badarith'
erlang:rem/2 {'a',2} = error 'badarith'
erlang:abs/1 {-9223372036854775808} = error 'system_limit'
erlang:abs/1 {-9223372036854775807} = 9223372036854775807
erlang:abs/1 {0} = 0
erlang:abs/1 {'a'} = error 'badarg'
erlang:band/2 {-1,9223372036854775807} = 9223372036854775807
erlang:band/2 {-6,3} = 2
erlang:band/2 {'a',1} = error 'badarith'
erlang:bor/2 {-8,3} = -5
erlang:bor/2 {-9223372036854775808,9223372036854775807} = -1
erlang:bor/2 {1,[]} = error 'badarith'
erlang:bxor/2 {-1,5} = -6
erlang:bxor/2 {-9223372036854775808,9223372036854775807} = -1
erlang:bxor/2 {'a',1} = error 'badarith'
erlang:bnot/1 {-9223372036854775808} = 9223372036854775807
erlang:bnot/1 {'a'} = error 'badarith'
";

// The order of terms, and booleans.
pub(crate) const COMPARISONS: &str = "\
erlang:==/2 {[1|2],[1|2]} = 'true'
erlang:==/2 {1,'a'} = 'false'
erlang:/=/2 {'a',1} = 'true'
erlang:=:=/2 {{1},{2}} = 'false'
erlang:=/=/2 {[],[]} = 'false'
erlang:</2 {1,1} = 'false'
erlang:</2 {{2},{1,1}} = 'true'
erlang:=</2 {1,1} = 'true'
erlang:=</2 {{},[]} = 'true'
erlang:>/2 {[],{}} = 'true'
erlang:>/2 {1,1} = 'false'
erlang:>=/2 {'a',1} = 'true'
erlang:>=/2 {1,2} = 'false'
erlang:</2 {#P.1.2,P.1} = 'true'
erlang:and/2 {'true','true'} = 'true'
erlang:and/2 {'true',1} = error 'badarg'
erlang:and/2 {'false','maybe'} = error 'badarg'
erlang:and/2 {1,'false'} = error 'badarg'
erlang:or/2 {'false','false'} = 'false'
erlang:or/2 {'true','maybe'} = error 'badarg'
erlang:or/2 {'maybe','true'} = error 'badarg'
erlang:xor/2 {'true','false'} = 'true'
erlang:xor/2 {'false','false'} = 'false'
erlang:xor/2 {'a','true'} = error 'badarg'
erlang:not/1 {'false'} = 'true'
erlang:not/1 {'a'} = error 'badarg'
erlang:not/1 {0} = error 'badarg'
";

// Kinds, and records.
pub(crate) const KINDS: &str = "\
erlang:is_integer/1 {'a'} = 'false'
erlang:is_number/1 {1} = 'true'
erlang:is_atom/1 {'true'} = 'true'
erlang:is_atom/1 {[]} = 'false'
erlang:is_boolean/1 {'true'} = 'true'
erlang:is_boolean/1 {'a'} = 'false'
erlang:is_tuple/1 {[]} = 'false'
erlang:is_list/1 {[1]} = 'true'
erlang:is_list/1 {[1|2]} = 'true'
erlang:is_list/1 {{}} = 'false'
erlang:is_pid/1 {#P.1.2} = 'false'
erlang:is_reference/1 {P.1} = 'false'
erlang:is_float/1 {{}} = 'false'
erlang:is_binary/1 {'a'} = 'false'
erlang:is_record/3 {{'a',1},'a',3} = 'false'
erlang:is_record/3 {{'a',1},'b',2} = 'false'
erlang:is_record/3 {{1,'a'},'a',2} = 'false'
erlang:is_record/3 {{'a'},'a',1} = 'true'
erlang:is_record/3 {{},'a',0} = 'false'
erlang:is_record/3 {'a','a',1} = 'false'
erlang:is_record/3 {{'a'},'a',-1} = 'false'
erlang:is_record/3 {{'a'},'a',-9223372036854775808} = 'false'
erlang:is_record/3 {{1},1,1} = error 'badarg'
erlang:is_record/3 {{'a'},'a','b'} = error 'badarg'
erlang:is_record/3 {1,1,1} = error 'badarg'
";

// The ends of tuples, and what is no tuple.
pub(crate) const TUPLES: &str = "\
erlang:element/2 {0,{1}} = error 'badarg'
erlang:element/2 {1,{1}} = 1
erlang:element/2 {2,{1}} = error 'badarg'
erlang:element/2 {3,{1,2,3}} = 3
erlang:element/2 {-1,{1}} = error 'badarg'
erlang:element/2 {9223372036854775807,{1}} = error 'badarg'
erlang:element/2 {-9223372036854775808,{1}} = error 'badarg'
erlang:element/2 {'a',{1}} = error 'badarg'
erlang:element/2 {1,[1]} = error 'badarg'
erlang:element/2 {1,{}} = error 'badarg'
erlang:setelement/3 {0,{1},2} = error 'badarg'
erlang:setelement/3 {1,{1},2} = {2}
erlang:setelement/3 {2,{1},2} = error 'badarg'
erlang:setelement/3 {1,{1,2,3},9} = {9,2,3}
erlang:setelement/3 {3,{1,2,3},9} = {1,2,9}
erlang:setelement/3 {'a',{1},2} = error 'badarg'
erlang:setelement/3 {1,'a',2} = error 'badarg'
erlang:setelement/3 {-9223372036854775808,{1},2} = error 'badarg'
erlang:tuple_size/1 {{}} = 0
erlang:tuple_size/1 {[]} = error 'badarg'
erlang:tuple_to_list/1 {{}} = []
erlang:tuple_to_list/1 {[]} = error 'badarg'
erlang:list_to_tuple/1 {[]} = {}
erlang:list_to_tuple/1 {[1|2]} = error 'badarg'
erlang:list_to_tuple/1 {'a'} = error 'badarg'
";

// Empty and improper lists, and what is no list.
pub(crate) const LISTS: &str = "\
erlang:hd/1 {[]} = error 'badarg'
erlang:hd/1 {'a'} = error 'badarg'
erlang:hd/1 {[1|2]} = 1
erlang:tl/1 {[]} = error 'badarg'
erlang:tl/1 {{1}} = error 'badarg'
erlang:tl/1 {[1|2]} = 2
erlang:length/1 {[]} = 0
erlang:length/1 {[1|2]} = error 'badarg'
erlang:length/1 {'a'} = error 'badarg'
erlang:++/2 {[],'a'} = 'a'
erlang:++/2 {[1],'a'} = [1|'a']
erlang:++/2 {[1,2],[3|4]} = [1,2,3|4]
erlang:++/2 {[1|2],[]} = error 'badarg'
erlang:++/2 {'a',[]} = error 'badarg'
lists:append/2 {[],[]} = []
lists:append/2 {[1],2} = [1|2]
lists:append/2 {[1|2],[]} = error 'badarg'
erlang:--/2 {[1,2,3,2],[2,2]} = [1,3]
erlang:--/2 {[1,2,1,3,1],[1,1]} = [2,3,1]
erlang:--/2 {[1],[2]} = [1]
erlang:--/2 {[{1},2],[{1}]} = [2]
erlang:--/2 {[],[]} = []
erlang:--/2 {[1|2],[]} = error 'badarg'
erlang:--/2 {[],[1|2]} = error 'badarg'
erlang:--/2 {'a',[]} = error 'badarg'
erlang:--/2 {[1],'a'} = error 'badarg'
lists:reverse/1 {[]} = []
lists:reverse/1 {'a'} = error 'function_clause'
lists:reverse/1 {{1}} = error 'function_clause'
lists:reverse/1 {[1|2]} = error 'function_clause'
lists:reverse/1 {[1,2|3]} = error 'badarg'
lists:reverse/1 {[1,2,3|4]} = error 'badarg'
lists:member/2 {1,[]} = 'false'
lists:member/2 {3,[1,2]} = 'false'
lists:member/2 {1,[1|2]} = 'true'
lists:member/2 {2,[1,2|3]} = 'true'
lists:member/2 {3,[1,2|3]} = error 'badarg'
lists:member/2 {1,'a'} = error 'badarg'
lists:member/2 {[],[[]]} = 'true'
";

// Exceptions, and numbers of arguments that no call has.
pub(crate) const RAISING: &str = "\
erlang:error/1 {{'a',1}} = error {'a',1}
erlang:error/2 {'a',[]} = error 'a'
erlang:error/2 {{1},'b'} = error {1}
erlang:exit/1 {[1]} = exit [1]
erlang:throw/1 {P.1} = throw P.1
erlang:+/2 {1} = error 'undef'
erlang:+/2 {1,2,3} = error 'undef'
erlang:self/0 {1} = error 'undef'
erlang:-/1 {} = error 'undef'
erlang:is_record/3 {{'a'}} = error 'undef'
erlang:setelement/3 {1,{1},2,3} = error 'undef'
lists:reverse/1 {[],[]} = error 'undef'
";
