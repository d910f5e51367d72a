// The calls that a process answers by itself.
ghost use Rattle.std.specs.Prelude.{◌≡◌};
ghost use Rattle.core_calls.specs.Calls.{has_signature};
ghost use Rattle.core_calls.specs.PureCalls.{is_of_dictionary, pure_signature, pure_call_with};
ghost use Rattle.core_calls.specs.inside.Signatures.{signature_of};

use crate::signature::{Signature, list_call, process_call};

/// A call that takes part in no exchange with the world: its value, or what it raises, depends on its arguments alone
/// (Erlang reference manual, modules `erlang` and `lists`), except for `erlang:self/0`, which gives the pid of the
/// process, and for the calls of the process dictionary, which give what earlier ones of the process have put there.
#[derive(Clone, Copy, Debug, PartialEq, Eq, PartialOrd, Ord, Hash)]
pub enum PureCall {
    /// `erlang:+/2`: the sum of two integers.
    Add,
    /// `erlang:-/2`: the difference of two integers.
    Subtract,
    /// `erlang:*/2`: the product of two integers.
    Multiply,
    /// `erlang:+/1`: the integer itself.
    Keep,
    /// `erlang:-/1`: the negative of an integer.
    Negate,
    /// `erlang:div/2`: the quotient of two integers, towards zero.
    Divide,
    /// `erlang:rem/2`: the remainder of that division.
    Remainder,
    /// `erlang:abs/1`: the absolute value of an integer.
    Absolute,
    /// `erlang:band/2`: the bits that two integers share.
    BitAnd,
    /// `erlang:bor/2`: the bits that one of two integers has.
    BitOr,
    /// `erlang:bxor/2`: the bits that exactly one of two integers has.
    BitXor,
    /// `erlang:bnot/1`: the bits that an integer has not.
    BitNot,
    /// `erlang:==/2`: whether two terms are equal.
    Equal,
    /// `erlang:/=/2`: whether two terms differ.
    NotEqual,
    /// `erlang:=:=/2`: whether two terms are the same.
    Same,
    /// `erlang:=/=/2`: whether two terms are not the same.
    NotSame,
    /// `erlang:</2`: whether a term comes before another.
    Less,
    /// `erlang:=</2`: whether a term comes before another or is equal to it.
    AtMost,
    /// `erlang:>/2`: whether a term comes after another.
    Greater,
    /// `erlang:>=/2`: whether a term comes after another or is equal to it.
    AtLeast,
    /// `erlang:and/2`: whether both of two booleans are true.
    And,
    /// `erlang:or/2`: whether one of two booleans is true.
    Or,
    /// `erlang:xor/2`: whether exactly one of two booleans is true.
    Xor,
    /// `erlang:not/1`: whether a boolean is false.
    Not,
    /// `erlang:is_integer/1`: whether a term is an integer.
    IsInteger,
    /// `erlang:is_number/1`: whether a term is a number.
    IsNumber,
    /// `erlang:is_atom/1`: whether a term is an atom.
    IsAtom,
    /// `erlang:is_boolean/1`: whether a term is a boolean.
    IsBoolean,
    /// `erlang:is_tuple/1`: whether a term is a tuple.
    IsTuple,
    /// `erlang:is_list/1`: whether a term is nil or a list cell.
    IsList,
    /// `erlang:is_pid/1`: whether a term is a pid.
    IsPid,
    /// `erlang:is_reference/1`: whether a term is a reference.
    IsReference,
    /// `erlang:is_float/1`: whether a term is a float, which none is.
    IsFloat,
    /// `erlang:is_binary/1`: whether a term is a binary, which none is.
    IsBinary,
    /// `erlang:is_record/3`: whether a term is a tuple of a size that begins with an atom.
    IsRecord,
    /// `erlang:element/2`: one part of a tuple.
    Element,
    /// `erlang:setelement/3`: a tuple with one part replaced.
    SetElement,
    /// `erlang:tuple_size/1`: the number of a tuple's parts.
    TupleSize,
    /// `erlang:hd/1`: the head of a list cell.
    Head,
    /// `erlang:tl/1`: the tail of a list cell.
    Tail,
    /// `erlang:length/1`: the number of a list's items.
    Length,
    /// `erlang:++/2`: a list with a term after it.
    Append,
    /// `erlang:--/2`: a list without the items of another.
    Without,
    /// `erlang:tuple_to_list/1`: the parts of a tuple as a list.
    TupleToList,
    /// `erlang:list_to_tuple/1`: the items of a list as a tuple.
    ListToTuple,
    /// `erlang:self/0`: the pid of the process.
    OwnPid,
    /// `erlang:put/2`: puts a value under a key of the process dictionary, and gives the one that was there.
    Put,
    /// `erlang:get/1`: the value under a key of the process dictionary.
    Get,
    /// `erlang:get/0`: the whole process dictionary.
    GetAll,
    /// `erlang:get_keys/0`: the keys of the process dictionary.
    GetKeys,
    /// `erlang:get_keys/1`: the keys of the process dictionary with a value.
    GetKeysOf,
    /// `erlang:erase/1`: removes a key from the process dictionary, and gives its value.
    Erase,
    /// `erlang:erase/0`: empties the process dictionary, and gives all of it.
    EraseAll,
    /// `erlang:error/1`: raises an error.
    Error,
    /// `erlang:error/2`: raises an error; its second argument is not looked at.
    ErrorWith,
    /// `erlang:exit/1`: raises an exit.
    Exit,
    /// `erlang:throw/1`: throws a term.
    Throw,
    /// `erlang:get_module_info/1`: information on a module, which is left out.
    ModuleInfo,
    /// `erlang:get_module_info/2`: one item of information on a module, which is left out.
    ModuleInfoItem,
    /// `lists:reverse/1`: a list from its end.
    Reverse,
    /// `lists:member/2`: whether a list has an item.
    Member,
    /// `lists:append/2`: a list with a term after it.
    AppendLists,
}

/// Each of the calls once.
pub const PURE_CALLS: [PureCall; 62] = [
    PureCall::Add,
    PureCall::Subtract,
    PureCall::Multiply,
    PureCall::Keep,
    PureCall::Negate,
    PureCall::Divide,
    PureCall::Remainder,
    PureCall::Absolute,
    PureCall::BitAnd,
    PureCall::BitOr,
    PureCall::BitXor,
    PureCall::BitNot,
    PureCall::Equal,
    PureCall::NotEqual,
    PureCall::Same,
    PureCall::NotSame,
    PureCall::Less,
    PureCall::AtMost,
    PureCall::Greater,
    PureCall::AtLeast,
    PureCall::And,
    PureCall::Or,
    PureCall::Xor,
    PureCall::Not,
    PureCall::IsInteger,
    PureCall::IsNumber,
    PureCall::IsAtom,
    PureCall::IsBoolean,
    PureCall::IsTuple,
    PureCall::IsList,
    PureCall::IsPid,
    PureCall::IsReference,
    PureCall::IsFloat,
    PureCall::IsBinary,
    PureCall::IsRecord,
    PureCall::Element,
    PureCall::SetElement,
    PureCall::TupleSize,
    PureCall::Head,
    PureCall::Tail,
    PureCall::Length,
    PureCall::Append,
    PureCall::Without,
    PureCall::TupleToList,
    PureCall::ListToTuple,
    PureCall::OwnPid,
    PureCall::Put,
    PureCall::Get,
    PureCall::GetAll,
    PureCall::GetKeys,
    PureCall::GetKeysOf,
    PureCall::Erase,
    PureCall::EraseAll,
    PureCall::Error,
    PureCall::ErrorWith,
    PureCall::Exit,
    PureCall::Throw,
    PureCall::ModuleInfo,
    PureCall::ModuleInfoItem,
    PureCall::Reverse,
    PureCall::Member,
    PureCall::AppendLists,
];

impl PureCall {
    // The names of the call's module and function, and the number of its arguments.
    fn signature(self) -> Signature
        ensures { signature_of result ≡ pure_signature self }
    {
        match self {
            PureCall::Add => process_call("+", 2),
            PureCall::Subtract => process_call("-", 2),
            PureCall::Multiply => process_call("*", 2),
            PureCall::Keep => process_call("+", 1),
            PureCall::Negate => process_call("-", 1),
            PureCall::Divide => process_call("div", 2),
            PureCall::Remainder => process_call("rem", 2),
            PureCall::Absolute => process_call("abs", 1),
            PureCall::BitAnd => process_call("band", 2),
            PureCall::BitOr => process_call("bor", 2),
            PureCall::BitXor => process_call("bxor", 2),
            PureCall::BitNot => process_call("bnot", 1),
            PureCall::Equal => process_call("==", 2),
            PureCall::NotEqual => process_call("/=", 2),
            PureCall::Same => process_call("=:=", 2),
            PureCall::NotSame => process_call("=/=", 2),
            PureCall::Less => process_call("<", 2),
            PureCall::AtMost => process_call("=<", 2),
            PureCall::Greater => process_call(">", 2),
            PureCall::AtLeast => process_call(">=", 2),
            PureCall::And => process_call("and", 2),
            PureCall::Or => process_call("or", 2),
            PureCall::Xor => process_call("xor", 2),
            PureCall::Not => process_call("not", 1),
            PureCall::IsInteger => process_call("is_integer", 1),
            PureCall::IsNumber => process_call("is_number", 1),
            PureCall::IsAtom => process_call("is_atom", 1),
            PureCall::IsBoolean => process_call("is_boolean", 1),
            PureCall::IsTuple => process_call("is_tuple", 1),
            PureCall::IsList => process_call("is_list", 1),
            PureCall::IsPid => process_call("is_pid", 1),
            PureCall::IsReference => process_call("is_reference", 1),
            PureCall::IsFloat => process_call("is_float", 1),
            PureCall::IsBinary => process_call("is_binary", 1),
            PureCall::IsRecord => process_call("is_record", 3),
            PureCall::Element => process_call("element", 2),
            PureCall::SetElement => process_call("setelement", 3),
            PureCall::TupleSize => process_call("tuple_size", 1),
            PureCall::Head => process_call("hd", 1),
            PureCall::Tail => process_call("tl", 1),
            PureCall::Length => process_call("length", 1),
            PureCall::Append => process_call("++", 2),
            PureCall::Without => process_call("--", 2),
            PureCall::TupleToList => process_call("tuple_to_list", 1),
            PureCall::ListToTuple => process_call("list_to_tuple", 1),
            PureCall::OwnPid => process_call("self", 0),
            PureCall::Put => process_call("put", 2),
            PureCall::Get => process_call("get", 1),
            PureCall::GetAll => process_call("get", 0),
            PureCall::GetKeys => process_call("get_keys", 0),
            PureCall::GetKeysOf => process_call("get_keys", 1),
            PureCall::Erase => process_call("erase", 1),
            PureCall::EraseAll => process_call("erase", 0),
            PureCall::Error => process_call("error", 1),
            PureCall::ErrorWith => process_call("error", 2),
            PureCall::Exit => process_call("exit", 1),
            PureCall::Throw => process_call("throw", 1),
            PureCall::ModuleInfo => process_call("get_module_info", 1),
            PureCall::ModuleInfoItem => process_call("get_module_info", 2),
            PureCall::Reverse => list_call("reverse", 1),
            PureCall::Member => list_call("member", 2),
            PureCall::AppendLists => list_call("append", 2),
        }
    }

    // Whether the call has these names and so many arguments.
    fn has_signature(self, module_name: &str, function_name: &str, arity: usize) -> bool
        ensures { result ≡ has_signature module_name.now function_name.now arity (pure_signature self) }
    {
        self.signature().is_of(module_name, function_name, arity)
    }

    /// The call with these names and so many arguments, if there is one.
    #[tactic(auto, unfolding(crate::specs::PureCalls::pure_call_with))]
    pub fn named(module_name: &str, function_name: &str, arity: usize) -> Option<PureCall>
        ensures { result ≡ pure_call_with module_name.now function_name.now arity }
    {
        PURE_CALLS
            .iter()
            .find(|kind| kind.has_signature(module_name, function_name, arity))
            .copied()
    }

    /// Whether the call is one of the process dictionary: it reads or changes what the process keeps there, and no guard
    /// may make it.
    pub fn is_of_dictionary(self) -> bool
        ensures { result ≡ is_of_dictionary self }
    {
        matches!(
            self,
            PureCall::Put
                | PureCall::Get
                | PureCall::GetAll
                | PureCall::GetKeys
                | PureCall::GetKeysOf
                | PureCall::Erase
                | PureCall::EraseAll
        )
    }
}
