// The calls of the world: those of processes and of tables.
ghost use Rattle.std.specs.Prelude.{◌≡◌};
ghost use Rattle.core_calls.specs.Calls.{signature, has_signature, call_with};
ghost use Rattle.core_calls.specs.inside.Signatures.{signature_of};

use crate::signature::{Signature, process_call, table_call};

/// A call that the explored world serves: of a process (Erlang reference manual, module `erlang`) or
/// of a table (module `ets`), each with its number of arguments.
#[derive(Clone, Copy, Debug, PartialEq, Eq, PartialOrd, Ord, Hash)]
pub enum CallKind {
    /// `erlang:spawn/3`: starts a process.
    Spawn,
    /// `erlang:spawn_link/3`: starts a process that is linked to the caller.
    SpawnLink,
    /// `erlang:spawn_monitor/3`: starts a process that the caller watches.
    SpawnMonitor,
    /// `erlang:!/2`: sends a message.
    Bang,
    /// `erlang:send/2`: sends a message.
    Send,
    /// `erlang:exit/2`: sends an exit signal.
    Exit,
    /// `erlang:link/1`: links the caller and a process.
    Link,
    /// `erlang:unlink/1`: removes a link.
    Unlink,
    /// `erlang:monitor/2`: watches a process.
    Monitor,
    /// `erlang:demonitor/1`: ends a watch.
    Demonitor,
    /// `erlang:demonitor/2`: ends a watch, with options.
    DemonitorWith,
    /// `erlang:process_flag/2`: sets a flag of the caller.
    ProcessFlag,
    /// `erlang:register/2`: names a process.
    Register,
    /// `erlang:unregister/1`: frees a name.
    Unregister,
    /// `erlang:whereis/1`: the process of a name.
    Whereis,
    /// `erlang:is_process_alive/1`: whether a process lives.
    IsProcessAlive,
    /// `erlang:make_ref/0`: a new reference.
    MakeRef,
    /// `erlang:monitor/3`: watches a process, with an alias of the caller.
    MonitorWith,
    /// `erlang:alias/0`: makes an alias of the caller.
    Alias,
    /// `erlang:alias/1`: makes an alias of the caller, with options.
    AliasWith,
    /// `erlang:unalias/1`: ends an alias of the caller.
    Unalias,
    /// `erlang:start_timer/3`: starts a timer, which sends a message that names it.
    StartTimer,
    /// `erlang:send_after/3`: starts a timer, which sends a message as it is.
    SendAfter,
    /// `erlang:cancel_timer/1`: ends a timer.
    CancelTimer,
    /// `erlang:read_timer/1`: how long a timer has to run.
    ReadTimer,
    /// `erlang:registered/0`: all names of processes.
    Registered,
    /// `erlang:process_info/2`: one item about a process.
    ProcessInfo,
    /// `ets:new/2`: makes a table.
    New,
    /// `ets:lookup/2`: the objects under a key.
    Lookup,
    /// `ets:member/2`: whether a key is there.
    Member,
    /// `ets:lookup_element/3`: one element of the objects under a key.
    LookupElement,
    /// `ets:first/1`: the first key.
    First,
    /// `ets:last/1`: the last key.
    Last,
    /// `ets:next/2`: the key after a key.
    Next,
    /// `ets:prev/2`: the key before a key.
    Prev,
    /// `ets:tab2list/1`: all objects.
    TableToList,
    /// `ets:insert/2`: puts objects in.
    Insert,
    /// `ets:insert_new/2`: puts objects in where their keys are not there.
    InsertNew,
    /// `ets:delete/1`: removes a table.
    DeleteTable,
    /// `ets:delete/2`: removes the objects under a key.
    DeleteKey,
    /// `ets:delete_object/2`: removes an object.
    DeleteObject,
    /// `ets:delete_all_objects/1`: removes all objects.
    DeleteAllObjects,
    /// `ets:take/2`: removes the objects under a key, and gives them.
    Take,
    /// `ets:update_counter/3`: adds to elements.
    UpdateCounter,
    /// `ets:update_counter/4`: adds to elements, of a default object where none is there.
    UpdateCounterWith,
    /// `ets:update_element/3`: replaces elements.
    UpdateElement,
    /// `ets:give_away/3`: gives a table another owner.
    GiveAway,
    /// `ets:setopts/2`: sets the heir.
    SetOptions,
    /// `ets:info/2`: one item about a table.
    Info,
    /// `ets:info/1`: all items about a table.
    InfoAll,
}

/// Each of the calls once.
pub const CALLS: [CallKind; 50] = [
    CallKind::Spawn,
    CallKind::SpawnLink,
    CallKind::SpawnMonitor,
    CallKind::Bang,
    CallKind::Send,
    CallKind::Exit,
    CallKind::Link,
    CallKind::Unlink,
    CallKind::Monitor,
    CallKind::Demonitor,
    CallKind::DemonitorWith,
    CallKind::ProcessFlag,
    CallKind::Register,
    CallKind::Unregister,
    CallKind::Whereis,
    CallKind::IsProcessAlive,
    CallKind::MakeRef,
    CallKind::MonitorWith,
    CallKind::Alias,
    CallKind::AliasWith,
    CallKind::Unalias,
    CallKind::StartTimer,
    CallKind::SendAfter,
    CallKind::CancelTimer,
    CallKind::ReadTimer,
    CallKind::Registered,
    CallKind::ProcessInfo,
    CallKind::New,
    CallKind::Lookup,
    CallKind::Member,
    CallKind::LookupElement,
    CallKind::First,
    CallKind::Last,
    CallKind::Next,
    CallKind::Prev,
    CallKind::TableToList,
    CallKind::Insert,
    CallKind::InsertNew,
    CallKind::DeleteTable,
    CallKind::DeleteKey,
    CallKind::DeleteObject,
    CallKind::DeleteAllObjects,
    CallKind::Take,
    CallKind::UpdateCounter,
    CallKind::UpdateCounterWith,
    CallKind::UpdateElement,
    CallKind::GiveAway,
    CallKind::SetOptions,
    CallKind::Info,
    CallKind::InfoAll,
];

impl CallKind {
    // The names of the call's module and function, and the number of its arguments.
    fn signature(self) -> Signature
        ensures { signature_of result ≡ signature self }
    {
        match self {
            CallKind::Spawn => process_call("spawn", 3),
            CallKind::SpawnLink => process_call("spawn_link", 3),
            CallKind::SpawnMonitor => process_call("spawn_monitor", 3),
            CallKind::Bang => process_call("!", 2),
            CallKind::Send => process_call("send", 2),
            CallKind::Exit => process_call("exit", 2),
            CallKind::Link => process_call("link", 1),
            CallKind::Unlink => process_call("unlink", 1),
            CallKind::Monitor => process_call("monitor", 2),
            CallKind::Demonitor => process_call("demonitor", 1),
            CallKind::DemonitorWith => process_call("demonitor", 2),
            CallKind::ProcessFlag => process_call("process_flag", 2),
            CallKind::Register => process_call("register", 2),
            CallKind::Unregister => process_call("unregister", 1),
            CallKind::Whereis => process_call("whereis", 1),
            CallKind::IsProcessAlive => process_call("is_process_alive", 1),
            CallKind::MakeRef => process_call("make_ref", 0),
            CallKind::MonitorWith => process_call("monitor", 3),
            CallKind::Alias => process_call("alias", 0),
            CallKind::AliasWith => process_call("alias", 1),
            CallKind::Unalias => process_call("unalias", 1),
            CallKind::StartTimer => process_call("start_timer", 3),
            CallKind::SendAfter => process_call("send_after", 3),
            CallKind::CancelTimer => process_call("cancel_timer", 1),
            CallKind::ReadTimer => process_call("read_timer", 1),
            CallKind::Registered => process_call("registered", 0),
            CallKind::ProcessInfo => process_call("process_info", 2),
            CallKind::New => table_call("new", 2),
            CallKind::Lookup => table_call("lookup", 2),
            CallKind::Member => table_call("member", 2),
            CallKind::LookupElement => table_call("lookup_element", 3),
            CallKind::First => table_call("first", 1),
            CallKind::Last => table_call("last", 1),
            CallKind::Next => table_call("next", 2),
            CallKind::Prev => table_call("prev", 2),
            CallKind::TableToList => table_call("tab2list", 1),
            CallKind::Insert => table_call("insert", 2),
            CallKind::InsertNew => table_call("insert_new", 2),
            CallKind::DeleteTable => table_call("delete", 1),
            CallKind::DeleteKey => table_call("delete", 2),
            CallKind::DeleteObject => table_call("delete_object", 2),
            CallKind::DeleteAllObjects => table_call("delete_all_objects", 1),
            CallKind::Take => table_call("take", 2),
            CallKind::UpdateCounter => table_call("update_counter", 3),
            CallKind::UpdateCounterWith => table_call("update_counter", 4),
            CallKind::UpdateElement => table_call("update_element", 3),
            CallKind::GiveAway => table_call("give_away", 3),
            CallKind::SetOptions => table_call("setopts", 2),
            CallKind::Info => table_call("info", 2),
            CallKind::InfoAll => table_call("info", 1),
        }
    }

    /// The name of the call's module, `erlang` or `ets`.
    pub fn module_name(self) -> &'static str
        ensures { result.now ≡ (signature self).module_name }
    {
        self.signature().module_name
    }

    /// The name of the call's function, as `insert`.
    pub fn function_name(self) -> &'static str
        ensures { result.now ≡ (signature self).function_name }
    {
        self.signature().function_name
    }

    // Whether the call has these names and so many arguments.
    fn has_signature(self, module_name: &str, function_name: &str, arity: usize) -> bool
        ensures { result ≡ has_signature module_name.now function_name.now arity (signature self) }
    {
        self.signature().is_of(module_name, function_name, arity)
    }

    /// The call with these names and so many arguments, if there is one.
    #[tactic(auto, unfolding(crate::specs::Calls::call_with))]
    pub fn named(module_name: &str, function_name: &str, arity: usize) -> Option<CallKind>
        ensures { result ≡ call_with module_name.now function_name.now arity }
    {
        CALLS
            .iter()
            .find(|kind| kind.has_signature(module_name, function_name, arity))
            .copied()
    }
}
