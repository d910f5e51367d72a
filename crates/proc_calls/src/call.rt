// The calls of processes, each with its arguments.
use crate::argument::{Destination, MonitorType};
use crate::guarding::Naming;
use crate::options::{Flushing, Trapping};
use crate::spawning::{Origin, SpawnWay};
use term_core::{Atom, Pid, RefId, Term};
use world_model::alias::AliasEnd;
use world_model::process::ProcessItem;

/// A call of processes (the Erlang manual, module `erlang`). An argument that is not of its kind is `None`.
#[derive(Drop)]
pub enum ProcessCall {
    /// `spawn/3`, `spawn_link/3` and `spawn_monitor/3`: starts a process in this function.
    Spawn(SpawnWay, Option<Origin>),
    /// `!/2` and `send/2`: sends the message.
    Send(Destination, Term),
    /// `exit/2`: sends an exit signal with the reason.
    SendExit(Option<Pid>, Term),
    /// `link/1`: links the caller and the process.
    Link(Option<Pid>),
    /// `unlink/1`: removes the link of the caller and the process.
    Unlink(Option<Pid>),
    /// `monitor/2` and `monitor/3`: watches the process, with an alias where one is asked for.
    Monitor(MonitorType, Option<Pid>, Option<Option<AliasEnd>>),
    /// `monitor/2` and `monitor/3`: watches the holder of the name, with an alias where one is asked for.
    MonitorName(MonitorType, Atom, Option<Option<AliasEnd>>),
    /// `demonitor/1` and `demonitor/2`: ends the watch of this reference.
    Demonitor(Option<RefId>, Option<Flushing>),
    /// `process_flag/2`: whether the caller traps exits from now on.
    Flag(Option<Trapping>),
    /// `register/2`: gives the process the name.
    Register(Option<Atom>, Option<Pid>),
    /// `unregister/1`: frees the name.
    Unregister(Option<Atom>),
    /// `whereis/1`: the process of the name.
    WhereIs(Option<Atom>),
    /// `registered/0`: all names of processes.
    Registered,
    /// `is_process_alive/1`: whether the process lives.
    IsAlive(Option<Pid>),
    /// `process_info/2`: one item about the process.
    ProcessInfo(Option<Pid>, Option<ProcessItem>),
    /// `make_ref/0`: a new reference.
    MakeRef,
    /// `alias/0` and `alias/1`: a new alias of the caller.
    MakeAlias(Option<AliasEnd>),
    /// `unalias/1`: ends the alias of the caller.
    Unalias(Option<RefId>),
    /// `start_timer/3` and `send_after/3`: starts a timer of so many milliseconds, which sends the message.
    StartTimer(Naming, Option<i64>, Option<Pid>, Term),
    /// `cancel_timer/1`: ends the timer.
    CancelTimer(Option<RefId>),
    /// `read_timer/1`: how long the timer has to run.
    ReadTimer(Option<RefId>),
}
