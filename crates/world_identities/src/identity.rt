// What a schedule shows.
ghost use Rattle.std.specs.Prelude.{◌≡◌, IfOk};
ghost use Rattle.world_model.specs.Shown.{has_first, is_error, is_refusal, is_of_access};
ghost use Rattle.world_identities.specs.Identities.{identity_in, flags_in};

use crate::flags::Flags;
use core_tree::CallKind;
use std::alloc::{AllocError, Global};
use std::sync::Arc;
use term_core::{Pid, Term, Terms};
use world_model::rule::Rule;

/// Something that a schedule shows. Two schedules show one and the same where the identities are equal.
#[derive(Drop)]
pub enum Identity {
    /// The process ended with another reason than `normal` (Erlang reference manual, "Processes": "Process
    /// Termination").
    End {
        pid: Pid,
        reason: Term,
    },
    /// No step is enabled, and these processes live, in the order of pids.
    Deadlock(Vec<Pid>),
    /// The process made too many applications without a request.
    Runaway(Pid),
    /// The call of a table, with the number of its request, was refused by this rule; the owner of the table then,
    /// except where the table, the name or the options are at fault (the Erlang manual, module `ets`).
    Refusal {
        pid: Pid,
        request: u64,
        kind: CallKind,
        arguments: Arc<Terms>,
        rule: Rule,
        owner: Option<Pid>,
    },
    /// No step is enabled, the first process has ended, and these of those that live have messages in their mailboxes, in
    /// the order of pids.
    Unread(Vec<Pid>),
}

/// Whether the first process is among these. It takes no memory.
pub fn has_first(pids: &[Pid]) -> bool
    ensures { result ≡ has_first pids.now }
{
    for pid in pids {
        if pid.numbers().is_empty() {
            return true;
        }
    }
    false
}

// A copy of pids, or `AllocError` if there is no memory for them.
fn copy_pids(alloc: Global, pids: &[Pid]) -> Result<Vec<Pid>, AllocError>
    ensures { IfOk result (λ copied. copied.items ≡ pids.now) }
{
    let mut copied = Vec::with_capacity(alloc, pids.len())?;
    for pid in pids {
        copied.push(pid.copy()?)?;
    }
    Ok(copied)
}

// A copy of an owner, if there is one, or `AllocError` where its copies can no longer be counted.
fn copy_owner(owner: &Option<Pid>) -> Result<Option<Pid>, AllocError>
    ensures { IfOk result (λ copied. copied ≡ owner.now) }
{
    match owner {
        Some(pid) => Ok(Some(pid.copy()?)),
        None => Ok(None),
    }
}

// Whether a rule is about who may call: the rules 3 to 6.
fn is_of_access(rule: Rule) -> bool
    ensures { result ≡ is_of_access rule }
{
    match rule {
        Rule::PrivateRead | Rule::PrivateWrite | Rule::ProtectedWrite | Rule::NotOwner => true,
        _ => false,
    }
}

impl Identity {
    /// The same identity. It shares terms and pids, and takes memory for a list of processes alone: `AllocError` if
    /// there is no memory for it, or where the copies can no longer be counted.
    pub fn copy(&self, alloc: Global) -> Result<Identity, AllocError>
        ensures { IfOk result (λ copied. identity_in copied ≡ identity_in self.now) }
    {
        match self {
            Identity::End { pid, reason } => Ok(Identity::End {
                pid: pid.copy()?,
                reason: reason.copy()?,
            }),
            Identity::Deadlock(pids) => Ok(Identity::Deadlock(copy_pids(alloc, pids)?)),
            Identity::Runaway(pid) => Ok(Identity::Runaway(pid.copy()?)),
            Identity::Refusal {
                pid,
                request,
                kind,
                arguments,
                rule,
                owner,
            } => Ok(Identity::Refusal {
                pid: pid.copy()?,
                request: *request,
                kind: *kind,
                arguments: Arc::try_clone(arguments)?,
                rule: *rule,
                owner: copy_owner(owner)?,
            }),
            Identity::Unread(pids) => Ok(Identity::Unread(copy_pids(alloc, pids)?)),
        }
    }

    /// Whether it is an error under the flags: an end, a deadlock unless it is allowed, a process that makes too many
    /// applications without a request, where access is strict, a call that is refused by a rule about who may call, and
    /// where servers have to be idle, what they leave unread. It takes no memory.
    pub fn is_error(&self, flags: Flags) -> bool
        ensures { result ≡ is_error (flags_in flags) (identity_in self.now) }
    {
        match self {
            Identity::End { pid: _, reason: _ } => true,
            Identity::Deadlock(_) => !flags.allow_deadlock,
            Identity::Runaway(_) => true,
            Identity::Refusal { rule, .. } => flags.strict_access && is_of_access(*rule),
            Identity::Unread(_) => flags.idle_servers,
        }
    }

    /// Whether it is a call that was refused. It takes no memory.
    pub fn is_refusal(&self) -> bool
        ensures { result ≡ is_refusal (identity_in self.now) }
    {
        match self {
            Identity::Refusal { .. } => true,
            _ => false,
        }
    }
}
