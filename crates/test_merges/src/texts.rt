// What reports are read with.
use std::alloc::{AllocError, Global};
use term_core::{Term, Terms};
use tree_excuses::Excuses;
use world_identities::Flags;

// A deadlock is an error, and a call that is refused is not.
pub(crate) const LENIENT: Flags = Flags {
    allow_deadlock: false,
    strict_access: false,
    idle_servers: false,
};

// A call is an error that is refused by a rule about who may call.
pub(crate) const STRICT: Flags = Flags {
    allow_deadlock: false,
    strict_access: true,
    idle_servers: false,
};

// A deadlock is no error.
pub(crate) const ALLOWED: Flags = Flags {
    allow_deadlock: true,
    strict_access: false,
    idle_servers: false,
};

// What servers do not take is an error, where the first process has ended.
pub(crate) const IDLE: Flags = Flags {
    allow_deadlock: false,
    strict_access: false,
    idle_servers: true,
};

// The flags of this name.
pub(crate) fn flags_named(name: &str) -> Option<Flags> {
    match name {
        "lenient" => Some(LENIENT),
        "strict" => Some(STRICT),
        "allowed" => Some(ALLOWED),
        "idle" => Some(IDLE),
        _ => None,
    }
}

// An end with `{'boom',1}` is excused, and a deadlock in which the first process does not wait.
pub(crate) fn excusing(alloc: Global) -> Result<Excuses, AllocError> {
    let parts = vec![in alloc; Term::atom(alloc, "boom")?, Term::Int(1)]?;
    let boom = Term::tuple(alloc, Terms::from_vec(parts))?;
    Ok(Excuses {
        main_deadlock: true,
        normal: vec![in alloc; boom]?,
    })
}
