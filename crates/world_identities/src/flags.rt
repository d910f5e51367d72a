// What counts as an error.

/// Which of the things that a schedule shows are errors. An end with another reason than `normal`, and a process that
/// makes too many applications without a request, always are.
#[derive(Clone, Copy, Debug, PartialEq, Eq)]
pub struct Flags {
    /// Whether a deadlock is no error.
    pub allow_deadlock: bool,
    /// Whether a call that is refused by a rule about who may call is an error: the rules 3 to 6.
    pub strict_access: bool,
    /// Whether servers have to be idle where the first process has ended: whether messages that they do not take are an
    /// error then.
    pub idle_servers: bool,
}
