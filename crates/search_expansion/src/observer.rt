// What a caller sees of the work.
ghost use Rattle.std.specs.Prelude.{◌≤◌};

/// An observer, which is informed of the work while it is done. Its calls return.
pub trait Observer {
    /// A node is about to be visited, for the ticket of this number; 0 stands for a node or a state that no ticket is for.
    fn turn(&self, ticket: u64);

    /// The states that schedules of so many steps lead to are known, and are expanded next.
    fn level(&self, steps: u64);

    /// A piece was given back for the ticket of this number; tickets are numbered from 1.
    fn given(&self, ticket: u64)
        requires { 1 ≤ ticket };
}

/// An observer that does nothing: nobody watches the work.
#[derive(Clone, Copy)]
pub struct Unwatched;

impl Observer for Unwatched {
    fn turn(&self, _ticket: u64) {}

    fn level(&self, _steps: u64) {}

    fn given(&self, _ticket: u64) {}
}
