// What a caller sees of a search by states.

/// An observer of a search, which is informed of it while it is done. Its calls return.
pub trait LevelObserver {
    /// All states to which schedules of so many steps lead are known, and are expanded next.
    fn level(&self, steps: u64);

    /// A state is about to be expanded.
    fn visited(&self);
}

/// An observer that does nothing: nobody watches the search.
#[derive(Clone, Copy)]
pub struct Unobserved;

impl LevelObserver for Unobserved {
    fn level(&self, _steps: u64) {}

    fn visited(&self) {}
}
