// What a caller sees of a walk.

/// An observer, which is informed of a walk over the nodes of a tree while it is made. Its call returns.
pub trait LineObserver {
    /// The line of one more node was checked or written.
    fn visited(&self);
}

/// An observer that does nothing: nobody watches the walk.
#[derive(Clone, Copy)]
pub struct Unobserved;

impl LineObserver for Unobserved {
    fn visited(&self) {}
}
