// Where a row lies.

/// Where a row begins and ends among numbers, with a number by which it is found and what goes with it.
#[derive(Drop)]
pub struct Span<T> {
    pub(crate) start: usize,
    pub(crate) end: usize,
    pub(crate) digest: u64,
    pub(crate) of: T,
}
