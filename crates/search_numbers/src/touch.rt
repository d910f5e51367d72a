// What a remembered step did at a place.

/// The number at a column before a step, and after it.
#[derive(Clone, Copy)]
pub struct Touch {
    pub(crate) column: usize,
    pub(crate) before: u32,
    pub(crate) after: u32,
}
