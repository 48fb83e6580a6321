//! A pattern of two steps, by the assertions that they are by.

/// An assertion, the index of one of its `$e`, and an assertion that proves it.
#[derive(Clone, Copy, PartialEq, Eq, Debug)]
pub struct Digram {
    pub upper: u32,
    pub place: u32,
    pub lower: u32,
}
