//! Progress callbacks of long replies.

/// How far the way over the theorems of a database has come.
#[derive(Clone, Copy, PartialEq, Eq, Debug)]
pub struct SoFar {
    /// How many theorems were tried.
    pub theorems: usize,
    /// How many there are.
    pub of: usize,
    /// How many bytes were saved.
    pub bytes: usize,
}

/// What is told how far a long reply has come. It answers nothing.
pub trait Watch {
    /// One theorem more was tried.
    fn told(&mut self, so_far: SoFar);
}

/// What is told, and does nothing.
#[derive(Clone, Copy, Debug)]
pub struct Unwatched;

impl Watch for Unwatched {
    fn told(&mut self, _so_far: SoFar) {}
}
