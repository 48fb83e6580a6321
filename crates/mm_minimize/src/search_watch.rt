//! What a search came to, and which proofs users were sought among, told beside the reply.

use crate::sizes::Sizes;
use mm_verdict::{Unwatched, Watch};

/// What a search for shorter proofs, for lemmas or for users came to.
#[derive(Clone, Copy)]
pub enum Searched {
    /// So many theorems were left as they are, as their proofs are too long to search.
    Left(usize),
    /// No shorter proof of the theorem was found.
    NoneShorter,
    /// A shorter proof of the theorem was found.
    Shorter {
        /// The size of its own proof.
        own: Sizes,
        /// The size of the shorter one.
        new: Sizes,
    },
    /// The search for lemmas was broken off, as it took too long.
    BrokenOff,
    /// Proofs are at fault, and aren't counted among the users of an assertion.
    Faulty,
    /// So many proofs are incomplete, and aren't counted among the users of an assertion.
    Incomplete(usize),
}

/// What is told how far a search for shorter proofs, or for lemmas, has come, and what such a search,
/// or one for users, came to. It answers nothing.
pub trait SearchWatch: Watch {
    /// The search came to its end.
    fn searched(&mut self, searched: Searched);
}

impl SearchWatch for Unwatched {
    fn searched(&mut self, _searched: Searched) {}
}
