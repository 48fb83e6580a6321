//! The proofs of a library with lemmas, as they are written: as trees, in small form, and without a
//! lemma. None of it is trusted: it is proved that each call ends, and that indices, arithmetic and
//! memory are safe. It stands on `mm_patterns`. Begin with `tree`, then `small` and `expanding`.
#![tactic(auto)]

mod expanding;
mod small;
mod tree;

pub use expanding::{Expansion, expanded};
pub use small::{Small, small_of};
pub use tree::{Orders, Tree, tree_of};
