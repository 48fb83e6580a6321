//! The forms of a proof: normal, fully shared, packed and small; and whether two proofs are one.
//! It answers `expand`, `expand_beginning`, `compress`, `compress_small` and `same`. It stands on
//! `mm_proof`. Begin with `packing`: a proof's steps are run on a `Builder`, which gives equal
//! subtrees one number.
//! What a packed proof is stands in `specs/Packing.antt`, what a small one is in
//! `specs/SmallProofs.antt`; the texts of all forms are made in `mm_render`.
#![tactic(auto)]

mod builder;
mod chosen;
mod expansion;
mod packing;
mod sameness;
mod sharing;
mod small;
mod subtree_set;
mod subtrees;
mod words;

pub use expansion::{expand, expand_beginning};
pub use packing::{Packed, compress};
pub use sameness::same;
pub use small::{LabelUse, SmallProof, compress_small};
