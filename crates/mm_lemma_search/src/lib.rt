//! The search for lemmas that a library lacks: which theorems, each of two steps, would make its
//! proofs smaller. It answers lemmas with where they stand and what they save. None of it is
//! trusted: it is proved that each call ends, that it puts nothing back into a budget, and that
//! indices, arithmetic and memory are safe. It stands on `mm_patterns`. Begin with `search`, then
//! `trial`.
#![tactic(auto)]

mod gathered;
mod lemma;
mod names;
mod remarks;
mod search;
mod text_size;
mod trial;
mod wording;

pub use gathered::{Proved, Search};
pub use lemma::{Lemma, Part, Wanted};
pub use names::{Names, Words};
pub use remarks::{Remark, Remarks, remarks_of};
pub use search::LEMMA_STEPS;
