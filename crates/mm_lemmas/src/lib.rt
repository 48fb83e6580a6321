//! Lemmas that a library lacks: theorems, each of two steps, that would make its proofs smaller.
//! None of it is trusted: lemmas are told for a checker to judge. It is proved that each call ends,
//! that it puts nothing back into a budget, and that indices, arithmetic and memory are safe. It
//! stands on `mm_lemma_search`. Begin with `lacking`, then `listing`, and `chosen` for lemmas by the
//! numbers of lines; what is told of them is defined in `specs/Told.antt`.
#![tactic(auto)]

mod chosen;
mod lacking;
mod listing;
mod told;

pub use chosen::chosen_lemmas;
pub use lacking::{FoundLemmas, LemmaList, Searched, Selection, Wording, lemma_list, lemma_search};
