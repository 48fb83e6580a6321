//! A file with the lemmas put in that it lacks, and with its proofs written by them. It answers the
//! places at which the file changes, and its new bytes. None of it is trusted: a file is for a
//! checker to judge. It is proved that each call ends, and that indices, arithmetic and memory are
//! safe. It stands on `mm_lemmas` and `mm_lemma_proofs`. Begin with `file`, then `drafts` and
//! `lemma_text`.
#![tactic(auto)]

mod drafts;
mod edits;
mod file;
mod labels;
mod lemma_text;
mod lines;
mod page;
mod places;
mod pruning;
mod sites;

pub use edits::Edit;
pub use file::{LemmaFile, LemmaWish, lemma_file};
