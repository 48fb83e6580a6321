//! A file into which lemmas are put, and its judge, whoever wrote it. The judge tells whether the
//! statements are the old ones in their order, but for proofs, and new ones that are lemmas alone;
//! whether each proof is the old one, or one that may stand in its place and newly uses lemmas
//! alone; whether what is newly used may be used; whether the old statements have their comments,
//! and marks and mathboxes say of them what they said; whether no theorem rests on more; and whether
//! each byte outside of proofs and of what is put in is kept. It says yes only where it is so, and
//! only then the file is given. It stands on `mm_lemma_file` and `mm_minimize`. Begin with `reply`,
//! then `judged` and `holds`; `walk`, `comment`, `lemma`, `uses`, `remarked`, `founded` and `edited`
//! are parts of the judge. What such a file is stands in `specs/WithLemmas.antt`, the reply in
//! `specs/Reply.antt`.
#![tactic(auto)]

mod anew;
mod change;
mod comment;
mod edited;
mod founded;
mod holds;
mod judged;
mod lemma;
mod lone;
mod proof_text;
mod remarked;
mod replaced;
mod reply;
mod said;
mod stamps;
mod uses;
mod walk;

pub use judged::{JudgedFile, judged_lemma_file};
pub use reply::{LemmaReply, lemma_file_reply};
