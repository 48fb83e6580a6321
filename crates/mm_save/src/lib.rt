//! Files in which proofs are written anew.
//! It answers `saved`, with the proof of one theorem replaced, and `saved_all`, with those of all;
//! the database is checked first, and each other byte is kept. It stands on `mm_render`, which
//! makes the bytes. Begin with `save`, then `save_all`; what a saved file is stands in
//! `specs/Saved.antt` of `mm_render` and in `specs/AllSaved.antt`.
#![tactic(auto)]

mod save;
mod save_all;

pub use save::saved;
pub use save_all::{NewFile, label_of, new_file, saved_all};
