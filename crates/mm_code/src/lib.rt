//! The letter code of compressed proofs, and the lines in which proofs are printed and saved.
//!
//! A compressed proof is a list of labels and a row of letters. The letters spell numbers, each that
//! of a step's hypothesis, label or tagged step, and `Z` tags a step (the Metamath book, appendix
//! B). White space may cut the letters anywhere, so they come as tokens. This crate reads, writes
//! and counts them, and lays out both kinds of proof in lines of a bounded width, and compressed
//! ones also in the lines that real libraries have. What is laid out is read back as tokens, which
//! `mm_text` defines.
#![tactic(auto)]

mod code;
mod counting;
mod laws;
mod layout;
mod letters;
mod small_layout;

pub use code::{Code, CodeFault, CodeRule};
pub use counting::{letter_count, letters_for};
pub use laws::{letters_counted, one_spelling};
pub use layout::{lay_out_compressed, lay_out_normal};
pub use letters::{fill_codes, read_codes, write_codes};
pub use small_layout::{MOST_INDENT, lay_out_small};
