//! One proof: what it derives, or its first fault.
//! It answers `Prover::prove`, which judges the proof of a statement that `Prover::take` has taken
//! in; and it reads a proof into steps (`Steps::parse`) and runs them on any `Machine`. It stands
//! on `mm_step`. Begin with `prover`, then `verdict` and `judge`. What a proof is stands in
//! `specs/Proof.antt`.
#![tactic(auto)]

mod form;
mod judge;
mod label_set;
mod labels;
pub mod machine;
mod moves;
mod parse;
mod prefix;
mod prover;
mod reader;
mod run;
mod verdict;

pub use form::{Loose, first_loose};
pub use judge::{Judge, ending};
pub use label_set::LabelSet;
pub use labels::{Use, use_of};
pub use machine::Machine;
pub use moves::{Parsed, Steps};
pub use parse::{ParseLists, closing_index, fill_steps, fill_texts, is_incomplete, parts};
pub use prefix::{begins_list, checked_prefix};
pub use prover::{Proved, Prover};
pub use reader::StepsReader;
pub use run::calls_of;
pub use verdict::verify;
