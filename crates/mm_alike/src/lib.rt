//! Two versions of a database side by side: which assertions say the same, and which proofs make one
//! tree. It answers `are_alike`, `those_that_differ` and `those_reproved`, of a `Database`: one that
//! was checked, of whose proofs it is known where they stand. It stands on `mm_forms` and on
//! `mm_verdict`. Begin with `differences` and `alike`; of proofs with `reproved`, then `trees`.
//! What says the same is defined in `specs/Alike.antt`.
#![tactic(auto)]

mod alike;
mod database;
mod differences;
mod homes;
mod moves;
mod names;
mod pairs;
mod reproved;
mod trees;
mod widths;
mod words;
mod written;

pub use alike::are_alike;
pub use database::Database;
pub use differences::{Difference, assertion_named, those_that_differ};
pub use homes::{Home, homes_of};
pub use names::is_same_kind;
pub use reproved::{is_theorem, those_reproved};
