//! What changed between two versions of a database, by label.
//! It answers `diff_reply`: the assertions that are gone, were added, say something else, have a
//! proof that spells another tree, are renamed or were moved, each with its label; the theorems that
//! depend on further axioms or on fewer, with these; and the sums. Both databases are checked first.
//! It stands on `mm_alike` and on `mm_axioms`. Begin with `reply`, then `changes`, and `renamed` and
//! `moved`; of axioms with `depends`, then `twins` and `stays`. What is told is defined in
//! `specs/Diff.antt`, the reply in `specs/Reply.antt`.
#![tactic(auto)]

mod changes;
mod depends;
mod laws;
mod moved;
mod renamed;
mod reply;
mod stays;
mod text;
mod twins;

pub use laws::no_change;
pub use reply::diff_reply;
