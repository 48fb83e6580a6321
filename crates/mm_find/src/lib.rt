//! Assertions found by patterns, and all of them listed, whatever their proofs.
//! It answers `find`, which lists the assertions of a database whose expressions have the patterns
//! of a `Query`; a query of no pattern asks for all. No proof is judged. It stands on `mm_verdict`
//! alone. Begin with `found`, then `shape`, and `variant`, `types` and `typing` for patterns up to
//! the names of variables; what has a shape is defined in `specs/Shape.antt`, what has a variant in
//! `specs/Variant.antt`, what is listed in `specs/Found.antt`, and the reply in `specs/Reply.antt`.
#![tactic(auto)]

mod assertion;
mod found;
mod line;
mod query;
mod reply;
mod shape;
mod types;
mod typing;
mod variant;

pub use found::find;
pub use line::{push_premises, push_words};
pub use query::{Matching, Query, shape_of};
pub use reply::{Sought, find_reply};
