//! Explanations of faults: `mm why`, and `mm try` for a proof that is handed in.
//! It answers `explained`, which tells each fault of a database with its place and its facts, also
//! those of the text (`text_fault`) and of meaning (`conflict`). It stands on `mm_verdict` and
//! `mm_facts`. Begin with `why`; what an explanation is stands in `specs/Why.antt`.
#![tactic(auto)]

mod conflict;
mod earlier_declaration;
mod forward_reference;
mod hypothesis_places;
mod label_suggestion;
mod last;
mod outline;
mod own_hypotheses;
mod place_lines;
pub mod read_to;
mod scope;
mod semantic_error;
mod source;
mod statement_at;
mod text_fault;
mod trial;
mod unused;
mod why;

pub use label_suggestion::nearest_labels;
pub use read_to::{Reached, Unreached};
pub use statement_at::{Stated, read_statement};
pub use trial::{judged_steps, try_reply};
pub use why::{Unaccepted, explained, push_head};
