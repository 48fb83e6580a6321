//! Mends of a faulty proof, found by trial.
//! It answers `mend_reply`: the changes of one byte, or of two neighbouring bytes or words, with
//! which the proof of a theorem is accepted. Each is judged by the prover, and none is put into a
//! file. It stands on `mm_explain`, which reads up to the theorem whatever other proofs are. Begin
//! with `mend`, then `search` and `tried`; what a mend is, and which changes are tried, is defined
//! in `specs/Mend.antt`, the reply in `specs/Reply.antt`.
#![tactic(auto)]

mod change;
mod judge;
mod lines;
mod mend;
mod search;
mod tried;

pub use mend::{Mended, mend_reply};
