//! Patterns of steps: an assertion over another, as the proofs of a library have them, and the
//! theorem that each says. It answers which of them occur, how often, and what proofs they make
//! smaller. None of it is trusted: it is proved that each call ends, that it puts nothing back into a
//! budget, and that indices, arithmetic and memory are safe. It stands on `mm_terms` and `mm_proof`.
//! Begin with `pattern`, then `digrams` and `joint`.
#![tactic(auto)]

mod assertions;
mod decode;
mod digram;
mod digrams;
mod joint;
mod known;
mod pattern;
mod proof;
mod rewriting;
mod shape;
mod size;

pub use assertions::{Library, Named, tokens_by};
pub use digram::Digram;
pub use digrams::{Digrams, Numbered, Place, Uses};
pub use pattern::{Hole, Pattern};
pub use proof::{Node, Proof, Theorem};
pub use rewriting::{Change, NewProof, own_proof, rewritten};
pub use shape::{Shape, Standing};
pub use size::{Names, Sizes};
