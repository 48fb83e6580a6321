//! What checking has come to.

use crate::kept::Kept;
use crate::position::LineCount;
use mm_frame::LabelId;
use mm_proof::Prover;

/// The statements that were taken so far, and what is known of their proofs where none is refused.
#[derive(Drop)]
pub struct Progress<'a> {
    /// Its book holds these statements.
    pub prover: Prover<'a>,
    /// How many statements they are.
    pub count: usize,
    /// How many of its `$p` are accepted.
    pub proofs: usize,
    /// The `$p` whose proofs are incomplete, in their order.
    pub incomplete: Vec<LabelId>,
    /// What the complete proofs use.
    pub kept: Kept,
    /// The lines of the files.
    pub lines: LineCount<'a>,
}
