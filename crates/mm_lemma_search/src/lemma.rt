//! Lemmas that a library lacks, as they are told.

use crate::names::Words;
use mm_frame::{LabelId, Piece};
use mm_patterns::Pattern;

/// What a step of a lemma's proof is by.
#[derive(Clone, Copy, PartialEq, Eq, Debug)]
pub enum Part {
    /// An assertion of the library.
    Assertion(LabelId),
    /// The lemma with this index among those that were found.
    Lemma(u32),
}

/// A theorem that a library lacks: what two steps prove, of which the one proves a `$e` of the
/// other. Its variables are numbered in the order in which they first stand in its hypotheses, in
/// its conclusion, and then in its proof.
#[derive(Drop)]
pub struct Lemma {
    /// What its last step is by.
    pub upper: Part,
    /// The index of the `$e` of that which the other step proves, among all its `$e`.
    pub place: u32,
    /// What the other step is by.
    pub lower: Part,
    /// What the two steps make: its variables, its distinct pairs and its proof.
    pub pattern: Pattern,
    /// Its hypotheses, in which variables stand by their numbers.
    pub hypotheses: Vec<Vec<Piece>>,
    /// What it concludes.
    pub conclusion: Vec<Piece>,
    /// How many steps are by it in the proofs that become smaller.
    pub uses: u32,
    /// How many these proofs are.
    pub proofs: u32,
    /// How many bytes they have less, without those of the lemma's own text: about as many as a
    /// file has less.
    pub saved: u64,
    /// What says it already: an assertion that stands behind its place or in another mathbox, or a
    /// lemma that does. Then no proof was rewritten by it: that could be moved to its place.
    pub known: Option<Part>,
    /// The number of the block before which it stands.
    pub block: u32,
    /// The number of the mathbox in which it stands; 0 outside of all.
    pub mathbox: u32,
}

/// What is asked of the lemmas that are found, and by what their texts are measured.
#[derive(Clone, Copy)]
pub struct Wanted<'w, 'a> {
    /// No more lemmas are found.
    pub most: usize,
    /// Each of them saves as many bytes or more.
    pub least: u64,
    /// How many bytes their labels have.
    pub label: u64,
    /// How many bytes a comment has.
    pub comment: u64,
    /// By what they are written.
    pub words: Words<'w, 'a>,
}
