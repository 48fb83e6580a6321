//! A library, the proofs of its theorems, and what a search finds in them.

use mm_frame::{Book, Hypothesis, LabelId};
use mm_patterns::{Digrams, Library, Sizes, Theorem};
use mm_proof::Steps;
use mm_step::{Call, call_of};
use std::alloc::{AllocError, Global};
use std::collections::BinaryHeap;

/// A theorem whose proof may be rewritten.
#[derive(Clone, Copy, PartialEq, Eq, Debug)]
pub struct Proved {
    /// Its label.
    pub id: LabelId,
    /// The number of its block, as of an assertion.
    pub block: u32,
    /// The number of its mathbox, from 1 on; 0 outside of all.
    pub mathbox: u32,
}

// A digram that waits to be tried, and how many bytes it is thought to save. The greatest saving
// comes first.
#[derive(Clone, Copy, PartialEq, Eq, PartialOrd, Ord)]
pub(crate) struct Waiting {
    pub saved: u64,
    pub number: u32,
}

/// A library, the proofs of its theorems, and what was found in them.
#[derive(Drop)]
pub struct Search {
    pub library: Library,
    pub theorems: Vec<Theorem>,
    pub digrams: Digrams,
    pub sizes: Sizes,
    /// The first block of a mathbox.
    pub first_mathbox: Option<u32>,
    /// How many labels the library has.
    pub(crate) labels: usize,
    /// The digrams that wait to be tried.
    pub(crate) waiting: BinaryHeap<Waiting>,
}

impl Search {
    /// A search by what a library has; no proofs are known. All labelled statements were entered.
    /// The number is that of the first block of a mathbox: a lemma for several mathboxes stands
    /// before it.
    pub fn new(library: Library, first_mathbox: Option<u32>) -> Search {
        let alloc = library.alloc;
        let seed = library.seed;
        Search {
            labels: library.named.len(),
            library,
            theorems: Vec::new(alloc),
            digrams: Digrams::new(alloc, seed),
            sizes: Sizes::new(alloc),
            first_mathbox,
            waiting: BinaryHeap::new(alloc),
        }
    }

    /// Takes in a theorem and the steps of its proof, in the order of the database. It is passed
    /// over where its proof is incomplete, or doesn't end with something provable.
    ///
    /// # Errors
    ///
    /// Where a growth was refused.
    pub fn take(&mut self, book: &Book, theorem: Proved, steps: &Steps) -> Result<(), AllocError> {
        if steps.prefix {
            return Ok(());
        }
        let hypotheses = hypotheses_of(self.library.alloc, book, theorem.id)?;
        if let Some(proof) = self.library.decode(book, steps)? {
            self.theorems.push(Theorem {
                id: theorem.id,
                block: theorem.block,
                mathbox: theorem.mathbox,
                hypotheses,
                proof,
                bytes: 0,
            })?;
        }
        Ok(())
    }
}

// The labels of the mandatory hypotheses of an assertion, in order.
fn hypotheses_of(alloc: Global, book: &Book, id: LabelId) -> Result<Vec<u32>, AllocError> {
    match call_of(book, id) {
        Call::Hypothesis(_) => Ok(Vec::new(alloc)),
        Call::Assertion(signature) => numbers_of(alloc, signature.hypotheses),
    }
}

// The numbers of the labels of hypotheses.
fn numbers_of(alloc: Global, hypotheses: &[Hypothesis]) -> Result<Vec<u32>, AllocError> {
    let mut numbers = Vec::with_capacity(alloc, hypotheses.len())?;
    for hypothesis in hypotheses {
        numbers.push(hypothesis.id.0)?;
    }
    Ok(numbers)
}
