//! The labels that the numbers of a compressed proof stand for.

ghost use Rattle.std.specs.Prelude.{◌≡◌, ◌≤◌, [], length, slice_get, Some, Contains, IfOk};
ghost use Rattle.mm_proof.specs.Mirror.CodeSharing.{AddsNew};

use indexmap::IndexSet;
use mm_base::Seed;
use mm_frame::LabelId;
use std::alloc::{AllocError, Global};
use std::marker::Model;

/// Labels, each once, in the order in which they came.
#[derive(Drop)]
pub struct LabelSet {
    set: IndexSet<u32, Seed>,
}

impl Model for LabelSet {
    ghost use Rattle.std.specs.Prelude.{ℕ, List};

    ghost Value = { List ℕ };

    ghost view = { λ s. s.set.keys };
}

impl LabelSet {
    /// No labels, whose hashes begin from the seed. It takes no memory.
    pub fn new(alloc: Global, seed: Seed) -> LabelSet
        ensures { result ≡ [] }
    {
        LabelSet {
            set: IndexSet::with_hasher(alloc, seed),
        }
    }

    /// How many there are.
    pub fn len(&self) -> usize
        ensures { result ≡ length self.now }
    {
        self.set.len()
    }

    /// The index of a label that is among them.
    pub fn index(&self, id: LabelId) -> usize
        requires { Contains self.now id.0 }
        ensures there { slice_get self.now result ≡ Some id.0 }
        ensures within { result ≤ length self.now }
    {
        match self.set.get_index_of(&id.0) {
            Some(index) => index,
            // The label was put into the set.
            None => unreachable!(),
        }
    }

    /// Appends the label to the others, if it isn't among them, and answers whether it wasn't.
    #[tactic(auto, using(crate::proofs::ProofNumbers::Insertions::insertions))]
    pub fn add(&mut self, id: LabelId) -> Result<bool, AllocError>
        ensures { IfOk result (λ is_new. AddsNew self.old id.0 is_new self.new) }
    {
        let is_new = self.set.insert(id.0)?;
        Ok(is_new)
    }
}
