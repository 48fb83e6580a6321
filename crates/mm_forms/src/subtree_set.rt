//! Lists of subtrees without repetition, with the index of each.

ghost use Rattle.std.specs.Prelude.{◌≡◌, ◌≤◌, ◌↔◌, [], length, slice_get, Some, Contains};
ghost use Rattle.std.specs.Prelude.{OnOk, IsTrue};
ghost use Rattle.mm_forms.specs.Mirror.CodeSharing.{Adds};

use crate::subtrees::Subtree;
use indexmap::IndexSet;
use mm_base::Seed;
use std::alloc::{AllocError, Global};
use std::marker::Model;

/// Subtrees, each once, in the order in which they came.
#[derive(Drop)]
pub(crate) struct SubtreeSet {
    set: IndexSet<Subtree, Seed>,
}

impl Model for SubtreeSet {
    ghost use Rattle.std.specs.Prelude.{List};
    ghost use Rattle.mm_forms.specs.declared.subtrees.Subtree.{Subtree};

    ghost Value = { List Subtree };

    ghost view = { λ s. s.set.keys };
}

impl SubtreeSet {
    /// No subtrees, whose hashes begin from the seed. It takes no memory.
    pub(crate) fn new(alloc: Global, seed: Seed) -> SubtreeSet
        ensures { result ≡ [] }
    {
        SubtreeSet {
            set: IndexSet::with_hasher(alloc, seed),
        }
    }

    /// No subtrees, whose hashes begin from the seed, with room for so many where there is memory
    /// for it. Room that is wanting is made when it is needed.
    pub(crate) fn with_room(alloc: Global, seed: Seed, count: usize) -> SubtreeSet
        ensures { result ≡ [] }
    {
        let mut set = IndexSet::with_hasher(alloc, seed);
        let _ = set.reserve(count);
        SubtreeSet { set }
    }

    /// How many there are.
    pub(crate) fn len(&self) -> usize
        ensures { result ≡ length self.now }
    {
        self.set.len()
    }

    /// Whether the subtree is among them.
    pub fn has(&self, tree: Subtree) -> bool
        ensures { IsTrue result ↔ Contains self.now tree }
    {
        self.set.contains(&tree)
    }

    /// The index of a subtree that is among them.
    pub fn index(&self, tree: Subtree) -> usize
        requires { Contains self.now tree }
        ensures there { slice_get self.now result ≡ Some tree }
        ensures within { result ≤ length self.now }
    {
        match self.set.get_index_of(&tree) {
            Some(index) => index,
            // The subtree was put into the set.
            None => unreachable!(),
        }
    }

    /// Appends the subtree to the others, if it isn't among them.
    #[tactic(auto, using(crate::proofs::PackedProofs::SubtreeNumbers::subtree_insertions))]
    pub(crate) fn add(&mut self, tree: Subtree) -> Result<(), AllocError>
        ensures { OnOk result (Adds self.old tree self.new) }
    {
        self.set.insert(tree)?;
        Ok(())
    }
}
