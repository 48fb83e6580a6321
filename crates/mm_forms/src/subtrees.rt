//! Numbers of subtrees: equal trees of proofs have equal numbers.

ghost use Rattle.std.specs.Prelude.{◌≡◌, ◌↔◌, List, [], Some, None, IfOk, OnOk, IsTrue};
ghost use Rattle.mm_frame.specs.Sentence.{Sentence};
ghost use Rattle.mm_step.specs.Tree.{Trees};
ghost use Rattle.mm_forms.specs.Mirror.Subtrees.{IsNumberOfRow, KeepNumbers, AreOnce, AreTreesOf};
ghost use Rattle.mm_forms.specs.Mirror.Subtrees.{StandsFor, IsOverLeaf};
ghost use Rattle.mm_forms.specs.declared.subtrees.Subtree.{Subtree};

use crate::builder::Builder;
use indexmap::IndexSet;
use mm_base::Seed;
use mm_frame::LabelId;
use std::alloc::{AllocError, Global};
use std::marker::Model;

/// A tree: the number of its label, and the number of the row of trees below it.
#[derive(Clone, Copy, PartialEq, Eq, Hash)]
pub(crate) struct Subtree {
    pub label: u32,
    pub below: usize,
}

/// Trees side by side: the first one, and the number of the row to its right.
#[derive(Clone, Copy, PartialEq, Eq, Hash)]
pub(crate) struct Row {
    pub first: Subtree,
    pub(crate) right: usize,
}

/// Rows of trees, each once. The number of a row is one more than its index, and 0 is that of no
/// tree.
#[derive(Drop)]
pub(crate) struct Subtrees {
    rows: IndexSet<Row, Seed>,
}

impl Model for Subtrees {
    ghost use Rattle.std.specs.Prelude.{List};
    ghost use Rattle.mm_forms.specs.declared.subtrees.Row.{Row};
    ghost use Rattle.mm_forms.specs.Mirror.Subtrees.{AreOnce};

    ghost Value = { List Row };

    ghost view = { λ s. s.rows.keys };

    ghost invariant = { λ s. AreOnce s.rows.keys };
}

impl Subtrees {
    /// No rows, whose hashes begin from the seed, with room for so many where there is memory for
    /// it. Room that is wanting is made when it is needed.
    pub(crate) fn with_room(alloc: Global, seed: Seed, count: usize) -> Subtrees
        ensures { result ≡ [] }
    {
        let mut rows = IndexSet::with_hasher(alloc, seed);
        let _ = rows.reserve(count);
        Subtrees { rows }
    }

    // The number of a row.
    fn number(&mut self, row: Row) -> Result<usize, AllocError>
        ensures number { IfOk result (λ number. IsNumberOfRow self.new number row) }
        ensures kept { KeepNumbers self.old self.new }
        ensures once { AreOnce self.new }
    {
        let (index, _) = self.rows.insert_full(row)?;
        // A set has fewer than 2^63.
        let _count = self.rows.len();
        Ok(index + 1)
    }

    // The number of the row of these trees.
    fn number_row(&mut self, trees: &[Subtree]) -> Result<usize, AllocError>
        ensures number { IfOk result (λ number. (statements : List Sentence) (row : Trees)
            → AreTreesOf statements self.old trees.now row
            → StandsFor statements self.new number row) }
        ensures kept { OnOk result (KeepNumbers self.old self.new) }
        ensures once { OnOk result (AreOnce self.old → AreOnce self.new) }
    {
        let mut right = 0;
        for index in (0..trees.len()).rev() {
            right = self.number(Row {
                first: trees[index],
                right,
            })?;
        }
        Ok(right)
    }

    /// The leaf below a tree of two nodes; none below any other tree.
    pub(crate) fn only_leaf(&self, tree: Subtree) -> Option<Subtree>
        ensures some { (leaf : Subtree) → result ≡ Some leaf → IsOverLeaf self.now tree leaf }
        ensures none { result ≡ None → (leaf : Subtree) → ¬ (IsOverLeaf self.now tree leaf) }
    {
        if tree.below == 0 {
            return None;
        }
        match self.rows.get_index(tree.below - 1) {
            Some(row) if row.right == 0 && row.first.below == 0 => Some(row.first),
            _ => None,
        }
    }

    /// Whether two trees, whose rows are in the table, are equal: each row is in it once.
    pub(crate) fn are_equal(&self, first: Subtree, second: Subtree) -> bool
        ensures { IsTrue result ↔ (first ≡ second) }
    {
        first == second
    }
}

/// The number of each row of trees is put into the table, and nothing else is written.
impl Builder for Subtrees {
    ghost use Rattle.mm_forms.specs.Mirror.Subtrees.{AreSubtreesOf};

    type Item = Subtree;

    type Fault = AllocError;

    ghost holds = { λ first now statements stack row shelf kept steps.
        AreSubtreesOf first now statements stack row shelf kept };

    fn make(&mut self, id: LabelId, below: &[Subtree]) -> Result<Subtree, AllocError> {
        let below = self.number_row(below)?;
        Ok(Subtree { label: id.0, below })
    }

    #[tactic(auto, using(crate::proofs::PackedProofs::SubtreeNumbers::subtrees_repeat))]
    fn repeat(&mut self, item: Subtree) -> Result<Subtree, AllocError> {
        Ok(item)
    }

    ghost memory = { λ e fault gives long. long };
}
