//! The steps of a fully shared proof, by the numbers of its subtrees.

ghost use Rattle.std.specs.Prelude.{◌≡◌, [], OnOk};
ghost use Rattle.mm_forms.specs.Mirror.CodeSharing.{Shares, IsRepeat};

use crate::builder::Builder;
use crate::subtree_set::SubtreeSet;
use crate::subtrees::{Subtree, Subtrees};
use mm_base::Seed;
use mm_frame::LabelId;
use std::alloc::{AllocError, Global};

/// A step of a fully shared proof.
#[derive(Clone, Copy)]
pub(crate) enum SharedStep {
    /// A step by a label makes the tree.
    Make(Subtree),
    /// A step by a tag repeats the tree, which has two or more nodes.
    Repeat(Subtree),
}

// A step by a label makes the tree, over so many children: where it was made before, its last steps
// are one for each child, and one step takes their place.
fn share(
    steps: &mut Vec<SharedStep>,
    made: &mut SubtreeSet,
    tree: Subtree,
    children: usize,
) -> Result<(), AllocError>
    ensures { OnOk result
        (Shares tree children steps.old.items made.old steps.new.items made.new) }
{
    if tree.below == 0 {
        steps.push(SharedStep::Make(tree))?;
        return Ok(());
    }
    if made.has(tree) {
        steps.truncate(steps.len().saturating_sub(children));
        steps.push(SharedStep::Repeat(tree))?;
        return Ok(());
    }
    made.add(tree)?;
    steps.push(SharedStep::Make(tree))?;
    Ok(())
}

// The step that puts a tree there again: by its label, if it has no children.
fn again(tree: Subtree) -> SharedStep
    ensures { IsRepeat tree result }
{
    if tree.below == 0 {
        SharedStep::Make(tree)
    } else {
        SharedStep::Repeat(tree)
    }
}

/// The steps of the fully shared proof of the trees that moves make.
#[derive(Drop)]
pub struct SharedSteps {
    pub(crate) table: Subtrees,
    made: SubtreeSet,
    pub steps: Vec<SharedStep>,
}

impl SharedSteps {
    /// No steps, whose trees' hashes begin from the seed, with room for so many where there is
    /// memory for it. Room that is wanting is made when it is needed.
    pub(crate) fn with_room(alloc: Global, seed: Seed, count: usize) -> SharedSteps
        ensures table { result.table ≡ [] }
        ensures made { result.made ≡ [] }
        ensures steps { result.steps.items ≡ [] }
    {
        let mut steps = Vec::new(alloc);
        let _ = steps.reserve(count);
        SharedSteps {
            table: Subtrees::with_room(alloc, seed, count),
            made: SubtreeSet::with_room(alloc, seed, count),
            steps,
        }
    }
}

/// Each subtree of two or more nodes is made once, and repeated where it is used again.
impl Builder for SharedSteps {
    ghost use Rattle.mm_forms.specs.Mirror.CodeSharing.{ShareSteps};

    type Item = Subtree;

    type Fault = AllocError;

    ghost holds = { λ first now statements stack row shelf kept steps.
        ShareSteps first now statements stack row shelf kept steps };

    fn make(&mut self, id: LabelId, below: &[Subtree]) -> Result<Subtree, AllocError> {
        let tree = self.table.make(id, below)?;
        share(&mut self.steps, &mut self.made, tree, below.len())?;
        Ok(tree)
    }

    fn repeat(&mut self, item: Subtree) -> Result<Subtree, AllocError> {
        self.steps.push(again(item))?;
        Ok(item)
    }

    ghost memory = { λ e fault gives long. long };
}
