//! The steps of the proof of a tree that shares what is worth a tag alone, by the numbers of its
//! subtrees.

ghost use Rattle.std.specs.Prelude.{◌≡◌, ◌≤◌, ◌*◌, List, ◌++◌, length, IfOk, OnOk};
ghost use Rattle.mm_frame.specs.Sentence.{Sentence};
ghost use Rattle.mm_step.specs.Tree.{Trees};
ghost use Rattle.mm_forms.specs.BigSubtrees.{IsBig};
ghost use Rattle.mm_forms.specs.ChosenSharing.{IsWorthATag};
ghost use Rattle.mm_forms.specs.Mirror.CodeChosen.{IsWrittenOut};
ghost use Rattle.mm_forms.specs.Mirror.CodeSharing.{AreSharedSteps};
ghost use Rattle.mm_forms.specs.declared.sharing.SharedStep.{SharedStep};

use crate::sharing::SharedStep;
use crate::subtrees::Subtrees;
use std::alloc::{AllocError, Global};

// Appends a step to the others. Where it repeats a tree of two nodes, the tree is written out.
fn put_chosen(
    chosen: &mut Vec<SharedStep>,
    table: &Subtrees,
    one: SharedStep,
) -> Result<(), AllocError>
    ensures { OnOk result ((here : List SharedStep)
        × (chosen.new.items ≡ chosen.old.items ++ here) × IsWrittenOut table.now one here) }
{
    let SharedStep::Repeat(tree) = one else {
        chosen.push(one)?;
        return Ok(());
    };
    let Some(leaf) = table.only_leaf(tree) else {
        chosen.push(one)?;
        return Ok(());
    };
    chosen.push(SharedStep::Make(leaf))?;
    chosen.push(SharedStep::Make(tree))?;
    Ok(())
}

/// Of the steps of a fully shared proof those of the proof that shares what is worth a tag alone.
/// No step becomes more than two.
pub(crate) fn choose_steps(
    alloc: Global,
    table: &Subtrees,
    steps: &[SharedStep],
) -> Result<Vec<SharedStep>, AllocError>
    ensures chosen { IfOk result (λ chosen. (statements : List Sentence) (trees : Trees)
        → AreSharedSteps IsBig statements table.now trees steps.now
        → AreSharedSteps IsWorthATag statements table.now trees chosen.items) }
    ensures few { IfOk result (λ chosen. length chosen.items ≤ 2 * length steps.now) }
{
    let mut chosen = Vec::with_capacity(alloc, steps.len())?;
    for one in steps {
        put_chosen(&mut chosen, table, *one)?;
    }
    Ok(chosen)
}
