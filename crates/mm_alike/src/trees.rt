//! Whether two proofs of two books spell one tree.

ghost use Rattle.std.specs.Prelude.{◌≡◌, ◌++◌, IfOk, IsTrue};
ghost use Rattle.mm_proof.specs.Mirror.CodeSteps.{moves_of};
ghost use Rattle.mm_step.specs.Plain.{ids_in, label_ids};
ghost use Rattle.mm_verdict.specs.Mirror.Theorems.{IsWholeProof};
ghost use Rattle.mm_alike.specs.Mirror.Steps.{AreSameMoves, ShareTree, TellsOneTree};

use crate::moves::{are_written_alike, say_same_moves};
use mm_code::Code;
use mm_forms::compress;
use mm_frame::{Book, Hypothesis, LabelId};
use mm_proof::Steps;
use std::alloc::{AllocError, Global};

/// The fully shared proof of a tree.
#[derive(Drop)]
struct Shared {
    /// What the first numbers of the codes stand for: the mandatory hypotheses, and the listed
    /// labels.
    entries: Vec<LabelId>,
    codes: Vec<Code>,
}

/// The labels of the hypotheses, and then the others.
fn entries_of(
    alloc: Global,
    hypotheses: &[Hypothesis],
    labels: &[LabelId],
) -> Result<Vec<LabelId>, AllocError>
    ensures { IfOk result (λ entries.
        ids_in entries.items ≡ label_ids hypotheses.now ++ ids_in labels.now) }
{
    let mut entries = Vec::new(alloc);
    for hypothesis in hypotheses {
        entries.push(hypothesis.id)?;
    }
    entries.extend_from_slice(labels)?;
    Ok(entries)
}

/// The fully shared proof of the tree that the steps of a `$p` make.
fn shared_proof(
    alloc: Global,
    book: &Book,
    id: LabelId,
    steps: &Steps,
) -> Result<Shared, AllocError>
    requires { IsWholeProof book.now.statements id.0 steps.now }
    ensures { IfOk result (λ shared. ShareTree book.now.statements id.0 steps.now.moves
        (moves_of shared.entries.items shared.codes.items)) }
{
    let packed = compress(alloc, book, id, steps)?;
    let own = book.frame(id);
    let entries = entries_of(alloc, own.hypotheses(), &packed.labels)?;
    Ok(Shared {
        entries,
        codes: packed.codes,
    })
}

/// Whether the steps of two proofs are written alike, so that they say the same moves.
fn are_alike_steps(old: &Book, steps: &Steps, new: &Book, other_steps: &Steps) -> bool
    ensures { IsTrue result → AreSameMoves old.now.statements new.now.statements steps.now.moves
        other_steps.now.moves }
{
    are_written_alike(
        old,
        &steps.entries,
        &steps.codes,
        new,
        &other_steps.entries,
        &other_steps.codes,
    )
}

/// Whether the steps of two `$p` of two books make one tree. Labels are compared by their names,
/// and each subtree once, however often it stands in the tree.
pub(crate) fn make_one_tree(
    alloc: Global,
    old: &Book,
    one: LabelId,
    steps: &Steps,
    new: &Book,
    other: LabelId,
    other_steps: &Steps,
) -> Result<bool, AllocError>
    requires one { IsWholeProof old.now.statements one.0 steps.now }
    requires other { IsWholeProof new.now.statements other.0 other_steps.now }
    ensures { IfOk result (TellsOneTree old.now.statements new.now.statements one.0 other.0
        steps.now.moves other_steps.now.moves) }
{
    let _own = old.frame(one);
    let _other = new.frame(other);
    if are_alike_steps(old, steps, new, other_steps) {
        return Ok(true);
    }
    let shared = shared_proof(alloc, old, one, steps)?;
    let other_shared = shared_proof(alloc, new, other, other_steps)?;
    Ok(say_same_moves(
        old,
        &shared.entries,
        &shared.codes,
        new,
        &other_shared.entries,
        &other_shared.codes,
    ))
}
