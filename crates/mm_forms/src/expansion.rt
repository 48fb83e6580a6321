//! The expansion of a proof, or of the beginning of one: the labels that it spells (the Metamath
//! book, section 4.3 and appendix B).

ghost use Rattle.std.specs.Prelude.{◌≡◌, ◌<◌, ◌≤◌, ◌⊎◌, take, length, false, Err, IfOk};
ghost use Rattle.mm_step.specs.Tree.{Trees, spelling};
ghost use Rattle.std.specs.Prelude.{IsOkUnless};
ghost use Rattle.mm_step.specs.declared.fault.ExpandFault.TheVariants.{L2, Memory};
ghost use Rattle.mm_forms.specs.OneTree.{MakeOneTree, MakeRow, OfRow};
ghost use Rattle.mm_step.specs.Steps.{AreSteps};
ghost use Rattle.mm_forms.specs.Spelled.{AreLabelsOf, OfSpelling};
ghost use Rattle.mm_proof.specs.Verified.{OfMoves};

use crate::builder::{build, build_row};
use crate::words::Length;
use mm_frame::{Book, LabelId};
use mm_proof::Steps;
use mm_step::ExpandFault;
use std::alloc::Global;

/// The labels that the steps of the `$p` with this number spell, those of the trees below a label
/// before it: the steps of its normal proof. They are handed in where they make one tree: so does
/// what `verify` accepts.
///
/// # Errors
///
/// `L2` where there are more labels than the most that are allowed, which is known before any of
/// them is written; `Memory` where a growth was refused.
pub fn expand(
    alloc: Global,
    book: &Book,
    id: LabelId,
    steps: &Steps,
    max: usize,
) -> Result<Vec<LabelId>, ExpandFault>
    requires steps { AreSteps book.now.statements id.0 steps.now.moves }
    requires whole { steps.now.prefix ≡ false }
    requires makes { OfMoves book.now.statements id.0 steps.now.moves
        (λ index s moves. MakeOneTree (take index book.now.statements) moves) }
    // They are the spelling of the tree that the steps make.
    ensures spelled { IfOk result (λ labels. OfMoves book.now.statements id.0 steps.now.moves
        (λ index s moves. OfSpelling (take index book.now.statements) moves
        (λ spelled. AreLabelsOf book.now.statements labels.items spelled))) }

    // A spelling that is within the most labels is given, unless memory is refused.
    ensures within { OfMoves book.now.statements id.0 steps.now.moves
        (λ index s moves. OfSpelling (take index book.now.statements) moves
        (λ spelled. length spelled ≤ max → IsOkUnless result Memory)) }

    // Another is refused, unless memory is.
    ensures over { OfMoves book.now.statements id.0 steps.now.moves
        (λ index s moves. OfSpelling (take index book.now.statements) moves
        (λ spelled. max < length spelled → (result ≡ Err L2) ⊎ (result ≡ Err Memory))) }
{
    let mut word = Length { count: 0, max };
    build(alloc, &mut word, book, id, steps)?;
    let mut labels = Vec::with_capacity(alloc, word.count)?;
    build(alloc, &mut labels, book, id, steps)?;
    Ok(labels)
}

/// The labels that so many first moves of the `$p` with this number spell: those of the trees that
/// they make, side by side, as in a normal proof that begins so.
///
/// # Errors
///
/// As for `expand`.
pub fn expand_beginning(
    alloc: Global,
    book: &Book,
    id: LabelId,
    steps: &Steps,
    count: usize,
    max: usize,
) -> Result<Vec<LabelId>, ExpandFault>
    requires steps { AreSteps book.now.statements id.0 steps.now.moves }
    requires within { count ≤ length steps.now.moves }
    requires makes { OfMoves book.now.statements id.0 steps.now.moves
        (λ index s moves. (row : Trees)
        × MakeRow (take index book.now.statements) (take count moves) row) }
    // They are the spelling of the row of trees that these moves make.
    ensures spelled { IfOk result (λ labels. OfMoves book.now.statements id.0 steps.now.moves
        (λ index s moves. OfRow (take index book.now.statements) (take count moves)
        (λ row. AreLabelsOf book.now.statements labels.items (spelling row)))) }

    // A spelling that is within the most labels is given, unless memory is refused.
    ensures within { OfMoves book.now.statements id.0 steps.now.moves
        (λ index s moves. OfRow (take index book.now.statements) (take count moves)
        (λ row. length (spelling row) ≤ max → IsOkUnless result Memory)) }

    // Another is refused, unless memory is.
    ensures over { OfMoves book.now.statements id.0 steps.now.moves
        (λ index s moves. OfRow (take index book.now.statements) (take count moves)
        (λ row. max < length (spelling row) → (result ≡ Err L2) ⊎ (result ≡ Err Memory))) }
{
    let mut word = Length { count: 0, max };
    build_row(alloc, &mut word, book, id, steps, count)?;
    let mut labels = Vec::with_capacity(alloc, word.count)?;
    build_row(alloc, &mut labels, book, id, steps, count)?;
    Ok(labels)
}
