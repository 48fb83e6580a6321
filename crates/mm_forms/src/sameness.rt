//! Whether two proofs spell one tree (the Metamath book, section 4.3 and appendix B).

ghost use Rattle.std.specs.Prelude.{◌≡◌, ◌↔◌, ℕ, List, take, IfOk, IsTrue, false};
ghost use Rattle.mm_step.specs.Moves.{Move};
ghost use Rattle.mm_forms.specs.OneTree.{MakeOneTree, MakeSameTree};
ghost use Rattle.mm_step.specs.Steps.{AreNumberedMoves, AreSteps};
ghost use Rattle.mm_proof.specs.Verified.{OfMoves};

use crate::builder::build;
use crate::subtrees::Subtrees;
use mm_frame::{Book, LabelId};
use mm_proof::Steps;
use std::alloc::{AllocError, Global};

/// Whether both lists of steps of the `$p` with this number spell the same tree. Each is handed in
/// where it makes one tree: so does what `verify` accepts. The trees are given by numbers of their
/// distinct subtrees, and never written out.
///
/// # Errors
///
/// Only where a growth was refused.
pub fn same(
    alloc: Global,
    book: &Book,
    id: LabelId,
    first: &Steps,
    second: &Steps,
) -> Result<bool, AllocError>
    requires first { AreSteps book.now.statements id.0 first.now.moves }
    requires first_whole { first.now.prefix ≡ false }
    requires first_makes { OfMoves book.now.statements id.0 first.now.moves
        (λ index s moves. MakeOneTree (take index book.now.statements) moves) }
    requires second { AreSteps book.now.statements id.0 second.now.moves }
    requires second_whole { second.now.prefix ≡ false }
    requires second_makes { OfMoves book.now.statements id.0 second.now.moves
        (λ index s moves. MakeOneTree (take index book.now.statements) moves) }
    // It is true exactly if one tree is made by both.
    ensures { IfOk result (λ same. OfMoves book.now.statements id.0 first.now.moves
        (λ index s moves. (others : List (Move (List ℕ)))
        → AreNumberedMoves book.now.statements second.now.moves others
        → IsTrue same ↔ MakeSameTree (take index book.now.statements) moves others)) }
{
    let mut table = Subtrees::with_room(alloc, book.seed(), first.codes.len());
    let one = build(alloc, &mut table, book, id, first)?;
    let other = build(alloc, &mut table, book, id, second)?;
    Ok(table.are_equal(one, other))
}
