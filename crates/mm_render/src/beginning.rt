//! The normal proof of a theorem as far as it is known, as a text.

ghost use Rattle.std.specs.Prelude.{◌≡◌, ◌⊎◌, ◌≤◌, List, [], length, take, true};
ghost use Rattle.std.specs.Prelude.{IfOk, IfErr};
ghost use Rattle.mm_code.specs.Layout.{texts};
ghost use Rattle.mm_frame.specs.Sentence.{Sentence};
ghost use Rattle.mm_step.specs.Profiles.{limit_of};
ghost use Rattle.mm_step.specs.Proof.{IsWithin};
ghost use Rattle.mm_step.specs.Steps.{AreSteps};
ghost use Rattle.mm_proof.specs.CheckedPrefix.{Pass};
ghost use Rattle.mm_proof.specs.Verified.{OfMoves};
ghost use Rattle.mm_rules.specs.declared.ask.AskFault.TheVariants.{Rule, Memory};
ghost use Rattle.mm_rules.specs.declared.rule.AskRule.TheVariants.{L2};
ghost use Rattle.mm_render.specs.Forms.{IsBeginningText, IsBeginningTooLong};
ghost use Rattle.mm_render.specs.Forms.{with_unknown as behind_labels};

use crate::forms::{MOST_LABELS, names_of};
use mm_code::lay_out_normal;
use mm_forms::expand_beginning;
use mm_frame::{Book, LabelId};
use mm_proof::Steps;
use mm_rules::AskFault;
use std::alloc::{AllocError, Global};

/// What stands for the part of a proof that isn't known.
const UNKNOWN: &[u8] = b"?";

/// The text of a proof of which nothing is known.
pub fn unknown_text(alloc: Global) -> Result<Vec<u8>, AllocError>
    ensures { IfOk result (λ text. (before : List Sentence)
        → IsBeginningText true before [] text.items) }
{
    lay_out_normal(alloc, &[UNKNOWN])
}

/// These labels, and behind them what stands for the rest of a proof, if it is unfinished.
fn with_unknown<'a>(labels: Vec<&'a [u8]>, unfinished: bool) -> Result<Vec<&'a [u8]>, AllocError>
    ensures { IfOk result (λ tokens.
        texts tokens.items ≡ behind_labels unfinished (texts labels.entry.items)) }
{
    if !unfinished {
        return Ok(labels);
    }
    let mut tokens = labels;
    tokens.push(UNKNOWN)?;
    Ok(tokens)
}

/// The text of the normal proof of the `$p` with this number, whose first moves are so many of these,
/// which pass; with a `?` behind it, if it is unfinished.
///
/// # Errors
///
/// `Rule(L2)` where it has more labels than are written; `Memory` where a growth was refused.
pub fn beginning_text(
    alloc: Global,
    book: &Book,
    id: LabelId,
    steps: &Steps,
    passed: usize,
    unfinished: bool,
) -> Result<Vec<u8>, AskFault>
    requires steps { AreSteps book.now.statements id.0 steps.now.moves }
    requires within { passed ≤ length steps.now.moves }
    requires pass { OfMoves book.now.statements id.0 steps.now.moves
        (λ index s moves. Pass (IsWithin (limit_of steps.now.profile))
        (take index book.now.statements) (take passed moves)) }
    ensures text { IfOk result (λ text. OfMoves book.now.statements id.0 steps.now.moves
        (λ index s moves. IsBeginningText unfinished (take index book.now.statements)
        (take passed moves) text.items)) }
    ensures fault { IfErr result (λ fault. (fault ≡ Memory) ⊎ ((fault ≡ Rule L2)
        × OfMoves book.now.statements id.0 steps.now.moves
        (λ index s moves. IsBeginningTooLong (take index book.now.statements)
        (take passed moves)))) }
{
    let labels = expand_beginning(alloc, book, id, steps, passed, MOST_LABELS)?;
    let names = names_of(alloc, book, &labels)?;
    let tokens = with_unknown(names, unfinished)?;
    Ok(lay_out_normal(alloc, &tokens)?)
}
