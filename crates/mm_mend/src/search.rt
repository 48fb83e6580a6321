//! The search for mends.

ghost use Rattle.std.specs.Prelude.{◌≡◌, ◌≤◌, ◌↔◌, ℕ, IsTrue, length, take, IfOk};
ghost use Rattle.std.specs.List.{sum_by};
ghost use Rattle.mm_base.specs.MostBytes.{most_bytes};
ghost use Rattle.mm_frame.specs.Rules.{AllMeant};
ghost use Rattle.mm_frame.specs.Sentence.{Sentence};
ghost use Rattle.mm_step.specs.Plain.{token_texts};
ghost use Rattle.mm_step.specs.Steps.{IsProofNumber};
ghost use Rattle.mm_proof.specs.Parsed.{OfProof};
ghost use Rattle.mm_mend.specs.Mend.{AreFirst, IsMend, most_told};

use crate::change::Change;
use crate::judge::is_mend;
use mm_base::Token;
use mm_frame::{Book, LabelId};
use std::alloc::{AllocError, Global};

/// How many mends are told at most.
const MOST_TOLD: usize = 10;

/// Whether no more are told.
fn is_full(found: &[Change]) -> bool
    ensures { IsTrue result ↔ (length found.now ≡ most_told) }
{
    found.len() == MOST_TOLD
}

/// The first of the changes that mend the proof of the `$p` with the number, which has these tokens
/// and this text.
pub(crate) fn first_mends(
    alloc: Global,
    book: &Book,
    id: LabelId,
    tokens: &[Token],
    text: &[u8],
    changes: &[Change],
) -> Result<Vec<Change>, AllocError>
    requires proof { (index : ℕ) × (s : Sentence) × IsProofNumber book.now.statements id.0 index s }
    requires meant { AllMeant book.now.statements }
    requires room { sum_by length (token_texts tokens.now) ≤ most_bytes }
    ensures { IfOk result (λ found. OfProof book.now.statements id.0 (λ index s.
        AreFirst (IsMend (take index book.now.statements) s (token_texts tokens.now) text.now)
        most_told changes.now found.items)) }
{
    let mut found = Vec::new(alloc);
    for change in changes {
        if is_full(&found) {
            return Ok(found);
        }
        if is_mend(alloc, book, id, tokens, text, *change)? {
            found.push(*change)?;
        }
    }
    Ok(found)
}
