//! The essential hypotheses of a theorem, by their labels.

ghost use Rattle.std.specs.Prelude.{◌≡◌, ◌∷◌, ◌++◌, [], List, Some, IfOk, length, map, filter};
ghost use Rattle.std.specs.Prelude.{slice_get};
ghost use Rattle.mm_code.specs.Layout.{texts};
ghost use Rattle.mm_frame.specs.FrameIndex.{HaveTypings};
ghost use Rattle.mm_frame.specs.Numbers.{labelled_sentences};
ghost use Rattle.mm_frame.specs.Sentence.{Sentence, is_essential};
ghost use Rattle.mm_step.specs.Steps.{IsProofNumber};
ghost use Rattle.mm_groups.specs.Shared.{AreEssentials};

use mm_frame::{Book, Hypothesis, LabelId};
use std::alloc::{AllocError, Global};

/// The labels of those of the hypotheses that are essential.
fn essential_labels<'a>(
    alloc: Global,
    book: &Book<'a>,
    hypotheses: &[Hypothesis],
) -> Result<Vec<&'a [u8]>, AllocError>
    requires stated { (stated : List Sentence)
        × (map (slice_get (labelled_sentences book.now.statements))
        (map (λ h. h.id.0) hypotheses.now) ≡ map Some stated) }
    requires typed { HaveTypings book.now.statements hypotheses.now }
    ensures { IfOk result (λ labels. (stated : List Sentence)
        → map (slice_get (labelled_sentences book.now.statements))
        (map (λ h. h.id.0) hypotheses.now) ≡ map Some stated
        → map Some (texts labels.items)
        ≡ map (λ h. h.label) (filter (λ h. is_essential h.kind) stated)) }
{
    let mut labels = Vec::new(alloc);
    for hypothesis in hypotheses {
        if hypothesis.typing.is_some() {
            continue;
        }
        labels.push(book.label(hypothesis.id))?;
    }
    Ok(labels)
}

/// The labels of the essential hypotheses of the `$p` with a number.
pub(crate) fn essentials_of<'a>(
    alloc: Global,
    book: &Book<'a>,
    id: LabelId,
) -> Result<Vec<&'a [u8]>, AllocError>
    requires { (before : List Sentence) × (s : Sentence)
        × (book.now.statements ≡ before ++ s ∷ [])
        × IsProofNumber book.now.statements id.0 (length before) s }
    ensures { IfOk result (λ labels. (before : List Sentence) (s : Sentence)
        → book.now.statements ≡ before ++ s ∷ []
        → IsProofNumber book.now.statements id.0 (length before) s
        → AreEssentials before s (texts labels.items)) }
{
    essential_labels(alloc, book, book.frame(id).hypotheses())
}
