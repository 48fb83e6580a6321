//! Where the hypotheses of a theorem stand.

ghost use Rattle.std.specs.Prelude.{◌≡◌, ◌++◌, ℕ, List, map, OnOk};
ghost use Rattle.mm_text.specs.Files.{plain_file};
ghost use Rattle.mm_base.specs.Statement.{PlainStatement};
ghost use Rattle.mm_base.specs.Token.{PlainToken, plain_token};
ghost use Rattle.mm_frame.specs.Sentence.{Sentence};
ghost use Rattle.mm_facts.specs.Explained.{Detail, details_text};
ghost use Rattle.mm_explain.specs.HypothesisPlaces.{AreOwnHypotheses};
ghost use Rattle.mm_explain.specs.Mirror.Outlined.{IsKeptOutline, firsts_of};
ghost use Rattle.mm_explain.specs.Mirror.Standing.{AddsEach, AreEarlier, IsPlaced};

use crate::outline::Outline;
use mm_base::{File, Token};
use mm_facts::push_hypothesis_at;
use mm_frame::{Book, Hypothesis, LabelId};
use mm_rules::LineCount;
use std::alloc::AllocError;

/// Where each of these hypotheses is stated, and its label. The tokens are the first ones of
/// labelled statements, by their numbers.
fn push_each(
    out: &mut Vec<u8>,
    files: &[File],
    book: &Book,
    firsts: &[Token],
    hypotheses: &[Hypothesis],
) -> Result<(), AllocError>
    requires { (before : List PlainStatement) × (stated : List Sentence)
        × (rest : List PlainToken)
        × AreEarlier book.now.statements before (map (λ h. h.id.0) hypotheses.now) stated
        × (map plain_token firsts.now ≡ firsts_of before ++ rest) }
    ensures { OnOk result
        ((before : List PlainStatement) (stated : List Sentence) (rest : List PlainToken)
        → AreEarlier book.now.statements before (map (λ h. h.id.0) hypotheses.now) stated
        → map plain_token firsts.now ≡ firsts_of before ++ rest
        → AddsEach (map plain_file files.now) before stated out.old.items out.new.items) }
{
    let mut lines = LineCount::new(files);
    for hypothesis in hypotheses {
        let place = lines.place_of(firsts[hypothesis.id.0 as usize]);
        push_hypothesis_at(out, files, place, book.label(hypothesis.id))?;
    }
    Ok(())
}

/// Where each mandatory hypothesis of the `$p` with the number is stated, and its label.
pub(crate) fn push_own_hypotheses(
    out: &mut Vec<u8>,
    outline: &mut Outline,
    book: &Book,
    id: LabelId,
) -> Result<(), AllocError>
    requires placed { (count : ℕ)
        × IsPlaced (map plain_file outline.old.files.now) book.now.statements id.0 count }
    requires outline { IsKeptOutline (map plain_file outline.old.files.now) outline.old }
    ensures told { OnOk result ((count : ℕ)
        (p : IsPlaced (map plain_file outline.old.files.now) book.now.statements id.0 count)
        → (details : List Detail)
        × AreOwnHypotheses (map plain_file outline.old.files.now) p.site.before p.site.s details
        × (out.new.items ≡ out.old.items ++ details_text details)) }
    ensures kept { OnOk result
        (IsKeptOutline (map plain_file outline.old.files.now) outline.new) }
{
    let hypotheses = book.frame(id).hypotheses();
    if hypotheses.is_empty() {
        return Ok(());
    }
    outline.read()?;
    out.extend_from_slice(b"  the theorem's hypotheses\n")?;
    push_each(out, outline.files, book, &outline.firsts, hypotheses)
}
