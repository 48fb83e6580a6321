//! Assertions that depend on the same in two databases, as their proofs use the same.

ghost use Rattle.std.specs.Prelude.{ℕ, IfOk, IsTrue};
ghost use Rattle.std.specs.List.{AllZip};
ghost use Rattle.mm_frame.specs.Numbers.{IsLabelNumber};
ghost use Rattle.mm_diff.specs.Mirror.Twins.{AreTwins, IsTwinAt, IsUsedAlike, StayThose, StaysAs};

use crate::renamed::is_same;
use crate::twins::twin_at;
use mm_alike::is_same_kind;
use mm_axioms::is_marked;
use mm_frame::LabelId;
use mm_verdict::Checked;
use std::alloc::{AllocError, Global};

/// Whether an assertion is one with another, and is marked.
fn is_used_alike(twins: &[Option<LabelId>], marks: &[bool], id: LabelId, other: LabelId) -> bool
    ensures { IsTrue result → IsUsedAlike twins.now marks.now id.0 other.0 }
{
    match twin_at(twins, id) {
        Some(twin) => {
            if is_same(twin, other) {
                is_marked(marks, id)
            } else {
                false
            }
        }
        None => false,
    }
}

/// Whether assertions are one with others, one after the other, and are marked.
fn are_used_alike(
    twins: &[Option<LabelId>],
    marks: &[bool],
    used: &[LabelId],
    others: &[LabelId],
) -> bool
    ensures { IsTrue result → AllZip (λ id other. IsUsedAlike twins.now marks.now id.0 other.0)
        used.now others.now }
{
    if used.len() != others.len() {
        return false;
    }
    for at in 0..used.len() {
        if !is_used_alike(twins, marks, used[at], others[at]) {
            return false;
        }
    }
    true
}

/// Whether an assertion and that of another database which is one with it are of one kind, and
/// their proofs, if they have any, use the same, all of which is marked.
fn stays_as(
    new: &Checked,
    old: &Checked,
    twins: &[Option<LabelId>],
    marks: &[bool],
    id: LabelId,
    former: LabelId,
) -> bool
    requires id { IsLabelNumber new.now.sentences id.0 }
    requires former { IsLabelNumber old.now.sentences former.0 }
    ensures { IsTrue result → StaysAs new.now old.now twins.now marks.now id.0 former.0 }
{
    if is_same_kind(new.book.kind(id), old.book.kind(former)) {
        are_used_alike(twins, marks, new.kept.used_by(id), old.kept.used_by(former))
    } else {
        false
    }
}

/// Whether a labelled statement stays as it was.
fn stays(
    new: &Checked,
    old: &Checked,
    twins: &[Option<LabelId>],
    marks: &[bool],
    id: LabelId,
) -> bool
    requires id { IsLabelNumber new.now.sentences id.0 }
    requires twins { AreTwins new.now.sentences old.now.sentences twins.now }
    ensures { IsTrue result → (former : ℕ) × IsTwinAt twins.now id.0 former
        × StaysAs new.now old.now twins.now marks.now id.0 former }
{
    match twin_at(twins, id) {
        Some(former) => stays_as(new, old, twins, marks, id, former),
        None => false,
    }
}

/// Marks of assertions that depend on the same as in the old database: they and all that their
/// proofs use, and what the proofs of these use, stand there too, and the proofs use the same there.
pub(crate) fn those_that_stay(
    alloc: Global,
    new: &Checked,
    old: &Checked,
    twins: &[Option<LabelId>],
) -> Result<Vec<bool>, AllocError>
    requires twins { AreTwins new.now.sentences old.now.sentences twins.now }
    ensures { IfOk result (λ marks. StayThose new.now old.now twins.now marks.items) }
{
    let mut marks = Vec::new(alloc);
    for number in 0..u32::MAX {
        let id = LabelId(number);
        if !new.book.is_label(id) {
            break;
        }
        let mark = stays(new, old, twins, &marks, id);
        marks.push(mark)?;
    }
    Ok(marks)
}
