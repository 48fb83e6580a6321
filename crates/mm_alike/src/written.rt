//! Proofs of two databases that are written with the same bytes.

ghost use Rattle.std.specs.Prelude.{IsTrue};
ghost use Rattle.std.specs.List.{AllZip};
ghost use Rattle.mm_frame.specs.Numbers.{IsAssertionNumber};
ghost use Rattle.mm_alike.specs.Mirror.Databases.{HaveSameText, IsComplete, IsTheorem};
ghost use Rattle.mm_alike.specs.Mirror.Steps.{IsSameStep, NameTheSame};

use crate::homes::{Home, bytes_at};
use crate::moves::is_same_step;
use mm_frame::{Book, Hypothesis, LabelId};
use mm_verdict::Checked;

/// Whether hypotheses of two books have the same labels, one after the other.
fn have_same_labels(
    book: &Book,
    hypotheses: &[Hypothesis],
    other: &Book,
    others: &[Hypothesis],
) -> bool
    ensures { IsTrue result → AllZip (λ h k.
        IsSameStep book.now.statements other.now.statements h.id.0 k.id.0) hypotheses.now
        others.now }
{
    if hypotheses.len() != others.len() {
        return false;
    }
    for at in 0..hypotheses.len() {
        if !is_same_step(book, hypotheses[at].id, other, others[at].id) {
            return false;
        }
    }
    true
}

/// Whether the mandatory hypotheses of two assertions have the same labels.
fn name_the_same(book: &Book, one: LabelId, other_book: &Book, other: LabelId) -> bool
    requires one { IsAssertionNumber book.now.statements one.0 }
    requires other { IsAssertionNumber other_book.now.statements other.0 }
    ensures { IsTrue result
        → NameTheSame book.now.statements other_book.now.statements one.0 other.0 }
{
    let frame = book.frame(one);
    let other_frame = other_book.frame(other);
    have_same_labels(
        book,
        frame.hypotheses(),
        other_book,
        other_frame.hypotheses(),
    )
}

/// Whether two theorems of two databases have mandatory hypotheses with the same labels, and proofs
/// of the same bytes. So have most, and then their proofs say the same moves; others may too.
pub(crate) fn have_same_text(
    checked: &Checked,
    homes: &[Home],
    one: LabelId,
    other_checked: &Checked,
    other_homes: &[Home],
    other: LabelId,
) -> bool
    requires complete { IsComplete checked.now homes.now }
    requires theorem { IsTheorem checked.now.sentences one.0 }
    requires other_complete { IsComplete other_checked.now other_homes.now }
    requires other_theorem { IsTheorem other_checked.now.sentences other.0 }
    ensures { IsTrue result → HaveSameText checked.now other_checked.now one.0 other.0 }
{
    if !name_the_same(&checked.book, one, &other_checked.book, other) {
        return false;
    }
    let bytes = bytes_at(checked.files, homes[one.0 as usize]);
    let other_bytes = bytes_at(other_checked.files, other_homes[other.0 as usize]);
    bytes == other_bytes
}
