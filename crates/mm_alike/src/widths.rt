//! Labels that stand over as many trees in two books.

ghost use Rattle.std.specs.Prelude.{IsTrue};
ghost use Rattle.mm_frame.specs.Numbers.{IsLabelNumber};
ghost use Rattle.mm_alike.specs.Mirror.Steps.{KeepsWidth, KeepWidths};

use crate::moves::have_one_width;
use mm_frame::{Book, Found, LabelId};

/// Whether a label of a book stands over as many trees in another one, if that has it.
fn keeps_width(book: &Book, id: LabelId, other: &Book) -> bool
    requires { IsLabelNumber book.now.statements id.0 }
    ensures { IsTrue result → KeepsWidth book.now.statements other.now.statements id.0 }
{
    match other.find(book.label(id)) {
        Found::Assertion(named) => have_one_width(book, id, other, named),
        Found::Hypothesis { id: named, .. } => have_one_width(book, id, other, named),
        Found::None => true,
    }
}

/// Whether each label of both books stands over as many trees in both.
pub(crate) fn keep_widths(book: &Book, other: &Book) -> bool
    ensures { IsTrue result → KeepWidths book.now.statements other.now.statements }
{
    for number in 0..u32::MAX {
        let id = LabelId(number);
        if !book.is_label(id) {
            return true;
        }
        if !keeps_width(book, id, other) {
            return false;
        }
    }
    false
}
