//! Which axioms of a report have the type code of the theorem.

ghost use Rattle.std.specs.Prelude.{◌≡◌, ◌↔◌, ◌<◌, map, length, slice_get};
ghost use Rattle.std.specs.Prelude.{IfOk, IsTrue, Some};
ghost use Rattle.mm_frame.specs.Numbers.{labelled_sentences};
ghost use Rattle.mm_frame.specs.Sentence.{Sentence};
ghost use Rattle.mm_axioms.specs.Essential.{HaveOneType, AreOfType};
ghost use Rattle.mm_axioms.specs.Mirror.Codes.{IsCodeOf, AreNumbersWithin};

use mm_frame::{Book, LabelId, Sym};
use std::alloc::{AllocError, Global};

/// The type code of a labelled statement: its first symbol.
fn type_code(book: &Book, id: LabelId) -> Option<Sym>
    ensures { (s : Sentence) → slice_get (labelled_sentences book.now.statements) id.0 ≡ Some s
        → IsCodeOf book.now.statements s.symbols result }
{
    book.expression(id).first().copied()
}

/// Whether two labelled statements have one type code.
fn have_one_type(book: &Book, one: LabelId, other: LabelId) -> bool
    requires one { one.0 < length (labelled_sentences book.now.statements) }
    requires other { other.0 < length (labelled_sentences book.now.statements) }
    ensures { IsTrue result ↔ HaveOneType book.now.statements one.0 other.0 }
{
    match type_code(book, one) {
        Some(code) => match type_code(book, other) {
            Some(same) => code.0 == same.0,
            None => false,
        },
        None => false,
    }
}

/// Those of these numbers that have the type code of a theorem, in their order.
pub(crate) fn of_type(
    alloc: Global,
    book: &Book,
    theorem: LabelId,
    numbers: &[LabelId],
) -> Result<Vec<LabelId>, AllocError>
    requires theorem { theorem.0 < length (labelled_sentences book.now.statements) }
    requires numbers { AreNumbersWithin (length (labelled_sentences book.now.statements))
        (map (λ l. l.0) numbers.now) }
    ensures { IfOk result (λ chosen. AreOfType book.now.statements theorem.0
        (map (λ l. l.0) numbers.now) (map (λ l. l.0) chosen.items)) }
{
    let mut chosen = Vec::new(alloc);
    for number in numbers {
        if have_one_type(book, theorem, *number) {
            chosen.push(*number)?;
        }
    }
    Ok(chosen)
}
