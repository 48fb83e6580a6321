//! The assertions that differ from those of another database.

ghost use Rattle.std.specs.Prelude.{◌≡◌, ◌↔◌, ◌<◌, ℕ, map, length, None, IfOk, IfSome, IsTrue};
ghost use Rattle.mm_frame.specs.Form.{IsSound};
ghost use Rattle.mm_frame.specs.Numbers.{labelled_sentences, IsLabelNumber, IsAssertionNumber};
ghost use Rattle.mm_rules.specs.Rests.{AreInOrder};
ghost use Rattle.mm_alike.specs.Alike.{IsAssertionNamed};
ghost use Rattle.mm_alike.specs.Mirror.Differences.{Differs};

use crate::alike::are_alike;
use mm_frame::{Book, Found, LabelId, LabelKind};
use std::alloc::{AllocError, Global};

/// How an assertion stands to those of another database.
#[derive(Clone, Copy)]
pub enum Difference {
    /// No assertion there has its label.
    Alone,
    /// The one that has its label doesn't say the same.
    Changed,
    /// One has its label.
    Shared,
}

/// The number of the assertion with a label.
pub fn assertion_named(book: &Book, label: &[u8]) -> Option<LabelId>
    ensures some { IfSome result (λ id. IsAssertionNamed book.now.statements label.now id.0) }
    ensures none { result ≡ None
        → (n : ℕ) → ¬ (IsAssertionNamed book.now.statements label.now n) }
    ensures sound { IsSound book.now.statements }
{
    match book.find(label) {
        Found::Assertion(id) => Some(id),
        _ => None,
    }
}

/// Whether an assertion stands so to those of another database.
fn assertion_differs(difference: Difference, book: &Book, other: &Book, id: LabelId) -> bool
    requires { IsAssertionNumber book.now.statements id.0 }
    ensures { IsTrue result
        ↔ Differs difference book.now.statements other.now.statements id.0 }
{
    match assertion_named(other, book.label(id)) {
        Some(named) => match difference {
            Difference::Alone => false,
            Difference::Changed => !are_alike(book, id, other, named),
            Difference::Shared => true,
        },
        None => match difference {
            Difference::Alone => true,
            Difference::Changed => false,
            Difference::Shared => false,
        },
    }
}

/// Whether a labelled statement is an assertion that stands so to those of another database.
fn differs(difference: Difference, book: &Book, other: &Book, id: LabelId) -> bool
    requires { IsLabelNumber book.now.statements id.0 }
    ensures { IsTrue result
        ↔ Differs difference book.now.statements other.now.statements id.0 }
{
    match book.kind(id) {
        LabelKind::Axiom => assertion_differs(difference, book, other, id),
        LabelKind::Proof => assertion_differs(difference, book, other, id),
        LabelKind::Floating => false,
        LabelKind::Essential => false,
    }
}

/// The numbers of the assertions that stand so to those of another database, in their order.
pub fn those_that_differ(
    alloc: Global,
    difference: Difference,
    book: &Book,
    other: &Book,
) -> Result<Vec<LabelId>, AllocError>
    requires { length (labelled_sentences book.now.statements) < 4294967295 }
    ensures { IfOk result (λ ids. AreInOrder
        (Differs difference book.now.statements other.now.statements)
        (map (λ l. l.0) ids.items)) }
{
    let mut those = Vec::new(alloc);
    for number in 0..u32::MAX {
        let id = LabelId(number);
        if !book.is_label(id) {
            break;
        }
        if differs(difference, book, other, id) {
            those.push(id)?;
        }
    }
    Ok(those)
}
