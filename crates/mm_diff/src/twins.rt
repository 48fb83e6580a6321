//! Assertions that are one in two databases: they have one label, or are renamed.

ghost use Rattle.std.specs.Prelude.{◌≡◌, ◌↔◌, ◌<◌, ℕ, map, length, None, IfOk, IfSome};
ghost use Rattle.mm_frame.specs.Numbers.{labelled_sentences, IsAssertionNumber, IsLabelNumber};
ghost use Rattle.mm_frame.specs.Rules.{AllMeant};
ghost use Rattle.mm_diff.specs.Diff.{IsOne};
ghost use Rattle.mm_diff.specs.Mirror.Changes.{plain_renaming};
ghost use Rattle.mm_diff.specs.Mirror.Twins.{AreTwins, IsRenamedBy, IsTwinAt, TellRenamed};
ghost use Rattle.mm_diff.specs.Mirror.Twins.{turned};

use crate::renamed::{Renaming, is_same};
use mm_alike::assertion_named;
use mm_frame::{Book, LabelId, LabelKind};
use std::alloc::{AllocError, Global};

/// The same renamings, seen from the other database.
pub(crate) fn turned_renamings(
    alloc: Global,
    renamed: &[Renaming],
) -> Result<Vec<Renaming>, AllocError>
    ensures { IfOk result (λ those. map plain_renaming those.items
        ≡ map turned (map plain_renaming renamed.now)) }
{
    let mut those = Vec::new(alloc);
    for renaming in renamed {
        those.push(Renaming {
            other: renaming.id,
            id: renaming.other,
        })?;
    }
    Ok(those)
}

/// The number in the other database of an assertion that is renamed.
fn renamed_from(renamed: &[Renaming], id: LabelId) -> Option<LabelId>
    ensures some { IfSome result (λ n. IsRenamedBy (map plain_renaming renamed.now) n.0 id.0) }
    ensures none { result ≡ None
        → (n : ℕ) → ¬ (IsRenamedBy (map plain_renaming renamed.now) n id.0) }
{
    for renaming in renamed {
        if is_same(renaming.id, id) {
            return Some(renaming.other);
        }
    }
    None
}

/// The number in the other database of the assertion that is one with this one.
fn twin_of(book: &Book, other: &Book, renamed: &[Renaming], id: LabelId) -> Option<LabelId>
    requires id { IsAssertionNumber book.now.statements id.0 }
    requires renamed { TellRenamed other.now.statements book.now.statements
        (map plain_renaming renamed.now) }
    ensures some { IfSome result (λ n. IsOne book.now.statements other.now.statements id.0 n.0) }
    ensures none { result ≡ None
        → (n : ℕ) → ¬ (IsOne book.now.statements other.now.statements id.0 n) }
{
    match assertion_named(other, book.label(id)) {
        Some(named) => Some(named),
        None => renamed_from(renamed, id),
    }
}

/// The number in the other database of the assertion that is one with a labelled statement.
fn twin_at_label(book: &Book, other: &Book, renamed: &[Renaming], id: LabelId) -> Option<LabelId>
    requires id { IsLabelNumber book.now.statements id.0 }
    requires renamed { TellRenamed other.now.statements book.now.statements
        (map plain_renaming renamed.now) }
    ensures some { IfSome result (λ n. IsOne book.now.statements other.now.statements id.0 n.0) }
    ensures none { result ≡ None
        → (n : ℕ) → ¬ (IsOne book.now.statements other.now.statements id.0 n) }
{
    match book.kind(id) {
        LabelKind::Axiom => twin_of(book, other, renamed, id),
        LabelKind::Proof => twin_of(book, other, renamed, id),
        LabelKind::Floating => None,
        LabelKind::Essential => None,
    }
}

/// For each labelled statement, by its number, the number in the other database of the assertion
/// that is one with it.
pub(crate) fn twins_of(
    alloc: Global,
    book: &Book,
    other: &Book,
    renamed: &[Renaming],
) -> Result<Vec<Option<LabelId>>, AllocError>
    requires few { length (labelled_sentences book.now.statements) < 4294967295 }
    requires meant { AllMeant other.now.statements }
    requires renamed { TellRenamed other.now.statements book.now.statements
        (map plain_renaming renamed.now) }
    ensures { IfOk result (λ twins.
        AreTwins book.now.statements other.now.statements twins.items) }
{
    let mut twins = Vec::new(alloc);
    for number in 0..u32::MAX {
        let id = LabelId(number);
        if !book.is_label(id) {
            break;
        }
        twins.push(twin_at_label(book, other, renamed, id))?;
    }
    Ok(twins)
}

/// The number in the other database of the assertion that is one with a labelled statement, as a
/// table has it.
pub(crate) fn twin_at(twins: &[Option<LabelId>], id: LabelId) -> Option<LabelId>
    ensures some { IfSome result (λ n. IsTwinAt twins.now id.0 n.0) }
    ensures none { result ≡ None → (n : ℕ) → ¬ (IsTwinAt twins.now id.0 n) }
{
    match twins.get(id.0 as usize) {
        Some(twin) => *twin,
        None => None,
    }
}
