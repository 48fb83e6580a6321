//! Assertions that are renamed: one is gone and one was added, which say the same.

ghost use Rattle.std.specs.Prelude.{◌≡◌, ◌↔◌, ℕ, map, Contains, None, IfOk, IfSome, IsTrue};
ghost use Rattle.mm_frame.specs.Numbers.{IsAssertionNumber};
ghost use Rattle.mm_rules.specs.Rests.{AreInOrder};
ghost use Rattle.mm_diff.specs.Diff.{AreRenamed, IsMissing, IsOnlyAlike};
ghost use Rattle.mm_alike.specs.Alike.{AreAlike, IsAlone};
ghost use Rattle.mm_diff.specs.Diff.{IsRenamed};
ghost use Rattle.mm_diff.specs.Mirror.Changes.{plain_renaming};

use mm_alike::are_alike;
use mm_frame::{Book, LabelId};
use std::alloc::{AllocError, Global};

/// An assertion that has another label in another database.
#[derive(Clone, Copy)]
pub(crate) struct Renaming {
    /// Its number there.
    pub other: LabelId,
    /// Its number here.
    pub id: LabelId,
}

/// Of these assertions of another database those that say the same as an assertion.
fn alike_among(
    alloc: Global,
    book: &Book,
    id: LabelId,
    other: &Book,
    those: &[LabelId],
) -> Result<Vec<LabelId>, AllocError>
    requires id { IsAssertionNumber book.now.statements id.0 }
    requires those { AreInOrder (IsAlone other.now.statements book.now.statements)
        (map (λ l. l.0) those.now) }
    ensures { IfOk result (λ ids. AreInOrder (λ n. Contains (map (λ l. l.0) those.now) n
        × AreAlike book.now.statements other.now.statements id.0 n)
        (map (λ l. l.0) ids.items)) }
{
    let mut alike = Vec::new(alloc);
    for one in those {
        if are_alike(book, id, other, *one) {
            alike.push(*one)?;
        }
    }
    Ok(alike)
}

/// The one of these assertions of another database that alone says the same as an assertion.
fn only_alike(
    alloc: Global,
    book: &Book,
    id: LabelId,
    other: &Book,
    those: &[LabelId],
) -> Result<Option<LabelId>, AllocError>
    requires id { IsAssertionNumber book.now.statements id.0 }
    requires those { AreInOrder (IsAlone other.now.statements book.now.statements)
        (map (λ l. l.0) those.now) }
    ensures some { IfOk result (λ found. IfSome found (λ n.
        IsOnlyAlike book.now.statements other.now.statements id.0 n.0)) }
    ensures none { IfOk result (λ found. found ≡ None → (n : ℕ)
        → ¬ (IsOnlyAlike book.now.statements other.now.statements id.0 n)) }
{
    let alike = alike_among(alloc, book, id, other, those)?;
    if alike.len() == 1 {
        Ok(Some(alike[0]))
    } else {
        Ok(None)
    }
}

/// Whether two numbers are the same.
pub(crate) fn is_same(id: LabelId, other: LabelId) -> bool
    ensures { IsTrue result ↔ (id.0 ≡ other.0) }
{
    id == other
}

/// The assertion of another database that is this one under another label. The others of each are
/// those whose labels the other database lacks.
fn renamed_as(
    alloc: Global,
    book: &Book,
    alone: &[LabelId],
    id: LabelId,
    other: &Book,
    others: &[LabelId],
) -> Result<Option<LabelId>, AllocError>
    requires alone { AreInOrder (IsAlone book.now.statements other.now.statements)
        (map (λ l. l.0) alone.now) }
    requires id { IsAssertionNumber book.now.statements id.0 }
    requires others { AreInOrder (IsAlone other.now.statements book.now.statements)
        (map (λ l. l.0) others.now) }
    ensures some { IfOk result (λ found. IfSome found (λ n.
        IsRenamed book.now.statements other.now.statements id.0 n.0)) }
    ensures none { IfOk result (λ found. found ≡ None → (n : ℕ)
        → ¬ (IsRenamed book.now.statements other.now.statements id.0 n)) }
{
    let Some(named) = only_alike(alloc, book, id, other, others)? else {
        return Ok(None);
    };
    let Some(back) = only_alike(alloc, other, named, book, alone)? else {
        return Ok(None);
    };
    if is_same(back, id) {
        Ok(Some(named))
    } else {
        Ok(None)
    }
}

/// Of the assertions whose labels the other database lacks those that stand there under no other
/// label.
pub(crate) fn those_missing(
    alloc: Global,
    book: &Book,
    alone: &[LabelId],
    other: &Book,
    others: &[LabelId],
) -> Result<Vec<LabelId>, AllocError>
    requires alone { AreInOrder (IsAlone book.now.statements other.now.statements)
        (map (λ l. l.0) alone.now) }
    requires others { AreInOrder (IsAlone other.now.statements book.now.statements)
        (map (λ l. l.0) others.now) }
    ensures { IfOk result (λ ids. AreInOrder
        (IsMissing book.now.statements other.now.statements) (map (λ l. l.0) ids.items)) }
{
    let mut missing = Vec::new(alloc);
    for id in alone {
        let named = renamed_as(alloc, book, alone, *id, other, others)?;
        if named.is_none() {
            missing.push(*id)?;
        }
    }
    Ok(missing)
}

/// The assertions that have other labels in another database, in their order.
pub(crate) fn those_renamed(
    alloc: Global,
    book: &Book,
    alone: &[LabelId],
    other: &Book,
    others: &[LabelId],
) -> Result<Vec<Renaming>, AllocError>
    requires alone { AreInOrder (IsAlone book.now.statements other.now.statements)
        (map (λ l. l.0) alone.now) }
    requires others { AreInOrder (IsAlone other.now.statements book.now.statements)
        (map (λ l. l.0) others.now) }
    ensures { IfOk result (λ those. AreRenamed other.now.statements book.now.statements
        (map plain_renaming those.items)) }
{
    let mut those = Vec::new(alloc);
    for id in alone {
        if let Some(named) = renamed_as(alloc, book, alone, *id, other, others)? {
            those.push(Renaming {
                other: named,
                id: *id,
            })?;
        }
    }
    Ok(those)
}
