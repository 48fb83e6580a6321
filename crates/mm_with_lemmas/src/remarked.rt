//! Whether what comments and mathboxes say of the statements that were there they say still.

ghost use Rattle.std.specs.Prelude.{◌≡◌, List, None, IfOk, IsTrue};
ghost use Rattle.mm_base.specs.Statement.{PlainStatement};
ghost use Rattle.mm_text.specs.Reading.{Reads};
ghost use Rattle.mm_minimize.specs.Remarks.{AreRemarks};
ghost use Rattle.mm_with_lemmas.specs.WithLemmas.{AreRemarksKept};
ghost use Rattle.mm_with_lemmas.specs.Mirror.Remarking.{AreAlike, AreAllKept, HasAlike};
ghost use Rattle.mm_with_lemmas.specs.Mirror.Remarking.{IsRemarkKept};

use crate::founded::former_of;
use mm_frame::{Book, LabelId};
use mm_minimize::{Remark, remarks_of};
use mm_verdict::Checked;
use std::alloc::{AllocError, Global};

/// Whether two remarks say the same.
fn are_alike(own: &Remark, other: &Remark) -> bool
    ensures { IsTrue result → AreAlike own.now other.now }
{
    if own.is_discouraged != other.is_discouraged || own.is_settled != other.is_settled {
        return false;
    }
    own.mathbox == other.mathbox
}

/// Whether the remark with the number says the same as another one.
fn has_alike(remarks: &[Remark], id: LabelId, other: &Remark) -> bool
    ensures { IsTrue result → HasAlike remarks.now id.0 other.now }
{
    match remarks.get(id.0 as usize) {
        Some(own) => are_alike(own, other),
        None => false,
    }
}

/// Whether this remark, of the labelled statement of the new book with the number, says what that
/// of the old one with its label says, or that wasn't there.
fn is_remark_kept(old: &Book, new: &Book, remarks: &[Remark], id: LabelId, other: &Remark) -> bool
    ensures { IsTrue result
        → IsRemarkKept old.now.statements new.now.statements remarks.now id.0 other.now }
{
    match former_of(old, new, id) {
        Some(former) => has_alike(remarks, former, other),
        None => true,
    }
}

/// Whether that is so of each of the others, which are of the labelled statements of the new book,
/// by number.
fn are_all_kept(old: &Book, new: &Book, remarks: &[Remark], others: &[Remark]) -> bool
    ensures { IsTrue result
        → AreAllKept old.now.statements new.now.statements remarks.now others.now }
{
    for number in 0..u32::MAX {
        let id = LabelId(number);
        let Some(other) = others.get(number as usize) else {
            return true;
        };
        if !is_remark_kept(old, new, remarks, id, other) {
            return false;
        }
    }
    // No book has so many labels.
    false
}

/// Whether the marks before each labelled statement that was there, and its mathbox, are what they
/// were. The remarks are those of the new database.
///
/// # Errors
///
/// Only where a growth was refused.
pub(crate) fn are_remarks_kept(
    alloc: Global,
    old: &Checked,
    new: &Checked,
    remarks: &[Remark],
) -> Result<bool, AllocError>
    requires { AreRemarks new.now.files remarks.now }
    ensures { IfOk result (λ are. IsTrue are → (statements others : List PlainStatement)
        → Reads old.now.files statements None → Reads new.now.files others None
        → AreRemarksKept old.now.files new.now.files statements others) }
{
    let _files = old.files;
    let _new_files = new.files;
    let old_remarks = remarks_of(alloc, old)?;
    let are = are_all_kept(&old.book, &new.book, &old_remarks, remarks);
    drop(old_remarks);
    Ok(are)
}
