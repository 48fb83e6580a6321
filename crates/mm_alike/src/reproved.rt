//! The theorems whose proofs spell another tree than those of another database.

ghost use Rattle.std.specs.Prelude.{◌≡◌, ◌↔◌, ℕ, map, None, IfOk, IfSome, IsTrue};
ghost use Rattle.mm_frame.specs.Numbers.{IsLabelNumber};
ghost use Rattle.mm_alike.specs.Mirror.Databases.{AreReproved, IsAlikeNamed, IsComplete, IsTheorem};
ghost use Rattle.mm_alike.specs.Mirror.Databases.{TellsOneProof, TellsReproved};
ghost use Rattle.mm_alike.specs.Mirror.Steps.{KeepWidths};

use crate::alike::are_alike;
use crate::database::theorem_at;
use crate::differences::assertion_named;
use crate::homes::Home;
use crate::trees::make_one_tree;
use crate::widths::keep_widths;
use crate::written::have_same_text;
use mm_frame::{Book, LabelId, LabelKind};
use mm_verdict::Checked;
use std::alloc::{AllocError, Global};

/// Whether the proofs of two theorems of two databases spell one tree.
fn spell_one_tree(
    alloc: Global,
    one: LabelId,
    checked: &Checked,
    homes: &[Home],
    other: LabelId,
    other_checked: &Checked,
    other_homes: &[Home],
) -> Result<bool, AllocError>
    requires complete { IsComplete checked.now homes.now }
    requires theorem { IsTheorem checked.now.sentences one.0 }
    requires other_complete { IsComplete other_checked.now other_homes.now }
    requires other_theorem { IsTheorem other_checked.now.sentences other.0 }
    ensures { IfOk result (TellsOneProof checked.now other_checked.now one.0 other.0) }
{
    let theorem = theorem_at(alloc, checked, homes, one)?;
    let other_theorem = theorem_at(alloc, other_checked, other_homes, other)?;
    make_one_tree(
        alloc,
        &checked.book,
        theorem.id,
        &theorem.steps,
        &other_checked.book,
        other_theorem.id,
        &other_theorem.steps,
    )
}

/// Whether a labelled statement is a theorem.
pub fn is_theorem(book: &Book, id: LabelId) -> bool
    requires { IsLabelNumber book.now.statements id.0 }
    ensures { IsTrue result ↔ IsTheorem book.now.statements id.0 }
{
    match book.kind(id) {
        LabelKind::Axiom => false,
        LabelKind::Proof => true,
        LabelKind::Floating => false,
        LabelKind::Essential => false,
    }
}

/// The number of the assertion of another database that has the label of a theorem and says the
/// same.
fn alike_named(book: &Book, id: LabelId, other: &Book) -> Option<LabelId>
    requires { IsTheorem book.now.statements id.0 }
    ensures some { IfSome result (λ n.
        IsAlikeNamed book.now.statements other.now.statements id.0 n.0) }
    ensures none { result ≡ None → (n : ℕ)
        → ¬ (IsAlikeNamed book.now.statements other.now.statements id.0 n) }
{
    match assertion_named(other, book.label(id)) {
        Some(named) => {
            if are_alike(book, id, other, named) {
                Some(named)
            } else {
                None
            }
        }
        None => None,
    }
}

/// Whether a labelled statement is a theorem whose proof spells another tree than that of the
/// theorem of another database that has its label and says the same.
fn is_reproved(
    alloc: Global,
    checked: &Checked,
    homes: &[Home],
    id: LabelId,
    other_checked: &Checked,
    other_homes: &[Home],
    keeps_widths: bool,
) -> Result<bool, AllocError>
    requires complete { IsComplete checked.now homes.now }
    requires label { IsLabelNumber checked.now.sentences id.0 }
    requires other_complete { IsComplete other_checked.now other_homes.now }
    requires widths { IsTrue keeps_widths
        → KeepWidths checked.now.sentences other_checked.now.sentences }
    ensures { IfOk result (TellsReproved checked.now other_checked.now id.0) }
{
    if !is_theorem(&checked.book, id) {
        return Ok(false);
    }
    match alike_named(&checked.book, id, &other_checked.book) {
        Some(named) => {
            if keeps_widths {
                if have_same_text(checked, homes, id, other_checked, other_homes, named) {
                    return Ok(false);
                }
            }
            let same = spell_one_tree(
                alloc,
                id,
                checked,
                homes,
                named,
                other_checked,
                other_homes,
            )?;
            Ok(!same)
        }
        None => Ok(false),
    }
}

/// The numbers of the theorems whose proofs spell another tree than those of the theorems of
/// another database that have their labels and say the same, in their order.
pub fn those_reproved(
    alloc: Global,
    checked: &Checked,
    homes: &[Home],
    other_checked: &Checked,
    other_homes: &[Home],
) -> Result<Vec<LabelId>, AllocError>
    requires complete { IsComplete checked.now homes.now }
    requires other_complete { IsComplete other_checked.now other_homes.now }
    ensures { IfOk result (λ ids. AreReproved checked.now other_checked.now
        (map (λ l. l.0) ids.items)) }
{
    let keeps_widths = keep_widths(&checked.book, &other_checked.book);
    let mut those = Vec::new(alloc);
    for number in 0..u32::MAX {
        let id = LabelId(number);
        if !checked.book.is_label(id) {
            break;
        }
        if is_reproved(
            alloc,
            checked,
            homes,
            id,
            other_checked,
            other_homes,
            keeps_widths,
        )? {
            those.push(id)?;
        }
    }
    Ok(those)
}
