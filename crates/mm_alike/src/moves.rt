//! Moves of proofs of two books, compared by the names of labels.

ghost use Rattle.std.specs.Prelude.{◌≡◌, ◌↔◌, IsTrue};
ghost use Rattle.mm_frame.specs.Numbers.{IsAssertionNumber, IsLabelNumber};
ghost use Rattle.mm_step.specs.Plain.{ids_in};
ghost use Rattle.mm_proof.specs.Mirror.CodeSteps.{code_move, moves_of};
ghost use Rattle.mm_alike.specs.Mirror.Steps.{AreSameEntries, AreSameMoves, HasWidth, HaveOneLabel};
ghost use Rattle.mm_alike.specs.Mirror.Steps.{HaveOneWidth, IsSameMove, IsSameStep, said_move};

use mm_code::Code;
use mm_frame::{Book, LabelId, LabelKind};

/// What a code says.
#[derive(Clone, Copy)]
pub(crate) enum Said {
    /// A step by the label with this number.
    Label(LabelId),
    /// A step by a tag, which has this number among tags, from 0.
    Again(usize),
    /// A mark.
    Mark,
}

/// What a code says, whose first numbers stand for these entries.
fn said_by(entries: &[LabelId], code: Code) -> Said
    ensures { said_move result ≡ code_move (ids_in entries.now) code }
{
    match code {
        Code::Number(number) => {
            let index = number.saturating_sub(1) as usize;
            match entries.get(index) {
                Some(id) => Said::Label(*id),
                None => Said::Again(index - entries.len()),
            }
        }
        Code::Tag => Said::Mark,
    }
}

/// How many mandatory hypotheses an assertion has.
fn hypothesis_count(book: &Book, id: LabelId) -> usize
    requires { IsAssertionNumber book.now.statements id.0 }
    ensures { HasWidth book.now.statements id.0 result }
{
    book.frame(id).hypotheses().len()
}

/// Over how many trees a label stands.
fn width(book: &Book, id: LabelId) -> usize
    requires { IsLabelNumber book.now.statements id.0 }
    ensures { HasWidth book.now.statements id.0 result }
{
    match book.kind(id) {
        LabelKind::Axiom => hypothesis_count(book, id),
        LabelKind::Proof => hypothesis_count(book, id),
        LabelKind::Floating => 0,
        LabelKind::Essential => 0,
    }
}

/// Whether two numbers of labels are those of one label.
fn have_one_label(old: &Book, one: LabelId, new: &Book, other: LabelId) -> bool
    requires one { IsLabelNumber old.now.statements one.0 }
    requires other { IsLabelNumber new.now.statements other.0 }
    ensures { IsTrue result ↔ HaveOneLabel old.now.statements new.now.statements one.0 other.0 }
{
    old.label(one) == new.label(other)
}

/// Whether two numbers of labels are those of labels that stand over as many trees.
pub(crate) fn have_one_width(old: &Book, one: LabelId, new: &Book, other: LabelId) -> bool
    requires one { IsLabelNumber old.now.statements one.0 }
    requires other { IsLabelNumber new.now.statements other.0 }
    ensures { IsTrue result ↔ HaveOneWidth old.now.statements new.now.statements one.0 other.0 }
{
    width(old, one) == width(new, other)
}

/// Whether two numbers are those of one label, which stands over as many trees in both books.
pub(crate) fn is_same_step(old: &Book, one: LabelId, new: &Book, other: LabelId) -> bool
    ensures { IsTrue result ↔ IsSameStep old.now.statements new.now.statements one.0 other.0 }
{
    if !old.is_label(one) {
        return false;
    }
    if !new.is_label(other) {
        return false;
    }
    if have_one_label(old, one, new, other) {
        have_one_width(old, one, new, other)
    } else {
        false
    }
}

/// Whether two moves are one.
fn is_same_move(old: &Book, one: Said, new: &Book, other: Said) -> bool
    ensures { IsTrue result ↔ IsSameMove old.now.statements new.now.statements (said_move one)
        (said_move other) }
{
    match one {
        Said::Label(id) => match other {
            Said::Label(named) => is_same_step(old, id, new, named),
            Said::Again(_) => false,
            Said::Mark => false,
        },
        Said::Again(tag) => match other {
            Said::Label(_) => false,
            Said::Again(again) => tag == again,
            Said::Mark => false,
        },
        Said::Mark => match other {
            Said::Label(_) => false,
            Said::Again(_) => false,
            Said::Mark => true,
        },
    }
}

/// Whether two codes, whose first numbers stand for these entries, say one move.
fn say_one_move(
    old: &Book,
    entries: &[LabelId],
    code: Code,
    new: &Book,
    others: &[LabelId],
    other_code: Code,
) -> bool
    ensures { IsTrue result ↔ IsSameMove old.now.statements new.now.statements
        (code_move (ids_in entries.now) code) (code_move (ids_in others.now) other_code) }
{
    is_same_move(
        old,
        said_by(entries, code),
        new,
        said_by(others, other_code),
    )
}

/// Whether the codes of two proofs, whose first numbers stand for these entries, say the same
/// moves.
pub(crate) fn say_same_moves(
    old: &Book,
    entries: &[LabelId],
    codes: &[Code],
    new: &Book,
    others: &[LabelId],
    other_codes: &[Code],
) -> bool
    ensures { IsTrue result ↔ AreSameMoves old.now.statements new.now.statements
        (moves_of entries.now codes.now) (moves_of others.now other_codes.now) }
{
    if codes.len() != other_codes.len() {
        return false;
    }
    for at in 0..codes.len() {
        if !say_one_move(old, entries, codes[at], new, others, other_codes[at]) {
            return false;
        }
    }
    true
}

/// Whether the entries of two proofs are the same labels.
fn are_same_entries(old: &Book, entries: &[LabelId], new: &Book, others: &[LabelId]) -> bool
    ensures { IsTrue result
        → AreSameEntries old.now.statements new.now.statements entries.now others.now }
{
    if entries.len() != others.len() {
        return false;
    }
    for at in 0..entries.len() {
        if !is_same_step(old, entries[at], new, others[at]) {
            return false;
        }
    }
    true
}

/// Whether two codes are one.
fn is_same_code(code: Code, other: Code) -> bool
    ensures { IsTrue result ↔ (code ≡ other) }
{
    code == other
}

/// Whether two lists of codes are one.
fn are_same_codes(codes: &[Code], others: &[Code]) -> bool
    ensures { IsTrue result → codes.now ≡ others.now }
{
    if codes.len() != others.len() {
        return false;
    }
    for at in 0..codes.len() {
        if !is_same_code(codes[at], others[at]) {
            return false;
        }
    }
    true
}

/// Whether two proofs have the same entries and codes: so have most, and then they say the same
/// moves. Others may too.
pub(crate) fn are_written_alike(
    old: &Book,
    entries: &[LabelId],
    codes: &[Code],
    new: &Book,
    others: &[LabelId],
    other_codes: &[Code],
) -> bool
    ensures { IsTrue result → AreSameMoves old.now.statements new.now.statements
        (moves_of entries.now codes.now) (moves_of others.now other_codes.now) }
{
    if are_same_codes(codes, other_codes) {
        are_same_entries(old, entries, new, others)
    } else {
        false
    }
}
