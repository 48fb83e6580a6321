//! The lines that tell what changed.

ghost use Rattle.std.specs.Prelude.{◌≡◌, ◌<◌, ◌++◌, ◌∷◌, [], map, length, slice_get, IfOk, OnOk, Some};
ghost use Rattle.std.specs.List.{AllByRecursion};
ghost use Rattle.mm_rules.specs.Answer.{labels_at};
ghost use Rattle.mm_rules.specs.Conclusion.{labels_in};
ghost use Rattle.mm_diff.specs.Diff.{axiom_lines, changes_text as changes_text_of, letter_lines};
ghost use Rattle.mm_diff.specs.Diff.{renamed_lines, sums_line};
ghost use Rattle.mm_diff.specs.Mirror.Changes.{AreNumbersOf, AreWithin, plain_changes};
ghost use Rattle.mm_diff.specs.Mirror.Changes.{plain_dependence, plain_renaming, spaced_labels};
ghost use Rattle.mm_diff.specs.Mirror.Changes.{sum_words};

use crate::changes::Changes;
use crate::depends::Dependence;
use crate::renamed::Renaming;
use mm_frame::{Book, LabelId};
use mm_rules::{push_number, push_word};
use std::alloc::{AllocError, Global};

/// The label with this number.
fn name_of<'a>(book: &Book<'a>, number: LabelId) -> &'a [u8]
    requires { number.0 < length (labels_in book.now.statements) }
    ensures { slice_get (labels_in book.now.statements) number.0 ≡ Some result.now }
{
    book.label(number)
}

/// A line for the label with this number, a letter before it.
fn push_lettered(
    out: &mut Vec<u8>,
    book: &Book,
    letter: &[u8],
    number: LabelId,
) -> Result<(), AllocError>
    requires { number.0 < length (labels_in book.now.statements) }
    ensures { OnOk result (out.new.items ≡ out.old.items
        ++ letter_lines letter.now (labels_at (labels_in book.now.statements) (number.0 ∷ []))) }
{
    out.extend_from_slice(letter)?;
    push_word(out, name_of(book, number))?;
    out.push(b'\n')?;
    Ok(())
}

/// A line for the label of each of these numbers, a letter before it.
#[tactic(auto, using(crate::proofs::DiffLines::one_more_line))]
fn push_letter_lines(
    out: &mut Vec<u8>,
    book: &Book,
    letter: &[u8],
    numbers: &[LabelId],
) -> Result<(), AllocError>
    requires { AllByRecursion (λ n. n < length (labels_in book.now.statements)) (map (λ id. id.0) numbers.now) }
    ensures { OnOk result (out.new.items ≡ out.old.items
        ++ letter_lines letter.now
        (labels_at (labels_in book.now.statements) (map (λ id. id.0) numbers.now))) }
{
    for number in numbers {
        push_lettered(out, book, letter, *number)?;
    }
    Ok(())
}

/// The line of an assertion that is renamed, with both labels.
fn push_renaming(
    out: &mut Vec<u8>,
    old: &Book,
    new: &Book,
    renaming: Renaming,
) -> Result<(), AllocError>
    requires old { renaming.other.0 < length (labels_in old.now.statements) }
    requires new { renaming.id.0 < length (labels_in new.now.statements) }
    ensures { OnOk result (out.new.items ≡ out.old.items
        ++ renamed_lines (labels_in old.now.statements) (labels_in new.now.statements)
        (plain_renaming renaming ∷ [])) }
{
    out.push(b'R')?;
    push_word(out, name_of(old, renaming.other))?;
    push_word(out, name_of(new, renaming.id))?;
    out.push(b'\n')?;
    Ok(())
}

/// A line for each assertion that is renamed.
#[tactic(auto, using(crate::proofs::DiffLines::one_more_renamed))]
fn push_renamed_lines(
    out: &mut Vec<u8>,
    old: &Book,
    new: &Book,
    renamed: &[Renaming],
) -> Result<(), AllocError>
    requires { AllByRecursion (λ p. (p.0 < length (labels_in old.now.statements))
        × (p.1 < length (labels_in new.now.statements))) (map plain_renaming renamed.now) }
    ensures { OnOk result (out.new.items ≡ out.old.items
        ++ renamed_lines (labels_in old.now.statements) (labels_in new.now.statements)
        (map plain_renaming renamed.now)) }
{
    for renaming in renamed {
        push_renaming(out, old, new, *renaming)?;
    }
    Ok(())
}

/// A space, and the label with this number.
fn push_label(out: &mut Vec<u8>, book: &Book, number: LabelId) -> Result<(), AllocError>
    requires { number.0 < length (labels_in book.now.statements) }
    ensures { OnOk result (out.new.items ≡ out.old.items
        ++ spaced_labels (labels_at (labels_in book.now.statements) (number.0 ∷ []))) }
{
    push_word(out, name_of(book, number))?;
    Ok(())
}

/// A space and the label, for each of these numbers.
#[tactic(auto, using(crate::proofs::DiffLines::one_more_label))]
fn push_labels(out: &mut Vec<u8>, book: &Book, numbers: &[LabelId]) -> Result<(), AllocError>
    requires { AllByRecursion (λ n. n < length (labels_in book.now.statements)) (map (λ id. id.0) numbers.now) }
    ensures { OnOk result (out.new.items ≡ out.old.items
        ++ spaced_labels (labels_at (labels_in book.now.statements) (map (λ id. id.0) numbers.now))) }
{
    for number in numbers {
        push_label(out, book, *number)?;
    }
    Ok(())
}

/// The line of a theorem of the new version, a letter before it, with axioms of a version.
fn push_dependence_line<'a>(
    out: &mut Vec<u8>,
    letter: &[u8],
    new: &Book<'a>,
    version: &Book<'a>,
    told: &Dependence,
) -> Result<(), AllocError>
    requires { AreNumbersOf (labels_in new.now.statements) (labels_in version.now.statements)
        (plain_dependence told.now) }
    ensures { OnOk result (out.new.items ≡ out.old.items
        ++ axiom_lines letter.now (labels_in new.now.statements) (labels_in version.now.statements)
        (plain_dependence told.now ∷ [])) }
{
    out.extend_from_slice(letter)?;
    push_word(out, name_of(new, told.theorem))?;
    push_labels(out, version, &told.axioms)?;
    out.push(b'\n')?;
    Ok(())
}

/// A line for each theorem of the new version that depends on axioms in one version alone.
#[tactic(auto, using(crate::proofs::DiffLines::one_more_dependence))]
fn push_dependence_lines<'a>(
    out: &mut Vec<u8>,
    letter: &[u8],
    new: &Book<'a>,
    version: &Book<'a>,
    told: &[Dependence],
) -> Result<(), AllocError>
    requires { AllByRecursion (AreNumbersOf (labels_in new.now.statements)
        (labels_in version.now.statements)) (map plain_dependence told.now) }
    ensures { OnOk result (out.new.items ≡ out.old.items
        ++ axiom_lines letter.now (labels_in new.now.statements) (labels_in version.now.statements)
        (map plain_dependence told.now)) }
{
    for one in told {
        push_dependence_line(out, letter, new, version, one)?;
    }
    Ok(())
}

/// A number, and a word behind it.
fn push_sum(out: &mut Vec<u8>, count: usize, word: &[u8]) -> Result<(), AllocError>
    ensures { OnOk result (out.new.items ≡ out.old.items ++ sum_words count word.now) }
{
    push_number(out, count)?;
    push_word(out, word)?;
    Ok(())
}

/// The line with the sums.
fn push_sums(out: &mut Vec<u8>, changes: &Changes) -> Result<(), AllocError>
    ensures { OnOk result (out.new.items
        ≡ out.old.items ++ sums_line (plain_changes changes.now)) }
{
    out.extend_from_slice(b"differ")?;
    push_sum(out, changes.gone.len(), b"gone")?;
    push_sum(out, changes.added.len(), b"added")?;
    push_sum(out, changes.changed.len(), b"changed")?;
    push_sum(out, changes.reproved.len(), b"reproved")?;
    push_sum(out, changes.renamed.len(), b"renamed")?;
    push_sum(out, changes.moved.len(), b"moved")?;
    push_sum(out, changes.further.len(), b"further")?;
    push_sum(out, changes.less.len(), b"less")?;
    out.push(b'\n')?;
    Ok(())
}

/// What is told of what changed.
pub(crate) fn changes_text<'a>(
    alloc: Global,
    old: &Book<'a>,
    new: &Book<'a>,
    changes: &Changes,
) -> Result<Vec<u8>, AllocError>
    requires { AreWithin (labels_in old.now.statements) (labels_in new.now.statements)
        (plain_changes changes.now) }
    ensures { IfOk result (λ text. text.items
        ≡ changes_text_of (labels_in old.now.statements) (labels_in new.now.statements)
        (plain_changes changes.now)) }
{
    let mut out = Vec::new(alloc);
    push_letter_lines(&mut out, old, b"G", &changes.gone)?;
    push_letter_lines(&mut out, new, b"A", &changes.added)?;
    push_letter_lines(&mut out, new, b"C", &changes.changed)?;
    push_letter_lines(&mut out, new, b"P", &changes.reproved)?;
    push_renamed_lines(&mut out, old, new, &changes.renamed)?;
    push_letter_lines(&mut out, new, b"M", &changes.moved)?;
    push_dependence_lines(&mut out, b"F", new, new, &changes.further)?;
    push_dependence_lines(&mut out, b"L", new, old, &changes.less)?;
    push_sums(&mut out, changes)?;
    Ok(out)
}
