//! The lines of `mm axioms --all`: what each theorem depends on.

ghost use Rattle.std.specs.Prelude.{◌≡◌, ◌<◌, ◌++◌, ◌∷◌, [], List, ℕ, map, length, OnOk, IfOk};
ghost use Rattle.std.specs.Prelude.{IfSome, None, Some, Contains, codes, slice_get};
ghost use Rattle.std.specs.List.{AllByRecursion, flat_map};
ghost use Rattle.mm_base.specs.declared.statement.Kind.TheVariants.{Provable};
ghost use Rattle.mm_base.specs.Statement.{PlainStatement};
ghost use Rattle.mm_text.specs.Reading.{Reads};
ghost use Rattle.mm_frame.specs.Numbers.{labelled_sentences};
ghost use Rattle.mm_axioms.specs.AllAxioms.{ReportLine, AreReportLines, unproved_line, proved_line};
ghost use Rattle.mm_rules.specs.Answer.{labels_at, KeepsLabels};
ghost use Rattle.mm_axioms.specs.Reply.{lines_text};
ghost use Rattle.mm_axioms.specs.Essential.{AreTold};
ghost use Rattle.mm_axioms.specs.Mirror.Codes.{AreNumbersWithin};
ghost use Rattle.mm_axioms.specs.Mirror.Tables.{AreTables, IsOfKind, IsToldAt, AreLinesOf};
ghost use Rattle.mm_axioms.specs.Mirror.Tables.{line_of_report};

use crate::asked_axioms::{report_at, tables, theorems_in};
use crate::essential::of_type;
use crate::report::{Report, Tables};
use mm_frame::{Book, LabelId};
use mm_rules::push_word;
use mm_verdict::Checked;
use std::alloc::{AllocError, Global};

/// A space, a mark and the label, for each of these numbers.
pub fn push_marked(
    out: &mut Vec<u8>,
    checked: &Checked,
    mark: &[u8],
    numbers: &[LabelId],
) -> Result<(), AllocError>
    requires { AllByRecursion (λ n. n < length checked.now.labels) (map (λ id. id.0) numbers.now) }
    ensures { OnOk result (out.new.items ≡ out.old.items
        ++ flat_map (λ label. codes " " ++ (mark.now ++ label))
        (labels_at checked.now.labels (map (λ id. id.0) numbers.now))) }
{
    for number in numbers {
        push_word(out, mark)?;
        out.extend_from_slice(checked.name(*number))?;
    }
    Ok(())
}

/// The line of a theorem with a label, whose proof is incomplete.
#[tactic(auto, using(crate::proofs::Resting::AllReports::unproved_text))]
fn push_unproved(out: &mut Vec<u8>, label: &[u8]) -> Result<(), AllocError>
    ensures { OnOk result (out.new.items ≡ out.old.items
        ++ lines_text (unproved_line label.now ∷ [])) }
{
    out.push(b'?')?;
    push_word(out, label)?;
    out.push(b'\n')?;
    Ok(())
}

/// The line of a theorem with a label, for which this is the report.
#[tactic(auto, using(crate::proofs::Resting::AllReports::proved_text))]
fn push_proved(
    out: &mut Vec<u8>,
    checked: &Checked,
    label: &[u8],
    report: &Report,
) -> Result<(), AllocError>
    requires axioms { AllByRecursion (λ n. n < length checked.now.labels)
        (map (λ id. id.0) report.now.axioms.items) }
    requires unproved { AllByRecursion (λ n. n < length checked.now.labels)
        (map (λ id. id.0) report.now.unproved.items) }
    ensures { OnOk result (out.new.items ≡ out.old.items
        ++ lines_text (proved_line checked.now.labels label.now
        (map (λ id. id.0) report.now.axioms.items)
        (map (λ id. id.0) report.now.unproved.items) ∷ [])) }
{
    out.extend_from_slice(label)?;
    push_marked(out, checked, b"", &report.axioms)?;
    push_marked(out, checked, b"?", &report.unproved)?;
    out.push(b'\n')?;
    Ok(())
}

/// The line of a theorem with a label: that of an unproved one where there is no report.
fn push_report(
    out: &mut Vec<u8>,
    checked: &Checked,
    label: &[u8],
    told: &Option<Report>,
) -> Result<(), AllocError>
    requires { IfSome told.now (λ report.
        AllByRecursion (λ n. n < length checked.now.labels) (map (λ id. id.0) report.axioms.items)
        × AllByRecursion (λ n. n < length checked.now.labels)
        (map (λ id. id.0) report.unproved.items)) }
    ensures { OnOk result (out.new.items ≡ out.old.items
        ++ lines_text (line_of_report checked.now.labels label.now told.now ∷ [])) }
{
    match told {
        None => push_unproved(out, label),
        Some(report) => push_proved(out, checked, label, report),
    }
}

/// What is told of a theorem's report: of its axioms all, or, if `essential`, those alone that have
/// the type code of the theorem.
fn chosen_report(
    alloc: Global,
    book: &Book,
    theorem: LabelId,
    report: Report,
    essential: bool,
) -> Result<Report, AllocError>
    requires theorem { theorem.0 < length (labelled_sentences book.now.statements) }
    requires axioms { AreNumbersWithin (length (labelled_sentences book.now.statements))
        (map (λ id. id.0) report.axioms.items) }
    ensures axioms { IfOk result (λ chosen. AreTold essential book.now.statements theorem.0
        (map (λ id. id.0) report.axioms.items) (map (λ id. id.0) chosen.axioms.items)) }
    ensures unproved { IfOk result (λ chosen.
        chosen.unproved.items ≡ report.unproved.items) }
{
    if !essential {
        return Ok(report);
    }
    let Report { axioms, unproved } = report;
    let axioms = of_type(alloc, book, theorem, &axioms)?;
    Ok(Report { axioms, unproved })
}

/// What is told of a theorem; nothing where its proof is incomplete.
fn told_at(
    alloc: Global,
    checked: &Checked,
    tables: &Tables,
    theorem: LabelId,
    essential: bool,
) -> Result<Option<Report>, AllocError>
    requires tables { AreTables checked.now.sentences checked.now.incomplete checked.now.uses
        tables.now }
    requires theorem { IsOfKind checked.now.sentences Provable theorem.0 }
    requires label { theorem.0 < length checked.now.labels }
    ensures report { IfOk result (λ told. (statements : List PlainStatement)
        → Reads checked.now.files statements None → (label : List ℕ)
        → slice_get checked.now.labels theorem.0 ≡ Some label
        → IsToldAt essential statements label theorem.0 told) }
    ensures in_range { IfOk result (λ told. IfSome told (λ report.
        AllByRecursion (λ n. n < length checked.now.labels) (map (λ id. id.0) report.axioms.items)
        × AllByRecursion (λ n. n < length checked.now.labels)
        (map (λ id. id.0) report.unproved.items))) }
{
    let Some(report) = report_at(alloc, checked, tables, theorem)? else {
        return Ok(None);
    };
    let chosen = chosen_report(alloc, &checked.book, theorem, report, essential)?;
    Ok(Some(chosen))
}

/// The lines of these theorems.
fn lines_of(
    alloc: Global,
    checked: &Checked,
    tables: &Tables,
    theorems: &[LabelId],
    essential: bool,
) -> Result<Vec<u8>, AllocError>
    requires labels { KeepsLabels checked.now.files checked.now }
    requires tables { AreTables checked.now.sentences checked.now.incomplete checked.now.uses
        tables.now }
    requires kinds { (n : ℕ) → Contains (map (λ id. id.0) theorems.now) n
        → IsOfKind checked.now.sentences Provable n }
    requires in_range { AllByRecursion (λ n. n < length checked.now.labels)
        (map (λ id. id.0) theorems.now) }
    ensures { IfOk result (λ text. (statements : List PlainStatement)
        → Reads checked.now.files statements None
        → AreLinesOf essential statements (map (λ id. id.0) theorems.now) text.items) }
{
    let mut out = Vec::new(alloc);
    for theorem in theorems {
        let told = told_at(alloc, checked, tables, *theorem, essential)?;
        push_report(&mut out, checked, checked.name(*theorem), &told)?;
    }
    Ok(out)
}

/// A line for each theorem, in database order: its label, and those of the axioms that it rests
/// on, and then of the unproved theorems, each of these after a question mark. If `essential`, of the
/// axioms those alone that have the type code of the theorem: the first symbol of its statement. For
/// a theorem whose proof is incomplete it has a question mark and the label.
///
/// # Errors
///
/// Where a growth was refused.
pub fn all_axioms_text(
    alloc: Global,
    checked: &Checked,
    essential: bool,
) -> Result<Vec<u8>, AllocError>
    requires { KeepsLabels checked.now.files checked.now }
    ensures { IfOk result (λ text. (statements : List PlainStatement)
        → Reads checked.now.files statements None
        → (lines : List ReportLine) × AreReportLines essential statements lines
        × (text.items ≡ lines_text lines)) }
{
    let tables = tables(alloc, checked)?;
    let theorems = theorems_in(alloc, checked)?;
    lines_of(alloc, checked, &tables, &theorems, essential)
}
