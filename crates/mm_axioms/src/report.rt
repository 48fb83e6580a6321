//! What a theorem depends on.

ghost use Rattle.std.specs.Prelude.{◌≡◌, ◌↔◌, ◌⊎◌, ◌<◌, ◌≤◌, ℕ, map, length, slice_index_or};
ghost use Rattle.std.specs.Prelude.{Contains, true, false, IfOk, IsTrue, Some, List};
ghost use Rattle.mm_frame.specs.Numbers.{labelled_sentences};
ghost use Rattle.mm_frame.specs.Sentence.{Sentence};
ghost use Rattle.mm_rules.specs.Conclusion.{ProofUses};
ghost use Rattle.mm_rules.specs.Rests.{AreRising, AreInOrder, RestsOn};
ghost use Rattle.mm_rules.specs.Mirror.Marks.{IsMarked, UsedIn, AreBackward, IsAxiomNumber};
ghost use Rattle.mm_axioms.specs.Mirror.Shortening.{AreFounded};
ghost use Rattle.mm_axioms.specs.Mirror.Tables.{AreReached, IsOfKind, AreTables, IsReportIn};
ghost use Rattle.mm_frame.specs.Taken.{kind_behind};
ghost use Rattle.mm_base.specs.declared.statement.Kind.TheVariants.{Provable};

use crate::rows::{Rows, reached, rests_no_further, rows_of};
use mm_frame::{Book, LabelId, LabelKind};
use mm_rules::Kept;
use std::alloc::{AllocError, Global};

/// What a theorem depends on: its proof, and the proofs of the theorems that it uses, and so on.
#[derive(Debug, Drop)]
pub struct Report {
    /// The `$a`, in database order.
    pub axioms: Vec<LabelId>,
    /// The `$p` whose proofs are incomplete, in database order.
    pub unproved: Vec<LabelId>,
}

/// Whether a number is marked.
pub fn is_marked(marks: &[bool], id: LabelId) -> bool
    ensures { result ≡ slice_index_or marks.now id.0 false }
{
    match marks.get(id.0 as usize) {
        Some(mark) => *mark,
        None => false,
    }
}

/// Whether a number is a theorem's own, or marked.
pub(crate) fn is_reached(marks: &[bool], theorem: LabelId, id: LabelId) -> bool
    ensures { IsTrue result ↔ ((id.0 ≡ theorem.0) ⊎ IsMarked marks.now id.0) }
{
    id == theorem || is_marked(marks, id)
}

/// Marks these numbers.
fn mark(marks: &mut [bool], numbers: &[LabelId])
    requires { (n : ℕ) → Contains (map (λ l. l.0) numbers.now) n → n < length marks.old }
    ensures length { length marks.new ≡ length marks.old }
    ensures kept { (n : ℕ) → IsMarked marks.old n → IsMarked marks.new n }
    ensures marked { (n : ℕ) → Contains (map (λ l. l.0) numbers.now) n → IsMarked marks.new n }
    ensures only { (n : ℕ) → IsMarked marks.new n
        → IsMarked marks.old n ⊎ Contains (map (λ l. l.0) numbers.now) n }
{
    for number in numbers {
        marks[number.0 as usize] = true;
    }
}

/// Marks, among the numbers before a theorem, those of the assertions that it depends on.
///
/// Each proof uses earlier assertions alone. So once all proofs from the last one down to some
/// index were passed, it is settled for each number from there on whether it is marked.
pub fn reach(alloc: Global, kept: &Kept, theorem: LabelId) -> Result<Vec<bool>, AllocError>
    requires { AreBackward kept.now }
    ensures length { IfOk result (λ marks. length marks.items ≡ theorem.0) }
    ensures marks { IfOk result (λ marks. (n : ℕ)
        → IsMarked marks.items n ↔ RestsOn (UsedIn kept.now) theorem.0 n) }
{
    let mut marks = vec![in alloc; false; theorem.0 as usize]?;
    let count = kept.len();
    for step in 0..count {
        let at = count - 1 - step;
        let id = kept.proof(at);
        if is_reached(&marks, theorem, id) {
            mark(&mut marks, kept.used(at));
        }
    }
    Ok(marks)
}

/// Whether a number is marked and that of a `$a`.
fn is_marked_axiom(book: &Book, marks: &[bool], id: LabelId) -> bool
    requires { id.0 < length (labelled_sentences book.now.statements) }
    ensures { IsTrue result
        ↔ (IsAxiomNumber book.now.statements id.0 × IsMarked marks.now id.0) }
{
    match book.kind(id) {
        LabelKind::Axiom => is_marked(marks, id),
        _ => false,
    }
}

/// The marked numbers of `$a`, in their order. All marks are of numbers before the end.
pub(crate) fn axioms_among(
    alloc: Global,
    book: &Book,
    marks: &[bool],
    end: LabelId,
) -> Result<Vec<LabelId>, AllocError>
    requires marks { length marks.now ≡ end.0 }
    requires within { end.0 ≤ length (labelled_sentences book.now.statements) }
    ensures { IfOk result (λ ids. AreInOrder
        (λ n. IsAxiomNumber book.now.statements n × IsMarked marks.now n)
        (map (λ l. l.0) ids.items)) }
{
    let mut axioms = Vec::new(alloc);
    for number in 0..end.0 {
        let id = LabelId(number);
        if is_marked_axiom(book, marks, id) {
            axioms.push(id)?;
        }
    }
    Ok(axioms)
}

/// The marked ones of these numbers, in their order.
pub(crate) fn marked_among(
    alloc: Global,
    numbers: &[LabelId],
    marks: &[bool],
) -> Result<Vec<LabelId>, AllocError>
    requires { AreRising (map (λ l. l.0) numbers.now) }
    ensures { IfOk result (λ ids. AreInOrder
        (λ n. Contains (map (λ l. l.0) numbers.now) n × IsMarked marks.now n)
        (map (λ l. l.0) ids.items)) }
{
    let mut marked = Vec::new(alloc);
    for number in numbers {
        if is_marked(marks, *number) {
            marked.push(*number)?;
        }
    }
    Ok(marked)
}

/// Whether two kinds are the same.
fn is_same(kind: LabelKind, other: LabelKind) -> bool
    ensures { IsTrue result ↔ (kind ≡ other) }
{
    kind == other
}

/// The numbers of the statements of a kind, in database order.
fn numbers_of_kind(alloc: Global, book: &Book, kind: LabelKind) -> Result<Vec<LabelId>, AllocError>
    requires { length (labelled_sentences book.now.statements) < 4294967295 }
    ensures { IfOk result (λ ids.
        AreInOrder (IsOfKind book.now.statements (kind_behind kind)) (map (λ l. l.0) ids.items)) }
{
    let mut numbers = Vec::new(alloc);
    for number in 0..u32::MAX {
        let id = LabelId(number);
        if !book.is_label(id) {
            break;
        }
        if is_same(book.kind(id), kind) {
            numbers.push(id)?;
        }
    }
    Ok(numbers)
}

/// The `$p`, in database order.
pub fn theorems_of(alloc: Global, book: &Book) -> Result<Vec<LabelId>, AllocError>
    requires { length (labelled_sentences book.now.statements) < 4294967295 }
    ensures { IfOk result (λ ids.
        AreInOrder (IsOfKind book.now.statements Provable) (map (λ l. l.0) ids.items)) }
{
    numbers_of_kind(alloc, book, LabelKind::Proof)
}

/// What all theorems depend on.
#[derive(Drop)]
pub struct Tables {
    axioms: Vec<LabelId>,
    axiom_rows: Rows,
    unproved_rows: Rows,
}

/// The tables of a database with these incomplete proofs.
pub(crate) fn tables_of(
    alloc: Global,
    book: &Book,
    kept: &Kept,
    incomplete: &[LabelId],
) -> Result<Tables, AllocError>
    requires few { length (labelled_sentences book.now.statements) < 4294967295 }
    requires backward { AreBackward kept.now }
    requires rising { AreRising (map (λ l. l.0) incomplete.now) }
    ensures { IfOk result (λ tables. AreTables book.now.statements
        (map (λ l. l.0) incomplete.now) kept.now tables) }
{
    let axioms = numbers_of_kind(alloc, book, LabelKind::Axiom)?;
    let axiom_rows = rows_of(alloc, kept, &axioms)?;
    let unproved_rows = rows_of(alloc, kept, incomplete)?;
    Ok(Tables {
        axioms,
        axiom_rows,
        unproved_rows,
    })
}

/// The axioms that a theorem depends on, as the tables tell them.
pub(crate) fn axioms_in(
    alloc: Global,
    tables: &Tables,
    theorem: LabelId,
) -> Result<Vec<LabelId>, AllocError>
    requires { AreRising (map (λ l. l.0) tables.now.axioms.items) }
    ensures { IfOk result (λ ids. AreReached (map (λ l. l.0) tables.now.axioms.items)
        tables.now.axiom_rows theorem.0 (map (λ l. l.0) ids.items)) }
{
    reached(alloc, &tables.axioms, &tables.axiom_rows, theorem)
}

/// The unproved theorems that a theorem depends on, as the tables tell them.
pub(crate) fn unproved_in(
    alloc: Global,
    tables: &Tables,
    incomplete: &[LabelId],
    theorem: LabelId,
) -> Result<Vec<LabelId>, AllocError>
    requires { AreRising (map (λ l. l.0) incomplete.now) }
    ensures { IfOk result (λ ids. AreReached (map (λ l. l.0) incomplete.now)
        tables.now.unproved_rows theorem.0 (map (λ l. l.0) ids.items)) }
{
    reached(alloc, incomplete, &tables.unproved_rows, theorem)
}

/// What a theorem depends on, as the tables tell it.
pub(crate) fn report_in(
    alloc: Global,
    tables: &Tables,
    incomplete: &[LabelId],
    theorem: LabelId,
) -> Result<Report, AllocError>
    requires axioms { AreRising (map (λ l. l.0) tables.now.axioms.items) }
    requires incomplete { AreRising (map (λ l. l.0) incomplete.now) }
    ensures { IfOk result (λ report. IsReportIn tables.now (map (λ l. l.0) incomplete.now)
        theorem.0 report) }
{
    let axioms = reached(alloc, &tables.axioms, &tables.axiom_rows, theorem)?;
    let unproved = reached(alloc, incomplete, &tables.unproved_rows, theorem)?;
    Ok(Report { axioms, unproved })
}

/// Whether a theorem depends on each axiom, and on each of the incomplete, that an assertion is or
/// depends on.
pub fn is_founded(tables: &Tables, incomplete: &[LabelId], theorem: LabelId, used: LabelId) -> bool
    requires axioms { AreRising (map (λ l. l.0) tables.now.axioms.items) }
    requires incomplete { AreRising (map (λ l. l.0) incomplete.now) }
    ensures { (statements : List Sentence) → (uses : List ProofUses)
        → AreTables statements (map (λ l. l.0) incomplete.now) uses tables.now
        → IsTrue result
        ↔ AreFounded statements (map (λ l. l.0) incomplete.now) uses theorem.0 used.0 }
{
    if !rests_no_further(&tables.axioms, &tables.axiom_rows, theorem, used) {
        return false;
    }
    rests_no_further(incomplete, &tables.unproved_rows, theorem, used)
}
