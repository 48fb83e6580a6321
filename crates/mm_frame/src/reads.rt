//! What a book's lists hold under a label, or under its number.

ghost use Rattle.std.specs.Prelude.{◌≡◌, ◌↔◌, ℕ, ◌<◌, ◌≤◌, List, IsTrue, Some, length, map, take};
ghost use Rattle.mm_base.specs.declared.statement.Kind.{Kind};
ghost use Rattle.mm_base.specs.MostBytes.{most_bytes};
ghost use Rattle.mm_frame.specs.Sentence.{Sentence, IsLabelled, IsAssertion};
ghost use Rattle.mm_frame.specs.Active.{IsActive};
ghost use Rattle.mm_frame.specs.Form.{HasItsLabel};
ghost use Rattle.mm_frame.specs.Numbers.{AreNumbers, IsNumbered, IsLabelNumber, IsAssertionNumber};
ghost use Rattle.mm_frame.specs.Found.{Finds};
ghost use Rattle.mm_frame.specs.Taken.{kind_behind};
ghost use Rattle.mm_frame.specs.FrameIndex.{AreHypotheses, HaveTypings, ArePairs};
ghost use Rattle.mm_frame.specs.Pieces.{variables_of, HavePatterns, HaveMandatoryIndices};
ghost use Rattle.mm_frame.specs.Mirror.Layout.{AreTables, statements_of};
ghost use Rattle.mm_frame.specs.Mirror.Patterned.{IsSignatureOf};

use crate::answer::Found;
use crate::distinct::DistinctPair;
use crate::guesses::Guesses;
use crate::hypothesis::Hypothesis;
use crate::number::{LabelId, LabelKind, Sym};
use crate::part::part_of;
use crate::signature::Signature;
use crate::tables::Tables;
use mm_base::Kind;

// Whether some labelled statement has the number.
pub(crate) fn is_label(tables: &Tables, id: LabelId) -> bool
    requires { AreTables tables.now }
    ensures { IsTrue result ↔ IsLabelNumber (statements_of tables.now) id.0 }
{
    (id.0 as usize) < tables.named.len()
}

// The index of a labelled statement.
pub(crate) fn label_index(tables: &Tables, id: LabelId) -> usize
    requires tables { AreTables tables.now }
    requires known { IsLabelNumber (statements_of tables.now) id.0 }
    ensures { (index : ℕ) (s : Sentence) → IsNumbered (statements_of tables.now) id.0 index s
        → result ≡ index }
{
    match tables.label_info(id) {
        Some(info) => info.index as usize,
        // Each number below the count of labels has an entry.
        None => unreachable!(),
    }
}

// A label.
pub(crate) fn label_text<'a>(tables: &Tables<'a>, id: LabelId) -> &'a [u8]
    requires tables { AreTables tables.now }
    requires known { IsLabelNumber (statements_of tables.now) id.0 }
    ensures { (index : ℕ) (s : Sentence) → IsNumbered (statements_of tables.now) id.0 index s
        → IsLabelled result.now s }
{
    match tables.labels.name(id.0) {
        Some(text) => text,
        // Each number below the count of labels has a name.
        None => unreachable!(),
    }
}

// The symbols of a labelled statement.
pub(crate) fn label_symbols<'b>(tables: &'b Tables, id: LabelId) -> &'b [Sym]
    requires tables { AreTables tables.now }
    requires known { IsLabelNumber (statements_of tables.now) id.0 }
    ensures { (index : ℕ) (s : Sentence) → IsNumbered (statements_of tables.now) id.0 index s
        → AreNumbers (statements_of tables.now) (map (λ n. n.0) result.now) s.symbols }
{
    match tables.label_info(id) {
        Some(info) => part_of(&tables.flat, info.symbols),
        // Each number below the count of labels has an entry.
        None => unreachable!(),
    }
}

// A kind of statements that have labels.
fn kind_of(kind: Kind) -> LabelKind
    requires { (label : List ℕ) × HasItsLabel kind (Some label) }
    ensures { kind ≡ kind_behind result }
{
    match kind {
        Kind::Floating => LabelKind::Floating,
        Kind::Essential => LabelKind::Essential,
        Kind::Axiom => LabelKind::Axiom,
        Kind::Provable => LabelKind::Proof,
        // Only these kinds have labels.
        _ => unreachable!(),
    }
}

// The kind of a labelled statement.
pub(crate) fn label_kind(tables: &Tables, id: LabelId) -> LabelKind
    requires tables { AreTables tables.now }
    requires known { IsLabelNumber (statements_of tables.now) id.0 }
    ensures { (index : ℕ) (s : Sentence) → IsNumbered (statements_of tables.now) id.0 index s
        → s.kind ≡ kind_behind result }
{
    match tables.label_info(id) {
        Some(info) => kind_of(info.kind),
        // Each number below the count of labels has an entry.
        None => unreachable!(),
    }
}

// Whether a labelled statement is active after the statements before an index.
#[tactic(auto, using(crate::proofs::BookLists::GrownLists::few_statements))]
pub(crate) fn is_label_active(tables: &Tables, id: LabelId, at: usize) -> bool
    requires tables { AreTables tables.now }
    requires within { at ≤ length (statements_of tables.now) }
    ensures { (index : ℕ) (s : Sentence) → IsNumbered (statements_of tables.now) id.0 index s
        → (IsTrue result ↔ IsActive (take at (statements_of tables.now)) index) }
{
    if !is_label(tables, id) {
        return false;
    }
    let index = label_index(tables, id);
    index < at && tables.scopes.is_active(index, at)
}

// Whether a labelled statement is active now.
fn is_label_active_now(tables: &Tables, id: LabelId) -> bool
    requires tables { AreTables tables.now }
    requires known { IsLabelNumber (statements_of tables.now) id.0 }
    ensures { (index : ℕ) (s : Sentence) → IsNumbered (statements_of tables.now) id.0 index s
        → (IsTrue result ↔ IsActive (statements_of tables.now) index) }
{
    tables.is_active_now(label_index(tables, id))
}

// What stands under a label's number.
fn find_number(tables: &Tables, id: LabelId) -> Found
    requires tables { AreTables tables.now }
    requires known { IsLabelNumber (statements_of tables.now) id.0 }
    ensures { (label : List ℕ) (index : ℕ) (s : Sentence)
        → IsNumbered (statements_of tables.now) id.0 index s → IsLabelled label s
        → Finds (statements_of tables.now) label result }
{
    match label_kind(tables, id) {
        LabelKind::Floating | LabelKind::Essential => Found::Hypothesis {
            id,
            active: is_label_active_now(tables, id),
        },
        LabelKind::Axiom | LabelKind::Proof => Found::Assertion(id),
    }
}

// What stands under a label.
#[tactic(auto, using(crate::proofs::BookLists::ReadLabels::label_reads))]
pub(crate) fn find_label(tables: &Tables, label: &[u8]) -> Found
    requires { AreTables tables.now }
    ensures { Finds (statements_of tables.now) label.now result }
{
    match tables.labels.find(label) {
        Some(number) => find_number(tables, LabelId(number)),
        None => Found::None,
    }
}

// What stands under a label, which is looked for by its guess first.
#[tactic(auto, using(crate::proofs::BookLists::ReadLabels::label_reads))]
pub(crate) fn find_label_guessed(tables: &Tables, guesses: &mut Guesses, label: &[u8]) -> Found
    requires { AreTables tables.now }
    ensures { Finds (statements_of tables.now) label.now result }
{
    match tables.labels.find_guessed(guesses, label) {
        Some(number) => find_number(tables, LabelId(number)),
        None => Found::None,
    }
}

// The mandatory hypotheses of an assertion.
pub(crate) fn label_hypotheses<'b>(tables: &'b Tables, id: LabelId) -> &'b [Hypothesis]
    requires tables { AreTables tables.now }
    requires assertion { IsAssertionNumber (statements_of tables.now) id.0 }
    ensures ids { (index : ℕ) (s : Sentence)
        → IsNumbered (statements_of tables.now) id.0 index s → IsAssertion s.kind → AreHypotheses
        (record { statements = statements_of tables.now; index = index })
        (map (λ h. h.id.0) result.now) }
    ensures typed { (index : ℕ) (s : Sentence)
        → IsNumbered (statements_of tables.now) id.0 index s → IsAssertion s.kind
        → HaveTypings (statements_of tables.now) result.now }
    ensures few { (index : ℕ) (s : Sentence)
        → IsNumbered (statements_of tables.now) id.0 index s → IsAssertion s.kind
        → length result.now < most_bytes }
    ensures patterns { (index : ℕ) (s : Sentence)
        → IsNumbered (statements_of tables.now) id.0 index s → IsAssertion s.kind → HavePatterns
        (statements_of tables.now) (variables_of result.now) tables.now.pieces.items result.now }
{
    match tables.label_info(id) {
        Some(info) => part_of(&tables.hypotheses, info.hypotheses),
        // Each number below the count of labels has an entry.
        None => unreachable!(),
    }
}

// The mandatory distinct pairs of an assertion.
pub(crate) fn label_pairs<'b>(tables: &'b Tables, id: LabelId) -> &'b [DistinctPair]
    requires tables { AreTables tables.now }
    requires assertion { IsAssertionNumber (statements_of tables.now) id.0 }
    ensures variables { (index : ℕ) (s : Sentence)
        → IsNumbered (statements_of tables.now) id.0 index s → IsAssertion s.kind → ArePairs
        (record { statements = statements_of tables.now; index = index })
        (map (λ pair. (pair.variables.0.0, pair.variables.1.0)) result.now) }
    ensures indices { (index : ℕ) (s : Sentence)
        → IsNumbered (statements_of tables.now) id.0 index s → IsAssertion s.kind
        → HaveMandatoryIndices
        (record { statements = statements_of tables.now; index = index }) result.now }
{
    match tables.label_info(id) {
        Some(info) => part_of(&tables.pairs, info.pairs),
        // Each number below the count of labels has an entry.
        None => unreachable!(),
    }
}

// What a step by an assertion asks of it, by one look at what is known of its label.
pub(crate) fn label_signature<'b>(tables: &'b Tables, id: LabelId) -> Signature<'b>
    requires tables { AreTables tables.now }
    requires assertion { IsAssertionNumber (statements_of tables.now) id.0 }
    ensures { (index : ℕ) (s : Sentence) → IsNumbered (statements_of tables.now) id.0 index s
        → IsAssertion s.kind
        → IsSignatureOf (record { statements = statements_of tables.now; index = index }) result }
{
    match tables.label_info(id) {
        Some(info) => Signature {
            hypotheses: part_of(&tables.hypotheses, info.hypotheses),
            pairs: part_of(&tables.pairs, info.pairs),
            conclusion: part_of(&tables.pieces, info.conclusion),
            pieces: &tables.pieces,
        },
        // Each number below the count of labels has an entry.
        None => unreachable!(),
    }
}
