//! The lines of `mm statement`: a statement, and the frame of an assertion.

ghost use Rattle.std.specs.Prelude.{◌≡◌, ◌++◌, ◌<◌, ℕ, List, [], map, length, slice_get, take};
ghost use Rattle.std.specs.Prelude.{OnOk, Some};
ghost use Rattle.std.specs.List.{flat_map};
ghost use Rattle.mm_base.specs.Statement.{keyword_of};
ghost use Rattle.mm_frame.specs.Sentence.{Sentence, IsAssertion};
ghost use Rattle.mm_frame.specs.Numbers.{IsNumbered, labelled_sentences, symbols_of};
ghost use Rattle.mm_frame.specs.Numbers.{IsAssertionNumber};
ghost use Rattle.mm_frame.specs.Frame.{AreFurther};
ghost use Rattle.mm_frame.specs.FrameIndex.{ArePairs};
ghost use Rattle.mm_frame.specs.Taken.{kind_behind};
ghost use Rattle.mm_frame.specs.declared.distinct.DistinctPair.{DistinctPair};
ghost use Rattle.mm_rules.specs.Mirror.Explaining.{named_pairs};
ghost use Rattle.mm_verdict.specs.Stated.{IsFrameText, IsTextBefore, further_line, pair_line};
ghost use Rattle.mm_verdict.specs.Stated.{statement_line};

use mm_frame::{Book, DistinctPair, Hypothesis, LabelId, LabelKind};
use mm_rules::{push_symbols, push_word};
use std::alloc::{AllocError, Global};

/// The keyword of a kind of statements that have labels.
fn keyword(kind: LabelKind) -> &'static [u8]
    ensures { result.now ≡ keyword_of (kind_behind kind) }
{
    match kind {
        LabelKind::Floating => b"$f",
        LabelKind::Essential => b"$e",
        LabelKind::Axiom => b"$a",
        LabelKind::Proof => b"$p",
    }
}

/// Appends the line of a labelled statement.
pub(crate) fn push_statement(out: &mut Vec<u8>, book: &Book, id: LabelId) -> Result<(), AllocError>
    requires { id.0 < length (labelled_sentences book.now.statements) }
    ensures { OnOk result ((s : Sentence)
        → slice_get (labelled_sentences book.now.statements) id.0 ≡ Some s
        → out.new.items ≡ out.old.items ++ statement_line s) }
{
    out.extend_from_slice(book.label(id))?;
    push_word(out, keyword(book.kind(id)))?;
    push_symbols(out, book, book.expression(id))?;
    out.push(b'\n')?;
    Ok(())
}

/// Appends the lines of hypotheses.
fn push_hypotheses(
    out: &mut Vec<u8>,
    book: &Book,
    hypotheses: &[Hypothesis],
) -> Result<(), AllocError>
    requires { (stated : List Sentence) × (map (slice_get (labelled_sentences book.now.statements))
        (map (λ h. h.id.0) hypotheses.now) ≡ map Some stated) }
    ensures { OnOk result ((stated : List Sentence)
        → map (slice_get (labelled_sentences book.now.statements))
        (map (λ h. h.id.0) hypotheses.now) ≡ map Some stated
        → out.new.items ≡ out.old.items ++ flat_map statement_line stated) }
{
    for hypothesis in hypotheses {
        push_statement(out, book, hypothesis.id)?;
    }
    Ok(())
}

/// Appends the line of a mandatory pair.
fn push_pair(out: &mut Vec<u8>, x: &[u8], y: &[u8]) -> Result<(), AllocError>
    ensures { OnOk result (out.new.items ≡ out.old.items ++ pair_line (x.now, y.now)) }
{
    out.extend_from_slice(b"$d")?;
    push_word(out, x)?;
    push_word(out, y)?;
    out.push(b'\n')?;
    Ok(())
}

/// Appends the lines of mandatory pairs.
fn push_pairs(out: &mut Vec<u8>, book: &Book, pairs: &[DistinctPair]) -> Result<(), AllocError>
    requires { (i : ℕ) (pair : DistinctPair) → slice_get pairs.now i ≡ Some pair
        → (pair.variables.0.0 < length (symbols_of book.now.statements))
        × (pair.variables.1.0 < length (symbols_of book.now.statements)) }
    ensures { OnOk result (out.new.items ≡ out.old.items
        ++ flat_map pair_line (named_pairs book.now.statements pairs.now)) }
{
    for pair in pairs {
        push_pair(
            out,
            book.name(pair.variables.0),
            book.name(pair.variables.1),
        )?;
    }
    Ok(())
}

/// Appends the line of a `$d` that says more than mandatory pairs.
fn push_further(out: &mut Vec<u8>, book: &Book, index: usize) -> Result<(), AllocError>
    requires { index < length book.now.statements }
    ensures { OnOk result ((d : Sentence) → slice_get book.now.statements index ≡ Some d
        → out.new.items ≡ out.old.items ++ further_line d) }
{
    out.extend_from_slice(b"also $d")?;
    push_symbols(out, book, book.symbols_at(index))?;
    out.push(b'\n')?;
    Ok(())
}

/// Appends the lines of those at these indices.
fn push_all_further(out: &mut Vec<u8>, book: &Book, indices: &[usize]) -> Result<(), AllocError>
    requires { (further : List Sentence)
        × (map (slice_get book.now.statements) indices.now ≡ map Some further) }
    ensures { OnOk result ((further : List Sentence)
        → map (slice_get book.now.statements) indices.now ≡ map Some further
        → out.new.items ≡ out.old.items ++ flat_map further_line further) }
{
    for index in indices {
        push_further(out, book, *index)?;
    }
    Ok(())
}

/// Appends the lines of the mandatory hypotheses and pairs of an assertion.
fn push_frame(out: &mut Vec<u8>, book: &Book, id: LabelId) -> Result<(), AllocError>
    requires { IsAssertionNumber book.now.statements id.0 }
    ensures { OnOk result ((index : ℕ) (s : Sentence)
        → IsNumbered book.now.statements id.0 index s → (lines : List ℕ)
        × IsFrameText (take index book.now.statements) s [] lines
        × (out.new.items ≡ out.old.items ++ lines)) }
{
    let frame = book.frame(id);
    push_hypotheses(out, book, frame.hypotheses())?;
    push_pairs(out, book, frame.pairs())
}

/// Appends the lines of the `$d` that say more than the mandatory pairs of an assertion.
fn push_more(out: &mut Vec<u8>, alloc: Global, book: &Book, id: LabelId) -> Result<(), AllocError>
    requires { IsAssertionNumber book.now.statements id.0 }
    ensures { OnOk result ((index : ℕ) (s : Sentence)
        → IsNumbered book.now.statements id.0 index s → (further : List Sentence)
        × AreFurther (take index book.now.statements) s further
        × (out.new.items ≡ out.old.items ++ flat_map further_line further)) }
{
    let indices = book.frame(id).further(alloc)?;
    push_all_further(out, book, &indices)
}

/// Appends the lines that are reported before that of a labelled statement.
fn push_before(out: &mut Vec<u8>, alloc: Global, book: &Book, id: LabelId) -> Result<(), AllocError>
    requires { id.0 < length (labelled_sentences book.now.statements) }
    ensures { OnOk result ((index : ℕ) (s : Sentence)
        → IsNumbered book.now.statements id.0 index s → (lines : List ℕ)
        × IsTextBefore s.kind (take index book.now.statements) s lines
        × (out.new.items ≡ out.old.items ++ lines)) }
{
    match book.kind(id) {
        LabelKind::Floating => Ok(()),
        LabelKind::Essential => Ok(()),
        LabelKind::Axiom => push_frame(out, book, id),
        LabelKind::Proof => {
            push_frame(out, book, id)?;
            push_more(out, alloc, book, id)
        }
    }
}

/// Appends what is told of a labelled statement, but for its place.
pub(crate) fn push_told(
    out: &mut Vec<u8>,
    alloc: Global,
    book: &Book,
    id: LabelId,
) -> Result<(), AllocError>
    requires { id.0 < length (labelled_sentences book.now.statements) }
    ensures { OnOk result ((index : ℕ) (s : Sentence)
        → IsNumbered book.now.statements id.0 index s → (lines : List ℕ)
        × IsTextBefore s.kind (take index book.now.statements) s lines
        × (out.new.items ≡ out.old.items ++ lines ++ statement_line s)) }
{
    push_before(out, alloc, book, id)?;
    push_statement(out, book, id)
}
