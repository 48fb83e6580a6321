//! What an assertion states, symbol by symbol.

ghost use Rattle.std.specs.Prelude.{◌≡◌, ◌<◌, ℕ, List, Some, IfOk, length, map, filter, slice_get};
ghost use Rattle.std.specs.List.{AllByRecursion};
ghost use Rattle.mm_code.specs.Layout.{texts};
ghost use Rattle.mm_frame.specs.FrameIndex.{HaveTypings};
ghost use Rattle.mm_frame.specs.Numbers.{labelled_sentences, symbols_of};
ghost use Rattle.mm_frame.specs.Sentence.{Sentence, is_essential};
ghost use Rattle.mm_step.specs.Stores.{numbers_in};
ghost use Rattle.mm_rules.specs.Answer.{labels_at};
ghost use Rattle.mm_find.specs.Found.{States};
ghost use Rattle.mm_find.specs.Plain.{expressions_in, plain_assertion};
ghost use Rattle.mm_find.specs.Mirror.Walk.{IsLast};

use mm_base::Kind;
use mm_frame::{Book, Hypothesis, LabelId, Sym};
use std::alloc::{AllocError, Global};

/// An assertion: its label, its kind, the expressions of its essential hypotheses in database
/// order, and its own.
#[derive(Drop)]
pub(crate) struct Assertion<'a> {
    pub label: &'a [u8],
    pub kind: Kind,
    pub hypotheses: Vec<Vec<&'a [u8]>>,
    pub expression: Vec<&'a [u8]>,
}

/// The names of symbols.
fn names_at<'a>(
    alloc: Global,
    book: &Book<'a>,
    symbols: &[Sym],
) -> Result<Vec<&'a [u8]>, AllocError>
    requires { AllByRecursion (λ n. n < length (symbols_of book.now.statements))
        (numbers_in symbols.now) }
    ensures { IfOk result (λ names. texts names.items
        ≡ labels_at (symbols_of book.now.statements) (numbers_in symbols.now)) }
{
    let mut names = Vec::with_capacity(alloc, symbols.len())?;
    for symbol in symbols {
        names.push(book.name(*symbol))?;
    }
    Ok(names)
}

/// The symbols of the labelled statement with a number.
fn expression_at<'a>(
    alloc: Global,
    book: &Book<'a>,
    id: LabelId,
) -> Result<Vec<&'a [u8]>, AllocError>
    requires { id.0 < length (labelled_sentences book.now.statements) }
    ensures { IfOk result (λ names. (s : Sentence)
        → slice_get (labelled_sentences book.now.statements) id.0 ≡ Some s
        → texts names.items ≡ s.symbols) }
{
    names_at(alloc, book, book.expression(id))
}

/// The expressions of those of the hypotheses that are essential.
fn essential<'a>(
    alloc: Global,
    book: &Book<'a>,
    hypotheses: &[Hypothesis],
) -> Result<Vec<Vec<&'a [u8]>>, AllocError>
    requires stated { (stated : List Sentence)
        × (map (slice_get (labelled_sentences book.now.statements))
        (map (λ h. h.id.0) hypotheses.now) ≡ map Some stated) }
    requires typed { HaveTypings book.now.statements hypotheses.now }
    ensures { IfOk result (λ expressions. (stated : List Sentence)
        → map (slice_get (labelled_sentences book.now.statements))
        (map (λ h. h.id.0) hypotheses.now) ≡ map Some stated
        → expressions_in expressions.items
        ≡ map (λ h. h.symbols) (filter (λ h. is_essential h.kind) stated)) }
{
    let mut expressions = Vec::new(alloc);
    for hypothesis in hypotheses {
        if hypothesis.typing.is_some() {
            continue;
        }
        expressions.push(expression_at(alloc, book, hypothesis.id)?)?;
    }
    Ok(expressions)
}

/// What the assertion of this kind states that was taken last, with its number.
pub(crate) fn assertion_at<'a>(
    alloc: Global,
    book: &Book<'a>,
    id: LabelId,
    kind: Kind,
) -> Result<Assertion<'a>, AllocError>
    requires { (before : List Sentence) × (s : Sentence)
        × IsLast book.now.statements id.0 before s }
    ensures { IfOk result (λ assertion. (before : List Sentence) (s : Sentence)
        → IsLast book.now.statements id.0 before s → kind ≡ s.kind
        → States before s (plain_assertion assertion)) }
{
    let frame = book.frame(id);
    let essentials = essential(alloc, book, frame.hypotheses())?;
    let expression = expression_at(alloc, book, id)?;
    Ok(Assertion {
        label: book.label(id),
        kind,
        hypotheses: essentials,
        expression,
    })
}
