//! Whether an expression has a shape. It takes a step for each token of the shape and each symbol,
//! and no more, whatever stands for what.

ghost use Rattle.std.specs.Prelude.{◌≡◌, ◌↔◌, ◌<◌, ◌++◌, ◌∷◌, [], ℕ, List, length, map};
ghost use Rattle.std.specs.Prelude.{◌||◌, ◌&&◌, true, false, IfOk, IsTrue};
ghost use Rattle.mm_code.specs.Layout.{texts};
ghost use Rattle.mm_find.specs.Shape.{HaveShape, HasShape};
ghost use Rattle.mm_find.specs.Mirror.Marks.{AreMarks, spread, shifted};
ghost use Rattle.mm_find.specs.Mirror.Marks.{stands_for as stands_for_symbol};

use std::alloc::{AllocError, Global};

/// What stands for one symbol.
pub(crate) const ONE: &[u8] = b"$?";

/// What stands for any number of symbols, none too.
pub(crate) const ANY: &[u8] = b"$*";

/// Whether a token of a shape stands for a symbol.
pub(crate) fn stands_for(token: &[u8], symbol: &[u8]) -> bool
    ensures { result ≡ stands_for_symbol token.now symbol.now }
{
    token == ONE || token == symbol
}

/// The marks of the empty shape: only no symbols have it.
fn first_marks(alloc: Global, symbols: &[&[u8]]) -> Result<Vec<bool>, AllocError>
    ensures { IfOk result (λ marks. marks.items ≡ true ∷ map (λ symbol. false) symbols.now) }
{
    let mut marks = Vec::with_capacity(alloc, symbols.len())?;
    marks.push(true)?;
    for _symbol in symbols {
        marks.push(false)?;
    }
    Ok(marks)
}

/// Whether a mark stands here, or one before.
fn is_after(any: bool, mark: bool) -> bool
    ensures { result ≡ (any || mark) }
{
    any || mark
}

/// Whether a mark stands before a symbol for which the token stands.
fn is_before(mark: bool, token: &[u8], symbol: &[u8]) -> bool
    ensures { result ≡ (mark && stands_for_symbol token.now symbol.now) }
{
    mark && stands_for(token, symbol)
}

/// The marks with a `$*` more: whatever follows a mark is marked too.
fn after_any(alloc: Global, marks: &[bool]) -> Result<Vec<bool>, AllocError>
    ensures { IfOk result (λ next. next.items ≡ spread false marks.now) }
{
    let mut next = Vec::with_capacity(alloc, marks.len())?;
    let mut any = false;
    for mark in marks {
        any = is_after(any, *mark);
        next.push(any)?;
    }
    Ok(next)
}

/// The marks with a token more that stands for one symbol: each mark moves behind the symbol after
/// it, if that is one.
fn after_one(
    alloc: Global,
    token: &[u8],
    symbols: &[&[u8]],
    marks: &[bool],
) -> Result<Vec<bool>, AllocError>
    requires { length symbols.now < length marks.now }
    ensures { IfOk result (λ next. next.items
        ≡ false ∷ shifted token.now (texts symbols.now) marks.now) }
{
    let mut next = Vec::with_capacity(alloc, marks.len())?;
    next.push(false)?;
    for at in 0..symbols.len() {
        next.push(is_before(marks[at], token, symbols[at]))?;
    }
    Ok(next)
}

/// The marks with a token more.
fn after_token(
    alloc: Global,
    token: &[u8],
    symbols: &[&[u8]],
    marks: &[bool],
) -> Result<Vec<bool>, AllocError>
    requires { (shape : List (List ℕ)) × AreMarks shape [] (texts symbols.now) marks.now }
    ensures { IfOk result (λ next. (shape : List (List ℕ))
        → AreMarks shape [] (texts symbols.now) marks.now
        → AreMarks (shape ++ token.now ∷ []) [] (texts symbols.now) next.items) }
{
    if token == ANY {
        after_any(alloc, marks)
    } else {
        after_one(alloc, token, symbols, marks)
    }
}

/// Whether symbols have a shape.
fn have_shape(alloc: Global, shape: &[&[u8]], symbols: &[&[u8]]) -> Result<bool, AllocError>
    ensures { IfOk result (λ has. IsTrue has
        ↔ HaveShape (texts shape.now) (texts symbols.now)) }
{
    let mut marks = first_marks(alloc, symbols)?;
    for token in shape {
        marks = after_token(alloc, token, symbols, &marks)?;
    }
    match marks.last() {
        Some(mark) => Ok(*mark),
        // There is one mark more than symbols.
        None => unreachable!(),
    }
}

/// Whether an expression has a shape, with its type code or without.
pub(crate) fn has_shape(
    alloc: Global,
    shape: &[&[u8]],
    expression: &[&[u8]],
) -> Result<bool, AllocError>
    ensures { IfOk result (λ has. IsTrue has
        ↔ HasShape (texts shape.now) (texts expression.now)) }
{
    if have_shape(alloc, shape, expression)? {
        return Ok(true);
    }
    match expression.split_first() {
        Some((_, rest)) => have_shape(alloc, shape, rest),
        None => Ok(false),
    }
}
