//! Substitution by numbers: each mandatory variable is replaced by its value, which is what follows
//! the type code in the entry of its `$f` (the Metamath book, section 4.1.4).

ghost use Rattle.std.specs.Prelude.{◌≡◌, ◌↔◌, ◌+◌, ◌<◌, ◌^◌, ◌∷◌, ◌++◌, [], ℕ, List, length};
ghost use Rattle.std.specs.Prelude.{drop, slice_index_or, false, IsTrue, IfOk, MatchOption};
ghost use Rattle.std.specs.List.{AllByRecursion};
ghost use Rattle.mm_step.specs.Stores.{numbers_in, said_by, all_said_by, IsWithinIndices};

use crate::store::Store;
use mm_frame::{ShortPiece, Sym};
use std::alloc::AllocError;

// No entry of a `$f` is empty, so that this is never called. It is a call, so that what isn't empty
// takes one jump.
#[cold]
#[inline(never)]
fn none_after(entry: &[Sym]) -> &[Sym]
    ensures { result.now ≡ entry.now }
{
    entry
}

/// What follows the first symbol.
pub fn after_first(entry: &[Sym]) -> &[Sym]
    ensures { numbers_in result.now ≡ drop 1 (numbers_in entry.now) }
{
    match entry {
        [] => none_after(entry),
        [_, rest @ ..] => rest,
    }
}

/// What replaces the variable of the hypothesis at an index among those whose entries stand from
/// the base on.
pub fn value_at<S: Store>(store: &S, base: usize, index: u32) -> &[Sym]
    requires entry { base + index < length (S.stack store.now) }
    requires fits { length (S.stack store.now) < 2 ^ 64 }
    ensures { numbers_in result.now
        ≡ drop 1 (slice_index_or (drop base (S.stack store.now)) index []) }
{
    after_first(store.at(base + index as usize))
}

// What follows these symbols, where the others begin with them.
#[tactic(auto, using(crate::proofs::ByNumbers::NumberedSymbols::prefix_of))]
fn after<'e>(symbols: &'e [Sym], prefix: &[Sym]) -> Option<&'e [Sym]>
    ensures { MatchOption
        result
        ((rest : List ℕ) → ¬ (numbers_in symbols.now ≡ numbers_in prefix.now ++ rest))
        (λ rest. numbers_in symbols.now ≡ numbers_in prefix.now ++ numbers_in rest.now) }
{
    if symbols.len() < prefix.len() {
        return None;
    }
    let (begin, rest) = symbols.split_at(prefix.len());
    if is_same(begin, prefix) {
        Some(rest)
    } else {
        None
    }
}

// What follows the symbol, where the symbols begin with it. Most of what is compared is one symbol,
// for which a comparison of lists takes longer.
fn after_one(symbols: &[Sym], symbol: Sym) -> Option<&[Sym]>
    ensures { MatchOption
        result
        ((rest : List ℕ) → ¬ (numbers_in symbols.now ≡ symbol.0 ∷ rest))
        (λ rest. numbers_in symbols.now ≡ symbol.0 ∷ numbers_in rest.now) }
{
    match symbols {
        [first, rest @ ..] => {
            if first.0 == symbol.0 {
                Some(rest)
            } else {
                None
            }
        }
        [] => None,
    }
}

/// Whether these are the same symbols.
pub fn is_same(symbols: &[Sym], others: &[Sym]) -> bool
    ensures { IsTrue result ↔ (numbers_in symbols.now ≡ numbers_in others.now) }
{
    symbols == others
}

// What follows the value, where the symbols begin with it.
fn after_value<'e>(value: &[Sym], symbols: &'e [Sym]) -> Option<&'e [Sym]>
    ensures { MatchOption
        result
        ((rest : List ℕ) → ¬ (numbers_in symbols.now ≡ numbers_in value.now ++ rest))
        (λ rest. numbers_in symbols.now ≡ numbers_in value.now ++ numbers_in rest.now) }
{
    match value {
        [only] => after_one(symbols, *only),
        _ => after(symbols, value),
    }
}

// What follows what the piece says, where the symbols begin with that.
fn after_said<'e, S: Store>(
    store: &S,
    base: usize,
    piece: ShortPiece,
    symbols: &'e [Sym],
) -> Option<&'e [Sym]>
    requires within { IsWithinIndices (length (drop base (S.stack store.now))) piece }
    requires fits { length (S.stack store.now) < 2 ^ 64 }
    ensures { let prefix = said_by (drop base (S.stack store.now)) piece in MatchOption
        result
        ((rest : List ℕ) → ¬ (numbers_in symbols.now ≡ prefix ++ rest))
        (λ rest. numbers_in symbols.now ≡ prefix ++ numbers_in rest.now) }
{
    match piece.symbol() {
        Some(symbol) => after_one(symbols, symbol),
        None => after_value(value_at(store, base, piece.index()), symbols),
    }
}

/// Whether the symbols are what the pieces say.
#[inline(always)]
pub(crate) fn is_said<S: Store>(
    store: &S,
    base: usize,
    pieces: &[ShortPiece],
    symbols: &[Sym],
) -> bool
    requires within { AllByRecursion (IsWithinIndices (length (drop base (S.stack store.now))))
        pieces.now }
    requires fits { length (S.stack store.now) < 2 ^ 64 }
    ensures { IsTrue result
        ↔ (numbers_in symbols.now ≡ all_said_by (drop base (S.stack store.now)) pieces.now) }
{
    let mut rest = symbols;
    for piece in pieces {
        match after_said(store, base, *piece, rest) {
            Some(others) => rest = others,
            None => return false,
        }
    }
    rest.is_empty()
}

/// Appends the value, and answers false where it is more than one symbol and passes the limit.
pub(crate) fn append_value(
    made: &mut Vec<Sym>,
    value: &[Sym],
    limit: usize,
) -> Result<bool, AllocError>
    ensures made { IfOk result (λ fits.
        numbers_in made.new.items ≡ numbers_in made.old.items ++ numbers_in value.now) }
    ensures over { IfOk result (λ fits. fits ≡ false → limit < length made.new.items) }
{
    match value {
        [only] => made.push(*only)?,
        _ => {
            made.extend_from_slice(value)?;
            return Ok(made.len() <= limit);
        }
    }
    Ok(true)
}
