//! Whether an expression has a variant of a pattern. Where each token may become the symbol in its
//! place, each two of them are compared.

ghost use Rattle.std.specs.Prelude.{◌≡◌, ◌↔◌, length, IsTrue, false};
ghost use Rattle.std.specs.List.{AllZip};
ghost use Rattle.mm_code.specs.Layout.{texts};
ghost use Rattle.mm_find.specs.Variant.{Agree, AreVariant, HasVariant, MayBecome};
ghost use Rattle.mm_find.specs.Mirror.Types.{type_in};

use crate::shape::{ONE, stands_for};
use crate::types::Types;

/// Whether a token may become a symbol.
fn may_become(types: &Types, token: &[u8], symbol: &[u8]) -> bool
    ensures { IsTrue result ↔ MayBecome (type_in types.now) token.now symbol.now }
{
    if stands_for(token, symbol) {
        return true;
    }
    types.share_type(token, symbol)
}

/// Whether each token may become the symbol in its place.
fn may_all_become(types: &Types, tokens: &[&[u8]], symbols: &[&[u8]]) -> bool
    requires { length tokens.now ≡ length symbols.now }
    ensures { IsTrue result
        ↔ AllZip (MayBecome (type_in types.now)) (texts tokens.now) (texts symbols.now) }
{
    for at in 0..tokens.len() {
        if !may_become(types, tokens[at], symbols[at]) {
            return false;
        }
    }
    true
}

/// Whether two tokens become their symbols one for one.
fn agree(token: &[u8], symbol: &[u8], other: &[u8], other_symbol: &[u8]) -> bool
    ensures { IsTrue result ↔ Agree token.now symbol.now other.now other_symbol.now }
{
    if token == ONE || other == ONE {
        return true;
    }
    if token == other {
        return symbol == other_symbol;
    }
    symbol != other_symbol
}

/// Whether a token and each other one become their symbols one for one.
fn agrees_with_all(token: &[u8], symbol: &[u8], tokens: &[&[u8]], symbols: &[&[u8]]) -> bool
    requires { length tokens.now ≡ length symbols.now }
    ensures { IsTrue result
        ↔ AllZip (Agree token.now symbol.now) (texts tokens.now) (texts symbols.now) }
{
    for at in 0..tokens.len() {
        if !agree(token, symbol, tokens[at], symbols[at]) {
            return false;
        }
    }
    true
}

/// Whether each two tokens become their symbols one for one.
fn all_agree(tokens: &[&[u8]], symbols: &[&[u8]]) -> bool
    requires { length tokens.now ≡ length symbols.now }
    ensures { IsTrue result
        ↔ AllZip
        (λ token symbol. AllZip (Agree token symbol) (texts tokens.now) (texts symbols.now))
        (texts tokens.now) (texts symbols.now) }
{
    for at in 0..tokens.len() {
        if !agrees_with_all(tokens[at], symbols[at], tokens, symbols) {
            return false;
        }
    }
    true
}

/// Whether the symbols are a variant of the tokens.
fn are_variant(types: &Types, tokens: &[&[u8]], symbols: &[&[u8]]) -> bool
    ensures { IsTrue result
        ↔ AreVariant (type_in types.now) (texts tokens.now) (texts symbols.now) }
{
    if tokens.len() != symbols.len() {
        return false;
    }
    if !may_all_become(types, tokens, symbols) {
        return false;
    }
    all_agree(tokens, symbols)
}

/// Whether some of the symbols, one behind the other, are a variant of the tokens.
fn some_are_variant(types: &Types, tokens: &[&[u8]], symbols: &[&[u8]]) -> bool
    ensures { IsTrue result
        ↔ HasVariant (type_in types.now) false (texts tokens.now) (texts symbols.now) }
{
    if symbols.len() < tokens.len() {
        return false;
    }
    let last = symbols.len() - tokens.len();
    for at in 0..last + 1 {
        if are_variant(types, tokens, &symbols[at..at + tokens.len()]) {
            return true;
        }
    }
    false
}

/// Whether an expression has a variant of a pattern: if `whole`, as a whole one, with its type code
/// or without.
pub(crate) fn has_variant(
    types: &Types,
    whole: bool,
    pattern: &[&[u8]],
    expression: &[&[u8]],
) -> bool
    ensures { IsTrue result
        ↔ HasVariant (type_in types.now) whole (texts pattern.now) (texts expression.now) }
{
    if !whole {
        return some_are_variant(types, pattern, expression);
    }
    if are_variant(types, pattern, expression) {
        return true;
    }
    match expression.split_first() {
        Some((_, rest)) => are_variant(types, pattern, rest),
        None => false,
    }
}
