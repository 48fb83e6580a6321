//! How many bytes the text of a lemma has, about.

use crate::lemma::Wanted;
use crate::names::Words;
use crate::wording::Wording;
use mm_frame::{Piece, Sym};
use mm_patterns::Pattern;
use std::alloc::AllocError;

// The bytes of a lemma's text, besides its symbols, its label, its comment and its proof.
const STATEMENT_BYTES: u64 = 32;

// The bytes of each of its `$e`, besides its symbols and the lemma's label; and those of a `$d` for
// a pair.
const ESSENTIAL_BYTES: u64 = 13;

const PAIR_BYTES: u64 = 16;

// The bytes of a block.
const BLOCK_BYTES: u64 = 12;

// The bytes of a name that isn't known.
const NAME_BYTES: u64 = 2;

/// The bytes of a lemma's text, besides its symbols and its proof.
fn frame_bytes(pattern: &Pattern, wanted: Wanted) -> u64 {
    let essentials = pattern.essentials.len() as u64;
    let pairs = pattern.pairs.len() as u64;
    let block = if essentials == 0 && pairs == 0 {
        0
    } else {
        BLOCK_BYTES
    };
    let essential = wanted.label.saturating_add(ESSENTIAL_BYTES);
    STATEMENT_BYTES
        .saturating_add(wanted.label)
        .saturating_add(wanted.comment)
        .saturating_add(essentials.saturating_mul(essential))
        .saturating_add(pairs.saturating_mul(PAIR_BYTES))
        .saturating_add(block)
}

/// The bytes of a symbol, with the space before it.
fn symbol_bytes(words: Words, symbol: Option<Sym>) -> u64 {
    let bytes = match symbol {
        Some(symbol) => match words.names.get(symbol.0 as usize) {
            Some(Some(name)) => name.len() as u64,
            _ => NAME_BYTES,
        },
        None => NAME_BYTES,
    };
    bytes.saturating_add(1)
}

/// The bytes of an expression, in which these variables stand.
fn expression_bytes(words: Words, variables: &[Sym], expression: &[Piece]) -> u64 {
    let mut bytes = 0u64;
    for piece in expression {
        let symbol = match piece {
            Piece::Symbol(symbol) => Some(*symbol),
            Piece::Value(number) => variables.get(*number as usize).copied(),
        };
        bytes = bytes.saturating_add(symbol_bytes(words, symbol));
    }
    bytes
}

/// The bytes of the hypotheses of a lemma and of what it concludes, in which these variables stand.
fn wording_bytes(words: Words, variables: &[Sym], wording: &Wording) -> u64 {
    let mut bytes = expression_bytes(words, variables, &wording.conclusion);
    for hypothesis in &wording.hypotheses {
        bytes = bytes.saturating_add(expression_bytes(words, variables, hypothesis));
    }
    bytes
}

/// The bytes of a lemma's text, besides its proof.
pub(crate) fn text_bytes(
    pattern: &Pattern,
    wording: &Wording,
    wanted: Wanted,
) -> Result<u64, AllocError> {
    let frame = frame_bytes(pattern, wanted);
    match wanted.words.variables.of(&pattern.variables, u32::MAX)? {
        Some(variables) => {
            let bytes = wording_bytes(wanted.words, &variables, wording);
            drop(variables);
            Ok(frame.saturating_add(bytes))
        }
        None => Ok(frame.saturating_add(wording_bytes(wanted.words, &[], wording))),
    }
}
