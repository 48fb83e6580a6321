//! The signature of an assertion, beside its frame.

use mm_frame::{
    Book, DistinctPair, Frame, Hypothesis, Piece, ShortPiece, Signature, Sym, index_of,
};

/// Whether the piece says the symbol, where these are the mandatory hypotheses, also as it is asked
/// for its symbol and its index.
fn is_said(hypotheses: &[Hypothesis], piece: ShortPiece, symbol: Sym) -> bool {
    let index = index_of(hypotheses, symbol);
    match piece.symbol() {
        Some(same) => {
            same == symbol && index.is_none() && piece.piece() == Piece::Symbol(symbol)
        }
        None => {
            index == Some(piece.index() as usize) && piece.piece() == Piece::Value(piece.index())
        }
    }
}

/// Whether the pattern says the symbols.
fn is_pattern(hypotheses: &[Hypothesis], pattern: &[ShortPiece], symbols: &[Sym]) -> bool {
    pattern.len() == symbols.len()
        && pattern
            .iter()
            .zip(symbols)
            .all(|(piece, symbol)| is_said(hypotheses, *piece, *symbol))
}

/// Whether the hypothesis is a `$f`, or has the pattern of its symbols.
fn has_pattern(book: &Book, signature: &Signature, hypothesis: &Hypothesis) -> bool {
    hypothesis.typing.is_some()
        || is_pattern(
            signature.hypotheses,
            signature.pattern(hypothesis),
            book.expression(hypothesis.id),
        )
}

/// Whether the indices of the pair are those of its variables.
fn has_indices(hypotheses: &[Hypothesis], pair: &DistinctPair) -> bool {
    index_of(hypotheses, pair.variables.0) == Some(pair.indices.0 as usize)
        && index_of(hypotheses, pair.variables.1) == Some(pair.indices.1 as usize)
}

/// Whether the signature of an assertion has what its frame has, the indices of the variables of its
/// pairs, and the patterns of its symbols.
pub(crate) fn is_signature(book: &Book, frame: &Frame) -> bool {
    let signature = frame.signature();
    signature.hypotheses == frame.hypotheses()
        && signature.pairs == frame.pairs()
        && signature
            .pairs
            .iter()
            .all(|pair| has_indices(signature.hypotheses, pair))
        && is_pattern(
            signature.hypotheses,
            signature.conclusion,
            frame.expression(),
        )
        && signature
            .hypotheses
            .iter()
            .all(|hypothesis| has_pattern(book, &signature, hypothesis))
}
