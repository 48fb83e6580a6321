//! The patterns of an assertion and of its `$e`, as they are made once.

ghost use Rattle.std.specs.Prelude.{◌≡◌, ℕ, ◌<◌, Some, IfOk, OnErr, OnOk, length, map};
ghost use Rattle.std.specs.Prelude.{set, slice_get, ◌++◌, ◌∷◌, []};
ghost use Rattle.std.specs.Option.{is_none};
ghost use Rattle.mm_frame.specs.declared.hypothesis.Hypothesis.{Hypothesis};
ghost use Rattle.mm_frame.specs.declared.tables.Tables.{Tables};
ghost use Rattle.mm_frame.specs.Pieces.{variables_of, IsPieceOf};
ghost use Rattle.mm_frame.specs.Mirror.Layout.{statements_of};
ghost use Rattle.mm_frame.specs.Mirror.Patterned.{IsLonger, IsPatternAt, AreMandatoryOf};
ghost use Rattle.mm_frame.specs.Mirror.Patterned.{HaveFirstPatterns, ArePatterned, AreNoted};

use crate::hypothesis::Hypothesis;
use crate::lists::reserve_numbered;
use crate::noted::NotedIndices;
use crate::number::Sym;
use crate::part::{NO_PART, Part};
use crate::piece::{Piece, ShortPiece};
use crate::tables::{Entry, symbols_in};
use std::alloc::AllocError;

// The piece that says a symbol, by the indices that are noted of the hypotheses.
fn piece_of(hypotheses: &[Hypothesis], noted: &NotedIndices, symbol: Sym) -> Piece
    requires few { length hypotheses.now < 4294967296 }
    requires noted { AreNoted noted.now.indices.items (variables_of hypotheses.now) }
    ensures { IsPieceOf (variables_of hypotheses.now) symbol.0 result }
{
    match noted.index_of(hypotheses, symbol) {
        Some(index) => Piece::Value(index as u32),
        None => Piece::Symbol(symbol),
    }
}

// Adds a piece. For one with a number that can't be stored more is asked for than there can be, so
// that it is refused.
#[inline(always)]
fn push_piece(pieces: &mut Vec<ShortPiece>, piece: Piece) -> Result<(), AllocError>
    ensures pushed { OnOk result (pieces.new.items ≡ pieces.old.items ++ piece ∷ []) }
    ensures longer { IsLonger pieces.old.items pieces.new.items }
{
    match ShortPiece::of(piece) {
        Some(short) => pieces.push(short)?,
        None => {
            pieces.reserve(usize::MAX)?;
            // More room than there can be is always refused.
            unreachable!()
        }
    }
    Ok(())
}

// Adds the pattern of some symbols, and says where it stands.
#[tactic(auto, using(crate::proofs::Frames::FramePatterns::pattern_steps))]
fn push_pattern(
    pieces: &mut Vec<ShortPiece>,
    hypotheses: &[Hypothesis],
    noted: &NotedIndices,
    symbols: &[Sym],
) -> Result<Part, AllocError>
    requires few { length hypotheses.now < 4294967296 }
    requires noted { AreNoted noted.now.indices.items (variables_of hypotheses.now) }
    ensures longer { IsLonger pieces.old.items pieces.new.items }
    ensures part { IfOk result (IsPatternAt
        (variables_of hypotheses.now) (map (λ n. n.0) symbols.now) pieces.new.items) }
{
    let start = pieces.len();
    for symbol in symbols {
        push_piece(pieces, piece_of(hypotheses, noted, *symbol))?;
    }
    reserve_numbered(pieces, 0)?;
    Ok(Part {
        start: start as u32,
        end: pieces.len() as u32,
    })
}

// Whether the hypothesis at an index among others is a `$e`.
fn is_essential(hypotheses: &[Hypothesis], index: usize) -> bool
    requires { index < length hypotheses.now }
    ensures { (h : Hypothesis) → slice_get hypotheses.now index ≡ Some h
        → result ≡ is_none h.typing }
{
    hypotheses[index].typing.is_none()
}

// Notes where the pattern of the hypothesis at an index among others stands.
fn set_pattern(hypotheses: &mut Vec<Hypothesis>, index: usize, pattern: Part)
    requires { index < length hypotheses.old.items }
    ensures count { length hypotheses.new.items ≡ length hypotheses.old.items }
    ensures noted { (h : Hypothesis) → slice_get hypotheses.old.items index ≡ Some h
        → hypotheses.new.items
        ≡ set hypotheses.old.items index (record h { pattern = pattern }) }
{
    hypotheses[index].pattern = pattern;
}

// Adds the patterns of the `$e` among the hypotheses that stand at some indices, and notes where.
fn push_patterns(
    pieces: &mut Vec<ShortPiece>,
    hypotheses: &mut Vec<Hypothesis>,
    noted: &NotedIndices,
    indices: &[usize],
    log: &[Entry],
    flat: &[Sym],
) -> Result<(), AllocError>
    requires mandatory { (t : Tables)
        × AreMandatoryOf t log.now flat.now indices.now hypotheses.old.items }
    requires noted { AreNoted noted.now.indices.items (variables_of hypotheses.old.items) }
    ensures longer { IsLonger pieces.old.items pieces.new.items }
    ensures count { length hypotheses.new.items ≡ length hypotheses.old.items }
    ensures patterned { (t : Tables)
        → AreMandatoryOf t log.now flat.now indices.now hypotheses.old.items
        → OnOk result (HaveFirstPatterns (statements_of t) hypotheses.old.items
        hypotheses.new.items pieces.new.items (length indices.now)) }
{
    for (i, index) in indices.iter().enumerate() {
        let pattern = if is_essential(hypotheses, i) {
            push_pattern(pieces, hypotheses, noted, symbols_in(log, flat, *index))?
        } else {
            NO_PART
        };
        set_pattern(hypotheses, i, pattern);
    }
    Ok(())
}

// Adds the patterns of an assertion and of its `$e`, of which some may stand there where memory
// was refused.
fn push_all(
    pieces: &mut Vec<ShortPiece>,
    hypotheses: &mut Vec<Hypothesis>,
    noted: &NotedIndices,
    indices: &[usize],
    log: &[Entry],
    flat: &[Sym],
    numbers: &[Sym],
) -> Result<Part, AllocError>
    requires mandatory { (t : Tables)
        × AreMandatoryOf t log.now flat.now indices.now hypotheses.old.items }
    requires noted { AreNoted noted.now.indices.items (variables_of hypotheses.old.items) }
    ensures longer { IsLonger pieces.old.items pieces.new.items }
    ensures count { length hypotheses.new.items ≡ length hypotheses.old.items }
    ensures patterned { (t : Tables)
        → AreMandatoryOf t log.now flat.now indices.now hypotheses.old.items
        → IfOk result (ArePatterned (statements_of t) (map (λ n. n.0) numbers.now)
        hypotheses.old.items hypotheses.new.items pieces.new.items) }
{
    push_patterns(pieces, hypotheses, noted, indices, log, flat)?;
    push_pattern(pieces, hypotheses, noted, numbers)
}

/// Adds the patterns of an assertion, whose symbols have these numbers, and of its `$e`, which are
/// among the hypotheses that stand at some indices, and of which the indices of the variables' `$f`
/// are noted. Notes in each `$e` where its pattern stands, and says where the assertion's stands.
pub(crate) fn add_patterns(
    pieces: &mut Vec<ShortPiece>,
    hypotheses: &mut Vec<Hypothesis>,
    noted: &NotedIndices,
    indices: &[usize],
    log: &[Entry],
    flat: &[Sym],
    numbers: &[Sym],
) -> Result<Part, AllocError>
    requires mandatory { (t : Tables)
        × AreMandatoryOf t log.now flat.now indices.now hypotheses.old.items }
    requires noted { AreNoted noted.now.indices.items (variables_of hypotheses.old.items) }
    ensures longer { IsLonger pieces.old.items pieces.new.items }
    ensures count { length hypotheses.new.items ≡ length hypotheses.old.items }
    ensures patterned { (t : Tables)
        → AreMandatoryOf t log.now flat.now indices.now hypotheses.old.items
        → IfOk result (ArePatterned (statements_of t) (map (λ n. n.0) numbers.now)
        hypotheses.old.items hypotheses.new.items pieces.new.items) }
    ensures err { OnErr result (pieces.new.items ≡ pieces.old.items) }
{
    let start = pieces.len();
    let conclusion = push_all(pieces, hypotheses, noted, indices, log, flat, numbers);
    if conclusion.is_err() {
        pieces.truncate(start);
    }
    conclusion
}
