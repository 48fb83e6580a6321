//! Patterns: the symbols of an assertion, and of its `$e`, as a step by the assertion takes them.

ghost use Rattle.std.specs.Prelude.{◌≡◌, ◌≤◌, MatchOption};
ghost use Rattle.mm_frame.specs.declared.piece.Piece.TheVariants.{Symbol, Value};
ghost use Rattle.mm_frame.specs.Pieces.{number_in, IsReplaced};

use crate::number::Sym;
use std::marker::Model;

/// A symbol of a pattern.
#[derive(Clone, Copy, PartialEq, Eq, Debug)]
pub enum Piece {
    /// A symbol that nothing replaces: a constant.
    Symbol(Sym),
    /// A variable: what replaces it is the value of the mandatory hypothesis at this index.
    Value(u32),
}

// A symbol is stored as its number, and an index p as `u32::MAX - p`. Both numbers are below this,
// so that the two are apart.
const NUMBERS: u32 = 2_147_483_648;

/// A piece as it is stored, in half of the bytes: the pieces of most assertions aren't in the
/// cache when a step reads them, so fewer bytes are fewer waits.
#[derive(Clone, Copy)]
pub struct ShortPiece(u32);

impl Model for ShortPiece {
    ghost use Rattle.std.specs.Prelude.{◌≤◌};
    ghost use Rattle.mm_frame.specs.declared.piece.Piece.{Piece};
    ghost use Rattle.mm_frame.specs.Mirror.ShortPieces.{piece_by, stored, stored_by};

    ghost Value = { Piece };

    ghost view = { λ p. piece_by p.0 };

    ghost invariant = { λ p. p.0 ≤ 4294967295 };

    ghost inverse = { λ piece. record { 0 = stored piece } };

    ghost inverse_ok = { stored_by };
}

impl ShortPiece {
    /// The piece, stored; none where its number is 2,147,483,648 or above.
    pub fn of(piece: Piece) -> Option<ShortPiece>
        ensures { MatchOption result (2147483648 ≤ number_in piece) (λ short. short ≡ piece) }
    {
        match piece {
            Piece::Symbol(symbol) => {
                if symbol.0 < NUMBERS {
                    return Some(ShortPiece(symbol.0));
                }
            }
            Piece::Value(index) => {
                if index < NUMBERS {
                    return Some(ShortPiece(u32::MAX - index));
                }
            }
        }
        None
    }

    /// The symbol; none where a value replaces the piece. A loop over pieces asks for this and then
    /// for the index: of `piece` the compiler makes both numbers before it asks which one it is.
    #[inline(always)]
    pub fn symbol(self) -> Option<Sym>
        ensures { MatchOption result (IsReplaced self) (λ symbol. self ≡ Symbol symbol) }
    {
        if self.0 < NUMBERS {
            Some(Sym(self.0))
        } else {
            None
        }
    }

    /// The index of the mandatory hypothesis whose value replaces the piece.
    #[inline(always)]
    pub fn index(self) -> u32
        requires { IsReplaced self }
        ensures { self ≡ Value result }
    {
        u32::MAX - self.0
    }

    /// The piece that is stored.
    #[inline(always)]
    pub fn piece(self) -> Piece
        ensures { result ≡ self }
    {
        if self.0 < NUMBERS {
            Piece::Symbol(Sym(self.0))
        } else {
            Piece::Value(u32::MAX - self.0)
        }
    }
}
