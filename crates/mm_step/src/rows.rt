//! A store that has a list of its own for each expression.

ghost use Rattle.std.specs.Prelude.{◌≡◌, ◌+◌, ◌<◌, ◌≤◌, ◌^◌, [], ◌++◌, length, drop};
ghost use Rattle.std.specs.Prelude.{slice_index_or, false, IfOk, MatchBool};
ghost use Rattle.std.specs.List.{AllByRecursion};
ghost use Rattle.mm_step.specs.Stores.{numbers_in, rows_in, said_by, all_said_by, IsWithinIndices};

use crate::store::{Store, put_last};
use crate::substitution::{after_first, append_value};
use mm_frame::{Piece, ShortPiece, Sym};
use std::alloc::{AllocError, Global};

/// A store that has a list of its own for each expression.
#[derive(Drop)]
pub struct Rows {
    alloc: Global,
    stack: Vec<Vec<Sym>>,
    kept: Vec<Vec<Sym>>,
}

impl Rows {
    /// A store with nothing in it.
    pub fn new(alloc: Global) -> Rows
        ensures stack { ⟦<Rows as Store>⟧.stack result ≡ [] }
        ensures kept { ⟦<Rows as Store>⟧.kept result ≡ [] }
    {
        Rows {
            alloc,
            stack: Vec::new(alloc),
            kept: Vec::new(alloc),
        }
    }
}

// What replaces the variable of the hypothesis at an index among those whose rows stand from the
// base on.
fn value_in(rows: &[Vec<Sym>], base: usize, index: u32) -> &[Sym]
    requires entry { base + index < length rows.now }
    requires fits { length rows.now < 2 ^ 64 }
    ensures { numbers_in result.now
        ≡ drop 1 (slice_index_or (drop base (rows_in rows.now)) index []) }
{
    after_first(rows[base + index as usize].as_slice())
}

// Appends what the piece says, and answers false where that is more than one symbol and passes the
// limit.
fn append_said(
    made: &mut Vec<Sym>,
    rows: &[Vec<Sym>],
    base: usize,
    piece: Piece,
    limit: usize,
) -> Result<bool, AllocError>
    requires within { IsWithinIndices (length (drop base (rows_in rows.now))) piece }
    requires fits { length rows.now < 2 ^ 64 }
    ensures made { IfOk result (λ fits. numbers_in made.new.items
        ≡ numbers_in made.old.items ++ said_by (drop base (rows_in rows.now)) piece) }
    ensures over { IfOk result (λ fits. fits ≡ false → limit < length made.new.items) }
{
    match piece {
        Piece::Symbol(symbol) => {
            made.push(symbol)?;
            Ok(true)
        }
        Piece::Value(index) => append_value(made, value_in(rows, base, index), limit),
    }
}

// Fills the list with what the pieces say, where it is within the limit; else false is answered.
fn fill_said(
    made: &mut Vec<Sym>,
    rows: &[Vec<Sym>],
    base: usize,
    pieces: &[ShortPiece],
    limit: usize,
) -> Result<bool, AllocError>
    requires within { AllByRecursion (IsWithinIndices (length (drop base (rows_in rows.now))))
        pieces.now }
    requires fits { length rows.now < 2 ^ 64 }
    ensures { IfOk result (λ fits.
        let whole = all_said_by (drop base (rows_in rows.now)) pieces.now in MatchBool
        fits
        ((length whole ≤ limit) × (numbers_in made.new.items ≡ whole))
        (limit < length whole)) }
{
    made.clear();
    for piece in pieces {
        if !append_said(made, rows, base, piece.piece(), limit)? {
            return Ok(false);
        }
    }
    Ok(made.len() <= limit)
}

impl Store for Rows {
    ghost stack = { λ rows. rows_in rows.stack.items };

    ghost kept = { λ rows. rows_in rows.kept.items };

    fn len(&self) -> usize {
        self.stack.len()
    }

    fn at(&self, index: usize) -> &[Sym] {
        self.stack[index].as_slice()
    }

    fn is_said_there(&mut self, _: usize, _: &[ShortPiece], _: usize) -> Option<bool> {
        None
    }

    fn push(&mut self, expression: &[Sym]) -> Result<(), AllocError> {
        let row = Vec::from_slice(self.alloc, expression)?;
        self.stack.push(row)?;
        Ok(())
    }

    fn keep(&mut self) -> Result<(), AllocError> {
        let last = &self.stack[self.stack.len() - 1];
        let row = Vec::from_slice(self.alloc, last)?;
        self.kept.push(row)?;
        Ok(())
    }

    fn push_copy(&mut self, index: usize) -> Result<(), AllocError> {
        let row = Vec::from_slice(self.alloc, &self.kept[index])?;
        self.stack.push(row)?;
        Ok(())
    }

    fn drop_last(&mut self, count: usize) {
        self.stack.truncate(self.stack.len() - count);
    }

    fn conclude(
        &mut self,
        base: usize,
        pieces: &[ShortPiece],
        limit: usize,
    ) -> Result<bool, AllocError> {
        let mut row = Vec::new(self.alloc);
        if !fill_said(&mut row, &self.stack, base, pieces, limit)? {
            return Ok(false);
        }
        put_last(&mut self.stack, base, row)?;
        Ok(true)
    }
}
