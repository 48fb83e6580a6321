//! A store that has one buffer for the symbols of all its expressions.

ghost use Rattle.std.specs.Prelude.{◌≡◌, ◌<◌, ◌≤◌, ◌+◌, ◌-◌, ℕ, List, [], ◌∷◌, ◌++◌, length};
ghost use Rattle.std.specs.Prelude.{take, drop, false, OnOk, OnErr, IfOk, MatchBool};
ghost use Rattle.std.specs.List.{AllByRecursion};
ghost use Rattle.mm_frame.specs.declared.number.Sym.{Sym};
ghost use Rattle.mm_step.specs.Mirror.Buffer.{AreParts, parts_of};
ghost use Rattle.mm_step.specs.Stores.{numbers_in, said_by, all_said_by, IsWithinIndices};

use crate::buffer::Buffer;
use crate::entry::{Entry, value_start};
use crate::store::{Store, put_last};
use mm_frame::{Piece, ShortPiece, Sym};
use std::alloc::{AllocError, Global};

// The buffer is so long, at least, when its end is cut off for the first time.
const FIRST_CUT: usize = 1 << 18;

/// A store that has one buffer for the symbols of all its expressions.
///
/// An entry of the stack or of the kept ones is a range of the buffer. A copy shares its range, so
/// that no symbol is copied. What no entry names any more stays in the buffer, as nearly all proofs
/// end before it is long; where it has become twice as long as what was needed of it, its end is
/// cut off.
#[derive(Drop)]
pub struct Flat {
    symbols: Buffer,
    stack: Vec<Entry>,
    kept: Vec<Entry>,
    /// How long the buffer is when its end is cut off next.
    next_cut: usize,
    ghost stacked: { AreParts (length symbols) stack.items },
    ghost saved: { AreParts (length symbols) kept.items },
}

impl Flat {
    /// A store with nothing in it.
    pub fn new(alloc: Global) -> Flat
        ensures stack { ⟦<Flat as Store>⟧.stack result ≡ [] }
        ensures kept { ⟦<Flat as Store>⟧.kept result ≡ [] }
    {
        Flat {
            symbols: Buffer::new(alloc),
            stack: Vec::new(alloc),
            kept: Vec::new(alloc),
            next_cut: FIRST_CUT,
        }
    }

    // Makes room for so many symbols, where there is memory for it; room that is wanting is made
    // when it is needed.
    pub fn prepare(&mut self, symbols: usize)
        ensures stack { ⟦<Flat as Store>⟧.stack self.new ≡ ⟦<Flat as Store>⟧.stack self.old }
        ensures kept { ⟦<Flat as Store>⟧.kept self.new ≡ ⟦<Flat as Store>⟧.kept self.old }
    {
        self.symbols.prepare(symbols);
    }

    /// Forgets everything, and keeps the memory for what comes next.
    pub fn clear(&mut self)
        ensures stack { ⟦<Flat as Store>⟧.stack self.new ≡ [] }
        ensures kept { ⟦<Flat as Store>⟧.kept self.new ≡ [] }
    {
        self.symbols.truncate(0);
        self.stack.clear();
        self.kept.clear();
        self.next_cut = FIRST_CUT;
    }

    // Cuts off the end of the buffer, which no entry names. It is a call, since it is rare.
    #[cold]
    #[inline(never)]
    fn cut(&mut self)
        ensures stack { ⟦<Flat as Store>⟧.stack self.new ≡ ⟦<Flat as Store>⟧.stack self.old }
        ensures kept { ⟦<Flat as Store>⟧.kept self.new ≡ ⟦<Flat as Store>⟧.kept self.old }
    {
        let needed = needed_length(&self.stack).max(needed_length(&self.kept));
        self.symbols.truncate(needed);
        self.next_cut = FIRST_CUT.max(needed.saturating_mul(2));
    }

    // The conclusion that stands in the buffer from an index on takes the place of the entries from
    // the base on, and is moved down to behind what the others need of the buffer. It is a call,
    // since it is rare.
    #[cold]
    #[inline(never)]
    fn conclude_at_cut(&mut self, base: usize, start: usize) -> Result<(), AllocError>
        requires base { base ≤ length self.old.stack.items }
        requires start { start ≤ length self.old.symbols }
        requires stacked { AreParts start self.old.stack.items }
        requires saved { AreParts start self.old.kept.items }
        ensures said { OnOk result (⟦<Flat as Store>⟧.stack self.new
            ≡ take base (⟦<Flat as Store>⟧.stack self.old)
            ++ numbers_in (drop start self.old.symbols) ∷ []) }
        ensures refused { OnErr result
            (⟦<Flat as Store>⟧.stack self.new ≡ ⟦<Flat as Store>⟧.stack self.old) }
        ensures kept { ⟦<Flat as Store>⟧.kept self.new ≡ ⟦<Flat as Store>⟧.kept self.old }
    {
        let needed = needed_length(&self.stack[..base]).max(needed_length(&self.kept));
        let end = self.symbols.len() - (start - needed);
        let entry = Entry { start: needed, end };
        put_last(&mut self.stack, base, entry)?;
        self.symbols.move_down(start, needed);
        self.next_cut = FIRST_CUT.max(end.saturating_mul(2));
        Ok(())
    }
}

// Appends the expression. A hypothesis is mostly two symbols, for which the copy of a list takes
// longer.
#[inline(always)]
fn append(symbols: &mut Buffer, expression: &[Sym]) -> Result<(), AllocError>
    ensures appended { OnOk result (symbols.new ≡ symbols.old ++ expression.now) }
    ensures grown { (rest : List Sym) × (symbols.new ≡ symbols.old ++ rest) }
    ensures long { length symbols.old ≤ length symbols.new }
{
    match expression {
        [code, variable] => {
            symbols.push_two(*code, *variable)?;
            Ok(())
        }
        _ => {
            symbols.append(expression)?;
            Ok(())
        }
    }
}

// Appends what the piece says of the entries from the base on, and answers false where that isn't
// one symbol and what stands from the start on passes the limit.
#[tactic(auto, using(crate::proofs::StoreRanges::value_steps))]
fn append_piece(
    symbols: &mut Buffer,
    stack: &[Entry],
    base: usize,
    piece: Piece,
    start: usize,
    limit: usize,
) -> Result<bool, AllocError>
    requires parts { AreParts (length symbols.old) stack.now }
    requires start { start ≤ length symbols.old }
    requires within { IsWithinIndices (length stack.now - base) piece }
    ensures said { IfOk result (λ fits. (more : List Sym) × (symbols.new ≡ symbols.old ++ more)
        × (numbers_in more ≡ said_by (drop base (parts_of symbols.old stack.now)) piece)) }
    ensures over { IfOk result (λ fits. fits ≡ false → limit < length symbols.new - start) }
    ensures grown { (rest : List Sym) × (symbols.new ≡ symbols.old ++ rest) }
{
    match piece {
        Piece::Symbol(symbol) => {
            symbols.push(symbol)?;
            Ok(true)
        }
        Piece::Value(index) => {
            let entry = stack[base + index as usize];
            let first = value_start(entry);
            symbols.append_part(first, entry.end)?;
            Ok(entry.end - first == 1 || symbols.len() - start <= limit)
        }
    }
}

// Appends what the pieces say of the entries from the base on, where it is within the limit; else
// false is answered, and a prefix of it may be there. It is a call, since it is rare: mostly there
// is room for it.
#[cold]
#[inline(never)]
fn append_pieces(
    symbols: &mut Buffer,
    stack: &[Entry],
    base: usize,
    pieces: &[ShortPiece],
    limit: usize,
) -> Result<bool, AllocError>
    requires parts { AreParts (length symbols.old) stack.now }
    requires within { AllByRecursion (IsWithinIndices (length stack.now - base)) pieces.now }
    ensures said { IfOk result (λ fits.
        let whole = all_said_by (drop base (parts_of symbols.old stack.now)) pieces.now in MatchBool
        fits
        ((length whole ≤ limit) × (more : List Sym) × (symbols.new ≡ symbols.old ++ more)
        × (numbers_in more ≡ whole))
        (limit < length whole)) }
    ensures grown { (rest : List Sym) × (symbols.new ≡ symbols.old ++ rest) }
{
    let start = symbols.len();
    for piece in pieces {
        if !append_piece(symbols, stack, base, piece.piece(), start, limit)? {
            return Ok(false);
        }
    }
    Ok(symbols.len() - start <= limit)
}

// Does as `append_pieces`, and sooner where there is room for what the pieces say.
#[inline(always)]
fn put_said(
    symbols: &mut Buffer,
    stack: &[Entry],
    base: usize,
    pieces: &[ShortPiece],
    limit: usize,
) -> Result<bool, AllocError>
    requires parts { AreParts (length symbols.old) stack.now }
    requires within { AllByRecursion (IsWithinIndices (length stack.now - base)) pieces.now }
    ensures said { IfOk result (λ fits.
        let whole = all_said_by (drop base (parts_of symbols.old stack.now)) pieces.now in MatchBool
        fits
        ((length whole ≤ limit) × (more : List Sym) × (symbols.new ≡ symbols.old ++ more)
        × (numbers_in more ≡ whole))
        (limit < length whole)) }
    ensures grown { (rest : List Sym) × (symbols.new ≡ symbols.old ++ rest) }
{
    if symbols.has_put(stack, base, pieces, limit) {
        return Ok(true);
    }
    append_pieces(symbols, stack, base, pieces, limit)
}

// How much of the buffer the entries need.
fn needed_length(entries: &[Entry]) -> usize
    requires { (used : ℕ) × AreParts used entries.now }
    ensures needed { AreParts result entries.now }
    ensures least { (used : ℕ) → AreParts used entries.now → result ≤ used }
{
    let mut needed = 0;
    for entry in entries {
        needed = needed.max(entry.end);
    }
    needed
}

impl Store for Flat {
    ghost stack = { λ flat. parts_of flat.symbols flat.stack.items };

    ghost kept = { λ flat. parts_of flat.symbols flat.kept.items };

    fn len(&self) -> usize {
        self.stack.len()
    }

    fn at(&self, index: usize) -> &[Sym] {
        let entry = self.stack[index];
        self.symbols.part(entry.start, entry.end)
    }

    #[inline(always)]
    fn is_said_there(&mut self, base: usize, pieces: &[ShortPiece], index: usize) -> Option<bool> {
        let entry = self.stack[index];
        self.symbols.is_said(&self.stack, base, pieces, entry)
    }

    #[inline(always)]
    fn push(&mut self, expression: &[Sym]) -> Result<(), AllocError> {
        let start = self.symbols.len();
        append(&mut self.symbols, expression)?;
        let entry = Entry {
            start,
            end: self.symbols.len(),
        };
        self.stack.push(entry)?;
        Ok(())
    }

    #[tactic(auto, using(crate::proofs::StoreRanges::row_steps))]
    fn keep(&mut self) -> Result<(), AllocError> {
        let last = self.stack[self.stack.len() - 1];
        self.kept.push(last)?;
        Ok(())
    }

    fn push_copy(&mut self, index: usize) -> Result<(), AllocError> {
        let copied = self.kept[index];
        self.stack.push(copied)?;
        Ok(())
    }

    #[tactic(auto, using(crate::proofs::StoreRanges::row_steps))]
    fn drop_last(&mut self, count: usize) {
        self.stack.truncate(self.stack.len() - count);
        if self.symbols.len() >= self.next_cut {
            self.cut();
        }
    }

    #[inline(always)]
    fn conclude(
        &mut self,
        base: usize,
        pieces: &[ShortPiece],
        limit: usize,
    ) -> Result<bool, AllocError> {
        let start = self.symbols.len();
        if !put_said(&mut self.symbols, &self.stack, base, pieces, limit)? {
            return Ok(false);
        }
        if self.symbols.len() >= self.next_cut {
            self.conclude_at_cut(base, start)?;
            return Ok(true);
        }
        let entry = Entry {
            start,
            end: self.symbols.len(),
        };
        put_last(&mut self.stack, base, entry)?;
        Ok(true)
    }
}
