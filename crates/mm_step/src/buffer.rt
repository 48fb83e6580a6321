//! A list of symbols to whose end parts of it are copied.

ghost use Rattle.std.specs.Prelude.{◌≡◌, ◌+◌, ◌-◌, ◌≤◌, [], ◌∷◌, ◌++◌, length, take, drop};
ghost use Rattle.std.specs.Prelude.{◌↔◌, List, slice_range, IsTrue, IfSome, OnOk, OnErr};
ghost use Rattle.std.specs.Prelude.{MatchBool};
ghost use Rattle.std.specs.List.{AllByRecursion};
ghost use Rattle.mm_frame.specs.declared.number.Sym.{Sym};
ghost use Rattle.mm_step.specs.Mirror.Buffer.{IsPart, AreParts, parts_of};
ghost use Rattle.mm_step.specs.Stores.{numbers_in, all_said_by, IsWithinIndices};

use crate::entry::Entry;
use crate::said::{put_part_behind, put_pieces};
use crate::substitution::is_same;
use mm_frame::{ShortPiece, Sym};
use std::alloc::{AllocError, Global};
use std::marker::Model;

// So many symbols are given room at first, at least.
const FIRST_ROOM: usize = 1 << 12;

/// A list of symbols to whose end parts of it are copied.
///
/// It stands at the front of a longer list, its room, so that what is copied and where it is put
/// are two parts of one list.
#[derive(Drop)]
pub(crate) struct Buffer {
    room: Vec<Sym>,
    /// How many of the room's symbols are this list's.
    used: usize,
}

impl Model for Buffer {
    ghost use Rattle.std.specs.Prelude.{◌≤◌, List, length, take};
    ghost use Rattle.mm_frame.specs.declared.number.Sym.{Sym};

    ghost Value = { List Sym };

    ghost view = { λ b. take b.used b.room.items };

    ghost invariant = { λ b. b.used ≤ length b.room.items };
}

// Makes the room longer by so many symbols, at least, than what is used of it.
#[cold]
#[inline(never)]
fn make_room(room: &mut Vec<Sym>, used: usize, more: usize) -> Result<(), AllocError>
    requires { used ≤ length room.old.items }
    ensures room { OnOk result (used + more ≤ length room.new.items) }
    ensures same { take used room.new.items ≡ take used room.old.items }
    ensures longer { length room.old.items ≤ length room.new.items }
{
    let needed = used.saturating_add(more);
    let doubled = room.len().saturating_mul(2);
    room.resize(needed.max(doubled).max(FIRST_ROOM), Sym(0))
}

// Appends symbols to those that are used.
fn put_behind(room: &mut [Sym], used: usize, symbols: &[Sym])
    requires { used + length symbols.now ≤ length room.old }
    ensures put { take (used + length symbols.now) room.new ≡ take used room.old ++ symbols.now }
    ensures long { length room.new ≡ length room.old }
{
    let (_, behind) = room.split_at_mut(used);
    let (into, _) = behind.split_at_mut(symbols.len());
    into.copy_from_slice(symbols);
}

impl Buffer {
    /// A list of no symbols. It takes no memory.
    pub fn new(alloc: Global) -> Buffer
        ensures { result ≡ [] }
    {
        Buffer {
            room: Vec::new(alloc),
            used: 0,
        }
    }

    /// How many symbols there are.
    pub fn len(&self) -> usize
        ensures { result ≡ length self.now }
    {
        self.used
    }

    /// Sets memory aside for so many symbols, where there is any; what is wanting is asked for when
    /// it is needed. None of it is filled before that.
    pub fn prepare(&mut self, symbols: usize)
        ensures { self.new ≡ self.old }
    {
        let _ = self.room.reserve(symbols);
    }

    /// Forgets the symbols from an index on.
    pub fn truncate(&mut self, count: usize)
        ensures { self.new ≡ take count self.old }
    {
        self.used = self.used.min(count);
    }

    /// Moves the symbols from an index on down to another, over what stands between the two.
    pub(crate) fn move_down(&mut self, start: usize, to: usize)
        requires order { to ≤ start }
        requires within { start ≤ length self.old }
        ensures { self.new ≡ take to self.old ++ drop start self.old }
    {
        self.room.copy_within(start..self.used, to);
        self.used -= start - to;
    }

    /// The symbols from an index up to and without another.
    #[tactic(auto, using(crate::proofs::StoreRanges::part_steps))]
    pub fn part(&self, start: usize, end: usize) -> &[Sym]
        requires order { start ≤ end }
        requires within { end ≤ length self.now }
        ensures { result.now ≡ slice_range self.now start end }
    {
        &self.room[start..end]
    }

    /// Adds a symbol.
    pub fn push(&mut self, symbol: Sym) -> Result<(), AllocError>
        ensures pushed { OnOk result (self.new ≡ self.old ++ symbol ∷ []) }
        ensures same { OnErr result (self.new ≡ self.old) }
    {
        self.append(&[symbol])
    }

    /// Adds two symbols.
    #[inline(always)]
    pub(crate) fn push_two(&mut self, first: Sym, second: Sym) -> Result<(), AllocError>
        ensures pushed { OnOk result (self.new ≡ self.old ++ first ∷ second ∷ []) }
        ensures same { OnErr result (self.new ≡ self.old) }
    {
        if self.room.len() - self.used < 2 {
            return self.append(&[first, second]);
        }
        self.room[self.used] = first;
        self.room[self.used + 1] = second;
        self.used += 2;
        Ok(())
    }

    /// Adds symbols.
    pub fn append(&mut self, symbols: &[Sym]) -> Result<(), AllocError>
        ensures appended { OnOk result (self.new ≡ self.old ++ symbols.now) }
        ensures same { OnErr result (self.new ≡ self.old) }
    {
        if self.room.len() - self.used < symbols.len() {
            make_room(&mut self.room, self.used, symbols.len())?;
        }
        put_behind(&mut self.room, self.used, symbols);
        self.used += symbols.len();
        Ok(())
    }

    /// Adds a copy of the symbols from an index up to and without another.
    pub(crate) fn append_part(&mut self, start: usize, end: usize) -> Result<(), AllocError>
        requires order { start ≤ end }
        requires within { end ≤ length self.old }
        ensures appended { OnOk result (self.new ≡ self.old ++ slice_range self.old start end) }
        ensures same { OnErr result (self.new ≡ self.old) }
    {
        if self.room.len() - self.used < end - start {
            make_room(&mut self.room, self.used, end - start)?;
        }
        put_part_behind(&mut self.room, self.used, start, end);
        self.used += end - start;
        Ok(())
    }

    /// Whether what the entry names is what the pieces say of the entries from the base on; none
    /// where there is no room to put that behind the symbols.
    #[inline(always)]
    pub(crate) fn is_said(
        &mut self,
        stack: &[Entry],
        base: usize,
        pieces: &[ShortPiece],
        entry: Entry,
    ) -> Option<bool>
        requires parts { AreParts (length self.old) stack.now }
        requires part { IsPart (length self.old) entry }
        requires within { AllByRecursion (IsWithinIndices (length stack.now - base)) pieces.now }
        ensures said { IfSome result (λ is. IsTrue is
            ↔ (numbers_in (slice_range self.old entry.start entry.end)
            ≡ all_said_by (drop base (parts_of self.old stack.now)) pieces.now)) }
        ensures same { self.new ≡ self.old }
    {
        let end = put_pieces(&mut self.room, self.used, stack, base, pieces)?;
        Some(is_same(
            &self.room[entry.start..entry.end],
            &self.room[self.used..end],
        ))
    }

    /// Adds what the pieces say of the entries from the base on, where there is room for it and it
    /// is within the limit; else false is answered, and nothing is added.
    #[inline(always)]
    pub(crate) fn has_put(
        &mut self,
        stack: &[Entry],
        base: usize,
        pieces: &[ShortPiece],
        limit: usize,
    ) -> bool
        requires parts { AreParts (length self.old) stack.now }
        requires within { AllByRecursion (IsWithinIndices (length stack.now - base)) pieces.now }
        ensures { let whole = all_said_by (drop base (parts_of self.old stack.now)) pieces.now in
            MatchBool
            result
            ((length whole ≤ limit) × (more : List Sym) × (self.new ≡ self.old ++ more)
            × (numbers_in more ≡ whole))
            (self.new ≡ self.old) }
    {
        match put_pieces(&mut self.room, self.used, stack, base, pieces) {
            Some(end) if end - self.used <= limit => {
                self.used = end;
                true
            }
            _ => false,
        }
    }
}
