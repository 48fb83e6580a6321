//! What pieces say of entries, put into a room that is long enough for it.
//!
//! A room is a list of symbols of which only the first ones are used. Nearly always a conclusion
//! fits behind these: then no list grows, and how many are used is counted in a register.

ghost use Rattle.std.specs.Prelude.{◌≡◌, ◌+◌, ◌-◌, ◌≤◌, [], ◌∷◌, ◌++◌, List, length, take, drop};
ghost use Rattle.std.specs.Prelude.{slice_range, IfSome};
ghost use Rattle.std.specs.List.{AllByRecursion};
ghost use Rattle.mm_frame.specs.declared.number.Sym.{Sym};
ghost use Rattle.mm_step.specs.Mirror.Buffer.{AreParts, parts_of};
ghost use Rattle.mm_step.specs.Stores.{numbers_in, said_by, all_said_by, IsWithinIndices};

use crate::entry::{Entry, value_start};
use mm_frame::{ShortPiece, Sym};

/// So many symbols are copied at once.
const CHUNK: usize = 16;

/// Appends a copy of a part of those that are used to them.
pub(crate) fn put_part_behind(room: &mut [Sym], used: usize, start: usize, end: usize)
    requires order { start ≤ end }
    requires within { end ≤ used }
    requires room { used + (end - start) ≤ length room.old }
    ensures put { take (used + (end - start)) room.new
        ≡ take used room.old ++ slice_range (take used room.old) start end }
    ensures prefix { take used room.new ≡ take used room.old }
    ensures long { length room.new ≡ length room.old }
{
    let (prefix, behind) = room.split_at_mut(used);
    let (into, _) = behind.split_at_mut(end - start);
    into.copy_from_slice(&prefix[start..end]);
}

// Appends a symbol to those that are used, and answers how many are used then; none where the
// room ends there.
#[inline(always)]
fn put_symbol(room: &mut [Sym], used: usize, symbol: Sym) -> Option<usize>
    requires { used ≤ length room.old }
    ensures put { IfSome result (λ end. take end room.new ≡ take used room.old ++ symbol ∷ []) }
    ensures order { IfSome result (λ end. used ≤ end) }
    ensures within { IfSome result (λ end. end ≤ length room.new) }
    ensures prefix { take used room.new ≡ take used room.old }
    ensures long { length room.new ≡ length room.old }
{
    if used >= room.len() {
        return None;
    }
    room[used] = symbol;
    Some(used + 1)
}

// Appends a copy of so many symbols as are copied at once, from an index on, to those that are
// used. All are read before one is written, so that the two may overlap.
#[inline(always)]
fn put_chunk(room: &mut [Sym], used: usize, start: usize)
    requires start { start ≤ used }
    requires room { used + CHUNK ≤ length room.old }
    ensures put { take (used + CHUNK) room.new
        ≡ take used room.old ++ slice_range room.old start (start + CHUNK) }
    ensures long { length room.new ≡ length room.old }
{
    let mut chunk = [Sym(0); CHUNK];
    chunk.copy_from_slice(&room[start..start + CHUNK]);
    let (_, behind) = room.split_at_mut(used);
    let (into, _) = behind.split_at_mut(CHUNK);
    into.copy_from_slice(&chunk);
}

// Does as `put_part`, whether the part is short or long. It is a call, as most parts are short.
#[inline(never)]
fn put_any_part(room: &mut [Sym], used: usize, start: usize, end: usize) -> Option<usize>
    requires order { start ≤ end }
    requires inside { end ≤ used }
    requires used { used ≤ length room.old }
    ensures put { IfSome result (λ next. take next room.new
        ≡ take used room.old ++ slice_range (take used room.old) start end) }
    ensures order { IfSome result (λ next. used ≤ next) }
    ensures within { IfSome result (λ next. next ≤ length room.new) }
    ensures prefix { take used room.new ≡ take used room.old }
    ensures long { length room.new ≡ length room.old }
{
    if room.len() - used < end - start {
        return None;
    }
    put_part_behind(room, used, start, end);
    Some(used + (end - start))
}

// Appends a copy of a part of those that are used to them, and answers how many are used then;
// none where the room is too short for it. Most parts are short: of such a one as many symbols are
// copied as are copied at once, for which no length is asked. What is copied behind its end is
// behind those that are used.
#[inline(always)]
fn put_part(room: &mut [Sym], used: usize, start: usize, end: usize) -> Option<usize>
    requires order { start ≤ end }
    requires inside { end ≤ used }
    requires used { used ≤ length room.old }
    ensures put { IfSome result (λ next. take next room.new
        ≡ take used room.old ++ slice_range (take used room.old) start end) }
    ensures order { IfSome result (λ next. used ≤ next) }
    ensures within { IfSome result (λ next. next ≤ length room.new) }
    ensures prefix { take used room.new ≡ take used room.old }
    ensures long { length room.new ≡ length room.old }
{
    if end - start <= CHUNK && CHUNK <= room.len() - used {
        put_chunk(room, used, start);
        return Some(used + (end - start));
    }
    put_any_part(room, used, start, end)
}

// Puts what the piece says of the entries from the base on behind the symbols that are used, and
// answers how many are used then; none where the room is too short for it.
#[inline(always)]
fn put_piece(
    room: &mut [Sym],
    used: usize,
    stack: &[Entry],
    base: usize,
    piece: ShortPiece,
) -> Option<usize>
    requires parts { AreParts used stack.now }
    requires used { used ≤ length room.old }
    requires within { IsWithinIndices (length stack.now - base) piece }
    ensures said { IfSome result (λ end. (more : List Sym)
        × (take end room.new ≡ take used room.old ++ more)
        × (numbers_in more ≡ said_by (drop base (parts_of (take used room.old) stack.now)) piece)) }
    ensures order { IfSome result (λ end. used ≤ end) }
    ensures within { IfSome result (λ end. end ≤ length room.new) }
    ensures prefix { take used room.new ≡ take used room.old }
    ensures long { length room.new ≡ length room.old }
{
    if let Some(symbol) = piece.symbol() {
        return put_symbol(room, used, symbol);
    }
    let entry = stack[base + piece.index() as usize];
    put_part(room, used, value_start(entry), entry.end)
}

/// Puts what the pieces say of the entries from the base on behind the symbols that are used, and
/// answers how many are used then; none where the room is too short for it.
#[inline(always)]
pub(crate) fn put_pieces(
    room: &mut [Sym],
    used: usize,
    stack: &[Entry],
    base: usize,
    pieces: &[ShortPiece],
) -> Option<usize>
    requires parts { AreParts used stack.now }
    requires used { used ≤ length room.old }
    requires within { AllByRecursion (IsWithinIndices (length stack.now - base)) pieces.now }
    ensures said { IfSome result (λ end. (more : List Sym)
        × (take end room.new ≡ take used room.old ++ more)
        × (numbers_in more
        ≡ all_said_by (drop base (parts_of (take used room.old) stack.now)) pieces.now)) }
    ensures order { IfSome result (λ end. used ≤ end) }
    ensures within { IfSome result (λ end. end ≤ length room.new) }
    ensures prefix { take used room.new ≡ take used room.old }
    ensures long { length room.new ≡ length room.old }
{
    let mut end = used;
    for piece in pieces {
        end = put_piece(room, end, stack, base, *piece)?;
    }
    Some(end)
}
