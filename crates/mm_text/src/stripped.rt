//! Comments without what they say.
//!
//! What a comment says is of no effect, but for its line feeds, by which lines are counted, and for
//! its faults. So of a comment its `$(`, its line feeds and its `$)` are kept as its file is read,
//! and not what it says: a file then takes less memory, and nothing goes over the comments again.
//! Where a comment holds what ends or breaks one, it is kept from there on.

ghost use Rattle.std.specs.Prelude.{◌≡◌, ◌+◌, ◌-◌, ◌<◌, ◌≤◌, ◌++◌, ◌∷◌, [], ℕ, List, length};
ghost use Rattle.std.specs.Prelude.{IfOk, IsOk, OnOk};
ghost use Rattle.std.specs.Prelude.{slice_range};
ghost use Rattle.mm_text.specs.Alike.{ShowAlike};
ghost use Rattle.mm_text.specs.Mirror.Stripped.{IsAt, IsStripped, feeds, held, ink, last_before};
ghost use Rattle.mm_text.specs.declared.stripped.State.TheVariants.{Inside, Marked};

use crate::scan::{is_quiet, is_space};
use crate::sought::{Spoken, first_set, first_sought};
use std::alloc::AllocError;
use std::simd::prelude::*;

/// Where a file ends that was read so far.
#[derive(Clone, Copy)]
pub enum State {
    /// Outside the comments whose words are left out.
    Outside,
    /// There, after white space or at the file's begin.
    Blank,
    /// There, after a `$` that begins a token.
    Dollar,
    /// There, after a `$(` that begins a token.
    Begun,
    /// In a comment, after this byte of it; that is held back where it is one of a word.
    Inside(u8),
    /// In a comment, after this byte of it and a `$`; both are held back.
    Marked(u8),
}

impl State {
    // Where the file ends after one more byte that is kept.
    fn after(self, byte: u8) -> State
        ensures at { (kept : List ℕ) → IsAt kept self → IsAt (kept ++ byte ∷ []) result }
        ensures none { held result ≡ [] }
    {
        match self {
            State::Begun if is_space(byte) => State::Inside(byte),
            _ if is_space(byte) => State::Blank,
            State::Blank if byte == b'$' => State::Dollar,
            State::Dollar if byte == b'(' => State::Begun,
            _ => State::Outside,
        }
    }
}

// How many of 64 bytes from a position on come before a `$` that a `(` follows; all where there is
// none.
#[inline(always)]
fn run_before_mark(piece: &[u8], at: usize) -> usize
    requires { at + 64 < length piece.now }
    ensures { result ≤ 64 }
{
    let dollars = u8x64::from_slice(&piece[at..]).simd_eq(u8x64::splat(b'$'));
    let begins = u8x64::from_slice(&piece[at + 1..]).simd_eq(u8x64::splat(b'('));
    first_set((dollars & begins).to_bitmask(), 64)
}

// Does as `mark_position`, byte by byte. It is a call, since it is rare: where a piece ends.
#[cold]
#[inline(never)]
fn mark_slowly(piece: &[u8], start: usize) -> usize
    requires { start ≤ length piece.now }
    ensures from { start ≤ result }
    ensures within { result ≤ length piece.now }
{
    for at in start..piece.len() {
        if piece[at] == b'$' && (at + 1 == piece.len() || piece[at + 1] == b'(') {
            return at;
        }
    }
    piece.len()
}

// The position of the first `$` from a position on that a `(` follows, or that is the last byte; or
// the end. What is kept doesn't depend on it: all up to there is kept as it is.
fn mark_position(piece: &[u8], start: usize) -> usize
    requires { start ≤ length piece.now }
    ensures from { start ≤ result }
    ensures within { result ≤ length piece.now }
{
    let mut at = start;
    while piece.len() - at > 64 {
        let run = run_before_mark(piece, at);
        at += run;
        if run < 64 {
            return at;
        }
    }
    mark_slowly(piece, at)
}

/// A file without what its comments say, as far as it was read.
#[derive(Drop)]
pub struct Stripped {
    pub kept: Vec<u8>,
    pub state: State,
}

impl Stripped {
    /// Nothing of a file yet. The list is empty, and has room for what is kept.
    pub fn new(kept: Vec<u8>) -> Stripped
        requires { kept.items ≡ [] }
        ensures stripped { IsStripped [] result.kept.items result.state }
        ensures none { held result.state ≡ [] }
    {
        Stripped {
            kept,
            state: State::Blank,
        }
    }

    // Keeps the byte, where it is one of a word.
    fn keep_ink(&mut self, byte: u8) -> Result<(), AllocError>
        ensures kept { OnOk result (self.new.kept.items ≡ self.old.kept.items ++ ink byte) }
        ensures calm { ink byte ≡ [] → IsOk result }
        ensures state { self.new.state ≡ self.old.state }
    {
        if !is_space(byte) {
            self.kept.push(byte)?;
        }
        Ok(())
    }

    // Keeps what is held back.
    fn keep_held(&mut self) -> Result<(), AllocError>
        ensures kept { OnOk result
            (self.new.kept.items ≡ self.old.kept.items ++ held self.old.state) }
        ensures calm { held self.old.state ≡ [] → IsOk result }
    {
        match self.state {
            State::Inside(last) => self.keep_ink(last)?,
            State::Marked(last) => {
                self.keep_ink(last)?;
                self.kept.push(b'$')?;
            }
            _ => {}
        }
        Ok(())
    }

    // Keeps what is held back, and the byte behind it.
    fn keep_all(&mut self, byte: u8) -> Result<(), AllocError>
        ensures { OnOk result ((bytes : List ℕ)
            → IsStripped bytes self.old.kept.items self.old.state
            → IsStripped (bytes ++ byte ∷ []) self.new.kept.items self.new.state) }
    {
        self.keep_held()?;
        self.kept.push(byte)?;
        self.state = State::Outside;
        Ok(())
    }

    // Leaves out a byte of a comment, but for its line feed.
    fn leave_out(&mut self, byte: u8) -> Result<(), AllocError>
        ensures kept { OnOk result
            (self.new.kept.items ≡ self.old.kept.items ++ feeds (byte ∷ [])) }
        ensures state { OnOk result (self.new.state ≡ Inside byte) }
    {
        if byte == b'\n' {
            self.kept.push(byte)?;
        }
        self.state = State::Inside(byte);
        Ok(())
    }

    // Takes the next byte of a comment, which may begin a mark.
    fn take_spoken(&mut self, last: u8, byte: u8) -> Result<(), AllocError>
        requires { self.old.state ≡ Inside last }
        ensures { OnOk result ((bytes : List ℕ)
            → IsStripped bytes self.old.kept.items self.old.state
            → IsStripped (bytes ++ byte ∷ []) self.new.kept.items self.new.state) }
    {
        if is_quiet(byte) {
            self.leave_out(byte)
        } else if byte == b'$' {
            self.state = State::Marked(last);
            Ok(())
        } else {
            self.keep_all(byte)
        }
    }

    // Takes the byte of a comment that comes behind a `$`.
    fn take_marked(&mut self, last: u8, byte: u8) -> Result<(), AllocError>
        requires { self.old.state ≡ Marked last }
        ensures { OnOk result ((bytes : List ℕ)
            → IsStripped bytes self.old.kept.items self.old.state
            → IsStripped (bytes ++ byte ∷ []) self.new.kept.items self.new.state) }
    {
        if is_quiet(byte) && byte != b'(' && byte != b')' {
            self.leave_out(byte)
        } else {
            self.keep_all(byte)
        }
    }

    // Keeps the byte, where none is held back.
    fn keep(&mut self, byte: u8) -> Result<(), AllocError>
        requires { held self.old.state ≡ [] }
        ensures { OnOk result ((bytes : List ℕ)
            → IsStripped bytes self.old.kept.items self.old.state
            → IsStripped (bytes ++ byte ∷ []) self.new.kept.items self.new.state) }
    {
        self.kept.push(byte)?;
        self.state = self.state.after(byte);
        Ok(())
    }

    // Takes the next byte.
    fn take_one(&mut self, byte: u8) -> Result<(), AllocError>
        ensures { OnOk result ((bytes : List ℕ)
            → IsStripped bytes self.old.kept.items self.old.state
            → IsStripped (bytes ++ byte ∷ []) self.new.kept.items self.new.state) }
    {
        match self.state {
            State::Inside(last) => self.take_spoken(last, byte),
            State::Marked(last) => self.take_marked(last, byte),
            _ => self.keep(byte),
        }
    }

    // Keeps bytes among which no comment begins.
    fn keep_run(&mut self, run: &[u8]) -> Result<(), AllocError>
        requires some { 1 ≤ length run.now }
        requires none { held self.old.state ≡ [] }
        ensures { OnOk result ((bytes : List ℕ)
            → IsStripped bytes self.old.kept.items self.old.state
            → IsStripped (bytes ++ run.now) self.new.kept.items self.new.state) }
    {
        self.kept.extend_from_slice(run)?;
        self.state = if is_space(run[run.len() - 1]) {
            State::Blank
        } else {
            State::Outside
        };
        Ok(())
    }

    // Leaves out what a comment says from a position on, up to the first byte of it that isn't
    // simply left out and no line feed; or up to the end.
    fn leave_out_lines(&mut self, piece: &[u8], start: usize) -> Result<usize, AllocError>
        requires inside { (last : ℕ) × (self.old.state ≡ Inside last) }
        requires within { start ≤ length piece.now }
        ensures from { IfOk result (λ end. start ≤ end) }
        ensures within { IfOk result (λ end. end ≤ length piece.now) }
        ensures stripped { IfOk result (λ end. (bytes : List ℕ)
            → IsStripped bytes self.old.kept.items self.old.state
            → IsStripped (bytes ++ slice_range piece.now start end)
            self.new.kept.items self.new.state) }
    {
        let mut at = start;
        loop {
            let end = first_sought::<Spoken>(piece, at);
            if end == piece.len() || piece[end] != b'\n' {
                self.pass(piece, at, end);
                return Ok(end);
            }
            self.leave_out(b'\n')?;
            at = end + 1;
        }
    }

    // Notes the last byte of a part of a comment that is left out.
    fn pass(&mut self, piece: &[u8], start: usize, end: usize)
        requires order { start ≤ end }
        requires within { end ≤ length piece.now }
        ensures kept { self.new.kept.items ≡ self.old.kept.items }
        ensures state { (last : ℕ) → self.old.state ≡ Inside last
            → self.new.state ≡ Inside (last_before piece.now start last (end - start)) }
    {
        if start < end {
            self.state = State::Inside(piece[end - 1]);
        }
    }

    // Takes the bytes from a position on up to the position that is answered.
    fn take_some(&mut self, piece: &[u8], at: usize) -> Result<usize, AllocError>
        requires { at < length piece.now }
        ensures from { IfOk result (λ end. at < end) }
        ensures within { IfOk result (λ end. end ≤ length piece.now) }
        ensures stripped { IfOk result (λ end. (bytes : List ℕ)
            → IsStripped bytes self.old.kept.items self.old.state
            → IsStripped (bytes ++ slice_range piece.now at end)
            self.new.kept.items self.new.state) }
    {
        match self.state {
            State::Outside | State::Blank => {
                let end = mark_position(piece, at);
                if end > at {
                    self.keep_run(&piece[at..end])?;
                    return Ok(end);
                }
            }
            State::Inside(_) => {
                let end = self.leave_out_lines(piece, at)?;
                if end > at {
                    return Ok(end);
                }
            }
            _ => {}
        }
        self.take_one(piece[at])?;
        Ok(at + 1)
    }

    /// Takes the next bytes of the file.
    pub fn take(&mut self, piece: &[u8]) -> Result<(), AllocError>
        ensures { OnOk result ((bytes : List ℕ)
            → IsStripped bytes self.old.kept.items self.old.state
            → IsStripped (bytes ++ piece.now) self.new.kept.items self.new.state) }
    {
        let mut at = 0;
        while at < piece.len() {
            at = self.take_some(piece, at)?;
        }
        Ok(())
    }

    /// What was kept of the file, which ends here.
    pub fn finish(mut self) -> Result<Vec<u8>, AllocError>
        ensures calm { held self.state ≡ [] → IsOk result }
        ensures same { IfOk result (λ kept. (bytes : List ℕ)
            → IsStripped bytes self.kept.items self.state
            → ShowAlike bytes kept.items
            × (length kept.items ≤ length bytes)) }
    {
        self.keep_held()?;
        Ok(self.kept)
    }
}
