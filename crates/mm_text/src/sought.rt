//! The first byte of a kind that is looked for, many bytes at a time.

ghost use Rattle.std.specs.Prelude.{◌≡◌, ℕ, ◌<◌, ◌≤◌, nat_lt, true, false, length};
ghost use Rattle.std.specs.Prelude.{slice_index};
ghost use Rattle.mm_text.specs.Mirror.Stripped.{is_spoken};
ghost use Rattle.mm_text.specs.Mirror.Sought.{IsRunIn, first_set};

use std::simd::prelude::*;

/// Bytes that are looked for: those that aren't passed over.
pub trait Sought {
    ghost use Rattle.std.specs.Prelude.{◌≡◌, ℕ, Bool, ◌+◌, ◌≤◌, length};
    ghost use Rattle.mm_text.specs.Mirror.Sought.{IsRunIn};

    /// Whether a byte is passed over.
    ghost passed: { ℕ → Bool };

    /// So many bytes are looked at at once.
    ghost lanes: { ℕ };

    /// So many bytes are looked at at once.
    fn lanes() -> usize
        ensures lanes { result ≡ lanes }
        ensures some { 1 ≤ result };

    /// Whether a byte is passed over.
    fn is_passed(byte: u8) -> bool
        ensures { result ≡ passed byte };

    /// How many of so many bytes from a position on are passed over before one that isn't.
    fn passed_run(bytes: &[u8], at: usize) -> usize
        requires { at + lanes ≤ length bytes.now }
        ensures { IsRunIn passed bytes.now at lanes result };
}

/// The position of the lowest bit of a mask that is set, or how many bits it has where none is.
#[inline(always)]
pub fn first_set(mask: u64, lanes: usize) -> usize
    ensures { result ≡ first_set mask lanes }
{
    if mask == 0 {
        lanes
    } else {
        mask.trailing_zeros() as usize
    }
}

/// White space and `$`, and the few other bytes that are less than these.
pub struct Low;

impl Sought for Low {
    ghost passed = { nat_lt 36 };

    ghost lanes = { 16 };

    // Nearly all words are shorter.
    #[inline(always)]
    fn lanes() -> usize {
        16
    }

    fn is_passed(byte: u8) -> bool {
        byte > b'$'
    }

    #[inline(always)]
    fn passed_run(bytes: &[u8], at: usize) -> usize {
        let low = u8x16::from_slice(&bytes[at..]).simd_le(u8x16::splat(b'$'));
        first_set(low.to_bitmask(), 16)
    }
}

/// `$`, line feeds, and what is neither a printable byte nor a space: what isn't simply left out of
/// a comment.
pub struct Spoken;

impl Sought for Spoken {
    ghost passed = { is_spoken };

    ghost lanes = { 64 };

    #[inline(always)]
    fn lanes() -> usize {
        64
    }

    fn is_passed(byte: u8) -> bool {
        byte >= b' ' && byte <= b'~' && byte != b'$'
    }

    #[inline(always)]
    fn passed_run(bytes: &[u8], at: usize) -> usize {
        let block = u8x64::from_slice(&bytes[at..]);
        // From a space on to `~` there are 95 bytes.
        let unprintable = (block - u8x64::splat(b' ')).simd_ge(u8x64::splat(95));
        first_set(
            (unprintable | block.simd_eq(u8x64::splat(b'$'))).to_bitmask(),
            64,
        )
    }
}

/// Does as `first_sought`, byte by byte. It is a call, since it is rare: where a file ends.
#[cold]
#[inline(never)]
fn first_slowly<S: Sought>(bytes: &[u8], start: usize) -> usize
    requires { start ≤ length bytes.now }
    ensures from { start ≤ result }
    ensures within { result ≤ length bytes.now }
    ensures passed { (k : ℕ) → start ≤ k → k < result → S.passed (slice_index bytes.now k) ≡ true }
    ensures stops { result < length bytes.now → S.passed (slice_index bytes.now result) ≡ false }
{
    for at in start..bytes.len() {
        if !S::is_passed(bytes[at]) {
            return at;
        }
    }
    bytes.len()
}

/// The position of the first byte from a position on that isn't passed over, or the file's end.
#[inline(always)]
pub fn first_sought<S: Sought>(bytes: &[u8], start: usize) -> usize
    requires { start ≤ length bytes.now }
    ensures from { start ≤ result }
    ensures within { result ≤ length bytes.now }
    ensures passed { (k : ℕ) → start ≤ k → k < result → S.passed (slice_index bytes.now k) ≡ true }
    ensures stops { result < length bytes.now → S.passed (slice_index bytes.now result) ≡ false }
{
    let mut at = start;
    while bytes.len() - at >= S::lanes() {
        let run = S::passed_run(bytes, at);
        if run < S::lanes() {
            return at + run;
        }
        at += S::lanes();
    }
    first_slowly::<S>(bytes, at)
}
