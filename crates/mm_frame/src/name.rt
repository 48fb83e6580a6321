//! A name as a key, which two numbers tell from others where it is short.

ghost use Rattle.std.specs.Prelude.{◌≡◌, ℕ, ◌+◌, ◌<◌, ◌≤◌, length};
ghost use Rattle.std.specs.Int.{w16, w32, w64};
ghost use Rattle.mm_frame.specs.Mirror.NameKey.{number_at, ends_of};

use crate::guesses::GUESSES;
use std::hash::{Hash, Hasher};
use std::marker::Model;

// A name of fewer bytes has no ends.
const FEWEST_WITH_ENDS: usize = 2;

// A name of more bytes has some that are none of its ends.
const MOST_IN_ENDS: usize = 16;

// For the index of a name's guess its back is turned by so many bits before it meets its front, so
// that the two ends of a short name don't cancel each other.
const BACK_TURN: u32 = 29;

// What comes of them is multiplied by this, 2 to the 64 over the golden ratio.
const SPREAD: u64 = 0x9e37_79b9_7f4a_7c15;

// The index is what the product has from this bit on: all bits of the ends have a say in these.
const INDEX_SHIFT: u32 = 52;

// Two bytes from an index on, as a number.
#[inline(always)]
fn two_at(bytes: &[u8], at: usize) -> u16
    requires { at + 2 ≤ length bytes.now }
    ensures { result ≡ number_at w16 2 bytes.now at }
{
    u16::from_le_bytes([bytes[at], bytes[at + 1]])
}

// Four bytes from an index on, as a number.
#[inline(always)]
fn four_at(bytes: &[u8], at: usize) -> u32
    requires { at + 4 ≤ length bytes.now }
    ensures { result ≡ number_at w32 4 bytes.now at }
{
    u32::from_le_bytes([bytes[at], bytes[at + 1], bytes[at + 2], bytes[at + 3]])
}

// Eight bytes from an index on, as a number.
#[inline(always)]
fn eight_at(bytes: &[u8], at: usize) -> u64
    requires { at + 8 ≤ length bytes.now }
    ensures { result ≡ number_at w64 8 bytes.now at }
{
    u64::from_le_bytes([
        bytes[at],
        bytes[at + 1],
        bytes[at + 2],
        bytes[at + 3],
        bytes[at + 4],
        bytes[at + 5],
        bytes[at + 6],
        bytes[at + 7],
    ])
}

// The first bytes of a name and its last, as numbers.
#[inline(always)]
#[tactic(auto, using(crate::proofs::Names::NameTables::end_steps))]
fn ends(bytes: &[u8]) -> (u64, u64)
    ensures { result ≡ ends_of bytes.now }
{
    let count = bytes.len();
    if count >= 8 {
        return (eight_at(bytes, 0), eight_at(bytes, count - 8));
    }
    if count >= 4 {
        let prefix = four_at(bytes, 0);
        let back = four_at(bytes, count - 4);
        return (u64::from(prefix), u64::from(back));
    }
    if count >= FEWEST_WITH_ENDS {
        let prefix = two_at(bytes, 0);
        let back = two_at(bytes, count - 2);
        return (u64::from(prefix), u64::from(back));
    }
    (0, 0)
}

/// A name as a key.
///
/// Its ends stand beside it as numbers: its first bytes and its last, 8 of each, or 4, or 2, as
/// many as it has. A name of 2 to 16 bytes is given by them and its length, without a look at where
/// it stands in a file, which is mostly not in the cache.
#[derive(Drop)]
pub struct Name<'a> {
    bytes: &'a [u8],
    prefix: u64,
    back: u64,
}

impl<'a> Model for Name<'a> {
    ghost use Rattle.std.specs.Prelude.{ℕ, List};
    ghost use Rattle.mm_frame.specs.Mirror.NameKey.{IsKey};

    ghost Value = { List ℕ };

    ghost view = { λ n. n.bytes.now };

    ghost invariant = { λ n. IsKey n.bytes.now n.prefix n.back };
}

impl<'a> Name<'a> {
    /// The key of a name.
    pub(crate) fn new(bytes: &'a [u8]) -> Name<'a>
        ensures { result ≡ bytes.now }
    {
        let (prefix, back) = ends(bytes);
        Name {
            bytes,
            prefix,
            back,
        }
    }

    /// The name.
    pub(crate) fn bytes(&self) -> &'a [u8]
        ensures { result.now ≡ self.now }
    {
        self.bytes
    }

    /// The index of the guess of its number, which its ends tell.
    #[inline(always)]
    pub(crate) fn index(&self) -> usize
        ensures below { result < 4096 }
    {
        let ends = self.prefix ^ self.back.rotate_left(BACK_TURN);
        (ends.wrapping_mul(SPREAD) >> INDEX_SHIFT) as usize % GUESSES
    }
}

impl PartialEq for Name<'_> {
    ghost use Rattle.std.specs.Str.{bytes_eq};
    ghost use Rattle.std.specs.Cmp.Rules.{comparing};
    ghost use Rattle.std.proofs.Common.{rules};

    ghost eq = { λ a b. bytes_eq a b };

    ghost laws = { Prim.search (comparing, rules) };

    fn eq(&self, other: &Self) -> bool {
        if self.prefix != other.prefix || self.back != other.back {
            return false;
        }
        let count = self.bytes.len();
        if count != other.bytes.len() {
            return false;
        }
        if count >= FEWEST_WITH_ENDS && count <= MOST_IN_ENDS {
            return true;
        }
        self.bytes == other.bytes
    }
}

impl Eq for Name<'_> {
    ghost use Rattle.std.specs.Cmp.Rules.{comparing};
    ghost use Rattle.std.proofs.Common.{rules};

    ghost laws = { Prim.search (comparing, rules) };
}

impl Hash for Name<'_> {
    ghost use Rattle.std.specs.Cmp.Rules.{hashing};
    ghost use Rattle.std.proofs.Common.{rules};
    ghost use Rattle.mm_frame.specs.Mirror.NameKey.{hashed};

    ghost hash_input = { hashed };

    ghost respects_eq = { Prim.search (hashing, rules) };

    // The ends of a longer name aren't all of it, and many may have the same.
    fn hash<H: Hasher>(&self, state: &mut H) {
        if self.bytes.len() > MOST_IN_ENDS {
            state.write(self.bytes);
        } else {
            state.write_u64(self.prefix);
            state.write_u64(self.back);
        }
    }
}
