//! Sets of numbers, as the bits of words, and a search among rising numbers.

ghost use Rattle.std.specs.Prelude.{◌≡◌, ◌↔◌, ◌<◌, ℕ, map, length, Contains, true, IsTrue};
ghost use Rattle.std.specs.Prelude.{IfSome, Some, None, slice_get};
ghost use Rattle.mm_rules.specs.Rests.{AreRising};
ghost use Rattle.mm_axioms.specs.Mirror.Bits.{IsRow, is_bit_of, has_number as has_number_in};
ghost use Rattle.mm_axioms.specs.Mirror.Bits.{IsPartOf};

use mm_frame::LabelId;

pub(crate) const WORD_BITS: usize = 64;

/// A word of a set: its bits are for the 64 numbers from 64 times its index on.
#[derive(Clone, Copy)]
pub(crate) struct SetWord {
    pub index: usize,
    pub bits: u64,
}

/// Whether a word has the bit of a number.
pub(crate) fn has_bit(word: SetWord, number: usize) -> bool
    ensures { result ≡ is_bit_of word number }
{
    word.index == number / WORD_BITS && (word.bits >> (number % WORD_BITS) as u32) & 1 == 1
}

/// Whether a number is in a set, which is given by those of its words that aren't 0.
pub(crate) fn has_number(row: &[SetWord], number: usize) -> bool
    ensures { result ≡ has_number_in row.now number }
{
    for word in row {
        if has_bit(*word, number) {
            return true;
        }
    }
    false
}

/// Whether a word has each bit of another one.
fn is_part_of(word: SetWord, other: SetWord) -> bool
    ensures { IsTrue result ↔ IsPartOf word other }
{
    word.index == other.index && word.bits & other.bits == word.bits
}

/// Whether each number of a set is in another one.
pub(crate) fn is_within(row: &[SetWord], others: &[SetWord]) -> bool
    requires row { IsRow row.now }
    requires others { IsRow others.now }
    ensures { IsTrue result ↔ ((n : ℕ) → has_number_in row.now n ≡ true
        → has_number_in others.now n ≡ true) }
{
    let mut found = 0;
    for other in others {
        if found < row.len() && is_part_of(row[found], *other) {
            found += 1;
        }
    }
    found == row.len()
}

/// The index of a number among rising ones.
pub fn index_of(numbers: &[LabelId], id: LabelId) -> Option<usize>
    requires { AreRising (map (λ l. l.0) numbers.now) }
    ensures found { IfSome result (λ at. slice_get (map (λ l. l.0) numbers.now) at ≡ Some id.0) }
    ensures none { result ≡ None → ¬ (Contains (map (λ l. l.0) numbers.now) id.0) }
{
    let mut low = 0;
    let mut high = numbers.len();
    while low < high {
        let middle = low + (high - low) / 2;
        let number = numbers[middle];
        if number.0 == id.0 {
            return Some(middle);
        }
        if number.0 < id.0 {
            low = middle + 1;
        } else {
            high = middle;
        }
    }
    None
}
