//! How many letters numbers and codes need, without writing them.

ghost use Rattle.std.specs.Prelude.{◌≡◌, min, ◌≤◌, length};
ghost use Rattle.mm_code.specs.LetterCount.{letters_for as letters_needed, letters_of};
ghost use Rattle.mm_code.specs.LetterCount.{letter_count as letters_in};

use crate::code::Code;

/// How many letters the spelling of a number has: 1 up to 20, 2 up to 120, 3 up to 620, and so on.
/// 0 has no spelling, and 0 letters.
#[tactic(auto, using(crate::proofs::LetterCounts::letter_thresholds))]
pub fn letters_for(number: u32) -> usize
    ensures needed { result ≡ letters_needed number }
    // The largest `u32` has 13.
    ensures few { result ≤ 13 }
{
    let number = u64::from(number);
    let mut within = 0u64;
    let mut letters = 0;
    while within < number {
        within = 20 + 5 * within;
        letters += 1;
    }
    letters
}

/// How many letters say a code.
fn letters_of_code(code: Code) -> usize
    ensures counted { result ≡ letters_of code }
    ensures few { result ≤ 13 }
{
    match code {
        Code::Number(number) => letters_for(number),
        Code::Tag => 1,
    }
}

/// How many letters say the codes: as many as `write_codes` writes of them. Up to 4,294,967,296
/// codes have fewer than `usize::MAX`.
pub fn letter_count(codes: &[Code]) -> usize
    ensures counted { result ≡ min (letters_in codes.now) usize.MAX }
    // So few codes are counted exactly.
    ensures exact { length codes.now ≤ 4294967296 → result ≡ letters_in codes.now }
{
    let mut letters = 0usize;
    for code in codes {
        letters = letters.saturating_add(letters_of_code(*code));
    }
    letters
}
