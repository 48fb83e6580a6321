//! Laws of the letter code and of the layouts. Each is the contract of a function that does
//! nothing: to call it is to know the law.

ghost use Rattle.std.specs.Prelude.{◌≡◌, ◌≤◌, ℕ, List, length};
ghost use Rattle.mm_code.specs.declared.code.Code.{Code};
ghost use Rattle.mm_code.specs.Letters.{IsSpelling, SpellsCodes};
ghost use Rattle.mm_code.specs.LetterCount.{letter_count};

/// Each number from 1 on has exactly one spelling, and no text spells two numbers. The numbers have
/// no upper bound.
pub fn one_spelling()
    ensures some { (number : ℕ) → 1 ≤ number → (text : List ℕ) × IsSpelling text number }
    ensures only { (a b : List ℕ) (number : ℕ) → IsSpelling a number → IsSpelling b number → a ≡ b }
    ensures number { (text : List ℕ) (m n : ℕ) → IsSpelling text m → IsSpelling text n → m ≡ n }
{}

/// How many letters codes have is the length of the text that spells them.
#[tactic(auto, using(crate::proofs::LetterCounts::text_length))]
pub fn letters_counted()
    ensures { (text : List ℕ) (codes : List Code) →
        SpellsCodes text codes → length text ≡ letter_count codes }
{}
