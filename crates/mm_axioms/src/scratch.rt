//! A set that is filled and emptied again for each theorem.

ghost use Rattle.std.specs.Prelude.{◌≡◌, ◌↔◌, ◌⊎◌, ◌<◌, ◌+◌, ◌/◌, ◌++◌, ◌∷◌, [], ℕ, length};
ghost use Rattle.std.specs.Prelude.{true, IfOk, OnOk, Contains, set, slice_index_or, bit_or};
ghost use Rattle.std.specs.Prelude.{replicate};
ghost use Rattle.mm_axioms.specs.Mirror.Bits.{IsRow, has_bit as has_bit_at, has_number, words_from};

use crate::bits::{SetWord, WORD_BITS};
use std::alloc::{AllocError, Global};
use std::marker::Model;

const BLOCK_WORDS: usize = 64;

/// A set of numbers, as the bits of words. With each block of words it keeps whether a bit of them
/// was set, so that the words that aren't 0 are found without a look at all the others: a block of
/// 64 words is for 4096 numbers.
#[derive(Drop)]
pub(crate) struct Scratch {
    words: Vec<u64>,
    touched: Vec<bool>,
}

impl Model for Scratch {
    ghost use Rattle.std.specs.Prelude.{List, ℕ};

    ghost Value = { List ℕ };

    ghost view = { λ s. s.words.items };

    ghost use Rattle.mm_axioms.specs.Mirror.Scratch.{IsNoted};

    ghost invariant = { λ s. IsNoted s.words.items s.touched.items };
}

/// Appends a word to a list, if it has a bit.
fn push_word(out: &mut Vec<SetWord>, index: usize, bits: u64) -> Result<(), AllocError>
    ensures { OnOk result (out.new.items ≡ out.old.items ++ words_from index (bits ∷ [])) }
{
    if bits != 0 {
        out.push(SetWord { index, bits })?;
    }
    Ok(())
}

impl Scratch {
    /// An empty set, for numbers up to a greatest one.
    pub fn new(alloc: Global, greatest: usize) -> Result<Scratch, AllocError>
        ensures { IfOk result (λ s. s ≡ replicate (greatest / 64 + 1) 0) }
    {
        let count = greatest / WORD_BITS + 1;
        Ok(Scratch {
            words: vec![in alloc; 0u64; count]?,
            touched: vec![in alloc; false; count / BLOCK_WORDS + 1]?,
        })
    }

    /// Sets bits of a word.
    pub fn put(&mut self, word: SetWord)
        requires { word.index < length self.old }
        ensures { self.new ≡ set self.old word.index
            (bit_or (slice_index_or self.old word.index 0) word.bits) }
    {
        self.words[word.index] |= word.bits;
        self.touched[word.index / BLOCK_WORDS] = true;
    }

    /// Adds the numbers of another set to it.
    pub fn join(&mut self, row: &[SetWord])
        requires { (w : SetWord) → Contains row.now w → w.index < length self.old }
        ensures length { length self.new ≡ length self.old }
        ensures joined { (n : ℕ) → has_bit_at self.new n ≡ true
            ↔ ((has_bit_at self.old n ≡ true) ⊎ (has_number row.now n ≡ true)) }
    {
        for word in row {
            self.put(*word);
        }
    }

    /// Appends the words that aren't 0 to a list, in their order, and empties the set.
    pub fn drain(&mut self, out: &mut Vec<SetWord>) -> Result<(), AllocError>
        ensures words { OnOk result (out.new.items ≡ out.old.items ++ words_from 0 self.old) }
        ensures row { OnOk result (IsRow (words_from 0 self.old)) }
        ensures emptied { OnOk result (self.new ≡ replicate (length self.old) 0) }
    {
        let mut at = 0;
        while at < self.words.len() {
            if self.touched[at / BLOCK_WORDS] {
                push_word(out, at, self.words[at])?;
                self.words[at] = 0;
                at += 1;
            } else {
                at = (at / BLOCK_WORDS + 1) * BLOCK_WORDS;
            }
        }
        self.touched.fill(false);
        Ok(())
    }
}
