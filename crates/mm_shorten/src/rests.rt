//! What assertions depend on, as sets of bits.

use crate::range::{Range, part};
use crate::trie::next_number;
use mm_frame::LabelId;
use std::alloc::{AllocError, Global};

const WORD_BITS: usize = 32;

/// What an assertion depends on.
#[derive(Clone, Copy)]
pub enum Rests<'u> {
    /// On itself: an axiom, or a theorem whose proof is incomplete.
    Itself,
    /// On what these assertions depend on: those that its proof uses.
    Uses(&'u [LabelId]),
}

/// Some members of a set: those whose numbers are bits of one word.
#[derive(Clone, Copy)]
pub(crate) struct Word {
    /// Which word it is.
    index: u32,
    bits: u32,
}

/// For each label the set of what it rests on: of the assertions that rest on themselves, by their
/// numbers. Words without members are left out.
#[derive(Drop)]
pub(crate) struct Grounds {
    alloc: Global,
    /// How many assertions depend on themselves.
    count: usize,
    ranges: Vec<Range>,
    words: Vec<Word>,
}

impl Grounds {
    /// No labels. It takes no memory.
    pub(crate) fn new(alloc: Global) -> Grounds {
        Grounds {
            alloc,
            count: 0,
            ranges: Vec::new(alloc),
            words: Vec::new(alloc),
        }
    }

    /// The set of a label; the empty one where none was entered.
    pub(crate) fn set(&self, label: LabelId) -> &[Word] {
        let Some(range) = self.ranges.get(label.0 as usize).copied() else {
            return &[];
        };
        part(&self.words, range)
    }

    /// What a proof depends on that uses these assertions, with all words.
    pub(crate) fn union(&self, uses: &[LabelId]) -> Result<Vec<u32>, AllocError> {
        let alloc = self.alloc;
        let mut all = vec![in alloc; 0u32; self.count / WORD_BITS + 1]?;
        for label in uses {
            join(&mut all, self.set(*label));
        }
        Ok(all)
    }

    /// Enters what an assertion depends on.
    pub(crate) fn enter(&mut self, label: LabelId, rests: Rests) -> Result<(), AllocError> {
        let start = next_number(self.words.len());
        match rests {
            Rests::Itself => self.add_next()?,
            Rests::Uses(uses) => self.add_union(uses)?,
        }
        let end = next_number(self.words.len());
        self.put(label, Range { start, end })
    }

    // Adds the word of the next number alone.
    fn add_next(&mut self) -> Result<(), AllocError> {
        self.words.push(Word {
            index: next_number(self.count / WORD_BITS),
            bits: 1 << (self.count % WORD_BITS) as u32,
        })?;
        self.count = self.count.saturating_add(1);
        Ok(())
    }

    // Adds the words of what a proof depends on that uses these assertions.
    fn add_union(&mut self, uses: &[LabelId]) -> Result<(), AllocError> {
        let all = self.union(uses)?;
        for (index, bits) in all.iter().enumerate() {
            if *bits != 0 {
                self.words.push(Word {
                    index: next_number(index),
                    bits: *bits,
                })?;
            }
        }
        Ok(())
    }

    // Puts where the words of a label stand.
    fn put(&mut self, label: LabelId, range: Range) -> Result<(), AllocError> {
        for _ in self.ranges.len()..=label.0 as usize {
            self.ranges.push(Range { start: 0, end: 0 })?;
        }
        if let Some(place) = self.ranges.get_mut(label.0 as usize) {
            *place = range;
        }
        Ok(())
    }
}

// Adds the members of another set to the set.
fn join(set: &mut [u32], others: &[Word]) {
    for other in others {
        if let Some(bits) = set.get_mut(other.index as usize) {
            *bits |= other.bits;
        }
    }
}

/// Whether each member of the one set is in the other one, which has all words.
pub(crate) fn is_within(set: &[Word], others: &[u32]) -> bool {
    for word in set {
        let bits = others.get(word.index as usize).copied().unwrap_or(0);
        if word.bits & bits != word.bits {
            return false;
        }
    }
    true
}
