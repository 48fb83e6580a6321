//! Guesses of the numbers of names.

use crate::lists::{at as at_index, write};
use std::alloc::Global;

/// How many guesses there are.
pub(crate) const GUESSES: usize = 4096;

/// Guesses of the numbers of names, by which a name that was looked up lately is found sooner.
/// None of them is relied on: what is found doesn't depend on them.
#[derive(Drop)]
pub struct Guesses {
    numbers: Vec<u32>,
}

impl Guesses {
    /// Guesses that are all the first number. Where memory for them is refused there are none, and
    /// each name is found as without them.
    pub fn new(alloc: Global) -> Guesses {
        let mut numbers = Vec::new(alloc);
        let _ = numbers.resize(GUESSES, 0);
        Guesses { numbers }
    }

    /// The guess at an index.
    #[inline(always)]
    pub(crate) fn at(&self, index: usize) -> u32 {
        match at_index(&self.numbers, index) {
            Some(number) => number,
            None => 0,
        }
    }

    /// Notes a number as the guess at an index.
    #[inline(always)]
    pub(crate) fn set(&mut self, index: usize, number: u32) {
        write(&mut self.numbers, index, number);
    }
}
