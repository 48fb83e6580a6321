//! Rows of numbers, each once.

use indexmap::IndexMap;
use mm_base::Seed;
use std::alloc::{AllocError, Global};
use std::hash::{BuildHasher, Hasher};

/// Rows of numbers: a row's own number is its index. All those behind 4,294,967,295 others would
/// have that number.
#[derive(Drop)]
pub struct Rows {
    seed: Seed,
    /// The numbers of all rows, one row after the other.
    numbers: Vec<u32>,
    /// Where each row ends.
    ends: Vec<usize>,
    /// For each hash the last row that has it.
    last: IndexMap<u64, u32, Seed>,
    /// For each row the one before it that has the same hash.
    earlier: Vec<Option<u32>>,
}

impl Rows {
    /// No rows, whose hashes begin from the seed. It takes no memory.
    pub fn new(alloc: Global, seed: Seed) -> Rows {
        Rows {
            seed,
            numbers: Vec::new(alloc),
            ends: Vec::new(alloc),
            last: IndexMap::with_hasher(alloc, seed),
            earlier: Vec::new(alloc),
        }
    }

    /// How many there are.
    pub fn len(&self) -> usize {
        self.ends.len()
    }

    /// The numbers of a row; none where there is no such row.
    pub fn get(&self, row: u32) -> &[u32] {
        let Some(end) = self.ends.get(row as usize).copied() else {
            return &[];
        };
        let start = if row == 0 {
            0
        } else {
            self.ends.get(row as usize - 1).copied().unwrap_or(end)
        };
        self.numbers.get(start..end).unwrap_or(&[])
    }

    /// The row with these numbers, which is added where it isn't there.
    pub fn row(&mut self, numbers: &[u32]) -> Result<u32, AllocError> {
        let hash = self.hash(numbers);
        if let Some(row) = self.find_hashed(hash, numbers) {
            return Ok(row);
        }
        let row = next_number(self.ends.len());
        let earlier = self.last.insert(hash, row)?;
        self.earlier.push(earlier)?;
        self.numbers.extend_from_slice(numbers)?;
        self.ends.push(self.numbers.len())?;
        Ok(row)
    }

    // The hash of a row.
    fn hash(&self, numbers: &[u32]) -> u64 {
        let mut hasher = self.seed.build_hasher();
        for number in numbers {
            hasher.write_u32(*number);
        }
        hasher.finish()
    }

    // The row with this hash and these numbers, if it is there.
    fn find_hashed(&self, hash: u64, numbers: &[u32]) -> Option<u32> {
        let mut next = self.last.get(&hash).copied();
        for _ in 0..self.earlier.len() {
            let row = next?;
            if self.get(row) == numbers {
                return Some(row);
            }
            next = self.earlier.get(row as usize).copied().flatten();
        }
        None
    }
}

/// The number of the next of some things that are numbered by 32 bits.
pub fn next_number(count: usize) -> u32 {
    u32::try_from(count).unwrap_or(u32::MAX)
}
