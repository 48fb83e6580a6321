//! Numbers, listed under keys.

use indexmap::IndexMap;
use mm_base::Seed;
use std::alloc::{AllocError, Global};

/// For each key some numbers, in the order in which they were added.
#[derive(Drop)]
pub struct Listed {
    alloc: Global,
    lists: IndexMap<u32, Vec<u32>, Seed>,
}

impl Listed {
    /// No numbers; the hashes of keys begin from the seed.
    pub fn new(alloc: Global, seed: Seed) -> Listed {
        Listed {
            alloc,
            lists: IndexMap::with_hasher(alloc, seed),
        }
    }

    /// The numbers under a key.
    pub fn under(&self, key: u32) -> &[u32] {
        match self.lists.get(&key) {
            Some(numbers) => numbers,
            None => &[],
        }
    }

    /// Adds a number under a key.
    pub fn add(&mut self, key: u32, number: u32) -> Result<(), AllocError> {
        if self.lists.get(&key).is_none() {
            self.lists.insert(key, Vec::new(self.alloc))?;
        }
        if let Some(numbers) = self.lists.get_mut(&key) {
            numbers.push(number)?;
        }
        Ok(())
    }
}
