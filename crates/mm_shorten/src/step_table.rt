//! A hash table of steps of a trie, with open addressing.

use mm_base::Seed;
use std::alloc::{AllocError, Global};
use std::hash::{BuildHasher, Hasher};

/// The node of a trie at which each expression begins. No step leads to it.
pub(crate) const ROOT: u32 = 0;

/// A step of a trie: from a node by a symbol to another node, which isn't the root.
#[derive(Clone, Copy)]
pub(crate) struct Step {
    pub(crate) from: u32,
    pub(crate) symbol: u32,
    pub(crate) to: u32,
}

// A slot without a step.
const FREE: Step = Step {
    from: 0,
    symbol: 0,
    to: ROOT,
};

// How many slots a table has that has any, at first.
const FIRST_SLOTS: usize = 64;

/// Steps, each once, found by node and symbol.
#[derive(Drop)]
pub(crate) struct StepTable {
    alloc: Global,
    seed: Seed,
    /// The slots: none, or as many as a power of two. Half of them are free, or more.
    slots: Vec<Step>,
    /// How many steps there are.
    count: usize,
}

impl StepTable {
    /// No steps, whose hashes begin from the seed. It takes no memory.
    pub(crate) fn new(alloc: Global, seed: Seed) -> StepTable {
        StepTable {
            alloc,
            seed,
            slots: Vec::new(alloc),
            count: 0,
        }
    }

    /// Where the step from a node by a symbol leads.
    pub(crate) fn find(&self, from: u32, symbol: u32) -> Option<u32> {
        let index = self.index_of(from, symbol)?;
        let step = self.slots.get(index)?;
        if is_free(step) { None } else { Some(step.to) }
    }

    /// Adds a step, which isn't there yet.
    pub(crate) fn add(&mut self, step: Step) -> Result<(), AllocError> {
        if self.count >= self.slots.len() / 2 {
            self.grow()?;
        }
        self.place(step);
        self.count = self.count.saturating_add(1);
        Ok(())
    }

    // The index of the slot of a step, or of the free one where it would stand; none where no slot
    // is free.
    fn index_of(&self, from: u32, symbol: u32) -> Option<usize> {
        let start = self.hash(from, symbol);
        let last = self.slots.len().saturating_sub(1);
        for tried in 0..self.slots.len() {
            let index = start.wrapping_add(tried) & last;
            let step = self.slots.get(index)?;
            if is_free(step) || (step.from == from && step.symbol == symbol) {
                return Some(index);
            }
        }
        None
    }

    // The hash of a step.
    fn hash(&self, from: u32, symbol: u32) -> usize {
        let mut hasher = self.seed.build_hasher();
        hasher.write_u64((from as u64) << 32 | symbol as u64);
        hasher.finish() as usize
    }

    // Writes a step into its slot.
    fn place(&mut self, step: Step) {
        if let Some(index) = self.index_of(step.from, step.symbol) {
            if let Some(slot) = self.slots.get_mut(index) {
                *slot = step;
            }
        }
    }

    // Gives the steps twice as many slots.
    fn grow(&mut self) -> Result<(), AllocError> {
        let alloc = self.alloc;
        let count = self.slots.len().saturating_mul(2).max(FIRST_SLOTS);
        let slots = vec![in alloc; FREE; count]?;
        let before = std::mem::replace(&mut self.slots, slots);
        for step in &before {
            if !is_free(step) {
                self.place(*step);
            }
        }
        Ok(())
    }
}

// Whether a slot has no step.
fn is_free(slot: &Step) -> bool {
    slot.to == ROOT
}
