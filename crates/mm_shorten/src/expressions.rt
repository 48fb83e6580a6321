//! Expressions by number.

ghost use Rattle.std.specs.Prelude.{◌≡◌, ◌+◌, length, min, OnOk};

use indexmap::IndexMap;
use mm_base::Seed;
use mm_frame::Sym;
use std::alloc::{AllocError, Global};
use std::hash::{BuildHasher, Hasher};

/// Expressions, each once: an expression's number is its index. All those behind 4,294,967,295
/// others would have that number.
#[derive(Drop)]
pub struct Expressions {
    alloc: Global,
    seed: Seed,
    lists: Vec<Vec<Sym>>,
    /// How many symbols they have in all.
    symbols: usize,
    /// For each hash the number of the last expression that has it.
    last: IndexMap<u64, u32, Seed>,
    /// For each expression the number of the one before it that has the same hash.
    earlier: Vec<Option<u32>>,
}

impl Expressions {
    /// No expressions, whose hashes begin from the seed. It takes no memory.
    pub fn new(alloc: Global, seed: Seed) -> Expressions {
        Expressions {
            alloc,
            seed,
            lists: Vec::new(alloc),
            symbols: 0,
            last: IndexMap::with_hasher(alloc, seed),
            earlier: Vec::new(alloc),
        }
    }

    /// How many there are.
    pub fn len(&self) -> usize {
        self.lists.len()
    }

    /// Whether there is none.
    pub fn is_empty(&self) -> bool {
        self.lists.is_empty()
    }

    /// How many symbols they have in all.
    pub fn symbols(&self) -> usize
        ensures { result ≡ self.now.symbols }
    {
        self.symbols
    }

    /// The symbols of the expression with a number; none where no expression has it.
    pub fn get(&self, number: u32) -> &[Sym] {
        match self.lists.get(number as usize) {
            Some(list) => list,
            None => &[],
        }
    }

    /// The number of the expression, if it is there.
    pub fn find(&self, symbols: &[Sym]) -> Option<u32> {
        self.find_hashed(self.hash(symbols), symbols)
    }

    /// The number of the expression, which gets one where it isn't there.
    ///
    /// # Errors
    ///
    /// Where a growth was refused.
    pub fn number(&mut self, symbols: &[Sym]) -> Result<u32, AllocError> {
        let hash = self.hash(symbols);
        if let Some(number) = self.find_hashed(hash, symbols) {
            return Ok(number);
        }
        let number = u32::try_from(self.lists.len()).unwrap_or(u32::MAX);
        let earlier = self.last.insert(hash, number)?;
        self.earlier.push(earlier)?;
        self.put(symbols)?;
        Ok(number)
    }

    // Appends an expression to the others, and counts its symbols.
    fn put(&mut self, symbols: &[Sym]) -> Result<(), AllocError>
        ensures { OnOk result (self.new.symbols
            ≡ min usize.MAX (self.old.symbols + length symbols.now)) }
    {
        self.lists.push(Vec::from_slice(self.alloc, symbols)?)?;
        self.symbols = self.symbols.saturating_add(symbols.len());
        Ok(())
    }

    // The hash of an expression.
    fn hash(&self, symbols: &[Sym]) -> u64 {
        let mut hasher = self.seed.build_hasher();
        for symbol in symbols {
            hasher.write_u32(symbol.0);
        }
        hasher.finish()
    }

    // The number of the expression with this hash, if it is there.
    fn find_hashed(&self, hash: u64, symbols: &[Sym]) -> Option<u32> {
        let mut next = self.last.get(&hash).copied();
        for _ in 0..self.earlier.len() {
            let number = next?;
            if self.get(number) == symbols {
                return Some(number);
            }
            next = self.earlier.get(number as usize).copied().flatten();
        }
        None
    }
}
