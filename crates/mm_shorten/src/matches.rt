//! The conclusions that match patterns, found by what their variables are bound to.

ghost use Rattle.std.specs.Prelude.{◌≤◌, length, OnOk};

use crate::budget::Budget;
use crate::lists::{at, set};
use crate::range::{Range, part};
use crate::room::{MOST_HELD, has_room};
use crate::trie::{NOTHING, next_number};
use indexmap::IndexMap;
use mm_base::Seed;
use std::alloc::{AllocError, Global};

const MASK_BITS: usize = 64;

/// A conclusion that matches a pattern.
#[derive(Clone, Copy)]
pub(crate) struct Row {
    /// The pattern's number.
    pub(crate) pattern: u32,
    /// The node of the conclusion.
    pub(crate) conclusion: u32,
    // Where the bindings of the pattern's variables stand.
    bindings: Range,
}

// Some variables of a pattern, as bits by their numbers.
#[derive(Clone, Copy, PartialEq, Eq, Hash)]
struct Mask {
    pattern: u32,
    bits: u64,
}

// Some variables of a pattern, and a hash of what they are bound to. Two bindings may have one
// hash: so who takes a row looks at its bindings again.
#[derive(Clone, Copy, PartialEq, Eq, Hash)]
struct Key {
    mask: Mask,
    bound: u64,
}

/// The number of a list with no rows.
const NO_ROWS: u32 = 0;

/// A row in a list.
#[derive(Clone, Copy)]
pub(crate) struct Entry {
    /// The row's index.
    pub(crate) row: u32,
    /// The number of the next entry of the list; `NOTHING` where it is the last.
    pub(crate) next: u32,
}

/// A list of rows.
#[derive(Clone, Copy)]
pub(crate) struct List {
    /// The number of the first entry; `NOTHING` where there is none.
    pub(crate) first: u32,
    /// The number of the last entry; `NOTHING` where there is none.
    last: u32,
    /// How many rows it has.
    pub(crate) count: u32,
}

const NO_ENTRY: List = List {
    first: NOTHING,
    last: NOTHING,
    count: 0,
};

/// Rows, and lists of some of them: for each pattern those that were listed, and for some variables
/// of a pattern and what they are bound to those that may agree with that.
#[derive(Drop)]
pub(crate) struct Matches {
    rows: Vec<Row>,
    bindings: Vec<u32>,
    lists: Vec<List>,
    /// The entries of all lists.
    entries: Vec<Entry>,
    /// For each pattern, up to the greatest that has one, the number of its list.
    by_pattern: Vec<u32>,
    by_key: IndexMap<Key, u32, Seed>,
    /// The variables of patterns whose lists were made.
    made: IndexMap<Mask, (), Seed>,
}

impl Matches {
    /// No rows; the hashes of what lists are found by begin from the seed.
    pub(crate) fn new(alloc: Global, seed: Seed) -> Result<Matches, AllocError> {
        let mut matches = Matches {
            rows: Vec::new(alloc),
            bindings: Vec::new(alloc),
            lists: Vec::new(alloc),
            entries: Vec::new(alloc),
            by_pattern: Vec::new(alloc),
            by_key: IndexMap::with_hasher(alloc, seed),
            made: IndexMap::with_hasher(alloc, seed),
        };
        matches.add_list()?;
        Ok(matches)
    }

    /// How many rows there are.
    pub(crate) fn len(&self) -> usize {
        self.rows.len()
    }

    /// The row with an index.
    pub(crate) fn row(&self, index: usize) -> Option<Row> {
        self.rows.get(index).copied()
    }

    /// For each variable of a row's pattern the node of the syntax that replaces it.
    pub(crate) fn bindings(&self, row: Row) -> &[u32] {
        part(&self.bindings, row.bindings)
    }

    /// Adds a row, which is in no list, where there is room for it.
    pub(crate) fn add(
        &mut self,
        pattern: u32,
        conclusion: u32,
        bindings: &[u32],
    ) -> Result<(), AllocError>
        ensures { OnOk result (length self.old.rows.items ≤ MOST_HELD
            → length self.new.rows.items ≤ MOST_HELD) }
    {
        let start = self.bindings.len();
        if !has_room(start) || !has_room(self.rows.len()) {
            return Ok(());
        }
        self.bindings.extend_from_slice(bindings)?;
        let bindings = Range {
            start: next_number(start),
            end: next_number(self.bindings.len()),
        };
        self.rows.push(Row {
            pattern,
            conclusion,
            bindings,
        })?;
        Ok(())
    }

    /// Adds the rows to the lists of their patterns.
    pub(crate) fn list_all(&mut self) -> Result<(), AllocError> {
        for index in 0..self.rows.len() {
            if let Some(row) = self.row(index) {
                let list = self.list_for(row.pattern)?;
                self.put(list, index)?;
            }
        }
        Ok(())
    }

    /// Whether the pattern has a row that was listed.
    pub(crate) fn has(&self, pattern: u32) -> bool {
        self.list_of(pattern) != NO_ROWS
    }

    /// The list with a number.
    pub(crate) fn list(&self, list: u32) -> List {
        self.lists.get(list as usize).copied().unwrap_or(NO_ENTRY)
    }

    /// The entry with a number.
    pub(crate) fn entry(&self, entry: u32) -> Option<Entry> {
        self.entries.get(entry as usize).copied()
    }

    /// The number of the list of the rows of a pattern that may agree with what is bound at the
    /// places of its variables.
    pub(crate) fn find(
        &mut self,
        pattern: u32,
        places: &[u32],
        bound: &[Option<u32>],
        budget: &mut Budget,
    ) -> Result<u32, AllocError>
        ensures { budget.new ≤ budget.old }
    {
        let all = self.list_of(pattern);
        if all == NO_ROWS {
            return Ok(NO_ROWS);
        }
        let key = key_at(pattern, places, bound);
        if key.mask.bits == 0 {
            return Ok(all);
        }
        if let Some(list) = self.by_key.get(&key) {
            return Ok(*list);
        }
        if self.made.get(&key.mask).is_some() {
            return Ok(NO_ROWS);
        }
        self.make(all, key.mask, budget)?;
        Ok(self.by_key.get(&key).copied().unwrap_or(NO_ROWS))
    }

    // The number of the list of a pattern.
    fn list_of(&self, pattern: u32) -> u32 {
        at(&self.by_pattern, pattern)
    }

    // The number of the list of a pattern, which is made where there is none.
    fn list_for(&mut self, pattern: u32) -> Result<u32, AllocError> {
        let list = self.list_of(pattern);
        if list != NO_ROWS {
            return Ok(list);
        }
        let list = self.add_list()?;
        for _ in self.by_pattern.len()..=pattern as usize {
            self.by_pattern.push(NO_ROWS)?;
        }
        set(&mut self.by_pattern, pattern, list);
        Ok(list)
    }

    // The number of the list of a key, which is made where there is none.
    fn list_at(&mut self, key: Key) -> Result<u32, AllocError> {
        if let Some(list) = self.by_key.get(&key) {
            return Ok(*list);
        }
        let list = self.add_list()?;
        self.by_key.insert(key, list)?;
        Ok(list)
    }

    // Adds a list of no rows, and answers its number.
    fn add_list(&mut self) -> Result<u32, AllocError> {
        let list = next_number(self.lists.len());
        self.lists.push(NO_ENTRY)?;
        Ok(list)
    }

    // Adds the index of a row to a list, where there is room for it.
    fn put(&mut self, list: u32, row: usize) -> Result<(), AllocError> {
        if !has_room(self.entries.len()) {
            return Ok(());
        }
        let Some(list) = self.lists.get_mut(list as usize) else {
            return Ok(());
        };
        let number = next_number(self.entries.len());
        self.entries.push(Entry {
            row: next_number(row),
            next: NOTHING,
        })?;
        match self.entries.get_mut(list.last as usize) {
            Some(last) => last.next = number,
            None => list.first = number,
        }
        list.last = number;
        list.count = list.count.saturating_add(1);
        Ok(())
    }

    // Makes the lists of some variables of a pattern, all of whose rows stand in a list.
    fn make(&mut self, all: u32, mask: Mask, budget: &mut Budget) -> Result<(), AllocError>
        ensures { budget.new ≤ budget.old }
    {
        self.made.insert(mask, ())?;
        let mut next = self.list(all).first;
        for _ in 0..self.list(all).count {
            if !budget.take(1) || !has_room(self.entries.len()) {
                break;
            }
            let Some(entry) = self.entry(next) else {
                break;
            };
            next = entry.next;
            self.list_row(mask, entry.row as usize)?;
        }
        Ok(())
    }

    // Adds a row to the list of some variables of its pattern, and what it binds them to.
    fn list_row(&mut self, mask: Mask, index: usize) -> Result<(), AllocError> {
        let Some(row) = self.row(index) else {
            return Ok(());
        };
        let key = key_in(mask, self.bindings(row));
        let list = self.list_at(key)?;
        self.put(list, index)
    }
}

// The bit of a variable with a number.
fn bit(number: usize) -> u64 {
    if number < MASK_BITS {
        1 << number as u32
    } else {
        0
    }
}

// A hash of what was bound before, and of one thing more.
fn mixed(bound: u64, more: u32) -> u64 {
    (bound.rotate_left(7) ^ more as u64).wrapping_mul(0x9E37_79B9_7F4A_7C15)
}

// What is bound at a place.
fn bound_at(bound: &[Option<u32>], place: u32) -> Option<u32> {
    bound.get(place as usize).copied().flatten()
}

// The variables of a pattern that are bound at these places, and what they are bound to.
fn key_at(pattern: u32, places: &[u32], bound: &[Option<u32>]) -> Key {
    let mut bits = 0;
    let mut hash = 1;
    for (number, place) in places.iter().enumerate() {
        if let Some(value) = bound_at(bound, *place) {
            bits |= bit(number);
            hash = mixed(hash, value);
        }
    }
    Key {
        mask: Mask { pattern, bits },
        bound: hash,
    }
}

// These variables of a pattern, and what a row binds them to.
fn key_in(mask: Mask, bindings: &[u32]) -> Key {
    let mut hash = 1;
    for (number, value) in bindings.iter().enumerate() {
        if mask.bits & bit(number) != 0 {
            hash = mixed(hash, *value);
        }
    }
    Key { mask, bound: hash }
}
