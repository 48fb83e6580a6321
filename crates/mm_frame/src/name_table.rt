//! Names by number: lists of names without repetition, in which a name is found at once.

ghost use Rattle.std.specs.Prelude.{◌≡◌, ℕ, ◌+◌, ◌<◌, ◌≤◌, List, [], length, slice_get, Some};
ghost use Rattle.std.specs.Prelude.{option_map, MatchOption, Contains, OnOk};
ghost use Rattle.mm_frame.specs.Mirror.NameTable.{AreByByte};
ghost use Rattle.mm_frame.specs.Numbers.{with_name};

use crate::guesses::Guesses;
use crate::name::Name;
use indexmap::IndexSet;
use mm_base::Seed;
use std::alloc::{AllocError, Global};
use std::marker::Model;

/// Names, each once: a name's number is its index.
#[derive(Drop)]
pub struct Names<'a> {
    table: IndexSet<Name<'a>, Seed>,
    /// The number of the name that is this byte alone. Most symbols are one byte long, and are
    /// found sooner in this table than by a hash.
    by_byte: [Option<u32>; 256],
}

impl<'a> Model for Names<'a> {
    ghost use Rattle.std.specs.Prelude.{ℕ, ◌<◌, length};
    ghost use Rattle.indexmap.specs.IndexSet.{spare};
    ghost use Rattle.mm_frame.specs.Mirror.NameTable.{NameTable, AreByByte};

    ghost Value = { NameTable };

    ghost view = { λ n. record { names = n.table.keys; room = spare n.table } };

    ghost invariant = { λ n. (length n.table.keys < 4294967296)
        × AreByByte n.table.keys n.by_byte };
}

// The table where no name is one byte long.
#[tactic(auto, using(crate::proofs::Names::NameTables::by_byte_of_none))]
fn no_numbers() -> [Option<u32>; 256]
    ensures { AreByByte [] result }
{
    [None; 256]
}

// Notes the number that the name gets, where it is new and one byte long.
fn note_byte(by_byte: &mut [Option<u32>; 256], name: &[u8], number: u32)
    ensures { (names : List (List ℕ)) → AreByByte names by_byte.old → length names ≡ number
        → AreByByte (with_name names name.now) by_byte.new }
{
    if let [only] = name {
        let index = *only as usize;
        if by_byte[index].is_none() {
            by_byte[index] = Some(number);
        }
    }
}

impl<'a> Names<'a> {
    /// No names, whose hashes begin from the seed. It takes no memory.
    pub(crate) fn new(alloc: Global, seed: Seed) -> Names<'a>
        ensures { result.names ≡ [] }
    {
        Names {
            table: IndexSet::with_hasher(alloc, seed),
            by_byte: no_numbers(),
        }
    }

    /// How many names there are.
    pub(crate) fn len(&self) -> usize
        ensures len { result ≡ length self.now.names }
        ensures small { result < 4294967296 }
    {
        self.table.len()
    }

    // The number of the name that a key stands for, if it is one of them.
    #[inline(always)]
    fn find_key(&self, key: &Name) -> Option<u32>
        ensures { MatchOption
            result
            (¬ (Contains self.now.names key.now))
            (λ number. slice_get self.now.names number ≡ Some key.now) }
    {
        match self.table.get_index_of(key) {
            Some(number) => Some(number as u32),
            None => None,
        }
    }

    // The number of a name, if it is one of them, by its hash. It is a call, as a name of one byte
    // is reported without it.
    #[inline(never)]
    fn find_by_hash(&self, name: &[u8]) -> Option<u32>
        ensures { MatchOption
            result
            (¬ (Contains self.now.names name.now))
            (λ number. slice_get self.now.names number ≡ Some name.now) }
    {
        self.find_key(&Name::new(name))
    }

    /// The number of a name, if it is one of them.
    #[inline(always)]
    #[tactic(auto, using(crate::proofs::Names::NameTables::found_by_byte))]
    pub(crate) fn find(&self, name: &[u8]) -> Option<u32>
        ensures { MatchOption
            result
            (¬ (Contains self.now.names name.now))
            (λ number. slice_get self.now.names number ≡ Some name.now) }
    {
        if let [only] = name {
            return self.by_byte[*only as usize];
        }
        self.find_by_hash(name)
    }

    // The number of a name, if it is one of them, by the guess at its index, or else by its hash.
    // The guess is replaced where it is that of another name. It is a call, as `find_by_hash` is.
    #[inline(never)]
    fn find_by_guess(&self, guesses: &mut Guesses, name: &[u8]) -> Option<u32>
        ensures { MatchOption
            result
            (¬ (Contains self.now.names name.now))
            (λ number. slice_get self.now.names number ≡ Some name.now) }
    {
        let key = Name::new(name);
        let index = key.index();
        let guess = guesses.at(index);
        if let Some(other) = self.table.get_index(guess as usize) {
            if *other == key {
                return Some(guess);
            }
        }
        let found = self.find_key(&key);
        if let Some(number) = found {
            guesses.set(index, number);
        }
        found
    }

    /// The number of a name, if it is one of them, as `find` tells it. Where the guesses were
    /// handed in with this name lately, it is found sooner.
    #[inline(always)]
    pub(crate) fn find_guessed(&self, guesses: &mut Guesses, name: &[u8]) -> Option<u32>
        ensures { MatchOption
            result
            (¬ (Contains self.now.names name.now))
            (λ number. slice_get self.now.names number ≡ Some name.now) }
    {
        match name {
            [_] => self.find(name),
            _ => self.find_by_guess(guesses, name),
        }
    }

    /// The name with a number.
    pub(crate) fn name(&self, number: u32) -> Option<&'a [u8]>
        ensures { option_map (λ name. name.now) result ≡ slice_get self.now.names number }
    {
        match self.table.get_index(number as usize) {
            Some(name) => Some(name.bytes()),
            None => None,
        }
    }

    /// Makes room for more names.
    pub(crate) fn reserve(&mut self, more: usize) -> Result<(), AllocError>
        ensures names { self.new.names ≡ self.old.names }
        ensures room { OnOk result (more ≤ self.new.room) }
    {
        self.table.reserve(more)
    }

    /// Takes a name in, at the end where it is new.
    #[tactic(auto, using(crate::proofs::Names::NameNumbers::adding_steps))]
    pub(crate) fn add(&mut self, name: &'a [u8])
        requires few { length self.old.names + 1 < 4294967296 }
        requires room { 0 < self.old.room }
        ensures names { self.new.names ≡ with_name self.old.names name.now }
        ensures room { self.old.room ≤ self.new.room + 1 }
    {
        let number = self.table.len() as u32;
        note_byte(&mut self.by_byte, name, number);
        let _ = self.table.insert(Name::new(name));
    }
}
