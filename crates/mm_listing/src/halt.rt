//! Where the moves of a proof stop: what passed, what is left on the stack, and why no more passes.

ghost use Rattle.std.specs.Prelude.{◌≡◌, ◌<◌, ◌^◌, length, slice_get, Some};
ghost use Rattle.mm_step.specs.Stores.{numbers_in};

use mm_frame::{LabelId, Sym};
use mm_step::{Flat, ProofRule, Store};
use std::marker::Model;

/// What stands where the moves of a proof stop.
#[derive(Clone, Copy, PartialEq, Eq, Debug)]
pub enum HaltAt {
    /// A step by the label with this number.
    Label(LabelId),
    /// A step by the tag with this index, from 0 on.
    Tag(usize),
    /// A mark.
    Mark,
    /// The end: all moves passed.
    End,
}

/// The entries that moves leave on the stack, the lowest first. They stay in the store of the run,
/// where copies of an expression have their symbols once.
#[derive(Drop)]
pub struct Entries {
    store: Flat,
}

// They are seen as a list, by the numbers of their symbols.
impl Model for Entries {
    ghost use Rattle.std.specs.Prelude.{ℕ, List};

    ghost Value = { List (List ℕ) };

    ghost view = { λ entries. ⟦<Flat as Store>⟧.stack entries.store };
}

impl Entries {
    /// The entries on the stack of a store.
    pub(crate) fn new(store: Flat) -> Entries
        ensures { result ≡ ⟦<Flat as Store>⟧.stack store }
    {
        Entries { store }
    }

    /// The entry at an index.
    pub fn at(&self, index: usize) -> &[Sym]
        requires { index < length self.now }
        ensures { slice_get self.now index ≡ Some (numbers_in result.now) }
    {
        self.store.at(index)
    }
}

/// Where the moves of a proof stop.
#[derive(Drop)]
pub struct Halt {
    /// The rule that is broken there first; none where all moves pass and nothing is at fault.
    pub rule: Option<ProofRule>,
    /// What stands there.
    pub at: HaltAt,
    /// How many moves pass before it.
    pub passed: usize,
    /// How many of these are steps.
    pub steps: usize,
    /// The entries that they leave on the stack.
    pub entries: Entries,
    /// For each of these the number of the step that made it, from 1 on.
    pub origins: Vec<usize>,
    ghost made: { length entries ≡ length origins.items },
    ghost few: { steps < 2 ^ 32 },
}

impl Halt {
    ghost use Rattle.mm_listing.specs.Halted.{TellsEntry};

    /// The entry at an index of the stack that is left.
    pub fn entry(&self, index: usize) -> &[Sym]
        requires { index < length self.now.origins.items }
        ensures entry { TellsEntry self.now index (numbers_in result.now) }
        ensures numbers { slice_get self.now.entries index ≡ Some (numbers_in result.now) }
    {
        self.entries.at(index)
    }
}
