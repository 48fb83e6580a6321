//! Blocks by number, and what is active at an index.

ghost use Rattle.std.specs.Prelude.{◌≡◌, ◌↔◌, ℕ, suc, ◌-◌, ◌<◌, ◌≤◌, List, [], ◌∷◌, ◌++◌, length};
ghost use Rattle.std.specs.Prelude.{take, slice_get, Some, IsTrue, IfOk, OnOk};
ghost use Rattle.mm_base.specs.declared.statement.Kind.TheVariants.{Opening, Closing};
ghost use Rattle.mm_frame.specs.Sentence.{Sentence};
ghost use Rattle.mm_frame.specs.Active.{IsOpen, IsActive, open_marks, close_marks};
ghost use Rattle.mm_frame.specs.Mirror.ScopesOf.{HaveScopes, CanTake, HasRoom, HaveSameLists};

use crate::lists::{at as at_index, put, reserve_numbered, write};
use mm_base::Kind;
use std::alloc::{AllocError, Global};

/// The end of a block that is open.
pub(crate) const NEVER: u32 = 4294967295;

/// The blocks of the statements so far. The whole database counts as block 0; each `${` begins the
/// next number's block. Closing a block is one write.
#[derive(Drop)]
pub struct Scopes {
    /// The block that directly holds each statement.
    pub(crate) blocks: Vec<u32>,
    /// The index of each block's `$}`, or `NEVER`.
    pub(crate) ends: Vec<u32>,
    /// The open blocks, the outermost first.
    pub(crate) open: Vec<u32>,
}

impl Scopes {
    /// The scopes of no statements.
    pub(crate) fn new(alloc: Global) -> Result<Scopes, AllocError>
        ensures { IfOk result (λ scopes. HaveScopes [] scopes) }
    {
        let mut ends = Vec::new(alloc);
        let mut open = Vec::new(alloc);
        ends.push(NEVER)?;
        open.push(0)?;
        Ok(Scopes {
            blocks: Vec::new(alloc),
            ends,
            open,
        })
    }

    /// Whether the statement at an index is active after the statements before another.
    pub(crate) fn is_active(&self, index: usize, at: usize) -> bool
        requires scopes { (statements : List Sentence) × HaveScopes statements self.now }
        requires index { index < at }
        requires within { at ≤ length self.now.blocks.items }
        ensures { (statements : List Sentence) → HaveScopes statements self.now
            → length statements ≤ NEVER
            → (IsTrue result ↔ IsActive (take at statements) index) }
    {
        match at_index(&self.blocks, index) {
            Some(block) => match at_index(&self.ends, block as usize) {
                Some(end) => at <= end as usize,
                // Each block has an entry for its end.
                None => unreachable!(),
            },
            // Each statement has a block.
            None => unreachable!(),
        }
    }

    /// How many blocks are open.
    pub(crate) fn depth(&self) -> usize
        requires { (statements : List Sentence) × HaveScopes statements self.now }
        ensures { (statements : List Sentence) → HaveScopes statements self.now
            → result ≡ open_marks statements - close_marks statements }
    {
        self.open.len() - 1
    }

    /// Whether a block is open.
    pub(crate) fn has_open(&self) -> bool
        ensures { (statements : List Sentence) → HaveScopes statements self.now
            → (IsTrue result ↔ ((index : ℕ) × IsOpen statements index)) }
    {
        self.open.len() >= 2
    }

    /// Makes room for one statement more.
    pub(crate) fn reserve(&mut self) -> Result<(), AllocError>
        ensures same { HaveSameLists self.old self.new }
        ensures room { OnOk result (HasRoom self.new) }
    {
        reserve_numbered(&mut self.blocks, 1)?;
        reserve_numbered(&mut self.ends, 1)?;
        self.open.reserve(1)
    }

    // The innermost open block.
    fn innermost(&self) -> u32
        requires { 1 ≤ length self.now.open.items }
        ensures { (k : ℕ) → length self.now.open.items ≡ suc k
            → slice_get self.now.open.items k ≡ Some result }
    {
        match self.open.last() {
            Some(block) => *block,
            // A block is open.
            None => unreachable!(),
        }
    }

    // Takes a `$}` in.
    fn close(&mut self)
        requires room { HasRoom self.old }
        requires scopes { CanTake Closing self.old }
        ensures { (statements : List Sentence) (e : Sentence) → HaveScopes statements self.old
            → e.kind ≡ Closing → close_marks statements < open_marks statements
            → HaveScopes (statements ++ e ∷ []) self.new }
    {
        let index = self.blocks.len() as u32;
        let block = self.innermost();
        write(&mut self.ends, block as usize, index);
        let _ = self.open.pop();
        let outer = self.innermost();
        put(&mut self.blocks, outer);
    }

    // Takes a `${` in.
    #[tactic(auto, using(crate::proofs::Blocks::ScopeStack::begun))]
    fn begin(&mut self)
        requires room { HasRoom self.old }
        requires scopes { (statements : List Sentence) × HaveScopes statements self.old }
        ensures { (statements : List Sentence) (e : Sentence) → HaveScopes statements self.old
            → e.kind ≡ Opening → HaveScopes (statements ++ e ∷ []) self.new }
    {
        let block = self.innermost();
        put(&mut self.blocks, block);
        put(&mut self.open, self.ends.len() as u32);
        put(&mut self.ends, NEVER);
    }

    // Takes another statement in.
    #[tactic(auto, using(crate::proofs::Blocks::ScopeStack::stayed))]
    fn stay(&mut self)
        requires room { HasRoom self.old }
        requires scopes { (statements : List Sentence) × HaveScopes statements self.old }
        ensures { (statements : List Sentence) (e : Sentence) → HaveScopes statements self.old
            → ¬ (e.kind ≡ Opening) → ¬ (e.kind ≡ Closing)
            → HaveScopes (statements ++ e ∷ []) self.new }
    {
        let block = self.innermost();
        put(&mut self.blocks, block);
    }

    /// Takes a statement in.
    pub(crate) fn push(&mut self, kind: Kind)
        requires room { HasRoom self.old }
        requires scopes { CanTake kind self.old }
        ensures { (statements : List Sentence) (e : Sentence) → HaveScopes statements self.old
            → e.kind ≡ kind → (kind ≡ Closing → close_marks statements < open_marks statements)
            → HaveScopes (statements ++ e ∷ []) self.new }
    {
        if kind == Kind::Opening {
            self.begin();
        } else if kind == Kind::Closing {
            self.close();
        } else {
            self.stay();
        }
    }
}
