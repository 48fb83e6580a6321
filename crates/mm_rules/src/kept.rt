//! What is kept of the complete proofs, for the questions that come after the check.

ghost use Rattle.std.specs.Prelude.{◌≡◌, ◌<◌, ◌++◌, ◌↔◌, ℕ, [], ◌∷◌, map, length, slice_get};
ghost use Rattle.std.specs.Prelude.{Contains, IsTrue, IfSome, OnOk, Some, None};
ghost use Rattle.mm_rules.specs.Conclusion.{ProofUses, numbers_of};
ghost use Rattle.mm_rules.specs.Rests.{AreRising};
ghost use Rattle.mm_rules.specs.Mirror.Marks.{UsedIn};
ghost use Rattle.mm_rules.specs.Mirror.Ordered.{ordered};

use mm_frame::LabelId;
use std::alloc::{AllocError, Global};
use std::marker::Model;

// In so many bytes of a database there is one used assertion at most, or one proof, as a rule.
const USE_BYTES: usize = 24;

const PROOF_BYTES: usize = 384;

/// Whether a number is one of these.
pub fn is_among(numbers: &[LabelId], id: LabelId) -> bool
    ensures { IsTrue result ↔ Contains (map (λ l. l.0) numbers.now) id.0 }
{
    numbers.contains(&id)
}

/// The number of a `$p`, and where the numbers of the assertions that its proof uses stand.
#[derive(Clone, Copy)]
pub(crate) struct KeptProof {
    pub id: LabelId,
    pub start: usize,
    pub end: usize,
}

/// Of each `$p` with a complete proof, in database order: its number, and those of the assertions
/// that its proof uses. All of these stand in one list, in the order in which the prover gave them.
#[derive(Drop)]
pub struct Kept {
    used: Vec<LabelId>,
    proofs: Vec<KeptProof>,
}

// What a proof uses is seen as a set: each number once, in order.
impl Model for Kept {
    ghost use Rattle.std.specs.Prelude.{List, length};
    ghost use Rattle.mm_rules.specs.Conclusion.{ProofUses};

    ghost Value = { List ProofUses };

    ghost use Rattle.mm_rules.specs.Mirror.Ranges.{uses_in, AreRangesWithin};

    ghost view = { λ k. uses_in k.used.items k.proofs.items };

    ghost invariant = { λ k. AreRangesWithin (length k.used.items) k.proofs.items };
}

impl Kept {
    pub fn new(alloc: Global) -> Kept
        ensures { result ≡ [] }
    {
        Kept {
            used: Vec::new(alloc),
            proofs: Vec::new(alloc),
        }
    }

    /// Makes room for the proofs of a database that has so many bytes, where there is memory for
    /// it; room that is wanting is made when it is needed.
    pub fn prepare(&mut self, bytes: usize)
        ensures { self.new ≡ self.old }
    {
        let _ = self.used.reserve(bytes / USE_BYTES);
        let _ = self.proofs.reserve(bytes / PROOF_BYTES);
    }

    /// Keeps what the proof of a `$p` uses.
    pub fn push(&mut self, id: LabelId, used: &[LabelId]) -> Result<(), AllocError>
        ensures { OnOk result (self.new ≡ self.old
            ++ record { number = id.0; used = ordered (map (λ l. l.0) used.now) } ∷ []) }
    {
        let start = self.used.len();
        self.used.extend_from_slice(used)?;
        let end = self.used.len();
        self.proofs.push(KeptProof { id, start, end })?;
        Ok(())
    }

    /// How many proofs are kept.
    pub fn len(&self) -> usize
        ensures { result ≡ length self.now }
    {
        self.proofs.len()
    }

    /// The number of the `$p` whose proof is at an index.
    pub fn proof(&self, at: usize) -> LabelId
        requires { at < length self.now }
        ensures { (u : ProofUses) → slice_get self.now at ≡ Some u → result.0 ≡ u.number }
    {
        self.proofs[at].id
    }

    /// The index of the proof of a `$p`, if it is kept.
    pub fn index_of(&self, id: LabelId) -> Option<usize>
        requires { AreRising (numbers_of self.now) }
        ensures found { IfSome result (λ at. slice_get (numbers_of self.now) at ≡ Some id.0) }
        ensures none { result ≡ None → ¬ (Contains (numbers_of self.now) id.0) }
    {
        let mut low = 0;
        let mut high = self.len();
        while low < high {
            let middle = low + (high - low) / 2;
            let number = self.proof(middle);
            if number.0 == id.0 {
                return Some(middle);
            }
            if number.0 < id.0 {
                low = middle + 1;
            } else {
                high = middle;
            }
        }
        None
    }

    /// The numbers of the assertions that the proof at an index uses, in any order, each once or
    /// more.
    pub fn used(&self, at: usize) -> &[LabelId]
        requires { at < length self.now }
        ensures { (u : ProofUses) → slice_get self.now at ≡ Some u
            → (n : ℕ) → Contains (map (λ l. l.0) result.now) n ↔ Contains u.used n }
    {
        let proof = self.proofs[at];
        &self.used[proof.start..proof.end]
    }

    /// The numbers of the assertions that the proof of a `$p` uses, in any order, each once or
    /// more; none for a number of which no proof is kept.
    pub fn used_by(&self, id: LabelId) -> &[LabelId]
        requires { AreRising (numbers_of self.now) }
        ensures { (n : ℕ) → Contains (map (λ l. l.0) result.now) n ↔ UsedIn self.now id.0 n }
    {
        match self.index_of(id) {
            Some(at) => self.used(at),
            None => &[],
        }
    }
}
