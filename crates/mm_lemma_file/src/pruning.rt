//! Which lemmas pay: those without which the file would be longer, or as long. What uses others is
//! written without them.

use crate::drafts::Drafts;
use mm_lemma_proofs::{Expansion, expanded};
use mm_lemma_search::Part;
use mm_patterns::Proof;
use mm_terms::{Budget, next_number};
use std::alloc::AllocError;

/// How many steps it takes at most to leave lemmas out.
const PRUNE_STEPS: u64 = 1_000_000_000;

// A proof without a lemma.
#[derive(Drop)]
struct Changed {
    /// The index of its theorem.
    index: usize,
    proof: Proof,
    bytes: u64,
}

// What the bytes of some proofs become.
#[derive(Clone, Copy)]
struct Balance {
    more: u64,
    fewer: u64,
}

impl Balance {
    // With a proof that has new bytes in place of old ones.
    fn with(self, old: u64, new: u64) -> Balance {
        Balance {
            more: self.more.saturating_add(new.saturating_sub(old)),
            fewer: self.fewer.saturating_add(old.saturating_sub(new)),
        }
    }

    // Whether a file has as many bytes or more without a lemma.
    fn is_no_shorter(self) -> bool {
        self.more >= self.fewer
    }
}

impl<'p, 'a> Drafts<'p, 'a> {
    /// Writes all proofs without the lemmas that aren't put in, the last ones first. A proof that
    /// can't be without one of them stays as it was.
    pub(crate) fn leave_others(&mut self) -> Result<(), AllocError> {
        let mut budget = Budget::new(PRUNE_STEPS);
        let count = self.page.lemmas.len();
        for behind in 0..count {
            let lemma = count - 1 - behind;
            if self.is_put.get(lemma).copied() == Some(false) {
                self.leave_other(lemma, &mut budget)?;
            }
        }
        Ok(())
    }

    // Writes all proofs without a lemma that isn't put in.
    fn leave_other(&mut self, lemma: usize, budget: &mut Budget) -> Result<(), AllocError> {
        let users = self.users_of(lemma)?;
        for user in &users {
            let index = *user as usize;
            if self.is_new.get(index).copied() != Some(true) {
                continue;
            }
            match self.proof_without(lemma, index, budget)? {
                Some(proof) => {
                    let bytes = 0;
                    self.put(
                        lemma,
                        Changed {
                            index,
                            proof,
                            bytes,
                        },
                    )?;
                }
                None => self.keep_old(index),
            }
        }
        Ok(())
    }

    // Keeps the proof of the theorem with an index as it was.
    fn keep_old(&mut self, index: usize) {
        if let Some(is_new) = self.is_new.get_mut(index) {
            *is_new = false;
        }
    }

    // The theorems that were noted to use a lemma, each once.
    fn users_of(&self, lemma: usize) -> Result<Vec<u32>, AllocError> {
        let mut users = Vec::from_slice(self.alloc, self.users.under(next_number(lemma)))?;
        users.sort_unstable();
        users.dedup();
        Ok(users)
    }

    /// Leaves out each lemma without which the file is shorter, the last ones first: what uses it
    /// is written without it.
    pub(crate) fn prune(&mut self) -> Result<(), AllocError> {
        let mut budget = Budget::new(PRUNE_STEPS);
        let count = self.page.lemmas.len();
        for behind in 0..count {
            let lemma = count - 1 - behind;
            if self.is_put.get(lemma).copied() == Some(true) {
                self.weigh(lemma, &mut budget)?;
            }
        }
        Ok(())
    }

    // Leaves out a lemma, if the file is shorter without it.
    fn weigh(&mut self, lemma: usize, budget: &mut Budget) -> Result<(), AllocError> {
        let users = self.users_of(lemma)?;
        let mut changed = Vec::new(self.alloc);
        match self.is_shorter_without(lemma, &users, &mut changed, budget) {
            Ok(true) => self.leave_out(lemma, changed),
            Ok(false) => {
                drop(changed);
                Ok(())
            }
            Err(error) => {
                drop(changed);
                Err(error)
            }
        }
    }

    // How many bytes the text of the theorem with an index has that may change.
    fn bytes(&self, index: usize) -> u64 {
        match self.search.theorems.get(index) {
            Some(theorem) => theorem.bytes,
            None => 0,
        }
    }

    // Whether the file is shorter without a lemma, which these use; fills in their proofs without
    // it, as far as it was looked for.
    fn is_shorter_without(
        &mut self,
        lemma: usize,
        users: &[u32],
        changed: &mut Vec<Changed>,
        budget: &mut Budget,
    ) -> Result<bool, AllocError> {
        let mut balance = Balance {
            more: 0,
            fewer: self.bytes(self.theorems.saturating_add(lemma)),
        };
        for user in users {
            let index = *user as usize;
            if self.is_new.get(index).copied() != Some(true) {
                continue;
            }
            let old = self.bytes(index);
            let Some(proof) = self.without(lemma, index, budget)? else {
                return Ok(false);
            };
            balance = balance.with(old, proof.bytes);
            changed.push(proof)?;
            if balance.is_no_shorter() {
                return Ok(false);
            }
        }
        Ok(true)
    }

    // The proof of the theorem with an index without a lemma; none where it can't be without it.
    fn without(
        &mut self,
        lemma: usize,
        index: usize,
        budget: &mut Budget,
    ) -> Result<Option<Changed>, AllocError> {
        let Some(proof) = self.proof_without(lemma, index, budget)? else {
            return Ok(None);
        };
        let Some(theorem) = self.search.theorems.get(index) else {
            return Ok(None);
        };
        let bytes = self.size(index, theorem, &proof)?;
        Ok(Some(Changed {
            index,
            proof,
            bytes,
        }))
    }

    // The same, as a proof alone.
    fn proof_without(
        &mut self,
        lemma: usize,
        index: usize,
        budget: &mut Budget,
    ) -> Result<Option<Proof>, AllocError> {
        let Some(told) = self.page.lemmas.get(lemma) else {
            return Ok(None);
        };
        let Some(theorem) = self.search.theorems.get(index) else {
            return Ok(None);
        };
        if told.pattern.mandatory < told.pattern.variables.len() {
            return Ok(None);
        }
        let expansion = Expansion {
            name: self.page.lemma_name(lemma),
            upper: self.page.part_name(told.upper),
            lower: self.page.part_name(told.lower),
            pattern: &told.pattern,
        };
        let id = theorem.id;
        let without = expanded(
            self.alloc,
            self.page.book.seed(),
            &mut self.search.library.terms,
            &theorem.proof,
            expansion,
            budget,
        )?;
        let Some(proof) = without else {
            return Ok(None);
        };
        if self.may_have_proof(id, &proof)? {
            return Ok(Some(proof));
        }
        drop(proof);
        Ok(None)
    }

    // Leaves out a lemma: these proofs are written without it.
    fn leave_out(&mut self, lemma: usize, changed: Vec<Changed>) -> Result<(), AllocError> {
        if let Some(is_put) = self.is_put.get_mut(lemma) {
            *is_put = false;
        }
        self.keep_old(self.theorems.saturating_add(lemma));
        for proof in changed {
            self.put(lemma, proof)?;
        }
        Ok(())
    }

    // Puts a proof without a lemma in place of a theorem's own, and notes that it uses that of
    // which the lemma is made.
    fn put(&mut self, lemma: usize, changed: Changed) -> Result<(), AllocError> {
        self.note_parts(lemma, next_number(changed.index))?;
        if let Some(theorem) = self.search.theorems.get_mut(changed.index) {
            theorem.proof = changed.proof;
            theorem.bytes = changed.bytes;
        }
        Ok(())
    }

    // Notes that a theorem uses the lemmas of which a lemma is made.
    fn note_parts(&mut self, lemma: usize, user: u32) -> Result<(), AllocError> {
        let Some(told) = self.page.lemmas.get(lemma) else {
            return Ok(());
        };
        self.note_part(told.upper, user)?;
        self.note_part(told.lower, user)
    }

    // Notes that a theorem uses this, if it is a lemma.
    fn note_part(&mut self, part: Part, user: u32) -> Result<(), AllocError> {
        if let Part::Lemma(lemma) = part {
            self.users.add(lemma, user)?;
        }
        Ok(())
    }
}
