//! What a lemma would save, tried on all proofs in which its digram stands.

ghost use Rattle.std.specs.Prelude.{◌≤◌};

use crate::gathered::Search;
use crate::lemma::Wanted;
use crate::text_size::text_bytes;
use crate::wording::{Wording, worded, worded_each};
use mm_frame::Piece;
use mm_patterns::{
    Change, Digram, Library, Names, Pattern, Place, Proof, Shape, own_proof, rewritten,
};
use mm_terms::{Budget, next_number};
use std::alloc::{AllocError, Global};

/// A digram that stands in fewer places isn't tried.
pub(crate) const LEAST_PLACES: usize = 3;

/// A proof that a lemma makes smaller.
#[derive(Drop)]
pub(crate) struct Changed {
    pub(crate) theorem: u32,
    pub(crate) proof: Proof,
    /// How many bytes it has.
    pub(crate) bytes: u64,
    /// How many fewer these are.
    saved: u64,
    /// How many steps are by the lemma.
    uses: u32,
}

/// Where a lemma stands: before a block, and in which mathbox.
#[derive(Clone, Copy, PartialEq, Eq, Debug)]
pub(crate) struct Spot {
    pub(crate) block: u32,
    pub(crate) mathbox: u32,
}

/// A lemma, and where it stands.
#[derive(Drop)]
pub(crate) struct Draft {
    pub(crate) digram: Digram,
    pub(crate) pattern: Pattern,
    pub(crate) wording: Wording,
    pub(crate) spot: Spot,
    /// How many bytes a file has less.
    pub(crate) saved: u64,
}

// What a lemma saves, and where it stands then.
#[derive(Drop)]
struct Savings {
    changed: Vec<Changed>,
    spot: Spot,
    saved: u64,
}

/// A lemma that was tried, and the proofs that it makes smaller.
#[derive(Drop)]
pub(crate) struct Trial {
    pub(crate) draft: Draft,
    pub(crate) changed: Vec<Changed>,
}

// Where what uses an assertion stands.
#[derive(Clone, Copy)]
struct Bounds {
    /// In this block or behind it.
    from: u32,
    /// In this mathbox; anywhere where it is 0.
    mathbox: u32,
}

// Where what uses both assertions stands; none where nothing may use both.
fn bounds_of(upper: &Shape, lower: &Shape) -> Option<Bounds> {
    if upper.mathbox != lower.mathbox && upper.mathbox != 0 && lower.mathbox != 0 {
        return None;
    }
    Some(Bounds {
        from: upper.from.max(lower.from),
        mathbox: upper.mathbox.max(lower.mathbox),
    })
}

// Where the places of one theorem end that begin at an index.
fn end_of_theorem(places: &[Place], start: usize) -> usize {
    let Some(first) = places.get(start).copied() else {
        return start;
    };
    let mut end = start;
    for place in places.get(start..).unwrap_or(&[]) {
        if place.theorem != first.theorem {
            break;
        }
        end = end.saturating_add(1);
    }
    end
}

/// How many bytes some proofs have less in all.
pub(crate) fn saved_in(changed: &[Changed]) -> u64 {
    let mut saved = 0u64;
    for proof in changed {
        saved = saved.saturating_add(proof.saved);
    }
    saved
}

/// How many steps in them are by the lemma.
pub(crate) fn uses_in(changed: &[Changed]) -> u32 {
    let mut uses = 0u32;
    for proof in changed {
        uses = uses.saturating_add(proof.uses);
    }
    uses
}

// The wording of a lemma; none where an expression is too long.
fn wording_of(library: &Library, pattern: &Pattern) -> Result<Option<Wording>, AllocError> {
    let Some(conclusion) = worded(library, pattern.conclusion)? else {
        return Ok(None);
    };
    match worded_each(library, &pattern.essentials) {
        Ok(Some(hypotheses)) => Ok(Some(Wording {
            hypotheses,
            conclusion,
        })),
        Ok(None) => {
            drop(conclusion);
            Ok(None)
        }
        Err(error) => {
            drop(conclusion);
            Err(error)
        }
    }
}

// A lemma that saves so much.
fn trial_of(digram: Digram, pattern: Pattern, wording: Wording, savings: Savings) -> Trial {
    Trial {
        draft: Draft {
            digram,
            pattern,
            wording,
            spot: savings.spot,
            saved: savings.saved,
        },
        changed: savings.changed,
    }
}

// The numbers of the mandatory hypotheses of a lemma: of its variables, and of its `$e`.
fn own_names(
    alloc: Global,
    names: Names,
    first: usize,
    count: usize,
) -> Result<Vec<u32>, AllocError> {
    let mut own = Vec::with_capacity(alloc, count)?;
    for index in 0..count {
        own.push(names.of_own(next_number(first.saturating_add(index))))?;
    }
    Ok(own)
}

impl Search {
    /// What the lemma of a digram would save; none where it saves nothing, or the budget is used
    /// up. It is the last one that is named, and has no shape yet.
    pub(crate) fn trial(
        &mut self,
        digram: Digram,
        number: u32,
        wanted: Wanted,
        budget: &mut Budget,
    ) -> Result<Option<Trial>, AllocError>
        ensures { budget.new ≤ budget.old }
    {
        let places = self.places(digram, number)?;
        let trial = self.trial_at(digram, &places, wanted, budget);
        drop(places);
        trial
    }

    // The same, at these places.
    fn trial_at(
        &mut self,
        digram: Digram,
        places: &[Place],
        wanted: Wanted,
        budget: &mut Budget,
    ) -> Result<Option<Trial>, AllocError>
        ensures { budget.new ≤ budget.old }
    {
        if places.len() < LEAST_PLACES {
            return Ok(None);
        }
        let Some(pattern) = self.library.pattern(digram, budget)? else {
            return Ok(None);
        };
        let Some(wording) = wording_of(&self.library, &pattern)? else {
            return Ok(None);
        };
        let text = text_bytes(&pattern, &wording, wanted)?;
        match self.savings(digram, &pattern, places, text, budget) {
            Ok(Some(savings)) => Ok(Some(trial_of(digram, pattern, wording, savings))),
            Ok(None) => {
                drop(pattern);
                drop(wording);
                Ok(None)
            }
            Err(error) => {
                drop(pattern);
                drop(wording);
                Err(error)
            }
        }
    }

    // What the lemma with this pattern saves at these places, if anything; its text has so many
    // bytes besides its proof.
    fn savings(
        &mut self,
        digram: Digram,
        pattern: &Pattern,
        places: &[Place],
        text: u64,
        budget: &mut Budget,
    ) -> Result<Option<Savings>, AllocError>
        ensures { budget.new ≤ budget.old }
    {
        let change = Change {
            digram,
            name: next_number(self.library.named.len().saturating_sub(1)),
            pattern,
        };
        let text = text.saturating_add(self.proof_bytes(change, budget)?);
        let changed = self.try_each(change, places, budget)?;
        let saved = saved_in(&changed).saturating_sub(text);
        match self.spot(digram, &changed) {
            Some(spot) if saved > 0 && !budget.is_used_up() => Ok(Some(Savings {
                changed,
                spot,
                saved,
            })),
            _ => {
                drop(changed);
                Ok(None)
            }
        }
    }

    // The places of a digram at which its lemma may be used, in order, each once.
    fn places(&self, digram: Digram, number: u32) -> Result<Vec<Place>, AllocError> {
        let mut places = Vec::new(self.library.alloc);
        let Some(uses) = self.digrams.uses(number) else {
            return Ok(places);
        };
        let Some(bounds) = self.bounds(digram) else {
            return Ok(places);
        };
        for place in &uses.places {
            if self.is_within(place.theorem, bounds) {
                places.push(*place)?;
            }
        }
        places.sort_unstable();
        places.dedup();
        Ok(places)
    }

    // Where what uses both assertions of a digram stands.
    fn bounds(&self, digram: Digram) -> Option<Bounds> {
        let upper = self.library.shape(digram.upper)?;
        let lower = self.library.shape(digram.lower)?;
        bounds_of(upper, lower)
    }

    // Whether a theorem stands there.
    fn is_within(&self, theorem: u32, bounds: Bounds) -> bool {
        match self.theorems.get(theorem as usize) {
            Some(theorem) => {
                theorem.block >= bounds.from
                    && (bounds.mathbox == 0 || theorem.mathbox == bounds.mathbox)
            }
            None => false,
        }
    }

    // The proofs that a change makes smaller, of those with these places.
    fn try_each(
        &mut self,
        change: Change,
        places: &[Place],
        budget: &mut Budget,
    ) -> Result<Vec<Changed>, AllocError>
        ensures { budget.new ≤ budget.old }
    {
        let mut changed = Vec::new(self.library.alloc);
        let mut start = 0usize;
        for _ in 0..places.len() {
            let end = end_of_theorem(places, start);
            let own = places.get(start..end).unwrap_or(&[]);
            if let Some(proof) = self.try_one(change, own, budget)? {
                changed.push(proof)?;
            }
            start = end;
        }
        Ok(changed)
    }

    // A proof with a change at these places, where that is smaller.
    fn try_one(
        &mut self,
        change: Change,
        places: &[Place],
        budget: &mut Budget,
    ) -> Result<Option<Changed>, AllocError>
        ensures { budget.new ≤ budget.old }
    {
        let Some(first) = places.first().copied() else {
            return Ok(None);
        };
        let Some(theorem) = self.theorems.get(first.theorem as usize) else {
            return Ok(None);
        };
        if !budget.take(theorem.proof.nodes.len()) {
            return Ok(None);
        }
        let new = rewritten(self.library.alloc, &theorem.proof, change, places)?;
        let names = Names {
            named: &self.library.named,
            terms: &self.library.terms,
        };
        let bytes = self
            .sizes
            .size(names, &theorem.hypotheses, &new.proof, budget)?;
        if new.uses == 0 || budget.is_used_up() || bytes >= theorem.bytes {
            return Ok(None);
        }
        Ok(Some(Changed {
            theorem: first.theorem,
            proof: new.proof,
            bytes,
            saved: theorem.bytes - bytes,
            uses: new.uses,
        }))
    }

    // Where the lemma of a digram stands that these proofs use: before the first of them, or, where
    // several mathboxes have them and no other place, before all mathboxes.
    fn spot(&self, digram: Digram, changed: &[Changed]) -> Option<Spot> {
        let mut spot: Option<Spot> = None;
        let mut is_shared = false;
        for proof in changed {
            let Some(theorem) = self.theorems.get(proof.theorem as usize) else {
                continue;
            };
            let own = Spot {
                block: theorem.block,
                mathbox: theorem.mathbox,
            };
            spot = Some(match spot {
                Some(first) if first.block <= own.block => first,
                _ => own,
            });
            is_shared = is_shared || spot.is_some_and(|first| first.mathbox != own.mathbox);
        }
        let spot = spot?;
        if is_shared && spot.mathbox != 0 {
            return self.shared_spot(digram);
        }
        Some(spot)
    }

    // The spot before all mathboxes; none where what the digram is of isn't there yet.
    fn shared_spot(&self, digram: Digram) -> Option<Spot> {
        let block = self.first_mathbox?;
        if self.bounds(digram)?.from > block {
            return None;
        }
        Some(Spot { block, mathbox: 0 })
    }

    // The bytes of a lemma's own proof.
    fn proof_bytes(&mut self, change: Change, budget: &mut Budget) -> Result<u64, AllocError>
        ensures { budget.new ≤ budget.old }
    {
        let alloc = self.library.alloc;
        let names = Names {
            named: &self.library.named,
            terms: &self.library.terms,
        };
        let pattern = change.pattern;
        let count = pattern.essentials.len();
        let essentials = own_names(alloc, names, pattern.variables.len(), count)?;
        let mut hypotheses = own_names(alloc, names, 0, pattern.mandatory)?;
        hypotheses.extend_from_slice(&essentials)?;
        let proof = own_proof(alloc, change, &essentials)?;
        self.sizes.size(names, &hypotheses, &proof, budget)
    }
}
