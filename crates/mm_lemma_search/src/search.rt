//! The search for lemmas: the best one first, all proofs that it makes smaller are rewritten by it,
//! and so on.

ghost use Rattle.std.specs.Prelude.{◌≤◌};

use crate::gathered::{Search, Waiting};
use crate::lemma::{Lemma, Part, Wanted};
use crate::trial::{Changed, Draft, LEAST_PLACES, Spot, Trial, uses_in};
use mm_frame::LabelId;
use mm_patterns::{Digram, Names, Numbered, Pattern, Shape};
use mm_terms::{Budget, next_number};
use mm_verdict::{SoFar, Watch};
use std::alloc::{AllocError, Global};

/// How many steps a search takes at most, where nothing else is wanted.
pub const LEMMA_STEPS: u64 = 4_000_000_000;

// What is known of a digram's gain by where it stands.
#[derive(Clone, Copy)]
struct Gain {
    places: u64,
    /// How many bytes of listed labels may vanish.
    labels: u64,
    /// How many bytes the lemma's label takes in lists.
    listed: u64,
}

// What becomes of a lemma that was tried.
#[derive(Clone, Copy)]
enum Fate {
    /// Proofs are rewritten by it.
    Kept,
    /// It is told alone, since this says it further down, or in another mathbox.
    Known(Part),
    /// It isn't told.
    Left,
}

// The least text of a lemma.
const LEAST_TEXT: u64 = 100;

// How many hundredths one is.
const HUNDREDTHS: u64 = 100;

impl Search {
    /// The lemmas that save most, the best first: each saves what it is told to save after those
    /// before it. Those that something says already are told, and left aside. It is asked once.
    /// Fewer are found where the budget is used up. The watch is told of each that is found.
    ///
    /// # Errors
    ///
    /// Where a growth was refused.
    pub fn lemmas<W: Watch>(
        &mut self,
        wanted: Wanted,
        budget: &mut Budget,
        watch: &mut W,
    ) -> Result<Vec<Lemma>, AllocError>
        ensures { budget.new ≤ budget.old }
    {
        let mut lemmas = Vec::new(self.library.alloc);
        match self.find(&mut lemmas, wanted, budget, watch) {
            Ok(()) => Ok(lemmas),
            Err(error) => {
                drop(lemmas);
                Err(error)
            }
        }
    }

    // Finds lemmas, as long as one waits.
    fn find<W: Watch>(
        &mut self,
        lemmas: &mut Vec<Lemma>,
        wanted: Wanted,
        budget: &mut Budget,
        watch: &mut W,
    ) -> Result<(), AllocError>
        ensures { budget.new ≤ budget.old }
    {
        self.measure_each(budget)?;
        self.wait_all(wanted, budget)?;
        let mut bytes = 0u64;
        for _ in 0..budget.left() {
            if lemmas.len() >= wanted.most || !budget.take(1) {
                break;
            }
            let Some(next) = self.waiting.pop() else {
                break;
            };
            if let Some(lemma) = self.attempt(next.number, wanted, budget)? {
                bytes = bytes.saturating_add(lemma.saved);
                lemmas.push(lemma)?;
                watch.told(self.so_far(lemmas.len(), wanted, bytes));
            }
        }
        watch.told(at_end(lemmas.len(), bytes));
        Ok(())
    }

    // How far the search has come, which has found so many lemmas that save so many bytes.
    fn so_far(&self, lemmas: usize, wanted: Wanted, bytes: u64) -> SoFar {
        let of = lemmas.saturating_add(self.waiting.len());
        SoFar {
            theorems: lemmas,
            of: of.min(wanted.most),
            bytes: bytes as usize,
        }
    }

    // Measures all proofs, and notes their digrams.
    fn measure_each(&mut self, budget: &mut Budget) -> Result<(), AllocError>
        ensures { budget.new ≤ budget.old }
    {
        for index in 0..self.theorems.len() {
            self.measure(index, budget)?;
            self.note(next_number(index), None, budget)?;
        }
        Ok(())
    }

    // Lets all digrams wait that may save something.
    fn wait_all(&mut self, wanted: Wanted, budget: &mut Budget) -> Result<(), AllocError>
        ensures { budget.new ≤ budget.old }
    {
        for number in 0..self.digrams.len() {
            self.wait(next_number(number), wanted, budget)?;
        }
        Ok(())
    }

    // Lets these digrams wait, where they may save something.
    fn wait_each(
        &mut self,
        numbers: &[u32],
        wanted: Wanted,
        budget: &mut Budget,
    ) -> Result<(), AllocError>
        ensures { budget.new ≤ budget.old }
    {
        for number in numbers {
            self.wait(*number, wanted, budget)?;
        }
        Ok(())
    }

    // Measures the proof of the theorem with an index.
    fn measure(&mut self, index: usize, budget: &mut Budget) -> Result<(), AllocError>
        ensures { budget.new ≤ budget.old }
    {
        let names = Names {
            named: &self.library.named,
            terms: &self.library.terms,
        };
        if let Some(theorem) = self.theorems.get_mut(index) {
            theorem.bytes = self
                .sizes
                .size(names, &theorem.hypotheses, &theorem.proof, budget)?;
        }
        Ok(())
    }

    // Notes the digrams of a theorem's proof, or those of one lemma; answers their numbers.
    fn note(
        &mut self,
        theorem: u32,
        only: Option<u32>,
        budget: &mut Budget,
    ) -> Result<Vec<u32>, AllocError>
        ensures { budget.new ≤ budget.old }
    {
        let Some(own) = self.theorems.get(theorem as usize) else {
            return Ok(Vec::new(self.library.alloc));
        };
        budget.take(own.proof.used.len());
        let numbered = Numbered {
            theorem,
            proof: &own.proof,
        };
        self.digrams.note(&self.library, numbered, only)
    }

    // Lets a digram wait, where it may save something.
    fn wait(&mut self, number: u32, wanted: Wanted, budget: &mut Budget) -> Result<(), AllocError>
        ensures { budget.new ≤ budget.old }
    {
        let saved = self.estimate(number, wanted, budget)?;
        if saved > 0 {
            self.waiting.push(Waiting { saved, number })?;
        }
        Ok(())
    }

    // About how many bytes the lemma of a digram saves, rather more than less.
    fn estimate(
        &mut self,
        number: u32,
        wanted: Wanted,
        budget: &mut Budget,
    ) -> Result<u64, AllocError>
        ensures { budget.new ≤ budget.old }
    {
        let Some(digram) = self.digrams.digram(number) else {
            return Ok(0);
        };
        let Some(gain) = self.gain(number, wanted) else {
            return Ok(0);
        };
        let Some(gone) = self.gone(digram, budget)? else {
            return Ok(0);
        };
        let each = 1u64.saturating_add(gone.saturating_mul(2));
        Ok(
            gain.places
                .saturating_mul(each)
                .saturating_add(gain.labels)
                .saturating_sub(gain.listed)
                .saturating_sub(LEAST_TEXT.saturating_add(wanted.comment)),
        )
    }

    // What is known of a digram's gain by where it stands; none where it stands in too few places.
    fn gain(&self, number: u32, wanted: Wanted) -> Option<Gain> {
        let uses = self.digrams.uses(number)?;
        if uses.places.len() < LEAST_PLACES {
            return None;
        }
        let listed = wanted.label.saturating_add(1);
        Some(Gain {
            places: uses.places.len() as u64,
            labels: uses.labels / HUNDREDTHS,
            listed: listed.saturating_mul(uses.theorems as u64),
        })
    }

    // How much a step by the lemma of a digram has less than its two steps; none where there is no
    // lemma.
    fn gone(&mut self, digram: Digram, budget: &mut Budget) -> Result<Option<u64>, AllocError>
        ensures { budget.new ≤ budget.old }
    {
        let Some(pattern) = self.library.pattern(digram, budget)? else {
            return Ok(None);
        };
        let gone = gone(&pattern);
        drop(pattern);
        Ok(Some(gone))
    }

    // Tries the lemma of a digram: it is kept where it saves at least as much as any other is
    // thought to save, waits again where it saves less, and is dropped where it isn't wanted, or
    // where the library says it before its place. Each lemma that is told keeps its name.
    fn attempt(
        &mut self,
        number: u32,
        wanted: Wanted,
        budget: &mut Budget,
    ) -> Result<Option<Lemma>, AllocError>
        ensures { budget.new ≤ budget.old }
    {
        let Some(digram) = self.digrams.digram(number) else {
            return Ok(None);
        };
        let bytes = wanted.label.saturating_add(1).min(u32::MAX as u64) as u32;
        let name = self.library.name(bytes)?;
        match self.trial(digram, number, wanted, budget)? {
            Some(trial) => self.weigh(number, trial, name, wanted, budget),
            None => {
                self.library.unname();
                Ok(None)
            }
        }
    }

    // Keeps a lemma that was tried, or not.
    fn weigh(
        &mut self,
        number: u32,
        trial: Trial,
        name: u32,
        wanted: Wanted,
        budget: &mut Budget,
    ) -> Result<Option<Lemma>, AllocError>
        ensures { budget.new ≤ budget.old }
    {
        match self.fate(number, &trial, wanted) {
            Ok(Fate::Kept) => Ok(Some(self.keep(trial, name, wanted, budget)?)),
            Ok(Fate::Known(known)) => Ok(Some(self.tell(trial, known))),
            Ok(Fate::Left) => {
                drop(trial);
                self.library.unname();
                Ok(None)
            }
            Err(error) => {
                drop(trial);
                Err(error)
            }
        }
    }

    // Whether a lemma that was tried is kept; it waits again where others may save more.
    fn fate(&mut self, number: u32, trial: &Trial, wanted: Wanted) -> Result<Fate, AllocError> {
        let saved = trial.draft.saved;
        if saved < wanted.least {
            return Ok(Fate::Left);
        }
        if !self.is_best(saved)? {
            self.waiting.push(Waiting { saved, number })?;
            return Ok(Fate::Left);
        }
        match self.library.saying(&trial.draft.pattern)? {
            Some(known) if self.is_there(known, trial.draft.spot) => Ok(Fate::Left),
            Some(known) => Ok(Fate::Known(self.part(known))),
            None => Ok(Fate::Kept),
        }
    }

    // Whether what has a name may be used at a spot.
    fn is_there(&self, name: u32, spot: Spot) -> bool {
        match self.library.shape(name) {
            Some(shape) => {
                shape.from <= spot.block && (shape.mathbox == 0 || shape.mathbox == spot.mathbox)
            }
            None => false,
        }
    }

    // Whether no digram that waits is thought to save more.
    fn is_best(&mut self, saved: u64) -> Result<bool, AllocError> {
        let Some(top) = self.waiting.pop() else {
            return Ok(true);
        };
        self.waiting.push(top)?;
        Ok(top.saved <= saved)
    }

    // Keeps a lemma, rewrites the proofs that it makes smaller, and lets what it is part of wait.
    fn keep(
        &mut self,
        trial: Trial,
        name: u32,
        wanted: Wanted,
        budget: &mut Budget,
    ) -> Result<Lemma, AllocError>
        ensures { budget.new ≤ budget.old }
    {
        let Trial { draft, changed } = trial;
        let shape = shape_of(self.library.alloc, &draft);
        let lemma = self.told(draft, &changed, None);
        match self.put_all(shape, changed, name, wanted, budget) {
            Ok(()) => Ok(lemma),
            Err(error) => {
                drop(lemma);
                Err(error)
            }
        }
    }

    // A lemma that something says already: no proof is rewritten by it, and nothing is made of it.
    fn tell(&self, trial: Trial, known: Part) -> Lemma {
        let Trial { draft, changed } = trial;
        let lemma = self.told(draft, &changed, Some(known));
        drop(changed);
        lemma
    }

    // The lemma as it is told.
    fn told(&self, draft: Draft, changed: &[Changed], known: Option<Part>) -> Lemma {
        let Draft {
            digram,
            pattern,
            wording,
            spot,
            saved,
        } = draft;
        Lemma {
            upper: self.part(digram.upper),
            place: digram.place,
            lower: self.part(digram.lower),
            pattern,
            hypotheses: wording.hypotheses,
            conclusion: wording.conclusion,
            uses: uses_in(changed),
            proofs: next_number(changed.len()),
            saved,
            known,
            block: spot.block,
            mathbox: spot.mathbox,
        }
    }

    // A lemma has this shape: puts proofs in place of those of their theorems, and lets their
    // digrams with it wait.
    fn put_all(
        &mut self,
        shape: Result<Shape, AllocError>,
        proofs: Vec<Changed>,
        name: u32,
        wanted: Wanted,
        budget: &mut Budget,
    ) -> Result<(), AllocError>
        ensures { budget.new ≤ budget.old }
    {
        self.library.keep(shape?)?;
        let mut numbers = Vec::new(self.library.alloc);
        match self.put_each(proofs, name, &mut numbers, budget) {
            Ok(()) => {
                numbers.sort_unstable();
                numbers.dedup();
                let waiting = self.wait_each(&numbers, wanted, budget);
                drop(numbers);
                waiting
            }
            Err(error) => {
                drop(numbers);
                Err(error)
            }
        }
    }

    // Puts proofs in place of those of their theorems, and notes their digrams with a lemma.
    fn put_each(
        &mut self,
        proofs: Vec<Changed>,
        name: u32,
        numbers: &mut Vec<u32>,
        budget: &mut Budget,
    ) -> Result<(), AllocError>
        ensures { budget.new ≤ budget.old }
    {
        for changed in proofs {
            self.put(changed, name, numbers, budget)?;
        }
        Ok(())
    }

    // Puts a proof in place of a theorem's own, and notes its digrams with a lemma.
    fn put(
        &mut self,
        changed: Changed,
        name: u32,
        numbers: &mut Vec<u32>,
        budget: &mut Budget,
    ) -> Result<(), AllocError>
        ensures { budget.new ≤ budget.old }
    {
        let number = changed.theorem;
        if let Some(theorem) = self.theorems.get_mut(number as usize) {
            theorem.proof = changed.proof;
            theorem.bytes = changed.bytes;
        }
        let more = self.note(number, Some(name), budget)?;
        let noted = numbers.extend_from_slice(&more);
        drop(more);
        noted
    }

    // What a name is of.
    fn part(&self, name: u32) -> Part {
        let labels = next_number(self.labels);
        if name < labels {
            Part::Assertion(LabelId(name))
        } else {
            Part::Lemma(name - labels)
        }
    }
}

// How many variables and hypotheses a step by a lemma has less than its two steps.
fn gone(pattern: &Pattern) -> u64 {
    let variables = pattern
        .upper_arguments
        .len()
        .saturating_add(pattern.lower_arguments.len());
    let children = pattern
        .upper_children
        .len()
        .saturating_add(pattern.lower_children.len())
        .saturating_sub(1);
    let fewer = variables.saturating_sub(pattern.mandatory);
    let merged = children.saturating_sub(pattern.essentials.len());
    fewer.saturating_add(merged) as u64
}

// How far a search has come that ends, and has found so many lemmas that save so many bytes.
fn at_end(lemmas: usize, bytes: u64) -> SoFar {
    SoFar {
        theorems: lemmas,
        of: lemmas,
        bytes: bytes as usize,
    }
}

// What a lemma says.
fn shape_of(alloc: Global, draft: &Draft) -> Result<Shape, AllocError> {
    let pattern = &draft.pattern;
    let mandatory = pattern.mandatory;
    let codes = pattern.variables.get(..mandatory).unwrap_or(&[]);
    let mut pairs = Vec::new(alloc);
    for pair in &pattern.pairs {
        if (pair.0 as usize) < mandatory && (pair.1 as usize) < mandatory {
            pairs.push(*pair)?;
        }
    }
    Ok(Shape {
        variables: Vec::from_slice(alloc, codes)?,
        essentials: Vec::from_slice(alloc, &pattern.essentials)?,
        conclusion: pattern.conclusion,
        pairs,
        from: draft.spot.block,
        mathbox: draft.spot.mathbox,
    })
}
