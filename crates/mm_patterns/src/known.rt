//! Whether a library says a lemma already: by an assertion of which it is an instance.

ghost use Rattle.std.specs.Prelude.{◌≤◌};

use crate::assertions::Library;
use crate::pattern::Pattern;
use crate::shape::Shape;
use mm_base::Seed;
use mm_terms::{Budget, Head, Leaves, Terms};
use std::alloc::{AllocError, Global};

/// How many steps it takes at most to see whether a lemma is known.
const KNOWN_STEPS: u64 = 200_000;

// A term of an assertion, and the one of a lemma that it is to be.
#[derive(Clone, Copy)]
struct Pair {
    own: u32,
    wanted: u32,
}

// A hypothesis of an assertion, and the first one of the lemma that may be it; and what variables
// stood for before.
#[derive(Drop)]
struct Choice {
    hypothesis: usize,
    first: usize,
    bound: Vec<Option<u32>>,
}

// What an assertion's variables stand for where it says a lemma.
#[derive(Drop)]
struct Matching<'m> {
    alloc: Global,
    terms: &'m Terms,
    shape: &'m Shape,
    pattern: &'m Pattern,
    bound: Vec<Option<u32>>,
    pairs: Vec<Pair>,
}

impl<'m> Matching<'m> {
    // No variable stands for anything.
    fn new(
        alloc: Global,
        terms: &'m Terms,
        shape: &'m Shape,
        pattern: &'m Pattern,
    ) -> Result<Matching<'m>, AllocError> {
        Ok(Matching {
            alloc,
            terms,
            shape,
            pattern,
            bound: vec![in alloc; None; shape.variables.len()]?,
            pairs: Vec::new(alloc),
        })
    }

    // Whether the assertion says the lemma.
    fn is_said(&mut self, seed: Seed, budget: &mut Budget) -> Result<bool, AllocError>
        ensures { budget.new ≤ budget.old }
    {
        let own = self.shape.conclusion;
        let wanted = self.pattern.conclusion;
        if !self.meet(own, wanted, budget)? || !self.meet_hypotheses(budget)? {
            return Ok(false);
        }
        self.has_pairs(seed, budget)
    }

    // Lets variables stand for terms so that a term of the assertion is one of the lemma; answers
    // whether they can.
    fn meet(&mut self, own: u32, wanted: u32, budget: &mut Budget) -> Result<bool, AllocError>
        ensures { budget.new ≤ budget.old }
    {
        self.pairs.clear();
        self.pairs.push(Pair { own, wanted })?;
        for _ in 0..budget.left() {
            let Some(pair) = self.pairs.pop() else {
                return Ok(true);
            };
            if !budget.take(1) || !self.meet_roots(pair)? {
                return Ok(false);
            }
        }
        Ok(self.pairs.is_empty())
    }

    // The same, as far as the roots go.
    fn meet_roots(&mut self, pair: Pair) -> Result<bool, AllocError> {
        let terms = self.terms;
        match (terms.head(pair.own), terms.head(pair.wanted)) {
            (Some(Head::Variable(variable)), _) => {
                Ok(
                    terms.code(pair.own) == terms.code(pair.wanted)
                        && self.bind(variable.number, pair.wanted),
                )
            }
            (Some(Head::Syntax(label)), Some(Head::Syntax(same))) => {
                let owns = terms.arguments(pair.own);
                for (own, wanted) in owns.iter().zip(terms.arguments(pair.wanted)) {
                    self.pairs.push(Pair {
                        own: *own,
                        wanted: *wanted,
                    })?;
                }
                Ok(label == same)
            }
            _ => Ok(false),
        }
    }

    // Lets a variable stand for a term, and answers whether it stands for no other.
    fn bind(&mut self, variable: u32, term: u32) -> bool {
        match self.bound.get_mut(variable as usize) {
            Some(bound) => {
                let is_met = bound.is_none() || *bound == Some(term);
                *bound = Some(term);
                is_met
            }
            None => false,
        }
    }

    // Whether each hypothesis of the assertion can be one of the lemma, where the conclusions are
    // one.
    fn meet_hypotheses(&mut self, budget: &mut Budget) -> Result<bool, AllocError>
        ensures { budget.new ≤ budget.old }
    {
        let mut choices = Vec::new(self.alloc);
        choices.push(self.choice(0, 0)?)?;
        for _ in 0..budget.left() {
            let Some(choice) = choices.pop() else {
                return Ok(false);
            };
            if !budget.take(1) {
                return Ok(false);
            }
            if choice.hypothesis >= self.shape.essentials.len() {
                return Ok(true);
            }
            if let Some(at) = self.meet_next(&choice, budget)? {
                let hypothesis = choice.hypothesis;
                choices.push(Choice {
                    hypothesis,
                    first: at.saturating_add(1),
                    bound: choice.bound,
                })?;
                choices.push(self.choice(hypothesis.saturating_add(1), 0)?)?;
            }
        }
        Ok(false)
    }

    // The choice of a hypothesis, by what variables stand for now.
    fn choice(&self, hypothesis: usize, first: usize) -> Result<Choice, AllocError> {
        Ok(Choice {
            hypothesis,
            first,
            bound: Vec::from_slice(self.alloc, &self.bound)?,
        })
    }

    // The index of the next hypothesis of the lemma that can be the one of the choice; variables
    // then stand for what it asks for.
    fn meet_next(
        &mut self,
        choice: &Choice,
        budget: &mut Budget,
    ) -> Result<Option<usize>, AllocError>
        ensures { budget.new ≤ budget.old }
    {
        let Some(own) = self.shape.essentials.get(choice.hypothesis).copied() else {
            return Ok(None);
        };
        let hypotheses = &self.pattern.essentials;
        for at in choice.first..hypotheses.len() {
            let wanted = hypotheses[at];
            self.bound = Vec::from_slice(self.alloc, &choice.bound)?;
            if self.meet(own, wanted, budget)? {
                return Ok(Some(at));
            }
        }
        Ok(None)
    }

    // Whether the lemma has each distinct pair for which the assertion asks.
    fn has_pairs(&self, seed: Seed, budget: &mut Budget) -> Result<bool, AllocError>
        ensures { budget.new ≤ budget.old }
    {
        for pair in &self.shape.pairs {
            let mut ones = Leaves::new(self.alloc, seed);
            let mut others = Leaves::new(self.alloc, seed);
            if let Some(term) = self.bound.get(pair.0 as usize).copied().flatten() {
                ones.add(self.terms, term, budget)?;
            }
            if let Some(term) = self.bound.get(pair.1 as usize).copied().flatten() {
                others.add(self.terms, term, budget)?;
            }
            if !self.are_apart(&ones.variables, &others.variables) {
                return Ok(false);
            }
        }
        Ok(true)
    }

    // Whether each of these variables and each of the others are a distinct pair of the lemma.
    fn are_apart(&self, ones: &[u32], others: &[u32]) -> bool {
        for one in ones {
            if !self.is_apart(*one, others) {
                return false;
            }
        }
        true
    }

    // The same of one variable.
    fn is_apart(&self, one: u32, others: &[u32]) -> bool {
        for other in others {
            let (Some(x), Some(y)) = (self.terms.as_variable(one), self.terms.as_variable(*other))
            else {
                return false;
            };
            let pair = (x.number.min(y.number), x.number.max(y.number));
            if !self.pattern.pairs.contains(&pair) {
                return false;
            }
        }
        true
    }
}

impl Library {
    /// An assertion or a lemma, by its number, that says a lemma: it concludes the same, from some
    /// of its hypotheses.
    pub fn saying(&self, pattern: &Pattern) -> Result<Option<u32>, AllocError> {
        let mut budget = Budget::new(KNOWN_STEPS);
        for name in self.concluding(pattern.conclusion) {
            let Some(shape) = self.shape(*name) else {
                continue;
            };
            if shape.essentials.len() <= pattern.essentials.len()
                && self.says(shape, pattern, &mut budget)?
            {
                return Ok(Some(*name));
            }
        }
        Ok(None)
    }

    // Whether an assertion says a lemma.
    fn says(
        &self,
        shape: &Shape,
        pattern: &Pattern,
        budget: &mut Budget,
    ) -> Result<bool, AllocError>
        ensures { budget.new ≤ budget.old }
    {
        let mut matching = Matching::new(self.alloc, &self.terms, shape, pattern)?;
        let is_said = matching.is_said(self.seed, budget);
        drop(matching);
        is_said
    }
}
