//! Most general unification of terms.

ghost use Rattle.std.specs.Prelude.{◌≤◌};

use crate::budget::Budget;
use crate::terms::{Head, Terms};
use std::alloc::{AllocError, Global};

// Two terms that are to become one.
#[derive(Clone, Copy)]
struct Pair {
    one: u32,
    other: u32,
}

/// What variables are bound to, so that terms become one.
#[derive(Drop)]
pub struct Unifier {
    /// What each variable is bound to, by its number.
    pub bound: Vec<Option<u32>>,
    pairs: Vec<Pair>,
}

impl Unifier {
    /// So many variables, of which none is bound.
    pub fn new(alloc: Global, variables: usize) -> Result<Unifier, AllocError> {
        Ok(Unifier {
            bound: vec![in alloc; None; variables]?,
            pairs: Vec::new(alloc),
        })
    }

    /// Binds variables so that two terms become one, and answers whether they can; no where the
    /// budget is used up. A variable may come to be bound to a term that holds it.
    pub fn unify(
        &mut self,
        terms: &Terms,
        one: u32,
        other: u32,
        budget: &mut Budget,
    ) -> Result<bool, AllocError>
        ensures { budget.new ≤ budget.old }
    {
        self.pairs.clear();
        self.pairs.push(Pair { one, other })?;
        for _ in 0..budget.left() {
            let Some(pair) = self.pairs.pop() else {
                return Ok(true);
            };
            if !budget.take(1) {
                return Ok(false);
            }
            let one = self.resolved(terms, pair.one);
            let other = self.resolved(terms, pair.other);
            if one != other && !self.join(terms, one, other)? {
                return Ok(false);
            }
        }
        Ok(self.pairs.is_empty())
    }

    // What a term is, where its variables are followed.
    fn resolved(&self, terms: &Terms, term: u32) -> u32 {
        let mut term = term;
        for _ in 0..self.bound.len() {
            match self.binding(terms, term) {
                Some(other) => term = other,
                None => break,
            }
        }
        term
    }

    // What a term is bound to.
    fn binding(&self, terms: &Terms, term: u32) -> Option<u32> {
        let variable = terms.as_variable(term)?;
        self.bound.get(variable.number as usize).copied().flatten()
    }

    // Makes two terms one, as far as their roots go, and answers whether they can be.
    fn join(&mut self, terms: &Terms, one: u32, other: u32) -> Result<bool, AllocError> {
        if terms.code(one) != terms.code(other) {
            return Ok(false);
        }
        match (terms.head(one), terms.head(other)) {
            (Some(Head::Variable(variable)), _) => self.bind(variable.number, other),
            (_, Some(Head::Variable(variable))) => self.bind(variable.number, one),
            (Some(Head::Syntax(label)), Some(Head::Syntax(same))) => {
                if label != same {
                    return Ok(false);
                }
                self.join_below(terms.arguments(one), terms.arguments(other))?;
            }
            _ => return Ok(false),
        }
        Ok(true)
    }

    // Binds a variable.
    fn bind(&mut self, variable: u32, term: u32) {
        if let Some(bound) = self.bound.get_mut(variable as usize) {
            *bound = Some(term);
        }
    }

    // Those below two roots are to become one.
    fn join_below(&mut self, ones: &[u32], others: &[u32]) -> Result<(), AllocError> {
        for (one, other) in ones.iter().zip(others) {
            self.pairs.push(Pair {
                one: *one,
                other: *other,
            })?;
        }
        Ok(())
    }
}
