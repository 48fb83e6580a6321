//! The variables of terms, in the order in which they first stand there.

ghost use Rattle.std.specs.Prelude.{◌≤◌};

use crate::budget::Budget;
use crate::terms::Terms;
use indexmap::IndexMap;
use mm_base::Seed;
use std::alloc::{AllocError, Global};

/// The variables of some terms, each once.
#[derive(Drop)]
pub struct Leaves {
    /// The terms that they are.
    pub variables: Vec<u32>,
    /// The terms that were passed.
    passed: IndexMap<u32, (), Seed>,
    todo: Vec<u32>,
}

impl Leaves {
    /// No variables; the hashes of terms begin from the seed.
    pub fn new(alloc: Global, seed: Seed) -> Leaves {
        Leaves {
            variables: Vec::new(alloc),
            passed: IndexMap::with_hasher(alloc, seed),
            todo: Vec::new(alloc),
        }
    }

    /// Adds the variables of a term, as far as the budget goes.
    pub fn add(&mut self, terms: &Terms, term: u32, budget: &mut Budget) -> Result<(), AllocError>
        ensures { budget.new ≤ budget.old }
    {
        self.todo.clear();
        self.todo.push(term)?;
        for _ in 0..budget.left() {
            let Some(next) = self.todo.pop() else {
                break;
            };
            budget.take(1);
            self.pass(terms, next)?;
        }
        Ok(())
    }

    /// Adds the variables of each of these terms.
    pub fn add_each(
        &mut self,
        terms: &Terms,
        list: &[u32],
        budget: &mut Budget,
    ) -> Result<(), AllocError>
        ensures { budget.new ≤ budget.old }
    {
        for term in list {
            self.add(terms, *term, budget)?;
        }
        Ok(())
    }

    // Passes a term, if it wasn't passed.
    fn pass(&mut self, terms: &Terms, term: u32) -> Result<(), AllocError> {
        if self.passed.get(&term).is_some() {
            return Ok(());
        }
        self.passed.insert(term, ())?;
        if terms.as_variable(term).is_some() {
            self.variables.push(term)?;
        }
        for below in terms.arguments(term).iter().rev() {
            self.todo.push(*below)?;
        }
        Ok(())
    }
}
