//! Terms with other terms in place of their variables.

ghost use Rattle.std.specs.Prelude.{◌≤◌};

use crate::budget::Budget;
use crate::parsing::all_of;
use crate::terms::{Head, Terms};
use indexmap::IndexMap;
use mm_base::Seed;
use std::alloc::{AllocError, Global};

// A term on the way down, or on the way up where those below it are replaced.
#[derive(Clone, Copy)]
struct Visit {
    term: u32,
    is_below_done: bool,
}

/// What stands in place of terms: of variables what they are bound to, with its own variables
/// replaced too, and so of all terms with such variables.
#[derive(Drop)]
pub struct Replacing<'b> {
    alloc: Global,
    /// What each variable is bound to, by its number.
    bound: &'b [Option<u32>],
    /// What stands in place of a term; none while that is looked for.
    made: IndexMap<u32, Option<u32>, Seed>,
    visits: Vec<Visit>,
}

impl<'b> Replacing<'b> {
    /// Variables are bound to these; the hashes of terms begin from the seed.
    pub fn new(alloc: Global, seed: Seed, bound: &'b [Option<u32>]) -> Replacing<'b> {
        Replacing {
            alloc,
            bound,
            made: IndexMap::with_hasher(alloc, seed),
            visits: Vec::new(alloc),
        }
    }

    /// Puts one term in place of another, which no term was asked for yet.
    pub fn replace(&mut self, term: u32, by: u32) -> Result<(), AllocError> {
        self.made.insert(term, Some(by))?;
        Ok(())
    }

    /// What stands in place of a term; none where that would hold itself, or the budget is used up.
    pub fn of(
        &mut self,
        terms: &mut Terms,
        term: u32,
        budget: &mut Budget,
    ) -> Result<Option<u32>, AllocError>
        ensures { budget.new ≤ budget.old }
    {
        self.visits.clear();
        self.visit(term)?;
        for _ in 0..budget.left() {
            let Some(visit) = self.visits.pop() else {
                break;
            };
            if !budget.take(1) {
                return Ok(None);
            }
            if visit.is_below_done {
                self.close(terms, visit.term)?;
            } else if !self.open(terms, visit.term)? {
                return Ok(None);
            }
        }
        Ok(self.known(term))
    }

    /// What stands in place of each of these terms.
    pub fn of_each(
        &mut self,
        terms: &mut Terms,
        list: &[u32],
        budget: &mut Budget,
    ) -> Result<Option<Vec<u32>>, AllocError>
        ensures { budget.new ≤ budget.old }
    {
        let mut replaced = Vec::with_capacity(self.alloc, list.len())?;
        for term in list {
            let Some(new) = self.of(terms, *term, budget)? else {
                return Ok(None);
            };
            replaced.push(new)?;
        }
        Ok(Some(replaced))
    }

    // What stands in place of a term, if it was found.
    fn known(&self, term: u32) -> Option<u32> {
        self.made.get(&term).copied().flatten()
    }

    // What a term is bound to.
    fn binding(&self, terms: &Terms, term: u32) -> Option<u32> {
        let variable = terms.as_variable(term)?;
        self.bound.get(variable.number as usize).copied().flatten()
    }

    // Goes down to a term.
    fn visit(&mut self, term: u32) -> Result<(), AllocError> {
        self.visits.push(Visit {
            term,
            is_below_done: false,
        })?;
        Ok(())
    }

    // Goes down to all below a term, and answers whether it isn't looked for already.
    fn open(&mut self, terms: &Terms, term: u32) -> Result<bool, AllocError> {
        match self.made.get(&term).copied() {
            Some(Some(_)) => return Ok(true),
            Some(None) => return Ok(false),
            None => {}
        }
        self.made.insert(term, None)?;
        self.visits.push(Visit {
            term,
            is_below_done: true,
        })?;
        if let Some(other) = self.binding(terms, term) {
            self.visit(other)?;
            return Ok(true);
        }
        for below in terms.arguments(term) {
            self.visit(*below)?;
        }
        Ok(true)
    }

    // All below a term is replaced: makes what stands in its place.
    fn close(&mut self, terms: &mut Terms, term: u32) -> Result<(), AllocError> {
        let made = match self.binding(terms, term) {
            Some(other) => self.known(other),
            None => self.rebuilt(terms, term)?,
        };
        self.made.insert(term, made)?;
        Ok(())
    }

    // The term with what is below it replaced.
    fn rebuilt(&mut self, terms: &mut Terms, term: u32) -> Result<Option<u32>, AllocError> {
        let Some(Head::Syntax(label)) = terms.head(term) else {
            return Ok(Some(term));
        };
        let Some(code) = terms.code(term) else {
            return Ok(None);
        };
        let mut below = Vec::with_capacity(self.alloc, terms.arguments(term).len())?;
        for argument in terms.arguments(term) {
            below.push(self.known(*argument))?;
        }
        let Some(arguments) = all_of(self.alloc, &below)? else {
            return Ok(None);
        };
        Ok(Some(terms.syntax(label, code, &arguments)?))
    }
}
