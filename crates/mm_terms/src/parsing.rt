//! The term that an expression is, by the syntax of a database. From its end to its beginning, for
//! each place all syntax is found that begins there, and each once: to the right of a place all is
//! known when it is come to.

ghost use Rattle.std.specs.Prelude.{◌≤◌};

use crate::budget::Budget;
use crate::grammar::{Grammar, Rule, Token};
use crate::terms::Terms;
use mm_frame::Sym;
use std::alloc::{AllocError, Global};

/// How many steps the search for the term of an expression takes at most.
pub(crate) const PARSE_STEPS: u64 = 200_000;

// No more syntax is looked at that begins at one place.
const MOST_FOUND: usize = 1 << 20;

// Syntax that begins at a place.
#[derive(Clone, Copy)]
struct Found {
    /// Its type code.
    code: Sym,
    /// The place behind it.
    end: usize,
    term: u32,
}

// What a variable of a rule stands for.
#[derive(Clone, Copy)]
struct Binding {
    variable: u32,
    term: u32,
}

// A place on the way along a rule and an expression.
#[derive(Clone, Copy)]
struct Place {
    /// How many of the rule's tokens are matched.
    matched: usize,
    /// How far the expression is.
    at: usize,
    /// How many variables were bound before the last token.
    bound: usize,
    /// What the last token bound.
    binding: Option<Binding>,
}

// The search in one expression.
#[derive(Drop)]
struct Chart<'t> {
    alloc: Global,
    tokens: &'t [Token],
    /// For each place what begins there.
    found: Vec<Vec<Found>>,
    places: Vec<Place>,
    bindings: Vec<Binding>,
}

impl<'t> Chart<'t> {
    // Nothing is found in the expression.
    fn new(alloc: Global, tokens: &'t [Token]) -> Result<Chart<'t>, AllocError> {
        let mut found = Vec::with_capacity(alloc, tokens.len())?;
        for _ in tokens {
            found.push(Vec::new(alloc))?;
        }
        Ok(Chart {
            alloc,
            tokens,
            found,
            places: Vec::new(alloc),
            bindings: Vec::new(alloc),
        })
    }

    // What begins at a place, as far as it was found.
    fn at(&self, place: usize) -> &[Found] {
        match self.found.get(place) {
            Some(found) => found,
            None => &[],
        }
    }

    // Notes syntax that begins at a place, where none with its type code ends there too.
    fn note(&mut self, start: usize, new: Found) -> Result<(), AllocError> {
        for old in self.at(start) {
            if old.end == new.end && old.code == new.code {
                return Ok(());
            }
        }
        if let Some(found) = self.found.get_mut(start) {
            found.push(new)?;
        }
        Ok(())
    }

    // Finds what begins at a place, where all is found that begins behind it.
    fn fill(
        &mut self,
        grammar: &Grammar,
        terms: &mut Terms,
        start: usize,
        budget: &mut Budget,
    ) -> Result<(), AllocError>
        ensures { budget.new ≤ budget.old }
    {
        match self.tokens.get(start).copied() {
            Some(Token::Symbol(symbol)) => {
                for number in grammar.beginning_with(symbol) {
                    let first = Place {
                        matched: 1,
                        at: start.saturating_add(1),
                        bound: 0,
                        binding: None,
                    };
                    self.follow(grammar, terms, *number, start, first, budget)?;
                }
            }
            Some(Token::Variable(variable)) => {
                let term = terms.variable(variable)?;
                self.note(
                    start,
                    Found {
                        code: variable.code,
                        end: start.saturating_add(1),
                        term,
                    },
                )?;
            }
            None => {}
        }
        self.grow(grammar, terms, start, budget)
    }

    // Finds what begins with what begins at a place.
    fn grow(
        &mut self,
        grammar: &Grammar,
        terms: &mut Terms,
        start: usize,
        budget: &mut Budget,
    ) -> Result<(), AllocError>
        ensures { budget.new ≤ budget.old }
    {
        for index in 0..MOST_FOUND {
            let Some(first) = self.at(start).get(index).copied() else {
                break;
            };
            self.grow_from(grammar, terms, start, first, budget)?;
        }
        Ok(())
    }

    // Finds what begins with this syntax.
    fn grow_from(
        &mut self,
        grammar: &Grammar,
        terms: &mut Terms,
        start: usize,
        first: Found,
        budget: &mut Budget,
    ) -> Result<(), AllocError>
        ensures { budget.new ≤ budget.old }
    {
        for number in grammar.beginning_with_code(first.code) {
            let Some(variable) = first_variable(grammar, *number) else {
                continue;
            };
            let place = Place {
                matched: 1,
                at: first.end,
                bound: 0,
                binding: Some(Binding {
                    variable,
                    term: first.term,
                }),
            };
            self.follow(grammar, terms, *number, start, place, budget)?;
        }
        Ok(())
    }

    // Follows a rule from a place on, and notes what it builds.
    fn follow(
        &mut self,
        grammar: &Grammar,
        terms: &mut Terms,
        number: u32,
        start: usize,
        first: Place,
        budget: &mut Budget,
    ) -> Result<(), AllocError>
        ensures { budget.new ≤ budget.old }
    {
        let Some(rule) = grammar.rule(number) else {
            return Ok(());
        };
        self.places.clear();
        self.bindings.clear();
        self.places.push(first)?;
        for _ in 0..budget.left() {
            let Some(place) = self.places.pop() else {
                break;
            };
            if !budget.take(1) {
                break;
            }
            self.step(terms, rule, start, place)?;
        }
        Ok(())
    }

    // Goes on from a place by the rule's next token.
    fn step(
        &mut self,
        terms: &mut Terms,
        rule: &Rule,
        start: usize,
        place: Place,
    ) -> Result<(), AllocError> {
        self.bindings.truncate(place.bound);
        if let Some(binding) = place.binding {
            self.bindings.push(binding)?;
        }
        match rule.tokens.get(place.matched).copied() {
            Some(Token::Symbol(symbol)) => self.go_by_symbol(place, symbol),
            Some(Token::Variable(variable)) => {
                self.go_by_variable(place, variable.number, variable.code)
            }
            None => self.finish(terms, rule, start, place.at),
        }
    }

    // Goes on by a symbol.
    fn go_by_symbol(&mut self, place: Place, symbol: Sym) -> Result<(), AllocError> {
        if self.tokens.get(place.at).copied() == Some(Token::Symbol(symbol)) {
            self.places.push(Place {
                matched: place.matched.saturating_add(1),
                at: place.at.saturating_add(1),
                bound: self.bindings.len(),
                binding: None,
            })?;
        }
        Ok(())
    }

    // Goes on by each syntax that a variable can stand for.
    fn go_by_variable(&mut self, place: Place, variable: u32, code: Sym) -> Result<(), AllocError> {
        let bound = self.bindings.len();
        let Some(found) = self.found.get(place.at) else {
            return Ok(());
        };
        for syntax in found {
            if syntax.code == code {
                self.places.push(Place {
                    matched: place.matched.saturating_add(1),
                    at: syntax.end,
                    bound,
                    binding: Some(Binding {
                        variable,
                        term: syntax.term,
                    }),
                })?;
            }
        }
        Ok(())
    }

    // A rule is followed to its end: notes what it builds, where each of its variables stands for
    // one term.
    fn finish(
        &mut self,
        terms: &mut Terms,
        rule: &Rule,
        start: usize,
        end: usize,
    ) -> Result<(), AllocError> {
        let Some(arguments) = arguments_of(self.alloc, rule.variables, &self.bindings)? else {
            return Ok(());
        };
        let term = terms.syntax(rule.label, rule.code, &arguments)?;
        self.note(
            start,
            Found {
                code: rule.code,
                end,
                term,
            },
        )
    }

    // The term that the whole expression is, if one was found.
    fn whole(&self) -> Option<u32> {
        for found in self.at(0) {
            if found.end == self.tokens.len() {
                return Some(found.term);
            }
        }
        None
    }
}

// The variable with which a rule begins.
fn first_variable(grammar: &Grammar, number: u32) -> Option<u32> {
    match grammar.rule(number)?.tokens.first().copied() {
        Some(Token::Variable(variable)) => Some(variable.number),
        _ => None,
    }
}

// What so many variables stand for, in order; none where one stands for two terms or for none.
fn arguments_of(
    alloc: Global,
    count: usize,
    bindings: &[Binding],
) -> Result<Option<Vec<u32>>, AllocError> {
    let mut bound: Vec<Option<u32>> = vec![in alloc; None; count]?;
    for binding in bindings {
        if let Some(term) = bound.get_mut(binding.variable as usize) {
            if term.is_some() && *term != Some(binding.term) {
                return Ok(None);
            }
            *term = Some(binding.term);
        }
    }
    all_of(alloc, &bound)
}

/// The numbers, where each is there.
pub fn all_of(alloc: Global, numbers: &[Option<u32>]) -> Result<Option<Vec<u32>>, AllocError> {
    let mut all = Vec::with_capacity(alloc, numbers.len())?;
    for number in numbers {
        match number {
            Some(number) => all.push(*number)?,
            None => return Ok(None),
        }
    }
    Ok(Some(all))
}

/// The term that an expression without its type code is, where it is found in `PARSE_STEPS` steps.
pub fn parse(
    alloc: Global,
    grammar: &Grammar,
    terms: &mut Terms,
    tokens: &[Token],
) -> Result<Option<u32>, AllocError> {
    let mut budget = Budget::new(PARSE_STEPS);
    let mut chart = Chart::new(alloc, tokens)?;
    for place in 0..tokens.len() {
        let start = tokens.len() - 1 - place;
        chart.fill(grammar, terms, start, &mut budget)?;
    }
    if budget.is_used_up() {
        return Ok(None);
    }
    Ok(chart.whole())
}
