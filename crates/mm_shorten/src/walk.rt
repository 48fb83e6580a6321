//! A walk through the trie of patterns: which of them an expression matches, and by which bindings.

ghost use Rattle.std.specs.Prelude.{◌≤◌};

use crate::budget::Budget;
use crate::matches::Matches;
use crate::patterns::Patterns;
use crate::room::has_room;
use crate::step_table::ROOT;
use crate::syntax::{Span, Spans};
use mm_frame::Sym;
use std::alloc::{AllocError, Global};

// A place of the walk through the trie of patterns along an expression.
#[derive(Clone, Copy)]
struct Place {
    /// The node of the trie.
    node: u32,
    /// How far the expression was matched.
    at: usize,
    /// How many variables were bound before the last step.
    bound: usize,
    /// What the last step bound.
    binding: Option<u32>,
}

/// A walk through the trie of patterns along an expression: the places that are left to go on from,
/// and the bindings on the way to the present one. Its lists are used again for the next walk.
#[derive(Drop)]
pub(crate) struct Walk {
    places: Vec<Place>,
    bindings: Vec<u32>,
}

impl Walk {
    /// A walk that doesn't begin yet. It takes no memory.
    pub(crate) fn new(alloc: Global) -> Walk {
        Walk {
            places: Vec::new(alloc),
            bindings: Vec::new(alloc),
        }
    }

    // Begins at the root.
    fn begin(&mut self) -> Result<(), AllocError> {
        self.places.clear();
        self.bindings.clear();
        self.places.push(Place {
            node: ROOT,
            at: 0,
            bound: 0,
            binding: None,
        })?;
        Ok(())
    }

    // The next place to go on from.
    fn next(&mut self) -> Result<Option<Place>, AllocError> {
        let Some(place) = self.places.pop() else {
            return Ok(None);
        };
        self.bindings.truncate(place.bound);
        if let Some(binding) = place.binding {
            self.bindings.push(binding)?;
        }
        Ok(Some(place))
    }

    // Goes on by a symbol that is no variable.
    fn go_by_symbol(
        &mut self,
        patterns: &Patterns,
        place: Place,
        symbol: Sym,
    ) -> Result<(), AllocError> {
        if let Some(to) = patterns.follow(place.node, symbol) {
            self.places.push(Place {
                node: to,
                at: place.at.saturating_add(1),
                bound: self.bindings.len(),
                binding: None,
            })?;
        }
        Ok(())
    }

    // Goes on by a variable that syntax replaces, where it is new or was replaced by the same, and
    // there is room for one more place.
    fn go_by_variable(&mut self, to: u32, number: u32, span: Span) -> Result<(), AllocError> {
        if !has_room(self.places.len()) {
            return Ok(());
        }
        let bound = self.bindings.len();
        let binding = match self.bindings.get(number as usize) {
            Some(before) if *before == span.conclusion => None,
            Some(_) => return Ok(()),
            None => Some(span.conclusion),
        };
        self.places.push(Place {
            node: to,
            at: span.end,
            bound,
            binding,
        })?;
        Ok(())
    }

    // Goes on by each variable.
    fn go_by_variables(
        &mut self,
        patterns: &Patterns,
        place: Place,
        spans: &Spans,
    ) -> Result<(), AllocError> {
        let mut next = patterns.last_variable(place.node);
        for _ in 0..patterns.variables() {
            let Some(step) = next else {
                break;
            };
            self.go_by_spans(step.to, step.code, step.number, spans.at(place.at))?;
            next = patterns.variable(step.before);
        }
        Ok(())
    }

    // Goes on by a variable with a type code, for each of these spans with that code.
    fn go_by_spans(
        &mut self,
        to: u32,
        code: Sym,
        number: u32,
        spans: &[Span],
    ) -> Result<(), AllocError> {
        for span in spans.iter().rev() {
            if span.code == code {
                self.go_by_variable(to, number, *span)?;
            }
        }
        Ok(())
    }
}

/// A conclusion: its node, and its expression.
#[derive(Clone, Copy)]
pub(crate) struct Conclusion<'e> {
    pub(crate) node: u32,
    pub(crate) expression: &'e [Sym],
}

/// Adds a row for each way in which a conclusion matches a pattern, as far as the budget goes. Its
/// syntax is handed in.
pub(crate) fn add_rows(
    walk: &mut Walk,
    patterns: &Patterns,
    conclusion: Conclusion,
    spans: &Spans,
    matches: &mut Matches,
    budget: &mut Budget,
) -> Result<(), AllocError>
    ensures { budget.new ≤ budget.old }
{
    walk.begin()?;
    for _ in 0..budget.left() {
        let Some(place) = walk.next()? else {
            break;
        };
        if !budget.take(1) {
            break;
        }
        if let Some(symbol) = conclusion.expression.get(place.at) {
            walk.go_by_variables(patterns, place, spans)?;
            walk.go_by_symbol(patterns, place, *symbol)?;
        } else if let Some(pattern) = patterns.pattern_at(place.node) {
            matches.add(pattern, conclusion.node, &walk.bindings)?;
        }
    }
    Ok(())
}
