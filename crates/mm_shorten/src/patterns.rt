//! Patterns of expressions, all in one trie.

use crate::step_table::ROOT;
use crate::trie::{Trie, next_number};
use mm_base::Seed;
use mm_frame::{Hypothesis, Piece, Sym};
use std::alloc::{AllocError, Global};

/// A step of the trie of patterns by a variable.
#[derive(Clone, Copy)]
pub(crate) struct VariableStep {
    /// The variable's type code.
    pub(crate) code: Sym,
    /// The variable's number among those of the pattern, by first occurrence.
    pub(crate) number: u32,
    /// The node to which it leads.
    pub(crate) to: u32,
    /// The index of the step by a variable from the same node that was made before it; `NOTHING`
    /// where it is the first.
    pub(crate) before: u32,
}

/// A pattern as an assertion has it.
#[derive(Drop)]
pub(crate) struct Placed {
    /// The pattern's number.
    pub(crate) pattern: u32,
    /// For each variable of the pattern, by number, the index of its `$f` among the mandatory
    /// hypotheses of the assertion.
    pub(crate) places: Vec<u32>,
}

/// Patterns, each once: expressions whose variables are numbered by first occurrence.
#[derive(Drop)]
pub(crate) struct Patterns {
    alloc: Global,
    /// Each node notes the index of its last step by a variable.
    trie: Trie,
    variables: Vec<VariableStep>,
    /// For each node, up to the greatest at which one ends, the number of the pattern.
    ends: Vec<Option<u32>>,
    count: u32,
}

impl Patterns {
    /// No patterns, whose hashes begin from the seed.
    pub(crate) fn new(alloc: Global, seed: Seed) -> Patterns {
        Patterns {
            alloc,
            trie: Trie::new(alloc, seed),
            variables: Vec::new(alloc),
            ends: Vec::new(alloc),
            count: 0,
        }
    }

    /// How many patterns there are.
    pub(crate) fn count(&self) -> u32 {
        self.count
    }

    /// The last step from a node by a variable that was made.
    pub(crate) fn last_variable(&self, node: u32) -> Option<VariableStep> {
        self.variable(self.trie.note(node))
    }

    /// The step by a variable with an index.
    pub(crate) fn variable(&self, index: u32) -> Option<VariableStep> {
        self.variables.get(index as usize).copied()
    }

    /// How many steps by variables there are.
    pub(crate) fn variables(&self) -> usize {
        self.variables.len()
    }

    /// Where the step from a node by a symbol that is no variable leads.
    pub(crate) fn follow(&self, node: u32, symbol: Sym) -> Option<u32> {
        self.trie.follow(node, symbol)
    }

    /// The number of the pattern that ends at a node.
    pub(crate) fn pattern_at(&self, node: u32) -> Option<u32> {
        self.ends.get(node as usize).copied().flatten()
    }

    /// Enters the pattern that these pieces are, over these mandatory hypotheses.
    ///
    /// # Errors
    ///
    /// Where a growth was refused.
    pub(crate) fn enter(
        &mut self,
        hypotheses: &[Hypothesis],
        pieces: &[Piece],
    ) -> Result<Placed, AllocError> {
        if self.trie.is_empty() {
            self.trie.add_node()?;
        }
        let mut places = Vec::new(self.alloc);
        let mut node = ROOT;
        for piece in pieces {
            node = match *piece {
                Piece::Symbol(symbol) => self.trie.enter(node, symbol)?,
                Piece::Value(place) => {
                    let number = number_at(&mut places, place)?;
                    self.enter_variable(node, code_at(hypotheses, place), number)?
                }
            };
        }
        let pattern = self.end_at(node)?;
        Ok(Placed { pattern, places })
    }

    // The node to which the step from a node by a variable leads.
    fn enter_variable(&mut self, node: u32, code: Sym, number: u32) -> Result<u32, AllocError> {
        if let Some(to) = self.step_by(node, code, number) {
            return Ok(to);
        }
        let to = self.trie.add_node()?;
        let index = next_number(self.variables.len());
        self.variables.push(VariableStep {
            code,
            number,
            to,
            before: self.trie.note(node),
        })?;
        self.trie.set_note(node, index);
        Ok(to)
    }

    // Where the step from a node by a variable leads.
    fn step_by(&self, node: u32, code: Sym, number: u32) -> Option<u32> {
        let mut next = self.last_variable(node);
        for _ in 0..self.variables.len() {
            let step = next?;
            if step.code == code && step.number == number {
                return Some(step.to);
            }
            next = self.variable(step.before);
        }
        None
    }

    // The number of the pattern that ends at a node, which gets one where none does.
    fn end_at(&mut self, node: u32) -> Result<u32, AllocError> {
        if let Some(pattern) = self.pattern_at(node) {
            return Ok(pattern);
        }
        for _ in self.ends.len()..=node as usize {
            self.ends.push(None)?;
        }
        let pattern = self.count;
        if let Some(end) = self.ends.get_mut(node as usize) {
            *end = Some(pattern);
        }
        self.count = pattern.saturating_add(1);
        Ok(pattern)
    }
}

// The type code of the `$f` at a place among hypotheses. Each variable of an assertion has a `$f`
// there; else the code is one that no symbol has.
fn code_at(hypotheses: &[Hypothesis], place: u32) -> Sym {
    match hypotheses.get(place as usize) {
        Some(hypothesis) => match hypothesis.typing {
            Some((code, _)) => code,
            None => Sym(u32::MAX),
        },
        None => Sym(u32::MAX),
    }
}

// The number of the variable at a place, which is the next one where the place is new.
fn number_at(places: &mut Vec<u32>, place: u32) -> Result<u32, AllocError> {
    let next = next_number(places.len());
    for (number, other) in places.iter().enumerate() {
        if *other == place {
            return Ok(next_number(number));
        }
    }
    places.push(place)?;
    Ok(next)
}
