//! Whether replacements of variables may stand for a distinct pair.

ghost use Rattle.std.specs.Prelude.{◌≤◌};

use crate::budget::Budget;
use crate::graph::Graph;
use crate::range::Range;
use crate::trie::next_number;
use indexmap::IndexMap;
use mm_base::Seed;
use mm_frame::{Book, Frame, Sym};
use std::alloc::{AllocError, Global};

// How many variables of a proof there are of which is kept what was told.
const ROW_BITS: usize = 64;

// What was told of a variable, and of others, as bits by their numbers.
#[derive(Clone, Copy)]
struct Row {
    variable: Sym,
    /// Those of which it was asked whether they are a distinct pair with it.
    asked: u64,
    /// Those that are.
    distinct: u64,
}

/// The variables of expressions, by their nodes: of each expression they are listed once, when they
/// are asked for. What is told of two variables at the assertion of one frame is kept.
#[derive(Drop)]
pub(crate) struct Variables {
    alloc: Global,
    /// The variables by number, in the order in which they were met.
    rows: Vec<Row>,
    by_symbol: IndexMap<u32, u32, Seed>,
    /// The numbers of the variables of expressions, of one expression after the other.
    members: Vec<u32>,
    /// By node, where those of its expression stand.
    lists: IndexMap<u32, Range, Seed>,
}

impl Variables {
    /// No expressions, whose nodes' hashes begin from the seed. It takes no memory.
    pub(crate) fn new(alloc: Global, seed: Seed) -> Variables {
        Variables {
            alloc,
            rows: Vec::new(alloc),
            by_symbol: IndexMap::with_hasher(alloc, seed),
            members: Vec::new(alloc),
            lists: IndexMap::with_hasher(alloc, seed),
        }
    }

    /// Whether each variable of the one node's expression and each of the other's are a distinct
    /// pair at the assertion of the frame, which is always the same.
    pub(crate) fn are_disjoint(
        &mut self,
        book: &Book,
        frame: &Frame,
        graph: &Graph,
        nodes: (u32, u32),
        budget: &mut Budget,
    ) -> Result<bool, AllocError>
        ensures { budget.new ≤ budget.old }
    {
        let variables = self.list(book, graph, nodes.0)?;
        let others = self.list(book, graph, nodes.1)?;
        let count = others.end.saturating_sub(others.start) as usize;
        for at in variables.start..variables.end {
            budget.take(count);
            if !self.is_disjoint_from_each(frame, at, others) {
                return Ok(false);
            }
        }
        Ok(true)
    }

    // Whether the variable at a place of the members and each of the others there are a distinct
    // pair at the frame's assertion.
    fn is_disjoint_from_each(&mut self, frame: &Frame, at: u32, others: Range) -> bool {
        let Some(variable) = self.members.get(at as usize).copied() else {
            return true;
        };
        for at in others.start..others.end {
            let Some(other) = self.members.get(at as usize).copied() else {
                break;
            };
            if !self.is_distinct(frame, variable, other) {
                return false;
            }
        }
        true
    }

    // Whether the variables with these numbers are a distinct pair at the frame's assertion.
    fn is_distinct(&mut self, frame: &Frame, variable: u32, other: u32) -> bool {
        let Some(symbol) = self.symbol(other) else {
            return false;
        };
        let Some(row) = self.rows.get_mut(variable as usize) else {
            return false;
        };
        let bit = bit(other);
        if row.asked & bit != 0 {
            return row.distinct & bit != 0;
        }
        let is_distinct = frame.distinct(row.variable, symbol);
        row.asked |= bit;
        if is_distinct {
            row.distinct |= bit;
        }
        is_distinct
    }

    // The variable with a number.
    fn symbol(&self, number: u32) -> Option<Sym> {
        let row = self.rows.get(number as usize)?;
        Some(row.variable)
    }

    // Where the variables of a node's expression stand, which are listed where they weren't.
    fn list(&mut self, book: &Book, graph: &Graph, node: u32) -> Result<Range, AllocError> {
        if let Some(range) = self.lists.get(&node) {
            return Ok(*range);
        }
        let mut list = Vec::new(self.alloc);
        for symbol in graph.expressions.get(node) {
            if book.is_variable(*symbol) {
                list.push(*symbol)?;
            }
        }
        list.sort_unstable();
        list.dedup();
        let start = next_number(self.members.len());
        for variable in &list {
            let number = self.number(*variable)?;
            self.members.push(number)?;
        }
        let end = next_number(self.members.len());
        let range = Range { start, end };
        self.lists.insert(node, range)?;
        Ok(range)
    }

    // The number of a variable, which gets one where it has none.
    fn number(&mut self, variable: Sym) -> Result<u32, AllocError> {
        if let Some(number) = self.by_symbol.get(&variable.0) {
            return Ok(*number);
        }
        let number = next_number(self.rows.len());
        self.by_symbol.insert(variable.0, number)?;
        self.rows.push(Row {
            variable,
            asked: 0,
            distinct: 0,
        })?;
        Ok(number)
    }
}

// The bit of a variable with a number; none where it has none.
fn bit(number: u32) -> u64 {
    if (number as usize) < ROW_BITS {
        1 << number
    } else {
        0
    }
}
