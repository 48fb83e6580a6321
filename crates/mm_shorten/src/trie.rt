//! Tries over symbols.

use crate::step_table::{ROOT, Step, StepTable};
use mm_base::Seed;
use mm_frame::Sym;
use std::alloc::{AllocError, Global};

/// What a node of a trie notes where it notes nothing: the number of no element of a list.
pub(crate) const NOTHING: u32 = u32::MAX;

// A node: its first step, a filter for the symbols of the others, and what is noted of it.
#[derive(Clone, Copy)]
struct Node {
    /// The symbol of the first step.
    symbol: u32,
    /// The node to which it leads; the root where the node has no step.
    to: u32,
    /// For each other step the bit of its symbol's number modulo 32.
    others: u32,
    note: u32,
}

const NEW_NODE: Node = Node {
    symbol: 0,
    to: ROOT,
    others: 0,
    note: NOTHING,
};

/// Nodes, the steps from them by symbols, and for each node a number that is noted there. Most
/// nodes have one step: the first one of a node stands in it, and the others in a hash table.
#[derive(Drop)]
pub(crate) struct Trie {
    nodes: Vec<Node>,
    others: StepTable,
}

impl Trie {
    /// No nodes; the hashes of steps begin from the seed. It takes no memory.
    pub(crate) fn new(alloc: Global, seed: Seed) -> Trie {
        Trie {
            nodes: Vec::new(alloc),
            others: StepTable::new(alloc, seed),
        }
    }

    /// Whether there isn't even a root.
    pub(crate) fn is_empty(&self) -> bool {
        self.nodes.is_empty()
    }

    /// How many nodes there are.
    pub(crate) fn len(&self) -> usize {
        self.nodes.len()
    }

    /// Adds a node, which the first time is the root, and answers its number.
    pub(crate) fn add_node(&mut self) -> Result<u32, AllocError> {
        let number = next_number(self.nodes.len());
        self.nodes.push(NEW_NODE)?;
        Ok(number)
    }

    /// What is noted at a node.
    #[inline(always)]
    pub(crate) fn note(&self, node: u32) -> u32 {
        match self.nodes.get(node as usize) {
            Some(node) => node.note,
            None => NOTHING,
        }
    }

    /// Notes a number at a node, in place of what is noted there.
    pub(crate) fn set_note(&mut self, node: u32, note: u32) {
        if let Some(node) = self.nodes.get_mut(node as usize) {
            node.note = note;
        }
    }

    /// Where the step from a node by a symbol leads.
    #[inline(always)]
    pub(crate) fn follow(&self, node: u32, symbol: Sym) -> Option<u32> {
        let from = self.nodes.get(node as usize)?;
        if from.symbol == symbol.0 && from.to != ROOT {
            return Some(from.to);
        }
        if from.others & bit(symbol) == 0 {
            return None;
        }
        self.others.find(node, symbol.0)
    }

    /// Where the step from a node by a symbol leads, which is made where there is none.
    pub(crate) fn enter(&mut self, node: u32, symbol: Sym) -> Result<u32, AllocError> {
        if let Some(to) = self.follow(node, symbol) {
            return Ok(to);
        }
        let to = self.add_node()?;
        self.lead(node, symbol, to)?;
        Ok(to)
    }

    // Makes a step, which isn't there yet, lead from a node by a symbol to another node.
    fn lead(&mut self, node: u32, symbol: Sym, to: u32) -> Result<(), AllocError> {
        let Some(from) = self.nodes.get_mut(node as usize) else {
            return Ok(());
        };
        if from.to == ROOT {
            from.symbol = symbol.0;
            from.to = to;
            return Ok(());
        }
        from.others |= bit(symbol);
        self.others.add(Step {
            from: node,
            symbol: symbol.0,
            to,
        })
    }
}

// The bit of a symbol.
#[inline(always)]
fn bit(symbol: Sym) -> u32 {
    1 << (symbol.0 % 32)
}

/// The number of the next of some things that are numbered by 32 bits. All those behind
/// 4,294,967,295 others would have that number.
pub(crate) fn next_number(count: usize) -> u32 {
    u32::try_from(count).unwrap_or(u32::MAX)
}
