//! What steps and labels cost.

use crate::graph::{Edge, Graph};
use crate::range::{Range, part};
use crate::trie::next_number;
use indexmap::IndexSet;
use mm_base::Seed;
use mm_frame::{Book, Hypothesis, LabelId};
use std::alloc::{AllocError, Global};

/// What a byte costs.
pub const BYTE: u64 = 10;

/// What a step costs, and each label of the list, where a byte costs `BYTE`.
#[derive(Drop)]
pub(crate) struct Price {
    /// What a step costs.
    pub(crate) step: u64,
    /// For each node, one after the other, and each of its edges the number of its label; for a
    /// hypothesis that of its own.
    numbers: Vec<u32>,
    /// For each node where its numbers stand.
    ranges: Vec<Range>,
    /// For each number of a label what it costs.
    labels: Vec<u64>,
}

// One step more costs so many tenths of what a step costs in the mean, as was measured: the steps
// that are saved first are those by long numbers.
const STEP_TENTHS: u64 = 15;

/// What a step costs where a proof with so many steps has so many letters: no less than a byte.
pub fn step_price(letters: usize, steps: usize) -> u64 {
    let tenths = STEP_TENTHS
        .saturating_mul(BYTE)
        .saturating_mul(letters as u64);
    match (tenths / 10).checked_div(steps as u64) {
        Some(price) => price.max(BYTE),
        None => BYTE,
    }
}

// Labels, each once. Those of the mandatory hypotheses come first.
#[derive(Drop)]
struct Labels {
    set: IndexSet<u32, Seed>,
}

impl Labels {
    // The labels of the hypotheses.
    fn new(alloc: Global, seed: Seed, hypotheses: &[Hypothesis]) -> Result<Labels, AllocError> {
        let mut labels = Labels {
            set: IndexSet::with_hasher(alloc, seed),
        };
        for hypothesis in hypotheses {
            labels.number(hypothesis.id.0)?;
        }
        Ok(labels)
    }

    // The number of a label, which gets one where it has none.
    fn number(&mut self, label: u32) -> Result<u32, AllocError> {
        let (index, _) = self.set.insert_full(label)?;
        Ok(u32::try_from(index).unwrap_or(u32::MAX))
    }

    // Adds the numbers of the edges' labels.
    fn add_numbers(&mut self, edges: &[Edge], numbers: &mut Vec<u32>) -> Result<(), AllocError> {
        for edge in edges {
            numbers.push(self.number(edge.label)?)?;
        }
        Ok(())
    }

    // What each label costs, where so many are of mandatory hypotheses, which aren't listed.
    fn costs(&self, alloc: Global, book: &Book, own: usize) -> Result<Vec<u64>, AllocError> {
        let mut costs = Vec::with_capacity(alloc, self.set.len())?;
        for index in 0..self.set.len() {
            costs.push(match self.set.get_index(index) {
                Some(label) if index >= own => cost_of(book.label(LabelId(*label))),
                _ => 0,
            })?;
        }
        Ok(costs)
    }
}

// What a label costs, with the byte before it.
fn cost_of(label: &[u8]) -> u64 {
    BYTE.saturating_mul((label.len() as u64).saturating_add(1))
}

impl Price {
    /// What the steps and labels of the graph cost in bytes, where a step costs so much, and the
    /// labels of these hypotheses nothing.
    pub(crate) fn of_bytes(
        alloc: Global,
        book: &Book,
        graph: &Graph,
        hypotheses: &[Hypothesis],
        step: u64,
    ) -> Result<Price, AllocError> {
        let mut labels = Labels::new(alloc, book.seed(), hypotheses)?;
        let mut numbers = Vec::new(alloc);
        let mut ranges = Vec::with_capacity(alloc, graph.edges.len())?;
        for (edges, hypothesis) in graph.edges.iter().zip(&graph.hypotheses) {
            let start = next_number(numbers.len());
            match hypothesis {
                Some(label) => numbers.push(labels.number(*label)?)?,
                None => labels.add_numbers(edges, &mut numbers)?,
            }
            let end = next_number(numbers.len());
            ranges.push(Range { start, end })?;
        }
        let labels = labels.costs(alloc, book, hypotheses.len())?;
        Ok(Price {
            step,
            numbers,
            ranges,
            labels,
        })
    }

    /// Each step costs one, and labels nothing.
    pub(crate) fn of_steps(alloc: Global) -> Price {
        Price {
            step: 1,
            numbers: Vec::new(alloc),
            ranges: Vec::new(alloc),
            labels: Vec::new(alloc),
        }
    }

    /// How many labels there are.
    pub(crate) fn label_count(&self) -> usize {
        self.labels.len()
    }

    /// The number of the label of a node's edge, or of the hypothesis that the node is.
    pub(crate) fn label(&self, node: u32, edge: Option<u32>) -> Option<u32> {
        let range = self.ranges.get(node as usize).copied()?;
        part(&self.numbers, range)
            .get(edge.unwrap_or(0) as usize)
            .copied()
    }

    /// What the label with a number costs.
    pub(crate) fn label_cost(&self, number: u32) -> u64 {
        self.labels.get(number as usize).copied().unwrap_or(0)
    }
}
