//! What it would save to derive a node otherwise.

use crate::budget::Budget;
use crate::choice::Choice;
use crate::graph::Graph;
use crate::least::{Allowed, least_edges};
use crate::price::Price;
use std::alloc::{AllocError, Global};

/// A node of a proof, and how many steps it takes.
#[derive(Clone, Copy, PartialEq, Eq, Debug)]
pub struct Goal {
    /// The node.
    pub node: u32,
    /// How many steps its proof has: those below it, each once.
    pub steps: u64,
    /// How many steps would fall away without its edge.
    pub exclusive: u64,
}

/// The nodes that a small proof of the root by these edges needs, without hypotheses, each before
/// those that it depends on.
///
/// # Errors
///
/// Where a growth was refused.
pub fn goals_of(
    alloc: Global,
    graph: &Graph,
    root: u32,
    budget: &mut Budget,
) -> Result<Vec<Goal>, AllocError> {
    let price = Price::of_steps(alloc);
    let edges = least_edges(alloc, graph, Allowed::All, budget)?;
    let mut choice = Choice::new(alloc, graph, &price, root, edges, budget)?;
    choice.improve(budget)?;
    let live = choice.live()?;
    let mut goals = Vec::with_capacity(alloc, live.len())?;
    for node in &live {
        let steps = choice.closure(*node, budget)?;
        let exclusive = choice.exclusive(*node, budget)?;
        goals.push(Goal {
            node: *node,
            steps,
            exclusive,
        })?;
    }
    Ok(goals)
}
