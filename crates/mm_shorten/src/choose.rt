//! The smallest proof that is found in a graph.

use crate::budget::Budget;
use crate::choice::Choice;
use crate::chosen::Chosen;
use crate::graph::Graph;
use crate::least::{Allowed, least_edges};
use crate::outline::outline_text;
use crate::price::Price;
use mm_frame::{Book, Hypothesis};
use std::alloc::{AllocError, Global};

/// A choice may take so many steps, and `CHOICE_STEPS_EACH` for each conclusion of the graph.
pub const CHOICE_STEPS: u64 = 10_000_000;

/// So many steps a choice may take for each conclusion of a graph.
pub const CHOICE_STEPS_EACH: u64 = 100_000;

/// What a choice may take in this graph.
pub fn choice_budget(graph: &Graph) -> Budget {
    let conclusions = graph.expressions.len() as u64;
    Budget::new(CHOICE_STEPS.saturating_add(conclusions.saturating_mul(CHOICE_STEPS_EACH)))
}

// Where the proof is to have fewer steps, a step costs so many times as much.
const HIGH_STEP: u64 = 4;

// For each node its least derivation by edges of the proof, or by all edges where it has none.
fn first_edges(
    alloc: Global,
    graph: &Graph,
    budget: &mut Budget,
) -> Result<Vec<Option<u32>>, AllocError> {
    let mut edges = least_edges(alloc, graph, Allowed::OfProof, budget)?;
    let all = least_edges(alloc, graph, Allowed::All, budget)?;
    for (edge, other) in edges.iter_mut().zip(&all) {
        if edge.is_none() {
            *edge = *other;
        }
    }
    Ok(edges)
}

// A choice that begins with these edges, improved.
fn improved<'g>(
    alloc: Global,
    graph: &'g Graph,
    price: &'g Price,
    root: u32,
    edges: Vec<Option<u32>>,
    budget: &mut Budget,
) -> Result<Choice<'g>, AllocError> {
    let mut choice = Choice::new(alloc, graph, price, root, edges, budget)?;
    choice.improve(budget)?;
    Ok(choice)
}

// The edges that were chosen, and how many steps what is reached takes.
#[derive(Drop)]
struct Best {
    edges: Vec<Option<u32>>,
    steps: u64,
}

// What was chosen.
fn chosen_edges(choice: Choice) -> Best {
    let steps = choice.steps;
    Best {
        edges: choice.into_edges(),
        steps,
    }
}

// The better one of two choices: one begins with the proof's own edges, the other with all.
fn best_edges(
    alloc: Global,
    graph: &Graph,
    price: &Price,
    root: u32,
    budget: &mut Budget,
) -> Result<Best, AllocError> {
    let edges = first_edges(alloc, graph, budget)?;
    let own = improved(alloc, graph, price, root, edges, budget)?;
    let edges = least_edges(alloc, graph, Allowed::All, budget)?;
    let other = improved(alloc, graph, price, root, edges, budget)?;
    if !budget.is_used_up() && other.total < own.total {
        return Ok(chosen_edges(other));
    }
    Ok(chosen_edges(own))
}

/// What is to be proved, and how small the proof should be.
#[derive(Clone, Copy)]
pub struct Aim {
    /// The node that is to be proved.
    pub root: u32,
    /// What a step costs, where a byte costs `BYTE`.
    pub step: u64,
    /// A proof with more steps is of no use.
    pub most_steps: u64,
}

/// The text of the smallest proof that is found, for a `$p` with these mandatory hypotheses;
/// nothing where it can't be derived. The proof is fully shared. Where the smallest one in bytes
/// has too many steps, one is sought that has fewer. It is the best one so far where the budget is
/// used up.
///
/// # Errors
///
/// Where a growth was refused.
pub fn choose_text(
    alloc: Global,
    book: &Book,
    hypotheses: &[Hypothesis],
    graph: &Graph,
    aim: Aim,
    budget: &mut Budget,
) -> Result<Option<Vec<u8>>, AllocError> {
    let price = Price::of_bytes(alloc, book, graph, hypotheses, aim.step)?;
    let high = aim.step.saturating_mul(HIGH_STEP);
    let high = Price::of_bytes(alloc, book, graph, hypotheses, high)?;
    let mut best = best_edges(alloc, graph, &price, aim.root, budget)?;
    if best.steps > aim.most_steps && !budget.is_used_up() {
        best = best_edges(alloc, graph, &high, aim.root, budget)?;
    }
    let chosen = Chosen {
        graph,
        edges: best.edges,
    };
    if !chosen.is_derived(aim.root) {
        return Ok(None);
    }
    let text = outline_text(alloc, book, hypotheses, &chosen, aim.root)?;
    Ok(Some(text))
}
