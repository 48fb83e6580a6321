//! Least derivations (Knuth's generalization of Dijkstra's algorithm): for each node the edge with
//! which its tree is least.

use crate::budget::Budget;
use crate::graph::{Edge, Graph, Origin};
use crate::lists::{add_one, at, end_of, take_one, unnoted, zeros};
use std::alloc::{AllocError, Global};
use std::cmp::Reverse;
use std::collections::BinaryHeap;

/// Which edges may be taken.
#[derive(Clone, Copy, PartialEq, Eq)]
pub(crate) enum Allowed {
    /// Those of the proof.
    OfProof,
    /// All.
    All,
}

// A node that can be derived, with the size of its tree.
#[derive(Clone, Copy, PartialEq, Eq, PartialOrd, Ord)]
struct Ready {
    size: u128,
    node: u32,
    edge: Option<u32>,
}

// An edge by its node and its index, which has a node among its children.
#[derive(Clone, Copy)]
struct Parent {
    node: u32,
    edge: u32,
}

const NO_PARENT: Parent = Parent { node: 0, edge: 0 };

// For each node the edges that have it as a child, once for each time: those of a node stand
// together, behind those of the nodes before it.
#[derive(Drop)]
struct Parents {
    parents: Vec<Parent>,
    /// Where those of each node end, as far as they were added.
    ends: Vec<u32>,
}

// The search for least derivations.
#[derive(Drop)]
struct Search<'g> {
    graph: &'g Graph,
    parents: Parents,
    /// For each node the number of its first edge, where all edges are counted in order.
    firsts: Vec<u32>,
    /// For each edge, by this number, how many of its children have no derivation yet.
    missing: Vec<u32>,
    /// For each node the size of its least tree.
    sizes: Vec<u128>,
    is_done: Vec<bool>,
    chosen: Vec<Option<u32>>,
    ready: BinaryHeap<Reverse<Ready>>,
}

// Whether the edge may be taken.
fn may_take(allowed: Allowed, edge: &Edge) -> bool {
    match allowed {
        Allowed::OfProof => edge.origin == Origin::Proof,
        Allowed::All => true,
    }
}

// For each node how many times it is a child of edges that may be taken.
fn count_parents(alloc: Global, graph: &Graph, allowed: Allowed) -> Result<Vec<u32>, AllocError> {
    let mut counts = zeros(alloc, graph.expressions.len())?;
    for node in 0..end_of(graph.edges.len()) {
        if graph.hypothesis_of(node).is_none() {
            count_children(&mut counts, graph.edges_of(node), allowed);
        }
    }
    Ok(counts)
}

// Counts the children of those of these edges that may be taken.
fn count_children(counts: &mut [u32], edges: &[Edge], allowed: Allowed) {
    for edge in edges {
        if may_take(allowed, edge) {
            for child in &edge.children {
                add_one(counts, *child);
            }
        }
    }
}

// Makes of each count the sum of those before it, and answers the sum of all.
fn sum_before(counts: &mut [u32]) -> u32 {
    let mut sum = 0u32;
    for count in counts.iter_mut() {
        let next = sum.saturating_add(*count);
        *count = sum;
        sum = next;
    }
    sum
}

// For each node the number of its first edge, and how many edges there are.
fn first_edges(alloc: Global, graph: &Graph) -> Result<(Vec<u32>, u32), AllocError> {
    let mut firsts = Vec::with_capacity(alloc, graph.edges.len())?;
    let mut count = 0u32;
    for edges in &graph.edges {
        firsts.push(count)?;
        count = count.saturating_add(end_of(edges.len()));
    }
    Ok((firsts, count))
}

impl Parents {
    // Room for all, and none of them.
    fn with_room(alloc: Global, graph: &Graph, allowed: Allowed) -> Result<Parents, AllocError> {
        let mut ends = count_parents(alloc, graph, allowed)?;
        let count = sum_before(&mut ends);
        let parents = vec![in alloc; NO_PARENT; count as usize]?;
        Ok(Parents { parents, ends })
    }

    // Adds one of a node.
    fn add(&mut self, child: u32, parent: Parent) {
        let Some(end) = self.ends.get_mut(child as usize) else {
            return;
        };
        if let Some(place) = self.parents.get_mut(*end as usize) {
            *place = parent;
        }
        *end = end.saturating_add(1);
    }

    // Where those of a node begin and end, once all were added.
    fn range(&self, node: u32) -> (u32, u32) {
        let start = if node == 0 {
            0
        } else {
            at(&self.ends, node - 1)
        };
        (start, at(&self.ends, node))
    }
}

impl<'g> Search<'g> {
    // Nothing is derived.
    fn new(alloc: Global, graph: &'g Graph, allowed: Allowed) -> Result<Search<'g>, AllocError> {
        let count = graph.expressions.len();
        let (firsts, edges) = first_edges(alloc, graph)?;
        Ok(Search {
            graph,
            parents: Parents::with_room(alloc, graph, allowed)?,
            firsts,
            missing: zeros(alloc, edges as usize)?,
            sizes: vec![in alloc; 0u128; count]?,
            is_done: unnoted(alloc, count)?,
            chosen: vec![in alloc; None; count]?,
            ready: BinaryHeap::new(alloc),
        })
    }

    // A node can be derived.
    fn push(&mut self, size: u128, node: u32, edge: Option<u32>) -> Result<(), AllocError> {
        self.ready.push(Reverse(Ready { size, node, edge }))?;
        Ok(())
    }

    // Notes which edges of a node wait for which children.
    fn begin(&mut self, node: u32, allowed: Allowed) -> Result<(), AllocError> {
        if self.graph.hypothesis_of(node).is_some() {
            return self.push(1, node, None);
        }
        let mut index = 0u32;
        for edge in self.graph.edges_of(node) {
            if may_take(allowed, edge) {
                self.wait(node, index, edge)?;
            }
            index = index.saturating_add(1);
        }
        Ok(())
    }

    // The edge waits for its children.
    fn wait(&mut self, node: u32, index: u32, edge: &Edge) -> Result<(), AllocError> {
        if edge.children.is_empty() {
            return self.push(1, node, Some(index));
        }
        let parent = Parent { node, edge: index };
        let number = self.edge_number(parent);
        for child in &edge.children {
            self.parents.add(*child, parent);
            add_one(&mut self.missing, number);
        }
        Ok(())
    }

    // The number of an edge among all.
    fn edge_number(&self, edge: Parent) -> u32 {
        at(&self.firsts, edge.node).saturating_add(edge.edge)
    }

    // The size of the tree over the least trees of the edge's children.
    fn size_over(&self, parent: Parent) -> u128 {
        let mut size = 1u128;
        let edges = self.graph.edges_of(parent.node);
        if let Some(edge) = edges.get(parent.edge as usize) {
            for child in &edge.children {
                let below = self.sizes.get(*child as usize).copied().unwrap_or(0);
                size = size.saturating_add(below);
            }
        }
        size
    }

    // The node has its least tree.
    fn settle(&mut self, least: Ready, budget: &mut Budget) -> Result<(), AllocError> {
        let index = least.node as usize;
        let Some(is_done) = self.is_done.get_mut(index) else {
            return Ok(());
        };
        if *is_done {
            return Ok(());
        }
        *is_done = true;
        if let Some(size) = self.sizes.get_mut(index) {
            *size = least.size;
        }
        if let Some(chosen) = self.chosen.get_mut(index) {
            *chosen = least.edge;
        }
        self.tell_parents(least.node, budget)
    }

    // The edges that waited for the node wait for one child less.
    fn tell_parents(&mut self, node: u32, budget: &mut Budget) -> Result<(), AllocError> {
        let (start, end) = self.parents.range(node);
        for index in start..end {
            let Some(parent) = self.parents.parents.get(index as usize).copied() else {
                break;
            };
            budget.take(1);
            let number = self.edge_number(parent);
            if take_one(&mut self.missing, number) {
                let size = self.size_over(parent);
                self.push(size, parent.node, Some(parent.edge))?;
            }
        }
        Ok(())
    }
}

/// For each node the index of the edge with which its tree is least, over edges that are allowed;
/// none for a hypothesis, and for what can't be derived before the budget is used up.
pub(crate) fn least_edges(
    alloc: Global,
    graph: &Graph,
    allowed: Allowed,
    budget: &mut Budget,
) -> Result<Vec<Option<u32>>, AllocError> {
    let mut search = Search::new(alloc, graph, allowed)?;
    for node in 0..end_of(graph.edges.len()) {
        search.begin(node, allowed)?;
    }
    for _ in 0..budget.left() {
        if !budget.take(1) {
            break;
        }
        let Some(Reverse(next)) = search.ready.pop() else {
            break;
        };
        search.settle(next, budget)?;
    }
    Ok(search.chosen)
}
