//! The graph of a proof: each conclusion once, and the ways to derive it.

use crate::expressions::Expressions;
use crate::room::has_room;
use mm_base::Seed;
use mm_frame::{Book, LabelId, LabelKind, Sym};
use mm_listing::{Name, UsedSteps};
use std::alloc::{AllocError, Global};

/// No node gets more edges than that.
pub const MOST_EDGES: usize = 1000;

/// Where an edge comes from.
#[derive(Clone, Copy, PartialEq, Eq, Debug)]
pub enum Origin {
    /// The proof has such a step.
    Proof,
    /// An assertion of the library, whose hypotheses are conclusions of the proof.
    Library,
    /// The same, but for one hypothesis that had to be proved in a step more.
    Missing,
}

/// A way to derive a conclusion: an assertion over the conclusions of its mandatory hypotheses, in
/// order.
#[derive(Drop)]
pub struct Edge {
    /// The number of the assertion's label.
    pub label: u32,
    /// The nodes of its hypotheses.
    pub children: Vec<u32>,
    /// Where it comes from.
    pub origin: Origin,
}

/// Conclusions of a proof, and for each the hypothesis that it is, or its edges. A node is the
/// number of its expression.
#[derive(Drop)]
pub struct Graph {
    alloc: Global,
    /// How many edges there are, and children of edges.
    held: usize,
    /// The conclusions.
    pub expressions: Expressions,
    /// For each node its edges.
    pub edges: Vec<Vec<Edge>>,
    /// For each node the number of the label of the hypothesis that it is.
    pub hypotheses: Vec<Option<u32>>,
}

/// A graph, with the node of what the proof proves.
#[derive(Drop)]
pub struct Shared {
    /// The graph.
    pub graph: Graph,
    /// The node of the proof's last step.
    pub root: u32,
}

impl Graph {
    /// No nodes; the hashes of expressions begin from the seed. It takes no memory.
    pub fn new(alloc: Global, seed: Seed) -> Graph {
        Graph {
            alloc,
            held: 0,
            expressions: Expressions::new(alloc, seed),
            edges: Vec::new(alloc),
            hypotheses: Vec::new(alloc),
        }
    }

    /// The node of a conclusion, which is made where there is none.
    ///
    /// # Errors
    ///
    /// Where a growth was refused.
    pub fn node(&mut self, symbols: &[Sym]) -> Result<u32, AllocError> {
        let node = self.expressions.number(symbols)?;
        for _ in self.edges.len()..self.expressions.len() {
            self.edges.push(Vec::new(self.alloc))?;
        }
        for _ in self.hypotheses.len()..self.expressions.len() {
            self.hypotheses.push(None)?;
        }
        Ok(node)
    }

    /// The edges of a node; none where there is no such node.
    pub fn edges_of(&self, node: u32) -> &[Edge] {
        match self.edges.get(node as usize) {
            Some(edges) => edges,
            None => &[],
        }
    }

    /// The number of the label of the hypothesis that the node is.
    pub fn hypothesis_of(&self, node: u32) -> Option<u32> {
        self.hypotheses.get(node as usize).copied().flatten()
    }

    /// Whether the node is a hypothesis, or has an edge.
    pub fn is_known(&self, node: u32) -> bool {
        self.hypothesis_of(node).is_some() || !self.edges_of(node).is_empty()
    }

    /// Appends an edge to those of the node, and answers whether it did: not where the node has
    /// such an edge or `MOST_EDGES`, is a hypothesis or isn't there, or all edges and their children
    /// are `MOST_HELD`.
    ///
    /// # Errors
    ///
    /// Where a growth was refused.
    pub fn add(&mut self, node: u32, edge: Edge) -> Result<bool, AllocError> {
        if self.hypothesis_of(node).is_some() || !has_room(self.held) {
            return Ok(false);
        }
        let Some(edges) = self.edges.get_mut(node as usize) else {
            return Ok(false);
        };
        if edges.len() >= MOST_EDGES || edges.iter().any(|other| are_alike(other, &edge)) {
            return Ok(false);
        }
        self.held = self
            .held
            .saturating_add(edge.children.len())
            .saturating_add(1);
        edges.push(edge)?;
        Ok(true)
    }

    /// The graph of a proof, where all hypotheses of its steps are told of.
    ///
    /// # Errors
    ///
    /// Where a growth was refused.
    pub fn of_proof(alloc: Global, book: &Book, used: &UsedSteps) -> Result<Shared, AllocError> {
        let mut graph = Graph::new(alloc, book.seed());
        let mut nodes = Vec::with_capacity(alloc, used.lines.len())?;
        for (line, operands) in used.lines.iter().zip(&used.uses) {
            let node = graph.node(&line.expression)?;
            if let Name::Label(id) = line.name {
                let children = nodes_of(alloc, &nodes, operands)?;
                graph.take_step(book, node, id, children)?;
            }
            nodes.push(node)?;
        }
        graph.forget_edges_of_hypotheses();
        // A proof leaves one entry.
        let root = node_of(&nodes, used.roots.first().copied().unwrap_or(0));
        Ok(Shared { graph, root })
    }

    // Takes in a step by a label that has the node's expression, over these nodes.
    fn take_step(
        &mut self,
        book: &Book,
        node: u32,
        id: LabelId,
        children: Vec<u32>,
    ) -> Result<(), AllocError> {
        if is_assertion(book.kind(id)) {
            self.add(
                node,
                Edge {
                    label: id.0,
                    children,
                    origin: Origin::Proof,
                },
            )?;
        } else if let Some(hypothesis) = self.hypotheses.get_mut(node as usize) {
            *hypothesis = Some(id.0);
        }
        Ok(())
    }

    // A conclusion that is a hypothesis is derived by it alone.
    fn forget_edges_of_hypotheses(&mut self) {
        for (edges, hypothesis) in self.edges.iter_mut().zip(&self.hypotheses) {
            if hypothesis.is_some() {
                edges.clear();
            }
        }
    }
}

// Whether it is the kind of an assertion.
fn is_assertion(kind: LabelKind) -> bool {
    match kind {
        LabelKind::Axiom | LabelKind::Proof => true,
        LabelKind::Floating | LabelKind::Essential => false,
    }
}

// The node of the step with a number, from 1 on.
fn node_of(nodes: &[u32], step: usize) -> u32 {
    nodes.get(step.saturating_sub(1)).copied().unwrap_or(0)
}

// The nodes of the steps with these numbers.
fn nodes_of(alloc: Global, nodes: &[u32], steps: &[usize]) -> Result<Vec<u32>, AllocError> {
    let mut found = Vec::with_capacity(alloc, steps.len())?;
    for step in steps {
        found.push(node_of(nodes, *step))?;
    }
    Ok(found)
}

// Whether two edges are the same, wherever they come from.
fn are_alike(one: &Edge, other: &Edge) -> bool {
    one.label == other.label && one.children.as_slice() == other.children.as_slice()
}
