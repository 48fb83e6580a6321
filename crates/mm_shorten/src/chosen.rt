//! One edge for each node.

use crate::graph::{Edge, Graph};

/// For each node of a graph the index of the edge that was chosen for it: none for a hypothesis,
/// and for what can't be derived.
#[derive(Drop)]
pub(crate) struct Chosen<'g> {
    pub(crate) graph: &'g Graph,
    pub(crate) edges: Vec<Option<u32>>,
}

impl<'g> Chosen<'g> {
    /// The index of the node's edge.
    pub(crate) fn index(&self, node: u32) -> Option<u32> {
        self.edges.get(node as usize).copied().flatten()
    }

    /// Chooses an edge for the node.
    pub(crate) fn set(&mut self, node: u32, index: u32) {
        if let Some(edge) = self.edges.get_mut(node as usize) {
            *edge = Some(index);
        }
    }

    /// The node's edge.
    pub(crate) fn edge(&self, node: u32) -> Option<&'g Edge> {
        match self.index(node) {
            Some(index) => self.graph.edges_of(node).get(index as usize),
            None => None,
        }
    }

    /// The children of the node's edge.
    pub(crate) fn children(&self, node: u32) -> &'g [u32] {
        match self.edge(node) {
            Some(edge) => &edge.children,
            None => &[],
        }
    }

    /// Whether the node is a hypothesis or has an edge that was chosen.
    pub(crate) fn is_derived(&self, node: u32) -> bool {
        self.graph.hypothesis_of(node).is_some() || self.index(node).is_some()
    }
}
