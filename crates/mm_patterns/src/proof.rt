//! Proofs as graphs: a node is a step by a hypothesis or by an assertion that isn't syntax, over
//! terms and over other nodes.

use mm_frame::LabelId;
use mm_terms::next_number;
use std::alloc::{AllocError, Global};

/// A step.
#[derive(Clone, Copy)]
pub struct Node {
    /// What it is by: the number of a label, or of a lemma.
    pub name: u32,
    /// Where its terms stand, and behind them the nodes that it uses.
    pub start: usize,
    pub arguments: u32,
    pub children: u32,
}

/// A proof, each step once. A node uses nodes before it alone.
#[derive(Drop)]
pub struct Proof {
    pub nodes: Vec<Node>,
    /// The terms and nodes that nodes use.
    pub used: Vec<u32>,
    /// The node of the last step.
    pub root: u32,
}

impl Proof {
    /// No steps.
    pub fn new(alloc: Global) -> Proof {
        Proof {
            nodes: Vec::new(alloc),
            used: Vec::new(alloc),
            root: 0,
        }
    }

    /// The same steps.
    pub fn copy(&self, alloc: Global) -> Result<Proof, AllocError> {
        Ok(Proof {
            nodes: Vec::from_slice(alloc, &self.nodes)?,
            used: Vec::from_slice(alloc, &self.used)?,
            root: self.root,
        })
    }

    /// A node.
    pub fn node(&self, node: u32) -> Option<Node> {
        self.nodes.get(node as usize).copied()
    }

    /// The terms of a node.
    pub fn arguments(&self, node: u32) -> &[u32] {
        match self.node(node) {
            Some(node) => self.part(node.start, node.arguments),
            None => &[],
        }
    }

    /// The nodes that a node uses.
    pub fn children(&self, node: u32) -> &[u32] {
        match self.node(node) {
            Some(node) => {
                let start = node.start.saturating_add(node.arguments as usize);
                self.part(start, node.children)
            }
            None => &[],
        }
    }

    /// A step, whose terms and nodes are added to what is used.
    pub fn step(
        &mut self,
        name: u32,
        arguments: &[u32],
        children: &[u32],
    ) -> Result<Node, AllocError> {
        let start = self.used.len();
        self.used.extend_from_slice(arguments)?;
        self.used.extend_from_slice(children)?;
        Ok(Node {
            name,
            start,
            arguments: next_number(arguments.len()),
            children: next_number(children.len()),
        })
    }

    /// Appends a step, and answers its node.
    pub fn push(
        &mut self,
        name: u32,
        arguments: &[u32],
        children: &[u32],
    ) -> Result<u32, AllocError> {
        let node = next_number(self.nodes.len());
        let step = self.step(name, arguments, children)?;
        self.nodes.push(step)?;
        Ok(node)
    }

    /// How many times each node is used, where the root is used once.
    pub fn uses(&self, alloc: Global) -> Result<Vec<u32>, AllocError> {
        let mut uses = vec![in alloc; 0u32; self.nodes.len()]?;
        count(&mut uses, self.root);
        for behind in 0..self.nodes.len() {
            let node = next_number(self.nodes.len() - 1 - behind);
            if uses_at(&uses, node) > 0 {
                count_each(&mut uses, self.children(node));
            }
        }
        Ok(uses)
    }

    // A part of what is used.
    fn part(&self, start: usize, count: u32) -> &[u32] {
        let end = start.saturating_add(count as usize);
        self.used.get(start..end).unwrap_or(&[])
    }
}

/// How many times a node is used.
pub(crate) fn uses_at(uses: &[u32], node: u32) -> u32 {
    uses.get(node as usize).copied().unwrap_or(0)
}

/// Counts a number once more.
pub(crate) fn count(uses: &mut [u32], number: u32) {
    if let Some(uses) = uses.get_mut(number as usize) {
        *uses = uses.saturating_add(1);
    }
}

// Counts each of some numbers once more.
fn count_each(uses: &mut [u32], numbers: &[u32]) {
    for number in numbers {
        count(uses, *number);
    }
}

/// A theorem whose proof may be rewritten.
#[derive(Drop)]
pub struct Theorem {
    /// Its label.
    pub id: LabelId,
    /// The number of the block in which it stands, as of an assertion.
    pub block: u32,
    /// The number of its mathbox.
    pub mathbox: u32,
    /// The labels of its mandatory hypotheses, in order.
    pub hypotheses: Vec<u32>,
    /// Its proof.
    pub proof: Proof,
    /// How many bytes the proof has.
    pub bytes: u64,
}
