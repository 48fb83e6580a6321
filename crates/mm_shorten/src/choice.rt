//! A choice of an edge for each node, and what it costs: exactly, by counted references.

use crate::budget::Budget;
use crate::chosen::Chosen;
use crate::graph::Graph;
use crate::lists::{add_one, at, end_of, take_one, zeros};
use crate::order::Order;
use crate::price::Price;
use std::alloc::{AllocError, Global};
use std::cmp::Reverse;

/// An edge for each node, and what the nodes cost that are reached from the root. Where the budget
/// is used up the counts are no longer kept; the edges are those of a proof all the same.
#[derive(Drop)]
pub(crate) struct Choice<'g> {
    alloc: Global,
    price: &'g Price,
    pub(crate) chosen: Chosen<'g>,
    order: Order,
    /// For each node how many children of the edges that are reached it is.
    references: Vec<u32>,
    /// For each label how many nodes that are reached have it.
    uses: Vec<u32>,
    /// What all that is reached costs.
    pub(crate) total: u64,
    /// How many steps all that is reached takes.
    pub(crate) steps: u64,
    todo: Vec<u32>,
}

impl<'g> Choice<'g> {
    /// These edges, where the root is what is proved.
    pub(crate) fn new(
        alloc: Global,
        graph: &'g Graph,
        price: &'g Price,
        root: u32,
        edges: Vec<Option<u32>>,
        budget: &mut Budget,
    ) -> Result<Choice<'g>, AllocError> {
        let count = edges.len();
        let chosen = Chosen { graph, edges };
        let mut order = Order::new(alloc, count)?;
        order.sort(&chosen, budget)?;
        let mut choice = Choice {
            alloc,
            price,
            chosen,
            order,
            references: zeros(alloc, count)?,
            uses: zeros(alloc, price.label_count())?,
            total: price.step,
            steps: 1,
            todo: Vec::new(alloc),
        };
        choice.todo.push(root)?;
        choice.refer(budget)?;
        Ok(choice)
    }

    // How many steps the node's edge takes: one for each child.
    fn steps(&self, node: u32) -> u64 {
        self.chosen.children(node).len() as u64
    }

    // The node is reached.
    fn count(&mut self, node: u32) {
        let steps = self.steps(node);
        self.steps = self.steps.saturating_add(steps);
        self.total = self
            .total
            .saturating_add(steps.saturating_mul(self.price.step));
        if let Some(label) = self.price.label(node, self.chosen.index(node)) {
            if add_one(&mut self.uses, label) {
                self.total = self.total.saturating_add(self.price.label_cost(label));
            }
        }
    }

    // The node is no longer reached.
    fn uncount(&mut self, node: u32) {
        let steps = self.steps(node);
        self.steps = self.steps.saturating_sub(steps);
        self.total = self
            .total
            .saturating_sub(steps.saturating_mul(self.price.step));
        if let Some(label) = self.price.label(node, self.chosen.index(node)) {
            if take_one(&mut self.uses, label) {
                self.total = self.total.saturating_sub(self.price.label_cost(label));
            }
        }
    }

    // Refers to each node of the list once more: where it is the first time, the node and those
    // below it are reached.
    fn refer(&mut self, budget: &mut Budget) -> Result<(), AllocError> {
        for _ in 0..budget.left() {
            budget.take(1);
            let Some(node) = self.todo.pop() else {
                break;
            };
            if add_one(&mut self.references, node) {
                self.count(node);
                self.todo.extend_from_slice(self.chosen.children(node))?;
            }
        }
        Ok(())
    }

    // Refers to each node of the list once less: where it was the last time, the node and those
    // below it are no longer reached.
    fn drop(&mut self, budget: &mut Budget) -> Result<(), AllocError> {
        for _ in 0..budget.left() {
            budget.take(1);
            let Some(node) = self.todo.pop() else {
                break;
            };
            if take_one(&mut self.references, node) {
                self.uncount(node);
                self.todo.extend_from_slice(self.chosen.children(node))?;
            }
        }
        Ok(())
    }

    // Counts the node's edge, and refers to its children.
    fn put_in(&mut self, node: u32, budget: &mut Budget) -> Result<(), AllocError> {
        self.count(node);
        self.todo.clear();
        self.todo.extend_from_slice(self.chosen.children(node))?;
        self.refer(budget)
    }

    // Counts the node's edge no longer, nor refers to its children.
    fn take_out(&mut self, node: u32, budget: &mut Budget) -> Result<(), AllocError> {
        self.uncount(node);
        self.todo.clear();
        self.todo.extend_from_slice(self.chosen.children(node))?;
        self.drop(budget)
    }

    /// Chooses another edge for a node that is reached. The order isn't made anew.
    pub(crate) fn change(
        &mut self,
        node: u32,
        edge: u32,
        budget: &mut Budget,
    ) -> Result<(), AllocError> {
        self.take_out(node, budget)?;
        self.chosen.set(node, edge);
        self.put_in(node, budget)
    }

    /// Makes the order anew.
    pub(crate) fn sort(&mut self, budget: &mut Budget) -> Result<(), AllocError> {
        self.order.sort(&self.chosen, budget)
    }

    /// What would no longer be paid without the node's edge.
    pub(crate) fn exclusive(&mut self, node: u32, budget: &mut Budget) -> Result<u64, AllocError> {
        let before = self.total;
        self.take_out(node, budget)?;
        let after = self.total;
        self.put_in(node, budget)?;
        Ok(before.saturating_sub(after))
    }

    /// What the steps of an edge cost.
    pub(crate) fn edge_cost(&self, node: u32, index: u32) -> u64 {
        match self.chosen.graph.edges_of(node).get(index as usize) {
            Some(edge) => (edge.children.len() as u64).saturating_mul(self.price.step),
            None => 0,
        }
    }

    /// What the edges cost of the node and of all that it depends on, each once.
    pub(crate) fn closure(&mut self, node: u32, budget: &mut Budget) -> Result<u64, AllocError> {
        let children = self.order.children_below(&self.chosen, node, budget)?;
        Ok(children.saturating_mul(self.price.step))
    }

    /// Whether the node is reached.
    pub(crate) fn is_reached(&self, node: u32) -> bool {
        at(&self.references, node) > 0
    }

    /// Whether the edge may be chosen for the node now: its children are derived, and none of them
    /// depends on the node.
    pub(crate) fn may(
        &mut self,
        node: u32,
        edge: u32,
        budget: &mut Budget,
    ) -> Result<bool, AllocError> {
        let Some(edge) = self.chosen.graph.edges_of(node).get(edge as usize) else {
            return Ok(false);
        };
        if !edge
            .children
            .iter()
            .all(|child| self.chosen.is_derived(*child))
        {
            return Ok(false);
        }
        for child in &edge.children {
            if self.order.rests(&self.chosen, *child, node, budget)? {
                return Ok(false);
            }
        }
        Ok(true)
    }

    /// The edges.
    pub(crate) fn into_edges(self) -> Vec<Option<u32>> {
        self.chosen.edges
    }

    /// The nodes that are reached and have an edge, each before those that it depends on.
    pub(crate) fn live(&self) -> Result<Vec<u32>, AllocError> {
        let mut live = Vec::new(self.alloc);
        for node in 0..end_of(self.references.len()) {
            if self.is_reached(node) && self.chosen.index(node).is_some() {
                live.push(node)?;
            }
        }
        live.sort_unstable_by_key(|node| Reverse(self.order.place(*node)));
        Ok(live)
    }
}
