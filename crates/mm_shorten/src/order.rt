//! An order of all nodes, each behind those that it depends on.

use crate::budget::Budget;
use crate::chosen::Chosen;
use crate::lists::{at, end_of, set, zeros};
use std::alloc::{AllocError, Global};

// A node on the way down, and the index of the child that comes next.
#[derive(Clone, Copy)]
struct Visit {
    node: u32,
    child: usize,
}

/// The place of each node in the order under the chosen edges.
#[derive(Drop)]
pub(crate) struct Order {
    places: Vec<u32>,
    /// For each node the number of the pass that saw it last.
    passes: Vec<u32>,
    pass: u32,
    /// How many nodes have a place.
    placed: u32,
    path: Vec<Visit>,
    todo: Vec<u32>,
}

impl Order {
    /// So many nodes, in no order.
    pub(crate) fn new(alloc: Global, count: usize) -> Result<Order, AllocError> {
        Ok(Order {
            places: zeros(alloc, count)?,
            passes: zeros(alloc, count)?,
            pass: 0,
            placed: 0,
            path: Vec::new(alloc),
            todo: Vec::new(alloc),
        })
    }

    /// The place of a node.
    pub(crate) fn place(&self, node: u32) -> u32 {
        at(&self.places, node)
    }

    // Begins a pass.
    fn begin(&mut self) {
        self.pass = self.pass.wrapping_add(1);
    }

    // Whether this pass sees the node for the first time.
    fn is_new(&mut self, node: u32) -> bool {
        let is_new = at(&self.passes, node) != self.pass;
        set(&mut self.passes, node, self.pass);
        is_new
    }

    /// Puts the nodes into an order anew.
    pub(crate) fn sort(&mut self, chosen: &Chosen, budget: &mut Budget) -> Result<(), AllocError> {
        self.begin();
        self.placed = 0;
        budget.take(self.places.len());
        for node in 0..end_of(self.places.len()) {
            if self.is_new(node) {
                self.path.clear();
                self.path.push(Visit { node, child: 0 })?;
                self.place_path(chosen, budget)?;
            }
        }
        Ok(())
    }

    // Places the node of the path and all that it depends on.
    fn place_path(&mut self, chosen: &Chosen, budget: &mut Budget) -> Result<(), AllocError> {
        for _ in 0..budget.left() {
            budget.take(1);
            let Some(visit) = self.path.last_mut() else {
                break;
            };
            match chosen.children(visit.node).get(visit.child) {
                Some(child) => {
                    visit.child = visit.child.saturating_add(1);
                    if self.is_new(*child) {
                        self.path.push(Visit {
                            node: *child,
                            child: 0,
                        })?;
                    }
                }
                None => {
                    let node = visit.node;
                    set(&mut self.places, node, self.placed);
                    self.placed = self.placed.saturating_add(1);
                    self.path.pop();
                }
            }
        }
        Ok(())
    }

    /// How many children the edges have of the node and of all that it rests on, each counted once,
    /// as far as the budget goes.
    pub(crate) fn children_below(
        &mut self,
        chosen: &Chosen,
        node: u32,
        budget: &mut Budget,
    ) -> Result<u64, AllocError> {
        self.begin();
        self.todo.clear();
        self.todo.push(node)?;
        let mut sum = 0u64;
        for _ in 0..budget.left() {
            budget.take(1);
            let Some(next) = self.todo.pop() else {
                break;
            };
            if self.is_new(next) {
                let children = chosen.children(next);
                sum = sum.saturating_add(children.len() as u64);
                self.todo.extend_from_slice(children)?;
            }
        }
        Ok(sum)
    }

    /// Whether a node rests on another one under the chosen edges; so it is told too where the
    /// budget is used up.
    pub(crate) fn rests(
        &mut self,
        chosen: &Chosen,
        node: u32,
        on: u32,
        budget: &mut Budget,
    ) -> Result<bool, AllocError> {
        self.begin();
        let least = self.place(on);
        self.todo.clear();
        self.todo.push(node)?;
        for _ in 0..budget.left() {
            budget.take(1);
            let Some(next) = self.todo.pop() else {
                return Ok(false);
            };
            if next == on {
                return Ok(true);
            }
            if self.place(next) >= least && self.is_new(next) {
                self.todo.extend_from_slice(chosen.children(next))?;
            }
        }
        Ok(true)
    }
}
