//! Better choices, by one edge after the other.

use crate::budget::Budget;
use crate::choice::Choice;
use crate::lists::end_of;
use std::alloc::AllocError;

impl<'g> Choice<'g> {
    /// Changes edges one by one, as long as the total gets less and the budget isn't used up.
    pub(crate) fn improve(&mut self, budget: &mut Budget) -> Result<(), AllocError> {
        for _ in 0..budget.left() {
            let start = self.total;
            self.improve_each(budget)?;
            if budget.is_used_up() || self.total >= start {
                break;
            }
        }
        Ok(())
    }

    // Changes the edge of each node that is reached, where the total gets less.
    fn improve_each(&mut self, budget: &mut Budget) -> Result<(), AllocError> {
        let live = self.live()?;
        for node in &live {
            if budget.is_used_up() {
                break;
            }
            if self.is_reached(*node) && self.chosen.graph.edges_of(*node).len() >= 2 {
                self.improve_node(*node, budget)?;
            }
        }
        Ok(())
    }

    // Changes the edge of a node that is reached, where the total gets less.
    fn improve_node(&mut self, node: u32, budget: &mut Budget) -> Result<(), AllocError> {
        let Some(old) = self.chosen.index(node) else {
            return Ok(());
        };
        let most = self.exclusive(node, budget)?;
        let mut best = None;
        let mut least = self.total;
        let count = self.chosen.graph.edges_of(node).len();
        for index in 0..end_of(count) {
            if index == old || !self.may_pay(node, index, most, budget)? {
                continue;
            }
            let total = self.total_with(node, index, old, budget)?;
            if total < least && !budget.is_used_up() {
                least = total;
                best = Some(index);
            }
        }
        if let Some(index) = best {
            self.change(node, index, budget)?;
            self.sort(budget)?;
        }
        Ok(())
    }

    // Whether the edge may be chosen for the node, and its steps alone cost less than that.
    fn may_pay(
        &mut self,
        node: u32,
        index: u32,
        most: u64,
        budget: &mut Budget,
    ) -> Result<bool, AllocError> {
        Ok(self.edge_cost(node, index) < most && self.may(node, index, budget)?)
    }

    // The total with another edge for the node; its old one is chosen again.
    fn total_with(
        &mut self,
        node: u32,
        index: u32,
        old: u32,
        budget: &mut Budget,
    ) -> Result<u64, AllocError> {
        self.change(node, index, budget)?;
        let total = self.total;
        self.change(node, old, budget)?;
        Ok(total)
    }
}
