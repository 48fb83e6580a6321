//! The shorter proof of one theorem.

use crate::assertions::Library;
use crate::choose::{Aim, choice_budget, choose_text};
use crate::edges::Theorem;
use crate::goals::goals_of;
use crate::graph::{Graph, Shared};
use crate::price::step_price;
use crate::search::{FIRST_SEARCH_STEPS, Reach, search_budget};
use mm_listing::UsedSteps;
use std::alloc::{AllocError, Global};

/// The size of the small proof of a theorem.
#[derive(Clone, Copy)]
pub struct Size {
    /// How many letters it has.
    pub letters: usize,
    /// How many steps it has where it is fully shared.
    pub steps: usize,
}

impl Library {
    /// The text of a small proof of a theorem: its own one, of which these are the steps with all
    /// that they use, or one that takes other ways by what the library has. It may be no smaller
    /// than the small proof that there is, whose size is handed in, and the checker is to judge it.
    /// Nothing is answered where the steps prove nothing. Where the search took no more than
    /// `FIRST_SEARCH_STEPS`, a second one goes on from what it found. Each search is bounded by
    /// `search_budget`, each choice by `choice_budget`; where one of them is used up, it is the best
    /// text so far, or nothing.
    ///
    /// # Errors
    ///
    /// Where a growth was refused.
    pub fn shorten(
        &self,
        alloc: Global,
        theorem: &Theorem,
        used: &UsedSteps,
        size: Size,
        reach: Reach,
    ) -> Result<Option<Vec<u8>>, AllocError> {
        let mut shared = Graph::of_proof(alloc, theorem.book, used)?;
        let text = self.shorten_graph(alloc, theorem, &mut shared, size, reach);
        drop(shared);
        text
    }

    // The same, of the proof whose graph this is.
    fn shorten_graph(
        &self,
        alloc: Global,
        theorem: &Theorem,
        shared: &mut Shared,
        size: Size,
        reach: Reach,
    ) -> Result<Option<Vec<u8>>, AllocError> {
        let aim = Aim {
            root: shared.root,
            step: step_price(size.letters, size.steps),
            most_steps: size.steps as u64,
        };
        let taken = self.widen(alloc, theorem, shared, reach)?;
        let first = chosen_text(alloc, theorem, shared, aim)?;
        if taken > FIRST_SEARCH_STEPS {
            return Ok(first);
        }
        self.widen(alloc, theorem, shared, reach)?;
        let second = chosen_text(alloc, theorem, shared, aim)?;
        if length_of(&second) < length_of(&first) {
            Ok(second)
        } else {
            Ok(first)
        }
    }

    // Adds the edges by the library, and answers how many steps the search took.
    fn widen(
        &self,
        alloc: Global,
        theorem: &Theorem,
        shared: &mut Shared,
        reach: Reach,
    ) -> Result<u64, AllocError> {
        let mut budget = choice_budget(&shared.graph);
        let goals = goals_of(alloc, &shared.graph, shared.root, &mut budget)?;
        let mut budget = search_budget(&shared.graph);
        let most = budget.left();
        self.add_edges(theorem, &mut shared.graph, &goals, reach, &mut budget)?;
        Ok(most - budget.left())
    }
}

// The text of the smallest proof that is found in the graph.
fn chosen_text(
    alloc: Global,
    theorem: &Theorem,
    shared: &Shared,
    aim: Aim,
) -> Result<Option<Vec<u8>>, AllocError> {
    let mut budget = choice_budget(&shared.graph);
    choose_text(
        alloc,
        theorem.book,
        theorem.frame.hypotheses(),
        &shared.graph,
        aim,
        &mut budget,
    )
}

// The length of a text; the greatest number where there is none.
fn length_of(text: &Option<Vec<u8>>) -> usize {
    match text {
        Some(text) => text.len(),
        None => usize::MAX,
    }
}
