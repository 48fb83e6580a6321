//! The search for edges, as a whole.

ghost use Rattle.std.specs.Prelude.{◌≤◌};

use crate::assertions::Library;
use crate::budget::Budget;
use crate::edges::{Finds, Goals, Search, Theorem};
use crate::goals::Goal;
use crate::graph::Graph;
use crate::matches::Matches;
use crate::syntax::{Spans, Syntax};
use crate::trie::next_number;
use crate::walk::{Conclusion, Walk, add_rows};
use mm_frame::Sym;
use std::alloc::AllocError;

/// A search for edges may take so many steps, and `SEARCH_STEPS_EACH` for each conclusion of the
/// proof.
pub const SEARCH_STEPS: u64 = 20_000_000;

/// So many steps a search for edges may take for each conclusion of a proof.
pub const SEARCH_STEPS_EACH: u64 = 100_000;

/// Where a search for edges took no more steps than that, a second one follows, over what the first
/// one found.
pub const FIRST_SEARCH_STEPS: u64 = 100_000;

/// What a search for edges may take for the proof whose graph this is.
pub fn search_budget(graph: &Graph) -> Budget {
    let conclusions = graph.expressions.len() as u64;
    Budget::new(SEARCH_STEPS.saturating_add(conclusions.saturating_mul(SEARCH_STEPS_EACH)))
}

/// Which steps are sought.
#[derive(Clone, Copy, PartialEq, Eq, Debug)]
pub enum Reach {
    /// Those whose hypotheses are all conclusions of the proof.
    Present,
    /// Those too of whose `$e` one is missing, where a further step proves it.
    OneMissing,
}

// What is known of a proof: the syntax that it builds, and the rows of its conclusions; and lists
// by which rows are found, which are used again for each conclusion.
#[derive(Drop)]
struct Known {
    syntax: Syntax,
    matches: Matches,
    spans: Spans,
    walk: Walk,
}

impl Library {
    /// Adds edges for goals to the graph of a theorem's proof: steps by assertions of the library
    /// which may be used, over conclusions of the proof. Sought are steps that depend on what the
    /// theorem rests on, and whose distinct pairs are met; the checker is to judge both. No more is
    /// done than the budget allows.
    ///
    /// # Errors
    ///
    /// Where a growth was refused.
    pub fn add_edges(
        &self,
        theorem: &Theorem,
        graph: &mut Graph,
        goals: &[Goal],
        reach: Reach,
        budget: &mut Budget,
    ) -> Result<(), AllocError>
        ensures { budget.new ≤ budget.old }
    {
        let Some(code) = theorem.frame.expression().first().copied() else {
            return Ok(());
        };
        let mut known = self.known(graph, code, budget)?;
        let answer = self.add_known(theorem, graph, goals, reach, &mut known, budget);
        drop(known);
        answer
    }

    // What is known of a proof of what has this type code.
    fn known(&self, graph: &Graph, code: Sym, budget: &mut Budget) -> Result<Known, AllocError>
        ensures { budget.new ≤ budget.old }
    {
        let syntax = Syntax::of_graph(self.alloc, self.seed, graph, code, budget)?;
        let matches = Matches::new(self.alloc, self.seed)?;
        let mut known = Known {
            syntax,
            matches,
            spans: Spans::new(self.alloc),
            walk: Walk::new(self.alloc),
        };
        match self.list_known(graph, code, &mut known, budget) {
            Ok(()) => Ok(known),
            Err(error) => {
                drop(known);
                Err(error)
            }
        }
    }

    // Adds the rows of the known conclusions with a type code, and lists them.
    fn list_known(
        &self,
        graph: &Graph,
        code: Sym,
        known: &mut Known,
        budget: &mut Budget,
    ) -> Result<(), AllocError>
        ensures { budget.new ≤ budget.old }
    {
        self.match_known(graph, code, known, budget)?;
        known.matches.list_all()
    }

    // Adds the edges for goals by what is known.
    fn add_known(
        &self,
        theorem: &Theorem,
        graph: &mut Graph,
        goals: &[Goal],
        reach: Reach,
        known: &mut Known,
        budget: &mut Budget,
    ) -> Result<(), AllocError>
        ensures { budget.new ≤ budget.old }
    {
        let grounds = self.grounds.union(theorem.uses)?;
        let goals = Goals::new(self.alloc, goals)?;
        let search = Search {
            library: self,
            theorem,
            grounds: &grounds,
            goals: &goals,
            may_lack: reach == Reach::OneMissing,
        };
        let mut finds = Finds::new(self.alloc, self.seed);
        let answer = search.run_all(graph, known, &mut finds, budget);
        drop(finds);
        answer
    }

    // Adds the rows of the known conclusions with a type code.
    fn match_known(
        &self,
        graph: &Graph,
        code: Sym,
        known: &mut Known,
        budget: &mut Budget,
    ) -> Result<(), AllocError>
        ensures { budget.new ≤ budget.old }
    {
        for node in 0..graph.expressions.len() {
            let node = next_number(node);
            if graph.expressions.get(node).first() == Some(&code) && graph.is_known(node) {
                self.match_node(graph, node, known, budget)?;
            }
        }
        Ok(())
    }

    // Adds the rows of what is wanted.
    fn match_wanted(
        &self,
        graph: &Graph,
        goals: &[Goal],
        known: &mut Known,
        budget: &mut Budget,
    ) -> Result<(), AllocError>
        ensures { budget.new ≤ budget.old }
    {
        for goal in goals {
            self.match_node(graph, goal.node, known, budget)?;
        }
        Ok(())
    }

    // Adds the rows of a node.
    fn match_node(
        &self,
        graph: &Graph,
        node: u32,
        known: &mut Known,
        budget: &mut Budget,
    ) -> Result<(), AllocError>
        ensures { budget.new ≤ budget.old }
    {
        if budget.is_used_up() {
            return Ok(());
        }
        let expression = graph.expressions.get(node);
        known
            .syntax
            .put_spans(expression, &mut known.spans, budget)?;
        let conclusion = Conclusion { node, expression };
        add_rows(
            &mut known.walk,
            &self.patterns,
            conclusion,
            &known.spans,
            &mut known.matches,
            budget,
        )
    }
}

impl<'s, 't, 'b, 'a> Search<'s, 't, 'b, 'a> {
    // Adds the edges by the rows that were listed and, where a hypothesis may be missing, those of
    // further steps.
    fn run_all(
        &self,
        graph: &mut Graph,
        known: &mut Known,
        finds: &mut Finds,
        budget: &mut Budget,
    ) -> Result<(), AllocError>
        ensures { budget.new ≤ budget.old }
    {
        let count = known.matches.len();
        self.run((0, count), &mut known.matches, graph, finds, budget)?;
        if self.may_lack {
            self.add_missing(graph, known, finds, budget)?;
        }
        Ok(())
    }

    // Adds the edges of the steps that a hypothesis is missing for, and those that prove it.
    fn add_missing(
        &self,
        graph: &mut Graph,
        known: &mut Known,
        finds: &mut Finds,
        budget: &mut Budget,
    ) -> Result<(), AllocError>
        ensures { budget.new ≤ budget.old }
    {
        let wanted = finds.opened.wanted(self.library, graph, budget)?;
        let answer = match self.run_wanted(&wanted.goals, graph, known, finds, budget) {
            Ok(()) => wanted.add_proved(self.library.alloc, &finds.opened, graph),
            Err(error) => Err(error),
        };
        drop(wanted);
        answer
    }

    // Adds the edges of the steps that prove what is wanted.
    fn run_wanted(
        &self,
        wanted: &[Goal],
        graph: &mut Graph,
        known: &mut Known,
        finds: &mut Finds,
        budget: &mut Budget,
    ) -> Result<(), AllocError>
        ensures { budget.new ≤ budget.old }
    {
        let library = self.library;
        let start = known.matches.len();
        library.match_wanted(graph, wanted, known, budget)?;
        let goals = Goals::new(library.alloc, wanted)?;
        let search = Search {
            goals: &goals,
            may_lack: false,
            ..*self
        };
        let end = known.matches.len();
        search.run((start, end), &mut known.matches, graph, finds, budget)
    }
}
