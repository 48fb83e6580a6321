//! New edges for the graph of a proof, by the assertions of a library.

ghost use Rattle.std.specs.Prelude.{◌≤◌};

use crate::apart::Variables;
use crate::assertions::{Candidate, Essential, Library, Template};
use crate::budget::Budget;
use crate::goals::Goal;
use crate::graph::{Edge, Graph, Origin};
use crate::join::{Join, Met, children_of, node_at};
use crate::lists::set;
use crate::matches::{Matches, Row};
use crate::missing::{Open, Opened};
use crate::rests::is_within;
use crate::trie::{NOTHING, next_number};
use mm_base::Seed;
use mm_frame::{Book, Frame, LabelId};
use std::alloc::{AllocError, Global};

/// A theorem for whose proof edges are sought.
#[derive(Clone, Copy)]
pub struct Theorem<'t, 'b, 'a> {
    /// The book in which it stands.
    pub book: &'t Book<'a>,
    /// Its frame in this book.
    pub frame: &'t Frame<'b, 'a>,
    /// The assertions that its proof uses.
    pub uses: &'t [LabelId],
    /// The number of its mathbox; 0 outside of all.
    pub mathbox: u32,
}

/// What edges are sought for: by node, the nodes that a proof needs.
#[derive(Drop)]
pub(crate) struct Goals<'g> {
    goals: &'g [Goal],
    /// For each node, up to the greatest that is a goal, the index of the goal that it is.
    by_node: Vec<u32>,
}

impl<'g> Goals<'g> {
    /// These goals.
    pub(crate) fn new(alloc: Global, goals: &'g [Goal]) -> Result<Goals<'g>, AllocError> {
        let mut by_node = Vec::new(alloc);
        for (index, goal) in goals.iter().enumerate() {
            for _ in by_node.len()..=goal.node as usize {
                by_node.push(NOTHING)?;
            }
            set(&mut by_node, goal.node, next_number(index));
        }
        Ok(Goals { goals, by_node })
    }

    // The goal that a node is.
    fn at(&self, node: u32) -> Option<Goal> {
        let index = self.by_node.get(node as usize).copied()?;
        self.goals.get(index as usize).copied()
    }
}

/// What is asked of an assertion of the library: an edge for a goal, whose row says how the goal
/// matches what the assertion concludes.
#[derive(Clone, Copy)]
struct Ask {
    row: Row,
    goal: Goal,
    /// The number of the template.
    number: u32,
}

/// A search for edges: where it looks, and for what.
#[derive(Clone, Copy)]
pub(crate) struct Search<'s, 't, 'b, 'a> {
    pub(crate) library: &'s Library,
    pub(crate) theorem: &'s Theorem<'t, 'b, 'a>,
    /// What the theorem depends on.
    pub(crate) grounds: &'s [u32],
    pub(crate) goals: &'s Goals<'s>,
    /// Whether one `$e` may be missing.
    pub(crate) may_lack: bool,
}

/// What a search has found so far, besides edges.
#[derive(Drop)]
pub(crate) struct Finds {
    variables: Variables,
    join: Join,
    pub(crate) opened: Opened,
}

impl Finds {
    /// Nothing; hashes begin from the seed.
    pub(crate) fn new(alloc: Global, seed: Seed) -> Finds {
        Finds {
            variables: Variables::new(alloc, seed),
            join: Join::new(alloc),
            opened: Opened::new(alloc, seed),
        }
    }
}

impl<'s, 't, 'b, 'a> Search<'s, 't, 'b, 'a> {
    /// Adds the edges for the goals among the conclusions of rows, from an index on up to another.
    pub(crate) fn run(
        &self,
        rows: (usize, usize),
        matches: &mut Matches,
        graph: &mut Graph,
        finds: &mut Finds,
        budget: &mut Budget,
    ) -> Result<(), AllocError>
        ensures { budget.new ≤ budget.old }
    {
        for index in rows.0..rows.1 {
            if !budget.take(1) {
                break;
            }
            if let Some(row) = matches.row(index) {
                if let Some(goal) = self.goals.at(row.conclusion) {
                    self.run_row(row, goal, matches, graph, finds, budget)?;
                }
            }
        }
        Ok(())
    }

    // Adds the edges for a goal by the assertions that conclude the pattern of a row.
    fn run_row(
        &self,
        row: Row,
        goal: Goal,
        matches: &mut Matches,
        graph: &mut Graph,
        finds: &mut Finds,
        budget: &mut Budget,
    ) -> Result<(), AllocError>
        ensures { budget.new ≤ budget.old }
    {
        for candidate in self.library.concluding(row.pattern) {
            if !budget.take(1) {
                break;
            }
            if !self.may_use(*candidate, goal, matches) {
                continue;
            }
            let ask = Ask {
                row,
                goal,
                number: candidate.number,
            };
            if let Some(template) = self.library.template(candidate.number) {
                self.run_join(ask, &template, matches, graph, finds, budget)?;
            }
        }
        Ok(())
    }

    // Whether an assertion may be used, and a step by it could save something.
    fn may_use(&self, candidate: Candidate, goal: Goal, matches: &Matches) -> bool {
        if candidate.hypotheses as u64 >= goal.steps {
            return false;
        }
        if candidate.mathbox != 0 && candidate.mathbox != self.theorem.mathbox {
            return false;
        }
        let essentials = self.library.essentials(candidate);
        if lacks_more(essentials, self.may_lack, matches) {
            return false;
        }
        is_within(self.library.grounds.set(candidate.label), self.grounds)
    }

    // Adds the edges for a goal by an assertion.
    fn run_join(
        &self,
        ask: Ask,
        template: &Template,
        matches: &mut Matches,
        graph: &mut Graph,
        finds: &mut Finds,
        budget: &mut Budget,
    ) -> Result<(), AllocError>
        ensures { budget.new ≤ budget.old }
    {
        let may_lack = self.may_lack
            && (template.hypotheses as u64) < ask.goal.exclusive
            && finds.opened.may_open(ask.number);
        finds.join.reset(template, may_lack)?;
        finds.join.begin(template, matches.bindings(ask.row))?;
        finds.join.run(template, matches, budget)?;
        self.take_all(ask, template, graph, finds, budget)
    }

    // Takes what the join met and is allowed.
    fn take_all(
        &self,
        ask: Ask,
        template: &Template,
        graph: &mut Graph,
        finds: &mut Finds,
        budget: &mut Budget,
    ) -> Result<(), AllocError>
        ensures { budget.new ≤ budget.old }
    {
        for index in 0..finds.join.met.len() {
            let Some(met) = finds.join.met.get(index) else {
                break;
            };
            if self.is_allowed(ask, template, met, graph, finds, budget)? {
                self.take(ask, template, met, graph, finds)?;
            }
        }
        Ok(())
    }

    // Whether what is met isn't the goal itself, and the distinct pairs of the assertion are met.
    fn is_allowed(
        &self,
        ask: Ask,
        template: &Template,
        met: Met,
        graph: &Graph,
        finds: &mut Finds,
        budget: &mut Budget,
    ) -> Result<bool, AllocError>
        ensures { budget.new ≤ budget.old }
    {
        let nodes = finds.join.met.nodes(met);
        if nodes.iter().any(|node| *node == Some(ask.goal.node)) {
            return Ok(false);
        }
        for pair in template.pairs {
            let (Some(one), Some(other)) = (node_at(nodes, pair.0), node_at(nodes, pair.1)) else {
                return Ok(false);
            };
            let theorem = self.theorem;
            if !finds
                .variables
                .are_disjoint(theorem.book, theorem.frame, graph, (one, other), budget)?
            {
                return Ok(false);
            }
        }
        Ok(true)
    }

    // Adds the edge for what is met, or keeps it until the missing `$e` is proved.
    fn take(
        &self,
        ask: Ask,
        template: &Template,
        met: Met,
        graph: &mut Graph,
        finds: &mut Finds,
    ) -> Result<(), AllocError> {
        let nodes = finds.join.met.nodes(met);
        if let Some(essential) = met.missing {
            let gain = ask
                .goal
                .exclusive
                .saturating_sub(template.hypotheses as u64);
            let open = Open {
                goal: ask.goal.node,
                gain,
                number: ask.number,
                essential,
            };
            return finds.opened.add(open, nodes);
        }
        let edge = Edge {
            label: template.label.0,
            children: children_of(self.library.alloc, nodes, 0)?,
            origin: Origin::Library,
        };
        graph.add(ask.goal.node, edge)?;
        Ok(())
    }
}

// Whether of more of these `$e` than may no row was listed: of one, or of none.
fn lacks_more(essentials: &[Essential], may_lack: bool, matches: &Matches) -> bool {
    let mut may_lack = may_lack;
    for essential in essentials {
        if !matches.has(essential.pattern) {
            if !may_lack {
                return true;
            }
            may_lack = false;
        }
    }
    false
}
