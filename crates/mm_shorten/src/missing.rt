//! Steps that one hypothesis is missing for, which has to be proved in one step more.

ghost use Rattle.std.specs.Prelude.{◌≤◌};

use crate::assertions::{Library, Template};
use crate::budget::Budget;
use crate::goals::Goal;
use crate::graph::{Edge, Graph, Origin};
use crate::join::children_of;
use crate::range::{Range, part};
use crate::room::has_room;
use crate::trie::next_number;
use indexmap::IndexMap;
use mm_base::Seed;
use mm_frame::{LabelId, Piece, Sym};
use std::alloc::{AllocError, Global};

/// Of one assertion no more steps are opened in a proof.
pub const OPEN_EACH: u32 = 30;

/// No more steps are opened in a proof.
pub const MOST_OPEN: usize = 400_000;

/// No more missing hypotheses are sought in a proof.
pub const MOST_WANTED: usize = 2_000;

/// No missing hypothesis is sought with which a graph would have more symbols.
pub const MOST_WANTED_SYMBOLS: usize = 1 << 24;

/// A step that a hypothesis is missing for.
#[derive(Clone, Copy)]
pub(crate) struct Open {
    /// The node that it would derive.
    pub(crate) goal: u32,
    /// How many steps it could save.
    pub(crate) gain: u64,
    /// The number of the assertion's template.
    pub(crate) number: u32,
    /// The index of the missing `$e` among the `$e`.
    pub(crate) essential: usize,
}

// A step that was opened, and where the nodes that meet its hypotheses stand.
#[derive(Clone, Copy)]
struct Kept {
    open: Open,
    nodes: Range,
}

/// The steps of a proof that a hypothesis is missing for.
#[derive(Drop)]
pub(crate) struct Opened {
    steps: Vec<Kept>,
    /// For each mandatory hypothesis of each step, but the missing one, the node that meets it.
    nodes: Vec<Option<u32>>,
    /// For each template how many there are of it.
    counts: IndexMap<u32, u32, Seed>,
}

// Steps by assertions that are rare in a proof come first, and of these the ones that could save
// most.
#[derive(Clone, Copy, PartialEq, Eq, PartialOrd, Ord)]
struct Rank {
    count: u32,
    loss: u64,
    index: usize,
}

// A step whose missing hypothesis has a node.
#[derive(Clone, Copy)]
struct Wanting {
    step: Kept,
    label: LabelId,
    missing: u32,
}

/// The steps that wait for missing hypotheses to be proved, and these.
#[derive(Drop)]
pub(crate) struct Wanted {
    waiting: Vec<Wanting>,
    /// What is sought: each missing hypothesis, with how many steps it could save.
    pub(crate) goals: Vec<Goal>,
    /// By node, the index among the goals.
    by_node: IndexMap<u32, usize, Seed>,
    /// The last missing hypothesis that was made.
    instance: Vec<Sym>,
}

impl Opened {
    /// No steps, whose hashes begin from the seed. It takes no memory.
    pub(crate) fn new(alloc: Global, seed: Seed) -> Opened {
        Opened {
            steps: Vec::new(alloc),
            nodes: Vec::new(alloc),
            counts: IndexMap::with_hasher(alloc, seed),
        }
    }

    /// Whether there may be one more by a template.
    pub(crate) fn may_open(&self, number: u32) -> bool {
        self.count(number) < OPEN_EACH && self.steps.len() < MOST_OPEN && has_room(self.nodes.len())
    }

    /// Adds a step. For each mandatory hypothesis but the missing one the node that meets it is
    /// handed in.
    pub(crate) fn add(&mut self, open: Open, nodes: &[Option<u32>]) -> Result<(), AllocError> {
        let count = self.count(open.number).saturating_add(1);
        self.counts.insert(open.number, count)?;
        let start = next_number(self.nodes.len());
        self.nodes.extend_from_slice(nodes)?;
        let end = next_number(self.nodes.len());
        self.steps.push(Kept {
            open,
            nodes: Range { start, end },
        })?;
        Ok(())
    }

    // The nodes that meet the hypotheses of a step.
    fn nodes_of(&self, step: Kept) -> &[Option<u32>] {
        part(&self.nodes, step.nodes)
    }

    // How many there are by a template.
    fn count(&self, number: u32) -> u32 {
        self.counts.get(&number).copied().unwrap_or(0)
    }

    // The steps in the order in which their hypotheses are sought.
    fn ranked(&self, alloc: Global) -> Result<Vec<Rank>, AllocError> {
        let mut ranks = Vec::with_capacity(alloc, self.steps.len())?;
        for (index, step) in self.steps.iter().enumerate() {
            ranks.push(Rank {
                count: self.count(step.open.number),
                loss: u64::MAX - step.open.gain,
                index,
            })?;
        }
        ranks.sort_unstable();
        Ok(ranks)
    }

    /// The hypotheses that are missing, each as a node of the graph.
    pub(crate) fn wanted(
        &self,
        library: &Library,
        graph: &mut Graph,
        budget: &mut Budget,
    ) -> Result<Wanted, AllocError>
        ensures { budget.new ≤ budget.old }
    {
        let mut wanted = Wanted {
            waiting: Vec::new(library.alloc),
            goals: Vec::new(library.alloc),
            by_node: IndexMap::with_hasher(library.alloc, library.seed),
            instance: Vec::new(library.alloc),
        };
        match self.want_all(library, graph, &mut wanted, budget) {
            Ok(()) => Ok(wanted),
            Err(error) => {
                drop(wanted);
                Err(error)
            }
        }
    }

    // Wants the hypotheses that are missing, as many as may be sought.
    fn want_all(
        &self,
        library: &Library,
        graph: &mut Graph,
        wanted: &mut Wanted,
        budget: &mut Budget,
    ) -> Result<(), AllocError>
        ensures { budget.new ≤ budget.old }
    {
        for rank in &self.ranked(library.alloc)? {
            if wanted.goals.len() >= MOST_WANTED || !budget.take(1) {
                break;
            }
            if let Some(step) = self.steps.get(rank.index).copied() {
                if let Some(template) = library.template(step.open.number) {
                    wanted.add(self, step, &template, graph, budget)?;
                }
            }
        }
        Ok(())
    }
}

impl Wanted {
    /// Adds the edges of the steps whose missing hypotheses were proved.
    pub(crate) fn add_proved(
        &self,
        alloc: Global,
        opened: &Opened,
        graph: &mut Graph,
    ) -> Result<(), AllocError> {
        for wanting in &self.waiting {
            if graph.is_known(wanting.missing) {
                let nodes = opened.nodes_of(wanting.step);
                let edge = Edge {
                    label: wanting.label.0,
                    children: children_of(alloc, nodes, wanting.missing)?,
                    origin: Origin::Missing,
                };
                graph.add(wanting.step.open.goal, edge)?;
            }
        }
        Ok(())
    }

    // Adds a step by a template.
    fn add(
        &mut self,
        opened: &Opened,
        step: Kept,
        template: &Template,
        graph: &mut Graph,
        budget: &mut Budget,
    ) -> Result<(), AllocError>
        ensures { budget.new ≤ budget.old }
    {
        let Some(essential) = template.essentials.get(step.open.essential).copied() else {
            return Ok(());
        };
        let pieces = template.pieces_of(essential);
        let nodes = opened.nodes_of(step);
        let length = instance_length(graph, pieces, nodes);
        if graph.expressions.symbols().saturating_add(length) > MOST_WANTED_SYMBOLS {
            return Ok(());
        }
        self.put_instance(graph, pieces, nodes, budget)?;
        let before = graph.expressions.len();
        let missing = graph.node(&self.instance)?;
        if missing == step.open.goal {
            return Ok(());
        }
        self.want(missing, before, step.open.gain)?;
        self.waiting.push(Wanting {
            step,
            label: template.label,
            missing,
        })?;
        Ok(())
    }

    // Makes the instance what the pieces say where these nodes meet the hypotheses.
    fn put_instance(
        &mut self,
        graph: &Graph,
        pieces: &[Piece],
        nodes: &[Option<u32>],
        budget: &mut Budget,
    ) -> Result<(), AllocError>
        ensures { budget.new ≤ budget.old }
    {
        self.instance.clear();
        for piece in pieces {
            match *piece {
                Piece::Symbol(symbol) => self.instance.push(symbol)?,
                Piece::Value(place) => {
                    let value = value_at(graph, nodes, place);
                    budget.take(value.len());
                    if let [_, symbols @ ..] = value {
                        self.instance.extend_from_slice(symbols)?;
                    }
                }
            }
        }
        Ok(())
    }

    // Wants a node, unless it was there among so many nodes before anything was wanted.
    fn want(&mut self, node: u32, before: usize, gain: u64) -> Result<(), AllocError> {
        if let Some(index) = self.by_node.get(&node).copied() {
            if let Some(goal) = self.goals.get_mut(index) {
                goal.steps = goal.steps.max(gain);
            }
        } else if node as usize >= before {
            self.by_node.insert(node, self.goals.len())?;
            self.goals.push(Goal {
                node,
                steps: gain,
                exclusive: 0,
            })?;
        }
        Ok(())
    }
}

// The expression of the node that meets the hypothesis at a place.
fn value_at<'g>(graph: &'g Graph, nodes: &[Option<u32>], place: u32) -> &'g [Sym] {
    let node = nodes.get(place as usize).copied().flatten();
    graph.expressions.get(node.unwrap_or(u32::MAX))
}

// How many symbols the pieces say where these nodes meet the hypotheses.
fn instance_length(graph: &Graph, pieces: &[Piece], nodes: &[Option<u32>]) -> usize {
    let mut length = 0usize;
    for piece in pieces {
        let symbols = match *piece {
            Piece::Symbol(_) => 1,
            Piece::Value(place) => value_at(graph, nodes, place).len().saturating_sub(1),
        };
        length = length.saturating_add(symbols);
    }
    length
}
