//! The ways to meet the `$e` of an assertion by conclusions.

ghost use Rattle.std.specs.Prelude.{◌≤◌};

use crate::assertions::{Essential, Template};
use crate::budget::Budget;
use crate::matches::Matches;
use crate::range::{Range, part};
use crate::trie::next_number;
use std::alloc::{AllocError, Global};

/// A join for one assertion and one conclusion takes no more steps.
pub const JOIN_STEPS: u32 = 3_000;

/// Of a join for one assertion and one conclusion no more ways are kept.
pub const JOIN_FOUND: usize = 100;

/// A way to meet the hypotheses of an assertion.
#[derive(Clone, Copy)]
pub(crate) struct Met {
    // Where the nodes stand.
    nodes: Range,
    /// The index of the missing `$e` among the `$e`.
    pub(crate) missing: Option<usize>,
}

/// Ways to meet the hypotheses of an assertion.
#[derive(Drop)]
pub(crate) struct Ways {
    ways: Vec<Met>,
    /// For each mandatory hypothesis, of one way after the other, the node that meets it; none
    /// where it is missing.
    nodes: Vec<Option<u32>>,
}

impl Ways {
    // No ways. It takes no memory.
    fn new(alloc: Global) -> Ways {
        Ways {
            ways: Vec::new(alloc),
            nodes: Vec::new(alloc),
        }
    }

    // Forgets all.
    fn clear(&mut self) {
        self.ways.clear();
        self.nodes.clear();
    }

    // Adds one.
    fn add(&mut self, nodes: &[Option<u32>], missing: Option<usize>) -> Result<(), AllocError> {
        let start = next_number(self.nodes.len());
        self.nodes.extend_from_slice(nodes)?;
        let end = next_number(self.nodes.len());
        self.ways.push(Met {
            nodes: Range { start, end },
            missing,
        })?;
        Ok(())
    }

    /// How many there are.
    pub(crate) fn len(&self) -> usize {
        self.ways.len()
    }

    /// The one with an index.
    pub(crate) fn get(&self, index: usize) -> Option<Met> {
        self.ways.get(index).copied()
    }

    /// For each mandatory hypothesis the node that meets it; none where it is missing.
    pub(crate) fn nodes(&self, met: Met) -> &[Option<u32>] {
        part(&self.nodes, met.nodes)
    }
}

/// The node at a place among these.
pub(crate) fn node_at(nodes: &[Option<u32>], place: u32) -> Option<u32> {
    nodes.get(place as usize).copied().flatten()
}

/// These nodes, with this one for what is missing.
pub(crate) fn children_of(
    alloc: Global,
    nodes: &[Option<u32>],
    missing: u32,
) -> Result<Vec<u32>, AllocError> {
    let mut children = Vec::with_capacity(alloc, nodes.len())?;
    for node in nodes {
        children.push(node.unwrap_or(missing))?;
    }
    Ok(children)
}

// A `$e` that rows are tried for.
#[derive(Clone, Copy)]
struct Level {
    /// Its index among the `$e`.
    essential: usize,
    /// The `$e` that are left behind it, as bits.
    left: u32,
    missing: Option<usize>,
    /// The number of the entry of its list of rows that is tried next.
    next: u32,
    /// How many hypotheses were bound before.
    bound: usize,
}

// Which `$e` is next, with the first entry of its list of rows, and what is left behind it.
#[derive(Clone, Copy)]
struct Choice {
    next: Option<(usize, u32)>,
    left: u32,
    missing: Option<usize>,
}

/// A join: the ways to meet the `$e` of an assertion by rows, one `$e` after the other. Its lists
/// are used again for the next assertion.
#[derive(Drop)]
pub(crate) struct Join {
    /// For each mandatory hypothesis the node that it is bound to.
    nodes: Vec<Option<u32>>,
    /// The places that were bound, in order.
    trail: Vec<u32>,
    levels: Vec<Level>,
    steps: u32,
    may_lack: bool,
    /// What was found.
    pub(crate) met: Ways,
}

impl Join {
    /// A join for no assertion yet. It takes no memory.
    pub(crate) fn new(alloc: Global) -> Join {
        Join {
            nodes: Vec::new(alloc),
            trail: Vec::new(alloc),
            levels: Vec::new(alloc),
            steps: 0,
            may_lack: false,
            met: Ways::new(alloc),
        }
    }

    /// Makes it the join for an assertion, where one `$e` may be missing or none: nothing is bound
    /// or found.
    pub(crate) fn reset(&mut self, template: &Template, may_lack: bool) -> Result<(), AllocError> {
        self.nodes.clear();
        self.nodes.resize(template.hypotheses as usize, None)?;
        self.trail.clear();
        self.levels.clear();
        self.steps = 0;
        self.may_lack = may_lack;
        self.met.clear();
        Ok(())
    }

    /// Binds the variables of the conclusion.
    pub(crate) fn begin(
        &mut self,
        template: &Template,
        bindings: &[u32],
    ) -> Result<(), AllocError> {
        self.bind_all(template.places, bindings)?;
        Ok(())
    }

    /// Finds the ways to meet the `$e` by rows that were listed.
    pub(crate) fn run(
        &mut self,
        template: &Template,
        matches: &mut Matches,
        budget: &mut Budget,
    ) -> Result<(), AllocError>
        ensures { budget.new ≤ budget.old }
    {
        let all = all_bits(template.essentials.len());
        self.open(template, all, None, matches, budget)?;
        for _ in 0..budget.left() {
            if self.is_over() || !budget.take(1) {
                break;
            }
            let Some(level) = self.levels.pop() else {
                break;
            };
            self.unbind(level.bound);
            self.try_next(template, level, matches, budget)?;
        }
        Ok(())
    }

    // Whether enough was tried or found.
    fn is_over(&self) -> bool {
        self.steps > JOIN_STEPS || self.met.len() >= JOIN_FOUND
    }

    // Tries the next row of a level, if there is one.
    fn try_next(
        &mut self,
        template: &Template,
        level: Level,
        matches: &mut Matches,
        budget: &mut Budget,
    ) -> Result<(), AllocError>
        ensures { budget.new ≤ budget.old }
    {
        let Some(entry) = matches.entry(level.next) else {
            return Ok(());
        };
        self.levels.push(Level {
            next: entry.next,
            ..level
        })?;
        let Some(row) = matches.row(entry.row as usize) else {
            return Ok(());
        };
        let Some(essential) = template.essentials.get(level.essential).copied() else {
            return Ok(());
        };
        if self.bind_all(template.places_of(essential), matches.bindings(row))?
            && self.bind(essential.place, row.conclusion)?
        {
            self.open(template, level.left, level.missing, matches, budget)?;
        }
        Ok(())
    }

    // Goes on with the `$e` that are left: with the one that has the fewest rows.
    fn open(
        &mut self,
        template: &Template,
        left: u32,
        missing: Option<usize>,
        matches: &mut Matches,
        budget: &mut Budget,
    ) -> Result<(), AllocError>
        ensures { budget.new ≤ budget.old }
    {
        self.steps = self.steps.saturating_add(1);
        let mut choice = Choice {
            next: None,
            left,
            missing,
        };
        let mut fewest = u32::MAX;
        for (index, essential) in template.essentials.iter().enumerate() {
            if left & bit(index) == 0 {
                continue;
            }
            let places = template.places_of(*essential);
            let number = matches.find(essential.pattern, places, &self.nodes, budget)?;
            let list = matches.list(number);
            if list.count == 0 {
                if !self.may_lack || choice.missing.is_some() {
                    return Ok(());
                }
                choice.missing = Some(index);
                choice.left &= !bit(index);
            } else if list.count < fewest {
                fewest = list.count;
                choice.next = Some((index, list.first));
            }
        }
        self.choose(template, choice)
    }

    // Goes on with a choice, or keeps what is met.
    fn choose(&mut self, template: &Template, choice: Choice) -> Result<(), AllocError> {
        match choice.next {
            Some((essential, next)) => self.levels.push(Level {
                essential,
                left: choice.left & !bit(essential),
                missing: choice.missing,
                next,
                bound: self.trail.len(),
            })?,
            None => self.keep(template, choice.missing)?,
        }
        Ok(())
    }

    // Keeps what is met, unless something besides the missing `$e` isn't bound.
    fn keep(&mut self, template: &Template, missing: Option<usize>) -> Result<(), AllocError> {
        let hole = match missing {
            Some(index) => template.essentials.get(index),
            None => None,
        };
        if self.is_bound_but(hole) {
            self.met.add(&self.nodes, missing)?;
        }
        Ok(())
    }

    // Whether all but a `$e` is bound.
    fn is_bound_but(&self, hole: Option<&Essential>) -> bool {
        let unbound = self.nodes.iter().filter(|node| node.is_none()).count();
        match hole {
            Some(essential) => unbound == 1 && self.at(essential.place).is_none(),
            None => unbound == 0,
        }
    }

    // What is bound at a place.
    fn at(&self, place: u32) -> Option<u32> {
        node_at(&self.nodes, place)
    }

    // Binds places, and answers whether they weren't bound otherwise.
    fn bind_all(&mut self, places: &[u32], bindings: &[u32]) -> Result<bool, AllocError> {
        for (place, value) in places.iter().zip(bindings) {
            if !self.bind(*place, *value)? {
                return Ok(false);
            }
        }
        Ok(true)
    }

    // Binds a place, and answers whether it wasn't bound otherwise.
    fn bind(&mut self, place: u32, value: u32) -> Result<bool, AllocError> {
        if let Some(before) = self.at(place) {
            return Ok(before == value);
        }
        self.trail.push(place)?;
        if let Some(node) = self.nodes.get_mut(place as usize) {
            *node = Some(value);
        }
        Ok(true)
    }

    // Unbinds all but the first so many places.
    fn unbind(&mut self, bound: usize) {
        for at in bound..self.trail.len() {
            let place = self.trail.get(at).copied().unwrap_or(0);
            if let Some(node) = self.nodes.get_mut(place as usize) {
                *node = None;
            }
        }
        self.trail.truncate(bound);
    }
}

// The bit of a `$e` with an index.
fn bit(index: usize) -> u32 {
    if index < 32 { 1 << index as u32 } else { 0 }
}

// The bits of so many `$e`.
fn all_bits(count: usize) -> u32 {
    if count < 32 {
        (1 << count as u32) - 1
    } else {
        u32::MAX
    }
}
