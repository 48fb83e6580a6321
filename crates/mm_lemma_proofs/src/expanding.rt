//! A proof without a lemma: the lemma's two steps in place of each step by it.

use mm_base::Seed;
use mm_patterns::{Pattern, Proof};
use mm_terms::{Budget, Replacing, Terms, Variable, next_number};
use std::alloc::{AllocError, Global};

/// What stands in place of a step by a lemma.
#[derive(Clone, Copy)]
pub struct Expansion<'p> {
    /// By what steps by the lemma are.
    pub name: u32,
    pub upper: u32,
    pub lower: u32,
    pub pattern: &'p Pattern,
}

// A proof on its way.
#[derive(Drop)]
struct Expander<'p> {
    alloc: Global,
    seed: Seed,
    expansion: Expansion<'p>,
    proof: Proof,
    /// The new node of each old one.
    nodes: Vec<u32>,
}

// What the variables of the two steps stand for.
#[derive(Drop)]
struct Arguments {
    upper: Vec<u32>,
    lower: Vec<u32>,
}

// Puts the arguments of a step in place of a lemma's variables.
fn replace_each(
    replacing: &mut Replacing,
    terms: &mut Terms,
    pattern: &Pattern,
    arguments: &[u32],
) -> Result<(), AllocError> {
    for (index, argument) in arguments.iter().enumerate() {
        if let Some(code) = pattern.variables.get(index).copied() {
            let number = next_number(index);
            let variable = terms.variable(Variable { number, code })?;
            replacing.replace(variable, *argument)?;
        }
    }
    Ok(())
}

// These nodes of a step.
fn children_at(alloc: Global, children: &[u32], places: &[u32]) -> Result<Vec<u32>, AllocError> {
    let mut chosen = Vec::with_capacity(alloc, places.len())?;
    for place in places {
        chosen.push(children.get(*place as usize).copied().unwrap_or(0))?;
    }
    Ok(chosen)
}

// The same, where none stands for the lower step.
fn children_over(
    alloc: Global,
    children: &[u32],
    places: &[Option<u32>],
    lower: u32,
) -> Result<Vec<u32>, AllocError> {
    let mut chosen = Vec::with_capacity(alloc, places.len())?;
    for place in places {
        chosen.push(match place {
            Some(place) => children.get(*place as usize).copied().unwrap_or(0),
            None => lower,
        })?;
    }
    Ok(chosen)
}

impl<'p> Expander<'p> {
    // What the variables of the two steps stand for in place of a step with these arguments.
    fn arguments(
        &self,
        terms: &mut Terms,
        arguments: &[u32],
        budget: &mut Budget,
    ) -> Result<Option<Arguments>, AllocError> {
        let pattern = self.expansion.pattern;
        let mut replacing = Replacing::new(self.alloc, self.seed, &[]);
        replace_each(&mut replacing, terms, pattern, arguments)?;
        let Some(upper) = replacing.of_each(terms, &pattern.upper_arguments, budget)? else {
            return Ok(None);
        };
        let Some(lower) = replacing.of_each(terms, &pattern.lower_arguments, budget)? else {
            return Ok(None);
        };
        Ok(Some(Arguments { upper, lower }))
    }

    // Adds the two steps in place of a step over these, and answers the node of the last one.
    fn expand(&mut self, arguments: &Arguments, children: &[u32]) -> Result<u32, AllocError> {
        let Expansion {
            upper,
            lower,
            pattern,
            ..
        } = self.expansion;
        let below = children_at(self.alloc, children, &pattern.lower_children)?;
        let node = self.proof.push(lower, &arguments.lower, &below)?;
        let above = children_over(self.alloc, children, &pattern.upper_children, node)?;
        self.proof.push(upper, &arguments.upper, &above)
    }

    // Adds what stands in place of a node, and answers whether the budget was enough.
    fn pass(
        &mut self,
        terms: &mut Terms,
        old: &Proof,
        node: u32,
        budget: &mut Budget,
    ) -> Result<bool, AllocError> {
        let Some(step) = old.node(node) else {
            return Ok(false);
        };
        let children = children_at(self.alloc, &self.nodes, old.children(node))?;
        let arguments = old.arguments(node);
        let new = if step.name == self.expansion.name {
            let Some(arguments) = self.arguments(terms, arguments, budget)? else {
                return Ok(false);
            };
            self.expand(&arguments, &children)?
        } else {
            self.proof.push(step.name, arguments, &children)?
        };
        self.nodes.push(new)?;
        Ok(true)
    }

    // Adds what stands in place of each node that is used.
    fn pass_each(
        &mut self,
        terms: &mut Terms,
        old: &Proof,
        uses: &[u32],
        budget: &mut Budget,
    ) -> Result<bool, AllocError> {
        for (index, times) in uses.iter().enumerate() {
            if *times == 0 {
                self.nodes.push(0)?;
            } else if !self.pass(terms, old, next_number(index), budget)? {
                return Ok(false);
            }
        }
        Ok(true)
    }
}

/// A proof without steps by a lemma; none where the budget isn't enough. The lemma has no variables
/// in its proof alone.
pub fn expanded(
    alloc: Global,
    seed: Seed,
    terms: &mut Terms,
    proof: &Proof,
    expansion: Expansion,
    budget: &mut Budget,
) -> Result<Option<Proof>, AllocError> {
    if !budget.take(proof.used.len().saturating_add(proof.nodes.len())) {
        return Ok(None);
    }
    let uses = proof.uses(alloc)?;
    let mut expander = Expander {
        alloc,
        seed,
        expansion,
        proof: Proof::new(alloc),
        nodes: Vec::new(alloc),
    };
    if !expander.pass_each(terms, proof, &uses, budget)? {
        return Ok(None);
    }
    let mut new = expander.proof;
    new.root = expander
        .nodes
        .get(proof.root as usize)
        .copied()
        .unwrap_or(0);
    Ok(Some(new))
}
