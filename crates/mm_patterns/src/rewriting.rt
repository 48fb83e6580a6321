//! A proof with steps by a lemma in place of digrams.

use crate::digram::Digram;
use crate::digrams::Place;
use crate::pattern::{Hole, Pattern};
use crate::proof::{Proof, uses_at};
use std::alloc::{AllocError, Global};

/// What is put in place of what.
#[derive(Clone, Copy)]
pub struct Change<'p> {
    pub digram: Digram,
    /// What the step by the lemma is by.
    pub name: u32,
    pub pattern: &'p Pattern,
}

/// A proof that was rewritten, and how often it uses the lemma.
#[derive(Drop)]
pub struct NewProof {
    pub proof: Proof,
    pub uses: u32,
}

// A proof on its way.
#[derive(Drop)]
struct Rewriter<'p> {
    alloc: Global,
    change: Change<'p>,
    proof: Proof,
    /// How many times each node is used.
    uses: Vec<u32>,
}

/// The proof with the change at these places, as far as the digram stands there.
pub fn rewritten(
    alloc: Global,
    proof: &Proof,
    change: Change,
    places: &[Place],
) -> Result<NewProof, AllocError> {
    let mut rewriter = Rewriter {
        alloc,
        change,
        proof: proof.copy(alloc)?,
        uses: proof.uses(alloc)?,
    };
    let mut uses = 0u32;
    for place in places.iter().rev() {
        if rewriter.rewrite(place.node)? {
            uses = uses.saturating_add(1);
        }
    }
    Ok(NewProof {
        proof: rewriter.proof,
        uses,
    })
}

impl<'p> Rewriter<'p> {
    // Puts the step by the lemma in place of a node, and answers whether the digram stood there.
    fn rewrite(&mut self, node: u32) -> Result<bool, AllocError> {
        let Some(lower) = self.lower(node) else {
            return Ok(false);
        };
        let arguments = self.arguments(node, lower)?;
        let children = self.children(node, lower)?;
        let step = self.proof.step(self.change.name, &arguments, &children)?;
        if let Some(here) = self.proof.nodes.get_mut(node as usize) {
            *here = step;
        }
        if let Some(uses) = self.uses.get_mut(lower as usize) {
            *uses = uses.saturating_sub(1);
        }
        Ok(true)
    }

    // The lower node of the digram at a node, if it stands there.
    fn lower(&self, node: u32) -> Option<u32> {
        let digram = self.change.digram;
        if uses_at(&self.uses, node) == 0 || self.proof.node(node)?.name != digram.upper {
            return None;
        }
        let lower = child_at(&self.proof, node, digram.place)?;
        let below = self.proof.node(lower)?;
        let is_leaf = below.arguments == 0 && below.children == 0;
        if below.name != digram.lower || (uses_at(&self.uses, lower) != 1 && !is_leaf) {
            return None;
        }
        Some(lower)
    }

    // What the variables of the lemma's statement stand for.
    fn arguments(&self, node: u32, lower: u32) -> Result<Vec<u32>, AllocError> {
        let pattern = self.change.pattern;
        let upper = self.proof.arguments(node);
        let below = self.proof.arguments(lower);
        let mut arguments = Vec::with_capacity(self.alloc, pattern.mandatory)?;
        for source in pattern.sources.iter().take(pattern.mandatory) {
            let source = *source as usize;
            let term = match upper.get(source) {
                Some(term) => Some(*term),
                None => below.get(source.saturating_sub(upper.len())).copied(),
            };
            arguments.push(term.unwrap_or(0))?;
        }
        Ok(arguments)
    }

    // What proves the lemma's hypotheses.
    fn children(&self, node: u32, lower: u32) -> Result<Vec<u32>, AllocError> {
        let holes = &self.change.pattern.holes;
        let mut children = Vec::with_capacity(self.alloc, holes.len())?;
        for hole in holes {
            children.push(self.child(*hole, node, lower))?;
        }
        Ok(children)
    }

    // What proves the hypothesis that stands there.
    fn child(&self, hole: Hole, node: u32, lower: u32) -> u32 {
        let step = if hole.is_of_lower { lower } else { node };
        child_at(&self.proof, step, hole.place).unwrap_or(0)
    }
}

// What proves the `$e` with this index of what a node is by.
fn child_at(proof: &Proof, node: u32, place: u32) -> Option<u32> {
    proof.children(node).get(place as usize).copied()
}

/// The lemma's own proof, over nodes for its hypotheses with these names. Its terms are those of
/// its variables.
pub fn own_proof(alloc: Global, change: Change, hypotheses: &[u32]) -> Result<Proof, AllocError> {
    let pattern = change.pattern;
    let mut proof = Proof::new(alloc);
    for name in hypotheses {
        proof.push(*name, &[], &[])?;
    }
    let lower = proof.push(
        change.digram.lower,
        &pattern.lower_arguments,
        &pattern.lower_children,
    )?;
    let children = upper_children(alloc, pattern, lower)?;
    proof.root = proof.push(change.digram.upper, &pattern.upper_arguments, &children)?;
    Ok(proof)
}

// What the upper step of the lemma's proof uses.
fn upper_children(alloc: Global, pattern: &Pattern, lower: u32) -> Result<Vec<u32>, AllocError> {
    let mut children = Vec::with_capacity(alloc, pattern.upper_children.len())?;
    for child in &pattern.upper_children {
        children.push(child.unwrap_or(lower))?;
    }
    Ok(children)
}
