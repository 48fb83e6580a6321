//! A proof as a tree in which each subtree stands once.

use indexmap::IndexMap;
use mm_base::Seed;
use mm_patterns::{Names, Proof};
use mm_terms::{Head, Rows, next_number};
use std::alloc::{AllocError, Global};

/// No proof has so many steps: no file has so many bytes.
pub(crate) const MOST_STEPS: u64 = 1 << 32;

/// In which order steps by lemmas have what their variables stand for.
#[derive(Clone, Copy)]
pub struct Orders<'o> {
    /// By what steps by the first lemma are.
    pub first: u32,
    /// For each lemma the numbers of its variables in this order.
    pub lists: &'o [Vec<u32>],
}

/// Subtrees, each once, behind those below it.
#[derive(Drop)]
pub struct Tree {
    /// For each subtree what its last step is by, and then the subtrees below that.
    rows: Rows,
    /// The whole tree.
    pub(crate) root: u32,
}

// A tree on its way: the subtrees that terms and nodes are.
#[derive(Drop)]
struct Growth<'n> {
    alloc: Global,
    names: Names<'n>,
    orders: Orders<'n>,
    rows: Rows,
    terms: IndexMap<u32, u32, Seed>,
    nodes: Vec<u32>,
}

// By what the step of a term is: variables of a lemma are among its own hypotheses.
fn name_of(names: Names, term: u32) -> u32 {
    match names.terms.head(term) {
        Some(Head::Syntax(label)) => label.0,
        Some(Head::Variable(variable)) => names.of_own(variable.number),
        None => 0,
    }
}

// The terms of these nodes and all below them, each once and behind those below it.
fn terms_below(
    alloc: Global,
    seed: Seed,
    names: Names,
    proof: &Proof,
    uses: &[u32],
) -> Result<Vec<u32>, AllocError> {
    let mut todo = terms_of_nodes(alloc, proof, uses)?;
    let mut passed: IndexMap<u32, (), Seed> = IndexMap::with_hasher(alloc, seed);
    let mut found = Vec::new(alloc);
    for _ in 0..MOST_STEPS {
        let Some(term) = todo.pop() else {
            break;
        };
        if passed.insert(term, ())?.is_none() {
            found.push(term)?;
            todo.extend_from_slice(names.terms.arguments(term))?;
        }
    }
    found.sort_unstable();
    Ok(found)
}

// The terms of the nodes that are used.
fn terms_of_nodes(alloc: Global, proof: &Proof, uses: &[u32]) -> Result<Vec<u32>, AllocError> {
    let mut terms = Vec::new(alloc);
    for (index, times) in uses.iter().enumerate() {
        if *times > 0 {
            terms.extend_from_slice(proof.arguments(next_number(index)))?;
        }
    }
    Ok(terms)
}

impl<'o> Orders<'o> {
    // The order of what has a name, if it is a lemma.
    fn of(&self, name: u32) -> Option<&'o [u32]> {
        let list = self.lists.get(name.checked_sub(self.first)? as usize)?;
        Some(list.as_slice())
    }
}

impl<'n> Growth<'n> {
    // Grows the subtrees of these terms, and of the nodes that are used.
    fn grow(&mut self, proof: &Proof, terms: &[u32], uses: &[u32]) -> Result<(), AllocError> {
        self.grow_terms(terms)?;
        self.grow_nodes(proof, uses)
    }

    // The tree that a node is.
    fn into_tree(self, root: u32) -> Tree {
        let root = self.nodes.get(root as usize).copied().unwrap_or(0);
        Tree {
            rows: self.rows,
            root,
        }
    }

    // Grows the subtrees of these terms, which stand behind those below them.
    fn grow_terms(&mut self, terms: &[u32]) -> Result<(), AllocError> {
        for term in terms {
            let mut row = Vec::new(self.alloc);
            row.push(name_of(self.names, *term))?;
            self.push_terms(&mut row, self.names.terms.arguments(*term))?;
            let subtree = self.rows.row(&row)?;
            self.terms.insert(*term, subtree)?;
        }
        Ok(())
    }

    // Grows the subtrees of the nodes that are used.
    fn grow_nodes(&mut self, proof: &Proof, uses: &[u32]) -> Result<(), AllocError> {
        for (index, times) in uses.iter().enumerate() {
            let subtree = if *times > 0 {
                self.grow_node(proof, next_number(index))?
            } else {
                0
            };
            self.nodes.push(subtree)?;
        }
        Ok(())
    }

    // Grows the subtree of a node.
    fn grow_node(&mut self, proof: &Proof, node: u32) -> Result<u32, AllocError> {
        let mut row = Vec::new(self.alloc);
        let Some(step) = proof.node(node) else {
            return Ok(0);
        };
        row.push(step.name)?;
        let arguments = proof.arguments(node);
        match self.orders.of(step.name) {
            Some(order) => self.push_ordered(&mut row, arguments, order)?,
            None => self.push_terms(&mut row, arguments)?,
        }
        self.push_nodes(&mut row, proof.children(node))?;
        self.rows.row(&row)
    }

    // Appends the subtrees of terms in an order.
    fn push_ordered(
        &self,
        row: &mut Vec<u32>,
        terms: &[u32],
        order: &[u32],
    ) -> Result<(), AllocError> {
        for index in order {
            if let Some(term) = terms.get(*index as usize) {
                self.push_terms(row, &[*term])?;
            }
        }
        Ok(())
    }

    // Appends the subtrees of terms.
    fn push_terms(&self, row: &mut Vec<u32>, terms: &[u32]) -> Result<(), AllocError> {
        for term in terms {
            row.push(self.terms.get(term).copied().unwrap_or(0))?;
        }
        Ok(())
    }

    // Appends the subtrees of nodes.
    fn push_nodes(&self, row: &mut Vec<u32>, nodes: &[u32]) -> Result<(), AllocError> {
        for node in nodes {
            row.push(self.nodes.get(*node as usize).copied().unwrap_or(0))?;
        }
        Ok(())
    }
}

/// The tree of a proof; the hashes begin from the seed.
pub fn tree_of(
    alloc: Global,
    seed: Seed,
    names: Names,
    orders: Orders,
    proof: &Proof,
) -> Result<Tree, AllocError> {
    let uses = proof.uses(alloc)?;
    let terms = terms_below(alloc, seed, names, proof, &uses)?;
    let mut growth = Growth {
        alloc,
        names,
        orders,
        rows: Rows::new(alloc, seed),
        terms: IndexMap::with_hasher(alloc, seed),
        nodes: Vec::new(alloc),
    };
    match growth.grow(proof, &terms, &uses) {
        Ok(()) => Ok(growth.into_tree(proof.root)),
        Err(error) => {
            drop(growth);
            Err(error)
        }
    }
}

impl Tree {
    /// How many subtrees there are.
    pub fn len(&self) -> usize {
        self.rows.len()
    }

    /// What the last step of a subtree is by.
    pub fn name(&self, subtree: u32) -> u32 {
        self.rows.get(subtree).first().copied().unwrap_or(0)
    }

    /// The subtrees below the last step of a subtree.
    pub(crate) fn below(&self, subtree: u32) -> &[u32] {
        self.rows.get(subtree).get(1..).unwrap_or(&[])
    }

    /// Whether a subtree has so many steps, up to three.
    pub(crate) fn has_steps(&self, subtree: u32, steps: usize) -> bool {
        let has = match self.below(subtree) {
            [] => 1,
            [only] if self.below(*only).is_empty() => 2,
            _ => 3,
        };
        has >= steps
    }

    /// How often each subtree stands in the tree, where each stands once.
    pub(crate) fn uses(&self, alloc: Global) -> Result<Vec<u32>, AllocError> {
        let subtrees = self.len();
        let mut uses = vec![in alloc; 0u32; subtrees]?;
        count(&mut uses, self.root);
        for behind in 0..subtrees {
            count_each(&mut uses, self.below(next_number(subtrees - 1 - behind)));
        }
        Ok(uses)
    }
}

// Counts each of some subtrees once more.
fn count_each(uses: &mut [u32], subtrees: &[u32]) {
    for subtree in subtrees {
        count(uses, *subtree);
    }
}

// Counts a subtree once more.
fn count(uses: &mut [u32], subtree: u32) {
    if let Some(uses) = uses.get_mut(subtree as usize) {
        *uses = uses.saturating_add(1);
    }
}
