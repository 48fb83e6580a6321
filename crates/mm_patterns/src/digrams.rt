//! Where a step proves a `$e` of another one, and nothing else: by the two assertions and the `$e`.

use crate::assertions::Library;
use crate::digram::Digram;
use crate::proof::{Proof, uses_at};
use indexmap::IndexMap;
use mm_base::Seed;
use mm_terms::{Rows, next_number};
use std::alloc::{AllocError, Global};

/// A node of a theorem's proof.
#[derive(Clone, Copy, PartialEq, Eq, PartialOrd, Ord, Debug)]
pub struct Place {
    pub theorem: u32,
    pub node: u32,
}

/// Where a digram stands.
#[derive(Drop)]
pub struct Uses {
    /// The upper nodes.
    pub places: Vec<Place>,
    /// About how many hundredths of a byte of listed labels are saved if all are replaced.
    pub labels: u64,
    /// In how many proofs.
    pub theorems: u32,
    last: Option<u32>,
}

/// Digrams, numbered in the order in which they were noted.
#[derive(Drop)]
pub struct Digrams {
    alloc: Global,
    seed: Seed,
    rows: Rows,
    uses: Vec<Uses>,
}

/// The proof of the theorem with a number.
#[derive(Clone, Copy)]
pub struct Numbered<'p> {
    pub theorem: u32,
    pub proof: &'p Proof,
}

// What was counted in a proof.
#[derive(Drop)]
struct Counted {
    /// How many times each node is used.
    uses: Vec<u32>,
    /// For each name how many steps by it are written.
    steps: IndexMap<u32, u64, Seed>,
}

impl Counted {
    // How many hundredths of a byte of labels a digram saves.
    fn share(&self, library: &Library, digram: Digram) -> u64 {
        let upper = self.share_of(library, digram.upper);
        upper.saturating_add(self.share_of(library, digram.lower))
    }

    // How many hundredths of a byte of its label each step by a name has.
    fn share_of(&self, library: &Library, name: u32) -> u64 {
        let steps = self.steps.get(&name).copied().unwrap_or(1);
        let bytes = (library.named(name).bytes as u64).saturating_mul(HUNDREDTHS);
        bytes.checked_div(steps).unwrap_or(0)
    }
}

// How many hundredths one is.
const HUNDREDTHS: u64 = 100;

impl Digrams {
    /// None; the hashes begin from the seed.
    pub fn new(alloc: Global, seed: Seed) -> Digrams {
        Digrams {
            alloc,
            seed,
            rows: Rows::new(alloc, seed),
            uses: Vec::new(alloc),
        }
    }

    /// How many there are.
    pub fn len(&self) -> usize {
        self.uses.len()
    }

    /// The digram with a number.
    pub fn digram(&self, number: u32) -> Option<Digram> {
        match self.rows.get(number) {
            [upper, place, lower] => Some(Digram {
                upper: *upper,
                place: *place,
                lower: *lower,
            }),
            _ => None,
        }
    }

    /// Where the digram with a number stands.
    pub fn uses(&self, number: u32) -> Option<&Uses> {
        self.uses.get(number as usize)
    }

    /// Notes the digrams of a proof, or only those of one assertion or lemma; answers their
    /// numbers.
    pub fn note(
        &mut self,
        library: &Library,
        numbered: Numbered,
        only: Option<u32>,
    ) -> Result<Vec<u32>, AllocError> {
        let proof = numbered.proof;
        let uses = proof.uses(self.alloc)?;
        let steps = steps_by(self.alloc, self.seed, proof, &uses)?;
        let counted = Counted { uses, steps };
        let mut noted = Vec::new(self.alloc);
        for index in 0..proof.nodes.len() {
            let node = next_number(index);
            if uses_at(&counted.uses, node) > 0 {
                self.note_node(library, numbered, node, only, &counted, &mut noted)?;
            }
        }
        Ok(noted)
    }

    // Notes the digrams with an upper node.
    fn note_node(
        &mut self,
        library: &Library,
        numbered: Numbered,
        node: u32,
        only: Option<u32>,
        counted: &Counted,
        noted: &mut Vec<u32>,
    ) -> Result<(), AllocError> {
        let proof = numbered.proof;
        let Some(upper) = proof.node(node) else {
            return Ok(());
        };
        if library.shape(upper.name).is_none() {
            return Ok(());
        }
        for (index, child) in proof.children(node).iter().enumerate() {
            let Some(lower) = lower_name(library, proof, &counted.uses, *child) else {
                continue;
            };
            if only.is_some() && only != Some(upper.name) && only != Some(lower) {
                continue;
            }
            let digram = Digram {
                upper: upper.name,
                place: next_number(index),
                lower,
            };
            let place = Place {
                theorem: numbered.theorem,
                node,
            };
            let number = self.add(digram, place, counted.share(library, digram))?;
            noted.push(number)?;
        }
        Ok(())
    }

    // Adds a place of a digram, and answers its number.
    fn add(&mut self, digram: Digram, place: Place, share: u64) -> Result<u32, AllocError> {
        let number = self.rows.row(&[digram.upper, digram.place, digram.lower])?;
        for _ in self.uses.len()..self.rows.len() {
            self.uses.push(Uses {
                places: Vec::new(self.alloc),
                labels: 0,
                theorems: 0,
                last: None,
            })?;
        }
        if let Some(uses) = self.uses.get_mut(number as usize) {
            if uses.last != Some(place.theorem) {
                uses.last = Some(place.theorem);
                uses.theorems = uses.theorems.saturating_add(1);
            }
            uses.places.push(place)?;
            uses.labels = uses.labels.saturating_add(share);
        }
        Ok(number)
    }
}

// For each name of a proof how many steps by it are written.
fn steps_by(
    alloc: Global,
    seed: Seed,
    proof: &Proof,
    uses: &[u32],
) -> Result<IndexMap<u32, u64, Seed>, AllocError> {
    let mut steps: IndexMap<u32, u64, Seed> = IndexMap::with_hasher(alloc, seed);
    for (index, node) in proof.nodes.iter().enumerate() {
        let times = uses_at(uses, next_number(index));
        let is_leaf = node.arguments == 0 && node.children == 0;
        let more = if is_leaf { times } else { times.min(1) };
        let before = steps.get(&node.name).copied().unwrap_or(0);
        steps.insert(node.name, before.saturating_add(more as u64))?;
    }
    Ok(steps)
}

// The name of a node that a digram may have as its lower one: lemmas may be made of it, and nothing
// else uses it, or it is written again where it is used.
fn lower_name(library: &Library, proof: &Proof, uses: &[u32], node: u32) -> Option<u32> {
    let lower = proof.node(node)?;
    library.shape(lower.name)?;
    let is_leaf = lower.arguments == 0 && lower.children == 0;
    if uses_at(uses, node) == 1 || is_leaf {
        Some(lower.name)
    } else {
        None
    }
}
