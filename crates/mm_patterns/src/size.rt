//! How many bytes a proof has in small form: its listed labels and its letters, without line ends.

ghost use Rattle.std.specs.Prelude.{◌≤◌};

use crate::assertions::Named;
use crate::proof::{Proof, count, uses_at};
use mm_terms::{Budget, Head, Terms, next_number};
use std::alloc::{AllocError, Global};

// What is written next: a term or a node, or its own step when all below it is written.
#[derive(Clone, Copy)]
enum Visit {
    Term(u32),
    TermStep(u32),
    Node(u32),
    NodeStep(u32),
}

// A listed label, and how many steps are by it. Those with more come first.
#[derive(Clone, Copy, PartialEq, Eq, PartialOrd, Ord)]
struct Listed {
    missing: u32,
    name: u32,
}

/// What proofs can name, and the terms that their steps have.
#[derive(Clone, Copy)]
pub struct Names<'n> {
    pub named: &'n [Named],
    pub terms: &'n Terms,
}

impl<'n> Names<'n> {
    /// The number of what the step of a term is by: variables of a lemma are numbered behind all
    /// that proofs can name.
    fn of_term(&self, term: u32) -> u32 {
        match self.terms.head(term) {
            Some(Head::Syntax(label)) => label.0,
            Some(Head::Variable(variable)) => self.of_own(variable.number),
            None => 0,
        }
    }

    /// The number of a mandatory hypothesis of a lemma, by its index.
    pub fn of_own(&self, index: u32) -> u32 {
        next_number(self.named.len()).saturating_add(index)
    }

    // How many bytes a label has in a list, with the space before it.
    fn bytes(&self, name: u32) -> u64 {
        match self.named.get(name as usize) {
            Some(named) => named.bytes as u64,
            None => OWN_BYTES,
        }
    }
}

// About how many bytes the label of a `$f` has, with the space before it.
const OWN_BYTES: u64 = 4;

/// The sizes of proofs, one after the other in the same memory.
#[derive(Drop)]
pub struct Sizes {
    alloc: Global,
    /// For each term how many steps of the proof have it, or terms that are counted.
    term_uses: Vec<u32>,
    /// For each term the number of its tag, from 1 on.
    term_tags: Vec<u32>,
    /// The terms that were counted.
    touched: Vec<u32>,
    node_uses: Vec<u32>,
    node_tags: Vec<u32>,
    /// For each name how many steps are by it.
    steps: Vec<u32>,
    /// The names that were counted.
    counted: Vec<u32>,
    /// How many steps were tagged.
    tags: u32,
    /// The numbers of tags that are used, each as often as it is.
    again: Vec<u32>,
    visits: Vec<Visit>,
}

// Makes a list so long.
fn lengthen(list: &mut Vec<u32>, len: usize) -> Result<(), AllocError> {
    for _ in list.len()..len {
        list.push(0)?;
    }
    Ok(())
}

// Writes zeros to these places of a list, and forgets them.
fn reset(list: &mut [u32], places: &[u32]) {
    for place in places {
        set(list, *place, 0);
    }
}

// Writes a number to a place of a list.
fn set(list: &mut [u32], place: u32, number: u32) {
    if let Some(here) = list.get_mut(place as usize) {
        *here = number;
    }
}

/// How many letters a number has, from 0 on.
fn width(number: u64) -> u64 {
    let mut rest = number / 20;
    let mut width = 1u64;
    for _ in 0..64 {
        if rest == 0 {
            break;
        }
        rest = (rest - 1) / 5;
        width = width.saturating_add(1);
    }
    width
}

// The index of a number in a list.
fn index_in(list: &[u32], number: u32) -> Option<u32> {
    for (index, other) in list.iter().enumerate() {
        if *other == number {
            return Some(next_number(index));
        }
    }
    None
}

impl Sizes {
    /// Nothing is counted.
    pub fn new(alloc: Global) -> Sizes {
        Sizes {
            alloc,
            term_uses: Vec::new(alloc),
            term_tags: Vec::new(alloc),
            touched: Vec::new(alloc),
            node_uses: Vec::new(alloc),
            node_tags: Vec::new(alloc),
            steps: Vec::new(alloc),
            counted: Vec::new(alloc),
            tags: 0,
            again: Vec::new(alloc),
            visits: Vec::new(alloc),
        }
    }

    /// How many bytes a proof has, whose theorem has these mandatory hypotheses: too few where the
    /// budget is used up.
    pub fn size(
        &mut self,
        names: Names,
        hypotheses: &[u32],
        proof: &Proof,
        budget: &mut Budget,
    ) -> Result<u64, AllocError>
        ensures { budget.new ≤ budget.old }
    {
        self.begin(names, hypotheses, proof)?;
        self.count_nodes(names, proof, budget)?;
        self.write(names, proof, budget)?;
        let bytes = self.sum(names, hypotheses)?;
        self.end();
        Ok(bytes)
    }

    // Makes room for all that may be counted.
    fn begin(&mut self, names: Names, hypotheses: &[u32], proof: &Proof) -> Result<(), AllocError> {
        let terms = names.terms.len();
        lengthen(&mut self.term_uses, terms)?;
        lengthen(&mut self.term_tags, terms)?;
        let own = hypotheses.len().saturating_add(MOST_OWN);
        lengthen(&mut self.steps, names.named.len().saturating_add(own))?;
        let alloc = self.alloc;
        self.node_uses = proof.uses(alloc)?;
        self.node_tags = vec![in alloc; 0u32; proof.nodes.len()]?;
        self.tags = 0;
        self.again.clear();
        self.visits.clear();
        Ok(())
    }

    // Forgets what was counted.
    fn end(&mut self) {
        reset(&mut self.term_uses, &self.touched);
        reset(&mut self.term_tags, &self.touched);
        reset(&mut self.steps, &self.counted);
        self.touched.clear();
        self.counted.clear();
    }

    // Counts the terms of all nodes that are used.
    fn count_nodes(
        &mut self,
        names: Names,
        proof: &Proof,
        budget: &mut Budget,
    ) -> Result<(), AllocError>
        ensures { budget.new ≤ budget.old }
    {
        for index in 0..proof.nodes.len() {
            let node = next_number(index);
            if uses_at(&self.node_uses, node) > 0 {
                self.count_terms(names, proof.arguments(node), budget)?;
            }
        }
        Ok(())
    }

    // Counts some terms, and below each that is new those below it.
    fn count_terms(
        &mut self,
        names: Names,
        terms: &[u32],
        budget: &mut Budget,
    ) -> Result<(), AllocError>
        ensures { budget.new ≤ budget.old }
    {
        self.visits.clear();
        for term in terms {
            self.visits.push(Visit::Term(*term))?;
        }
        for _ in 0..budget.left() {
            let Some(Visit::Term(term)) = self.visits.pop() else {
                break;
            };
            budget.take(1);
            self.count_term(names, term)?;
        }
        Ok(())
    }

    // Counts a term; where it is new, those below it come next.
    fn count_term(&mut self, names: Names, term: u32) -> Result<(), AllocError> {
        count(&mut self.term_uses, term);
        if uses_at(&self.term_uses, term) == 1 {
            self.touched.push(term)?;
            for below in names.terms.arguments(term) {
                self.visits.push(Visit::Term(*below))?;
            }
        }
        Ok(())
    }

    // Writes the proof.
    fn write(&mut self, names: Names, proof: &Proof, budget: &mut Budget) -> Result<(), AllocError>
        ensures { budget.new ≤ budget.old }
    {
        self.visits.clear();
        self.visits.push(Visit::Node(proof.root))?;
        for _ in 0..budget.left() {
            let Some(visit) = self.visits.pop() else {
                break;
            };
            budget.take(1);
            match visit {
                Visit::Term(term) => self.write_term(names, term)?,
                Visit::TermStep(term) => self.write_term_step(names, term)?,
                Visit::Node(node) => self.write_node(proof, node)?,
                Visit::NodeStep(node) => self.write_node_step(proof, node)?,
            }
        }
        Ok(())
    }

    // Writes a term: by its tag, or all below it and then its step.
    fn write_term(&mut self, names: Names, term: u32) -> Result<(), AllocError> {
        let tag = uses_at(&self.term_tags, term);
        if tag > 0 {
            self.again.push(tag - 1)?;
            return Ok(());
        }
        self.visits.push(Visit::TermStep(term))?;
        for below in names.terms.arguments(term).iter().rev() {
            self.visits.push(Visit::Term(*below))?;
        }
        Ok(())
    }

    // Writes the step of a term, and tags it where that takes fewer letters.
    fn write_term_step(&mut self, names: Names, term: u32) -> Result<(), AllocError> {
        self.write_label(names.of_term(term))?;
        let uses = uses_at(&self.term_uses, term);
        let below = names.terms.arguments(term);
        let is_short = match below {
            [only] => names.terms.arguments(*only).is_empty(),
            _ => false,
        };
        if uses > 1 && !below.is_empty() && !(is_short && uses == 2) {
            self.tags = self.tags.saturating_add(1);
            set(&mut self.term_tags, term, self.tags);
        }
        Ok(())
    }

    // Writes a node: by its tag, or all that it uses and then its step.
    fn write_node(&mut self, proof: &Proof, node: u32) -> Result<(), AllocError> {
        let tag = uses_at(&self.node_tags, node);
        if tag > 0 {
            self.again.push(tag - 1)?;
            return Ok(());
        }
        self.visits.push(Visit::NodeStep(node))?;
        for child in proof.children(node).iter().rev() {
            self.visits.push(Visit::Node(*child))?;
        }
        for term in proof.arguments(node).iter().rev() {
            self.visits.push(Visit::Term(*term))?;
        }
        Ok(())
    }

    // Writes the step of a node, and tags it where it is used again.
    fn write_node_step(&mut self, proof: &Proof, node: u32) -> Result<(), AllocError> {
        if let Some(step) = proof.node(node) {
            self.write_label(step.name)?;
            let is_leaf = step.arguments == 0 && step.children == 0;
            if uses_at(&self.node_uses, node) > 1 && !is_leaf {
                self.tags = self.tags.saturating_add(1);
                set(&mut self.node_tags, node, self.tags);
            }
        }
        Ok(())
    }

    // Writes a label.
    fn write_label(&mut self, name: u32) -> Result<(), AllocError> {
        if uses_at(&self.steps, name) == 0 {
            self.counted.push(name)?;
        }
        count(&mut self.steps, name);
        Ok(())
    }

    // The bytes of what was written.
    fn sum(&mut self, names: Names, hypotheses: &[u32]) -> Result<u64, AllocError> {
        let mut listed = Vec::with_capacity(self.alloc, self.counted.len())?;
        let mut bytes = self.tags as u64;
        for name in &self.counted {
            let steps = uses_at(&self.steps, *name);
            match index_in(hypotheses, *name) {
                Some(index) => {
                    let letters = width(index as u64).saturating_mul(steps as u64);
                    bytes = bytes.saturating_add(letters);
                }
                None => listed.push(Listed {
                    missing: u32::MAX - steps,
                    name: *name,
                })?,
            }
        }
        listed.sort_unstable();
        let own = hypotheses.len() as u64;
        let bytes = bytes.saturating_add(list_bytes(names, &listed, own));
        let first = own.saturating_add(listed.len() as u64);
        Ok(bytes.saturating_add(letters_again(&self.again, first)))
    }
}

// More numbers than a lemma has variables and hypotheses.
const MOST_OWN: usize = 256;

// The bytes of listed labels and of the letters for them, which come behind so many.
fn list_bytes(names: Names, listed: &[Listed], own: u64) -> u64 {
    let mut bytes = 0u64;
    let mut number = own;
    for label in listed {
        let steps = (u32::MAX - label.missing) as u64;
        bytes = bytes
            .saturating_add(names.bytes(label.name))
            .saturating_add(width(number).saturating_mul(steps));
        number = number.saturating_add(1);
    }
    bytes
}

// The letters for tags, which are numbered from a number on.
fn letters_again(again: &[u32], first: u64) -> u64 {
    let mut letters = 0u64;
    for tag in again {
        letters = letters.saturating_add(width(first.saturating_add(*tag as u64)));
    }
    letters
}
