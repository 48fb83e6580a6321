//! The graph of a proof, by its moves.

use crate::assertions::Library;
use crate::proof::Proof;
use mm_base::Seed;
use mm_code::Code;
use mm_frame::{Book, LabelId, LabelKind, Signature, Sym};
use mm_proof::Steps;
use mm_step::{Call, call_of};
use mm_terms::{Rows, Terms, code_of};
use std::alloc::{AllocError, Global};

// What a label of a proof stands for.
#[derive(Clone, Copy)]
enum Entry {
    /// A `$f`, as a term.
    Floating(u32),
    /// A `$e` that is provable.
    Essential(LabelId),
    /// An assertion that builds syntax with this type code, over so many hypotheses.
    Syntax(LabelId, Sym, usize),
    /// An assertion that is provable, over so many hypotheses.
    Provable(LabelId, usize),
    /// What no lemma has.
    Other,
}

// What a step gives.
#[derive(Clone, Copy)]
enum Item {
    Term(u32),
    Node(u32),
}

// The run of a proof.
#[derive(Drop)]
struct Decoder<'l> {
    alloc: Global,
    terms: &'l mut Terms,
    proof: Proof,
    /// The nodes so far, each once.
    rows: Rows,
    stack: Vec<Item>,
    tagged: Vec<Item>,
    arguments: Vec<u32>,
    children: Vec<u32>,
}

// What a label stands for.
fn entry_of(
    terms: &mut Terms,
    book: &Book,
    provable: Sym,
    id: LabelId,
) -> Result<Entry, AllocError> {
    match call_of(book, id) {
        Call::Hypothesis(expression) => {
            let Some(code) = expression.first().copied() else {
                return Ok(Entry::Other);
            };
            if book.kind(id) == LabelKind::Floating {
                return Ok(Entry::Floating(terms.syntax(id, code, &[])?));
            }
            Ok(if code == provable {
                Entry::Essential(id)
            } else {
                Entry::Other
            })
        }
        Call::Assertion(signature) => Ok(entry_by(id, &signature, provable)),
    }
}

// What the label of an assertion stands for.
fn entry_by(id: LabelId, signature: &Signature, provable: Sym) -> Entry {
    let count = signature.hypotheses.len();
    match code_of(signature.conclusion) {
        Some(code) if code == provable => Entry::Provable(id, count),
        Some(code) => Entry::Syntax(id, code, count),
        None => Entry::Other,
    }
}

// What each of these labels stands for.
fn entries_of(
    alloc: Global,
    terms: &mut Terms,
    book: &Book,
    provable: Sym,
    labels: &[LabelId],
) -> Result<Vec<Entry>, AllocError> {
    let mut entries = Vec::with_capacity(alloc, labels.len())?;
    for id in labels {
        entries.push(entry_of(terms, book, provable, *id)?)?;
    }
    Ok(entries)
}

impl<'l> Decoder<'l> {
    // Nothing was run.
    fn new(alloc: Global, seed: Seed, terms: &'l mut Terms) -> Decoder<'l> {
        Decoder {
            alloc,
            terms,
            proof: Proof::new(alloc),
            rows: Rows::new(alloc, seed),
            stack: Vec::new(alloc),
            tagged: Vec::new(alloc),
            arguments: Vec::new(alloc),
            children: Vec::new(alloc),
        }
    }

    // Takes so many items from the stack, terms and nodes apart; answers whether they were there.
    fn take(&mut self, count: usize) -> Result<bool, AllocError> {
        self.arguments.clear();
        self.children.clear();
        if count > self.stack.len() {
            return Ok(false);
        }
        let base = self.stack.len() - count;
        for item in self.stack.get(base..).unwrap_or(&[]) {
            match item {
                Item::Term(term) => self.arguments.push(*term)?,
                Item::Node(node) => self.children.push(*node)?,
            }
        }
        self.stack.truncate(base);
        Ok(true)
    }

    // The node of a step by a label over what was taken.
    fn node(&mut self, id: LabelId) -> Result<u32, AllocError> {
        let mut row = Vec::with_capacity(self.alloc, 2)?;
        row.push(id.0)?;
        row.extend_from_slice(&self.arguments)?;
        row.extend_from_slice(&self.children)?;
        let node = self.rows.row(&row)?;
        if node as usize == self.proof.nodes.len() {
            self.proof.push(id.0, &self.arguments, &self.children)?;
        }
        Ok(node)
    }

    // The step by a label; answers whether it can be in the proof of a lemma.
    fn step(&mut self, entry: Entry) -> Result<bool, AllocError> {
        match entry {
            Entry::Floating(term) => self.stack.push(Item::Term(term))?,
            Entry::Essential(id) => {
                self.take(0)?;
                let node = self.node(id)?;
                self.stack.push(Item::Node(node))?;
            }
            Entry::Syntax(id, code, count) => {
                if !self.take(count)? || !self.children.is_empty() {
                    return Ok(false);
                }
                let term = self.terms.syntax(id, code, &self.arguments)?;
                self.stack.push(Item::Term(term))?;
            }
            Entry::Provable(id, count) => {
                if !self.take(count)? {
                    return Ok(false);
                }
                let node = self.node(id)?;
                self.stack.push(Item::Node(node))?;
            }
            Entry::Other => return Ok(false),
        }
        Ok(true)
    }

    // The step by a code with an index, where the first ones stand for entries.
    fn step_by(&mut self, entries: &[Entry], index: usize) -> Result<bool, AllocError> {
        if let Some(entry) = entries.get(index).copied() {
            return self.step(entry);
        }
        let tag = index.saturating_sub(entries.len());
        let Some(item) = self.tagged.get(tag).copied() else {
            return Ok(false);
        };
        self.stack.push(item)?;
        Ok(true)
    }

    // The step by a code.
    fn step_by_code(&mut self, entries: &[Entry], code: Code) -> Result<bool, AllocError> {
        match code {
            Code::Number(number) => self.step_by(entries, number.saturating_sub(1) as usize),
            Code::Tag => {
                let Some(item) = self.stack.last().copied() else {
                    return Ok(false);
                };
                self.tagged.push(item)?;
                Ok(true)
            }
        }
    }

    // Runs all codes, and answers whether they end with one node.
    fn run(&mut self, entries: &[Entry], codes: &[Code]) -> Result<bool, AllocError> {
        for code in codes {
            if !self.step_by_code(entries, *code)? {
                return Ok(false);
            }
        }
        match self.stack.as_slice() {
            [Item::Node(root)] => {
                self.proof.root = *root;
                Ok(true)
            }
            _ => Ok(false),
        }
    }
}

impl Library {
    /// The graph of a proof; none where it doesn't end with something provable, or uses what no
    /// lemma has.
    pub fn decode(&mut self, book: &Book, steps: &Steps) -> Result<Option<Proof>, AllocError> {
        let alloc = self.alloc;
        let provable = self.provable;
        let entries = entries_of(alloc, &mut self.terms, book, provable, &steps.entries)?;
        let mut decoder = Decoder::new(alloc, self.seed, &mut self.terms);
        if !decoder.run(&entries, &steps.codes)? {
            return Ok(None);
        }
        Ok(Some(decoder.proof))
    }
}
