//! Where a file can have lemmas, and which of its proofs can be written anew.

ghost use Rattle.std.specs.Prelude.{◌≡◌, IfErr};
ghost use Rattle.mm_rules.specs.declared.ask.AskFault.TheVariants.{Memory};

use crate::labels::number_behind;
use crate::places::{first_mathbox_heading, mathboxes_between};
use indexmap::IndexMap;
use mm_base::{Kind, Seed, Statement};
use mm_frame::{Book, LabelId};
use mm_lemma_search::{Remark, Remarks};
use mm_rules::{AskFault, bytes_of};
use mm_terms::next_number;
use mm_text::Statements;
use mm_verdict::Checked;
use std::alloc::{AllocError, Global};

/// What is read of a file of a database.
#[derive(Drop)]
pub(crate) struct Sites {
    /// For each statement outside of all blocks, and for each outermost block, where it begins in
    /// the file; none where it begins in another. They are numbered from 1 on.
    pub(crate) blocks: Vec<Option<u32>>,
    /// For each label where the proof stands that may be written anew.
    pub(crate) proofs: Vec<Option<(u32, u32)>>,
    /// For each variable the label of its `$f` outside of all blocks, by their numbers.
    pub(crate) floating: IndexMap<u32, u32, Seed>,
    /// The numbers behind the prefix of lemmas in labels and symbols: in order, each once.
    pub(crate) taken: Vec<u32>,
    /// Where the first heading of a mathbox stands.
    pub(crate) heading: Option<usize>,
}

// The way through the statements.
#[derive(Drop)]
struct Walk<'w> {
    /// The bytes of the file.
    bytes: &'w [u8],
    /// Its number.
    number: usize,
    prefix: &'w [u8],
    /// How many blocks are open.
    depth: usize,
    /// How far the file was passed.
    passed: usize,
    /// How many mathboxes began there.
    mathboxes: usize,
    /// How many began before the block.
    before_block: usize,
    sites: Sites,
}

impl<'w> Walk<'w> {
    // At the beginning.
    fn new(
        alloc: Global,
        seed: Seed,
        bytes: &'w [u8],
        number: usize,
        prefix: &'w [u8],
    ) -> Result<Walk<'w>, AllocError> {
        Ok(Walk {
            bytes,
            number,
            prefix,
            depth: 0,
            passed: 0,
            mathboxes: 0,
            before_block: 0,
            sites: Sites {
                blocks: vec![in alloc; None; 1]?,
                proofs: Vec::new(alloc),
                floating: IndexMap::with_hasher(alloc, seed),
                taken: Vec::new(alloc),
                heading: None,
            },
        })
    }

    // Passes a statement.
    fn pass(&mut self, book: &Book, statement: &Statement) -> Result<(), AllocError> {
        if statement.kind == Kind::Closing {
            self.depth = self.depth.saturating_sub(1);
            return Ok(());
        }
        let at = self.position(statement);
        if let Some(at) = at {
            self.advance(at as usize);
        }
        if self.depth == 0 {
            self.before_block = self.mathboxes;
            self.sites.blocks.push(at)?;
        }
        match statement.kind {
            Kind::Opening => {
                self.depth = self.depth.saturating_add(1);
                Ok(())
            }
            Kind::Constants | Kind::Variables => self.note_symbols(statement),
            _ => self.pass_labelled(book, statement),
        }
    }

    // Passes the bytes up to a position.
    fn advance(&mut self, at: usize) {
        let more = mathboxes_between(self.bytes, self.passed, at);
        self.mathboxes = self.mathboxes.saturating_add(more);
        self.passed = at;
    }

    // Where a statement begins in the file, if it does.
    fn position(&self, statement: &Statement) -> Option<u32> {
        if statement.first.file == self.number {
            Some(statement.first.at)
        } else {
            None
        }
    }

    // Notes the number in a word, if it begins as lemmas do.
    fn note(&mut self, word: &[u8]) -> Result<(), AllocError> {
        if let Some(number) = number_behind(self.prefix, word) {
            self.sites.taken.push(number)?;
        }
        Ok(())
    }

    // Notes the numbers in the symbols of a statement.
    fn note_symbols(&mut self, statement: &Statement) -> Result<(), AllocError> {
        for symbol in &statement.symbols {
            self.note(symbol.text)?;
        }
        Ok(())
    }

    // Passes a statement, if it has a label.
    fn pass_labelled(&mut self, book: &Book, statement: &Statement) -> Result<(), AllocError> {
        let Some(label) = statement.label else {
            return Ok(());
        };
        self.note(label.text)?;
        let id = next_number(self.sites.proofs.len());
        let proof = self.proof(statement);
        self.sites.proofs.push(proof)?;
        if statement.kind == Kind::Floating && self.depth == 0 {
            if let [_, symbol] = book.expression(LabelId(id)) {
                self.sites.floating.insert(symbol.0, id)?;
            }
        }
        Ok(())
    }

    // Where the proof of a statement stands, if lemmas can be put before its block.
    fn proof(&self, statement: &Statement) -> Option<(u32, u32)> {
        self.position(statement)?;
        self.sites.blocks.last().copied().flatten()?;
        if statement.kind == Kind::Provable && self.mathboxes == self.before_block {
            Some(statement.span)
        } else {
            None
        }
    }
}

// Passes the statements that are left.
fn pass_each<'a>(
    walk: &mut Walk<'_>,
    book: &Book,
    statements: &mut Statements<'a>,
    into: &mut Statement<'a>,
) -> Result<(), AskFault>
    ensures { IfErr result (λ fault. fault ≡ Memory) }
{
    while statements.more(into)? {
        walk.pass(book, into)?;
    }
    Ok(())
}

/// What is read of the file with a number, where the labels of lemmas begin with a prefix.
pub(crate) fn sites_of(
    alloc: Global,
    checked: &Checked,
    number: usize,
    prefix: &[u8],
) -> Result<Sites, AskFault>
    ensures { IfErr result (λ fault. fault ≡ Memory) }
{
    let bytes = bytes_of(checked.files, number);
    let mut statements = checked.reader(alloc)?;
    let mut statement = Statement::empty(alloc);
    let mut walk = Walk::new(alloc, checked.book.seed(), bytes, number, prefix)?;
    let outcome = pass_each(&mut walk, &checked.book, &mut statements, &mut statement);
    drop(statements);
    drop(statement);
    let Walk { mut sites, .. } = walk;
    sites.heading = first_mathbox_heading(bytes);
    sites.taken.sort_unstable();
    sites.taken.dedup();
    match outcome {
        Ok(()) => Ok(sites),
        Err(fault) => {
            drop(sites);
            Err(fault)
        }
    }
}

// The number of the first block that begins behind a position.
fn first_behind(blocks: &[Option<u32>], at: usize) -> Option<u32> {
    for (number, block) in blocks.iter().enumerate() {
        if block.is_some_and(|start| start as usize > at) {
            return Some(next_number(number));
        }
    }
    None
}

// Settles each proof that can't be written anew.
fn settle_others(remarks: &mut [Remark], proofs: &[Option<(u32, u32)>]) {
    for (remark, proof) in remarks.iter_mut().zip(proofs) {
        if proof.is_none() {
            remark.is_settled = true;
        }
    }
}

impl Sites {
    /// Lets a search rewrite proofs of the file alone, and put no lemma for several mathboxes but
    /// before those of the file.
    pub(crate) fn bound(&self, remarks: &mut Remarks) {
        settle_others(&mut remarks.remarks, &self.proofs);
        remarks.first_mathbox = match self.heading {
            Some(at) => first_behind(&self.blocks, at),
            None => None,
        };
    }

    /// Where the proof of the theorem with a label stands.
    pub(crate) fn span(&self, id: LabelId) -> Option<(u32, u32)> {
        self.proofs.get(id.0 as usize).copied().flatten()
    }
}
