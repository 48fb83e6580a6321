//! What lemmas are written by: the database, the file, and what is known of them.

use crate::labels::essential_label;
use crate::places::place_before;
use crate::sites::Sites;
use mm_frame::{Book, LabelId, Piece, Sym};
use mm_lemma_search::{Lemma, Part, Remarks};
use mm_terms::next_number;
use mm_verdict::Checked;
use std::alloc::{AllocError, Global};

/// By what lemmas are written into a file.
#[derive(Clone, Copy)]
pub(crate) struct Page<'p, 'a> {
    pub(crate) checked: &'p Checked<'a>,
    pub(crate) book: &'p Book<'a>,
    /// The bytes of the file.
    pub(crate) bytes: &'p [u8],
    pub(crate) remarks: &'p Remarks<'a>,
    pub(crate) sites: &'p Sites,
    pub(crate) lemmas: &'p [Lemma],
    /// The labels of the lemmas.
    pub(crate) labels: &'p [Vec<u8>],
    /// What their comments say; what they are made of where there is none.
    pub(crate) comment: Option<&'p [u8]>,
}

/// By what a lemma's own hypotheses are written.
#[derive(Drop)]
pub(crate) struct Own {
    /// The symbols of its variables.
    pub(crate) symbols: Vec<Sym>,
    /// The labels of its `$f`, and then those of its `$e`.
    pub(crate) labels: Vec<Vec<u8>>,
    /// Its mandatory hypotheses, in the order of the database: by the indices of these labels.
    pub(crate) mandatory: Vec<u32>,
}

// A `$f`, and the index of its variable. Those that stand first in the database come first.
#[derive(Clone, Copy, PartialEq, Eq, PartialOrd, Ord)]
struct Floating {
    label: u32,
    index: u32,
}

impl<'p, 'a> Page<'p, 'a> {
    /// How many labels the database has: names from there on are of lemmas.
    pub(crate) fn first_lemma(&self) -> u32 {
        next_number(self.remarks.remarks.len())
    }

    /// The number by which proofs name a lemma.
    pub(crate) fn lemma_name(&self, lemma: usize) -> u32 {
        self.first_lemma().saturating_add(next_number(lemma))
    }

    /// The index of the lemma that has a name, if one has it.
    pub(crate) fn lemma_of(&self, name: u32) -> Option<usize> {
        let lemma = name.checked_sub(self.first_lemma())? as usize;
        if lemma < self.lemmas.len() {
            Some(lemma)
        } else {
            None
        }
    }

    /// The number of what a step of a lemma's proof is by.
    pub(crate) fn part_name(&self, part: Part) -> u32 {
        match part {
            Part::Assertion(id) => id.0,
            Part::Lemma(lemma) => self.lemma_name(lemma as usize),
        }
    }

    /// The label of what has a name: of the database, of a lemma, or of one of these hypotheses of
    /// its own.
    pub(crate) fn label<'l>(&'l self, own: &'l [Vec<u8>], name: u32) -> &'l [u8] {
        let Some(index) = name.checked_sub(self.first_lemma()) else {
            return self.book.label(LabelId(name));
        };
        let index = index as usize;
        let label = match self.labels.get(index) {
            Some(label) => Some(label),
            None => own.get(index.saturating_sub(self.labels.len())),
        };
        match label {
            Some(label) => label,
            None => &[],
        }
    }

    /// The label of an assertion of the database, or of a lemma.
    pub(crate) fn part_label(&self, name: u32) -> &[u8] {
        let Some(lemma) = self.lemma_of(name) else {
            return self.book.label(LabelId(name));
        };
        match self.labels.get(lemma) {
            Some(label) => label,
            None => &[],
        }
    }

    /// How a piece of an expression is written, where variables have these symbols.
    pub(crate) fn word(&self, symbols: &[Sym], piece: Piece) -> &'a [u8] {
        let symbol = match piece {
            Piece::Symbol(symbol) => Some(symbol),
            Piece::Value(variable) => symbols.get(variable as usize).copied(),
        };
        match symbol {
            Some(symbol) => self.name(symbol),
            None => &[],
        }
    }

    // The name of a symbol.
    fn name(&self, symbol: Sym) -> &'a [u8] {
        self.remarks
            .names
            .get(symbol.0 as usize)
            .copied()
            .flatten()
            .unwrap_or(&[])
    }

    /// Where a lemma is put: before its block, or before the first mathbox; none where that isn't
    /// in the file.
    pub(crate) fn place(&self, lemma: &Lemma) -> Option<usize> {
        let is_shared = lemma.mathbox == 0 && Some(lemma.block) == self.remarks.first_mathbox;
        if is_shared {
            return Some(place_before(self.bytes, self.sites.heading?));
        }
        let block = self.sites.blocks.get(lemma.block as usize)?;
        Some(place_before(self.bytes, (*block)? as usize))
    }

    /// By what the lemma with an index is written; none where the database has too few variables
    /// before its place.
    pub(crate) fn own(&self, alloc: Global, lemma: usize) -> Result<Option<Own>, AllocError> {
        let Some(told) = self.lemmas.get(lemma) else {
            return Ok(None);
        };
        let codes = &told.pattern.variables;
        let Some(symbols) = self.remarks.variables.of(codes, told.block)? else {
            return Ok(None);
        };
        let floating = self.floating(alloc, &symbols)?;
        let mandatory = mandatory_of(alloc, &floating, told)?;
        let labels = self.own_labels(alloc, lemma, &floating)?;
        Ok(Some(Own {
            symbols,
            labels,
            mandatory,
        }))
    }

    // The labels of a lemma's own hypotheses, where these are its `$f`.
    fn own_labels(
        &self,
        alloc: Global,
        lemma: usize,
        floating: &[Floating],
    ) -> Result<Vec<Vec<u8>>, AllocError> {
        let mut labels = self.floating_labels(alloc, floating)?;
        match self.push_essentials(alloc, lemma, &mut labels) {
            Ok(()) => Ok(labels),
            Err(error) => {
                drop(labels);
                Err(error)
            }
        }
    }

    // The `$f` of these variables.
    fn floating(&self, alloc: Global, symbols: &[Sym]) -> Result<Vec<Floating>, AllocError> {
        let mut floating = Vec::with_capacity(alloc, symbols.len())?;
        for (index, symbol) in symbols.iter().enumerate() {
            floating.push(Floating {
                label: self.sites.floating.get(&symbol.0).copied().unwrap_or(0),
                index: next_number(index),
            })?;
        }
        Ok(floating)
    }

    // The labels of these `$f`.
    fn floating_labels(
        &self,
        alloc: Global,
        floating: &[Floating],
    ) -> Result<Vec<Vec<u8>>, AllocError> {
        let mut labels = Vec::with_capacity(alloc, floating.len())?;
        for one in floating {
            labels.push(Vec::from_slice(alloc, self.book.label(LabelId(one.label)))?)?;
        }
        Ok(labels)
    }

    // Appends the labels of the `$e` of a lemma.
    fn push_essentials(
        &self,
        alloc: Global,
        lemma: usize,
        labels: &mut Vec<Vec<u8>>,
    ) -> Result<(), AllocError> {
        if let (Some(told), Some(label)) = (self.lemmas.get(lemma), self.labels.get(lemma)) {
            for index in 0..told.hypotheses.len() {
                labels.push(essential_label(alloc, label, index)?)?;
            }
        }
        Ok(())
    }
}

// The indices of a lemma's mandatory hypotheses among its own, in the order of the database, where
// these are the `$f` of its variables.
fn mandatory_of(
    alloc: Global,
    floating: &[Floating],
    lemma: &Lemma,
) -> Result<Vec<u32>, AllocError> {
    let mandatory = floating.get(..lemma.pattern.mandatory).unwrap_or(&[]);
    let mut sorted = Vec::from_slice(alloc, mandatory)?;
    sorted.sort_unstable();
    let mut indices = Vec::new(alloc);
    for one in &sorted {
        indices.push(one.index)?;
    }
    for index in 0..lemma.hypotheses.len() {
        indices.push(next_number(floating.len().saturating_add(index)))?;
    }
    Ok(indices)
}
