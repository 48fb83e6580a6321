//! Lemmas on their way into a file, and the proofs that use them.

use crate::lemma_text::{lemma_text, proof_indent};
use crate::lines::{indent_in, with_ends_of};
use crate::page::{Own, Page};
use mm_code::{MOST_INDENT, lay_out_small};
use mm_frame::{LabelId, LabelKind};
use mm_lemma_proofs::{Orders, Tree, small_of, tree_of};
use mm_lemma_search::{Lemma, Search};
use mm_patterns::{Change, Digram, Names, Proof, Theorem, own_proof};
use mm_terms::{Listed, next_number};
use mm_verdict::Checked;
use std::alloc::{AllocError, Global};

/// Lemmas on their way into a file.
#[derive(Drop)]
pub(crate) struct Drafts<'p, 'a> {
    pub(crate) alloc: Global,
    pub(crate) page: Page<'p, 'a>,
    /// The library, its theorems, and behind them the lemmas as theorems. The size of a proof is
    /// that of its text: of the old one, where that is no larger.
    pub(crate) search: Search,
    /// How many theorems stand before the lemmas.
    pub(crate) theorems: usize,
    /// For each lemma the numbers of its mandatory variables, in the order of the database.
    orders: Vec<Vec<u32>>,
    /// For each lemma whether it may be put in, as it is chosen.
    is_chosen: Vec<bool>,
    /// For each lemma whether it is put in.
    pub(crate) is_put: Vec<bool>,
    /// For each theorem whether its proof is by lemmas.
    pub(crate) is_new: Vec<bool>,
    /// For each lemma the theorems whose proofs use it.
    pub(crate) users: Listed,
}

// What the old proof of the theorem with a label uses.
fn used_before<'c>(checked: &'c Checked, id: LabelId) -> &'c [LabelId] {
    checked.kept.used_by(id)
}

// The names of the terms and lemmas of a search.
fn names_of(search: &Search) -> Names<'_> {
    Names {
        named: &search.library.named,
        terms: &search.library.terms,
    }
}

// The numbers by which proofs name hypotheses of a lemma with these indices.
fn own_names(alloc: Global, names: Names, indices: &[u32]) -> Result<Vec<u32>, AllocError> {
    let mut own = Vec::with_capacity(alloc, indices.len())?;
    for index in indices {
        own.push(names.of_own(*index))?;
    }
    Ok(own)
}

// The numbers by which proofs name the `$e` of a lemma.
fn essential_names(alloc: Global, names: Names, lemma: &Lemma) -> Result<Vec<u32>, AllocError> {
    let mut own = Vec::with_capacity(alloc, lemma.hypotheses.len())?;
    for index in 0..lemma.hypotheses.len() {
        let place = lemma.pattern.variables.len().saturating_add(index);
        own.push(names.of_own(next_number(place)))?;
    }
    Ok(own)
}

// The numbers of a lemma's mandatory variables, of which there are so many, in the order of the
// database.
fn order_of(alloc: Global, own: &Option<Own>, count: usize) -> Result<Vec<u32>, AllocError> {
    match own {
        Some(own) => Vec::from_slice(alloc, own.mandatory.get(..count).unwrap_or(&[])),
        None => Ok(Vec::new(alloc)),
    }
}

impl<'p, 'a> Drafts<'p, 'a> {
    /// The lemmas of a search, and for each whether it is chosen. None is put in yet.
    pub(crate) fn new(
        alloc: Global,
        page: Page<'p, 'a>,
        search: Search,
        is_chosen: Vec<bool>,
    ) -> Drafts<'p, 'a> {
        Drafts {
            theorems: search.theorems.len(),
            users: Listed::new(alloc, page.book.seed()),
            is_chosen,
            is_put: Vec::new(alloc),
            is_new: Vec::new(alloc),
            orders: Vec::new(alloc),
            alloc,
            page,
            search,
        }
    }

    /// Takes in all lemmas, and notes the proofs that use them.
    pub(crate) fn take_all(&mut self) -> Result<(), AllocError> {
        for lemma in 0..self.page.lemmas.len() {
            self.take_lemma(lemma)?;
        }
        for index in 0..self.search.theorems.len() {
            self.note_users(index)?;
        }
        Ok(())
    }

    /// Measures all proofs that are new.
    pub(crate) fn measure_all(&mut self) -> Result<(), AllocError> {
        for index in 0..self.search.theorems.len() {
            self.measure(index)?;
        }
        Ok(())
    }

    // Takes in a lemma as a theorem, behind all others.
    fn take_lemma(&mut self, lemma: usize) -> Result<(), AllocError> {
        let Some(told) = self.page.lemmas.get(lemma) else {
            return Ok(());
        };
        let own = self.page.own(self.alloc, lemma)?;
        let taken = self.take_with(lemma, told, &own);
        drop(own);
        taken
    }

    // The same, where it is written so.
    fn take_with(
        &mut self,
        lemma: usize,
        told: &Lemma,
        own: &Option<Own>,
    ) -> Result<(), AllocError> {
        let order = order_of(self.alloc, own, told.pattern.mandatory)?;
        self.orders.push(order)?;
        let theorem = self.theorem_of(lemma, told, own)?;
        let can_stand = self.can_stand(told, own, &theorem.proof);
        self.search.theorems.push(theorem)?;
        let is_chosen = self.is_chosen.get(lemma).copied().unwrap_or(false);
        self.is_put.push(can_stand? && is_chosen)?;
        Ok(())
    }

    // A lemma as a theorem, which is written so.
    fn theorem_of(
        &self,
        lemma: usize,
        told: &Lemma,
        own: &Option<Own>,
    ) -> Result<Theorem, AllocError> {
        let names = names_of(&self.search);
        let hypotheses = match own {
            Some(own) => own_names(self.alloc, names, &own.mandatory)?,
            None => Vec::new(self.alloc),
        };
        let change = Change {
            digram: Digram {
                upper: self.page.part_name(told.upper),
                place: told.place,
                lower: self.page.part_name(told.lower),
            },
            name: self.page.lemma_name(lemma),
            pattern: &told.pattern,
        };
        let essentials = essential_names(self.alloc, names, told)?;
        Ok(Theorem {
            id: LabelId(change.name),
            block: told.block,
            mathbox: told.mathbox,
            hypotheses,
            proof: own_proof(self.alloc, change, &essentials)?,
            bytes: 0,
        })
    }

    // Whether a lemma with a proof can stand in the file.
    fn can_stand(
        &self,
        lemma: &Lemma,
        own: &Option<Own>,
        proof: &Proof,
    ) -> Result<bool, AllocError> {
        if own.is_none() || lemma.known.is_some() || self.page.place(lemma).is_none() {
            return Ok(false);
        }
        let tree = self.tree(proof)?;
        let may_have = self.may_have(lemma, &tree);
        drop(tree);
        Ok(may_have)
    }

    // Whether a lemma may have all steps of a tree: by marks, by mathboxes, and by what is put in.
    fn may_have(&self, lemma: &Lemma, tree: &Tree) -> bool {
        for index in 0..tree.len() {
            if !self.may_use(lemma, tree.name(next_number(index))) {
                return false;
            }
        }
        true
    }

    // Whether a lemma may use what has a name.
    fn may_use(&self, lemma: &Lemma, name: u32) -> bool {
        if let Some(other) = self.page.lemma_of(name) {
            return self.is_put.get(other).copied().unwrap_or(false);
        }
        match self.page.remarks.remarks.get(name as usize) {
            Some(remark) => {
                let standing = remark.standing;
                standing.is_usable && (standing.mathbox == 0 || standing.mathbox == lemma.mathbox)
            }
            // A hypothesis of its own.
            None => true,
        }
    }

    /// The tree of a proof.
    pub(crate) fn tree(&self, proof: &Proof) -> Result<Tree, AllocError> {
        let orders = Orders {
            first: self.page.first_lemma(),
            lists: &self.orders,
        };
        let names = names_of(&self.search);
        tree_of(self.alloc, self.page.book.seed(), names, orders, proof)
    }

    /// The lemmas that a proof uses, each once.
    pub(crate) fn lemmas_in(&self, proof: &Proof) -> Result<Vec<u32>, AllocError> {
        let uses = proof.uses(self.alloc)?;
        let mut lemmas = Vec::new(self.alloc);
        for (node, times) in proof.nodes.iter().zip(&uses) {
            if *times > 0 {
                if let Some(lemma) = self.page.lemma_of(node.name) {
                    lemmas.push(next_number(lemma))?;
                }
            }
        }
        lemmas.sort_unstable();
        lemmas.dedup();
        Ok(lemmas)
    }

    /// The lemma that the theorem with an index is, if it is one.
    pub(crate) fn lemma_at(&self, index: usize) -> Option<usize> {
        index.checked_sub(self.theorems)
    }

    /// Whether the theorem with a label may have a proof: a lemma may; so may a theorem of the file,
    /// if its old proof used all assertions that this one uses, but for lemmas. Syntax that is proved
    /// as a theorem is written by axioms here, which may be new.
    pub(crate) fn may_have_proof(&self, id: LabelId, proof: &Proof) -> Result<bool, AllocError> {
        if self.page.lemma_of(id.0).is_some() {
            return Ok(true);
        }
        let span = self.page.sites.span(id);
        if span.is_none() {
            return Ok(false);
        }
        let used = used_before(self.page.checked, id);
        let tree = self.tree(proof)?;
        for index in 0..tree.len() {
            let name = LabelId(tree.name(next_number(index)));
            let is_old = name.0 < self.page.first_lemma();
            let kind = self.page.book.kind(name);
            let is_assertion = kind == LabelKind::Axiom || kind == LabelKind::Proof;
            if is_old && is_assertion && !used.contains(&name) {
                return Ok(false);
            }
        }
        Ok(true)
    }

    // Notes which lemmas the proof of the theorem with an index uses.
    fn note_users(&mut self, index: usize) -> Result<(), AllocError> {
        let Some(theorem) = self.search.theorems.get(index) else {
            return Ok(());
        };
        let lemmas = self.lemmas_in(&theorem.proof)?;
        let is_new = match self.lemma_at(index) {
            Some(lemma) => self.is_put.get(lemma).copied().unwrap_or(false),
            None => !lemmas.is_empty() && self.may_have_proof(theorem.id, &theorem.proof)?,
        };
        self.is_new.push(is_new)?;
        if is_new {
            for lemma in &lemmas {
                self.users.add(*lemma, next_number(index))?;
            }
        }
        Ok(())
    }

    // Measures the proof of the theorem with an index, if it is new.
    fn measure(&mut self, index: usize) -> Result<(), AllocError> {
        if self.is_new.get(index).copied() != Some(true) {
            return Ok(());
        }
        let bytes = match self.search.theorems.get(index) {
            Some(theorem) => self.size(index, theorem, &theorem.proof)?,
            None => 0,
        };
        if let Some(theorem) = self.search.theorems.get_mut(index) {
            theorem.bytes = bytes;
        }
        Ok(())
    }

    /// How many bytes the proof of the theorem with an index has, if it is this one.
    pub(crate) fn size(
        &self,
        index: usize,
        theorem: &Theorem,
        proof: &Proof,
    ) -> Result<u64, AllocError> {
        if let Some(lemma) = self.lemma_at(index) {
            return Ok(self.lemma_bytes(lemma, theorem, proof)?.len() as u64);
        }
        let old = self.old(theorem);
        let new = self.new_bytes(theorem, proof, old)?;
        Ok(new.len().min(old.len()) as u64)
    }

    /// The bytes of the old proof of a theorem.
    pub(crate) fn old(&self, theorem: &Theorem) -> &'p [u8] {
        match self.page.sites.span(theorem.id) {
            Some((start, end)) => {
                let bytes = self.page.bytes;
                bytes.get(start as usize..end as usize).unwrap_or(&[])
            }
            None => &[],
        }
    }

    /// The bytes of a proof of a theorem in place of the old ones.
    pub(crate) fn new_bytes(
        &self,
        theorem: &Theorem,
        proof: &Proof,
        old: &[u8],
    ) -> Result<Vec<u8>, AllocError> {
        let lines = self.proof_lines(&theorem.hypotheses, proof, &[], indent_in(old))?;
        with_ends_of(self.alloc, old, lines)
    }

    /// The text of the lemma with an index, as a theorem with a proof.
    pub(crate) fn lemma_bytes(
        &self,
        lemma: usize,
        theorem: &Theorem,
        proof: &Proof,
    ) -> Result<Vec<u8>, AllocError> {
        let Some(told) = self.page.lemmas.get(lemma) else {
            return Ok(Vec::new(self.alloc));
        };
        let Some(own) = self.page.own(self.alloc, lemma)? else {
            return Ok(Vec::new(self.alloc));
        };
        let indent = proof_indent(told);
        let lines = self.proof_lines(&theorem.hypotheses, proof, &own.labels, indent);
        let text = self.text_over(lemma, &own, lines);
        drop(own);
        with_ends_of(self.alloc, self.page.bytes, text?)
    }

    // The text of a lemma over the lines of its proof.
    fn text_over(
        &self,
        lemma: usize,
        own: &Own,
        lines: Result<Vec<u8>, AllocError>,
    ) -> Result<Vec<u8>, AllocError> {
        let lines = lines?;
        let text = lemma_text(self.alloc, self.page, lemma, own, &lines);
        drop(lines);
        text
    }

    // The lines of a proof of a theorem with these mandatory hypotheses, where a lemma's own have
    // these labels.
    fn proof_lines(
        &self,
        hypotheses: &[u32],
        proof: &Proof,
        own: &[Vec<u8>],
        indent: usize,
    ) -> Result<Vec<u8>, AllocError> {
        let tree = self.tree(proof)?;
        let small = small_of(self.alloc, self.page.book.seed(), &tree, hypotheses)?;
        let mut labels = Vec::with_capacity(self.alloc, small.listed.len())?;
        for name in &small.listed {
            labels.push(self.page.label(own, *name))?;
        }
        lay_out_small(self.alloc, indent.min(MOST_INDENT), &labels, &small.letters)
    }
}
