//! The text of a lemma: a theorem with its comment, in a block where it has hypotheses.

use crate::lines::Lines;
use crate::page::{Own, Page};
use mm_frame::{Piece, Sym};
use mm_lemma_search::Lemma;
use mm_rules::push_decimal;
use mm_terms::next_number;
use mm_text::BYTE_LIMIT;
use mm_verdict::tokens_of;
use std::alloc::{AllocError, Global};

// How many spaces a theorem stands behind, alone or in a block, and its proof.
const ALONE: usize = 2;

const IN_BLOCK: usize = 4;

const PROOF_INDENT: usize = 2;

/// Whether a lemma stands in a block.
fn is_in_block(lemma: &Lemma) -> bool {
    !lemma.hypotheses.is_empty() || !lemma.pattern.pairs.is_empty()
}

/// How many spaces the lines of a lemma begin with.
fn indent_of(lemma: &Lemma) -> usize {
    if is_in_block(lemma) { IN_BLOCK } else { ALONE }
}

/// How many spaces the lines of a lemma's proof begin with.
pub(crate) fn proof_indent(lemma: &Lemma) -> usize {
    indent_of(lemma).saturating_add(PROOF_INDENT)
}

// Whether two variables are to be distinct.
fn are_apart(pairs: &[(u32, u32)], one: u32, other: u32) -> bool {
    pairs.contains(&(one.min(other), one.max(other)))
}

// Whether a variable is apart from all of a group.
fn is_apart(pairs: &[(u32, u32)], group: &[u32], variable: u32) -> bool {
    for other in group {
        if !are_apart(pairs, *other, variable) {
            return false;
        }
    }
    true
}

// The variables of a pair, and others as long as all are to be distinct.
fn group_of(
    alloc: Global,
    pairs: &[(u32, u32)],
    pair: (u32, u32),
    variables: usize,
) -> Result<Vec<u32>, AllocError> {
    let mut group = Vec::new(alloc);
    group.push(pair.0)?;
    group.push(pair.1)?;
    for index in 0..variables {
        let variable = next_number(index);
        if is_apart(pairs, &group, variable) {
            group.push(variable)?;
        }
    }
    Ok(group)
}

// Appends the pairs of a group.
fn push_pairs(done: &mut Vec<(u32, u32)>, group: &[u32]) -> Result<(), AllocError> {
    for one in group {
        for other in group {
            let (one, other) = (*one, *other);
            done.push((one.min(other), one.max(other)))?;
        }
    }
    Ok(())
}

// Groups of variables that are to be distinct: all of the pairs.
fn groups_of(
    alloc: Global,
    pairs: &[(u32, u32)],
    variables: usize,
) -> Result<Vec<Vec<u32>>, AllocError> {
    let mut groups = Vec::new(alloc);
    let mut done = Vec::new(alloc);
    for pair in pairs {
        if !done.contains(pair) {
            let group = group_of(alloc, pairs, *pair, variables)?;
            push_pairs(&mut done, &group)?;
            groups.push(group)?;
        }
    }
    Ok(groups)
}

// The text of a lemma on its way.
#[derive(Drop)]
struct Writing<'w, 'a> {
    page: Page<'w, 'a>,
    lemma: &'w Lemma,
    /// By what its own hypotheses are written.
    own: &'w Own,
    lines: Lines,
}

impl<'w, 'a> Writing<'w, 'a> {
    // Adds the words of an expression.
    fn words(&mut self, pieces: &[Piece]) -> Result<(), AllocError> {
        for piece in pieces {
            let word = self.page.word(&self.own.symbols, *piece);
            self.lines.word(word)?;
        }
        Ok(())
    }

    // Adds a `$d`.
    fn distinct(&mut self, group: &[u32]) -> Result<(), AllocError> {
        self.lines.word(b"$d")?;
        for variable in group {
            let word = self.page.word(&self.own.symbols, Piece::Value(*variable));
            self.lines.word(word)?;
        }
        self.lines.word(b"$.")
    }

    // Adds the `$d`.
    fn distinct_each(&mut self, alloc: Global) -> Result<(), AllocError> {
        let pattern = &self.lemma.pattern;
        if pattern.pairs.is_empty() {
            return Ok(());
        }
        let groups = groups_of(alloc, &pattern.pairs, pattern.variables.len())?;
        self.lines.begin(IN_BLOCK)?;
        for group in &groups {
            self.distinct(group)?;
        }
        self.lines.end()
    }

    // Adds the `$e`.
    fn essential_each(&mut self) -> Result<(), AllocError> {
        let first = self.lemma.pattern.variables.len();
        let labels = self.own.labels.get(first..).unwrap_or(&[]);
        for (label, hypothesis) in labels.iter().zip(&self.lemma.hypotheses) {
            self.lines.begin(IN_BLOCK)?;
            self.lines.word(label)?;
            self.lines.word(b"$e")?;
            self.words(hypothesis)?;
            self.lines.word(b"$.")?;
            self.lines.end()?;
        }
        Ok(())
    }

    // Adds what the comment says where nothing else is wanted.
    fn made_of(&mut self, alloc: Global) -> Result<(), AllocError> {
        let upper = self.page.part_name(self.lemma.upper);
        let lower = self.page.part_name(self.lemma.lower);
        let mut place = Vec::new(alloc);
        push_decimal(&mut place, (self.lemma.place as usize).saturating_add(1))?;
        place.push(b'.')?;
        self.lines.word(b"Lemma")?;
        self.lines.word(b"by")?;
        self.lines.word(b"mm:")?;
        self.lines.word(self.page.part_label(upper))?;
        self.lines.word(b"with")?;
        self.lines.word(self.page.part_label(lower))?;
        self.lines.word(b"as")?;
        self.lines.word(b"hypothesis")?;
        self.lines.word(&place)
    }

    // Adds the words of a text, if a file may have so many bytes.
    fn said(&mut self, alloc: Global, text: &[u8]) -> Result<(), AllocError> {
        if text.len() > BYTE_LIMIT {
            return Ok(());
        }
        let words = tokens_of(alloc, text)?;
        for word in &words {
            self.lines.word(word)?;
        }
        Ok(())
    }

    // Adds the comment.
    fn comment(&mut self, alloc: Global) -> Result<(), AllocError> {
        self.lines.begin(indent_of(self.lemma))?;
        self.lines.word(b"$(")?;
        match self.page.comment {
            Some(text) => self.said(alloc, text)?,
            None => self.made_of(alloc)?,
        }
        self.lines.word(b"$)")?;
        self.lines.end()
    }

    // Adds the theorem with a label and with these lines as its proof.
    fn theorem(&mut self, label: &[u8], proof: &[u8]) -> Result<(), AllocError> {
        let lemma = self.lemma;
        self.lines.begin(indent_of(lemma))?;
        self.lines.word(label)?;
        self.lines.word(b"$p")?;
        self.words(&lemma.conclusion)?;
        self.lines.word(b"$=")?;
        self.lines.lines(proof)?;
        self.lines.lines(b"$.")?;
        self.lines.end()
    }

    // Adds a `${` or `$}`, if the lemma stands in a block.
    fn bracket(&mut self, bracket: &[u8]) -> Result<(), AllocError> {
        if is_in_block(self.lemma) {
            self.lines.begin(ALONE)?;
            self.lines.word(bracket)?;
            self.lines.end()?;
        }
        Ok(())
    }

    // Adds all.
    fn whole(&mut self, alloc: Global, label: &[u8], proof: &[u8]) -> Result<(), AllocError> {
        self.bracket(b"${")?;
        self.distinct_each(alloc)?;
        self.essential_each()?;
        self.comment(alloc)?;
        self.theorem(label, proof)?;
        self.bracket(b"$}")?;
        self.lines.end()
    }
}

/// The text of the lemma with an index, with these lines as its proof.
pub(crate) fn lemma_text(
    alloc: Global,
    page: Page,
    lemma: usize,
    own: &Own,
    proof: &[u8],
) -> Result<Vec<u8>, AllocError> {
    let (Some(told), Some(label)) = (page.lemmas.get(lemma), page.labels.get(lemma)) else {
        return Ok(Vec::new(alloc));
    };
    let mut writing = Writing {
        page,
        lemma: told,
        own,
        lines: Lines::new(alloc),
    };
    writing.whole(alloc, label, proof)?;
    Ok(writing.lines.text)
}
