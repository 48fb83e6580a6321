//! The places at which a file changes, and its new bytes.

use crate::drafts::Drafts;
use crate::places::begins_line;
use mm_terms::next_number;
use std::alloc::{AllocError, Global};

/// A place of the file, and what is put there.
#[derive(Drop)]
pub struct Edit {
    /// From the first byte that isn't kept up to and without the last.
    pub span: (u32, u32),
    /// The bytes in their place: a proof, or a lemma with its comment.
    pub text: Vec<u8>,
    /// Whether it is a proof, in place of that of a theorem.
    pub is_proof: bool,
}

/// A place at which the file may change. Those before it come first, and of two lemmas at one place
/// the one that was found first.
#[derive(Clone, Copy, PartialEq, Eq, PartialOrd, Ord)]
struct Place {
    at: u32,
    /// The index of the theorem, behind which those of lemmas are.
    index: u32,
}

/// A file on its way.
#[derive(Drop)]
pub(crate) struct Written {
    pub(crate) edits: Vec<Edit>,
    pub(crate) bytes: Vec<u8>,
    /// How many bytes of the file were taken.
    taken: usize,
}

// A lemma's text as it stands at a place: on lines of its own.
fn on_own_lines(alloc: Global, text: Vec<u8>, is_behind_line: bool) -> Result<Vec<u8>, AllocError> {
    if is_behind_line {
        return Ok(text);
    }
    let mut own = Vec::with_capacity(alloc, text.len().saturating_add(1))?;
    own.push(b'\n')?;
    own.extend_from_slice(&text)?;
    Ok(own)
}

impl Written {
    // Keeps the bytes up to a position.
    fn keep(&mut self, old: &[u8], end: usize) -> Result<(), AllocError> {
        let kept = old.get(self.taken..end).unwrap_or(&[]);
        self.bytes.extend_from_slice(kept)
    }

    // Puts a text in place of a span.
    fn put(&mut self, old: &[u8], edit: Edit) -> Result<(), AllocError> {
        self.keep(old, edit.span.0 as usize)?;
        self.bytes.extend_from_slice(&edit.text)?;
        self.taken = edit.span.1 as usize;
        self.edits.push(edit)?;
        Ok(())
    }
}

impl<'p, 'a> Drafts<'p, 'a> {
    // Where the theorem with an index changes the file.
    fn change_at(&self, index: usize) -> Option<u32> {
        if self.is_new.get(index).copied() != Some(true) {
            return None;
        }
        match self.lemma_at(index) {
            Some(lemma) => {
                let place = self.page.place(self.page.lemmas.get(lemma)?)?;
                Some(next_number(place))
            }
            None => {
                let theorem = self.search.theorems.get(index)?;
                Some(self.page.sites.span(theorem.id)?.0)
            }
        }
    }

    // The places at which the file may change, in order.
    fn changes(&self) -> Result<Vec<Place>, AllocError> {
        let mut changes = Vec::new(self.alloc);
        for index in 0..self.search.theorems.len() {
            if let Some(at) = self.change_at(index) {
                changes.push(Place {
                    at,
                    index: next_number(index),
                })?;
            }
        }
        changes.sort_unstable();
        Ok(changes)
    }

    // A lemma that is put in.
    fn lemma_edit(&self, lemma: usize, place: Place) -> Result<Option<Edit>, AllocError> {
        let Some(theorem) = self.search.theorems.get(place.index as usize) else {
            return Ok(None);
        };
        let text = self.lemma_bytes(lemma, theorem, &theorem.proof)?;
        let is_behind_line = begins_line(self.page.bytes, place.at as usize);
        Ok(Some(Edit {
            span: (place.at, place.at),
            text: on_own_lines(self.alloc, text, is_behind_line)?,
            is_proof: false,
        }))
    }

    // A new proof in place of an old one, if it is by lemmas and shorter.
    fn proof_edit(&self, place: Place) -> Result<Option<Edit>, AllocError> {
        let Some(theorem) = self.search.theorems.get(place.index as usize) else {
            return Ok(None);
        };
        let Some(span) = self.page.sites.span(theorem.id) else {
            return Ok(None);
        };
        if self.lemmas_in(&theorem.proof)?.is_empty() {
            return Ok(None);
        }
        let old = self.old(theorem);
        let text = self.new_bytes(theorem, &theorem.proof, old)?;
        if text.len() >= old.len() {
            return Ok(None);
        }
        Ok(Some(Edit {
            span,
            text,
            is_proof: true,
        }))
    }

    // What is put at a place.
    fn edit(&self, place: Place) -> Result<Option<Edit>, AllocError> {
        match self.lemma_at(place.index as usize) {
            Some(lemma) => self.lemma_edit(lemma, place),
            None => self.proof_edit(place),
        }
    }

    // Writes what is put at these places.
    fn write_each(&self, written: &mut Written, changes: &[Place]) -> Result<(), AllocError> {
        for place in changes {
            if let Some(edit) = self.edit(*place)? {
                written.put(self.page.bytes, edit)?;
            }
        }
        written.keep(self.page.bytes, self.page.bytes.len())
    }

    // The file with all that is put in.
    fn written(&self) -> Result<Written, AllocError> {
        let changes = self.changes()?;
        let mut written = unchanged(self.alloc);
        match self.write_each(&mut written, &changes) {
            Ok(()) => Ok(written),
            Err(error) => {
                drop(written);
                Err(error)
            }
        }
    }

    /// The file with all lemmas that can stand there and pay, and with the proofs that become
    /// shorter.
    pub(crate) fn write(&mut self) -> Result<Written, AllocError> {
        self.take_all()?;
        self.leave_others()?;
        self.measure_all()?;
        self.prune()?;
        self.written()
    }
}

// A file of which nothing was taken.
fn unchanged(alloc: Global) -> Written {
    Written {
        edits: Vec::new(alloc),
        bytes: Vec::new(alloc),
        taken: 0,
    }
}
