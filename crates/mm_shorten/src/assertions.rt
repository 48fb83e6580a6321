//! A library: the assertions that proofs of later theorems may use.

ghost use Rattle.mm_frame.specs.Numbers.{IsAssertionNumber};

use crate::patterns::Patterns;
use crate::range::{Range, part};
use crate::rests::{Grounds, Rests};
use crate::trie::next_number;
use mm_base::Seed;
use mm_frame::{Book, Hypothesis, LabelId, Piece, ShortPiece, Signature};
use std::alloc::{AllocError, Global};

/// Assertions with more mandatory variables aren't used.
pub const MOST_VARIABLES: usize = 60;

/// Assertions with more `$e` aren't used.
pub const MOST_ESSENTIALS: usize = 31;

/// A `$e` of an assertion of the library.
#[derive(Clone, Copy)]
pub(crate) struct Essential {
    /// Its index among the mandatory hypotheses.
    pub(crate) place: u32,
    /// Its pattern.
    pub(crate) pattern: u32,
    // Where the places of the pattern's variables stand.
    places: Range,
    // Where its type code and its symbols stand, of which expressions are made.
    pieces: Range,
}

// An assertion of the library, and where its parts stand in the library's lists.
#[derive(Clone, Copy)]
struct Stored {
    label: LabelId,
    hypotheses: u32,
    pattern: u32,
    places: Range,
    essentials: Range,
    pairs: Range,
}

/// An assertion of the library.
#[derive(Clone, Copy)]
pub(crate) struct Template<'l> {
    /// The number of its label.
    pub(crate) label: LabelId,
    /// How many mandatory hypotheses it has.
    pub(crate) hypotheses: u32,
    /// For each variable of the pattern that it concludes, by number, the index of its `$f` among
    /// the mandatory hypotheses.
    pub(crate) places: &'l [u32],
    /// Its `$e`, in order.
    pub(crate) essentials: &'l [Essential],
    /// The mandatory distinct pairs, by the indices of the variables' `$f` among the hypotheses.
    pub(crate) pairs: &'l [(u32, u32)],
    // Those of all assertions.
    all_places: &'l [u32],
    all_pieces: &'l [Piece],
}

impl<'l> Template<'l> {
    /// For each variable of the pattern of one of its `$e`, by number, the index of its `$f` among
    /// the mandatory hypotheses.
    pub(crate) fn places_of(&self, essential: Essential) -> &'l [u32] {
        part(self.all_places, essential.places)
    }

    /// One of its `$e` with its type code.
    pub(crate) fn pieces_of(&self, essential: Essential) -> &'l [Piece] {
        part(self.all_pieces, essential.pieces)
    }
}

/// What is asked of a template before it is read.
#[derive(Clone, Copy)]
pub(crate) struct Candidate {
    /// Its number.
    pub(crate) number: u32,
    /// The number of its label.
    pub(crate) label: LabelId,
    /// How many mandatory hypotheses it has.
    pub(crate) hypotheses: u32,
    /// The number of its mathbox; 0 outside of all.
    pub(crate) mathbox: u32,
    // Where its `$e` stand.
    essentials: Range,
}

/// How an assertion is entered.
#[derive(Clone, Copy)]
pub struct Entry<'u> {
    /// Whether proofs may newly use it.
    pub usable: bool,
    /// The number of its mathbox, from 1 on; 0 outside of all. An assertion of a mathbox isn't
    /// newly used outside of it.
    pub mathbox: u32,
    /// What it depends on.
    pub rests: Rests<'u>,
}

/// The assertions of a database as far as they were entered: those that proofs may use, and what
/// all of them depend on.
#[derive(Drop)]
pub struct Library {
    pub(crate) alloc: Global,
    pub(crate) seed: Seed,
    pub(crate) patterns: Patterns,
    pub(crate) grounds: Grounds,
    templates: Vec<Stored>,
    /// The `$e` of templates, one template after the other; and so what follows.
    essentials: Vec<Essential>,
    /// The places of the variables of patterns.
    places: Vec<u32>,
    /// What `$e` say.
    pieces: Vec<Piece>,
    pairs: Vec<(u32, u32)>,
    /// For each pattern the templates that conclude it.
    concluding: Vec<Vec<Candidate>>,
}

impl Library {
    /// No assertions, whose hashes begin from the seed.
    pub fn new(alloc: Global, seed: Seed) -> Library {
        Library {
            alloc,
            seed,
            patterns: Patterns::new(alloc, seed),
            grounds: Grounds::new(alloc),
            templates: Vec::new(alloc),
            essentials: Vec::new(alloc),
            places: Vec::new(alloc),
            pieces: Vec::new(alloc),
            pairs: Vec::new(alloc),
            concluding: Vec::new(alloc),
        }
    }

    /// How many assertions proofs may use.
    pub fn len(&self) -> usize {
        self.templates.len()
    }

    /// Whether there is none that proofs may use.
    pub fn is_empty(&self) -> bool {
        self.templates.is_empty()
    }

    /// Enters an assertion of the book. Proofs won't use it where it isn't usable, concludes one of
    /// its own `$e`, or has more than `MOST_VARIABLES` or `MOST_ESSENTIALS`.
    ///
    /// # Errors
    ///
    /// Where a growth was refused. The assertion then isn't used.
    pub fn enter(&mut self, book: &Book, id: LabelId, entry: Entry) -> Result<(), AllocError>
        requires { IsAssertionNumber book.now.statements id.0 }
    {
        self.grounds.enter(id, entry.rests)?;
        if !entry.usable {
            return Ok(());
        }
        let frame = book.frame(id);
        let signature = frame.signature();
        if is_too_large(signature.hypotheses) {
            return Ok(());
        }
        let essentials = self.put_essentials(&signature)?;
        let (pattern, places) = self.put_conclusion(&signature)?;
        if self.concludes_its_own(pattern, places, essentials) {
            return Ok(());
        }
        let template = Stored {
            label: id,
            hypotheses: next_number(signature.hypotheses.len()),
            pattern,
            places,
            essentials,
            pairs: self.put_pairs(&signature)?,
        };
        self.put(template, entry.mathbox)
    }

    /// The template with a number.
    pub(crate) fn template(&self, number: u32) -> Option<Template<'_>> {
        let stored = self.templates.get(number as usize)?;
        Some(Template {
            label: stored.label,
            hypotheses: stored.hypotheses,
            places: part(&self.places, stored.places),
            essentials: part(&self.essentials, stored.essentials),
            pairs: part(&self.pairs, stored.pairs),
            all_places: &self.places,
            all_pieces: &self.pieces,
        })
    }

    /// The templates that conclude a pattern.
    pub(crate) fn concluding(&self, pattern: u32) -> &[Candidate] {
        match self.concluding.get(pattern as usize) {
            Some(candidates) => candidates,
            None => &[],
        }
    }

    /// The `$e` of a template, in order.
    pub(crate) fn essentials(&self, candidate: Candidate) -> &[Essential] {
        part(&self.essentials, candidate.essentials)
    }

    // Puts the `$e` of a signature, whose patterns are entered, behind the others.
    fn put_essentials(&mut self, signature: &Signature) -> Result<Range, AllocError> {
        let start = next_number(self.essentials.len());
        for (place, hypothesis) in signature.hypotheses.iter().enumerate() {
            if hypothesis.typing.is_none() {
                let stored = signature.pattern(hypothesis);
                self.put_essential(signature, next_number(place), stored)?;
            }
        }
        let end = next_number(self.essentials.len());
        Ok(Range { start, end })
    }

    // Puts a `$e` of a signature, which stands at a place, behind the others.
    fn put_essential(
        &mut self,
        signature: &Signature,
        place: u32,
        stored: &[ShortPiece],
    ) -> Result<(), AllocError> {
        let pieces = pieces_of(self.alloc, stored)?;
        let (pattern, places) = self.put_pattern(signature, &pieces)?;
        let start = next_number(self.pieces.len());
        self.pieces.extend_from_slice(&pieces)?;
        let end = next_number(self.pieces.len());
        self.essentials.push(Essential {
            place,
            pattern,
            places,
            pieces: Range { start, end },
        })?;
        Ok(())
    }

    // Enters the pattern of what a signature concludes.
    fn put_conclusion(&mut self, signature: &Signature) -> Result<(u32, Range), AllocError> {
        let pieces = pieces_of(self.alloc, signature.conclusion)?;
        self.put_pattern(signature, &pieces)
    }

    // Enters the pattern that these pieces of a signature are, and puts the places of its variables
    // behind the others.
    fn put_pattern(
        &mut self,
        signature: &Signature,
        pieces: &[Piece],
    ) -> Result<(u32, Range), AllocError> {
        let start = next_number(self.places.len());
        let placed = self.patterns.enter(signature.hypotheses, pieces)?;
        self.places.extend_from_slice(&placed.places)?;
        let end = next_number(self.places.len());
        Ok((placed.pattern, Range { start, end }))
    }

    // Puts the mandatory distinct pairs of a signature behind the others.
    fn put_pairs(&mut self, signature: &Signature) -> Result<Range, AllocError> {
        let start = next_number(self.pairs.len());
        for pair in signature.pairs {
            self.pairs.push(pair.indices)?;
        }
        let end = next_number(self.pairs.len());
        Ok(Range { start, end })
    }

    // Whether a pattern with these places is that of one of these `$e`, with the same places.
    fn concludes_its_own(&self, pattern: u32, places: Range, essentials: Range) -> bool {
        for essential in part(&self.essentials, essentials) {
            if essential.pattern == pattern
                && part(&self.places, essential.places) == part(&self.places, places)
            {
                return true;
            }
        }
        false
    }

    // Puts a template behind the others.
    fn put(&mut self, template: Stored, mathbox: u32) -> Result<(), AllocError> {
        for _ in self.concluding.len()..self.patterns.count() as usize {
            self.concluding.push(Vec::new(self.alloc))?;
        }
        let candidate = Candidate {
            number: next_number(self.templates.len()),
            label: template.label,
            hypotheses: template.hypotheses,
            mathbox,
            essentials: template.essentials,
        };
        self.templates.push(template)?;
        if let Some(candidates) = self.concluding.get_mut(template.pattern as usize) {
            candidates.push(candidate)?;
        }
        Ok(())
    }
}

// Whether there are too many variables or `$e` among the hypotheses.
fn is_too_large(hypotheses: &[Hypothesis]) -> bool {
    let floating = hypotheses.iter().filter(|h| h.typing.is_some()).count();
    floating > MOST_VARIABLES || hypotheses.len() - floating > MOST_ESSENTIALS
}

// The pieces, as they were before they were stored.
fn pieces_of(alloc: Global, stored: &[ShortPiece]) -> Result<Vec<Piece>, AllocError> {
    let mut pieces = Vec::with_capacity(alloc, stored.len())?;
    for piece in stored {
        pieces.push(piece.piece())?;
    }
    Ok(pieces)
}
