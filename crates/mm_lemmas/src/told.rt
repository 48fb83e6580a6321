//! Lemmas as they are told: by labels, and in the words of the database.

ghost use Rattle.std.specs.Prelude.{◌≡◌, ◌<◌, ◌≤◌, List, None, IfOk, IfSome};
ghost use Rattle.mm_base.specs.Statement.{PlainStatement};
ghost use Rattle.mm_text.specs.Reading.{Reads};
ghost use Rattle.mm_lemmas.specs.Told.{IsKnownThere, IsThere};
ghost use Rattle.mm_lemmas.specs.Mirror.Listing.{AreNamesOf, plain_known, plain_name};

use mm_frame::{Found, Piece, Sym};
use mm_lemma_search::{Lemma, Part};
use mm_verdict::Checked;
use std::alloc::{AllocError, Global};

/// What a step of a lemma's proof is by, as it is told.
#[derive(Clone, Copy)]
pub(crate) enum Name<'a> {
    /// The assertion with this label.
    Label(&'a [u8]),
    /// The lemma of the line with this number, from 1 on.
    Line(usize),
}

/// What a lemma is made of, and what says it already.
#[derive(Clone, Copy)]
pub(crate) struct Source<'a> {
    pub(crate) upper: Name<'a>,
    /// Which `$e` of that the other step proves, from 1 on.
    pub(crate) place: usize,
    pub(crate) lower: Name<'a>,
    pub(crate) known: Option<Name<'a>>,
}

/// What a lemma gains.
#[derive(Clone, Copy)]
pub(crate) struct Gain {
    pub(crate) saved: usize,
    pub(crate) uses: usize,
    pub(crate) proofs: usize,
}

/// A lemma as it is told.
#[derive(Drop)]
pub(crate) struct Told<'a> {
    pub(crate) gain: Gain,
    pub(crate) source: Source<'a>,
    pub(crate) hypotheses: Vec<Vec<&'a [u8]>>,
    pub(crate) expression: Vec<&'a [u8]>,
}

// How a lemma is written: its variables by these symbols, and symbols by these names.
#[derive(Clone, Copy)]
struct Writing<'w, 'a> {
    variables: &'w [Sym],
    names: &'w [Option<&'a [u8]>],
}

impl<'w, 'a> Writing<'w, 'a> {
    // The name of a symbol.
    fn name(&self, symbol: Sym) -> Option<&'a [u8]> {
        self.names.get(symbol.0 as usize).copied().flatten()
    }

    // How a piece is written.
    fn word(&self, piece: Piece) -> Option<&'a [u8]> {
        match piece {
            Piece::Symbol(symbol) => self.name(symbol),
            Piece::Value(variable) => self.name(*self.variables.get(variable as usize)?),
        }
    }

    // How an expression is written; none where a symbol has no name.
    fn words(&self, alloc: Global, pieces: &[Piece]) -> Result<Option<Vec<&'a [u8]>>, AllocError> {
        let mut words = Vec::with_capacity(alloc, pieces.len())?;
        for piece in pieces {
            match self.word(*piece) {
                Some(word) => words.push(word)?,
                None => return Ok(None),
            }
        }
        Ok(Some(words))
    }

    // How each of some expressions is written.
    fn words_each(
        &self,
        alloc: Global,
        expressions: &[Vec<Piece>],
    ) -> Result<Option<Vec<Vec<&'a [u8]>>>, AllocError> {
        let mut all = Vec::with_capacity(alloc, expressions.len())?;
        for pieces in expressions {
            match self.words(alloc, pieces)? {
                Some(words) => all.push(words)?,
                None => return Ok(None),
            }
        }
        Ok(Some(all))
    }
}

/// The number of the line, of so many before it, that tells of a lemma; none where none does.
fn line_of(lines: &[usize], before: usize, lemma: u32) -> Option<usize>
    ensures { IfSome result (λ line. (0 < line) × (line ≤ before)) }
{
    let line = *lines.get(lemma as usize)?;
    if 0 < line && line <= before {
        Some(line)
    } else {
        None
    }
}

/// What this is, as it is told behind so many lines, where lemmas are told in these lines; none where
/// it isn't there.
fn name_of<'a>(
    checked: &Checked<'a>,
    lines: &[usize],
    before: usize,
    part: Part,
) -> Option<Name<'a>>
    ensures { IfSome result (λ name. (statements : List PlainStatement)
        → Reads checked.now.files statements None
        → IsThere statements before (plain_name name)) }
{
    match part {
        Part::Assertion(id) => {
            let label = checked.book.label(id);
            match checked.book.find(label) {
                Found::Assertion(_) => Some(Name::Label(label)),
                _ => None,
            }
        }
        Part::Lemma(lemma) => Some(Name::Line(line_of(lines, before, lemma)?)),
    }
}

/// What says a lemma already, as it is told behind so many lines; none where it isn't there.
fn known_of<'a>(
    checked: &Checked<'a>,
    lines: &[usize],
    before: usize,
    known: Option<Part>,
) -> Option<Option<Name<'a>>>
    ensures { IfSome result (λ known. (statements : List PlainStatement)
        → Reads checked.now.files statements None
        → IsKnownThere statements before (plain_known known)) }
{
    match known {
        Some(part) => Some(Some(name_of(checked, lines, before, part)?)),
        None => Some(None),
    }
}

/// What a lemma is made of, as it is told behind so many lines, where lemmas are told in these.
pub(crate) fn source_of<'a>(
    checked: &Checked<'a>,
    lines: &[usize],
    before: usize,
    lemma: &Lemma,
) -> Option<Source<'a>>
    ensures { IfSome result (λ source. (statements : List PlainStatement)
        → Reads checked.now.files statements None → AreNamesOf statements before source) }
{
    let upper = name_of(checked, lines, before, lemma.upper)?;
    let lower = name_of(checked, lines, before, lemma.lower)?;
    let known = known_of(checked, lines, before, lemma.known)?;
    Some(Source {
        upper,
        place: (lemma.place as usize).saturating_add(1),
        lower,
        known,
    })
}

/// A lemma of this source as it is told, by these variables, where symbols have these names; none
/// where one has none.
pub(crate) fn told_of<'a>(
    alloc: Global,
    variables: &[Sym],
    names: &[Option<&'a [u8]>],
    lemma: &Lemma,
    source: Source<'a>,
) -> Result<Option<Told<'a>>, AllocError>
    ensures { IfOk result (λ told. IfSome told (λ told. told.source ≡ source.entry)) }
{
    let writing = Writing { variables, names };
    let Some(hypotheses) = writing.words_each(alloc, &lemma.hypotheses)? else {
        return Ok(None);
    };
    let Some(expression) = writing.words(alloc, &lemma.conclusion)? else {
        return Ok(None);
    };
    Ok(Some(Told {
        gain: Gain {
            saved: lemma.saved as usize,
            uses: lemma.uses as usize,
            proofs: lemma.proofs as usize,
        },
        source,
        hypotheses,
        expression,
    }))
}
