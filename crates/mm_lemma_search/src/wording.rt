//! Terms as the symbols that they spell.

use mm_frame::{Piece, Sym};
use mm_patterns::{Library, tokens_by};
use mm_terms::{Head, Token};
use std::alloc::AllocError;

/// A lemma with an expression of more symbols isn't made.
pub(crate) const MOST_WORDS: u64 = 4_000;

/// The hypotheses of a lemma and what it concludes, as symbols.
#[derive(Drop)]
pub(crate) struct Wording {
    pub(crate) hypotheses: Vec<Vec<Piece>>,
    pub(crate) conclusion: Vec<Piece>,
}

// What is spelled next.
#[derive(Clone, Copy)]
enum Word {
    Symbol(Sym),
    Term(u32),
}

// What is spelled of a term and what is left of it.
#[derive(Drop)]
struct Speller<'l> {
    library: &'l Library,
    pieces: Vec<Piece>,
    words: Vec<Word>,
}

impl<'l> Speller<'l> {
    // Spells a word as far as it is a symbol or a variable; answers whether it is syntax at all.
    fn spell(&mut self, word: Word) -> Result<bool, AllocError> {
        match word {
            Word::Symbol(symbol) => self.pieces.push(Piece::Symbol(symbol))?,
            Word::Term(term) => match self.library.terms.head(term) {
                Some(Head::Variable(variable)) => {
                    self.pieces.push(Piece::Value(variable.number))?;
                }
                Some(Head::Syntax(label)) => return self.open(term, tokens_by(self.library, label)),
                None => return Ok(false),
            },
        }
        Ok(true)
    }

    // The words of syntax come next.
    fn open(&mut self, term: u32, tokens: &[Token]) -> Result<bool, AllocError> {
        let arguments = self.library.terms.arguments(term);
        for token in tokens.iter().rev() {
            let word = match token {
                Token::Symbol(symbol) => Word::Symbol(*symbol),
                Token::Variable(variable) => match arguments.get(variable.number as usize) {
                    Some(argument) => Word::Term(*argument),
                    None => return Ok(false),
                },
            };
            self.words.push(word)?;
        }
        Ok(!tokens.is_empty())
    }
}

/// The symbols of a term behind the type code of what is provable: variables by their numbers. None
/// where they are more than `MOST_WORDS`, with the syntax that they are in.
pub(crate) fn worded(library: &Library, term: u32) -> Result<Option<Vec<Piece>>, AllocError> {
    let mut speller = Speller {
        library,
        pieces: Vec::new(library.alloc),
        words: Vec::new(library.alloc),
    };
    speller.pieces.push(Piece::Symbol(library.provable))?;
    speller.words.push(Word::Term(term))?;
    for _ in 0..MOST_WORDS {
        let Some(word) = speller.words.pop() else {
            break;
        };
        if !speller.spell(word)? {
            return Ok(None);
        }
    }
    if !speller.words.is_empty() {
        return Ok(None);
    }
    Ok(Some(speller.pieces))
}

/// The symbols of each of these terms.
pub(crate) fn worded_each(
    library: &Library,
    terms: &[u32],
) -> Result<Option<Vec<Vec<Piece>>>, AllocError> {
    let mut all = Vec::with_capacity(library.alloc, terms.len())?;
    for term in terms {
        let Some(pieces) = worded(library, *term)? else {
            return Ok(None);
        };
        all.push(pieces)?;
    }
    Ok(Some(all))
}
