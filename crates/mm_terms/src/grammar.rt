//! The syntax of a database: the assertions that build syntax, by what they begin with.

use crate::listed::Listed;
use crate::rows::next_number;
use crate::terms::Variable;
use mm_base::Seed;
use mm_frame::{Hypothesis, LabelId, Piece, ShortPiece, Sym};
use std::alloc::{AllocError, Global};

/// A symbol of a pattern.
#[derive(Clone, Copy, PartialEq, Eq, Debug)]
pub enum Token {
    /// A symbol that nothing replaces.
    Symbol(Sym),
    /// A variable, by its number among those of the pattern's assertion.
    Variable(Variable),
}

/// An assertion that builds syntax.
#[derive(Drop)]
pub struct Rule {
    /// Its label.
    pub label: LabelId,
    /// The type code of what it builds.
    pub code: Sym,
    /// What it builds, without the type code.
    pub tokens: Vec<Token>,
    /// How many variables it has.
    pub variables: usize,
}

/// The assertions that build syntax.
#[derive(Drop)]
pub struct Grammar {
    rules: Vec<Rule>,
    /// Those that begin with a symbol, by it.
    by_symbol: Listed,
    /// Those that begin with a variable, by its type code.
    by_code: Listed,
}

impl Grammar {
    /// No rules, whose hashes begin from the seed.
    pub fn new(alloc: Global, seed: Seed) -> Grammar {
        Grammar {
            rules: Vec::new(alloc),
            by_symbol: Listed::new(alloc, seed),
            by_code: Listed::new(alloc, seed),
        }
    }

    /// The rule with a number.
    pub fn rule(&self, number: u32) -> Option<&Rule> {
        self.rules.get(number as usize)
    }

    /// The rules that begin with a symbol.
    pub fn beginning_with(&self, symbol: Sym) -> &[u32] {
        self.by_symbol.under(symbol.0)
    }

    /// The rules that begin with a variable of this type code.
    pub fn beginning_with_code(&self, code: Sym) -> &[u32] {
        self.by_code.under(code.0)
    }

    /// Adds a rule, and answers its number; not one that builds nothing.
    pub fn add(&mut self, rule: Rule) -> Result<Option<u32>, AllocError> {
        let number = next_number(self.rules.len());
        match rule.tokens.first().copied() {
            Some(Token::Symbol(symbol)) => self.by_symbol.add(symbol.0, number)?,
            Some(Token::Variable(variable)) => self.by_code.add(variable.code.0, number)?,
            None => return Ok(None),
        }
        self.rules.push(rule)?;
        Ok(Some(number))
    }
}

/// The variables among mandatory hypotheses: for each hypothesis the one that it types, numbered
/// in order.
pub fn variables_of(
    alloc: Global,
    hypotheses: &[Hypothesis],
) -> Result<Vec<Option<Variable>>, AllocError> {
    let mut variables = Vec::with_capacity(alloc, hypotheses.len())?;
    let mut number = 0u32;
    for hypothesis in hypotheses {
        variables.push(match hypothesis.typing {
            Some((code, _)) => Some(Variable { number, code }),
            None => None,
        })?;
        if hypothesis.typing.is_some() {
            number = number.saturating_add(1);
        }
    }
    Ok(variables)
}

/// The tokens of a pattern behind its type code, whose hypotheses have these variables; none where
/// a piece stands for no variable.
pub fn tokens_of(
    alloc: Global,
    pieces: &[ShortPiece],
    variables: &[Option<Variable>],
) -> Result<Option<Vec<Token>>, AllocError> {
    let mut tokens = Vec::with_capacity(alloc, pieces.len())?;
    for piece in pieces.get(1..).unwrap_or(&[]) {
        match piece.piece() {
            Piece::Symbol(symbol) => tokens.push(Token::Symbol(symbol))?,
            Piece::Value(place) => match variables.get(place as usize).copied().flatten() {
                Some(variable) => tokens.push(Token::Variable(variable))?,
                None => return Ok(None),
            },
        }
    }
    Ok(Some(tokens))
}

/// The type code of a pattern, which is its first symbol.
pub fn code_of(pieces: &[ShortPiece]) -> Option<Sym> {
    match pieces.first().copied() {
        Some(piece) => piece.symbol(),
        None => None,
    }
}
