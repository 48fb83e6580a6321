//! Terms of syntax, each once.

use crate::rows::Rows;
use mm_base::Seed;
use mm_frame::{LabelId, Sym};
use std::alloc::{AllocError, Global};

/// A variable of a statement that isn't spelled yet.
#[derive(Clone, Copy, PartialEq, Eq, Debug)]
pub struct Variable {
    /// Its number in the statement.
    pub number: u32,
    /// Its type code.
    pub code: Sym,
}

/// What stands at the root of a term.
#[derive(Clone, Copy, PartialEq, Eq, Debug)]
pub enum Head {
    /// An assertion of syntax over terms, or a `$f` of the database.
    Syntax(LabelId),
    /// A variable of a statement.
    Variable(Variable),
}

// The first numbers of the rows of these.
const SYNTAX: u32 = 0;

const VARIABLE: u32 = 1;

// How many numbers of a row stand before the terms.
const BEFORE_TERMS: usize = 2;

/// Terms of syntax: a term's number is its index, and terms that are alike have one number.
#[derive(Drop)]
pub struct Terms {
    rows: Rows,
    heads: Vec<Head>,
    codes: Vec<Sym>,
    /// The row that is looked up.
    sought: Vec<u32>,
}

impl Terms {
    /// No terms, whose hashes begin from the seed.
    pub fn new(alloc: Global, seed: Seed) -> Terms {
        Terms {
            rows: Rows::new(alloc, seed),
            heads: Vec::new(alloc),
            codes: Vec::new(alloc),
            sought: Vec::new(alloc),
        }
    }

    /// How many there are.
    pub fn len(&self) -> usize {
        self.rows.len()
    }

    /// The term of this syntax over terms, which has this type code.
    pub fn syntax(
        &mut self,
        label: LabelId,
        code: Sym,
        arguments: &[u32],
    ) -> Result<u32, AllocError> {
        self.sought.clear();
        self.sought.push(SYNTAX)?;
        self.sought.push(label.0)?;
        self.sought.extend_from_slice(arguments)?;
        self.find(Head::Syntax(label), code)
    }

    /// The term that is this variable.
    pub fn variable(&mut self, variable: Variable) -> Result<u32, AllocError> {
        self.sought.clear();
        self.sought.push(VARIABLE)?;
        self.sought.push(variable.number)?;
        self.sought.push(variable.code.0)?;
        self.find(Head::Variable(variable), variable.code)
    }

    /// What stands at the root of a term.
    pub fn head(&self, term: u32) -> Option<Head> {
        self.heads.get(term as usize).copied()
    }

    /// The variable that a term is; none where it is syntax.
    pub fn as_variable(&self, term: u32) -> Option<Variable> {
        match self.head(term) {
            Some(Head::Variable(variable)) => Some(variable),
            _ => None,
        }
    }

    /// The type code of a term.
    pub fn code(&self, term: u32) -> Option<Sym> {
        self.codes.get(term as usize).copied()
    }

    /// The terms below the root of a term.
    pub fn arguments(&self, term: u32) -> &[u32] {
        match self.head(term) {
            Some(Head::Syntax(_)) => self.rows.get(term).get(BEFORE_TERMS..).unwrap_or(&[]),
            _ => &[],
        }
    }

    // The term with the row that is looked up.
    fn find(&mut self, head: Head, code: Sym) -> Result<u32, AllocError> {
        let term = self.rows.row(&self.sought)?;
        for _ in self.heads.len()..self.rows.len() {
            self.heads.push(head)?;
        }
        for _ in self.codes.len()..self.rows.len() {
            self.codes.push(code)?;
        }
        Ok(term)
    }
}
