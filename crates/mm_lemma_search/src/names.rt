//! The variables of a database by which lemmas are written.

use mm_base::Seed;
use mm_frame::{Book, Sym};
use mm_terms::{Listed, next_number};
use std::alloc::{AllocError, Global};

// A variable whose `$f` stands outside of all blocks.
#[derive(Clone, Copy)]
struct Variable {
    symbol: Sym,
    /// The number of its `$f` as of a block: lemmas that have it stand behind that.
    block: u32,
}

/// The variables that lemmas may have, by their type codes: in the order of their `$f`, those first
/// whose names are letters alone.
#[derive(Drop)]
pub struct Names {
    alloc: Global,
    variables: Vec<Variable>,
    /// For each type code the indices of those with such names.
    plain: Listed,
    /// The same of the others.
    others: Listed,
}

// Whether a name is letters alone.
fn is_plain(name: &[u8]) -> bool {
    for byte in name {
        if !byte.is_ascii_alphabetic() {
            return false;
        }
    }
    true
}

// How often a code stands among some.
fn times(codes: &[Sym], code: Sym) -> usize {
    let mut times = 0usize;
    for other in codes {
        if *other == code {
            times = times.saturating_add(1);
        }
    }
    times
}

impl Names {
    /// No variables; the hashes of type codes begin from the seed.
    pub(crate) fn new(alloc: Global, seed: Seed) -> Names {
        Names {
            alloc,
            variables: Vec::new(alloc),
            plain: Listed::new(alloc, seed),
            others: Listed::new(alloc, seed),
        }
    }

    /// Enters the variable of a `$f` with this expression, which stands outside of all blocks.
    pub(crate) fn enter(
        &mut self,
        book: &Book,
        expression: &[Sym],
        block: u32,
    ) -> Result<(), AllocError> {
        let [code, symbol] = expression else {
            return Ok(());
        };
        if !book.is_variable(*symbol) {
            return Ok(());
        }
        let index = next_number(self.variables.len());
        self.variables.push(Variable {
            symbol: *symbol,
            block,
        })?;
        if is_plain(book.name(*symbol)) {
            self.plain.add(code.0, index)
        } else {
            self.others.add(code.0, index)
        }
    }

    /// Different variables with these type codes, for a lemma that stands before a block; none where
    /// there are too few.
    pub fn of(&self, codes: &[Sym], block: u32) -> Result<Option<Vec<Sym>>, AllocError> {
        let mut symbols = Vec::with_capacity(self.alloc, codes.len())?;
        for index in 0..codes.len() {
            let code = codes[index];
            match self.name(code, times(&codes[..index], code), block) {
                Some(symbol) => symbols.push(symbol)?,
                None => return Ok(None),
            }
        }
        Ok(Some(symbols))
    }

    // The variable of a type code behind so many others, if it may stand before a block.
    fn name(&self, code: Sym, behind: usize, block: u32) -> Option<Sym> {
        let plain = self.plain.under(code.0);
        let index = match plain.get(behind) {
            Some(index) => *index,
            None => *self.others.under(code.0).get(behind - plain.len())?,
        };
        let variable = self.variables.get(index as usize)?;
        if variable.block < block {
            Some(variable.symbol)
        } else {
            None
        }
    }
}

/// By what lemmas are written: the names of symbols, and the variables that lemmas may have.
#[derive(Clone, Copy)]
pub struct Words<'w, 'a> {
    pub names: &'w [Option<&'a [u8]>],
    pub variables: &'w Names,
}
