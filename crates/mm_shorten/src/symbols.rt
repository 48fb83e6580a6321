//! How many symbols the conclusions of a proof have in all, told before any of them is made.

ghost use Rattle.std.specs.Prelude.{◌≡◌, ◌+◌, ◌<◌, ◌↔◌, min, IsTrue, OnOk};

use mm_code::Code;
use mm_frame::{Book, Piece, ShortPiece, Signature};
use mm_proof::{Steps, calls_of};
use mm_step::Call;
use std::alloc::{AllocError, Global};

/// No search is made for a proof whose steps have more symbols in their conclusions.
pub const MOST_SYMBOLS: usize = 1 << 22;

/// The lengths of conclusions: of those on the stack, and of those that were tagged.
#[derive(Drop)]
struct Lengths {
    stack: Vec<usize>,
    tagged: Vec<usize>,
    /// The sum over all steps so far.
    sum: usize,
}

impl Lengths {
    // The step puts a conclusion of this length on the stack.
    fn push(&mut self, length: usize) -> Result<(), AllocError>
        ensures { OnOk result (self.new.sum ≡ min usize.MAX (self.old.sum + length)) }
    {
        self.sum = self.sum.saturating_add(length);
        self.stack.push(length)?;
        Ok(())
    }

    // Whether the sum is more than that of a proof for which a search is made.
    fn are_too_many(&self) -> bool
        ensures { IsTrue result ↔ (MOST_SYMBOLS < self.now.sum) }
    {
        self.sum > MOST_SYMBOLS
    }

    // A step by what a label stands for.
    fn step(&mut self, call: &Call) -> Result<(), AllocError> {
        let length = match call {
            Call::Hypothesis(expression) => expression.len(),
            Call::Assertion(signature) => self.take_hypotheses(signature),
        };
        self.push(length)
    }

    // Takes the hypotheses of an assertion from the stack, and answers how long its conclusion is.
    fn take_hypotheses(&mut self, signature: &Signature) -> usize {
        let base = self.stack.len().saturating_sub(signature.hypotheses.len());
        let length = length_over(signature.conclusion, &self.stack[base..]);
        self.stack.truncate(base);
        length
    }

    // The step by the code with an index, where the first ones stand for these labels.
    fn take(&mut self, calls: &[Call], index: usize) -> Result<(), AllocError> {
        match calls.get(index) {
            Some(call) => self.step(call),
            None => {
                let tag = index.saturating_sub(calls.len());
                let length = self.tagged.get(tag).copied().unwrap_or(0);
                self.push(length)
            }
        }
    }

    // Tags the last step.
    fn tag(&mut self) -> Result<(), AllocError> {
        let length = self.stack.last().copied().unwrap_or(0);
        self.tagged.push(length)?;
        Ok(())
    }
}

// How long an expression of these pieces is over hypotheses of these lengths, type codes counted.
fn length_over(pieces: &[ShortPiece], lengths: &[usize]) -> usize {
    let mut sum = 0usize;
    for piece in pieces {
        let length = match piece.piece() {
            Piece::Symbol(_) => 1,
            Piece::Value(place) => {
                let whole = lengths.get(place as usize).copied().unwrap_or(0);
                whole.saturating_sub(1)
            }
        };
        sum = sum.saturating_add(length);
    }
    sum
}

/// Whether the conclusions of a proof's steps have no more symbols in all than `MOST_SYMBOLS`.
///
/// # Errors
///
/// Where a growth was refused.
pub fn has_few_symbols(alloc: Global, book: &Book, steps: &Steps) -> Result<bool, AllocError> {
    let calls = calls_of(alloc, book, &steps.entries)?;
    let mut lengths = Lengths {
        stack: Vec::new(alloc),
        tagged: Vec::new(alloc),
        sum: 0,
    };
    for code in &steps.codes {
        match code {
            Code::Number(number) => lengths.take(&calls, number.saturating_sub(1) as usize)?,
            Code::Tag => lengths.tag()?,
        }
        if lengths.are_too_many() {
            return Ok(false);
        }
    }
    Ok(true)
}
