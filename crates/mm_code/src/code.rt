//! A code of a compressed proof, and why letters are refused.

ghost use Rattle.std.specs.Prelude.{◌≡◌};
ghost use Rattle.mm_code.specs.declared.code.CodeFault.TheVariants.{Memory};

use std::alloc::AllocError;
use thiserror::Error;

/// What one piece of the letters says (the Metamath book, appendix B).
#[derive(Clone, Copy, Debug, PartialEq, Eq)]
pub enum Code {
    /// A number, from 1 on: that of a mandatory hypothesis, a listed label or a tagged step.
    /// The largest `u32`, 4,294,967,295, stands for itself and for each number above it.
    Number(u32),
    /// `Z`: the step before it is tagged.
    Tag,
}

/// A rule that the letters of a compressed proof must obey.
#[derive(Clone, Copy, Debug, PartialEq, Eq)]
pub enum CodeRule {
    /// Each byte is a letter `A` to `Z`.
    P4,
    /// Leading digits, `U` to `Y`, are followed by a last digit, `A` to `T`.
    P5,
}

/// Why a call gave no answer.
#[derive(Clone, Copy, Debug, PartialEq, Eq, Drop, Error)]
pub enum CodeFault {
    /// The letters break this rule.
    #[error("the letters break {0:?}")]
    Rule(CodeRule),
    /// A growth was refused.
    #[error("out of memory")]
    Memory,
}

impl From<AllocError> for CodeFault {
    ghost from_gives = { λ _ e. e ≡ Memory };

    fn from(_e: AllocError) -> CodeFault {
        CodeFault::Memory
    }
}
