//! Why a database is refused.

ghost use Rattle.std.specs.Prelude.{◌≡◌};
ghost use Rattle.mm_rules.specs.declared.fault.CheckFault.TheVariants.{Memory};
ghost use Rattle.mm_rules.specs.declared.fault.Stop.TheVariants as stop;
ghost use Rattle.mm_rules.specs.Mirror.Judged.{fault_of};

use crate::rule::Rule;
use std::alloc::{AllocError, AllocFailed};
use thiserror::Error;

/// The first statement at fault, and its rule.
#[derive(Clone, Copy, Debug, Drop, Error)]
#[error("file {file}, line {line}: statement {statement} breaks {rule}, step {step}")]
pub struct Refusal<'a> {
    /// The number of the handed file, from 0.
    pub file: usize,
    /// The fault's position in its file, in bytes.
    pub at: usize,
    /// The line of that position, from 1.
    pub line: usize,
    /// The number of the statement in reading order, from 1.
    pub statement: usize,
    /// The statement's label, if it was read.
    pub label: Option<&'a [u8]>,
    pub rule: Rule,
    /// The number of the proof's step, from 1, for the rules that are judged step by step; one more
    /// than the number of steps for P13 and P14; else 0.
    pub step: usize,
}

/// Why a database isn't accepted.
#[derive(Debug, Drop, Error)]
pub enum CheckFault<'a> {
    /// The handed files break F1, F2 or F3 as a whole.
    #[error("the files break {0}")]
    Load(Rule),
    /// A statement is at fault.
    #[error("{0}")]
    Refused(Refusal<'a>),
    /// A growth was refused.
    #[error("out of memory")]
    Memory,
}

impl<'a> From<AllocError> for CheckFault<'a> {
    ghost from_gives = { λ _ e. e ≡ Memory };

    fn from(_e: AllocError) -> CheckFault<'a> {
        CheckFault::Memory
    }
}

impl<'a, T: Drop> From<AllocFailed<T>> for CheckFault<'a> {
    ghost from_gives = { λ _ e. e ≡ Memory };

    fn from(_e: AllocFailed<T>) -> CheckFault<'a> {
        CheckFault::Memory
    }
}

/// What ends the way through the statements of a database.
#[derive(Drop)]
pub enum Stop<'a> {
    /// A statement is at fault.
    Refused(Refusal<'a>),
    /// A growth was refused.
    Memory,
}

impl<'a> From<AllocError> for Stop<'a> {
    ghost from_gives = { λ _ e. e ≡ stop.Memory };

    fn from(_e: AllocError) -> Stop<'a> {
        Stop::Memory
    }
}

impl<'a> From<Stop<'a>> for CheckFault<'a> {
    ghost from_gives = { λ stop fault. fault ≡ fault_of stop };

    fn from(stop: Stop<'a>) -> CheckFault<'a> {
        match stop {
            Stop::Refused(refusal) => CheckFault::Refused(refusal),
            Stop::Memory => CheckFault::Memory,
        }
    }
}
