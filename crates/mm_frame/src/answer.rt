//! What a book answers.

ghost use Rattle.std.specs.Prelude.{◌≡◌};
ghost use Rattle.mm_frame.specs.declared.answer.RuleFault.TheVariants.{Memory};

use crate::number::LabelId;
use crate::rule::MeaningRule;
use std::alloc::AllocError;
use thiserror::Error;

/// What a statement was taken as.
#[derive(Clone, Copy, PartialEq, Eq, Debug)]
pub enum Taken {
    /// A `${`.
    Opened,
    /// A `$}`.
    Closed,
    /// A `$c`, `$v` or `$d`.
    Declared,
    /// A `$f` or `$e`, and its number.
    Hypothesis(LabelId),
    /// A `$a` or `$p`, and its number.
    Assertion(LabelId),
}

/// What stands under a label.
#[derive(Clone, Copy, PartialEq, Eq, Debug)]
pub enum Found {
    /// No statement has the label.
    None,
    /// A `$f` or `$e`, and whether it is active now.
    Hypothesis { id: LabelId, active: bool },
    /// A `$a` or `$p`.
    Assertion(LabelId),
}

/// Why a statement wasn't taken.
#[derive(Clone, Copy, PartialEq, Eq, Debug, Error)]
pub enum RuleFault {
    /// The first rule of meaning that it breaks.
    #[error("the statement breaks {0:?}")]
    Rule(MeaningRule),
    /// Memory ran out.
    #[error("out of memory")]
    Memory,
}

impl From<AllocError> for RuleFault {
    ghost from_gives = { λ _ e. e ≡ Memory };

    fn from(_e: AllocError) -> RuleFault {
        RuleFault::Memory
    }
}
