//! Why a proof isn't accepted.

ghost use Rattle.std.specs.Prelude.{◌≡◌};
ghost use Rattle.mm_step.specs.RuleCodes.{proof_code};
ghost use Rattle.mm_step.specs.declared.fault.ProofFault.TheVariants.{Memory};

use std::alloc::{AllocError, AllocFailed};
use thiserror::Error;

/// What a proof may break. P1 to P5 and then P15 are judged over the whole proof, P6 to P12 and L1
/// step by step, P13 and P14 at the end (the Metamath book, section 4.3 and appendix B).
#[derive(Clone, Copy, PartialEq, Eq, Debug)]
pub enum ProofRule {
    /// The first token is `(`, and there is no `)` among the others.
    P1,
    /// A label isn't that of an earlier statement.
    P2,
    /// A label is that of a hypothesis that isn't active.
    P3,
    /// A byte of the letters isn't `A` to `Z`.
    P4,
    /// Leading digits are followed by `Z` or by the end of the letters.
    P5,
    /// Under the strict profile: the list of a compressed proof holds a mandatory hypothesis or a
    /// label twice, or a `Z` doesn't stand directly after a number of a listed label that is an
    /// assertion's.
    P15,
    /// A number is over those of hypotheses, listed labels and tags so far.
    P6,
    /// A `Z` before any step.
    P7,
    /// The stack holds fewer entries than mandatory hypotheses.
    P8,
    /// The type code of a `$f` differs from its entry's first symbol.
    P9,
    /// A substituted `$e` differs from its entry.
    P10,
    /// The replacements of a mandatory distinct pair share a variable.
    P11,
    /// A pair of variables of these replacements isn't an active pair.
    P12,
    /// At the end the stack doesn't hold exactly one entry.
    P13,
    /// That entry differs from the expression of the `$p`.
    P14,
    /// A step pushes an expression of more symbols than the profile allows, the type code
    /// counted.
    L1,
}

impl ProofRule {
    /// The printed code.
    pub fn code(self) -> &'static [u8]
        ensures { result.now ≡ proof_code self }
    {
        match self {
            ProofRule::P1 => b"P1",
            ProofRule::P2 => b"P2",
            ProofRule::P3 => b"P3",
            ProofRule::P4 => b"P4",
            ProofRule::P5 => b"P5",
            ProofRule::P6 => b"P6",
            ProofRule::P7 => b"P7",
            ProofRule::P8 => b"P8",
            ProofRule::P9 => b"P9",
            ProofRule::P10 => b"P10",
            ProofRule::P11 => b"P11",
            ProofRule::P12 => b"P12",
            ProofRule::P13 => b"P13",
            ProofRule::P14 => b"P14",
            ProofRule::P15 => b"P15",
            ProofRule::L1 => b"L1",
        }
    }
}

/// Why a proof isn't accepted.
#[derive(Clone, Copy, PartialEq, Eq, Debug, Drop, Error)]
pub enum ProofFault {
    /// The first rule that the proof breaks, and the number of its step: 0 for P1 to P5 and P15,
    /// else from 1 on; for P13 and P14 one more than the number of steps.
    #[error("the proof breaks {rule:?} at step {step}")]
    Rule { rule: ProofRule, step: usize },
    /// A growth was refused.
    #[error("out of memory")]
    Memory,
}

impl From<AllocError> for ProofFault {
    ghost from_gives = { λ _ e. e ≡ Memory };

    fn from(_e: AllocError) -> ProofFault {
        ProofFault::Memory
    }
}

impl<T: Drop> From<AllocFailed<T>> for ProofFault {
    ghost from_gives = { λ _ e. e ≡ Memory };

    fn from(_e: AllocFailed<T>) -> ProofFault {
        ProofFault::Memory
    }
}

/// Why a proof isn't expanded.
#[derive(Clone, Copy, PartialEq, Eq, Debug, Drop, Error)]
pub enum ExpandFault {
    /// It has more labels than are allowed.
    #[error("the expanded proof has too many labels")]
    L2,
    /// A growth was refused.
    #[error("out of memory")]
    Memory,
}

impl From<AllocError> for ExpandFault {
    ghost use Rattle.mm_step.specs.declared.fault.ExpandFault.TheVariants as expand;

    ghost from_gives = { λ _ e. e ≡ expand.Memory };

    fn from(_e: AllocError) -> ExpandFault {
        ExpandFault::Memory
    }
}

impl<T: Drop> From<AllocFailed<T>> for ExpandFault {
    ghost use Rattle.mm_step.specs.declared.fault.ExpandFault.TheVariants as expand;

    ghost from_gives = { λ _ e. e ≡ expand.Memory };

    fn from(_e: AllocFailed<T>) -> ExpandFault {
        ExpandFault::Memory
    }
}
