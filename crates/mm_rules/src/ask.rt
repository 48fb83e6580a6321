//! Why a question about a theorem has no answer, or a file isn't written anew.

ghost use Rattle.std.specs.Prelude.{◌≡◌};
ghost use Rattle.mm_rules.specs.declared.ask.AskFault.TheVariants.{Memory};

use crate::rule::{AskRule, Rule};
use mm_step::{ExpandFault, ProofFault};
use std::alloc::{AllocError, AllocFailed};
use thiserror::Error;

/// Why a question about a theorem has no answer, or a file isn't written anew. They are judged in
/// this order.
#[derive(Clone, Copy, PartialEq, Eq, Debug, Error)]
pub enum AskFault {
    /// The rule of questions that is broken.
    #[error("{0}")]
    Rule(AskRule),
    /// With the proof, or all proofs, written anew in their file, the files would have over
    /// 1,073,741,824 bytes.
    #[error("the files would have too many bytes")]
    F3,
    /// A proof's text that is handed in breaks this rule, at this step.
    #[error("the text breaks {rule} at step {step}")]
    Text { rule: Rule, step: usize },
    /// A growth was refused.
    #[error("out of memory")]
    Memory,
}

impl From<AllocError> for AskFault {
    ghost from_gives = { λ _ e. e ≡ Memory };

    fn from(_e: AllocError) -> AskFault {
        AskFault::Memory
    }
}

impl<T: Drop> From<AllocFailed<T>> for AskFault {
    ghost from_gives = { λ _ e. e ≡ Memory };

    fn from(_e: AllocFailed<T>) -> AskFault {
        AskFault::Memory
    }
}

// Of a proof that is expanded.
impl From<ExpandFault> for AskFault {
    ghost use Rattle.mm_rules.specs.Forms.{expand_fault};

    ghost from_gives = { λ broken fault. fault ≡ expand_fault broken };

    fn from(broken: ExpandFault) -> AskFault {
        match broken {
            ExpandFault::L2 => AskFault::Rule(AskRule::L2),
            ExpandFault::Memory => AskFault::Memory,
        }
    }
}

// Of a proof's text that is handed in.
impl From<ProofFault> for AskFault {
    ghost use Rattle.mm_rules.specs.Compared.{text_fault};

    ghost from_gives = { λ broken fault. fault ≡ text_fault broken };

    fn from(broken: ProofFault) -> AskFault {
        match broken {
            ProofFault::Rule { rule, step } => AskFault::Text {
                rule: Rule::Proof(rule),
                step,
            },
            ProofFault::Memory => AskFault::Memory,
        }
    }
}
