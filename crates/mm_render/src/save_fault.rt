//! Why a file isn't written anew.

ghost use Rattle.std.specs.Prelude.{◌≡◌};
ghost use Rattle.mm_rules.specs.declared.ask.AskFault.TheVariants.{Memory};
ghost use Rattle.mm_render.specs.declared.save_fault.SaveFault.TheVariants.{Ask};

use mm_rules::{AskFault, CheckFault};
use std::alloc::AllocError;
use thiserror::Error;

/// Why a file isn't written anew.
#[derive(Debug, Drop, Error)]
pub enum SaveFault<'a> {
    /// The database isn't accepted.
    #[error("{0}")]
    Check(CheckFault<'a>),
    /// The question about the theorem has no answer.
    #[error("{0}")]
    Ask(AskFault),
    /// Where all proofs of a file are saved: the normal proof of the theorem with this label has
    /// over 16,777,216 labels. It is the first such theorem of the file, in database order.
    #[error("a normal proof has too many labels")]
    TooLong { label: &'a [u8] },
}

impl<'a> From<AskFault> for SaveFault<'a> {
    ghost from_gives = { λ fault e. e ≡ Ask fault };

    fn from(fault: AskFault) -> SaveFault<'a> {
        SaveFault::Ask(fault)
    }
}

impl<'a> From<AllocError> for SaveFault<'a> {
    ghost from_gives = { λ _ e. e ≡ Ask Memory };

    fn from(_e: AllocError) -> SaveFault<'a> {
        SaveFault::Ask(AskFault::Memory)
    }
}
