//! Why the program ends without an answer.

ghost use Rattle.std.specs.Prelude.{◌≡◌};
ghost use Rattle.mm_words.specs.Unread.{unread_stop};
ghost use Rattle.mm_words.specs.declared.stop.Stop.TheVariants.{Memory};

use crate::arguments::ArgumentFault;
use std::alloc::{AllocError, AllocFailed};
use thiserror::Error;

/// Why the program ends without an answer, which is reported on standard error: the message, after
/// `mm: ` where it isn't `Usage`.
#[derive(Debug, Drop, Error)]
pub enum Stop<'a> {
    /// The words aren't understood; the text says which words are.
    #[error("{0}")]
    Usage(String),
    /// A word isn't UTF-8.
    #[error("a word is not UTF-8")]
    NotText,
    /// The file with this name can't be opened or read; with the word that was taken for the label,
    /// where the command has one.
    #[error("cannot read {name}")]
    CannotRead {
        name: &'a str,
        label: Option<&'a [u8]>,
    },
    /// Standard output didn't take the whole answer.
    #[error("cannot write")]
    CannotWrite,
    /// A growth was refused.
    #[error("out of memory")]
    Memory,
}

impl<'a> From<AllocError> for Stop<'a> {
    ghost from_gives = { λ _ e. e ≡ Memory };

    fn from(_e: AllocError) -> Stop<'a> {
        Stop::Memory
    }
}

impl<'a, T: Drop> From<AllocFailed<T>> for Stop<'a> {
    ghost from_gives = { λ _ e. e ≡ Memory };

    fn from(_e: AllocFailed<T>) -> Stop<'a> {
        Stop::Memory
    }
}

impl<'a> From<ArgumentFault> for Stop<'a> {
    ghost from_gives = { λ fault e. e ≡ unread_stop fault };

    fn from(fault: ArgumentFault) -> Stop<'a> {
        match fault {
            ArgumentFault::NotText => Stop::NotText,
            ArgumentFault::Memory => Stop::Memory,
        }
    }
}
