//! The words that the program was started with, and why there may be none.

ghost use Rattle.std.specs.Prelude.{◌≡◌, ◌≢◌, ◌↔◌, ℕ, List, Option, map};
ghost use Rattle.std.specs.Prelude.{IfOk, IfSome, IsErrAnd, IsErrOf, string_bytes};
ghost use Rattle.std.specs.IoError.{error_kind};
ghost use Rattle.std.specs.declared.io.ErrorKind.TheVariants.{OutOfMemory};
ghost use Rattle.mm_words.specs.declared.arguments.ArgumentFault.TheVariants.{Memory};

use std::alloc::{AllocError, Global};
use std::{env, io};
use thiserror::Error;

/// Why the words weren't read.
#[derive(Clone, Copy, PartialEq, Eq, Debug, Drop, Error)]
pub enum ArgumentFault {
    /// A word isn't UTF-8, or the host failed.
    #[error("a word is not UTF-8")]
    NotText,
    /// A growth was refused.
    #[error("out of memory")]
    Memory,
}

impl From<AllocError> for ArgumentFault {
    ghost from_gives = { λ _ e. e ≡ Memory };

    fn from(_e: AllocError) -> ArgumentFault {
        ArgumentFault::Memory
    }
}

impl From<io::Error> for ArgumentFault {
    ghost from_gives = { λ error e. (e ≡ Memory) ↔ (error_kind error ≡ OutOfMemory) };

    fn from(error: io::Error) -> ArgumentFault {
        match error.kind() {
            io::ErrorKind::OutOfMemory => ArgumentFault::Memory,
            _ => ArgumentFault::NotText,
        }
    }
}

/// What has the words that the program was started with.
pub trait Arguments {
    /// The words, where they are known.
    ghost words: { Self → Option (List (List ℕ)) };

    /// A word may not be UTF-8, or the host may fail.
    ghost may_fail: { Self → Type 0 };

    /// The words, the program's name first.
    ///
    /// # Errors
    ///
    /// `NotText` only where the words may fail; `Memory` where a growth was refused.
    fn words(&self, alloc: Global) -> Result<Vec<String>, ArgumentFault>
        ensures all { IfOk result (λ list. IfSome (words self.now)
            (λ all. map string_bytes list.items ≡ all)) }
        ensures cause { IsErrOf result ArgumentFault.NotText → may_fail self.now };
}

/// The words that the host gave, or why there are none.
///
/// # Errors
///
/// `NotText` only where the host failed, and not for lack of memory; `Memory` where a growth was
/// refused.
pub fn words_of(alloc: Global, given: io::Result<env::Args>) -> Result<Vec<String>, ArgumentFault>
    ensures cause { IsErrOf result ArgumentFault.NotText
        → IsErrAnd given (λ error. error_kind error ≢ OutOfMemory) }
{
    Ok(given?.collect(alloc)?)
}
