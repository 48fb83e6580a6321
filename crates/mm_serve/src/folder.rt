//! What the program needs of its host: files by their names, and the words that it was started
//! with.

ghost use Rattle.std.specs.Prelude.{◌≡◌, ℕ, ⊤, List, Some, None, IfOk, OnErr};
ghost use Rattle.mm_serve.specs.Folder.{KnownFile, MayHold, Unknown};

use mm_base::Seed;
use mm_text::Source;
use mm_words::{ArgumentFault, Arguments, words_of};
use std::alloc::{AllocGlobal, Global};
use std::env::Env;
use std::fs::OpenFile;
use std::io::Read;
use std::rt::Files;
use std::{env, fs, io};

/// What lists and tables are made with.
#[derive(Clone, Copy)]
pub struct Resources {
    /// From where memory comes.
    pub alloc: Global,
    /// The seed of tables that hash.
    pub seed: Seed,
}

/// Where files are opened by their names.
pub trait Folder {
    /// An open file.
    type File: Source + Drop;

    /// What is known of the file with a name: nothing, that there is none, or its bytes.
    ghost holds: { Self → List ℕ → KnownFile };

    /// The file with a name can't be opened, or a read of it may fail.
    ghost may_fail: { Self → List ℕ → Type 0 };

    /// Opens the file with this name, to be read from its beginning. A file that is absent isn't
    /// opened.
    ///
    /// # Errors
    ///
    /// Only where the file may fail.
    fn open(&self, name: &str) -> io::Result<Self::File>
        ensures bytes { IfOk result (λ file. MayHold (holds self.now name.now)
            (λ all. Self.File.left file ≡ Some all)) }
        ensures later { IfOk result (λ file. Self.File.may_fail file → may_fail self.now name.now) }
        ensures cause { OnErr result (may_fail self.now name.now) };
}

/// An open file of the host, which tells how long it is.
#[derive(Drop)]
pub struct HostFile<F>(F);

impl<F: Read + OpenFile> Source for HostFile<F> {
    ghost left = { λ file. F.remaining file.0 };

    ghost may_fail = { λ _. ⊤ };

    fn give(&mut self, piece: &mut [u8]) -> io::Result<usize> {
        self.0.read(piece)
    }

    fn length_hint(&self) -> usize {
        match self.0.metadata() {
            Ok(metadata) => metadata.len() as usize,
            Err(_) => 0,
        }
    }
}

/// The host that the program runs on. Nothing is known of what its files hold, nor of its words,
/// nor of when it fails.
#[derive(Drop)]
pub struct Host<'r, R>(pub &'r R);

impl<R: Files> Folder for Host<'_, R> {
    type File = HostFile<R::File>;

    ghost holds = { λ _ _. Unknown };

    ghost may_fail = { λ _ _. ⊤ };

    fn open(&self, name: &str) -> io::Result<HostFile<R::File>> {
        Ok(HostFile(fs::open(self.0, name)?))
    }
}

impl<R: Env + AllocGlobal> Arguments for Host<'_, R> {
    ghost words = { λ _. None };

    ghost may_fail = { λ _. ⊤ };

    fn words(&self, alloc: Global) -> Result<Vec<String>, ArgumentFault> {
        words_of(alloc, env::args(self.0))
    }
}
