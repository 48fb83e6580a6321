//! Devices that fail at one call alone, and what can't read its words.

ghost use Rattle.std.specs.Prelude.{◌≡◌, ⊤, None};
ghost use Rattle.mm_text.specs.Device.{faults_of};
ghost use Rattle.mm_serve.specs.Folder.{Unknown};

use mm_serve::Folder;
use mm_text::Counted;
use mm_words::{ArgumentFault, Arguments, words_of};
use std::alloc::Global;
use std::cell::Cell;
use std::io;
use std::io::{ErrorKind, Read, Write};

/// How a call of a writer fails: by an error, or by taking nothing.
#[derive(Clone, Copy, PartialEq, Eq)]
pub(crate) enum Failure {
    Error,
    Zero,
}

/// Takes one byte a call, but fails at one of its calls alone, the first of which is number 1. It
/// takes what is written after that, and so shows who goes on.
#[derive(Drop)]
pub(crate) struct FailingWriter {
    pub(crate) taken: Vec<u8>,
    pub(crate) calls: usize,
    fails_at: usize,
    failure: Failure,
}

impl Write for FailingWriter {
    fn write(&mut self, buf: &[u8]) -> io::Result<usize> {
        self.calls = self.calls.saturating_add(1);
        if self.calls == self.fails_at {
            return match self.failure {
                Failure::Error => Err(io::Error::from(ErrorKind::BrokenPipe)),
                Failure::Zero => Ok(0),
            };
        }
        match buf.first() {
            Some(byte) => {
                self.taken.push(*byte)?;
                Ok(1)
            }
            None => Ok(0),
        }
    }

    fn flush(&mut self) -> io::Result<()> {
        Ok(())
    }
}

/// A writer that fails at a call, none of whose calls has failed yet.
pub(crate) fn failing_writer(
    alloc: Global,
    fails_at: usize,
    failure: Failure,
) -> Counted<FailingWriter>
    ensures { faults_of result ≡ 0 }
{
    Counted::new(FailingWriter {
        taken: Vec::new(alloc),
        calls: 0,
        fails_at,
        failure,
    })
}

/// Each file has the same bytes. A read gives one of them, but one of the reads alone fails, the
/// first of which is number 1. The reads are counted.
#[derive(Drop)]
pub(crate) struct FailingFolder<'a> {
    pub(crate) bytes: &'static [u8],
    pub(crate) fails_at: usize,
    pub(crate) calls: &'a Cell<usize>,
}

/// What is left of an open file.
#[derive(Drop)]
pub(crate) struct FailingFile<'a> {
    left: &'static [u8],
    fails_at: usize,
    calls: &'a Cell<usize>,
}

impl Read for FailingFile<'_> {
    fn read(&mut self, buf: &mut [u8]) -> io::Result<usize> {
        let call = self.calls.get().saturating_add(1);
        self.calls.set(call);
        if call == self.fails_at {
            return Err(io::Error::from(ErrorKind::Interrupted));
        }
        match (self.left.split_first(), buf.first_mut()) {
            (Some((byte, rest)), Some(index)) => {
                *index = *byte;
                self.left = rest;
                Ok(1)
            }
            _ => Ok(0),
        }
    }
}

impl<'a> Folder for FailingFolder<'a> {
    type File = FailingFile<'a>;

    ghost holds = { λ _ _. Unknown };

    ghost may_fail = { λ _ _. ⊤ };

    fn open(&self, _name: &str) -> io::Result<FailingFile<'a>> {
        Ok(FailingFile {
            left: self.bytes,
            fails_at: self.fails_at,
            calls: self.calls,
        })
    }
}

/// The host gives no words, by an error of this kind.
#[derive(Drop)]
pub(crate) struct Wordless(pub(crate) ErrorKind);

impl Arguments for Wordless {
    ghost words = { λ _. None };

    ghost may_fail = { λ _. ⊤ };

    fn words(&self, alloc: Global) -> Result<Vec<String>, ArgumentFault> {
        words_of(alloc, Err(io::Error::from(self.0)))
    }
}
