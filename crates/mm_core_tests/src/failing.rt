//! A writer that fails at one call alone, in the middle of a text.

ghost use Rattle.std.specs.Prelude.{◌≡◌};
ghost use Rattle.mm_text.specs.Device.{faults_of};

use mm_text::Counted;
use std::alloc::Global;
use std::io;
use std::io::{ErrorKind, Write};

/// Takes one byte a call, but fails at one of its calls alone, the first of which is number 1. It
/// takes what is written after that, and so shows who tries again or goes on.
#[derive(Drop)]
pub struct FailingWriter {
    /// What was taken so far.
    pub taken: Vec<u8>,
    /// How many calls came so far.
    pub calls: usize,
    fails_at: usize,
    answers_zero: bool,
}

impl Write for FailingWriter {
    fn write(&mut self, buf: &[u8]) -> io::Result<usize> {
        self.calls = self.calls.saturating_add(1);
        if self.calls == self.fails_at {
            return if self.answers_zero {
                Ok(0)
            } else {
                Err(io::Error::from(ErrorKind::BrokenPipe))
            };
        }
        match buf.first() {
            Some(byte) => {
                self.taken.push(*byte)?;
                Ok(1)
            }
            None => Ok(0),
        }
    }

    fn flush(&mut self) -> io::Result<()> {
        Ok(())
    }
}

/// A writer that fails at a call, none of whose calls has failed yet.
pub fn failing_writer(alloc: Global, fails_at: usize, answers_zero: bool) -> Counted<FailingWriter>
    ensures { faults_of result ≡ 0 }
{
    Counted::new(FailingWriter {
        taken: Vec::new(alloc),
        calls: 0,
        fails_at,
        answers_zero,
    })
}
