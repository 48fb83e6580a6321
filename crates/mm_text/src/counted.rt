//! A reader or writer that counts its failed calls.
ghost use Rattle.std.specs.Prelude.{◌≡◌, ℕ, ◌+◌, ◌<◌, List, Option, ⊤, OnOk, OnErr};
ghost use Rattle.std.specs.Io.{ReadsAtMost, WritesAtMost};
ghost use Rattle.std.specs.Io.KnownBytes.{Appends, ReadConsumes, WriteAppends};
ghost use Rattle.mm_text.specs.Device.{faults_of, inner_of, IsFailedWrite, AppendsBeginning};

use std::io;
use std::io::{Read, Write};
use thiserror::Error;

/// A device failed in a write: it answered an error, or took none of a piece that has bytes.
#[derive(Clone, Copy, Debug, PartialEq, Eq, Error)]
#[error("a write failed")]
pub struct WriteFault;

/// What gives bytes, in calls that may fail.
pub trait Source {
    /// The bytes that are left to give, where they are known.
    ghost left: { Self → Option (List ℕ) };

    /// A call may fail.
    ghost may_fail: { Self → Type 0 };

    /// Puts the next bytes at the beginning of `piece`, and answers how many. None come only at the
    /// end, or where `piece` has no room.
    ///
    /// # Errors
    ///
    /// Only where a call may fail.
    fn give(&mut self, piece: &mut [u8]) -> io::Result<usize>
        ensures bound { ReadsAtMost result piece.new }
        ensures bytes { ReadConsumes (left self.old) (left self.new) result piece.new }
        ensures cause { OnErr result (may_fail self.old) }
        ensures later { may_fail self.new → may_fail self.old };

    /// How many bytes are left, as far as can be told before they come. Room is made for so many.
    /// Where it's wrong, nothing but time or room is lost.
    fn length_hint(&self) -> usize {
        0
    }
}

/// Of a reader it isn't known when a call fails.
impl<R: Read> Source for R {
    ghost left = { R.remaining };

    ghost may_fail = { λ _. ⊤ };

    fn give(&mut self, piece: &mut [u8]) -> io::Result<usize> {
        self.read(piece)
    }
}

/// A reader or writer, with the number of its calls that failed.
///
/// A call failed that answered an error (an interruption too), or 0 to a write of a piece that
/// has bytes.
#[derive(Drop)]
pub struct Counted<T> {
    inner: T,
    faults: u64,
}

impl<T> Counted<T> {
    /// Wraps a device, of whose calls none has failed yet.
    pub fn new(inner: T) -> Self
        ensures inner { inner_of result ≡ inner }
        ensures faults { faults_of result ≡ 0 }
    {
        Counted { inner, faults: 0 }
    }

    /// How many calls failed so far.
    pub fn faults(&self) -> u64
        ensures { result ≡ faults_of self.now }
    {
        self.faults
    }

    /// The device, without its count.
    pub fn into_inner(self) -> T
        ensures { result ≡ inner_of self }
    {
        self.inner
    }
}

impl<S: Source> Counted<S> {
    /// How many bytes are left, as the source tells. More or fewer may come.
    pub(crate) fn length_hint(&self) -> usize {
        self.inner.length_hint()
    }

    /// Reads once, and answers what the source answers. The count rises by one exactly where that
    /// is an error. No clause says which error came, since the source's own contract does not.
    pub fn read(&mut self, buf: &mut [u8]) -> io::Result<usize>
        requires { faults_of self.old < u64.MAX }
        ensures bound { ReadsAtMost result buf.new }
        ensures bytes { ReadConsumes (S.left (inner_of self.old))
            (S.left (inner_of self.new)) result buf.new }
        ensures cause { OnErr result (S.may_fail (inner_of self.old)) }
        ensures later { S.may_fail (inner_of self.new) → S.may_fail (inner_of self.old) }
        ensures counted { OnErr result (faults_of self.new ≡ faults_of self.old + 1) }
        ensures uncounted { OnOk result (faults_of self.new ≡ faults_of self.old) }
    {
        let result = self.inner.give(buf);
        if result.is_err() {
            self.faults += 1;
        }
        result
    }
}

impl<W: Write> Counted<W> {
    /// Writes once, and answers what the writer answers. The count rises by one exactly where that
    /// is an error, or 0 for a piece that has bytes. No clause says which error came, since the
    /// writer's own contract does not.
    pub fn write(&mut self, bytes: &[u8]) -> io::Result<usize>
        requires { faults_of self.old < u64.MAX }
        ensures bound { WritesAtMost result bytes.now }
        ensures bytes { WriteAppends (W.contents (inner_of self.old))
            (W.contents (inner_of self.new)) result bytes.now }
        ensures counted { IsFailedWrite result bytes.now
            → faults_of self.new ≡ faults_of self.old + 1 }
        ensures uncounted { ¬ IsFailedWrite result bytes.now
            → faults_of self.new ≡ faults_of self.old }
    {
        let result = self.inner.write(bytes);
        let failed = match &result {
            Ok(taken) => *taken == 0 && !bytes.is_empty(),
            Err(_) => true,
        };
        if failed {
            self.faults += 1;
        }
        result
    }

    /// Writes all the bytes, in as many calls as the writer needs, and stops at the first failed
    /// call. The count rises by one exactly where a call failed.
    ///
    /// # Errors
    ///
    /// `WriteFault` where a call failed. A beginning of the bytes is then written, not all of them.
    pub fn write_all(&mut self, bytes: &[u8]) -> Result<(), WriteFault>
        requires { faults_of self.old < u64.MAX }
        ensures all { OnOk result (Appends (W.contents (inner_of self.old))
            (W.contents (inner_of self.new)) bytes.now) }
        ensures beginning { OnErr result (AppendsBeginning (W.contents (inner_of self.old))
            (W.contents (inner_of self.new)) bytes.now) }
        ensures counted { OnErr result (faults_of self.new ≡ faults_of self.old + 1) }
        ensures uncounted { OnOk result (faults_of self.new ≡ faults_of self.old) }
    {
        let mut written = 0;
        while written < bytes.len() {
            match self.write(&bytes[written..]) {
                Ok(0) | Err(_) => return Err(WriteFault),
                Ok(taken) => written += taken,
            }
        }
        Ok(())
    }
}
