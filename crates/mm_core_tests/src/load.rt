//! Devices that fail in the middle of a text, and one happy path of each public call.

ghost use Rattle.std.specs.Prelude.{◌≡◌};
ghost use Rattle.mm_text.specs.Device.{faults_of};

use crate::failing::failing_writer;
use mm_text::{Counted, LoadFault, WriteFault, read_all, read_stripped};
use std::alloc::Global;
use std::io;
use std::io::{ErrorKind, Read};
use std::test::Fail;

const TEXT: &[u8] = b"abc";

/// Gives a text byte by byte, but fails at one of its calls, the first of which is number 1.
#[derive(Drop)]
pub(crate) struct FailingReader {
    text: &'static [u8],
    calls: usize,
    fails_at: usize,
}

impl Read for FailingReader {
    fn read(&mut self, buf: &mut [u8]) -> io::Result<usize> {
        self.calls = self.calls.saturating_add(1);
        if self.calls == self.fails_at {
            return Err(io::Error::from(ErrorKind::Interrupted));
        }
        match (self.text.get(self.calls.saturating_sub(1)), buf.first_mut()) {
            (Some(byte), Some(index)) => {
                *index = *byte;
                Ok(1)
            }
            _ => Ok(0),
        }
    }
}

/// What `read_all` answers of up to 3 bytes, where it gives any, and how many calls failed.
fn read_three(alloc: Global, bytes: &[u8]) -> (Result<Vec<u8>, LoadFault>, u64) {
    let mut reader = Counted::new(bytes);
    let answer = read_all(alloc, &mut reader, 3);
    (answer, reader.faults())
}

#[test]
fn reads_up_to_the_limit(rt: HostRuntime) -> Result<(), Fail> {
    let (answer, faults) = read_three(rt.alloc(), TEXT);
    assert!(rt; answer?.as_slice() == TEXT && faults == 0);
    Ok(())
}

#[test]
fn refuses_more_than_the_limit(rt: HostRuntime) {
    let (answer, faults) = read_three(rt.alloc(), b"abcd");
    assert!(rt; answer.err() == Some(LoadFault::TooLong) && faults == 0);
}

/// A reader of a text that fails at a call, or at none where that is 0; none has failed yet.
pub(crate) fn failing_reader(text: &'static [u8], fails_at: usize) -> Counted<FailingReader>
    ensures { faults_of result ≡ 0 }
{
    Counted::new(FailingReader {
        text,
        calls: 0,
        fails_at,
    })
}

/// Whether the reading stops at the call that fails, and counts it alone.
fn stops_reading(alloc: Global, fails_at: usize) -> bool {
    let mut reader = failing_reader(TEXT, fails_at);
    let answer = read_all(alloc, &mut reader, 3).err();
    answer == Some(LoadFault::Device)
        && reader.faults() == 1
        && reader.into_inner().calls == fails_at
}

// Three bytes take four calls, since the last one finds the end.
#[test]
fn stops_at_a_failed_read(rt: HostRuntime) {
    for fails_at in 1..=4 {
        assert!(rt; stops_reading(rt.alloc(), fails_at));
    }
}

#[test]
fn reads_before_a_failed_call(rt: HostRuntime) -> Result<(), Fail> {
    let mut reader = failing_reader(TEXT, 5);
    let bytes = read_all(rt.alloc(), &mut reader, 3)?;
    assert!(rt; bytes.as_slice() == TEXT && reader.faults() == 0);
    Ok(())
}

/// Whether the writing stops at the call that fails, which is the last one, counts it alone, and
/// has written what comes before it.
fn stops_writing(alloc: Global, fails_at: usize, answers_zero: bool) -> bool {
    let mut writer = failing_writer(alloc, fails_at, answers_zero);
    let answer = writer.write_all(TEXT);
    let faults = writer.faults();
    let writer = writer.into_inner();
    answer == Err(WriteFault)
        && faults == 1
        && writer.calls == fails_at
        && TEXT.get(..fails_at.saturating_sub(1)) == Some(writer.taken.as_slice())
}

#[test]
fn stops_at_a_failed_write(rt: HostRuntime) {
    for fails_at in 1..=3 {
        assert!(rt; stops_writing(rt.alloc(), fails_at, false));
        assert!(rt; stops_writing(rt.alloc(), fails_at, true));
    }
}

#[test]
fn writes_all(rt: HostRuntime) -> Result<(), Fail> {
    let mut writer = Counted::new(Vec::new(rt.alloc()));
    writer.write_all(TEXT)?;
    assert!(rt; writer.faults() == 0);
    assert!(rt; writer.into_inner().as_slice() == TEXT);
    Ok(())
}

#[test]
fn counts_failed_reads(rt: HostRuntime) -> Result<(), Fail> {
    let mut reader = failing_reader(TEXT, 2);
    let mut piece = [0; 2];
    assert!(rt; reader.read(&mut piece)? == 1);
    assert!(rt; reader.faults() == 0 && piece == [b'a', 0]);
    match reader.read(&mut piece) {
        Ok(_) => return Err(Fail::from("no fault")),
        Err(fault) => assert!(rt; fault.kind() == ErrorKind::Interrupted),
    }
    assert!(rt; reader.faults() == 1);
    assert!(rt; reader.into_inner().calls == 2);
    Ok(())
}

#[test]
fn counts_failed_writes(rt: HostRuntime) -> Result<(), Fail> {
    let mut writer = failing_writer(rt.alloc(), 3, false);
    assert!(rt; writer.write(b"")? == 0);
    assert!(rt; writer.write(TEXT)? == 1);
    assert!(rt; writer.faults() == 0);
    match writer.write(TEXT) {
        Ok(_) => return Err(Fail::from("no fault")),
        Err(fault) => assert!(rt; fault.kind() == ErrorKind::BrokenPipe),
    }
    assert!(rt; writer.faults() == 1);
    assert!(rt; writer.into_inner().calls == 3);
    Ok(())
}

#[test]
fn counts_writes_of_nothing(rt: HostRuntime) -> Result<(), Fail> {
    let mut writer = failing_writer(rt.alloc(), 2, true);
    assert!(rt; writer.write(TEXT)? == 1);
    assert!(rt; writer.faults() == 0);
    assert!(rt; writer.write(TEXT)? == 0);
    assert!(rt; writer.faults() == 1);
    assert!(rt; writer.into_inner().calls == 2);
    Ok(())
}

/// Bytes, and what `read_stripped` gives of them: a comment with its line feeds, one with a `$`, one
/// that is never closed, one with a `$)` in a word, and one with a byte that may not stand there.
pub(crate) const STRIPPED: [(&[u8], &[u8]); 5] = [
    (
        b"$c a $. $( says a\n lot\n $) $v x $.",
        b"$c a $. $( \n\n$) $v x $.",
    ),
    (b"$( a $b\tc $) ", b"$( $) "),
    (b"$( is open", b"$( n"),
    (b"$( ab$) $)", b"$( b$) $)"),
    (b"a $( b \x01 c $)", b"a $( \x01 c $)"),
];

#[test]
fn leaves_out_what_comments_say(rt: HostRuntime) -> Result<(), Fail> {
    for (bytes, stripped) in STRIPPED {
        let mut reader = Counted::new(bytes);
        let read = read_stripped(rt.alloc(), &mut reader, 40)?;
        assert!(rt; read.bytes.as_slice() == stripped && read.count == bytes.len());
    }
    Ok(())
}

#[test]
fn refuses_stripped_bytes_over_the_limit(rt: HostRuntime) {
    let mut reader = Counted::new(b"$( $)".as_slice());
    let fault = read_stripped(rt.alloc(), &mut reader, 4).err();
    assert!(rt; fault == Some(LoadFault::TooLong) && reader.faults() == 0);
}
