//! Refused growths: of a device's bytes, of letters, and of a reader of statements.
//!
//! The tests whose names begin with `growths` meet lack of memory wherever it comes, look at what
//! it leaves, and go on. With ample memory they are runs of happy paths. `scripts/failing` runs
//! each of them with each of its requests for memory refused, one alone, in turn.

use crate::code::{CODES, LETTERS};
use crate::databases::DEMO_COMPRESSED;
use crate::load::{STRIPPED, failing_reader};
use mm_base::{File, Seed, Statement};
use mm_code::write_codes;
use mm_text::{LoadFault, Statements, StrippedBytes, TextFault, read_all, read_stripped};
use std::alloc::Global;
use std::test::Fail;

/// The demonstration database, with its theorem in a compressed proof.
const FILES: [File<'static>; 1] = [File {
    name: b"demo0c.mm",
    bytes: DEMO_COMPRESSED,
}];

/// How many statements it has.
const STATEMENTS: usize = 19;

/// A test passes where this holds.
fn expect(holds: bool, what: &'static str) -> Result<(), Fail> {
    if holds { Ok(()) } else { Err(Fail::from(what)) }
}

/// What a call answers that is asked once more. One growth alone is refused, so memory isn't
/// wanting again.
pub(crate) fn once_more<T, E: Drop>(answer: Result<T, E>) -> Result<T, Fail> {
    Ok(answer.ok().ok_or("refused after want of memory")?)
}

/// The bytes of the database, which come one by one: read once more where memory ran out the
/// first time.
fn read_on(alloc: Global) -> Result<Vec<u8>, Fail> {
    let text = DEMO_COMPRESSED;
    match read_all(alloc, &mut failing_reader(text, 0), text.len()) {
        Err(LoadFault::Memory) => {
            once_more(read_all(alloc, &mut failing_reader(text, 0), text.len()))
        }
        answer => Ok(answer?),
    }
}

#[test]
fn growths_of_read_all(rt: HostRuntime) -> Result<(), Fail> {
    expect(
        read_on(rt.alloc())?.as_slice() == DEMO_COMPRESSED,
        "other bytes",
    )
}

/// The bytes of a text, which come one by one, without what its comments say: read once more where
/// memory ran out the first time.
fn read_stripped_on(alloc: Global, text: &'static [u8]) -> Result<StrippedBytes, Fail> {
    match read_stripped(alloc, &mut failing_reader(text, 0), text.len()) {
        Err(LoadFault::Memory) => {
            once_more(read_stripped(alloc, &mut failing_reader(text, 0), text.len()))
        }
        answer => Ok(answer?),
    }
}

#[test]
fn growths_of_read_stripped(rt: HostRuntime) -> Result<(), Fail> {
    for (text, stripped) in STRIPPED {
        let read = read_stripped_on(rt.alloc(), text)?;
        let is_same = read.bytes.as_slice() == stripped && read.count == text.len();
        expect(is_same, "other stripped bytes")?;
    }
    Ok(())
}

/// The letters of the codes, written once more where memory ran out the first time.
fn write_on(alloc: Global) -> Result<Vec<u8>, Fail> {
    match write_codes(alloc, &CODES) {
        Ok(text) => Ok(text),
        Err(_) => once_more(write_codes(alloc, &CODES)),
    }
}

#[test]
fn growths_of_written_codes(rt: HostRuntime) -> Result<(), Fail> {
    expect(write_on(rt.alloc())?.as_slice() == LETTERS, "other letters")
}

/// Whether five more calls answer lack of memory.
fn answers_memory_again<'a>(statements: &mut Statements<'a>, into: &mut Statement<'a>) -> bool {
    for _ in 0..5 {
        if !matches!(statements.read(into), Err(TextFault::Memory)) {
            return false;
        }
    }
    true
}

/// Whether all the statements are read, or those up to lack of memory, which is then the answer for
/// good.
fn reads_on<'a>(statements: &mut Statements<'a>, into: &mut Statement<'a>) -> Result<bool, Fail> {
    for count in 0..30 {
        match statements.read(into) {
            Ok(true) => {}
            Ok(false) => return Ok(count == STATEMENTS),
            Err(TextFault::Memory) => return Ok(answers_memory_again(statements, into)),
            Err(_) => return Err(Fail::from("a fault of the text")),
        }
    }
    Err(Fail::from("too many statements"))
}

/// Whether the database is read so.
fn is_read(alloc: Global) -> Result<bool, Fail> {
    let mut statements = match Statements::new(alloc, Seed::known(), &FILES) {
        Ok(statements) => statements,
        Err(TextFault::Memory) => return Ok(true),
        Err(_) => return Err(Fail::from("a fault of the files")),
    };
    let mut statement = Statement::empty(alloc);
    let answer = reads_on(&mut statements, &mut statement);
    drop(statement);
    drop(statements);
    answer
}

#[test]
fn growths_of_a_reader(rt: HostRuntime) -> Result<(), Fail> {
    expect(is_read(rt.alloc())?, "another answer after want of memory")
}
