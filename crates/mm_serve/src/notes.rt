//! The notes on files that were handed in and not included.

ghost use Rattle.std.specs.Prelude.{◌≡◌, ◌++◌, map, IfOk, OnOk};
ghost use Rattle.mm_text.specs.Files.{plain_file};
ghost use Rattle.mm_serve.specs.Notes.{AreLeftOut, AreNotesOn, count_note, more_note, note_of};

use itoa::Buffer;
use mm_base::{File, Seed};
use mm_text::left_out;
use std::alloc::{AllocError, Global};

/// How many files have a line of their own.
const NAMED: usize = 3;

/// Appends the line on a file that wasn't included.
fn push_note(notes: &mut Vec<u8>, name: &[u8]) -> Result<(), AllocError>
    ensures { OnOk result (notes.new.items ≡ notes.old.items ++ note_of name.now) }
{
    notes.extend_from_slice(b"mm: note: ")?;
    notes.extend_from_slice(name)?;
    notes.extend_from_slice(b" was not included, so nothing in it was checked\n")
}

/// Appends the line on so many more files.
fn push_more(notes: &mut Vec<u8>, count: usize) -> Result<(), AllocError>
    ensures { OnOk result (notes.new.items ≡ notes.old.items ++ more_note count) }
{
    let mut digits = Buffer::new();
    notes.extend_from_slice(b"mm: note: ")?;
    notes.extend_from_slice(digits.format(count).as_bytes())?;
    notes.extend_from_slice(b" more files were not included\n")
}

/// Appends the line on how many more files there are, where there are more.
fn push_count(notes: &mut Vec<u8>, count: usize) -> Result<(), AllocError>
    ensures { OnOk result (notes.new.items ≡ notes.old.items ++ count_note count) }
{
    match count {
        0 => Ok(()),
        1 => notes.extend_from_slice(b"mm: note: 1 more file was not included\n"),
        _ => push_more(notes, count),
    }
}

/// The names of the files that weren't included, in their order.
fn names_left_out<'f>(
    alloc: Global,
    seed: Seed,
    files: &[File<'f>],
) -> Result<Vec<&'f [u8]>, AllocError>
    ensures { IfOk result (λ names. AreLeftOut (map plain_file files.now)
        (map (λ name. name.now) names.items)) }
{
    let numbers = left_out(alloc, seed, files)?;
    let mut names = Vec::new(alloc);
    for number in &numbers {
        names.push(files[*number].name)?;
    }
    Ok(names)
}

/// The notes on the files that weren't included.
pub(crate) fn notes_on(alloc: Global, seed: Seed, files: &[File]) -> Result<Vec<u8>, AllocError>
    ensures { IfOk result (λ notes. AreNotesOn (map plain_file files.now) notes.items) }
{
    let names = names_left_out(alloc, seed, files)?;
    let mut notes = Vec::new(alloc);
    for name in &names[..names.len().min(NAMED)] {
        push_note(&mut notes, name)?;
    }
    push_count(&mut notes, names.len().saturating_sub(NAMED))?;
    Ok(notes)
}
