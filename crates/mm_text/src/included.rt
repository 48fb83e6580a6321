//! Which of the handed files no inclusion names, so that they are left out.

ghost use Rattle.std.specs.Prelude.{◌≡◌, ◌≤◌, length, map, [], IfOk, IsOk};
ghost use Rattle.mm_text.specs.declared.fault.LoadRule.{LoadRule};
ghost use Rattle.mm_text.specs.Files.{plain_file, BreaksLoad};
ghost use Rattle.mm_text.specs.Included.{left_out};
ghost use Rattle.mm_text.specs.Mirror.Included.{AreOfFiles, met_with, unmet};

use crate::class::Class;
use crate::cursor::Cursor;
use crate::fault::TextFault;
use crate::next::Next;
use mm_base::{File, Seed};
use std::alloc::{AllocError, Global};

/// Consumes the next run of plain words and marks their files as seen.
fn meet_words(cursor: &mut Cursor, met: &mut [bool])
    requires { AreOfFiles (length met.old) cursor.old }
    ensures same { met_with met.new cursor.new ≡ met_with met.old cursor.old }
    ensures files { AreOfFiles (length met.new) cursor.new }
    ensures fewer { length cursor.new ≤ length cursor.old }
{
    while let Some(word) = cursor.word() {
        met[word.file] = true;
    }
}

/// Takes the items that are left, to the end or to the first fault, and notes their files as met.
fn meet_items(cursor: &mut Cursor, met: &mut [bool])
    requires { AreOfFiles (length met.old) cursor.old }
    ensures { met.new ≡ met_with met.old cursor.old }
{
    loop {
        meet_words(cursor, met);
        let file = match cursor.next() {
            Next::Token(token, Class::Wrong(_)) => {
                met[token.file] = true;
                return;
            }
            Next::Token(token, _) | Next::Inclusion(token) => token.file,
            Next::End(file) => file,
            Next::Nothing => return,
        };
        met[file] = true;
    }
}

/// The numbers of the files that weren't met.
fn unmet(alloc: Global, met: &[bool]) -> Result<Vec<usize>, AllocError>
    ensures { IfOk result (λ numbers. numbers.items ≡ unmet met.now) }
{
    (0..met.len()).filter(|number| !met[*number]).collect(alloc)
}

/// The numbers of the handed files that nothing includes up to the first fault of the rules X1 to
/// X5, X7 and X9, in rising order; nothing where the files can't be taken as a whole.
///
/// A file is included where its name stands between a `$[` and a `$]` in a file that is read.
/// Faults of statements and proofs are passed over. The first file is the top file, which is read
/// in any case. Of more than one file, memory is wanted for what the reader keeps, a flag for each
/// file, and the list.
pub fn left_out(alloc: Global, seed: Seed, files: &[File]) -> Result<Vec<usize>, AllocError>
    ensures whole { ((rule : LoadRule) → ¬ (BreaksLoad (map plain_file files.now) rule))
        → IfOk result (λ numbers. numbers.items ≡ left_out (map plain_file files.now)) }
    ensures broken { (rule : LoadRule) → BreaksLoad (map plain_file files.now) rule
        → IfOk result (λ numbers. numbers.items ≡ []) }
    // Of a file alone, and of none, nothing is kept: so no lack of memory is reported.
    ensures lone { length files.now ≤ 1 → IsOk result }
{
    if files.len() <= 1 {
        return Ok(Vec::new(alloc));
    }
    let mut cursor = match Cursor::new(alloc, seed, files) {
        Ok(cursor) => cursor,
        Err(TextFault::Load(_)) => return Ok(Vec::new(alloc)),
        Err(TextFault::Memory) => return Err(AllocError),
        // No fault of the text comes before a token is read.
        Err(TextFault::Fault { .. }) => unreachable!(),
    };
    let mut met = vec![in alloc; false; files.len()]?;
    meet_items(&mut cursor, &mut met);
    unmet(alloc, &met)
}
