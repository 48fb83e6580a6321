//! Whether a file has lemmas and new proofs that may stand there.

ghost use Rattle.std.specs.Prelude.{◌≡◌, List, map, None, Some, IfOk, IsTrue, slice_get};
ghost use Rattle.mm_base.specs.Statement.{PlainStatement};
ghost use Rattle.mm_text.specs.Files.{PlainFile, plain_file};
ghost use Rattle.mm_text.specs.Reading.{Reads};
ghost use Rattle.mm_with_lemmas.specs.Mirror.Editing.{ArePut, lone_file, put_statements};
ghost use Rattle.mm_with_lemmas.specs.Mirror.Walking.{AreParts, HoldsLemmas};

use crate::change::Change;
use crate::edited::are_edited;
use crate::lone::{Put, lone_files, read_texts};
use crate::replaced::proofs_stand;
use crate::walk::{Sides, Walk};
use mm_base::File;
use mm_proof::StepsReader;
use mm_text::Statements;
use mm_verdict::Checked;
use std::alloc::{AllocError, Global};

/// Whether the statements of a database are those of another one in their order, but for proofs,
/// and these that are put into the file with the number, each where it may stand.
fn are_parts(
    alloc: Global,
    old: &Checked,
    new: &Checked,
    number: usize,
    put: &[Put],
) -> Result<bool, AllocError>
    ensures { IfOk result (λ are. IsTrue are → (statements others : List PlainStatement)
        → Reads old.now.files statements None → Reads new.now.files others None
        → AreParts old.now.files new.now.files statements others (put_statements put.now)) }
{
    let files = old.files;
    let new_files = new.files;
    let left = Statements::of_readable(alloc, old.book.seed(), files)?;
    let mut statements = Statements::of_readable(alloc, new.book.seed(), new_files)?;
    let mut reader = StepsReader::new(alloc);
    let mut walk = Walk::new(alloc, left);
    let sides = Sides {
        files,
        anew: new_files,
        book: &new.book,
        put,
        number,
    };
    walk.goes_over_all(alloc, &sides, &mut reader, &mut statements)
}

/// Whether the statements of a database are those of another one in their order, but for proofs,
/// and what these changes put into the file with the number, where each of the texts has the file
/// of its own.
fn are_parts_with<'t>(
    alloc: Global,
    old: &Checked,
    new: &Checked,
    number: usize,
    changes: &[Change],
    lone: &'t [File<'t>],
) -> Result<bool, AllocError>
    requires { map plain_file lone.now ≡ map lone_file changes.now }
    ensures { IfOk result (λ are. IsTrue are → (statements others : List PlainStatement)
        → Reads old.now.files statements None → Reads new.now.files others None
        → (put : List PlainStatement) × ArePut changes.now put
        × AreParts old.now.files new.now.files statements others put) }
{
    match read_texts(alloc, new.book.seed(), changes, lone)? {
        Some(put) => {
            let are = are_parts(alloc, old, new, number, &put);
            drop(put);
            are
        }
        None => Ok(false),
    }
}

/// Whether the database `new` has, in the file with the number, lemmas and new proofs that may
/// stand there, beside the database `old` as it was. What was changed in the file is given, in the
/// order of its places, and its bytes.
///
/// # Errors
///
/// Only where a growth was refused.
pub(crate) fn holds_lemmas(
    alloc: Global,
    old: &Checked,
    new: &Checked,
    number: usize,
    changes: &[Change],
    bytes: &[u8],
) -> Result<bool, AllocError>
    ensures { IfOk result (λ holds. IsTrue holds → (statements others : List PlainStatement)
        → Reads old.now.files statements None → Reads new.now.files others None
        → (file : PlainFile) × (slice_get old.now.files number ≡ Some file)
        × HoldsLemmas old.now.files new.now.files statements others number file.bytes bytes.now) }
{
    let Some(file) = old.files.get(number) else {
        return Ok(false);
    };
    if !are_edited(file.bytes, changes, bytes) {
        return Ok(false);
    }
    if !proofs_stand(alloc, old, number, changes)? {
        return Ok(false);
    }
    let lone = lone_files(alloc, changes)?;
    let are = are_parts_with(alloc, old, new, number, changes, &lone);
    drop(lone);
    are
}
