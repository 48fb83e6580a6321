//! What the texts that are put in hold, each read by itself.

ghost use Rattle.std.specs.Prelude.{◌≡◌, ◌++◌, ◌∷◌, [], List, map, None, IfOk, IfSome, IsTrue};
ghost use Rattle.mm_base.specs.Statement.{PlainStatement};
ghost use Rattle.mm_text.specs.Files.{plain_file};
ghost use Rattle.mm_text.specs.Reading.{Reads};
ghost use Rattle.mm_with_lemmas.specs.Mirror.Editing.{ArePut, PutsLone, PutsMore, lone_file};
ghost use Rattle.mm_with_lemmas.specs.Mirror.Editing.{put_statements};

use crate::change::Change;
use mm_base::{File, Seed, Statement};
use mm_text::{Statements, TextFault};
use std::alloc::{AllocError, Global};
use std::slice;

/// A statement that is put in.
#[derive(Drop)]
pub(crate) struct Put<'t> {
    /// Where it begins in the new bytes. This is a hint: nothing that is answered depends on it.
    pub(crate) at: usize,
    /// It, as it is read in its text alone.
    pub(crate) statement: Statement<'t>,
}

/// The texts of the changes, each as a file of its own without a name.
pub(crate) fn lone_files<'t>(
    alloc: Global,
    changes: &[Change<'t>],
) -> Result<Vec<File<'t>>, AllocError>
    ensures { IfOk result (λ files. map plain_file files.items ≡ map lone_file changes.now) }
{
    let mut files = Vec::new(alloc);
    for change in changes {
        files.push(File {
            name: &[],
            bytes: change.text(),
        })?;
    }
    Ok(files)
}

/// Appends the statements that are left, and tells whether the text has no fault.
fn push_rest<'t>(
    alloc: Global,
    statements: &mut Statements<'t>,
    start: usize,
    put: &mut Vec<Put<'t>>,
) -> Result<bool, AllocError>
    ensures { IfOk result (λ whole. IsTrue whole → (statements.old.ending ≡ None)
        × (put_statements put.new.items
        ≡ put_statements put.old.items ++ statements.old.statements)) }
{
    loop {
        let mut statement = Statement::empty(alloc);
        match statements.read(&mut statement) {
            Ok(true) => {
                let at = start.saturating_add(statement.first.at as usize);
                put.push(Put { at, statement })?;
            }
            Ok(false) => return Ok(true),
            Err(TextFault::Memory) => return Err(AllocError),
            Err(_) => return Ok(false),
        }
    }
}

/// Appends the statements of a file that is read alone, and tells whether it has no fault.
fn push_lone<'t>(
    alloc: Global,
    seed: Seed,
    file: &'t File<'t>,
    start: usize,
    put: &mut Vec<Put<'t>>,
) -> Result<bool, AllocError>
    ensures { IfOk result (λ whole. IsTrue whole → (lemmas : List PlainStatement)
        × Reads (plain_file file.now ∷ []) lemmas None
        × (put_statements put.new.items ≡ put_statements put.old.items ++ lemmas)) }
{
    match Statements::new(alloc, seed, slice::from_ref(file)) {
        Ok(mut statements) => push_rest(alloc, &mut statements, start, put),
        Err(TextFault::Memory) => Err(AllocError),
        Err(_) => Ok(false),
    }
}

/// Appends the statements of a file that is read alone, and tells whether it has one at least and
/// no fault.
fn push_some<'t>(
    alloc: Global,
    seed: Seed,
    file: &'t File<'t>,
    start: usize,
    put: &mut Vec<Put<'t>>,
) -> Result<bool, AllocError>
    ensures { IfOk result (λ whole. IsTrue whole → PutsLone (plain_file file.now)
        (put_statements put.old.items) (put_statements put.new.items)) }
{
    let before = put.len();
    if !push_lone(alloc, seed, file, start, put)? {
        return Ok(false);
    }
    Ok(before < put.len())
}

/// How far changes have come: a position in the old bytes, and where it is in the new ones.
#[derive(Clone, Copy)]
struct Shift {
    old: usize,
    new: usize,
}

impl Shift {
    /// Where the text of the next change begins in the new bytes.
    fn start_of(self, change: &Change) -> usize {
        let (start, _) = change.span();
        let kept = (start as usize).saturating_sub(self.old);
        self.new.saturating_add(kept)
    }

    /// The ends of the next change, whose text begins there.
    fn past(change: &Change, start: usize) -> Shift {
        let (_, stop) = change.span();
        Shift {
            old: stop as usize,
            new: start.saturating_add(change.text().len()),
        }
    }
}

/// Appends what a change puts in, where its text, which the file has alone, holds something and has
/// no fault.
fn push_change<'t>(
    alloc: Global,
    seed: Seed,
    change: &Change,
    file: &'t File<'t>,
    start: usize,
    put: &mut Vec<Put<'t>>,
) -> Result<bool, AllocError>
    requires { plain_file file.now ≡ lone_file change.now }
    ensures { IfOk result (λ whole. IsTrue whole → PutsMore change.now
        (put_statements put.old.items) (put_statements put.new.items)) }
{
    match change {
        Change::Proof { .. } => Ok(true),
        Change::Lemmas { .. } => push_some(alloc, seed, file, start, put),
    }
}

/// Appends the statements that the changes put in, where each of their texts, which the files have
/// alone, holds something and has no fault.
fn push_changes<'t>(
    alloc: Global,
    seed: Seed,
    changes: &[Change],
    files: &'t [File<'t>],
    put: &mut Vec<Put<'t>>,
) -> Result<bool, AllocError>
    requires files { map plain_file files.now ≡ map lone_file changes.now }
    requires none { put.old.items ≡ [] }
    ensures { IfOk result (λ whole. IsTrue whole
        → ArePut changes.now (put_statements put.new.items)) }
{
    let mut shift = Shift { old: 0, new: 0 };
    for (index, change) in changes.iter().enumerate() {
        let start = shift.start_of(change);
        if !push_change(alloc, seed, change, &files[index], start, put)? {
            return Ok(false);
        }
        shift = Shift::past(change, start);
    }
    Ok(true)
}

/// The statements that the changes put in, in their order, each text read by itself; none where
/// one of these texts has a fault, or holds none.
pub(crate) fn read_texts<'t>(
    alloc: Global,
    seed: Seed,
    changes: &[Change],
    files: &'t [File<'t>],
) -> Result<Option<Vec<Put<'t>>>, AllocError>
    requires { map plain_file files.now ≡ map lone_file changes.now }
    ensures { IfOk result (λ found. IfSome found (λ put.
        ArePut changes.now (put_statements put.items))) }
{
    let mut put = Vec::new(alloc);
    let whole = push_changes(alloc, seed, changes, files, &mut put);
    match whole {
        Ok(true) => Ok(Some(put)),
        Ok(false) => {
            drop(put);
            Ok(None)
        }
        Err(fault) => {
            drop(put);
            Err(fault)
        }
    }
}
