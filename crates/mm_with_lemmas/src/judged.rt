//! The file with lemmas that was made for a database, if it is known to be one.

ghost use Rattle.std.specs.Prelude.{◌≡◌, List, map, None, IfOk, IfSome, IsTrue};
ghost use Rattle.mm_base.specs.Statement.{PlainStatement};
ghost use Rattle.mm_text.specs.Files.{plain_file};
ghost use Rattle.mm_text.specs.Reading.{Reads};
ghost use Rattle.mm_text.specs.Replaced.{with_bytes};
ghost use Rattle.mm_step.specs.declared.profile.Profile.TheVariants.{Lenient};
ghost use Rattle.mm_rules.specs.Verdict.{AreAccepted};
ghost use Rattle.mm_with_lemmas.specs.WithLemmas.{IsWithLemmas};

use crate::change::Change;
use crate::founded::are_founded;
use crate::holds::holds_lemmas;
use crate::remarked::are_remarks_kept;
use crate::uses::are_uses_heeded;
use mm_base::File;
use mm_lemma_file::{Edit, LemmaFile, LemmaWish, lemma_file};
use mm_minimize::remarks_of;
use mm_rules::{AskFault, CheckFault};
use mm_step::Profile;
use mm_verdict::{Checked, Watch, check_with};
use std::alloc::{AllocError, Global};

/// A file with lemmas that was made, and is judged.
#[derive(Drop)]
pub struct JudgedFile {
    /// Its bytes; none where they aren't known to be those of such a file.
    pub bytes: Option<Vec<u8>>,
    /// Whether the search was broken off, as it took too long.
    pub is_cut: bool,
}

/// What was written, for the judge.
fn change_of(edit: &Edit) -> Change<'_> {
    let (at, _) = edit.span;
    if edit.is_proof {
        Change::Proof {
            span: edit.span,
            text: &edit.text,
        }
    } else {
        Change::Lemmas {
            at,
            text: &edit.text,
        }
    }
}

/// All that was written, for the judge.
fn changes_of<'e>(alloc: Global, edits: &'e [Edit]) -> Result<Vec<Change<'e>>, AllocError> {
    let mut changes = Vec::with_capacity(alloc, edits.len())?;
    for edit in edits {
        changes.push(change_of(edit))?;
    }
    Ok(changes)
}

/// The files with these bytes in the one with the number.
fn files_with<'f>(
    alloc: Global,
    files: &[File<'f>],
    number: usize,
    bytes: &'f [u8],
) -> Result<Vec<File<'f>>, AllocError>
    ensures { IfOk result (λ anew. map plain_file anew.items
        ≡ with_bytes (map plain_file files.now) number bytes.now) }
{
    let mut anew = Vec::from_slice(alloc, files)?;
    if files.len() <= number {
        return Ok(anew);
    }
    let name = files[number].name;
    anew[number] = File { name, bytes };
    Ok(anew)
}

/// Whether the database `new`, whose files are those of `old` with these bytes in the one with the
/// number, has lemmas there by which nothing that was there says or rests on anything else, and by
/// which nothing else is said of it.
fn is_whole(
    alloc: Global,
    old: &Checked,
    new: &Checked,
    number: usize,
    changes: &[Change],
    bytes: &[u8],
) -> Result<bool, AllocError>
    requires accepted { (others : List PlainStatement)
        × AreAccepted Lenient (with_bytes old.now.files number bytes.now) others }
    requires files { new.now.files ≡ with_bytes old.now.files number bytes.now }
    ensures { IfOk result (λ is. IsTrue is → (statements : List PlainStatement)
        → Reads old.now.files statements None
        → IsWithLemmas Lenient old.now.files statements number bytes.now) }
{
    if !holds_lemmas(alloc, old, new, number, changes, bytes)? {
        return Ok(false);
    }
    let remarks = remarks_of(alloc, new)?;
    if !are_remarks_kept(alloc, old, new, &remarks)? {
        return Ok(false);
    }
    if !are_uses_heeded(alloc, old, new, &remarks)? {
        return Ok(false);
    }
    drop(remarks);
    are_founded(alloc, old, new)
}

/// Whether these files, which are those of the database with these bytes in the one with the number,
/// are accepted, and have lemmas there.
fn are_with_lemmas(
    alloc: Global,
    old: &Checked,
    files: &[File],
    number: usize,
    changes: &[Change],
    bytes: &[u8],
) -> Result<bool, AllocError>
    requires { map plain_file files.now ≡ with_bytes old.now.files number bytes.now }
    ensures { IfOk result (λ are. IsTrue are → (statements : List PlainStatement)
        → Reads old.now.files statements None
        → IsWithLemmas Lenient old.now.files statements number bytes.now) }
{
    match check_with(alloc, old.book.seed(), Profile::Lenient, files) {
        Ok(new) => {
            let is = is_whole(alloc, old, &new, number, changes, bytes);
            drop(new);
            is
        }
        Err(CheckFault::Memory) => Err(AllocError),
        Err(_) => Ok(false),
    }
}

/// Whether these are bytes of a file of the database into which lemmas are put, so written.
fn is_with_lemmas(
    alloc: Global,
    old: &Checked,
    number: usize,
    edits: &[Edit],
    bytes: &[u8],
) -> Result<bool, AllocError>
    ensures { IfOk result (λ is. IsTrue is → (statements : List PlainStatement)
        → Reads old.now.files statements None
        → IsWithLemmas Lenient old.now.files statements number bytes.now) }
{
    let changes = changes_of(alloc, edits)?;
    let anew = files_with(alloc, old.files, number, bytes)?;
    are_with_lemmas(alloc, old, &anew, number, &changes, bytes)
}

/// A file with lemmas. Nothing is known of it.
fn made_file<W: Watch>(
    alloc: Global,
    checked: &Checked,
    wish: LemmaWish,
    watch: &mut W,
) -> Result<LemmaFile, AllocError> {
    match lemma_file(alloc, checked, wish, watch) {
        Ok(made) => Ok(made),
        Err(AskFault::Memory) => Err(AllocError),
        // Nothing but lack of memory keeps the file from being made.
        Err(_) => unreachable!(),
    }
}

/// The bytes of a file of a database with the lemmas put in that a search finds, as far as they are
/// chosen and pay: given only if they are shown to be such a file. The watch is told how far the
/// search has come.
///
/// # Errors
///
/// Only where a growth was refused.
pub fn judged_lemma_file<W: Watch>(
    alloc: Global,
    checked: &Checked,
    wish: LemmaWish,
    watch: &mut W,
) -> Result<JudgedFile, AllocError>
    ensures { IfOk result (λ judged. IfSome judged.bytes (λ bytes. (statements : List PlainStatement)
        → Reads checked.now.files statements None
        → IsWithLemmas Lenient checked.now.files statements wish.entry.number bytes.items)) }
{
    let LemmaFile {
        edits,
        bytes,
        is_cut,
    } = made_file(alloc, checked, wish, watch)?;
    let is = is_with_lemmas(alloc, checked, wish.number, &edits, &bytes);
    drop(edits);
    if is? {
        return Ok(JudgedFile {
            bytes: Some(bytes),
            is_cut,
        });
    }
    drop(bytes);
    Ok(JudgedFile {
        bytes: None,
        is_cut,
    })
}
