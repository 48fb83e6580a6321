//! The reply to `mm lemmas --all`.

ghost use Rattle.std.specs.Prelude.{◌≡◌, ◌++◌, List, [], map, length, nat_lt, None, Some, IfOk};
ghost use Rattle.mm_base.specs.Statement.{PlainStatement};
ghost use Rattle.mm_text.specs.Files.{plain_file};
ghost use Rattle.mm_text.specs.Reading.{Reads};
ghost use Rattle.mm_step.specs.declared.profile.Profile.TheVariants.{Lenient};
ghost use Rattle.mm_rules.specs.Answer.{verdict_of_conclusion, verdict_of_fault};
ghost use Rattle.mm_rules.specs.Status.{number_of};
ghost use Rattle.mm_rules.specs.Verdict.{HasVerdict, Verdict};
ghost use Rattle.mm_with_lemmas.specs.WithLemmas.{IsWithLemmas};
ghost use Rattle.mm_with_lemmas.specs.Reply.{IsFileAnswer, IsLemmaFileReply, IsRefusal, IsUnsure};
ghost use Rattle.mm_with_lemmas.specs.Reply.{cut_note, none_note, unsure_note};

use crate::judged::{JudgedFile, judged_lemma_file};
use mm_base::{File, Seed};
use mm_lemma_file::LemmaWish;
use mm_rules::{CheckFault, Status, bytes_of, name_of};
use mm_step::Profile;
use mm_verdict::{Checked, Reply, Watch, check_with, conclusion_status, fault_reply};
use std::alloc::{AllocError, Global};

/// A reply, and the notes beside it.
#[derive(Drop)]
pub struct LemmaReply {
    pub reply: Reply,
    /// Lines for standard error, or nothing.
    pub note: Vec<u8>,
}

/// What is noted of a file's bytes, as they were and as they are with lemmas.
fn note_of(alloc: Global, old: &[u8], new: &[u8], is_cut: bool) -> Result<Vec<u8>, AllocError>
    ensures { IfOk result (λ note. note.items
        ≡ none_note (nat_lt (length new.now) (length old.now)) ++ cut_note is_cut) }
{
    let mut note = Vec::new(alloc);
    let is_smaller = new.len() < old.len();
    if !is_smaller {
        note.extend_from_slice(b"mm: note: no lemma makes the file smaller\n")?;
    }
    if is_cut {
        note.extend_from_slice(b"mm: note: the search was broken off, as it took too long\n")?;
    }
    Ok(note)
}

/// The answer by the bytes of a file of the database, which are those with lemmas.
fn told_file(
    alloc: Global,
    checked: &Checked,
    number: usize,
    bytes: Vec<u8>,
    is_cut: bool,
) -> Result<LemmaReply, AllocError>
    requires { (statements : List PlainStatement) → Reads checked.now.files statements None
        → IsWithLemmas Lenient checked.now.files statements number bytes.items }
    ensures { IfOk result (λ told. (statements : List PlainStatement)
        → Reads checked.now.files statements None
        → HasVerdict Lenient checked.now.files (verdict_of_conclusion checked.now)
        → IsFileAnswer checked.now.files statements number
        told.reply.text.items (number_of told.reply.status) told.note.items) }
{
    match note_of(alloc, bytes_of(checked.files, number), &bytes, is_cut) {
        Ok(note) => Ok(LemmaReply {
            reply: Reply {
                text: bytes,
                status: conclusion_status(checked),
            },
            note,
        }),
        Err(error) => {
            drop(bytes);
            Err(error)
        }
    }
}

/// What is noted where nothing is known of the file that was made for the one with the name.
fn unsure_line(alloc: Global, name: &[u8]) -> Result<Vec<u8>, AllocError>
    ensures { IfOk result (λ note. note.items ≡ unsure_note name.now) }
{
    let mut note = Vec::new(alloc);
    note.extend_from_slice(b"mm: the file that was made may not stand for ")?;
    note.extend_from_slice(name)?;
    note.extend_from_slice(b"\n")?;
    Ok(note)
}

/// The answer where nothing is known of the file that was made.
fn unsure_reply(alloc: Global, files: &[File], number: usize) -> Result<LemmaReply, AllocError>
    ensures { IfOk result (λ told. IsUnsure (map plain_file files.now) number
        told.reply.text.items (number_of told.reply.status) told.note.items) }
{
    let note = unsure_line(alloc, name_of(files, number))?;
    Ok(LemmaReply {
        reply: Reply {
            text: Vec::new(alloc),
            status: Status::Stopped,
        },
        note,
    })
}

/// The answer of a database in which nothing is at fault.
fn answer_over<W: Watch>(
    alloc: Global,
    checked: &Checked,
    wish: LemmaWish,
    watch: &mut W,
) -> Result<LemmaReply, AllocError>
    ensures { IfOk result (λ told. (statements : List PlainStatement)
        → Reads checked.now.files statements None
        → HasVerdict Lenient checked.now.files (verdict_of_conclusion checked.now)
        → IsFileAnswer checked.now.files statements wish.entry.number
        told.reply.text.items (number_of told.reply.status) told.note.items) }
{
    let JudgedFile { bytes, is_cut } = judged_lemma_file(alloc, checked, wish, watch)?;
    match bytes {
        Some(bytes) => told_file(alloc, checked, wish.number, bytes, is_cut),
        None => unsure_reply(alloc, checked.files, wish.number),
    }
}

/// The reply where the files are refused.
fn refused_reply(
    alloc: Global,
    files: &[File],
    fault: &CheckFault,
) -> Result<LemmaReply, AllocError>
    requires { (verdict : Verdict) → verdict_of_fault fault.now ≡ Some verdict
        → HasVerdict Lenient (map plain_file files.now) verdict }
    ensures { IfOk result (λ told. IsRefusal (map plain_file files.now) told.reply.text.items
        (number_of told.reply.status) × (told.note.items ≡ [])) }
{
    let reply = fault_reply(alloc, files, fault)?;
    Ok(LemmaReply {
        reply,
        note: Vec::new(alloc),
    })
}

/// The reply for a file with lemmas, and the notes beside it. Where the lenient profile refuses the
/// files, it is that of `check`. Else it is the bytes of the file with lemmas, with the status of
/// the verdict: those that a search finds, as far as they are chosen and pay, and it may be the file
/// as it is; where what was made isn't known to be such a file, nothing, with status 4. The watch is
/// told how far the search has come.
///
/// # Errors
///
/// A refused growth.
pub fn lemma_file_reply<W: Watch>(
    alloc: Global,
    seed: Seed,
    files: &[File],
    wish: LemmaWish,
    watch: &mut W,
) -> Result<LemmaReply, AllocError>
    ensures { IfOk result (λ told. IsLemmaFileReply (map plain_file files.now) wish.entry.number
        told.reply.text.items (number_of told.reply.status) told.note.items) }
{
    match check_with(alloc, seed, Profile::Lenient, files) {
        Ok(checked) => {
            let told = answer_over(alloc, &checked, wish, watch);
            drop(checked);
            told
        }
        Err(fault) => refused_reply(alloc, files, &fault),
    }
}
