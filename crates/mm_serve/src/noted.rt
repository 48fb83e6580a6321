//! What is told with a note of its own: what mends a proof, and a file with lemmas.

ghost use Rattle.std.specs.Prelude.{◌≡◌, ◌++◌, List, ℕ, map, option_map, None, Some, IfOk};
ghost use Rattle.mm_text.specs.Files.{plain_file};
ghost use Rattle.mm_rules.specs.Status.{number_of};
ghost use Rattle.mm_mend.specs.Reply.{IsMendReply};
ghost use Rattle.mm_with_lemmas.specs.Reply.{IsLemmaFileReply};
ghost use Rattle.mm_serve.specs.Ending.{StaysUnshown};
ghost use Rattle.mm_serve.specs.Noted.{IsNotedOutcome, label_in, names_in, request_in};
ghost use Rattle.mm_serve.specs.Notes.{AreNotesBeside};

use crate::folder::Resources;
use crate::label_note::notes_beside;
use crate::progress_line::ProgressLine;
use crate::search_note::CHECK;
use mm_base::File;
use mm_check::Command;
use mm_lemma_file::LemmaWish;
use mm_lemmas::Selection;
use mm_mend::mend_reply;
use mm_verdict::{Reply, Unwatched};
use mm_with_lemmas::{LemmaReply, lemma_file_reply};
use mm_words::{AskedLemmas, AskedMend};
use std::alloc::AllocError;
use std::io::Write;

/// What is asked.
#[derive(Clone, Copy)]
pub(crate) enum Wanted<'n, 'a> {
    /// What mends a proof.
    Mend(&'n AskedMend<'a>),
    /// For a file with lemmas.
    LemmaFile(&'n AskedLemmas<'a>),
}

/// A reply, and notes beside it.
#[derive(Drop)]
pub(crate) struct NotedReply {
    pub(crate) reply: Reply,
    pub(crate) notes: Vec<u8>,
}

impl<'n, 'a> Wanted<'n, 'a> {
    /// The label about which it is asked, if one is.
    pub(crate) fn label(self) -> Option<&'a [u8]>
        ensures { option_map (λ label. label.now) result ≡ label_in (request_in self.entry) }
    {
        match self {
            Wanted::Mend(asked) => Some(asked.label.as_bytes()),
            Wanted::LemmaFile(_) => None,
        }
    }

    /// The names of the files.
    pub(crate) fn names(self) -> &'n [&'a str]
        ensures { map (λ name. name.now) result.now ≡ names_in (request_in self.entry) }
    {
        match self {
            Wanted::Mend(asked) => &asked.names,
            Wanted::LemmaFile(asked) => &asked.names,
        }
    }
}

/// How a file with lemmas is made.
fn wish_of<'w>(asked: &'w AskedLemmas<'_>) -> LemmaWish<'w>
    ensures { result.number ≡ asked.now.file }
{
    LemmaWish {
        number: asked.file,
        selection: Selection {
            most: asked.most,
            least: asked.least,
        },
        chosen: &asked.chosen,
        prefix: asked.prefix.as_bytes(),
        comment: match asked.comment {
            Some(text) => Some(text.as_bytes()),
            None => None,
        },
    }
}

/// The file with lemmas. Where progress is shown, it tells how far the search for them has come.
fn watched_lemmas<P: Write>(
    resources: Resources,
    files: &[File],
    asked: &AskedLemmas,
    progress: &mut ProgressLine<P>,
) -> Result<LemmaReply, AllocError>
    ensures reply { IfOk result (λ told. IsLemmaFileReply (map plain_file files.now)
        asked.now.file told.reply.text.items (number_of told.reply.status) told.note.items) }
    ensures unshown { StaysUnshown progress.old progress.new }
{
    let Resources { alloc, seed } = resources;
    let wish = wish_of(asked);
    if !progress.is_shown() {
        return lemma_file_reply(alloc, seed, files, wish, &mut Unwatched);
    }
    let told = lemma_file_reply(alloc, seed, files, wish, progress);
    progress.end();
    told
}

/// The file with lemmas, and all notes: those on the files, and then those on it.
fn noted_lemmas<P: Write>(
    resources: Resources,
    files: &[File],
    asked: &AskedLemmas,
    progress: &mut ProgressLine<P>,
) -> Result<NotedReply, AllocError>
    ensures told { IfOk result (λ told. (beside note : List ℕ)
        × IsLemmaFileReply (map plain_file files.now) asked.now.file told.reply.text.items
        (number_of told.reply.status) note
        × AreNotesBeside (map plain_file files.now) None told.reply.text.items beside
        × (told.notes.items ≡ beside ++ note)) }
    ensures unshown { StaysUnshown progress.old progress.new }
{
    let told = watched_lemmas(resources, files, asked, progress)?;
    let Resources { alloc, seed } = resources;
    let mut notes = notes_beside(alloc, seed, files, &CHECK, &told.reply.text)?;
    notes.extend_from_slice(&told.note)?;
    let reply = told.reply;
    Ok(NotedReply { reply, notes })
}

/// What mends the proof of the theorem with a label, and all notes: those on the files and on the
/// label, and then the one on the search.
fn noted_mends(resources: Resources, files: &[File], label: &[u8]) -> Result<NotedReply, AllocError>
    ensures { IfOk result (λ mended. (beside note : List ℕ)
        × IsMendReply (map plain_file files.now) label.now mended.reply.text.items
        (number_of mended.reply.status) note
        × AreNotesBeside (map plain_file files.now) (Some label.now) mended.reply.text.items beside
        × (mended.notes.items ≡ beside ++ note)) }
{
    let Resources { alloc, seed } = resources;
    let mended = mend_reply(alloc, seed, files, label)?;
    let asked = Command::Statement {
        label,
        comment: false,
    };
    let mut notes = notes_beside(alloc, seed, files, &asked, &mended.reply.text)?;
    notes.extend_from_slice(&mended.note)?;
    let reply = mended.reply;
    Ok(NotedReply { reply, notes })
}

/// The reply, and all notes: those on the files and on the label, and then its own.
pub(crate) fn noted<P: Write>(
    resources: Resources,
    files: &[File],
    asked: Wanted,
    progress: &mut ProgressLine<P>,
) -> Result<NotedReply, AllocError>
    ensures told { IfOk result (λ told. IsNotedOutcome (request_in asked.entry)
        (map plain_file files.now) told.reply.text.items (record {
          status = number_of told.reply.status;
          notes = told.notes.items;
        })) }
    ensures unshown { StaysUnshown progress.old progress.new }
{
    match asked {
        Wanted::Mend(asked) => noted_mends(resources, files, asked.label.as_bytes()),
        Wanted::LemmaFile(asked) => noted_lemmas(resources, files, asked, progress),
    }
}
