//! Two versions of a database: their files, and what changed from the one to the other.

ghost use Rattle.std.specs.Prelude.{List, map, IfOk, IfErr};
ghost use Rattle.std.specs.List.{AllZip};
ghost use Rattle.mm_text.specs.Files.{PlainFile, plain_file};
ghost use Rattle.mm_rules.specs.Status.{number_of};
ghost use Rattle.mm_step.specs.declared.profile.Profile.TheVariants.{Lenient};
ghost use Rattle.mm_diff.specs.Reply.{IsDiffReply};
ghost use Rattle.mm_serve.specs.Folder.{plain_read};
ghost use Rattle.mm_serve.specs.ReadFiles.{IsReadAs};
ghost use Rattle.mm_serve.specs.Versions.{AreNotesOnBoth, AreTaken, IsVersionFault};

use crate::files::{Comments, FileFault, ReadFile, read_files};
use crate::folder::{Folder, Resources};
use crate::notes::notes_on;
use mm_base::File;
use mm_diff::diff_reply;
use mm_step::Profile;
use mm_verdict::Reply;
use mm_words::AskedVersions;
use std::alloc::{AllocError, Global};

/// The files of two versions.
#[derive(Drop)]
pub(crate) struct Versions<'a> {
    pub(crate) old: Vec<ReadFile<'a>>,
    pub(crate) new: Vec<ReadFile<'a>>,
}

/// What is told of two versions, and the notes on files of theirs that weren't included.
#[derive(Drop)]
pub(crate) struct Compared {
    pub(crate) reply: Reply,
    pub(crate) notes: Vec<u8>,
}

/// Reads the files of both versions, those of the old one first. Those of each may hold at most
/// `max` bytes in all.
///
/// # Errors
///
/// As for `read_files`.
pub(crate) fn read_versions<'a, F: Folder>(
    alloc: Global,
    folder: &F,
    asked: &AskedVersions<'a>,
    max: usize,
    comments: Comments,
) -> Result<Versions<'a>, FileFault<'a>>
    ensures read { IfOk result (λ versions. (before after : List PlainFile)
        × AreTaken (F.holds folder.now) (map (λ n. n.now) asked.now.old.now) max before
        × AreTaken (F.holds folder.now) (map (λ n. n.now) asked.now.new.now) max after
        × AllZip (IsReadAs comments) before (map plain_read versions.old.items)
        × AllZip (IsReadAs comments) after (map plain_read versions.new.items)) }
    ensures fault { IfErr result (IsVersionFault (F.holds folder.now) (F.may_fail folder.now)
        (map (λ n. n.now) asked.now.old.now) (map (λ n. n.now) asked.now.new.now) max) }
{
    let old = read_files(alloc, folder, asked.old, max, comments)?;
    let new = read_files(alloc, folder, asked.new, max, comments)?;
    Ok(Versions { old, new })
}

/// What changed between two versions, and the notes on files of theirs that weren't included, those
/// of the old one first.
pub(crate) fn compared_versions(
    resources: Resources,
    old: &[File],
    new: &[File],
) -> Result<Compared, AllocError>
    ensures reply { IfOk result (λ compared. IsDiffReply Lenient (map plain_file old.now)
        (map plain_file new.now) compared.reply.text.items (number_of compared.reply.status)) }
    ensures notes { IfOk result (λ compared. AreNotesOnBoth (map plain_file old.now)
        (map plain_file new.now) compared.notes.items) }
{
    let Resources { alloc, seed } = resources;
    let reply = diff_reply(alloc, seed, Profile::Lenient, old, new)?;
    let mut notes = notes_on(alloc, seed, old)?;
    let others = notes_on(alloc, seed, new)?;
    notes.extend_from_slice(&others)?;
    drop(others);
    Ok(Compared { reply, notes })
}
