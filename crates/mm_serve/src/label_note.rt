//! The note on a label that no statement has.

ghost use Rattle.std.specs.Prelude.{◌≡◌, ◌++◌, List, ℕ, map, option_map, IfOk, OnOk};
ghost use Rattle.mm_code.specs.Layout.{texts};
ghost use Rattle.mm_text.specs.Files.{plain_file};
ghost use Rattle.mm_serve.specs.Ending.{label_of};
ghost use Rattle.mm_serve.specs.Notes.{AreNotesBeside, IsNearLine, near_beginning, near_line};

use crate::notes::notes_on;
use crate::unread::asked_label;
use mm_base::{File, Seed};
use mm_check::Command;
use mm_explain::nearest_labels;
use mm_facts::push_joined;
use mm_rules::{AskFault, AskRule};
use mm_verdict::ask_reply;
use std::alloc::{AllocError, Global};

/// How the line on near labels begins.
fn beginning(near: &[&[u8]]) -> &'static [u8]
    ensures { result.now ≡ near_beginning (texts near.now) }
{
    match near {
        [_] => b"mm: the nearest label is ",
        _ => b"mm: the nearest labels are ",
    }
}

/// Appends the line on near labels, if there are such.
fn push_near(notes: &mut Vec<u8>, near: &[&[u8]]) -> Result<(), AllocError>
    ensures { OnOk result (notes.new.items ≡ notes.old.items ++ near_line (texts near.now)) }
{
    if near.is_empty() {
        return Ok(());
    }
    notes.extend_from_slice(beginning(near))?;
    push_joined(notes, near)?;
    notes.extend_from_slice(b"\n")
}

/// Where a reply says that no statement has the asked label, puts the line on the nearest ones at
/// the end, if there are such.
fn push_nearest(
    notes: &mut Vec<u8>,
    alloc: Global,
    seed: Seed,
    files: &[File],
    asked: Option<&[u8]>,
    reply: &[u8],
) -> Result<(), AllocError>
    ensures { OnOk result ((line : List ℕ) × IsNearLine (map plain_file files.now)
        (option_map (λ label. label.now) asked.entry) reply.now line
        × (notes.new.items ≡ notes.old.items ++ line)) }
{
    let Some(label) = asked else {
        return Ok(());
    };
    let unknown = ask_reply(alloc, label, AskFault::Rule(AskRule::A1))?;
    if reply != unknown.text.as_slice() {
        return Ok(());
    }
    let near = nearest_labels(alloc, seed, files, label)?;
    push_near(notes, &near)
}

/// The notes beside the reply to a command over the files.
pub(crate) fn notes_beside(
    alloc: Global,
    seed: Seed,
    files: &[File],
    command: &Command<'_>,
    reply: &[u8],
) -> Result<Vec<u8>, AllocError>
    ensures { IfOk result (λ notes. AreNotesBeside (map plain_file files.now)
        (label_of command.now) reply.now notes.items) }
{
    let mut notes = notes_on(alloc, seed, files)?;
    push_nearest(&mut notes, alloc, seed, files, asked_label(command), reply)?;
    Ok(notes)
}
