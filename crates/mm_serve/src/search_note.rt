//! The line on what a search came to, and all notes beside a reply.

ghost use Rattle.std.specs.Prelude.{◌≡◌, ◌↔◌, ◌++◌, map, IfOk, IsTrue, OnOk, Some};
ghost use Rattle.mm_text.specs.Files.{plain_file};
ghost use Rattle.std.specs.Prelude.{List, ℕ};
ghost use Rattle.mm_serve.specs.Ending.{AreAllNotes, IsFaultyNote, IsRefusedNote};
ghost use Rattle.mm_check.specs.Reply.{IsReplyTo};
ghost use Rattle.mm_minimize.specs.declared.search_watch.Searched.TheVariants.{Faulty};
ghost use Rattle.mm_step.specs.declared.profile.Profile.TheVariants.{Lenient};
ghost use Rattle.mm_verdict.specs.declared.question.Command.TheVariants.{Whole};
ghost use Rattle.mm_verdict.specs.declared.question.WholeQuestion.TheVariants.{Check};
ghost use Rattle.mm_serve.specs.Notes.{change_text, incomplete_note, left_note, many_left_note};
ghost use Rattle.mm_serve.specs.Notes.{refused_note};
ghost use Rattle.mm_serve.specs.Notes.{search_line, searched_line};

use crate::label_note::notes_beside;
use crate::progress_line::Watched;
use mm_base::{File, Seed};
use mm_check::{Command, Question, WholeQuestion, reply_to};
use mm_minimize::Searched;
use mm_rules::push_decimal;
use mm_step::Profile;
use mm_verdict::Unwatched;
use std::alloc::{AllocError, Global};

/// The command whose reply tells why a database is refused. The files of two versions are read as for
/// it.
pub(crate) const CHECK: Command<'static> = Command::Whole {
    profile: Profile::Lenient,
    question: WholeQuestion::Check,
};

/// Appends the line on so many theorems that were left as they are.
fn push_many_left(notes: &mut Vec<u8>, count: usize) -> Result<(), AllocError>
    ensures { OnOk result (notes.new.items ≡ notes.old.items ++ many_left_note count) }
{
    notes.extend_from_slice(b"mm: note: ")?;
    push_decimal(notes, count)?;
    notes.extend_from_slice(
        b" theorems are left as they are: their proofs are too long to search\n",
    )
}

/// Appends the line on how many theorems were left as they are, where there are any.
fn push_left(notes: &mut Vec<u8>, count: usize) -> Result<(), AllocError>
    ensures { OnOk result (notes.new.items ≡ notes.old.items ++ left_note count) }
{
    match count {
        0 => Ok(()),
        1 => notes.extend_from_slice(
            b"mm: note: 1 theorem is left as it is: its proof is too long to search\n",
        ),
        _ => push_many_left(notes, count),
    }
}

/// Appends a number before and after, each behind a text.
fn push_change(
    notes: &mut Vec<u8>,
    first: &[u8],
    old: usize,
    second: &[u8],
    new: usize,
) -> Result<(), AllocError>
    ensures { OnOk result
        (notes.new.items ≡ notes.old.items ++ change_text first.now old second.now new) }
{
    notes.extend_from_slice(first)?;
    push_decimal(notes, old)?;
    notes.extend_from_slice(second)?;
    push_decimal(notes, new)
}

/// Appends the line on how many incomplete proofs don't count.
fn push_incomplete(notes: &mut Vec<u8>, count: usize) -> Result<(), AllocError>
    ensures { OnOk result (notes.new.items ≡ notes.old.items ++ incomplete_note count) }
{
    if count == 1 {
        return notes.extend_from_slice(b"mm: note: 1 incomplete proof isn't counted\n");
    }
    notes.extend_from_slice(b"mm: note: ")?;
    push_decimal(notes, count)?;
    notes.extend_from_slice(b" incomplete proofs aren't counted\n")
}

/// Appends the line on what a search came to.
fn push_searched(notes: &mut Vec<u8>, searched: Searched) -> Result<(), AllocError>
    ensures { OnOk result (notes.new.items ≡ notes.old.items ++ searched_line searched) }
{
    match searched {
        Searched::Left(count) => push_left(notes, count),
        Searched::NoneShorter => notes.extend_from_slice(b"mm: no shorter proof was found\n"),
        Searched::Shorter { own, new } => {
            push_change(notes, b"mm: ", own.bytes, b" bytes -> ", new.bytes)?;
            push_change(notes, b", ", own.steps, b" steps -> ", new.steps)?;
            notes.extend_from_slice(b"\n")
        }
        Searched::BrokenOff => notes.extend_from_slice(
            b"mm: note: the search was broken off, as it took too long\n",
        ),
        // Why the database is refused is told apart.
        Searched::Faulty => Ok(()),
        Searched::Incomplete(count) => push_incomplete(notes, count),
    }
}

/// Appends the line on what a search came to, where the command is one that searches.
fn push_search_line(
    notes: &mut Vec<u8>,
    command: &Command<'_>,
    searched: Option<Searched>,
) -> Result<(), AllocError>
    ensures { OnOk result
        (notes.new.items ≡ notes.old.items ++ search_line command.now searched) }
{
    let Some(searched) = searched else {
        return Ok(());
    };
    match command {
        Command::Whole {
            question: WholeQuestion::Shorter,
            ..
        }
        | Command::About {
            question: Question::Minimized { .. } | Question::Users { .. },
            ..
        }
        | Command::Shorter { .. }
        | Command::Lemmas { .. } => push_searched(notes, searched),
        _ => Ok(()),
    }
}

/// Whether proofs are at fault.
fn is_faulty(searched: Option<Searched>) -> bool
    ensures { IsTrue result ↔ (searched ≡ Some Faulty) }
{
    matches!(searched, Some(Searched::Faulty))
}

/// Appends the line that tells this refusal of the database.
fn push_refusal_line(notes: &mut Vec<u8>, refusal: &[u8]) -> Result<(), AllocError>
    ensures { OnOk result (notes.new.items ≡ notes.old.items ++ refused_note refusal.now) }
{
    notes.extend_from_slice(b"mm: note: the database is refused: ")?;
    notes.extend_from_slice(refusal)
}

/// Appends the line that says why the database is refused. This is asked anew, as it is seldom so.
fn push_refusal(
    notes: &mut Vec<u8>,
    alloc: Global,
    seed: Seed,
    files: &[File],
) -> Result<(), AllocError>
    ensures { OnOk result ((text : List ℕ) × (status : ℕ)
        × IsReplyTo (map plain_file files.now) (Whole Lenient Check) text status
        × (notes.new.items ≡ notes.old.items ++ refused_note text)) }
{
    let reply = reply_to(alloc, seed, &CHECK, files, &mut Unwatched)?;
    push_refusal_line(notes, &reply.text)?;
    Ok(())
}

/// Appends this line, where proofs are at fault.
fn push_faulty(
    notes: &mut Vec<u8>,
    alloc: Global,
    seed: Seed,
    files: &[File],
    searched: Option<Searched>,
) -> Result<(), AllocError>
    ensures { OnOk result ((line : List ℕ)
        × IsFaultyNote (map plain_file files.now) searched line
        × (notes.new.items ≡ notes.old.items ++ line)) }
{
    if is_faulty(searched) {
        push_refusal(notes, alloc, seed, files)
    } else {
        Ok(())
    }
}

/// Appends this line, where the command is one for users.
fn push_refused(
    notes: &mut Vec<u8>,
    alloc: Global,
    seed: Seed,
    files: &[File],
    command: &Command<'_>,
    searched: Option<Searched>,
) -> Result<(), AllocError>
    ensures { OnOk result ((line : List ℕ)
        × IsRefusedNote (map plain_file files.now) command.now searched line
        × (notes.new.items ≡ notes.old.items ++ line)) }
{
    match command {
        Command::About {
            question: Question::Users { .. },
            ..
        } => push_faulty(notes, alloc, seed, files, searched),
        _ => Ok(()),
    }
}

/// The notes beside the reply to a command over the files, what a search came to, and why the
/// database is refused where users are told all the same.
pub(crate) fn all_notes(
    alloc: Global,
    seed: Seed,
    files: &[File],
    command: &Command<'_>,
    watched: &Watched,
) -> Result<Vec<u8>, AllocError>
    ensures { IfOk result (λ notes. AreAllNotes (map plain_file files.now) command.now
        watched.now.reply.text.items notes.items) }
{
    let mut notes = notes_beside(alloc, seed, files, command, &watched.reply.text)?;
    push_search_line(&mut notes, command, watched.searched)?;
    push_refused(&mut notes, alloc, seed, files, command, watched.searched)?;
    Ok(notes)
}
