//! Hints for people, who read standard error on a terminal: what to ask next, and why a file can't be
//! read. Their wording may change.

ghost use Rattle.mm_serve.specs.Ending.{StaysUnshown};

use crate::folder::{Folder, Resources};
use crate::progress_line::ProgressLine;
use mm_base::{File, Kind};
use mm_check::{Command, WholeQuestion};
use mm_explain::read_statement;
use mm_rules::push_word;
use mm_step::Profile;
use mm_text::Source;
use mm_verdict::Reply;
use mm_words::Stop;
use std::alloc::AllocError;
use std::io::{Error, ErrorKind, Write};

/// How a reply begins that says that a label isn't of the kind that was asked for.
const OF_ANOTHER_KIND: &[u8] = b"ask A2 ";

/// How an explanation ends that tells one fault.
const ONE_FAULT: &[u8] = b"\n1 fault\n";

/// Appends these names, each behind a space.
fn push_names(hint: &mut Vec<u8>, names: &[&str]) -> Result<(), AllocError> {
    for name in names {
        push_word(hint, name.as_bytes())?;
    }
    Ok(())
}

/// Appends which command explains why these files are refused.
fn push_why(hint: &mut Vec<u8>, profile: Profile, names: &[&str]) -> Result<(), AllocError> {
    hint.extend_from_slice(b"mm: mm why")?;
    if profile == Profile::Strict {
        hint.extend_from_slice(b" --strict")?;
    }
    push_names(hint, names)?;
    hint.extend_from_slice(b" explains it\n")
}

/// Appends which command looks for mends of the proof of the theorem with a label in these files.
fn push_mend(hint: &mut Vec<u8>, label: &[u8], names: &[&str]) -> Result<(), AllocError> {
    hint.extend_from_slice(b"mm: mm mend")?;
    if label.starts_with(b"-".as_slice()) {
        hint.extend_from_slice(b" --")?;
    }
    push_word(hint, label)?;
    push_names(hint, names)?;
    hint.extend_from_slice(b" looks for a small change that mends it\n")
}

/// The label of the theorem whose proof a refusal finds at fault, where that may be mended: a proof
/// that has the wrong form for the strict profile alone is none to be mended.
fn refused_theorem(refusal: &[u8]) -> Option<&[u8]> {
    let mut words = refusal.rsplit(|byte| *byte == b' ');
    let _step = words.next()?;
    let rule = words.next()?;
    let label = words.next()?;
    if rule.starts_with(b"P".as_slice()) && rule != b"P15".as_slice() {
        Some(label)
    } else {
        None
    }
}

/// Which commands explain why these files are refused, and look for a mend of the proof at fault.
fn refusal_hint(
    resources: Resources,
    profile: Profile,
    names: &[&str],
    refusal: &[u8],
) -> Result<Vec<u8>, AllocError> {
    let mut hint = Vec::new(resources.alloc);
    push_why(&mut hint, profile, names)?;
    if let Some(label) = refused_theorem(refusal) {
        push_mend(&mut hint, label, names)?;
    }
    Ok(hint)
}

/// Whether the first line of an explanation tells a fault that no change of a proof mends: its
/// form, or a limit.
fn is_beyond_mending(head: &str) -> bool {
    head.split_once(": P15: ").is_some() || head.split_once(": L1: ").is_some()
}

/// The label of the theorem whose proof an explanation finds at fault, where that is the only
/// fault, and may be mended.
fn explained_theorem(explanation: &[u8]) -> Option<&str> {
    if !explanation.ends_with(ONE_FAULT) {
        return None;
    }
    let (head, _) = str::from_utf8(explanation).ok()?.split_once("\n")?;
    let (_, behind) = head.split_once(", in the proof of ")?;
    if is_beyond_mending(head) {
        return None;
    }
    match behind.split_once(",") {
        Some((label, _)) => Some(label),
        None => Some(behind),
    }
}

/// Which command looks for a mend of the proof that an explanation finds at fault.
fn explanation_hint(
    resources: Resources,
    names: &[&str],
    explanation: &[u8],
) -> Result<Option<Vec<u8>>, AllocError> {
    let Some(label) = explained_theorem(explanation) else {
        return Ok(None);
    };
    let mut hint = Vec::new(resources.alloc);
    push_mend(&mut hint, label.as_bytes(), names)?;
    Ok(Some(hint))
}

/// What a statement of a kind is that isn't of the kind that was asked for.
fn kind_words(kind: Kind) -> &'static [u8] {
    match kind {
        Kind::Floating => b" is a hypothesis, stated by $f\n",
        Kind::Essential => b" is a hypothesis, stated by $e\n",
        Kind::Axiom => b" is stated by $a, so it has no proof\n",
        _ => b" is of another kind\n",
    }
}

/// What the statement with a label is.
fn kind_hint(
    resources: Resources,
    files: &[File],
    label: &[u8],
) -> Result<Option<Vec<u8>>, AllocError> {
    let Ok(Some(stated)) = read_statement(resources.alloc, resources.seed, files, label) else {
        return Ok(None);
    };
    let mut hint = Vec::new(resources.alloc);
    hint.extend_from_slice(b"mm: ")?;
    hint.extend_from_slice(label)?;
    hint.extend_from_slice(kind_words(stated.statement.kind))?;
    Ok(Some(hint))
}

/// The label of which a reply says that it isn't of the kind that was asked for, if it says so.
fn label_of_another_kind(reply: &[u8]) -> Option<&[u8]> {
    let from = OF_ANOTHER_KIND.len();
    if reply.len() > from && reply.starts_with(OF_ANOTHER_KIND) {
        return Some(&reply[from..reply.len() - 1]);
    }
    None
}

/// Whether a reply refuses a database for a statement.
fn is_refusal(reply: &[u8]) -> bool {
    reply.starts_with(b"no ".as_slice()) || reply.starts_with(b"limit ".as_slice())
}

/// What is said beside the reply to a command over the files with these names, if there is a hint.
fn hint_beside(
    resources: Resources,
    command: &Command<'_>,
    files: &[File],
    names: &[&str],
    reply: &Reply,
) -> Result<Option<Vec<u8>>, AllocError> {
    if let Some(label) = label_of_another_kind(&reply.text) {
        return kind_hint(resources, files, label);
    }
    match command {
        Command::Whole {
            profile,
            question: WholeQuestion::Check,
        } if is_refusal(&reply.text) => {
            let hint = refusal_hint(resources, *profile, names, &reply.text)?;
            Ok(Some(hint))
        }
        Command::Whole {
            question: WholeQuestion::Why { .. },
            ..
        } => explanation_hint(resources, names, &reply.text),
        _ => Ok(None),
    }
}

/// Where hints are shown, keeps the one beside the reply to a command over the files with these
/// names, until it is told. Where memory for it is refused, there is none: the reply stays.
pub(crate) fn keep_hint<P: Write>(
    progress: &mut ProgressLine<P>,
    resources: Resources,
    command: &Command<'_>,
    files: &[File],
    names: &[&str],
    reply: &Reply,
)
    ensures { StaysUnshown progress.old progress.new }
{
    if !progress.is_shown() {
        return;
    }
    if let Ok(hint) = hint_beside(resources, command, files, names, reply) {
        progress.keep(hint);
    }
}

/// Why a file isn't read.
fn reason(error: &Error) -> &'static [u8] {
    match error.kind() {
        ErrorKind::NotFound => b"mm: there is no such file\n",
        ErrorKind::PermissionDenied => b"mm: its permissions forbid it\n",
        ErrorKind::IsADirectory => b"mm: it is a folder\n",
        _ => b"",
    }
}

/// Why the file with this name isn't read: it is tried once more.
fn unread_reason<F: Folder>(folder: &F, name: &str) -> &'static [u8] {
    let mut byte = [0; 1];
    match folder.open(name) {
        Ok(mut file) => match file.give(&mut byte) {
            Ok(_) => b"",
            Err(error) => reason(&error),
        },
        Err(error) => reason(&error),
    }
}

/// Where hints are shown, tells why a file isn't read, if that is why there is no answer.
pub(crate) fn tell_reason<F: Folder, P: Write>(
    folder: &F,
    stop: &Stop<'_>,
    progress: &mut ProgressLine<P>,
)
    ensures { StaysUnshown progress.old progress.new }
{
    if let Stop::CannotRead { name, .. } = stop {
        if progress.is_shown() {
            progress.tell_text(unread_reason(folder, name));
        }
    }
}
