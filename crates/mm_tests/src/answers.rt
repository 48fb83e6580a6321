//! Questions about the proof of a theorem: the program's reply, and what the call answers that goes
//! with the command.

use crate::tests::{contents_of, expect_reply, files_of, joined};
use crate::{Asked, form_lines, forms, sameness, saving, saving_all};
use mm_base::{File, Seed};
use mm_check::{Command, Question};
use mm_render::{SaveFault, is_same_proof, normal_form, packed_form, small_form};
use mm_rules::{AskFault, AskRule, Rule};
use mm_save::{saved, saved_all};
use mm_verdict::{Checked, Form, check};
use std::alloc::Global;
use std::process::Abort;
use std::str::from_utf8;
use std::test::Fail;

/// What a call answers; nothing where the files are refused.
type Answer = Option<Answered>;

/// What a call answers over accepted files.
type Answered = Result<Vec<u8>, AskFault>;

/// The reply that tells whether two proofs are the same.
fn sameness_line(alloc: Global, same: bool) -> Result<Vec<u8>, Fail> {
    let line: &[u8] = if same { b"same\n" } else { b"different\n" };
    Ok(Vec::from_slice(alloc, line)?)
}

/// What the call of a question answers over accepted files.
fn answer_of(alloc: Global, checked: &Checked, command: &Command) -> Result<Answered, Fail> {
    let Command::About { label, question } = command else {
        return Err(Fail::from("another command"));
    };
    match question {
        Question::Form {
            form: Form::Normal,
            ..
        } => Ok(normal_form(alloc, checked, label)),
        Question::Form {
            form: Form::Packed,
            ..
        } => Ok(packed_form(alloc, checked, label)),
        Question::Form {
            form: Form::Small,
            ..
        } => Ok(small_form(alloc, checked, label)),
        Question::Same(text) => match is_same_proof(alloc, checked, label, text) {
            Ok(same) => Ok(Ok(sameness_line(alloc, same)?)),
            Err(fault) => Ok(Err(fault)),
        },
        _ => Err(Fail::from("another question")),
    }
}

/// What the call of a question answers over the files.
fn asked_of(alloc: Global, command: &Command, files: &[File]) -> Result<Answer, Fail> {
    match check(alloc, Seed::known(), files) {
        Ok(checked) => {
            let answer = answer_of(alloc, &checked, command);
            drop(checked);
            Ok(Some(answer?))
        }
        Err(_) => Ok(None),
    }
}

/// The bytes of the last file with the proof of a theorem in a form.
fn saved_of(alloc: Global, label: &[u8], form: Form, files: &[File]) -> Result<Answer, Fail> {
    match saved(alloc, Seed::known(), files, label, form) {
        Ok((number, bytes)) => {
            if number.saturating_add(1) != files.len() {
                return Err(Fail::from("another file"));
            }
            Ok(Some(Ok(bytes)))
        }
        Err(SaveFault::Ask(fault)) => Ok(Some(Err(fault))),
        Err(SaveFault::Check(_)) => Ok(None),
        // That is told of a whole file alone.
        Err(SaveFault::TooLong { .. }) => unreachable!(),
    }
}

/// What the call that goes with a command answers over the files.
fn called(alloc: Global, command: &Command, files: &[File]) -> Result<Answer, Fail> {
    match command {
        Command::About {
            label,
            question: Question::Form { form, whole: true },
        } => saved_of(alloc, label, *form, files),
        _ => asked_of(alloc, command, files),
    }
}

/// The label that a command asks about.
fn label_of<'a>(command: &Command<'a>) -> &'a [u8] {
    match command {
        Command::Whole { .. } | Command::File { .. } | Command::Shorter { .. } => b"",
        Command::Find { .. } | Command::Lemmas { .. } => b"",
        Command::About { label, .. }
        | Command::Lone { label, .. }
        | Command::Statement { label, .. } => label,
    }
}

/// The line that says why a question about a label has no answer.
fn fault_line(alloc: Global, label: &[u8], fault: AskFault) -> Result<Vec<u8>, Fail> {
    let label = from_utf8(label)?;
    let line = match fault {
        AskFault::Text { rule, step } => format!(in alloc; "text {rule} {step}\n")?,
        AskFault::Rule(rule) => format!(in alloc; "ask {} {label}\n", Rule::Ask(rule))?,
        AskFault::F3 => format!(in alloc; "ask F3 {label}\n")?,
        AskFault::Memory => return Err(Fail::from("memory")),
    };
    Ok(line.into_bytes())
}

/// The bytes of the file with a number with all proofs in a form, or the line that says why there
/// are none; nothing where the files are refused.
fn all_saved_of(
    alloc: Global,
    form: Form,
    number: usize,
    files: &[File],
) -> Result<Option<Vec<u8>>, Fail> {
    let Some(file) = files.get(number) else {
        return Err(Fail::from("a file that is not handed in"));
    };
    match saved_all(alloc, Seed::known(), files, number, form) {
        Ok(bytes) => Ok(Some(bytes)),
        Err(SaveFault::TooLong { label }) => Ok(Some(fault_line(
            alloc,
            label,
            AskFault::Rule(AskRule::L2),
        )?)),
        Err(SaveFault::Ask(fault)) => Ok(Some(fault_line(alloc, file.name, fault)?)),
        Err(SaveFault::Check(_)) => Ok(None),
    }
}

/// The text of what the call that goes with a command answers over the files; nothing where they
/// are refused.
fn text_of(alloc: Global, command: &Command, files: &[File]) -> Result<Option<Vec<u8>>, Fail> {
    if let Command::File { form, file } = command {
        return all_saved_of(alloc, *form, *file, files);
    }
    match called(alloc, command, files)? {
        Some(Ok(text)) => Ok(Some(text)),
        Some(Err(fault)) => Ok(Some(fault_line(alloc, label_of(command), fault)?)),
        None => Ok(None),
    }
}

/// Compares what the call that goes with a command answers; files that are refused have no answer.
fn compare_call(
    rt: &impl Abort,
    alloc: Global,
    asked: &Asked,
    files: &[File],
    reply: &[u8],
) -> Result<(), Fail> {
    let name = asked.name;
    let Some(text) = text_of(alloc, &asked.command, files)? else {
        assert!(rt; asked.status != 0, "refused in the case {name}");
        return Ok(());
    };
    assert!(rt; text.as_slice() == reply, "by its call, in the case {name}");
    Ok(())
}

/// Runs a case: its command, and the call that goes with that.
fn compare_case(rt: &impl Abort, alloc: Global, asked: &Asked) -> Result<(), Fail> {
    let contents = contents_of(alloc, asked.files)?;
    let reply = joined(alloc, asked.reply)?;
    let files = files_of(alloc, asked.files, &contents)?;
    expect_reply(
        rt,
        alloc,
        &asked.command,
        &files,
        (&reply, asked.status),
        asked.name,
    )?;
    compare_call(rt, alloc, asked, &files, &reply)
}

/// Runs the cases of a table.
fn compare(rt: &impl Abort, alloc: Global, table: &[Asked]) -> Result<(), Fail> {
    for asked in table {
        compare_case(rt, alloc, asked)?;
    }
    Ok(())
}

#[test]
fn packed_proofs(rt: HostRuntime) -> Result<(), Fail> {
    compare(&rt, rt.alloc(), &forms::PACKED)
}

#[test]
fn small_proofs(rt: HostRuntime) -> Result<(), Fail> {
    compare(&rt, rt.alloc(), &forms::SMALL)
}

#[test]
fn normal_proofs(rt: HostRuntime) -> Result<(), Fail> {
    compare(&rt, rt.alloc(), &forms::NORMAL)
}

#[test]
fn doublings(rt: HostRuntime) -> Result<(), Fail> {
    compare(&rt, rt.alloc(), &forms::DOUBLINGS)
}

#[test]
fn lines_of_labels(rt: HostRuntime) -> Result<(), Fail> {
    compare(&rt, rt.alloc(), &form_lines::LINES_OF_LABELS)
}

#[test]
fn lines_of_letters(rt: HostRuntime) -> Result<(), Fail> {
    compare(&rt, rt.alloc(), &form_lines::LINES_OF_LETTERS)
}

#[test]
fn unanswered_forms(rt: HostRuntime) -> Result<(), Fail> {
    compare(&rt, rt.alloc(), &forms::UNANSWERED)
}

#[test]
fn same_proofs(rt: HostRuntime) -> Result<(), Fail> {
    compare(&rt, rt.alloc(), &sameness::SAME)
}

#[test]
fn different_proofs(rt: HostRuntime) -> Result<(), Fail> {
    compare(&rt, rt.alloc(), &sameness::DIFFERENT)
}

#[test]
fn no_texts(rt: HostRuntime) -> Result<(), Fail> {
    compare(&rt, rt.alloc(), &sameness::NO_TEXTS)
}

#[test]
fn faults_of_texts(rt: HostRuntime) -> Result<(), Fail> {
    compare(&rt, rt.alloc(), &sameness::FAULTS_OF_TEXTS)
}

#[test]
fn faults_of_their_steps(rt: HostRuntime) -> Result<(), Fail> {
    compare(&rt, rt.alloc(), &sameness::FAULTS_OF_STEPS)
}

#[test]
fn before_the_text(rt: HostRuntime) -> Result<(), Fail> {
    compare(&rt, rt.alloc(), &sameness::BEFORE_THE_TEXT)
}

#[test]
fn saved_files(rt: HostRuntime) -> Result<(), Fail> {
    compare(&rt, rt.alloc(), &saving::SAVED)
}

#[test]
fn kept_bytes(rt: HostRuntime) -> Result<(), Fail> {
    compare(&rt, rt.alloc(), &saving::KEPT)
}

#[test]
fn not_saved(rt: HostRuntime) -> Result<(), Fail> {
    compare(&rt, rt.alloc(), &saving::NOT_SAVED)
}

#[test]
fn files_saved_whole(rt: HostRuntime) -> Result<(), Fail> {
    compare(&rt, rt.alloc(), &saving_all::SAVED)
}

#[test]
fn kept_beside_all_proofs(rt: HostRuntime) -> Result<(), Fail> {
    compare(&rt, rt.alloc(), &saving_all::KEPT)
}

#[test]
fn files_not_saved_whole(rt: HostRuntime) -> Result<(), Fail> {
    compare(&rt, rt.alloc(), &saving_all::NOT_SAVED)
}
