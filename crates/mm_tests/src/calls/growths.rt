//! Refused growths: of `run`, of questions, and of saved files.
//!
//! The tests whose names begin with `growths` meet lack of memory wherever it comes, look at what
//! it leaves, and go on. With ample memory they are runs of happy paths. `scripts/failing` runs
//! each of them with each of its requests for memory refused, one alone, in turn.

use crate::tests::{CHECK, asks_handed};
use mm_axioms::{all_users, axioms, direct_users};
use mm_base::{File, Seed};
use mm_check::{Command, Question, RunFault, WholeQuestion, run};
use mm_core_tests::databases::{DEMO, DEMO_COMPRESSED, DEMO_SMALL};
use mm_render::{
    SaveFault, is_same_proof, normal_form, packed_form, proof_listing, small_form, uses_listing,
};
use mm_rules::{AskFault, CheckFault, Status};
use mm_save::{saved, saved_all};
use mm_step::Profile;
use mm_text::Counted;
use mm_verdict::{Checked, Form, check};
use std::alloc::Global;
use std::test::Fail;

/// The demonstration database, with its theorem in a compressed proof.
const FILES: [File<'static>; 1] = [File {
    name: b"demo0c.mm",
    bytes: DEMO_COMPRESSED,
}];

/// Another proof of its theorem.
const PROOF: &[u8] = b"( tze tpl weq a2 wim a1 mp ) ABCZADZAADZAEZJJKFLIAAGHH";

/// More bytes than the longest reply has: a writer that asks for memory would be told as a failed
/// device.
const ROOM: usize = 4096;

/// A test passes where this holds.
fn expect(holds: bool, what: &'static str) -> Result<(), Fail> {
    if holds { Ok(()) } else { Err(Fail::from(what)) }
}

/// What a call answers that is asked once more. One growth alone is refused, so memory isn't
/// wanting again.
fn once_more<T, E: Drop>(answer: Result<T, E>) -> Result<T, Fail> {
    Ok(answer.ok().ok_or("refused after want of memory")?)
}

/// The reply to a command and its status; nothing where memory ran out, and nothing is written
/// then.
fn reply_or_memory(
    alloc: Global,
    files: &[File],
    command: &Command,
) -> Result<Option<(Vec<u8>, Status)>, Fail> {
    if !asks_handed(command, files) {
        return Err(Fail::from("a file that is not handed in"));
    }
    let mut out = Counted::new(Vec::with_capacity(alloc, ROOM)?);
    let answer = run(alloc, Seed::known(), command, files, &mut out);
    let text = out.into_inner();
    match answer {
        Ok(status) => Ok(Some((text, status))),
        Err(RunFault::Memory) if text.is_empty() => Ok(None),
        Err(RunFault::Memory) => Err(Fail::from("written before want of memory")),
        Err(RunFault::Device) => Err(Fail::from("the writer failed")),
    }
}

/// The reply to a command, asked once more where memory ran out the first time.
fn reply_to(alloc: Global, files: &[File], command: &Command) -> Result<(Vec<u8>, Status), Fail> {
    if let Some(reply) = reply_or_memory(alloc, files, command)? {
        return Ok(reply);
    }
    Ok(reply_or_memory(alloc, files, command)?.ok_or("memory is wanting twice")?)
}

/// A command over these files is answered alike twice.
fn expect_replies_over(alloc: Global, files: &[File], command: &Command) -> Result<(), Fail> {
    let first = reply_to(alloc, files, command)?;
    let second = reply_to(alloc, files, command)?;
    expect(first == second && !first.0.is_empty(), "another reply")
}

/// A command is answered alike twice.
fn expect_replies(alloc: Global, command: &Command) -> Result<(), Fail> {
    expect_replies_over(alloc, &FILES, command)
}

#[test]
fn growths_of_check(rt: HostRuntime) -> Result<(), Fail> {
    expect_replies(rt.alloc(), &CHECK)?;
    let profile = Profile::Strict;
    expect_replies(
        rt.alloc(),
        &Command::Whole {
            profile,
            question: WholeQuestion::Check,
        },
    )
}

#[test]
fn growths_of_statements(rt: HostRuntime) -> Result<(), Fail> {
    let files = [File {
        name: b"t.mm",
        bytes: b"$c a $.\n$( It holds. $)\nth $a a $.\n",
    }];
    for comment in [false, true] {
        let label = b"th".as_slice();
        expect_replies_over(rt.alloc(), &files, &Command::Statement { label, comment })?;
    }
    Ok(())
}

#[test]
fn growths_of_questions(rt: HostRuntime) -> Result<(), Fail> {
    let label = b"th1".as_slice();
    expect_replies(
        rt.alloc(),
        &Command::About {
            label,
            question: Question::Axioms { essential: false },
        },
    )?;
    expect_replies(
        rt.alloc(),
        &Command::About {
            label,
            question: Question::Show,
        },
    )?;
    expect_replies(
        rt.alloc(),
        &Command::About {
            label,
            question: Question::Same(PROOF),
        },
    )
}

#[test]
fn growths_of_forms(rt: HostRuntime) -> Result<(), Fail> {
    let label = b"th1".as_slice();
    for form in [Form::Normal, Form::Packed, Form::Small] {
        for whole in [false, true] {
            let question = Question::Form { form, whole };
            expect_replies(rt.alloc(), &Command::About { label, question })?;
        }
        expect_replies(rt.alloc(), &Command::File { form, file: 0 })?;
    }
    Ok(())
}

/// How many axioms a theorem rests on, as a text of so many bytes.
fn axioms_text(alloc: Global, checked: &Checked, label: &[u8]) -> Result<Vec<u8>, AskFault> {
    let report = axioms(alloc, checked, label)?;
    let mut text = Vec::new(alloc);
    for _ in &report.axioms {
        text.push(b'a')?;
    }
    Ok(text)
}

/// How many theorems use an assertion, or rest on it, as a text of so many bytes.
fn users_text(
    alloc: Global,
    checked: &Checked,
    label: &[u8],
    all: bool,
) -> Result<Vec<u8>, AskFault> {
    let users = if all {
        all_users(alloc, checked, label)?
    } else {
        direct_users(alloc, checked, label)?
    };
    let mut text = Vec::new(alloc);
    for _ in &users {
        text.push(b'u')?;
    }
    Ok(text)
}

/// What the call of a question answers about a theorem, as a text.
fn answer_to(
    alloc: Global,
    checked: &Checked,
    label: &[u8],
    question: &Question,
) -> Result<Vec<u8>, AskFault> {
    match question {
        Question::Axioms { .. } => axioms_text(alloc, checked, label),
        Question::Show => proof_listing(alloc, checked, label),
        Question::Uses { essential } => uses_listing(alloc, checked, label, *essential),
        Question::Form {
            form: Form::Normal,
            ..
        } => normal_form(alloc, checked, label),
        Question::Form {
            form: Form::Packed,
            ..
        } => packed_form(alloc, checked, label),
        Question::Form {
            form: Form::Small,
            ..
        } => small_form(alloc, checked, label),
        Question::Same(text) => {
            let is_same = is_same_proof(alloc, checked, label, text)?;
            Ok(Vec::from_slice(alloc, if is_same { b"same" } else { b"no" })?)
        }
        // No command of these tests asks for them.
        Question::Chain(_) | Question::Letters => Ok(Vec::new(alloc)),
        Question::Users { all } => users_text(alloc, checked, label, *all),
        // It is asked by a command alone, so this is what is told where no search finds anything.
        Question::Minimized { .. } => small_form(alloc, checked, label),
    }
}

/// What the call answers, asked once more where memory ran out the first time.
fn ask_on(
    alloc: Global,
    checked: &Checked,
    label: &[u8],
    question: &Question,
) -> Result<Vec<u8>, Fail> {
    match answer_to(alloc, checked, label, question) {
        Err(AskFault::Memory) => once_more(answer_to(alloc, checked, label, question)),
        answer => Ok(answer?),
    }
}

/// Whether each question is answered alike twice.
fn answers_alike(
    alloc: Global,
    checked: &Checked,
    label: &[u8],
    asked: &[Question],
) -> Result<bool, Fail> {
    for question in asked {
        let first = ask_on(alloc, checked, label, question)?;
        if first.is_empty() || first != ask_on(alloc, checked, label, question)? {
            return Ok(false);
        }
    }
    Ok(true)
}

/// What is kept of the database, which is checked once more where memory ran out the first
/// time.
fn checked_on<'a>(alloc: Global, files: &'a [File<'a>]) -> Result<Checked<'a>, Fail> {
    match check(alloc, Seed::known(), files) {
        Ok(checked) => Ok(checked),
        Err(CheckFault::Memory) => once_more(check(alloc, Seed::known(), files)),
        Err(_) => Err(Fail::from("refused")),
    }
}

#[test]
fn growths_of_calls(rt: HostRuntime) -> Result<(), Fail> {
    let label = b"th1".as_slice();
    let normal = Question::Form {
        form: Form::Normal,
        whole: false,
    };
    let packed = Question::Form {
        form: Form::Packed,
        whole: false,
    };
    let same = Question::Same(PROOF);
    let small = Question::Form {
        form: Form::Small,
        whole: false,
    };
    let uses = Question::Uses { essential: true };
    let asked = [
        Question::Axioms { essential: false },
        Question::Show,
        uses,
        normal,
        packed,
        small,
        same,
    ];
    let checked = checked_on(rt.alloc(), &FILES)?;
    let answer = answers_alike(rt.alloc(), &checked, label, &asked);
    drop(checked);
    expect(answer?, "another answer after want of memory")
}

/// The file with the theorem's proof in a form, asked for once more where memory ran out the
/// first time.
fn saved_on(alloc: Global, form: Form) -> Result<(usize, Vec<u8>), Fail> {
    match saved(alloc, Seed::known(), &FILES, b"th1", form) {
        Err(SaveFault::Ask(AskFault::Memory) | SaveFault::Check(CheckFault::Memory)) => {
            once_more(saved(alloc, Seed::known(), &FILES, b"th1", form))
        }
        answer => Ok(answer?),
    }
}

/// The first file with each proof in a form, asked for once more where memory ran out the first
/// time.
fn saved_all_on(alloc: Global, form: Form) -> Result<Vec<u8>, Fail> {
    match saved_all(alloc, Seed::known(), &FILES, 0, form) {
        Err(SaveFault::Ask(AskFault::Memory) | SaveFault::Check(CheckFault::Memory)) => {
            once_more(saved_all(alloc, Seed::known(), &FILES, 0, form))
        }
        answer => Ok(answer?),
    }
}

/// The database is saved in a form as these bytes: the proof of its theorem, and all of them.
fn expect_saved(alloc: Global, form: Form, bytes: &[u8]) -> Result<(), Fail> {
    let (number, new) = saved_on(alloc, form)?;
    expect(
        number == 0 && new.as_slice() == bytes,
        "another file with the proof",
    )?;
    let new = saved_all_on(alloc, form)?;
    expect(new.as_slice() == bytes, "another file with all proofs")
}

#[test]
fn growths_of_saved(rt: HostRuntime) -> Result<(), Fail> {
    expect_saved(rt.alloc(), Form::Normal, DEMO)?;
    expect_saved(rt.alloc(), Form::Packed, DEMO_COMPRESSED)?;
    expect_saved(rt.alloc(), Form::Small, DEMO_SMALL)
}
