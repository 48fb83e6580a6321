//! The answers to the questions about a label, over a database in which nothing is at fault.

ghost use Rattle.std.specs.Prelude.{◌≡◌, ◌<◌, ◌++◌, List, map, length, OnOk, IfOk, IfErr};
ghost use Rattle.std.specs.Prelude.{None, codes, true, MatchResult};
ghost use Rattle.std.specs.List.{AllByRecursion};
ghost use Rattle.mm_base.specs.Statement.{PlainStatement};
ghost use Rattle.mm_text.specs.Reading.{Reads};
ghost use Rattle.mm_rules.specs.Answer.{labels_at, KeepsLabels};
ghost use Rattle.mm_rules.specs.Verdict.{labels_of};
ghost use Rattle.mm_rules.specs.Status.{number_of};
ghost use Rattle.mm_verdict.specs.Reply.{IsAskReply, lines_of};
ghost use Rattle.mm_check.specs.Reply.{IsAxiomsReply, IsFormText, IsFormTextFault, IsReportFor};
ghost use Rattle.mm_check.specs.Reply.{IsSameReply, IsAnswerTo, IsMinimizedText, ListsUsers};
ghost use Rattle.mm_check.specs.Reply.{same_text, same_status};
ghost use Rattle.mm_check.specs.Reply.{report_text as report_text_at};
ghost use Rattle.mm_check.specs.Reply.{report_status as report_status_at};
ghost use Rattle.mm_render.specs.Saved.{IsSaveFault};
ghost use Rattle.mm_axioms.specs.Users.{AreUsers, IsAssertionFault};
ghost use Rattle.mm_rules.specs.Rests.{IsAskFault};

use crate::chain::chain_answer;
use crate::told::lettered_listing;
use mm_axioms::{Report, all_users, axioms, direct_users, essential_axioms};
use mm_frame::LabelId;
use mm_minimize::{SearchWatch, minimized_by_library, minimized_whole};
use mm_render::{
    is_same_proof, normal_form, packed_form, proof_listing, saved_file, small_form, uses_listing,
};
use mm_rules::{AskFault, Status};
use mm_verdict::{Checked, Form, Question, Reply, ask_reply, push_label, push_labels};
use std::alloc::{AllocError, Global};

/// A line for the label of each of these numbers, after a question mark.
fn push_unproved(
    out: &mut Vec<u8>,
    checked: &Checked,
    numbers: &[LabelId],
) -> Result<(), AllocError>
    requires { AllByRecursion (λ n. n < length checked.now.labels) (map (λ id. id.0) numbers.now) }
    ensures { OnOk result (out.new.items ≡ out.old.items
        ++ lines_of (map (λ label. codes "? " ++ label)
        (labels_at checked.now.labels (map (λ id. id.0) numbers.now)))) }
{
    for number in numbers {
        out.extend_from_slice(b"? ")?;
        push_label(out, checked, *number)?;
    }
    Ok(())
}

/// The text of a report.
fn report_text(alloc: Global, checked: &Checked, report: &Report) -> Result<Vec<u8>, AllocError>
    requires axioms { AllByRecursion (λ n. n < length checked.now.labels)
        (map (λ id. id.0) report.now.axioms.items) }
    requires unproved { AllByRecursion (λ n. n < length checked.now.labels)
        (map (λ id. id.0) report.now.unproved.items) }
    ensures { IfOk result (λ text. text.items ≡ report_text_at checked.now.labels
        (map (λ id. id.0) report.now.axioms.items) (map (λ id. id.0) report.now.unproved.items)) }
{
    let mut out = Vec::new(alloc);
    push_labels(&mut out, checked, &report.axioms)?;
    push_unproved(&mut out, checked, &report.unproved)?;
    Ok(out)
}

/// The status of a report.
fn report_status(report: &Report) -> Status
    ensures { number_of result ≡ report_status_at (map (λ id. id.0) report.now.unproved.items) }
{
    if report.unproved.is_empty() {
        Status::Done
    } else {
        Status::Incomplete
    }
}

/// What the theorem with a label depends on, or of its axioms those alone that have its type code.
fn report_of(
    alloc: Global,
    checked: &Checked,
    label: &[u8],
    essential: bool,
) -> Result<Report, AskFault>
    ensures report { IfOk result (λ report. (statements : List PlainStatement)
        → Reads checked.now.files statements None → IsReportFor essential statements label.now
        (map (λ id. id.0) report.axioms.items) (map (λ id. id.0) report.unproved.items)) }
    ensures fault { IfErr result (λ fault. (statements : List PlainStatement)
        → Reads checked.now.files statements None → IsAskFault statements label.now fault) }
    ensures in_range { IfOk result (λ report.
        AllByRecursion (λ n. n < length checked.now.labels) (map (λ id. id.0) report.axioms.items)
        × AllByRecursion (λ n. n < length checked.now.labels)
        (map (λ id. id.0) report.unproved.items)) }
{
    if essential {
        essential_axioms(alloc, checked, label)
    } else {
        axioms(alloc, checked, label)
    }
}

/// The reply of a database in which nothing is at fault to the question what a theorem depends on.
fn axioms_answer(
    alloc: Global,
    checked: &Checked,
    label: &[u8],
    essential: bool,
) -> Result<Reply, AllocError>
    ensures { IfOk result (λ reply. (statements : List PlainStatement)
        → Reads checked.now.files statements None → checked.now.labels ≡ labels_of statements
        → IsAxiomsReply essential label.now statements reply.text.items
        (number_of reply.status)) }
{
    match report_of(alloc, checked, label, essential) {
        Ok(report) => {
            let text = report_text(alloc, checked, &report)?;
            let status = report_status(&report);
            Ok(Reply { text, status })
        }
        Err(fault) => ask_reply(alloc, label, fault),
    }
}

/// The reply that tells this text, or why there is none to the question about the label.
pub(crate) fn text_reply(
    alloc: Global,
    label: &[u8],
    answer: Result<Vec<u8>, AskFault>,
) -> Result<Reply, AllocError>
    ensures { IfOk result (λ reply. MatchResult answer
        (λ text. (reply.text.items ≡ text.items) × (number_of reply.status ≡ 0))
        (λ fault. IsAskReply fault label.now reply.text.items (number_of reply.status))) }
{
    match answer {
        Ok(text) => Ok(Reply {
            text,
            status: Status::Done,
        }),
        Err(fault) => ask_reply(alloc, label, fault),
    }
}

/// The text of the answer whether two proofs are the same.
fn sameness_text(alloc: Global, same: bool) -> Result<Vec<u8>, AllocError>
    ensures { IfOk result (λ text. text.items ≡ same_text same) }
{
    if same {
        Vec::from_slice(alloc, b"same\n")
    } else {
        Vec::from_slice(alloc, b"different\n")
    }
}

/// The status of the answer whether two proofs are the same.
fn sameness_status(same: bool) -> Status
    ensures { number_of result ≡ same_status same }
{
    if same { Status::Done } else { Status::Refused }
}

/// The reply of a database in which nothing is at fault to the question whether a text is the same
/// proof.
fn same_answer(
    alloc: Global,
    checked: &Checked,
    label: &[u8],
    proof: &[u8],
) -> Result<Reply, AllocError>
    ensures { IfOk result (λ reply. (statements : List PlainStatement)
        → Reads checked.now.files statements None
        → IsSameReply checked.now.profile label.now proof.now statements reply.text.items
        (number_of reply.status)) }
{
    match is_same_proof(alloc, checked, label, proof) {
        Ok(same) => {
            let text = sameness_text(alloc, same)?;
            let status = sameness_status(same);
            Ok(Reply { text, status })
        }
        Err(fault) => ask_reply(alloc, label, fault),
    }
}

/// The bytes of the file in which the theorem with a label stands, with its proof in a form.
fn saved_text(
    alloc: Global,
    checked: &Checked,
    label: &[u8],
    form: Form,
) -> Result<Vec<u8>, AskFault>
    ensures text { IfOk result (λ text. (statements : List PlainStatement)
        → Reads checked.now.files statements None
        → IsFormText true form checked.now.files statements label.now text.items) }
    ensures fault { IfErr result (λ fault. (statements : List PlainStatement)
        → Reads checked.now.files statements None
        → IsSaveFault form checked.now.files statements label.now fault) }
{
    let saved = saved_file(alloc, checked, label, form)?;
    Ok(saved.1)
}

/// The proof of the theorem with a label in a form, or the bytes of its whole file with that proof.
fn form_text(
    alloc: Global,
    checked: &Checked,
    label: &[u8],
    form: Form,
    whole: bool,
) -> Result<Vec<u8>, AskFault>
    ensures text { IfOk result (λ text. (statements : List PlainStatement)
        → Reads checked.now.files statements None
        → IsFormText whole form checked.now.files statements label.now text.items) }
    ensures fault { IfErr result (λ fault. (statements : List PlainStatement)
        → Reads checked.now.files statements None
        → IsFormTextFault whole form checked.now.files statements label.now fault) }
{
    match form {
        _ if whole => saved_text(alloc, checked, label, form),
        Form::Normal => normal_form(alloc, checked, label),
        Form::Packed => packed_form(alloc, checked, label),
        Form::Small => small_form(alloc, checked, label),
    }
}

/// The theorems that use the assertion with a label, or all that depend on it.
fn users_of(
    alloc: Global,
    checked: &Checked,
    label: &[u8],
    all: bool,
) -> Result<Vec<LabelId>, AskFault>
    ensures users { IfOk result (λ users. (statements : List PlainStatement)
        → Reads checked.now.files statements None
        → AreUsers all statements label.now (map (λ id. id.0) users.items)) }
    ensures fault { IfErr result (λ fault. (statements : List PlainStatement)
        → Reads checked.now.files statements None
        → IsAssertionFault statements label.now fault) }
    ensures in_range { IfOk result (λ users.
        AllByRecursion (λ n. n < length checked.now.labels) (map (λ id. id.0) users.items)) }
{
    if all {
        all_users(alloc, checked, label)
    } else {
        direct_users(alloc, checked, label)
    }
}

/// A line for each theorem that uses the assertion with a label, or for all that depend on it.
fn users_text(
    alloc: Global,
    checked: &Checked,
    label: &[u8],
    all: bool,
) -> Result<Vec<u8>, AskFault>
    requires { KeepsLabels checked.now.files checked.now }
    ensures text { IfOk result (λ text. (statements : List PlainStatement)
        → Reads checked.now.files statements None
        → ListsUsers all statements label.now text.items) }
    ensures fault { IfErr result (λ fault. (statements : List PlainStatement)
        → Reads checked.now.files statements None
        → IsAssertionFault statements label.now fault) }
{
    let users = users_of(alloc, checked, label, all)?;
    let mut text = Vec::new(alloc);
    push_labels(&mut text, checked, &users)?;
    Ok(text)
}

/// A shorter proof of the theorem with a label, or its own small one; or the bytes of its whole
/// file, with the shorter one if there is one.
fn minimized_text<W: SearchWatch>(
    alloc: Global,
    checked: &Checked,
    label: &[u8],
    whole: bool,
    watch: &mut W,
) -> Result<Vec<u8>, AskFault>
    ensures text { IfOk result (λ text. (statements : List PlainStatement)
        → Reads checked.now.files statements None
        → IsMinimizedText whole checked.now.profile checked.now.files statements label.now
        text.items) }
    ensures fault { IfErr result (λ fault. (statements : List PlainStatement)
        → Reads checked.now.files statements None → IsAskFault statements label.now fault) }
{
    if whole {
        minimized_whole(alloc, checked, label, watch)
    } else {
        minimized_by_library(alloc, checked, label, watch)
    }
}

/// The reply of a database in which nothing is at fault to a question about a label.
pub(crate) fn answer_to<W: SearchWatch>(
    alloc: Global,
    checked: &Checked,
    question: &Question,
    label: &[u8],
    watch: &mut W,
) -> Result<Reply, AllocError>
    requires { KeepsLabels checked.now.files checked.now }
    ensures { IfOk result (λ reply. (statements : List PlainStatement)
        → Reads checked.now.files statements None
        → IsAnswerTo checked.now.profile question.now checked.now.files label.now statements
        reply.text.items (number_of reply.status)) }
{
    match question {
        Question::Axioms { essential } => axioms_answer(alloc, checked, label, *essential),
        Question::Chain(other) => chain_answer(alloc, checked, label, other),
        Question::Show => text_reply(alloc, label, proof_listing(alloc, checked, label)),
        Question::Letters => text_reply(alloc, label, lettered_listing(alloc, checked, label)),
        Question::Uses { essential } => {
            text_reply(
                alloc,
                label,
                uses_listing(alloc, checked, label, *essential),
            )
        }
        Question::Form { form, whole } => {
            text_reply(
                alloc,
                label,
                form_text(alloc, checked, label, *form, *whole),
            )
        }
        Question::Same(text) => same_answer(alloc, checked, label, text),
        Question::Users { all } => {
            text_reply(alloc, label, users_text(alloc, checked, label, *all))
        }
        Question::Minimized { whole } => {
            text_reply(
                alloc,
                label,
                minimized_text(alloc, checked, label, *whole, watch),
            )
        }
    }
}
