//! The text and the status of a reply.

ghost use Rattle.std.specs.Prelude.{◌≡◌, ◌<◌, ◌++◌, [], ◌∷◌, map, OnOk, IfOk, IfSome, codes, List};
ghost use Rattle.std.specs.Prelude.{MatchOption, decimal, length, unwrap_or, Ok, Err};
ghost use Rattle.mm_rules.specs.declared.fault.Refusal.{Refusal};
ghost use Rattle.std.specs.List.{AllByRecursion};
ghost use Rattle.mm_text.specs.Files.{plain_file};
ghost use Rattle.mm_verdict.specs.Reply.{text_of as text_at, status_of as status_at};
ghost use Rattle.mm_verdict.specs.Reply.{refusal_status as refusal_status_at, refusal_word};
ghost use Rattle.mm_verdict.specs.Reply.{refusals_text, line_with, lines_of, Tells};
ghost use Rattle.mm_verdict.specs.Reply.{ask_status as ask_status_at, IsAskReply};
ghost use Rattle.mm_verdict.specs.Reply.{text_status as text_status_at};
ghost use Rattle.mm_rules.specs.RuleCodes.{code_of};
ghost use Rattle.mm_rules.specs.Verdict.{Refused};
ghost use Rattle.mm_rules.specs.Answer.{plain_refusal, labels_at, verdict_of_conclusion};
ghost use Rattle.mm_rules.specs.Answer.{verdict_of_fault, verdict_of_answer};
ghost use Rattle.mm_rules.specs.Status.{number_of};

use crate::checked::Checked;
use mm_base::File;
use mm_frame::LabelId;
use mm_rules::{
    AskFault, AskRule, CheckFault, Refusal, Rule, Status, name_of, push_number, push_word,
};
use mm_step::ProofRule;
use mm_text::LoadRule;
use std::alloc::{AllocError, Global};

/// The text of a reply, and the status that goes with it.
#[derive(Drop)]
pub struct Reply {
    pub text: Vec<u8>,
    pub status: Status,
}

/// The word with which the line of a refusal begins.
fn word_of(rule: Rule) -> &'static [u8]
    ensures { result.now ≡ refusal_word rule }
{
    match rule {
        Rule::Proof(ProofRule::L1) => b"limit",
        _ => b"no",
    }
}

/// The label that a refusal prints: `-` where it has none.
fn label_of<'a>(refusal: &Refusal<'a>) -> &'a [u8]
    ensures { result.now ≡ unwrap_or (plain_refusal refusal.now).label (codes "-") }
{
    match refusal.label {
        Some(label) => label,
        None => b"-",
    }
}

/// The line that says that the files can't be taken as a whole.
fn push_load(out: &mut Vec<u8>, rule: Rule) -> Result<(), AllocError>
    ensures { OnOk result (out.new.items ≡ out.old.items
        ++ line_with (codes "load") (code_of rule ∷ [])) }
{
    out.extend_from_slice(b"load")?;
    push_word(out, rule.code())?;
    out.push(b'\n')?;
    Ok(())
}

/// The line of yes.
#[tactic(auto, using(crate::proofs::ReplyTexts::five_words))]
fn push_yes(out: &mut Vec<u8>, statements: usize, proofs: usize) -> Result<(), AllocError>
    ensures { OnOk result (out.new.items ≡ out.old.items
        ++ line_with (codes "yes") (decimal statements ∷ codes "statements"
        ∷ decimal proofs ∷ codes "proofs" ∷ [])) }
{
    out.extend_from_slice(b"yes")?;
    push_number(out, statements)?;
    push_word(out, b"statements")?;
    push_number(out, proofs)?;
    push_word(out, b"proofs")?;
    out.push(b'\n')?;
    Ok(())
}

/// A line for the label with this number.
pub fn push_label(out: &mut Vec<u8>, checked: &Checked, number: LabelId) -> Result<(), AllocError>
    requires { number.0 < length checked.now.labels }
    ensures { OnOk result (out.new.items ≡ out.old.items
        ++ lines_of (labels_at checked.now.labels (number.0 ∷ []))) }
{
    out.extend_from_slice(checked.name(number))?;
    out.push(b'\n')?;
    Ok(())
}

/// A line for the label of each of these numbers.
#[tactic(auto, using(crate::proofs::ReplyTexts::one_more_line))]
pub fn push_labels(
    out: &mut Vec<u8>,
    checked: &Checked,
    numbers: &[LabelId],
) -> Result<(), AllocError>
    requires { AllByRecursion (λ n. n < length checked.now.labels) (map (λ id. id.0) numbers.now) }
    ensures { OnOk result (out.new.items ≡ out.old.items
        ++ lines_of (labels_at checked.now.labels (map (λ id. id.0) numbers.now))) }
{
    for number in numbers {
        push_label(out, checked, *number)?;
    }
    Ok(())
}

/// The lines that list the incomplete proofs.
#[tactic(auto, using(crate::proofs::ReplyTexts::incomplete_lines))]
fn push_incomplete(
    out: &mut Vec<u8>,
    checked: &Checked,
    numbers: &[LabelId],
) -> Result<(), AllocError>
    requires { AllByRecursion (λ n. n < length checked.now.labels) (map (λ id. id.0) numbers.now) }
    ensures { OnOk result (out.new.items ≡ out.old.items
        ++ (line_with (codes "incomplete") (decimal (length numbers.now) ∷ [])
        ++ lines_of (labels_at checked.now.labels (map (λ id. id.0) numbers.now)))) }
{
    out.extend_from_slice(b"incomplete")?;
    push_number(out, numbers.len())?;
    out.push(b'\n')?;
    push_labels(out, checked, numbers)
}

/// The lines of a database in which nothing is at fault.
#[tactic(auto, using(crate::proofs::ReplyTexts::text_of_some))]
fn push_conclusion(out: &mut Vec<u8>, checked: &Checked) -> Result<(), AllocError>
    ensures { OnOk result (out.new.items ≡ out.old.items
        ++ text_at [] (verdict_of_conclusion checked.now)) }
{
    if checked.is_complete() {
        push_yes(out, checked.statements(), checked.proofs())
    } else {
        push_incomplete(out, checked, checked.incomplete())
    }
}

/// The status of a refusal: a limit stops the program, any other rule is a refusal.
pub fn refusal_status(rule: Rule) -> Status
    ensures { number_of result ≡ refusal_status_at rule }
{
    match rule {
        Rule::Proof(ProofRule::L1) => Status::Stopped,
        _ => Status::Refused,
    }
}

/// The line of a refusal.
#[tactic(auto, using(crate::proofs::ReplyTexts::six_words))]
pub fn push_refusal(out: &mut Vec<u8>, files: &[File], refusal: &Refusal) -> Result<(), AllocError>
    ensures { OnOk result (out.new.items ≡ out.old.items
        ++ text_at (map plain_file files.now) (Refused (plain_refusal refusal.now))) }
{
    out.extend_from_slice(word_of(refusal.rule))?;
    push_word(out, name_of(files, refusal.file))?;
    push_number(out, refusal.line)?;
    push_word(out, label_of(refusal))?;
    push_word(out, refusal.rule.code())?;
    push_number(out, refusal.step)?;
    out.push(b'\n')?;
    Ok(())
}

/// A line for each refusal.
#[tactic(auto, using(crate::proofs::ReplyTexts::one_more_refusal))]
pub fn push_refusals(
    out: &mut Vec<u8>,
    files: &[File],
    refusals: &[Refusal],
) -> Result<(), AllocError>
    ensures { OnOk result (out.new.items ≡ out.old.items
        ++ refusals_text (map plain_file files.now) (map plain_refusal refusals.now)) }
{
    for refusal in refusals {
        push_refusal(out, files, refusal)?;
    }
    Ok(())
}

/// The status of several refusals: that of the first.
pub fn first_status(refusals: &[Refusal]) -> Status
    requires { 0 < length refusals.now }
    ensures { (first : Refusal) (others : List Refusal) → refusals.now ≡ first ∷ others
        → number_of result ≡ refusal_status_at first.rule }
{
    refusal_status(refusals[0].rule)
}

/// The line that tells a fault. For lack of memory there is none.
fn push_fault(out: &mut Vec<u8>, files: &[File], fault: &CheckFault) -> Result<(), AllocError>
    ensures { OnOk result (MatchOption (verdict_of_fault fault.now) ⊥ (λ verdict. out.new.items
        ≡ out.old.items ++ text_at (map plain_file files.now) verdict)) }
{
    match fault {
        CheckFault::Load(rule) => push_load(out, *rule),
        CheckFault::Refused(refusal) => push_refusal(out, files, refusal),
        CheckFault::Memory => Err(AllocError),
    }
}

/// The status of the reply of a database in which nothing is at fault.
pub fn conclusion_status(checked: &Checked) -> Status
    ensures { number_of result ≡ status_at (verdict_of_conclusion checked.now) }
{
    if checked.is_complete() {
        Status::Done
    } else {
        Status::Incomplete
    }
}

/// The status of the reply that tells a fault.
fn fault_status(fault: &CheckFault) -> Status
    ensures { IfSome (verdict_of_fault fault.now) (λ verdict. number_of result
        ≡ status_at verdict) }
{
    match fault {
        CheckFault::Load(_) => Status::Stopped,
        CheckFault::Refused(refusal) => refusal_status(refusal.rule),
        CheckFault::Memory => Status::Stopped,
    }
}

/// The line that says why a question about a label has no answer.
#[tactic(auto, using(crate::proofs::ReplyTexts::three_words))]
fn ask_text(alloc: Global, rule: Rule, label: &[u8]) -> Result<Vec<u8>, AllocError>
    ensures { IfOk result (λ text. text.items
        ≡ line_with (codes "ask") (code_of rule ∷ label.now ∷ [])) }
{
    let mut out = Vec::new(alloc);
    out.extend_from_slice(b"ask")?;
    push_word(&mut out, rule.code())?;
    push_word(&mut out, label)?;
    out.push(b'\n')?;
    Ok(out)
}

/// The status where a question has no answer.
fn ask_status(rule: AskRule) -> Status
    ensures { number_of result ≡ ask_status_at rule }
{
    match rule {
        AskRule::A1 | AskRule::A2 => Status::Refused,
        AskRule::A3 => Status::Incomplete,
        AskRule::L2 => Status::Stopped,
    }
}

/// The line that says why a proof's text that is handed in is refused.
#[tactic(auto, using(crate::proofs::ReplyTexts::three_words))]
pub fn refused_text(alloc: Global, rule: Rule, step: usize) -> Result<Vec<u8>, AllocError>
    ensures { IfOk result (λ text. text.items
        ≡ line_with (codes "text") (code_of rule ∷ decimal step ∷ [])) }
{
    let mut out = Vec::new(alloc);
    out.extend_from_slice(b"text")?;
    push_word(&mut out, rule.code())?;
    push_number(&mut out, step)?;
    out.push(b'\n')?;
    Ok(out)
}

/// The status where a proof's text that is handed in is refused.
pub fn text_status(rule: Rule) -> Status
    ensures { number_of result ≡ text_status_at rule }
{
    match rule {
        Rule::Ask(AskRule::A3) => Status::Incomplete,
        Rule::Proof(ProofRule::L1) | Rule::Load(LoadRule::F3) => Status::Stopped,
        _ => Status::Refused,
    }
}

/// The reply where a question about a label has no answer.
pub fn ask_reply(alloc: Global, label: &[u8], fault: AskFault) -> Result<Reply, AllocError>
    ensures { IfOk result (λ reply.
        IsAskReply fault label.now reply.text.items (number_of reply.status)) }
{
    match fault {
        AskFault::Rule(rule) => Ok(Reply {
            text: ask_text(alloc, Rule::Ask(rule), label)?,
            status: ask_status(rule),
        }),
        AskFault::F3 => Ok(Reply {
            text: ask_text(alloc, Rule::Load(LoadRule::F3), label)?,
            status: Status::Stopped,
        }),
        AskFault::Text { rule, step } => Ok(Reply {
            text: refused_text(alloc, rule, step)?,
            status: text_status(rule),
        }),
        AskFault::Memory => Err(AllocError),
    }
}

/// The reply of a database in which nothing is at fault: yes, or the incomplete proofs.
pub fn accepted_reply(alloc: Global, files: &[File], checked: &Checked) -> Result<Reply, AllocError>
    ensures text { IfOk result (λ reply. Tells (map plain_file files.now) (Ok checked.now)
        reply.text.items) }
    ensures status { IfOk result (λ reply. number_of reply.status
        ≡ status_at (verdict_of_conclusion checked.now)) }
{
    let mut text = Vec::new(alloc);
    push_conclusion(&mut text, checked)?;
    Ok(Reply {
        text,
        status: conclusion_status(checked),
    })
}

/// The reply that tells a fault.
pub fn fault_reply(alloc: Global, files: &[File], fault: &CheckFault) -> Result<Reply, AllocError>
    ensures text { IfOk result (λ reply. Tells (map plain_file files.now) (Err fault.now)
        reply.text.items) }
    ensures status { IfOk result (λ reply. IfSome (verdict_of_fault fault.now)
        (λ verdict. number_of reply.status ≡ status_at verdict)) }
{
    let mut text = Vec::new(alloc);
    push_fault(&mut text, files, fault)?;
    Ok(Reply {
        text,
        status: fault_status(fault),
    })
}

/// The reply that tells the verdict.
pub fn verdict_reply(
    alloc: Global,
    files: &[File],
    answer: &Result<Checked, CheckFault>,
) -> Result<Reply, AllocError>
    ensures text { IfOk result (λ reply.
        Tells (map plain_file files.now) answer.now reply.text.items) }
    ensures status { IfOk result (λ reply.
        IfSome (verdict_of_answer answer.now) (λ verdict. number_of reply.status
        ≡ status_at verdict)) }
{
    match answer {
        Ok(checked) => accepted_reply(alloc, files, checked),
        Err(fault) => fault_reply(alloc, files, fault),
    }
}
