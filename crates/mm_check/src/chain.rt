//! The reply to the question why a theorem depends on an assertion.

ghost use Rattle.std.specs.Prelude.{◌≡◌, ◌<◌, ◌∷◌, [], List, codes, length, map, IfOk, None};
ghost use Rattle.std.specs.List.{AllByRecursion};
ghost use Rattle.mm_base.specs.Statement.{PlainStatement};
ghost use Rattle.mm_text.specs.Reading.{Reads};
ghost use Rattle.mm_rules.specs.Answer.{labels_at, KeepsLabels};
ghost use Rattle.mm_rules.specs.Status.{number_of};
ghost use Rattle.mm_verdict.specs.Reply.{line_with, lines_of};
ghost use Rattle.mm_check.specs.Chain.{IsChainFaultReply, IsChainReply};

use mm_axioms::{ChainFault, chain};
use mm_frame::LabelId;
use mm_rules::{Status, push_word};
use mm_verdict::{Checked, Reply, ask_reply, push_labels};
use std::alloc::{AllocError, Global};

/// The line that says that the theorem with a label doesn't depend on the assertion.
#[tactic(auto, using(mm_verdict::proofs::ReplyTexts::three_words))]
fn independent_text(alloc: Global, label: &[u8]) -> Result<Vec<u8>, AllocError>
    ensures { IfOk result (λ text. text.items
        ≡ line_with (codes "ask") (codes "A4" ∷ label.now ∷ [])) }
{
    let mut out = Vec::new(alloc);
    out.extend_from_slice(b"ask")?;
    push_word(&mut out, b"A4")?;
    push_word(&mut out, label)?;
    out.push(b'\n')?;
    Ok(out)
}

/// The reply where there is no chain from the theorem with one label to the assertion with another.
fn chain_fault_reply(
    alloc: Global,
    label: &[u8],
    other: &[u8],
    fault: ChainFault,
) -> Result<Reply, AllocError>
    ensures { IfOk result (λ reply. IsChainFaultReply fault label.now other.now reply.text.items
        (number_of reply.status)) }
{
    match fault {
        ChainFault::Theorem(fault) => ask_reply(alloc, label, fault),
        ChainFault::Assertion(fault) => ask_reply(alloc, other, fault),
        ChainFault::Independent => Ok(Reply {
            text: independent_text(alloc, label)?,
            status: Status::Refused,
        }),
        ChainFault::Memory => Err(AllocError),
    }
}

/// A line for the label of each of these numbers.
fn labels_text(alloc: Global, checked: &Checked, numbers: &[LabelId]) -> Result<Vec<u8>, AllocError>
    requires { AllByRecursion (λ n. n < length checked.now.labels) (map (λ id. id.0) numbers.now) }
    ensures { IfOk result (λ text. text.items
        ≡ lines_of (labels_at checked.now.labels (map (λ id. id.0) numbers.now))) }
{
    let mut text = Vec::new(alloc);
    push_labels(&mut text, checked, numbers)?;
    Ok(text)
}

/// The reply of a database in which nothing is at fault to the question why the theorem with one
/// label depends on the assertion with another.
pub(crate) fn chain_answer(
    alloc: Global,
    checked: &Checked,
    label: &[u8],
    other: &[u8],
) -> Result<Reply, AllocError>
    requires { KeepsLabels checked.now.files checked.now }
    ensures { IfOk result (λ reply. (statements : List PlainStatement)
        → Reads checked.now.files statements None → IsChainReply label.now other.now statements
        reply.text.items (number_of reply.status)) }
{
    match chain(alloc, checked, label, other) {
        Ok(numbers) => {
            let text = labels_text(alloc, checked, &numbers)?;
            Ok(Reply {
                text,
                status: Status::Done,
            })
        }
        Err(fault) => chain_fault_reply(alloc, label, other, fault),
    }
}
