//! The replies to questions about one theorem alone, over the statements before it.

ghost use Rattle.std.specs.Prelude.{map, IfOk};
ghost use Rattle.mm_text.specs.Files.{plain_file};
ghost use Rattle.mm_base.specs.Statement.{plain_statement};
ghost use Rattle.mm_explain.specs.Mirror.Reached.{HasReached, IsUnreached};
ghost use Rattle.mm_check.specs.Reply.{IsLoneAnswer, IsLoneReply, IsNotFoundReply};
ghost use Rattle.mm_rules.specs.Status.{number_of};

use crate::checked_prefix::known_reply;
use crate::known_normal::known_normal_reply;
use mm_base::{File, Seed};
use mm_explain::read_to::read_to;
use mm_explain::{Reached, Unreached, try_reply};
use mm_rules::AskFault;
use mm_verdict::{LoneQuestion, Reply, ask_reply, fault_reply};
use std::alloc::{AllocError, Global};

/// The reply where no theorem is found at the label.
fn not_found_reply(
    alloc: Global,
    files: &[File],
    label: &[u8],
    why: Unreached,
) -> Result<Reply, AllocError>
    requires { IsUnreached (map plain_file files.now) label.now why }
    ensures { IfOk result (λ reply. IsNotFoundReply (map plain_file files.now) label.now
        reply.text.items (number_of reply.status)) }
{
    match why {
        Unreached::Check(fault) => fault_reply(alloc, files, &fault),
        Unreached::Ask(rule) => ask_reply(alloc, label, AskFault::Rule(rule)),
    }
}

/// The answer about the theorem that was reached.
fn answer_about(
    alloc: Global,
    files: &[File],
    label: &[u8],
    reached: &Reached,
    question: &LoneQuestion,
) -> Result<Reply, AllocError>
    requires { HasReached (map plain_file files.now) label.now reached.now }
    ensures { IfOk result (λ reply. (r : HasReached (map plain_file files.now) label.now reached.now)
        → IsLoneAnswer question.now (map plain_file files.now) label.now r.before
        (plain_statement reached.now.statement) reply.text.items (number_of reply.status)) }
{
    match question {
        LoneQuestion::Known(telling) => known_reply(alloc, files, reached, *telling),
        LoneQuestion::KnownNormal => known_normal_reply(alloc, label, reached),
        LoneQuestion::Try { name, text } => {
            let proof = File { name, bytes: text };
            try_reply(alloc, &reached.book, reached.id, &proof)
        }
    }
}

/// The reply to a question about the theorem with a label alone.
pub(crate) fn lone_reply(
    alloc: Global,
    seed: Seed,
    files: &[File],
    label: &[u8],
    question: &LoneQuestion,
) -> Result<Reply, AllocError>
    ensures { IfOk result (λ reply. IsLoneReply question.now (map plain_file files.now) label.now
        reply.text.items (number_of reply.status)) }
{
    match read_to(alloc, seed, files, label) {
        Ok(reached) => answer_about(alloc, files, label, &reached, question),
        Err(why) => not_found_reply(alloc, files, label, why),
    }
}
