//! The reply to the question who uses an assertion, also where proofs are at fault.

ghost use Rattle.std.specs.Prelude.{◌≡◌, List, MatchOption, None, Some, map, IfOk};
ghost use Rattle.mm_base.specs.Statement.{PlainStatement};
ghost use Rattle.mm_text.specs.Files.{plain_file};
ghost use Rattle.mm_text.specs.Reading.{Reads};
ghost use Rattle.mm_step.specs.declared.profile.Profile.TheVariants.{Lenient};
ghost use Rattle.mm_rules.specs.Answer.{IsVerdict, KeepsFiles, KeepsLabels, verdict_of_fault};
ghost use Rattle.mm_rules.specs.Status.{number_of};
ghost use Rattle.mm_rules.specs.Verdict.{HasVerdict, Verdict};
ghost use Rattle.mm_verdict.specs.declared.question.Question.TheVariants as question;
ghost use Rattle.mm_check.specs.Reply.{IsAnswerTo, IsUsersReply};

use crate::question::answer_to;
use mm_axioms::accepted_users;
use mm_base::{File, Seed};
use mm_minimize::{SearchWatch, Searched};
use mm_rules::{CheckFault, Status};
use mm_step::Profile;
use mm_verdict::{Checked, Question, Reply, ask_reply, check_with, fault_reply};
use std::alloc::{AllocError, Global};

/// The answer of a database in which nothing is at fault. The watch is told how many proofs are
/// incomplete, if one is.
fn checked_answer<W: SearchWatch>(
    alloc: Global,
    checked: &Checked,
    label: &[u8],
    all: bool,
    watch: &mut W,
) -> Result<Reply, AllocError>
    requires { KeepsLabels checked.now.files checked.now }
    ensures { IfOk result (λ reply. (statements : List PlainStatement)
        → Reads checked.now.files statements None
        → IsAnswerTo checked.now.profile (question.Users all) checked.now.files label.now
        statements reply.text.items (number_of reply.status)) }
{
    let count = checked.incomplete().len();
    if count > 0 {
        watch.searched(Searched::Incomplete(count));
    }
    let question = Question::Users { all };
    answer_to(alloc, checked, &question, label, watch)
}

/// The reply with the users that were found, of which the watch is told that proofs are at fault; or
/// the refusal, where none were sought.
fn told_users<W: SearchWatch>(found: Option<Vec<u8>>, refused: Reply, watch: &mut W) -> Reply
    ensures { MatchOption found
        ((result.text.items ≡ refused.text.items) × (result.status ≡ refused.status))
        (λ text. (result.text.items ≡ text.items) × (number_of result.status ≡ 0)) }
{
    match found {
        Some(text) => {
            watch.searched(Searched::Faulty);
            Reply {
                text,
                status: Status::Done,
            }
        }
        None => refused,
    }
}

/// The answer of a database that is refused for this fault: by its accepted proofs, if proofs alone
/// are at fault, which the watch is told; else the refusal.
fn answer_beside<W: SearchWatch>(
    alloc: Global,
    seed: Seed,
    files: &[File],
    fault: &CheckFault,
    label: &[u8],
    all: bool,
    watch: &mut W,
) -> Result<Reply, AllocError>
    ensures { IfOk result (λ reply. ((verdict : Verdict) → verdict_of_fault fault.now ≡ Some verdict
        → HasVerdict Lenient (map plain_file files.now) verdict)
        → IsUsersReply all (map plain_file files.now) label.now reply.text.items
        (number_of reply.status)) }
{
    let refused = fault_reply(alloc, files, fault)?;
    match accepted_users(alloc, seed, files, label, all) {
        Ok(found) => Ok(told_users(found, refused, watch)),
        Err(fault) => {
            watch.searched(Searched::Faulty);
            ask_reply(alloc, label, fault)
        }
    }
}

/// The reply where this is the answer of `check_with`.
fn users_answer<W: SearchWatch>(
    alloc: Global,
    seed: Seed,
    files: &[File],
    answer: &Result<Checked, CheckFault>,
    label: &[u8],
    all: bool,
    watch: &mut W,
) -> Result<Reply, AllocError>
    requires labels { IfOk answer.now (KeepsLabels (map plain_file files.now)) }
    requires files { IfOk answer.now (KeepsFiles (map plain_file files.now)) }
    ensures { IfOk result (λ reply. IfOk answer.now (λ checked. checked.profile ≡ Lenient)
        → IsVerdict Lenient (map plain_file files.now) answer.now
        → IsUsersReply all (map plain_file files.now) label.now reply.text.items
        (number_of reply.status)) }
{
    match answer {
        Ok(checked) => checked_answer(alloc, checked, label, all, watch),
        Err(fault) => answer_beside(alloc, seed, files, fault, label, all, watch),
    }
}

/// The reply to the question for the theorems that use the assertion with a label, or for all that
/// depend on it. Where proofs alone are at fault, those that are accepted count. The watch is told
/// whether some are at fault, or else how many are incomplete.
pub(crate) fn users_reply<W: SearchWatch>(
    alloc: Global,
    seed: Seed,
    files: &[File],
    label: &[u8],
    all: bool,
    watch: &mut W,
) -> Result<Reply, AllocError>
    ensures { IfOk result (λ reply. IsUsersReply all (map plain_file files.now) label.now
        reply.text.items (number_of reply.status)) }
{
    let answer = check_with(alloc, seed, Profile::Lenient, files);
    let reply = users_answer(alloc, seed, files, &answer, label, all, watch);
    drop(answer);
    reply
}
