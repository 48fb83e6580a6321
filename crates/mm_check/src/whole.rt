//! Replies to questions about the whole database, for a whole file, and for lemmas.

ghost use Rattle.std.specs.Prelude.{◌≡◌, ◌<◌, ◌∷◌, List, map, length, IfOk, IfErr};
ghost use Rattle.mm_text.specs.Files.{plain_file};
ghost use Rattle.mm_step.specs.declared.profile.Profile.{Profile};
ghost use Rattle.mm_step.specs.declared.profile.Profile.TheVariants.{Lenient};
ghost use Rattle.mm_rules.specs.declared.fault.Refusal.{Refusal};
ghost use Rattle.mm_rules.specs.Answer.{plain_refusal, verdict_of_conclusion};
ghost use Rattle.mm_rules.specs.Status.{number_of};
ghost use Rattle.mm_rules.specs.Verdict.{HasVerdict};
ghost use Rattle.mm_verdict.specs.Faults.{AreAllFaults};
ghost use Rattle.mm_verdict.specs.Reply.{refusals_text, refusal_status};
ghost use Rattle.mm_check.specs.Reply.{IsFaultsReply, IsWhyReply, IsAllSavedReply};
ghost use Rattle.mm_check.specs.Reply.{IsLemmasReply, IsQuestionReply, IsWholeReply};

use crate::accepted::{Asked, checked_reply};
use mm_base::{File, Seed};
use mm_explain::{Unaccepted, explained};
use mm_lemmas::Selection;
use mm_minimize::SearchWatch;
use mm_render::SaveFault;
use mm_rules::{AskFault, AskRule, CheckFault, Refusal, Status, name_of};
use mm_save::saved_all;
use mm_step::Profile;
use mm_verdict::{
    AllFaults, Checked, Form, Reply, WholeQuestion, accepted_reply, all_faults, ask_reply,
    fault_reply, first_status, push_refusals,
};
use std::alloc::{AllocError, Global};

/// The reply that tells all faults, of which there is at least one.
fn refusals_reply(alloc: Global, files: &[File], refusals: &[Refusal]) -> Result<Reply, AllocError>
    requires { 0 < length refusals.now }
    ensures text { IfOk result (λ reply. reply.text.items
        ≡ refusals_text (map plain_file files.now) (map plain_refusal refusals.now)) }
    ensures status { IfOk result (λ reply. (first : Refusal) (others : List Refusal)
        → refusals.now ≡ first ∷ others → number_of reply.status ≡ refusal_status first.rule) }
{
    let mut text = Vec::new(alloc);
    push_refusals(&mut text, files, refusals)?;
    let status = first_status(refusals);
    Ok(Reply { text, status })
}

/// The reply to `faults` where these are all faults.
fn faults_told(alloc: Global, files: &[File], faults: &AllFaults) -> Result<Reply, AllocError>
    requires { (profile : Profile) × AreAllFaults profile (map plain_file files.now) faults.now }
    ensures { IfOk result (λ reply. (profile : Profile)
        → AreAllFaults profile (map plain_file files.now) faults.now
        → IsFaultsReply profile (map plain_file files.now) reply.text.items
        (number_of reply.status)) }
{
    match faults {
        AllFaults::Load(rule) => fault_reply(alloc, files, &CheckFault::Load(*rule)),
        AllFaults::Refused(refusals) => refusals_reply(alloc, files, refusals),
        AllFaults::Memory => Err(AllocError),
    }
}

/// The reply to `faults` where this is the answer of `all_faults`.
fn faults_answer(
    alloc: Global,
    files: &[File],
    answer: &Result<Checked, AllFaults>,
) -> Result<Reply, AllocError>
    requires { (profile : Profile)
        × IfErr answer.now (AreAllFaults profile (map plain_file files.now)) }
    ensures { IfOk result (λ reply. (profile : Profile)
        → IfOk answer.now (λ checked. HasVerdict profile (map plain_file files.now)
        (verdict_of_conclusion checked))
        → IfErr answer.now (AreAllFaults profile (map plain_file files.now))
        → IsFaultsReply profile (map plain_file files.now) reply.text.items
        (number_of reply.status)) }
{
    match answer {
        Ok(checked) => accepted_reply(alloc, files, checked),
        Err(faults) => faults_told(alloc, files, faults),
    }
}

/// The reply to `faults` under a profile.
fn faults_reply(
    alloc: Global,
    seed: Seed,
    profile: Profile,
    files: &[File],
) -> Result<Reply, AllocError>
    ensures { IfOk result (λ reply. IsFaultsReply profile (map plain_file files.now)
        reply.text.items (number_of reply.status)) }
{
    let answer = all_faults(alloc, seed, profile, files);
    let reply = faults_answer(alloc, files, &answer);
    drop(answer);
    reply
}

/// The reply to `why` under a profile, if so it is said with lines of the files.
fn why_reply(
    alloc: Global,
    seed: Seed,
    profile: Profile,
    files: &[File],
    source: bool,
) -> Result<Reply, AllocError>
    ensures { IfOk result (λ reply. IsWhyReply source profile (map plain_file files.now)
        reply.text.items (number_of reply.status)) }
{
    match explained(alloc, seed, profile, files, source) {
        Ok(checked) => accepted_reply(alloc, files, &checked),
        Err(Unaccepted::Load(rule)) => fault_reply(alloc, files, &CheckFault::Load(rule)),
        Err(Unaccepted::Refused { text, status }) => Ok(Reply { text, status }),
        Err(Unaccepted::Memory) => Err(AllocError),
    }
}

/// The reply to a question about the whole database under a profile.
pub(crate) fn whole_reply<W: SearchWatch>(
    alloc: Global,
    seed: Seed,
    files: &[File],
    profile: Profile,
    question: WholeQuestion,
    watch: &mut W,
) -> Result<Reply, AllocError>
    ensures { IfOk result (λ reply. IsWholeReply question profile (map plain_file files.now)
        reply.text.items (number_of reply.status)) }
{
    match question {
        WholeQuestion::Check => checked_reply(alloc, seed, profile, files, Asked::Verdict, watch),
        WholeQuestion::Faults => faults_reply(alloc, seed, profile, files),
        WholeQuestion::Why { source } => why_reply(alloc, seed, profile, files, source),
        WholeQuestion::Axioms { essential } => {
            let asked = Asked::Axioms { essential };
            checked_reply(alloc, seed, profile, files, asked, watch)
        }
        WholeQuestion::Shorter => checked_reply(alloc, seed, profile, files, Asked::Shorter, watch),
    }
}

/// The reply to the question which lemmas the library lacks: so many at most, each of which saves
/// so many bytes or more.
pub(crate) fn lemmas_reply<W: SearchWatch>(
    alloc: Global,
    seed: Seed,
    files: &[File],
    most: usize,
    least: usize,
    watch: &mut W,
) -> Result<Reply, AllocError>
    ensures { IfOk result (λ reply. IsLemmasReply most least (map plain_file files.now)
        reply.text.items (number_of reply.status)) }
{
    let asked = Asked::Lemmas(Selection { most, least });
    checked_reply(alloc, seed, Profile::Lenient, files, asked, watch)
}

/// The reply to the question for the file with a number, with each complete proof in a form.
pub(crate) fn all_saved_reply(
    alloc: Global,
    seed: Seed,
    files: &[File],
    form: Form,
    number: usize,
) -> Result<Reply, AllocError>
    requires { number < length files.now }
    ensures { IfOk result (λ reply. IsQuestionReply Lenient (map plain_file files.now)
        (IsAllSavedReply form (map plain_file files.now) number) reply.text.items
        (number_of reply.status)) }
{
    match saved_all(alloc, seed, files, number, form) {
        Ok(text) => Ok(Reply {
            text,
            status: Status::Done,
        }),
        Err(SaveFault::TooLong { label }) => ask_reply(alloc, label, AskFault::Rule(AskRule::L2)),
        Err(SaveFault::Ask(fault)) => ask_reply(alloc, name_of(files, number), fault),
        Err(SaveFault::Check(fault)) => fault_reply(alloc, files, &fault),
    }
}
