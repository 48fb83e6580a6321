//! Replies over a database that is checked first: one function for all that is asked of it.

ghost use Rattle.std.specs.Prelude.{◌≡◌, List, map, length, IfOk, MatchResult, None};
ghost use Rattle.mm_base.specs.Statement.{PlainStatement};
ghost use Rattle.mm_text.specs.Files.{plain_file};
ghost use Rattle.mm_text.specs.Reading.{Reads};
ghost use Rattle.mm_step.specs.declared.profile.Profile.{Profile};
ghost use Rattle.mm_rules.specs.Answer.{IsVerdict, KeepsLabels, KeepsFiles};
ghost use Rattle.mm_rules.specs.Answer.{verdict_of_conclusion};
ghost use Rattle.mm_rules.specs.Status.{number_of};
ghost use Rattle.mm_rules.specs.Verdict.{HasVerdict};
ghost use Rattle.mm_verdict.specs.Reply.{status_of};
ghost use Rattle.mm_check.specs.Asked.{AsksWithin, IsAnswerOver};
ghost use Rattle.mm_check.specs.Reply.{IsQuestionReply, ListsShorter};
ghost use Rattle.mm_lemmas.specs.Told.{ListsLemmas};

use crate::question::{answer_to, text_reply};
use mm_axioms::all_axioms_text;
use mm_base::{File, Seed};
use mm_lemmas::{LemmaList, Selection, lemma_list};
use mm_minimize::{SearchWatch, Searched, Wanted, minimized_file, minimized_list};
use mm_rules::{AskFault, CheckFault, name_of};
use mm_step::Profile;
use mm_verdict::{
    Checked, Question, Reply, accepted_reply, check_with, conclusion_status, verdict_reply,
};
use std::alloc::{AllocError, Global};

/// What is asked of a database that is checked first.
#[derive(Clone, Copy)]
pub(crate) enum Asked<'a> {
    /// For the verdict alone.
    Verdict,
    /// What each theorem depends on; if `essential`, of the axioms those alone that have its type
    /// code.
    Axioms {
        essential: bool,
    },
    /// Which proofs become shorter by what the library has.
    Shorter,
    /// A question about the statement with a label.
    About {
        label: &'a [u8],
        question: Question<'a>,
    },
    /// For the bytes of a file with shorter proofs.
    File(Wanted),
    /// Which lemmas the library lacks.
    Lemmas(Selection),
}

/// The reply that lists this of the whole database.
fn list_reply(checked: &Checked, list: Result<Vec<u8>, AllocError>) -> Result<Reply, AllocError>
    ensures { IfOk result (λ reply. MatchResult list
        (λ text. (reply.text.items ≡ text.items)
        × (number_of reply.status ≡ status_of (verdict_of_conclusion checked.now)))
        (λ fault. ⊥)) }
{
    match list {
        Ok(text) => Ok(Reply {
            text,
            status: conclusion_status(checked),
        }),
        Err(fault) => Err(fault),
    }
}

/// A line for each proof that becomes shorter, and the sums.
fn shorter_text<W: SearchWatch>(
    alloc: Global,
    checked: &Checked,
    watch: &mut W,
) -> Result<Vec<u8>, AllocError>
    requires { KeepsLabels checked.now.files checked.now }
    ensures { IfOk result (λ text. (statements : List PlainStatement)
        → Reads checked.now.files statements None
        → ListsShorter checked.now.profile checked.now.files statements text.items) }
{
    match minimized_list(alloc, checked, watch) {
        Ok(text) => Ok(text),
        Err(AskFault::Memory) => Err(AllocError),
        // Nothing but lack of memory keeps the list from being made.
        Err(_) => unreachable!(),
    }
}

/// A line for each lemma that the library lacks, and the sums. The watch is told where the search
/// was broken off.
fn lemmas_text<W: SearchWatch>(
    alloc: Global,
    checked: &Checked,
    selection: Selection,
    watch: &mut W,
) -> Result<Vec<u8>, AllocError>
    ensures { IfOk result (λ text. (statements : List PlainStatement)
        → Reads checked.now.files statements None
        → ListsLemmas selection.most selection.least statements text.items) }
{
    match lemma_list(alloc, checked, selection, watch) {
        Ok(LemmaList { text, is_cut }) => {
            if is_cut {
                watch.searched(Searched::BrokenOff);
            }
            Ok(text)
        }
        Err(AskFault::Memory) => Err(AllocError),
        // Nothing but lack of memory keeps the list from being made.
        Err(_) => unreachable!(),
    }
}

/// The answer of a database in which nothing is at fault.
fn answer_over<W: SearchWatch>(
    alloc: Global,
    files: &[File],
    checked: &Checked,
    asked: Asked,
    watch: &mut W,
) -> Result<Reply, AllocError>
    requires files { KeepsFiles (map plain_file files.now) checked.now }
    requires labels { KeepsLabels checked.now.files checked.now }
    requires within { AsksWithin asked (length files.now) }
    ensures { IfOk result (λ reply. (statements : List PlainStatement)
        → Reads checked.now.files statements None
        → HasVerdict checked.now.profile checked.now.files (verdict_of_conclusion checked.now)
        → IsAnswerOver asked.entry checked.now.profile checked.now.files statements
        reply.text.items (number_of reply.status)) }
{
    match asked {
        Asked::Verdict => accepted_reply(alloc, files, checked),
        Asked::Axioms { essential } => {
            list_reply(checked, all_axioms_text(alloc, checked, essential))
        }
        Asked::Shorter => list_reply(checked, shorter_text(alloc, checked, watch)),
        Asked::About { label, question } => answer_to(alloc, checked, &question, label, watch),
        Asked::File(wanted) => {
            let name = name_of(files, wanted.number);
            text_reply(alloc, name, minimized_file(alloc, checked, wanted, watch))
        }
        Asked::Lemmas(selection) => {
            list_reply(checked, lemmas_text(alloc, checked, selection, watch))
        }
    }
}

/// The reply to what is asked, where this is the answer of `check_with`.
fn answer_or_verdict<W: SearchWatch>(
    alloc: Global,
    files: &[File],
    answer: &Result<Checked, CheckFault>,
    asked: Asked,
    watch: &mut W,
) -> Result<Reply, AllocError>
    requires labels { IfOk answer.now (KeepsLabels (map plain_file files.now)) }
    requires files { IfOk answer.now (KeepsFiles (map plain_file files.now)) }
    requires within { AsksWithin asked (length files.now) }
    ensures { IfOk result (λ reply. (profile : Profile)
        → IfOk answer.now (λ checked. checked.profile ≡ profile)
        → IsVerdict profile (map plain_file files.now) answer.now
        → IsQuestionReply profile (map plain_file files.now)
        (IsAnswerOver asked.entry profile (map plain_file files.now)) reply.text.items
        (number_of reply.status)) }
{
    match answer {
        Ok(checked) => answer_over(alloc, files, checked, asked, watch),
        Err(_) => verdict_reply(alloc, files, answer),
    }
}

/// The reply to what is asked of the files, which are checked first.
pub(crate) fn checked_reply<W: SearchWatch>(
    alloc: Global,
    seed: Seed,
    profile: Profile,
    files: &[File],
    asked: Asked,
    watch: &mut W,
) -> Result<Reply, AllocError>
    requires { AsksWithin asked (length files.now) }
    ensures { IfOk result (λ reply. IsQuestionReply profile (map plain_file files.now)
        (IsAnswerOver asked.entry profile (map plain_file files.now)) reply.text.items
        (number_of reply.status)) }
{
    let answer = check_with(alloc, seed, profile, files);
    let reply = answer_or_verdict(alloc, files, &answer, asked, watch);
    drop(answer);
    reply
}
