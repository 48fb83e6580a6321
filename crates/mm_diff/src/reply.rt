//! The reply to `mm diff`.

ghost use Rattle.std.specs.Prelude.{◌≡◌, ◌↔◌, ◌+◌, List, [], map, length, None, IfOk, IsTrue, Ok};
ghost use Rattle.mm_base.specs.Statement.{PlainStatement};
ghost use Rattle.mm_text.specs.Files.{plain_file};
ghost use Rattle.mm_text.specs.Reading.{Reads};
ghost use Rattle.mm_rules.specs.Answer.{IsVerdict, KeepsFiles, KeepsUses};
ghost use Rattle.mm_rules.specs.Status.{number_of};
ghost use Rattle.mm_step.specs.declared.profile.Profile.{Profile};
ghost use Rattle.mm_diff.specs.Diff.{changes_status as changes_status_of, total};
ghost use Rattle.mm_diff.specs.Reply.{IsDiffReply, IsReplyBeside};
ghost use Rattle.mm_diff.specs.Mirror.Changes.{plain_changes};
ghost use Rattle.mm_alike.specs.Mirror.Databases.{IsComplete};
ghost use Rattle.mm_diff.specs.Mirror.Outcomes.{TellsChangesIn};
ghost use Rattle.mm_diff.specs.Mirror.Outcomes.{IsOutcome};

use crate::changes::{Changes, changes_between};
use crate::text::changes_text;
use mm_alike::{Database, Home, homes_of};
use mm_base::{File, Seed};
use mm_rules::Status;
use mm_step::Profile;
use mm_verdict::{Checked, Reply, accepted_reply, check_with, fault_reply};
use std::alloc::{AllocError, Global};

/// What checking a database comes to.
#[derive(Drop)]
enum Outcome<'a> {
    /// Each proof is accepted.
    Accepted(Database<'a>),
    /// Something is at fault, or a proof is incomplete: the reply of `check`.
    Refused(Reply),
}

/// Whether no label and no proof changed.
fn are_named_alike(changes: &Changes) -> bool
    ensures { IsTrue result ↔ (length changes.now.gone.items + length changes.now.added.items
        + length changes.now.changed.items + length changes.now.reproved.items
        + length changes.now.renamed.items ≡ 0) }
{
    changes.gone.is_empty()
        && changes.added.is_empty()
        && changes.changed.is_empty()
        && changes.reproved.is_empty()
        && changes.renamed.is_empty()
}

/// Whether no assertion was moved, and no theorem depends on other axioms.
fn are_placed_alike(changes: &Changes) -> bool
    ensures { IsTrue result ↔ (length changes.now.moved.items + length changes.now.further.items
        + length changes.now.less.items ≡ 0) }
{
    changes.moved.is_empty() && changes.further.is_empty() && changes.less.is_empty()
}

/// Whether nothing changed.
fn are_none(changes: &Changes) -> bool
    ensures { IsTrue result ↔ (total (plain_changes changes.now) ≡ 0) }
{
    if are_named_alike(changes) {
        are_placed_alike(changes)
    } else {
        false
    }
}

/// The status: whether anything changed.
fn changes_status(changes: &Changes) -> Status
    ensures { number_of result ≡ changes_status_of (plain_changes changes.now) }
{
    if are_none(changes) {
        Status::Done
    } else {
        Status::Refused
    }
}

/// The reply that tells what changed from the old database to the new one.
fn changes_reply(
    alloc: Global,
    old: &Checked,
    old_homes: &[Home],
    new: &Checked,
    new_homes: &[Home],
) -> Result<Reply, AllocError>
    requires old { IsComplete old.now old_homes.now }
    requires new { IsComplete new.now new_homes.now }
    ensures { IfOk result (λ reply. TellsChangesIn old.now new.now reply.text.items
        (number_of reply.status)) }
{
    let changes = changes_between(alloc, old, old_homes, new, new_homes)?;
    let text = changes_text(alloc, &old.book, &new.book, &changes)?;
    Ok(Reply {
        text,
        status: changes_status(&changes),
    })
}

/// What checking the files comes to, where a proof is incomplete.
fn incomplete_outcome<'a>(
    alloc: Global,
    files: &[File],
    checked: &Checked,
) -> Result<Outcome<'a>, AllocError>
    requires { ¬ (checked.now.incomplete ≡ []) }
    ensures { IfOk result (λ outcome. (profile : Profile)
        → IsVerdict profile (map plain_file files.now) (Ok checked.now)
        → IsOutcome profile (map plain_file files.now) outcome) }
{
    let reply = accepted_reply(alloc, files, checked)?;
    Ok(Outcome::Refused(reply))
}

/// What checking the files comes to, where this is kept of a database in which nothing is at fault.
fn outcome_of_checked<'a>(
    alloc: Global,
    files: &'a [File<'a>],
    checked: Checked<'a>,
) -> Result<Outcome<'a>, AllocError>
    ensures { IfOk result (λ outcome. (profile : Profile)
        → IsVerdict profile (map plain_file files.now) (Ok checked.entry)
        → KeepsUses (map plain_file files.now) checked.entry
        → KeepsFiles (map plain_file files.now) checked.entry
        → IsOutcome profile (map plain_file files.now) outcome) }
{
    if checked.is_complete() {
        let homes = homes_of(alloc, &checked)?;
        return Ok(Outcome::Accepted(Database { checked, homes }));
    }
    let outcome = incomplete_outcome(alloc, files, &checked);
    drop(checked);
    outcome
}

/// What checking the files in the profile comes to.
fn outcome_of<'a>(
    alloc: Global,
    seed: Seed,
    profile: Profile,
    files: &'a [File<'a>],
) -> Result<Outcome<'a>, AllocError>
    ensures { IfOk result (IsOutcome profile (map plain_file files.now)) }
{
    match check_with(alloc, seed, profile, files) {
        Ok(checked) => outcome_of_checked(alloc, files, checked),
        Err(fault) => {
            let reply = fault_reply(alloc, files, &fault)?;
            Ok(Outcome::Refused(reply))
        }
    }
}

/// The reply over the new files, which are checked first, beside the old database.
fn reply_beside(
    alloc: Global,
    seed: Seed,
    profile: Profile,
    old: &Checked,
    old_homes: &[Home],
    new: &[File],
) -> Result<Reply, AllocError>
    requires { IsComplete old.now old_homes.now }
    ensures { IfOk result (λ reply. (before : List PlainStatement)
        → Reads old.now.files before None → IsReplyBeside profile before
        (map plain_file new.now) reply.text.items (number_of reply.status)) }
{
    match outcome_of(alloc, seed, profile, new)? {
        Outcome::Accepted(database) => {
            let reply = changes_reply(alloc, old, old_homes, &database.checked, &database.homes);
            drop(database);
            reply
        }
        Outcome::Refused(reply) => Ok(reply),
    }
}

/// The reply that tells what changed from the old files to the new ones, both of which are checked
/// first: a line `G LABEL` for each assertion that is gone, in the order of the old database, then
/// `A LABEL` for each that was added, `C LABEL` for each that says something else, `P LABEL` for
/// each that says the same, but whose proof spells another tree, `R OLD NEW` for each that is
/// renamed and `M LABEL` for each that was moved, in the order of the new one; then `F LABEL AXIOM..`
/// for each theorem of both that depends further on these axioms, `L LABEL AXIOM..` for each that
/// depends on these no longer, and a line with the sums. The status is 0 where nothing changed,
/// else 1.
///
/// An assertion says something else where its kind or expression is another, an expression or the
/// kind of a mandatory hypothesis, or a mandatory distinct pair. Labels of hypotheses don't count.
/// Trees are compared by the labels of their steps. One that is gone and one that was added are told
/// as renamed where each alone says the same as the other. One was moved
/// where its order against another is turned that is no further from its place, among those whose
/// labels both have. Where the old files don't get yes, the reply is that of `check` for them; where
/// the new ones don't, for those.
pub fn diff_reply(
    alloc: Global,
    seed: Seed,
    profile: Profile,
    old: &[File],
    new: &[File],
) -> Result<Reply, AllocError>
    ensures { IfOk result (λ reply. IsDiffReply profile (map plain_file old.now)
        (map plain_file new.now) reply.text.items (number_of reply.status)) }
{
    match outcome_of(alloc, seed, profile, old)? {
        Outcome::Accepted(database) => {
            let reply = reply_beside(
                alloc,
                seed,
                profile,
                &database.checked,
                &database.homes,
                new,
            );
            drop(database);
            reply
        }
        Outcome::Refused(reply) => Ok(reply),
    }
}
