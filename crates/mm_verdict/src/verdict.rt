//! The verdict over a database.

ghost use Rattle.std.specs.Prelude.{◌≡◌, ◌⊎◌, true, map, option_map, [], IfOk, IfErr, OnOk, Ok};
ghost use Rattle.mm_base.specs.Token.{plain_token};
ghost use Rattle.mm_base.specs.Statement.{plain_statement, HasForm};
ghost use Rattle.mm_text.specs.Files.{plain_file};
ghost use Rattle.mm_text.specs.Remaining.{IsUnread};
ghost use Rattle.mm_step.specs.declared.profile.Profile.TheVariants.{Lenient};
ghost use Rattle.mm_rules.specs.Verdict.{ObeyTheProfile, CanBeRead, HasVerdict};
ghost use Rattle.mm_rules.specs.Verdict.{text_refusal as text_refusal_at};
ghost use Rattle.mm_rules.specs.Answer.{IsYes, IsOverLimit, IsWantOfMemory, IsVerdict};
ghost use Rattle.mm_rules.specs.Answer.{IsOnlyVerdict, KeepsLabels, KeepsCounts, KeepsUses};
ghost use Rattle.mm_rules.specs.Answer.{KeepsFiles, NamesFile, plain_refusal};
ghost use Rattle.mm_rules.specs.Answer.{verdict_of_conclusion};
ghost use Rattle.mm_verdict.specs.Mirror.Judged.{TakesNext, RefusesEnd, RefusesLoad, HasTaken, Knows};
ghost use Rattle.mm_verdict.specs.Mirror.Judged.{IsRead, IsAtEnd, StopsTurn, Turns};
ghost use Rattle.mm_verdict.specs.Mirror.Visits.{IsVisiting, HasVisited, HasStopped};

use crate::checked::Checked;
use mm_base::{File, Seed, Statement, Token};
use mm_frame::RuleFault;
use mm_proof::Prover;
use mm_rules::judge::judge;
use mm_rules::{
    CheckFault, Judged, Kept, LineCount, Nobody, Progress, Refusal, Rule, Stop, Visitor, line_of,
    size_of,
};
use mm_step::Profile;
use mm_text::{Statements, TextFault, TextRule};
use std::alloc::{AllocError, Global};

/// A reader of the files, or why they can't be taken as a whole.
pub fn load<'a>(
    alloc: Global,
    seed: Seed,
    files: &'a [File<'a>],
) -> Result<Statements<'a>, CheckFault<'a>>
    ensures unread { IfOk result (IsUnread (map plain_file files.now)) }
    ensures readable { OnOk result (CanBeRead (map plain_file files.now)) }
    ensures load { IfErr result (RefusesLoad (map plain_file files.now)) }
{
    match Statements::new(alloc, seed, files) {
        Ok(statements) => Ok(statements),
        Err(TextFault::Load(rule)) => Err(CheckFault::Load(Rule::Load(rule))),
        Err(TextFault::Memory) => Err(CheckFault::Memory),
        // No fault of the text comes before a token is read.
        Err(TextFault::Fault { .. }) => unreachable!(),
    }
}

/// The refusal at a fault of the text.
fn text_refusal<'a>(
    files: &[File<'a>],
    rule: TextRule,
    file: usize,
    at: u32,
    statement: usize,
    label: Option<Token<'a>>,
) -> Refusal<'a>
    ensures { plain_refusal result ≡ text_refusal_at (map plain_file files.now)
        (record {
          rule = rule;
          file = file;
          at = at;
          statement = statement;
          label = option_map plain_token label.entry;
        }) }
{
    Refusal {
        file,
        at: at as usize,
        line: line_of(files, file, at as usize),
        statement,
        label: label.map(|label| label.text),
        rule: Rule::Text(rule),
        step: 0,
    }
}

/// Reads the next statement; `false` where there is none.
pub fn next<'a>(
    files: &[File<'a>],
    statements: &mut Statements<'a>,
    into: &mut Statement<'a>,
) -> Result<bool, Stop<'a>>
    ensures taken { IfOk result (λ more. TakesNext statements.old more
        (plain_statement into.new) statements.new) }
    ensures formed { result ≡ Ok true → HasForm (plain_statement into.new) }
    ensures refused { IfErr result (RefusesEnd (map plain_file files.now) statements.old) }
{
    match statements.read(into) {
        Ok(more) => Ok(more),
        Err(
            TextFault::Fault {
                rule,
                file,
                at,
                statement,
                label,
            },
        ) => {
            let refusal = text_refusal(files, rule, file, at, statement, label);
            Err(Stop::Refused(refusal))
        }
        Err(TextFault::Memory) => Err(Stop::Memory),
        // A rule of the files as a whole is given by `load`.
        Err(TextFault::Load(_)) => unreachable!(),
    }
}

/// The progress before any statement of the files.
pub fn beginning<'a>(
    alloc: Global,
    seed: Seed,
    files: &'a [File<'a>],
) -> Result<Progress<'a>, AllocError>
    ensures taken { IfOk result (HasTaken []) }
    ensures known { IfOk result (Knows []) }
    ensures lines { IfOk result (λ progress. progress.lines ≡ map plain_file files.now) }
{
    match Prover::new(alloc, seed) {
        Ok(prover) => Ok(Progress {
            prover,
            count: 0,
            proofs: 0,
            incomplete: Vec::new(alloc),
            kept: Kept::new(alloc),
            lines: LineCount::new(files),
        }),
        Err(RuleFault::Memory) => Err(AllocError),
        // No statement was taken, so that no rule is broken.
        Err(RuleFault::Rule(_)) => unreachable!(),
    }
}

/// Before the first statement, makes room for what all of them have, so that lists need not be
/// moved while they grow. Files without a statement, which may be great, need none.
pub fn make_room<'a>(files: &[File<'a>], progress: &mut Progress<'a>)
    ensures { progress.new ≡ progress.old }
{
    if progress.count == 0 {
        let size = size_of(files);
        progress.prover.prepare(size);
        progress.kept.prepare(size);
    }
}

/// Reads the next statement, judges it, and takes it into the progress, also where its proof is
/// refused: what it came to, or nothing where there is none.
fn judge_next<'a>(
    profile: Profile,
    files: &[File<'a>],
    statements: &mut Statements<'a>,
    progress: &mut Progress<'a>,
    into: &mut Statement<'a>,
) -> Result<Option<Judged<'a>>, Stop<'a>>
    requires { IsRead (map plain_file files.now) progress.old statements.old }
    ensures turned { IfOk result (λ judged. Turns profile (map plain_file files.now) progress.old
        statements.old judged (plain_statement into.new) progress.new statements.new) }
    ensures stopped { IfErr result (StopsTurn (map plain_file files.now) progress.old
        statements.old) }
{
    if !next(files, statements, into)? {
        return Ok(None);
    }
    make_room(files, progress);
    Ok(Some(judge(profile, progress, into)?))
}

/// Reads the statements that are left, one after the other, and judges each; the visitor sees them,
/// as long as it goes on.
fn judge_rest<'a, V: Visitor<'a>>(
    alloc: Global,
    profile: Profile,
    files: &[File<'a>],
    statements: &mut Statements<'a>,
    progress: &mut Progress<'a>,
    visitor: &mut V,
) -> Result<(), CheckFault<'a>>
    requires { IsVisiting V.has_seen profile (map plain_file files.now) visitor.old visitor.old
        progress.old statements.old }
    ensures visited { OnOk result (HasVisited V.has_seen profile (map plain_file files.now)
        visitor.old visitor.new progress.new) }
    ensures stopped { IfErr result (HasStopped V.has_seen V.may_stop profile
        (map plain_file files.now) visitor.old visitor.new) }
{
    let mut statement = Statement::empty(alloc);
    while let Some(judged) = judge_next(profile, files, statements, progress, &mut statement)? {
        visitor.see(progress.prover.book(), &statement, judged)?;
    }
    Ok(())
}

/// Judges the statements that a new reader has, and answers what checking comes to.
fn last_progress<'a, V: Visitor<'a>>(
    alloc: Global,
    seed: Seed,
    profile: Profile,
    files: &'a [File<'a>],
    statements: &mut Statements<'a>,
    visitor: &mut V,
) -> Result<Progress<'a>, CheckFault<'a>>
    requires unread { IsUnread (map plain_file files.now) statements.old }
    requires readable { CanBeRead (map plain_file files.now) }
    requires begun { V.has_seen profile (map plain_file files.now) visitor.old visitor.old [] [] }
    ensures visited { IfOk result (HasVisited V.has_seen profile (map plain_file files.now)
        visitor.old visitor.new) }
    ensures stopped { IfErr result (HasStopped V.has_seen V.may_stop profile
        (map plain_file files.now) visitor.old visitor.new) }
{
    let mut progress: Progress<'a> = beginning(alloc, seed, files)?;
    match judge_rest(alloc, profile, files, statements, &mut progress, visitor) {
        Ok(()) => Ok(progress),
        Err(fault) => {
            drop(progress);
            Err(fault)
        }
    }
}

/// Judges the statements of the files in a profile, one after the other; the visitor sees each as
/// soon as it is judged. Whether to go on past a proof that is refused is its choice. What breaks a
/// rule of meaning ends the way, and so does a fault of the text.
pub fn judge_files<'a, V: Visitor<'a>>(
    alloc: Global,
    seed: Seed,
    profile: Profile,
    files: &'a [File<'a>],
    visitor: &mut V,
) -> Result<Progress<'a>, CheckFault<'a>>
    requires { CanBeRead (map plain_file files.now)
        → V.has_seen profile (map plain_file files.now) visitor.old visitor.old [] [] }
    ensures visited { IfOk result (HasVisited V.has_seen profile (map plain_file files.now)
        visitor.old visitor.new) }
    ensures stopped { IfErr result (HasStopped V.has_seen V.may_stop profile
        (map plain_file files.now) visitor.old visitor.new) }
{
    let mut statements = load(alloc, seed, files)?;
    let outcome = last_progress(alloc, seed, profile, files, &mut statements, visitor);
    drop(statements);
    outcome
}

/// What is kept of a database once all its statements are judged, and nothing is at fault.
pub fn conclude<'a>(profile: Profile, files: &'a [File<'a>], progress: Progress<'a>) -> Checked<'a>
    requires { IsAtEnd profile (map plain_file files.now) progress }
    ensures verdict { HasVerdict profile (map plain_file files.now)
        (verdict_of_conclusion result) }
    ensures labels { KeepsLabels (map plain_file files.now) result }
    ensures counts { KeepsCounts (map plain_file files.now) result }
    ensures uses { KeepsUses (map plain_file files.now) result }
    ensures files { KeepsFiles (map plain_file files.now) result }
    ensures profile { result.profile ≡ profile }
{
    Checked::new(profile, files, progress)
}

/// Judges the statements of the files in a profile, up to the first fault.
fn judge_all<'a>(
    alloc: Global,
    seed: Seed,
    profile: Profile,
    files: &'a [File<'a>],
) -> Result<Checked<'a>, CheckFault<'a>>
    ensures verdict { IsVerdict profile (map plain_file files.now) result }
    ensures labels { IfOk result (KeepsLabels (map plain_file files.now)) }
    ensures counts { IfOk result (KeepsCounts (map plain_file files.now)) }
    ensures uses { IfOk result (KeepsUses (map plain_file files.now)) }
    ensures files { IfOk result (KeepsFiles (map plain_file files.now)) }
    ensures profile { IfOk result (λ checked. checked.profile ≡ profile) }
{
    let progress = judge_files(alloc, seed, profile, files, &mut Nobody)?;
    Ok(conclude(profile, files, progress))
}

/// Checks in a profile the database that the files hold; the first one is the top file.
///
/// A profile is what is demanded of the proofs beyond the language (`docs/LANGUAGE.md`).
/// `Profile::Lenient` demands no form. `Profile::Strict` demands of each compressed proof, and of
/// what is known of an incomplete one, that its list holds no mandatory hypothesis and no label
/// twice, and that each `Z` stands directly after the number of an assertion in the list (the
/// Metamath book, appendix B); else P15 is broken. The most symbols of an expression, L1, are
/// 1,048,576 in the lenient profile and 16,777,216 in the strict one.
///
/// Limits and memory aside, the answer is yes exactly if the files obey every rule of the language,
/// and each proof spells a derivation tree of its assertion from active hypotheses and earlier
/// assertions, respecting all distinct variables (the Metamath book, chapter 4), and has the form
/// that the profile demands.
///
/// # Errors
///
/// `Load` where the files can't be taken as a whole, else `Refused` with the first statement at
/// fault and its rule; `Memory` where a growth was refused, and nothing is said of the files then.
/// The checked prefix of an incomplete proof is judged too (the Metamath book, section 4.4.4).
pub fn check_with<'a>(
    alloc: Global,
    seed: Seed,
    profile: Profile,
    files: &'a [File<'a>],
) -> Result<Checked<'a>, CheckFault<'a>>
    // What is answered is the verdict over the files in the profile, and there is no other.
    ensures verdict { IsVerdict profile (map plain_file files.now) result }
    ensures only { IsOnlyVerdict profile (map plain_file files.now) result }

    // Yes says that the profile is obeyed and each proof spells a derivation tree.
    ensures yes { IsYes result → ObeyTheProfile profile (map plain_file files.now) }

    // Such files get yes, the limit on expressions and memory aside.
    ensures accepted { ObeyTheProfile profile (map plain_file files.now)
        → IsYes result ⊎ IsOverLimit result ⊎ IsWantOfMemory result }

    // The labels are those of the database, and so are the counts of statements and of accepted
    // proofs, also where proofs are incomplete.
    ensures labels { IfOk result (KeepsLabels (map plain_file files.now)) }
    ensures counts { IfOk result (KeepsCounts (map plain_file files.now)) }

    // Of each complete proof the assertions of its tree are kept.
    ensures uses { IfOk result (KeepsUses (map plain_file files.now)) }

    // So are the files, which questions read again.
    ensures files { IfOk result (KeepsFiles (map plain_file files.now)) }

    // A refusal's file is one of those that were handed in.
    ensures file { NamesFile (map plain_file files.now) result }

    // The profile is kept too, in which questions judge proofs again.
    ensures profile { IfOk result (λ checked. checked.profile ≡ profile) }
{
    judge_all(alloc, seed, profile, files)
}

/// Checks the database that the files hold in the lenient profile; the first one is the top file.
///
/// Limits and memory aside, the answer is yes exactly if the files obey every rule of the profile
/// of the language (`docs/LANGUAGE.md`), and each proof spells a derivation tree of its assertion
/// from active hypotheses and earlier assertions, respecting all distinct variables (the Metamath
/// book, chapter 4).
///
/// # Errors
///
/// `Load` where the files can't be taken as a whole, else `Refused` with the first statement at
/// fault and its rule; `Memory` where a growth was refused, and nothing is said of the files then.
/// The checked prefix of an incomplete proof is judged too (the Metamath book, section 4.4.4).
pub fn check<'a>(
    alloc: Global,
    seed: Seed,
    files: &'a [File<'a>],
) -> Result<Checked<'a>, CheckFault<'a>>
    // What is answered is the verdict over the files, and there is no other.
    ensures verdict { IsVerdict Lenient (map plain_file files.now) result }
    ensures only { IsOnlyVerdict Lenient (map plain_file files.now) result }

    // Yes says that the profile is obeyed and each proof spells a derivation tree.
    ensures yes { IsYes result → ObeyTheProfile Lenient (map plain_file files.now) }

    // Such files get yes, the limit on expressions and memory aside.
    ensures accepted { ObeyTheProfile Lenient (map plain_file files.now)
        → IsYes result ⊎ IsOverLimit result ⊎ IsWantOfMemory result }

    // The labels are those of the database, and so are the counts of statements and of accepted
    // proofs, also where proofs are incomplete.
    ensures labels { IfOk result (KeepsLabels (map plain_file files.now)) }
    ensures counts { IfOk result (KeepsCounts (map plain_file files.now)) }

    // Of each complete proof the assertions of its tree are kept.
    ensures uses { IfOk result (KeepsUses (map plain_file files.now)) }

    // So are the files, which questions read again.
    ensures files { IfOk result (KeepsFiles (map plain_file files.now)) }

    // A refusal's file is one of those that were handed in.
    ensures file { NamesFile (map plain_file files.now) result }

    // The profile kept is the lenient one.
    ensures profile { IfOk result (λ checked. checked.profile ≡ Lenient) }
{
    check_with(alloc, seed, Profile::Lenient, files)
}
