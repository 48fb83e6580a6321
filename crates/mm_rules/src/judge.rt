//! The verdict over one statement.

ghost use Rattle.std.specs.Prelude.{◌≡◌, ◌+◌, ◌<◌, ◌≤◌, ◌^◌, IfOk, IfErr, option_map};
ghost use Rattle.mm_base.specs.declared.statement.Kind.TheVariants.{Closing};
ghost use Rattle.mm_base.specs.Statement.{plain_statement, HasForm, bytes_in};
ghost use Rattle.mm_base.specs.MostBytes.{most_bytes};
ghost use Rattle.mm_frame.specs.Active.{open_marks, close_marks};
ghost use Rattle.mm_rules.specs.Verdict.{refusal_of};
ghost use Rattle.mm_rules.specs.Mirror.Judged.{IsLastProof, IsTaken, JudgesProof};
ghost use Rattle.mm_rules.specs.Mirror.Judged.{RefusesMeaning, TriesProof};
ghost use Rattle.mm_rules.specs.Answer.{plain_refusal};

use crate::fault::{Refusal, Stop};
use crate::position::LineCount;
use crate::progress::Progress;
use crate::rule::Rule;
use mm_base::{Kind, Statement};
use mm_frame::{LabelId, RuleFault, Taken};
use mm_proof::{Proved, Prover};
use mm_step::{Profile, ProofFault};
use std::alloc::AllocError;

/// What a statement came to that breaks no rule of meaning.
#[derive(Clone, Copy)]
pub enum Judged<'a> {
    /// A theorem: a `$p` with a complete proof, by its number.
    Theorem(LabelId),
    /// Another statement that obeys the rules.
    Other,
    /// A `$p` whose proof, or what is known of it, is refused.
    Faulty(Refusal<'a>),
}

/// The text of the statement's label, if it has one.
fn label_of<'a>(statement: &Statement<'a>) -> Option<&'a [u8]>
    ensures { option_map (λ l. l.now) result
        ≡ option_map (λ t. t.text) (plain_statement statement.now).label }
{
    match &statement.label {
        Some(label) => Some(label.text),
        None => None,
    }
}

/// The refusal at the first token of a statement.
pub fn refusal<'a>(
    lines: &mut LineCount,
    count: usize,
    statement: &Statement<'a>,
    rule: Rule,
    step: usize,
) -> Refusal<'a>
    requires { count < 2 ^ 63 }
    ensures told { plain_refusal result
        ≡ refusal_of lines.old count (plain_statement statement.now) rule step }
    ensures files { lines.new ≡ lines.old }
{
    Refusal {
        file: statement.first.file,
        at: statement.first.at as usize,
        line: lines.line_of(statement.first.file, statement.first.at as usize),
        statement: count + 1,
        label: label_of(statement),
        rule,
        step,
    }
}

/// The verdict on the proof of a `$p`, which the book took last, or on what is known of it, where a
/// step is unknown. Where it is complete, the prover has the assertions that it uses.
fn judge_proof<'a>(
    prover: &mut Prover<'a>,
    profile: Profile,
    id: LabelId,
    statement: &Statement<'a>,
) -> Result<Proved, ProofFault>
    requires formed { HasForm (plain_statement statement.now) }
    requires last { IsLastProof prover.old.book.statements id.0 (plain_statement statement.now) }
    ensures judged { JudgesProof profile prover.old.book.statements (plain_statement statement.now)
        result prover.new.used }
    ensures book { prover.new.book ≡ prover.old.book }
{
    prover.prove(profile, id, &statement.proof)
}

/// Judges the proof of a `$p`, which the book took last, counts it and keeps what it uses; or
/// judges what is known of it, and notes that it is incomplete. Where either has a fault, answers
/// the refusal for it, and counts nothing.
fn prove<'a>(
    profile: Profile,
    progress: &mut Progress<'a>,
    id: LabelId,
    statement: &Statement<'a>,
) -> Result<Judged<'a>, AllocError>
    requires formed { HasForm (plain_statement statement.now) }
    requires last { IsLastProof progress.old.prover.book.statements id.0
        (plain_statement statement.now) }
    requires count { progress.old.count < 2 ^ 63 }
    requires proofs { progress.old.proofs < 2 ^ 63 }
    ensures { IfOk result (λ judged. TriesProof profile progress.old.lines progress.old
        id.0 (plain_statement statement.now) judged progress.new) }
{
    match judge_proof(&mut progress.prover, profile, id, statement) {
        Ok(Proved::Complete) => {
            progress.kept.push(id, progress.prover.used())?;
            progress.proofs += 1;
            Ok(Judged::Theorem(id))
        }
        Ok(Proved::Incomplete) => {
            progress.incomplete.push(id)?;
            Ok(Judged::Other)
        }
        Err(ProofFault::Rule { rule, step }) => {
            let refusal = refusal(
                &mut progress.lines,
                progress.count,
                statement,
                Rule::Proof(rule),
                step,
            );
            Ok(Judged::Faulty(refusal))
        }
        Err(ProofFault::Memory) => Err(AllocError),
    }
}

/// Judges a statement after those that the progress has: its meaning, and then its proof. Takes it
/// into the progress unless it breaks a rule of meaning. Where its proof has a fault, answers the
/// refusal for it: the statement stands all the same, since what a later proof may use doesn't
/// depend on earlier proofs.
pub fn judge<'a>(
    profile: Profile,
    progress: &mut Progress<'a>,
    statement: &Statement<'a>,
) -> Result<Judged<'a>, Stop<'a>>
    requires formed { HasForm (plain_statement statement.now) }
    requires closes { statement.now.kind ≡ Closing
        → close_marks progress.old.prover.book.statements
        < open_marks progress.old.prover.book.statements }
    requires room { progress.old.prover.book.bytes
        + bytes_in (plain_statement statement.now) ≤ most_bytes }
    requires count { progress.old.count < 2 ^ 62 }
    requires proofs { progress.old.proofs < 2 ^ 62 }
    ensures taken { IfOk result (λ judged. IsTaken profile progress.old.lines progress.old
        (plain_statement statement.now) judged progress.new) }
    ensures refused { IfErr result (RefusesMeaning progress.old.lines
        progress.old.prover.book.statements progress.old.count
        (plain_statement statement.now)) }
{
    let judged = match progress.prover.take(statement) {
        Ok(Taken::Assertion(id)) if statement.kind == Kind::Provable => {
            prove(profile, progress, id, statement)?
        }
        Ok(_) => Judged::Other,
        Err(RuleFault::Rule(rule)) => {
            let refusal = refusal(
                &mut progress.lines,
                progress.count,
                statement,
                Rule::Meaning(rule),
                0,
            );
            return Err(Stop::Refused(refusal));
        }
        Err(RuleFault::Memory) => return Err(Stop::Memory),
    };
    progress.count += 1;
    Ok(judged)
}
