//! A theorem and the steps of its proof.

ghost use Rattle.std.specs.Prelude.{◌≡◌, ◌≤◌, length, sum_by, false, IfOk, IfErr};
ghost use Rattle.mm_base.specs.Statement.{plain_statement};
ghost use Rattle.mm_base.specs.MostBytes.{most_bytes};
ghost use Rattle.mm_proof.specs.Parsed.{OfProof, SaySteps};
ghost use Rattle.mm_step.specs.Steps.{AreSteps};
ghost use Rattle.mm_rules.specs.declared.ask.AskFault.TheVariants.{Memory};
ghost use Rattle.mm_rules.specs.Verdict.{proof_of};
ghost use Rattle.mm_verdict.specs.Mirror.Theorems.{IsProofOf, IsWholeProof, SayStepsOf};

use mm_base::Statement;
use mm_frame::{Book, LabelId};
use mm_proof::{Steps, StepsReader};
use mm_rules::AskFault;
use mm_step::{Profile, ProofFault};
use std::alloc::Global;

/// A `$p` whose proof is complete, by its number: the steps of that proof, which are those of the
/// whole of it, and the file and the span in which it stands.
#[derive(Drop)]
pub struct Theorem {
    pub id: LabelId,
    pub steps: Steps,
    pub file: usize,
    pub span: (u32, u32),
}

/// The steps of a `$p`, whose complete proof has no fault in the profile, by a reader of one proof
/// after the other.
fn read_steps<'a>(
    reader: &mut StepsReader<'a>,
    alloc: Global,
    profile: Profile,
    book: &Book,
    id: LabelId,
    statement: &Statement<'a>,
) -> Result<Steps, AskFault>
    requires proof { IsProofOf profile book.now.statements id.0
        (proof_of (plain_statement statement.now)) }
    requires room { sum_by length (proof_of (plain_statement statement.now)) ≤ most_bytes }
    ensures said { IfOk result (λ steps. OfProof book.now.statements id.0 (λ index s.
        SaySteps book.now.statements index s (proof_of (plain_statement statement.now))
        steps.moves)) }
    ensures usable { IfOk result (λ steps. AreSteps book.now.statements id.0 steps.moves) }
    ensures profile { IfOk result (λ steps. steps.profile ≡ profile) }
    ensures whole { IfOk result (λ steps. steps.prefix ≡ false) }
    ensures memory { IfErr result (λ fault. fault ≡ Memory) }
{
    match reader.read(alloc, profile, book, id, &statement.proof) {
        Ok(steps) => Ok(steps),
        Err(ProofFault::Memory) => Err(AskFault::Memory),
        // `check` accepted the proof under this profile.
        Err(ProofFault::Rule { .. }) => unreachable!(),
    }
}

/// A `$p` with the steps of its complete proof, which has no fault in the profile, by a reader of
/// one proof after the other.
pub fn read_theorem<'a>(
    reader: &mut StepsReader<'a>,
    alloc: Global,
    profile: Profile,
    book: &Book,
    id: LabelId,
    statement: &Statement<'a>,
) -> Result<Theorem, AskFault>
    requires proof { IsProofOf profile book.now.statements id.0
        (proof_of (plain_statement statement.now)) }
    requires room { sum_by length (proof_of (plain_statement statement.now)) ≤ most_bytes }
    ensures id { IfOk result (λ theorem. theorem.id.0 ≡ id.0) }
    ensures home { IfOk result (λ theorem.
        (theorem.file ≡ (plain_statement statement.now).first.file)
        × (theorem.span ≡ (plain_statement statement.now).span)) }
    ensures said { IfOk result (λ theorem. SayStepsOf book.now.statements theorem.id.0
        (proof_of (plain_statement statement.now)) theorem.steps.moves) }
    ensures theorem { IfOk result (λ theorem.
        IsWholeProof book.now.statements theorem.id.0 theorem.steps) }
    ensures memory { IfErr result (λ fault. fault ≡ Memory) }
{
    let steps = read_steps(reader, alloc, profile, book, id, statement)?;
    Ok(Theorem {
        id,
        steps,
        file: statement.first.file,
        span: statement.span,
    })
}
