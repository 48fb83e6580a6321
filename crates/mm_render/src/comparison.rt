//! Whether a text that is handed in is the same proof as a theorem's own.

ghost use Rattle.std.specs.Prelude.{◌≡◌, ◌≤◌, ℕ, false, length, take, IfOk, IfErr, OnOk};
ghost use Rattle.std.specs.List.{sum_by};
ghost use Rattle.mm_base.specs.MostBytes.{most_bytes};
ghost use Rattle.mm_code.specs.Words.{tokens_in};
ghost use Rattle.mm_frame.specs.Sentence.{Sentence};
ghost use Rattle.mm_proof.specs.Parsed.{OfProof};
ghost use Rattle.mm_step.specs.Plain.{token_texts};
ghost use Rattle.mm_step.specs.Steps.{AreSteps, IsProofNumber};
ghost use Rattle.mm_proof.specs.Strict.{HasFormOf};
ghost use Rattle.mm_proof.specs.Tokens.{is_incomplete};
ghost use Rattle.mm_rules.specs.Compared.{IsProofText};
ghost use Rattle.mm_render.specs.Mirror.Theorems.{SayWholeSteps};
ghost use Rattle.mm_verdict.specs.Mirror.Theorems.{AreProvedSteps, IsWholeProof};
ghost use Rattle.mm_render.specs.Mirror.Comparisons.{FailsAs, IsUnproved, IsTextRefused};
ghost use Rattle.mm_render.specs.Mirror.Comparisons.{IsComparedWith};

use mm_base::Token;
use mm_forms::same;
use mm_frame::{Book, LabelId};
use mm_proof::{Parsed, Steps, verify};
use mm_rules::AskFault;
use mm_step::{Flat, Profile};
use mm_verdict::{Theorem, proof_tokens};
use std::alloc::Global;

/// Whether the steps of a whole proof prove the `$p`, or their first fault.
fn judge_steps(alloc: Global, book: &Book, id: LabelId, steps: &Steps) -> Result<(), AskFault>
    requires steps { AreSteps book.now.statements id.0 steps.now.moves }
    requires whole { steps.now.prefix ≡ false }
    ensures proved { OnOk result (AreProvedSteps book.now.statements id.0 steps.now) }
    ensures fault { IfErr result (FailsAs book.now.statements id.0 steps.now) }
{
    let _used = verify(alloc, Flat::new(alloc), book, id, steps)?;
    Ok(())
}

/// The steps that the tokens, none of which holds a `?`, say, where they are a proof of the `$p`
/// under the profile.
fn proved_steps(
    alloc: Global,
    profile: Profile,
    book: &Book,
    id: LabelId,
    tokens: &[Token],
) -> Result<Steps, AskFault>
    requires proof { (index : ℕ) × (s : Sentence)
        × IsProofNumber book.now.statements id.0 index s }
    requires room { sum_by length (token_texts tokens.now) ≤ most_bytes }
    requires complete { is_incomplete (token_texts tokens.now) ≡ false }
    ensures said { IfOk result (λ steps.
        SayWholeSteps book.now.statements id.0 (token_texts tokens.now) steps.moves) }
    ensures form { OnOk result (OfProof book.now.statements id.0 (λ index s.
        HasFormOf profile (take index book.now.statements) s (token_texts tokens.now))) }
    ensures usable { IfOk result (λ steps. AreSteps book.now.statements id.0 steps.moves) }
    ensures proved { IfOk result (λ steps. AreProvedSteps book.now.statements id.0 steps) }
    ensures profile { IfOk result (λ steps. steps.profile ≡ profile) }
    ensures whole { IfOk result (λ steps. steps.prefix ≡ false) }
    ensures fault { IfErr result
        (IsUnproved profile book.now.statements id.0 (token_texts tokens.now)) }
{
    match Steps::parse(alloc, profile, book, id, tokens)? {
        Parsed::Steps(steps) => {
            judge_steps(alloc, book, id, &steps)?;
            Ok(steps)
        }
        // No token holds a `?`.
        Parsed::Incomplete(_) => unreachable!(),
    }
}

/// The steps that a text says, where it is a proof of the `$p` under the profile.
fn handed_steps(
    alloc: Global,
    profile: Profile,
    book: &Book,
    id: LabelId,
    text: &[u8],
) -> Result<Steps, AskFault>
    requires { (index : ℕ) × (s : Sentence) × IsProofNumber book.now.statements id.0 index s }
    ensures legal { IfOk result (λ steps. IsProofText text.now) }
    ensures said { IfOk result (λ steps.
        SayWholeSteps book.now.statements id.0 (tokens_in text.now) steps.moves) }
    ensures form { OnOk result (OfProof book.now.statements id.0 (λ index s.
        HasFormOf profile (take index book.now.statements) s (tokens_in text.now))) }
    ensures usable { IfOk result (λ steps. AreSteps book.now.statements id.0 steps.moves) }
    ensures proved { IfOk result (λ steps. AreProvedSteps book.now.statements id.0 steps) }
    ensures profile { IfOk result (λ steps. steps.profile ≡ profile) }
    ensures whole { IfOk result (λ steps. steps.prefix ≡ false) }
    ensures fault { IfErr result (IsTextRefused profile book.now.statements id.0 text.now) }
{
    let tokens = proof_tokens(alloc, text)?;
    proved_steps(alloc, profile, book, id, &tokens)
}

/// Whether a text, a proof of the theorem under the profile, makes the same tree as the theorem's
/// own proof.
pub(crate) fn is_same(
    alloc: Global,
    profile: Profile,
    book: &Book,
    theorem: &Theorem,
    text: &[u8],
) -> Result<bool, AskFault>
    requires { IsWholeProof book.now.statements theorem.now.id.0 theorem.now.steps }
    ensures compared { IfOk result (IsComparedWith profile book.now.statements theorem.now.id.0
        theorem.now.steps.moves text.now) }
    ensures fault { IfErr result (IsTextRefused profile book.now.statements theorem.now.id.0
        text.now) }
{
    let steps = handed_steps(alloc, profile, book, theorem.id, text)?;
    Ok(same(alloc, book, theorem.id, &theorem.steps, &steps)?)
}
