//! A text as a proof of a theorem, where it is one.

ghost use Rattle.std.specs.Prelude.{◌≡◌, ℕ, false, IfOk, IfSome};
ghost use Rattle.mm_frame.specs.Sentence.{Sentence};
ghost use Rattle.mm_step.specs.Steps.{AreSteps, IsProofNumber};
ghost use Rattle.mm_render.specs.Mirror.Shortening.{AreHanded};

use mm_frame::{Book, LabelId};
use mm_proof::{Parsed, Steps, verify};
use mm_rules::AskFault;
use mm_step::{Flat, Profile, ProofFault, Used};
use mm_verdict::proof_tokens;
use std::alloc::{AllocError, Global};

/// A proof of a `$p` that was handed in: its steps, and the assertions of its tree.
#[derive(Drop)]
pub struct Handed {
    pub steps: Steps,
    pub used: Used,
}

/// The steps that a text says as a proof of the `$p` with the number; none where it says none.
fn said_steps(
    alloc: Global,
    profile: Profile,
    book: &Book,
    id: LabelId,
    text: &[u8],
) -> Result<Option<Steps>, AllocError>
    requires { (index : ℕ) × (s : Sentence) × IsProofNumber book.now.statements id.0 index s }
    ensures usable { IfOk result (λ found. IfSome found (λ steps.
        AreSteps book.now.statements id.0 steps.moves)) }
    ensures whole { IfOk result (λ found. IfSome found (λ steps. steps.prefix ≡ false)) }
    ensures profile { IfOk result (λ found. IfSome found (λ steps. steps.profile ≡ profile)) }
{
    let tokens = match proof_tokens(alloc, text) {
        Ok(tokens) => tokens,
        Err(AskFault::Memory) => return Err(AllocError),
        Err(_) => return Ok(None),
    };
    match Steps::parse(alloc, profile, book, id, &tokens) {
        Ok(Parsed::Steps(steps)) => Ok(Some(steps)),
        Err(ProofFault::Memory) => Err(AllocError),
        Ok(Parsed::Incomplete(_)) | Err(ProofFault::Rule { .. }) => Ok(None),
    }
}

/// A text as a proof of the `$p` with the number under the profile; none where it isn't one.
pub fn handed_proof(
    alloc: Global,
    profile: Profile,
    book: &Book,
    id: LabelId,
    text: &[u8],
) -> Result<Option<Handed>, AllocError>
    requires { (index : ℕ) × (s : Sentence) × IsProofNumber book.now.statements id.0 index s }
    ensures { IfOk result (λ found. IfSome found (λ handed.
        AreHanded profile book.now.statements id.0 handed.steps handed.used)) }
{
    let Some(steps) = said_steps(alloc, profile, book, id, text)? else {
        return Ok(None);
    };
    match verify(alloc, Flat::new(alloc), book, id, &steps) {
        Ok(used) => Ok(Some(Handed { steps, used })),
        Err(ProofFault::Memory) => Err(AllocError),
        Err(ProofFault::Rule { .. }) => Ok(None),
    }
}
