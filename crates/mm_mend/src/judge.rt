//! Whether tokens are a proof of a theorem, and whether a change mends its proof.

ghost use Rattle.std.specs.Prelude.{◌≡◌, ◌≢◌, ◌≤◌, ◌↔◌, ℕ, IsTrue, false, length, take};
ghost use Rattle.std.specs.Prelude.{IfOk, MatchOption};
ghost use Rattle.std.specs.List.{sum_by};
ghost use Rattle.mm_base.specs.MostBytes.{most_bytes};
ghost use Rattle.mm_frame.specs.Rules.{AllMeant};
ghost use Rattle.mm_frame.specs.Sentence.{Sentence};
ghost use Rattle.mm_step.specs.Plain.{token_texts};
ghost use Rattle.mm_step.specs.Steps.{IsProofNumber};
ghost use Rattle.mm_step.specs.declared.profile.Profile.TheVariants.{Lenient};
ghost use Rattle.mm_proof.specs.Parsed.{OfProof};
ghost use Rattle.mm_proof.specs.UnderProfile.{IsFaultUnder, IsProvedUnder};
ghost use Rattle.mm_mend.specs.Mend.{IsMend, IsProofText, text_with};

use crate::change::{Change, changed_text, exchanged_tokens};
use mm_base::Token;
use mm_frame::{Book, LabelId};
use mm_proof::{StepsReader, verify};
use mm_step::{Flat, Profile, ProofFault, ProofRule};
use mm_verdict::{Unhanded, handed_tokens};
use std::alloc::{AllocError, Global};

/// The rule and the step of a fault.
fn rule_of(fault: ProofFault) -> Result<Option<(ProofRule, usize)>, AllocError>
    ensures { IfOk result (λ found. MatchOption
        found
        ⊥
        (λ f. fault ≡ ProofFault.Rule f.0 f.1)) }
{
    match fault {
        ProofFault::Rule { rule, step } => Ok(Some((rule, step))),
        ProofFault::Memory => Err(AllocError),
    }
}

/// The first fault of the tokens as a proof of the `$p` with the number: the rule and the step.
/// There is none if they are a proof of it.
pub(crate) fn fault_of(
    alloc: Global,
    book: &Book,
    id: LabelId,
    tokens: &[Token],
) -> Result<Option<(ProofRule, usize)>, AllocError>
    requires proof { (index : ℕ) × (s : Sentence) × IsProofNumber book.now.statements id.0 index s }
    requires room { sum_by length (token_texts tokens.now) ≤ most_bytes }
    ensures { IfOk result (λ found. OfProof book.now.statements id.0 (λ index s.
        MatchOption
        found
        (IsProvedUnder Lenient (take index book.now.statements) s (token_texts tokens.now))
        (λ fault. IsFaultUnder Lenient (take index book.now.statements) s
        (token_texts tokens.now) fault.0 fault.1))) }
{
    let mut reader = StepsReader::new(alloc);
    let steps = match reader.read(alloc, Profile::Lenient, book, id, tokens) {
        Ok(steps) => steps,
        Err(fault) => return rule_of(fault),
    };
    match verify(alloc, Flat::new(alloc), book, id, &steps) {
        Ok(_) => Ok(None),
        Err(fault) => rule_of(fault),
    }
}

/// Whether the tokens are a proof of the `$p` with the number.
fn is_proof(alloc: Global, book: &Book, id: LabelId, tokens: &[Token]) -> Result<bool, AllocError>
    requires proof { (index : ℕ) × (s : Sentence) × IsProofNumber book.now.statements id.0 index s }
    requires meant { AllMeant book.now.statements }
    requires room { sum_by length (token_texts tokens.now) ≤ most_bytes }
    ensures { IfOk result (λ yes. OfProof book.now.statements id.0 (λ index s.
        (IsTrue yes) ↔ (IsProvedUnder Lenient (take index book.now.statements) s
        (token_texts tokens.now)))) }
{
    let fault = fault_of(alloc, book, id, tokens)?;
    Ok(fault.is_none())
}

/// That a text with a fault of its own is no proof.
fn no_proof(why: Unhanded) -> Result<bool, AllocError>
    ensures { IfOk result (λ yes. (yes ≡ false) × (why.entry ≢ Unhanded.Memory)) }
{
    match why {
        Unhanded::Memory => Err(AllocError),
        Unhanded::Size => Ok(false),
        Unhanded::Wrong(_) => Ok(false),
    }
}

/// Whether a text may be handed in, and is a proof of the `$p` with the number.
fn is_proof_text(alloc: Global, book: &Book, id: LabelId, text: &[u8]) -> Result<bool, AllocError>
    requires proof { (index : ℕ) × (s : Sentence) × IsProofNumber book.now.statements id.0 index s }
    requires meant { AllMeant book.now.statements }
    ensures { IfOk result (λ yes. OfProof book.now.statements id.0 (λ index s.
        (IsTrue yes) ↔ (IsProofText (take index book.now.statements) s text.now))) }
{
    match handed_tokens(alloc, text) {
        Ok(handed) => is_proof(alloc, book, id, &handed.tokens),
        Err(why) => no_proof(why),
    }
}

/// Whether the text is a proof of the `$p` with the number after a change of bytes.
fn is_byte_mend(
    alloc: Global,
    book: &Book,
    id: LabelId,
    text: &[u8],
    change: Change,
) -> Result<bool, AllocError>
    requires proof { (index : ℕ) × (s : Sentence) × IsProofNumber book.now.statements id.0 index s }
    requires meant { AllMeant book.now.statements }
    ensures { IfOk result (λ yes. OfProof book.now.statements id.0 (λ index s.
        (IsTrue yes) ↔ (IsProofText (take index book.now.statements) s
        (text_with change text.now)))) }
{
    let new = changed_text(alloc, text, change)?;
    is_proof_text(alloc, book, id, &new)
}

/// Whether a change mends the proof of the `$p` with the number, which has these tokens and this
/// text.
pub(crate) fn is_mend(
    alloc: Global,
    book: &Book,
    id: LabelId,
    tokens: &[Token],
    text: &[u8],
    change: Change,
) -> Result<bool, AllocError>
    requires proof { (index : ℕ) × (s : Sentence) × IsProofNumber book.now.statements id.0 index s }
    requires meant { AllMeant book.now.statements }
    requires room { sum_by length (token_texts tokens.now) ≤ most_bytes }
    ensures { IfOk result (λ mends. OfProof book.now.statements id.0 (λ index s.
        (IsTrue mends) ↔ (IsMend (take index book.now.statements) s (token_texts tokens.now)
        text.now change))) }
{
    match change {
        Change::Words { at } => {
            let exchanged = exchanged_tokens(alloc, tokens, at as usize)?;
            is_proof(alloc, book, id, &exchanged)
        }
        Change::Removed { .. } => is_byte_mend(alloc, book, id, text, change),
        Change::Exchanged { .. } => is_byte_mend(alloc, book, id, text, change),
        Change::Replaced { .. } => is_byte_mend(alloc, book, id, text, change),
        Change::Put { .. } => is_byte_mend(alloc, book, id, text, change),
    }
}
