//! Whether a text may stand in place of a proof, and is another proof.

ghost use Rattle.std.specs.Prelude.{◌≡◌, ◌≢◌, ◌∷◌, ◌++◌, [], ℕ, List, true, IfOk, IfSome, IsTrue};
ghost use Rattle.mm_base.specs.Statement.{plain_statement};
ghost use Rattle.mm_base.specs.Token.{is_space as is_white_space};
ghost use Rattle.mm_code.specs.Words.{tokens_in};
ghost use Rattle.mm_step.specs.Plain.{token_texts};
ghost use Rattle.mm_text.specs.Replaced.{IsProofText};
ghost use Rattle.mm_with_lemmas.specs.WithLemmas.{IsOtherProof};

use mm_base::{Statement, Token};
use mm_rules::AskFault;
use mm_verdict::{is_space, proof_tokens};
use std::alloc::{AllocError, Global};

/// Whether a text begins with white space.
fn begins_with_space(text: &[u8]) -> bool
    ensures { IsTrue result → (first : ℕ) × (more : List ℕ) × (text.now ≡ first ∷ more)
        × (is_white_space first ≡ true) }
{
    match text.split_first() {
        Some((first, _)) => is_space(*first),
        None => false,
    }
}

/// Whether a text ends with white space.
fn ends_with_space(text: &[u8]) -> bool
    ensures { IsTrue result → (inner : List ℕ) × (last : ℕ) × (text.now ≡ inner ++ last ∷ [])
        × (is_white_space last ≡ true) }
{
    match text.split_last() {
        Some((last, _)) => is_space(*last),
        None => false,
    }
}

/// The tokens of a text, where it may stand between a `$=` and a `$.`, with no unknown step.
fn placeable_tokens<'t>(alloc: Global, text: &'t [u8]) -> Result<Option<Vec<Token<'t>>>, AllocError>
    ensures { IfOk result (λ found. IfSome found (λ tokens. IsProofText text.now
        × (token_texts tokens.items ≡ tokens_in text.now))) }
{
    if !begins_with_space(text) || !ends_with_space(text) {
        return Ok(None);
    }
    match proof_tokens(alloc, text) {
        Ok(tokens) => Ok(Some(tokens)),
        Err(AskFault::Memory) => Err(AllocError),
        Err(_) => Ok(None),
    }
}

/// Whether two lists of tokens have other texts.
fn are_others(tokens: &[Token], others: &[Token]) -> bool
    ensures { IsTrue result → token_texts tokens.now ≢ token_texts others.now }
{
    if tokens.len() != others.len() {
        return true;
    }
    for at in 0..tokens.len() {
        if tokens[at].text != others[at].text {
            return true;
        }
    }
    false
}

/// Whether a text may stand in place of the proof of a statement, and has other tokens.
pub(crate) fn is_other_proof(
    alloc: Global,
    text: &[u8],
    statement: &Statement,
) -> Result<bool, AllocError>
    ensures { IfOk result (λ is. IsTrue is
        → IsOtherProof text.now (plain_statement statement.now)) }
{
    match placeable_tokens(alloc, text)? {
        Some(tokens) => {
            let are = are_others(&tokens, &statement.proof);
            drop(tokens);
            Ok(are)
        }
        None => Ok(false),
    }
}
