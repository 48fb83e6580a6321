//! A proof's text as `same` takes it: tokens and white space alone.

ghost use Rattle.std.specs.Prelude.{◌≡◌, ◌≤◌, length, IfOk, IfErr};
ghost use Rattle.std.specs.List.{list_all, sum_by};
ghost use Rattle.mm_base.specs.Token.{is_printable};
ghost use Rattle.mm_base.specs.MostBytes.{most_bytes};
ghost use Rattle.mm_code.specs.Words.{tokens_in};
ghost use Rattle.mm_step.specs.Plain.{token_texts};
ghost use Rattle.mm_rules.specs.Compared.{are_printable, hold_dollar, IsProofText};
ghost use Rattle.mm_verdict.specs.Mirror.Comparisons.{HasBareTokens, HasNoBareTokens, IsIllegal};

use crate::text::{has_dollar, placed_tokens};
use mm_base::Token;
use mm_proof::is_incomplete;
use mm_rules::{AskFault, AskRule, Rule};
use mm_text::{BYTE_LIMIT, LoadRule, TextRule};
use std::alloc::Global;

/// Whether each byte of a token is one that a token may hold.
fn is_printable(token: &[u8]) -> bool
    ensures { result ≡ list_all is_printable token.now }
{
    token.iter().all(|byte| matches!(*byte, 0x21..=0x7e))
}

/// Whether each byte of the tokens is one that a token may hold.
#[tactic(auto, using(crate::proofs::Questions::TestedTokens::all_fail))]
fn all_printable(tokens: &[Token]) -> bool
    ensures { result ≡ are_printable (token_texts tokens.now) }
{
    for token in tokens {
        if !is_printable(token.text) {
            return false;
        }
    }
    true
}

/// Whether some token holds a `$`.
#[tactic(auto, using(mm_base::proofs::Lists::any_found))]
fn any_dollar(tokens: &[Token]) -> bool
    ensures { result ≡ hold_dollar (token_texts tokens.now) }
{
    for token in tokens {
        if has_dollar(token.text) {
            return true;
        }
    }
    false
}

/// A fault of the text alone.
fn broken<T>(rule: Rule) -> Result<T, AskFault>
    ensures { result ≡ Err (AskFault.Text rule 0) }
{
    Err(AskFault::Text { rule, step: 0 })
}

/// The tokens of a text, where they may stand in a proof, with unknown steps or without.
fn bare_tokens<'a>(alloc: Global, text: &'a [u8]) -> Result<Vec<Token<'a>>, AskFault>
    ensures tokens { IfOk result (λ tokens. token_texts tokens.items ≡ tokens_in text.now) }
    ensures room { IfOk result (λ tokens. sum_by length (token_texts tokens.items)
        ≤ most_bytes) }
    ensures legal { IfOk result (λ tokens. HasBareTokens text.now) }
    ensures fault { IfErr result (HasNoBareTokens text.now) }
{
    if text.len() > BYTE_LIMIT {
        return broken(Rule::Load(LoadRule::F3));
    }
    let tokens = placed_tokens(alloc, text)?;
    if !all_printable(&tokens) {
        return broken(Rule::Text(TextRule::X1));
    }
    if any_dollar(&tokens) {
        return broken(Rule::Text(TextRule::X9));
    }
    Ok(tokens)
}

/// The tokens of a text, where they may stand in a proof with no unknown step.
pub fn proof_tokens<'a>(alloc: Global, text: &'a [u8]) -> Result<Vec<Token<'a>>, AskFault>
    ensures tokens { IfOk result (λ tokens. token_texts tokens.items ≡ tokens_in text.now) }
    ensures room { IfOk result (λ tokens. sum_by length (token_texts tokens.items)
        ≤ most_bytes) }
    ensures legal { IfOk result (λ tokens. IsProofText text.now) }
    ensures fault { IfErr result (IsIllegal text.now) }
{
    let tokens = bare_tokens(alloc, text)?;
    if is_incomplete(&tokens) {
        return broken(Rule::Ask(AskRule::A3));
    }
    Ok(tokens)
}
