//! The known prefix of an incomplete proof: what stands before its first unknown step (the Metamath
//! book, section 4.4.4 and appendix B).

ghost use Rattle.std.specs.Prelude.{◌≡◌, ◌↔◌, ◌≤◌, [], ◌∷◌, ◌++◌, take, slice_get, length, IfOk};
ghost use Rattle.std.specs.Prelude.{IsTrue};
ghost use Rattle.std.specs.List.{position_or_len};
ghost use Rattle.mm_base.specs.Spelling.{spells};
ghost use Rattle.mm_proof.specs.Tokens.{is_question, is_unknown, BeginsList};
ghost use Rattle.mm_proof.specs.CheckedPrefix.{begins_list, ends_list};
ghost use Rattle.mm_proof.specs.CheckedPrefix.{known_piece, checked_prefix};
ghost use Rattle.mm_step.specs.Plain.{token_texts};

use mm_base::Token;
use std::alloc::{AllocError, Global};

/// Whether the token is the one byte.
pub(crate) fn is_byte(token: &[u8], byte: u8) -> bool
    ensures same { IsTrue result ↔ (token.now ≡ byte ∷ []) }
    ensures spelled { result ≡ spells token.now (byte ∷ []) }
{
    match token {
        [only] => *only == byte,
        _ => false,
    }
}

// The index of the first `?` among the bytes, or how many they are.
#[tactic(auto, using(std::proofs::lemmas::List::Sums::position_or_len_is))]
fn question_index(text: &[u8]) -> usize
    ensures { result ≡ position_or_len is_question text.now }
{
    for (index, byte) in text.iter().enumerate() {
        if *byte == b'?' {
            return index;
        }
    }
    text.len()
}

/// Whether the token holds a `?`.
pub(crate) fn is_unknown(text: &[u8]) -> bool
    ensures { result ≡ is_unknown text.now }
{
    text.iter().any(|byte| *byte == b'?')
}

// How many tokens stand before the first that holds a `?`.
fn known_count(tokens: &[Token]) -> usize
    ensures first { result ≡ position_or_len is_unknown (token_texts tokens.now) }
    ensures within { result ≤ length tokens.now }
{
    for (index, token) in tokens.iter().enumerate() {
        if is_unknown(token.text) {
            return index;
        }
    }
    tokens.len()
}

/// Whether the first token is `(`.
pub fn begins_list(tokens: &[Token]) -> bool
    ensures begun { result ≡ begins_list (token_texts tokens.now) }
    ensures first { IsTrue result ↔ BeginsList (token_texts tokens.now) }
{
    match tokens {
        [first, ..] => is_byte(first.text, b'('),
        [] => false,
    }
}

// Whether one of the tokens is `)`.
#[tactic(auto, using(crate::proofs::ProofTokens::QuestionMarks::question_steps))]
fn ends_list(tokens: &[Token]) -> bool
    ensures { result ≡ ends_list (token_texts tokens.now) }
{
    for token in tokens {
        if is_byte(token.text, b')') {
            return true;
        }
    }
    false
}

// The tokens before the one at an index, and what stands before the `?` in that one.
fn text_up_to<'a>(
    alloc: Global,
    tokens: &[Token<'a>],
    index: usize,
) -> Result<Vec<Token<'a>>, AllocError>
    requires { index ≤ length tokens.now }
    ensures { IfOk result (λ text. token_texts text.items ≡ take index (token_texts tokens.now)
        ++ known_piece (slice_get (token_texts tokens.now) index)) }
{
    let mut text = Vec::from_slice(alloc, &tokens[..index])?;
    if let Some(token) = tokens.get(index) {
        let known = &token.text[..question_index(token.text)];
        if !known.is_empty() {
            text.push(Token {
                text: known,
                ..*token
            })?;
        }
    }
    Ok(text)
}

/// The checked prefix of a proof, as the tokens of a proof.
#[tactic(auto, using(crate::proofs::ProofTokens::QuestionMarks::known_cut))]
pub fn checked_prefix<'a>(alloc: Global, tokens: &[Token<'a>]) -> Result<Vec<Token<'a>>, AllocError>
    ensures { IfOk result (λ prefix.
        token_texts prefix.items ≡ checked_prefix (token_texts tokens.now)) }
{
    let count = known_count(tokens);
    let known = &tokens[..count];
    if !begins_list(tokens) {
        return Vec::from_slice(alloc, known);
    }
    if !ends_list(known) {
        return Ok(Vec::new(alloc));
    }
    text_up_to(alloc, tokens, count)
}
