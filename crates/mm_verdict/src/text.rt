//! A proof's text that is handed in, and its tokens.

ghost use Rattle.std.specs.Prelude.{◌≡◌, ◌<◌, ◌≤◌, ◌==◌, ℕ, List, map, take, length, slice_index};
ghost use Rattle.std.specs.Prelude.{true, codes, option_map, IfErr, IfOk, OnOk};
ghost use Rattle.std.specs.List.{list_any, sum_by};
ghost use Rattle.mm_base.specs.MostBytes.{most_bytes};
ghost use Rattle.mm_base.specs.Spelling.{spells};
ghost use Rattle.mm_base.specs.Token.{is_space as is_white_space, plain_token, tokens_from};
ghost use Rattle.mm_code.specs.Layout.{texts};
ghost use Rattle.mm_code.specs.Words.{tokens_in, LacksWhiteSpace};
ghost use Rattle.mm_step.specs.Plain.{token_texts};
ghost use Rattle.mm_rules.specs.ProofText.{behind_equals as behind_equals_in, end_before, proof_end};
ghost use Rattle.mm_rules.specs.ProofText.{before_stop as before_stop_in};
ghost use Rattle.mm_rules.specs.ProofText.{first_dollar as first_dollar_in};
ghost use Rattle.mm_rules.specs.ProofText.{proof_tokens as proof_tokens_in, proof_words};
ghost use Rattle.mm_verdict.specs.Alone.{HasProofTokens};
ghost use Rattle.mm_verdict.specs.Mirror.Reached.{IsUnhanded};
ghost use Rattle.mm_verdict.specs.declared.text.Unhanded.TheVariants.{Memory};

use mm_base::Token;
use mm_proof::fill_texts;
use mm_text::{BYTE_LIMIT, TextRule, Wrong, shown_tokens};
use std::alloc::{AllocError, Global};

/// Whether a byte is white space.
pub fn is_space(byte: u8) -> bool
    ensures { result ≡ is_white_space byte }
{
    matches!(byte, b' ' | b'\n' | b'\t' | 12 | b'\r')
}

/// How many bytes stand before the first white space.
fn word_len(text: &[u8]) -> usize
    ensures within { result ≤ length text.now }
    ensures word { LacksWhiteSpace (take result text.now) }
    ensures stop { result < length text.now
        → is_white_space (slice_index text.now result) ≡ true }
{
    for at in 0..text.len() {
        if is_space(text[at]) {
            return at;
        }
    }
    text.len()
}

/// The tokens of a text, its longest runs of bytes that aren't white space, each with the position
/// of its first byte.
pub(crate) fn placed_tokens<'a>(alloc: Global, text: &'a [u8]) -> Result<Vec<Token<'a>>, AllocError>
    requires { length text.now ≤ most_bytes }
    ensures places { IfOk result (λ tokens. map plain_token tokens.items
        ≡ tokens_from 0 0 text.now) }
    ensures tokens { IfOk result (λ tokens. token_texts tokens.items ≡ tokens_in text.now) }
    ensures room { IfOk result (λ tokens. sum_by length (token_texts tokens.items)
        ≤ length text.now) }
{
    let mut tokens = Vec::new(alloc);
    let mut rest = text;
    while let Some((first, others)) = rest.split_first() {
        if is_space(*first) {
            rest = others;
        } else {
            let at = text.len() - rest.len();
            let (word, after) = rest.split_at(word_len(rest));
            tokens.push(Token {
                text: word,
                file: 0,
                at: at as u32,
            })?;
            rest = after;
        }
    }
    Ok(tokens)
}

/// The texts of the tokens of a text.
pub fn tokens_of<'a>(alloc: Global, text: &'a [u8]) -> Result<Vec<&'a [u8]>, AllocError>
    requires { length text.now ≤ most_bytes }
    ensures tokens { IfOk result (λ tokens. texts tokens.items ≡ tokens_in text.now) }
    ensures room { IfOk result (λ tokens. sum_by length (texts tokens.items)
        ≤ length text.now) }
{
    let placed = placed_tokens(alloc, text)?;
    let mut tokens = Vec::with_capacity(alloc, placed.len())?;
    fill_texts(&mut tokens, &placed)?;
    Ok(tokens)
}

/// Whether a token is `$=`.
fn is_equals(text: &[u8]) -> bool
    ensures { result ≡ spells text.now (codes "$=") }
{
    matches!(text, b"$=")
}

/// Whether a token is `$.`.
fn is_stop(text: &[u8]) -> bool
    ensures { result ≡ spells text.now (codes "$.") }
{
    matches!(text, b"$.")
}

/// The tokens without the first one, if that is `$=`.
fn behind_equals<'t, 'a>(tokens: &'t [Token<'a>]) -> &'t [Token<'a>]
    ensures { map plain_token result.now ≡ behind_equals_in (map plain_token tokens.now) }
{
    let Some((first, others)) = tokens.split_first() else {
        return tokens;
    };
    if is_equals(first.text) {
        return others;
    }
    tokens
}

/// The tokens without the last one, if that is `$.`, and where the proof ends in a text of so many
/// bytes.
fn before_stop<'t, 'a>(tokens: &'t [Token<'a>], size: usize) -> (&'t [Token<'a>], usize)
    ensures tokens { map plain_token result.0.now ≡ before_stop_in (map plain_token tokens.now) }
    ensures end { result.1 ≡ end_before size (map plain_token tokens.now) }
{
    let Some((last, others)) = tokens.split_last() else {
        return (tokens, size);
    };
    if is_stop(last.text) {
        return (others, last.at as usize);
    }
    (tokens, size)
}

/// Whether a token holds a `$`.
pub(crate) fn has_dollar(token: &[u8]) -> bool
    ensures { result ≡ list_any (λ b. b == 36) token.now }
{
    token.iter().any(|byte| *byte == b'$')
}

/// The first token that holds a `$`.
#[tactic(auto, using(crate::proofs::Questions::HandedProofs::dollar_steps))]
fn first_dollar<'a>(tokens: &[Token<'a>]) -> Option<Token<'a>>
    ensures { option_map plain_token result ≡ first_dollar_in (map plain_token tokens.now) }
{
    for token in tokens {
        if has_dollar(token.text) {
            return Some(*token);
        }
    }
    None
}

/// A proof that is handed in: its tokens, each with its place in the text, and where it ends there.
#[derive(Drop)]
pub struct HandedTokens<'a> {
    pub tokens: Vec<Token<'a>>,
    pub end: usize,
}

/// Why a text that is handed in has no tokens of a proof.
#[derive(Clone, Copy)]
pub enum Unhanded<'a> {
    /// It has over 1,073,741,824 bytes.
    Size,
    /// It is wrong at a token.
    Wrong(Wrong<'a>),
    /// A growth was refused.
    Memory,
}

impl<'a> From<AllocError> for Unhanded<'a> {
    ghost from_gives = { λ _ e. e ≡ Memory };

    fn from(_e: AllocError) -> Unhanded<'a> {
        Unhanded::Memory
    }
}

/// The tokens of a proof in a text, with unknown steps or without: those outside comments. A `$=`
/// that begins the text and a `$.` that ends it are none of them.
pub fn handed_tokens<'a>(alloc: Global, text: &'a [u8]) -> Result<HandedTokens<'a>, Unhanded<'a>>
    ensures places { IfOk result (λ handed. map plain_token handed.tokens.items
        ≡ proof_tokens_in text.now) }
    ensures tokens { IfOk result (λ handed. token_texts handed.tokens.items
        ≡ proof_words text.now) }
    ensures end { IfOk result (λ handed. handed.end ≡ proof_end text.now) }
    ensures room { IfOk result (λ handed. sum_by length (token_texts handed.tokens.items)
        ≤ most_bytes) }
    ensures legal { OnOk result (HasProofTokens text.now) }
    ensures fault { IfErr result (IsUnhanded text.now) }
{
    if text.len() > BYTE_LIMIT {
        return Err(Unhanded::Size);
    }
    let shown = shown_tokens(alloc, text)?;
    if let Some(wrong) = shown.fault {
        return Err(Unhanded::Wrong(wrong));
    }
    let (tokens, end) = before_stop(behind_equals(&shown.tokens), text.len());
    if let Some(token) = first_dollar(tokens) {
        return Err(Unhanded::Wrong(Wrong {
            rule: TextRule::X9,
            token,
        }));
    }
    Ok(HandedTokens {
        tokens: Vec::from_slice(alloc, tokens)?,
        end,
    })
}
