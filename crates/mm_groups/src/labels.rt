//! The labels that a proof names.

ghost use Rattle.std.specs.Prelude.{◌≡◌, ◌≤◌, ◌++◌, filter, length, option_map, IfOk, OnOk};
ghost use Rattle.std.specs.List.{position_or_len};
ghost use Rattle.std.specs.Option.{option_to_list};
ghost use Rattle.mm_base.specs.Statement.{plain_statement};
ghost use Rattle.mm_code.specs.Layout.{texts};
ghost use Rattle.mm_proof.specs.Tokens.{is_unknown as is_unknown_text};
ghost use Rattle.mm_groups.specs.Shared.{is_closing as is_closing_text, is_known, labels_in};
ghost use Rattle.mm_groups.specs.Shared.{named_labels as named_labels_in};
ghost use Rattle.mm_step.specs.Plain.{token_texts};

use mm_base::{Kind, Statement, Token};
use mm_proof::begins_list;
use std::alloc::{AllocError, Global};

/// Whether the token is `)`.
fn is_closing(text: &[u8]) -> bool
    ensures { result ≡ is_closing_text text.now }
{
    match text {
        [only] => *only == b')',
        _ => false,
    }
}

/// How many tokens stand before the first `)`, or how many they are.
fn count_before_closing(tokens: &[Token]) -> usize
    ensures first { result ≡ position_or_len is_closing_text (token_texts tokens.now) }
    ensures within { result ≤ length tokens.now }
{
    for (index, token) in tokens.iter().enumerate() {
        if is_closing(token.text) {
            return index;
        }
    }
    tokens.len()
}

/// The list of a compressed proof, or all tokens of a normal one.
fn named_labels<'t, 'a>(tokens: &'t [Token<'a>]) -> &'t [Token<'a>]
    ensures { token_texts result.now ≡ named_labels_in (token_texts tokens.now) }
{
    match tokens {
        [_, rest @ ..] if begins_list(tokens) => &rest[..count_before_closing(rest)],
        _ => tokens,
    }
}

/// Whether the token holds a `?`.
fn is_unknown(text: &[u8]) -> bool
    ensures { result ≡ is_unknown_text text.now }
{
    text.iter().any(|byte| *byte == b'?')
}

/// Appends those of the tokens that stand for no unknown step.
fn push_labels<'a>(labels: &mut Vec<&'a [u8]>, tokens: &[Token<'a>]) -> Result<(), AllocError>
    ensures { OnOk result (texts labels.new.items ≡ texts labels.old.items
        ++ filter is_known (token_texts tokens.now)) }
{
    for token in tokens {
        if is_unknown(token.text) {
            continue;
        }
        labels.push(token.text)?;
    }
    Ok(())
}

/// Appends the label, if there is one.
fn push_own<'a>(labels: &mut Vec<&'a [u8]>, label: Option<Token<'a>>) -> Result<(), AllocError>
    ensures { OnOk result (texts labels.new.items ≡ texts labels.old.items
        ++ option_to_list (option_map (λ t. t.text.now) label.entry)) }
{
    match label {
        Some(token) => {
            labels.push(token.text)?;
            Ok(())
        }
        None => Ok(()),
    }
}

/// The label of a `$p` and those that its proof names; none of another statement.
pub(crate) fn labels_of<'a>(
    alloc: Global,
    statement: &Statement<'a>,
) -> Result<Vec<&'a [u8]>, AllocError>
    ensures { IfOk result (λ labels.
        texts labels.items ≡ labels_in (plain_statement statement.now)) }
{
    let mut labels = Vec::new(alloc);
    match statement.kind {
        Kind::Provable => {
            push_own(&mut labels, statement.label)?;
            push_labels(&mut labels, named_labels(&statement.proof))?;
            Ok(labels)
        }
        _ => Ok(labels),
    }
}
