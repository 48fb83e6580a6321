//! The line on a change.

ghost use Rattle.std.specs.Prelude.{◌≡◌, ◌++◌, [], ◌∷◌, map, OnOk};
ghost use Rattle.std.specs.List.{flat_map};
ghost use Rattle.mm_base.specs.Statement.{plain_statement};
ghost use Rattle.mm_base.specs.Token.{plain_token};
ghost use Rattle.mm_text.specs.Files.{plain_file};
ghost use Rattle.mm_rules.specs.Shown.{symbols_text};
ghost use Rattle.mm_step.specs.Plain.{token_texts};
ghost use Rattle.mm_mend.specs.Reply.{change_line, change_name, change_position, change_words};
ghost use Rattle.mm_mend.specs.Reply.{token_at, token_position as position_at};

use crate::change::{Change, tokens_from};
use mm_base::{File, Statement, Token};
use mm_rules::{bytes_before, bytes_from, place_of, push_place, push_word};
use std::alloc::AllocError;

/// The word for a change.
fn name_of(change: Change) -> &'static [u8]
    ensures { result.now ≡ change_name change }
{
    match change {
        Change::Words { .. } | Change::Exchanged { .. } => b"exchanged",
        Change::Removed { .. } => b"removed",
        Change::Replaced { .. } => b"replaced",
        Change::Put { .. } => b"put",
    }
}

/// The position of the token with an index.
fn token_position(tokens: &[Token], index: usize) -> usize
    ensures { result ≡ position_at (map plain_token tokens.now) index }
{
    match tokens.get(index) {
        Some(token) => token.at as usize,
        None => 0,
    }
}

/// The position of what is changed, in a proof of these tokens whose text begins at this one.
fn position_of(tokens: &[Token], begin: u32, change: Change) -> usize
    ensures { result ≡ change_position (map plain_token tokens.now) begin change }
{
    match change {
        Change::Words { at } => token_position(tokens, at as usize),
        Change::Removed { at } => begin as usize + at as usize,
        Change::Exchanged { at } => begin as usize + at as usize,
        Change::Replaced { at, .. } => begin as usize + at as usize,
        Change::Put { at, .. } => begin as usize + at as usize,
    }
}

/// The text of the token with an index; nothing where there is none.
fn text_at<'a>(tokens: &[Token<'a>], index: usize) -> &'a [u8]
    ensures { result.now ≡ token_at (token_texts tokens.now) index }
{
    match tokens.get(index) {
        Some(token) => token.text,
        None => b"",
    }
}

/// Appends two words.
fn push_two(out: &mut Vec<u8>, one: &[u8], other: &[u8]) -> Result<(), AllocError>
    ensures { OnOk result (out.new.items ≡ out.old.items
        ++ symbols_text (one.now ∷ other.now ∷ [])) }
{
    push_word(out, one)?;
    push_word(out, other)
}

/// Appends what stands there and is changed, and what is put in place of it.
fn push_words(
    out: &mut Vec<u8>,
    tokens: &[Token],
    text: &[u8],
    change: Change,
) -> Result<(), AllocError>
    ensures { OnOk result (out.new.items ≡ out.old.items
        ++ symbols_text (change_words (token_texts tokens.now) text.now change)) }
{
    match change {
        Change::Words { at } => {
            let rest = tokens_from(tokens, at as usize);
            push_two(out, text_at(rest, 0), text_at(rest, 1))
        }
        Change::Removed { at } => push_word(out, bytes_before(bytes_from(text, at as usize), 1)),
        Change::Exchanged { at } => {
            let rest = bytes_from(text, at as usize);
            push_two(
                out,
                bytes_before(rest, 1),
                bytes_before(bytes_from(rest, 1), 1),
            )
        }
        Change::Replaced { at, byte } => {
            push_two(out, bytes_before(bytes_from(text, at as usize), 1), &[byte])
        }
        Change::Put { byte, .. } => push_word(out, &[byte]),
    }
}

/// Appends the line on a change of the statement's proof, with this text.
fn push_line(
    out: &mut Vec<u8>,
    files: &[File],
    statement: &Statement,
    text: &[u8],
    change: Change,
) -> Result<(), AllocError>
    ensures { OnOk result (out.new.items ≡ out.old.items
        ++ change_line (map plain_file files.now) (plain_statement statement.now) text.now
        change) }
{
    let at = position_of(&statement.proof, statement.span.0, change);
    out.extend_from_slice(name_of(change))?;
    out.push(b' ')?;
    push_place(out, files, place_of(files, statement.first.file, at))?;
    push_words(out, &statement.proof, text, change)?;
    out.push(b'\n')?;
    Ok(())
}

/// Appends the lines on changes.
pub(crate) fn push_lines(
    out: &mut Vec<u8>,
    files: &[File],
    statement: &Statement,
    text: &[u8],
    changes: &[Change],
) -> Result<(), AllocError>
    ensures { OnOk result (out.new.items ≡ out.old.items
        ++ flat_map (λ change. change_line (map plain_file files.now)
        (plain_statement statement.now) text.now change) changes.now) }
{
    for change in changes {
        push_line(out, files, statement, text, *change)?;
    }
    Ok(())
}
