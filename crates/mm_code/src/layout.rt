//! The lines in which proofs are printed and saved.

ghost use Rattle.std.specs.Prelude.{◌≡◌, ℕ, List, [], ◌∷◌, ◌++◌, ◌+◌, ◌-◌, min, vec_capacity};
ghost use Rattle.std.specs.Prelude.{length, IfOk, OnOk};
ghost use Rattle.mm_code.specs.Layout.{indent, line_feed, LaidOut, LettersLaidOut};
ghost use Rattle.mm_code.specs.Layout.{CompressedLaidOut, texts, size_of, lines_bound};
ghost use Rattle.mm_code.specs.Layout.{letters_bound};
ghost use Rattle.mm_code.specs.Mirror.Lines.{rest_of, room_after, AppendsLetters};

use std::alloc::{AllocError, Global};

/// What each line begins with.
const INDENT: &[u8] = b"      ";

/// How many bytes a line of 79 bytes has behind its indent.
const LINE_ROOM: usize = 73;

/// How many letters a whole line of letters has.
const LINE_LETTERS: usize = 73;

/// Begins a line with its first token, whatever its length, and answers the room that is left on
/// it.
fn begin_line(text: &mut Vec<u8>, token: &[u8]) -> Result<usize, AllocError>
    ensures text { OnOk result (text.new.items ≡ text.old.items ++ (indent ++ token.now)) }
    ensures room { IfOk result (λ room. room ≡ room_after (length token.now)) }
{
    text.extend_from_slice(INDENT)?;
    text.extend_from_slice(token)?;
    Ok(LINE_ROOM.saturating_sub(token.len()))
}

/// Adds a token where a line has this room, a space and the token: on that line if it fits, or else
/// on the next. Answers the room that is then left.
fn add_token(text: &mut Vec<u8>, room: usize, token: &[u8]) -> Result<usize, AllocError>
    ensures { IfOk result (λ left. (more : List (List ℕ)) →
        text.new.items ++ rest_of left more ≡ text.old.items ++ rest_of room (token.now ∷ more)) }
{
    if token.len() < room {
        text.push(b' ')?;
        text.extend_from_slice(token)?;
        return Ok(room - token.len() - 1);
    }
    text.push(b'\n')?;
    begin_line(text, token)
}

/// Adds tokens, one after the other.
fn add_tokens(text: &mut Vec<u8>, room: usize, tokens: &[&[u8]]) -> Result<usize, AllocError>
    ensures { IfOk result (λ left. (more : List (List ℕ)) →
        text.new.items ++ rest_of left more
        ≡ text.old.items ++ rest_of room (texts tokens.now ++ more)) }
{
    let mut left = room;
    for token in tokens {
        left = add_token(text, left, token)?;
    }
    Ok(left)
}

/// The bytes of tokens, each with what stands behind it: a space, or its line's end.
pub(crate) fn size_of_tokens(tokens: &[&[u8]]) -> usize
    ensures { result ≡ min (size_of (texts tokens.now)) usize.MAX }
{
    let mut size = 0usize;
    for token in tokens {
        size = size.saturating_add(token.len()).saturating_add(1);
    }
    size
}

/// At least the bytes of the lines of tokens of this size: two lines in a row have at least 75
/// bytes of tokens, so all indents but one take at most a sixth of the size.
fn size_of_lines(size: usize) -> usize
    ensures { result ≡ min (lines_bound size) usize.MAX }
{
    size.saturating_add(size / 6).saturating_add(6)
}

/// The bytes of the lines of letters: each line has six spaces and its end besides.
fn size_of_letters(letters: &[u8]) -> usize
    ensures { result ≡ min (letters_bound (length letters.now)) usize.MAX }
{
    let lines = letters.len().div_ceil(LINE_LETTERS);
    letters.len().saturating_add(lines.saturating_mul(7))
}

/// Adds one line of letters.
fn add_letter_line(text: &mut Vec<u8>, line: &[u8]) -> Result<(), AllocError>
    ensures { OnOk result
        (text.new.items ≡ text.old.items ++ ((indent ++ line.now) ++ line_feed ∷ [])) }
{
    text.extend_from_slice(INDENT)?;
    text.extend_from_slice(line)?;
    text.push(b'\n')?;
    Ok(())
}

/// Adds the lines of letters: 73 on each, and 1 to 73 on the last. No letters are no line.
fn add_letters(text: &mut Vec<u8>, letters: &[u8]) -> Result<(), AllocError>
    ensures { OnOk result (AppendsLetters text.old.items text.new.items letters.now) }
{
    let mut rest = letters;
    while !rest.is_empty() {
        let (line, after) = rest.split_at(rest.len().min(LINE_LETTERS));
        add_letter_line(text, line)?;
        rest = after;
    }
    Ok(())
}

/// Empty, with room reserved for the lines of tokens: the most that they can need.
fn room_for_lines(alloc: Global, tokens: &[&[u8]]) -> Result<Vec<u8>, AllocError>
    ensures empty { IfOk result (λ text. text.items ≡ []) }
    ensures exact { IfOk result (λ text.
        vec_capacity text ≡ min (lines_bound (size_of (texts tokens.now))) usize.MAX) }
{
    Vec::with_capacity(alloc, size_of_lines(size_of_tokens(tokens)))
}

/// Empty, with room reserved for the lines of a compressed proof: the most that they can need.
fn room_for_compressed(
    alloc: Global,
    labels: &[&[u8]],
    letters: &[u8],
) -> Result<Vec<u8>, AllocError>
    ensures empty { IfOk result (λ text. text.items ≡ []) }
    ensures exact { IfOk result (λ text. vec_capacity text ≡ min usize.MAX
        (lines_bound (size_of (texts labels.now) + 4) + letters_bound (length letters.now))) }
{
    let list = size_of_lines(size_of_tokens(labels).saturating_add(4));
    Vec::with_capacity(alloc, list.saturating_add(size_of_letters(letters)))
}

/// The lines of a normal proof: its labels in their order, greedily. A line begins with six spaces
/// and has at most 79 bytes before its 0x0A, unless its one label is longer. No labels are no line.
///
/// # Errors
///
/// Where the one growth was refused.
pub fn lay_out_normal(alloc: Global, labels: &[&[u8]]) -> Result<Vec<u8>, AllocError>
    ensures { IfOk result (λ text. LaidOut (texts labels.now) text.items) }
{
    let Some((first, others)) = labels.split_first() else {
        return Ok(Vec::new(alloc));
    };
    let mut text = room_for_lines(alloc, labels)?;
    let room = begin_line(&mut text, first)?;
    add_tokens(&mut text, room, others)?;
    text.push(b'\n')?;
    Ok(text)
}

/// The lines of a compressed proof (the Metamath book, appendix B): `(`, the labels and `)` in
/// lines like those of a normal proof, and then the letters on lines of their own, each six spaces
/// and 73 letters, the last of 1 to 73.
///
/// # Errors
///
/// Where the one growth was refused.
pub fn lay_out_compressed(
    alloc: Global,
    labels: &[&[u8]],
    letters: &[u8],
) -> Result<Vec<u8>, AllocError>
    ensures { IfOk result (λ text.
        CompressedLaidOut (texts labels.now) letters.now text.items) }
{
    let mut text = room_for_compressed(alloc, labels, letters)?;
    let opened = begin_line(&mut text, b"(")?;
    let listed = add_tokens(&mut text, opened, labels)?;
    add_token(&mut text, listed, b")")?;
    text.push(b'\n')?;
    add_letters(&mut text, letters)?;
    Ok(text)
}
