//! The lines of compressed proofs in the files of real libraries.

ghost use Rattle.std.specs.Prelude.{◌≡◌, ℕ, List, [], ◌∷◌, ◌++◌, ◌+◌, ◌-◌, ◌≤◌, min, map};
ghost use Rattle.std.specs.Prelude.{length, vec_capacity, IfOk, OnOk};
ghost use Rattle.mm_code.specs.Layout.{texts, size_of, line_width};
ghost use Rattle.mm_code.specs.SmallLayout.{SmallLaidOut, LinePiece, token, letter, letter_pieces};
ghost use Rattle.mm_code.specs.SmallLayout.{most_indent, pieces_bound, small_bound, shown};
ghost use Rattle.mm_code.specs.Mirror.SmallLines.{line_start, small_rest, small_room};

use crate::layout::size_of_tokens;
use std::alloc::{AllocError, Global};

/// The most spaces that a line of `lay_out_small` begins with.
pub const MOST_INDENT: usize = 39;

/// How many bytes a line of several tokens has at most, its line feed not counted.
const LINE_WIDTH: usize = 79;

/// Begins a line, and answers the room that is left on it.
fn begin_line(text: &mut Vec<u8>, indent: usize) -> Result<usize, AllocError>
    requires { indent ≤ most_indent }
    ensures text { OnOk result (text.new.items ≡ text.old.items ++ line_start indent) }
    ensures room { IfOk result (λ room. room ≡ small_room indent 0) }
{
    text.push(b'\n')?;
    text.resize(text.len() + indent, b' ')?;
    Ok(LINE_WIDTH - indent)
}

/// Adds a token where a line has this room, a space and the token: on that line if it fits, or else
/// on the next. Answers the room that is then left.
fn add_token(
    text: &mut Vec<u8>,
    indent: usize,
    room: usize,
    token: &[u8],
) -> Result<usize, AllocError>
    requires { indent ≤ most_indent }
    ensures { IfOk result (λ left. (more : List LinePiece) →
        text.new.items ++ small_rest indent left more
        ≡ text.old.items ++ small_rest indent room (LinePiece.token token.now ∷ more)) }
{
    if token.len() < room {
        text.push(b' ')?;
        text.extend_from_slice(token)?;
        return Ok(room - token.len() - 1);
    }
    let whole = begin_line(text, indent)?;
    text.extend_from_slice(token)?;
    Ok(whole.saturating_sub(token.len()))
}

/// Adds tokens, one after the other.
fn add_tokens(
    text: &mut Vec<u8>,
    indent: usize,
    room: usize,
    tokens: &[&[u8]],
) -> Result<usize, AllocError>
    requires { indent ≤ most_indent }
    ensures { IfOk result (λ left. (more : List LinePiece) →
        text.new.items ++ small_rest indent left more
        ≡ text.old.items
        ++ small_rest indent room (map LinePiece.token (texts tokens.now) ++ more)) }
{
    let mut left = room;
    for token in tokens {
        left = add_token(text, indent, left, token)?;
    }
    Ok(left)
}

/// Adds the labels as they stand between the parentheses: where there are none, an empty one.
fn add_labels(
    text: &mut Vec<u8>,
    indent: usize,
    room: usize,
    labels: &[&[u8]],
) -> Result<usize, AllocError>
    requires { indent ≤ most_indent }
    ensures { IfOk result (λ left. (more : List LinePiece) →
        text.new.items ++ small_rest indent left more
        ≡ text.old.items
        ++ small_rest indent room (map LinePiece.token (shown (texts labels.now)) ++ more)) }
{
    if labels.is_empty() {
        return add_token(text, indent, room, b"");
    }
    add_tokens(text, indent, room, labels)
}

/// Adds letters right behind a letter: as many as this room takes, and then whole lines of them.
fn add_further_letters(
    text: &mut Vec<u8>,
    indent: usize,
    room: usize,
    letters: &[u8],
) -> Result<usize, AllocError>
    requires { indent ≤ most_indent }
    ensures { IfOk result (λ left. (more : List LinePiece) →
        text.new.items ++ small_rest indent left more
        ≡ text.old.items ++ small_rest indent room (map LinePiece.letter letters.now ++ more)) }
{
    let mut left = room;
    let mut rest = letters;
    while !rest.is_empty() {
        if left == 0 {
            left = begin_line(text, indent)?;
        }
        let (line, after) = rest.split_at(rest.len().min(left));
        text.extend_from_slice(line)?;
        left -= line.len();
        rest = after;
    }
    Ok(left)
}

/// Adds the letters: the first as a token, and the others right behind it.
fn add_letters(
    text: &mut Vec<u8>,
    indent: usize,
    room: usize,
    letters: &[u8],
) -> Result<usize, AllocError>
    requires { indent ≤ most_indent }
    ensures { IfOk result (λ left. (more : List LinePiece) →
        text.new.items ++ small_rest indent left more
        ≡ text.old.items ++ small_rest indent room (letter_pieces letters.now ++ more)) }
{
    if letters.is_empty() {
        return Ok(room);
    }
    let (first, others) = letters.split_at(1);
    let left = add_token(text, indent, room, first)?;
    add_further_letters(text, indent, left, others)
}

/// Adds what stands before `$.`: a space where both fit, or else the beginning of a line.
fn add_before_end(text: &mut Vec<u8>, indent: usize, room: usize) -> Result<(), AllocError>
    requires { indent ≤ most_indent }
    ensures { OnOk result (text.new.items ≡ text.old.items ++ small_rest indent room []) }
{
    if room > 2 {
        text.push(b' ')?;
    } else {
        begin_line(text, indent)?;
    }
    Ok(())
}

/// At least the bytes of the lines of a proof: two lines in a row have at least 80 bytes of tokens
/// and letters with one indent.
fn size_of_lines(indent: usize, labels: &[&[u8]], letters: &[u8]) -> usize
    requires { indent ≤ most_indent }
    ensures { result ≡ min usize.MAX (small_bound indent
        (pieces_bound (size_of (texts labels.now)) (length letters.now))) }
{
    let pieces = size_of_tokens(labels)
        .saturating_add(letters.len())
        .saturating_add(9);
    let lines = pieces / ((80 - indent) / 2) + 1;
    pieces.saturating_add(lines.saturating_mul(indent + 1))
}

/// Empty, with room reserved for the lines of a proof: the most that they can need.
fn room_for_lines(
    alloc: Global,
    indent: usize,
    labels: &[&[u8]],
    letters: &[u8],
) -> Result<Vec<u8>, AllocError>
    requires { indent ≤ most_indent }
    ensures empty { IfOk result (λ text. text.items ≡ []) }
    ensures exact { IfOk result (λ text. vec_capacity text ≡ min usize.MAX (small_bound indent
        (pieces_bound (size_of (texts labels.now)) (length letters.now)))) }
{
    Vec::with_capacity(alloc, size_of_lines(indent, labels, letters))
}

/// What stands between the `$=` and the `$.` of a compressed proof in the files of real libraries:
/// a line feed, then lines that each begin with so many spaces and have at most 79 bytes, unless
/// their one token is longer. They have as many of these as fit, one after the other: `(`, the
/// labels, `)`, the letters and `$.`. A space stands before each that isn't the first on its line,
/// and the letters are cut where a line ends. A list of no labels is `(  )`, with two spaces.
///
/// # Errors
///
/// Where the one growth was refused.
pub fn lay_out_small(
    alloc: Global,
    indent: usize,
    labels: &[&[u8]],
    letters: &[u8],
) -> Result<Vec<u8>, AllocError>
    requires { indent ≤ most_indent }
    ensures { IfOk result (λ text.
        SmallLaidOut indent (texts labels.now) letters.now text.items) }
{
    let mut text = room_for_lines(alloc, indent, labels, letters)?;
    let opened = add_token(&mut text, indent, 0, b"(")?;
    let listed = add_labels(&mut text, indent, opened, labels)?;
    let closed = add_token(&mut text, indent, listed, b")")?;
    let lettered = add_letters(&mut text, indent, closed, letters)?;
    add_before_end(&mut text, indent, lettered)?;
    Ok(text)
}
