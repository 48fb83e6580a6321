//! What stands in a file outside comments.

ghost use Rattle.std.specs.Prelude.{◌≡◌, ℕ, ◌==◌, ◌&&◌, ◌||◌, ◌≤◌, ◌<◌, true, false, length, codes};
ghost use Rattle.std.specs.Prelude.{drop};
ghost use Rattle.std.specs.Prelude.{slice_index, slice_range};
ghost use Rattle.mm_base.specs.Token.{plain_token, is_space, tokens_from};
ghost use Rattle.mm_text.specs.Items.{holds_mark};
ghost use Rattle.mm_base.specs.Spelling.{spells};
ghost use Rattle.mm_text.specs.Mirror.Position.{is_quiet, IsLegalPrefix, IsLegalUpTo, IsPosition};
ghost use Rattle.mm_text.specs.Mirror.Position.{IsMarkAt, IsClosedAt, BeginsNext};
ghost use Rattle.mm_text.specs.Mirror.Position.{IsSameFile, GoesOn, EndsComment, TakesOne};
ghost use Rattle.mm_text.specs.Mirror.Position.{TakesWordAt, TakesShown, shown_at};
ghost use Rattle.mm_base.specs.MostBytes.{most_bytes};

use crate::fault::TextRule;
use crate::scan::{
    is_quiet, is_space, legal_end, short_word_end, skip_space, token_end, token_start,
};
use mm_base::Token;

/// The position up to which a file was read.
#[derive(Clone, Copy)]
pub struct Position<'a> {
    pub bytes: &'a [u8],
    /// The number of the file.
    pub file: usize,
    pub at: usize,
    /// A position up to which all bytes may stand in a file. It is found for many tokens at once,
    /// so that no token has to be looked through for illegal bytes, and comments are skipped.
    pub legal: usize,
}

/// What a part of a comment comes to, with the position after it.
#[derive(Clone, Copy)]
pub enum Comment<'a> {
    /// The comment goes on.
    Open(Position<'a>),
    /// A `$)` closes it.
    Closed(Position<'a>),
}

/// What stands next in a file.
#[derive(Clone, Copy)]
pub enum Found<'a> {
    /// A token outside comments, and whether it holds a `$`.
    Token(Token<'a>, bool),
    /// A comment.
    Comment,
    /// The file's end.
    End,
}

/// Where the text is wrong, and by which rule.
#[derive(Clone, Copy)]
pub struct Wrong<'a> {
    pub rule: TextRule,
    pub token: Token<'a>,
}

impl<'a> Position<'a> {
    /// The beginning of a file.
    pub fn begin(bytes: &'a [u8], file: usize) -> Position<'a>
        requires { length bytes.now ≤ most_bytes }
        ensures position { IsPosition result }
        ensures bytes { result.bytes.now ≡ bytes.now }
        ensures file { result.file ≡ file }
        ensures at { result.at ≡ 0 }
    {
        Position {
            bytes,
            file,
            at: 0,
            legal: 0,
        }
    }
}

/// A position up to which the bytes may stand in a file, no further back than the one that is
/// known. Those up to a wanted position are judged, if they weren't yet.
#[inline(always)]
fn legal_prefix(bytes: &[u8], legal: usize, wanted: usize) -> usize
    requires prefix { IsLegalPrefix bytes.now legal }
    requires within { wanted ≤ length bytes.now }
    ensures from { legal ≤ result }
    ensures judged { IsLegalUpTo bytes.now result wanted }
{
    if legal < wanted {
        return legal_end(bytes, legal, wanted);
    }
    legal
}

/// Whether a token is `$(`.
fn is_begin(text: &[u8]) -> bool
    ensures { result ≡ spells text.now (codes "$(") }
{
    matches!(text, b"$(")
}

/// Whether a token is `$)`.
fn is_close(text: &[u8]) -> bool
    ensures { result ≡ spells text.now (codes "$)") }
{
    matches!(text, b"$)")
}

/// Whether two bytes are `$(` or `$)`.
pub fn are_mark(first: u8, second: u8) -> bool
    ensures { result ≡ (first == 36 && (second == 40 || second == 41)) }
{
    first == b'$' && (second == b'(' || second == b')')
}

/// Whether a token holds the sequence `$(` or `$)`.
fn holds_mark(text: &[u8]) -> bool
    ensures { result ≡ holds_mark text.now }
{
    for at in 1..text.len() {
        if are_mark(text[at - 1], text[at]) {
            return true;
        }
    }
    false
}

/// The token of a file from one position up to another.
fn make_token<'a>(bytes: &'a [u8], file: usize, start: usize, end: usize) -> Token<'a>
    requires order { start < end }
    requires within { end ≤ length bytes.now }
    requires small { length bytes.now ≤ most_bytes }
    ensures token { plain_token result
        ≡ record { text = slice_range bytes.now start end; file = file; at = start } }
    ensures at { result.at < most_bytes }
{
    Token {
        text: &bytes[start..end],
        file,
        at: start as u32,
    }
}

/// The next position at which a comment may end or be wrong: that of a `$`, or of a byte that no
/// token may hold; the file's end where there is none. So the bytes before it are judged as well.
fn comment_stop(bytes: &[u8], at: usize) -> usize
    requires { at ≤ length bytes.now }
    ensures from { at ≤ result }
    ensures within { result ≤ length bytes.now }
    ensures quiet { (k : ℕ) → at ≤ k → k < result → is_quiet (slice_index bytes.now k) ≡ true }
    ensures stops { result < length bytes.now → is_space (slice_index bytes.now result) ≡ false }
{
    for stop in at..bytes.len() {
        if !is_quiet(bytes[stop]) {
            return stop;
        }
    }
    bytes.len()
}

/// Whether a `$` and another byte stand at a position and white space after them. A token that
/// begins there is then those two bytes.
#[inline(always)]
fn is_mark_at(bytes: &[u8], second: u8, at: usize) -> bool
    requires { at ≤ length bytes.now }
    ensures { result ≡ true → IsMarkAt bytes.now second at }
{
    if bytes.len() - at <= 2 {
        return false;
    }
    bytes[at] == b'$' && bytes[at + 1] == second && is_space(bytes[at + 2])
}

/// Whether such a `$)` stands at a stop of a comment, after white space: nearly every comment ends
/// so, and this tells it before the token is looked for in both directions.
#[inline(always)]
fn is_closed_at(bytes: &[u8], low: usize, at: usize) -> bool
    requires { at ≤ length bytes.now }
    ensures { result ≡ true → IsClosedAt bytes.now at }
{
    if !is_mark_at(bytes, b')', at) {
        return false;
    }
    at > low && is_space(bytes[at - 1])
}

/// What a comment comes to at its next token that holds a `$` or a byte that no token may hold.
fn comment_step<'a>(mut position: Position<'a>, begin: Token<'a>) -> Result<Comment<'a>, Wrong<'a>>
    requires position { IsPosition position }
    requires begin { begin.at < most_bytes }
    ensures { GoesOn position.entry (plain_token begin.entry) result }
{
    let stop = comment_stop(position.bytes, position.at);
    if stop == position.bytes.len() {
        return Err(Wrong {
            rule: TextRule::X2,
            token: begin,
        });
    }
    if is_closed_at(position.bytes, position.at, stop) {
        let at = stop + 2;
        let legal = position.legal.max(at);
        return Ok(Comment::Closed(Position {
            at,
            legal,
            ..position
        }));
    }
    let start = token_start(position.bytes, position.at, stop);
    let (end, _) = token_end(position.bytes, start);
    let token = make_token(position.bytes, position.file, start, end);
    position.legal = legal_prefix(position.bytes, position.legal.max(stop), end);
    if position.legal < end {
        return Err(Wrong {
            rule: TextRule::X1,
            token,
        });
    }
    if is_close(token.text) {
        return Ok(Comment::Closed(Position {
            at: end,
            ..position
        }));
    }
    if holds_mark(token.text) {
        return Err(Wrong {
            rule: TextRule::X3,
            token,
        });
    }
    Ok(Comment::Open(Position {
        at: end,
        ..position
    }))
}

/// The position after a `$(` that stands next, and that token, where white space comes after it;
/// else none.
#[inline(always)]
fn next_begin<'a>(position: Position<'a>) -> Option<(Position<'a>, Token<'a>)>
    requires { IsPosition position }
    ensures { BeginsNext position.entry result }
{
    let start = skip_space(position.bytes, position.at);
    if is_mark_at(position.bytes, b'(', start) {
        let end = start + 2;
        let legal = position.legal.max(end);
        let begin = make_token(position.bytes, position.file, start, end);
        let inside = Position {
            at: end,
            legal,
            ..position
        };
        return Some((inside, begin));
    }
    None
}

/// The position after the comment that begins with a `$(` before a position.
///
/// Comments that come right after it are passed over too, which spares a call for each.
#[inline(never)]
fn comment_end<'a>(
    mut position: Position<'a>,
    mut begin: Token<'a>,
) -> Result<Position<'a>, Wrong<'a>>
    requires position { IsPosition position }
    requires begin { begin.at < most_bytes }
    ensures { EndsComment position.entry (plain_token begin.entry) result }
{
    'parts: loop {
        match comment_step(position, begin)? {
            Comment::Open(after) => position = after,
            Comment::Closed(after) => match next_begin(after) {
                Some((inside, next)) => {
                    position = inside;
                    begin = next;
                }
                None => return Ok(after),
            },
        }
    }
}

/// Takes the next token or comment. Where the text is wrong nothing is taken.
#[inline(always)]
fn take_one<'a>(position: &mut Position<'a>) -> Result<Found<'a>, Wrong<'a>>
    requires { IsPosition position.old }
    ensures position { IsPosition position.new }
    ensures same { IsSameFile position.old position.new }
    ensures takes { TakesOne position.old result position.new }
{
    let start = skip_space(position.bytes, position.at);
    if start == position.bytes.len() {
        return Ok(Found::End);
    }
    let (end, has_dollar) = token_end(position.bytes, start);
    let token = make_token(position.bytes, position.file, start, end);
    position.legal = legal_prefix(position.bytes, position.legal, end);
    if position.legal < end {
        return Err(Wrong {
            rule: TextRule::X1,
            token,
        });
    }
    if is_close(token.text) {
        return Err(Wrong {
            rule: TextRule::X4,
            token,
        });
    }
    if is_begin(token.text) {
        *position = comment_end(
            Position {
                at: end,
                ..*position
            },
            token,
        )?;
        return Ok(Found::Comment);
    }
    position.at = end;
    Ok(Found::Token(token, has_dollar))
}

/// The position after the white space at a position, where some stands there and is judged.
#[inline(always)]
fn after_blank(bytes: &[u8], at: usize, legal: usize) -> usize
    requires within { at ≤ legal }
    requires prefix { IsLegalPrefix bytes.now legal }
    requires blank { at < length bytes.now → is_space (slice_index bytes.now at) ≡ true }
    ensures from { at ≤ result }
    ensures within { result ≤ legal }
    ensures same_tokens { (file : ℕ) → tokens_from file at (drop at bytes.now)
        ≡ tokens_from file result (drop result bytes.now) }
{
    if at < legal { at + 1 } else { at }
}

/// Takes the next token where it is a word whose bytes are judged already and that no comment comes
/// before; else takes nothing. For most tokens it does what `take_token` does for each, and sooner.
#[inline(always)]
pub fn take_word<'a>(position: &mut Position<'a>) -> Option<Token<'a>>
    requires { IsPosition position.old }
    ensures position { IsPosition position.new }
    ensures same { IsSameFile position.old position.new }
    ensures takes { TakesWordAt position.old result position.new }
{
    let start = skip_space(position.bytes, position.at);
    if start == position.bytes.len() {
        return None;
    }
    if let Some(end) = short_word_end(position.bytes, start) {
        if end < position.legal {
            // The next look for a token then begins where nearly always one does.
            position.at = end + 1;
            return Some(make_token(position.bytes, position.file, start, end));
        }
    }
    let (end, has_dollar) = token_end(position.bytes, start);
    if has_dollar || position.legal < end {
        return None;
    }
    position.at = after_blank(position.bytes, end, position.legal);
    Some(make_token(position.bytes, position.file, start, end))
}

/// Takes the next token outside comments, and tells whether it holds a `$`; none at the file's end.
/// Where the text is wrong no token is taken.
#[inline(always)]
pub fn take_token<'a>(position: &mut Position<'a>) -> Result<Option<(Token<'a>, bool)>, Wrong<'a>>
    requires { IsPosition position.old }
    ensures position { IsPosition position.new }
    ensures same { IsSameFile position.old position.new }
    ensures takes { TakesShown (shown_at position.old) result (shown_at position.new) }
{
    'comments: loop {
        match take_one(position)? {
            Found::Token(token, has_dollar) => return Ok(Some((token, has_dollar))),
            Found::Comment => {}
            Found::End => return Ok(None),
        }
    }
}
