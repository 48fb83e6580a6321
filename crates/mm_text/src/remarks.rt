//! What comments say of statements: marks in the comment right before one, and its mathbox.

ghost use Rattle.std.specs.Prelude.{◌≡◌, ℕ, ◌+◌, ◌-◌, ◌∷◌, ◌<◌, ◌≤◌, ◌≢◌, ◌↔◌, ◌⊎◌, nat_eq, length};
ghost use Rattle.std.specs.Prelude.{List};
ghost use Rattle.std.specs.Prelude.{drop, true, false, slice_index, IfSome, IsTrue, MatchOption};
ghost use Rattle.std.specs.List.{starts_with};
ghost use Rattle.mm_base.specs.Token.{is_space};
ghost use Rattle.mm_text.specs.Remarks.{holds, spaced, says, is_mark, before_mark, is_heading};
ghost use Rattle.mm_text.specs.Remarks.{headings, mathbox_at, IsCommentBefore, IsSaidBefore};

use crate::comments::are_mark;
use crate::scan::{is_space, skip_space};

/// The position behind a byte that a text says at a position, where each run of white space says one
/// space; none where the text says another byte there.
///
/// White space is passed over only where a space is asked for, so that a long run of it is not gone
/// through once for each of its bytes.
fn behind_said(text: &[u8], at: usize, byte: u8) -> Option<usize>
    requires { at < length text.now }
    ensures { MatchOption result
        ((said : List ℕ) → spaced (drop at text.now) ≢ byte ∷ said)
        (λ after. (at < after) × (after ≤ length text.now)
        × (spaced (drop at text.now) ≡ byte ∷ spaced (drop after text.now))) }
{
    let is_blank = is_space(text[at]);
    if is_blank && byte == b' ' {
        return Some(skip_space(text, at));
    }
    if is_blank || text[at] != byte {
        return None;
    }
    Some(at + 1)
}

/// Whether a text says a sentence from a position on.
fn says_at(text: &[u8], start: usize, sentence: &[u8]) -> bool
    requires { start ≤ length text.now }
    ensures { result ≡ starts_with nat_eq (spaced (drop start text.now)) sentence.now }
{
    let mut at = start;
    for byte in sentence {
        if at == text.len() {
            return false;
        }
        let Some(after) = behind_said(text, at, *byte) else {
            return false;
        };
        at = after;
    }
    true
}

/// Whether a text says a sentence, where each run of white space counts as one space.
fn says(text: &[u8], sentence: &[u8]) -> bool
    ensures { result ≡ says sentence.now text.now }
{
    for at in 0..text.len() {
        if says_at(text, at, sentence) {
            return true;
        }
    }
    sentence.is_empty()
}

/// The end of the bytes before a position without the white space at their end.
fn blank_start(bytes: &[u8], at: usize) -> usize
    requires { at ≤ length bytes.now }
    ensures before { result ≤ at }
    ensures blank { (k : ℕ) → result ≤ k → k < at → is_space (slice_index bytes.now k) ≡ true }
    ensures ink { (k : ℕ) → k + 1 ≡ result → is_space (slice_index bytes.now k) ≡ false }
{
    let mut end = at;
    while end > 0 {
        if !is_space(bytes[end - 1]) {
            return end;
        }
        end -= 1;
    }
    end
}

/// The position of the last `$(` or `$)` that ends no later than at a position.
fn last_mark(bytes: &[u8], stop: usize) -> Option<usize>
    requires { stop ≤ length bytes.now }
    ensures { MatchOption result
        ((k : ℕ) → k + 2 ≤ stop
        → is_mark (slice_index bytes.now k) (slice_index bytes.now (k + 1)) ≡ false)
        (λ mark. (mark + 2 ≤ stop)
        × (is_mark (slice_index bytes.now mark) (slice_index bytes.now (mark + 1)) ≡ true)
        × ((k : ℕ) → mark < k → k + 2 ≤ stop
        → is_mark (slice_index bytes.now k) (slice_index bytes.now (k + 1)) ≡ false)) }
{
    let mut end = stop;
    while end >= 2 {
        if are_mark(bytes[end - 2], bytes[end - 1]) {
            return Some(end - 2);
        }
        end -= 1;
    }
    None
}

/// The comment right before a position of a file, behind whose `$)` there is only white space up to
/// the position: the positions of its `$(` and of its `$)`, in bytes; none where no comment stands
/// there.
///
/// The position is that of a statement's first token, and the file is one that has no fault.
pub fn comment_before(bytes: &[u8], at: usize) -> Option<(usize, usize)>
    requires { at ≤ length bytes.now }
    ensures { MatchOption result
        ((start stop : ℕ) → ¬ (IsCommentBefore bytes.now at start stop))
        (λ found. IsCommentBefore bytes.now at found.0 found.1) }
{
    let end = blank_start(bytes, at);
    if end < 2 || bytes[end - 2] != b'$' || bytes[end - 1] != b')' {
        return None;
    }
    let stop = end - 2;
    match last_mark(bytes, stop) {
        Some(start) if bytes[start + 1] == b'(' => Some((start, stop)),
        _ => None,
    }
}

/// Whether the comment right before a position of a file says a sentence: the comment behind whose
/// `$)` there is only white space up to the position. Each run of white space counts as one space.
///
/// The position is that of a statement's first token, and the file is one that has no fault.
pub fn says_before(bytes: &[u8], at: usize, sentence: &[u8]) -> bool
    requires { at ≤ length bytes.now }
    ensures { IsTrue result ↔ IsSaidBefore sentence.now bytes.now at }
{
    match comment_before(bytes, at) {
        Some((start, stop)) => says(&bytes[start + 2..stop], sentence),
        None => false,
    }
}

/// Whether a text holds a word.
fn holds(text: &[u8], word: &[u8]) -> bool
    ensures { result ≡ holds word.now text.now }
{
    for at in 0..text.len() {
        if text[at..].starts_with(word) {
            return true;
        }
    }
    word.is_empty()
}

/// A text up to the next `$(` or `$)`.
fn before_mark(bytes: &[u8]) -> &[u8]
    ensures { result.now ≡ before_mark bytes.now }
{
    for at in 1..bytes.len() {
        if are_mark(bytes[at - 1], bytes[at]) {
            return &bytes[..at - 1];
        }
    }
    bytes
}

/// Whether bytes begin with the heading of a mathbox.
fn is_heading(bytes: &[u8]) -> bool
    ensures { result ≡ is_heading bytes.now }
{
    if !bytes.starts_with(b"$(".as_slice()) {
        return false;
    }
    let text = before_mark(&bytes[2..]);
    holds(text, b"#*#*".as_slice()) && says(text, b"Mathbox for ".as_slice())
}

/// How many headings of mathboxes begin from a position of a file up to another: comments that hold
/// `#*#*` and say `Mathbox for `, where each run of white space counts as one space. So the mathbox of a later position is told from that of an earlier one.
pub fn headings_between(bytes: &[u8], start: usize, end: usize) -> usize
    requires order { start ≤ end }
    requires within { end ≤ length bytes.now }
    ensures count { result ≡ headings (end - start) (drop start bytes.now) }
    ensures sum { mathbox_at bytes.now end ≡ mathbox_at bytes.now start + result }
{
    let mut count = 0;
    for at in start..end {
        if bytes[at] == b'$' && is_heading(&bytes[at..]) {
            count += 1;
        }
    }
    count
}

/// The number of the mathbox in which a position of a file lies: how many headings of mathboxes begin
/// before it, so 0 before the first.
pub fn mathbox_at(bytes: &[u8], at: usize) -> usize
    requires { at ≤ length bytes.now }
    ensures { result ≡ mathbox_at bytes.now at }
{
    headings_between(bytes, 0, at)
}
