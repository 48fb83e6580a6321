//! Places in the bytes of a file where text can be put between its statements.

use mm_text::headings_between;
use mm_verdict::is_space;

// What headings hold, from those of parts to the least ones.
const HEADING_MARKS: [&[u8]; 4] = [b"####", b"#*#*", b"=-=-", b"-.-."];

// How far a comment's beginning is looked for, or that of a line.
const MOST_BYTES: usize = 1 << 16;

// Whether a text holds a word.
fn holds(text: &[u8], word: &[u8]) -> bool {
    for at in 0..text.len() {
        if text[at..].starts_with(word) {
            return true;
        }
    }
    false
}

// Whether a text is that of a heading.
fn is_heading(text: &[u8]) -> bool {
    for mark in HEADING_MARKS {
        if holds(text, mark) {
            return true;
        }
    }
    false
}

// Whether these bytes stand at a position.
fn stands_at(bytes: &[u8], at: usize, wanted: &[u8]) -> bool {
    match bytes.get(at..) {
        Some(rest) => rest.starts_with(wanted),
        None => false,
    }
}

// The end of the bytes before a position without the white space at their end.
fn blank_start(bytes: &[u8], at: usize) -> usize {
    for back in 0..at.min(MOST_BYTES) {
        let end = at - back;
        match bytes.get(end - 1) {
            Some(byte) if is_space(*byte) => {}
            _ => return end,
        }
    }
    0
}

// Where the comment right before a position begins, unless it is a heading.
fn comment_before(bytes: &[u8], at: usize) -> Option<usize> {
    let end = blank_start(bytes, at).checked_sub(2)?;
    if !stands_at(bytes, end, b"$)") {
        return None;
    }
    for back in 0..end.min(MOST_BYTES) {
        let start = end - 1 - back;
        if stands_at(bytes, start, b"$(") {
            let text = bytes.get(start..end)?;
            return if is_heading(text) { None } else { Some(start) };
        }
    }
    None
}

// The beginning of the line on which a position lies, if only spaces stand before it there; else
// the position itself.
fn line_start(bytes: &[u8], at: usize) -> usize {
    for back in 0..at.min(MOST_BYTES) {
        let start = at - back;
        match bytes.get(start - 1).copied() {
            Some(b' ') => {}
            Some(b'\n') => return start,
            _ => return at,
        }
    }
    at
}

/// The place before the block or the statement that begins at a position: also before its comment,
/// if it is no block.
pub(crate) fn place_before(bytes: &[u8], at: usize) -> usize {
    if stands_at(bytes, at, b"${") {
        return line_start(bytes, at);
    }
    line_start(bytes, comment_before(bytes, at).unwrap_or(at))
}

/// Whether a line begins at a position.
pub(crate) fn begins_line(bytes: &[u8], at: usize) -> bool {
    match at.checked_sub(1) {
        Some(before) => bytes.get(before).copied() == Some(b'\n'),
        None => true,
    }
}

/// Where the first heading of a mathbox begins in a file.
pub(crate) fn first_mathbox_heading(bytes: &[u8]) -> Option<usize> {
    for at in 0..bytes.len() {
        if bytes[at] == b'$' && headings_between(bytes, at, at + 1) > 0 {
            return Some(at);
        }
    }
    None
}

/// How many mathboxes begin from a position of a file up to another one.
pub(crate) fn mathboxes_between(bytes: &[u8], start: usize, end: usize) -> usize {
    if start <= end && end <= bytes.len() {
        headings_between(bytes, start, end)
    } else {
        0
    }
}
