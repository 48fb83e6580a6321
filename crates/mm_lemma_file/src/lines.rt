//! Text in lines, as libraries have it.

use std::alloc::{AllocError, Global};

// How many bytes a line of several words has at most, its line feed not counted.
const LINE_WIDTH: usize = 79;

// How many more spaces the lines behind the first one begin with.
const FURTHER_INDENT: usize = 4;

/// Text in lines. Words stand on a line as long as they fit, and then on the next one.
#[derive(Drop)]
pub(crate) struct Lines {
    pub(crate) text: Vec<u8>,
    /// How many spaces the line began with.
    indent: usize,
    /// How many bytes the line has.
    width: usize,
    /// Whether no word stands on it.
    is_bare: bool,
}

impl Lines {
    /// No lines.
    pub(crate) fn new(alloc: Global) -> Lines {
        Lines {
            text: Vec::new(alloc),
            indent: 0,
            width: 0,
            is_bare: true,
        }
    }

    /// Begins a line with so many spaces.
    pub(crate) fn begin(&mut self, indent: usize) -> Result<(), AllocError> {
        for _ in 0..indent {
            self.text.push(b' ')?;
        }
        self.indent = indent;
        self.width = indent;
        self.is_bare = true;
        Ok(())
    }

    /// Adds a word.
    pub(crate) fn word(&mut self, word: &[u8]) -> Result<(), AllocError> {
        if !self.is_bare {
            self.part(word.len())?;
        }
        self.text.extend_from_slice(word)?;
        self.width = self.width.saturating_add(word.len());
        self.is_bare = false;
        Ok(())
    }

    // Parts a word with so many bytes from the one before it.
    fn part(&mut self, bytes: usize) -> Result<(), AllocError> {
        if self.width.saturating_add(bytes) < LINE_WIDTH {
            self.text.push(b' ')?;
            self.width = self.width.saturating_add(1);
            return Ok(());
        }
        let indent = self.indent;
        self.end()?;
        self.begin(indent.saturating_add(FURTHER_INDENT))?;
        self.indent = indent;
        Ok(())
    }

    /// Ends a line.
    pub(crate) fn end(&mut self) -> Result<(), AllocError> {
        self.text.push(b'\n')?;
        Ok(())
    }

    /// Adds words that stand on lines of their own, the last of which has no end.
    pub(crate) fn lines(&mut self, text: &[u8]) -> Result<(), AllocError> {
        self.text.extend_from_slice(text)
    }
}

// The indent of a proof that doesn't stand on lines of its own.
const USUAL_INDENT: usize = 4;

// The position behind the first line feed, if there is one.
fn second_line(bytes: &[u8]) -> Option<usize> {
    for (at, byte) in bytes.iter().enumerate() {
        if *byte == b'\n' {
            return Some(at.saturating_add(1));
        }
    }
    None
}

// How many spaces bytes begin with.
fn spaces_before(bytes: &[u8]) -> usize {
    for (at, byte) in bytes.iter().enumerate() {
        if *byte != b' ' {
            return at;
        }
    }
    bytes.len()
}

// Bytes behind a byte that they may begin with.
fn behind(bytes: &[u8], byte: u8) -> Option<&[u8]> {
    if bytes.first().copied() == Some(byte) {
        bytes.get(1..)
    } else {
        None
    }
}

/// How many spaces the lines of a proof begin with that stands in a file as these bytes.
pub(crate) fn indent_in(old: &[u8]) -> usize {
    let first = behind(old, b'\r').unwrap_or(old);
    match behind(first, b'\n') {
        Some(line) => spaces_before(line),
        None => USUAL_INDENT,
    }
}

// Whether the first line of some bytes ends with a carriage return and a line feed.
fn has_long_ends(bytes: &[u8]) -> bool {
    match second_line(bytes) {
        Some(at) => bytes.get(at.saturating_sub(2)).copied() == Some(b'\r'),
        None => false,
    }
}

/// A text with the line ends that some bytes have.
pub(crate) fn with_ends_of(
    alloc: Global,
    bytes: &[u8],
    text: Vec<u8>,
) -> Result<Vec<u8>, AllocError> {
    if has_long_ends(bytes) {
        with_long_ends(alloc, &text)
    } else {
        Ok(text)
    }
}

// A text with a carriage return before each line feed.
fn with_long_ends(alloc: Global, text: &[u8]) -> Result<Vec<u8>, AllocError> {
    let mut ended = Vec::with_capacity(alloc, text.len())?;
    for byte in text {
        if *byte == b'\n' {
            ended.push(b'\r')?;
        }
        ended.push(*byte)?;
    }
    Ok(ended)
}
