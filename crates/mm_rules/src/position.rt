//! Lines and columns, as a person counts them.

ghost use Rattle.std.specs.Prelude.{◌≡◌, ◌≤◌, ◌<◌, ◌==◌, List, ◌++◌, map, take, drop, length, OnOk};
ghost use Rattle.std.specs.Prelude.{count_by};
ghost use Rattle.mm_text.specs.Files.{plain_file};
ghost use Rattle.mm_text.specs.LineNumbers.{line_in, line_of as line_at};
ghost use Rattle.mm_base.specs.Token.{plain_token};
ghost use Rattle.mm_rules.specs.Places.{bytes_of as bytes_at, bytes_since_feed};
ghost use Rattle.mm_rules.specs.Places.{column_in, column_of as column_at};
ghost use Rattle.mm_rules.specs.Places.{name_of as name_at, place_of as place_at, place_text};

use crate::words::push_decimal;
use mm_base::{File, Token};
use std::alloc::AllocError;
use std::marker::Model;

/// The bytes of one of the files; none where there is no such file.
pub fn bytes_of<'a>(files: &[File<'a>], file: usize) -> &'a [u8]
    ensures { result.now ≡ bytes_at (map plain_file files.now) file }
{
    match files.get(file) {
        Some(file) => file.bytes,
        None => b"",
    }
}

/// How many bytes are counted at once: no more than a byte can count.
const PIECE: usize = 128;

/// How many line feeds a piece of a text has.
///
/// They are added up in a byte, and without a test: so many bytes are looked at in one step.
fn count_in_piece(piece: &[u8]) -> u8
    requires { length piece.now < 256 }
    ensures { result ≡ count_by (λ b. b == 10) piece.now }
{
    let mut count: u8 = 0;
    for byte in piece {
        count = count.wrapping_add((*byte == b'\n') as u8);
    }
    count
}

/// How many line feeds a text has.
fn count_feeds(bytes: &[u8]) -> usize
    ensures { result ≡ count_by (λ b. b == 10) bytes.now }
{
    let mut count = 0;
    let mut rest = bytes;
    while !rest.is_empty() {
        let (piece, after) = rest.split_at(rest.len().min(PIECE));
        count += count_in_piece(piece) as usize;
        rest = after;
    }
    count
}

/// The bytes of a text before a position.
pub fn bytes_before(bytes: &[u8], at: usize) -> &[u8]
    ensures { result.now ≡ take at bytes.now }
{
    bytes.get(..at).unwrap_or(bytes)
}

/// The bytes of a text from a position on.
pub fn bytes_from(bytes: &[u8], at: usize) -> &[u8]
    ensures { result.now ≡ drop at bytes.now }
{
    bytes.get(at..).unwrap_or(b"")
}

/// The line of a position in a text, counted on from that of a position before it.
#[tactic(auto, using(crate::proofs::Lines::feeds_between))]
fn line_from(bytes: &[u8], before: usize, line: usize, at: usize) -> usize
    requires before { before ≤ at }
    requires line { line ≡ line_in bytes.now before }
    ensures { result ≡ line_in bytes.now at }
{
    line + count_feeds(bytes_from(bytes_before(bytes, at), before))
}

/// The line, from 1, of a position in one of the files: one more than the number of line feeds
/// before it.
pub fn line_of(files: &[File], file: usize, at: usize) -> usize
    ensures { result ≡ line_at (map plain_file files.now) file at }
{
    line_from(bytes_of(files, file), 0, 1, at)
}

/// The name of a file; nothing where there is none.
pub fn name_of<'a>(files: &[File<'a>], file: usize) -> &'a [u8]
    ensures { result.now ≡ name_at (map plain_file files.now) file }
{
    let Some(file) = files.get(file) else {
        return b"";
    };
    file.name
}

/// A place in the files, as an editor tells it.
#[derive(Clone, Copy)]
pub struct Place {
    /// The number of the handed file, from 0.
    pub file: usize,
    /// The line, from 1.
    pub line: usize,
    /// The column, from 1: one more than the number of bytes since the line's beginning.
    pub column: usize,
}

/// How many bytes stand at the end of a text, behind its last line feed.
fn count_since_feed(bytes: &[u8]) -> usize
    ensures { result ≡ bytes_since_feed bytes.now }
{
    bytes
        .iter()
        .rev()
        .take_while(|byte| **byte != b'\n')
        .count()
}

/// The column of a position in a text, counted on from that of a position before it.
fn column_from(bytes: &[u8], before: usize, column: usize, at: usize) -> usize
    requires before { before ≤ at }
    requires column { column ≡ column_in bytes.now before }
    ensures { result ≡ column_in bytes.now at }
{
    let passed = bytes_from(bytes_before(bytes, at), before);
    let since = count_since_feed(passed);
    if since == passed.len() {
        column + since
    } else {
        since + 1
    }
}

/// The column, from 1, of a position in one of the files.
fn column_of(files: &[File], file: usize, at: usize) -> usize
    ensures { result ≡ column_at (map plain_file files.now) file at }
{
    count_since_feed(bytes_before(bytes_of(files, file), at)) + 1
}

/// The lines and columns of the files. They are counted on from the position that was asked for
/// last, where the next one stands behind it in the same file.
#[derive(Drop)]
pub struct LineCount<'a> {
    files: &'a [File<'a>],
    /// The position that was asked for last, its line and its column.
    file: usize,
    at: usize,
    line: usize,
    column: usize,
}

impl<'a> Model for LineCount<'a> {
    ghost use Rattle.std.specs.Prelude.{◌≡◌, List, map};
    ghost use Rattle.mm_text.specs.Files.{PlainFile, plain_file};
    ghost use Rattle.mm_text.specs.LineNumbers.{line_of as line_at};
    ghost use Rattle.mm_rules.specs.Places.{column_of as column_at};

    ghost Value = { List PlainFile };

    ghost view = { λ c. map plain_file c.files.now };

    ghost invariant = { λ c. (c.line ≡ line_at (map plain_file c.files.now) c.file c.at)
        × (c.column ≡ column_at (map plain_file c.files.now) c.file c.at) };
}

impl<'a> LineCount<'a> {
    /// The lines of these files.
    pub fn new(files: &'a [File<'a>]) -> LineCount<'a>
        ensures { result ≡ map plain_file files.now }
    {
        LineCount {
            files,
            file: 0,
            at: 0,
            line: 1,
            column: 1,
        }
    }

    /// The place of a position, counted on where it can be.
    fn counted_place(&self, file: usize, at: usize) -> Place
        ensures { result ≡ place_at self.now file at }
    {
        let bytes = bytes_of(self.files, file);
        let (before, line, column) = if file == self.file && self.at <= at {
            (self.at, self.line, self.column)
        } else {
            (0, 1, 1)
        };
        Place {
            file,
            line: line_from(bytes, before, line, at),
            column: column_from(bytes, before, column, at),
        }
    }

    /// The place of a position in one of the files, counted on where it can be.
    pub fn place_in(&mut self, file: usize, at: usize) -> Place
        ensures place { result ≡ place_at self.old file at }
        ensures files { self.new ≡ self.old }
    {
        let place = self.counted_place(file, at);
        self.file = file;
        self.at = at;
        self.line = place.line;
        self.column = place.column;
        place
    }

    /// The line, from 1, of a position in one of the files, as `line_of` tells it.
    pub fn line_of(&mut self, file: usize, at: usize) -> usize
        ensures line { result ≡ line_at self.old file at }
        ensures files { self.new ≡ self.old }
    {
        self.place_in(file, at).line
    }

    /// The place where a token of the files stands, counted on where it can be.
    pub fn place_of(&mut self, token: Token) -> Place
        ensures place { result
            ≡ place_at self.old (plain_token token.entry).file (plain_token token.entry).at }
        ensures files { self.new ≡ self.old }
    {
        self.place_in(token.file, token.at as usize)
    }
}

/// The place of a position in one of the files.
pub fn place_of(files: &[File], file: usize, at: usize) -> Place
    ensures { result ≡ place_at (map plain_file files.now) file at }
{
    Place {
        file,
        line: line_of(files, file, at),
        column: column_of(files, file, at),
    }
}

/// Appends the text of a place.
pub fn push_place(out: &mut Vec<u8>, files: &[File], place: Place) -> Result<(), AllocError>
    ensures { OnOk result (out.new.items ≡ out.old.items
        ++ place_text (map plain_file files.now) place) }
{
    out.extend_from_slice(name_of(files, place.file))?;
    out.push(b':')?;
    push_decimal(out, place.line)?;
    out.push(b':')?;
    push_decimal(out, place.column)
}
