//! The line of a file in which a place stands, and a mark below the place.

ghost use Rattle.std.specs.Prelude.{◌≡◌, ◌++◌, map, OnOk};
ghost use Rattle.std.specs.List.{prefix_len, suffix_len};
ghost use Rattle.mm_base.specs.Token.{plain_token};
ghost use Rattle.mm_text.specs.Files.{plain_file};
ghost use Rattle.mm_facts.specs.Explained.{detail_text};
ghost use Rattle.mm_explain.specs.Source.{blank_below as blank_below_of, lines_between};
ghost use Rattle.mm_explain.specs.Source.{is_in_line as is_in_line_of, source_text};
ghost use Rattle.mm_explain.specs.Source.{last_bytes as last_bytes_of, told_before, told_from};
ghost use Rattle.mm_explain.specs.Source.{opened_block, side_told as side_told_of};

use mm_base::{File, Token};
use mm_facts::push_block;
use mm_rules::{bytes_before, bytes_from, bytes_of};
use std::alloc::AllocError;

/// How many bytes of a line are told at most.
const MOST_TOLD: usize = 100;

/// How many of them stand on one side of the place, if the line has as many on both.
const HALF_TOLD: usize = 50;

/// Whether a byte ends no line.
fn is_in_line(byte: u8) -> bool
    ensures { result ≡ is_in_line_of byte }
{
    byte != b'\n' && byte != b'\r'
}

/// How many bytes a line has before the end of a text.
fn bytes_in_line_before(text: &[u8]) -> usize
    ensures { result ≡ suffix_len is_in_line_of text.now }
{
    text.iter()
        .rev()
        .take_while(|byte| is_in_line(**byte))
        .count()
}

/// How many bytes a line has from the beginning of a text on.
fn bytes_in_line_from(text: &[u8]) -> usize
    ensures { result ≡ prefix_len is_in_line_of text.now }
{
    text.iter().take_while(|byte| is_in_line(**byte)).count()
}

/// How many bytes are told of a side on which the line has so many, and so many on the other one.
fn side_told(there: usize, other: usize) -> usize
    ensures { result ≡ side_told_of there other }
{
    there.min(HALF_TOLD.max(MOST_TOLD.saturating_sub(other)))
}

/// So many of the last bytes.
fn last_bytes(count: usize, text: &[u8]) -> &[u8]
    ensures { result.now ≡ last_bytes_of count text.now }
{
    bytes_from(text, text.len().saturating_sub(count))
}

/// The bytes that are told of a line before the place and from it on, by the text before the place
/// and that from it on.
fn told_sides<'t>(before: &'t [u8], from: &'t [u8]) -> (&'t [u8], &'t [u8])
    ensures before { result.0.now ≡ told_before before.now from.now }
    ensures from { result.1.now ≡ told_from before.now from.now }
{
    let left = bytes_in_line_before(before);
    let right = bytes_in_line_from(from);
    (
        last_bytes(side_told(left, right), before),
        bytes_before(from, side_told(right, left)),
    )
}

/// What stands below a byte before the place.
fn blank_below(byte: u8) -> u8
    ensures { result ≡ blank_below_of byte }
{
    if byte == b'\t' { b'\t' } else { b' ' }
}

/// Appends what stands below bytes before the place.
fn push_blanks(out: &mut Vec<u8>, bytes: &[u8]) -> Result<(), AllocError>
    ensures { OnOk result (out.new.items ≡ out.old.items ++ map blank_below_of bytes.now) }
{
    for byte in bytes {
        out.push(blank_below(*byte))?;
    }
    Ok(())
}

/// Appends the line of a place and the mark below it, by the text before the place and that from it
/// on.
#[tactic(auto, using(crate::proofs::SourceLines::six_parts))]
fn push_lines(out: &mut Vec<u8>, before: &[u8], from: &[u8]) -> Result<(), AllocError>
    ensures { OnOk result (out.new.items ≡ out.old.items ++ lines_between before.now from.now) }
{
    let (left, right) = told_sides(before, from);
    out.extend_from_slice(b"  | ")?;
    out.extend_from_slice(left)?;
    out.extend_from_slice(right)?;
    out.extend_from_slice(b"\n  | ")?;
    push_blanks(out, left)?;
    out.extend_from_slice(b"^\n")
}

/// Appends the line of a position in one of the files and the mark below it, where they are asked
/// for.
pub(crate) fn push_source(
    out: &mut Vec<u8>,
    files: &[File],
    position: (usize, usize),
    source: bool,
) -> Result<(), AllocError>
    ensures { OnOk result (out.new.items ≡ out.old.items
        ++ source_text source (map plain_file files.now) position.0 position.1) }
{
    if !source {
        return Ok(());
    }
    let bytes = bytes_of(files, position.0);
    let before = last_bytes(MOST_TOLD, bytes_before(bytes, position.1));
    let from = bytes_before(bytes_from(bytes, position.1), MOST_TOLD);
    push_lines(out, before, from)
}

/// Appends where the block begins in which a statement stands.
#[tactic(auto, using(crate::proofs::SourceLines::block_shown))]
pub(crate) fn push_open_block(
    out: &mut Vec<u8>,
    files: &[File],
    token: Token,
    source: bool,
) -> Result<(), AllocError>
    ensures { OnOk result (out.new.items ≡ out.old.items
        ++ detail_text (opened_block source (map plain_file files.now) (plain_token token.entry))) }
{
    push_block(out, files, token)?;
    push_source(out, files, (token.file, token.at as usize), source)
}
