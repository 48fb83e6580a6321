//! A file with a text in place of a span of its bytes.

ghost use Rattle.std.specs.Prelude.{◌≡◌, ◌<◌, ◌≤◌, ◌↔◌, List, ℕ, map, length, IfOk, IfErr};
ghost use Rattle.std.specs.Prelude.{[], ◌+◌, ◌-◌, min, vec_capacity, IsTrue};
ghost use Rattle.mm_base.specs.MostBytes.{most_bytes};
ghost use Rattle.mm_text.specs.Files.{plain_file, total_bytes};
ghost use Rattle.mm_text.specs.Replaced.{with_span};
ghost use Rattle.mm_render.specs.Saved.{FitsSaved};
ghost use Rattle.mm_verdict.specs.Saved.{total_with};
ghost use Rattle.mm_render.specs.Mirror.AllSaving.{IsMostFor};
ghost use Rattle.mm_render.specs.Mirror.Rewriting.{HoldsSpan, StandIn, IsPutIn, IsPutFault};

use mm_base::File;
use mm_rules::{AskFault, size_of};
use mm_text::BYTE_LIMIT;
use std::alloc::{AllocError, Global};

/// Empty, with room for the bytes with a text in place of those of a span.
fn room_for(
    alloc: Global,
    bytes: &[u8],
    span: (u32, u32),
    text: &[u8],
) -> Result<Vec<u8>, AllocError>
    ensures empty { IfOk result (λ new. new.items ≡ []) }
    ensures exact { IfOk result (λ new. vec_capacity new
        ≡ min usize.MAX (span.0 + length text.now + (length bytes.now - span.1))) }
{
    let kept = bytes.len().saturating_sub(span.1 as usize);
    let room = (span.0 as usize)
        .saturating_add(text.len())
        .saturating_add(kept);
    Vec::with_capacity(alloc, room)
}

/// The bytes with a text in place of those of a span.
fn with_text(
    alloc: Global,
    bytes: &[u8],
    span: (u32, u32),
    text: &[u8],
) -> Result<Vec<u8>, AllocError>
    requires start { span.0 ≤ length bytes.now }
    requires stop { span.1 ≤ length bytes.now }
    ensures { IfOk result (λ new. new.items ≡ with_span bytes.now span text.now) }
{
    let mut new = room_for(alloc, bytes, span, text)?;
    new.extend_from_slice(&bytes[..span.0 as usize])?;
    new.extend_from_slice(text)?;
    new.extend_from_slice(&bytes[span.1 as usize..])?;
    Ok(new)
}

/// The most bytes that the file with a number may have, so that the files have no more than they
/// may.
#[tactic(auto, using(mm_verdict::proofs::FileBytes::StatementsInFiles::file_most))]
pub fn most_for(files: &[File], number: usize) -> usize
    requires { number < length files.now }
    ensures { total_bytes (map plain_file files.now) ≤ most_bytes
        → IsMostFor (map plain_file files.now) number result }
{
    let others = size_of(files).saturating_sub(files[number].bytes.len());
    BYTE_LIMIT.saturating_sub(others)
}

/// Whether the files have more bytes than they may, with so many in the file with a number.
fn is_over(files: &[File], number: usize, count: usize) -> bool
    requires there { number < length files.now }
    requires within { total_bytes (map plain_file files.now) ≤ most_bytes }
    ensures { (bytes : List ℕ) → length bytes ≡ count → IsTrue result
        ↔ (most_bytes < total_with (map plain_file files.now) number bytes) }
{
    count > most_for(files, number)
}

/// The bytes of a span in the file with a number.
pub fn bytes_of<'a>(files: &'a [File<'a>], number: usize, span: (u32, u32)) -> &'a [u8]
    requires { HoldsSpan (map plain_file files.now) number span }
    ensures { StandIn (map plain_file files.now) number span result.now }
{
    &files[number].bytes[span.0 as usize..span.1 as usize]
}

/// The bytes of the file with a number, with a text in place of those of a span, however many they
/// are.
pub fn file_with_text(
    alloc: Global,
    files: &[File],
    number: usize,
    span: (u32, u32),
    text: &[u8],
) -> Result<Vec<u8>, AllocError>
    requires { HoldsSpan (map plain_file files.now) number span }
    ensures { IfOk result (λ new.
        IsPutIn (map plain_file files.now) number span text.now new.items) }
{
    with_text(alloc, files[number].bytes, span, text)
}

/// The bytes of the file with a number, with a text in place of those of a span.
pub fn put_in(
    alloc: Global,
    files: &[File],
    number: usize,
    span: (u32, u32),
    text: &[u8],
) -> Result<Vec<u8>, AskFault>
    requires there { HoldsSpan (map plain_file files.now) number span }
    requires within { total_bytes (map plain_file files.now) ≤ most_bytes }
    ensures put { IfOk result (λ new.
        IsPutIn (map plain_file files.now) number span text.now new.items) }
    ensures fits { IfOk result (λ new.
        FitsSaved (map plain_file files.now) number new.items) }
    ensures fault { IfErr result (IsPutFault (map plain_file files.now) number span text.now) }
{
    let new = with_text(alloc, files[number].bytes, span, text)?;
    if is_over(files, number, new.len()) {
        return Err(AskFault::F3);
    }
    Ok(new)
}
