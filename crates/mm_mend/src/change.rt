//! Changes of the text of a proof: of one byte, or of two neighbouring bytes or words.

ghost use Rattle.std.specs.Prelude.{◌≡◌, take, drop, IfOk};
ghost use Rattle.mm_mend.specs.Mend.{exchanged_at, spliced, text_with};

use mm_base::Token;
use mm_rules::{bytes_before, bytes_from};
use std::alloc::{AllocError, Global};

/// A change of a proof, at the index of one of its words, or of a byte of its text, from 0 on. An
/// index may be that of the end, or behind it.
#[derive(Clone, Copy)]
pub enum Change {
    /// The word is exchanged with the next one.
    Words { at: u32 },
    /// The byte is removed.
    Removed { at: u32 },
    /// It is exchanged with the next one.
    Exchanged { at: u32 },
    /// It is replaced by another one.
    Replaced { at: u32, byte: u8 },
    /// Another one is put before it.
    Put { at: u32, byte: u8 },
}

/// The text, of which so many bytes from an index on are replaced by others.
fn spliced_text(
    alloc: Global,
    text: &[u8],
    at: usize,
    count: usize,
    others: &[u8],
) -> Result<Vec<u8>, AllocError>
    ensures { IfOk result (λ new. new.items ≡ spliced at count others.now text.now) }
{
    let mut new = Vec::new(alloc);
    new.extend_from_slice(bytes_before(text, at))?;
    new.extend_from_slice(others)?;
    new.extend_from_slice(bytes_from(bytes_from(text, at), count))?;
    Ok(new)
}

/// The text, of which the byte at an index is exchanged with the next.
fn exchanged_text(alloc: Global, text: &[u8], at: usize) -> Result<Vec<u8>, AllocError>
    ensures { IfOk result (λ new. new.items ≡ exchanged_at at text.now) }
{
    let rest = bytes_from(text, at);
    let mut new = Vec::new(alloc);
    new.extend_from_slice(bytes_before(text, at))?;
    new.extend_from_slice(bytes_before(bytes_from(rest, 1), 1))?;
    new.extend_from_slice(bytes_before(rest, 1))?;
    new.extend_from_slice(bytes_from(rest, 2))?;
    Ok(new)
}

/// The text after a change, where that is one of bytes.
pub(crate) fn changed_text(
    alloc: Global,
    text: &[u8],
    change: Change,
) -> Result<Vec<u8>, AllocError>
    ensures { IfOk result (λ new. new.items ≡ text_with change text.now) }
{
    match change {
        Change::Words { .. } => Vec::from_slice(alloc, text),
        Change::Removed { at } => spliced_text(alloc, text, at as usize, 1, b""),
        Change::Exchanged { at } => exchanged_text(alloc, text, at as usize),
        Change::Replaced { at, byte } => spliced_text(alloc, text, at as usize, 1, &[byte]),
        Change::Put { at, byte } => spliced_text(alloc, text, at as usize, 0, &[byte]),
    }
}

/// The tokens before an index.
fn tokens_before<'t, 'a>(tokens: &'t [Token<'a>], at: usize) -> &'t [Token<'a>]
    ensures { result.now ≡ take at tokens.now }
{
    tokens.get(..at).unwrap_or(tokens)
}

/// The tokens from an index on.
pub(crate) fn tokens_from<'t, 'a>(tokens: &'t [Token<'a>], at: usize) -> &'t [Token<'a>]
    ensures { result.now ≡ drop at tokens.now }
{
    tokens.get(at..).unwrap_or(&tokens[..0])
}

/// The tokens, of which the one at an index is exchanged with the next.
pub(crate) fn exchanged_tokens<'a>(
    alloc: Global,
    tokens: &[Token<'a>],
    at: usize,
) -> Result<Vec<Token<'a>>, AllocError>
    ensures { IfOk result (λ new. new.items ≡ exchanged_at at tokens.now) }
{
    let rest = tokens_from(tokens, at);
    let mut new = Vec::new(alloc);
    new.extend_from_slice(tokens_before(tokens, at))?;
    new.extend_from_slice(tokens_before(tokens_from(rest, 1), 1))?;
    new.extend_from_slice(tokens_before(rest, 1))?;
    new.extend_from_slice(tokens_from(rest, 2))?;
    Ok(new)
}
