//! The changes that are tried.

ghost use Rattle.std.specs.Prelude.{◌≡◌, ◌≤◌, ◌+◌, ◌++◌, length, map};
ghost use Rattle.std.specs.Prelude.{IfOk, OnOk, not, slice_index};
ghost use Rattle.std.specs.List.{prefix_len};
ghost use Rattle.mm_base.specs.Token.{is_space as is_white_space};
ghost use Rattle.mm_mend.specs.Mend.{byte_changes, bytes_for as bytes_at, changes_at, changes_for};
ghost use Rattle.mm_mend.specs.Mend.{changes_of, closing_at as first_closing};
ghost use Rattle.mm_mend.specs.Mend.{label_bytes as all_label_bytes, letters as all_letters};
ghost use Rattle.mm_mend.specs.Mend.{others as others_than, place_count as places};
ghost use Rattle.mm_mend.specs.Mend.{is_of_word as is_in_word, own_changes, removals};
ghost use Rattle.mm_mend.specs.Mend.{most_judged, word_changes};
ghost use Rattle.mm_mend.specs.Mend.{word_end as end_of_word};
ghost use Rattle.mm_mend.specs.declared.change.Change.TheVariants.{Put, Replaced};

use crate::change::Change;
use mm_rules::bytes_from;
use mm_verdict::is_space;
use std::alloc::{AllocError, Global};

/// How many bytes are judged in all, for one change at each place.
const MOST_JUDGED: usize = 200_000;

/// The letters of compressed proofs.
#[tactic(auto, unfolding(crate::specs::Mend::letters))]
fn letters() -> &'static [u8]
    ensures { result.now ≡ all_letters }
{
    b"ABCDEFGHIJKLMNOPQRSTUVWXYZ"
}

/// The bytes that a label may hold.
#[tactic(auto, unfolding(crate::specs::Mend::label_bytes))]
fn label_bytes() -> &'static [u8]
    ensures { result.now ≡ all_label_bytes }
{
    b"ABCDEFGHIJKLMNOPQRSTUVWXYZabcdefghijklmnopqrstuvwxyz0123456789-_."
}

/// The bytes that are put at an index: letters behind the first `)`, else those of labels.
fn bytes_for(close: usize, at: usize) -> &'static [u8]
    ensures { result.now ≡ bytes_at close at }
{
    if close < at { letters() } else { label_bytes() }
}

/// The bytes but one.
fn others(alloc: Global, own: u8, bytes: &[u8]) -> Result<Vec<u8>, AllocError>
    ensures { IfOk result (λ left. left.items ≡ others_than own bytes.now) }
{
    let mut left = Vec::new(alloc);
    for byte in bytes {
        if *byte != own {
            left.push(*byte)?;
        }
    }
    Ok(left)
}

/// Appends that the byte is replaced by each of these.
fn push_replaced(changes: &mut Vec<Change>, at: u32, bytes: &[u8]) -> Result<(), AllocError>
    ensures { OnOk result (changes.new.items ≡ changes.old.items
        ++ map (λ byte. Replaced at byte) bytes.now) }
{
    for byte in bytes {
        changes.push(Change::Replaced { at, byte: *byte })?;
    }
    Ok(())
}

/// Appends that each of these is put before the byte.
fn push_put(changes: &mut Vec<Change>, at: u32, bytes: &[u8]) -> Result<(), AllocError>
    ensures { OnOk result (changes.new.items ≡ changes.old.items
        ++ map (λ byte. Put at byte) bytes.now) }
{
    for byte in bytes {
        changes.push(Change::Put { at, byte: *byte })?;
    }
    Ok(())
}

/// A byte of a text; 0 where none stands.
fn byte_at(text: &[u8], at: usize) -> u8
    ensures { result ≡ slice_index text.now at }
{
    match text.get(at) {
        Some(byte) => *byte,
        None => 0,
    }
}

/// Whether the byte is one of a word: no white space, and not 0.
fn is_of_word(byte: u8) -> bool
    ensures { result ≡ is_in_word byte }
{
    !is_space(byte) && byte != 0
}

/// Appends that a byte is removed, and exchanged with the next.
fn push_removals(changes: &mut Vec<Change>, own: u8, next: u8, at: u32) -> Result<(), AllocError>
    ensures { OnOk result (changes.new.items ≡ changes.old.items ++ removals own next at) }
{
    if own == next {
        return Ok(());
    }
    changes.push(Change::Removed { at })?;
    if is_of_word(next) {
        changes.push(Change::Exchanged { at })?;
    }
    Ok(())
}

/// Appends the changes of a byte of a word, by these others: that it is removed, exchanged or
/// replaced.
fn push_own(
    changes: &mut Vec<Change>,
    own: u8,
    next: u8,
    at: u32,
    left: &[u8],
) -> Result<(), AllocError>
    ensures { OnOk result (changes.new.items ≡ changes.old.items ++ own_changes own next at left.now) }
{
    if !is_of_word(own) {
        return Ok(());
    }
    push_removals(changes, own, next, at)?;
    push_replaced(changes, at, left)
}

/// Appends the changes at an index, where this byte stands, and then that one.
fn push_changes_of(
    changes: &mut Vec<Change>,
    alloc: Global,
    own: u8,
    next: u8,
    at: u32,
    bytes: &[u8],
) -> Result<(), AllocError>
    ensures { OnOk result (changes.new.items
        ≡ changes.old.items ++ changes_of own next at bytes.now) }
{
    let left = others(alloc, own, bytes)?;
    push_own(changes, own, next, at, &left)?;
    push_put(changes, at, &left)
}

/// Appends the changes at an index of a text, whose first `)` stands at this one.
fn push_changes_at(
    changes: &mut Vec<Change>,
    alloc: Global,
    text: &[u8],
    close: usize,
    at: usize,
) -> Result<(), AllocError>
    requires close { close ≡ first_closing text.now }
    requires at { at ≤ 4294967295 }
    ensures { OnOk result (changes.new.items ≡ changes.old.items ++ changes_at text.now at) }
{
    let rest = bytes_from(text, at);
    let (own, next) = (byte_at(rest, 0), byte_at(rest, 1));
    push_changes_of(changes, alloc, own, next, at as u32, bytes_for(close, at))
}

/// The index of the first `)`, or that of the end.
fn closing_at(text: &[u8]) -> usize
    ensures { result ≡ first_closing text.now }
{
    text.iter().take_while(|byte| **byte != b')').count()
}

/// How many bytes stand before the first white space.
fn word_length(text: &[u8]) -> usize
    ensures { result ≡ prefix_len (λ byte. not (is_white_space byte)) text.now }
{
    text.iter().take_while(|byte| !is_space(**byte)).count()
}

/// Where the word ends that stands at an index.
pub(crate) fn word_end(text: &[u8], at: usize) -> usize
    ensures { result ≡ end_of_word text.now at }
{
    at + word_length(bytes_from(text, at))
}

/// At how many of so many places changes are tried, in a text of so many bytes.
pub(crate) fn place_count(size: usize, count: usize) -> usize
    ensures count { result ≡ places size count }
    ensures within { result ≤ count }
    ensures few { result ≤ most_judged }
{
    count.min(MOST_JUDGED / size.max(1))
}

/// The exchanges of neighbours that are tried, of so many words with so many bytes.
fn words_tried(alloc: Global, size: usize, words: usize) -> Result<Vec<Change>, AllocError>
    ensures { IfOk result (λ changes. changes.items ≡ word_changes size words) }
{
    let count = place_count(size, words.saturating_sub(1));
    let mut changes = Vec::new(alloc);
    for at in 0..count {
        changes.push(Change::Words { at: at as u32 })?;
    }
    Ok(changes)
}

/// Appends the changes of bytes at so many places, from this one back.
fn push_byte_changes(
    changes: &mut Vec<Change>,
    alloc: Global,
    text: &[u8],
    count: usize,
    reach: usize,
) -> Result<(), AllocError>
    requires count { count ≤ reach }
    requires reach { reach ≤ 4294967295 }
    ensures { OnOk result (changes.new.items ≡ changes.old.items
        ++ byte_changes count reach text.now) }
{
    let close = closing_at(text);
    for back in 0..count {
        push_changes_at(changes, alloc, text, close, reach - back)?;
    }
    Ok(())
}

/// The changes that are tried where the proof has so many words, and its first fault is in the word
/// that ends here, in their order.
pub(crate) fn changes_tried(
    alloc: Global,
    words: usize,
    reach: usize,
    text: &[u8],
) -> Result<Vec<Change>, AllocError>
    requires reach { reach ≤ length text.now }
    requires size { length text.now ≤ 4294967295 }
    ensures { IfOk result (λ changes. changes.items ≡ changes_for words reach text.now) }
{
    let mut changes = words_tried(alloc, text.len(), words)?;
    let count = place_count(text.len(), reach);
    push_byte_changes(&mut changes, alloc, text, count, reach)?;
    Ok(changes)
}
