//! The labels of lemmas: a prefix and a number, which no label and no symbol begins with.

use mm_rules::push_decimal;
use mm_terms::next_number;
use std::alloc::{AllocError, Global};

const TEN: u32 = 10;

// The number that digits begin with, and whether it ends there or at a point.
fn number_at(digits: &[u8]) -> Option<u32> {
    let mut number = 0u32;
    for byte in digits {
        if *byte == b'.' {
            break;
        }
        if !byte.is_ascii_digit() {
            return None;
        }
        let digit = u32::from(byte.saturating_sub(b'0'));
        number = number.checked_mul(TEN)?.checked_add(digit)?;
    }
    Some(number)
}

/// The number behind the prefix of a word, if nothing else stands there, or a point behind it.
pub(crate) fn number_behind(prefix: &[u8], word: &[u8]) -> Option<u32> {
    if !word.starts_with(prefix) {
        return None;
    }
    number_at(word.get(prefix.len()..)?)
}

// The first number, from one on, that isn't taken: these are in order, each once.
fn free_from(number: u32, taken: &[u32]) -> u32 {
    let mut free = number;
    for _ in 0..taken.len() {
        if taken.binary_search(&free).is_err() {
            break;
        }
        free = free.saturating_add(1);
    }
    free
}

// The label with a number.
fn label_with(alloc: Global, prefix: &[u8], number: u32) -> Result<Vec<u8>, AllocError> {
    let mut label = Vec::from_slice(alloc, prefix)?;
    push_decimal(&mut label, number as usize)?;
    Ok(label)
}

/// So many labels of lemmas, by the numbers that aren't taken: these are in order, each once.
pub(crate) fn labels_of(
    alloc: Global,
    prefix: &[u8],
    taken: &[u32],
    count: usize,
) -> Result<Vec<Vec<u8>>, AllocError> {
    let mut labels = Vec::with_capacity(alloc, count)?;
    let mut number = 0u32;
    for _ in 0..count {
        number = free_from(number.saturating_add(1), taken);
        labels.push(label_with(alloc, prefix, number)?)?;
    }
    Ok(labels)
}

/// The label of the `$e` with an index of the lemma with a label.
pub(crate) fn essential_label(
    alloc: Global,
    label: &[u8],
    index: usize,
) -> Result<Vec<u8>, AllocError> {
    let mut own = Vec::from_slice(alloc, label)?;
    own.push(b'.')?;
    push_decimal(&mut own, next_number(index.saturating_add(1)) as usize)?;
    Ok(own)
}
