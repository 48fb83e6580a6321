//! Lists with an element for each node. A node that isn't there reads as nothing, and nothing is
//! written to it.

use std::alloc::{AllocError, Global};

/// The number of a node; none where there is no such node.
pub(crate) fn at(list: &[u32], node: u32) -> u32 {
    list.get(node as usize).copied().unwrap_or(0)
}

/// Writes the number of a node.
pub(crate) fn set(list: &mut [u32], node: u32, number: u32) {
    if let Some(here) = list.get_mut(node as usize) {
        *here = number;
    }
}

/// Counts a node once more, and answers whether it is the first time.
pub(crate) fn add_one(list: &mut [u32], node: u32) -> bool {
    match list.get_mut(node as usize) {
        Some(here) => {
            *here = here.saturating_add(1);
            *here == 1
        }
        None => false,
    }
}

/// Counts a node once less, and answers whether it was the last time.
pub(crate) fn take_one(list: &mut [u32], node: u32) -> bool {
    match list.get_mut(node as usize) {
        Some(here) => {
            let was_last = *here == 1;
            *here = here.saturating_sub(1);
            was_last
        }
        None => false,
    }
}

/// Notes the node, and answers whether it is there and wasn't noted.
pub(crate) fn note(list: &mut [bool], node: u32) -> bool {
    match list.get_mut(node as usize) {
        Some(here) => {
            let is_new = !*here;
            *here = true;
            is_new
        }
        None => false,
    }
}

/// Whether the node is noted.
pub(crate) fn is_noted(list: &[bool], node: u32) -> bool {
    list.get(node as usize).copied().unwrap_or(false)
}

/// The number behind those of so many nodes.
pub(crate) fn end_of(count: usize) -> u32 {
    u32::try_from(count).unwrap_or(u32::MAX)
}

/// So many zeros.
pub(crate) fn zeros(alloc: Global, count: usize) -> Result<Vec<u32>, AllocError> {
    vec![in alloc; 0u32; count]
}

/// So many times that nothing is noted.
pub(crate) fn unnoted(alloc: Global, count: usize) -> Result<Vec<bool>, AllocError> {
    vec![in alloc; false; count]
}
