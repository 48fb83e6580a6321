//! Parts of lists.

/// Where a part of a list stands.
#[derive(Clone, Copy)]
pub(crate) struct Range {
    pub(crate) start: u32,
    pub(crate) end: u32,
}

/// The part that stands there; nothing where the list isn't as long.
pub(crate) fn part<T>(list: &[T], range: Range) -> &[T] {
    let (start, end) = (range.start as usize, range.end as usize);
    if start <= end && end <= list.len() {
        &list[start..end]
    } else {
        &[]
    }
}
