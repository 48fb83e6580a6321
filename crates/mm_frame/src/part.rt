//! Parts of lists.

ghost use Rattle.std.specs.Prelude.{◌≡◌, ◌≤◌, length, slice_range};

/// A part of a list: the indices from `start` up to and without `end`.
#[derive(Clone, Copy, PartialEq, Eq, Debug)]
pub struct Part {
    pub start: u32,
    pub end: u32,
}

/// Nothing of a list.
pub(crate) const NO_PART: Part = Part { start: 0, end: 0 };

/// The elements of a part of a list.
pub(crate) fn part_of<T>(list: &[T], part: Part) -> &[T]
    ensures { part.start ≤ part.end → part.end ≤ length list.now
        → result.now ≡ slice_range list.now part.start part.end }
{
    let start = part.start as usize;
    let end = part.end as usize;
    list.get(start..end).unwrap_or(&[])
}
