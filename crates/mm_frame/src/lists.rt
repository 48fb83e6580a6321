//! Reading and writing lists at an index.

ghost use Rattle.std.specs.Prelude.{◌≡◌, ◌+◌, ◌<◌, ◌≤◌, ◌∷◌, [], ◌++◌, length, slice_get};
ghost use Rattle.std.specs.Prelude.{slice_set, vec_len, vec_capacity, OnOk};

use std::alloc::AllocError;

/// The element at an index, if there is one.
pub(crate) fn at<T: Copy>(list: &[T], index: usize) -> Option<T>
    ensures { result ≡ slice_get list.now index }
{
    match list.get(index) {
        Some(element) => Some(*element),
        None => None,
    }
}

/// Adds an element to a list that has room.
pub(crate) fn put<T: Drop>(list: &mut Vec<T>, value: T)
    requires { vec_len list.old < vec_capacity list.old }
    ensures { list.new.items ≡ list.old.items ++ value ∷ [] }
{
    let _ = list.push(value);
}

/// Makes room for elements in a list whose indices are given by numbers of 32 bits. Where it would
/// be longer than such numbers can say, more is asked for than there can be, so that it is refused.
pub(crate) fn reserve_numbered<T: Drop>(list: &mut Vec<T>, more: usize) -> Result<(), AllocError>
    ensures items { list.new.items ≡ list.old.items }
    ensures room { OnOk result (vec_len list.new + more ≤ vec_capacity list.new) }
    ensures few { OnOk result (length list.new.items + more < 4294967296) }
{
    match list.len().checked_add(more) {
        Some(len) if u32::try_from(len).is_ok() => list.reserve(more),
        _ => list.reserve(usize::MAX),
    }
}

/// Writes an element over the one at an index.
pub(crate) fn write(list: &mut Vec<u32>, index: usize, value: u32)
    ensures { index < length list.old.items
        → list.new.items ≡ slice_set list.old.items index value }
{
    if index < list.len() {
        list[index] = value;
    }
}
