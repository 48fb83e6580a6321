//! Marks by number, in a table that is made once for many sets: what stands in a set has its stamp.

ghost use Rattle.std.specs.Prelude.{◌≡◌, ◌+◌, Some, map, slice_get, IsTrue};
ghost use Rattle.mm_with_lemmas.specs.Mirror.Using.{AreBelow, AreStamped, IsStampedFrom};

use mm_frame::LabelId;

/// Stamps a number; one past the table is passed over.
fn put_stamp(marks: &mut [usize], stamp: usize, id: LabelId)
    ensures { IsStampedFrom marks.old stamp id.0 marks.new }
{
    let at = id.0 as usize;
    if at < marks.len() {
        marks[at] = stamp;
    }
}

/// Stamps these numbers, with a stamp that is greater than those that were given before.
pub(crate) fn stamp_all(marks: &mut [usize], stamp: usize, ids: &[LabelId])
    requires { AreBelow stamp marks.old }
    ensures below { AreBelow (stamp + 1) marks.new }
    ensures stamped { AreStamped stamp marks.new (map (λ l. l.0) ids.now) }
{
    for id in ids {
        put_stamp(marks, stamp, *id);
    }
}

/// Whether a number has a stamp.
pub(crate) fn has_stamp(marks: &[usize], stamp: usize, id: LabelId) -> bool
    ensures { IsTrue result → slice_get marks.now id.0 ≡ Some stamp }
{
    match marks.get(id.0 as usize) {
        Some(mark) => *mark == stamp,
        None => false,
    }
}
