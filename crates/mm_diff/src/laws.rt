//! A law of what is told of changes, which users of the library may depend on. The function does
//! nothing: its contract is the law.

ghost use Rattle.mm_diff.specs.Laws.{TellsNothing};

/// Where the statements of two databases say the same, one after the other, and their proofs spell
/// the same trees, no change is told: the text has the sums alone, and the status is 0. So it is of
/// a database and its saved, packed, small or normal form.
pub fn no_change()
    ensures { TellsNothing }
{}
