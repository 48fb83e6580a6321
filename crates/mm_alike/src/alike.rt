//! Whether two assertions of two books say the same.

ghost use Rattle.std.specs.Prelude.{◌↔◌, IsTrue};
ghost use Rattle.mm_frame.specs.Numbers.{IsAssertionNumber};
ghost use Rattle.mm_alike.specs.Alike.{AreAlike};
ghost use Rattle.mm_alike.specs.Mirror.Names.{HaveSamePairs, HaveSameHypotheses};

use crate::names::{say_one_thing, say_the_same};
use crate::pairs::are_pairs_among;
use mm_frame::{Book, LabelId};

/// Whether the frames of two assertions have the same distinct pairs.
fn have_same_pairs(old: &Book, one: LabelId, new: &Book, other: LabelId) -> bool
    requires one { IsAssertionNumber old.now.statements one.0 }
    requires other { IsAssertionNumber new.now.statements other.0 }
    ensures { IsTrue result
        ↔ HaveSamePairs old.now.statements new.now.statements one.0 other.0 }
{
    let frame = old.frame(one);
    let other_frame = new.frame(other);
    let pairs = frame.pairs();
    let others = other_frame.pairs();
    if !are_pairs_among(old, pairs, new, others) {
        return false;
    }
    are_pairs_among(new, others, old, pairs)
}

/// Whether the frames of two assertions have hypotheses that say the same.
fn have_same_hypotheses(old: &Book, one: LabelId, new: &Book, other: LabelId) -> bool
    requires one { IsAssertionNumber old.now.statements one.0 }
    requires other { IsAssertionNumber new.now.statements other.0 }
    ensures { IsTrue result
        ↔ HaveSameHypotheses old.now.statements new.now.statements one.0 other.0 }
{
    let frame = old.frame(one);
    let other_frame = new.frame(other);
    say_the_same(old, frame.hypotheses(), new, other_frame.hypotheses())
}

/// Whether two assertions say the same.
pub fn are_alike(old: &Book, one: LabelId, new: &Book, other: LabelId) -> bool
    requires one { IsAssertionNumber old.now.statements one.0 }
    requires other { IsAssertionNumber new.now.statements other.0 }
    ensures { IsTrue result ↔ AreAlike old.now.statements new.now.statements one.0 other.0 }
{
    if !say_one_thing(old, one, new, other) {
        return false;
    }
    if !have_same_hypotheses(old, one, new, other) {
        return false;
    }
    have_same_pairs(old, one, new, other)
}
