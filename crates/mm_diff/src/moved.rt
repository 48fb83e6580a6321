//! Assertions that were moved: their order among those of both databases is another.

ghost use Rattle.std.specs.Prelude.{◌≡◌, ◌↔◌, ◌<◌, ◌+◌, ◌-◌, map, length, IfOk, IsTrue};
ghost use Rattle.std.specs.List.{AllZip};
ghost use Rattle.mm_frame.specs.Numbers.{labelled_sentences};
ghost use Rattle.mm_frame.specs.Rules.{AllMeant};
ghost use Rattle.mm_rules.specs.Rests.{AreInOrder, AreRising};
ghost use Rattle.mm_diff.specs.Diff.{HaveTurned, IsMoved};
ghost use Rattle.mm_alike.specs.Alike.{IsShared};
ghost use Rattle.mm_diff.specs.Diff.{distance as distance_of};
ghost use Rattle.mm_diff.specs.Mirror.Changes.{IsMovedAmong, IsMovedAt, IsPassedBy, StandsAt};

use mm_alike::{Difference, assertion_named, those_that_differ};
use mm_axioms::index_of;
use mm_frame::{Book, LabelId};
use std::alloc::{AllocError, Global};

/// How far apart two places are.
fn distance(place: usize, other: usize) -> usize
    ensures { result ≡ distance_of place other }
{
    if place < other {
        other - place
    } else {
        place - other
    }
}

/// Whether what has two places, one before and one now, stands on another side of what has two
/// others.
fn have_turned(was: usize, is: usize, other_was: usize, other_is: usize) -> bool
    ensures { IsTrue result ↔ HaveTurned was is other_was other_is }
{
    if was < other_was {
        other_is < is
    } else {
        other_was < was && is < other_is
    }
}

/// Whether what stands at an index was passed by what stands at the other, which is no further from
/// its place.
fn is_passed_by(places: &[usize], at: usize, other: usize) -> bool
    requires at { at < length places.now }
    requires other { other < length places.now }
    ensures { IsTrue result ↔ IsPassedBy places.now at other }
{
    if have_turned(places[at], at, places[other], other) {
        distance(places[other], other) <= distance(places[at], at)
    } else {
        false
    }
}

/// Whether what stands at an index was moved, where these are the places before. What was passed by
/// one that is no further from its place stands within twice its own distance.
fn is_moved(places: &[usize], at: usize) -> bool
    requires { at < length places.now }
    ensures { IsTrue result ↔ IsMovedAt places.now at }
{
    let reach = distance(places[at], at);
    let start = at.saturating_sub(reach).saturating_sub(reach);
    let end = at.saturating_add(reach).saturating_add(reach);
    for other in start..places.len() {
        if other > end {
            return false;
        }
        if is_passed_by(places, at, other) {
            return true;
        }
    }
    false
}

/// Those of these numbers that stand at the index of one that was moved.
fn moved_among(alloc: Global, ids: &[LabelId], places: &[usize]) -> Result<Vec<LabelId>, AllocError>
    requires rising { AreRising (map (λ l. l.0) ids.now) }
    requires length { length ids.now ≡ length places.now }
    ensures { IfOk result (λ those. AreInOrder (IsMovedAmong (map (λ l. l.0) ids.now) places.now)
        (map (λ l. l.0) those.items)) }
{
    let mut moved = Vec::new(alloc);
    for at in 0..ids.len() {
        if is_moved(places, at) {
            moved.push(ids[at])?;
        }
    }
    Ok(moved)
}

/// The place, among these of the old database, of the assertion with the label of one of the new
/// one.
fn old_place(old: &Book, before: &[LabelId], new: &Book, id: LabelId) -> usize
    requires before { AreInOrder (IsShared old.now.statements new.now.statements)
        (map (λ l. l.0) before.now) }
    requires id { IsShared new.now.statements old.now.statements id.0 }
    ensures { StandsAt old.now.statements new.now.statements (map (λ l. l.0) before.now) id.0
        result }
{
    match assertion_named(old, new.label(id)) {
        Some(former) => match index_of(before, former) {
            Some(place) => place,
            // Each assertion of the old database whose label the new one has is among these.
            None => unreachable!(),
        },
        // Both databases have the label.
        None => unreachable!(),
    }
}

/// The places in the old database of these assertions of the new one.
fn old_places(
    alloc: Global,
    old: &Book,
    before: &[LabelId],
    new: &Book,
    ids: &[LabelId],
) -> Result<Vec<usize>, AllocError>
    requires before { AreInOrder (IsShared old.now.statements new.now.statements)
        (map (λ l. l.0) before.now) }
    requires ids { AreInOrder (IsShared new.now.statements old.now.statements)
        (map (λ l. l.0) ids.now) }
    ensures { IfOk result (λ places. AllZip (λ id place.
        StandsAt old.now.statements new.now.statements (map (λ l. l.0) before.now) id.0 place)
        ids.now places.items) }
{
    let mut places = Vec::new(alloc);
    for id in ids {
        places.push(old_place(old, before, new, *id))?;
    }
    Ok(places)
}

/// The assertions that were moved, in the order of the new database.
pub(crate) fn those_moved(alloc: Global, old: &Book, new: &Book) -> Result<Vec<LabelId>, AllocError>
    requires old { length (labelled_sentences old.now.statements) < 4294967295 }
    requires new { length (labelled_sentences new.now.statements) < 4294967295 }
    requires old_meant { AllMeant old.now.statements }
    requires new_meant { AllMeant new.now.statements }
    ensures { IfOk result (λ ids. AreInOrder (IsMoved old.now.statements new.now.statements)
        (map (λ l. l.0) ids.items)) }
{
    let before = those_that_differ(alloc, Difference::Shared, old, new)?;
    let ids = those_that_differ(alloc, Difference::Shared, new, old)?;
    let places = old_places(alloc, old, &before, new, &ids)?;
    moved_among(alloc, &ids, &places)
}
