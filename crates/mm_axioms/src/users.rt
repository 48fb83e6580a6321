//! The users of an assertion: direct ones, and all that depend on it.

ghost use Rattle.std.specs.Prelude.{◌≡◌, ◌↔◌, ◌⊎◌, ◌<◌, ◌+◌, ℕ, map, length, Contains};
ghost use Rattle.std.specs.Prelude.{IfOk, IsTrue, IfSome, Some, slice_get};
ghost use Rattle.mm_rules.specs.Conclusion.{ProofUses, numbers_of};
ghost use Rattle.mm_rules.specs.Rests.{AreRising, AreInOrder, RestsOn};
ghost use Rattle.mm_rules.specs.Mirror.Marks.{IsMarked, UsedIn, AreBackward};

use crate::report::is_reached;
use mm_frame::LabelId;
use mm_rules::Kept;
use std::alloc::{AllocError, Global};

/// The theorems whose proofs use an assertion, in database order.
pub(crate) fn users_among(
    alloc: Global,
    kept: &Kept,
    assertion: LabelId,
) -> Result<Vec<LabelId>, AllocError>
    requires { AreRising (numbers_of kept.now) }
    ensures { IfOk result (λ users. AreInOrder
        (λ theorem. UsedIn kept.now theorem assertion.0) (map (λ id. id.0) users.items)) }
{
    let count = kept.len();
    let mut users = Vec::new(alloc);
    for at in 0..count {
        if kept.used(at).contains(&assertion) {
            users.push(kept.proof(at))?;
        }
    }
    Ok(users)
}

/// Whether one of these numbers is the assertion's own, or marked.
fn is_one_reached(marks: &[bool], assertion: LabelId, numbers: &[LabelId]) -> bool
    ensures some { IsTrue result → (n : ℕ) × Contains (map (λ id. id.0) numbers.now) n
        × ((n ≡ assertion.0) ⊎ IsMarked marks.now n) }
    ensures all { (n : ℕ) → Contains (map (λ id. id.0) numbers.now) n
        → (n ≡ assertion.0) ⊎ IsMarked marks.now n → IsTrue result }
{
    for number in numbers {
        if is_reached(marks, assertion, *number) {
            return true;
        }
    }
    false
}

/// One more than the number of the last proof; 0 where there is none.
pub(crate) fn end_of(kept: &Kept) -> usize
    requires { AreRising (numbers_of kept.now) }
    ensures room { (u : ProofUses) → Contains kept.now u → u.number < result }
    ensures least { (result ≡ 0)
        ⊎ ((u : ProofUses) × Contains kept.now u × (result ≡ u.number + 1)) }
{
    match kept.len() {
        0 => 0,
        count => kept.proof(count - 1).0 as usize + 1,
    }
}

/// The theorems that depend on an assertion, in database order.
///
/// Each proof uses earlier assertions alone. So once all proofs before some index were passed, it
/// is settled for each number before that of the next one whether it is marked.
pub(crate) fn all_users_among(
    alloc: Global,
    kept: &Kept,
    assertion: LabelId,
) -> Result<Vec<LabelId>, AllocError>
    requires { AreBackward kept.now }
    ensures { IfOk result (λ users. AreInOrder
        (λ theorem. RestsOn (UsedIn kept.now) theorem assertion.0)
        (map (λ id. id.0) users.items)) }
{
    let mut marks = vec![in alloc; false; end_of(kept)]?;
    let mut users = Vec::new(alloc);
    for at in 0..kept.len() {
        if is_one_reached(&marks, assertion, kept.used(at)) {
            let theorem = kept.proof(at);
            marks[theorem.0 as usize] = true;
            users.push(theorem)?;
        }
    }
    Ok(users)
}
