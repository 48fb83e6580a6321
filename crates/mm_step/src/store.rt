//! What a proof's run keeps: a stack of expressions, and those that are kept for later.

ghost use Rattle.std.specs.Prelude.{◌≡◌, ◌≤◌, [], ◌∷◌, ◌++◌, length, take, OnOk, OnErr};

use mm_frame::{ShortPiece, Sym};
use std::alloc::AllocError;

/// A stack of expressions and a list of kept ones, both by the numbers of their symbols.
///
/// Each call changes one of the two at most, and none where a growth was refused.
pub trait Store {
    ghost use Rattle.std.specs.Prelude.{◌≡◌, ℕ, ◌-◌, ◌<◌, ◌≤◌, List, [], ◌∷◌, ◌++◌, length};
    ghost use Rattle.std.specs.Prelude.{◌^◌, ◌↔◌, take, drop, slice_get, OnOk, OnErr, Some};
    ghost use Rattle.std.specs.Prelude.{IfOk, IfSome, IsTrue, MatchBool};
    ghost use Rattle.std.specs.List.{AllByRecursion};
    ghost use Rattle.mm_step.specs.Stores.{numbers_in, all_said_by, IsWithinIndices};

    /// The expressions on the stack, the topmost one last.
    ghost stack: { Self → List (List ℕ) };

    /// The kept expressions, in the order in which they were kept.
    ghost kept: { Self → List (List ℕ) };

    /// How many expressions are on the stack.
    fn len(&self) -> usize
        ensures { result ≡ length (stack self.now) };

    /// The expression at an index of the stack.
    fn at(&self, index: usize) -> &[Sym]
        requires { index < length (stack self.now) }
        ensures { slice_get (stack self.now) index ≡ Some (numbers_in result.now) };

    /// Whether the expression at an index of the stack is what the pieces say of the entries from
    /// the base on, where the store has a way to tell it at once; none where it hasn't. `Flat`
    /// writes what they say behind the end of its buffer, where there is room, and compares lists.
    fn is_said_there(&mut self, base: usize, pieces: &[ShortPiece], index: usize) -> Option<bool>
        requires index { index < length (stack self.old) }
        requires within { AllByRecursion (IsWithinIndices (length (drop base (stack self.old))))
            pieces.now }
        requires fits { length (stack self.old) < 2 ^ 64 }
        ensures said { IfSome result (λ is. (e : List ℕ) → slice_get (stack self.old) index ≡ Some e
            → (IsTrue is ↔ (e ≡ all_said_by (drop base (stack self.old)) pieces.now))) }
        ensures stack { stack self.new ≡ stack self.old }
        ensures kept { kept self.new ≡ kept self.old };

    /// Puts an expression on the stack.
    fn push(&mut self, expression: &[Sym]) -> Result<(), AllocError>
        ensures pushed { OnOk result
            (stack self.new ≡ stack self.old ++ numbers_in expression.now ∷ []) }
        ensures refused { OnErr result (stack self.new ≡ stack self.old) }
        ensures kept { kept self.new ≡ kept self.old };

    /// Appends a copy of the last expression on the stack to the kept ones.
    fn keep(&mut self) -> Result<(), AllocError>
        requires { 0 < length (stack self.old) }
        ensures kept { OnOk result ((e : List ℕ)
            → slice_get (stack self.old) (length (stack self.old) - 1) ≡ Some e
            → kept self.new ≡ kept self.old ++ e ∷ []) }
        ensures refused { OnErr result (kept self.new ≡ kept self.old) }
        ensures stack { stack self.new ≡ stack self.old };

    /// Puts a copy of the kept expression at an index on the stack.
    fn push_copy(&mut self, index: usize) -> Result<(), AllocError>
        requires { index < length (kept self.old) }
        ensures pushed { OnOk result ((e : List ℕ) → slice_get (kept self.old) index ≡ Some e
            → stack self.new ≡ stack self.old ++ e ∷ []) }
        ensures refused { OnErr result (stack self.new ≡ stack self.old) }
        ensures kept { kept self.new ≡ kept self.old };

    /// Takes the last expressions off the stack.
    fn drop_last(&mut self, count: usize)
        requires { count ≤ length (stack self.old) }
        ensures stack { stack self.new ≡ take (length (stack self.old) - count) (stack self.old) }
        ensures kept { kept self.new ≡ kept self.old };

    /// What the pieces say of the entries from the base on takes their place, where it is within
    /// the limit, so many symbols; else false is answered, and nothing is changed.
    ///
    /// Where a growth is refused nothing is changed either: all that the pieces say, and the room
    /// for one more entry, must be there before an entry goes. `Flat` writes it behind the end of
    /// its buffer, where no entry's range lies, and changes the ranges only when all is written.
    fn conclude(
        &mut self,
        base: usize,
        pieces: &[ShortPiece],
        limit: usize,
    ) -> Result<bool, AllocError>
        requires base { base ≤ length (stack self.old) }
        requires within { AllByRecursion (IsWithinIndices (length (drop base (stack self.old))))
            pieces.now }
        requires fits { length (stack self.old) < 2 ^ 64 }
        ensures said { IfOk result (λ fits.
            let whole = all_said_by (drop base (stack self.old)) pieces.now in MatchBool
            fits
            ((length whole ≤ limit) × (stack self.new ≡ take base (stack self.old) ++ whole ∷ []))
            ((limit < length whole) × (stack self.new ≡ stack self.old))) }
        ensures refused { OnErr result (stack self.new ≡ stack self.old) }
        ensures kept { kept self.new ≡ kept self.old };
}

/// Appends an item at an index of the list, and drops what stood there and to it. Only an item
/// that stands behind all others needs a growth, so that nothing is dropped where that is refused.
#[inline(always)]
pub fn put_last<T: Drop>(list: &mut Vec<T>, index: usize, item: T) -> Result<(), AllocError>
    requires { index ≤ length list.old.items }
    ensures put { OnOk result (list.new.items ≡ take index list.old.items ++ item ∷ []) }
    ensures same { OnErr result (list.new.items ≡ list.old.items) }
{
    if index < list.len() {
        list[index] = item;
        list.truncate(index + 1);
        return Ok(());
    }
    list.push(item)?;
    Ok(())
}
