//! Whether two symbols are a distinct pair at an index.

ghost use Rattle.std.specs.Prelude.{◌↔◌, ◌≤◌, ℕ, List, IsTrue, length, take};
ghost use Rattle.std.specs.List.Sorted.{IsNonDecreasing};
ghost use Rattle.mm_frame.specs.Frame.{IsDistinct};
ghost use Rattle.mm_frame.specs.Numbers.{IsNumberOf};
ghost use Rattle.mm_frame.specs.Mirror.Layout.{AreTables, statements_of};
ghost use Rattle.mm_frame.specs.Mirror.Stated.{HasSpan};
ghost use Rattle.mm_frame.specs.Mirror.Wide.{HoldsPair, IsHeld};

use crate::number::Sym;
use crate::pairs::in_order;
use crate::tables::Tables;
use crate::wide::{WideDistinct, are_among};

impl<'a> Tables<'a> {
    // Whether the latest `$d` before an index that states a pair is active there.
    fn is_stated(&self, pair: (u32, u32), at: usize) -> bool
        requires tables { AreTables self.now }
        requires within { at ≤ length (statements_of self.now) }
        ensures { IsTrue result
            ↔ HasSpan (statements_of self.now) self.now.distinct.stated.pairs pair at }
    {
        match self.distinct.latest(pair, at) {
            Some(index) => self.scopes.is_active(index, at),
            None => false,
        }
    }

    // Whether a `$d` of many variables is active at an index and holds two symbols.
    fn holds(&self, wide: &WideDistinct, a: Sym, b: Sym, at: usize) -> bool
        requires tables { AreTables self.now }
        requires sorted { IsNonDecreasing wide.now.members.items }
        requires within { at ≤ length (statements_of self.now) }
        ensures { IsTrue result ↔ HoldsPair (statements_of self.now) at a.0 b.0 wide.now }
    {
        if wide.index >= at {
            return false;
        }
        if !are_among(&wide.members, a.0, b.0) {
            return false;
        }
        self.scopes.is_active(wide.index, at)
    }

    // Whether some `$d` of many variables is active at an index and holds two symbols. There is
    // hardly ever one.
    fn is_held(&self, a: Sym, b: Sym, at: usize) -> bool
        requires tables { AreTables self.now }
        requires within { at ≤ length (statements_of self.now) }
        ensures { IsTrue result
            ↔ IsHeld (statements_of self.now) self.now.distinct.stated.wide at a.0 b.0 }
    {
        let wide = self.distinct.wide();
        let mut left = wide.len();
        for _ in 0..wide.len() {
            if left == 0 {
                return false;
            }
            let last = &wide[left - 1];
            if self.holds(last, a, b, at) {
                return true;
            }
            left = if last.index < at {
                last.older
            } else {
                left - 1
            };
        }
        false
    }

    /// Whether two symbols are a distinct pair after the statements before an index.
    pub(crate) fn is_distinct(&self, a: Sym, b: Sym, at: usize) -> bool
        requires tables { AreTables self.now }
        requires within { at ≤ length (statements_of self.now) }
        ensures { (x y : List ℕ) → IsNumberOf (statements_of self.now) x a.0
            → IsNumberOf (statements_of self.now) y b.0
            → (IsTrue result ↔ IsDistinct (take at (statements_of self.now)) x y) }
    {
        if a.0 == b.0 {
            return false;
        }
        if self.is_stated(in_order(a.0, b.0), at) {
            return true;
        }
        self.is_held(a, b, at)
    }
}
