//! Laws of what a book holds. The functions do nothing: their contracts are the laws.

ghost use Rattle.mm_frame.specs.Laws.{OneFrame, OneNumber, OpenCount};

/// A symbol's number is its own, and stays.
///
/// Exactly the symbols that some `$c` or `$v` declares have numbers. No symbol has two numbers, and
/// no number is that of two symbols. A number stays what it is as statements are added.
pub fn one_number()
    ensures { OneNumber }
{}

/// Where no `$}` lacks its `${`, the number of open blocks is that of the `${` less that of the
/// `$}`.
#[tactic(auto, using(crate::proofs::Blocks::OpenCounts::open_count_holds))]
pub fn open_count()
    ensures { OpenCount }
{}

/// An assertion has one list of mandatory hypotheses.
pub fn one_frame()
    ensures { OneFrame }
{}
