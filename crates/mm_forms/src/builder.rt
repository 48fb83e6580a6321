//! What is built from the moves of a proof, one after the other.

ghost use Rattle.std.specs.Prelude.{◌≡◌, ◌<◌, ◌≤◌, ℕ, List, [], All, take, length, IfOk, IfErr};
ghost use Rattle.mm_base.specs.MostBytes.{most_bytes};
ghost use Rattle.mm_code.specs.Letters.{HasSpelling};
ghost use Rattle.mm_frame.specs.Form.{IsSound};
ghost use Rattle.mm_step.specs.Tree.{Trees, none, spelling, MayStandOver, roots};
ghost use Rattle.mm_forms.specs.OneTree.{MakeOneTree, MakeRow, OfRow};
ghost use Rattle.mm_step.specs.Steps.{AreSteps};
ghost use Rattle.mm_forms.specs.Spelled.{OfSpelling};
ghost use Rattle.mm_forms.specs.Packing.{OfTree};
ghost use Rattle.mm_proof.specs.Verified.{OfMoves};
ghost use Rattle.mm_step.specs.Mirror.CodeSteps.{MayBeUsed};
ghost use Rattle.mm_proof.specs.Mirror.CodeSteps.{moves_of};
ghost use Rattle.mm_forms.specs.Mirror.Builders.{KeepsItem, MakeRowAt, AreBuilt, IsBuilt};

use mm_code::Code;
use mm_frame::{Book, LabelId};
use mm_proof::machine::run;
use mm_proof::{Machine, Steps};
use mm_step::{Call, call_of, put_last};
use std::alloc::{AllocError, Global};

/// What is built from the moves of a proof: each tree that they make has an item. The items of the
/// row and of the kept trees are handed in; a mark keeps one, and asks nothing.
pub(crate) trait Builder {
    ghost use Rattle.std.specs.Prelude.{ℕ, List, IfOk, IfErr};
    ghost use Rattle.std.specs.declared.alloc.AllocError.{AllocError};
    ghost use Rattle.mm_frame.specs.Sentence.{Sentence};
    ghost use Rattle.mm_step.specs.Tree.{Trees};
    ghost use Rattle.mm_forms.specs.Spelled.{IsNumberOfLabel};
    ghost use Rattle.mm_forms.specs.Mirror.Builders.{MakesItem, RepeatsItem, IsOnShelf};
    ghost use Rattle.mm_forms.specs.Mirror.Builders.{IsFull, IsTooLong};

    /// What stands for a tree.
    type Item: Copy;

    /// Why it isn't built.
    type Fault: From<AllocError>;

    /// What was built since the first state: the items of a row of trees, and of the kept trees,
    /// in so many steps.
    ghost holds: { Self → Self → List Sentence → List Self.Item → Trees → List Self.Item
        → List Trees → ℕ → Type 0 };

    /// The most labels that may be spelled, where there is a limit.
    ghost most: { Self → ℕ } = { λ _. 0 };

    /// Whether the fault is that there are more.
    ghost is_long: { Self.Fault → Type 0 } = { λ _. ⊥ };

    /// A step by a label makes a tree, over the trees that have these items, the last ones.
    fn make(&mut self, id: LabelId, below: &[Self::Item]) -> Result<Self::Item, Self::Fault>
        ensures made { IfOk result (λ item. (first : Self) (statements : List Sentence)
            → MakesItem (holds first self.old statements) (holds first self.new statements)
            (IsNumberOfLabel statements id.0) below.now item) }
        ensures long { IfErr result (λ fault. is_long fault
            → (first : Self) (statements : List Sentence)
            → IsFull (holds first self.old statements) (most first)) };

    /// A step by a tag repeats the kept tree that has the item.
    fn repeat(&mut self, item: Self::Item) -> Result<Self::Item, Self::Fault>
        requires { (first : Self) × (statements : List Sentence)
            × IsOnShelf (holds first self.old statements) item }
        ensures made { IfOk result (λ again. (first : Self) (statements : List Sentence)
            → RepeatsItem (holds first self.old statements) (holds first self.new statements) item
            again) }
        ensures long { IfErr result (λ fault. is_long fault
            → (first : Self) (statements : List Sentence)
            → IsTooLong (holds first self.old statements) item (most first)) };

    /// A refused growth is another fault.
    ghost memory: { (e : AllocError) (fault : Self.Fault) → Self.Fault.from_gives e fault
        → is_long fault → ⊥ };
}

// How many trees the label stands over.
fn width(book: &Book, id: LabelId) -> usize
    requires sound { IsSound book.now.statements }
    requires used { (index : ℕ) × (label : List ℕ)
        × MayBeUsed book.now.statements index label id.0 }
    ensures { (index : ℕ) (label : List ℕ) (below : Trees)
        → MayBeUsed book.now.statements index label id.0
        → MayStandOver (take index book.now.statements) label below
        → roots below ≡ result }
{
    match call_of(book, id) {
        Call::Hypothesis(_) => 0,
        Call::Assertion(signature) => signature.hypotheses.len(),
    }
}

// The items of the trees that the moves so far made: of those in a row, and of the kept ones. Both
// are lent to it, since nothing is known of what was lent to a struct that owns memory.
#[derive(Drop)]
struct Forest<'s, 'e, 'b, 'a, B, X> {
    builder: &'s mut B,
    book: &'b Book<'a>,
    entries: &'e [LabelId],
    stack: &'s mut Vec<X>,
    shelf: &'s mut Vec<X>,
}

// It stops where the builder does.
impl<'s, 'e, 'b, 'a, B: Builder> Machine for Forest<'s, 'e, 'b, 'a, B, B::Item> {
    ghost use Rattle.mm_step.specs.Plain.{ids_in};
    ghost use Rattle.mm_forms.specs.Mirror.Builders.{HasBuilt, MayGrow, AreTooMany};

    type Fault = B::Fault;

    ghost entries = { λ first. ids_in first.entries.now };

    ghost has_run = { HasBuilt B.holds };

    ghost may_take = { λ first prefix move. MayGrow first.book.now.statements prefix move };

    ghost stops = { λ first prefix move fault. B.is_long fault
        → AreTooMany first.book.now.statements prefix move (B.most first.builder.now) };

    fn step(&mut self, index: usize) -> Result<(), B::Fault> {
        let id = self.entries[index];
        let base = self.stack.len() - width(self.book, id);
        let item = self.builder.make(id, &self.stack[base..])?;
        put_last(self.stack, base, item)?;
        Ok(())
    }

    fn step_again(&mut self, tag: usize) -> Result<(), B::Fault> {
        let item = self.builder.repeat(self.shelf[tag])?;
        let end = self.stack.len();
        put_last(self.stack, end, item)?;
        Ok(())
    }

    fn mark(&mut self) -> Result<(), B::Fault> {
        let item = self.stack[self.stack.len() - 1];
        let end = self.shelf.len();
        put_last(self.shelf, end, item)?;
        Ok(())
    }
}

// All moves, one after the other: the items of the row of trees that they make.
fn build_moves<B: Builder>(
    alloc: Global,
    builder: &mut B,
    book: &Book,
    entries: &[LabelId],
    codes: &[Code],
) -> Result<Vec<B::Item>, B::Fault>
    requires spelled { All HasSpelling codes.now }
    requires sound { IsSound book.now.statements }
    requires made { MakeRowAt book.now.statements (moves_of entries.now codes.now) }
    requires nothing { B.holds builder.old builder.old book.now.statements [] none [] [] 0 }
    requires marks { (now : B) → KeepsItem (B.holds builder.old now book.now.statements) }
    ensures built { IfOk result (λ items.
        (m : MakeRowAt book.now.statements (moves_of entries.now codes.now))
        → AreBuilt (B.holds builder.old builder.new book.now.statements) m.names m.row
        items.items) }
    ensures long { IfErr result (λ fault. B.is_long fault
        → (m : MakeRowAt book.now.statements (moves_of entries.now codes.now))
        → B.most builder.old < length (spelling m.row)) }
{
    let mut stack = Vec::new(alloc);
    let mut shelf = Vec::new(alloc);
    let mut forest = Forest {
        builder,
        book,
        entries,
        stack: &mut stack,
        shelf: &mut shelf,
    };
    run(&mut forest, entries.len(), codes)?;
    Ok(stack)
}

/// The items of the row of trees that so many first moves of the `$p` with this number make. The
/// builder is handed in empty, as for `build`.
#[tactic(auto, using(crate::proofs::TreeBuilding::Building::tree_steps))]
pub(crate) fn build_row<B: Builder>(
    alloc: Global,
    builder: &mut B,
    book: &Book,
    id: LabelId,
    steps: &Steps,
    count: usize,
) -> Result<Vec<B::Item>, B::Fault>
    requires steps { AreSteps book.now.statements id.0 steps.now.moves }
    requires within { count ≤ length steps.now.moves }
    requires makes { OfMoves book.now.statements id.0 steps.now.moves
        (λ index s moves. (row : Trees)
        × MakeRow (take index book.now.statements) (take count moves) row) }
    requires nothing { B.holds builder.old builder.old book.now.statements [] none [] [] 0 }
    requires marks { (now : B) → KeepsItem (B.holds builder.old now book.now.statements) }
    ensures built { IfOk result (λ items. OfMoves book.now.statements id.0 steps.now.moves
        (λ index s moves. OfRow (take index book.now.statements) (take count moves) (λ row.
        AreBuilt (B.holds builder.old builder.new book.now.statements) (take count moves) row
        items.items))) }
    ensures long { IfErr result (λ fault. B.is_long fault
        → OfMoves book.now.statements id.0 steps.now.moves
        (λ index s moves. OfRow (take index book.now.statements) (take count moves)
        (λ row. B.most builder.old < length (spelling row)))) }
{
    let _own = book.frame(id);
    build_moves(alloc, builder, book, &steps.entries, &steps.codes[..count])
}

/// The item of the tree that the steps of the `$p` with this number make. The builder is handed in
/// empty. A mark does not change it: what it holds of the last tree holds of it as a kept one too.
#[tactic(auto, using(crate::proofs::TreeBuilding::Building::tree_steps))]
pub(crate) fn build<B: Builder>(
    alloc: Global,
    builder: &mut B,
    book: &Book,
    id: LabelId,
    steps: &Steps,
) -> Result<B::Item, B::Fault>
    requires steps { AreSteps book.now.statements id.0 steps.now.moves }
    requires makes { OfMoves book.now.statements id.0 steps.now.moves
        (λ index s moves. MakeOneTree (take index book.now.statements) moves) }
    requires nothing { B.holds builder.old builder.old book.now.statements [] none [] [] 0 }
    requires marks { (now : B) → KeepsItem (B.holds builder.old now book.now.statements) }
    ensures sound { IsSound book.now.statements }
    ensures few { length steps.now.moves ≤ most_bytes }
    ensures built { IfOk result (λ item. OfMoves book.now.statements id.0 steps.now.moves
        (λ index s moves. OfTree (take index book.now.statements) moves (λ t.
        IsBuilt (B.holds builder.old builder.new book.now.statements) moves t item))) }
    ensures long { IfErr result (λ fault. B.is_long fault
        → OfMoves book.now.statements id.0 steps.now.moves
        (λ index s moves. OfSpelling (take index book.now.statements) moves
        (λ spelled. B.most builder.old < length spelled))) }
{
    let _own = book.frame(id);
    let items = build_moves(alloc, builder, book, &steps.entries, &steps.codes)?;
    Ok(items[0])
}
