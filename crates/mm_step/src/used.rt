//! The assertions that a proof uses.

ghost use Rattle.std.specs.Prelude.{◌≡◌, ◌↔◌, ℕ, List, [], Contains, IsTrue, length, OnOk};
ghost use Rattle.std.specs.List.{AllZip, AllByRecursion};
ghost use Rattle.mm_frame.specs.Sentence.{Sentence};
ghost use Rattle.mm_frame.specs.Numbers.{IsAssertionNumber};
ghost use Rattle.mm_step.specs.Moves.{Move};
ghost use Rattle.mm_step.specs.Plain.{ids_in};
ghost use Rattle.mm_step.specs.Mirror.CodeSteps.{MayBeUsed};
ghost use Rattle.mm_step.specs.Mirror.CodeApply.{MayBeCalled, IsOfAssertion};
ghost use Rattle.mm_step.specs.Mirror.CodeRun.{MayBeMade, AreMarked, AreNamedNumbers, DoRise};

use crate::call::Call;
use mm_frame::{Book, LabelId, LabelKind};
use std::alloc::{AllocError, Global};
use std::marker::Model;

/// The assertions of a proof's tree, each once, in database order.
#[derive(Drop)]
pub struct Used {
    pub labels: Vec<LabelId>,
}

impl Model for Used {
    ghost use Rattle.std.specs.Prelude.{ℕ, List};

    ghost Value = { List ℕ };

    ghost use Rattle.mm_step.specs.Plain.{ids_in};

    ghost view = { λ u. ids_in u.labels.items };
}

impl Used {
    ghost use Rattle.std.specs.Prelude.{◌≡◌, map};

    /// Their numbers.
    pub fn ids(&self) -> &[LabelId]
        ensures { map (λ id. id.0) result.now ≡ self.now }
    {
        &self.labels
    }
}

/// The assertions that the last proof uses, in any order, each once or more.
#[derive(Drop)]
pub struct Named {
    pub ids: Vec<LabelId>,
}

impl Named {
    pub fn new(alloc: Global) -> Named
        ensures { result.ids.items ≡ [] }
    {
        Named {
            ids: Vec::new(alloc),
        }
    }

    /// Puts them in database order, each once.
    pub fn put_in_order(&mut self)
        ensures rising { DoRise (ids_in self.new.ids.items) }
        ensures same { (id : ℕ) → Contains (ids_in self.new.ids.items) id
            ↔ Contains (ids_in self.old.ids.items) id }
    {
        self.ids.sort_unstable();
        self.ids.dedup();
    }
}

/// Whether the label is that of an assertion.
#[tactic(auto, using(crate::proofs::ByNumbers::CalledAssertions::kind_steps))]
pub fn is_assertion(book: &Book, id: LabelId) -> bool
    requires used { (index : ℕ) × (label : List ℕ)
        × MayBeUsed book.now.statements index label id.0 }
    ensures { IsTrue result ↔ IsAssertionNumber book.now.statements id.0 }
{
    matches!(book.kind(id), LabelKind::Axiom | LabelKind::Proof)
}

/// Makes so many marks, none of which is set.
#[tactic(auto, using(crate::proofs::ByNumbers::CalledAssertions::mark_steps))]
pub fn unmark(marks: &mut Vec<bool>, count: usize) -> Result<(), AllocError>
    ensures long { OnOk result (length marks.new.items ≡ count) }
    ensures none { OnOk result ((entries : List ℕ) → AreMarked entries [] marks.new.items) }
{
    marks.clear();
    for _ in 0..count {
        marks.push(false)?;
    }
    Ok(())
}

// Whether an entry is listed, by whether it is marked and what it stands for.
fn is_called(is_marked: bool, call: &Call) -> bool
    ensures { IsTrue result ↔ (IsTrue is_marked × IsOfAssertion call.now) }
{
    match call {
        Call::Hypothesis(_) => false,
        Call::Assertion(_) => is_marked,
    }
}

/// Fills the list with the assertions among the marked entries, in the order of the entries. What
/// each entry stands for is handed in.
pub fn fill_called(
    named: &mut Named,
    entries: &[LabelId],
    calls: &[Call],
    marks: &[bool],
) -> Result<(), AllocError>
    requires calls { length calls.now ≡ length entries.now }
    requires marks { length marks.now ≡ length entries.now }
    ensures { OnOk result ((statements : List Sentence) (index : ℕ) (moves : List (Move ℕ))
        → AllZip (MayBeCalled statements index) (ids_in entries.now) calls.now
        → AllByRecursion (MayBeMade statements index) moves
        → AreMarked (ids_in entries.now) moves marks.now
        → AreNamedNumbers statements moves (ids_in named.new.ids.items)) }
{
    named.ids.clear();
    for (index, id) in entries.iter().enumerate() {
        if is_called(marks[index], &calls[index]) {
            named.ids.push(*id)?;
        }
    }
    Ok(())
}
