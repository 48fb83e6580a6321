//! Refused growths: of both stores, where after one both lists are as before, and of fully shared
//! proofs.

ghost use Rattle.std.specs.Prelude.{◌≡◌, ◌<◌, ◌≤◌, ◌-◌, ◌++◌, ◌∷◌, [], ℕ, List, length, take};
ghost use Rattle.std.specs.Prelude.{slice_get, false, IsTrue, OnOk, Some};
ghost use Rattle.std.specs.List.{sum_by};
ghost use Rattle.mm_base.specs.MostBytes.{most_bytes};
ghost use Rattle.mm_frame.specs.Sentence.{Sentence};
ghost use Rattle.mm_forms.specs.OneTree.{MakeOneTree};
ghost use Rattle.mm_step.specs.Steps.{AreSteps, IsProofNumber};
ghost use Rattle.mm_step.specs.Stores.{numbers_in};
ghost use Rattle.mm_proof.specs.Verified.{OfMoves};
ghost use Rattle.mm_step.specs.Plain.{token_texts};

use crate::databases::DEMO;
use crate::growths::once_more;
use crate::proof::forms::{LABELS, NUMBERS, accepted_steps, is_packed};
use crate::proof::{Theorem, first_theorem};
use mm_base::File;
use mm_forms::{Packed, compress};
use mm_frame::{Book, LabelId, Sym};
use mm_proof::Steps;
use mm_step::{Flat, Rows, Store};
use std::alloc::Global;
use std::test::Fail;

const FIRST: &[Sym] = &[Sym(1), Sym(2)];

const SECOND: &[Sym] = &[Sym(3)];

/// A test goes on where this holds.
fn expect(holds: bool, what: &'static str) -> Result<(), Fail>
    ensures { OnOk result (IsTrue holds) }
{
    if holds { Ok(()) } else { Err(Fail::from(what)) }
}

/// Pushes an expression, once more where memory runs out; the stack is then as long as before.
fn push_on<S: Store>(store: &mut S, expression: &[Sym]) -> Result<(), Fail>
    ensures pushed { OnOk result
        (S.stack store.new ≡ S.stack store.old ++ numbers_in expression.now ∷ []) }
    ensures kept { S.kept store.new ≡ S.kept store.old }
{
    let before = store.len();
    if store.push(expression).is_ok() {
        return Ok(());
    }
    expect(store.len() == before, "a refused push leaves an entry")?;
    expect(store.push(expression).is_ok(), "a push is refused twice")
}

/// Keeps the last entry, once more where memory runs out; the stack is then as long as before.
fn keep_on<S: Store>(store: &mut S) -> Result<(), Fail>
    requires { 0 < length (S.stack store.old) }
    ensures kept { OnOk result ((e : List ℕ)
        → slice_get (S.stack store.old) (length (S.stack store.old) - 1) ≡ Some e
        → S.kept store.new ≡ S.kept store.old ++ e ∷ []) }
    ensures stack { S.stack store.new ≡ S.stack store.old }
{
    let before = store.len();
    if store.keep().is_ok() {
        return Ok(());
    }
    expect(store.len() == before, "a refused keep changes the stack")?;
    expect(store.keep().is_ok(), "a keep is refused twice")
}

/// Pushes a copy of a kept entry, once more where memory runs out; the stack is then as long as
/// before.
fn copy_on<S: Store>(store: &mut S, index: usize) -> Result<(), Fail>
    requires { index < length (S.kept store.old) }
    ensures kept { S.kept store.new ≡ S.kept store.old }
{
    let before = store.len();
    if store.push_copy(index).is_ok() {
        return Ok(());
    }
    expect(store.len() == before, "a refused copy leaves an entry")?;
    expect(store.push_copy(index).is_ok(), "a copy is refused twice")
}

/// Whether the stack has the two entries that were pushed, and then their copies.
fn holds_all<S: Store>(store: &S) -> bool {
    store.len() == 4
        && store.at(0) == FIRST
        && store.at(1) == SECOND
        && store.at(2) == FIRST
        && store.at(3) == SECOND
}

/// Pushes and keeps two entries, and pushes a copy of each; the stack is as if no growth had been
/// refused.
fn go_on<S: Store + Drop>(mut store: S) -> Result<(), Fail>
    requires stack { S.stack store ≡ [] }
    requires kept { S.kept store ≡ [] }
{
    push_on(&mut store, FIRST)?;
    keep_on(&mut store)?;
    push_on(&mut store, SECOND)?;
    keep_on(&mut store)?;
    copy_on(&mut store, 0)?;
    copy_on(&mut store, 1)?;
    expect(holds_all(&store), "another stack")
}

#[test]
fn growths_of_stores(rt: HostRuntime) -> Result<(), Fail> {
    go_on(Flat::new(rt.alloc()))?;
    go_on(Rows::new(rt.alloc()))
}

/// The fully shared proof of a whole proof's tree, asked for once more where memory ran out the
/// first time.
fn compress_on(alloc: Global, book: &Book, id: LabelId, steps: &Steps) -> Result<Packed, Fail>
    requires steps { AreSteps book.now.statements id.0 steps.now.moves }
    requires whole { steps.now.prefix ≡ false }
    requires makes { OfMoves book.now.statements id.0 steps.now.moves
        (λ index s moves. MakeOneTree (take index book.now.statements) moves) }
{
    match compress(alloc, book, id, steps) {
        Ok(packed) => Ok(packed),
        Err(_) => once_more(compress(alloc, book, id, steps)),
    }
}

/// Whether the theorem's fully shared proof is that of `t = t`.
fn packs_on(alloc: Global, theorem: &Theorem) -> Result<bool, Fail>
    requires proof { (index : ℕ) × (s : Sentence)
        × IsProofNumber theorem.now.book.statements theorem.now.id.0 index s }
    requires room { sum_by length (token_texts theorem.now.tokens.items) ≤ most_bytes }
{
    let steps = accepted_steps(alloc, &theorem.book, theorem.id, &theorem.tokens)?;
    let packed = compress_on(alloc, &theorem.book, theorem.id, &steps)?;
    is_packed(alloc, &theorem.book, &packed, &LABELS, &NUMBERS)
}

#[test]
fn growths_of_compress(rt: HostRuntime) -> Result<(), Fail> {
    let files = [File {
        name: b"demo0.mm",
        bytes: DEMO,
    }];
    let theorem = first_theorem(rt.alloc(), &files)?;
    let answer = packs_on(rt.alloc(), &theorem);
    drop(theorem);
    expect(answer?, "another proof")
}
