//! The run of a proof's codes: its verdict, and what it uses.

ghost use Rattle.std.specs.Prelude.{◌≡◌, ℕ, ◌+◌, [], All, length, take, IfOk, IfErr, OnOk};
ghost use Rattle.std.specs.List.{AllZip};
ghost use Rattle.mm_code.specs.Letters.{HasSpelling};
ghost use Rattle.mm_proof.specs.Answer.{OnRule};
ghost use Rattle.mm_proof.specs.CheckedPrefix.{Pass};
ghost use Rattle.mm_step.specs.Proof.{IsWithin};
ghost use Rattle.mm_proof.specs.Proof.{Prove, IsMoveFault};
ghost use Rattle.mm_step.specs.Steps.{AreSteps};
ghost use Rattle.mm_step.specs.Plain.{ids_in};
ghost use Rattle.mm_proof.specs.Mirror.CodeSteps.{code_moves, moves_of};
ghost use Rattle.mm_step.specs.Mirror.CodeRun.{AreMarked};
ghost use Rattle.mm_step.specs.Mirror.CodeApply.{MayBeCalled};
ghost use Rattle.mm_proof.specs.Verified.{OfMoves, ProvesUsingNumbers, FailsWith};

use crate::judge::{ending, run_codes};
use mm_code::Code;
use mm_frame::{Book, LabelId, one_number};
use mm_step::{
    Call, CallTable, Named, ProofFault, ProofRule, Site, Store, call_of, fill_called, unmark,
};
use std::alloc::{AllocError, Global};

/// What each of the entries, labels that numbers stand for, stands for itself.
pub fn calls_of<'b>(
    alloc: Global,
    book: &'b Book<'_>,
    entries: &[LabelId],
) -> Result<Vec<Call<'b>>, AllocError>
    ensures { IfOk result (λ calls. (index : ℕ)
        → AllZip (MayBeCalled book.now.statements index) (ids_in entries.now) calls.items) }
{
    let mut calls = Vec::with_capacity(alloc, entries.len())?;
    for id in entries {
        calls.push(call_of(book, *id))?;
    }
    Ok(calls)
}

// Whether the codes derive the expression of the `$p`, or their first fault. The entries that they
// name are marked.
fn derive_codes<S: Store>(
    store: &mut S,
    marks: &mut Vec<bool>,
    table: &CallTable,
    codes: &[Code],
) -> Result<(), ProofFault>
    requires spelled { All HasSpelling codes.now }
    requires steps { let site = table.now.site in
        AreSteps site.statements site.number (code_moves table.now.ids codes.now) }
    requires long { length marks.old.items ≡ length table.now.ids }
    requires unmarked { AreMarked table.now.ids [] marks.old.items }
    requires stack { S.stack store.old ≡ [] }
    requires kept { S.kept store.old ≡ [] }
    ensures proved { let site = table.now.site in
        OnOk result (OfMoves site.statements site.number (code_moves table.now.ids codes.now)
        (λ index s names. Prove (IsWithin site.limit) (take index site.statements) s names)) }
    ensures long { OnOk result (length marks.new.items ≡ length table.now.ids) }
    ensures marked { OnOk result
        (AreMarked table.now.ids (code_moves table.now.ids codes.now) marks.new.items) }
    ensures fault { let site = table.now.site in
        IfErr result (λ e. OnRule e (λ rule step.
        OfMoves site.statements site.number (code_moves table.now.ids codes.now)
        (λ index s names. FailsWith site.limit site.statements index s names rule step))) }
{
    one_number();
    let expression = table.site.expression();
    let count = run_codes(store, marks, table, codes)?;
    ending(store, expression, count + 1)?;
    Ok(())
}

/// Fills the list with the assertions of the tree that the codes make, in the order of the entries,
/// or tells their first fault, where numbers stand for the entries and then for tags.
#[tactic(auto, using(crate::proofs::ProofVerdicts::JudgedMoves::proved_with))]
pub(crate) fn judgement<S: Store>(
    alloc: Global,
    store: &mut S,
    named: &mut Named,
    marks: &mut Vec<bool>,
    site: Site,
    entries: &[LabelId],
    codes: &[Code],
) -> Result<(), ProofFault>
    requires stack { S.stack store.old ≡ [] }
    requires kept { S.kept store.old ≡ [] }
    requires spelled { All HasSpelling codes.now }
    requires steps { AreSteps site.statements site.number (moves_of entries.now codes.now) }
    ensures proved { OnOk result (OfMoves site.entry.statements site.entry.number
        (moves_of entries.now codes.now) (λ index s names.
        ProvesUsingNumbers site.entry.limit site.entry.statements index s names
        (ids_in named.new.ids.items))) }
    ensures fault { IfErr result (λ e. OnRule e (λ rule step.
        OfMoves site.entry.statements site.entry.number
        (moves_of entries.now codes.now) (λ index s names.
        FailsWith site.entry.limit site.entry.statements index s names rule step))) }
{
    let calls = calls_of(alloc, site.book, entries)?;
    let table = CallTable {
        site,
        entries,
        calls: &calls,
    };
    unmark(marks, entries.len())?;
    derive_codes(store, marks, &table, codes)?;
    fill_called(named, entries, table.calls, marks)?;
    Ok(())
}

/// Whether the moves of all codes pass, or their first fault.
pub fn pass<S: Store>(
    alloc: Global,
    store: &mut S,
    marks: &mut Vec<bool>,
    site: Site,
    entries: &[LabelId],
    codes: &[Code],
) -> Result<(), ProofFault>
    requires stack { S.stack store.old ≡ [] }
    requires kept { S.kept store.old ≡ [] }
    requires spelled { All HasSpelling codes.now }
    requires steps { AreSteps site.statements site.number (moves_of entries.now codes.now) }
    ensures passed { OnOk result
        (OfMoves site.entry.statements site.entry.number (moves_of entries.now codes.now)
        (λ index s names.
        Pass (IsWithin site.entry.limit) (take index site.entry.statements) names)) }
    ensures fault { IfErr result (λ e. OnRule e (λ rule step.
        OfMoves site.entry.statements site.entry.number (moves_of entries.now codes.now)
        (λ index s names. IsMoveFault (IsWithin site.entry.limit)
        (take index site.entry.statements) names rule step))) }
{
    let calls = calls_of(alloc, site.book, entries)?;
    let table = CallTable {
        site,
        entries,
        calls: &calls,
    };
    unmark(marks, entries.len())?;
    run_codes(store, marks, &table, codes)?;
    Ok(())
}
