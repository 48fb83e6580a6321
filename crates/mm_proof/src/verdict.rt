//! The verdict on the moves of a proof.

ghost use Rattle.std.specs.Prelude.{◌≡◌, ℕ, [], take, Err, IfOk, IfErr, OnOk, IsOkUnless};
ghost use Rattle.std.specs.Prelude.{true, false};
ghost use Rattle.mm_proof.specs.Answer.{OnRule, IsUnlessMemory};
ghost use Rattle.mm_proof.specs.Proof.{Prove, IsMoveFault};
ghost use Rattle.mm_step.specs.Proof.{IsWithin};
ghost use Rattle.mm_step.specs.Profiles.{limit_of};
ghost use Rattle.mm_proof.specs.CheckedPrefix.{Pass};
ghost use Rattle.mm_step.specs.Steps.{AreSteps};
ghost use Rattle.mm_frame.specs.Form.{IsSound};
ghost use Rattle.mm_step.specs.Plain.{ids_in};
ghost use Rattle.mm_proof.specs.Verified.{OfMoves, ProvesUsing, FailsWith};

use crate::moves::Steps;
use crate::run::{judgement, pass};
use mm_frame::{Book, LabelId};
use mm_step::{Named, ProofFault, ProofRule, Site, Store, Used};
use std::alloc::Global;

// Fills the list with the assertions of the tree that the moves make, each once, in database order,
// or tells their first fault.
fn judgement_in_order<S: Store>(
    alloc: Global,
    store: &mut S,
    named: &mut Named,
    book: &Book,
    id: LabelId,
    steps: &Steps,
) -> Result<(), ProofFault>
    requires stack { S.stack store.old ≡ [] }
    requires kept { S.kept store.old ≡ [] }
    requires steps { AreSteps book.now.statements id.0 steps.now.moves }
    ensures proved { OnOk result (OfMoves book.now.statements id.0 steps.now.moves
        (λ index s names.
        ProvesUsing (limit_of steps.now.profile) book.now.statements index s names
        (ids_in named.new.ids.items))) }
    ensures fault { IfErr result (λ e.
        OnRule e (λ rule step. OfMoves book.now.statements id.0 steps.now.moves
        (λ index s names.
        FailsWith (limit_of steps.now.profile) book.now.statements index s names rule step))) }
    ensures sound { IsSound book.now.statements }
{
    let site = Site::new(book, id, steps.profile);
    let mut marks = Vec::new(alloc);
    judgement(
        alloc,
        store,
        named,
        &mut marks,
        site,
        &steps.entries,
        &steps.codes,
    )?;
    named.put_in_order();
    Ok(())
}

// The answer on the moves of a proof. The store is handed in empty.
pub fn answer<S: Store>(
    alloc: Global,
    store: &mut S,
    named: &mut Named,
    book: &Book,
    id: LabelId,
    steps: &Steps,
) -> Result<Used, ProofFault>
    requires stack { S.stack store.old ≡ [] }
    requires kept { S.kept store.old ≡ [] }
    requires steps { AreSteps book.now.statements id.0 steps.now.moves }
    ensures proved { IfOk result (λ used. OfMoves book.now.statements id.0 steps.now.moves
        (λ index s names.
        ProvesUsing (limit_of steps.now.profile) book.now.statements index s names used)) }
    ensures fault { (rule : ProofRule) → (step : ℕ) → result ≡ Err (ProofFault.Rule rule step)
        → OfMoves book.now.statements id.0 steps.now.moves
        (λ index s names.
        FailsWith (limit_of steps.now.profile) book.now.statements index s names rule step) }
    ensures accepts { OfMoves book.now.statements id.0 steps.now.moves (λ index s names.
        Prove (IsWithin (limit_of steps.now.profile)) (take index book.now.statements) s names
        → IsOkUnless result ProofFault.Memory) }
    ensures refuses { OfMoves book.now.statements id.0 steps.now.moves (λ index s names.
        (rule : ProofRule) → (step : ℕ)
        → FailsWith (limit_of steps.now.profile) book.now.statements index s names rule step
        → IsUnlessMemory result (Err (ProofFault.Rule rule step))) }
{
    match judgement_in_order(alloc, store, named, book, id, steps) {
        Ok(()) => {
            let labels = Vec::from_slice(alloc, &named.ids)?;
            Ok(Used { labels })
        }
        Err(fault) => Err(fault),
    }
}

// The answer on the moves of a prefix. The store is handed in empty.
fn answer_prefix<S: Store>(
    alloc: Global,
    store: &mut S,
    book: &Book,
    id: LabelId,
    steps: &Steps,
) -> Result<Used, ProofFault>
    requires stack { S.stack store.old ≡ [] }
    requires kept { S.kept store.old ≡ [] }
    requires steps { AreSteps book.now.statements id.0 steps.now.moves }
    ensures empty { IfOk result (λ used. used ≡ []) }
    ensures passed { OnOk result (OfMoves book.now.statements id.0 steps.now.moves
        (λ index s names.
        Pass (IsWithin (limit_of steps.now.profile)) (take index book.now.statements) names)) }
    ensures fault { IfErr result (λ e. OnRule e (λ rule step.
        OfMoves book.now.statements id.0 steps.now.moves (λ index s names.
        IsMoveFault (IsWithin (limit_of steps.now.profile)) (take index book.now.statements) names
        rule step))) }
    ensures sound { IsSound book.now.statements }
{
    let site = Site::new(book, id, steps.profile);
    let mut marks = Vec::new(alloc);
    pass(alloc, store, &mut marks, site, &steps.entries, &steps.codes)?;
    Ok(Used {
        labels: Vec::new(alloc),
    })
}

/// Whether the moves prove the `$p` with this number, under the profile of the steps: the
/// assertions of its tree, each once, in database order; or the first of P6 to P14 and L1 that they
/// break, with the number of the step. The store is handed in empty.
///
/// Of the moves of a prefix it is told whether they pass: an empty list, or the first of P6 to P12
/// and L1 that they break.
pub fn verify<S: Store + Drop>(
    alloc: Global,
    mut store: S,
    book: &Book,
    id: LabelId,
    steps: &Steps,
) -> Result<Used, ProofFault>
    requires stack { S.stack store ≡ [] }
    requires kept { S.kept store ≡ [] }
    requires steps { AreSteps book.now.statements id.0 steps.now.moves }
    // What is answered `Ok` is proved, and these are the assertions of its tree.
    ensures proved { steps.now.prefix ≡ false
        → IfOk result (λ used. OfMoves book.now.statements id.0 steps.now.moves
        (λ index s moves.
        ProvesUsing (limit_of steps.now.profile) book.now.statements index s moves used)) }

    // The rule and the step are those of the first fault.
    ensures fault { steps.now.prefix ≡ false
        → (rule : ProofRule) → (step : ℕ) → result ≡ Err (ProofFault.Rule rule step)
        → OfMoves book.now.statements id.0 steps.now.moves
        (λ index s moves.
        FailsWith (limit_of steps.now.profile) book.now.statements index s moves rule step) }

    // What is proved is answered `Ok`, unless memory is refused.
    ensures accepts { steps.now.prefix ≡ false
        → OfMoves book.now.statements id.0 steps.now.moves (λ index s moves.
        Prove (IsWithin (limit_of steps.now.profile)) (take index book.now.statements) s moves
        → IsOkUnless result ProofFault.Memory) }

    // What has a fault is answered with it, unless memory is refused.
    ensures refuses { steps.now.prefix ≡ false
        → OfMoves book.now.statements id.0 steps.now.moves (λ index s moves.
        (rule : ProofRule) → (step : ℕ)
        → FailsWith (limit_of steps.now.profile) book.now.statements index s moves rule step
        → IsUnlessMemory result (Err (ProofFault.Rule rule step))) }

    // The moves of a prefix that is answered `Ok` pass, and no assertion is reported.
    ensures passed { steps.now.prefix ≡ true
        → IfOk result (λ used. (used ≡ []) × OfMoves book.now.statements id.0 steps.now.moves
        (λ index s moves. Pass (IsWithin (limit_of steps.now.profile))
        (take index book.now.statements) moves)) }

    // The rule and the step are those of the first fault of the prefix.
    ensures prefix_fault { steps.now.prefix ≡ true
        → (rule : ProofRule) → (step : ℕ) → result ≡ Err (ProofFault.Rule rule step)
        → OfMoves book.now.statements id.0 steps.now.moves
        (λ index s moves. IsMoveFault (IsWithin (limit_of steps.now.profile))
        (take index book.now.statements) moves rule step) }

    // A prefix that passes is answered `Ok`, unless memory is refused.
    ensures accepts_prefix { steps.now.prefix ≡ true
        → OfMoves book.now.statements id.0 steps.now.moves (λ index s moves.
        Pass (IsWithin (limit_of steps.now.profile)) (take index book.now.statements) moves
        → IsOkUnless result ProofFault.Memory) }

    // A prefix that has a fault is answered with it, unless memory is refused.
    ensures refuses_prefix { steps.now.prefix ≡ true
        → OfMoves book.now.statements id.0 steps.now.moves (λ index s moves.
        (rule : ProofRule) → (step : ℕ)
        → IsMoveFault (IsWithin (limit_of steps.now.profile)) (take index book.now.statements) moves
        rule step
        → IsUnlessMemory result (Err (ProofFault.Rule rule step))) }
{
    if steps.is_prefix() {
        answer_prefix(alloc, &mut store, book, id, steps)
    } else {
        let mut named = Named::new(alloc);
        answer(alloc, &mut store, &mut named, book, id, steps)
    }
}
