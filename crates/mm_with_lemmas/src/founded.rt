//! What the theorems of a database rest on beside those of another one, by label.

ghost use Rattle.std.specs.Prelude.{◌≡◌, ◌<◌, List, Some, None, Contains, map, length, slice_get};
ghost use Rattle.std.specs.Prelude.{IfOk, IfSome, IsTrue, ℕ};
ghost use Rattle.mm_base.specs.Statement.{PlainStatement};
ghost use Rattle.mm_text.specs.Reading.{Reads};
ghost use Rattle.mm_rules.specs.Conclusion.{ProofUses};
ghost use Rattle.mm_rules.specs.Rests.{AreRising};
ghost use Rattle.mm_with_lemmas.specs.WithLemmas.{IsThere, RestsOnNamed};
ghost use Rattle.mm_with_lemmas.specs.Mirror.Founding.{AreFormers, HasFormerAmong, IsFormer};
ghost use Rattle.mm_with_lemmas.specs.Mirror.Founding.{IsFoundedBy, IsProofFounded, IsOfBoth};
ghost use Rattle.mm_with_lemmas.specs.Mirror.Using.{HasName, IsTold};

use mm_axioms::{Tables, axioms_at, index_of, tables, unproved_at};
use mm_frame::{Book, Found, LabelId};
use mm_verdict::Checked;
use std::alloc::{AllocError, Global};

/// What is known of two databases: what their theorems rest on and, for each label of the new one,
/// the statement of the old one that has it.
#[derive(Drop)]
struct Both {
    old_tables: Tables,
    new_tables: Tables,
    formers: Vec<Option<LabelId>>,
}

/// The statement of the old database that has the label of this one of the new one.
pub(crate) fn former_of(old: &Book, new: &Book, id: LabelId) -> Option<LabelId>
    ensures some { IfSome result (λ former.
        IsFormer old.now.statements new.now.statements id.0 former.0) }
    ensures none { result ≡ None → (label : List ℕ) → HasName new.now.statements label id.0
        → ¬ (IsTold old.now.statements label) }
{
    match old.find(new.label(id)) {
        Found::Assertion(former) => Some(former),
        Found::Hypothesis { id: former, .. } => Some(former),
        Found::None => None,
    }
}

/// For each labelled statement of the new database, by its number, that of the old one which has
/// its label.
fn formers_of(alloc: Global, old: &Book, new: &Book) -> Result<Vec<Option<LabelId>>, AllocError>
    ensures { IfOk result (λ formers.
        AreFormers old.now.statements new.now.statements formers.items) }
{
    let mut formers = Vec::new(alloc);
    for number in 0..u32::MAX {
        let id = LabelId(number);
        if !new.is_label(id) {
            break;
        }
        formers.push(former_of(old, new, id))?;
    }
    Ok(formers)
}

/// The statement of the old database that has the label of this one of the new one, as a table has
/// it.
fn former_at(formers: &[Option<LabelId>], id: LabelId) -> Option<LabelId>
    ensures { IfSome result (λ former. slice_get formers.now id.0 ≡ Some (Some former)) }
{
    match formers.get(id.0 as usize) {
        Some(former) => *former,
        None => None,
    }
}

/// Whether the statement of the old database with the label of this one is among others.
fn is_former_among(formers: &[Option<LabelId>], id: LabelId, others: &[LabelId]) -> bool
    requires { AreRising (map (λ l. l.0) others.now) }
    ensures { IsTrue result → HasFormerAmong formers.now (map (λ l. l.0) others.now) id.0 }
{
    match former_at(formers, id) {
        Some(former) => match index_of(others, former) {
            Some(_) => true,
            None => false,
        },
        None => false,
    }
}

/// Whether those with the labels of these are all among others.
fn are_formers_among(formers: &[Option<LabelId>], ids: &[LabelId], others: &[LabelId]) -> bool
    requires { AreRising (map (λ l. l.0) others.now) }
    ensures { IsTrue result → (n : ℕ) → Contains (map (λ l. l.0) ids.now) n
        → HasFormerAmong formers.now (map (λ l. l.0) others.now) n }
{
    for id in ids {
        if !is_former_among(formers, *id, others) {
            return false;
        }
    }
    true
}

/// Whether a statement of the new database rests, by their labels, only on axioms and on unproved
/// theorems on which that of the old one rests.
fn is_founded_by(
    alloc: Global,
    old: &Checked,
    new: &Checked,
    both: &Both,
    former: LabelId,
    id: LabelId,
) -> Result<bool, AllocError>
    requires { IsOfBoth old.now new.now both.now }
    ensures { IfOk result (λ is. IsTrue is → IsFoundedBy old.now new.now former.0 id.0) }
{
    let axioms = axioms_at(alloc, new, &both.new_tables, id)?;
    let old_axioms = axioms_at(alloc, old, &both.old_tables, former)?;
    if !are_formers_among(&both.formers, &axioms, &old_axioms) {
        return Ok(false);
    }
    let unproved = unproved_at(alloc, new, &both.new_tables, id)?;
    let old_unproved = unproved_at(alloc, old, &both.old_tables, former)?;
    Ok(are_formers_among(&both.formers, &unproved, &old_unproved))
}

/// Whether the theorem of a proof of the new database, the one at an index, rests on nothing on
/// which that of the old one didn't rest, or wasn't there.
fn is_proof_founded(
    alloc: Global,
    old: &Checked,
    new: &Checked,
    both: &Both,
    at: usize,
) -> Result<bool, AllocError>
    requires at { at < length new.now.uses }
    requires both { IsOfBoth old.now new.now both.now }
    ensures { IfOk result (λ is. IsTrue is → (u : ProofUses)
        → slice_get new.now.uses at ≡ Some u → IsProofFounded old.now new.now u) }
{
    let id = new.kept.proof(at);
    match former_of(&old.book, &new.book, id) {
        Some(former) => is_founded_by(alloc, old, new, both, former, id),
        None => Ok(true),
    }
}

/// Whether that is so of each proof of the new database.
fn are_proofs_founded(
    alloc: Global,
    old: &Checked,
    new: &Checked,
    both: &Both,
) -> Result<bool, AllocError>
    requires { IsOfBoth old.now new.now both.now }
    ensures { IfOk result (λ are. IsTrue are → (u : ProofUses) → Contains new.now.uses u
        → IsProofFounded old.now new.now u) }
{
    for at in 0..new.kept.len() {
        if !is_proof_founded(alloc, old, new, both, at)? {
            return Ok(false);
        }
    }
    Ok(true)
}

/// Whether no theorem that was there rests on an axiom, or on an unproved theorem, on which it
/// didn't rest.
///
/// # Errors
///
/// Only where a growth was refused.
pub(crate) fn are_founded(alloc: Global, old: &Checked, new: &Checked) -> Result<bool, AllocError>
    ensures { IfOk result (λ are. IsTrue are → (statements others : List PlainStatement)
        → Reads old.now.files statements None → Reads new.now.files others None
        → (label basis : List ℕ) → IsThere statements label
        → RestsOnNamed others label basis → RestsOnNamed statements label basis) }
{
    let old_tables = tables(alloc, old)?;
    let new_tables = tables(alloc, new)?;
    let formers = formers_of(alloc, &old.book, &new.book)?;
    let both = Both {
        old_tables,
        new_tables,
        formers,
    };
    let are = are_proofs_founded(alloc, old, new, &both);
    drop(both);
    are
}
