//! What the proofs of a database newly use beside those of another one, by label, and whether they
//! may, by the marks in comments and by mathboxes.

ghost use Rattle.std.specs.Prelude.{◌≡◌, ◌<◌, ◌+◌, ◌⊎◌, ℕ, List, None, Some, Contains, IfOk};
ghost use Rattle.std.specs.Prelude.{IsTrue, map, length, slice_get};
ghost use Rattle.mm_base.specs.Statement.{PlainStatement};
ghost use Rattle.mm_text.specs.Files.{PlainFile};
ghost use Rattle.mm_text.specs.Reading.{Reads};
ghost use Rattle.mm_rules.specs.Conclusion.{ProofUses};
ghost use Rattle.mm_minimize.specs.Remarks.{AreRemarks};
ghost use Rattle.mm_with_lemmas.specs.WithLemmas.{MayUseNamed, UseLemmasAlone, UsesNamed};
ghost use Rattle.mm_with_lemmas.specs.Mirror.Founding.{IsFormer};
ghost use Rattle.mm_with_lemmas.specs.Mirror.Using.{AreBelow, IsProofHeeded, IsUseHeeded};
ghost use Rattle.mm_with_lemmas.specs.Mirror.Using.{MayUseAt, WereUsed};

use crate::founded::former_of;
use crate::stamps::{has_stamp, stamp_all};
use mm_frame::LabelId;
use mm_minimize::{Remark, may_use};
use mm_rules::Kept;
use mm_verdict::Checked;
use std::alloc::{AllocError, Global};

/// Whether a theorem may newly use an assertion, by what is said of each labelled statement.
fn may_newly_use(remarks: &[Remark], theorem: LabelId, used: LabelId) -> bool
    requires theorem { theorem.0 < length remarks.now }
    requires used { used.0 < length remarks.now }
    ensures { IsTrue result → (files : List PlainFile) → AreRemarks files remarks.now
        → MayUseAt files theorem.0 used.0 }
{
    let own = remarks[theorem.0 as usize];
    let other = remarks[used.0 as usize];
    may_use(&own, &other)
}

/// Whether it may newly use each of these.
fn may_newly_use_all(remarks: &[Remark], theorem: LabelId, used: &[LabelId]) -> bool
    requires theorem { theorem.0 < length remarks.now }
    requires used { (n : ℕ) → Contains (map (λ l. l.0) used.now) n → n < length remarks.now }
    ensures { IsTrue result → (n : ℕ) → Contains (map (λ l. l.0) used.now) n
        → (files : List PlainFile) → AreRemarks files remarks.now → MayUseAt files theorem.0 n }
{
    for id in used {
        if !may_newly_use(remarks, theorem, *id) {
            return false;
        }
    }
    true
}

/// Whether a theorem of the new database may use an assertion: what has the stamp it used in the
/// old one, and else it may use what wasn't there alone.
fn is_use_heeded(
    old: &Checked,
    new: &Checked,
    remarks: &[Remark],
    marks: &[usize],
    stamp: usize,
    theorem: LabelId,
    used: LabelId,
) -> bool
    requires said { AreRemarks new.now.files remarks.now }
    requires stamped { WereUsed old.now new.now theorem.0 stamp marks.now }
    requires theorem { theorem.0 < length remarks.now }
    requires used { used.0 < length remarks.now }
    ensures { IsTrue result → IsUseHeeded old.now new.now theorem.0 used.0 }
{
    match former_of(&old.book, &new.book, used) {
        Some(id) => has_stamp(marks, stamp, id),
        None => may_newly_use(remarks, theorem, used),
    }
}

/// Whether that is so of each of these.
fn are_heeded(
    old: &Checked,
    new: &Checked,
    remarks: &[Remark],
    marks: &[usize],
    stamp: usize,
    theorem: LabelId,
    used: &[LabelId],
) -> bool
    requires said { AreRemarks new.now.files remarks.now }
    requires stamped { WereUsed old.now new.now theorem.0 stamp marks.now }
    requires theorem { theorem.0 < length remarks.now }
    requires used { (n : ℕ) → Contains (map (λ l. l.0) used.now) n → n < length remarks.now }
    ensures { IsTrue result → (n : ℕ) → Contains (map (λ l. l.0) used.now) n
        → IsUseHeeded old.now new.now theorem.0 n }
{
    for id in used {
        if !is_use_heeded(old, new, remarks, marks, stamp, theorem, *id) {
            return false;
        }
    }
    true
}

/// Whether the proof of the new database at an index, whose theorem is this one of the old one,
/// newly uses only what wasn't there and what it may use. No mark has the stamp.
fn is_former_heeded(
    old: &Checked,
    new: &Checked,
    remarks: &[Remark],
    marks: &mut [usize],
    stamp: usize,
    at: usize,
    former: LabelId,
) -> bool
    requires said { AreRemarks new.now.files remarks.now }
    requires within { at < length new.now.uses }
    requires marks { AreBelow stamp marks.old }
    requires former { (u : ProofUses) → slice_get new.now.uses at ≡ Some u
        → IsFormer old.now.sentences new.now.sentences u.number former.0 }
    ensures marks { AreBelow (stamp + 1) marks.new }
    ensures heeded { IsTrue result → (u : ProofUses) → slice_get new.now.uses at ≡ Some u
        → IsProofHeeded old.now new.now u }
{
    stamp_all(marks, stamp, old.kept.used_by(former));
    let theorem = new.kept.proof(at);
    are_heeded(old, new, remarks, marks, stamp, theorem, new.kept.used(at))
}

/// Whether the proof of the new database at an index newly uses only what it may use, and what
/// wasn't there alone, if its theorem was. No mark has the stamp.
fn is_proof_heeded(
    old: &Checked,
    new: &Checked,
    remarks: &[Remark],
    marks: &mut [usize],
    stamp: usize,
    at: usize,
) -> bool
    requires said { AreRemarks new.now.files remarks.now }
    requires within { at < length new.now.uses }
    requires marks { AreBelow stamp marks.old }
    ensures marks { AreBelow (stamp + 1) marks.new }
    ensures heeded { IsTrue result → (u : ProofUses) → slice_get new.now.uses at ≡ Some u
        → IsProofHeeded old.now new.now u }
{
    let theorem = new.kept.proof(at);
    match former_of(&old.book, &new.book, theorem) {
        Some(former) => is_former_heeded(old, new, remarks, marks, stamp, at, former),
        None => may_newly_use_all(remarks, theorem, new.kept.used(at)),
    }
}

/// Whether that is so of each proof of the new database.
fn are_proofs_heeded(old: &Checked, new: &Checked, remarks: &[Remark], marks: &mut [usize]) -> bool
    requires said { AreRemarks new.now.files remarks.now }
    requires marks { AreBelow 1 marks.old }
    ensures { IsTrue result → (u : ProofUses) → Contains new.now.uses u
        → IsProofHeeded old.now new.now u }
{
    for at in 0..new.kept.len() {
        if !is_proof_heeded(old, new, remarks, marks, at + 1, at) {
            return false;
        }
    }
    true
}

/// Room for each number that a proof uses: they are less than that of the last proof.
fn room_of(kept: &Kept) -> usize {
    match kept.len() {
        0 => 0,
        count => kept.proof(count - 1).0 as usize,
    }
}

/// Whether each theorem that was there newly uses what wasn't there alone, and whether each one, a
/// lemma too, may use what it newly uses: what the theorem with its label used in the old database,
/// it uses already. The remarks are those of the new one.
///
/// # Errors
///
/// Only where a growth was refused.
pub(crate) fn are_uses_heeded(
    alloc: Global,
    old: &Checked,
    new: &Checked,
    remarks: &[Remark],
) -> Result<bool, AllocError>
    requires { AreRemarks new.now.files remarks.now }
    ensures by_lemmas { IfOk result (λ are. IsTrue are → (statements others : List PlainStatement)
        → Reads old.now.files statements None → Reads new.now.files others None
        → UseLemmasAlone statements others) }
    ensures allowed { IfOk result (λ are. IsTrue are → (statements others : List PlainStatement)
        → Reads old.now.files statements None → Reads new.now.files others None
        → (label used : List ℕ) → UsesNamed others label used
        → UsesNamed statements label used
        ⊎ MayUseNamed new.now.files others label used) }
{
    let _files = old.files;
    let _new_files = new.files;
    let mut marks = vec![in alloc; 0usize; room_of(&old.kept)]?;
    let are = are_proofs_heeded(old, new, remarks, &mut marks);
    drop(marks);
    Ok(are)
}
