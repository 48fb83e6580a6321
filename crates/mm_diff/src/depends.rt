//! The theorems that depend on further axioms than in another version, or on fewer.

ghost use Rattle.std.specs.Prelude.{◌≡◌, ◌↔◌, ◌<◌, ◌++◌, ℕ, map, length, Contains, IfOk, IsTrue};
ghost use Rattle.std.specs.Prelude.{OnOk};
ghost use Rattle.mm_frame.specs.Numbers.{labelled_sentences, IsLabelNumber};
ghost use Rattle.mm_frame.specs.Rules.{AllMeant};
ghost use Rattle.mm_rules.specs.Rests.{AreInOrder, AreRising};
ghost use Rattle.mm_diff.specs.Diff.{AreRenamed};
ghost use Rattle.mm_diff.specs.Mirror.Changes.{plain_dependence, plain_renaming};
ghost use Rattle.mm_diff.specs.Mirror.Depends.{AreDependences, AreOthersSettled, HasTwinAmong};
ghost use Rattle.mm_diff.specs.Mirror.Depends.{IsFurtherIn, IsOneTheoremIn, IsSide};
ghost use Rattle.mm_diff.specs.Mirror.Depends.{IsUnsettled, told_of};
ghost use Rattle.mm_diff.specs.Mirror.Twins.{AreTwins, IsTwinAt};

use crate::renamed::Renaming;
use crate::stays::those_that_stay;
use crate::twins::{turned_renamings, twin_at, twins_of};
use mm_alike::is_theorem;
use mm_axioms::{Tables, axioms_at, index_of, is_marked, tables};
use mm_frame::{Book, LabelId};
use mm_verdict::Checked;
use std::alloc::{AllocError, Global};

/// A theorem of the new version, and axioms on which it depends in one version alone.
#[derive(Drop)]
pub(crate) struct Dependence {
    pub theorem: LabelId,
    pub axioms: Vec<LabelId>,
}

/// What differs in the axioms on which theorems depend.
#[derive(Drop)]
pub(crate) struct Dependences {
    /// Axioms of the new version.
    pub further: Vec<Dependence>,
    /// Axioms of the old one.
    pub less: Vec<Dependence>,
}

/// What is known of the axioms of one version: on which of them theorems depend, and which
/// assertion of the other version is one with each of its own.
#[derive(Drop)]
struct Side {
    tables: Tables,
    twins: Vec<Option<LabelId>>,
}

/// What differs for one theorem.
#[derive(Drop)]
struct Differing {
    further: Vec<LabelId>,
    less: Vec<LabelId>,
}

/// Whether the assertion that is one with this one is among others.
fn has_twin_among(twins: &[Option<LabelId>], id: LabelId, others: &[LabelId]) -> bool
    requires { AreRising (map (λ l. l.0) others.now) }
    ensures { IsTrue result ↔ HasTwinAmong twins.now (map (λ l. l.0) others.now) id.0 }
{
    match twin_at(twins, id) {
        Some(twin) => match index_of(others, twin) {
            Some(_) => true,
            None => false,
        },
        None => false,
    }
}

/// Those of these axioms that are one with none of the others.
fn those_without(
    alloc: Global,
    axioms: &[LabelId],
    twins: &[Option<LabelId>],
    others: &[LabelId],
) -> Result<Vec<LabelId>, AllocError>
    requires axioms { AreRising (map (λ l. l.0) axioms.now) }
    requires others { AreRising (map (λ l. l.0) others.now) }
    ensures { IfOk result (λ ids. AreInOrder (λ n. Contains (map (λ l. l.0) axioms.now) n
        × ¬ (HasTwinAmong twins.now (map (λ l. l.0) others.now) n)) (map (λ l. l.0) ids.items)) }
{
    let mut without = Vec::new(alloc);
    for id in axioms {
        if !has_twin_among(twins, *id, others) {
            without.push(*id)?;
        }
    }
    Ok(without)
}

/// What differs for a theorem of the new version, which is that one of the old version.
fn differing_of(
    alloc: Global,
    new: &Checked,
    side: &Side,
    old: &Checked,
    old_side: &Side,
    id: LabelId,
    former: LabelId,
) -> Result<Differing, AllocError>
    requires side { IsSide new.now old.now side.now }
    requires old_side { IsSide old.now new.now old_side.now }
    ensures { IfOk result (λ d.
        AreInOrder (IsFurtherIn new.now old.now id.0 former.0) (map (λ l. l.0) d.further.items)
        × AreInOrder (IsFurtherIn old.now new.now former.0 id.0) (map (λ l. l.0) d.less.items)) }
{
    let axioms = axioms_at(alloc, new, &side.tables, id)?;
    let others = axioms_at(alloc, old, &old_side.tables, former)?;
    let further = those_without(alloc, &axioms, &side.twins, &others)?;
    let less = those_without(alloc, &others, &old_side.twins, &axioms)?;
    Ok(Differing { further, less })
}

/// Appends what differs for a theorem, if anything does.
fn push_dependence(
    told: &mut Vec<Dependence>,
    theorem: LabelId,
    axioms: Vec<LabelId>,
) -> Result<(), AllocError>
    ensures { OnOk result (map plain_dependence told.new.items
        ≡ map plain_dependence told.old.items ++ told_of theorem.0 (map (λ l. l.0) axioms.items)) }
{
    if !axioms.is_empty() {
        told.push(Dependence { theorem, axioms })?;
    }
    Ok(())
}

/// Whether a labelled statement is a theorem of both versions that isn't known to depend on the
/// same axioms in both.
fn is_unsettled(
    new: &Book,
    old: &Book,
    twins: &[Option<LabelId>],
    marks: &[bool],
    id: LabelId,
) -> bool
    requires id { IsLabelNumber new.now.statements id.0 }
    requires twins { AreTwins new.now.statements old.now.statements twins.now }
    ensures { IsTrue result
        ↔ IsUnsettled new.now.statements old.now.statements twins.now marks.now id.0 }
{
    if is_marked(marks, id) {
        return false;
    }
    if !is_theorem(new, id) {
        return false;
    }
    match twin_at(twins, id) {
        Some(former) => is_theorem(old, former),
        None => false,
    }
}

/// The theorems of both versions that aren't known to depend on the same axioms in both.
fn those_unsettled(
    alloc: Global,
    new: &Book,
    old: &Book,
    twins: &[Option<LabelId>],
    marks: &[bool],
) -> Result<Vec<LabelId>, AllocError>
    requires few { length (labelled_sentences new.now.statements) < 4294967295 }
    requires twins { AreTwins new.now.statements old.now.statements twins.now }
    ensures { IfOk result (λ ids. AreInOrder
        (IsUnsettled new.now.statements old.now.statements twins.now marks.now)
        (map (λ l. l.0) ids.items)) }
{
    let mut those = Vec::new(alloc);
    for number in 0..u32::MAX {
        let id = LabelId(number);
        if !new.is_label(id) {
            break;
        }
        if is_unsettled(new, old, twins, marks, id) {
            those.push(id)?;
        }
    }
    Ok(those)
}

/// What differs for one of these theorems.
fn differing_at(
    alloc: Global,
    new: &Checked,
    side: &Side,
    old: &Checked,
    old_side: &Side,
    id: LabelId,
) -> Result<Differing, AllocError>
    requires side { IsSide new.now old.now side.now }
    requires old_side { IsSide old.now new.now old_side.now }
    requires twin { (former : ℕ) × IsTwinAt side.now.twins.items id.0 former }
    ensures { IfOk result (λ d. (former : ℕ) → IsTwinAt side.now.twins.items id.0 former
        → AreInOrder (IsFurtherIn new.now old.now id.0 former) (map (λ l. l.0) d.further.items)
        × AreInOrder (IsFurtherIn old.now new.now former id.0) (map (λ l. l.0) d.less.items)) }
{
    match twin_at(&side.twins, id) {
        Some(former) => differing_of(alloc, new, side, old, old_side, id, former),
        // Each of these theorems stands in both versions.
        None => unreachable!(),
    }
}

/// What differs for these theorems.
fn compare(
    alloc: Global,
    new: &Checked,
    side: &Side,
    old: &Checked,
    old_side: &Side,
    ids: &[LabelId],
) -> Result<Dependences, AllocError>
    requires side { IsSide new.now old.now side.now }
    requires old_side { IsSide old.now new.now old_side.now }
    requires rising { AreRising (map (λ l. l.0) ids.now) }
    requires theorems { (id : ℕ) → Contains (map (λ l. l.0) ids.now) id → (former : ℕ)
        × IsOneTheoremIn new.now.sentences old.now.sentences id former }
    requires others { AreOthersSettled old.now new.now (map (λ l. l.0) ids.now) }
    requires meant { AllMeant old.now.sentences }
    ensures { IfOk result (AreDependences old.now new.now) }
{
    let mut further = Vec::new(alloc);
    let mut less = Vec::new(alloc);
    for id in ids {
        let Differing {
            further: more,
            less: fewer,
        } = differing_at(alloc, new, side, old, old_side, *id)?;
        push_dependence(&mut further, *id, more)?;
        push_dependence(&mut less, *id, fewer)?;
    }
    Ok(Dependences { further, less })
}

/// The sides of both versions, and what differs for these theorems.
fn compare_sides(
    alloc: Global,
    new: &Checked,
    twins: Vec<Option<LabelId>>,
    old: &Checked,
    old_twins: Vec<Option<LabelId>>,
    ids: &[LabelId],
) -> Result<Dependences, AllocError>
    requires twins { AreTwins new.now.sentences old.now.sentences twins.items }
    requires old_twins { AreTwins old.now.sentences new.now.sentences old_twins.items }
    requires rising { AreRising (map (λ l. l.0) ids.now) }
    requires theorems { (id : ℕ) → Contains (map (λ l. l.0) ids.now) id → (former : ℕ)
        × IsOneTheoremIn new.now.sentences old.now.sentences id former }
    requires others { AreOthersSettled old.now new.now (map (λ l. l.0) ids.now) }
    requires meant { AllMeant old.now.sentences }
    ensures { IfOk result (AreDependences old.now new.now) }
{
    if ids.is_empty() {
        return Ok(Dependences {
            further: Vec::new(alloc),
            less: Vec::new(alloc),
        });
    }
    let side = Side {
        tables: tables(alloc, new)?,
        twins,
    };
    let old_side = Side {
        tables: tables(alloc, old)?,
        twins: old_twins,
    };
    compare(alloc, new, &side, old, &old_side, ids)
}

/// What differs in the axioms on which the theorems of both versions depend, where these
/// assertions are renamed.
pub(crate) fn dependences_between(
    alloc: Global,
    old: &Checked,
    new: &Checked,
    renamed: &[Renaming],
) -> Result<Dependences, AllocError>
    requires { AreRenamed old.now.sentences new.now.sentences (map plain_renaming renamed.now) }
    ensures { IfOk result (AreDependences old.now new.now) }
{
    let turned = turned_renamings(alloc, renamed)?;
    let twins = twins_of(alloc, &new.book, &old.book, renamed)?;
    let old_twins = twins_of(alloc, &old.book, &new.book, &turned)?;
    let marks = those_that_stay(alloc, new, old, &twins)?;
    let ids = those_unsettled(alloc, &new.book, &old.book, &twins, &marks)?;
    compare_sides(alloc, new, twins, old, old_twins, &ids)
}
