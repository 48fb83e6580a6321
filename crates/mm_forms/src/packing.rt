//! The fully shared proof of a tree: its listed labels and its codes (the Metamath book, section
//! 4.3 and appendix B).

ghost use Rattle.std.specs.Prelude.{◌≡◌, ◌+◌, ◌*◌, ◌≤◌, ◌<◌, ◌↔◌, ◌++◌, List, [], length, take};
ghost use Rattle.std.specs.Prelude.{Contains, All, IfOk, OnOk, false};
ghost use Rattle.mm_base.specs.MostBytes.{most_bytes};
ghost use Rattle.mm_code.specs.declared.code.Code.{Code};
ghost use Rattle.mm_code.specs.Letters.{HasSpelling, IsExact, largest};
ghost use Rattle.mm_forms.specs.declared.subtrees.Subtree.{Subtree};
ghost use Rattle.mm_forms.specs.declared.sharing.SharedStep.TheVariants.{Make, Repeat};
ghost use Rattle.mm_forms.specs.OneTree.{MakeOneTree};
ghost use Rattle.mm_forms.specs.BigSubtrees.{IsBig};
ghost use Rattle.mm_forms.specs.Packing.{OfTree, ArePacked};
ghost use Rattle.mm_forms.specs.ChosenSharing.{AreChosen};
ghost use Rattle.mm_step.specs.Steps.{AreSteps};
ghost use Rattle.mm_proof.specs.Sharing.{steps_of};
ghost use Rattle.mm_proof.specs.Verified.{OfMoves};
ghost use Rattle.mm_step.specs.Plain.{ids_in, label_ids};
ghost use Rattle.mm_forms.specs.Mirror.CodeSharing.{AreFirstNumbers, labels_made, IsEncoded};
ghost use Rattle.mm_forms.specs.Mirror.CodeSharing.{AreEncoded};
ghost use Rattle.mm_forms.specs.Mirror.CodeSharing.{AreStepsPacked, AreMadeBefore};
ghost use Rattle.mm_forms.specs.Mirror.CodeSharing.{AreSharedSteps, ShareSomeTrees};
ghost use Rattle.mm_forms.specs.Mirror.CodeChosen.{ChoosesPacked};
ghost use Rattle.mm_forms.specs.Mirror.Subtrees.{AreOnce};

use crate::builder::build;
use crate::chosen::choose_steps;
use crate::sharing::{SharedStep, SharedSteps};
use crate::subtree_set::SubtreeSet;
use mm_base::Seed;
use mm_code::Code;
use mm_frame::{Book, Hypothesis, LabelId};
use mm_proof::{LabelSet, Steps};
use std::alloc::{AllocError, Global};

/// A compressed proof, by numbers.
#[derive(Drop)]
pub struct Packed {
    /// The listed labels.
    pub labels: Vec<LabelId>,
    /// What the letters say. The first numbers stand for the mandatory hypotheses, the next ones
    /// for the listed labels, and those above for tags.
    pub codes: Vec<Code>,
}

/// Two proofs of one tree.
#[derive(Drop)]
pub(crate) struct BothPacked {
    /// The fully shared one.
    pub(crate) full: Packed,
    /// The one that shares what is worth a tag alone.
    pub(crate) chosen: Packed,
    /// How many steps the fully shared one has.
    pub(crate) steps: usize,
}

// The trees that the steps repeat.
fn repeated_trees(alloc: Global, seed: Seed, steps: &[SharedStep]) -> Result<SubtreeSet, AllocError>
    ensures those { IfOk result (λ trees. (t : Subtree)
        → Contains trees t ↔ Contains steps.now (Repeat t)) }
    ensures few { IfOk result (λ trees. length (labels_made steps.now) + length trees
        ≤ length steps.now) }
{
    let mut trees = SubtreeSet::new(alloc, seed);
    for one in steps {
        match one {
            SharedStep::Make(_) => {}
            SharedStep::Repeat(tree) => trees.add(*tree)?,
        }
    }
    Ok(trees)
}

// Adds the labels of the hypotheses to a set that has none.
fn put_hypotheses(labels: &mut LabelSet, hypotheses: &[Hypothesis]) -> Result<(), AllocError>
    requires { labels.old ≡ [] }
    ensures { OnOk result (AreFirstNumbers [] (label_ids hypotheses.now) labels.new) }
{
    for hypothesis in hypotheses {
        labels.add(hypothesis.id)?;
    }
    Ok(())
}

// The labels by which the steps make trees, without those that are given: they are put behind
// those.
fn list_labels(
    alloc: Global,
    labels: &mut LabelSet,
    steps: &[SharedStep],
) -> Result<Vec<LabelId>, AllocError>
    ensures { IfOk result (λ listed. (labels.new ≡ labels.old ++ ids_in listed.items)
        × AreFirstNumbers labels.old (labels_made steps.now) (ids_in listed.items)) }
{
    let mut listed = Vec::new(alloc);
    for one in steps {
        match one {
            SharedStep::Make(tree) => {
                let id = LabelId(tree.label);
                if labels.add(id)? {
                    listed.push(id)?;
                }
            }
            SharedStep::Repeat(_) => {}
        }
    }
    Ok(listed)
}

// Appends the codes of a step to those before it.
fn encode(
    codes: &mut Vec<Code>,
    kept: &mut SubtreeSet,
    labels: &LabelSet,
    repeated: &SubtreeSet,
    one: SharedStep,
) -> Result<(), AllocError>
    requires numbers { length labels.now + length kept.old + 1 < largest }
    requires known { (t : Subtree) → one ≡ Make t → Contains labels.now t.label }
    requires made { (t : Subtree) → one ≡ Repeat t → Contains kept.old t }
    ensures said { OnOk result ((here : List Code) × (codes.new.items ≡ codes.old.items ++ here)
        × IsEncoded labels.now repeated.now kept.old one here kept.new) }
    ensures spelled { OnOk result (All HasSpelling codes.old.items
        → All HasSpelling codes.new.items) }
    ensures exact { OnOk result (All IsExact codes.old.items → All IsExact codes.new.items) }
{
    match one {
        SharedStep::Make(tree) => {
            let index = labels.index(LabelId(tree.label));
            codes.push(Code::Number((index + 1) as u32))?;
            if repeated.has(tree) {
                codes.push(Code::Tag)?;
                kept.add(tree)?;
                return Ok(());
            }
            Ok(())
        }
        SharedStep::Repeat(tree) => {
            let index = labels.len() + kept.index(tree);
            codes.push(Code::Number((index + 1) as u32))?;
            Ok(())
        }
    }
}

// The codes of the steps.
fn codes_of(
    alloc: Global,
    seed: Seed,
    labels: &LabelSet,
    repeated: &SubtreeSet,
    steps: &[SharedStep],
) -> Result<Vec<Code>, AllocError>
    requires numbers { length labels.now + length repeated.now + 1 < largest }
    requires known { (t : Subtree) → Contains steps.now (Make t) → Contains labels.now t.label }
    requires each { (t : Subtree) → Contains steps.now (Repeat t) → Contains repeated.now t }
    requires made { AreMadeBefore steps.now }
    ensures said { IfOk result (λ codes. (kept : List Subtree)
        × AreEncoded labels.now repeated.now [] steps.now codes.items kept) }
    ensures spelled { IfOk result (λ codes. All HasSpelling codes.items) }
    ensures exact { IfOk result (λ codes. All IsExact codes.items) }
{
    let mut codes = Vec::with_capacity(alloc, steps.len())?;
    let mut kept = SubtreeSet::with_room(alloc, seed, repeated.len());
    for one in steps {
        encode(&mut codes, &mut kept, labels, repeated, *one)?;
    }
    Ok(codes)
}

// The listed labels and the codes of the steps, which repeat these trees. The numbers of labels are
// put into a set that has none.
fn pack_repeating(
    alloc: Global,
    seed: Seed,
    hypotheses: &[Hypothesis],
    known: &mut LabelSet,
    repeated: &SubtreeSet,
    steps: &[SharedStep],
) -> Result<Packed, AllocError>
    requires hypotheses { length hypotheses.now < most_bytes }
    requires steps { length steps.now ≤ 2 * most_bytes }
    requires made { AreMadeBefore steps.now }
    requires fresh { known.old ≡ [] }
    requires those { (t : Subtree) → Contains repeated.now t ↔ Contains steps.now (Repeat t) }
    requires few { length (labels_made steps.now) + length repeated.now ≤ length steps.now }
    ensures packed { IfOk result (λ packed. AreStepsPacked (label_ids hypotheses.now) steps.now
        (ids_in packed.labels.items) packed.codes.items) }
    ensures spelled { IfOk result (λ packed. All HasSpelling packed.codes.items) }
    ensures exact { IfOk result (λ packed. All IsExact packed.codes.items) }
    ensures few { IfOk result (λ packed. length packed.codes.items ≤ 4 * most_bytes) }
{
    put_hypotheses(known, hypotheses)?;
    let labels = list_labels(alloc, known, steps)?;
    match codes_of(alloc, seed, known, repeated, steps) {
        Ok(codes) => Ok(Packed { labels, codes }),
        Err(fault) => {
            drop(labels);
            Err(fault)
        }
    }
}

// The listed labels and the codes of the steps.
fn pack(
    alloc: Global,
    seed: Seed,
    hypotheses: &[Hypothesis],
    steps: &[SharedStep],
) -> Result<Packed, AllocError>
    requires hypotheses { length hypotheses.now < most_bytes }
    requires steps { length steps.now ≤ 2 * most_bytes }
    requires made { AreMadeBefore steps.now }
    ensures packed { IfOk result (λ packed. AreStepsPacked (label_ids hypotheses.now) steps.now
        (ids_in packed.labels.items) packed.codes.items) }
    ensures spelled { IfOk result (λ packed. All HasSpelling packed.codes.items) }
    ensures exact { IfOk result (λ packed. All IsExact packed.codes.items) }
    ensures few { IfOk result (λ packed. length packed.codes.items ≤ 4 * most_bytes) }
{
    let repeated = repeated_trees(alloc, seed, steps)?;
    let mut known = LabelSet::new(alloc, seed);
    let packed = pack_repeating(alloc, seed, hypotheses, &mut known, &repeated, steps);
    drop(known);
    drop(repeated);
    packed
}

// The steps of the fully shared proof of the tree that the steps of the `$p` with this number make.
fn share_steps(
    alloc: Global,
    book: &Book,
    id: LabelId,
    steps: &Steps,
) -> Result<SharedSteps, AllocError>
    requires steps { AreSteps book.now.statements id.0 steps.now.moves }
    requires makes { OfMoves book.now.statements id.0 steps.now.moves
        (λ index s moves. MakeOneTree (take index book.now.statements) moves) }
    ensures shared { IfOk result (λ shared. OfMoves book.now.statements id.0 steps.now.moves
        (λ index s moves. OfTree (take index book.now.statements) moves (λ t.
        AreSharedSteps IsBig book.now.statements shared.table t shared.steps.items))) }
    ensures once { IfOk result (λ shared. AreOnce shared.table) }
    ensures few { IfOk result (λ shared. length shared.steps.items ≤ most_bytes) }
{
    let mut shared = SharedSteps::with_room(alloc, book.seed(), steps.codes.len());
    match build(alloc, &mut shared, book, id, steps) {
        Ok(_) => Ok(shared),
        Err(fault) => {
            drop(shared);
            Err(fault)
        }
    }
}

// The proof that shares what is worth a tag alone, by the steps of the fully shared one.
fn pack_chosen(
    alloc: Global,
    seed: Seed,
    hypotheses: &[Hypothesis],
    shared: &SharedSteps,
) -> Result<Packed, AllocError>
    requires hypotheses { length hypotheses.now < most_bytes }
    requires steps { length shared.now.steps.items ≤ most_bytes }
    requires shared { ShareSomeTrees shared.now }
    ensures packed { IfOk result (λ packed. ChoosesPacked shared.now (label_ids hypotheses.now)
        (ids_in packed.labels.items) packed.codes.items) }
    ensures spelled { IfOk result (λ packed. All HasSpelling packed.codes.items) }
    ensures exact { IfOk result (λ packed. All IsExact packed.codes.items) }
    ensures few { IfOk result (λ packed. length packed.codes.items ≤ 4 * most_bytes) }
{
    let fewer = choose_steps(alloc, &shared.table, &shared.steps)?;
    let packed = pack(alloc, seed, hypotheses, &fewer);
    drop(fewer);
    packed
}

// Both proofs, by the steps of the fully shared one.
fn pack_both(
    alloc: Global,
    seed: Seed,
    hypotheses: &[Hypothesis],
    shared: &SharedSteps,
) -> Result<BothPacked, AllocError>
    requires hypotheses { length hypotheses.now < most_bytes }
    requires steps { length shared.now.steps.items ≤ most_bytes }
    requires shared { ShareSomeTrees shared.now }
    ensures full { IfOk result (λ both. AreStepsPacked (label_ids hypotheses.now)
        shared.now.steps.items (ids_in both.full.labels.items) both.full.codes.items) }
    ensures chosen { IfOk result (λ both. ChoosesPacked shared.now (label_ids hypotheses.now)
        (ids_in both.chosen.labels.items) both.chosen.codes.items) }
    ensures steps { IfOk result (λ both. both.steps ≡ steps_of both.full.codes.items) }
    ensures spelled { IfOk result (λ both. All HasSpelling both.full.codes.items
        × All HasSpelling both.chosen.codes.items) }
    ensures exact { IfOk result (λ both. All IsExact both.full.codes.items
        × All IsExact both.chosen.codes.items) }
    ensures few { IfOk result (λ both. (length both.full.codes.items ≤ 4 * most_bytes)
        × (length both.chosen.codes.items ≤ 4 * most_bytes)) }
{
    let full = pack(alloc, seed, hypotheses, &shared.steps)?;
    match pack_chosen(alloc, seed, hypotheses, shared) {
        Ok(chosen) => Ok(BothPacked {
            full,
            chosen,
            steps: shared.steps.len(),
        }),
        Err(fault) => {
            drop(full);
            Err(fault)
        }
    }
}

/// The fully shared proof of the tree that the steps of the `$p` with this number make: each
/// subtree of two or more nodes is made once, and tagged where it is used again. They are handed in
/// where they make one tree: so does a whole proof that `verify` accepts. The proof's own tree is
/// never written out.
///
/// # Errors
///
/// Only where a growth was refused.
pub fn compress(
    alloc: Global,
    book: &Book,
    id: LabelId,
    steps: &Steps,
) -> Result<Packed, AllocError>
    requires steps { AreSteps book.now.statements id.0 steps.now.moves }
    requires whole { steps.now.prefix ≡ false }
    requires makes { OfMoves book.now.statements id.0 steps.now.moves
        (λ index s moves. MakeOneTree (take index book.now.statements) moves) }
    // The labels and the codes are the fully shared proof of the tree that the steps make.
    ensures packed { IfOk result (λ packed. OfMoves book.now.statements id.0 steps.now.moves
        (λ index s moves. OfTree (take index book.now.statements) moves
        (λ t. ArePacked book.now.statements index s t packed.labels.items packed.codes.items))) }

    // Each code can be written in letters, and each number stands for itself alone.
    ensures spelled { IfOk result (λ packed. All HasSpelling packed.codes.items) }
    ensures exact { IfOk result (λ packed. All IsExact packed.codes.items) }

    // No step has more than two codes.
    ensures few { IfOk result (λ packed. length packed.codes.items ≤ 4 * most_bytes) }
{
    let shared = share_steps(alloc, book, id, steps)?;
    let own = book.frame(id);
    let packed = pack(alloc, book.seed(), own.hypotheses(), &shared.steps);
    drop(shared);
    packed
}

/// The fully shared proof of the tree that the steps make, under what `compress` asks, and the one
/// that shares what is worth a tag alone: a tree of two nodes is written out again there.
///
/// # Errors
///
/// Only where a growth was refused.
pub(crate) fn compress_both(
    alloc: Global,
    book: &Book,
    id: LabelId,
    steps: &Steps,
) -> Result<BothPacked, AllocError>
    requires steps { AreSteps book.now.statements id.0 steps.now.moves }
    requires whole { steps.now.prefix ≡ false }
    requires makes { OfMoves book.now.statements id.0 steps.now.moves
        (λ index s moves. MakeOneTree (take index book.now.statements) moves) }
    ensures full { IfOk result (λ both. OfMoves book.now.statements id.0 steps.now.moves
        (λ index s moves. OfTree (take index book.now.statements) moves (λ t.
        ArePacked book.now.statements index s t both.full.labels.items both.full.codes.items))) }
    ensures chosen { IfOk result (λ both. OfMoves book.now.statements id.0 steps.now.moves
        (λ index s moves. OfTree (take index book.now.statements) moves (λ t. AreChosen
        book.now.statements index s t both.chosen.labels.items both.chosen.codes.items))) }
    ensures steps { IfOk result (λ both. both.steps ≡ steps_of both.full.codes.items) }
    ensures spelled { IfOk result (λ both. All HasSpelling both.full.codes.items
        × All HasSpelling both.chosen.codes.items) }
    ensures exact { IfOk result (λ both. All IsExact both.full.codes.items
        × All IsExact both.chosen.codes.items) }
    ensures few { IfOk result (λ both. (length both.full.codes.items ≤ 4 * most_bytes)
        × (length both.chosen.codes.items ≤ 4 * most_bytes)) }
{
    let shared = share_steps(alloc, book, id, steps)?;
    let own = book.frame(id);
    let both = pack_both(alloc, book.seed(), own.hypotheses(), &shared);
    drop(shared);
    both
}
