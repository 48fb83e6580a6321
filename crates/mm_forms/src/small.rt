//! Small proofs: their labels are listed by how often they are used, so that frequent ones have
//! short numbers (the Metamath book, appendix B).

ghost use Rattle.std.specs.Prelude.{◌≡◌, ◌+◌, ◌*◌, ◌<◌, ◌≤◌, ◌⊎◌, ℕ, [], length, take};
ghost use Rattle.std.specs.Prelude.{Some, None, All, IfOk, false, slice_get, slice_index_or};
ghost use Rattle.std.specs.List.{AllZip};
ghost use Rattle.std.specs.List.Sorted.{IsPermutation};
ghost use Rattle.mm_code.specs.declared.code.Code.{Code};
ghost use Rattle.mm_base.specs.MostBytes.{most_bytes};
ghost use Rattle.mm_code.specs.Letters.{HasSpelling, IsExact, largest};
ghost use Rattle.mm_code.specs.LetterCount.{letter_count as letters_in};
ghost use Rattle.mm_forms.specs.OneTree.{MakeOneTree};
ghost use Rattle.mm_forms.specs.Packing.{OfTree};
ghost use Rattle.mm_forms.specs.Sharing.{HasSteps};
ghost use Rattle.mm_forms.specs.SmallProofs.{AreSmall};
ghost use Rattle.mm_step.specs.Steps.{AreSteps};
ghost use Rattle.mm_proof.specs.Verified.{OfMoves};
ghost use Rattle.mm_forms.specs.Mirror.CodeSmall.{IsListed, AreLabelUses, AreInOrder, AreWithin};
ghost use Rattle.mm_forms.specs.Mirror.CodeSmall.{ArePlaces, IsRenumbered, AreListedByUse};
ghost use Rattle.mm_forms.specs.Mirror.CodeSmall.{IsOrderByUse};

use crate::packing::{Packed, compress_both};
use mm_code::{Code, letter_count};
use mm_frame::{Book, LabelId};
use mm_proof::Steps;
use std::alloc::{AllocError, Global};
use std::cmp::Reverse;

/// A listed label by its index, and how many steps are by it.
#[derive(Clone, Copy)]
pub struct LabelUse {
    index: usize,
    uses: usize,
}

// The index of the listed label that the code stands for, where so many hypotheses are before the
// list, and so many labels are listed.
fn listed_index(own: usize, count: usize, code: Code) -> Option<usize>
    ensures some { (i : ℕ) → result ≡ Some i → (i < count) × IsListed own i code }
    ensures none { result ≡ None → (i : ℕ) → i < count → ¬ (IsListed own i code) }
{
    match code {
        Code::Number(number) => {
            let number = number as usize;
            if own < number && number - own <= count {
                Some(number - own - 1)
            } else {
                None
            }
        }
        Code::Tag => None,
    }
}

// So many labels, none of which is used.
fn unused(alloc: Global, count: usize) -> Result<Vec<LabelUse>, AllocError>
    ensures many { IfOk result (λ uses. length uses.items ≡ count) }
    ensures none { IfOk result (λ uses. (own : ℕ) → AreLabelUses own [] uses.items) }
{
    let mut uses = Vec::with_capacity(alloc, count)?;
    for index in 0..count {
        uses.push(LabelUse { index, uses: 0 })?;
    }
    Ok(uses)
}

// Counts how often the codes use the labels, none of which was used before.
fn count_uses(own: usize, codes: &[Code], uses: &mut [LabelUse])
    requires { AreLabelUses own [] uses.old }
    ensures { AreLabelUses own codes.now uses.new }
{
    for code in codes {
        if let Some(index) = listed_index(own, uses.len(), *code) {
            uses[index].uses += 1;
        }
    }
}

// Puts those that are used more before the others, and equally used ones by their indices.
fn sort_by_use(uses: &mut [LabelUse])
    requires { (k : ℕ) (d : LabelUse) → k < length uses.old
        → (slice_index_or uses.old k d).index ≡ k }
    ensures permuted { IsPermutation uses.old uses.new }
    ensures ordered { AreInOrder uses.new }
{
    uses.sort_unstable_by_key(|one| (Reverse(one.uses), one.index));
}

// So many listed labels, those that the codes use more before the others.
fn order_by_use(
    alloc: Global,
    own: usize,
    count: usize,
    codes: &[Code],
) -> Result<Vec<LabelUse>, AllocError>
    ensures { IfOk result (λ order. IsOrderByUse own count codes.now order.items) }
{
    let mut order = unused(alloc, count)?;
    count_uses(own, codes, &mut order);
    sort_by_use(&mut order);
    Ok(order)
}

// The labels in this order.
fn labels_in_order(
    alloc: Global,
    labels: &[LabelId],
    order: &[LabelUse],
) -> Result<Vec<LabelId>, AllocError>
    requires { AreWithin order.now (length labels.now) }
    ensures { IfOk result (λ listed. AllZip (λ one id. slice_get labels.now one.index ≡ Some id)
        order.now listed.items) }
{
    let mut listed = Vec::with_capacity(alloc, order.len())?;
    for one in order {
        listed.push(labels[one.index])?;
    }
    Ok(listed)
}

// At which place each index stands in the order.
fn places_of(alloc: Global, order: &[LabelUse]) -> Result<Vec<usize>, AllocError>
    requires { AreWithin order.now (length order.now) }
    ensures long { IfOk result (λ places. length places.items ≡ length order.now) }
    ensures within { IfOk result (λ places. (i place : ℕ) → slice_get places.items i ≡ Some place
        → place < length order.now) }
    ensures placed { IfOk result (λ places. ArePlaces order.now places.items) }
{
    let mut places = vec![in alloc; 0usize; order.len()]?;
    for (place, one) in order.iter().enumerate() {
        places[one.index] = place;
    }
    Ok(places)
}

// The code for what this one stands for, where the listed labels are at these places.
fn renumbered(own: usize, places: &[usize], code: Code) -> Code
    requires { (i place : ℕ) → slice_get places.now i ≡ Some place
        → own + place + 1 < largest }
    ensures { IsRenumbered own places.now code result }
{
    match listed_index(own, places.len(), code) {
        Some(index) => Code::Number((own + places[index] + 1) as u32),
        None => code,
    }
}

// Puts those codes in the place of the codes.
fn renumber(own: usize, places: &[usize], codes: &mut [Code])
    requires { (i place : ℕ) → slice_get places.now i ≡ Some place
        → own + place + 1 < largest }
    ensures { AllZip (IsRenumbered own places.now) codes.old codes.new }
{
    for code in codes.iter_mut() {
        *code = renumbered(own, places, *code);
    }
}

// The labels by use, and codes that say with them what these codes say, where so many hypotheses
// are before the list.
fn list_by_use(alloc: Global, own: usize, packed: Packed) -> Result<Packed, AllocError>
    requires { own + length packed.labels.items < largest }
    ensures listed { IfOk result (λ small. AreListedByUse own packed.labels.items
        packed.codes.items small.labels.items small.codes.items) }
    ensures many { IfOk result (λ small. length small.codes.items ≡ length packed.codes.items) }
    ensures spelled { IfOk result (λ small. All HasSpelling packed.codes.items
        → All HasSpelling small.codes.items) }
    ensures exact { IfOk result (λ small. All IsExact packed.codes.items
        → All IsExact small.codes.items) }
{
    let Packed { labels, mut codes } = packed;
    let order = order_by_use(alloc, own, labels.len(), &codes)?;
    let listed = labels_in_order(alloc, &labels, &order)?;
    let places = places_of(alloc, &order)?;
    renumber(own, &places, &mut codes);
    Ok(Packed {
        labels: listed,
        codes,
    })
}

// Of two proofs with their labels by use the one that has fewer letters, or else the first.
fn fewer_letters(full: Packed, chosen: Packed) -> Packed
    requires full { length full.codes.items ≤ 4 * most_bytes }
    requires chosen { length chosen.codes.items ≤ 4 * most_bytes }
    ensures { ((result ≡ chosen)
        × (letters_in chosen.codes.items < letters_in full.codes.items))
        ⊎ ((result ≡ full) × (letters_in full.codes.items ≤ letters_in chosen.codes.items)) }
{
    if letter_count(&chosen.codes) < letter_count(&full.codes) {
        chosen
    } else {
        full
    }
}

/// A small proof.
#[derive(Drop)]
pub struct SmallProof {
    /// Its listed labels and its codes.
    pub packed: Packed,
    /// How many steps the fully shared proof of the same tree has.
    pub steps: usize,
}

/// The small proof of the tree that the steps of the `$p` with this number make. Its labels are
/// listed by how often they are used. It tags each subtree of three or more nodes where it is used
/// again, or each of two or more, whichever has fewer letters. The steps are handed in where they
/// make one tree: so does a whole proof that `verify` accepts. The proof's own tree is never
/// written out.
///
/// # Errors
///
/// Only where a growth was refused.
pub fn compress_small(
    alloc: Global,
    book: &Book,
    id: LabelId,
    steps: &Steps,
) -> Result<SmallProof, AllocError>
    requires steps { AreSteps book.now.statements id.0 steps.now.moves }
    requires whole { steps.now.prefix ≡ false }
    requires makes { OfMoves book.now.statements id.0 steps.now.moves
        (λ index s moves. MakeOneTree (take index book.now.statements) moves) }
    // The labels and the codes are the small proof of the tree that the steps make.
    ensures small { IfOk result (λ small. OfMoves book.now.statements id.0 steps.now.moves
        (λ index s moves. OfTree (take index book.now.statements) moves
        (λ t. AreSmall book.now.statements index s t small.packed.labels.items
        small.packed.codes.items))) }

    // The steps are those of the fully shared proof of this tree.
    ensures steps { IfOk result (λ small. OfMoves book.now.statements id.0 steps.now.moves
        (λ index s moves. OfTree (take index book.now.statements) moves
        (λ t. HasSteps (take index book.now.statements) s t small.steps))) }

    // Each code can be written in letters, and each number stands for itself alone.
    ensures spelled { IfOk result (λ small. All HasSpelling small.packed.codes.items) }
    ensures exact { IfOk result (λ small. All IsExact small.packed.codes.items) }
{
    let own = book.frame(id).hypotheses().len();
    let both = compress_both(alloc, book, id, steps)?;
    let steps = both.steps;
    let full = list_by_use(alloc, own, both.full)?;
    let chosen = list_by_use(alloc, own, both.chosen)?;
    Ok(SmallProof {
        packed: fewer_letters(full, chosen),
        steps,
    })
}
