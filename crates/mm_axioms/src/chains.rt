//! Why a theorem depends on an assertion: chains of uses from the one to the other.

ghost use Rattle.std.specs.Prelude.{◌≡◌, ◌≢◌, ◌↔◌, ◌⊎◌, ◌∷◌, ◌<◌, ◌≤◌, ◌+◌, ℕ, List, map, length};
ghost use Rattle.std.specs.Prelude.{Contains, IfOk, IfSome, IsTrue, Some, None};
ghost use Rattle.mm_frame.specs.declared.number.LabelId.{LabelId};
ghost use Rattle.mm_rules.specs.Conclusion.{numbers_of};
ghost use Rattle.mm_rules.specs.Rests.{AreRising, RestsOn};
ghost use Rattle.mm_rules.specs.Mirror.Marks.{UsedIn, AreBackward};
ghost use Rattle.mm_axioms.specs.Chains.{IsFirstChain};
ghost use Rattle.mm_axioms.specs.Mirror.Chains.{size_at, IsSizeOver, AreSizes};

use crate::users::end_of;
use mm_frame::LabelId;
use mm_rules::{AskFault, Kept};
use std::alloc::{AllocError, Global};

/// Why there is no chain of uses from a theorem to an assertion. They are judged in this order.
#[derive(Clone, Copy, PartialEq, Eq, Debug)]
pub enum ChainFault {
    /// Nothing can be asked of the theorem's label, for this, which isn't `Memory`.
    Theorem(AskFault),
    /// Nothing can be asked of the assertion's label, for this, which isn't `Memory`.
    Assertion(AskFault),
    /// The theorem doesn't depend on the assertion.
    Independent,
    /// A growth was refused.
    Memory,
}

impl From<AllocError> for ChainFault {
    ghost use Rattle.mm_axioms.specs.declared.chains.ChainFault.TheVariants.{Memory};

    ghost from_gives = { λ _ e. e ≡ Memory };

    fn from(_e: AllocError) -> ChainFault {
        ChainFault::Memory
    }
}

/// How many labels a shortest chain from a number has; 0 where none leads from it.
fn size_of(sizes: &[usize], id: LabelId) -> usize
    ensures { result ≡ size_at sizes.now id.0 }
{
    match sizes.get(id.0 as usize) {
        Some(size) => *size,
        None => 0,
    }
}

/// Whether a size is that of a chain, and less than another one, 0 standing for none.
fn is_less(size: usize, other: usize) -> bool
    ensures { IsTrue result ↔ ((0 < size) × ((other ≡ 0) ⊎ (size < other))) }
{
    size != 0 && (other == 0 || size < other)
}

/// The least size of these numbers; 0 where no chain leads from any of them.
fn least_size(sizes: &[usize], numbers: &[LabelId]) -> usize
    ensures least { (n : ℕ) → Contains (map (λ id. id.0) numbers.now) n → 0 < size_at sizes.now n
        → (0 < result) × (result ≤ size_at sizes.now n) }
    ensures found { 0 < result → (n : ℕ) × Contains (map (λ id. id.0) numbers.now) n
        × (result ≡ size_at sizes.now n) }
{
    let mut least = 0;
    for number in numbers {
        let size = size_of(sizes, *number);
        if is_less(size, least) {
            least = size;
        }
    }
    least
}

/// How many labels a shortest chain has that begins with a proof which uses these; 0 where none
/// leads from any of them.
fn size_over(sizes: &[usize], numbers: &[LabelId]) -> usize
    requires { (n : ℕ) → Contains (map (λ id. id.0) numbers.now) n
        → size_at sizes.now n < usize.MAX }
    ensures { IsSizeOver sizes.now (map (λ id. id.0) numbers.now) result }
{
    match least_size(sizes, numbers) {
        0 => 0,
        least => least + 1,
    }
}

/// How many labels a shortest chain to an assertion has, from each number on.
///
/// Each proof uses earlier assertions alone. So the sizes of all that it uses are settled when its
/// turn comes.
fn sizes_to(alloc: Global, kept: &Kept, to: LabelId) -> Result<Vec<usize>, AllocError>
    requires { AreBackward kept.now }
    ensures { IfOk result (λ sizes. AreSizes kept.now to.0 sizes.items) }
{
    let room = end_of(kept).max(to.0 as usize + 1);
    let mut sizes = vec![in alloc; 0; room]?;
    sizes[to.0 as usize] = 1;
    for at in 0..kept.len() {
        let theorem = kept.proof(at);
        if theorem.0 != to.0 {
            let size = size_over(&sizes, kept.used(at));
            sizes[theorem.0 as usize] = size;
        }
    }
    Ok(sizes)
}

/// The earlier of a number and the one that was found, if there is one.
fn earlier(found: Option<LabelId>, id: LabelId) -> LabelId
    ensures either { (result ≡ id) ⊎ (found ≡ Some result) }
    ensures least { result.0 ≤ id.0 }
    ensures no_later { IfSome found (λ other. result.0 ≤ other.0) }
{
    match found {
        Some(other) if other.0 < id.0 => other,
        _ => id,
    }
}

/// The one of these numbers with a size that comes first in the database.
fn first_of_size(sizes: &[usize], numbers: &[LabelId], size: usize) -> Option<LabelId>
    ensures found { IfSome result (λ id. Contains (map (λ l. l.0) numbers.now) id.0
        × (size_at sizes.now id.0 ≡ size)) }
    ensures first { (n : ℕ) → Contains (map (λ l. l.0) numbers.now) n
        → size_at sizes.now n ≡ size → (id : LabelId) × (result ≡ Some id) × (id.0 ≤ n) }
{
    let mut first = None;
    for number in numbers {
        let own = size_of(sizes, *number);
        if own == size {
            first = Some(earlier(first, *number));
        }
    }
    first
}

/// The first of the shortest chains from a number to an assertion. There is one.
fn walk(
    alloc: Global,
    kept: &Kept,
    sizes: &[usize],
    from: LabelId,
    to: LabelId,
) -> Result<Vec<LabelId>, AllocError>
    requires rising { AreRising (numbers_of kept.now) }
    requires sizes { AreSizes kept.now to.0 sizes.now }
    requires reached { 0 < size_at sizes.now from.0 }
    ensures { IfOk result (λ chain. (others : List ℕ)
        × (map (λ id. id.0) chain.items ≡ from.0 ∷ others)
        × IsFirstChain (UsedIn kept.now) from.0 to.0 others) }
{
    let mut chain = Vec::new(alloc);
    chain.push(from)?;
    let mut last = from;
    while last.0 != to.0 {
        let size = size_of(sizes, last);
        let Some(next) = first_of_size(sizes, kept.used_by(last), size - 1) else {
            // A number with a size, other than the end, uses one whose size is one less.
            unreachable!()
        };
        chain.push(next)?;
        last = next;
    }
    Ok(chain)
}

/// The first of the shortest chains of uses from one number to another; none where no chain leads
/// there.
pub(crate) fn chain_between(
    alloc: Global,
    kept: &Kept,
    from: LabelId,
    to: LabelId,
) -> Result<Option<Vec<LabelId>>, AllocError>
    requires { AreBackward kept.now }
    ensures some { IfOk result (λ found. IfSome found (λ chain. (others : List ℕ)
        × (map (λ id. id.0) chain.items ≡ from.0 ∷ others)
        × IsFirstChain (UsedIn kept.now) from.0 to.0 others)) }
    ensures none { IfOk result (λ found. found ≡ None
        → (from.0 ≢ to.0) × ¬ (RestsOn (UsedIn kept.now) from.0 to.0)) }
{
    let sizes = sizes_to(alloc, kept, to)?;
    if size_of(&sizes, from) == 0 {
        return Ok(None);
    }
    let chain = walk(alloc, kept, &sizes, from, to)?;
    Ok(Some(chain))
}
