//! The word that moves spell: its length, and its labels.

ghost use Rattle.std.specs.Prelude.{◌≡◌, ◌+◌, ◌<◌, ◌≤◌, ℕ, length, IfOk, IfErr};
ghost use Rattle.mm_step.specs.declared.fault.ExpandFault.TheVariants.{L2};
ghost use Rattle.mm_step.specs.Tree.{Trees, spelling};
ghost use Rattle.mm_forms.specs.Mirror.Words.{AreParts};

use crate::builder::Builder;
use mm_frame::LabelId;
use mm_step::ExpandFault;
use std::alloc::AllocError;

/// The part of a word that spells a tree.
#[derive(Clone, Copy)]
pub(crate) struct Part {
    pub start: usize,
    pub(crate) end: usize,
}

// Where the first of these parts begins, the last ones of a word that ends here.
fn start_of(parts: &[Part], end: usize) -> usize
    ensures { (start : ℕ) (row : Trees) → AreParts start parts.now row
        → end ≡ start + length (spelling row) → result ≡ start }
{
    match parts {
        [first, ..] => first.start,
        [] => end,
    }
}

// The sum, where it is within the most labels.
fn longer(count: usize, more: usize, max: usize) -> Result<usize, ExpandFault>
    ensures sum { IfOk result (λ sum. (sum ≡ count + more) × (sum ≤ max)) }
    ensures fault { IfErr result (λ fault. (fault ≡ L2) × (max < count + more)) }
{
    match count.checked_add(more) {
        Some(sum) if sum <= max => Ok(sum),
        _ => Err(ExpandFault::L2),
    }
}

/// How many labels a word has, and the most that it may have.
#[derive(Drop)]
pub(crate) struct Length {
    pub(crate) count: usize,
    pub(crate) max: usize,
}

/// The labels are counted.
impl Builder for Length {
    ghost use Rattle.std.proofs.Common.{subst};
    ghost use Rattle.mm_forms.specs.Mirror.Words.{IsLong, IsLengthOf};

    type Item = Part;

    type Fault = ExpandFault;

    ghost holds = { λ first now statements stack row shelf kept steps.
        IsLengthOf first now stack row shelf kept };

    ghost most = { λ first. first.max };

    ghost is_long = { IsLong };

    fn make(&mut self, _id: LabelId, below: &[Part]) -> Result<Part, ExpandFault> {
        let start = start_of(below, self.count);
        self.count = longer(self.count, 1, self.max)?;
        Ok(Part {
            start,
            end: self.count,
        })
    }

    fn repeat(&mut self, item: Part) -> Result<Part, ExpandFault> {
        let start = self.count;
        self.count = longer(start, item.end - item.start, self.max)?;
        Ok(Part {
            start,
            end: self.count,
        })
    }

    ghost memory = { λ e fault gives long. subst IsLong gives long };
}

/// The labels are written one behind the other.
impl Builder for Vec<LabelId> {
    ghost use Rattle.mm_forms.specs.Mirror.Words.{AreLabelsOfWord};

    type Item = Part;

    type Fault = AllocError;

    ghost holds = { λ first now statements stack row shelf kept steps.
        AreLabelsOfWord statements now.items stack row shelf kept };

    fn make(&mut self, id: LabelId, below: &[Part]) -> Result<Part, AllocError> {
        let start = start_of(below, self.len());
        self.push(id)?;
        Ok(Part {
            start,
            end: self.len(),
        })
    }

    fn repeat(&mut self, item: Part) -> Result<Part, AllocError> {
        let start = self.len();
        self.extend_from_within(item.start..item.end)?;
        Ok(Part {
            start,
            end: self.len(),
        })
    }

    ghost memory = { λ e fault gives long. long };
}
