//! A search for shorter proofs, of which nothing is promised.

ghost use Rattle.std.specs.Prelude.{◌≡◌, false, OnOk};
ghost use Rattle.mm_step.specs.Steps.{AreSteps};
ghost use Rattle.mm_verdict.specs.Mirror.Theorems.{AreProvedSteps};

use mm_frame::{Book, LabelId};
use mm_proof::Steps;
use std::alloc::{AllocError, Global};

/// The size of the small proof of a theorem.
#[derive(Clone, Copy, Debug)]
pub struct OwnSize {
    /// How many letters it has.
    pub letters: usize,
    /// How many steps it has where it is fully shared.
    pub steps: usize,
}

/// A search for shorter proofs. What it gives is judged as any proof is, so nothing is asked of it.
pub trait Search {
    /// No growth that the search asked for was refused.
    ghost is_whole: { Self → Type 0 };

    /// A text that may be a shorter proof of the `$p` with this number than these steps are; none
    /// where no such text is found. The steps are those of its complete proof, and the size is that
    /// of its small one.
    ///
    /// # Errors
    ///
    /// Where a growth was refused.
    fn candidate(
        &mut self,
        alloc: Global,
        book: &Book,
        id: LabelId,
        steps: &Steps,
        size: OwnSize,
    ) -> Result<Option<Vec<u8>>, AllocError>
        requires steps { AreSteps book.now.statements id.0 steps.now.moves }
        requires proved { AreProvedSteps book.now.statements id.0 steps.now }
        requires whole { steps.now.prefix ≡ false }
        ensures { is_whole self.old → OnOk result (is_whole self.new) };
}
