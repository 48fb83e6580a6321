//! The sizes of proofs.

ghost use Rattle.std.specs.Prelude.{◌≡◌, ◌+◌, length, min};
ghost use Rattle.mm_minimize.specs.AllShorter.{most_sum};

use mm_render::OwnProof;

/// The sizes of proofs, of one or of several.
#[derive(Clone, Copy)]
pub struct Sizes {
    /// How many bytes their small texts have.
    pub bytes: usize,
    /// How many steps they have where they are fully shared.
    pub steps: usize,
}

impl Sizes {
    /// The sizes of a proof.
    pub(crate) fn of(proof: &OwnProof) -> Sizes
        ensures bytes { result.bytes ≡ length proof.now.text.items }
        ensures steps { result.steps ≡ proof.now.steps }
    {
        Sizes {
            bytes: proof.text.len(),
            steps: proof.steps,
        }
    }

    /// The sum of both.
    pub(crate) fn plus(self, other: Sizes) -> Sizes
        ensures bytes { result.bytes ≡ min most_sum (self.bytes + other.bytes) }
        ensures steps { result.steps ≡ min most_sum (self.steps + other.steps) }
    {
        Sizes {
            bytes: self.bytes.saturating_add(other.bytes),
            steps: self.steps.saturating_add(other.steps),
        }
    }
}
