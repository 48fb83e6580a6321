//! Where the hashes of names begin.

ghost use Rattle.std.specs.Prelude.{◌≡◌};
ghost use Rattle.mm_base.specs.Seed.{known_number, seed_of};

use std::hash::{BuildHasher, FoldHasher, Hasher};

/// Where the hashes of names begin. Names that have one hash are found in turn, one after the
/// other; so who knows the seed can choose names that take long. No answer depends on it.
#[derive(Clone, Copy)]
pub struct Seed {
    begun: FoldHasher,
}

impl Seed {
    /// The seed with a number, such as one from the system's random source.
    pub fn new(number: u64) -> Seed
        ensures { result ≡ seed_of number }
    {
        let mut begun = FoldHasher::default();
        begun.write_u64(number);
        Seed { begun }
    }

    /// The seed that everybody knows, that of 0, for files of people who are trusted.
    pub fn known() -> Seed
        ensures { result ≡ seed_of known_number }
    {
        Seed::new(0)
    }
}

impl BuildHasher for Seed {
    type Hasher = FoldHasher;

    ghost build_hasher = { λ s. s.begun };

    fn build_hasher(&self) -> FoldHasher {
        self.begun
    }
}
