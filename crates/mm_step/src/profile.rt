//! How strictly proofs are judged.

ghost use Rattle.std.specs.Prelude.{◌≡◌};
ghost use Rattle.mm_step.specs.Profiles.{limit_of};

/// How strictly proofs are judged.
#[derive(Clone, Copy, PartialEq, Eq, Debug)]
pub enum Profile {
    /// A step pushes 16,777,216 symbols at most, the type code counted.
    Strict,
    /// A step pushes 1,048,576 symbols at most, the type code counted.
    Lenient,
}

impl Profile {
    /// The most symbols of an expression that a step pushes, the type code counted.
    pub fn limit(self) -> usize
        ensures { result ≡ limit_of self }
    {
        match self {
            Profile::Strict => 16_777_216,
            Profile::Lenient => 1_048_576,
        }
    }
}
