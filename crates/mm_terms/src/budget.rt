//! How much a search may cost.

ghost use Rattle.std.specs.Prelude.{◌≡◌, ◌-◌, ◌<◌, ◌↔◌, IsTrue};

use std::marker::Model;

/// How many steps a search may still take. A step is a piece of work that takes no longer than some
/// lookups: each loop of a search takes one or more whenever it goes round.
#[derive(Drop)]
pub struct Budget {
    left: u64,
}

impl Model for Budget {
    ghost use Rattle.std.specs.Prelude.{ℕ};

    ghost Value = { ℕ };

    ghost view = { λ b. b.left };
}

impl Budget {
    /// So many steps.
    pub fn new(steps: u64) -> Budget
        ensures { result ≡ steps }
    {
        Budget { left: steps }
    }

    /// How many steps are left.
    pub fn left(&self) -> u64
        ensures { result ≡ self.now }
    {
        self.left
    }

    /// Whether no step is left.
    pub fn is_used_up(&self) -> bool
        ensures { IsTrue result ↔ (self.now ≡ 0) }
    {
        self.left == 0
    }

    /// Takes so many steps, or as many as are left, and answers whether they were left.
    pub fn take(&mut self, steps: usize) -> bool
        ensures left { self.new ≡ self.old - steps }
        ensures were { IsTrue result ↔ (steps < self.old) }
    {
        let steps = steps as u64;
        let were_left = steps < self.left;
        self.left = self.left.saturating_sub(steps);
        were_left
    }
}
