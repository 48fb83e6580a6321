//! What the program answers.

ghost use Rattle.std.specs.Prelude.{◌≡◌};
ghost use Rattle.mm_serve.specs.Answer.{outcome_of};

use mm_rules::Status;

/// What goes with the text of an answer, once that is written.
#[derive(Drop)]
pub struct Answer {
    /// The status with which the program ends.
    pub status: Status,
    /// What standard error is then told, where there is anything to tell.
    pub notes: Option<Vec<u8>>,
}

impl Answer {
    /// What standard error is told; nothing where there is nothing to tell.
    pub fn notes(&self) -> &[u8]
        ensures { result.now ≡ (outcome_of self.now).notes }
    {
        match &self.notes {
            Some(notes) => notes,
            None => &[],
        }
    }
}
