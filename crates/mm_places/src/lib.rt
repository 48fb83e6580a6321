//! Where a proof that is at fault has its fault: the place of a step, of a label, of a letter.
//! It answers `move_place` for a fault of one step, `move_places` for all steps at once,
//! `letters_of_steps` for the letters of each step, and `whole_place` for a fault of the whole proof.
//! It stands on `mm_proof`; only explanations and listings ask it.
//! Begin with `places`.
#![tactic(auto)]

mod form_places;
mod letters;
mod place_table;
mod places;
mod whole_places;

pub use letters::{StepLetters, letters_of_steps};
pub use place_table::move_places;
pub use places::move_place;
pub use whole_places::whole_place;
