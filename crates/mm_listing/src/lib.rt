//! The steps of a proof, listed: what each gives, which steps it uses, and where a faulty one
//! stops.
//! It answers `listing`, `lines_before`, `partial_lines_before`, `names_before`, `uses_of`,
//! `uses_before` and `halt_of`, each a run of the steps on a machine of its own.
//! It stands on `mm_proof`. Begin with `lines`; what a line tells is in `specs/Listing.antt`.
#![tactic(auto)]

mod halt;
mod halting;
mod lines;
mod origins;
mod uses;

pub use halt::{Entries, Halt, HaltAt};
pub use halting::halt_of;
pub use lines::{Line, Name, lines_before, listing, names_before, partial_lines_before};
pub use uses::{UsedSteps, uses_before, uses_of};
