//! The distinct variables that a step asks for, and the `$d` that its theorem lacks.
//! It answers what P11 and P12 have to tell: `shared_variables`, `asked_by`, `lacking_pairs`.
//! Whether a step passes is judged in `mm_step`, in `pairs`. It stands on `mm_proof`. Begin with
//! `lacking`; what is missing is defined in `specs/Lacking.antt`.
#![tactic(auto)]

mod asked;
mod in_order;
mod lacking;

pub use asked::{asked_by, missing_pairs, shared_variables};
pub use in_order::pairs_in_order;
pub use lacking::lacking_pairs;
