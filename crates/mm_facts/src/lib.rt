//! What is told of a faulty proof: what was asked at the step at fault, and what was found.
//! It answers `cause_of` and `push_cause`, which make what stands below the head of a message, for
//! P and L1. It stands on `mm_rules`, `mm_listing`, `mm_places` and `mm_distinct`, and not on the
//! verdict. Begin with `details`, which has the order of the facts; `types` has the types of P9,
//! `disjoint` the pairs of P11 and P12, `step_texts` how steps are told, `fact_lines` the words of
//! every fact, `fault_places` the places. What is reported is defined in `specs/Explained.antt`.
//! `lettered` lists the steps of any proof with their places and letters (`specs/Lettered.antt`).
#![tactic(auto)]

mod details;
mod disjoint;
mod fact_lines;
mod fault_places;
mod lettered;
mod listed;
mod named_halt;
mod step_texts;
mod token_position;
mod types;

pub use details::{Cause, cause_of, push_cause, push_left_over};
pub use fact_lines::{
    push_block, push_block_end, push_hypothesis_at, push_joined, push_met, push_missing_before,
    push_stated_at, push_token,
};
pub use fault_places::{fault_place, place_among};
pub use lettered::lettered_text;
pub use listed::listed_labels;
pub use named_halt::NamedHalt;
