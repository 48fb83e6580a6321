//! What theorems depend on, and what depends on them.
//! It answers `axioms` of one theorem and of all, `direct_users`, `all_users` and `chain`, from the
//! assertions that each complete proof uses, as the verdict keeps them (`mm_step` finds them, in
//! `used`); and where other proofs are at fault `accepted_users`. It stands on `mm_verdict` alone.
//! Begin with `asked_axioms`, then `report` and `rows`, `users` or `chains`, and `accepted_uses`.
//! What a theorem rests on is defined in `specs/Rests.antt` of `mm_rules`, who its users are in
//! `specs/Users.antt`, by accepted proofs in `specs/Accepted.antt`, why it depends on it in
//! `specs/Chains.antt`.
#![tactic(auto)]

mod accepted;
mod accepted_uses;
mod all_axioms;
mod asked_axioms;
mod bits;
mod chains;
mod essential;
mod report;
mod rows;
mod scratch;
mod users;

pub use accepted::accepted_users;
pub use all_axioms::{all_axioms_text, push_marked};
pub use asked_axioms::{
    all_users, axioms, axioms_at, chain, direct_users, essential_axioms, tables, unproved_at,
};
pub use bits::index_of;
pub use chains::ChainFault;
pub use report::{Report, Tables, is_founded, is_marked};
