//! One step of a proof: what it takes from a stack of expressions and what it gives, or its fault.
//! It answers whether an assertion may be applied (substitution, hypotheses, distinct variables,
//! the limits of a profile). It stands on `mm_frame` and `mm_code`. Begin with `step`, then
//! `apply`; P11 and P12 are judged in `pairs`. What a substitution is stands in
//! `specs/Substitution.antt`.
#![tactic(auto)]

mod apply;
mod buffer;
mod call;
mod call_table;
mod entry;
mod fault;
mod flat;
mod pairs;
mod profile;
mod rows;
mod said;
mod site;
mod step;
mod store;
mod substitution;
mod used;
mod variables;

pub use call::{Call, call_of, step_by};
pub use call_table::CallTable;
pub use fault::{ExpandFault, ProofFault, ProofRule};
pub use flat::Flat;
pub use pairs::{has_shared_pair, has_symbol};
pub use profile::Profile;
pub use rows::Rows;
pub use site::Site;
pub use step::{are_equal, typing_of};
pub use store::{Store, put_last};
pub use substitution::{after_first, is_same, value_at};
pub use used::{Named, Used, fill_called, is_assertion, unmark};
pub use variables::{entries_of_variables, variables_in};
