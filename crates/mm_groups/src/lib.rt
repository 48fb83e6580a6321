//! What a group of faulty proofs shares: a hypothesis of their theorems, or a label that they name.
//! It answers the line that says so (`shared_line`), of proofs of which note was taken
//! (`Shared::note`). It stands on `mm_rules`. Begin with `shared`, then `line` and `rarest`; what is
//! shared is defined in `specs/Shared.antt`.
#![tactic(auto)]

mod common;
mod countdown;
mod essentials;
mod labels;
mod line;
mod rarest;
mod shared;

pub use line::shared_line;
pub use shared::Shared;
