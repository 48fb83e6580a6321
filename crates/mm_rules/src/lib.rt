//! The rules by name and by code, the judgement of one statement, and the words of replies.
//! It answers which rule a statement breaks (`judge`), and keeps what each proof uses (`kept`). It
//! stands on `mm_text` and `mm_proof`. What is at fault is given by a `Refusal`, with its place.
//! Begin with `rule` and `judge`; what a verdict is stands in `specs/Verdict.antt`.
#![tactic(auto)]

mod ask;
mod fault;
pub mod judge;
mod kept;
mod meanings;
mod position;
mod progress;
mod rule;
mod size;
mod status;
mod symbols;
mod visitor;
mod words;

pub use ask::AskFault;
pub use fault::{CheckFault, Refusal, Stop};
pub use judge::{Judged, refusal};
pub use kept::{Kept, is_among};
pub use meanings::meaning;
pub use position::{
    LineCount, Place, bytes_before, bytes_from, bytes_of, line_of, name_of, place_of, push_place,
};
pub use progress::Progress;
pub use rule::{AskRule, Rule};
pub use size::size_of;
pub use status::Status;
pub use symbols::push_symbols;
pub use visitor::{Nobody, Visitor};
pub use words::{push_decimal, push_number, push_word};
