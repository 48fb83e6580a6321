//! The verdict over a database, and the database in which nothing is at fault.
//! It answers `check_with`, whose contract is the headline, and `all_faults`; a `Checked` is what
//! the questions of the crates above are asked of. It stands on `mm_rules`. Begin with `verdict`,
//! then `checked`; the proof that there is one verdict is in `proofs/Verdicts/OneVerdict.antt`.
#![tactic(auto)]

mod bare;
mod checked;
mod faults;
mod form;
mod question;
mod reply;
pub mod reread;
mod taking;
mod text;
mod theorem;
mod theorems;
mod verdict;
mod watch;

pub use bare::proof_tokens;
pub use checked::Checked;
pub use faults::{AllFaults, all_faults};
pub use form::Form;
pub use question::{Command, LoneQuestion, Question, Telling, WholeQuestion};
pub use reply::{
    Reply, accepted_reply, ask_reply, conclusion_status, fault_reply, first_status, push_label,
    push_labels, push_refusal, push_refusals, refusal_status, refused_text, text_status,
    verdict_reply,
};
pub use reread::has_label;
pub use taking::{take, take_next};
pub use text::{HandedTokens, Unhanded, handed_tokens, is_space, tokens_of};
pub use theorem::{Theorem, read_theorem};
pub use theorems::Rereading;
pub use verdict::{beginning, check, check_with, conclude, judge_files, load, make_room, next};
pub use watch::{SoFar, Unwatched, Watch};
