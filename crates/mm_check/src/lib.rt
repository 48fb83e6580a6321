//! The commands and their replies: the front of the library.
//! It answers `run` and `reply_to`: files and a command in, the text and the status of the reply
//! out. It stands on all crates that answer questions: verdict, axioms, texts, explanations,
//! saving, shorter proofs, lemmas. Begin with `command`, then `accepted` and `question` (of databases
//! in which nothing is at fault), `users` (also where proofs are), `whole` (of all faults, and of all
//! proofs of a file), `alone` (of one theorem, whatever its proof) and `stated` (of one statement);
//! `told` has how steps are told.
//! What a reply is stands in `specs/Reply.antt`.
#![tactic(auto)]

mod accepted;
mod alike;
mod alone;
mod chain;
mod checked_prefix;
mod command;
mod known_normal;
mod question;
mod stated;
mod told;
mod users;
mod whole;

pub use alike::{alike_files_have_one_reply, own_proof_is_tried_alike};
pub use command::{RunFault, reply_to, run};
pub use mm_frame::LabelId;
pub use mm_verdict::{Command, LoneQuestion, Question, Telling, WholeQuestion};
