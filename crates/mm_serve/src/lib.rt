//! What the program does with its words: it reads files, has them answered, and writes the reply.
//! It answers `start`, by what a folder holds and what devices take, whichever of them fails. It
//! stands on the crates that make replies, of which `mm_check` makes most, and on `mm_words` and
//! `mm_help`. Begin with `serve`, then `files`, `notes` and `progress_line`; how a command ends is
//! defined in `specs/Ending.antt`, and what a folder may hold in `specs/Folder.antt`.
#![tactic(auto)]

mod answer;
mod files;
mod folder;
mod hint;
mod label_note;
mod noted;
mod notes;
mod progress_line;
mod say;
mod search_note;
mod serve;
mod unread;
mod versions;

pub use answer::Answer;
pub use folder::{Folder, Host, HostFile, Resources};
pub use progress_line::ProgressLine;
pub use serve::{run_over, serve_words, start};
