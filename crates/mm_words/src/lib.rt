//! The words of a command line: what they ask for.
//! It answers `request_of`, by `clap`: the help, a rule, or a command over files, with what it
//! asks. It stands on `mm_verdict`, whose `Command` a request holds, and on nothing that answers
//! one. Begin with `request`, then `words` and `command_line`; what words there may be is defined in
//! `specs/CommandLine.antt`, what they ask for in `specs/Words.antt`, and which aren't understood in
//! `specs/RefusedWords.antt`.
#![tactic(auto)]

mod arguments;
mod axioms_request;
mod command_line;
mod diff_request;
mod find_request;
mod form_request;
mod lemma_file_request;
mod lemmas_request;
mod matches;
mod minimize_request;
mod numbers;
mod refused_words;
mod request;
mod show_request;
mod stop;
mod words;

pub use arguments::{ArgumentFault, Arguments, words_of};
pub use request::{
    AskedLemmas, AskedMend, AskedPatterns, AskedText, AskedVersions, Request, TextQuestion,
};
pub use stop::Stop;
pub use words::request_of;
