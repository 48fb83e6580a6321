//! The tests of the crates above `mm_shorten` but the program: the acceptance cases, as tests of
//! `mm_check::run` over a writer in memory, and one path of each public call (`calls`).
//!
//! An acceptance case is a small database with the reply that the rules of the language demand. It
//! was written down from those rules and from the documents, and not taken from what the program
//! prints.
#![tactic(auto)]

#[cfg(test)]
mod answers;
#[cfg(test)]
mod calls;
#[cfg(test)]
mod compressed;
#[cfg(test)]
mod damaged;
#[cfg(test)]
mod examples;
#[cfg(test)]
mod faults;
#[cfg(test)]
mod files;
#[cfg(test)]
mod finding;
#[cfg(test)]
mod form_lines;
#[cfg(test)]
mod forms;
#[cfg(test)]
mod incomplete;
#[cfg(test)]
mod known;
#[cfg(test)]
mod letters;
#[cfg(test)]
mod lone;
#[cfg(test)]
mod names;
#[cfg(test)]
mod one_file;
#[cfg(test)]
mod orders;
#[cfg(test)]
mod prefixes;
#[cfg(test)]
mod profiles;
#[cfg(test)]
mod proofs;
#[cfg(test)]
mod questions;
#[cfg(test)]
mod rules;
#[cfg(test)]
mod sameness;
#[cfg(test)]
mod saving;
#[cfg(test)]
mod saving_all;
#[cfg(test)]
mod scopes;
#[cfg(test)]
mod shortening;
#[cfg(test)]
mod statements;
#[cfg(test)]
mod tests;
#[cfg(test)]
mod users;
#[cfg(test)]
mod uses;
#[cfg(test)]
mod why;
#[cfg(test)]
mod why_groups;
#[cfg(test)]
mod why_hypotheses;
#[cfg(test)]
mod why_meaning;
#[cfg(test)]
mod why_source;
#[cfg(test)]
mod why_text;

/// A piece of a file: bytes, or bytes so many times one after the other.
#[cfg(test)]
pub(crate) enum Part {
    Text(&'static [u8]),
    Times(&'static [u8], u32),
}

/// A case: the files that are handed in, each a name and the pieces of its content; the reply; and
/// its status.
#[cfg(test)]
pub(crate) struct Case {
    pub(crate) name: &'static str,
    pub(crate) files: &'static [(&'static [u8], &'static [Part])],
    pub(crate) reply: &'static [u8],
    pub(crate) status: u8,
}

/// A case of a question about the proof of a theorem: the command; the files, each a name and the
/// pieces of its content, of which the last one holds the theorem; the pieces of the reply; and its
/// status.
#[cfg(test)]
pub(crate) struct Asked {
    pub(crate) name: &'static str,
    pub(crate) command: mm_check::Command<'static>,
    pub(crate) files: &'static [(&'static [u8], &'static [Part])],
    pub(crate) reply: &'static [Part],
    pub(crate) status: u8,
}
