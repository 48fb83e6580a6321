//! The reader: the files of a Metamath database, cut into tokens and statements.
//! It answers `Statements::read`, one statement after the other, or the text's first fault, by rule
//! and place; `pass_all`, which hands all of them over; and what comments say of a statement, and
//! the bytes of files without their comments; and `shown_tokens`, of one text alone.
//! It stands on `mm_base` alone; of the crates of proofs none stands on it. Begin with
//! `statements`, and with `specs/Reading.antt`, which says what is read.
#![tactic(auto)]

mod class;
mod comments;
mod counted;
mod cursor;
mod fault;
mod handed;
mod included;
mod laws;
mod load;
mod names;
mod nest;
mod next;
mod parts;
mod passing;
mod remarks;
mod scan;
mod scope;
mod shown;
mod sought;
mod statements;
mod stripped;

pub use comments::Wrong;
pub use counted::{Counted, Source, WriteFault};
pub use fault::{LoadRule, TextFault, TextRule};
pub use handed::BYTE_LIMIT;
pub use included::left_out;
pub use laws::{
    alike_files_are_read_alike, alike_files_leave_out_the_same, beginnings_begin_statements,
    faults_end_longest_prefixes, inclusions_end, one_reading, proof_spans_follow,
    proofs_stand_in_spans, replaced_proofs_are_read,
};
pub use load::{LoadFault, StrippedBytes, read_all, read_stripped};
pub use passing::{Passing, pass_all, pass_first, pass_next};
pub use remarks::{comment_before, headings_between, mathbox_at, says_before};
pub use shown::{ShownTokens, shown_tokens};
pub use statements::Statements;
