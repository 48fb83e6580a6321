//! Statements and proofs as texts: listings, the forms of a proof, the bytes of a file with one
//! proof replaced.
//! It answers the questions `statement`, `show`, `normal`, `packed`, `small` and `same` of a
//! `Checked`. It stands on `mm_verdict`, `mm_forms` and `mm_listing`. Begin with `asked_texts`,
//! which has a function for each question; `forms` has the match over the forms, `beginning` the
//! text of a proof that is known in part, and `specs/Forms.antt` what the text of each is.
#![tactic(auto)]

mod asked_texts;
mod beginning;
mod comparison;
mod forms;
mod listing_lines;
mod rewrite;
mod save_fault;
mod shorter;
mod statement_lines;
mod uses_lines;

pub use asked_texts::{
    is_same_proof, normal_form, own_small_proof, packed_form, proof_listing, saved_file,
    small_form, small_span_text, statement_text, uses_listing,
};
pub use beginning::{beginning_text, unknown_text};
pub use forms::{OwnProof, own_proof, span_text};
pub use listing_lines::{lines_of, text_of};
pub use rewrite::{bytes_of, file_with_text, most_for};
pub use save_fault::SaveFault;
pub use shorter::{Handed, handed_proof};
pub use uses_lines::uses_text;
