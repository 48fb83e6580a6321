//! The meaning of statements: names and scopes, the rules of meaning, and frames.
//! It answers whether a statement obeys the rules of meaning where it stands, what a name is there,
//! and the frame of an assertion. It stands on `mm_base` alone. Begin with `book`: `Book::take`
//! judges a statement and takes it in, the other methods answer. What a rule demands is in
//! `specs/Rules.antt`, what a frame is in `specs/Frame.antt`.
#![tactic(auto)]

mod answer;
mod book;
mod breaking;
mod broken;
mod distinct;
mod distinct_at;
mod frame;
mod framing;
mod further;
mod guesses;
mod hypothesis;
mod laws;
mod lists;
mod lookups;
mod name;
mod name_table;
mod noted;
mod number;
mod pairs;
mod part;
mod pattern;
mod piece;
mod reads;
mod room;
mod rule;
mod said;
mod scopes;
mod signature;
mod sought;
mod tables;
mod take_declared;
mod take_distinct;
mod take_labelled;
mod take_statement;
mod wide;

pub use answer::{Found, RuleFault, Taken};
pub use book::Book;
pub use distinct::DistinctPair;
pub use frame::Frame;
pub use guesses::Guesses;
pub use hypothesis::Hypothesis;
pub use laws::{one_frame, one_number, open_count};
pub use number::{LabelId, LabelKind, Sym};
pub use part::Part;
pub use piece::{Piece, ShortPiece};
pub use rule::MeaningRule;
pub use signature::{Signature, index_of};
