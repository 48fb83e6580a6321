//! Shorter proofs by what a library has. A proof is a graph: its conclusions are the nodes, and
//! each way to derive one is an edge. Further edges come from the library, and a small part of the
//! graph is chosen. None of it is trusted: what comes out is the text of a proof, for the checker
//! to judge.
//!
//! Of each public call is proved that it ends, and that indices, arithmetic and memory are safe; of
//! `Budget` what is left, and of `Library::add_edges` that it puts nothing back. Nothing is proved
//! of what the search finds: neither that the text is a proof, nor that it is smaller, nor what it
//! depends on.
#![tactic(auto)]

mod apart;
mod assertions;
mod budget;
mod choice;
mod choose;
mod chosen;
mod edges;
mod expressions;
mod goals;
mod graph;
mod improve;
mod join;
mod least;
mod lists;
mod matches;
mod missing;
mod order;
mod outline;
mod patterns;
mod price;
mod range;
mod rests;
mod room;
mod search;
mod shorten;
mod step_table;
mod symbols;
mod syntax;
mod trie;
mod walk;

pub use assertions::{Entry, Library, MOST_ESSENTIALS, MOST_VARIABLES};
pub use budget::Budget;
pub use choose::{Aim, CHOICE_STEPS, CHOICE_STEPS_EACH, choice_budget, choose_text};
pub use edges::Theorem;
pub use expressions::Expressions;
pub use goals::{Goal, goals_of};
pub use graph::{Edge, Graph, MOST_EDGES, Origin, Shared};
pub use join::{JOIN_FOUND, JOIN_STEPS};
pub use missing::{MOST_OPEN, MOST_WANTED, MOST_WANTED_SYMBOLS, OPEN_EACH};
pub use price::{BYTE, step_price};
pub use rests::Rests;
pub use room::MOST_HELD;
pub use search::{FIRST_SEARCH_STEPS, Reach, SEARCH_STEPS, SEARCH_STEPS_EACH, search_budget};
pub use shorten::Size;
pub use symbols::{MOST_SYMBOLS, has_few_symbols};
