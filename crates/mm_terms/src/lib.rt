//! The statements of a library as terms: parsed by its syntax axioms, replaced, unified.
//! It answers the term of a statement, and what two terms become where they are made one. None of it
//! is trusted: it is proved that each call ends, that it puts nothing back into a budget, and that
//! indices, arithmetic and memory are safe. It stands on `mm_frame`. Begin with `terms`, then
//! `grammar` and `parsing`.
#![tactic(auto)]

mod budget;
mod grammar;
mod leaves;
mod listed;
mod parsing;
mod replacing;
mod rows;
mod terms;
mod unify;

pub use budget::Budget;
pub use grammar::{Grammar, Rule, Token, code_of, tokens_of, variables_of};
pub use leaves::Leaves;
pub use listed::Listed;
pub use parsing::{all_of, parse};
pub use replacing::Replacing;
pub use rows::{Rows, next_number};
pub use terms::{Head, Terms, Variable};
pub use unify::Unifier;
