//! What a reader gives and all crates above it take: files, tokens, statements, the seed of hashes.
//! It answers nothing by itself. It stands on no other crate, so that the meaning of statements
//! doesn't stand on how they are read. Begin with `statement`; what its fields mean is in
//! `specs/Statement.antt`.
#![tactic(auto)]

mod file;
mod seed;
mod statement;
mod token;

pub use file::File;
pub use seed::Seed;
pub use statement::{Kind, Statement};
pub use token::Token;
