//! What is met as the files are read.

use crate::class::Class;
use mm_base::Token;

/// What is met next.
#[derive(Clone, Copy)]
pub enum Next<'a> {
    /// A token outside comments and inclusions, or the one at which the text is wrong.
    Token(Token<'a>, Class),
    /// A `$[`.
    Inclusion(Token<'a>),
    /// The end of the file with this number.
    End(usize),
    /// Nothing is left.
    Nothing,
}
