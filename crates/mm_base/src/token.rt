//! Tokens and where they stand.

/// A token: a longest run of bytes of one file that aren't white space (the Metamath book,
/// section 4.1.1).
#[derive(Clone, Copy, Debug)]
pub struct Token<'a> {
    /// The slice of the file that begins at `at`.
    pub text: &'a [u8],
    /// The number of the handed file, from 0.
    pub file: usize,
    /// The position of the token's first byte in its file, from 0.
    pub at: u32,
}
