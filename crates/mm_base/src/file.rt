//! The files that are handed in.

/// A file: the name under which it was handed in, and its bytes.
#[derive(Clone, Copy)]
pub struct File<'a> {
    pub name: &'a [u8],
    pub bytes: &'a [u8],
}
