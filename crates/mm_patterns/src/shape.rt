//! What an assertion says, as terms, and where it stands.

use mm_frame::Sym;

/// Where an assertion stands, and whether lemmas may be made of it.
#[derive(Clone, Copy, PartialEq, Eq, Debug)]
pub struct Standing {
    /// Whether proofs may newly use it.
    pub is_usable: bool,
    /// The number of the statement outside of all blocks that it is, or of the outermost block in
    /// which it stands: rising, from first to last. A lemma stands before one of these.
    pub block: u32,
    /// The number of its mathbox, from 1 on; 0 outside of all.
    pub mathbox: u32,
}

/// What an assertion says, over variables of its own: they are its mandatory variables, numbered by
/// the order of their `$f`.
#[derive(Drop)]
pub struct Shape {
    /// The type codes of its variables.
    pub variables: Vec<Sym>,
    /// The terms of its `$e`, in order, without their type codes.
    pub essentials: Vec<u32>,
    /// The term that it concludes, without its type code.
    pub conclusion: u32,
    /// Its mandatory distinct pairs, by the numbers of its variables.
    pub pairs: Vec<(u32, u32)>,
    /// The number of the first block before which what is made of it may stand.
    pub from: u32,
    /// The number of its mathbox; 0 outside of all.
    pub mathbox: u32,
}
