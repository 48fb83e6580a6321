//! The forms in which a theorem's proof is written anew.

/// A form in which a theorem's proof is written anew.
#[derive(Clone, Copy, PartialEq, Eq, Debug)]
pub enum Form {
    /// The normal proof: the labels that its tree spells.
    Normal,
    /// The packed proof: the one fully shared proof of its tree.
    Packed,
    /// The small proof: a compressed one with as few letters as its labels and steps allow.
    Small,
}
