//! Numbers that stand for symbols and labels.

/// A symbol, by its index among the declared symbols.
#[derive(Clone, Copy, PartialEq, Eq, PartialOrd, Ord, Debug)]
pub struct Sym(pub u32);

/// A label, by the index of its statement among the labelled statements.
#[derive(Clone, Copy, PartialEq, Eq, PartialOrd, Ord, Debug)]
pub struct LabelId(pub u32);

/// The kinds of statements that have labels.
#[derive(Clone, Copy, PartialEq, Eq, Debug)]
pub enum LabelKind {
    /// A `$f`.
    Floating,
    /// A `$e`.
    Essential,
    /// A `$a`.
    Axiom,
    /// A `$p`.
    Proof,
}
