//! What a statement says.

ghost use Rattle.std.specs.Prelude.{◌≡◌, ◌↔◌, ℕ, IsTrue, MatchOption, List};
ghost use Rattle.mm_frame.specs.Sentence.{sentence_in, IsUse, IsStated, IsLabelled, Types};

use mm_base::{Kind, Statement};

// Whether statements of this kind state an expression.
pub(crate) fn is_stated(kind: Kind) -> bool
    ensures { IsTrue result ↔ IsStated kind }
{
    kind == Kind::Essential || kind == Kind::Axiom || kind == Kind::Provable
}

// Whether statements of this kind use symbols.
pub(crate) fn is_use(kind: Kind) -> bool
    ensures { IsTrue result ↔ IsUse kind }
{
    kind == Kind::Distinct || kind == Kind::Floating || is_stated(kind)
}

// The label of the statement.
pub(crate) fn label_of<'a>(statement: &Statement<'a>) -> Option<&'a [u8]>
    ensures { MatchOption
        result
        ((label : List ℕ) → ¬ (IsLabelled label (sentence_in statement.now)))
        (λ label. IsLabelled label.now (sentence_in statement.now)) }
{
    match &statement.label {
        Some(token) => Some(token.text),
        None => None,
    }
}

// The type code and the variable of a `$f`.
pub(crate) fn typing<'a>(statement: &Statement<'a>) -> Option<(&'a [u8], &'a [u8])>
    ensures { MatchOption
        result
        ((code x : List ℕ) → ¬ (Types code x (sentence_in statement.now)))
        (λ t. Types t.0.now t.1.now (sentence_in statement.now)) }
{
    match statement.symbols.as_slice() {
        [code, variable] if statement.kind == Kind::Floating => Some((code.text, variable.text)),
        _ => None,
    }
}
