//! One step of a proof by an assertion (the Metamath book, section 4.1.4 and appendix B).

ghost use Rattle.std.specs.Prelude.{◌≡◌, ◌↔◌, ℕ, ◌+◌, ◌<◌, ◌^◌, List, length, drop};
ghost use Rattle.std.specs.Prelude.{slice_get, Bool, Some};
ghost use Rattle.std.specs.Prelude.{IsTrue, MatchBool, MatchOption};
ghost use Rattle.std.specs.List.{AllByRecursion};
ghost use Rattle.mm_frame.specs.Sentence.{Sentence};
ghost use Rattle.mm_frame.specs.FrameIndex.{IsTypingOf, HaveTypings};
ghost use Rattle.mm_frame.specs.Pieces.{variables_of, HavePatterns};
ghost use Rattle.mm_step.specs.Substitution.{Substitution};
ghost use Rattle.mm_step.specs.Stores.{numbers_in, all_said_by, IsWithinIndices};
ghost use Rattle.mm_step.specs.Plain.{label_ids};
ghost use Rattle.mm_step.specs.Mirror.CodeVerify.{AreHypothesesOf, EachIsSome};
ghost use Rattle.mm_step.specs.Mirror.CodeVerify.{AreBelow, names_at, all_names_at, IsRightCode};
ghost use Rattle.mm_step.specs.Mirror.CodeVerify.{IsWrongCode, IsEqual, IsUnequal, EachEntry};
ghost use Rattle.mm_step.specs.Mirror.CodeVerify.{Replaces};
ghost use Rattle.mm_step.specs.Proof.{SomePair};

use crate::store::Store;
use crate::substitution::is_said;
use mm_frame::{Book, Hypothesis, ShortPiece, Signature, Sym, one_number};

// Whether the expression begins with the symbol.
fn begins_with(expression: &[Sym], symbol: Sym) -> bool
    ensures { IsTrue result ↔ (slice_get (numbers_in expression.now) 0 ≡ Some symbol.0) }
{
    match expression {
        [first, ..] => first.0 == symbol.0,
        [] => false,
    }
}

// Whether the entry begins with the type code of the hypothesis, if it is a `$f`.
fn is_typed(hypothesis: &Hypothesis, entry: &[Sym]) -> bool
    ensures { (statements : List Sentence) (h : Sentence)
        → IsTypingOf statements hypothesis.now.typing h
        → AreBelow statements (numbers_in entry.now) → MatchBool
        result
        (IsRightCode h (names_at statements (numbers_in entry.now)))
        (IsWrongCode h (names_at statements (numbers_in entry.now))) }
{
    one_number();
    match hypothesis.typing {
        Some((code, _)) => begins_with(entry, code),
        None => true,
    }
}

/// Whether all hypotheses are `$f`, where the entry of each `$f` begins with its type code; nothing
/// where some entry doesn't.
pub fn typing_of<S: Store>(store: &S, base: usize, hypotheses: &[Hypothesis]) -> Option<bool>
    requires entries { base + length hypotheses.now ≡ length (S.stack store.now) }
    requires fits { length (S.stack store.now) < 2 ^ 64 }
    ensures codes { (statements : List Sentence) → HaveTypings statements hypotheses.now
        → AllByRecursion (AreBelow statements) (drop base (S.stack store.now))
        → (hs : List Sentence) → AreHypothesesOf statements (label_ids hypotheses.now) hs
        → MatchOption
        result
        (SomePair hs (all_names_at statements (drop base (S.stack store.now))) IsWrongCode)
        (λ floating.
        EachEntry hs (all_names_at statements (drop base (S.stack store.now))) IsRightCode) }
    ensures floating { (floating : Bool) → result ≡ Some floating → IsTrue floating
        → EachIsSome (variables_of hypotheses.now) }
{
    let mut floating = true;
    for (index, hypothesis) in hypotheses.iter().enumerate() {
        if !is_typed(hypothesis, store.at(base + index)) {
            return None;
        }
        floating = floating && hypothesis.typing.is_some();
    }
    Some(floating)
}

// Does as `is_said_at`, piece after piece. It is a call, since it is rare.
#[cold]
#[inline(never)]
fn is_said_by_pieces<S: Store>(store: &S, base: usize, pieces: &[ShortPiece], index: usize) -> bool
    requires index { index < length (S.stack store.now) }
    requires within { AllByRecursion (IsWithinIndices (length (drop base (S.stack store.now))))
        pieces.now }
    requires fits { length (S.stack store.now) < 2 ^ 64 }
    ensures { (e : List ℕ) → slice_get (S.stack store.now) index ≡ Some e
        → (IsTrue result ↔ (e ≡ all_said_by (drop base (S.stack store.now)) pieces.now)) }
{
    is_said(store, base, pieces, store.at(index))
}

// Whether the entry at an index is what the pieces say of the entries from the base on.
#[inline(always)]
fn is_said_at<S: Store>(store: &mut S, base: usize, pieces: &[ShortPiece], index: usize) -> bool
    requires index { index < length (S.stack store.old) }
    requires within { AllByRecursion (IsWithinIndices (length (drop base (S.stack store.old))))
        pieces.now }
    requires fits { length (S.stack store.old) < 2 ^ 64 }
    ensures said { (e : List ℕ) → slice_get (S.stack store.old) index ≡ Some e
        → (IsTrue result ↔ (e ≡ all_said_by (drop base (S.stack store.old)) pieces.now)) }
    ensures stack { S.stack store.new ≡ S.stack store.old }
    ensures kept { S.kept store.new ≡ S.kept store.old }
{
    match store.is_said_there(base, pieces, index) {
        Some(is_there) => is_there,
        None => is_said_by_pieces(store, base, pieces, index),
    }
}

/// Whether each `$e`, with each variable replaced, is its entry. It is told whether all hypotheses
/// are `$f`, so that then nothing is asked.
#[inline(always)]
pub fn are_equal<S: Store>(
    store: &mut S,
    base: usize,
    book: &Book,
    signature: &Signature,
    floating: bool,
) -> bool
    requires typed { HaveTypings book.now.statements signature.now.hypotheses.now }
    requires patterns { HavePatterns book.now.statements (variables_of signature.now.hypotheses.now)
        signature.now.pieces.now signature.now.hypotheses.now }
    requires entries { base + length signature.now.hypotheses.now ≡ length (S.stack store.old) }
    requires fits { length (S.stack store.old) < 2 ^ 64 }
    requires floating { IsTrue floating → EachIsSome (variables_of signature.now.hypotheses.now) }
    requires below { AllByRecursion (AreBelow book.now.statements) (drop base (S.stack store.old)) }
    ensures equal { (σ : Substitution)
        → Replaces book.now.statements σ (variables_of signature.now.hypotheses.now)
        (drop base (S.stack store.old))
        → (hs : List Sentence)
        → AreHypothesesOf book.now.statements (label_ids signature.now.hypotheses.now) hs
        → MatchBool result
        (EachEntry hs (all_names_at book.now.statements (drop base (S.stack store.old)))
        (IsEqual σ))
        (SomePair hs (all_names_at book.now.statements (drop base (S.stack store.old)))
        (IsUnequal σ)) }
    ensures stack { S.stack store.new ≡ S.stack store.old }
    ensures kept { S.kept store.new ≡ S.kept store.old }
{
    one_number();
    if floating {
        return true;
    }
    for (index, hypothesis) in signature.hypotheses.iter().enumerate() {
        if hypothesis.typing.is_none()
            && !is_said_at(store, base, signature.pattern(hypothesis), base + index)
        {
            return false;
        }
    }
    true
}
