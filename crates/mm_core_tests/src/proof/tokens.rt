//! Tokens that are handed in and stand in no file: one without bytes is no label.

ghost use Rattle.std.specs.Prelude.{◌≡◌, ◌≤◌, ℕ, length};
ghost use Rattle.std.specs.List.{sum_by};
ghost use Rattle.mm_base.specs.MostBytes.{most_bytes};
ghost use Rattle.mm_frame.specs.Sentence.{Sentence};
ghost use Rattle.mm_step.specs.Steps.{IsProofNumber};
ghost use Rattle.mm_step.specs.Plain.{token_texts};

use crate::proof::{SHARED, Theorem, first_theorem};
use mm_base::{File, Token};
use mm_proof::Steps;
use mm_step::{Profile, ProofFault, ProofRule};
use std::alloc::Global;
use std::test::Fail;

/// Whether the tokens, as a proof of the theorem, are refused for a label that isn't known.
fn have_unknown_label(alloc: Global, theorem: &Theorem, tokens: &[Token]) -> bool
    requires proof { (index : ℕ) × (s : Sentence)
        × IsProofNumber theorem.now.book.statements theorem.now.id.0 index s }
    requires room { sum_by length (token_texts tokens.now) ≤ most_bytes }
{
    let rule = ProofRule::P2;
    let parsed = Steps::parse(alloc, Profile::Lenient, &theorem.book, theorem.id, tokens);
    parsed.err() == Some(ProofFault::Rule { rule, step: 0 })
}

/// A token with this text, which stands nowhere.
pub(crate) fn token(text: &'static [u8]) -> Token<'static>
    ensures { result.text.now ≡ text.now }
{
    Token {
        text,
        file: 0,
        at: 0,
    }
}

/// Whether a token without bytes is no label: of a normal proof, of a list, and of a known prefix.
fn empty_is_no_label(alloc: Global, theorem: &Theorem) -> bool
    requires { (index : ℕ) × (s : Sentence)
        × IsProofNumber theorem.now.book.statements theorem.now.id.0 index s }
{
    let normal = [token(b"nil"), token(b"")];
    let listed = [token(b"("), token(b""), token(b")")];
    let known = [token(b""), token(b"?")];
    have_unknown_label(alloc, theorem, &normal)
        && have_unknown_label(alloc, theorem, &listed)
        && have_unknown_label(alloc, theorem, &known)
}

#[test]
fn token_without_bytes_is_no_label(rt: HostRuntime) -> Result<(), Fail> {
    let files = [File {
        name: b"cat.mm",
        bytes: SHARED,
    }];
    let theorem = first_theorem(rt.alloc(), &files)?;
    let answer = empty_is_no_label(rt.alloc(), &theorem);
    drop(theorem);
    assert!(rt; answer);
    Ok(())
}
