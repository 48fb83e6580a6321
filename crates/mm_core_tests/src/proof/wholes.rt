//! Where proofs break rules that are judged over the whole of them.

ghost use Rattle.std.specs.Prelude.{◌≤◌, ℕ, length};
ghost use Rattle.std.specs.List.{sum_by};
ghost use Rattle.mm_base.specs.MostBytes.{most_bytes};
ghost use Rattle.mm_frame.specs.Sentence.{Sentence};
ghost use Rattle.mm_step.specs.Steps.{IsProofNumber};
ghost use Rattle.mm_step.specs.Plain.{token_texts};

use crate::proof::{Theorem, first_theorem, joined};
use mm_base::{File, Token};
use mm_places::whole_place;
use mm_proof::Steps;
use mm_step::{Profile, ProofFault, ProofRule};
use std::alloc::{AllocError, Global};
use std::test::Fail;

/// An assertion, and hypotheses that aren't active behind their block.
const HEAD: &[u8] = b"\
$c a $. $v x y $.
fx $f a x $.
one $a a a $.
${ fy $f a y $. e $e a a $. two $a a y $. $}
th $p a a $= ";

/// What comes before proofs that may lose the strict form: a mandatory hypothesis, and another one.
const FORM_HEAD: &[u8] = b"\
$c a $. $v x y $.
fx $f a x $. fy $f a y $.
one $a a a $. two $a a x $.
th $p a x $= ";

/// A proof, the rule that it breaks under the strict profile, and the token and the byte there.
struct Case(&'static [u8], ProofRule, usize, usize);

/// Proofs with a list that isn't closed, or with labels that mayn't stand there.
const LABELS: [Case; 6] = [
    Case(b"( one A $.", ProofRule::P1, 0, 0),
    Case(b"one nope no $.", ProofRule::P2, 1, 0),
    Case(b"( one fy nope no ) A $.", ProofRule::P2, 3, 0),
    Case(b"one nope ? no $.", ProofRule::P2, 1, 0),
    Case(b"one one e fy $.", ProofRule::P3, 2, 0),
    Case(b"( fy one e ) A $.", ProofRule::P3, 1, 0),
];

/// Proofs with letters that are none, and with numbers that aren't ended.
const LETTERS: [Case; 6] = [
    Case(b"( one ) AB AaBa $.", ProofRule::P4, 4, 1),
    Case(b"( one ) AB Aa?* $.", ProofRule::P4, 4, 1),
    Case(b"( one ) AUB UV VZU $.", ProofRule::P5, 4, 0),
    Case(b"( one ) AUBV $.", ProofRule::P5, 3, 3),
    Case(b"( one ) AUB YU? A $.", ProofRule::P5, 4, 0),
    Case(b"( one ) UZ $.", ProofRule::P5, 3, 0),
];

/// Proofs whose list has a label twice, or a mandatory hypothesis.
const LISTS: [Case; 6] = [
    Case(b"( one one ) A $.", ProofRule::P15, 2, 0),
    Case(b"( one two two one ) A $.", ProofRule::P15, 3, 0),
    Case(b"( fx ) A $.", ProofRule::P15, 1, 0),
    Case(b"( two fy fx two ) A $.", ProofRule::P15, 3, 0),
    Case(b"( two two ) AZ $.", ProofRule::P15, 2, 0),
    Case(b"( two fx ) A ? Z $.", ProofRule::P15, 2, 0),
];

/// Proofs with a `Z` after a hypothesis, after another `Z`, after a reference, after a number that
/// is too great, and before any step.
const MARKS: [Case; 10] = [
    Case(b"( two ) AZ $.", ProofRule::P15, 3, 1),
    Case(b"( two fy ) A C Z $.", ProofRule::P15, 6, 0),
    Case(b"( two ) ABZZ $.", ProofRule::P15, 3, 3),
    Case(b"( two ) AB Z ZB $.", ProofRule::P15, 5, 0),
    Case(b"( two ) ABZ C ZAZ $.", ProofRule::P15, 5, 0),
    Case(b"( two ) AU AZ $.", ProofRule::P15, 4, 1),
    Case(b"( two ) Z $.", ProofRule::P15, 3, 0),
    Case(b"( ) ZA $.", ProofRule::P15, 2, 0),
    Case(b"( two ) AB Z Z? A $.", ProofRule::P15, 5, 0),
    Case(b"( two ) AZ ? $.", ProofRule::P15, 3, 1),
];

/// The rule that the tokens, or those of their known prefix, break first over the whole of them,
/// and the token and the byte there.
fn place_of(
    alloc: Global,
    theorem: &Theorem,
) -> Result<Option<(ProofRule, usize, usize)>, AllocError>
    requires proof { (index : ℕ) × (s : Sentence)
        × IsProofNumber theorem.now.book.statements theorem.now.id.0 index s }
    requires room { sum_by length (token_texts theorem.now.tokens.items) ≤ most_bytes }
{
    let book = &theorem.book;
    let id = theorem.id;
    let tokens: &[Token] = &theorem.tokens;
    match Steps::parse(alloc, Profile::Strict, book, id, tokens) {
        Ok(_) => Ok(None),
        Err(ProofFault::Memory) => Err(AllocError),
        Err(ProofFault::Rule { rule, .. }) => {
            let (token, byte) = whole_place(alloc, book, id, tokens, rule)?;
            Ok(Some((rule, token, byte)))
        }
    }
}

/// Whether the proof of the case, behind the head, breaks its rule there.
fn breaks_there(
    alloc: Global,
    head: &'static [u8],
    Case(proof, rule, token, byte): &Case,
) -> Result<bool, Fail> {
    let bytes = joined(alloc, &[head, proof])?;
    let files = [File {
        name: b"a.mm",
        bytes: &bytes,
    }];
    let theorem = first_theorem(alloc, &files)?;
    let place = place_of(alloc, &theorem);
    drop(theorem);
    Ok(place? == Some((*rule, *token, *byte)))
}

/// In each case, behind the head, the rule is broken there.
fn each_breaks_there(alloc: Global, head: &'static [u8], cases: &[Case]) -> Result<(), Fail> {
    for case in cases {
        if !breaks_there(alloc, head, case)? {
            return Err(Fail::from("another place"));
        }
    }
    Ok(())
}

#[test]
fn lists_and_labels_break_rules_there(rt: HostRuntime) -> Result<(), Fail> {
    each_breaks_there(rt.alloc(), HEAD, &LABELS)
}

#[test]
fn letters_break_rules_there(rt: HostRuntime) -> Result<(), Fail> {
    each_breaks_there(rt.alloc(), HEAD, &LETTERS)
}

#[test]
fn lists_lose_the_form_there(rt: HostRuntime) -> Result<(), Fail> {
    each_breaks_there(rt.alloc(), FORM_HEAD, &LISTS)
}

#[test]
fn marks_lose_the_form_there(rt: HostRuntime) -> Result<(), Fail> {
    each_breaks_there(rt.alloc(), FORM_HEAD, &MARKS)
}
