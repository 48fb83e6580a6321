//! Where the moves of proofs stop, and what they leave on the stack.

ghost use Rattle.std.specs.Prelude.{◌≡◌, ◌≤◌, ℕ, length, IfOk};
ghost use Rattle.std.specs.List.{sum_by};
ghost use Rattle.mm_base.specs.MostBytes.{most_bytes};
ghost use Rattle.mm_frame.specs.Sentence.{Sentence};
ghost use Rattle.mm_step.specs.Steps.{AreSteps, IsProofNumber};
ghost use Rattle.mm_step.specs.Plain.{token_texts};

use crate::proof::{Theorem, assertion, first_theorem, joined};
use mm_base::{File, Token};
use mm_frame::{Book, LabelId, Sym};
use mm_listing::{Halt, HaltAt, Line, Name, halt_of};
use mm_proof::{Parsed, Steps};
use mm_step::{Profile, ProofRule};
use std::alloc::Global;
use std::process::Abort;
use std::test::Fail;

/// Strings, and the joining of two of them, up to the letters of a proof.
const STRINGS: &[u8] = b"\
$c e $.
$v x y $.
fx $f e x $.
fy $f e y $.
nil $a e $.
cat $a e x y $.
th $p e $= ( nil cat ) ";

/// Letters, and where their moves stop: the rule, what stands there, how many moves pass, and the
/// steps that made the entries of the stack. A step by `nil` or `cat` stands for itself.
const HALTS: [(&[u8], Option<ProofRule>, Place, usize, &[usize]); 8] = [
    (b"AABZCB $.", None, Place::End, 6, &[5]),
    (b"AABZC $.", Some(ProofRule::P13), Place::End, 5, &[3, 4]),
    (b" $.", Some(ProofRule::P13), Place::End, 0, &[]),
    (b"AABZC? $.", None, Place::End, 5, &[3, 4]),
    (b"AABZCBB $.", Some(ProofRule::P8), Place::Cat, 6, &[5]),
    (
        b"AABZCADA $.",
        Some(ProofRule::P6),
        Place::Tag(1),
        6,
        &[3, 4, 5],
    ),
    (b"ZAAB $.", Some(ProofRule::P7), Place::Mark, 0, &[]),
    (b"AAABBB? $.", Some(ProofRule::P8), Place::Cat, 5, &[5]),
];

/// What stands where moves stop.
#[derive(Clone, Copy)]
enum Place {
    Cat,
    Tag(usize),
    Mark,
    End,
}

/// That place, with the number of its label.
fn place_at(place: Place, cat: LabelId) -> HaltAt {
    match place {
        Place::Cat => HaltAt::Label(cat),
        Place::Tag(tag) => HaltAt::Tag(tag),
        Place::Mark => HaltAt::Mark,
        Place::End => HaltAt::End,
    }
}

/// The steps of a proof, or of its known prefix.
fn known_steps(alloc: Global, book: &Book, id: LabelId, tokens: &[Token]) -> Result<Steps, Fail>
    requires proof { (index : ℕ) × (s : Sentence)
        × IsProofNumber book.now.statements id.0 index s }
    requires room { sum_by length (token_texts tokens.now) ≤ most_bytes }
    ensures { IfOk result (λ steps. AreSteps book.now.statements id.0 steps.moves) }
{
    match Steps::parse(alloc, Profile::Lenient, book, id, tokens)? {
        Parsed::Steps(steps) => Ok(steps),
        Parsed::Incomplete(steps) => Ok(steps),
    }
}

/// Where they stop.
fn halt_in(alloc: Global, theorem: &Theorem) -> Result<Halt, Fail>
    requires proof { (index : ℕ) × (s : Sentence)
        × IsProofNumber theorem.now.book.statements theorem.now.id.0 index s }
    requires room { sum_by length (token_texts theorem.now.tokens.items) ≤ most_bytes }
{
    let steps = known_steps(alloc, &theorem.book, theorem.id, &theorem.tokens)?;
    Ok(halt_of(alloc, &theorem.book, theorem.id, &steps)?)
}

/// Whether these steps made the entries that are left, each of them this expression.
fn has_entries(halt: &Halt, origins: &[usize], expression: &[Sym]) -> bool {
    for index in 0..halt.origins.len() {
        if halt.entry(index) != expression {
            return false;
        }
    }
    halt.origins.as_slice() == origins
}

/// Whether the moves of the theorem stop so.
fn stops(
    alloc: Global,
    theorem: &Theorem,
    rule: Option<ProofRule>,
    place: Place,
    passed: usize,
    origins: &[usize],
) -> Result<bool, Fail>
    requires proof { (index : ℕ) × (s : Sentence)
        × IsProofNumber theorem.now.book.statements theorem.now.id.0 index s }
    requires room { sum_by length (token_texts theorem.now.tokens.items) ≤ most_bytes }
{
    let nil = assertion(&theorem.book, b"nil")?;
    let cat = assertion(&theorem.book, b"cat")?;
    let halt = halt_in(alloc, theorem)?;
    let answer = halt.rule == rule
        && halt.at == place_at(place, cat)
        && halt.passed == passed
        && has_entries(&halt, origins, theorem.book.expression(nil));
    drop(halt);
    Ok(answer)
}

/// Whether the moves of the first `$p` of the database stop so.
fn first_stops(
    alloc: Global,
    bytes: &[u8],
    rule: Option<ProofRule>,
    place: Place,
    passed: usize,
    origins: &[usize],
) -> Result<bool, Fail> {
    let files = [File {
        name: b"a.mm",
        bytes,
    }];
    let theorem = first_theorem(alloc, &files)?;
    let answer = stops(alloc, &theorem, rule, place, passed, origins);
    drop(theorem);
    answer
}

#[test]
fn moves_stop(rt: HostRuntime) -> Result<(), Fail> {
    let alloc = rt.alloc();
    for (letters, rule, place, passed, origins) in HALTS {
        let bytes = joined(alloc, &[STRINGS, letters])?;
        assert!(rt; first_stops(alloc, &bytes, rule, place, passed, origins)?);
    }
    Ok(())
}
