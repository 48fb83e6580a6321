//! The forms of proofs: what they spell, and whether two of them spell one tree.

ghost use Rattle.std.specs.Prelude.{◌≡◌, ◌<◌, ◌≤◌, ℕ, length, take, false, IfOk, OnOk};
ghost use Rattle.std.specs.List.{sum_by};
ghost use Rattle.mm_base.specs.MostBytes.{most_bytes};
ghost use Rattle.mm_frame.specs.Sentence.{Sentence};
ghost use Rattle.mm_forms.specs.OneTree.{MakeOneTree};
ghost use Rattle.mm_step.specs.Steps.{AreSteps, IsProofNumber};
ghost use Rattle.mm_proof.specs.Verified.{OfMoves};
ghost use Rattle.mm_step.specs.Plain.{token_texts};

use crate::databases::HEAD;
use crate::doublings::TWENTY_FOUR;
use crate::proof::{JOINED, SHARED, Theorem, first_theorem, joined};
use mm_base::{File, Token};
use mm_code::Code;
use mm_forms::{Packed, compress, expand, expand_beginning, same};
use mm_frame::{Book, LabelId};
use mm_proof::{Parsed, Steps, verify};
use mm_step::{ExpandFault, Flat, Profile};
use std::alloc::{AllocError, Global};
use std::process::Abort;
use std::test::Fail;

/// The most labels of a laid-out proof.
const MOST: usize = 16_777_216;

/// Whether the steps of a whole proof prove the `$p`.
fn judge_steps(alloc: Global, book: &Book, id: LabelId, steps: &Steps) -> Result<(), Fail>
    requires steps { AreSteps book.now.statements id.0 steps.now.moves }
    requires whole { steps.now.prefix ≡ false }
    ensures makes { OnOk result (OfMoves book.now.statements id.0 steps.now.moves
        (λ index s moves. MakeOneTree (take index book.now.statements) moves)) }
{
    let _used = verify(alloc, Flat::new(alloc), book, id, steps)?;
    Ok(())
}

/// The steps of a proof that is accepted.
pub(crate) fn accepted_steps(
    alloc: Global,
    book: &Book,
    id: LabelId,
    tokens: &[Token],
) -> Result<Steps, Fail>
    requires proof { (index : ℕ) × (s : Sentence)
        × IsProofNumber book.now.statements id.0 index s }
    requires room { sum_by length (token_texts tokens.now) ≤ most_bytes }
    ensures steps { IfOk result (λ steps. AreSteps book.now.statements id.0 steps.moves) }
    ensures whole { IfOk result (λ steps. steps.prefix ≡ false) }
    ensures makes { IfOk result (λ steps. OfMoves book.now.statements id.0 steps.moves
        (λ index s moves. MakeOneTree (take index book.now.statements) moves)) }
{
    match Steps::parse(alloc, Profile::Lenient, book, id, tokens)? {
        Parsed::Steps(steps) => {
            judge_steps(alloc, book, id, &steps)?;
            Ok(steps)
        }
        Parsed::Incomplete(_) => Err(Fail::from("incomplete")),
    }
}

/// The labels that the theorem's proof spells, up to so many.
fn expanded(
    alloc: Global,
    theorem: &Theorem,
    max: usize,
) -> Result<Result<Vec<LabelId>, ExpandFault>, Fail>
    requires proof { (index : ℕ) × (s : Sentence)
        × IsProofNumber theorem.now.book.statements theorem.now.id.0 index s }
    requires room { sum_by length (token_texts theorem.now.tokens.items) ≤ most_bytes }
{
    let steps = accepted_steps(alloc, &theorem.book, theorem.id, &theorem.tokens)?;
    Ok(expand(alloc, &theorem.book, theorem.id, &steps, max))
}

/// The labels that so many first moves of the theorem's proof spell, up to so many.
fn begun(
    alloc: Global,
    theorem: &Theorem,
    count: usize,
    max: usize,
) -> Result<Result<Vec<LabelId>, ExpandFault>, Fail>
    requires proof { (index : ℕ) × (s : Sentence)
        × IsProofNumber theorem.now.book.statements theorem.now.id.0 index s }
    requires room { sum_by length (token_texts theorem.now.tokens.items) ≤ most_bytes }
{
    let steps = accepted_steps(alloc, &theorem.book, theorem.id, &theorem.tokens)?;
    if steps.codes.len() < count {
        return Err(Fail::from("fewer moves"));
    }
    Ok(expand_beginning(alloc, &theorem.book, theorem.id, &steps, count, max))
}

/// Whether these are the labels.
fn are_labels(book: &Book, ids: &[LabelId], labels: &[&[u8]]) -> bool {
    for (id, label) in ids.iter().zip(labels.iter()) {
        if book.label(*id) != *label {
            return false;
        }
    }
    ids.len() == labels.len()
}

/// Whether so many first moves of the first `$p` of a database spell these labels, and are refused
/// where one fewer is allowed.
fn begins(alloc: Global, bytes: &[u8], count: usize, labels: &[&[u8]]) -> Result<bool, Fail>
    requires { 0 < length labels.now }
{
    let files = [File {
        name: b"a.mm",
        bytes,
    }];
    let theorem = first_theorem(alloc, &files)?;
    let most = begun(alloc, &theorem, count, labels.len())?;
    let fewer = begun(alloc, &theorem, count, labels.len() - 1)?;
    let answer = match most {
        Ok(ids) => are_labels(&theorem.book, &ids, labels),
        Err(_) => false,
    };
    drop(theorem);
    Ok(answer && fewer.err() == Some(ExpandFault::L2))
}

/// Whether the theorem's proof spells these labels, up to so many.
fn has_spelling(
    alloc: Global,
    theorem: &Theorem,
    max: usize,
    labels: &[&[u8]],
) -> Result<bool, Fail>
    requires proof { (index : ℕ) × (s : Sentence)
        × IsProofNumber theorem.now.book.statements theorem.now.id.0 index s }
    requires room { sum_by length (token_texts theorem.now.tokens.items) ≤ most_bytes }
{
    match expanded(alloc, theorem, max)? {
        Ok(ids) => Ok(are_labels(&theorem.book, &ids, labels)),
        Err(_) => Ok(false),
    }
}

/// Whether the proof of the first `$p` of a database spells these labels, up to so many.
fn spells(alloc: Global, bytes: &[u8], max: usize, labels: &[&[u8]]) -> Result<bool, Fail> {
    let files = [File {
        name: b"a.mm",
        bytes,
    }];
    let theorem = first_theorem(alloc, &files)?;
    let answer = has_spelling(alloc, &theorem, max, labels);
    drop(theorem);
    answer
}

/// Whether the proof of the first `$p` of a database spells more labels than so many.
fn spells_more(alloc: Global, bytes: &[u8], max: usize) -> Result<bool, Fail> {
    let files = [File {
        name: b"a.mm",
        bytes,
    }];
    let theorem = first_theorem(alloc, &files)?;
    let answer = expanded(alloc, &theorem, max);
    drop(theorem);
    Ok(answer?.err() == Some(ExpandFault::L2))
}

#[test]
fn spellings(rt: HostRuntime) -> Result<(), Fail> {
    let alloc = rt.alloc();
    let labels: [&[u8]; 7] = [b"nil", b"nil", b"cat", b"nil", b"nil", b"cat", b"cat"];
    assert!(rt; spells(alloc, SHARED, 7, &labels)?);
    assert!(rt; spells_more(alloc, SHARED, 6)?);
    assert!(rt; begins(alloc, SHARED, 2, &labels[..2])?);
    assert!(rt; begins(alloc, SHARED, 5, &labels[..6])?);
    assert!(rt; begins(alloc, SHARED, 6, &labels)?);
    let doubled = joined(alloc, &[STRINGS, b"th $p e $= ", TWENTY_FOUR, b" $."])?;
    assert!(rt; spells_more(alloc, &doubled, MOST)?);
    assert!(rt; spells_more(alloc, JOINED, MOST)?);
    Ok(())
}

/// Whether the proof of the theorem and other tokens spell one tree.
fn is_same(alloc: Global, theorem: &Theorem, tokens: &[Token]) -> Result<bool, Fail>
    requires proof { (index : ℕ) × (s : Sentence)
        × IsProofNumber theorem.now.book.statements theorem.now.id.0 index s }
    requires room { sum_by length (token_texts theorem.now.tokens.items) ≤ most_bytes }
    requires others_room { sum_by length (token_texts tokens.now) ≤ most_bytes }
{
    let first = accepted_steps(alloc, &theorem.book, theorem.id, &theorem.tokens)?;
    let second = accepted_steps(alloc, &theorem.book, theorem.id, tokens)?;
    Ok(same(alloc, &theorem.book, theorem.id, &first, &second)?)
}

/// Whether the proofs of the first `$p` of two databases, which differ in it alone, spell one tree.
fn are_same(alloc: Global, one: &[u8], other: &[u8]) -> Result<bool, Fail> {
    let files = [File {
        name: b"a.mm",
        bytes: one,
    }];
    let others = [File {
        name: b"b.mm",
        bytes: other,
    }];
    let theorem = first_theorem(alloc, &files)?;
    let second = first_theorem(alloc, &others);
    let answer = match second {
        Ok(second) => {
            let answer = is_same(alloc, &theorem, &second.tokens);
            drop(second);
            answer
        }
        Err(fail) => Err(fail),
    };
    drop(theorem);
    answer
}

/// Whether two proofs of a `$p` behind the database spell one tree.
fn are_same_behind(alloc: Global, database: &[u8], one: &[u8], other: &[u8]) -> Result<bool, Fail> {
    let first = joined(alloc, &[database, one])?;
    let second = joined(alloc, &[database, other])?;
    are_same(alloc, &first, &second)
}

/// Strings, and the joining of two of them.
const STRINGS: &[u8] = b"\
$c e $.
$v x y $.
fx $f e x $.
fy $f e y $.
nil $a e $.
cat $a e x y $.
";

#[test]
fn sameness(rt: HostRuntime) -> Result<(), Fail> {
    let alloc = rt.alloc();
    let normal = b"th1 $p |- t = t $=
        tt tze tpl tt weq tt tt weq tt a2 tt tze tpl tt weq tt tze tpl tt weq tt
        tt weq wim tt a2 tt tze tpl tt tt a1 mp mp $.";
    let packed = b"th1 $p |- t = t $= ( tze tpl weq a2 wim a1 mp )
        ABCZADZAADZAEZJJKFLIAAGHH $.";
    assert!(rt; are_same_behind(alloc, HEAD, normal, packed)?);
    let twice = b"th $p e $= ( nil cat ) AABZCB $.";
    let written = b"th $p e $= nil nil cat nil nil cat cat $.";
    let turned = b"th $p e $= nil nil nil nil cat cat cat $.";
    let plain = b"th $p e $= nil $.";
    assert!(rt; are_same_behind(alloc, STRINGS, twice, written)?);
    assert!(rt; !are_same_behind(alloc, STRINGS, written, turned)?);
    assert!(rt; !are_same_behind(alloc, STRINGS, plain, twice)?);
    assert!(rt; are_same(alloc, JOINED, JOINED)?);
    Ok(())
}

/// The fully shared proof of the theorem.
fn packed_of(alloc: Global, theorem: &Theorem) -> Result<Packed, Fail>
    requires proof { (index : ℕ) × (s : Sentence)
        × IsProofNumber theorem.now.book.statements theorem.now.id.0 index s }
    requires room { sum_by length (token_texts theorem.now.tokens.items) ≤ most_bytes }
{
    let steps = accepted_steps(alloc, &theorem.book, theorem.id, &theorem.tokens)?;
    Ok(compress(alloc, &theorem.book, theorem.id, &steps)?)
}

/// The numbers of a compressed proof, with 0 for each tag.
fn numbers(alloc: Global, codes: &[Code]) -> Result<Vec<u32>, AllocError> {
    let mut numbers = Vec::new(alloc);
    for code in codes {
        match code {
            Code::Number(number) => numbers.push(*number)?,
            Code::Tag => numbers.push(0)?,
        }
    }
    Ok(numbers)
}

/// Whether the compressed proof has these labels and numbers.
pub(crate) fn is_packed(
    alloc: Global,
    book: &Book,
    packed: &Packed,
    labels: &[&[u8]],
    codes: &[u32],
) -> Result<bool, Fail> {
    let found = numbers(alloc, &packed.codes)?;
    Ok(are_labels(book, &packed.labels, labels) && found.as_slice() == codes)
}

/// The labels of the fully shared proof of `t = t`.
pub(crate) const LABELS: [&[u8]; 7] = [b"tze", b"tpl", b"weq", b"a2", b"wim", b"a1", b"mp"];

/// Its numbers, with 0 for each tag.
pub(crate) const NUMBERS: [u32; 25] = [
    1, 2, 3, 0, 1, 4, 0, 1, 1, 4, 0, 1, 5, 0, 10, 10, 11, 6, 12, 9, 1, 1, 7, 8, 8,
];

/// Whether the fully shared proof of the first `$p` of a database has these labels and numbers.
fn packs(alloc: Global, bytes: &[u8], labels: &[&[u8]], codes: &[u32]) -> Result<bool, Fail> {
    let files = [File {
        name: b"a.mm",
        bytes,
    }];
    let theorem = first_theorem(alloc, &files)?;
    let answer = match packed_of(alloc, &theorem) {
        Ok(packed) => is_packed(alloc, &theorem.book, &packed, labels, codes),
        Err(fail) => Err(fail),
    };
    drop(theorem);
    answer
}

/// The numbers of the proof whose word has 2 ^ 101 - 1 labels: it is fully shared.
fn joined_numbers(alloc: Global) -> Result<Vec<u32>, Fail> {
    let mut numbers = Vec::new(alloc);
    for number in [1, 1, 2] {
        numbers.push(number)?;
    }
    for tag in 3..102 {
        for number in [0, tag, 2] {
            numbers.push(number)?;
        }
    }
    Ok(numbers)
}

#[test]
fn fully_shared(rt: HostRuntime) -> Result<(), Fail> {
    let alloc = rt.alloc();
    let strings: [&[u8]; 2] = [b"nil", b"cat"];
    assert!(rt; packs(alloc, SHARED, &strings, &[1, 1, 2, 0, 3, 2])?);
    let written = joined(
        alloc,
        &[
            STRINGS,
            b"th $p e $= nil nil cat nil nil cat nil cat nil nil cat nil cat cat cat $.",
        ],
    )?;
    assert!(rt;
        packs(
            alloc,
            &written,
            &strings,
            &[1, 1, 2, 0, 3, 1, 2, 0, 4, 2, 2]
        )?
    );
    assert!(rt; packs(alloc, JOINED, &strings, &joined_numbers(alloc)?)?);
    let normal = joined(
        alloc,
        &[
            HEAD,
            b"th1 $p |- t = t $=
        tt tze tpl tt weq tt tt weq tt a2 tt tze tpl tt weq tt tze tpl tt weq tt
        tt weq wim tt a2 tt tze tpl tt tt a1 mp mp $.",
        ],
    )?;
    assert!(rt; packs(alloc, &normal, &LABELS, &NUMBERS)?);
    Ok(())
}
