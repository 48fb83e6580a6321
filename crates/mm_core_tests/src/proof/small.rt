//! Small proofs: their labels by use, and which subtrees they tag.

ghost use Rattle.std.specs.Prelude.{◌≤◌, ℕ, length};
ghost use Rattle.std.specs.List.{sum_by};
ghost use Rattle.mm_base.specs.MostBytes.{most_bytes};
ghost use Rattle.mm_frame.specs.Sentence.{Sentence};
ghost use Rattle.mm_step.specs.Steps.{IsProofNumber};
ghost use Rattle.mm_step.specs.Plain.{token_texts};

use crate::databases::HEAD;
use crate::proof::forms::{accepted_steps, is_packed};
use crate::proof::{SHARED, Theorem, first_theorem, joined};
use mm_base::File;
use mm_forms::{Packed, compress_small};
use mm_proof_laws::{no_better_order, one_small, small_is_no_larger, some_small};
use std::alloc::Global;
use std::process::Abort;
use std::test::Fail;

/// Strings, one around another, and the joining of two of them, with a proof that makes a string of
/// two nodes behind 17 tags, and repeats it.
const AROUND: &[u8] = b"\
$c e $.
$v x y $.
fx $f e x $.
fy $f e y $.
nil $a e $.
cat $a e x y $.
one $a e x $.
th $p e $= ( nil cat one )
AABZDBZEBZFBZGBZHBZIBZJBZKBZLBZMBZNBZOBZPBZQBZRBZSBZTBACZUABB $.
";

/// The small proof of the theorem.
fn small_of(alloc: Global, theorem: &Theorem) -> Result<Packed, Fail>
    requires proof { (index : ℕ) × (s : Sentence)
        × IsProofNumber theorem.now.book.statements theorem.now.id.0 index s }
    requires room { sum_by length (token_texts theorem.now.tokens.items) ≤ most_bytes }
{
    let steps = accepted_steps(alloc, &theorem.book, theorem.id, &theorem.tokens)?;
    Ok(compress_small(alloc, &theorem.book, theorem.id, &steps)?.packed)
}

/// Whether the small proof of the first `$p` of a database has these labels and numbers, with 0 for
/// each tag.
fn is_small(alloc: Global, bytes: &[u8], labels: &[&[u8]], codes: &[u32]) -> Result<bool, Fail> {
    let files = [File {
        name: b"a.mm",
        bytes,
    }];
    let theorem = first_theorem(alloc, &files)?;
    let answer = match small_of(alloc, &theorem) {
        Ok(small) => is_packed(alloc, &theorem.book, &small, labels, codes),
        Err(fail) => Err(fail),
    };
    drop(theorem);
    answer
}

/// The numbers of the proof with 17 tags: the string of two nodes is written out again.
fn numbers_around(alloc: Global) -> Result<Vec<u32>, Fail> {
    let mut numbers = Vec::new(alloc);
    for number in [2, 2, 1] {
        numbers.push(number)?;
    }
    for tag in 4..20 {
        for number in [0, tag, 1] {
            numbers.push(number)?;
        }
    }
    for number in [0, 20, 1, 2, 3, 2, 3, 1, 1] {
        numbers.push(number)?;
    }
    Ok(numbers)
}

#[test]
fn labels_by_use(rt: HostRuntime) -> Result<(), Fail> {
    let alloc = rt.alloc();
    let strings: [&[u8]; 2] = [b"nil", b"cat"];
    assert!(rt; is_small(alloc, SHARED, &strings, &[1, 1, 2, 0, 3, 2])?);
    let labels: [&[u8]; 7] = [b"weq", b"mp", b"tze", b"tpl", b"a2", b"wim", b"a1"];
    let codes = [
        1, 4, 5, 0, 1, 2, 0, 1, 1, 2, 0, 1, 6, 0, 10, 10, 11, 7, 12, 9, 1, 1, 8, 3, 3,
    ];
    let bytes = joined(
        alloc,
        &[
            HEAD,
            b"th1 $p |- t = t $= ( tze tpl weq a2 wim a1 mp )
        ABCZADZAADZAEZJJKFLIAAGHH $.",
        ],
    )?;
    assert!(rt; is_small(alloc, &bytes, &labels, &codes)?);
    Ok(())
}

#[test]
fn a_pair_is_written_out(rt: HostRuntime) -> Result<(), Fail> {
    let alloc = rt.alloc();
    let labels: [&[u8]; 3] = [b"cat", b"nil", b"one"];
    assert!(rt; is_small(alloc, AROUND, &labels, &numbers_around(alloc)?)?);
    Ok(())
}

#[test]
fn laws_of_small_proofs_are_called() {
    one_small();
    some_small();
    no_better_order();
    small_is_no_larger();
}
