//! The pairs of variables that a whole proof lacks.

ghost use Rattle.std.specs.Prelude.{◌≤◌, ℕ, length};
ghost use Rattle.std.specs.List.{sum_by};
ghost use Rattle.mm_base.specs.MostBytes.{most_bytes};
ghost use Rattle.mm_frame.specs.Sentence.{Sentence};
ghost use Rattle.mm_step.specs.Steps.{IsProofNumber};
ghost use Rattle.mm_step.specs.Plain.{token_texts};

use crate::proof::asked::variable;
use crate::proof::{Theorem, first_theorem, joined};
use mm_base::File;
use mm_distinct::lacking_pairs;
use mm_frame::Sym;
use mm_proof::{Parsed, Steps};
use mm_step::Profile;
use std::alloc::Global;
use std::test::Fail;

/// Steps that may be made where two variables are distinct, a step that joins two of them, and one
/// that asks of a step before it too.
const APART: &[u8] = b"\
$c t |- $.
$v x y z $.
vx $f t x $.
vy $f t y $.
vz $f t z $.
${
  $d x y $.
  ap $a |- x y $.
$}
${
  le $e |- x y $.
  ri $e |- y z $.
  jo $a |- x z $.
$}
${
  $d x z $.
  of $e |- x y $.
  as $a |- z y $.
$}
";

/// The pairs that the proof lacks, complete or not.
fn pairs_of(alloc: Global, theorem: &Theorem) -> Result<Vec<(Sym, Sym)>, Fail>
    requires proof { (index : ℕ) × (s : Sentence)
        × IsProofNumber theorem.now.book.statements theorem.now.id.0 index s }
    requires room { sum_by length (token_texts theorem.now.tokens.items) ≤ most_bytes }
{
    let profile = Profile::Lenient;
    let parsed = Steps::parse(alloc, profile, &theorem.book, theorem.id, &theorem.tokens)?;
    let (Parsed::Incomplete(steps) | Parsed::Steps(steps)) = parsed;
    Ok(lacking_pairs(alloc, &theorem.book, theorem.id, &steps)?)
}

/// Whether the proof lacks the pairs of the variables of these `$f`, in order.
fn has_pairs(alloc: Global, theorem: &Theorem, pairs: &[(&[u8], &[u8])]) -> Result<bool, Fail>
    requires proof { (index : ℕ) × (s : Sentence)
        × IsProofNumber theorem.now.book.statements theorem.now.id.0 index s }
    requires room { sum_by length (token_texts theorem.now.tokens.items) ≤ most_bytes }
{
    let book = &theorem.book;
    let lacking = pairs_of(alloc, theorem)?;
    for ((first, second), (u, v)) in pairs.iter().zip(lacking.iter()) {
        if variable(book, first)? != *u || variable(book, second)? != *v {
            return Ok(false);
        }
    }
    Ok(lacking.len() == pairs.len())
}

/// Whether the proof of the theorem behind these statements lacks these pairs.
fn lacks(alloc: Global, theorem: &[u8], pairs: &[(&[u8], &[u8])]) -> Result<bool, Fail> {
    let bytes = joined(alloc, &[APART, theorem])?;
    let files = [File {
        name: b"apart.mm",
        bytes: &bytes,
    }];
    let theorem = first_theorem(alloc, &files)?;
    let answer = has_pairs(alloc, &theorem, pairs);
    drop(theorem);
    answer
}

#[test]
fn pairs_of_all_steps_are_lacking(rt: HostRuntime) -> Result<(), Fail> {
    let proof = b"th $p |- x z $= vx vy vz vy vx ap vx vy ap vy vz ap jo ? $.";
    assert!(rt; lacks(rt.alloc(), proof, &[(b"vx", b"vy"), (b"vy", b"vz")])?);
    Ok(())
}

#[test]
fn active_pairs_are_not_lacking(rt: HostRuntime) -> Result<(), Fail> {
    let proof = b"$d y x $. th $p |- x z $= vx vy vz vx vy ap vy vz ap jo $.";
    assert!(rt; lacks(rt.alloc(), proof, &[(b"vy", b"vz")])?);
    Ok(())
}

#[test]
fn pairs_up_to_another_rule_are_lacking(rt: HostRuntime) -> Result<(), Fail> {
    let proof = b"th $p |- x z $= vx vy ap vx vx ap vy vz ap $.";
    assert!(rt; lacks(rt.alloc(), proof, &[(b"vx", b"vy")])?);
    Ok(())
}

#[test]
fn pairs_of_a_step_that_breaks_p10_are_not_lacking(rt: HostRuntime) -> Result<(), Fail> {
    let proof = b"th $p |- x z $= vx vz vz vx vy ap as $.";
    assert!(rt; lacks(rt.alloc(), proof, &[(b"vx", b"vy")])?);
    Ok(())
}

#[test]
fn pairs_of_a_step_whose_hypothesis_is_met_are_lacking(rt: HostRuntime) -> Result<(), Fail> {
    let proof = b"th $p |- x z $= vx vy vz vx vy ap as $.";
    assert!(rt; lacks(rt.alloc(), proof, &[(b"vx", b"vy"), (b"vx", b"vz")])?);
    Ok(())
}

#[test]
fn pairs_are_lacking_in_the_order_of_declarations(rt: HostRuntime) -> Result<(), Fail> {
    let proof = b"th $p |- x z $= vx vz vy vz vy ap vx vz ap vy vx ap ? $.";
    let pairs: [(&[u8], &[u8]); 3] = [(b"vx", b"vy"), (b"vx", b"vz"), (b"vy", b"vz")];
    assert!(rt; lacks(rt.alloc(), proof, &pairs)?);
    Ok(())
}
