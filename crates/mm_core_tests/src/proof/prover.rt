//! One proof after the other in the same memory, incomplete ones among them.

ghost use Rattle.std.specs.Prelude.{◌≡◌, ◌++◌, ◌∷◌, [], ℕ, IfOk, IfSome};
ghost use Rattle.mm_base.specs.Statement.{plain_statement, HasForm};
ghost use Rattle.mm_frame.specs.Sentence.{Sentence, sentence_in};
ghost use Rattle.mm_frame.specs.Taken.{TakenAs};
ghost use Rattle.mm_step.specs.Steps.{IsProofNumber};

use crate::databases::HEAD;
use crate::proof::{ROOM, bytes_of, joined, read_next, reader, theorem_number};
use mm_base::{File, Kind, Seed, Statement};
use mm_frame::{LabelId, Taken};
use mm_proof::{Proved, Prover};
use mm_step::{Profile, ProofFault, ProofRule};
use mm_text::Statements;
use std::alloc::Global;
use std::process::Abort;
use std::test::Fail;

/// What is told of a proof: whether it is complete, and whether assertions are told that it uses;
/// or its fault.
type Told = Result<(bool, bool), ProofFault>;

/// Theorems one after the other, of which the first three are incomplete.
const THEOREMS: &[u8] = b"\
u1 $p |- t = t $= ? $.
u2 $p wff t = t $= tt tt weq ? $.
u3 $p wff t = t $= tt weq ? $.
h1 $p wff t = t $= tt tt weq $.
h2 $p wff t = t $= ( tt weq ) AAC $.
";

/// How many statements they are with those of the head.
const STATEMENTS: usize = 23;

/// Too few entries at step 2.
const TOO_FEW: Told = Err(ProofFault::Rule {
    rule: ProofRule::P8,
    step: 2,
});

/// A list with a mandatory hypothesis.
const LOOSE: Told = Err(ProofFault::Rule {
    rule: ProofRule::P15,
    step: 0,
});

/// What is told of the theorems under either profile, in their order.
const LENIENT: [Told; 5] = [
    Ok((false, false)),
    Ok((false, false)),
    TOO_FEW,
    Ok((true, true)),
    Ok((true, true)),
];

const STRICT: [Told; 5] = [
    Ok((false, false)),
    Ok((false, false)),
    TOO_FEW,
    Ok((true, true)),
    LOOSE,
];

/// Takes the next statement in, where there is room for it.
fn take<'a>(prover: &mut Prover<'a>, statement: &Statement<'a>) -> Result<Taken, Fail>
    requires { HasForm (plain_statement statement.now) }
    ensures taken { IfOk result (λ taken.
        TakenAs prover.old.book.statements statement.now.kind taken) }
    ensures book { IfOk result (λ taken. prover.new.book.statements
        ≡ prover.old.book.statements ++ sentence_in statement.now ∷ []) }
{
    let bytes = bytes_of(statement).ok_or("a long statement")?;
    if prover.book().bytes() > ROOM || bytes > ROOM - prover.book().bytes() {
        return Err(Fail::from("a long database"));
    }
    if statement.kind == Kind::Closing && prover.book().depth() == 0 {
        return Err(Fail::from("no block is open"));
    }
    Ok(prover.take(statement)?)
}

/// Takes the next statement in: its number, if it is a `$p`.
fn take_numbered<'a>(
    prover: &mut Prover<'a>,
    statement: &Statement<'a>,
) -> Result<Option<LabelId>, Fail>
    requires { HasForm (plain_statement statement.now) }
    ensures proof { IfOk result (λ taken. IfSome taken (λ id. (index : ℕ) × (s : Sentence)
        × IsProofNumber prover.new.book.statements id.0 index s)) }
{
    let taken = take(prover, statement)?;
    if let Some(id) = theorem_number(statement.kind, taken) {
        return Ok(Some(id));
    }
    Ok(None)
}

/// What is told of the proof of the `$p` with this number.
fn told<'a>(
    prover: &mut Prover<'a>,
    profile: Profile,
    id: LabelId,
    statement: &Statement<'a>,
) -> Told
    requires { (index : ℕ) × (s : Sentence)
        × IsProofNumber prover.old.book.statements id.0 index s }
{
    let proved = prover.prove(profile, id, &statement.proof)?;
    Ok((proved == Proved::Complete, !prover.used().is_empty()))
}

/// Takes the next statement in: what is told of its proof, if it is a `$p`.
fn take_and_prove<'a>(
    prover: &mut Prover<'a>,
    profile: Profile,
    statement: &Statement<'a>,
) -> Result<Option<Told>, Fail>
    requires { HasForm (plain_statement statement.now) }
{
    match take_numbered(prover, statement)? {
        Some(id) => Ok(Some(told(prover, profile, id, statement))),
        None => Ok(None),
    }
}

/// What is told of the proofs, in their order.
fn all_told<'a>(
    alloc: Global,
    prover: &mut Prover<'a>,
    profile: Profile,
    statements: &mut Statements<'a>,
) -> Result<Vec<Told>, Fail> {
    let mut all = Vec::new(alloc);
    let mut statement = Statement::empty(alloc);
    for _ in 0..STATEMENTS {
        read_next(statements, &mut statement)?;
        if let Some(told) = take_and_prove(prover, profile, &statement)? {
            all.push(told)?;
        }
    }
    Ok(all)
}

/// Whether this is told of the theorems under a profile.
fn tells(alloc: Global, profile: Profile, wanted: &[Told]) -> Result<bool, Fail> {
    let bytes = joined(alloc, &[HEAD, THEOREMS])?;
    let files = [File {
        name: b"h.mm",
        bytes: &bytes,
    }];
    let mut statements = reader(alloc, &files)?;
    let mut prover = Prover::new(alloc, Seed::known())?;
    let all = all_told(alloc, &mut prover, profile, &mut statements);
    drop(prover);
    drop(statements);
    Ok(all?.as_slice() == wanted)
}

#[test]
fn proofs_are_judged_one_after_the_other(rt: HostRuntime) -> Result<(), Fail> {
    assert!(rt; tells(rt.alloc(), Profile::Lenient, &LENIENT)?);
    assert!(rt; tells(rt.alloc(), Profile::Strict, &STRICT)?);
    Ok(())
}
