//! The known prefixes of incomplete proofs: what is read of them, and what is told of their steps.

ghost use Rattle.std.specs.Prelude.{◌≤◌, ℕ, length};
ghost use Rattle.std.specs.List.{sum_by};
ghost use Rattle.mm_base.specs.MostBytes.{most_bytes};
ghost use Rattle.mm_frame.specs.Sentence.{Sentence};
ghost use Rattle.mm_step.specs.Steps.{IsProofNumber};
ghost use Rattle.mm_step.specs.Plain.{token_texts};

use crate::databases::HEAD;
use crate::proof::{Theorem, first_theorem, joined};
use mm_base::File;
use mm_proof::{Parsed, Steps, verify};
use mm_step::{Flat, Profile, ProofFault, ProofRule, Used};
use std::alloc::Global;
use std::process::Abort;
use std::test::Fail;

/// Incomplete proofs whose known prefix breaks no rule. That of the first seven is empty.
const ALLOWED: [&[u8]; 11] = [
    b"?",
    b"? (",
    b"( ? tze ) A",
    b"(? nope",
    b"( nope ?",
    b"( tze A ?",
    b"( tze )? a",
    b"tt ? nope",
    b"tt tt ?",
    b"tze ?",
    b"( tze ) A?a",
];

/// Incomplete proofs of which a step before the first unknown one breaks a rule.
const WRONG_STEPS: [(&[u8], ProofRule, usize); 3] = [
    (b"tt weq ?", ProofRule::P8, 2),
    (b"( tze ) AC?", ProofRule::P6, 2),
    (b"( tze ) Z?", ProofRule::P7, 1),
];

/// Incomplete proofs whose known prefix breaks a rule that is judged over all of it.
const WRONG_PREFIXES: [(&[u8], ProofRule); 5] = [
    (b"nope ?", ProofRule::P2),
    (b"( nope ) A?", ProofRule::P2),
    (b"min ?", ProofRule::P3),
    (b"( tze ) a?", ProofRule::P4),
    (b"( tze ) U?", ProofRule::P5),
];

/// Proofs that haven't the strict form, or whose known prefix hasn't.
const LOOSE: [&[u8]; 4] = [b"( tpl ) AZ?", b"( tt ) ?", b"( tt ) A", b"( tze ) ZA"];

/// Complete proofs, right and wrong.
const WHOLE: [&[u8]; 4] = [b"", b"tt", b"( tze ) A", b"( tze ) Z"];

/// Whether a prefix is told to use no assertion, or to have this fault.
fn is_told(verdict: Result<Used, ProofFault>, fault: Option<ProofFault>) -> bool {
    match verdict {
        Ok(used) => fault.is_none() && used.ids().is_empty(),
        Err(other) => fault == Some(other),
    }
}

/// Whether the proof is incomplete, and this is told of the steps of its prefix.
fn has_prefix(alloc: Global, theorem: &Theorem, fault: Option<ProofFault>) -> Result<bool, Fail>
    requires proof { (index : ℕ) × (s : Sentence)
        × IsProofNumber theorem.now.book.statements theorem.now.id.0 index s }
    requires room { sum_by length (token_texts theorem.now.tokens.items) ≤ most_bytes }
{
    let profile = Profile::Lenient;
    match Steps::parse(alloc, profile, &theorem.book, theorem.id, &theorem.tokens)? {
        Parsed::Incomplete(steps) => {
            let store = Flat::new(alloc);
            let verdict = verify(alloc, store, &theorem.book, theorem.id, &steps);
            Ok(steps.is_prefix() && is_told(verdict, fault))
        }
        Parsed::Steps(_) => Ok(false),
    }
}

/// Whether the proof is complete, and its steps are those of no prefix.
fn is_whole(alloc: Global, theorem: &Theorem) -> Result<bool, Fail>
    requires proof { (index : ℕ) × (s : Sentence)
        × IsProofNumber theorem.now.book.statements theorem.now.id.0 index s }
    requires room { sum_by length (token_texts theorem.now.tokens.items) ≤ most_bytes }
{
    let profile = Profile::Lenient;
    match Steps::parse(alloc, profile, &theorem.book, theorem.id, &theorem.tokens)? {
        Parsed::Incomplete(_) => Ok(false),
        Parsed::Steps(steps) => Ok(!steps.is_prefix()),
    }
}

/// The fault for which the proof isn't read, if it isn't.
fn fault_of(alloc: Global, theorem: &Theorem, profile: Profile) -> Option<ProofFault>
    requires proof { (index : ℕ) × (s : Sentence)
        × IsProofNumber theorem.now.book.statements theorem.now.id.0 index s }
    requires room { sum_by length (token_texts theorem.now.tokens.items) ≤ most_bytes }
{
    Steps::parse(alloc, profile, &theorem.book, theorem.id, &theorem.tokens).err()
}

/// The head of the demonstration database, and then a theorem with this proof.
fn database_with(alloc: Global, proof: &[u8]) -> Result<Vec<u8>, Fail> {
    Ok(joined(alloc, &[HEAD, b"u1 $p |- t = t $= ", proof, b" $."])?)
}

/// Whether this proof is incomplete, and this is told of the steps of its prefix.
fn tells(alloc: Global, proof: &[u8], fault: Option<ProofFault>) -> Result<bool, Fail> {
    let bytes = database_with(alloc, proof)?;
    let files = [File {
        name: b"h.mm",
        bytes: &bytes,
    }];
    let theorem = first_theorem(alloc, &files)?;
    let answer = has_prefix(alloc, &theorem, fault);
    drop(theorem);
    answer
}

/// Whether this proof is complete, and its steps are those of no prefix.
fn reads_whole(alloc: Global, proof: &[u8]) -> Result<bool, Fail> {
    let bytes = database_with(alloc, proof)?;
    let files = [File {
        name: b"h.mm",
        bytes: &bytes,
    }];
    let theorem = first_theorem(alloc, &files)?;
    let answer = is_whole(alloc, &theorem);
    drop(theorem);
    answer
}

/// The fault for which this proof isn't read under a profile, if it isn't.
fn unread(alloc: Global, proof: &[u8], profile: Profile) -> Result<Option<ProofFault>, Fail> {
    let bytes = database_with(alloc, proof)?;
    let files = [File {
        name: b"h.mm",
        bytes: &bytes,
    }];
    let theorem = first_theorem(alloc, &files)?;
    let fault = fault_of(alloc, &theorem, profile);
    drop(theorem);
    Ok(fault)
}

#[test]
fn allowed_prefixes(rt: HostRuntime) -> Result<(), Fail> {
    for proof in ALLOWED {
        assert!(rt; tells(rt.alloc(), proof, None)?);
    }
    Ok(())
}

#[test]
fn wrong_steps_of_prefixes(rt: HostRuntime) -> Result<(), Fail> {
    for (proof, rule, step) in WRONG_STEPS {
        assert!(rt; tells(rt.alloc(), proof, Some(ProofFault::Rule { rule, step }))?);
    }
    Ok(())
}

#[test]
fn wrong_prefixes(rt: HostRuntime) -> Result<(), Fail> {
    for (proof, rule) in WRONG_PREFIXES {
        let fault = unread(rt.alloc(), proof, Profile::Lenient)?;
        assert!(rt; fault == Some(ProofFault::Rule { rule, step: 0 }));
    }
    Ok(())
}

#[test]
fn whole_proofs_are_no_prefixes(rt: HostRuntime) -> Result<(), Fail> {
    for proof in WHOLE {
        assert!(rt; reads_whole(rt.alloc(), proof)?);
    }
    Ok(())
}

#[test]
fn strict_form_is_judged_as_a_proof_is_read(rt: HostRuntime) -> Result<(), Fail> {
    let rule = ProofRule::P15;
    let loose = Some(ProofFault::Rule { rule, step: 0 });
    for proof in LOOSE {
        assert!(rt; unread(rt.alloc(), proof, Profile::Strict)? == loose);
        assert!(rt; unread(rt.alloc(), proof, Profile::Lenient)?.is_none());
    }
    Ok(())
}
