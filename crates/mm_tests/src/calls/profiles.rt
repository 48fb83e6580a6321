//! `check` under both profiles, and questions of what either has accepted.

use mm_base::{File, Seed};
use mm_core_tests::databases::{DEMO, DEMO_COMPRESSED, HEAD};
use mm_laws::{between_profiles, saved_proof_is_strict};
use mm_render::is_same_proof;
use mm_rules::{AskFault, AskRule, CheckFault, Rule};
use mm_save::saved;
use mm_step::{Profile, ProofRule};
use mm_verdict::{Checked, Form, check, check_with};
use std::alloc::Global;
use std::process::Abort;
use std::test::Fail;

/// Texts as proofs of a sum, and what is told of them under the strict profile and the lenient one.
const TEXTS: [(&[u8], Told, Told); 5] = [
    (b"( tpl ) AAB", None, None),
    (
        b"( tpl ) AZZCB",
        Some((Rule::Proof(ProofRule::P15), 0)),
        None,
    ),
    (
        b"( tpl tpl tt ) ADC",
        Some((Rule::Proof(ProofRule::P15), 0)),
        None,
    ),
    (
        b"( tt ) U",
        Some((Rule::Proof(ProofRule::P5), 0)),
        Some((Rule::Proof(ProofRule::P5), 0)),
    ),
    (
        b"( tt ) ZA",
        Some((Rule::Proof(ProofRule::P15), 0)),
        Some((Rule::Proof(ProofRule::P7), 1)),
    ),
];

/// What is told of a text: its rule and step; nothing where it is the same proof.
type Told = Option<(Rule, usize)>;

/// The head of the demonstration database, and then this theorem.
fn database_with(alloc: Global, theorem: &[u8]) -> Result<Vec<u8>, Fail> {
    let mut bytes = Vec::from_slice(alloc, HEAD)?;
    bytes.extend_from_slice(theorem)?;
    Ok(bytes)
}

/// A database of one file.
fn file(bytes: &[u8]) -> [File<'_>; 1] {
    [File {
        name: b"h.mm",
        bytes,
    }]
}

/// What is told of a text as the proof of `th2`, in what a profile has accepted.
fn told(alloc: Global, profile: Profile, files: &[File], text: &[u8]) -> Result<Told, Fail> {
    match check_with(alloc, Seed::known(), profile, files) {
        Ok(checked) => {
            let answer = is_same_proof(alloc, &checked, b"th2", text);
            drop(checked);
            match answer {
                Ok(true) => Ok(None),
                Ok(false) => Err(Fail::from("another proof")),
                Err(AskFault::Text { rule, step }) => Ok(Some((rule, step))),
                Err(_) => Err(Fail::from("no answer")),
            }
        }
        Err(_) => Err(Fail::from("refused")),
    }
}

/// A theorem with a normal proof.
const SUM: &[u8] = b"th2 $p term ( t + t ) $= tt tt tpl $.\n";

/// Texts with an unknown step, whose known prefixes would break a rule, but for the first.
const UNKNOWN: [&[u8]; 4] = [b"?", b"nope ?", b"( tt ) A?", b"tt weq ?"];

#[test]
fn texts_are_judged_under_the_profile(rt: HostRuntime) -> Result<(), Fail> {
    let alloc = rt.alloc();
    let bytes = database_with(alloc, SUM)?;
    let files = file(&bytes);
    for (text, strict, lenient) in TEXTS {
        assert!(rt; told(alloc, Profile::Strict, &files, text)? == strict);
        assert!(rt; told(alloc, Profile::Lenient, &files, text)? == lenient);
    }
    Ok(())
}

#[test]
fn a_text_with_an_unknown_step_is_incomplete(rt: HostRuntime) -> Result<(), Fail> {
    let alloc = rt.alloc();
    let bytes = database_with(alloc, SUM)?;
    let files = file(&bytes);
    let incomplete = Some((Rule::Ask(AskRule::A3), 0));
    for text in UNKNOWN {
        assert!(rt; told(alloc, Profile::Strict, &files, text)? == incomplete);
        assert!(rt; told(alloc, Profile::Lenient, &files, text)? == incomplete);
    }
    Ok(())
}

/// The counts of statements and proofs of a database that is accepted, or the rule that it breaks.
type Outcome = Result<(usize, usize), Rule>;

/// What `check` or `check_with` concludes, without where it lies in memory.
fn outcome(answer: Result<Checked<'_>, CheckFault<'_>>) -> Result<Outcome, Fail> {
    match answer {
        Ok(checked) => {
            let counts = (checked.statements(), checked.proofs());
            drop(checked);
            Ok(Ok(counts))
        }
        Err(CheckFault::Load(rule)) => Ok(Err(rule)),
        Err(CheckFault::Refused(refusal)) => Ok(Err(refusal.rule)),
        Err(CheckFault::Memory) => Err(Fail::from("memory")),
    }
}

/// `check` concludes this of a database, and so does `check_with` of the lenient profile; of the
/// strict one it concludes the other.
fn expect_outcomes(
    rt: &impl Abort,
    alloc: Global,
    bytes: &[u8],
    lenient: Outcome,
    strict: Outcome,
) -> Result<(), Fail> {
    let files = file(bytes);
    let seed = Seed::known();
    assert!(rt; outcome(check(alloc, seed, &files))? == lenient);
    assert!(rt; outcome(check_with(alloc, seed, Profile::Lenient, &files))? == lenient);
    assert!(rt; outcome(check_with(alloc, seed, Profile::Strict, &files))? == strict);
    Ok(())
}

#[test]
fn check_is_lenient(rt: HostRuntime) -> Result<(), Fail> {
    let alloc = rt.alloc();
    expect_outcomes(&rt, alloc, DEMO, Ok((19, 1)), Ok((19, 1)))?;
    expect_outcomes(&rt, alloc, DEMO_COMPRESSED, Ok((19, 1)), Ok((19, 1)))?;
    let loose = database_with(alloc, b"th2 $p term ( t + t ) $= ( tpl ) AZZCB $.\n")?;
    expect_outcomes(
        &rt,
        alloc,
        &loose,
        Ok((19, 1)),
        Err(Rule::Proof(ProofRule::P15)),
    )?;
    let tag = database_with(alloc, b"th2 $p term t $= ( tze ) ZA $.\n")?;
    expect_outcomes(
        &rt,
        alloc,
        &tag,
        Err(Rule::Proof(ProofRule::P7)),
        Err(Rule::Proof(ProofRule::P15)),
    )
}

/// Whether the theorem `th2` of a database is saved in packed form as this one.
fn saves(alloc: Global, bytes: &[u8], packed: &[u8]) -> Result<bool, Fail> {
    let files = file(bytes);
    match saved(alloc, Seed::known(), &files, b"th2", Form::Packed) {
        Ok((number, new)) => Ok(number == 0 && new.as_slice() == packed),
        Err(_) => Err(Fail::from("not saved")),
    }
}

#[test]
fn what_is_saved_is_strict(rt: HostRuntime) -> Result<(), Fail> {
    let alloc = rt.alloc();
    let loose = database_with(alloc, b"th2 $p term ( t + t ) $= ( tpl tpl tt ) ADC $.\n")?;
    let packed = database_with(
        alloc,
        b"th2 $p term ( t + t ) $=\n      ( tpl )\n      AAB\n$.\n",
    )?;
    assert!(rt; saves(alloc, &loose, &packed)?);
    expect_outcomes(
        &rt,
        alloc,
        &loose,
        Ok((19, 1)),
        Err(Rule::Proof(ProofRule::P15)),
    )?;
    expect_outcomes(&rt, alloc, &packed, Ok((19, 1)), Ok((19, 1)))
}

#[test]
fn laws_of_profiles_are_called() {
    between_profiles();
    saved_proof_is_strict();
}
