//! Shorter proofs of a theorem, whatever a search gives.

ghost use Rattle.std.specs.Prelude.{⊤};

use mm_base::{File, Seed};
use mm_check::{Command, WholeQuestion, reply_to};
use mm_frame::{Book, LabelId};
use mm_minimize::{OwnSize, Search, SearchWatch, Searched, minimized};
use mm_proof::Steps;
use mm_rules::{AskFault, AskRule};
use mm_step::Profile;
use mm_verdict::{Checked, SoFar, Watch, check};
use std::alloc::{AllocError, Global};
use std::test::Fail;

/// A search that gives this text, or nothing where it is empty.
#[derive(Clone, Copy)]
struct Given(&'static [u8]);

impl Search for Given {
    ghost is_whole = { λ _. ⊤ };

    fn candidate(
        &mut self,
        alloc: Global,
        _book: &Book,
        _id: LabelId,
        _steps: &Steps,
        _size: OwnSize,
    ) -> Result<Option<Vec<u8>>, AllocError> {
        if self.0.is_empty() {
            return Ok(None);
        }
        Ok(Some(Vec::from_slice(alloc, self.0)?))
    }
}

/// The proof of `th` is longer than it need be: `ax` alone proves it. `alt` is an axiom on which it
/// doesn't rest, and `inc` has an incomplete proof. Of `old` new uses are discouraged. `ours` stands in
/// the mathbox of `th`, and `theirs` in another. The proof of `kept` is to stay as it is.
const LONG: &[u8] = b"$c ( ) -> wff |- $. $v p q $. wp $f wff p $. wq $f wff q $.
wi $a wff ( p -> q ) $. ax $a |- ( p -> p ) $. alt $a |- ( p -> p ) $.
${ min $e |- p $. maj $e |- ( p -> q ) $. mp $a |- q $. $}
id $p |- ( p -> p ) $= wp ax $. inc $p |- ( p -> p ) $= ? $. by $p |- ( p -> p ) $= wp alt $.
$( An old law.  (New usage
   is discouraged.) $)
old $p |- ( p -> p ) $= wp ax $.
$( #*#*# Mathbox for Ann $) theirs $p |- ( p -> p ) $= wp ax $.
$( #*#*# Mathbox for Bob $) ours $p |- ( p -> p ) $= wp ax $.
th $p |- ( p -> p ) $= wp wp wi wp wp wi wp ax wp wp wi ax mp $.
$( (Proof modification is discouraged.) $)
kept $p |- ( p -> p ) $= wp wp wi wp wp wi wp ax wp wp wi ax mp $.
";

/// The small proof of `th`, which makes ( p -> p ) once.
const OWN: &[u8] = b"      ( ax wi mp )\n      AACZEABEBD\n";

/// The text that is told of a theorem, where a search gives this one.
fn told(
    alloc: Global,
    checked: &Checked,
    label: &[u8],
    given: &'static [u8],
) -> Result<Vec<u8>, AskFault> {
    minimized(alloc, checked, label, &mut Given(given))
}

#[test]
fn tells_shorter_proofs(rt: HostRuntime) -> Result<(), Fail> {
    let files = [File {
        name: b"a.mm",
        bytes: LONG,
    }];
    let checked = check(rt.alloc(), Seed::known(), &files)
        .ok()
        .ok_or("refused")?;
    for (label, given, wanted) in [
        (
            b"th".as_slice(),
            b"wp ax".as_slice(),
            b"      ( ax )\n      AB\n".as_slice(),
        ),
        (
            b"th".as_slice(),
            b"( ax ) AB".as_slice(),
            b"      ( ax )\n      AB\n".as_slice(),
        ),
        (
            b"th".as_slice(),
            b"wp id".as_slice(),
            b"      ( id )\n      AB\n".as_slice(),
        ),
        (
            b"th".as_slice(),
            b"wp ours".as_slice(),
            b"      ( ours )\n      AB\n".as_slice(),
        ),
        // Nothing is given, or no proof: of nothing, of another statement, or by an own label.
        (b"th".as_slice(), b"".as_slice(), OWN),
        (b"th".as_slice(), b"wp".as_slice(), OWN),
        (b"th".as_slice(), b"wq ax".as_slice(), OWN),
        (b"th".as_slice(), b"wp th".as_slice(), OWN),
        (b"th".as_slice(), b"wp kept".as_slice(), OWN),
        (b"th".as_slice(), b"?".as_slice(), OWN),
        // It would rest on a further axiom, or on an incomplete proof.
        (b"th".as_slice(), b"wp alt".as_slice(), OWN),
        (b"th".as_slice(), b"wp by".as_slice(), OWN),
        (b"th".as_slice(), b"wp inc".as_slice(), OWN),
        // Marks and mathboxes.
        (b"th".as_slice(), b"wp old".as_slice(), OWN),
        (b"th".as_slice(), b"wp theirs".as_slice(), OWN),
        (b"kept".as_slice(), b"wp ax".as_slice(), OWN),
        // No shorter one.
        (
            b"id".as_slice(),
            b"wp ours".as_slice(),
            b"      ( ax )\n      AB\n".as_slice(),
        ),
    ] {
        let text = told(rt.alloc(), &checked, label, given)?;
        assert!(rt; text.as_slice() == wanted, "{given:?} for {label:?}");
    }
    Ok(())
}

#[test]
fn asks_for_a_proved_theorem(rt: HostRuntime) -> Result<(), Fail> {
    let files = [File {
        name: b"a.mm",
        bytes: LONG,
    }];
    let checked = check(rt.alloc(), Seed::known(), &files)
        .ok()
        .ok_or("refused")?;
    for (label, rule) in [
        (b"no".as_slice(), AskRule::A1),
        (b"ax".as_slice(), AskRule::A2),
        (b"inc".as_slice(), AskRule::A3),
    ] {
        let fault = told(rt.alloc(), &checked, label, b"wp ax")
            .err()
            .ok_or("told")?;
        assert_eq!(rt; fault, AskFault::Rule(rule), "of {label:?}");
    }
    Ok(())
}

/// Counts how often it is told, and keeps what it was told last, and what the search came to.
#[derive(Clone, Copy)]
struct Counting {
    calls: usize,
    last: Option<SoFar>,
    searched: Option<Searched>,
}

impl Watch for Counting {
    fn told(&mut self, so_far: SoFar) {
        self.calls = self.calls.saturating_add(1);
        self.last = Some(so_far);
    }
}

impl SearchWatch for Counting {
    fn searched(&mut self, searched: Searched) {
        self.searched = Some(searched);
    }
}

/// What is told on the way to the reply to a question about `LONG`.
fn watched(alloc: Global, question: WholeQuestion) -> Result<Counting, Fail> {
    let files = [File {
        name: b"a.mm",
        bytes: LONG,
    }];
    let mut watch = Counting {
        calls: 0,
        last: None,
        searched: None,
    };
    let command = Command::Whole {
        profile: Profile::Lenient,
        question,
    };
    reply_to(alloc, Seed::known(), &command, &files, &mut watch)?;
    Ok(watch)
}

// The proof of `th` has 22 bytes in place of 36, and each `$p` but `inc` is a theorem.
#[test]
fn tells_how_far_it_has_come(rt: HostRuntime) -> Result<(), Fail> {
    let told = watched(rt.alloc(), WholeQuestion::Shorter)?;
    assert_eq!(rt; told.calls, 7);
    assert_eq!(rt;
        told.last,
        Some(SoFar {
            theorems: 7,
            of: 7,
            bytes: 14,
        })
    );
    assert!(rt; matches!(told.searched, Some(Searched::Left(0))));
    assert_eq!(rt; watched(rt.alloc(), WholeQuestion::Check)?.calls, 0);
    Ok(())
}
