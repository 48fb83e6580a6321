//! One happy path of each public call, and writers that fail in the middle of a reply.

use crate::tests::{CHECK, reply_to};
use mm_axioms::{ChainFault, Report, axioms, chain, essential_axioms};
use mm_base::{File, Seed};
use mm_check::{Command, Question, RunFault, run};
use mm_core_tests::failing::failing_writer;
use mm_frame::{LabelId, MeaningRule};
use mm_render::proof_listing;
use mm_rules::{AskFault, AskRule, CheckFault, Refusal, Rule, Status};
use mm_step::{Profile, ProofRule};
use mm_text::LoadRule;
use mm_verdict::{AllFaults, Checked, all_faults, check};
use std::alloc::Global;
use std::test::Fail;

const FIRST: &[u8] = b"$c 0 + ( ) term $.
$v t r $.
tt $f term t $.
tr $f term r $.
tze $a term 0 $.
tpl $a term ( t + r ) $.
th $p term ( 0 + 0 ) $= tze tze tpl $.
";

// The proofs of q and s are incomplete.
const OPEN: &[u8] = b"$c a $. p $a a $. q $p a $= ? $. r $p a $= p $. s $p a $= q ? $.";

// t rests on p, through s and r; u rests on the incomplete q.
const DEEP: &[u8] = b"$c a $. p $a a $. q $p a $= ? $. r $p a $= p $. s $p a $= r $. \
t $p a $= s $. u $p a $= q $.";

// Statements of the type codes a and b: that of w, u and v is b. From t one comes to w by q or p,
// and by r in more steps. n rests on the incomplete u besides.
const CODES: &[u8] = b"$c a b $. w $a b $. ${ h $e b $. m $a a $. $} \
q $p a $= w m $. p $p a $= w m $. ${ k $e a $. l $e a $. j $a a $. $} \
r $p a $= q p j $. t $p a $= r p q j j $. u $p b $= ? $. v $p b $= w $. \
n $p a $= t u m j $.";

// The proof of th makes the tree of its third step once, and uses it twice.
const SHARED: &[u8] = b"$c e $. $v x y $. fx $f e x $. fy $f e y $. nil $a e $. cat $a e x y $. \
th $p e $= ( nil cat ) AABZCB $.";

// The proofs of q, t and u are at fault, and between q and t those of r and s, which stand in the
// file that is included.
const OUTER: &[u8] = b"$c a $.\np $a a $.\nq $p a $= no $.\n$[ b.mm $]\n\
t $p a $= no $. u $p a $= no $.\n";

const INNER: &[u8] = b"\n\n\n\nr $p a $= no $.\ns $p a $= no $.\n";

const REFUSED: &[u8] = b"$c a $.\np $a b $.\n";

const REPLY: &[u8] = b"yes 7 statements 1 proofs\n";

/// A database of one file.
fn file(bytes: &[u8]) -> [File<'_>; 1] {
    [File {
        name: b"a.mm",
        bytes,
    }]
}

/// What is kept of an accepted database.
fn accepted<'a>(alloc: Global, files: &'a [File<'a>]) -> Result<Checked<'a>, Fail> {
    match check(alloc, Seed::known(), files) {
        Ok(checked) => Ok(checked),
        Err(_) => Err(Fail::from("refused")),
    }
}

/// Why the files are refused.
fn fault_of<'a>(alloc: Global, files: &'a [File<'a>]) -> Result<CheckFault<'a>, Fail> {
    Ok(check(alloc, Seed::known(), files).err().ok_or("accepted")?)
}

fn has_counts(checked: &Checked, statements: usize, proofs: usize) -> bool {
    checked.statements() == statements && checked.proofs() == proofs
}

fn has_incomplete(checked: &Checked) -> bool {
    !checked.is_complete()
}

/// Whether two proofs are incomplete, of these names.
fn names_incomplete(checked: &Checked, first: &[u8], second: &[u8]) -> bool {
    match checked.incomplete() {
        [a, b] => checked.name(*a) == first && checked.name(*b) == second,
        _ => false,
    }
}

// The proofs of p and r are at fault, and q uses p.
const FAULTY: &[u8] = b"$c a b $. one $a a $. p $p b $= one $. q $p b $= p $. r $p a $= nope $.";

/// Whether these are the refusals of p and of r.
fn are_of_p_and_r(refusals: &[Refusal]) -> bool {
    match refusals {
        [p, r] => {
            (p.statement, p.rule, p.step) == (3, Rule::Proof(ProofRule::P14), 2)
                && (r.statement, r.rule, r.step) == (5, Rule::Proof(ProofRule::P2), 0)
        }
        _ => false,
    }
}

/// Whether all faults of the files are those of p and of r.
fn has_faults_of_p_and_r<'a>(alloc: Global, files: &'a [File<'a>]) -> bool {
    match all_faults(alloc, Seed::known(), Profile::Lenient, files) {
        Err(AllFaults::Refused(refusals)) => are_of_p_and_r(&refusals),
        _ => false,
    }
}

#[test]
fn finds_all_faults(rt: HostRuntime) -> Result<(), Fail> {
    let files = file(FAULTY);
    let is_found = has_faults_of_p_and_r(rt.alloc(), &files);
    assert!(rt; is_found);
    Ok(())
}

/// Whether the refusals stand in these files and lines.
fn stand_in(refusals: &[Refusal], places: &[(usize, usize)]) -> bool {
    if refusals.len() != places.len() {
        return false;
    }
    for (refusal, place) in refusals.iter().zip(places) {
        if (refusal.file, refusal.line) != *place {
            return false;
        }
    }
    true
}

/// Whether all faults of the files stand in these files and lines.
fn have_faults_in<'a>(alloc: Global, files: &'a [File<'a>], places: &[(usize, usize)]) -> bool {
    match all_faults(alloc, Seed::known(), Profile::Lenient, files) {
        Err(AllFaults::Refused(refusals)) => stand_in(&refusals, places),
        _ => false,
    }
}

#[test]
fn tells_lines_of_all_faults(rt: HostRuntime) -> Result<(), Fail> {
    let files = [
        File {
            name: b"a.mm",
            bytes: OUTER,
        },
        File {
            name: b"b.mm",
            bytes: INNER,
        },
    ];
    let places = [(0, 3), (1, 5), (1, 6), (0, 5), (0, 5)];
    let are_told = have_faults_in(rt.alloc(), &files, &places);
    assert!(rt; are_told);
    Ok(())
}

#[test]
fn accepts_the_first_database(rt: HostRuntime) -> Result<(), Fail> {
    let files = file(FIRST);
    let checked = accepted(rt.alloc(), &files)?;
    let is_yes = checked.is_complete() && checked.incomplete().is_empty();
    let is_counted = has_counts(&checked, 7, 1);
    drop(checked);
    assert!(rt; is_yes && is_counted);
    Ok(())
}

#[test]
fn names_incomplete_proofs(rt: HostRuntime) -> Result<(), Fail> {
    let files = file(OPEN);
    let checked = accepted(rt.alloc(), &files)?;
    let is_counted = has_incomplete(&checked) && has_counts(&checked, 5, 1);
    let is_named = names_incomplete(&checked, b"q", b"s");
    drop(checked);
    assert!(rt; is_counted && is_named);
    Ok(())
}

/// What a theorem of a database with deeper proofs rests on.
fn ask_axioms(alloc: Global, label: &[u8]) -> Result<Result<Report, AskFault>, Fail> {
    let files = file(DEEP);
    let checked = accepted(alloc, &files)?;
    let report = axioms(alloc, &checked, label);
    drop(checked);
    Ok(report)
}

#[test]
fn reports_an_axiom(rt: HostRuntime) -> Result<(), Fail> {
    let report = ask_axioms(rt.alloc(), b"t")??;
    assert!(rt; report.axioms.len() == 1 && report.unproved.is_empty());
    Ok(())
}

#[test]
fn reports_an_unproved_theorem(rt: HostRuntime) -> Result<(), Fail> {
    let report = ask_axioms(rt.alloc(), b"u")??;
    assert!(rt; report.axioms.is_empty() && report.unproved.len() == 1);
    Ok(())
}

#[test]
fn refuses_questions(rt: HostRuntime) -> Result<(), Fail> {
    assert!(rt; ask_axioms(rt.alloc(), b"none")?.err() == Some(AskFault::Rule(AskRule::A1)));
    assert!(rt; ask_axioms(rt.alloc(), b"p")?.err() == Some(AskFault::Rule(AskRule::A2)));
    assert!(rt; ask_axioms(rt.alloc(), b"q")?.err() == Some(AskFault::Rule(AskRule::A3)));
    Ok(())
}

/// Whether the shortest chain from a theorem to an assertion has these labels, by number.
fn has_chain(
    alloc: Global,
    checked: &Checked,
    (label, other): (&[u8], &[u8]),
    numbers: (u32, u32, u32),
) -> bool {
    let Ok(found) = chain(alloc, checked, label, other) else {
        return false;
    };
    match found.as_slice() {
        [a, b, c] => (a.0, b.0, c.0) == numbers,
        _ => false,
    }
}

// From t by q to w, and from n by t to r.
#[test]
fn finds_the_first_of_the_shortest_chains(rt: HostRuntime) -> Result<(), Fail> {
    let files = file(CODES);
    let checked = accepted(rt.alloc(), &files)?;
    let of_t = has_chain(rt.alloc(), &checked, (b"t", b"w"), (9, 3, 0));
    let of_n = has_chain(rt.alloc(), &checked, (b"n", b"r"), (12, 9, 8));
    drop(checked);
    assert!(rt; of_t && of_n);
    Ok(())
}

/// Why there is no chain from a theorem to an assertion.
fn no_chain(alloc: Global, label: &[u8], other: &[u8]) -> Result<Option<ChainFault>, Fail> {
    let files = file(CODES);
    let checked = accepted(alloc, &files)?;
    let fault = chain(alloc, &checked, label, other).err();
    drop(checked);
    Ok(fault)
}

#[test]
fn finds_no_chain(rt: HostRuntime) -> Result<(), Fail> {
    let unproved = ChainFault::Theorem(AskFault::Rule(AskRule::A3));
    let hypothesis = ChainFault::Assertion(AskFault::Rule(AskRule::A2));
    assert!(rt; no_chain(rt.alloc(), b"v", b"m")? == Some(ChainFault::Independent));
    assert!(rt; no_chain(rt.alloc(), b"u", b"w")? == Some(unproved));
    assert!(rt; no_chain(rt.alloc(), b"t", b"h")? == Some(hypothesis));
    assert!(rt; no_chain(rt.alloc(), b"t", b"t")?.is_none());
    Ok(())
}

/// Whether these are the numbers of m and of j.
fn are_m_and_j(numbers: &[LabelId]) -> bool {
    match numbers {
        [m, j] => (m.0, j.0) == (2, 7),
        _ => false,
    }
}

/// Whether this is the number of u alone.
fn is_u(numbers: &[LabelId]) -> bool {
    match numbers {
        [u] => u.0 == 10,
        _ => false,
    }
}

/// Whether a theorem depends on the axioms m and j of its type code, and on u, which is unproved.
fn has_essential(alloc: Global, checked: &Checked, label: &[u8]) -> bool {
    match essential_axioms(alloc, checked, label) {
        Ok(report) => are_m_and_j(&report.axioms) && is_u(&report.unproved),
        Err(_) => false,
    }
}

// w isn't listed: its type code is b. u is, though its own is b too.
#[test]
fn reports_axioms_of_the_type_code(rt: HostRuntime) -> Result<(), Fail> {
    let files = file(CODES);
    let checked = accepted(rt.alloc(), &files)?;
    let is_told = has_essential(rt.alloc(), &checked, b"n");
    drop(checked);
    assert!(rt; is_told);
    Ok(())
}

/// The listing of the proof of a theorem.
fn show(alloc: Global, checked: &Checked, label: &[u8]) -> Result<Vec<u8>, Fail> {
    Ok(proof_listing(alloc, &checked, label)?)
}

#[test]
fn shows_a_shared_step(rt: HostRuntime) -> Result<(), Fail> {
    let files = file(SHARED);
    let checked = accepted(rt.alloc(), &files)?;
    let text = show(rt.alloc(), &checked, b"th");
    drop(checked);
    let text = text?;
    assert!(rt; text.as_slice() == b"1 nil e\n2 nil e\n3 cat e\n4 @3 e\n5 cat e\n".as_slice());
    Ok(())
}

/// Whether the program answers the command so.
fn replies(
    alloc: Global,
    command: &Command,
    files: &[File],
    (wanted, text): (Status, &[u8]),
) -> Result<bool, Fail> {
    let (reply, status) = reply_to(alloc, command, files)?;
    Ok(status == wanted && reply.as_slice() == text)
}

/// Whether the program answers the command over the first database so.
fn replies_of_first(
    alloc: Global,
    command: &Command,
    answer: (Status, &[u8]),
) -> Result<bool, Fail> {
    replies(alloc, command, &file(FIRST), answer)
}

#[test]
fn writes_the_reply(rt: HostRuntime) -> Result<(), Fail> {
    let answer = (Status::Done, REPLY);
    assert!(rt; replies_of_first(rt.alloc(), &CHECK, answer)?);
    Ok(())
}

#[test]
fn statuses_and_rules_have_names(rt: HostRuntime) {
    assert!(rt; Status::Done.number() == 0);
    assert!(rt; Rule::Meaning(MeaningRule::M15).code() == b"M15".as_slice());
}

#[test]
fn writes_what_a_theorem_rests_on(rt: HostRuntime) -> Result<(), Fail> {
    let command = Command::About {
        label: b"th",
        question: Question::Axioms { essential: false },
    };
    let answer = (Status::Done, b"tze\ntpl\n".as_slice());
    assert!(rt; replies_of_first(rt.alloc(), &command, answer)?);
    Ok(())
}

#[test]
fn writes_how_a_theorem_is_proved(rt: HostRuntime) -> Result<(), Fail> {
    let command = Command::About {
        label: b"th",
        question: Question::Show,
    };
    let text = b"1 tze term 0\n2 tze term 0\n3 tpl term ( 0 + 0 )\n".as_slice();
    assert!(rt; replies_of_first(rt.alloc(), &command, (Status::Done, text))?);
    Ok(())
}

#[test]
fn writes_why_a_question_has_no_answer(rt: HostRuntime) -> Result<(), Fail> {
    let command = Command::About {
        label: b"tt",
        question: Question::Axioms { essential: false },
    };
    let answer = (Status::Refused, b"ask A2 tt\n".as_slice());
    assert!(rt; replies_of_first(rt.alloc(), &command, answer)?);
    Ok(())
}

#[test]
fn refuses_no_files(rt: HostRuntime) -> Result<(), Fail> {
    let fault = fault_of(rt.alloc(), &[])?;
    assert!(rt; matches!(fault, CheckFault::Load(Rule::Load(LoadRule::F1))));
    let answer = (Status::Stopped, b"load F1\n".as_slice());
    assert!(rt; replies(rt.alloc(), &CHECK, &[], answer)?);
    Ok(())
}

/// Whether the fault that the files have reads so.
fn has_message(alloc: Global, files: &[File], message: &str) -> Result<bool, Fail> {
    let fault = fault_of(alloc, files)?;
    let text = format!(in alloc; "{fault}")?;
    Ok(text.as_str() == message)
}

#[test]
fn faults_have_messages(rt: HostRuntime) -> Result<(), Fail> {
    let refused = "file 0, line 2: statement 2 breaks M7, step 0";
    assert!(rt; has_message(rt.alloc(), &file(REFUSED), refused)?);
    assert!(rt; has_message(rt.alloc(), &[], "the files break F1")?);
    Ok(())
}

/// Whether the program stops at the call of its writer that fails, which is the last one and is
/// counted alone, and has written what comes before it.
fn stops_writing(alloc: Global, fails_at: usize, answers_zero: bool) -> bool {
    let mut out = failing_writer(alloc, fails_at, answers_zero);
    let answer = run(alloc, Seed::known(), &CHECK, &file(FIRST), &mut out).err();
    let faults = out.faults();
    let out = out.into_inner();
    answer == Some(RunFault::Device)
        && faults == 1
        && out.calls == fails_at
        && REPLY.get(..fails_at.saturating_sub(1)) == Some(out.taken.as_slice())
}

// The reply has 26 bytes, so a writer that takes one byte a call is called 26 times.
#[test]
fn stops_at_a_failed_write(rt: HostRuntime) {
    for fails_at in 1..=26 {
        assert!(rt; stops_writing(rt.alloc(), fails_at, false));
        assert!(rt; stops_writing(rt.alloc(), fails_at, true));
    }
}
