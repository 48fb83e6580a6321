//! Each table of cases is one test. Those of the documents' examples stand with their tables.

ghost use Rattle.std.specs.Prelude.{◌≤◌, length, map, IsTrue};
ghost use Rattle.std.specs.List.{AllByRecursion};
ghost use Rattle.mm_base.specs.MostBytes.{most_bytes};
ghost use Rattle.mm_code.specs.Layout.{texts};
ghost use Rattle.mm_text.specs.Files.{plain_file};
ghost use Rattle.mm_check.specs.Reply.{AsksHanded};

use crate::{
    Case, Part, compressed, damaged, faults, files, finding, incomplete, known, letters, lone,
    names, one_file, orders, prefixes, profiles, proofs, questions, scopes, statements, users,
    uses, why, why_groups, why_hypotheses, why_meaning, why_source, why_text,
};
use mm_base::{File, Seed, Statement};
use mm_check::{Command, WholeQuestion, run};
use mm_core_tests::databases::{DEMO, HEAD};
use mm_rules::Status;
use mm_step::Profile;
use mm_text::{BYTE_LIMIT, Counted, Statements};
use mm_verdict::{Checked, check};
use std::alloc::Global;
use std::process::Abort;
use std::str::from_utf8;
use std::test::Fail;

/// The bytes of the pieces, one after the other.
pub(crate) fn joined(alloc: Global, parts: &[Part]) -> Result<Vec<u8>, Fail> {
    let mut bytes = Vec::new(alloc);
    for part in parts {
        match part {
            Part::Text(text) => bytes.extend_from_slice(text)?,
            Part::Times(text, times) => {
                for _ in 0..*times {
                    bytes.extend_from_slice(text)?;
                }
            }
        }
    }
    Ok(bytes)
}

/// Whether there are at most two patterns, and none has more bytes than files may have.
fn are_short(patterns: &[&[u8]]) -> bool
    ensures { IsTrue result → AllByRecursion (λ p. length p ≤ most_bytes) (texts patterns.now) }
{
    match patterns {
        [] => true,
        [one] => one.len() <= BYTE_LIMIT,
        [one, other] => one.len() <= BYTE_LIMIT && other.len() <= BYTE_LIMIT,
        _ => false,
    }
}

/// Whether a file that a command asks for by its number is handed in, and no pattern is too long.
pub(crate) fn asks_handed(command: &Command, files: &[File<'_>]) -> bool
    ensures { IsTrue result → AsksHanded (map plain_file files.now) command.now }
{
    match command {
        Command::File { file, .. } => *file < files.len(),
        Command::Shorter { file, .. } => *file < files.len(),
        Command::Find { patterns, .. } => are_short(patterns),
        _ => true,
    }
}

/// What a command replies to the files, and its status.
pub(crate) fn reply_to(
    alloc: Global,
    command: &Command,
    files: &[File<'_>],
) -> Result<(Vec<u8>, Status), Fail> {
    if !asks_handed(command, files) {
        return Err(Fail::from("a file that is not handed in"));
    }
    let mut out = Counted::new(Vec::new(alloc));
    let status = run(alloc, Seed::known(), command, files, &mut out)?;
    Ok((out.into_inner(), status))
}

/// What a command replies to the files is this text, with this status.
pub(crate) fn expect_reply(
    rt: &impl Abort,
    alloc: Global,
    command: &Command,
    files: &[File<'_>],
    wanted: (&[u8], u8),
    name: &str,
) -> Result<(), Fail> {
    let (reply, status) = reply_to(alloc, command, files)?;
    let is_wanted = (reply.as_slice(), status.number()) == wanted;
    let text = from_utf8(&reply)?;
    assert!(rt; is_wanted, "in the case {name}: {text}");
    Ok(())
}

/// The bytes of each file of a case.
pub(crate) fn contents_of(
    alloc: Global,
    files: &[(&'static [u8], &'static [Part])],
) -> Result<Vec<Vec<u8>>, Fail> {
    let mut contents = Vec::new(alloc);
    for (_, parts) in files {
        contents.push(joined(alloc, parts)?)?;
    }
    Ok(contents)
}

/// The files of a case, with these bytes.
pub(crate) fn files_of<'a>(
    alloc: Global,
    names: &[(&'static [u8], &'static [Part])],
    contents: &'a [Vec<u8>],
) -> Result<Vec<File<'a>>, Fail> {
    let mut files = Vec::new(alloc);
    for ((name, _), bytes) in names.iter().zip(contents.iter()) {
        files.push(File {
            name,
            bytes: bytes.as_slice(),
        })?;
    }
    Ok(files)
}

/// Runs a case, and compares the text and the status of the reply.
fn compare_case(
    rt: &impl Abort,
    alloc: Global,
    command: &Command,
    case: &Case,
) -> Result<(), Fail> {
    let contents = contents_of(alloc, case.files)?;
    let files = files_of(alloc, case.files, &contents)?;
    expect_reply(
        rt,
        alloc,
        command,
        &files,
        (case.reply, case.status),
        case.name,
    )
}

/// What the program is asked by `check` without an option.
pub(crate) const CHECK: Command<'static> = Command::Whole {
    profile: Profile::Lenient,
    question: WholeQuestion::Check,
};

/// Runs the cases of a table of `check` under a profile.
fn compare_under(
    rt: &impl Abort,
    alloc: Global,
    profile: Profile,
    cases: &[Case],
) -> Result<(), Fail> {
    for case in cases {
        compare_case(
            rt,
            alloc,
            &Command::Whole {
                profile,
                question: WholeQuestion::Check,
            },
            case,
        )?;
    }
    Ok(())
}

/// Runs the cases of a table of `check`.
pub(crate) fn compare(rt: &impl Abort, alloc: Global, cases: &[Case]) -> Result<(), Fail> {
    compare_under(rt, alloc, Profile::Lenient, cases)
}

/// Runs the cases of a table of commands.
pub(crate) fn compare_commands(
    rt: &impl Abort,
    alloc: Global,
    cases: &[(Command<'static>, Case)],
) -> Result<(), Fail> {
    for (command, case) in cases {
        compare_case(rt, alloc, command, case)?;
    }
    Ok(())
}

#[test]
fn whole_files(rt: HostRuntime) -> Result<(), Fail> {
    compare(&rt, rt.alloc(), &one_file::WHOLE_FILES)
}

#[test]
fn tokens(rt: HostRuntime) -> Result<(), Fail> {
    compare(&rt, rt.alloc(), &one_file::TOKENS)
}

#[test]
fn forms(rt: HostRuntime) -> Result<(), Fail> {
    compare(&rt, rt.alloc(), &one_file::FORMS)
}

#[test]
fn keywords_in_statements(rt: HostRuntime) -> Result<(), Fail> {
    compare(&rt, rt.alloc(), &one_file::KEYWORDS_IN_STATEMENTS)
}

#[test]
fn keywords_between_statements(rt: HostRuntime) -> Result<(), Fail> {
    compare(&rt, rt.alloc(), &one_file::KEYWORDS_BETWEEN_STATEMENTS)
}

#[test]
fn declarations(rt: HostRuntime) -> Result<(), Fail> {
    compare(&rt, rt.alloc(), &one_file::DECLARATIONS)
}

#[test]
fn meaning(rt: HostRuntime) -> Result<(), Fail> {
    compare(&rt, rt.alloc(), &one_file::MEANING)
}

#[test]
fn steps(rt: HostRuntime) -> Result<(), Fail> {
    compare(&rt, rt.alloc(), &one_file::STEPS)
}

#[test]
fn further_forms(rt: HostRuntime) -> Result<(), Fail> {
    compare(&rt, rt.alloc(), &one_file::FURTHER_FORMS)
}

#[test]
fn blocks(rt: HostRuntime) -> Result<(), Fail> {
    compare(&rt, rt.alloc(), &scopes::BLOCKS)
}

#[test]
fn hypotheses(rt: HostRuntime) -> Result<(), Fail> {
    compare(&rt, rt.alloc(), &scopes::HYPOTHESES)
}

#[test]
fn names(rt: HostRuntime) -> Result<(), Fail> {
    compare(&rt, rt.alloc(), &names::NAMES)
}

#[test]
fn comments(rt: HostRuntime) -> Result<(), Fail> {
    compare(&rt, rt.alloc(), &files::COMMENTS)
}

#[test]
fn inclusions(rt: HostRuntime) -> Result<(), Fail> {
    compare(&rt, rt.alloc(), &files::INCLUSIONS)
}

#[test]
fn indices_of_inclusions(rt: HostRuntime) -> Result<(), Fail> {
    compare(&rt, rt.alloc(), &files::INDICES_OF_INCLUSIONS)
}

#[test]
fn after_head(rt: HostRuntime) -> Result<(), Fail> {
    compare(&rt, rt.alloc(), &proofs::AFTER_HEAD)
}

#[test]
fn order_after_head(rt: HostRuntime) -> Result<(), Fail> {
    compare(&rt, rt.alloc(), &proofs::ORDER_AFTER_HEAD)
}

#[test]
fn whole_language(rt: HostRuntime) -> Result<(), Fail> {
    compare(&rt, rt.alloc(), &proofs::WHOLE_LANGUAGE)
}

#[test]
fn long_pairs(rt: HostRuntime) -> Result<(), Fail> {
    compare(&rt, rt.alloc(), &proofs::LONG_PAIRS)
}

#[test]
fn listed(rt: HostRuntime) -> Result<(), Fail> {
    compare(&rt, rt.alloc(), &incomplete::LISTED)
}

#[test]
fn all_faults(rt: HostRuntime) -> Result<(), Fail> {
    compare_commands(&rt, rt.alloc(), &faults::FAULTS)
}

#[test]
fn explained_faults(rt: HostRuntime) -> Result<(), Fail> {
    compare_commands(&rt, rt.alloc(), &why::EXPLAINED)
}

#[test]
fn explained_faults_in_order(rt: HostRuntime) -> Result<(), Fail> {
    compare_commands(&rt, rt.alloc(), &why::ORDERED)
}

#[test]
fn explained_faults_of_a_group(rt: HostRuntime) -> Result<(), Fail> {
    compare_commands(&rt, rt.alloc(), &why_groups::GROUPS)
}

#[test]
fn explained_faults_with_unused_labels(rt: HostRuntime) -> Result<(), Fail> {
    compare_commands(&rt, rt.alloc(), &why::UNUSED)
}

#[test]
fn explained_faults_with_hypotheses(rt: HostRuntime) -> Result<(), Fail> {
    compare_commands(&rt, rt.alloc(), &why_hypotheses::HYPOTHESES)
}

#[test]
fn explained_faults_with_their_lines(rt: HostRuntime) -> Result<(), Fail> {
    compare_commands(&rt, rt.alloc(), &why_source::SHOWN)
}

#[test]
fn explained_faults_of_the_text(rt: HostRuntime) -> Result<(), Fail> {
    compare_commands(&rt, rt.alloc(), &why_text::TEXTS)
}

#[test]
fn explained_beginnings(rt: HostRuntime) -> Result<(), Fail> {
    compare_commands(&rt, rt.alloc(), &why_text::BEGUN)
}

#[test]
fn labels_stated_further_down(rt: HostRuntime) -> Result<(), Fail> {
    compare_commands(&rt, rt.alloc(), &why_text::LATER)
}

#[test]
fn explained_faults_of_declarations(rt: HostRuntime) -> Result<(), Fail> {
    compare_commands(&rt, rt.alloc(), &why_meaning::DECLARATIONS)
}

#[test]
fn explained_faults_of_labels(rt: HostRuntime) -> Result<(), Fail> {
    compare_commands(&rt, rt.alloc(), &why_meaning::LABELS)
}

#[test]
fn explained_faults_of_symbols(rt: HostRuntime) -> Result<(), Fail> {
    compare_commands(&rt, rt.alloc(), &why_meaning::SYMBOLS)
}

/// Whether 20 statements and one complete proof are counted beside the incomplete proof of `u1`.
fn is_counted_beside(checked: &Checked) -> bool {
    match checked.incomplete() {
        [only] => {
            checked.statements() == 20
                && checked.proofs() == 1
                && checked.name(*only) == b"u1".as_slice()
        }
        _ => false,
    }
}

#[test]
fn counted_beside_incomplete(rt: HostRuntime) -> Result<(), Fail> {
    let mut bytes = Vec::from_slice(rt.alloc(), HEAD)?;
    bytes.extend_from_slice(b"u1 $p |- t = t $= ? $. u2 $p |- t = t $= tt u1 $.\n")?;
    let files = [File {
        name: b"h.mm",
        bytes: bytes.as_slice(),
    }];
    match check(rt.alloc(), Seed::known(), &files) {
        Ok(checked) => {
            let is_right = is_counted_beside(&checked);
            drop(checked);
            assert!(rt; is_right);
            Ok(())
        }
        Err(_) => Err(Fail::from("refused")),
    }
}

#[test]
fn checked_prefixes(rt: HostRuntime) -> Result<(), Fail> {
    compare(&rt, rt.alloc(), &incomplete::CHECKED_PREFIXES)
}

#[test]
fn after_unknown(rt: HostRuntime) -> Result<(), Fail> {
    compare(&rt, rt.alloc(), &incomplete::AFTER_UNKNOWN)
}

#[test]
fn faults_of_tokens_of_prefixes(rt: HostRuntime) -> Result<(), Fail> {
    compare(&rt, rt.alloc(), &prefixes::FAULTS_OF_TOKENS)
}

#[test]
fn faults_of_steps_of_prefixes(rt: HostRuntime) -> Result<(), Fail> {
    compare(&rt, rt.alloc(), &prefixes::FAULTS_OF_STEPS)
}

#[test]
fn strict_proofs(rt: HostRuntime) -> Result<(), Fail> {
    compare_under(&rt, rt.alloc(), Profile::Strict, &profiles::ACCEPTED)
}

#[test]
fn saved_proofs_are_strict(rt: HostRuntime) -> Result<(), Fail> {
    compare_under(&rt, rt.alloc(), Profile::Strict, &profiles::SAVED)
}

#[test]
fn loose_proofs(rt: HostRuntime) -> Result<(), Fail> {
    compare_under(&rt, rt.alloc(), Profile::Strict, &profiles::LOOSE)
}

#[test]
fn order_of_the_strict_form(rt: HostRuntime) -> Result<(), Fail> {
    compare_under(&rt, rt.alloc(), Profile::Strict, &profiles::ORDER)
}

#[test]
fn limits_of_the_strict_profile(rt: HostRuntime) -> Result<(), Fail> {
    compare_under(&rt, rt.alloc(), Profile::Strict, &profiles::LIMITS)
}

#[test]
fn over_the_limit_of_the_strict_profile(rt: HostRuntime) -> Result<(), Fail> {
    compare_under(&rt, rt.alloc(), Profile::Strict, &profiles::OVER_THE_LIMIT)
}

#[test]
fn prefixes_under_the_strict_profile(rt: HostRuntime) -> Result<(), Fail> {
    compare_under(&rt, rt.alloc(), Profile::Strict, &profiles::PREFIXES)
}

#[test]
fn accepted(rt: HostRuntime) -> Result<(), Fail> {
    compare(&rt, rt.alloc(), &compressed::ACCEPTED)
}

#[test]
fn doublings(rt: HostRuntime) -> Result<(), Fail> {
    compare(&rt, rt.alloc(), &compressed::DOUBLINGS)
}

#[test]
fn faults_of_steps(rt: HostRuntime) -> Result<(), Fail> {
    compare(&rt, rt.alloc(), &compressed::FAULTS_OF_STEPS)
}

#[test]
fn faults_of_text(rt: HostRuntime) -> Result<(), Fail> {
    compare(&rt, rt.alloc(), &compressed::FAULTS_OF_TEXT)
}

#[test]
fn great_numbers(rt: HostRuntime) -> Result<(), Fail> {
    compare(&rt, rt.alloc(), &compressed::GREAT_NUMBERS)
}

#[test]
fn listed_indices(rt: HostRuntime) -> Result<(), Fail> {
    compare(&rt, rt.alloc(), &compressed::LISTED_INDICES)
}

#[test]
fn past_the_list(rt: HostRuntime) -> Result<(), Fail> {
    compare(&rt, rt.alloc(), &compressed::PAST_THE_LIST)
}

#[test]
fn order_of_text(rt: HostRuntime) -> Result<(), Fail> {
    compare(&rt, rt.alloc(), &orders::TEXT)
}

#[test]
fn order_of_files(rt: HostRuntime) -> Result<(), Fail> {
    compare(&rt, rt.alloc(), &orders::FILES)
}

#[test]
fn order_of_meaning(rt: HostRuntime) -> Result<(), Fail> {
    compare(&rt, rt.alloc(), &orders::MEANING)
}

#[test]
fn order_of_proofs(rt: HostRuntime) -> Result<(), Fail> {
    compare(&rt, rt.alloc(), &orders::PROOFS)
}

#[test]
fn frames(rt: HostRuntime) -> Result<(), Fail> {
    compare(&rt, rt.alloc(), &orders::FRAMES)
}

#[test]
fn long_hypotheses(rt: HostRuntime) -> Result<(), Fail> {
    compare(&rt, rt.alloc(), &orders::LONG_HYPOTHESES)
}

#[test]
fn nested_blocks(rt: HostRuntime) -> Result<(), Fail> {
    compare(&rt, rt.alloc(), &damaged::NESTED_BLOCKS)
}

#[test]
fn axioms(rt: HostRuntime) -> Result<(), Fail> {
    compare_commands(&rt, rt.alloc(), &questions::AXIOMS)
}

#[test]
fn unproved_theorems(rt: HostRuntime) -> Result<(), Fail> {
    compare_commands(&rt, rt.alloc(), &questions::UNPROVED)
}

#[test]
fn unanswered_axioms(rt: HostRuntime) -> Result<(), Fail> {
    compare_commands(&rt, rt.alloc(), &questions::AXIOMS_UNANSWERED)
}

#[test]
fn steps_of_proofs(rt: HostRuntime) -> Result<(), Fail> {
    compare_commands(&rt, rt.alloc(), &questions::STEPS)
}

#[test]
fn unanswered_steps(rt: HostRuntime) -> Result<(), Fail> {
    compare_commands(&rt, rt.alloc(), &questions::STEPS_UNANSWERED)
}

#[test]
fn axioms_of_refused_files(rt: HostRuntime) -> Result<(), Fail> {
    compare_commands(&rt, rt.alloc(), &questions::AXIOMS_REFUSED)
}

#[test]
fn chains_and_axioms_by_type_code(rt: HostRuntime) -> Result<(), Fail> {
    compare_commands(&rt, rt.alloc(), &finding::CHAINS)
}

#[test]
fn found_assertions(rt: HostRuntime) -> Result<(), Fail> {
    compare_commands(&rt, rt.alloc(), &finding::FOUND)
}

#[test]
fn statements_with_their_comments(rt: HostRuntime) -> Result<(), Fail> {
    compare_commands(&rt, rt.alloc(), &statements::COMMENTED)
}

#[test]
fn statements_without_comments(rt: HostRuntime) -> Result<(), Fail> {
    compare_commands(&rt, rt.alloc(), &statements::UNCOMMENTED)
}

#[test]
fn tried_texts(rt: HostRuntime) -> Result<(), Fail> {
    compare_commands(&rt, rt.alloc(), &lone::TRIED)
}

#[test]
fn faults_of_tried_texts(rt: HostRuntime) -> Result<(), Fail> {
    compare_commands(&rt, rt.alloc(), &lone::TRIED_FAULTS)
}

#[test]
fn texts_without_tokens(rt: HostRuntime) -> Result<(), Fail> {
    compare_commands(&rt, rt.alloc(), &lone::NO_TOKENS)
}

#[test]
fn known_faults(rt: HostRuntime) -> Result<(), Fail> {
    compare_commands(&rt, rt.alloc(), &lone::KNOWN_FAULTS)
}

#[test]
fn normal_proofs_so_far(rt: HostRuntime) -> Result<(), Fail> {
    compare_commands(&rt, rt.alloc(), &known::KNOWN_NORMAL)
}

#[test]
fn normal_proofs_before_faults(rt: HostRuntime) -> Result<(), Fail> {
    compare_commands(&rt, rt.alloc(), &known::FAULTY_NORMAL)
}

#[test]
fn theorems_not_found(rt: HostRuntime) -> Result<(), Fail> {
    compare_commands(&rt, rt.alloc(), &lone::NOT_FOUND)
}

#[test]
fn uses_of_steps(rt: HostRuntime) -> Result<(), Fail> {
    compare_commands(&rt, rt.alloc(), &uses::USES)
}

#[test]
fn essential_steps(rt: HostRuntime) -> Result<(), Fail> {
    compare_commands(&rt, rt.alloc(), &uses::ESSENTIAL)
}

#[test]
fn uses_of_known_steps(rt: HostRuntime) -> Result<(), Fail> {
    compare_commands(&rt, rt.alloc(), &uses::KNOWN_USES)
}

#[test]
fn letters_of_steps(rt: HostRuntime) -> Result<(), Fail> {
    compare_commands(&rt, rt.alloc(), &letters::LETTERS)
}

#[test]
fn letters_of_known_steps(rt: HostRuntime) -> Result<(), Fail> {
    compare_commands(&rt, rt.alloc(), &letters::KNOWN_LETTERS)
}

#[test]
fn unanswered_uses(rt: HostRuntime) -> Result<(), Fail> {
    compare_commands(&rt, rt.alloc(), &uses::USES_UNANSWERED)
}

#[test]
fn users_of_assertions(rt: HostRuntime) -> Result<(), Fail> {
    compare_commands(&rt, rt.alloc(), &users::USERS)
}

#[test]
fn all_users_of_assertions(rt: HostRuntime) -> Result<(), Fail> {
    compare_commands(&rt, rt.alloc(), &users::ALL_USERS)
}

#[test]
fn users_beside_faults(rt: HostRuntime) -> Result<(), Fail> {
    compare_commands(&rt, rt.alloc(), &users::USERS_BESIDE_FAULTS)
}

#[test]
fn unanswered_users(rt: HostRuntime) -> Result<(), Fail> {
    compare_commands(&rt, rt.alloc(), &users::USERS_UNANSWERED)
}

#[test]
fn axioms_of_all_theorems(rt: HostRuntime) -> Result<(), Fail> {
    compare_commands(&rt, rt.alloc(), &users::ALL_AXIOMS)
}

#[test]
fn statements_at_labels(rt: HostRuntime) -> Result<(), Fail> {
    compare_commands(&rt, rt.alloc(), &statements::STATEMENTS)
}

/// What is done to the byte at a position.
#[derive(Clone, Copy)]
enum Damage {
    Cut,
    Put(u8),
}

/// The demonstration database, damaged at a position.
fn damaged_at(alloc: Global, damage: Damage, index: usize) -> Result<Vec<u8>, Fail> {
    let mut bytes = Vec::from_slice(alloc, DEMO)?;
    match damage {
        Damage::Cut => bytes.truncate(index),
        Damage::Put(put) => {
            if let Some(byte) = bytes.get_mut(index) {
                *byte = put;
            }
        }
    }
    Ok(bytes)
}

/// The positions from one to before another, and the reply and the status at each of them.
#[derive(Clone, Copy)]
struct Span<'a> {
    first: usize,
    end: usize,
    status: u8,
    reply: &'a str,
}

/// The span that a line of a table tells.
fn span_of(line: &str) -> Option<Span<'_>> {
    let (first, rest) = line.split_once(' ')?;
    let (end, rest) = rest.split_once(' ')?;
    let (status, reply) = rest.split_once(' ')?;
    Some(Span {
        first: first.parse().ok()?,
        end: end.parse().ok()?,
        status: status.parse().ok()?,
        reply,
    })
}

/// Checks the demonstration database with each position of a span damaged, which a line of a table
/// tells.
fn sweep_span(rt: &impl Abort, alloc: Global, damage: Damage, line: &str) -> Result<(), Fail> {
    let span = span_of(line).ok_or("a line of the table")?;
    let mut reply = Vec::from_slice(alloc, span.reply.as_bytes())?;
    reply.push(b'\n')?;
    for index in span.first..span.end {
        let bytes = damaged_at(alloc, damage, index)?;
        let files = [File {
            name: b"demo0.mm",
            bytes: bytes.as_slice(),
        }];
        let wanted = (reply.as_slice(), span.status);
        expect_reply(rt, alloc, &CHECK, &files, wanted, line)?;
    }
    Ok(())
}

/// Checks the demonstration database with each position of the spans damaged.
fn sweep(rt: &impl Abort, alloc: Global, damage: Damage, spans: &str) -> Result<(), Fail> {
    for line in spans.lines() {
        sweep_span(rt, alloc, damage, line)?;
    }
    Ok(())
}

#[test]
fn cut(rt: HostRuntime) -> Result<(), Fail> {
    sweep(&rt, rt.alloc(), Damage::Cut, damaged::CUT)
}

#[test]
fn with_dollar(rt: HostRuntime) -> Result<(), Fail> {
    sweep(&rt, rt.alloc(), Damage::Put(b'$'), damaged::WITH_DOLLAR)
}

#[test]
fn span_of_the_demonstration(rt: HostRuntime) -> Result<(), Fail> {
    let files = [File {
        name: b"demo0.mm",
        bytes: DEMO,
    }];
    let Ok(mut statements) = Statements::new(rt.alloc(), Seed::known(), &files) else {
        return Err(Fail::from("refused"));
    };
    let mut statement = Statement::empty(rt.alloc());
    for _ in 0..19 {
        assert!(rt; matches!(statements.read(&mut statement), Ok(true)));
    }
    assert_eq!(rt; statement.first.text, b"th1".as_slice());
    assert_eq!(rt; statement.span, (390, 519));
    assert!(rt; matches!(statements.read(&mut statement), Ok(false)));
    Ok(())
}

/// Names of files, one for each number.
fn numbered_names(alloc: Global, count: usize) -> Result<Vec<String>, Fail> {
    let mut names = Vec::new(alloc);
    for number in 0..count {
        names.push(format!(in alloc; "f{number}")?)?;
    }
    Ok(names)
}

/// The contents of files that each include the next one; the last one is empty.
fn including_next(alloc: Global, names: &[String]) -> Result<Vec<String>, Fail> {
    let mut contents = Vec::new(alloc);
    for name in names.iter().skip(1) {
        contents.push(format!(in alloc; "$[ {name} $]\n")?)?;
    }
    contents.push(String::new(alloc))?;
    Ok(contents)
}

#[test]
fn ten_thousand_files(rt: HostRuntime) -> Result<(), Fail> {
    let alloc = rt.alloc();
    let names = numbered_names(alloc, 10_000)?;
    let contents = including_next(alloc, &names)?;
    let mut files = Vec::new(alloc);
    for (name, content) in names.iter().zip(contents.iter()) {
        files.push(File {
            name: name.as_bytes(),
            bytes: content.as_bytes(),
        })?;
    }
    let yes: &[u8] = b"yes 0 statements 0 proofs\n";
    expect_reply(
        &rt,
        alloc,
        &CHECK,
        &files,
        (yes, 0),
        "files that include each other",
    )
}
