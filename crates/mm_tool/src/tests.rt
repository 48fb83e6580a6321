//! The program over files in memory. What it prints, and how it ends on a real file system, is
//! tested by `scripts/statuses.sh`.

mod failing;
mod folder;
mod hint;
mod progress_line;
mod words;

use failing::{FailingFolder, Failure, Wordless, failing_writer};
use folder::{Entry, Shelf};
use mm_base::Seed;
use mm_check::{Command, WholeQuestion};
use mm_help::{Page, Texts};
use mm_rules::Status;
use mm_serve::{ProgressLine, Resources, run_over, serve_words, start};
use mm_step::Profile;
use mm_text::Counted;
use mm_words::{Request, TextQuestion, request_of};
use std::alloc::Global;
use std::cell::Cell;
use std::io::ErrorKind;

/// What `mm check` asks without an option.
const CHECK: Command<'static> = Command::Whole {
    profile: Profile::Lenient,
    question: WholeQuestion::Check,
};

const FIRST: &[u8] = b"$c 0 + ( ) term $.
$v t r $.
tt $f term t $.
tr $f term r $.
tze $a term 0 $.
tpl $a term ( t + r ) $.
th $p term ( 0 + 0 ) $= tze tze tpl $.
";

/// The same with the packed proof.
const PACKED: &[u8] = b"$c 0 + ( ) term $.
$v t r $.
tt $f term t $.
tr $f term r $.
tze $a term 0 $.
tpl $a term ( t + r ) $.
th $p term ( 0 + 0 ) $=
      ( tze tpl )
      AAB
$.
";

const ENTRIES: [Entry; 6] = [
    Entry {
        name: "first.mm",
        bytes: FIRST,
        breaks: false,
    },
    Entry {
        name: "breaks.mm",
        bytes: FIRST,
        breaks: true,
    },
    Entry {
        name: "four.mm",
        bytes: b"1234",
        breaks: false,
    },
    Entry {
        name: "twice.mm",
        bytes: b"$( one\ntwo $)\n$c 0 $.\n$c 0 $.\n",
        breaks: false,
    },
    Entry {
        name: "packed.mm",
        bytes: PACKED,
        breaks: false,
    },
    Entry {
        name: "less.mm",
        bytes: b"$c 0 term $. tze $a term 0 $. th $a term 0 $.",
        breaks: false,
    },
];

/// Texts that these tests don't ask for: what takes the program's own takes long to prove.
const TEXTS: Texts<'static> = Texts {
    help: "help\n",
    pages: &[Page {
        command: "check",
        text: "check\n",
    }],
    version: "version\n",
    codes: "codes\n",
    chapters: &[],
};

/// Memory, and the seed that everybody knows.
fn resources(alloc: Global) -> Resources {
    Resources {
        alloc,
        seed: Seed::known(),
    }
}

/// Progress that isn't shown.
fn unshown(alloc: Global) -> ProgressLine<Vec<u8>> {
    ProgressLine::new(Vec::new(alloc), false)
}

/// The status, and what was written to standard output and to standard error.
fn outcome_of(alloc: Global, words: &[&str]) -> (u8, Vec<u8>, Vec<u8>) {
    let entries = ENTRIES;
    let mut out = Counted::new(Vec::new(alloc));
    let mut err = Counted::new(Vec::new(alloc));
    let status = serve_words(
        resources(alloc),
        &Shelf(&entries),
        &TEXTS,
        words,
        &mut out,
        &mut err,
        &mut unshown(alloc),
    );
    (status, out.into_inner(), err.into_inner())
}

/// What stands at `tze`, which has an empty frame.
const STATED: &[u8] = b"first.mm:5:1\ntze $a term 0\n";

#[test]
fn replies(rt: HostRuntime) {
    for (words, reply) in [
        (
            ["mm", "check", "first.mm"].as_slice(),
            b"yes 7 statements 1 proofs\n".as_slice(),
        ),
        (
            ["mm", "check", "--strict", "first.mm"].as_slice(),
            b"yes 7 statements 1 proofs\n".as_slice(),
        ),
        (
            ["mm", "axioms", "th", "first.mm"].as_slice(),
            b"tze\ntpl\n".as_slice(),
        ),
        (
            ["mm", "axioms", "--all", "first.mm"].as_slice(),
            b"th tze tpl\n".as_slice(),
        ),
        (
            ["mm", "axioms", "--to", "tpl", "th", "first.mm"].as_slice(),
            b"th\ntpl\n".as_slice(),
        ),
        (
            ["mm", "find", "$? + $?", "first.mm", "--and", "t"].as_slice(),
            b"tpl $a : term ( t + r )\n".as_slice(),
        ),
        (["mm", "statement", "tze", "first.mm"].as_slice(), STATED),
        (
            ["mm", "show", "th", "first.mm"].as_slice(),
            b"1 tze term 0\n2 tze term 0\n3 tpl term ( 0 + 0 )\n".as_slice(),
        ),
        (
            ["mm", "packed", "--file", "th", "first.mm"].as_slice(),
            PACKED,
        ),
        (
            ["mm", "small", "th", "first.mm"].as_slice(),
            b"      ( tze tpl )\n      AAB\n".as_slice(),
        ),
        (
            ["mm", "small", "--file", "th", "first.mm"].as_slice(),
            FIRST,
        ),
        (["mm", "help", "check"].as_slice(), b"check\n".as_slice()),
        (["mm", "check", "--help"].as_slice(), b"check\n".as_slice()),
        (["mm", "version"].as_slice(), b"version\n".as_slice()),
    ] {
        let (status, out, err) = outcome_of(rt.alloc(), words);
        assert_eq!(rt; status, 0, "at {words:?}");
        assert!(rt; out.as_slice() == reply, "at {words:?}");
        assert!(rt; err.is_empty(), "at {words:?}");
    }
}

#[test]
fn takes_flags_of_minimize_that_agree(rt: HostRuntime) {
    for (first, second) in [
        ("--all", "--list"),
        ("--list", "--duplicates"),
        ("--file", "--all"),
        ("--file", "--list"),
        ("--file", "--duplicates"),
    ] {
        let words = ["mm", "minimize", first, second, "first.mm", "first.mm"];
        let (status, out, err) = outcome_of(rt.alloc(), &words);
        assert_eq!(rt; status, 2);
        assert!(rt; out.is_empty());
        let told = b"mm: --file and --list stand alone, and --duplicates beside --all\n";
        assert!(rt; err.starts_with(told.as_slice()));
    }
}

#[test]
fn takes_numbers_of_lemmas(rt: HostRuntime) {
    for (option, number) in [("--most", "0"), ("--least", "x"), ("--least", "4294967296")] {
        let words = ["mm", "lemmas", "--list", option, number, "first.mm"];
        let (status, out, err) = outcome_of(rt.alloc(), &words);
        assert_eq!(rt; status, 2);
        assert!(rt; out.is_empty());
        assert!(rt; err.starts_with(b"error: invalid value '"));
    }
}

#[test]
fn shortens_one_of_the_files(rt: HostRuntime) {
    let words = ["mm", "minimize", "--all", "none.mm", "first.mm"];
    let (status, out, err) = outcome_of(rt.alloc(), &words);
    assert_eq!(rt; status, 2);
    assert!(rt; out.is_empty());
    assert!(rt; err.starts_with(b"mm: none.mm is none of the files\n"));
}

// Without `--all` the one word is a label.
#[test]
fn asks_for_a_file_behind_the_label(rt: HostRuntime) {
    let (status, out, err) = outcome_of(rt.alloc(), &["mm", "axioms", "first.mm"]);
    assert_eq!(rt; status, 2);
    assert!(rt; out.is_empty());
    assert!(rt; err.starts_with(b"error: the following required arguments were not provided:\n"));
}

#[test]
fn takes_one_flag_of_show(rt: HostRuntime) {
    for (first, second) in [
        ("--uses", "--essential"),
        ("--letters", "--uses"),
        ("--essential", "--letters"),
    ] {
        let words = ["mm", "show", "--known", first, second, "th", "first.mm"];
        let (status, out, err) = outcome_of(rt.alloc(), &words);
        assert_eq!(rt; status, 2);
        assert!(rt; out.is_empty());
        assert!(rt; err.starts_with(b"mm: --letters, --essential and --uses exclude each other\n"));
    }
}

#[test]
fn refuses_a_known_proof_beside_files(rt: HostRuntime) {
    for words in [
        ["mm", "normal", "--known", "--file", "th", "first.mm"],
        ["mm", "normal", "--all", "--known", "first.mm", "first.mm"],
    ] {
        let (status, out, err) = outcome_of(rt.alloc(), &words);
        assert_eq!(rt; status, 2);
        assert!(rt; out.is_empty());
        assert!(rt; err.starts_with(b"mm: --known excludes --file and --all\n"));
    }
}

/// Whether the words ask this about the text in `proof.txt`, the theorem `th` and `first.mm`.
fn asks_about_a_text(alloc: Global, words: &[&str], wanted: TextQuestion) -> bool {
    match request_of(alloc, words) {
        Ok(Request::Text(asked)) => {
            asked.question == wanted
                && asked.label == "th"
                && asked.proof == "proof.txt"
                && asked.names.as_slice() == ["first.mm"].as_slice()
        }
        _ => false,
    }
}

#[test]
fn asks_about_a_text_by_its_words(rt: HostRuntime) {
    for (name, wanted) in [("same", TextQuestion::Same), ("try", TextQuestion::Try)] {
        let words = ["mm", name, "th", "proof.txt", "first.mm"];
        assert!(rt; asks_about_a_text(rt.alloc(), &words, wanted), "at {name}");
    }
}

// The place is one in the file with the text.
#[test]
fn tells_the_place_in_the_file_of_the_text(rt: HostRuntime) {
    let words = ["mm", "try", "th", "four.mm", "first.mm"];
    let (status, out, err) = outcome_of(rt.alloc(), &words);
    assert_eq!(rt; status, 1);
    assert!(rt;
        out.as_slice()
            == b"text P2 0
four.mm:1:1: P2: no earlier statement has the label
  token: 1234
"
                .as_slice()
    );
    assert!(rt; err.is_empty());
}

const NOTE: &[u8] = b"mm: note: four.mm was not included, so nothing in it was checked\n";

// A reply of any kind is as it is without the note.
#[test]
fn notes_a_file_that_was_not_included(rt: HostRuntime) {
    for (words, wanted, reply, note) in [
        (
            ["mm", "check", "first.mm", "four.mm"].as_slice(),
            0,
            b"yes 7 statements 1 proofs\n".as_slice(),
            NOTE,
        ),
        (
            ["mm", "check", "twice.mm", "four.mm"].as_slice(),
            1,
            b"no twice.mm 4 - M2 0\n".as_slice(),
            NOTE,
        ),
        (
            ["mm", "axioms", "tt", "first.mm", "four.mm"].as_slice(),
            1,
            b"ask A2 tt\n".as_slice(),
            NOTE,
        ),
        (
            ["mm", "check", "first.mm", "first.mm"].as_slice(),
            4,
            b"load F2\n".as_slice(),
            b"".as_slice(),
        ),
    ] {
        let (status, out, err) = outcome_of(rt.alloc(), words);
        assert_eq!(rt; status, wanted, "at {words:?}");
        assert!(rt; out.as_slice() == reply, "at {words:?}");
        assert!(rt; err.as_slice() == note, "at {words:?}");
    }
}

/// The reply to two versions of which the statements say the same.
const NONE: &[u8] =
    b"differ 0 gone 0 added 0 changed 0 reproved 0 renamed 0 moved 0 further 0 less\n";

// The packed form of a file is a version in which nothing changed. Each version is a database of its
// own.
#[test]
fn tells_what_changed(rt: HostRuntime) {
    for (words, wanted, reply, told) in [
        (
            ["mm", "diff", "first.mm", "packed.mm"].as_slice(),
            0,
            NONE,
            b"".as_slice(),
        ),
        (
            ["mm", "diff", "first.mm", "--", "first.mm", "four.mm"].as_slice(),
            0,
            NONE,
            NOTE,
        ),
        (
            ["mm", "diff", "first.mm", "less.mm"].as_slice(),
            1,
            b"G tpl\nC th\ndiffer 1 gone 0 added 1 changed 0 reproved 0 renamed 0 moved 0 further 0 less\n".as_slice(),
            b"".as_slice(),
        ),
        (
            ["mm", "diff", "less.mm", "first.mm"].as_slice(),
            1,
            b"A tpl\nC th\ndiffer 0 gone 1 added 1 changed 0 reproved 0 renamed 0 moved 0 further 0 less\n".as_slice(),
            b"".as_slice(),
        ),
        (
            ["mm", "diff", "less.mm", "--", "twice.mm"].as_slice(),
            1,
            b"no twice.mm 4 - M2 0\n".as_slice(),
            b"".as_slice(),
        ),
        (
            ["mm", "diff", "first.mm", "breaks.mm"].as_slice(),
            4,
            b"".as_slice(),
            b"mm: cannot read breaks.mm\n".as_slice(),
        ),
    ] {
        let (status, out, err) = outcome_of(rt.alloc(), words);
        assert_eq!(rt; status, wanted, "at {words:?}");
        assert!(rt; out.as_slice() == reply, "at {words:?}");
        assert!(rt; err.as_slice() == told, "at {words:?}");
    }
}

#[test]
fn compares_two_versions(rt: HostRuntime) {
    for words in [
        ["mm", "diff", "first.mm", "--"].as_slice(),
        ["mm", "diff", "--", "first.mm", "less.mm"].as_slice(),
        ["mm", "diff", "first.mm", "less.mm", "four.mm"].as_slice(),
    ] {
        let (status, out, err) = outcome_of(rt.alloc(), words);
        assert_eq!(rt; status, 2, "at {words:?}");
        assert!(rt; out.is_empty(), "at {words:?}");
        assert!(rt; err.starts_with(b"mm: diff takes two files, or files on both sides of --\n"));
    }
}

// The line comes after the note on a file, and only beside A1.
#[test]
fn tells_the_nearest_labels(rt: HostRuntime) {
    for (words, reply, told) in [
        (
            ["mm", "axioms", "tzee", "first.mm"].as_slice(),
            b"ask A1 tzee\n".as_slice(),
            b"mm: the nearest label is tze\n".as_slice(),
        ),
        (
            ["mm", "show", "--known", "ht", "first.mm"].as_slice(),
            b"ask A1 ht\n".as_slice(),
            b"mm: the nearest labels are tt, th\n".as_slice(),
        ),
        (
            ["mm", "normal", "tlp", "first.mm", "four.mm"].as_slice(),
            b"ask A1 tlp\n".as_slice(),
            b"mm: note: four.mm was not included, so nothing in it was checked
mm: the nearest label is tpl\n"
                .as_slice(),
        ),
        (
            ["mm", "axioms", "other", "first.mm"].as_slice(),
            b"ask A1 other\n".as_slice(),
            b"".as_slice(),
        ),
        (
            ["mm", "axioms", "tr", "first.mm"].as_slice(),
            b"ask A2 tr\n".as_slice(),
            b"".as_slice(),
        ),
        (
            ["mm", "axioms", "tzee", "twice.mm"].as_slice(),
            b"no twice.mm 4 - M2 0\n".as_slice(),
            b"".as_slice(),
        ),
    ] {
        let (status, out, err) = outcome_of(rt.alloc(), words);
        assert_eq!(rt; status, 1, "at {words:?}");
        assert!(rt; out.as_slice() == reply, "at {words:?}");
        assert!(rt; err.as_slice() == told, "at {words:?}");
    }
}

// What a comment says is left out as the file is read, but not its line feeds.
#[test]
fn counts_the_lines_of_comments(rt: HostRuntime) {
    let (status, out, err) = outcome_of(rt.alloc(), &["mm", "check", "twice.mm"]);
    assert_eq!(rt; status, 1);
    assert!(rt; out.as_slice() == b"no twice.mm 4 - M2 0\n".as_slice());
    assert!(rt; err.is_empty());
}

// The file can be opened, and its last read fails.
#[test]
fn names_the_file_that_breaks(rt: HostRuntime) {
    let (status, out, err) = outcome_of(rt.alloc(), &["mm", "check", "first.mm", "breaks.mm"]);
    assert_eq!(rt; status, 4);
    assert!(rt; out.is_empty());
    assert!(rt; err.as_slice() == b"mm: cannot read breaks.mm\n".as_slice());
}

// The first two files have eight bytes, and the last one isn't there.
#[test]
fn refuses_files_that_are_too_long(rt: HostRuntime) {
    let entries = ENTRIES;
    let folder = Shelf(&entries);
    let names = ["four.mm", "four.mm", "none.mm"];
    let mut out = Counted::new(Vec::new(rt.alloc()));
    let answer = run_over(
        resources(rt.alloc()),
        &folder,
        &CHECK,
        &names,
        7,
        &mut out,
        &mut unshown(rt.alloc()),
    );
    let status = answer.ok().map(|answer| answer.status);
    assert_eq!(rt; status, Some(Status::Stopped));
    assert!(rt; out.into_inner().as_slice() == b"load F3\n".as_slice());

    let mut out = Counted::new(Vec::new(rt.alloc()));
    let answer = run_over(
        resources(rt.alloc()),
        &folder,
        &CHECK,
        &names,
        8,
        &mut out,
        &mut unshown(rt.alloc()),
    );
    assert!(rt; answer.is_err());
    assert!(rt; out.into_inner().is_empty());
}

const STEPS: &[u8] = b"1 tze term 0\n2 tze term 0\n3 tpl term ( 0 + 0 )\n";

/// Whether the program stops at the call of standard output that fails, and has written what comes
/// before it.
fn stops_writing(
    alloc: Global,
    words: &[&str],
    reply: &[u8],
    fails_at: usize,
    failure: Failure,
) -> bool {
    let entries = ENTRIES;
    let mut out = failing_writer(alloc, fails_at, failure);
    let mut err = Counted::new(Vec::new(alloc));
    let status = serve_words(
        resources(alloc),
        &Shelf(&entries),
        &TEXTS,
        words,
        &mut out,
        &mut err,
        &mut unshown(alloc),
    );
    let out = out.into_inner();
    status == 4
        && out.calls == fails_at
        && reply.get(..fails_at.saturating_sub(1)) == Some(out.taken.as_slice())
        && err.into_inner().as_slice() == b"mm: cannot write\n".as_slice()
}

/// Whether the program stops at each call of standard output, where that one fails.
fn stops_at_each_write(alloc: Global, failure: Failure) -> bool {
    let show = ["mm", "show", "th", "first.mm"];
    let help = ["mm", "help"];
    (1..=STEPS.len()).all(|at| stops_writing(alloc, &show, STEPS, at, failure))
        && (1..=5).all(|at| stops_writing(alloc, &help, b"help\n", at, failure))
}

// Standard output takes one byte a call.
#[test]
fn stops_at_a_failed_write(rt: HostRuntime) {
    assert!(rt; stops_at_each_write(rt.alloc(), Failure::Error));
    assert!(rt; stops_at_each_write(rt.alloc(), Failure::Zero));
}

const UNREAD: &[u8] = b"mm: cannot read none.mm\n";

/// What is said of `mm axioms first.mm -`.
const MISPLACED: &[u8] = b"mm: cannot read -
mm: the name of standard input is /dev/stdin
mm: first.mm was taken for the label, and - for a file: the label comes first
";

/// Whether the program stops at the call of standard error that fails, and ends as it would else.
fn stops_telling(alloc: Global, words: &[&str], line: &[u8], fails_at: usize) -> bool {
    let entries = ENTRIES;
    let mut out = Counted::new(Vec::new(alloc));
    let mut err = failing_writer(alloc, fails_at, Failure::Error);
    let status = serve_words(
        resources(alloc),
        &Shelf(&entries),
        &TEXTS,
        words,
        &mut out,
        &mut err,
        &mut unshown(alloc),
    );
    let err = err.into_inner();
    status == 4
        && err.calls == fails_at
        && line.get(..fails_at.saturating_sub(1)) == Some(err.taken.as_slice())
        && out.into_inner().is_empty()
}

// The lines are written in parts.
#[test]
fn stops_at_a_failed_line(rt: HostRuntime) {
    for (words, line) in [
        (["mm", "check", "none.mm"].as_slice(), UNREAD),
        (["mm", "axioms", "first.mm", "-"].as_slice(), MISPLACED),
    ] {
        for fails_at in 1..=line.len() {
            assert!(rt;
                stops_telling(rt.alloc(), words, line, fails_at),
                "at {fails_at}"
            );
        }
    }
}

/// Whether the program stops at the read that fails.
fn stops_reading(alloc: Global, words: &[&str], fails_at: usize) -> bool {
    let calls = Cell::new(0);
    let folder = FailingFolder {
        bytes: FIRST,
        fails_at,
        calls: &calls,
    };
    let mut out = Counted::new(Vec::new(alloc));
    let mut err = Counted::new(Vec::new(alloc));
    let status = serve_words(
        resources(alloc),
        &folder,
        &TEXTS,
        words,
        &mut out,
        &mut err,
        &mut unshown(alloc),
    );
    status == 4
        && calls.get() == fails_at
        && out.into_inner().is_empty()
        && err.into_inner().as_slice() == b"mm: cannot read first.mm\n".as_slice()
}

// A file gives one byte a call, and the last call finds its end.
#[test]
fn stops_at_a_failed_read(rt: HostRuntime) {
    for words in [
        ["mm", "check", "first.mm"].as_slice(),
        ["mm", "show", "th", "first.mm"].as_slice(),
    ] {
        for fails_at in 1..=FIRST.len() + 1 {
            assert!(rt; stops_reading(rt.alloc(), words, fails_at), "at {fails_at}");
        }
    }
}

// Lack of memory as the words are read isn't told as words that aren't understood.
#[test]
fn tells_why_words_are_unread(rt: HostRuntime) {
    for (kind, wanted, line) in [
        (ErrorKind::OutOfMemory, 4, b"mm: out of memory\n".as_slice()),
        (
            ErrorKind::InvalidData,
            2,
            b"mm: a word is not UTF-8\n".as_slice(),
        ),
    ] {
        let entries = ENTRIES;
        let mut out = Counted::new(Vec::new(rt.alloc()));
        let mut err = Counted::new(Vec::new(rt.alloc()));
        let status = start(
            resources(rt.alloc()),
            &Wordless(kind),
            &Shelf(&entries),
            &TEXTS,
            &mut out,
            &mut err,
            &mut unshown(rt.alloc()),
        );
        assert_eq!(rt; status, wanted);
        assert!(rt; out.into_inner().is_empty());
        assert!(rt; err.into_inner().as_slice() == line);
    }
}
