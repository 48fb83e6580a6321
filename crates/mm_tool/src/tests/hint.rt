//! Hints, where they are shown.

use super::folder::{Entry, Shelf};
use super::{TEXTS, resources};
use mm_serve::{ProgressLine, serve_words};
use mm_text::Counted;
use std::alloc::Global;

const FAULTY: Entry = Entry {
    name: "faulty.mm",
    bytes: b"$c a b $. one $a a $. ${ h $e a $. two $a a $. $} p $p b $= one $.\n",
    breaks: false,
};

const RIGHT: Entry = Entry {
    name: "right.mm",
    bytes: b"$c a $. one $a a $. ${ h $e a $. two $a a $. $}\n",
    breaks: false,
};

const MEANINGLESS: Entry = Entry {
    name: "meaningless.mm",
    bytes: b"$c a $. one $a b $.\n",
    breaks: false,
};

const DASHED: Entry = Entry {
    name: "dashed.mm",
    bytes: b"$c a b $. one $a a $. -p $p b $= ( one ) B $.\n",
    breaks: false,
};

const LOOSE: Entry = Entry {
    name: "loose.mm",
    bytes: b"$c a $. one $a a $. p $p a $= ( one one ) A $.\n",
    breaks: false,
};

const BROKEN: Entry = Entry {
    name: "broken.mm",
    bytes: b"$c a $.\n",
    breaks: true,
};

/// What is told beside the answer to these words.
fn told(alloc: Global, words: &[&str], is_shown: bool) -> Vec<u8> {
    let entries = [FAULTY, RIGHT, MEANINGLESS, DASHED, LOOSE, BROKEN];
    let mut out = Counted::new(Vec::new(alloc));
    let mut err = Counted::new(Vec::new(alloc));
    let mut progress = ProgressLine::new(Vec::new(alloc), is_shown);
    let _status = serve_words(
        resources(alloc),
        &Shelf(&entries),
        &TEXTS,
        words,
        &mut out,
        &mut err,
        &mut progress,
    );
    progress.device.into_inner()
}

#[test]
fn are_told_where_they_are_shown(rt: HostRuntime) {
    for (words, line) in [
        (
            ["mm", "check", "faulty.mm", "right.mm"].as_slice(),
            b"mm: mm why faulty.mm right.mm explains it\n\
mm: mm mend p faulty.mm right.mm looks for a small change that mends it\n"
                .as_slice(),
        ),
        (
            ["mm", "check", "--strict", "faulty.mm"].as_slice(),
            b"mm: mm why --strict faulty.mm explains it\n\
mm: mm mend p faulty.mm looks for a small change that mends it\n"
                .as_slice(),
        ),
        (
            ["mm", "check", "--strict", "loose.mm"].as_slice(),
            b"mm: mm why --strict loose.mm explains it\n".as_slice(),
        ),
        (
            ["mm", "check", "meaningless.mm"].as_slice(),
            b"mm: mm why meaningless.mm explains it\n".as_slice(),
        ),
        (
            ["mm", "why", "dashed.mm"].as_slice(),
            b"mm: mm mend -- -p dashed.mm looks for a small change that mends it\n".as_slice(),
        ),
        (
            ["mm", "why", "faulty.mm"].as_slice(),
            b"mm: mm mend p faulty.mm looks for a small change that mends it\n".as_slice(),
        ),
        (
            ["mm", "why", "--strict", "loose.mm"].as_slice(),
            b"".as_slice(),
        ),
        (["mm", "why", "meaningless.mm"].as_slice(), b"".as_slice()),
        (["mm", "faults", "faulty.mm"].as_slice(), b"".as_slice()),
        (["mm", "check", "right.mm"].as_slice(), b"".as_slice()),
        (
            ["mm", "show", "one", "right.mm"].as_slice(),
            b"mm: one is stated by $a, so it has no proof\n".as_slice(),
        ),
        (
            ["mm", "users", "h", "right.mm"].as_slice(),
            b"mm: h is a hypothesis, stated by $e\n".as_slice(),
        ),
        (
            ["mm", "check", "absent.mm"].as_slice(),
            b"mm: there is no such file\n".as_slice(),
        ),
        (["mm", "check", "broken.mm"].as_slice(), b"".as_slice()),
    ] {
        let shown = told(rt.alloc(), words, true);
        assert!(rt; shown.as_slice() == line, "at {words:?}");
        assert!(rt; told(rt.alloc(), words, false).is_empty(), "at {words:?}");
    }
}
