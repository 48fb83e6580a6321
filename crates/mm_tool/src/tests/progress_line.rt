//! The line that tells how far a long reply has come.

use super::failing::{Failure, failing_writer};
use super::folder::{Entry, Shelf};
use super::{TEXTS, resources};
use mm_serve::{ProgressLine, serve_words};
use mm_text::Counted;
use std::alloc::Global;
use std::io::Write;

// The proof of kk gets shorter by add, and that of th is one by add alone.
const ADDED: Entry = Entry {
    name: "added.mm",
    bytes: b"$c wff |- ( -> ) $.
$v P Q R $.
wp $f wff P $. wq $f wff Q $. wr $f wff R $.
wim $a wff ( P -> Q ) $.
${ min $e |- P $. maj $e |- ( P -> Q ) $. mp $a |- Q $. $}
k $a |- ( P -> ( Q -> P ) ) $.
${ add.1 $e |- P $. add $p |- ( Q -> P ) $= ( wim k mp ) ABADCABEF $. $}
kk $p |- ( R -> ( P -> ( Q -> P ) ) ) $= ( wim k mp ) ABADDZCGDABEGCEF $.
${ th.1 $e |- P $. th $p |- ( Q -> P ) $= ( wim k mp ) ABADCABEF $. $}
",
    breaks: false,
};

// No proof of these twenty theorems gets shorter.
const TWENTY: Entry = Entry {
    name: "twenty.mm",
    bytes: b"$c wff |- $. $v P $. wp $f wff P $. ${ e $e |- P $.
aa $p |- P $= e $. bb $p |- P $= e $. cc $p |- P $= e $. dd $p |- P $= e $.
ee $p |- P $= e $. ff $p |- P $= e $. gg $p |- P $= e $. hh $p |- P $= e $.
ii $p |- P $= e $. jj $p |- P $= e $. kk $p |- P $= e $. ll $p |- P $= e $.
mm $p |- P $= e $. nn $p |- P $= e $. oo $p |- P $= e $. pp $p |- P $= e $.
qq $p |- P $= e $. rr $p |- P $= e $. ss $p |- P $= e $. tt $p |- P $= e $.
$}
",
    breaks: false,
};

const LIST: [&str; 4] = ["mm", "minimize", "--list", "added.mm"];

const FILE: [&str; 5] = ["mm", "minimize", "--all", "added.mm", "added.mm"];

/// The status, and what was written to standard output and to standard error.
fn outcome_of<P: Write>(
    alloc: Global,
    words: &[&str],
    progress: &mut ProgressLine<P>,
) -> (u8, Vec<u8>, Vec<u8>) {
    let entries = [ADDED, TWENTY];
    let mut out = Counted::new(Vec::new(alloc));
    let mut err = Counted::new(Vec::new(alloc));
    let status = serve_words(
        resources(alloc),
        &Shelf(&entries),
        &TEXTS,
        words,
        &mut out,
        &mut err,
        progress,
    );
    (status, out.into_inner(), err.into_inner())
}

/// What is told of progress.
fn told(alloc: Global, words: &[&str], is_shown: bool) -> Vec<u8> {
    let mut progress = ProgressLine::new(Vec::new(alloc), is_shown);
    let (_status, _out, _err) = outcome_of(alloc, words, &mut progress);
    progress.device.into_inner()
}

#[test]
fn is_told_where_it_is_shown(rt: HostRuntime) {
    for (words, line) in [
        (
            LIST.as_slice(),
            b"\rmm: 3 of 3 theorems, 15 bytes saved\n".as_slice(),
        ),
        (
            FILE.as_slice(),
            b"\rmm: 3 of 3 theorems, 1 bytes saved\n".as_slice(),
        ),
        (
            ["mm", "minimize", "--list", "twenty.mm"].as_slice(),
            b"\rmm: 16 of 20 theorems, 0 bytes saved\
\rmm: 20 of 20 theorems, 0 bytes saved\n"
                .as_slice(),
        ),
        (
            ["mm", "minimize", "kk", "added.mm"].as_slice(),
            b"".as_slice(),
        ),
        (["mm", "check", "added.mm"].as_slice(), b"".as_slice()),
    ] {
        let shown = told(rt.alloc(), words, true);
        assert!(rt; shown.as_slice() == line, "at {words:?}");
        assert!(rt; told(rt.alloc(), words, false).is_empty(), "at {words:?}");
    }
}

// The line takes one byte a call.
#[test]
fn stops_where_its_device_fails(rt: HostRuntime) {
    let line = told(rt.alloc(), &LIST, true);
    let mut unshown = ProgressLine::new(Vec::new(rt.alloc()), false);
    let (wanted, reply, _err) = outcome_of(rt.alloc(), &LIST, &mut unshown);
    for fails_at in 1..=line.len() {
        let device = failing_writer(rt.alloc(), fails_at, Failure::Error);
        let mut progress = ProgressLine::new(device.into_inner(), true);
        let (status, out, err) = outcome_of(rt.alloc(), &LIST, &mut progress);
        let device = progress.device.into_inner();
        assert_eq!(rt; status, wanted, "at {fails_at}");
        assert!(rt;
            out.as_slice() == reply.as_slice() && err.is_empty(),
            "at {fails_at}"
        );
        assert_eq!(rt; device.calls, fails_at);
    }
}

// Beside the reply standard error is told what the search came to, whether progress is shown or not.
#[test]
fn tells_what_a_search_came_to(rt: HostRuntime) {
    for (words, line) in [
        (LIST.as_slice(), b"".as_slice()),
        (FILE.as_slice(), b"".as_slice()),
        (
            ["mm", "minimize", "kk", "added.mm"].as_slice(),
            b"mm: 42 bytes -> 37, 15 steps -> 10\n".as_slice(),
        ),
        (
            ["mm", "minimize", "aa", "twenty.mm"].as_slice(),
            b"mm: no shorter proof was found\n".as_slice(),
        ),
        (["mm", "small", "kk", "added.mm"].as_slice(), b"".as_slice()),
    ] {
        for is_shown in [false, true] {
            let mut progress = ProgressLine::new(Vec::new(rt.alloc()), is_shown);
            let (_status, _out, err) = outcome_of(rt.alloc(), words, &mut progress);
            assert!(rt; err.as_slice() == line, "at {words:?}");
        }
    }
}
