//! The acceptance cases of the question where each step of a proof stands, and of its letters.

use crate::Case;
use crate::Part::Text;
use mm_check::Command::{self, About, Lone};
use mm_check::LoneQuestion::Known;
use mm_check::{Question, Telling};
use mm_core_tests::databases::{CAT, FIRST};

/// Proofs without a fault, and one that isn't there.
pub(crate) const LETTERS: [(Command<'static>, Case); 5] = [
    (
        About {
            label: b"th",
            question: Question::Letters,
        },
        Case {
            name: "the places of the steps of a normal proof",
            files: &[(b"first.mm", &[Text(FIRST)])],
            reply: b"1 7:25 - tze term 0\n2 7:29 - tze term 0\n3 7:33 - tpl term ( 0 + 0 )\n",
            status: 0,
        },
    ),
    (
        About {
            label: b"th",
            question: Question::Letters,
        },
        Case {
            name: "a tag is a letter of the step before it, behind white space too",
            files: &[(
                b"cat.mm",
                &[
                    Text(CAT),
                    Text(b"th $p e $= ( nil cat )\n AAB\n  Z CZDBB $.\n"),
                ],
            )],
            reply: b"\
1 8:2 A nil e\n\
2 8:3 A nil e\n\
3 8:4 BZ cat e\n\
4 9:5 CZ @3 e\n\
5 9:7 D @4 e\n\
6 9:8 B cat e\n\
7 9:9 B cat e\n",
            status: 0,
        },
    ),
    (
        About {
            label: b"th",
            question: Question::Letters,
        },
        Case {
            name: "a number that white space cuts, and two tags of one step",
            files: &[(
                b"cat.mm",
                &[
                    Text(CAT),
                    Text(b"th $p e $= ( nil nil nil nil nil nil nil nil nil nil nil nil nil nil\n"),
                    Text(b"nil nil nil nil nil nil cat ) AZZAU\nA $.\n"),
                ],
            )],
            reply: b"1 8:31 AZZ nil e\n2 8:34 A nil e\n3 9:1 UA cat e\n",
            status: 0,
        },
    ),
    (
        About {
            label: b"th",
            question: Question::Letters,
        },
        Case {
            name: "the letters of an incomplete proof",
            files: &[(
                b"cat.mm",
                &[Text(CAT), Text(b"th $p e $= ( nil ) A ? $.\n")],
            )],
            reply: b"ask A3 th\n",
            status: 3,
        },
    ),
    (
        About {
            label: b"nil",
            question: Question::Letters,
        },
        Case {
            name: "the letters of an axiom",
            files: &[(b"cat.mm", &[Text(CAT)])],
            reply: b"ask A2 nil\n",
            status: 1,
        },
    ),
];

/// Proofs as far as they are known.
pub(crate) const KNOWN_LETTERS: [(Command<'static>, Case); 3] = [
    (
        Lone {
            label: b"th",
            question: Known(Telling::Letters),
        },
        Case {
            name: "the letters of a proof alone",
            files: &[(
                b"cat.mm",
                &[
                    Text(CAT),
                    Text(b"no $p e $= nope $.\nth $p e $= ( nil cat ) AABZCB $.\n"),
                ],
            )],
            reply: b"\
1 8:24 A nil e\n\
2 8:25 A nil e\n\
3 8:26 BZ cat e\n\
4 8:28 C @3 e\n\
5 8:29 B cat e\n",
            status: 0,
        },
    ),
    (
        Lone {
            label: b"th",
            question: Known(Telling::Letters),
        },
        Case {
            name: "the letters before an unknown step",
            files: &[(
                b"cat.mm",
                &[Text(CAT), Text(b"th $p e $= ( nil cat )\nA Z?ZAB $.\n")],
            )],
            reply: b"\
1 8:1 AZ nil e
  step 1, nil at 8:1, gives
    e
  th states
    e
",
            status: 3,
        },
    ),
    (
        Lone {
            label: b"th",
            question: Known(Telling::Letters),
        },
        Case {
            name: "the letters before a fault",
            files: &[(
                b"cat.mm",
                &[Text(CAT), Text(b"th $p e $= ( nil cat )\nAZ\nBB $.\n")],
            )],
            reply: b"\
1 8:1 AZ nil e
no cat.mm 7 th P8 2
cat.mm:9:1: P8: the stack has fewer entries than the step takes, in the proof of th, at step 2
  step: cat
  entries it takes: 2, entries there are: 1
  fx states
    e x
  fy states
    e y
  step 1, nil at 8:1, gives
    e
",
            status: 1,
        },
    ),
];
