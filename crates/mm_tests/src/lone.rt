//! The acceptance cases of questions about a theorem alone.

use crate::Case;
use crate::Part::Text;
use mm_check::Command::{self, Lone};
use mm_check::LoneQuestion::{Known, Try};
use mm_check::Telling::Steps;
use mm_core_tests::databases::{FIRST, FIRST_HEAD};

/// Texts that are proofs of a theorem, whatever stands as its proof.
pub(crate) const TRIED: [(Command<'static>, Case); 6] = [
    (
        Lone {
            label: b"th",
            question: Try {
                name: b"th.txt",
                text: b"$( a $. $) $= $( $= $)\n  tze $( tpl $) tze tpl $( b $)\n$. $( c $)\n",
            },
        },
        Case {
            name: "a text with comments, and with what stands around a proof",
            files: &[(b"first.mm", &[Text(FIRST)])],
            reply: b"proof\n",
            status: 0,
        },
    ),
    (
        Lone {
            label: b"th",
            question: Try {
                name: b"th.txt",
                text: b"tze tze\n  tpl\n",
            },
        },
        Case {
            name: "a text is a proof of a theorem",
            files: &[(b"first.mm", &[Text(FIRST)])],
            reply: b"proof\n",
            status: 0,
        },
    ),
    (
        Lone {
            label: b"th",
            question: Try {
                name: b"th.txt",
                text: b"tze tze tpl",
            },
        },
        Case {
            name: "a text is a proof of a theorem with a wrong one",
            files: &[(
                b"h.mm",
                &[
                    Text(FIRST_HEAD),
                    Text(b"th $p term ( 0 + 0 ) $= tpl tpl $.\n"),
                ],
            )],
            reply: b"proof\n",
            status: 0,
        },
    ),
    (
        Lone {
            label: b"th",
            question: Try {
                name: b"th.txt",
                text: b"( tze tpl ) AAB",
            },
        },
        Case {
            name: "a compressed text is a proof of a theorem with an incomplete one",
            files: &[(
                b"h.mm",
                &[Text(FIRST_HEAD), Text(b"th $p term ( 0 + 0 ) $= ? $.\n")],
            )],
            reply: b"proof\n",
            status: 0,
        },
    ),
    (
        Lone {
            label: b"th2",
            question: Try {
                name: b"th.txt",
                text: b"th",
            },
        },
        Case {
            name: "a text is a proof after a theorem whose proof is at fault",
            files: &[(
                b"h.mm",
                &[
                    Text(FIRST_HEAD),
                    Text(b"th $p term ( 0 + 0 ) $= tze $.\n"),
                    Text(b"th2 $p term ( 0 + 0 ) $= tze $.\n"),
                ],
            )],
            reply: b"proof\n",
            status: 0,
        },
    ),
    (
        Lone {
            label: b"th",
            question: Try {
                name: b"th.txt",
                text: b"tze tze tpl",
            },
        },
        Case {
            name: "what stands after the theorem isn't read",
            files: &[(
                b"h.mm",
                &[Text(FIRST), Text(b"th $p term none $= $. $} no end")],
            )],
            reply: b"proof\n",
            status: 0,
        },
    ),
];

/// Texts that are no proofs of a theorem, each with what explains it at its place in their file.
pub(crate) const TRIED_FAULTS: [(Command<'static>, Case); 8] = [
    (
        Lone {
            label: b"th",
            question: Try {
                name: b"th.txt",
                text: b"$= $( a $) tze\n $( b $) unknown tpl $.\n",
            },
        },
        Case {
            name: "a label behind a comment is unknown",
            files: &[(b"first.mm", &[Text(FIRST)])],
            reply: b"text P2 0
th.txt:2:10: P2: no earlier statement has the label
  token: unknown
",
            status: 1,
        },
    ),
    (
        Lone {
            label: b"th",
            question: Try {
                name: b"th.txt",
                text: b"$= tze $( a $)\n $. $( b $)\n",
            },
        },
        Case {
            name: "another expression is proved at the end of a proof",
            files: &[(b"first.mm", &[Text(FIRST)])],
            reply: b"text P14 2
th.txt:2:2: P14: the proof proves something else than is stated, at step 2
  it states
    term ( 0 + 0 )
  but step 1, tze at 1:4, gives
    term 0
  they differ at symbol 2: 0 where ( is asked
",
            status: 1,
        },
    ),
    (
        Lone {
            label: b"th",
            question: Try {
                name: b"th.txt",
                text: b"tze\n tpl\n",
            },
        },
        Case {
            name: "a step of a text takes more than there is",
            files: &[
                (b"top.mm", &[Text(b"$[ h.mm $]\n")]),
                (b"h.mm", &[Text(FIRST)]),
            ],
            reply: b"text P8 2
th.txt:2:2: P8: the stack has fewer entries than the step takes, at step 2
  step: tpl
  entries it takes: 2, entries there are: 1
  tt states
    term t
  tr states
    term r
  step 1, tze at 1:1, gives
    term 0
",
            status: 1,
        },
    ),
    (
        Lone {
            label: b"th",
            question: Try {
                name: b"d/th.txt",
                text: b"\n\n  tze unknown tpl\n",
            },
        },
        Case {
            name: "a label of a text is unknown",
            files: &[(b"first.mm", &[Text(FIRST)])],
            reply: b"text P2 0
d/th.txt:3:7: P2: no earlier statement has the label
  token: unknown
",
            status: 1,
        },
    ),
    (
        Lone {
            label: b"th",
            question: Try {
                name: b"th.txt",
                text: b"( tze tpl )\n A\tA!B",
            },
        },
        Case {
            name: "a byte of a text is no letter",
            files: &[(b"first.mm", &[Text(FIRST)])],
            reply: b"text P4 0
th.txt:2:5: P4: a byte of the letters isn't one of A to Z
  token: A!B
",
            status: 1,
        },
    ),
    (
        Lone {
            label: b"th",
            question: Try {
                name: b"th.txt",
                text: b"tze tze tpl\n tze  \n ",
            },
        },
        Case {
            name: "an entry is left at the end of a text",
            files: &[(b"first.mm", &[Text(FIRST)])],
            reply: b"text P13 5
th.txt:3:2: P13: the proof doesn't leave exactly one entry, at step 5
  step 3, tpl at 1:9, gives
    term ( 0 + 0 )
  step 4, tze at 2:2, gives
    term 0
",
            status: 1,
        },
    ),
    (
        Lone {
            label: b"th",
            question: Try {
                name: b"th.txt",
                text: b"",
            },
        },
        Case {
            name: "an empty text",
            files: &[(b"first.mm", &[Text(FIRST)])],
            reply: b"text P13 1
th.txt:1:1: P13: the proof doesn't leave exactly one entry, at step 1
",
            status: 1,
        },
    ),
    (
        Lone {
            label: b"th",
            question: Try {
                name: b"th.txt",
                text: b"tze\n? tpl tpl",
            },
        },
        Case {
            name: "the steps of a text before an unknown one pass",
            files: &[(b"first.mm", &[Text(FIRST)])],
            reply: b"text A3 0
  step 1, tze at 1:1, gives
    term 0
  th states
    term ( 0 + 0 )
",
            status: 3,
        },
    ),
];

/// Texts that may stand in no proof, each with its place.
pub(crate) const NO_TOKENS: [(Command<'static>, Case); 7] = [
    (
        Lone {
            label: b"th",
            question: Try {
                name: b"th.txt",
                text: b"tze $. \x01",
            },
        },
        Case {
            name: "a text holds a byte that none may hold",
            files: &[(b"first.mm", &[Text(FIRST)])],
            reply: b"text X1 0
th.txt:1:8: X1: a token holds a byte outside 0x21 to 0x7E
  token: \x01
",
            status: 1,
        },
    ),
    (
        Lone {
            label: b"th",
            question: Try {
                name: b"th.txt",
                text: b"tze $. tpl\n$( tpl",
            },
        },
        Case {
            name: "a comment of a text isn't closed",
            files: &[(b"first.mm", &[Text(FIRST)])],
            reply: b"text X2 0
th.txt:2:1: X2: a comment isn't closed in its file
  token: $(
",
            status: 1,
        },
    ),
    (
        Lone {
            label: b"th",
            question: Try {
                name: b"th.txt",
                text: b"$( a $( b $) tze",
            },
        },
        Case {
            name: "a comment of a text holds another one",
            files: &[(b"first.mm", &[Text(FIRST)])],
            reply: b"text X3 0
th.txt:1:6: X3: a token in a comment holds $( or $)
  token: $(
",
            status: 1,
        },
    ),
    (
        Lone {
            label: b"th",
            question: Try {
                name: b"th.txt",
                text: b"tze $( a $) $)",
            },
        },
        Case {
            name: "a comment of a text is closed twice",
            files: &[(b"first.mm", &[Text(FIRST)])],
            reply: b"text X4 0
th.txt:1:13: X4: $) stands outside a comment, or $] outside an inclusion
  token: $)
",
            status: 1,
        },
    ),
    (
        Lone {
            label: b"th",
            question: Try {
                name: b"th.txt",
                text: b"tze? $( a $)\ntpl$.",
            },
        },
        Case {
            name: "a text holds a dollar sign",
            files: &[(b"first.mm", &[Text(FIRST)])],
            reply: b"text X9 0
th.txt:2:1: X9: a token with $ is no keyword
  token: tpl$.
",
            status: 1,
        },
    ),
    (
        Lone {
            label: b"th",
            question: Try {
                name: b"th.txt",
                text: b"$= tze $. tpl $.",
            },
        },
        Case {
            name: "the end of a proof stands in the middle of a text",
            files: &[(b"first.mm", &[Text(FIRST)])],
            reply: b"text X9 0
th.txt:1:8: X9: a token with $ is no keyword
  token: $.
",
            status: 1,
        },
    ),
    (
        Lone {
            label: b"th",
            question: Try {
                name: b"th.txt",
                text: b"$( a $) $= $= tze",
            },
        },
        Case {
            name: "the beginning of a proof stands behind the first token",
            files: &[(b"first.mm", &[Text(FIRST)])],
            reply: b"text X9 0
th.txt:1:12: X9: a token with $ is no keyword
  token: $=
",
            status: 1,
        },
    ),
];

/// Labels at which no theorem is found.
pub(crate) const NOT_FOUND: [(Command<'static>, Case); 6] = [
    (
        Lone {
            label: b"none",
            question: Known(Steps),
        },
        Case {
            name: "a theorem alone that is not there",
            files: &[(
                b"h.mm",
                &[Text(FIRST_HEAD), Text(b"th $p term 0 $= tpl $.\n")],
            )],
            reply: b"ask A1 none\n",
            status: 1,
        },
    ),
    (
        Lone {
            label: b"tze",
            question: Try {
                name: b"th.txt",
                text: b"$",
            },
        },
        Case {
            name: "an axiom alone",
            files: &[(b"first.mm", &[Text(FIRST)])],
            reply: b"ask A2 tze\n",
            status: 1,
        },
    ),
    (
        Lone {
            label: b"none",
            question: Known(Steps),
        },
        Case {
            name: "a fault of the text stands before a label that is not there",
            files: &[(b"first.mm", &[Text(FIRST), Text(b"${\n")])],
            reply: b"no first.mm 8 - S7 0\n",
            status: 1,
        },
    ),
    (
        Lone {
            label: b"th2",
            question: Known(Steps),
        },
        Case {
            name: "a statement before the theorem breaks a rule of meaning",
            files: &[(
                b"first.mm",
                &[
                    Text(FIRST),
                    Text(b"bad $a term x $.\nth2 $p term 0 $= tze $.\n"),
                ],
            )],
            reply: b"no first.mm 8 bad M7 0\n",
            status: 1,
        },
    ),
    (
        Lone {
            label: b"th2",
            question: Try {
                name: b"th.txt",
                text: b"tze",
            },
        },
        Case {
            name: "the theorem breaks a rule of meaning",
            files: &[(
                b"first.mm",
                &[Text(FIRST), Text(b"th2 $p term x $= tze $.\n")],
            )],
            reply: b"no first.mm 8 th2 M7 0\n",
            status: 1,
        },
    ),
    (
        Lone {
            label: b"th",
            question: Try {
                name: b"th.txt",
                text: b"tze tze tpl",
            },
        },
        Case {
            name: "a theorem alone in files that can't be taken",
            files: &[(b"first.mm", &[Text(FIRST)]), (b"first.mm", &[Text(FIRST)])],
            reply: b"load F2\n",
            status: 4,
        },
    ),
];

/// Theorems whose own proofs are at fault, each with what explains it at its place.
pub(crate) const KNOWN_FAULTS: [(Command<'static>, Case); 3] = [
    (
        Lone {
            label: b"th",
            question: Known(Steps),
        },
        Case {
            name: "a number isn't ended",
            files: &[(
                b"h.mm",
                &[
                    Text(FIRST_HEAD),
                    Text(b"th $p term ( 0 + 0 ) $=\n  ( tze tpl ) AAU $.\n"),
                ],
            )],
            reply: b"no h.mm 7 th P5 0
h.mm:8:17: P5: a number in the letters isn't ended, in the proof of th
",
            status: 1,
        },
    ),
    (
        Lone {
            label: b"th",
            question: Known(Steps),
        },
        Case {
            name: "a byte is no letter, before an unknown step",
            files: &[(
                b"h.mm",
                &[
                    Text(FIRST_HEAD),
                    Text(b"th $p term ( 0 + 0 ) $=\n  ( tze tpl ) A\n AaB?B $.\n"),
                ],
            )],
            reply: b"no h.mm 7 th P4 0
h.mm:9:3: P4: a byte of the letters isn't one of A to Z, in the proof of th
  token: AaB?B
",
            status: 1,
        },
    ),
    (
        Lone {
            label: b"th",
            question: Known(Steps),
        },
        Case {
            name: "another expression is proved, after a fault of another proof",
            files: &[(
                b"h.mm",
                &[
                    Text(FIRST_HEAD),
                    Text(b"no $p term 0 $= nope $.\nth $p term ( 0 + 0 ) $= tze\n  $.\n"),
                ],
            )],
            reply: b"1 tze term 0
no h.mm 8 th P14 2
h.mm:9:3: P14: the proof proves something else than is stated, in the proof of th, at step 2
  it states
    term ( 0 + 0 )
  but step 1, tze at 8:25, gives
    term 0
  they differ at symbol 2: 0 where ( is asked
",
            status: 1,
        },
    ),
];
