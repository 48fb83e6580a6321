//! The acceptance cases of questions about a theorem.

use crate::Case;
use crate::Part::{Text, Times};
use mm_check::Command::{self, About};
use mm_check::Question;
use mm_core_tests::databases::{CAT, DEMO, DEMO_COMPRESSED, FIRST, HEAD, LIMIT};

/// Theorems that rest on axioms alone, or on nothing.
pub(crate) const AXIOMS: [(Command<'static>, Case); 8] = [
    (
        About {
            label: b"th1",
            question: Question::Axioms { essential: false },
        },
        Case {
            name: "the axioms of the demonstration theorem",
            files: &[(b"demo0.mm", &[Text(DEMO)])],
            reply: b"tze\ntpl\nweq\nwim\na1\na2\nmp\n",
            status: 0,
        },
    ),
    (
        About {
            label: b"th1",
            question: Question::Axioms { essential: false },
        },
        Case {
            name: "the axioms of the compressed demonstration theorem",
            files: &[(b"demo0c.mm", &[Text(DEMO_COMPRESSED)])],
            reply: b"tze\ntpl\nweq\nwim\na1\na2\nmp\n",
            status: 0,
        },
    ),
    (
        About {
            label: b"th1",
            question: Question::Axioms { essential: false },
        },
        Case {
            name: "the axioms of a proof that lists one it does not use",
            files: &[(
                b"h.mm",
                &[
                    Text(HEAD),
                    Text(b"a3 $a |- t = t $. th1 $p |- t = t $= ( tze tpl weq a2 wim "),
                    Text(b"a1 mp a3 ) ABCZADZAADZAEZKKLFMJAAGHH $.\n"),
                ],
            )],
            reply: b"tze\ntpl\nweq\nwim\na1\na2\nmp\n",
            status: 0,
        },
    ),
    (
        About {
            label: b"h1",
            question: Question::Axioms { essential: false },
        },
        Case {
            name: "a theorem that rests on no incomplete one beside it",
            files: &[(
                b"h.mm",
                &[
                    Text(HEAD),
                    Text(b"u1 $p |- t = t $= ? $. h1 $p term 0 $= tze $.\n"),
                ],
            )],
            reply: b"tze\n",
            status: 0,
        },
    ),
    (
        About {
            label: b"th",
            question: Question::Axioms { essential: false },
        },
        Case {
            name: "the axioms of a small theorem",
            files: &[(b"first.mm", &[Text(FIRST)])],
            reply: b"tze\ntpl\n",
            status: 0,
        },
    ),
    (
        About {
            label: b"h1",
            question: Question::Axioms { essential: false },
        },
        Case {
            name: "a theorem that rests on nothing",
            files: &[(b"h.mm", &[Text(HEAD), Text(b"h1 $p term t $= tt $.\n")])],
            reply: b"",
            status: 0,
        },
    ),
    (
        About {
            label: b"th3",
            question: Question::Axioms { essential: false },
        },
        Case {
            name: "the axioms of a theorem that uses the demonstration theorem",
            files: &[(
                b"demo0.mm",
                &[Text(DEMO), Text(b"th3 $p |- 0 = 0 $= tze th1 $.\n")],
            )],
            reply: b"tze\ntpl\nweq\nwim\na1\na2\nmp\n",
            status: 0,
        },
    ),
    (
        About {
            label: b"th2",
            question: Question::Axioms { essential: false },
        },
        Case {
            name: "a theorem that lists its own hypothesis rests on nothing",
            files: &[(
                b"h.mm",
                &[Text(HEAD), Text(b"th2 $p term t $= ( tt ) A $.\n")],
            )],
            reply: b"",
            status: 0,
        },
    ),
];

/// Theorems that rest on unproved ones.
pub(crate) const UNPROVED: [(Command<'static>, Case); 5] = [
    (
        About {
            label: b"u2",
            question: Question::Axioms { essential: false },
        },
        Case {
            name: "the axioms of a theorem that rests on an unknown step",
            files: &[(
                b"h.mm",
                &[
                    Text(HEAD),
                    Text(b"u1 $p |- t = t $= ? $. u2 $p |- t = t $= tt u1 $.\n"),
                ],
            )],
            reply: b"? u1\n",
            status: 3,
        },
    ),
    (
        About {
            label: b"u2",
            question: Question::Axioms { essential: false },
        },
        Case {
            name: "the axioms of a theorem that rests on an unknown step before a bracket",
            files: &[(
                b"h.mm",
                &[
                    Text(HEAD),
                    Text(b"u1 $p |- t = t $= ? ( $. u2 $p |- t = t $= tt u1 $.\n"),
                ],
            )],
            reply: b"? u1\n",
            status: 3,
        },
    ),
    (
        About {
            label: b"u2",
            question: Question::Axioms { essential: false },
        },
        Case {
            name: "the axioms of a theorem that rests on an unknown step in a list of labels",
            files: &[(
                b"h.mm",
                &[
                    Text(HEAD),
                    Text(b"u1 $p |- t = t $= ( ? tze ) A $. u2 $p |- t = t $= tt u1 $.\n"),
                ],
            )],
            reply: b"? u1\n",
            status: 3,
        },
    ),
    (
        About {
            label: b"u2",
            question: Question::Axioms { essential: false },
        },
        Case {
            name: "axioms and an unproved theorem",
            files: &[(
                b"h.mm",
                &[
                    Text(HEAD),
                    Text(b"u1 $p |- t = t $= ? $. u2 $p |- 0 = 0 $= tze u1 $. u3 $p |- "),
                    Text(b"0 = 0 $= u2 $.\n"),
                ],
            )],
            reply: b"tze\n? u1\n",
            status: 3,
        },
    ),
    (
        About {
            label: b"u3",
            question: Question::Axioms { essential: false },
        },
        Case {
            name: "axioms and an unproved theorem, through another theorem",
            files: &[(
                b"h.mm",
                &[
                    Text(HEAD),
                    Text(b"u1 $p |- t = t $= ? $. u2 $p |- 0 = 0 $= tze u1 $. u3 $p |- "),
                    Text(b"0 = 0 $= u2 $.\n"),
                ],
            )],
            reply: b"tze\n? u1\n",
            status: 3,
        },
    ),
];

/// Labels about which nothing can be told.
pub(crate) const AXIOMS_UNANSWERED: [(Command<'static>, Case); 7] = [
    (
        About {
            label: b"u1",
            question: Question::Axioms { essential: false },
        },
        Case {
            name: "the axioms of a theorem that is an unknown step",
            files: &[(
                b"h.mm",
                &[
                    Text(HEAD),
                    Text(b"u1 $p |- t = t $= ? $. u2 $p |- t = t $= tt u1 $.\n"),
                ],
            )],
            reply: b"ask A3 u1\n",
            status: 3,
        },
    ),
    (
        About {
            label: b"u1",
            question: Question::Axioms { essential: false },
        },
        Case {
            name: "the axioms of a theorem that is an unknown step before a bracket",
            files: &[(
                b"h.mm",
                &[
                    Text(HEAD),
                    Text(b"u1 $p |- t = t $= ? ( $. u2 $p |- t = t $= tt u1 $.\n"),
                ],
            )],
            reply: b"ask A3 u1\n",
            status: 3,
        },
    ),
    (
        About {
            label: b"u1",
            question: Question::Axioms { essential: false },
        },
        Case {
            name: "the axioms of a theorem that is an unknown step in a list of labels",
            files: &[(
                b"h.mm",
                &[
                    Text(HEAD),
                    Text(b"u1 $p |- t = t $= ( ? tze ) A $. u2 $p |- t = t $= tt u1 $.\n"),
                ],
            )],
            reply: b"ask A3 u1\n",
            status: 3,
        },
    ),
    (
        About {
            label: b"none",
            question: Question::Axioms { essential: false },
        },
        Case {
            name: "the axioms of a label that is not there",
            files: &[(b"demo0.mm", &[Text(DEMO)])],
            reply: b"ask A1 none\n",
            status: 1,
        },
    ),
    (
        About {
            label: b"a1",
            question: Question::Axioms { essential: false },
        },
        Case {
            name: "the axioms of an axiom",
            files: &[(b"demo0.mm", &[Text(DEMO)])],
            reply: b"ask A2 a1\n",
            status: 1,
        },
    ),
    (
        About {
            label: b"min",
            question: Question::Axioms { essential: false },
        },
        Case {
            name: "the axioms of a hypothesis",
            files: &[(b"demo0.mm", &[Text(DEMO)])],
            reply: b"ask A2 min\n",
            status: 1,
        },
    ),
    (
        About {
            label: b"wff",
            question: Question::Axioms { essential: false },
        },
        Case {
            name: "the axioms of a symbol",
            files: &[(b"demo0.mm", &[Text(DEMO)])],
            reply: b"ask A1 wff\n",
            status: 1,
        },
    ),
];

/// Databases that are refused: the reply is that of `check`.
pub(crate) const AXIOMS_REFUSED: [(Command<'static>, Case); 3] = [
    (
        About {
            label: b"th",
            question: Question::Axioms { essential: false },
        },
        Case {
            name: "the axioms in a database that is loaded twice",
            files: &[(b"first.mm", &[Text(FIRST)]), (b"first.mm", &[Text(FIRST)])],
            reply: b"load F2\n",
            status: 4,
        },
    ),
    (
        About {
            label: b"th2",
            question: Question::Axioms { essential: false },
        },
        Case {
            name: "the axioms in a refused database",
            files: &[(b"h.mm", &[Text(HEAD), Text(b"th2 $p term t $= tt tt $.\n")])],
            reply: b"no h.mm 20 th2 P13 3\n",
            status: 1,
        },
    ),
    (
        About {
            label: b"none",
            question: Question::Axioms { essential: false },
        },
        Case {
            name: "the axioms of a label that is not there in a refused database",
            files: &[(b"h.mm", &[Text(HEAD), Text(b"th2 $p term t $= tt tt $.\n")])],
            reply: b"no h.mm 20 th2 P13 3\n",
            status: 1,
        },
    ),
];

/// Listings of proofs.
pub(crate) const STEPS: [(Command<'static>, Case); 9] = [
    (
        About {
            label: b"u2",
            question: Question::Show,
        },
        Case {
            name: "the steps of a theorem that rests on an incomplete one",
            files: &[(
                b"h.mm",
                &[
                    Text(HEAD),
                    Text(b"u1 $p |- t = t $= ? $. u2 $p |- t = t $= tt u1 $.\n"),
                ],
            )],
            reply: b"1 tt term t\n2 u1 |- t = t\n",
            status: 0,
        },
    ),
    (
        About {
            label: b"th",
            question: Question::Show,
        },
        Case {
            name: "the steps of a proof with a shared part",
            files: &[(
                b"cat.mm",
                &[Text(CAT), Text(b"th $p e $= ( nil cat ) AABZCB $.\n")],
            )],
            reply: b"1 nil e\n2 nil e\n3 cat e\n4 @3 e\n5 cat e\n",
            status: 0,
        },
    ),
    (
        About {
            label: b"th",
            question: Question::Show,
        },
        Case {
            name: "the steps of a small theorem",
            files: &[(b"first.mm", &[Text(FIRST)])],
            reply: b"1 tze term 0\n2 tze term 0\n3 tpl term ( 0 + 0 )\n",
            status: 0,
        },
    ),
    (
        About {
            label: b"th2",
            question: Question::Show,
        },
        Case {
            name: "the steps of a proof with a tag after a reference",
            files: &[(
                b"h.mm",
                &[
                    Text(HEAD),
                    Text(b"th2 $p term ( ( ( t + t ) + ( t + t ) ) + ( t + t ) ) $= ( "),
                    Text(b"tpl ) AABZCZBDB $.\n"),
                ],
            )],
            reply: b"\
1 tt term t\n\
2 tt term t\n\
3 tpl term ( t + t )\n\
4 @3 term ( t + t )\n\
5 tpl term ( ( t + t ) + ( t + t ) )\n\
6 @4 term ( t + t )\n\
7 tpl term ( ( ( t + t ) + ( t + t ) ) + ( t + t ) )\n",
            status: 0,
        },
    ),
    (
        About {
            label: b"th2",
            question: Question::Show,
        },
        Case {
            name: "the steps of a proof with a tagged hypothesis",
            files: &[(
                b"h.mm",
                &[
                    Text(HEAD),
                    Text(b"th2 $p term ( t + t ) $= ( tpl ) AZZCB $.\n"),
                ],
            )],
            reply: b"1 tt term t\n2 @1 term t\n3 tpl term ( t + t )\n",
            status: 0,
        },
    ),
    (
        About {
            label: b"th2",
            question: Question::Show,
        },
        Case {
            name: "the steps of a proof that lists a mandatory hypothesis",
            files: &[(
                b"h.mm",
                &[
                    Text(HEAD),
                    Text(b"th2 $p term ( t + t ) $= ( tpl tpl tt ) ADC $.\n"),
                ],
            )],
            reply: b"1 tt term t\n2 tt term t\n3 tpl term ( t + t )\n",
            status: 0,
        },
    ),
    (
        About {
            label: b"th",
            question: Question::Show,
        },
        Case {
            name: "the steps of a proof with variables replaced by nothing",
            files: &[(
                b"cat.mm",
                &[Text(CAT), Text(b"th $p e $= nil nil cat $.\n")],
            )],
            reply: b"1 nil e\n2 nil e\n3 cat e\n",
            status: 0,
        },
    ),
    (
        About {
            label: b"th1",
            question: Question::Show,
        },
        Case {
            name: "the steps of the demonstration theorem",
            files: &[(b"demo0.mm", &[Text(DEMO)])],
            reply: b"\
1 tt term t\n\
2 tze term 0\n\
3 tpl term ( t + 0 )\n\
4 tt term t\n\
5 weq wff ( t + 0 ) = t\n\
6 tt term t\n\
7 tt term t\n\
8 weq wff t = t\n\
9 tt term t\n\
10 a2 |- ( t + 0 ) = t\n\
11 tt term t\n\
12 tze term 0\n\
13 tpl term ( t + 0 )\n\
14 tt term t\n\
15 weq wff ( t + 0 ) = t\n\
16 tt term t\n\
17 tze term 0\n\
18 tpl term ( t + 0 )\n\
19 tt term t\n\
20 weq wff ( t + 0 ) = t\n\
21 tt term t\n\
22 tt term t\n\
23 weq wff t = t\n\
24 wim wff ( ( t + 0 ) = t -> t = t )\n\
25 tt term t\n\
26 a2 |- ( t + 0 ) = t\n\
27 tt term t\n\
28 tze term 0\n\
29 tpl term ( t + 0 )\n\
30 tt term t\n\
31 tt term t\n\
32 a1 |- ( ( t + 0 ) = t -> ( ( t + 0 ) = t -> t = t ) )\n\
33 mp |- ( ( t + 0 ) = t -> t = t )\n\
34 mp |- t = t\n",
            status: 0,
        },
    ),
    (
        About {
            label: b"th1",
            question: Question::Show,
        },
        Case {
            name: "the steps of the compressed demonstration theorem",
            files: &[(b"demo0c.mm", &[Text(DEMO_COMPRESSED)])],
            reply: b"\
1 tt term t\n\
2 tze term 0\n\
3 tpl term ( t + 0 )\n\
4 tt term t\n\
5 weq wff ( t + 0 ) = t\n\
6 tt term t\n\
7 tt term t\n\
8 weq wff t = t\n\
9 tt term t\n\
10 a2 |- ( t + 0 ) = t\n\
11 @5 wff ( t + 0 ) = t\n\
12 @5 wff ( t + 0 ) = t\n\
13 @8 wff t = t\n\
14 wim wff ( ( t + 0 ) = t -> t = t )\n\
15 @10 |- ( t + 0 ) = t\n\
16 @3 term ( t + 0 )\n\
17 tt term t\n\
18 tt term t\n\
19 a1 |- ( ( t + 0 ) = t -> ( ( t + 0 ) = t -> t = t ) )\n\
20 mp |- ( ( t + 0 ) = t -> t = t )\n\
21 mp |- t = t\n",
            status: 0,
        },
    ),
];

/// Questions without a listing.
pub(crate) const STEPS_UNANSWERED: [(Command<'static>, Case); 4] = [
    (
        About {
            label: b"u1",
            question: Question::Show,
        },
        Case {
            name: "the steps of an incomplete theorem",
            files: &[(
                b"h.mm",
                &[
                    Text(HEAD),
                    Text(b"u1 $p |- t = t $= ? $. u2 $p |- t = t $= tt u1 $.\n"),
                ],
            )],
            reply: b"ask A3 u1\n",
            status: 3,
        },
    ),
    (
        About {
            label: b"none",
            question: Question::Show,
        },
        Case {
            name: "the steps of a label that is not there",
            files: &[(b"demo0.mm", &[Text(DEMO)])],
            reply: b"ask A1 none\n",
            status: 1,
        },
    ),
    (
        About {
            label: b"a1",
            question: Question::Show,
        },
        Case {
            name: "the steps of an axiom",
            files: &[(b"demo0.mm", &[Text(DEMO)])],
            reply: b"ask A2 a1\n",
            status: 1,
        },
    ),
    (
        About {
            label: b"th",
            question: Question::Show,
        },
        Case {
            name: "the steps in a database over a limit",
            files: &[(
                b"limit.mm",
                &[
                    Text(LIMIT),
                    Text(b"th $p f $= ( one odd end ) A"),
                    Times(b"B", 20),
                    Text(b"ZDC $.\n"),
                ],
            )],
            reply: b"limit limit.mm 10 th L1 21\n",
            status: 4,
        },
    ),
];
