//! The acceptance cases of the question what each step of a proof uses.

use crate::Case;
use crate::Part::Text;
use mm_check::Command::{self, About, Lone};
use mm_check::LoneQuestion::Known;
use mm_check::{Question, Telling};
use mm_core_tests::databases::{FIRST, HEAD};

/// Terms, their equality and its axioms, and a rule with two essential hypotheses.
const EQUALS: &[u8] = b"\
$c 0 + = -> ( ) term wff |- $.
$v t r s P Q $.
tt $f term t $.
tr $f term r $.
ts $f term s $.
wp $f wff P $.
wq $f wff Q $.
tze $a term 0 $.
tpl $a term ( t + r ) $.
weq $a wff t = r $.
wim $a wff ( P -> Q ) $.
a1 $a |- ( t = r -> ( t = s -> r = s ) ) $.
a2 $a |- ( t + 0 ) = t $.
${ min $e |- P $. maj $e |- ( P -> Q ) $. mp $a |- Q $. $}
";

/// The theorem of the Metamath book, as a normal proof.
const NORMAL: &[u8] = b"\
th $p |- t = t $= tt tze tpl tt weq tt tt weq tt a2 tt tze tpl tt weq tt tze tpl tt weq
tt tt weq wim tt a2 tt tze tpl tt tt a1 mp mp $.
";

/// The same, with tags for what was made before.
const TAGGED: &[u8] = b"\
th $p |- t = t $= ( tze tpl weq a2 wim a1 mp ) ABCZADZAADZAEZJJKFLIAAGHH $.
";

/// All steps, with what each of them uses.
pub(crate) const USES: [(Command<'static>, Case); 4] = [
    (
        About {
            label: b"th",
            question: Question::Uses { essential: false },
        },
        Case {
            name: "what the steps of a normal proof use",
            files: &[(b"first.mm", &[Text(FIRST)])],
            reply: b"1 - tze term 0\n2 - tze term 0\n3 1,2 tpl term ( 0 + 0 )\n",
            status: 0,
        },
    ),
    (
        About {
            label: b"th2",
            question: Question::Uses { essential: false },
        },
        Case {
            name: "what steps use by a tag after a tag",
            files: &[(
                b"h.mm",
                &[
                    Text(HEAD),
                    Text(b"th2 $p term ( ( ( t + t ) + ( t + t ) ) + ( t + t ) ) $= ( "),
                    Text(b"tpl ) AABZCZBDB $.\n"),
                ],
            )],
            reply: b"\
1 - tt term t\n\
2 - tt term t\n\
3 1,2 tpl term ( t + t )\n\
4 - @3 term ( t + t )\n\
5 3,3 tpl term ( ( t + t ) + ( t + t ) )\n\
6 - @4 term ( t + t )\n\
7 5,3 tpl term ( ( ( t + t ) + ( t + t ) ) + ( t + t ) )\n",
            status: 0,
        },
    ),
    (
        About {
            label: b"th2",
            question: Question::Uses { essential: false },
        },
        Case {
            name: "what the steps of a compressed proof without a tag use",
            files: &[(
                b"h.mm",
                &[
                    Text(HEAD),
                    Text(b"th2 $p term ( t + t ) $= ( tpl ) AAB $.\n"),
                ],
            )],
            reply: b"1 - tt term t\n2 - tt term t\n3 1,2 tpl term ( t + t )\n",
            status: 0,
        },
    ),
    (
        About {
            label: b"th",
            question: Question::Uses { essential: false },
        },
        Case {
            name: "what steps use that take four hypotheses",
            files: &[(b"equals.mm", &[Text(EQUALS), Text(TAGGED)])],
            reply: b"\
1 - tt term t\n\
2 - tze term 0\n\
3 1,2 tpl term ( t + 0 )\n\
4 - tt term t\n\
5 3,4 weq wff ( t + 0 ) = t\n\
6 - tt term t\n\
7 - tt term t\n\
8 6,7 weq wff t = t\n\
9 - tt term t\n\
10 9 a2 |- ( t + 0 ) = t\n\
11 - @5 wff ( t + 0 ) = t\n\
12 - @5 wff ( t + 0 ) = t\n\
13 - @8 wff t = t\n\
14 5,8 wim wff ( ( t + 0 ) = t -> t = t )\n\
15 - @10 |- ( t + 0 ) = t\n\
16 - @3 term ( t + 0 )\n\
17 - tt term t\n\
18 - tt term t\n\
19 3,17,18 a1 |- ( ( t + 0 ) = t -> ( ( t + 0 ) = t -> t = t ) )\n\
20 5,14,10,19 mp |- ( ( t + 0 ) = t -> t = t )\n\
21 5,8,10,20 mp |- t = t\n",
            status: 0,
        },
    ),
];

/// The steps alone that are reached from the last one through `$e`.
pub(crate) const ESSENTIAL: [(Command<'static>, Case); 3] = [
    (
        About {
            label: b"th",
            question: Question::Uses { essential: true },
        },
        Case {
            name: "the essential steps of a normal proof",
            files: &[(b"equals.mm", &[Text(EQUALS), Text(NORMAL)])],
            reply: b"\
10 - a2 |- ( t + 0 ) = t\n\
26 - a2 |- ( t + 0 ) = t\n\
32 - a1 |- ( ( t + 0 ) = t -> ( ( t + 0 ) = t -> t = t ) )\n\
33 26,32 mp |- ( ( t + 0 ) = t -> t = t )\n\
34 10,33 mp |- t = t\n",
            status: 0,
        },
    ),
    (
        About {
            label: b"th",
            question: Question::Uses { essential: true },
        },
        Case {
            name: "the essential steps of a proof with tags",
            files: &[(b"equals.mm", &[Text(EQUALS), Text(TAGGED)])],
            reply: b"\
10 - a2 |- ( t + 0 ) = t\n\
19 - a1 |- ( ( t + 0 ) = t -> ( ( t + 0 ) = t -> t = t ) )\n\
20 10,19 mp |- ( ( t + 0 ) = t -> t = t )\n\
21 10,20 mp |- t = t\n",
            status: 0,
        },
    ),
    (
        About {
            label: b"th",
            question: Question::Uses { essential: true },
        },
        Case {
            name: "the only essential step",
            files: &[(b"first.mm", &[Text(FIRST)])],
            reply: b"3 - tpl term ( 0 + 0 )\n",
            status: 0,
        },
    ),
];

/// The steps of proofs alone, as far as they are known.
pub(crate) const KNOWN_USES: [(Command<'static>, Case); 4] = [
    (
        Lone {
            label: b"th",
            question: Known(Telling::Uses { essential: true }),
        },
        Case {
            name: "the essential steps of a proof alone",
            files: &[(
                b"equals.mm",
                &[
                    Text(EQUALS),
                    Text(b"no $p |- t = t $= nope $.\n"),
                    Text(TAGGED),
                ],
            )],
            reply: b"\
10 - a2 |- ( t + 0 ) = t\n\
19 - a1 |- ( ( t + 0 ) = t -> ( ( t + 0 ) = t -> t = t ) )\n\
20 10,19 mp |- ( ( t + 0 ) = t -> t = t )\n\
21 10,20 mp |- t = t\n",
            status: 0,
        },
    ),
    (
        Lone {
            label: b"th",
            question: Known(Telling::Uses { essential: false }),
        },
        Case {
            name: "what the steps before an unknown one use",
            files: &[(
                b"equals.mm",
                &[
                    Text(EQUALS),
                    Text(b"th $p |- t = t $= ( weq a2 ) ACZAAB?B $.\n"),
                ],
            )],
            reply: b"\
1 - tt term t
2 1 a2 |- ( t + 0 ) = t
3 - tt term t
4 - tt term t
5 3,4 weq wff t = t
  step 2, a2 at 15:31, gives
    |- ( t + 0 ) = t
  step 5, weq at 15:35, gives
    wff t = t
  th states
    |- t = t
",
            status: 3,
        },
    ),
    (
        Lone {
            label: b"th",
            question: Known(Telling::Uses { essential: true }),
        },
        Case {
            name: "the essential steps that are left before an unknown one",
            files: &[(
                b"equals.mm",
                &[
                    Text(EQUALS),
                    Text(b"th $p |- t = t $= ( weq a2 ) ACZAABD?D $.\n"),
                ],
            )],
            reply: b"\
2 - a2 |- ( t + 0 ) = t
5 - weq wff t = t
  step 2, a2 at 15:31, gives
    |- ( t + 0 ) = t
  step 5, weq at 15:35, gives
    wff t = t
  step 6, @2 at 15:36, gives
    |- ( t + 0 ) = t
  th states
    |- t = t
",
            status: 3,
        },
    ),
    (
        Lone {
            label: b"th",
            question: Known(Telling::Uses { essential: true }),
        },
        Case {
            name: "the essential steps that are left before a fault",
            files: &[(
                b"equals.mm",
                &[
                    Text(EQUALS),
                    Text(b"th $p |- t = t $= "),
                    Text(b"( tze tpl weq a2 wim a1 mp ) ABCZADZAADZAEZJJKFLIAAGHHH $.\n"),
                ],
            )],
            reply: b"\
10 - a2 |- ( t + 0 ) = t
19 - a1 |- ( ( t + 0 ) = t -> ( ( t + 0 ) = t -> t = t ) )
20 10,19 mp |- ( ( t + 0 ) = t -> t = t )
21 10,20 mp |- t = t
no equals.mm 15 th P8 22
equals.mm:15:73: P8: the stack has fewer entries than the step takes, in the proof of th, at step 22
  step: mp
  entries it takes: 4, entries there are: 1
  wp states
    wff P
  wq states
    wff Q
  min states
    |- P
  maj states
    |- ( P -> Q )
  step 21, mp at 15:72, gives
    |- t = t
",
            status: 1,
        },
    ),
];

/// Labels of no complete proof.
pub(crate) const USES_UNANSWERED: [(Command<'static>, Case); 3] = [
    (
        About {
            label: b"none",
            question: Question::Uses { essential: false },
        },
        Case {
            name: "the uses of a label that is not there",
            files: &[(b"first.mm", &[Text(FIRST)])],
            reply: b"ask A1 none\n",
            status: 1,
        },
    ),
    (
        About {
            label: b"tpl",
            question: Question::Uses { essential: true },
        },
        Case {
            name: "the uses of an axiom",
            files: &[(b"first.mm", &[Text(FIRST)])],
            reply: b"ask A2 tpl\n",
            status: 1,
        },
    ),
    (
        About {
            label: b"u",
            question: Question::Uses { essential: true },
        },
        Case {
            name: "the uses of an incomplete proof",
            files: &[(b"h.mm", &[Text(HEAD), Text(b"u $p term 0 $= ? $.\n")])],
            reply: b"ask A3 u\n",
            status: 3,
        },
    ),
];
