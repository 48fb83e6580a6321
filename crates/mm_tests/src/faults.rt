//! The acceptance cases of `faults`.

use crate::Case;
use crate::Part::{Text, Times};
use mm_check::Command::{self, Whole};
use mm_check::WholeQuestion;
use mm_core_tests::databases::{FIRST, LIMIT};
use mm_step::Profile::{Lenient, Strict};

/// Databases with several faults, with one, and with none.
pub(crate) const FAULTS: [(Command<'static>, Case); 10] = [
    (
        Whole {
            profile: Lenient,
            question: WholeQuestion::Faults,
        },
        Case {
            name: "a proof that uses a faulty theorem between two faults",
            files: &[(
                b"f.mm",
                &[
                    Text(b"$c a b $.\none $a a $.\np $p b $= one $.\n"),
                    Text(b"q $p b $= p $.\nr $p a $= nope $.\n"),
                ],
            )],
            reply: b"no f.mm 3 p P14 2\nno f.mm 5 r P2 0\n",
            status: 1,
        },
    ),
    (
        Whole {
            profile: Lenient,
            question: WholeQuestion::Faults,
        },
        Case {
            name: "a rule of meaning ends the run",
            files: &[(
                b"f.mm",
                &[
                    Text(b"$c a $.\np $p a $= nope $.\nq $p a $= nope $.\n"),
                    Text(b"$c a $.\nr $p a $= nope $.\n"),
                ],
            )],
            reply: b"no f.mm 2 p P2 0\nno f.mm 3 q P2 0\nno f.mm 4 - M2 0\n",
            status: 1,
        },
    ),
    (
        Whole {
            profile: Lenient,
            question: WholeQuestion::Faults,
        },
        Case {
            name: "a rule of meaning before a proof",
            files: &[(
                b"f.mm",
                &[Text(b"$c a $.\np $p b $= nope $.\nr $p a $= nope $.\n")],
            )],
            reply: b"no f.mm 2 p M7 0\n",
            status: 1,
        },
    ),
    (
        Whole {
            profile: Lenient,
            question: WholeQuestion::Faults,
        },
        Case {
            name: "a fault of the text ends the run",
            files: &[(
                b"f.mm",
                &[
                    Text(b"$c a $.\np $p a $= nope $.\n$[ none.mm $]\n"),
                    Text(b"r $p a $= nope $.\n"),
                ],
            )],
            reply: b"no f.mm 2 p P2 0\nno f.mm 3 - X7 0\n",
            status: 1,
        },
    ),
    (
        Whole {
            profile: Lenient,
            question: WholeQuestion::Faults,
        },
        Case {
            name: "a fault before an unknown step, and an incomplete proof",
            files: &[(
                b"f.mm",
                &[Text(b"$c a $.\np $p a $= nope ? $.\nq $p a $= ? $.\n")],
            )],
            reply: b"no f.mm 2 p P2 0\n",
            status: 1,
        },
    ),
    (
        Whole {
            profile: Strict,
            question: WholeQuestion::Faults,
        },
        Case {
            name: "two loose proofs",
            files: &[(
                b"f.mm",
                &[
                    Text(b"$c a $. one $a a $.\np $p a $= ( one one ) B $.\n"),
                    Text(b"q $p a $= ( one one p ) C $.\n"),
                ],
            )],
            reply: b"no f.mm 2 p P15 0\nno f.mm 3 q P15 0\n",
            status: 1,
        },
    ),
    (
        Whole {
            profile: Lenient,
            question: WholeQuestion::Faults,
        },
        Case {
            name: "a limit first",
            files: &[(
                b"limit.mm",
                &[
                    Text(LIMIT),
                    Text(b"th $p f $= ( one odd end ) A"),
                    Times(b"B", 20),
                    Text(b"ZDC $.\nq $p f $= nope $.\n"),
                ],
            )],
            reply: b"limit limit.mm 10 th L1 21\nno limit.mm 11 q P2 0\n",
            status: 4,
        },
    ),
    (
        Whole {
            profile: Lenient,
            question: WholeQuestion::Faults,
        },
        Case {
            name: "no fault",
            files: &[(b"first.mm", &[Text(FIRST)])],
            reply: b"yes 7 statements 1 proofs\n",
            status: 0,
        },
    ),
    (
        Whole {
            profile: Lenient,
            question: WholeQuestion::Faults,
        },
        Case {
            name: "no fault beside an incomplete proof",
            files: &[(b"f.mm", &[Text(b"$c a $. p $p a $= ? $. q $p a $= p $.\n")])],
            reply: b"incomplete 1\np\n",
            status: 3,
        },
    ),
    (
        Whole {
            profile: Lenient,
            question: WholeQuestion::Faults,
        },
        Case {
            name: "files that cannot be taken",
            files: &[
                (b"f.mm", &[Text(b"$c a $.\np $p a $= nope $.\n")]),
                (b"f.mm", &[Text(b"")]),
            ],
            reply: b"load F2\n",
            status: 4,
        },
    ),
];
