//! The acceptance cases of `why --source`: the line of each place, and a mark below it.

use crate::Case;
use crate::Part::{Text, Times};
use mm_check::Command::{self, Whole};
use mm_check::WholeQuestion;
use mm_step::Profile::Lenient;

/// Databases with faults whose lines are told.
pub(crate) const SHOWN: [(Command<'static>, Case); 5] = [
    (
        Whole {
            profile: Lenient,
            question: WholeQuestion::Why { source: true },
        },
        Case {
            name: "the line of a block, and tabs",
            files: &[(b"f.mm", &[Text(b"${\n\t$c\ta $.\r\n")])],
            reply: b"f.mm:2:2: M1: a $c stands in a block
  | \t$c\ta $.
  | \t^
  token: $c
f.mm:1:1: the block is opened here, and not closed
  | ${
  | ^
1 fault
",
            status: 1,
        },
    ),
    (
        Whole {
            profile: Lenient,
            question: WholeQuestion::Why { source: true },
        },
        Case {
            name: "the label of a proof, and one on the next line",
            files: &[(
                b"f.mm",
                &[Text(b"$c a $.\np $p a $= nope $.\n  q $p\n  a $= nope $.\n")],
            )],
            reply: b"f.mm:2:11: P2: no earlier statement has the label, in the proof of p
  | p $p a $= nope $.
  |           ^
  token: nope
f.mm:4:8: P2: no earlier statement has the label, in the proof of q
  |   a $= nope $.
  |        ^
  token: nope
2 faults
",
            status: 1,
        },
    ),
    (
        Whole {
            profile: Lenient,
            question: WholeQuestion::Why { source: true },
        },
        Case {
            name: "a long line, cut on both sides",
            files: &[(
                b"f.mm",
                &[
                    Text(b"$c a $. $( "),
                    Times(b"0123456789", 6),
                    Text(b" $) $c a $. $( "),
                    Times(b"0123456789", 6),
                    Text(b" $)\n"),
                ],
            )],
            reply: b"f.mm:1:79: M2: a symbol of a $c was declared before, or stands twice in it
  | 7890123456789012345678901234567890123456789 $) $c a $. $( 012345678901234567890123456789012345678901
  |                                                   ^
  token: a
  declared: f.mm:1:4
1 fault
",
            status: 1,
        },
    ),
    (
        Whole {
            profile: Lenient,
            question: WholeQuestion::Why { source: true },
        },
        Case {
            name: "a long line, cut behind the place",
            files: &[(
                b"f.mm",
                &[
                    Text(b"$c a $.\n$c a $. $( "),
                    Times(b"0123456789", 12),
                    Text(b" $)\n"),
                ],
            )],
            reply: b"f.mm:2:4: M2: a symbol of a $c was declared before, or stands twice in it
  | $c a $. $( 01234567890123456789012345678901234567890123456789012345678901234567890123456789012345678
  |    ^
  token: a
  declared: f.mm:1:4
1 fault
",
            status: 1,
        },
    ),
    (
        Whole {
            profile: Lenient,
            question: WholeQuestion::Why { source: true },
        },
        Case {
            name: "a long line, cut before the place",
            files: &[(
                b"f.mm",
                &[
                    Text(b"$c a $.\n$( "),
                    Times(b"0123456789", 12),
                    Text(b" $) $c a $.\n"),
                ],
            )],
            reply: b"f.mm:2:131: M2: a symbol of a $c was declared before, or stands twice in it
  | 12345678901234567890123456789012345678901234567890123456789012345678901234567890123456789 $) $c a $.
  |                                                                                                 ^
  token: a
  declared: f.mm:1:4
1 fault
",
            status: 1,
        },
    ),
];
