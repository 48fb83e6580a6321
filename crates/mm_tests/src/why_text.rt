//! The acceptance cases of `why` for the faults of the text, each with its facts.

use crate::Case;
use crate::Part::Text;
use mm_check::Command::{self, Whole};
use mm_check::WholeQuestion;
use mm_step::Profile::Lenient;

/// Databases with a fault of the text.
pub(crate) const TEXTS: [(Command<'static>, Case); 14] = [
    (
        Whole {
            profile: Lenient,
            question: WholeQuestion::Why { source: false },
        },
        Case {
            name: "a byte that no token may hold",
            files: &[(b"f.mm", &[Text(b"$c a $.\nq $a a \x01b c $.\n")])],
            reply: b"f.mm:2:8: X1: a token holds a byte outside 0x21 to 0x7E, in q
  token: \x01b
  begun: f.mm:2:1
1 fault
",
            status: 1,
        },
    ),
    (
        Whole {
            profile: Lenient,
            question: WholeQuestion::Why { source: false },
        },
        Case {
            name: "a comment in a comment, after another one",
            files: &[(
                b"f.mm",
                &[Text(b"$( one $) $c a $. $( two\nq $a a $.\n$( three $)\n")],
            )],
            reply: b"f.mm:3:1: X3: a token in a comment holds $( or $)
  token: $(
  begun: f.mm:1:19
1 fault
",
            status: 1,
        },
    ),
    (
        Whole {
            profile: Lenient,
            question: WholeQuestion::Why { source: false },
        },
        Case {
            name: "a comment that begins right before the mark in it",
            files: &[(b"f.mm", &[Text(b"$c a $.\n$( a$) $)\n")])],
            reply: b"f.mm:2:4: X3: a token in a comment holds $( or $)
  token: a$)
  begun: f.mm:2:1
1 fault
",
            status: 1,
        },
    ),
    (
        Whole {
            profile: Lenient,
            question: WholeQuestion::Why { source: false },
        },
        Case {
            name: "an inclusion in a block in another one",
            files: &[(b"f.mm", &[Text(b"${ $} ${\n ${ $[ a.mm $] $}\n")])],
            reply: b"f.mm:2:5: X6: $[ stands in a block or in a statement
  token: $[
f.mm:2:2: the block is opened here, and not closed
1 fault
",
            status: 1,
        },
    ),
    (
        Whole {
            profile: Lenient,
            question: WholeQuestion::Why { source: false },
        },
        Case {
            name: "an inclusion in a statement in a block",
            files: &[(b"f.mm", &[Text(b"${ ${ $}\np $a $[ a.mm $]\n")])],
            reply: b"f.mm:2:6: X6: $[ stands in a block or in a statement, in p
  token: $[
  begun: f.mm:2:1
f.mm:1:1: the block is opened here, and not closed
1 fault
",
            status: 1,
        },
    ),
    (
        Whole {
            profile: Lenient,
            question: WholeQuestion::Why { source: false },
        },
        Case {
            name: "a $. is lost, and two statements run together",
            files: &[(
                b"f.mm",
                &[Text(b"$c a $.\np $a a $.\n  q $a a\nr $a a $.\n")],
            )],
            reply: b"f.mm:4:3: S4: the keyword can't stand in this place, in q
  token: $a
  missing before it: $.
  begun: f.mm:3:3
1 fault
",
            status: 1,
        },
    ),
    (
        Whole {
            profile: Lenient,
            question: WholeQuestion::Why { source: false },
        },
        Case {
            name: "a $. is lost, where no label was read",
            files: &[(b"f.mm", &[Text(b"$c a\nr $a a $.\n")])],
            reply: b"f.mm:2:3: S4: the keyword can't stand in this place
  token: $a
  missing before it: $.
  begun: f.mm:1:1
1 fault
",
            status: 1,
        },
    ),
    (
        Whole {
            profile: Lenient,
            question: WholeQuestion::Why { source: false },
        },
        Case {
            name: "a ${ is lost",
            files: &[(
                b"f.mm",
                &[Text(b"$c a $.\n${ q $a a $. $} ${ $}\nr $a a $.\n  $}\n")],
            )],
            reply: b"f.mm:4:3: S6: $} stands where no block is open
  token: $}
  the last block is closed: f.mm:2:20
1 fault
",
            status: 1,
        },
    ),
    (
        Whole {
            profile: Lenient,
            question: WholeQuestion::Why { source: false },
        },
        Case {
            name: "a $} alone",
            files: &[(b"f.mm", &[Text(b"$c a $.\n $}\n")])],
            reply: b"f.mm:2:2: S6: $} stands where no block is open
  token: $}
1 fault
",
            status: 1,
        },
    ),
    (
        Whole {
            profile: Lenient,
            question: WholeQuestion::Why { source: false },
        },
        Case {
            name: "a $f with one symbol",
            files: &[(b"f.mm", &[Text(b"$c a $.\nq\n $f a $.\n")])],
            reply: b"f.mm:3:7: S5: a statement has too few symbols, or a $f has a third one, in q
  token: $.
  begun: f.mm:2:1
1 fault
",
            status: 1,
        },
    ),
    (
        Whole {
            profile: Lenient,
            question: WholeQuestion::Why { source: false },
        },
        Case {
            name: "a file ends in a statement",
            files: &[(b"f.mm", &[Text(b"$c a $.\nq $a a")])],
            reply: b"f.mm:2:1: X8: a statement isn't ended in its file, in q
  token: q
1 fault
",
            status: 1,
        },
    ),
    (
        Whole {
            profile: Lenient,
            question: WholeQuestion::Why { source: false },
        },
        Case {
            name: "a block isn't closed",
            files: &[(b"f.mm", &[Text(b"$c a $.\n ${ ${ $}\nq $a a $.\n")])],
            reply: b"f.mm:2:2: S7: a block isn't closed in the top file
  token: ${
1 fault
",
            status: 1,
        },
    ),
    (
        Whole {
            profile: Lenient,
            question: WholeQuestion::Why { source: false },
        },
        Case {
            name: "a block is closed in an included file",
            files: &[
                (b"f.mm", &[Text(b"$[ g.mm $]\n$}\n")]),
                (b"g.mm", &[Text(b"$c a $.\n${ $}\n")]),
            ],
            reply: b"f.mm:2:1: S6: $} stands where no block is open
  token: $}
  the last block is closed: g.mm:2:4
1 fault
",
            status: 1,
        },
    ),
    (
        Whole {
            profile: Lenient,
            question: WholeQuestion::Why { source: false },
        },
        Case {
            name: "a faulty proof, and then a fault of the text",
            files: &[(
                b"f.mm",
                &[Text(b"$c a $.\np $p a $= nope $.\nq $a a $a $.\n")],
            )],
            reply: b"f.mm:3:8: S4: the keyword can't stand in this place, in q
  token: $a
  missing before it: $.
  begun: f.mm:3:1
f.mm:2:11: P2: no earlier statement has the label, in the proof of p
  token: nope
2 faults
",
            status: 1,
        },
    ),
];

/// Faults of the text in what begins before them, without a label.
pub(crate) const BEGUN: [(Command<'static>, Case); 7] = [
    (
        Whole {
            profile: Lenient,
            question: WholeQuestion::Why { source: false },
        },
        Case {
            name: "an inclusion isn't closed",
            files: &[(b"f.mm", &[Text(b"$c a $.\n$[ g.mm\n$c b $.\n")])],
            reply: b"f.mm:3:1: X5: an inclusion isn't of the form $[ NAME $]
  token: $c
  begun: f.mm:2:1
1 fault
",
            status: 1,
        },
    ),
    (
        Whole {
            profile: Lenient,
            question: WholeQuestion::Why { source: false },
        },
        Case {
            name: "a byte that no token may hold, in a comment in a statement",
            files: &[(b"f.mm", &[Text(b"$c a $.\nq $a $( one\n\x01two $) a $.\n")])],
            reply: b"f.mm:3:1: X1: a token holds a byte outside 0x21 to 0x7E, in q
  token: \x01two
  begun: f.mm:2:6
1 fault
",
            status: 1,
        },
    ),
    (
        Whole {
            profile: Lenient,
            question: WholeQuestion::Why { source: false },
        },
        Case {
            name: "a comment isn't closed, in a statement",
            files: &[(b"f.mm", &[Text(b"$c a $.\nq $a a $( one\n$.\n")])],
            reply: b"f.mm:2:8: X2: a comment isn't closed in its file, in q
  token: $(
  begun: f.mm:2:1
1 fault
",
            status: 1,
        },
    ),
    (
        Whole {
            profile: Lenient,
            question: WholeQuestion::Why { source: false },
        },
        Case {
            name: "an unlabelled statement isn't ended, in an included file",
            files: &[
                (b"f.mm", &[Text(b"$c a $.\n$[ g.mm $]\n")]),
                (b"g.mm", &[Text(b"$v x $.\n  $d x y\n$c b $.\n")]),
            ],
            reply: b"g.mm:3:1: S4: the keyword can't stand in this place
  token: $c
  missing before it: $.
  begun: g.mm:2:3
1 fault
",
            status: 1,
        },
    ),
    (
        Whole {
            profile: Lenient,
            question: WholeQuestion::Why { source: false },
        },
        Case {
            name: "a fault stands in no statement, and a comment of the other file isn't closed",
            files: &[
                (b"f.mm", &[Text(b"$[ g.mm $]\n$( no end")]),
                (b"g.mm", &[Text(b"$c a $.\n$.\n")]),
            ],
            reply: b"g.mm:2:1: S1: the keyword begins no statement
  token: $.
1 fault
",
            status: 1,
        },
    ),
    (
        Whole {
            profile: Lenient,
            question: WholeQuestion::Why { source: false },
        },
        Case {
            name: "a $p without $=",
            files: &[(b"f.mm", &[Text(b"$c a $.\nq $p a $.\n")])],
            reply: b"f.mm:2:8: S4: the keyword can't stand in this place, in q
  token: $.
  missing before it: $=
  begun: f.mm:2:1
1 fault
",
            status: 1,
        },
    ),
    (
        Whole {
            profile: Lenient,
            question: WholeQuestion::Why { source: false },
        },
        Case {
            name: "a $a without a label",
            files: &[(b"f.mm", &[Text(b"$c a $.\n$a a $.\n")])],
            reply: b"f.mm:2:1: S1: the keyword begins no statement
  token: $a
  missing before it: a label
1 fault
",
            status: 1,
        },
    ),
];

/// Proofs that use a label before it is stated.
pub(crate) const LATER: [(Command<'static>, Case); 3] = [
    (
        Whole {
            profile: Lenient,
            question: WholeQuestion::Why { source: false },
        },
        Case {
            name: "labels are stated further down, each first in another file",
            files: &[
                (
                    b"f.mm",
                    &[Text(b"$c a $.\np $p a $= q $.\nr $p a $= s $.\n$[ g.mm $]\nq $a a $.\n")],
                ),
                (b"g.mm", &[Text(b"s $a a $.\n q $e a $.\n")]),
            ],
            reply: b"f.mm:5:1: M5: the label is an earlier label, in q
  token: q
  labelled: g.mm:2:2
f.mm:2:11: P2: no earlier statement has the label, in the proof of p
  token: q
  stated further down: g.mm:2:2
f.mm:3:11: P2: no earlier statement has the label, in the proof of r
  token: s
  near: p
  stated further down: g.mm:1:1
3 faults
",
            status: 1,
        },
    ),
    (
        Whole {
            profile: Lenient,
            question: WholeQuestion::Why { source: false },
        },
        Case {
            name: "a label is that of the statement itself",
            files: &[(
                b"f.mm",
                &[Text(b"$c a $.\npone $a a $.\nptwo $p a $= ptwo $.\nr $a a $.\n")],
            )],
            reply: b"f.mm:3:14: P2: no earlier statement has the label, in the proof of ptwo
  token: ptwo
1 fault
",
            status: 1,
        },
    ),
    (
        Whole {
            profile: Lenient,
            question: WholeQuestion::Why { source: false },
        },
        Case {
            name: "a label is near to one before, and is stated behind a fault of its own file",
            files: &[(
                b"f.mm",
                &[Text(b"$c a $.\none $a a $.\np $p a $= onf $.\nonf $p a $= nope $.\n")],
            )],
            reply: b"f.mm:3:11: P2: no earlier statement has the label, in the proof of p
  token: onf
  near: one
  stated further down: f.mm:4:1
f.mm:4:13: P2: no earlier statement has the label, in the proof of onf
  token: nope
  near: one
2 faults
",
            status: 1,
        },
    ),
];
