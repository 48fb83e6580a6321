//! The acceptance cases of blocks, hypotheses and distinct variables.

use crate::Case;
use crate::Part::Text;
use mm_core_tests::databases::{DIST, FIRST, LIMIT};

/// What is active in blocks and after them, and blocks that are not balanced.
pub(crate) const BLOCKS: [Case; 11] = [
    Case {
        name: "a variable declared again in a second block",
        files: &[(
            b"s.mm",
            &[
                Text(b"$c a b $.\n"),
                Text(b"${ $v x $. fx $f a x $. $}\n"),
                Text(b"${ $v x $. fy $f a x $. $}\n"),
            ],
        )],
        reply: b"yes 9 statements 0 proofs\n",
        status: 0,
    },
    Case {
        name: "a variable with another type code in a second block",
        files: &[(
            b"s.mm",
            &[
                Text(b"$c a b $.\n"),
                Text(b"${ $v x $. fx $f a x $. $}\n"),
                Text(b"${ $v x $. fy $f b x $. $}\n"),
            ],
        )],
        reply: b"no s.mm 3 fy M13 0\n",
        status: 1,
    },
    Case {
        name: "a variable of a closed block declared as a constant",
        files: &[(
            b"s.mm",
            &[Text(b"$c a b $.\n${ $v x $. fx $f a x $. $}\n$c x $.\n")],
        )],
        reply: b"no s.mm 3 - M2 0\n",
        status: 1,
    },
    Case {
        name: "a label of a closed block declared as a constant",
        files: &[(
            b"s.mm",
            &[Text(b"$c a b $.\n${ $v x $. fx $f a x $. $}\n$c fx $.\n")],
        )],
        reply: b"no s.mm 3 - M4 0\n",
        status: 1,
    },
    Case {
        name: "a label in a block that is a symbol",
        files: &[(
            b"s.mm",
            &[
                Text(b"$c a b $.\n"),
                Text(b"${ $v x $. a $f a x $. $}\n"),
                Text(b"${ $v x $. fy $f a x $. $}\n"),
            ],
        )],
        reply: b"no s.mm 2 a M6 0\n",
        status: 1,
    },
    Case {
        name: "a block is closed that was not opened",
        files: &[(b"f.mm", &[Text(b"$}\n")])],
        reply: b"no f.mm 1 - S6 0\n",
        status: 1,
    },
    Case {
        name: "a block is open at the end",
        files: &[(b"f.mm", &[Text(b"${\n")])],
        reply: b"no f.mm 1 - S7 0\n",
        status: 1,
    },
    Case {
        name: "the innermost open block is named",
        files: &[(b"f.mm", &[Text(b"${\n${\n${\n$}\n")])],
        reply: b"no f.mm 2 - S7 0\n",
        status: 1,
    },
    Case {
        name: "a block is open at the end of a small database",
        files: &[(b"first.mm", &[Text(FIRST), Text(b"${\n")])],
        reply: b"no first.mm 8 - S7 0\n",
        status: 1,
    },
    Case {
        name: "a constant declared in a block",
        files: &[(
            b"m.mm",
            &[Text(b"$c a b $. $v x y $. fx $f a x $.\n${ $c d $. $}\n")],
        )],
        reply: b"no m.mm 2 - M1 0\n",
        status: 1,
    },
    Case {
        name: "a variable of a closed block",
        files: &[(
            b"m.mm",
            &[Text(b"$c a b $. $v x y $. fx $f a x $.\n${ $v z $. $} $d x z $.\n")],
        )],
        reply: b"no m.mm 2 - M7 0\n",
        status: 1,
    },
];

/// `$e` and `$d`, and what a proof finds of closed blocks.
pub(crate) const HYPOTHESES: [Case; 9] = [
    Case {
        name: "the database of distinct variables by itself",
        files: &[(b"dist.mm", &[Text(DIST)])],
        reply: b"yes 13 statements 0 proofs\n",
        status: 0,
    },
    Case {
        name: "the database of long expressions by itself",
        files: &[(b"limit.mm", &[Text(LIMIT)])],
        reply: b"yes 9 statements 0 proofs\n",
        status: 0,
    },
    Case {
        name: "a constant among distinct variables",
        files: &[(
            b"m.mm",
            &[Text(b"$c a b $. $v x y $. fx $f a x $.\n$d a x $.\n")],
        )],
        reply: b"no m.mm 2 - M8 0\n",
        status: 1,
    },
    Case {
        name: "a distinct variable named twice",
        files: &[(
            b"m.mm",
            &[Text(b"$c a b $. $v x y $. fx $f a x $.\n$d x x $.\n")],
        )],
        reply: b"no m.mm 2 - M9 0\n",
        status: 1,
    },
    Case {
        name: "a hypothesis that begins with a variable",
        files: &[(
            b"m.mm",
            &[Text(b"$c a b $. $v x y $. fx $f a x $.\np $e x $.\n")],
        )],
        reply: b"no m.mm 2 p M14 0\n",
        status: 1,
    },
    Case {
        name: "a distinct variable that was never declared",
        files: &[(
            b"m.mm",
            &[Text(b"$c a b $. $v x y $. fx $f a x $.\n$d x z $.\n")],
        )],
        reply: b"no m.mm 2 - M7 0\n",
        status: 1,
    },
    Case {
        name: "only one distinct variable",
        files: &[(b"f.mm", &[Text(b"$d x $.\n")])],
        reply: b"no f.mm 1 - S5 0\n",
        status: 1,
    },
    Case {
        name: "a hypothesis without symbols",
        files: &[(b"f.mm", &[Text(b"x $e $.\n")])],
        reply: b"no f.mm 1 x S5 0\n",
        status: 1,
    },
    Case {
        name: "a hypothesis of a closed block in a proof",
        files: &[(
            b"q.mm",
            &[
                Text(b"$c a |- $. $v x $. fx $f a x $.\n"),
                Text(b"${ h $e |- x $. $}\n"),
                Text(b"q $p |- x $= h $.\n"),
            ],
        )],
        reply: b"no q.mm 3 q P3 0\n",
        status: 1,
    },
];
