//! The acceptance cases of one file without blocks, `$e`, `$d`, comments and inclusions. The
//! replies are those of the cases, and no output of the program.

use crate::Case;
use crate::Part::{Text, Times};
use mm_core_tests::databases::{CAT, FIRST, FIRST_HEAD};

/// Files that are accepted, files of one name, and a file that is never reached.
pub(crate) const WHOLE_FILES: [Case; 10] = [
    Case {
        name: "an empty file",
        files: &[(b"e.mm", &[])],
        reply: b"yes 0 statements 0 proofs\n",
        status: 0,
    },
    Case {
        name: "a file of white space alone",
        files: &[(b"e.mm", &[Text(b" \t\n\x0c\r")])],
        reply: b"yes 0 statements 0 proofs\n",
        status: 0,
    },
    Case {
        name: "a small database with one theorem",
        files: &[(b"first.mm", &[Text(FIRST)])],
        reply: b"yes 7 statements 1 proofs\n",
        status: 0,
    },
    Case {
        name: "a small database with other white space",
        files: &[(
            b"first.mm",
            &[
                Text(b"$c\x0c0\x0c+\x0c(\x0c)\x0cterm\x0c$.\r\n"),
                Text(b"$v\x0ct\x0cr\x0c$.\r\n"),
                Text(b"tt\x0c$f\x0cterm\x0ct\x0c$.\r\n"),
                Text(b"tr\x0c$f\x0cterm\x0cr\x0c$.\r\n"),
                Text(b"tze\x0c$a\x0cterm\x0c0\x0c$.\r\n"),
                Text(b"tpl\x0c$a\x0cterm\x0c(\x0ct\x0c+\x0cr\x0c)\x0c$.\r\n"),
                Text(b"th\x0c$p\x0cterm\x0c(\x0c0\x0c+\x0c0\x0c)\x0c"),
                Text(b"$=\x0ctze\x0ctze\x0ctpl\x0c$.\r\n"),
            ],
        )],
        reply: b"yes 7 statements 1 proofs\n",
        status: 0,
    },
    Case {
        name: "the concatenation database by itself",
        files: &[(b"cat.mm", &[Text(CAT)])],
        reply: b"yes 6 statements 0 proofs\n",
        status: 0,
    },
    Case {
        name: "both variables replaced by nothing",
        files: &[(
            b"cat.mm",
            &[Text(CAT), Text(b"th $p e $= nil nil cat $.\n")],
        )],
        reply: b"yes 7 statements 1 proofs\n",
        status: 0,
    },
    Case {
        name: "two variables exchanged at once",
        files: &[(
            b"first.mm",
            &[Text(FIRST), Text(b"sw $p term ( r + t ) $= tr tt tpl $.\n")],
        )],
        reply: b"yes 8 statements 2 proofs\n",
        status: 0,
    },
    Case {
        name: "the same file handed in twice",
        files: &[(b"first.mm", &[Text(FIRST)]), (b"first.mm", &[Text(FIRST)])],
        reply: b"load F2\n",
        status: 4,
    },
    Case {
        name: "one file under two names",
        files: &[
            (b"first.mm", &[Text(FIRST)]),
            (b"./first.mm", &[Text(FIRST)]),
        ],
        reply: b"yes 7 statements 1 proofs\n",
        status: 0,
    },
    Case {
        name: "a further file is never reached",
        files: &[
            (b"first.mm", &[Text(FIRST)]),
            (b"junk.mm", &[Text(b"$x $) a+ \x80\n")]),
        ],
        reply: b"yes 7 statements 1 proofs\n",
        status: 0,
    },
];

/// Faults of the text: bytes, keywords out of place, and files that end too soon.
pub(crate) const TOKENS: [Case; 12] = [
    Case {
        name: "a file ends in a declaration of constants",
        files: &[(b"f.mm", &[Text(b"$c a\n")])],
        reply: b"no f.mm 1 - X8 0\n",
        status: 1,
    },
    Case {
        name: "a file ends in a labelled statement",
        files: &[(b"f.mm", &[Text(b"x $f a\n")])],
        reply: b"no f.mm 1 x X8 0\n",
        status: 1,
    },
    Case {
        name: "a token with a dollar sign that is no keyword",
        files: &[(b"f.mm", &[Text(b"$x\n")])],
        reply: b"no f.mm 1 - X9 0\n",
        status: 1,
    },
    Case {
        name: "the end of a comment outside a comment",
        files: &[(b"f.mm", &[Text(b"$)\n")])],
        reply: b"no f.mm 1 - X4 0\n",
        status: 1,
    },
    Case {
        name: "the end of an inclusion outside an inclusion",
        files: &[(b"f.mm", &[Text(b"$]\n")])],
        reply: b"no f.mm 1 - X4 0\n",
        status: 1,
    },
    Case {
        name: "a file ends after a label",
        files: &[(b"f.mm", &[Text(b"a\n")])],
        reply: b"no f.mm 1 a X8 0\n",
        status: 1,
    },
    Case {
        name: "the end of a comment among constants",
        files: &[(b"f.mm", &[Text(b"$c a $) b $.\n")])],
        reply: b"no f.mm 1 - X4 0\n",
        status: 1,
    },
    Case {
        name: "a label followed by a label with another byte",
        files: &[(b"f.mm", &[Text(b"a a+ $a\n")])],
        reply: b"no f.mm 1 a S3 0\n",
        status: 1,
    },
    Case {
        name: "a byte above the range in a token",
        files: &[(b"f.mm", &[Text(b"$c a\n  \x80 $.\n")])],
        reply: b"no f.mm 2 - X1 0\n",
        status: 1,
    },
    Case {
        name: "a vertical tab is no white space",
        files: &[(b"f.mm", &[Text(b"$c\x0ba $.\n")])],
        reply: b"no f.mm 1 - X1 0\n",
        status: 1,
    },
    Case {
        name: "a byte out of range comes before a stray dollar sign",
        files: &[(b"f.mm", &[Text(b"x $f $\xff $.\n")])],
        reply: b"no f.mm 1 x X1 0\n",
        status: 1,
    },
    Case {
        name: "a byte out of range outside a statement",
        files: &[(b"first.mm", &[Text(FIRST), Text(b"\x7f\n")])],
        reply: b"no first.mm 8 - X1 0\n",
        status: 1,
    },
];

/// Faults of the form of statements: labels, and too few symbols or too many.
pub(crate) const FORMS: [Case; 11] = [
    Case {
        name: "after a label comes no kind of statement",
        files: &[(b"f.mm", &[Text(b"a b\n")])],
        reply: b"no f.mm 1 a S3 0\n",
        status: 1,
    },
    Case {
        name: "a label with another byte than a label may hold",
        files: &[(b"f.mm", &[Text(b"a+ $a\n")])],
        reply: b"no f.mm 1 - S2 0\n",
        status: 1,
    },
    Case {
        name: "a declaration of no constants",
        files: &[(b"f.mm", &[Text(b"$c $.\n")])],
        reply: b"no f.mm 1 - S5 0\n",
        status: 1,
    },
    Case {
        name: "a kind of statement without its label",
        files: &[(b"f.mm", &[Text(b"$a\n")])],
        reply: b"no f.mm 1 - S1 0\n",
        status: 1,
    },
    Case {
        name: "a theorem without a proof",
        files: &[(b"f.mm", &[Text(b"a $p x $.\n")])],
        reply: b"no f.mm 1 a S4 0\n",
        status: 1,
    },
    Case {
        name: "a theorem without symbols and without a proof",
        files: &[(b"c.mm", &[Text(b"p $p $.")])],
        reply: b"no c.mm 1 p S4 0\n",
        status: 1,
    },
    Case {
        name: "too few symbols of a typed variable",
        files: &[(b"f.mm", &[Text(b"x $f a $.\n")])],
        reply: b"no f.mm 1 x S5 0\n",
        status: 1,
    },
    Case {
        name: "a third symbol of a typed variable",
        files: &[(b"f.mm", &[Text(b"x $f a b c $.\n")])],
        reply: b"no f.mm 1 x S5 0\n",
        status: 1,
    },
    Case {
        name: "no variables declared",
        files: &[(b"f.mm", &[Text(b"$v $.\n")])],
        reply: b"no f.mm 1 - S5 0\n",
        status: 1,
    },
    Case {
        name: "an axiom without symbols",
        files: &[(b"f.mm", &[Text(b"x $a $.\n")])],
        reply: b"no f.mm 1 x S5 0\n",
        status: 1,
    },
    Case {
        name: "a theorem without symbols",
        files: &[(b"f.mm", &[Text(b"x $p $= $.\n")])],
        reply: b"no f.mm 1 x S5 0\n",
        status: 1,
    },
];

/// Keywords that can't stand where they do in a statement.
pub(crate) const KEYWORDS_IN_STATEMENTS: [Case; 6] = [
    Case {
        name: "a proof sign in an axiom",
        files: &[(b"f.mm", &[Text(b"x $a a $= a $.\n")])],
        reply: b"no f.mm 1 x S4 0\n",
        status: 1,
    },
    Case {
        name: "a second proof sign in a theorem",
        files: &[(b"f.mm", &[Text(b"x $p a $= a $= a $.\n")])],
        reply: b"no f.mm 1 x S4 0\n",
        status: 1,
    },
    Case {
        name: "a keyword among constants",
        files: &[(b"f.mm", &[Text(b"$c a $v b $.\n")])],
        reply: b"no f.mm 1 - S4 0\n",
        status: 1,
    },
    Case {
        name: "a hypothesis sign among constants",
        files: &[(b"f.mm", &[Text(b"$c a $e b $.\n")])],
        reply: b"no f.mm 1 - S4 0\n",
        status: 1,
    },
    Case {
        name: "a block opened among constants",
        files: &[(b"f.mm", &[Text(b"$c a ${ b $.\n")])],
        reply: b"no f.mm 1 - S4 0\n",
        status: 1,
    },
    Case {
        name: "a distinct sign among constants",
        files: &[(b"f.mm", &[Text(b"$c a $d b $.\n")])],
        reply: b"no f.mm 1 - S4 0\n",
        status: 1,
    },
];

/// Keywords that begin no statement, where one should begin.
pub(crate) const KEYWORDS_BETWEEN_STATEMENTS: [Case; 5] = [
    Case {
        name: "the end of a statement where one should begin",
        files: &[(b"f.mm", &[Text(b"$.\n")])],
        reply: b"no f.mm 1 - S1 0\n",
        status: 1,
    },
    Case {
        name: "a proof sign where a statement should begin",
        files: &[(b"f.mm", &[Text(b"$=\n")])],
        reply: b"no f.mm 1 - S1 0\n",
        status: 1,
    },
    Case {
        name: "a typing sign where a statement should begin",
        files: &[(b"f.mm", &[Text(b"$f\n")])],
        reply: b"no f.mm 1 - S1 0\n",
        status: 1,
    },
    Case {
        name: "a theorem sign where a statement should begin",
        files: &[(b"f.mm", &[Text(b"$p\n")])],
        reply: b"no f.mm 1 - S1 0\n",
        status: 1,
    },
    Case {
        name: "a hypothesis sign where a statement should begin",
        files: &[(b"f.mm", &[Text(b"$e\n")])],
        reply: b"no f.mm 1 - S1 0\n",
        status: 1,
    },
];

/// Symbols that are declared again.
pub(crate) const DECLARATIONS: [Case; 6] = [
    Case {
        name: "a variable declared again as a constant",
        files: &[(
            b"m.mm",
            &[Text(b"$c a b $. $v x y $. fx $f a x $.\n$c x $.\n")],
        )],
        reply: b"no m.mm 2 - M2 0\n",
        status: 1,
    },
    Case {
        name: "a variable declared again while active",
        files: &[(
            b"m.mm",
            &[Text(b"$c a b $. $v x y $. fx $f a x $.\n$v x $.\n")],
        )],
        reply: b"no m.mm 2 - M3 0\n",
        status: 1,
    },
    Case {
        name: "a constant declared again as a variable",
        files: &[(
            b"m.mm",
            &[Text(b"$c a b $. $v x y $. fx $f a x $.\n$v a $.\n")],
        )],
        reply: b"no m.mm 2 - M3 0\n",
        status: 1,
    },
    Case {
        name: "a constant declared again",
        files: &[(
            b"m.mm",
            &[Text(b"$c a b $. $v x y $. fx $f a x $.\n$c a $.\n")],
        )],
        reply: b"no m.mm 2 - M2 0\n",
        status: 1,
    },
    Case {
        name: "a constant twice in one declaration",
        files: &[(
            b"m.mm",
            &[Text(b"$c a b $. $v x y $. fx $f a x $.\n$c d d $.\n")],
        )],
        reply: b"no m.mm 2 - M2 0\n",
        status: 1,
    },
    Case {
        name: "a variable twice in one declaration",
        files: &[(
            b"m.mm",
            &[Text(b"$c a b $. $v x y $. fx $f a x $.\n$v z z $.\n")],
        )],
        reply: b"no m.mm 2 - M3 0\n",
        status: 1,
    },
];

/// Faults of meaning of labels, hypotheses and symbols.
pub(crate) const MEANING: [Case; 10] = [
    Case {
        name: "a label declared as a variable",
        files: &[(
            b"m.mm",
            &[Text(b"$c a b $. $v x y $. fx $f a x $.\n$v fx $.\n")],
        )],
        reply: b"no m.mm 2 - M4 0\n",
        status: 1,
    },
    Case {
        name: "a label given again",
        files: &[(
            b"m.mm",
            &[Text(b"$c a b $. $v x y $. fx $f a x $.\nfx $f a y $.\n")],
        )],
        reply: b"no m.mm 2 fx M5 0\n",
        status: 1,
    },
    Case {
        name: "a label that is a symbol",
        files: &[(
            b"m.mm",
            &[Text(b"$c a b $. $v x y $. fx $f a x $.\nb $a a $.\n")],
        )],
        reply: b"no m.mm 2 b M6 0\n",
        status: 1,
    },
    Case {
        name: "a variable without its type",
        files: &[(
            b"m.mm",
            &[Text(b"$c a b $. $v x y $. fx $f a x $.\np $a a y $.\n")],
        )],
        reply: b"no m.mm 2 p M15 0\n",
        status: 1,
    },
    Case {
        name: "a symbol that was never declared",
        files: &[(
            b"m.mm",
            &[Text(b"$c a b $. $v x y $. fx $f a x $.\np $a a z $.\n")],
        )],
        reply: b"no m.mm 2 p M7 0\n",
        status: 1,
    },
    Case {
        name: "a type code that is a variable",
        files: &[(
            b"m.mm",
            &[Text(b"$c a b $. $v x y $. fx $f a x $.\np $f x y $.\n")],
        )],
        reply: b"no m.mm 2 p M10 0\n",
        status: 1,
    },
    Case {
        name: "a constant in the place of the typed variable",
        files: &[(
            b"m.mm",
            &[Text(b"$c a b $. $v x y $. fx $f a x $.\np $f a b $.\n")],
        )],
        reply: b"no m.mm 2 p M11 0\n",
        status: 1,
    },
    Case {
        name: "a variable typed twice",
        files: &[(
            b"m.mm",
            &[Text(b"$c a b $. $v x y $. fx $f a x $.\np $f b x $.\n")],
        )],
        reply: b"no m.mm 2 p M12 0\n",
        status: 1,
    },
    Case {
        name: "an axiom that begins with a variable",
        files: &[(
            b"m.mm",
            &[Text(b"$c a b $. $v x y $. fx $f a x $.\np $a x $.\n")],
        )],
        reply: b"no m.mm 2 p M14 0\n",
        status: 1,
    },
    Case {
        name: "a label declared as a constant",
        files: &[(
            b"m.mm",
            &[Text(b"$c a b $. $v x y $. fx $f a x $.\n$c fx $.\n")],
        )],
        reply: b"no m.mm 2 - M4 0\n",
        status: 1,
    },
];

/// Faults of proofs, and the limit on expressions.
pub(crate) const STEPS: [Case; 6] = [
    Case {
        name: "a theorem used in its own proof",
        files: &[(
            b"first.mm",
            &[Text(FIRST_HEAD), Text(b"th $p term ( 0 + 0 ) $= th $.\n")],
        )],
        reply: b"no first.mm 7 th P2 0\n",
        status: 1,
    },
    Case {
        name: "too few entries on the stack",
        files: &[(
            b"first.mm",
            &[
                Text(FIRST_HEAD),
                Text(b"th $p term ( 0 + 0 ) $= tze tpl $.\n"),
            ],
        )],
        reply: b"no first.mm 7 th P8 2\n",
        status: 1,
    },
    Case {
        name: "two entries left at the end",
        files: &[(
            b"first.mm",
            &[
                Text(FIRST_HEAD),
                Text(b"th $p term ( 0 + 0 ) $= tze tze $.\n"),
            ],
        )],
        reply: b"no first.mm 7 th P13 3\n",
        status: 1,
    },
    Case {
        name: "another expression left at the end",
        files: &[(
            b"first.mm",
            &[Text(FIRST_HEAD), Text(b"th $p term ( 0 + 0 ) $= tze $.\n")],
        )],
        reply: b"no first.mm 7 th P14 2\n",
        status: 1,
    },
    Case {
        name: "a step that pushes too long an expression, in a file without blocks",
        files: &[(
            b"l.mm",
            &[
                Text(b"$c e f | $.\n"),
                Text(b"$v x $.\n"),
                Text(b"fx $f e x $.\n"),
                Text(b"one $a e | $.\n"),
                Text(b"odd $a e x x | $.\n"),
                Text(b"th $p e | $= one "),
                Times(b"odd ", 20),
                Text(b"$.\n"),
            ],
        )],
        reply: b"limit l.mm 6 th L1 21\n",
        status: 4,
    },
    Case {
        name: "the longest expression a step may push, in a file without blocks",
        files: &[(
            b"l.mm",
            &[
                Text(b"$c e f | $.\n"),
                Text(b"$v x $.\n"),
                Text(b"fx $f e x $.\n"),
                Text(b"one $a e | $.\n"),
                Text(b"odd $a e x x | $.\n"),
                Text(b"th $p e | $= one "),
                Times(b"odd ", 19),
                Text(b"$.\n"),
            ],
        )],
        reply: b"no l.mm 6 th P14 21\n",
        status: 1,
    },
];

/// Statements whose reply changed as the language that is read grew.
pub(crate) const FURTHER_FORMS: [Case; 6] = [
    Case {
        name: "distinct variables that were never declared",
        files: &[(b"f.mm", &[Text(b"$d x y $.\n")])],
        reply: b"no f.mm 1 - M7 0\n",
        status: 1,
    },
    Case {
        name: "a hypothesis of a constant that was never declared",
        files: &[(b"f.mm", &[Text(b"x $e a $.\n")])],
        reply: b"no f.mm 1 x M7 0\n",
        status: 1,
    },
    Case {
        name: "a comment among constants",
        files: &[(b"f.mm", &[Text(b"$c $( c $) a $.\n")])],
        reply: b"yes 1 statements 0 proofs\n",
        status: 0,
    },
    Case {
        name: "a comment after a label",
        files: &[(b"f.mm", &[Text(b"x $( c $) $a a $.\n")])],
        reply: b"no f.mm 1 x M7 0\n",
        status: 1,
    },
    Case {
        name: "an inclusion of a file that was not handed in",
        files: &[(b"f.mm", &[Text(b"$[ a.mm $]\n")])],
        reply: b"no f.mm 1 - X7 0\n",
        status: 1,
    },
    Case {
        name: "an inclusion after a label of a file that was not handed in",
        files: &[(b"f.mm", &[Text(b"x $[ a.mm $] $a a $.\n")])],
        reply: b"no f.mm 1 x X6 0\n",
        status: 1,
    },
];
