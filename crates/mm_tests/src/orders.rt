//! What is reported where a file breaks several rules, and what a frame holds. The replies are
//! those of the rules, and no output of the program.

use crate::Case;
use crate::Part::{Text, Times};

/// Faults of tokens, comments and the form of statements.
pub(crate) const TEXT: [Case; 8] = [
    Case {
        name: "a byte out of range comes before the beginning of a comment in its token",
        files: &[(b"f.mm", &[Text(b"$( \xc3\xa9$( $)\n")])],
        reply: b"no f.mm 1 - X1 0\n",
        status: 1,
    },
    Case {
        name: "a fault in a comment after a label has that label",
        files: &[(b"f.mm", &[Text(b"x $( a$) $)\n")])],
        reply: b"no f.mm 1 x X3 0\n",
        status: 1,
    },
    Case {
        name: "a fault in a comment of a proof has the label",
        files: &[(b"f.mm", &[Text(b"x $p a $=\n$( a$) $)\n")])],
        reply: b"no f.mm 2 x X3 0\n",
        status: 1,
    },
    Case {
        name: "a token that is no label, and the end of the file",
        files: &[(b"f.mm", &[Text(b"a+\n")])],
        reply: b"no f.mm 1 - S2 0\n",
        status: 1,
    },
    Case {
        name: "a block is closed after a label",
        files: &[(b"f.mm", &[Text(b"x $} $a\n")])],
        reply: b"no f.mm 1 x S3 0\n",
        status: 1,
    },
    Case {
        name: "a block is closed in a statement",
        files: &[(b"f.mm", &[Text(b"$c $} a $.\n")])],
        reply: b"no f.mm 1 - S4 0\n",
        status: 1,
    },
    Case {
        name: "no symbols before a proof sign",
        files: &[(b"f.mm", &[Text(b"p $p $= $.\n")])],
        reply: b"no f.mm 1 p S5 0\n",
        status: 1,
    },
    Case {
        name: "no symbols before a proof sign that cannot stand there",
        files: &[(b"f.mm", &[Text(b"$c $= $.\n")])],
        reply: b"no f.mm 1 - S4 0\n",
        status: 1,
    },
];

/// Faults of files that end, of inclusions, and of a text further on.
pub(crate) const FILES: [Case; 10] = [
    Case {
        name: "a file ends in an inclusion in a block",
        files: &[(b"f.mm", &[Text(b"${ $[\n")])],
        reply: b"no f.mm 1 - X6 0\n",
        status: 1,
    },
    Case {
        name: "a file ends in a statement in a block",
        files: &[(b"f.mm", &[Text(b"${\n$c a\n")])],
        reply: b"no f.mm 2 - X8 0\n",
        status: 1,
    },
    Case {
        name: "a file ends in a comment in a block",
        files: &[(b"f.mm", &[Text(b"${\n$( a\n")])],
        reply: b"no f.mm 2 - X2 0\n",
        status: 1,
    },
    Case {
        name: "a rule of meaning comes before a later text fault",
        files: &[(b"f.mm", &[Text(b"$c a a $.\n$)\n")])],
        reply: b"no f.mm 1 - M2 0\n",
        status: 1,
    },
    Case {
        name: "a text fault in a statement comes before its meaning",
        files: &[(b"f.mm", &[Text(b"$c a a\n$) $.\n")])],
        reply: b"no f.mm 2 - X4 0\n",
        status: 1,
    },
    Case {
        name: "a rule of meaning comes before a block that is left open",
        files: &[(b"f.mm", &[Text(b"${ $c a $.\n")])],
        reply: b"no f.mm 1 - M1 0\n",
        status: 1,
    },
    Case {
        name: "an inclusion in a block that an included file opened",
        files: &[
            (b"top.mm", &[Text(b"$[ a.mm $]\n$[ b.mm $]\n")]),
            (b"a.mm", &[Text(b"${\n")]),
            (b"b.mm", &[]),
        ],
        reply: b"no top.mm 2 - X6 0\n",
        status: 1,
    },
    Case {
        name: "a repeated inclusion in a statement",
        files: &[
            (b"top.mm", &[Text(b"$[ a.mm $]\n$c $[ a.mm $] x $.\n")]),
            (b"a.mm", &[]),
        ],
        reply: b"no top.mm 2 - X6 0\n",
        status: 1,
    },
    Case {
        name: "an inclusion of the top file in a block",
        files: &[
            (b"top.mm", &[Text(b"$[ a.mm $]\n")]),
            (b"a.mm", &[Text(b"\n${ $[ top.mm $] $}\n")]),
        ],
        reply: b"no a.mm 2 - X6 0\n",
        status: 1,
    },
    Case {
        name: "a file that ends in a statement comes before what follows its inclusion",
        files: &[
            (b"top.mm", &[Text(b"$[ a.mm $] $}\n")]),
            (b"a.mm", &[Text(b"$c x\n")]),
        ],
        reply: b"no a.mm 1 - X8 0\n",
        status: 1,
    },
];

/// Faults of meaning.
pub(crate) const MEANING: [Case; 14] = [
    Case {
        name: "a constant in a block comes before one that is declared twice",
        files: &[(b"f.mm", &[Text(b"${ $c a a $. $}\n")])],
        reply: b"no f.mm 1 - M1 0\n",
        status: 1,
    },
    Case {
        name: "a constant declared again comes before one that is a label",
        files: &[(b"f.mm", &[Text(b"$c a $. p $a a $.\n$c p a $.\n")])],
        reply: b"no f.mm 2 - M2 0\n",
        status: 1,
    },
    Case {
        name: "a constant declared as a variable comes before a label that is",
        files: &[(b"f.mm", &[Text(b"$c a $. p $a a $.\n$v p a $.\n")])],
        reply: b"no f.mm 2 - M3 0\n",
        status: 1,
    },
    Case {
        name: "a label given again comes before an undeclared symbol",
        files: &[(b"f.mm", &[Text(b"$c a $. p $a a $.\np $a a z $.\n")])],
        reply: b"no f.mm 2 p M5 0\n",
        status: 1,
    },
    Case {
        name: "a label that is a symbol comes before an undeclared symbol",
        files: &[(b"f.mm", &[Text(b"$c a $.\na $a a z $.\n")])],
        reply: b"no f.mm 2 a M6 0\n",
        status: 1,
    },
    Case {
        name: "a label that is a variable of a closed block",
        files: &[(b"f.mm", &[Text(b"$c a $. ${ $v x $. $}\nx $a a $.\n")])],
        reply: b"no f.mm 2 x M6 0\n",
        status: 1,
    },
    Case {
        name: "an undeclared symbol comes before a constant among distinct variables",
        files: &[(b"f.mm", &[Text(b"$c a $.\n$d a z $.\n")])],
        reply: b"no f.mm 2 - M7 0\n",
        status: 1,
    },
    Case {
        name: "a constant comes before a member that stands twice",
        files: &[(b"f.mm", &[Text(b"$c a $.\n$d a a $.\n")])],
        reply: b"no f.mm 2 - M8 0\n",
        status: 1,
    },
    Case {
        name: "a type code that is a variable comes before a typed constant",
        files: &[(b"f.mm", &[Text(b"$c a $. $v x $.\np $f x a $.\n")])],
        reply: b"no f.mm 2 p M10 0\n",
        status: 1,
    },
    Case {
        name: "an expression of a variable without its type",
        files: &[(b"f.mm", &[Text(b"$v x $.\np $a x $.\n")])],
        reply: b"no f.mm 2 p M14 0\n",
        status: 1,
    },
    Case {
        name: "an outer variable declared again in a block",
        files: &[(b"f.mm", &[Text(b"$v x $.\n${ $v x $. $}\n")])],
        reply: b"no f.mm 2 - M3 0\n",
        status: 1,
    },
    Case {
        name: "a type that ended with its block",
        files: &[(
            b"f.mm",
            &[Text(b"$c a $. $v x $.\n${ fx $f a x $. $}\np $a a x $.\n")],
        )],
        reply: b"no f.mm 3 p M15 0\n",
        status: 1,
    },
    Case {
        name: "another type code after the block of the first",
        files: &[(
            b"f.mm",
            &[Text(b"$c a b $. $v x $.\n${ fx $f a x $. $}\n${ gx $f b x $. $}\n")],
        )],
        reply: b"no f.mm 3 gx M13 0\n",
        status: 1,
    },
    Case {
        name: "the same type code after the block of the first",
        files: &[(
            b"f.mm",
            &[Text(b"$c a b $. $v x $.\n${ fx $f a x $. $}\n${ gx $f a x $. $}\n")],
        )],
        reply: b"yes 8 statements 0 proofs\n",
        status: 0,
    },
];

/// Faults of proofs.
pub(crate) const PROOFS: [Case; 9] = [
    Case {
        name: "another type comes before a hypothesis that differs, whichever stands first",
        files: &[(
            b"f.mm",
            &[
                Text(b"$c a b |- $. $v x y $. fx $f a x $.\n"),
                Text(b"one $a a a $. ta $a |- a $. tb $a |- b $. w $a b b $.\n"),
                Text(b"${ h $e |- x $. fy $f a y $. r $a |- x y $. $}\n"),
                Text(b"p $p |- a a $= one tb w r $.\n"),
            ],
        )],
        reply: b"no f.mm 4 p P9 4\n",
        status: 1,
    },
    Case {
        name: "a variable that is shared comes before a pair that is not active",
        files: &[(
            b"f.mm",
            &[
                Text(b"$c a |- $. $v x y z $. fx $f a x $. fy $f a y $. fz $f a z "),
                Text(b"$.\n"),
                Text(b"one $a a a $.\n"),
                Text(b"${ $d x y z $. ax $a |- x y z $. $}\n"),
                Text(b"p $p |- x y x $= fx fy fx ax $.\n"),
            ],
        )],
        reply: b"no f.mm 4 p P11 4\n",
        status: 1,
    },
    Case {
        name: "a hypothesis that differs comes before a variable that is shared",
        files: &[(
            b"f.mm",
            &[
                Text(b"$c a |- $. $v x y z $. fx $f a x $. fy $f a y $. fz $f a z "),
                Text(b"$.\n"),
                Text(b"one $a a a $.\n"),
                Text(b"${ $d x y $. h $e |- x $. ax $a |- x y $. $}\n"),
                Text(b"${ g $e |- a $. p $p |- x x $= fx fx g ax $. $}\n"),
            ],
        )],
        reply: b"no f.mm 4 p P10 4\n",
        status: 1,
    },
    Case {
        name: "a list that is not closed comes before an unknown label",
        files: &[(b"f.mm", &[Text(b"$c a $.\np $p a $= ( nope A $.\n")])],
        reply: b"no f.mm 2 p P1 0\n",
        status: 1,
    },
    Case {
        name: "an inactive hypothesis comes before a small letter",
        files: &[(
            b"f.mm",
            &[Text(b"$c a $. ${ h $e a $. $}\np $p a $= ( h ) a $.\n")],
        )],
        reply: b"no f.mm 2 p P3 0\n",
        status: 1,
    },
    Case {
        name: "an unknown label comes before a small letter",
        files: &[(b"f.mm", &[Text(b"$c a $.\np $p a $= ( nope ) a $.\n")])],
        reply: b"no f.mm 2 p P2 0\n",
        status: 1,
    },
    Case {
        name: "cut digits come before too great a number",
        files: &[(
            b"f.mm",
            &[Text(b"$c a $. one $a a $.\np $p a $= ( one ) TU $.\n")],
        )],
        reply: b"no f.mm 2 p P5 0\n",
        status: 1,
    },
    Case {
        name: "too great a number after a tag",
        files: &[(
            b"f.mm",
            &[Text(b"$c a $. one $a a $.\np $p a $= ( one ) AZC $.\n")],
        )],
        reply: b"no f.mm 2 p P6 2\n",
        status: 1,
    },
    Case {
        name: "two entries come before another expression",
        files: &[(
            b"f.mm",
            &[Text(b"$c a b $. one $a a $.\np $p b $= one one $.\n")],
        )],
        reply: b"no f.mm 2 p P13 3\n",
        status: 1,
    },
];

/// Mandatory hypotheses and distinct pairs.
pub(crate) const FRAMES: [Case; 9] = [
    Case {
        name: "a pair of three distinct variables",
        files: &[(
            b"f.mm",
            &[
                Text(b"$c a |- $. $v x y z $. fx $f a x $. fy $f a y $. fz $f a z "),
                Text(b"$.\n"),
                Text(b"one $a a a $.\n"),
                Text(b"${ $d x y $. ax $a |- x y $. $}\n"),
                Text(b"$d x y z $.\n"),
                Text(b"p $p |- z y $= fz fy ax $.\n"),
            ],
        )],
        reply: b"yes 12 statements 1 proofs\n",
        status: 0,
    },
    Case {
        name: "a pair named in the other order",
        files: &[(
            b"f.mm",
            &[
                Text(b"$c a |- $. $v x y z $. fx $f a x $. fy $f a y $. fz $f a z "),
                Text(b"$.\n"),
                Text(b"one $a a a $.\n"),
                Text(b"${ $d x y $. ax $a |- x y $. $}\n"),
                Text(b"${ $d z x $. p $p |- x z $= fx fz ax $. $}\n"),
            ],
        )],
        reply: b"yes 14 statements 1 proofs\n",
        status: 0,
    },
    Case {
        name: "a pair of an outer block",
        files: &[(
            b"f.mm",
            &[
                Text(b"$c a |- $. $v x y z $. fx $f a x $. fy $f a y $. fz $f a z "),
                Text(b"$.\n"),
                Text(b"one $a a a $.\n"),
                Text(b"${ $d x y $. ax $a |- x y $. $}\n"),
                Text(b"${ $d x y $. ${ p $p |- x y $= fx fy ax $. $} $}\n"),
            ],
        )],
        reply: b"yes 16 statements 1 proofs\n",
        status: 0,
    },
    Case {
        name: "a pair that stands after the theorem",
        files: &[(
            b"f.mm",
            &[
                Text(b"$c a |- $. $v x y z $. fx $f a x $. fy $f a y $. fz $f a z "),
                Text(b"$.\n"),
                Text(b"one $a a a $.\n"),
                Text(b"${ $d x y $. ax $a |- x y $. $}\n"),
                Text(b"${ p $p |- x y $= fx fy ax $. $d x y $. $}\n"),
            ],
        )],
        reply: b"no f.mm 4 p P12 3\n",
        status: 1,
    },
    Case {
        name: "a distinct pair replaced by constants",
        files: &[(
            b"f.mm",
            &[
                Text(b"$c a |- $. $v x y z $. fx $f a x $. fy $f a y $. fz $f a z "),
                Text(b"$.\n"),
                Text(b"one $a a a $.\n"),
                Text(b"${ $d x y $. ax $a |- x y $. $}\n"),
                Text(b"p $p |- a a $= one one ax $.\n"),
            ],
        )],
        reply: b"yes 11 statements 1 proofs\n",
        status: 0,
    },
    Case {
        name: "a type that stands after the axiom",
        files: &[(
            b"f.mm",
            &[
                Text(b"$c a |- $. $v x y $. fx $f a x $. r $a |- x $. fy $f a y $.\n"),
                Text(b"p $p |- y $= fy r $.\n"),
            ],
        )],
        reply: b"yes 6 statements 1 proofs\n",
        status: 0,
    },
    Case {
        name: "hypotheses of both kinds in the order of the database",
        files: &[(
            b"f.mm",
            &[
                Text(b"$c a b |- $. $v x y $. fx $f a x $.\n"),
                Text(b"one $a a a $. ta $a |- a $. tb $a |- b $. w $a b b $.\n"),
                Text(b"${ h $e |- x $. fy $f a y $. r $a |- x y $. $}\n"),
                Text(b"p $p |- a a $= one ta one r $.\n"),
            ],
        )],
        reply: b"yes 13 statements 1 proofs\n",
        status: 0,
    },
    Case {
        name: "hypotheses of both kinds in another order",
        files: &[(
            b"f.mm",
            &[
                Text(b"$c a b |- $. $v x y $. fx $f a x $.\n"),
                Text(b"one $a a a $. ta $a |- a $. tb $a |- b $. w $a b b $.\n"),
                Text(b"${ h $e |- x $. fy $f a y $. r $a |- x y $. $}\n"),
                Text(b"p $p |- a a $= one one ta r $.\n"),
            ],
        )],
        reply: b"no f.mm 4 p P9 4\n",
        status: 1,
    },
    Case {
        name: "a theorem of a closed block is used with its hypothesis",
        files: &[(
            b"f.mm",
            &[
                Text(b"$c a |- $. $v x $. fx $f a x $.\n"),
                Text(b"${ h $e |- x $. t $p |- x $= h $. $}\n"),
                Text(b"one $a a a $. ta $a |- a $.\n"),
                Text(b"u $p |- a $= one ta t $.\n"),
            ],
        )],
        reply: b"yes 10 statements 2 proofs\n",
        status: 0,
    },
];

/// A step that names a hypothesis pushes its expression, which the limit is for too.
pub(crate) const LONG_HYPOTHESES: [Case; 2] = [
    Case {
        name: "a hypothesis at the limit of expressions",
        files: &[(
            b"f.mm",
            &[
                Text(b"$c |- a $.\n${ h $e |- "),
                Times(b"a ", 1048575),
                Text(b"$.\np $p |- a $= h $. $}\n"),
            ],
        )],
        reply: b"no f.mm 3 p P14 2\n",
        status: 1,
    },
    Case {
        name: "a hypothesis over the limit of expressions",
        files: &[(
            b"f.mm",
            &[
                Text(b"$c |- a $.\n${ h $e |- "),
                Times(b"a ", 1048576),
                Text(b"$.\np $p |- a $= h $. $}\n"),
            ],
        )],
        reply: b"limit f.mm 3 p L1 1\n",
        status: 4,
    },
];
