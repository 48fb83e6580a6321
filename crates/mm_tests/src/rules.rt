//! The examples of `docs/RULES.md`.
//! Made by `docs/make-examples`: edit the documents, and run it.

use crate::Case;
use crate::Part::Text;
use crate::tests::compare;
use std::test::Fail;

/// The examples of `docs/RULES.md`.
const RULES_1: [Case; 9] = [
    Case {
        name: "X1, in docs/RULES.md",
        files: &[(b"f.mm", &[Text(b"$c \xc3\xa9 $.\n")])],
        reply: b"no f.mm 1 - X1 0\n",
        status: 1,
    },
    Case {
        name: "X1, in docs/RULES.md",
        files: &[(b"f.mm", &[Text(b"$c a $.\n$( \xc3\xa9 $)\n")])],
        reply: b"no f.mm 2 - X1 0\n",
        status: 1,
    },
    Case {
        name: "X2, in docs/RULES.md",
        files: &[(b"f.mm", &[Text(b"$c a $.\n$( open\n")])],
        reply: b"no f.mm 2 - X2 0\n",
        status: 1,
    },
    Case {
        name: "X2, in docs/RULES.md",
        files: &[(b"f.mm", &[Text(b"p $a\n$( open\n")])],
        reply: b"no f.mm 2 p X2 0\n",
        status: 1,
    },
    Case {
        name: "X3, in docs/RULES.md",
        files: &[(b"f.mm", &[Text(b"$( a$) $)\n")])],
        reply: b"no f.mm 1 - X3 0\n",
        status: 1,
    },
    Case {
        name: "X3, in docs/RULES.md",
        files: &[(b"f.mm", &[Text(b"$( one $( two $)\n")])],
        reply: b"no f.mm 1 - X3 0\n",
        status: 1,
    },
    Case {
        name: "X4, in docs/RULES.md",
        files: &[(b"f.mm", &[Text(b"p $a $) $.\n")])],
        reply: b"no f.mm 1 p X4 0\n",
        status: 1,
    },
    Case {
        name: "X4, in docs/RULES.md",
        files: &[(b"f.mm", &[Text(b"$]\n")])],
        reply: b"no f.mm 1 - X4 0\n",
        status: 1,
    },
    Case {
        name: "X4, in docs/RULES.md",
        files: &[(b"f.mm", &[Text(b"$[ a.mm $)\n")])],
        reply: b"no f.mm 1 - X4 0\n",
        status: 1,
    },
];

#[test]
fn rules_1(rt: HostRuntime) -> Result<(), Fail> {
    compare(&rt, rt.alloc(), &RULES_1)
}

/// The next examples of `docs/RULES.md`.
const RULES_2: [Case; 9] = [
    Case {
        name: "X5, in docs/RULES.md",
        files: &[(b"f.mm", &[Text(b"$[ $]\n")])],
        reply: b"no f.mm 1 - X5 0\n",
        status: 1,
    },
    Case {
        name: "X5, in docs/RULES.md",
        files: &[(b"f.mm", &[Text(b"$[ a.mm\nb.mm $]\n")])],
        reply: b"no f.mm 2 - X5 0\n",
        status: 1,
    },
    Case {
        name: "X5, in docs/RULES.md",
        files: &[(b"f.mm", &[Text(b"$[\na.mm\n")])],
        reply: b"no f.mm 1 - X5 0\n",
        status: 1,
    },
    Case {
        name: "X6, in docs/RULES.md",
        files: &[(b"f.mm", &[Text(b"${ $[ a.mm $] $}\n")])],
        reply: b"no f.mm 1 - X6 0\n",
        status: 1,
    },
    Case {
        name: "X6, in docs/RULES.md",
        files: &[(b"f.mm", &[Text(b"p $a\n$[ $x\n")])],
        reply: b"no f.mm 2 p X6 0\n",
        status: 1,
    },
    Case {
        name: "X7, in docs/RULES.md",
        files: &[(b"f.mm", &[Text(b"$[\na.mm $]\n")])],
        reply: b"no f.mm 2 - X7 0\n",
        status: 1,
    },
    Case {
        name: "X8, in docs/RULES.md",
        files: &[(b"f.mm", &[Text(b"p $a\nx\n")])],
        reply: b"no f.mm 1 p X8 0\n",
        status: 1,
    },
    Case {
        name: "X8, in docs/RULES.md",
        files: &[
            (b"top.mm", &[Text(b"$[ a.mm $] x $.\n")]),
            (b"a.mm", &[Text(b"$c\n")]),
        ],
        reply: b"no a.mm 1 - X8 0\n",
        status: 1,
    },
    Case {
        name: "X9, in docs/RULES.md",
        files: &[(b"f.mm", &[Text(b"$c a $.\n$c b$.\n")])],
        reply: b"no f.mm 2 - X9 0\n",
        status: 1,
    },
];

#[test]
fn rules_2(rt: HostRuntime) -> Result<(), Fail> {
    compare(&rt, rt.alloc(), &RULES_2)
}

/// The next examples of `docs/RULES.md`.
const RULES_3: [Case; 9] = [
    Case {
        name: "S1, in docs/RULES.md",
        files: &[(b"f.mm", &[Text(b"$a x $.\n")])],
        reply: b"no f.mm 1 - S1 0\n",
        status: 1,
    },
    Case {
        name: "S2, in docs/RULES.md",
        files: &[(b"f.mm", &[Text(b"a+ $a x $.\n")])],
        reply: b"no f.mm 1 - S2 0\n",
        status: 1,
    },
    Case {
        name: "S3, in docs/RULES.md",
        files: &[(b"f.mm", &[Text(b"p\nq $a x $.\n")])],
        reply: b"no f.mm 2 p S3 0\n",
        status: 1,
    },
    Case {
        name: "S4, in docs/RULES.md",
        files: &[(b"f.mm", &[Text(b"p $p x $.\n")])],
        reply: b"no f.mm 1 p S4 0\n",
        status: 1,
    },
    Case {
        name: "S4, in docs/RULES.md",
        files: &[(b"f.mm", &[Text(b"$c a ${ $.\n")])],
        reply: b"no f.mm 1 - S4 0\n",
        status: 1,
    },
    Case {
        name: "S5, in docs/RULES.md",
        files: &[(b"f.mm", &[Text(b"$c $.\n")])],
        reply: b"no f.mm 1 - S5 0\n",
        status: 1,
    },
    Case {
        name: "S5, in docs/RULES.md",
        files: &[(b"f.mm", &[Text(b"$d x $.\n")])],
        reply: b"no f.mm 1 - S5 0\n",
        status: 1,
    },
    Case {
        name: "S5, in docs/RULES.md",
        files: &[(b"f.mm", &[Text(b"p $f a b c $.\n")])],
        reply: b"no f.mm 1 p S5 0\n",
        status: 1,
    },
    Case {
        name: "S6, in docs/RULES.md",
        files: &[(b"f.mm", &[Text(b"$}\n")])],
        reply: b"no f.mm 1 - S6 0\n",
        status: 1,
    },
];

#[test]
fn rules_3(rt: HostRuntime) -> Result<(), Fail> {
    compare(&rt, rt.alloc(), &RULES_3)
}

/// The next examples of `docs/RULES.md`.
const RULES_4: [Case; 9] = [
    Case {
        name: "S7, in docs/RULES.md",
        files: &[(b"f.mm", &[Text(b"$c a $.\n${\n${\n$}\n")])],
        reply: b"no f.mm 2 - S7 0\n",
        status: 1,
    },
    Case {
        name: "S7, in docs/RULES.md",
        files: &[
            (b"top.mm", &[Text(b"$[ a.mm $]\n${\n$}\n")]),
            (b"a.mm", &[Text(b"\n${\n")]),
        ],
        reply: b"no a.mm 2 - S7 0\n",
        status: 1,
    },
    Case {
        name: "M1, in docs/RULES.md",
        files: &[(b"f.mm", &[Text(b"${\n$c a $.\n$}\n")])],
        reply: b"no f.mm 2 - M1 0\n",
        status: 1,
    },
    Case {
        name: "M2, in docs/RULES.md",
        files: &[(b"f.mm", &[Text(b"$c a $. $v x $.\n$c x $.\n")])],
        reply: b"no f.mm 2 - M2 0\n",
        status: 1,
    },
    Case {
        name: "M2, in docs/RULES.md",
        files: &[(b"f.mm", &[Text(b"${ $v x $. $}\n$c x $.\n")])],
        reply: b"no f.mm 2 - M2 0\n",
        status: 1,
    },
    Case {
        name: "M3, in docs/RULES.md",
        files: &[(b"f.mm", &[Text(b"$v x x $.\n")])],
        reply: b"no f.mm 1 - M3 0\n",
        status: 1,
    },
    Case {
        name: "M3, in docs/RULES.md",
        files: &[(b"f.mm", &[Text(b"${ $v x $. $}\n${ $v x $. $}\n")])],
        reply: b"yes 6 statements 0 proofs\n",
        status: 0,
    },
    Case {
        name: "M4, in docs/RULES.md",
        files: &[(b"f.mm", &[Text(b"$c a $. p $a a $.\n$v p $.\n")])],
        reply: b"no f.mm 2 - M4 0\n",
        status: 1,
    },
    Case {
        name: "M5, in docs/RULES.md",
        files: &[(b"f.mm", &[Text(b"$c a $. ${ p $e a $. $}\np $a a a $.\n")])],
        reply: b"no f.mm 2 p M5 0\n",
        status: 1,
    },
];

#[test]
fn rules_4(rt: HostRuntime) -> Result<(), Fail> {
    compare(&rt, rt.alloc(), &RULES_4)
}

/// The next examples of `docs/RULES.md`.
const RULES_5: [Case; 9] = [
    Case {
        name: "M6, in docs/RULES.md",
        files: &[(b"f.mm", &[Text(b"$c a $. a $a a $.\n")])],
        reply: b"no f.mm 1 a M6 0\n",
        status: 1,
    },
    Case {
        name: "M7, in docs/RULES.md",
        files: &[(b"f.mm", &[Text(b"$c a $. p $a a z $.\n")])],
        reply: b"no f.mm 1 p M7 0\n",
        status: 1,
    },
    Case {
        name: "M7, in docs/RULES.md",
        files: &[(b"f.mm", &[Text(b"$c a $.\n${ $v x $. $}\np $a a x $.\n")])],
        reply: b"no f.mm 3 p M7 0\n",
        status: 1,
    },
    Case {
        name: "M8, in docs/RULES.md",
        files: &[(b"f.mm", &[Text(b"$c a $. $v x $.\n$d a x $.\n")])],
        reply: b"no f.mm 2 - M8 0\n",
        status: 1,
    },
    Case {
        name: "M9, in docs/RULES.md",
        files: &[(b"f.mm", &[Text(b"$v x $.\n$d x x $.\n")])],
        reply: b"no f.mm 2 - M9 0\n",
        status: 1,
    },
    Case {
        name: "M10, in docs/RULES.md",
        files: &[(b"f.mm", &[Text(b"$v x y $. p $f x y $.\n")])],
        reply: b"no f.mm 1 p M10 0\n",
        status: 1,
    },
    Case {
        name: "M11, in docs/RULES.md",
        files: &[(b"f.mm", &[Text(b"$c a b $. p $f a b $.\n")])],
        reply: b"no f.mm 1 p M11 0\n",
        status: 1,
    },
    Case {
        name: "M12, in docs/RULES.md",
        files: &[(
            b"f.mm",
            &[Text(b"$c a b $. $v x $. fx $f a x $.\ngx $f b x $.\n")],
        )],
        reply: b"no f.mm 2 gx M12 0\n",
        status: 1,
    },
    Case {
        name: "M13, in docs/RULES.md",
        files: &[(
            b"f.mm",
            &[
                Text(b"$c a b $.\n"),
                Text(b"${ $v x $. fx $f a x $. $}\n"),
                Text(b"${ $v x $. gx $f b x $. $}\n"),
            ],
        )],
        reply: b"no f.mm 3 gx M13 0\n",
        status: 1,
    },
];

#[test]
fn rules_5(rt: HostRuntime) -> Result<(), Fail> {
    compare(&rt, rt.alloc(), &RULES_5)
}

/// The next examples of `docs/RULES.md`.
const RULES_6: [Case; 9] = [
    Case {
        name: "M14, in docs/RULES.md",
        files: &[(b"f.mm", &[Text(b"$v x $. p $a x $.\n")])],
        reply: b"no f.mm 1 p M14 0\n",
        status: 1,
    },
    Case {
        name: "M15, in docs/RULES.md",
        files: &[(b"f.mm", &[Text(b"$c a $. $v x $. p $a a x $.\n")])],
        reply: b"no f.mm 1 p M15 0\n",
        status: 1,
    },
    Case {
        name: "P1, in docs/RULES.md",
        files: &[(
            b"f.mm",
            &[Text(b"$c a $. one $a a $.\np $p a $= ( one A $.\n")],
        )],
        reply: b"no f.mm 2 p P1 0\n",
        status: 1,
    },
    Case {
        name: "P2, in docs/RULES.md",
        files: &[(b"f.mm", &[Text(b"$c a $. p $p a $= p $.\n")])],
        reply: b"no f.mm 1 p P2 0\n",
        status: 1,
    },
    Case {
        name: "P2, in docs/RULES.md",
        files: &[(
            b"f.mm",
            &[Text(b"$c a $. one $a a $.\np $p a $= ( one two ) A $.\n")],
        )],
        reply: b"no f.mm 2 p P2 0\n",
        status: 1,
    },
    Case {
        name: "P3, in docs/RULES.md",
        files: &[(
            b"f.mm",
            &[Text(b"$c a $.\n${ h $e a $. $}\np $p a $= h $.\n")],
        )],
        reply: b"no f.mm 3 p P3 0\n",
        status: 1,
    },
    Case {
        name: "P4, in docs/RULES.md",
        files: &[(
            b"f.mm",
            &[Text(b"$c a $. one $a a $.\np $p a $= ( one ) Aa $.\n")],
        )],
        reply: b"no f.mm 2 p P4 0\n",
        status: 1,
    },
    Case {
        name: "P5, in docs/RULES.md",
        files: &[(
            b"f.mm",
            &[Text(b"$c a $. one $a a $.\np $p a $= ( one ) UZ $.\n")],
        )],
        reply: b"no f.mm 2 p P5 0\n",
        status: 1,
    },
    Case {
        name: "P5, in docs/RULES.md",
        files: &[(
            b"f.mm",
            &[Text(b"$c a $. one $a a $.\np $p a $= ( one ) AU $.\n")],
        )],
        reply: b"no f.mm 2 p P5 0\n",
        status: 1,
    },
];

#[test]
fn rules_6(rt: HostRuntime) -> Result<(), Fail> {
    compare(&rt, rt.alloc(), &RULES_6)
}

/// The next examples of `docs/RULES.md`.
const RULES_7: [Case; 9] = [
    Case {
        name: "P6, in docs/RULES.md",
        files: &[(
            b"f.mm",
            &[Text(b"$c a $. one $a a $.\np $p a $= ( one ) B $.\n")],
        )],
        reply: b"no f.mm 2 p P6 1\n",
        status: 1,
    },
    Case {
        name: "P6, in docs/RULES.md",
        files: &[(
            b"f.mm",
            &[Text(b"$c a $. one $a a $.\np $p a $= ( one ) AZB $.\n")],
        )],
        reply: b"no f.mm 2 p P13 3\n",
        status: 1,
    },
    Case {
        name: "P7, in docs/RULES.md",
        files: &[(
            b"f.mm",
            &[Text(b"$c a $. one $a a $.\np $p a $= ( one ) ZT $.\n")],
        )],
        reply: b"no f.mm 2 p P7 1\n",
        status: 1,
    },
    Case {
        name: "P8, in docs/RULES.md",
        files: &[(
            b"f.mm",
            &[
                Text(b"$c a b $. $v x $. fx $f a x $. one $a a b $. two $a a x x "),
                Text(b"$.\n"),
                Text(b"p $p a b b $= two one $.\n"),
            ],
        )],
        reply: b"no f.mm 2 p P8 1\n",
        status: 1,
    },
    Case {
        name: "P9, in docs/RULES.md",
        files: &[(
            b"f.mm",
            &[
                Text(b"$c a b $. $v x $. fx $f a x $. one $a b $. two $a a x x $.\n"),
                Text(b"p $p a $= one two $.\n"),
            ],
        )],
        reply: b"no f.mm 2 p P9 2\n",
        status: 1,
    },
    Case {
        name: "P10, in docs/RULES.md",
        files: &[(
            b"f.mm",
            &[
                Text(b"$c a b |- $. $v x $. fx $f a x $.\n"),
                Text(b"one $a a b $. bb $a |- b b $.\n"),
                Text(b"${ h $e |- x $. two $a |- x x $. $}\n"),
                Text(b"p $p |- b b $= one bb two $.\n"),
            ],
        )],
        reply: b"no f.mm 4 p P10 3\n",
        status: 1,
    },
    Case {
        name: "P11, in docs/RULES.md",
        files: &[(
            b"f.mm",
            &[
                Text(b"$c a |- $. $v x y $. fx $f a x $. fy $f a y $.\n"),
                Text(b"${ $d x y $. ax $a |- x y $. $}\n"),
                Text(b"p $p |- x x $= fx fx ax $.\n"),
            ],
        )],
        reply: b"no f.mm 3 p P11 3\n",
        status: 1,
    },
    Case {
        name: "P12, in docs/RULES.md",
        files: &[(
            b"f.mm",
            &[
                Text(b"$c a |- $. $v x y $. fx $f a x $. fy $f a y $.\n"),
                Text(b"${ $d x y $. ax $a |- x y $. $}\n"),
                Text(b"p $p |- y x $= fy fx ax $.\n"),
            ],
        )],
        reply: b"no f.mm 3 p P12 3\n",
        status: 1,
    },
    Case {
        name: "P12, in docs/RULES.md",
        files: &[(
            b"f.mm",
            &[
                Text(b"$c a |- $. $v x y $. fx $f a x $. fy $f a y $.\n"),
                Text(b"${ $d x y $. ax $a |- x y $. $}\n"),
                Text(b"${ $d x y $. p $p |- y x $= fy fx ax $. $}\n"),
            ],
        )],
        reply: b"yes 12 statements 1 proofs\n",
        status: 0,
    },
];

#[test]
fn rules_7(rt: HostRuntime) -> Result<(), Fail> {
    compare(&rt, rt.alloc(), &RULES_7)
}

/// The next examples of `docs/RULES.md`.
const RULES_8: [Case; 9] = [
    Case {
        name: "L1, in docs/RULES.md",
        files: &[(
            b"f.mm",
            &[
                Text(b"$c a b $. $v x $. fx $f a x $. one $a a b $. two $a a x x b "),
                Text(b"$.\n"),
                Text(b"p $p a $= one two two two two two two two two two two two "),
                Text(b"two two two two two two two two two $.\n"),
            ],
        )],
        reply: b"limit f.mm 2 p L1 21\n",
        status: 4,
    },
    Case {
        name: "P13, in docs/RULES.md",
        files: &[(
            b"f.mm",
            &[Text(b"$c a b $. one $a a b $.\np $p a b $= one one $.\n")],
        )],
        reply: b"no f.mm 2 p P13 3\n",
        status: 1,
    },
    Case {
        name: "P14, in docs/RULES.md",
        files: &[(
            b"f.mm",
            &[Text(b"$c a b $. one $a a b $.\np $p a b b $= one $.\n")],
        )],
        reply: b"no f.mm 2 p P14 2\n",
        status: 1,
    },
    Case {
        name: "P14, in docs/RULES.md",
        files: &[(
            b"f.mm",
            &[Text(b"$c a b $. one $a a b $.\np $p a b $= $.\n\xc3\xa9\n")],
        )],
        reply: b"no f.mm 2 p P13 1\n",
        status: 1,
    },
    Case {
        name: "Incomplete proofs, in docs/RULES.md",
        files: &[(
            b"f.mm",
            &[
                Text(b"$c a $. one $a a $.\n"),
                Text(b"p $p a $= one ? nope ( $.\n"),
                Text(b"q $p a $= p $.\n"),
            ],
        )],
        reply: b"incomplete 1\np\n",
        status: 3,
    },
    Case {
        name: "Incomplete proofs, in docs/RULES.md",
        files: &[(
            b"f.mm",
            &[Text(b"$c a $. one $a a $.\np $p a $= nope ( ? $.\nq $p a $= p $.\n")],
        )],
        reply: b"no f.mm 2 p P2 0\n",
        status: 1,
    },
    Case {
        name: "Incomplete proofs, in docs/RULES.md",
        files: &[(
            b"f.mm",
            &[Text(b"$c a $. one $a a $.\np $p a $= ( one ) U?a $.\n")],
        )],
        reply: b"no f.mm 2 p P5 0\n",
        status: 1,
    },
    Case {
        name: "Incomplete proofs, in docs/RULES.md",
        files: &[(
            b"f.mm",
            &[Text(b"$c a $. one $a a $.\np $p a $= ( nope ? ) a $.\n")],
        )],
        reply: b"incomplete 1\np\n",
        status: 3,
    },
    Case {
        name: "Incomplete proofs, in docs/RULES.md",
        files: &[(
            b"f.mm",
            &[Text(b"$c a $. one $a a $.\np $p a $= ? $.\nq $p a $= one one $.\n")],
        )],
        reply: b"no f.mm 3 q P13 3\n",
        status: 1,
    },
];

#[test]
fn rules_8(rt: HostRuntime) -> Result<(), Fail> {
    compare(&rt, rt.alloc(), &RULES_8)
}
