//! The examples of `docs/LANGUAGE.md`, and those of other commands than `mm check`.
//! Made by `docs/make-examples`: edit the documents, and run it.

use crate::Case;
use crate::Part::Text;
use crate::tests::{compare, compare_commands};
use mm_check::Command::{self, About, Whole};
use mm_check::{Question, WholeQuestion};
use mm_step::Profile;
use mm_verdict::Form;
use std::test::Fail;

/// The examples of `docs/LANGUAGE.md`.
const LANGUAGE_1: [Case; 9] = [
    Case {
        name: "Comments (book, 4.1.2 and 4.4.1), in docs/LANGUAGE.md",
        files: &[(b"f.mm", &[Text(b"$( A constant, $( in a comment.\n")])],
        reply: b"no f.mm 1 - X3 0\n",
        status: 1,
    },
    Case {
        name: "Inclusions (book, 4.1.2 and 4.4.2), in docs/LANGUAGE.md",
        files: &[
            (
                b"top.mm",
                &[Text(b"$[ terms.mm $]\n$[ rules.mm $]\nth $p |- 0 = 0 $= tze refl $.\n")],
            ),
            (
                b"terms.mm",
                &[
                    Text(b"$[ top.mm $]\n"),
                    Text(b"$[ symbols.mm $]\n"),
                    Text(b"tt $f term t $.\n"),
                    Text(b"tze $a term 0 $.\n"),
                ],
            ),
            (
                b"rules.mm",
                &[Text(b"$[ terms.mm $]\nrefl $a |- t = t $.\n")],
            ),
            (b"symbols.mm", &[Text(b"$c 0 = term |- $.\n$v t $.\n")]),
        ],
        reply: b"yes 6 statements 1 proofs\n",
        status: 0,
    },
    Case {
        name: "Inclusions (book, 4.1.2 and 4.4.2), in docs/LANGUAGE.md",
        files: &[
            (b"top.mm", &[Text(b"$[ terms.mm $]\n")]),
            (b"terms.mm", &[Text(b"$c 0 term $.\n\ntze $a term 1 $.\n")]),
        ],
        reply: b"no terms.mm 3 tze M7 0\n",
        status: 1,
    },
    Case {
        name: "Statements (book, 4.1.3 and 4.2), in docs/LANGUAGE.md",
        files: &[(
            b"f.mm",
            &[
                Text(b"$c 0 + ( ) term $.\n"),
                Text(b"$v t r $.\n"),
                Text(b"tt $f term t $.\n"),
                Text(b"tr $f term r $.\n"),
                Text(b"tze $a term 0 $.\n"),
                Text(b"tpl $a term ( t + r ) $.\n"),
                Text(b"th $p term ( 0 + 0 ) $= tze tze tpl $.\n"),
            ],
        )],
        reply: b"yes 7 statements 1 proofs\n",
        status: 0,
    },
    Case {
        name: "Frames (book, 4.2.7), in docs/LANGUAGE.md",
        files: &[(
            b"f.mm",
            &[
                Text(b"$c |- set R $.\n"),
                Text(b"$v x y z $.\n"),
                Text(b"vx $f set x $.\n"),
                Text(b"vy $f set y $.\n"),
                Text(b"vz $f set z $.\n"),
                Text(b"${\n"),
                Text(b"$d x y $.\n"),
                Text(b"ax $a |- x R y $.\n"),
                Text(b"$}\n"),
                Text(b"${\n"),
                Text(b"h $e |- x R y $.\n"),
                Text(b"fin $a |- x $.\n"),
                Text(b"$}\n"),
            ],
        )],
        reply: b"yes 13 statements 0 proofs\n",
        status: 0,
    },
    Case {
        name: "Normal proofs (book, 4.1.4 and 4.3), in docs/LANGUAGE.md",
        files: &[(
            b"f.mm",
            &[
                Text(b"$c ( ) -> wff |- $.\n"),
                Text(b"$v P Q $.\n"),
                Text(b"wp $f wff P $.\n"),
                Text(b"wq $f wff Q $.\n"),
                Text(b"wim $a wff ( P -> Q ) $.\n"),
                Text(b"id $a |- ( P -> P ) $.\n"),
                Text(b"${\n"),
                Text(b"  min $e |- P $.\n"),
                Text(b"  maj $e |- ( P -> Q ) $.\n"),
                Text(b"  mp $a |- Q $.\n"),
                Text(b"$}\n"),
                Text(b"${\n"),
                Text(b"  a1 $e |- ( ( P -> P ) -> Q ) $.\n"),
                Text(b"  th $p |- Q $= wp wp wim wq wp id a1 mp $.\n"),
                Text(b"$}\n"),
            ],
        )],
        reply: b"yes 15 statements 1 proofs\n",
        status: 0,
    },
    Case {
        name: "Compressed proofs (book, 4.4.3 and appendix B), in docs/LANGUAGE.md",
        files: &[(
            b"f.mm",
            &[
                Text(b"$c ( ) -> wff |- $.\n"),
                Text(b"$v P Q $.\n"),
                Text(b"wp $f wff P $.\n"),
                Text(b"wq $f wff Q $.\n"),
                Text(b"wim $a wff ( P -> Q ) $.\n"),
                Text(b"id $a |- ( P -> P ) $.\n"),
                Text(b"${\n"),
                Text(b"  min $e |- P $.\n"),
                Text(b"  maj $e |- ( P -> Q ) $.\n"),
                Text(b"  mp $a |- Q $.\n"),
                Text(b"$}\n"),
                Text(b"${\n"),
                Text(b"  a1 $e |- ( ( P -> P ) -> Q ) $.\n"),
                Text(b"  th $p |- Q $= ( wim id mp ) AADBAECF $.\n"),
                Text(b"$}\n"),
            ],
        )],
        reply: b"yes 15 statements 1 proofs\n",
        status: 0,
    },
    Case {
        name: "Compressed proofs (book, 4.4.3 and appendix B), in docs/LANGUAGE.md",
        files: &[(
            b"f.mm",
            &[
                Text(b"$c + ( ) term $.\n"),
                Text(b"$v t r $.\n"),
                Text(b"tt $f term t $.\n"),
                Text(b"tr $f term r $.\n"),
                Text(b"plus $a term ( t + r ) $.\n"),
                Text(b"th $p term ( ( t + r ) + ( t + r ) ) $= ( plus ) ABCZDC $.\n"),
            ],
        )],
        reply: b"yes 6 statements 1 proofs\n",
        status: 0,
    },
    Case {
        name: "Two profiles (own), in docs/LANGUAGE.md",
        files: &[(
            b"f.mm",
            &[
                Text(b"$c + ( ) term $.\n"),
                Text(b"$v t r $.\n"),
                Text(b"tt $f term t $.\n"),
                Text(b"tr $f term r $.\n"),
                Text(b"plus $a term ( t + r ) $.\n"),
                Text(b"th $p term ( t + t ) $= ( plus ) AZCB $.\n"),
            ],
        )],
        reply: b"yes 6 statements 1 proofs\n",
        status: 0,
    },
];

#[test]
fn language_1(rt: HostRuntime) -> Result<(), Fail> {
    compare(&rt, rt.alloc(), &LANGUAGE_1)
}

/// The next examples of `docs/LANGUAGE.md`.
const LANGUAGE_2: [Case; 1] = [Case {
    name: "Incomplete proofs (book, 4.4.4), in docs/LANGUAGE.md",
    files: &[(
        b"f.mm",
        &[
            Text(b"$c a $. one $a a $.\n"),
            Text(b"u1 $p a $= ? $.\n"),
            Text(b"u2 $p a $= ( one ) A? $.\n"),
            Text(b"th $p a $= u1 $.\n"),
        ],
    )],
    reply: b"incomplete 2\nu1\nu2\n",
    status: 3,
}];

#[test]
fn language_2(rt: HostRuntime) -> Result<(), Fail> {
    compare(&rt, rt.alloc(), &LANGUAGE_2)
}

/// The other commands among the examples.
const COMMANDS_1: [(Command<'static>, Case); 9] = [
    (
        Whole {
            profile: Profile::Strict,
            question: WholeQuestion::Check,
        },
        Case {
            name: "Two profiles (own), in docs/LANGUAGE.md",
            files: &[(
                b"f.mm",
                &[
                    Text(b"$c + ( ) term $.\n"),
                    Text(b"$v t r $.\n"),
                    Text(b"tt $f term t $.\n"),
                    Text(b"tr $f term r $.\n"),
                    Text(b"plus $a term ( t + r ) $.\n"),
                    Text(b"th $p term ( t + t ) $= ( plus ) AZCB $.\n"),
                ],
            )],
            reply: b"no f.mm 6 th P15 0\n",
            status: 1,
        },
    ),
    (
        About {
            label: b"th",
            question: Question::Form {
                form: Form::Packed,
                whole: false,
            },
        },
        Case {
            name: "One proof, two forms (own), in docs/LANGUAGE.md",
            files: &[(
                b"f.mm",
                &[
                    Text(b"$c e $. $v x y $. fx $f e x $. fy $f e y $. nil $a e $. cat "),
                    Text(b"$a e x y $.\n"),
                    Text(b"th $p e $= nil nil cat nil nil cat cat $.\n"),
                    Text(b"th2 $p e $= ( nil cat ) AABZCB $.\n"),
                ],
            )],
            reply: b"      ( nil cat )\n      AABZCB\n",
            status: 0,
        },
    ),
    (
        Whole {
            profile: Profile::Strict,
            question: WholeQuestion::Check,
        },
        Case {
            name: "P15, in docs/RULES.md",
            files: &[(
                b"f.mm",
                &[Text(b"$c a $. one $a a $.\np $p a $= ( one one ) B $.\n")],
            )],
            reply: b"no f.mm 2 p P15 0\n",
            status: 1,
        },
    ),
    (
        Whole {
            profile: Profile::Strict,
            question: WholeQuestion::Check,
        },
        Case {
            name: "P15, in docs/RULES.md",
            files: &[(
                b"f.mm",
                &[
                    Text(b"$c a b $. $v x $. fx $f a x $. two $a a x b $.\n"),
                    Text(b"p $p a x b $= ( fx two ) BC $.\n"),
                ],
            )],
            reply: b"no f.mm 2 p P15 0\n",
            status: 1,
        },
    ),
    (
        Whole {
            profile: Profile::Strict,
            question: WholeQuestion::Check,
        },
        Case {
            name: "P15, in docs/RULES.md",
            files: &[(
                b"f.mm",
                &[
                    Text(b"$c a b $. $v x $. fx $f a x $. two $a a x b $.\n"),
                    Text(b"p $p a x b $= ( two ) AZB $.\n"),
                ],
            )],
            reply: b"no f.mm 2 p P15 0\n",
            status: 1,
        },
    ),
    (
        Whole {
            profile: Profile::Strict,
            question: WholeQuestion::Check,
        },
        Case {
            name: "P15, in docs/RULES.md",
            files: &[(
                b"f.mm",
                &[
                    Text(b"$c a b $. $v x $. fx $f a x $. two $a a x b $.\n"),
                    Text(b"p $p a x b $= ( two ) AB $.\n"),
                ],
            )],
            reply: b"yes 5 statements 1 proofs\n",
            status: 0,
        },
    ),
    (
        About {
            label: b"b",
            question: Question::Axioms { essential: false },
        },
        Case {
            name: "A1, in docs/RULES.md",
            files: &[(
                b"f.mm",
                &[Text(b"$c a b $. one $a a $.\np $p a $= one $.\n")],
            )],
            reply: b"ask A1 b\n",
            status: 1,
        },
    ),
    (
        About {
            label: b"one",
            question: Question::Axioms { essential: false },
        },
        Case {
            name: "A2, in docs/RULES.md",
            files: &[(
                b"f.mm",
                &[Text(b"$c a b $. one $a a $.\np $p a $= one $.\n")],
            )],
            reply: b"ask A2 one\n",
            status: 1,
        },
    ),
    (
        About {
            label: b"p",
            question: Question::Show,
        },
        Case {
            name: "A3, in docs/RULES.md",
            files: &[(
                b"f.mm",
                &[Text(b"$c a b $. one $a a $.\np $p a $= one ? $.\n")],
            )],
            reply: b"ask A3 p\n",
            status: 3,
        },
    ),
];

#[test]
fn commands_1(rt: HostRuntime) -> Result<(), Fail> {
    compare_commands(&rt, rt.alloc(), &COMMANDS_1)
}

/// The next other commands among the examples.
const COMMANDS_2: [(Command<'static>, Case); 2] = [
    (
        About {
            label: b"p",
            question: Question::Chain(b"two"),
        },
        Case {
            name: "A4, in docs/RULES.md",
            files: &[(
                b"f.mm",
                &[Text(b"$c a b $. one $a a $. two $a a $.\np $p a $= one $.\n")],
            )],
            reply: b"ask A4 p\n",
            status: 1,
        },
    ),
    (
        About {
            label: b"p",
            question: Question::Form {
                form: Form::Normal,
                whole: false,
            },
        },
        Case {
            name: "L2, in docs/RULES.md",
            files: &[(
                b"f.mm",
                &[
                    Text(b"$c e $. $v x y $. fx $f e x $. fy $f e y $. nil $a e $. cat "),
                    Text(b"$a e x y $.\n"),
                    Text(b"p $p e $= ( nil cat )\n"),
                    Text(b"  AABZCBZDBZEBZFBZGBZHBZIBZJBZKBZLBZMB\n"),
                    Text(b"  ZNBZOBZPBZQBZRBZSBZTBZUABZUBBZUCBZUDBZUEB $.\n"),
                ],
            )],
            reply: b"ask L2 p\n",
            status: 4,
        },
    ),
];

#[test]
fn commands_2(rt: HostRuntime) -> Result<(), Fail> {
    compare_commands(&rt, rt.alloc(), &COMMANDS_2)
}
