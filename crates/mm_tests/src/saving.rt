//! The acceptance cases of files with a proof written anew.

use crate::Asked;
use crate::Part::Text;
use mm_check::Command::About;
use mm_check::Question;
use mm_core_tests::databases::{
    CAT, DEMO, DEMO_COMPRESSED, DEMO_SMALL, DIST, FIRST, FIRST_HEAD, HEAD,
};
use mm_core_tests::doublings::{TWENTY_FOUR, TWENTY_FOUR_LINES};
use mm_verdict::Form;

/// Files with a proof written anew.
pub(crate) const SAVED: [Asked; 12] = [
    Asked {
        name: "the compressed demonstration database saved in normal form",
        command: About {
            label: b"th1",
            question: Question::Form {
                form: Form::Normal,
                whole: true,
            },
        },
        files: &[(b"demo0c.mm", &[Text(DEMO_COMPRESSED)])],
        reply: &[Text(DEMO)],
        status: 0,
    },
    Asked {
        name: "the demonstration database saved in packed form",
        command: About {
            label: b"th1",
            question: Question::Form {
                form: Form::Packed,
                whole: true,
            },
        },
        files: &[(b"demo0.mm", &[Text(DEMO)])],
        reply: &[Text(DEMO_COMPRESSED)],
        status: 0,
    },
    Asked {
        name: "the demonstration database saved in small form, behind its six spaces",
        command: About {
            label: b"th1",
            question: Question::Form {
                form: Form::Small,
                whole: true,
            },
        },
        files: &[(b"demo0.mm", &[Text(DEMO)])],
        reply: &[Text(DEMO_SMALL)],
        status: 0,
    },
    Asked {
        name: "the demonstration database in small form saved so again",
        command: About {
            label: b"th1",
            question: Question::Form {
                form: Form::Small,
                whole: true,
            },
        },
        files: &[(b"demo0.mm", &[Text(DEMO_SMALL)])],
        reply: &[Text(DEMO_SMALL)],
        status: 0,
    },
    Asked {
        name: "a proof that is shorter than its small form is kept",
        command: About {
            label: b"th",
            question: Question::Form {
                form: Form::Small,
                whole: true,
            },
        },
        files: &[(b"first.mm", &[Text(FIRST)])],
        reply: &[Text(FIRST)],
        status: 0,
    },
    Asked {
        name: "the demonstration database saved in normal form",
        command: About {
            label: b"th1",
            question: Question::Form {
                form: Form::Normal,
                whole: true,
            },
        },
        files: &[(b"demo0.mm", &[Text(DEMO)])],
        reply: &[Text(DEMO)],
        status: 0,
    },
    Asked {
        name: "the compressed demonstration database saved in packed form",
        command: About {
            label: b"th1",
            question: Question::Form {
                form: Form::Packed,
                whole: true,
            },
        },
        files: &[(b"demo0c.mm", &[Text(DEMO_COMPRESSED)])],
        reply: &[Text(DEMO_COMPRESSED)],
        status: 0,
    },
    Asked {
        name: "a theorem of an included file saved in packed form",
        command: About {
            label: b"th",
            question: Question::Form {
                form: Form::Packed,
                whole: true,
            },
        },
        files: &[
            (b"top.mm", &[Text(b"$[ a.mm $]")]),
            (b"a.mm", &[Text(FIRST)]),
        ],
        reply: &[
            Text(FIRST_HEAD),
            Text(b"th $p term ( 0 + 0 ) $=\n"),
            Text(b"      ( tze tpl )\n"),
            Text(b"      AAB\n"),
            Text(b"$.\n"),
        ],
        status: 0,
    },
    Asked {
        name: "a theorem of an included file that was saved in packed form saved again",
        command: About {
            label: b"th",
            question: Question::Form {
                form: Form::Packed,
                whole: true,
            },
        },
        files: &[
            (b"top.mm", &[Text(b"$[ a.mm $]")]),
            (
                b"a.mm",
                &[
                    Text(FIRST_HEAD),
                    Text(b"th $p term ( 0 + 0 ) $=\n"),
                    Text(b"      ( tze tpl )\n"),
                    Text(b"      AAB\n"),
                    Text(b"$.\n"),
                ],
            ),
        ],
        reply: &[
            Text(FIRST_HEAD),
            Text(b"th $p term ( 0 + 0 ) $=\n"),
            Text(b"      ( tze tpl )\n"),
            Text(b"      AAB\n"),
            Text(b"$.\n"),
        ],
        status: 0,
    },
    Asked {
        name: "a proof whose expansion has millions of labels is saved in packed form",
        command: About {
            label: b"th",
            question: Question::Form {
                form: Form::Packed,
                whole: true,
            },
        },
        files: &[(
            b"cat.mm",
            &[
                Text(CAT),
                Text(b"th $p e $= "),
                Text(TWENTY_FOUR),
                Text(b" $.\n"),
            ],
        )],
        reply: &[
            Text(CAT),
            Text(b"th $p e $=\n"),
            Text(TWENTY_FOUR_LINES),
            Text(b"$.\n"),
        ],
        status: 0,
    },
    Asked {
        name: "a theorem beside an incomplete one is saved",
        command: About {
            label: b"u2",
            question: Question::Form {
                form: Form::Normal,
                whole: true,
            },
        },
        files: &[(
            b"h.mm",
            &[
                Text(HEAD),
                Text(b"u1 $p |- t = t $= ? $. u2 $p |- t = t $= tt u1 $.\n"),
            ],
        )],
        reply: &[
            Text(HEAD),
            Text(b"u1 $p |- t = t $= ? $. u2 $p |- t = t $=\n"),
            Text(b"      tt u1\n"),
            Text(b"$.\n"),
        ],
        status: 0,
    },
    Asked {
        name: "a proof with a lenient list is saved in packed form",
        command: About {
            label: b"th2",
            question: Question::Form {
                form: Form::Packed,
                whole: true,
            },
        },
        files: &[(
            b"h.mm",
            &[
                Text(HEAD),
                Text(b"th2 $p term ( t + t ) $= ( tpl tpl tt ) ADC $.\n"),
            ],
        )],
        reply: &[
            Text(HEAD),
            Text(b"th2 $p term ( t + t ) $=\n"),
            Text(b"      ( tpl )\n"),
            Text(b"      AAB\n"),
            Text(b"$.\n"),
        ],
        status: 0,
    },
];

/// What is kept beside the proof, and what goes with it.
pub(crate) const KEPT: [Asked; 7] = [
    Asked {
        name: "comments in a replaced proof are dropped",
        command: About {
            label: b"th",
            question: Question::Form {
                form: Form::Normal,
                whole: true,
            },
        },
        files: &[(
            b"first.mm",
            &[
                Text(FIRST_HEAD),
                Text(b"th $p term ( 0 + 0 ) $= $( c $) tze tze tpl $( d $) $.\n"),
            ],
        )],
        reply: &[
            Text(FIRST_HEAD),
            Text(b"th $p term ( 0 + 0 ) $=\n"),
            Text(b"      tze tze tpl\n"),
            Text(b"$.\n"),
        ],
        status: 0,
    },
    Asked {
        name: "a saved proof whose comments were dropped saved again",
        command: About {
            label: b"th",
            question: Question::Form {
                form: Form::Normal,
                whole: true,
            },
        },
        files: &[(
            b"first.mm",
            &[
                Text(FIRST_HEAD),
                Text(b"th $p term ( 0 + 0 ) $=\n"),
                Text(b"      tze tze tpl\n"),
                Text(b"$.\n"),
            ],
        )],
        reply: &[
            Text(FIRST_HEAD),
            Text(b"th $p term ( 0 + 0 ) $=\n"),
            Text(b"      tze tze tpl\n"),
            Text(b"$.\n"),
        ],
        status: 0,
    },
    Asked {
        name: "a comment in a replaced proof that holds an end of a statement",
        command: About {
            label: b"th",
            question: Question::Form {
                form: Form::Packed,
                whole: true,
            },
        },
        files: &[(
            b"first.mm",
            &[
                Text(FIRST_HEAD),
                Text(b"th $p term ( 0 + 0 ) $= tze $( x $. $= y $) tze tpl $.\n"),
            ],
        )],
        reply: &[
            Text(FIRST_HEAD),
            Text(b"th $p term ( 0 + 0 ) $=\n"),
            Text(b"      ( tze tpl )\n"),
            Text(b"      AAB\n"),
            Text(b"$.\n"),
        ],
        status: 0,
    },
    Asked {
        name: "comments beside a replaced proof are kept",
        command: About {
            label: b"th",
            question: Question::Form {
                form: Form::Packed,
                whole: true,
            },
        },
        files: &[(
            b"first.mm",
            &[
                Text(FIRST_HEAD),
                Text(b"$( k $) th $( l $) $p term $( m $) ( 0 + 0 ) $( n $= $) $= tze "),
                Text(b"tze tpl $( o $) $. $( p $)"),
            ],
        )],
        reply: &[
            Text(FIRST_HEAD),
            Text(b"$( k $) th $( l $) $p term $( m $) ( 0 + 0 ) $( n $= $) $=\n"),
            Text(b"      ( tze tpl )\n"),
            Text(b"      AAB\n"),
            Text(b"$. $( p $)"),
        ],
        status: 0,
    },
    Asked {
        name: "other white space beside a replaced proof is kept",
        command: About {
            label: b"th",
            question: Question::Form {
                form: Form::Packed,
                whole: true,
            },
        },
        files: &[(
            b"first.mm",
            &[
                Text(b"$c\x0c0\x0c+\x0c(\x0c)\x0cterm\x0c$.\r\n"),
                Text(b"$v\x0ct\x0cr\x0c$.\r\n"),
                Text(b"tt\x0c$f\x0cterm\x0ct\x0c$.\r\n"),
                Text(b"tr\x0c$f\x0cterm\x0cr\x0c$.\r\n"),
                Text(b"tze\x0c$a\x0cterm\x0c0\x0c$.\r\n"),
                Text(b"tpl\x0c$a\x0cterm\x0c(\x0ct\x0c+\x0cr\x0c)\x0c$.\r\n"),
                Text(b"th\x0c$p\x0cterm\x0c(\x0c0\x0c+\x0c0\x0c)\x0c$="),
                Text(b"\x0ctze\x0ctze\x0ctpl\x0c$.\r\n"),
            ],
        )],
        reply: &[
            Text(b"$c\x0c0\x0c+\x0c(\x0c)\x0cterm\x0c$.\r\n"),
            Text(b"$v\x0ct\x0cr\x0c$.\r\n"),
            Text(b"tt\x0c$f\x0cterm\x0ct\x0c$.\r\n"),
            Text(b"tr\x0c$f\x0cterm\x0cr\x0c$.\r\n"),
            Text(b"tze\x0c$a\x0cterm\x0c0\x0c$.\r\n"),
            Text(b"tpl\x0c$a\x0cterm\x0c(\x0ct\x0c+\x0cr\x0c)\x0c$.\r\n"),
            Text(b"th\x0c$p\x0cterm\x0c(\x0c0\x0c+\x0c0\x0c)\x0c$=\n"),
            Text(b"      ( tze tpl )\n"),
            Text(b"      AAB\n"),
            Text(b"$.\r\n"),
        ],
        status: 0,
    },
    Asked {
        name: "statements after a replaced proof are kept",
        command: About {
            label: b"th",
            question: Question::Form {
                form: Form::Normal,
                whole: true,
            },
        },
        files: &[(
            b"first.mm",
            &[Text(FIRST), Text(b"sw $p term ( r + t ) $= tr tt tpl $.\n")],
        )],
        reply: &[
            Text(FIRST_HEAD),
            Text(b"th $p term ( 0 + 0 ) $=\n"),
            Text(b"      tze tze tpl\n"),
            Text(b"$.\n"),
            Text(b"sw $p term ( r + t ) $= tr tt tpl $.\n"),
        ],
        status: 0,
    },
    Asked {
        name: "a proof in a block is saved in its place",
        command: About {
            label: b"t4",
            question: Question::Form {
                form: Form::Packed,
                whole: true,
            },
        },
        files: &[(
            b"dist.mm",
            &[
                Text(DIST),
                Text(b"${ $d x y $. t4 $p |- x $= vx vy vx vy ax fin $. $}\n"),
            ],
        )],
        reply: &[
            Text(DIST),
            Text(b"${ $d x y $. t4 $p |- x $=\n"),
            Text(b"      ( vy ax fin )\n"),
            Text(b"      ABABCD\n"),
            Text(b"$. $}\n"),
        ],
        status: 0,
    },
];

/// Proofs that are not written anew.
pub(crate) const NOT_SAVED: [Asked; 6] = [
    Asked {
        name: "a proof whose expansion has millions of labels is not saved in normal form",
        command: About {
            label: b"th",
            question: Question::Form {
                form: Form::Normal,
                whole: true,
            },
        },
        files: &[(
            b"cat.mm",
            &[
                Text(CAT),
                Text(b"th $p e $= "),
                Text(TWENTY_FOUR),
                Text(b" $.\n"),
            ],
        )],
        reply: &[Text(b"ask L2 th\n")],
        status: 4,
    },
    Asked {
        name: "a label that is not there is not saved",
        command: About {
            label: b"none",
            question: Question::Form {
                form: Form::Packed,
                whole: true,
            },
        },
        files: &[(b"demo0.mm", &[Text(DEMO)])],
        reply: &[Text(b"ask A1 none\n")],
        status: 1,
    },
    Asked {
        name: "an axiom is not saved",
        command: About {
            label: b"a1",
            question: Question::Form {
                form: Form::Normal,
                whole: true,
            },
        },
        files: &[(b"demo0.mm", &[Text(DEMO)])],
        reply: &[Text(b"ask A2 a1\n")],
        status: 1,
    },
    Asked {
        name: "an incomplete proof is not saved",
        command: About {
            label: b"u1",
            question: Question::Form {
                form: Form::Normal,
                whole: true,
            },
        },
        files: &[(
            b"h.mm",
            &[
                Text(HEAD),
                Text(b"u1 $p |- t = t $= ? $. u2 $p |- t = t $= tt u1 $.\n"),
            ],
        )],
        reply: &[Text(b"ask A3 u1\n")],
        status: 3,
    },
    Asked {
        name: "a refused database is not saved",
        command: About {
            label: b"th2",
            question: Question::Form {
                form: Form::Normal,
                whole: true,
            },
        },
        files: &[(b"h.mm", &[Text(HEAD), Text(b"th2 $p term t $= tt tt $.\n")])],
        reply: &[Text(b"no h.mm 20 th2 P13 3\n")],
        status: 1,
    },
    Asked {
        name: "equal names are not saved",
        command: About {
            label: b"th",
            question: Question::Form {
                form: Form::Packed,
                whole: true,
            },
        },
        files: &[(b"first.mm", &[Text(FIRST)]), (b"first.mm", &[Text(FIRST)])],
        reply: &[Text(b"load F2\n")],
        status: 4,
    },
];
