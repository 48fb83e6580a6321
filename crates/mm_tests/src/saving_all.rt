//! The acceptance cases of files with each complete proof written anew.

use crate::Asked;
use crate::Part::Text;
use mm_check::Command::File;
use mm_core_tests::databases::{
    CAT, DEMO, DEMO_COMPRESSED, DEMO_HEAD, DEMO_SMALL, DIST, FIRST, FIRST_HEAD, HEAD,
};
use mm_core_tests::doublings::{TWENTY_FOUR, TWENTY_FOUR_LINES};
use mm_verdict::Form::{Normal, Packed, Small};

/// Files with each complete proof written anew.
pub(crate) const SAVED: [Asked; 12] = [
    Asked {
        name: "the compressed demonstration database saved whole in normal form",
        command: File {
            form: Normal,
            file: 0,
        },
        files: &[(b"demo0c.mm", &[Text(DEMO_COMPRESSED)])],
        reply: &[Text(DEMO)],
        status: 0,
    },
    Asked {
        name: "the demonstration database saved whole in packed form",
        command: File {
            form: Packed,
            file: 0,
        },
        files: &[(b"demo0.mm", &[Text(DEMO)])],
        reply: &[Text(DEMO_COMPRESSED)],
        status: 0,
    },
    Asked {
        name: "in small form one proof is replaced, and a shorter one is kept",
        command: File {
            form: Small,
            file: 0,
        },
        files: &[(
            b"demo0.mm",
            &[Text(DEMO), Text(b"th2 $p |- t = t $= tt th1 $.\n")],
        )],
        reply: &[Text(DEMO_SMALL), Text(b"th2 $p |- t = t $= tt th1 $.\n")],
        status: 0,
    },
    Asked {
        name: "what was saved in small form is saved so again",
        command: File {
            form: Small,
            file: 0,
        },
        files: &[(
            b"demo0.mm",
            &[Text(DEMO_SMALL), Text(b"th2 $p |- t = t $= tt th1 $.\n")],
        )],
        reply: &[Text(DEMO_SMALL), Text(b"th2 $p |- t = t $= tt th1 $.\n")],
        status: 0,
    },
    Asked {
        name: "a proof on the line of its statement is saved in small form behind four spaces",
        command: File {
            form: Small,
            file: 0,
        },
        files: &[(
            b"demo0.mm",
            &[
                Text(DEMO_HEAD),
                Text(b"th1 $p |- t = t $= ( tze tpl weq a2 wim a1 mp )\n"),
                Text(b"  ABCZADZAADZAEZJJKFLIAAGHH     $.\n"),
            ],
        )],
        reply: &[
            Text(DEMO_HEAD),
            Text(b"th1 $p |- t = t $=\n"),
            Text(b"    ( weq mp tze tpl a2 wim a1 ) ADEZABZAABZAFZJJKGLIAAHCC $.\n"),
        ],
        status: 0,
    },
    Asked {
        name: "all proofs of the top file saved, and none of the file that it includes",
        command: File {
            form: Packed,
            file: 0,
        },
        files: &[
            (
                b"top.mm",
                &[Text(b"$[ a.mm $]\nsw $p term ( r + t ) $= tr tt tpl $.\n")],
            ),
            (b"a.mm", &[Text(FIRST)]),
        ],
        reply: &[
            Text(b"$[ a.mm $]\nsw $p term ( r + t ) $=\n"),
            Text(b"      ( tpl )\n"),
            Text(b"      BAC\n"),
            Text(b"$.\n"),
        ],
        status: 0,
    },
    Asked {
        name: "all proofs of an included file saved, and none of the file that includes it",
        command: File {
            form: Packed,
            file: 1,
        },
        files: &[
            (
                b"top.mm",
                &[Text(b"$[ a.mm $]\nsw $p term ( r + t ) $= tr tt tpl $.\n")],
            ),
            (b"a.mm", &[Text(FIRST)]),
        ],
        reply: &[
            Text(FIRST_HEAD),
            Text(b"th $p term ( 0 + 0 ) $=\n"),
            Text(b"      ( tze tpl )\n"),
            Text(b"      AAB\n"),
            Text(b"$.\n"),
        ],
        status: 0,
    },
    Asked {
        name: "proofs before and after an included file saved",
        command: File {
            form: Normal,
            file: 0,
        },
        files: &[
            (
                b"top.mm",
                &[
                    Text(FIRST_HEAD),
                    Text(b"ss $p term ( t + t ) $= ( tpl ) AAB $. $[ a.mm $]\n"),
                    Text(b"sw $p term ( r + t ) $= ( tpl ) BAC $.\n"),
                ],
            ),
            (
                b"a.mm",
                &[Text(b"th $p term ( 0 + 0 ) $= ( tze tpl ) AAB $.\n")],
            ),
        ],
        reply: &[
            Text(FIRST_HEAD),
            Text(b"ss $p term ( t + t ) $=\n"),
            Text(b"      tt tt tpl\n"),
            Text(b"$. $[ a.mm $]\nsw $p term ( r + t ) $=\n"),
            Text(b"      tr tt tpl\n"),
            Text(b"$.\n"),
        ],
        status: 0,
    },
    Asked {
        name: "three proofs of one file saved in packed form",
        command: File {
            form: Packed,
            file: 0,
        },
        files: &[(
            b"first.mm",
            &[
                Text(FIRST),
                Text(b"sw $p term ( r + t ) $= tr tt tpl $.\n"),
                Text(b"ss $p term ( t + t ) $= tt tt tpl $.\n"),
            ],
        )],
        reply: &[
            Text(FIRST_HEAD),
            Text(b"th $p term ( 0 + 0 ) $=\n"),
            Text(b"      ( tze tpl )\n"),
            Text(b"      AAB\n"),
            Text(b"$.\nsw $p term ( r + t ) $=\n"),
            Text(b"      ( tpl )\n"),
            Text(b"      BAC\n"),
            Text(b"$.\nss $p term ( t + t ) $=\n"),
            Text(b"      ( tpl )\n"),
            Text(b"      AAB\n"),
            Text(b"$.\n"),
        ],
        status: 0,
    },
    Asked {
        name: "three proofs of one file that were saved in packed form saved again",
        command: File {
            form: Packed,
            file: 0,
        },
        files: &[(
            b"first.mm",
            &[
                Text(FIRST_HEAD),
                Text(b"th $p term ( 0 + 0 ) $=\n"),
                Text(b"      ( tze tpl )\n"),
                Text(b"      AAB\n"),
                Text(b"$.\nsw $p term ( r + t ) $=\n"),
                Text(b"      ( tpl )\n"),
                Text(b"      BAC\n"),
                Text(b"$.\nss $p term ( t + t ) $=\n"),
                Text(b"      ( tpl )\n"),
                Text(b"      AAB\n"),
                Text(b"$.\n"),
            ],
        )],
        reply: &[
            Text(FIRST_HEAD),
            Text(b"th $p term ( 0 + 0 ) $=\n"),
            Text(b"      ( tze tpl )\n"),
            Text(b"      AAB\n"),
            Text(b"$.\nsw $p term ( r + t ) $=\n"),
            Text(b"      ( tpl )\n"),
            Text(b"      BAC\n"),
            Text(b"$.\nss $p term ( t + t ) $=\n"),
            Text(b"      ( tpl )\n"),
            Text(b"      AAB\n"),
            Text(b"$.\n"),
        ],
        status: 0,
    },
    Asked {
        name: "a proof whose expansion has millions of labels beside others is saved in packed form",
        command: File {
            form: Packed,
            file: 0,
        },
        files: &[(
            b"cat.mm",
            &[
                Text(CAT),
                Text(b"one $p e $= nil $. th $p e $= "),
                Text(TWENTY_FOUR),
                Text(b" $. two $p e $= one $.\n"),
            ],
        )],
        reply: &[
            Text(CAT),
            Text(b"one $p e $=\n"),
            Text(b"      ( nil )\n"),
            Text(b"      A\n"),
            Text(b"$. th $p e $=\n"),
            Text(TWENTY_FOUR_LINES),
            Text(b"$. two $p e $=\n"),
            Text(b"      ( one )\n"),
            Text(b"      A\n"),
            Text(b"$.\n"),
        ],
        status: 0,
    },
    Asked {
        name: "a proof that is too long in another file stands in no way",
        command: File {
            form: Normal,
            file: 0,
        },
        files: &[
            (b"top.mm", &[Text(b"$[ a.mm $] one $p e $= ( th ) A $.\n")]),
            (
                b"a.mm",
                &[
                    Text(CAT),
                    Text(b"th $p e $= "),
                    Text(TWENTY_FOUR),
                    Text(b" $.\n"),
                ],
            ),
        ],
        reply: &[
            Text(b"$[ a.mm $] one $p e $=\n"),
            Text(b"      th\n"),
            Text(b"$.\n"),
        ],
        status: 0,
    },
];

/// What is kept beside the proofs.
pub(crate) const KEPT: [Asked; 9] = [
    Asked {
        name: "incomplete proofs among complete ones are kept",
        command: File {
            form: Normal,
            file: 0,
        },
        files: &[(
            b"h.mm",
            &[
                Text(HEAD),
                Text(b"u1 $p |- t = t $= ? $. u2 $p |- t = t $= ( u1 ) AB $.\n"),
                Text(b"u3 $p |- t = t $= $( c $) tt ? $. u4 $p |- t = t $= ( u2 ) AB $.\n"),
            ],
        )],
        reply: &[
            Text(HEAD),
            Text(b"u1 $p |- t = t $= ? $. u2 $p |- t = t $=\n"),
            Text(b"      tt u1\n"),
            Text(b"$.\nu3 $p |- t = t $= $( c $) tt ? $. u4 $p |- t = t $=\n"),
            Text(b"      tt u2\n"),
            Text(b"$.\n"),
        ],
        status: 0,
    },
    Asked {
        name: "a file with incomplete proofs alone is kept",
        command: File {
            form: Packed,
            file: 0,
        },
        files: &[(
            b"h.mm",
            &[Text(HEAD), Text(b"u1 $p |- t = t $= ( tze ) A? $.\n")],
        )],
        reply: &[Text(HEAD), Text(b"u1 $p |- t = t $= ( tze ) A? $.\n")],
        status: 0,
    },
    Asked {
        name: "comments in replaced proofs are dropped, and those beside them kept",
        command: File {
            form: Normal,
            file: 0,
        },
        files: &[(
            b"first.mm",
            &[
                Text(b"$( a $)\n"),
                Text(FIRST_HEAD),
                Text(
                    b"th $p term ( 0 + 0 ) $( b $) $= $( c $. $) tze tze tpl $( d $) $. $( e $)\n",
                ),
                Text(b"sw $p term ( r + t ) $= tr $( f $= $) tt tpl $. $( g $)"),
            ],
        )],
        reply: &[
            Text(b"$( a $)\n"),
            Text(FIRST_HEAD),
            Text(b"th $p term ( 0 + 0 ) $( b $) $=\n"),
            Text(b"      tze tze tpl\n"),
            Text(b"$. $( e $)\nsw $p term ( r + t ) $=\n"),
            Text(b"      tr tt tpl\n"),
            Text(b"$. $( g $)"),
        ],
        status: 0,
    },
    Asked {
        name: "other white space between replaced proofs is kept",
        command: File {
            form: Packed,
            file: 0,
        },
        files: &[(
            b"first.mm",
            &[
                Text(FIRST_HEAD),
                Text(
                    b"th\x0c$p\x0cterm\x0c(\x0c0\x0c+\x0c0\x0c)\x0c$=\x0ctze\x0ctze\x0ctpl\x0c$.\r\n",
                ),
                Text(b"sw\t$p\tterm\t(\tr\t+\tt\t)\t$=\ttr\ttt\ttpl\t$.\r\n"),
            ],
        )],
        reply: &[
            Text(FIRST_HEAD),
            Text(b"th\x0c$p\x0cterm\x0c(\x0c0\x0c+\x0c0\x0c)\x0c$=\n"),
            Text(b"      ( tze tpl )\n"),
            Text(b"      AAB\n"),
            Text(b"$.\r\nsw\t$p\tterm\t(\tr\t+\tt\t)\t$=\n"),
            Text(b"      ( tpl )\n"),
            Text(b"      BAC\n"),
            Text(b"$.\r\n"),
        ],
        status: 0,
    },
    Asked {
        name: "a proof in lines that end with a carriage return and a line feed is saved in such",
        command: File {
            form: Packed,
            file: 0,
        },
        files: &[(
            b"first.mm",
            &[
                Text(FIRST_HEAD),
                Text(b"th $p term ( 0 + 0 ) $=\r\n  tze\r\n  tze\r\n  tpl\r\n  $.\r\n"),
            ],
        )],
        reply: &[
            Text(FIRST_HEAD),
            Text(b"th $p term ( 0 + 0 ) $=\r\n      ( tze tpl )\r\n      AAB\r\n$.\r\n"),
        ],
        status: 0,
    },
    Asked {
        name: "so it is in small form, behind its own indent",
        command: File {
            form: Small,
            file: 0,
        },
        files: &[(
            b"first.mm",
            &[
                Text(FIRST_HEAD),
                Text(b"th $p term ( 0 + 0 ) $=\r\n  tze\r\n  tze\r\n  tpl\r\n  $.\r\n"),
            ],
        )],
        reply: &[
            Text(FIRST_HEAD),
            Text(b"th $p term ( 0 + 0 ) $=\r\n  ( tze tpl ) AAB $.\r\n"),
        ],
        status: 0,
    },
    Asked {
        name: "a file without theorems is kept",
        command: File {
            form: Packed,
            file: 1,
        },
        files: &[
            (
                b"top.mm",
                &[Text(b"$[ a.mm $] th $p term ( 0 + 0 ) $= tze tze tpl $.\n")],
            ),
            (b"a.mm", &[Text(FIRST_HEAD), Text(b"$( none $)")]),
        ],
        reply: &[Text(FIRST_HEAD), Text(b"$( none $)")],
        status: 0,
    },
    Asked {
        name: "a file that isn't included is kept",
        command: File {
            form: Packed,
            file: 1,
        },
        files: &[
            (b"first.mm", &[Text(FIRST)]),
            (b"other.mm", &[Text(b"th $p term $= tze tze tpl $. $")]),
        ],
        reply: &[Text(b"th $p term $= tze tze tpl $. $")],
        status: 0,
    },
    Asked {
        name: "proofs in blocks are saved in their places",
        command: File {
            form: Packed,
            file: 0,
        },
        files: &[(
            b"dist.mm",
            &[
                Text(DIST),
                Text(b"${ $d x y $. t4 $p |- x $= vx vy vx vy ax fin $. $}\n"),
                Text(b"${ $d x z $. t5 $p |- x $= vx vz vx vz ax fin $. $}\n"),
            ],
        )],
        reply: &[
            Text(DIST),
            Text(b"${ $d x y $. t4 $p |- x $=\n"),
            Text(b"      ( vy ax fin )\n"),
            Text(b"      ABABCD\n"),
            Text(b"$. $}\n${ $d x z $. t5 $p |- x $=\n"),
            Text(b"      ( vz ax fin )\n"),
            Text(b"      ABABCD\n"),
            Text(b"$. $}\n"),
        ],
        status: 0,
    },
];

/// Files that are not written anew.
pub(crate) const NOT_SAVED: [Asked; 6] = [
    Asked {
        name: "the second theorem's expansion has millions of labels, and so has the third's",
        command: File {
            form: Normal,
            file: 0,
        },
        files: &[(
            b"cat.mm",
            &[
                Text(CAT),
                Text(b"one $p e $= nil $. two $p e $= "),
                Text(TWENTY_FOUR),
                Text(b" $. three $p e $= "),
                Text(TWENTY_FOUR),
                Text(b" $.\n"),
            ],
        )],
        reply: &[Text(b"ask L2 two\n")],
        status: 4,
    },
    Asked {
        name: "a wrong proof behind one whose expansion has millions of labels comes first",
        command: File {
            form: Normal,
            file: 0,
        },
        files: &[(
            b"cat.mm",
            &[
                Text(CAT),
                Text(b"one $p e $= "),
                Text(TWENTY_FOUR),
                Text(b" $.\ntwo $p e $= nil nil $.\n"),
            ],
        )],
        reply: &[Text(b"no cat.mm 8 two P13 3\n")],
        status: 1,
    },
    Asked {
        name: "so does a statement of another file that the file's end cuts",
        command: File {
            form: Normal,
            file: 1,
        },
        files: &[
            (b"top.mm", &[Text(b"$[ cat.mm $]\nlast $p e\n")]),
            (
                b"cat.mm",
                &[
                    Text(CAT),
                    Text(b"one $p e $= "),
                    Text(TWENTY_FOUR),
                    Text(b" $.\n"),
                ],
            ),
        ],
        reply: &[Text(b"no top.mm 2 last X8 0\n")],
        status: 1,
    },
    Asked {
        name: "a refused database is not saved whole",
        command: File {
            form: Normal,
            file: 0,
        },
        files: &[(b"h.mm", &[Text(HEAD), Text(b"th2 $p term t $= tt tt $.\n")])],
        reply: &[Text(b"no h.mm 20 th2 P13 3\n")],
        status: 1,
    },
    Asked {
        name: "a database that is refused in another file is not saved whole",
        command: File {
            form: Packed,
            file: 1,
        },
        files: &[
            (
                b"top.mm",
                &[Text(b"$[ a.mm $]\nsw $p term ( r + t ) $= tr $.\n")],
            ),
            (b"a.mm", &[Text(FIRST)]),
        ],
        reply: &[Text(b"no top.mm 2 sw P14 2\n")],
        status: 1,
    },
    Asked {
        name: "equal names are not saved whole",
        command: File {
            form: Packed,
            file: 1,
        },
        files: &[(b"first.mm", &[Text(FIRST)]), (b"first.mm", &[Text(FIRST)])],
        reply: &[Text(b"load F2\n")],
        status: 4,
    },
];
