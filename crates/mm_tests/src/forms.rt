//! The acceptance cases of the normal, the packed and the small proof of a theorem.

use crate::Asked;
use crate::Part::Text;
use mm_check::Command::About;
use mm_check::Question;
use mm_core_tests::databases::{CAT, DEMO, DEMO_COMPRESSED, FIRST, HEAD};
use mm_core_tests::doublings::{
    HUNDRED, HUNDRED_LINES, HUNDRED_TURNED, SIX_HUNDRED_AND_TWENTY_LINES, TWENTY_FOUR,
    TWENTY_FOUR_LINES,
};
use mm_verdict::Form;

/// Small proofs: in them `weq` and `mp`, which are used twice, come before the labels that are used
/// once.
pub(crate) const SMALL: [Asked; 3] = [
    Asked {
        name: "the small form of the demonstration theorem",
        command: About {
            label: b"th1",
            question: Question::Form {
                form: Form::Small,
                whole: false,
            },
        },
        files: &[(b"demo0.mm", &[Text(DEMO)])],
        reply: &[
            Text(b"      ( weq mp tze tpl a2 wim a1 )\n"),
            Text(b"      ADEZABZAABZAFZJJKGLIAAHCC\n"),
        ],
        status: 0,
    },
    Asked {
        name: "the small form of a theorem of one use of each label",
        command: About {
            label: b"th",
            question: Question::Form {
                form: Form::Small,
                whole: false,
            },
        },
        files: &[(b"first.mm", &[Text(FIRST)])],
        reply: &[Text(b"      ( tze tpl )\n"), Text(b"      AAB\n")],
        status: 0,
    },
    Asked {
        name: "the small form of a label that isn't there",
        command: About {
            label: b"none",
            question: Question::Form {
                form: Form::Small,
                whole: false,
            },
        },
        files: &[(b"demo0.mm", &[Text(DEMO)])],
        reply: &[Text(b"ask A1 none\n")],
        status: 1,
    },
];

/// Packed proofs.
pub(crate) const PACKED: [Asked; 9] = [
    Asked {
        name: "the packed form of the demonstration theorem",
        command: About {
            label: b"th1",
            question: Question::Form {
                form: Form::Packed,
                whole: false,
            },
        },
        files: &[(b"demo0.mm", &[Text(DEMO)])],
        reply: &[
            Text(b"      ( tze tpl weq a2 wim a1 mp )\n"),
            Text(b"      ABCZADZAADZAEZJJKFLIAAGHH\n"),
        ],
        status: 0,
    },
    Asked {
        name: "the packed form of the compressed demonstration theorem",
        command: About {
            label: b"th1",
            question: Question::Form {
                form: Form::Packed,
                whole: false,
            },
        },
        files: &[(b"demo0c.mm", &[Text(DEMO_COMPRESSED)])],
        reply: &[
            Text(b"      ( tze tpl weq a2 wim a1 mp )\n"),
            Text(b"      ABCZADZAADZAEZJJKFLIAAGHH\n"),
        ],
        status: 0,
    },
    Asked {
        name: "the packed form of a proof with tags that are not needed",
        command: About {
            label: b"th2",
            question: Question::Form {
                form: Form::Packed,
                whole: false,
            },
        },
        files: &[(
            b"h.mm",
            &[
                Text(HEAD),
                Text(b"th2 $p term ( t + t ) $= ( tpl ) AZZCB $.\n"),
            ],
        )],
        reply: &[Text(b"      ( tpl )\n"), Text(b"      AAB\n")],
        status: 0,
    },
    Asked {
        name: "the packed form of a proof with a label twice in its list",
        command: About {
            label: b"th2",
            question: Question::Form {
                form: Form::Packed,
                whole: false,
            },
        },
        files: &[(
            b"h.mm",
            &[
                Text(HEAD),
                Text(b"th2 $p term ( t + t ) $= ( tpl tpl tt ) ADC $.\n"),
            ],
        )],
        reply: &[Text(b"      ( tpl )\n"), Text(b"      AAB\n")],
        status: 0,
    },
    Asked {
        name: "the packed form of a proof with an unused label in its list",
        command: About {
            label: b"th1",
            question: Question::Form {
                form: Form::Packed,
                whole: false,
            },
        },
        files: &[(
            b"h.mm",
            &[
                Text(HEAD),
                Text(b"a3 $a |- t = t $. th1 $p |- t = t $= ( tze tpl weq a2 wim a1 mp "),
                Text(b"a3 ) ABCZADZAADZAEZKKLFMJAAGHH $.\n"),
            ],
        )],
        reply: &[
            Text(b"      ( tze tpl weq a2 wim a1 mp )\n"),
            Text(b"      ABCZADZAADZAEZJJKFLIAAGHH\n"),
        ],
        status: 0,
    },
    Asked {
        name: "the packed form of a hypothesis",
        command: About {
            label: b"h1",
            question: Question::Form {
                form: Form::Packed,
                whole: false,
            },
        },
        files: &[(b"h.mm", &[Text(HEAD), Text(b"h1 $p term t $= tt $.\n")])],
        reply: &[Text(b"      ( )\n"), Text(b"      A\n")],
        status: 0,
    },
    Asked {
        name: "the packed form of a small theorem",
        command: About {
            label: b"th",
            question: Question::Form {
                form: Form::Packed,
                whole: false,
            },
        },
        files: &[(b"first.mm", &[Text(FIRST)])],
        reply: &[Text(b"      ( tze tpl )\n"), Text(b"      AAB\n")],
        status: 0,
    },
    Asked {
        name: "the packed form shares what the proof repeats",
        command: About {
            label: b"th",
            question: Question::Form {
                form: Form::Packed,
                whole: false,
            },
        },
        files: &[(
            b"cat.mm",
            &[
                Text(CAT),
                Text(b"th $p e $= nil nil cat nil nil cat cat $.\n"),
            ],
        )],
        reply: &[Text(b"      ( nil cat )\n"), Text(b"      AABZCB\n")],
        status: 0,
    },
    Asked {
        name: "the packed form of a theorem that rests on an incomplete one",
        command: About {
            label: b"u2",
            question: Question::Form {
                form: Form::Packed,
                whole: false,
            },
        },
        files: &[(
            b"h.mm",
            &[
                Text(HEAD),
                Text(b"u1 $p |- t = t $= ? $. u2 $p |- t = t $= tt u1 $.\n"),
            ],
        )],
        reply: &[Text(b"      ( u1 )\n"), Text(b"      AB\n")],
        status: 0,
    },
];

/// Normal proofs.
pub(crate) const NORMAL: [Asked; 5] = [
    Asked {
        name: "the normal form of the compressed demonstration theorem",
        command: About {
            label: b"th1",
            question: Question::Form {
                form: Form::Normal,
                whole: false,
            },
        },
        files: &[(b"demo0c.mm", &[Text(DEMO_COMPRESSED)])],
        reply: &[
            Text(b"      tt tze tpl tt weq tt tt weq tt a2 tt tze tpl tt weq tt tze "),
            Text(b"tpl tt weq tt\n"),
            Text(b"      tt weq wim tt a2 tt tze tpl tt tt a1 mp mp\n"),
        ],
        status: 0,
    },
    Asked {
        name: "the normal form of the demonstration theorem",
        command: About {
            label: b"th1",
            question: Question::Form {
                form: Form::Normal,
                whole: false,
            },
        },
        files: &[(b"demo0.mm", &[Text(DEMO)])],
        reply: &[
            Text(b"      tt tze tpl tt weq tt tt weq tt a2 tt tze tpl tt weq tt tze "),
            Text(b"tpl tt weq tt\n"),
            Text(b"      tt weq wim tt a2 tt tze tpl tt tt a1 mp mp\n"),
        ],
        status: 0,
    },
    Asked {
        name: "the normal form of a hypothesis",
        command: About {
            label: b"h1",
            question: Question::Form {
                form: Form::Normal,
                whole: false,
            },
        },
        files: &[(b"h.mm", &[Text(HEAD), Text(b"h1 $p term t $= tt $.\n")])],
        reply: &[Text(b"      tt\n")],
        status: 0,
    },
    Asked {
        name: "the normal form of a small theorem",
        command: About {
            label: b"th",
            question: Question::Form {
                form: Form::Normal,
                whole: false,
            },
        },
        files: &[(b"first.mm", &[Text(FIRST)])],
        reply: &[Text(b"      tze tze tpl\n")],
        status: 0,
    },
    Asked {
        name: "the normal form of a short shared proof",
        command: About {
            label: b"th",
            question: Question::Form {
                form: Form::Normal,
                whole: false,
            },
        },
        files: &[(
            b"cat.mm",
            &[Text(CAT), Text(b"th $p e $= ( nil cat ) AABZCB $.\n")],
        )],
        reply: &[Text(b"      nil nil cat nil nil cat cat\n")],
        status: 0,
    },
];

/// Proofs that make a string twice as long at each step.
pub(crate) const DOUBLINGS: [Asked; 6] = [
    Asked {
        name: "the normal form of a proof whose expansion has millions of labels",
        command: About {
            label: b"th",
            question: Question::Form {
                form: Form::Normal,
                whole: false,
            },
        },
        files: &[(
            b"cat.mm",
            &[
                Text(CAT),
                Text(b"th $p e $= "),
                Text(TWENTY_FOUR),
                Text(b" $.\n"),
            ],
        )],
        reply: &[Text(b"ask L2 th\n")],
        status: 4,
    },
    Asked {
        name: "the packed form of a proof whose expansion has millions of labels",
        command: About {
            label: b"th",
            question: Question::Form {
                form: Form::Packed,
                whole: false,
            },
        },
        files: &[(
            b"cat.mm",
            &[
                Text(CAT),
                Text(b"th $p e $= "),
                Text(TWENTY_FOUR),
                Text(b" $.\n"),
            ],
        )],
        reply: &[Text(TWENTY_FOUR_LINES)],
        status: 0,
    },
    Asked {
        name: "the normal form of one hundred doublings",
        command: About {
            label: b"th",
            question: Question::Form {
                form: Form::Normal,
                whole: false,
            },
        },
        files: &[(
            b"cat.mm",
            &[
                Text(CAT),
                Text(b"th $p e $= "),
                Text(HUNDRED),
                Text(b" $.\n"),
            ],
        )],
        reply: &[Text(b"ask L2 th\n")],
        status: 4,
    },
    Asked {
        name: "the packed form of one hundred doublings",
        command: About {
            label: b"th",
            question: Question::Form {
                form: Form::Packed,
                whole: false,
            },
        },
        files: &[(
            b"cat.mm",
            &[
                Text(CAT),
                Text(b"th $p e $= "),
                Text(HUNDRED),
                Text(b" $.\n"),
            ],
        )],
        reply: &[Text(HUNDRED_LINES)],
        status: 0,
    },
    Asked {
        name: "the packed form of six hundred and twenty doublings",
        command: About {
            label: b"th",
            question: Question::Form {
                form: Form::Packed,
                whole: false,
            },
        },
        files: &[(
            b"cat.mm",
            &[
                Text(CAT),
                Text(b"th $p e $=\n"),
                Text(SIX_HUNDRED_AND_TWENTY_LINES),
                Text(b"$.\n"),
            ],
        )],
        reply: &[Text(SIX_HUNDRED_AND_TWENTY_LINES)],
        status: 0,
    },
    Asked {
        name: "the packed form of one hundred doublings that were listed the other way round",
        command: About {
            label: b"th",
            question: Question::Form {
                form: Form::Packed,
                whole: false,
            },
        },
        files: &[(
            b"cat.mm",
            &[
                Text(CAT),
                Text(b"th $p e $= "),
                Text(HUNDRED_TURNED),
                Text(b" $.\n"),
            ],
        )],
        reply: &[Text(HUNDRED_LINES)],
        status: 0,
    },
];

/// Theorems whose proofs can not be told.
pub(crate) const UNANSWERED: [Asked; 8] = [
    Asked {
        name: "the normal form of a label that is not there",
        command: About {
            label: b"none",
            question: Question::Form {
                form: Form::Normal,
                whole: false,
            },
        },
        files: &[(b"demo0.mm", &[Text(DEMO)])],
        reply: &[Text(b"ask A1 none\n")],
        status: 1,
    },
    Asked {
        name: "the normal form of an axiom",
        command: About {
            label: b"a1",
            question: Question::Form {
                form: Form::Normal,
                whole: false,
            },
        },
        files: &[(b"demo0.mm", &[Text(DEMO)])],
        reply: &[Text(b"ask A2 a1\n")],
        status: 1,
    },
    Asked {
        name: "the normal form of an incomplete proof",
        command: About {
            label: b"u1",
            question: Question::Form {
                form: Form::Normal,
                whole: false,
            },
        },
        files: &[(
            b"h.mm",
            &[
                Text(HEAD),
                Text(b"u1 $p |- t = t $= ? $. u2 $p |- t = t $= tt u1 $.\n"),
            ],
        )],
        reply: &[Text(b"ask A3 u1\n")],
        status: 3,
    },
    Asked {
        name: "the normal form in a refused database",
        command: About {
            label: b"th2",
            question: Question::Form {
                form: Form::Normal,
                whole: false,
            },
        },
        files: &[(b"h.mm", &[Text(HEAD), Text(b"th2 $p term t $= tt tt $.\n")])],
        reply: &[Text(b"no h.mm 20 th2 P13 3\n")],
        status: 1,
    },
    Asked {
        name: "the packed form of a label that is not there",
        command: About {
            label: b"none",
            question: Question::Form {
                form: Form::Packed,
                whole: false,
            },
        },
        files: &[(b"demo0.mm", &[Text(DEMO)])],
        reply: &[Text(b"ask A1 none\n")],
        status: 1,
    },
    Asked {
        name: "the packed form of an axiom",
        command: About {
            label: b"a1",
            question: Question::Form {
                form: Form::Packed,
                whole: false,
            },
        },
        files: &[(b"demo0.mm", &[Text(DEMO)])],
        reply: &[Text(b"ask A2 a1\n")],
        status: 1,
    },
    Asked {
        name: "the packed form of an incomplete proof",
        command: About {
            label: b"u1",
            question: Question::Form {
                form: Form::Packed,
                whole: false,
            },
        },
        files: &[(
            b"h.mm",
            &[
                Text(HEAD),
                Text(b"u1 $p |- t = t $= ? $. u2 $p |- t = t $= tt u1 $.\n"),
            ],
        )],
        reply: &[Text(b"ask A3 u1\n")],
        status: 3,
    },
    Asked {
        name: "the packed form in a refused database",
        command: About {
            label: b"th2",
            question: Question::Form {
                form: Form::Packed,
                whole: false,
            },
        },
        files: &[(b"h.mm", &[Text(HEAD), Text(b"th2 $p term t $= tt tt $.\n")])],
        reply: &[Text(b"no h.mm 20 th2 P13 3\n")],
        status: 1,
    },
];
