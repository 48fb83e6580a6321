//! The acceptance cases of texts that are compared with the proof of a theorem.

use crate::Asked;
use crate::Part::Text;
use mm_check::Command::About;
use mm_check::Question;
use mm_core_tests::databases::{CAT, DEMO, DEMO_COMPRESSED, DIST, FIRST, HEAD, LIMIT};
use mm_core_tests::doublings::{
    HUNDRED, HUNDRED_TURNED, NINETY_NINE, NINETY_NINE_TURNED, TWENTY_FOUR, TWENTY_FOUR_LINES,
};

/// Texts of the same proof.
pub(crate) const SAME: [Asked; 8] = [
    Asked {
        name: "the packed text of the demonstration theorem",
        command: About {
            label: b"th1",
            question: Question::Same(b"( tze tpl weq a2 wim a1 mp ) ABCZADZAADZAEZJJKFLIAAGHH\n"),
        },
        files: &[(b"demo0.mm", &[Text(DEMO)])],
        reply: &[Text(b"same\n")],
        status: 0,
    },
    Asked {
        name: "the laid-out packed text of the demonstration theorem",
        command: About {
            label: b"th1",
            question: Question::Same(
                b"      ( tze tpl weq a2 wim a1 mp )\n      ABCZADZAADZAEZJJKFLIAAGHH\n",
            ),
        },
        files: &[(b"demo0.mm", &[Text(DEMO)])],
        reply: &[Text(b"same\n")],
        status: 0,
    },
    Asked {
        name: "the normal text of the demonstration theorem",
        command: About {
            label: b"th1",
            question: Question::Same(
                b"      tt tze tpl tt weq tt tt weq tt a2 tt tze tpl tt weq tt tze tpl tt weq tt
      tt weq wim tt a2 tt tze tpl tt tt a1 mp mp
",
            ),
        },
        files: &[(b"demo0c.mm", &[Text(DEMO_COMPRESSED)])],
        reply: &[Text(b"same\n")],
        status: 0,
    },
    Asked {
        name: "one hundred doublings listed the other way round",
        command: About {
            label: b"th",
            question: Question::Same(HUNDRED_TURNED),
        },
        files: &[(
            b"cat.mm",
            &[
                Text(CAT),
                Text(b"th $p e $= "),
                Text(HUNDRED),
                Text(b" $.\n"),
            ],
        )],
        reply: &[Text(b"same\n")],
        status: 0,
    },
    Asked {
        name: "the packed text of a proof whose expansion has millions of labels",
        command: About {
            label: b"th",
            question: Question::Same(TWENTY_FOUR_LINES),
        },
        files: &[(
            b"cat.mm",
            &[
                Text(CAT),
                Text(b"th $p e $= "),
                Text(TWENTY_FOUR),
                Text(b" $.\n"),
            ],
        )],
        reply: &[Text(b"same\n")],
        status: 0,
    },
    Asked {
        name: "a text with lenient tags",
        command: About {
            label: b"th2",
            question: Question::Same(b"( tpl ) AZZCB\n"),
        },
        files: &[(
            b"h.mm",
            &[Text(HEAD), Text(b"th2 $p term ( t + t ) $= tt tt tpl $.\n")],
        )],
        reply: &[Text(b"same\n")],
        status: 0,
    },
    Asked {
        name: "a text with a mandatory hypothesis in its list",
        command: About {
            label: b"h1",
            question: Question::Same(b"( tt ) A\n"),
        },
        files: &[(b"h.mm", &[Text(HEAD), Text(b"h1 $p term t $= tt $.\n")])],
        reply: &[Text(b"same\n")],
        status: 0,
    },
    Asked {
        name: "a text with other white space",
        command: About {
            label: b"th",
            question: Question::Same(b"tze\x0ctze\r\n\ttpl"),
        },
        files: &[(b"first.mm", &[Text(FIRST)])],
        reply: &[Text(b"same\n")],
        status: 0,
    },
];

/// Texts of another proof.
pub(crate) const DIFFERENT: [Asked; 3] = [
    Asked {
        name: "a text of another tree",
        command: About {
            label: b"th",
            question: Question::Same(b"nil\n"),
        },
        files: &[(
            b"cat.mm",
            &[Text(CAT), Text(b"th $p e $= nil nil cat $.\n")],
        )],
        reply: &[Text(b"different\n")],
        status: 1,
    },
    Asked {
        name: "ninety-nine doublings",
        command: About {
            label: b"th",
            question: Question::Same(NINETY_NINE),
        },
        files: &[(
            b"cat.mm",
            &[
                Text(CAT),
                Text(b"th $p e $= "),
                Text(HUNDRED),
                Text(b" $.\n"),
            ],
        )],
        reply: &[Text(b"different\n")],
        status: 1,
    },
    Asked {
        name: "ninety-nine doublings listed the other way round",
        command: About {
            label: b"th",
            question: Question::Same(NINETY_NINE_TURNED),
        },
        files: &[(
            b"cat.mm",
            &[
                Text(CAT),
                Text(b"th $p e $= "),
                Text(HUNDRED),
                Text(b" $.\n"),
            ],
        )],
        reply: &[Text(b"different\n")],
        status: 1,
    },
];

/// Texts that no complete proof has, and what is told of them first.
pub(crate) const NO_TEXTS: [Asked; 9] = [
    Asked {
        name: "a text with a keyword",
        command: About {
            label: b"th1",
            question: Question::Same(b"$= tt\n"),
        },
        files: &[(b"demo0.mm", &[Text(DEMO)])],
        reply: &[Text(b"text X9 0\n")],
        status: 1,
    },
    Asked {
        name: "a text with an unknown step",
        command: About {
            label: b"th1",
            question: Question::Same(b"?\n"),
        },
        files: &[(b"demo0.mm", &[Text(DEMO)])],
        reply: &[Text(b"text A3 0\n")],
        status: 3,
    },
    Asked {
        name: "a text with a comment",
        command: About {
            label: b"th1",
            question: Question::Same(b"tt $( c $)\n"),
        },
        files: &[(b"demo0.mm", &[Text(DEMO)])],
        reply: &[Text(b"text X9 0\n")],
        status: 1,
    },
    Asked {
        name: "a text with a byte out of range",
        command: About {
            label: b"th1",
            question: Question::Same(b"tt\n\x80\n"),
        },
        files: &[(b"demo0.mm", &[Text(DEMO)])],
        reply: &[Text(b"text X1 0\n")],
        status: 1,
    },
    Asked {
        name: "a byte out of range comes before a keyword",
        command: About {
            label: b"th1",
            question: Question::Same(b"$= ? \x80\n"),
        },
        files: &[(b"demo0.mm", &[Text(DEMO)])],
        reply: &[Text(b"text X1 0\n")],
        status: 1,
    },
    Asked {
        name: "a token with a dollar sign comes before an unknown step",
        command: About {
            label: b"th1",
            question: Question::Same(b"? nope a$b\n"),
        },
        files: &[(b"demo0.mm", &[Text(DEMO)])],
        reply: &[Text(b"text X9 0\n")],
        status: 1,
    },
    Asked {
        name: "an unknown step comes before an unknown label",
        command: About {
            label: b"th1",
            question: Question::Same(b"nope ?\n"),
        },
        files: &[(b"demo0.mm", &[Text(DEMO)])],
        reply: &[Text(b"text A3 0\n")],
        status: 3,
    },
    Asked {
        name: "an unknown step after too few entries",
        command: About {
            label: b"th1",
            question: Question::Same(b"tt weq ?\n"),
        },
        files: &[(b"demo0.mm", &[Text(DEMO)])],
        reply: &[Text(b"text A3 0\n")],
        status: 3,
    },
    Asked {
        name: "a text that breaks a rule before the unknown step is incomplete",
        command: About {
            label: b"th1",
            question: Question::Same(b"( nope ) A?\n"),
        },
        files: &[(b"demo0.mm", &[Text(DEMO)])],
        reply: &[Text(b"text A3 0\n")],
        status: 3,
    },
];

/// Texts that say no steps.
pub(crate) const FAULTS_OF_TEXTS: [Asked; 9] = [
    Asked {
        name: "a text with a list that is not closed",
        command: About {
            label: b"th1",
            question: Question::Same(b"( tze A\n"),
        },
        files: &[(
            b"demo0.mm",
            &[Text(DEMO), Text(b"th3 $p |- 0 = 0 $= tze th1 $.\n")],
        )],
        reply: &[Text(b"text P1 0\n")],
        status: 1,
    },
    Asked {
        name: "a text with an unknown label",
        command: About {
            label: b"th1",
            question: Question::Same(b"nope\n"),
        },
        files: &[(
            b"demo0.mm",
            &[Text(DEMO), Text(b"th3 $p |- 0 = 0 $= tze th1 $.\n")],
        )],
        reply: &[Text(b"text P2 0\n")],
        status: 1,
    },
    Asked {
        name: "a text with the asked label",
        command: About {
            label: b"th1",
            question: Question::Same(b"th1\n"),
        },
        files: &[(
            b"demo0.mm",
            &[Text(DEMO), Text(b"th3 $p |- 0 = 0 $= tze th1 $.\n")],
        )],
        reply: &[Text(b"text P2 0\n")],
        status: 1,
    },
    Asked {
        name: "a text with a later label",
        command: About {
            label: b"th1",
            question: Question::Same(b"th3\n"),
        },
        files: &[(
            b"demo0.mm",
            &[Text(DEMO), Text(b"th3 $p |- 0 = 0 $= tze th1 $.\n")],
        )],
        reply: &[Text(b"text P2 0\n")],
        status: 1,
    },
    Asked {
        name: "a text with a hypothesis of a closed block",
        command: About {
            label: b"th1",
            question: Question::Same(b"min\n"),
        },
        files: &[(
            b"demo0.mm",
            &[Text(DEMO), Text(b"th3 $p |- 0 = 0 $= tze th1 $.\n")],
        )],
        reply: &[Text(b"text P3 0\n")],
        status: 1,
    },
    Asked {
        name: "a text with a small letter",
        command: About {
            label: b"th1",
            question: Question::Same(b"( ) Aa\n"),
        },
        files: &[(
            b"demo0.mm",
            &[Text(DEMO), Text(b"th3 $p |- 0 = 0 $= tze th1 $.\n")],
        )],
        reply: &[Text(b"text P4 0\n")],
        status: 1,
    },
    Asked {
        name: "a text with leading digits at the end",
        command: About {
            label: b"th1",
            question: Question::Same(b"( ) U\n"),
        },
        files: &[(
            b"demo0.mm",
            &[Text(DEMO), Text(b"th3 $p |- 0 = 0 $= tze th1 $.\n")],
        )],
        reply: &[Text(b"text P5 0\n")],
        status: 1,
    },
    Asked {
        name: "a text with a number over what there is",
        command: About {
            label: b"th1",
            question: Question::Same(b"( tze ) C\n"),
        },
        files: &[(
            b"demo0.mm",
            &[Text(DEMO), Text(b"th3 $p |- 0 = 0 $= tze th1 $.\n")],
        )],
        reply: &[Text(b"text P6 1\n")],
        status: 1,
    },
    Asked {
        name: "a text with a tag before any step",
        command: About {
            label: b"th1",
            question: Question::Same(b"( ) Z\n"),
        },
        files: &[(
            b"demo0.mm",
            &[Text(DEMO), Text(b"th3 $p |- 0 = 0 $= tze th1 $.\n")],
        )],
        reply: &[Text(b"text P7 1\n")],
        status: 1,
    },
];

/// Texts whose steps prove something else, or nothing.
pub(crate) const FAULTS_OF_STEPS: [Asked; 9] = [
    Asked {
        name: "a text of another expression",
        command: About {
            label: b"th1",
            question: Question::Same(b"tt\n"),
        },
        files: &[(b"demo0.mm", &[Text(DEMO)])],
        reply: &[Text(b"text P14 2\n")],
        status: 1,
    },
    Asked {
        name: "an empty text",
        command: About {
            label: b"th1",
            question: Question::Same(b""),
        },
        files: &[(b"demo0.mm", &[Text(DEMO)])],
        reply: &[Text(b"text P13 1\n")],
        status: 1,
    },
    Asked {
        name: "a text with too few entries",
        command: About {
            label: b"th1",
            question: Question::Same(b"tt weq\n"),
        },
        files: &[(
            b"demo0.mm",
            &[Text(DEMO), Text(b"th3 $p |- 0 = 0 $= tze th1 $.\n")],
        )],
        reply: &[Text(b"text P8 2\n")],
        status: 1,
    },
    Asked {
        name: "a text with an entry of another type",
        command: About {
            label: b"th1",
            question: Question::Same(b"wp tt weq\n"),
        },
        files: &[(
            b"demo0.mm",
            &[Text(DEMO), Text(b"th3 $p |- 0 = 0 $= tze th1 $.\n")],
        )],
        reply: &[Text(b"text P9 3\n")],
        status: 1,
    },
    Asked {
        name: "a text with a hypothesis that differs from its entry",
        command: About {
            label: b"th1",
            question: Question::Same(b"wp wq wp wq mp\n"),
        },
        files: &[(
            b"demo0.mm",
            &[Text(DEMO), Text(b"th3 $p |- 0 = 0 $= tze th1 $.\n")],
        )],
        reply: &[Text(b"text P10 5\n")],
        status: 1,
    },
    Asked {
        name: "a text with two entries left",
        command: About {
            label: b"th1",
            question: Question::Same(b"tt tt\n"),
        },
        files: &[(
            b"demo0.mm",
            &[Text(DEMO), Text(b"th3 $p |- 0 = 0 $= tze th1 $.\n")],
        )],
        reply: &[Text(b"text P13 3\n")],
        status: 1,
    },
    Asked {
        name: "a text with a shared variable",
        command: About {
            label: b"t3",
            question: Question::Same(b"vz vz ax\n"),
        },
        files: &[(
            b"dist.mm",
            &[
                Text(DIST),
                Text(b"${ $d x z $. t3 $p |- x R z $= vx vz ax $. $}\n"),
            ],
        )],
        reply: &[Text(b"text P11 3\n")],
        status: 1,
    },
    Asked {
        name: "a text with a pair that is not active",
        command: About {
            label: b"t3",
            question: Question::Same(b"vx vy ax\n"),
        },
        files: &[(
            b"dist.mm",
            &[
                Text(DIST),
                Text(b"${ $d x z $. t3 $p |- x R z $= vx vz ax $. $}\n"),
            ],
        )],
        reply: &[Text(b"text P12 3\n")],
        status: 1,
    },
    Asked {
        name: "a text with a step that pushes too long an expression",
        command: About {
            label: b"th",
            question: Question::Same(b"( one odd end ) ABBBBBBBBBBBBBBBBBBBBZDC\n"),
        },
        files: &[(
            b"limit.mm",
            &[Text(LIMIT), Text(b"th $p f $= one one end $.\n")],
        )],
        reply: &[Text(b"text L1 21\n")],
        status: 4,
    },
];

/// What is told before anything of the text, and a text that is a database.
pub(crate) const BEFORE_THE_TEXT: [Asked; 6] = [
    Asked {
        name: "a label that is not there comes before the text",
        command: About {
            label: b"none",
            question: Question::Same(b"$=\n"),
        },
        files: &[(b"demo0.mm", &[Text(DEMO)])],
        reply: &[Text(b"ask A1 none\n")],
        status: 1,
    },
    Asked {
        name: "an axiom comes before the text",
        command: About {
            label: b"a1",
            question: Question::Same(b"$=\n"),
        },
        files: &[(b"demo0.mm", &[Text(DEMO)])],
        reply: &[Text(b"ask A2 a1\n")],
        status: 1,
    },
    Asked {
        name: "an incomplete theorem comes before the text",
        command: About {
            label: b"u1",
            question: Question::Same(b"$=\n"),
        },
        files: &[(
            b"h.mm",
            &[
                Text(HEAD),
                Text(b"u1 $p |- t = t $= ? $. u2 $p |- t = t $= tt u1 $.\n"),
            ],
        )],
        reply: &[Text(b"ask A3 u1\n")],
        status: 3,
    },
    Asked {
        name: "a refused database comes before the text",
        command: About {
            label: b"none",
            question: Question::Same(b"$=\n"),
        },
        files: &[(b"h.mm", &[Text(HEAD), Text(b"th2 $p term t $= tt tt $.\n")])],
        reply: &[Text(b"no h.mm 20 th2 P13 3\n")],
        status: 1,
    },
    Asked {
        name: "a text under the name of a database",
        command: About {
            label: b"th1",
            question: Question::Same(DEMO),
        },
        files: &[(b"demo0.mm", &[Text(DEMO)])],
        reply: &[Text(b"text X9 0\n")],
        status: 1,
    },
    Asked {
        name: "a database handed in twice beside a text",
        command: About {
            label: b"th1",
            question: Question::Same(b"tt\n"),
        },
        files: &[(b"demo0.mm", &[Text(DEMO)]), (b"demo0.mm", &[Text(DEMO)])],
        reply: &[Text(b"load F2\n")],
        status: 4,
    },
];
