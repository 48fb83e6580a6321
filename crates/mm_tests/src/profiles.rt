//! The acceptance cases of `check` under the strict profile.

use crate::Case;
use crate::Part::{Text, Times};
use mm_core_tests::databases::{CAT, DEMO, DEMO_COMPRESSED, FIRST, FIRST_HEAD, HEAD, LIMIT};
use mm_core_tests::doublings::TWENTY_FOUR;

/// Databases that the strict profile accepts.
pub(crate) const ACCEPTED: [Case; 8] = [
    Case {
        name: "a small database with one theorem",
        files: &[(b"first.mm", &[Text(FIRST)])],
        reply: b"yes 7 statements 1 proofs\n",
        status: 0,
    },
    Case {
        name: "the demonstration database",
        files: &[(b"demo0.mm", &[Text(DEMO)])],
        reply: b"yes 19 statements 1 proofs\n",
        status: 0,
    },
    Case {
        name: "the compressed demonstration database",
        files: &[(b"demo0c.mm", &[Text(DEMO_COMPRESSED)])],
        reply: b"yes 19 statements 1 proofs\n",
        status: 0,
    },
    Case {
        name: "letters cut by white space",
        files: &[(
            b"demo0c.mm",
            &[
                Text(HEAD),
                Text(b"th1 $p |- t = t $=\n"),
                Text(b"      ( tze tpl weq a2 wim a1 mp ) ABCZADZ AADZAE ZJJKF "),
                Text(b"LIAAGHH\n"),
                Text(b"$.\n"),
            ],
        )],
        reply: b"yes 19 statements 1 proofs\n",
        status: 0,
    },
    Case {
        name: "a listed label that is not used",
        files: &[(
            b"h.mm",
            &[
                Text(HEAD),
                Text(b"a3 $a |- t = t $. th1 $p |- t = t $= ( tze tpl weq a2 wim "),
                Text(b"a1 mp a3 ) ABCZADZAADZAEZKKLFMJAAGHH $.\n"),
            ],
        )],
        reply: b"yes 20 statements 1 proofs\n",
        status: 0,
    },
    Case {
        name: "a listed hypothesis that is not mandatory",
        files: &[(
            b"h.mm",
            &[Text(HEAD), Text(b"th2 $p term 0 $= ( tt tze ) B $.\n")],
        )],
        reply: b"yes 19 statements 1 proofs\n",
        status: 0,
    },
    Case {
        name: "a tag that is never referred to",
        files: &[(
            b"h.mm",
            &[
                Text(HEAD),
                Text(b"th2 $p term ( t + t ) $= ( tpl ) AABZ $.\n"),
            ],
        )],
        reply: b"yes 19 statements 1 proofs\n",
        status: 0,
    },
    Case {
        name: "a proof whose expansion has millions of labels",
        files: &[(
            b"cat.mm",
            &[
                Text(CAT),
                Text(b"th $p e $= "),
                Text(TWENTY_FOUR),
                Text(b" $.\n"),
            ],
        )],
        reply: b"yes 7 statements 1 proofs\n",
        status: 0,
    },
];

/// Files with a proof written anew, which the strict profile accepts.
pub(crate) const SAVED: [Case; 4] = [
    Case {
        name: "the saved normal form of the demonstration theorem",
        files: &[(b"demo0c.mm", &[Text(DEMO)])],
        reply: b"yes 19 statements 1 proofs\n",
        status: 0,
    },
    Case {
        name: "the saved packed form of the demonstration theorem",
        files: &[(b"demo0.mm", &[Text(DEMO_COMPRESSED)])],
        reply: b"yes 19 statements 1 proofs\n",
        status: 0,
    },
    Case {
        name: "the saved packed form of a small theorem",
        files: &[(
            b"first.mm",
            &[
                Text(FIRST_HEAD),
                Text(b"th $p term ( 0 + 0 ) $=\n      ( tze tpl )\n      AAB\n$.\n"),
            ],
        )],
        reply: b"yes 7 statements 1 proofs\n",
        status: 0,
    },
    Case {
        name: "the saved packed form of a proof that strict refused",
        files: &[(
            b"h.mm",
            &[
                Text(HEAD),
                Text(b"th2 $p term ( t + t ) $=\n      ( tpl )\n      AAB\n$.\n"),
            ],
        )],
        reply: b"yes 19 statements 1 proofs\n",
        status: 0,
    },
];

/// Proofs that haven't the strict form.
pub(crate) const LOOSE: [Case; 9] = [
    Case {
        name: "a list with a mandatory hypothesis",
        files: &[(
            b"h.mm",
            &[Text(HEAD), Text(b"th2 $p term t $= ( tt ) A $.\n")],
        )],
        reply: b"no h.mm 20 th2 P15 0\n",
        status: 1,
    },
    Case {
        name: "a label twice in a list",
        files: &[(
            b"h.mm",
            &[
                Text(HEAD),
                Text(b"th2 $p term ( t + t ) $= ( tpl tpl ) AAB $.\n"),
            ],
        )],
        reply: b"no h.mm 20 th2 P15 0\n",
        status: 1,
    },
    Case {
        name: "a list with a label twice and with a mandatory hypothesis",
        files: &[(
            b"h.mm",
            &[
                Text(HEAD),
                Text(b"th2 $p term ( t + t ) $= ( tpl tpl tt ) ADC $.\n"),
            ],
        )],
        reply: b"no h.mm 20 th2 P15 0\n",
        status: 1,
    },
    Case {
        name: "a hypothesis tagged twice and referred to",
        files: &[(
            b"h.mm",
            &[
                Text(HEAD),
                Text(b"th2 $p term ( t + t ) $= ( tpl ) AZZCB $.\n"),
            ],
        )],
        reply: b"no h.mm 20 th2 P15 0\n",
        status: 1,
    },
    Case {
        name: "a tagged listed hypothesis",
        files: &[(
            b"h.mm",
            &[Text(HEAD), Text(b"th2 $p term 0 $= ( wp tze ) AZB $.\n")],
        )],
        reply: b"no h.mm 20 th2 P15 0\n",
        status: 1,
    },
    Case {
        name: "a tagged reference",
        files: &[(
            b"h.mm",
            &[
                Text(HEAD),
                Text(b"th2 $p term ( ( ( t + t ) + ( t + t ) ) + ( t + t ) ) $= ( "),
                Text(b"tpl ) AABZCZBDB $.\n"),
            ],
        )],
        reply: b"no h.mm 20 th2 P15 0\n",
        status: 1,
    },
    Case {
        name: "two tags after one step",
        files: &[(
            b"h.mm",
            &[
                Text(HEAD),
                Text(b"th2 $p term ( t + t ) $= ( tpl ) AABZZ $.\n"),
            ],
        )],
        reply: b"no h.mm 20 th2 P15 0\n",
        status: 1,
    },
    Case {
        name: "a tag alone",
        files: &[(b"h.mm", &[Text(HEAD), Text(b"th2 $p term t $= ( ) Z $.\n")])],
        reply: b"no h.mm 20 th2 P15 0\n",
        status: 1,
    },
    Case {
        name: "a tag before any step",
        files: &[(
            b"h.mm",
            &[Text(HEAD), Text(b"th2 $p term t $= ( tze ) ZA $.\n")],
        )],
        reply: b"no h.mm 20 th2 P15 0\n",
        status: 1,
    },
];

/// What comes before the strict form, and after it.
pub(crate) const ORDER: [Case; 4] = [
    Case {
        name: "leading digits at the end come first",
        files: &[(
            b"h.mm",
            &[Text(HEAD), Text(b"th2 $p term t $= ( tt ) U $.\n")],
        )],
        reply: b"no h.mm 20 th2 P5 0\n",
        status: 1,
    },
    Case {
        name: "an unknown label comes first",
        files: &[(
            b"h.mm",
            &[Text(HEAD), Text(b"th2 $p term t $= ( tt nope ) A $.\n")],
        )],
        reply: b"no h.mm 20 th2 P2 0\n",
        status: 1,
    },
    Case {
        name: "a step fault comes after",
        files: &[(
            b"h.mm",
            &[Text(HEAD), Text(b"th2 $p term t $= ( tze tze ) T $.\n")],
        )],
        reply: b"no h.mm 20 th2 P15 0\n",
        status: 1,
    },
    Case {
        name: "a number over what there is",
        files: &[(
            b"h.mm",
            &[Text(HEAD), Text(b"th2 $p term t $= ( tze ) C $.\n")],
        )],
        reply: b"no h.mm 20 th2 P6 1\n",
        status: 1,
    },
];

/// Long expressions under the limit of the strict profile.
pub(crate) const LIMITS: [Case; 3] = [
    Case {
        name: "nineteen doublings",
        files: &[(
            b"limit.mm",
            &[
                Text(LIMIT),
                Text(b"th $p f $= ( one odd end ) A"),
                Times(b"B", 19),
                Text(b"ZDC $.\n"),
            ],
        )],
        reply: b"yes 10 statements 1 proofs\n",
        status: 0,
    },
    Case {
        name: "twenty doublings",
        files: &[(
            b"limit.mm",
            &[
                Text(LIMIT),
                Text(b"th $p f $= ( one odd end ) A"),
                Times(b"B", 20),
                Text(b"ZDC $.\n"),
            ],
        )],
        reply: b"yes 10 statements 1 proofs\n",
        status: 0,
    },
    Case {
        name: "the longest expression a step may push",
        files: &[(
            b"limit.mm",
            &[
                Text(LIMIT),
                Text(b"th $p f $= ( one odd end ) A"),
                Times(b"B", 23),
                Text(b"ZDC $.\n"),
            ],
        )],
        reply: b"yes 10 statements 1 proofs\n",
        status: 0,
    },
];

/// An expression that no step may push: by itself, since it takes a test without
/// optimization half a minute.
pub(crate) const OVER_THE_LIMIT: [Case; 1] = [Case {
    name: "one doubling more than a step may push",
    files: &[(
        b"limit.mm",
        &[
            Text(LIMIT),
            Text(b"th $p f $= ( one odd end ) A"),
            Times(b"B", 24),
            Text(b"ZDC $.\n"),
        ],
    )],
    reply: b"limit limit.mm 10 th L1 25\n",
    status: 4,
}];

/// Incomplete proofs under the strict profile.
pub(crate) const PREFIXES: [Case; 6] = [
    Case {
        name: "an unknown step",
        files: &[(
            b"h.mm",
            &[
                Text(HEAD),
                Text(b"u1 $p |- t = t $= ? $. u2 $p |- t = t $= tt u1 $.\n"),
            ],
        )],
        reply: b"incomplete 1\nu1\n",
        status: 3,
    },
    Case {
        name: "a list that is not closed before the unknown step",
        files: &[(
            b"h.mm",
            &[Text(HEAD), Text(b"u1 $p |- t = t $= ( tt ? ) A $.\n")],
        )],
        reply: b"incomplete 1\nu1\n",
        status: 3,
    },
    Case {
        name: "a tagged hypothesis before the unknown step",
        files: &[(
            b"h.mm",
            &[Text(HEAD), Text(b"u1 $p |- t = t $= ( tpl ) AZ? $.\n")],
        )],
        reply: b"no h.mm 20 u1 P15 0\n",
        status: 1,
    },
    Case {
        name: "a mandatory hypothesis in a list before the unknown step",
        files: &[(
            b"h.mm",
            &[Text(HEAD), Text(b"u1 $p |- t = t $= ( tt ) ? $.\n")],
        )],
        reply: b"no h.mm 20 u1 P15 0\n",
        status: 1,
    },
    Case {
        name: "twenty doublings before the unknown step",
        files: &[(
            b"limit.mm",
            &[
                Text(LIMIT),
                Text(b"th $p f $= ( one odd end ) A"),
                Times(b"B", 20),
                Text(b"? $.\n"),
            ],
        )],
        reply: b"incomplete 1\nth\n",
        status: 3,
    },
    Case {
        name: "twenty-four doublings before the unknown step",
        files: &[(
            b"limit.mm",
            &[
                Text(LIMIT),
                Text(b"th $p f $= ( one odd end ) A"),
                Times(b"B", 24),
                Text(b"? $.\n"),
            ],
        )],
        reply: b"limit limit.mm 10 th L1 25\n",
        status: 4,
    },
];
