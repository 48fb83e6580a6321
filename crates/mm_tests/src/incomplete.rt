//! The acceptance cases of incomplete proofs, those with a token that holds `?`, in which nothing
//! is at fault or the fault is elsewhere.

use crate::Case;
use crate::Part::{Text, Times};
use mm_core_tests::databases::{FIRST_HEAD, HEAD, LIMIT};

/// Incomplete proofs are listed, and faults elsewhere come first.
pub(crate) const LISTED: [Case; 7] = [
    Case {
        name: "an unknown step",
        files: &[(
            b"h.mm",
            &[
                Text(HEAD),
                Text(b"u1 $p |- t = t $= ? $. u2 $p |- t = t $= tt u1 $.\n"),
            ],
        )],
        reply: b"incomplete 1\nu1\n",
        status: 3,
    },
    Case {
        name: "an unknown step before a bracket",
        files: &[(
            b"h.mm",
            &[
                Text(HEAD),
                Text(b"u1 $p |- t = t $= ? ( $. u2 $p |- t = t $= tt u1 $.\n"),
            ],
        )],
        reply: b"incomplete 1\nu1\n",
        status: 3,
    },
    Case {
        name: "an unknown step in a list of labels",
        files: &[(
            b"h.mm",
            &[
                Text(HEAD),
                Text(b"u1 $p |- t = t $= ( ? tze ) A $. u2 $p |- t = t $= tt u1 $.\n"),
            ],
        )],
        reply: b"incomplete 1\nu1\n",
        status: 3,
    },
    Case {
        name: "two incomplete proofs",
        files: &[(
            b"h.mm",
            &[
                Text(HEAD),
                Text(b"u1 $p |- t = t $= ? $. h1 $p term t $= tt $. u2 $p |- 0 = 0 "),
                Text(b"$= tt ? $.\n"),
            ],
        )],
        reply: b"incomplete 2\nu1\nu2\n",
        status: 3,
    },
    Case {
        name: "a fault after an incomplete proof",
        files: &[(
            b"h.mm",
            &[
                Text(HEAD),
                Text(b"u1 $p |- t = t $= ? $.\nth2 $p term t $= tt tt $.\n"),
            ],
        )],
        reply: b"no h.mm 21 th2 P13 3\n",
        status: 1,
    },
    Case {
        name: "an incomplete proof that breaks a rule of meaning",
        files: &[(b"h.mm", &[Text(HEAD), Text(b"u1 $p |- z $= ? $.\n")])],
        reply: b"no h.mm 20 u1 M7 0\n",
        status: 1,
    },
    Case {
        name: "an incomplete theorem in a small database",
        files: &[(
            b"first.mm",
            &[Text(FIRST_HEAD), Text(b"th $p term ( 0 + 0 ) $= ? $.\n")],
        )],
        reply: b"incomplete 1\nth\n",
        status: 3,
    },
];

/// What stands before the unknown step breaks no rule.
pub(crate) const CHECKED_PREFIXES: [Case; 6] = [
    Case {
        name: "two entries before the unknown step",
        files: &[(
            b"h.mm",
            &[Text(HEAD), Text(b"u1 $p |- t = t $= tt tt ? $.\n")],
        )],
        reply: b"incomplete 1\nu1\n",
        status: 3,
    },
    Case {
        name: "another expression before the unknown step",
        files: &[(
            b"h.mm",
            &[Text(HEAD), Text(b"u1 $p |- t = t $= tze ? $.\n")],
        )],
        reply: b"incomplete 1\nu1\n",
        status: 3,
    },
    Case {
        name: "the longest expression before the unknown step",
        files: &[(
            b"limit.mm",
            &[
                Text(LIMIT),
                Text(b"th $p f $= ( one odd end ) A"),
                Times(b"B", 19),
                Text(b"? $.\n"),
            ],
        )],
        reply: b"incomplete 1\nth\n",
        status: 3,
    },
    Case {
        name: "a number of a tag before the unknown step",
        files: &[(
            b"h.mm",
            &[Text(HEAD), Text(b"u1 $p |- t = t $= ( tze ) AZC? $.\n")],
        )],
        reply: b"incomplete 1\nu1\n",
        status: 3,
    },
    Case {
        name: "an empty known front",
        files: &[(
            b"h.mm",
            &[Text(HEAD), Text(b"u1 $p |- t = t $= ( tze ) ? $.\n")],
        )],
        reply: b"incomplete 1\nu1\n",
        status: 3,
    },
    Case {
        name: "a tagged hypothesis before the unknown step",
        files: &[(
            b"h.mm",
            &[Text(HEAD), Text(b"u1 $p |- t = t $= ( tpl ) AZ? $.\n")],
        )],
        reply: b"incomplete 1\nu1\n",
        status: 3,
    },
];

/// What stands after the unknown step, or in a list of labels with one, is not judged.
pub(crate) const AFTER_UNKNOWN: [Case; 7] = [
    Case {
        name: "an unknown label after the unknown step",
        files: &[(
            b"h.mm",
            &[Text(HEAD), Text(b"u1 $p |- t = t $= tt ? nope $.\n")],
        )],
        reply: b"incomplete 1\nu1\n",
        status: 3,
    },
    Case {
        name: "a first token of a bracket and a question mark",
        files: &[(
            b"h.mm",
            &[Text(HEAD), Text(b"u1 $p |- t = t $= (? nope $.\n")],
        )],
        reply: b"incomplete 1\nu1\n",
        status: 3,
    },
    Case {
        name: "a list of labels that is not closed before the unknown step",
        files: &[(
            b"h.mm",
            &[Text(HEAD), Text(b"u1 $p |- t = t $= ( nope ? $.\n")],
        )],
        reply: b"incomplete 1\nu1\n",
        status: 3,
    },
    Case {
        name: "letters in a list that is not closed before the unknown step",
        files: &[(
            b"h.mm",
            &[Text(HEAD), Text(b"u1 $p |- t = t $= ( tze A ? $.\n")],
        )],
        reply: b"incomplete 1\nu1\n",
        status: 3,
    },
    Case {
        name: "a closing bracket with a question mark",
        files: &[(
            b"h.mm",
            &[Text(HEAD), Text(b"u1 $p |- t = t $= ( tze )? a $.\n")],
        )],
        reply: b"incomplete 1\nu1\n",
        status: 3,
    },
    Case {
        name: "a small letter after the unknown step",
        files: &[(
            b"h.mm",
            &[Text(HEAD), Text(b"u1 $p |- t = t $= ( tze ) A?a $.\n")],
        )],
        reply: b"incomplete 1\nu1\n",
        status: 3,
    },
    Case {
        name: "a list that holds the unknown step is not judged",
        files: &[(
            b"h.mm",
            &[Text(HEAD), Text(b"u1 $p |- t = t $= ( nope ? ) a $.\n")],
        )],
        reply: b"incomplete 1\nu1\n",
        status: 3,
    },
];
