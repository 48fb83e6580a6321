//! The acceptance cases of incomplete proofs whose known prefix breaks a rule: what stands before
//! the first `?`.

use crate::Case;
use crate::Part::{Text, Times};
use mm_core_tests::databases::{DIST, HEAD, LIMIT};

/// Faults of the tokens of a prefix, which are judged over all of them.
pub(crate) const FAULTS_OF_TOKENS: [Case; 9] = [
    Case {
        name: "an unknown label before the unknown step",
        files: &[(
            b"h.mm",
            &[Text(HEAD), Text(b"u1 $p |- t = t $= nope ? $.\n")],
        )],
        reply: b"no h.mm 20 u1 P2 0\n",
        status: 1,
    },
    Case {
        name: "a hypothesis of a closed block before the unknown step",
        files: &[(
            b"h.mm",
            &[Text(HEAD), Text(b"u1 $p |- t = t $= min ? $.\n")],
        )],
        reply: b"no h.mm 20 u1 P3 0\n",
        status: 1,
    },
    Case {
        name: "an unknown listed label before the unknown step",
        files: &[(
            b"h.mm",
            &[Text(HEAD), Text(b"u1 $p |- t = t $= ( nope ) A? $.\n")],
        )],
        reply: b"no h.mm 20 u1 P2 0\n",
        status: 1,
    },
    Case {
        name: "a small letter before the unknown step",
        files: &[(
            b"h.mm",
            &[Text(HEAD), Text(b"u1 $p |- t = t $= ( tze ) a? $.\n")],
        )],
        reply: b"no h.mm 20 u1 P4 0\n",
        status: 1,
    },
    Case {
        name: "leading digits before the unknown step",
        files: &[(
            b"h.mm",
            &[Text(HEAD), Text(b"u1 $p |- t = t $= ( tze ) U? $.\n")],
        )],
        reply: b"no h.mm 20 u1 P5 0\n",
        status: 1,
    },
    Case {
        name: "leading digits in the token before the unknown step",
        files: &[(
            b"h.mm",
            &[Text(HEAD), Text(b"u1 $p |- t = t $= ( tze ) AU ? $.\n")],
        )],
        reply: b"no h.mm 20 u1 P5 0\n",
        status: 1,
    },
    Case {
        name: "leading digits and then letters after the unknown step",
        files: &[(
            b"h.mm",
            &[Text(HEAD), Text(b"u1 $p |- t = t $= ( tze ) U? A $.\n")],
        )],
        reply: b"no h.mm 20 u1 P5 0\n",
        status: 1,
    },
    Case {
        name: "an unknown label comes before a small letter on the known front",
        files: &[(
            b"h.mm",
            &[Text(HEAD), Text(b"u1 $p |- t = t $= ( nope ) a? $.\n")],
        )],
        reply: b"no h.mm 20 u1 P2 0\n",
        status: 1,
    },
    Case {
        name: "an unknown label in an empty known front",
        files: &[(
            b"h.mm",
            &[Text(HEAD), Text(b"u1 $p |- t = t $= ( tze nope ) ? $.\n")],
        )],
        reply: b"no h.mm 20 u1 P2 0\n",
        status: 1,
    },
];

/// Faults of the steps of a prefix.
pub(crate) const FAULTS_OF_STEPS: [Case; 8] = [
    Case {
        name: "too few entries before the unknown step",
        files: &[(
            b"h.mm",
            &[Text(HEAD), Text(b"u1 $p |- t = t $= tt weq ? $.\n")],
        )],
        reply: b"no h.mm 20 u1 P8 2\n",
        status: 1,
    },
    Case {
        name: "an entry of another type before the unknown step",
        files: &[(
            b"h.mm",
            &[Text(HEAD), Text(b"u1 $p |- t = t $= wp tt weq ? $.\n")],
        )],
        reply: b"no h.mm 20 u1 P9 3\n",
        status: 1,
    },
    Case {
        name: "a hypothesis that differs from its entry before the unknown step",
        files: &[(
            b"h.mm",
            &[Text(HEAD), Text(b"u1 $p |- t = t $= wp wq wp wq mp ? $.\n")],
        )],
        reply: b"no h.mm 20 u1 P10 5\n",
        status: 1,
    },
    Case {
        name: "two distinct variables replaced by one before the unknown step",
        files: &[(
            b"dist.mm",
            &[Text(DIST), Text(b"t5 $p |- z R z $= vz vz ax ? $.\n")],
        )],
        reply: b"no dist.mm 14 t5 P11 3\n",
        status: 1,
    },
    Case {
        name: "a pair that is not active before the unknown step",
        files: &[(
            b"dist.mm",
            &[Text(DIST), Text(b"t5 $p |- x R z $= vx vz ax ? $.\n")],
        )],
        reply: b"no dist.mm 14 t5 P12 3\n",
        status: 1,
    },
    Case {
        name: "too great a number before the unknown step",
        files: &[(
            b"h.mm",
            &[Text(HEAD), Text(b"u1 $p |- t = t $= ( tze ) AC? $.\n")],
        )],
        reply: b"no h.mm 20 u1 P6 2\n",
        status: 1,
    },
    Case {
        name: "a tag before any step before the unknown step",
        files: &[(
            b"h.mm",
            &[Text(HEAD), Text(b"u1 $p |- t = t $= ( tze ) Z? $.\n")],
        )],
        reply: b"no h.mm 20 u1 P7 1\n",
        status: 1,
    },
    Case {
        name: "too long an expression before the unknown step",
        files: &[(
            b"limit.mm",
            &[
                Text(LIMIT),
                Text(b"th $p f $= ( one odd end ) A"),
                Times(b"B", 20),
                Text(b"? $.\n"),
            ],
        )],
        reply: b"limit limit.mm 10 th L1 21\n",
        status: 4,
    },
];
