//! The acceptance cases of normal proofs.

use crate::Case;
use crate::Part::{Text, Times};
use mm_core_tests::databases::{DEMO, DIST, HEAD, LIMIT, LONG};

/// Proofs after the head of the demonstration database that have one fault.
pub(crate) const AFTER_HEAD: [Case; 10] = [
    Case {
        name: "two variables replaced one after the other would prove this",
        files: &[(
            b"h.mm",
            &[Text(HEAD), Text(b"sw $p term ( t + t ) $= tr tt tpl $.\n")],
        )],
        reply: b"no h.mm 20 sw P14 4\n",
        status: 1,
    },
    Case {
        name: "a proof names its own label",
        files: &[(b"h.mm", &[Text(HEAD), Text(b"th2 $p term t $= th2 $.\n")])],
        reply: b"no h.mm 20 th2 P2 0\n",
        status: 1,
    },
    Case {
        name: "a proof names a later label",
        files: &[(
            b"h.mm",
            &[
                Text(HEAD),
                Text(b"th2 $p term t $= th3 $. th3 $p term t $= tt $.\n"),
            ],
        )],
        reply: b"no h.mm 20 th2 P2 0\n",
        status: 1,
    },
    Case {
        name: "a proof names a hypothesis of a closed block",
        files: &[(b"h.mm", &[Text(HEAD), Text(b"th2 $p |- P $= min $.\n")])],
        reply: b"no h.mm 20 th2 P3 0\n",
        status: 1,
    },
    Case {
        name: "an empty proof",
        files: &[(b"h.mm", &[Text(HEAD), Text(b"th2 $p term t $= $.\n")])],
        reply: b"no h.mm 20 th2 P13 1\n",
        status: 1,
    },
    Case {
        name: "a proof that leaves two entries",
        files: &[(b"h.mm", &[Text(HEAD), Text(b"th2 $p term t $= tt tt $.\n")])],
        reply: b"no h.mm 20 th2 P13 3\n",
        status: 1,
    },
    Case {
        name: "a proof that finds too few entries",
        files: &[(
            b"h.mm",
            &[Text(HEAD), Text(b"th2 $p term t $= tt weq $.\n")],
        )],
        reply: b"no h.mm 20 th2 P8 2\n",
        status: 1,
    },
    Case {
        name: "a proof with an entry of another type",
        files: &[(
            b"h.mm",
            &[Text(HEAD), Text(b"th2 $p term t $= wp tt weq $.\n")],
        )],
        reply: b"no h.mm 20 th2 P9 3\n",
        status: 1,
    },
    Case {
        name: "a proof of another expression",
        files: &[(b"h.mm", &[Text(HEAD), Text(b"th2 $p term t $= tze $.\n")])],
        reply: b"no h.mm 20 th2 P14 2\n",
        status: 1,
    },
    Case {
        name: "a rule whose hypothesis differs from its entry",
        files: &[(
            b"h.mm",
            &[Text(HEAD), Text(b"th2 $p term t $= wp wq wp wq mp $.\n")],
        )],
        reply: b"no h.mm 20 th2 P10 5\n",
        status: 1,
    },
];

/// The head of the demonstration database, and what comes first after it of two faults.
pub(crate) const ORDER_AFTER_HEAD: [Case; 7] = [
    Case {
        name: "the head of the demonstration database",
        files: &[(b"h.mm", &[Text(HEAD)])],
        reply: b"yes 18 statements 0 proofs\n",
        status: 0,
    },
    Case {
        name: "two variables exchanged at once, after the head",
        files: &[(
            b"h.mm",
            &[Text(HEAD), Text(b"sw $p term ( r + t ) $= tr tt tpl $.\n")],
        )],
        reply: b"yes 19 statements 1 proofs\n",
        status: 0,
    },
    Case {
        name: "a proof fault comes before a later text fault",
        files: &[(
            b"h.mm",
            &[Text(HEAD), Text(b"th2 $p term t $= tt tt $.\n\x80\n")],
        )],
        reply: b"no h.mm 20 th2 P13 3\n",
        status: 1,
    },
    Case {
        name: "a text fault after a good proof",
        files: &[(
            b"h.mm",
            &[Text(HEAD), Text(b"th2 $p term t $= tt $.\n\x80\n")],
        )],
        reply: b"no h.mm 21 - X1 0\n",
        status: 1,
    },
    Case {
        name: "an unknown label comes before an inactive one",
        files: &[(
            b"h.mm",
            &[Text(HEAD), Text(b"th2 $p term t $= min nope $.\n")],
        )],
        reply: b"no h.mm 20 th2 P2 0\n",
        status: 1,
    },
    Case {
        name: "an unknown label comes before too few entries",
        files: &[(
            b"h.mm",
            &[Text(HEAD), Text(b"th2 $p term t $= weq nope $.\n")],
        )],
        reply: b"no h.mm 20 th2 P2 0\n",
        status: 1,
    },
    Case {
        name: "a rule of meaning comes before the proof",
        files: &[(b"h.mm", &[Text(HEAD), Text(b"th2 $p term z $= th2 $.\n")])],
        reply: b"no h.mm 20 th2 M7 0\n",
        status: 1,
    },
];

/// Proofs that use hypotheses and distinct variables, and expressions at the limit.
pub(crate) const WHOLE_LANGUAGE: [Case; 10] = [
    Case {
        name: "the demonstration database",
        files: &[(b"demo0.mm", &[Text(DEMO)])],
        reply: b"yes 19 statements 1 proofs\n",
        status: 0,
    },
    Case {
        name: "two distinct variables replaced by one",
        files: &[(
            b"dist.mm",
            &[Text(DIST), Text(b"t1 $p |- z R z $= vz vz ax $.\n")],
        )],
        reply: b"no dist.mm 14 t1 P11 3\n",
        status: 1,
    },
    Case {
        name: "two distinct variables replaced by a pair that is not active",
        files: &[(
            b"dist.mm",
            &[Text(DIST), Text(b"t2 $p |- x R z $= vx vz ax $.\n")],
        )],
        reply: b"no dist.mm 14 t2 P12 3\n",
        status: 1,
    },
    Case {
        name: "two distinct variables replaced by an active pair",
        files: &[(
            b"dist.mm",
            &[
                Text(DIST),
                Text(b"${ $d x z $. t3 $p |- x R z $= vx vz ax $. $}\n"),
            ],
        )],
        reply: b"yes 17 statements 1 proofs\n",
        status: 0,
    },
    Case {
        name: "an active pair that is not mandatory",
        files: &[(
            b"dist.mm",
            &[
                Text(DIST),
                Text(b"${ $d x y $. t4 $p |- x $= vx vy vx vy ax fin $. $}\n"),
            ],
        )],
        reply: b"yes 17 statements 1 proofs\n",
        status: 0,
    },
    Case {
        name: "a pair that is not active and not mandatory",
        files: &[(
            b"dist.mm",
            &[Text(DIST), Text(b"t4 $p |- x $= vx vy vx vy ax fin $.\n")],
        )],
        reply: b"no dist.mm 14 t4 P12 5\n",
        status: 1,
    },
    Case {
        name: "a proof names an active hypothesis",
        files: &[(
            b"q.mm",
            &[
                Text(b"$c a |- $. $v x $. fx $f a x $.\n"),
                Text(b"${ h $e |- x $. q $p |- x $= h $. $}\n"),
            ],
        )],
        reply: b"yes 7 statements 1 proofs\n",
        status: 0,
    },
    Case {
        name: "a long expression made twice",
        files: &[(
            b"limit.mm",
            &[
                Text(LIMIT),
                Text(b"th $p f $= one "),
                Times(b"odd ", 19),
                Text(b"one "),
                Times(b"odd ", 19),
                Text(b"end $.\n"),
            ],
        )],
        reply: b"yes 10 statements 1 proofs\n",
        status: 0,
    },
    Case {
        name: "two long expressions that differ",
        files: &[(
            b"limit.mm",
            &[
                Text(LIMIT),
                Text(b"th $p f $= one "),
                Times(b"odd ", 19),
                Text(b"one "),
                Times(b"odd ", 18),
                Text(b"end $.\n"),
            ],
        )],
        reply: b"no limit.mm 10 th P10 40\n",
        status: 1,
    },
    Case {
        name: "too long an expression made once",
        files: &[(
            b"limit.mm",
            &[
                Text(LIMIT),
                Text(b"th $p f $= one "),
                Times(b"odd ", 20),
                Text(b"one "),
                Times(b"odd ", 19),
                Text(b"end $.\n"),
            ],
        )],
        reply: b"limit limit.mm 10 th L1 21\n",
        status: 4,
    },
];

/// Proofs after the head of long expressions: what replaces distinct variables has 262,144 symbols
/// each, or one more, so that each symbol of the one with each of the other would take hours.
pub(crate) const LONG_PAIRS: [Case; 4] = [
    Case {
        name: "each symbol of the one and each of the other are an active pair",
        files: &[(
            b"long.mm",
            &[
                Text(LONG),
                Text(b"${ $d x y $. p $p a x $=\n"),
                Text(b"fx "),
                Times(b"two ", 18),
                Text(b"fy "),
                Times(b"two ", 18),
                Text(b"dxy fx fx "),
                Times(b"two ", 18),
                Text(b"fy "),
                Times(b"two ", 18),
                Text(b"dxy cut $. $}\n"),
            ],
        )],
        reply: b"yes 19 statements 1 proofs\n",
        status: 0,
    },
    Case {
        name: "none of these pairs is active",
        files: &[(
            b"long.mm",
            &[
                Text(LONG),
                Text(b"p $p a x $= fx "),
                Times(b"two ", 18),
                Text(b"fy "),
                Times(b"two ", 18),
                Text(b"dxy $.\n"),
            ],
        )],
        reply: b"no long.mm 5 p P12 39\n",
        status: 1,
    },
    Case {
        name: "the last symbols of each are one variable",
        files: &[(
            b"long.mm",
            &[
                Text(LONG),
                Text(b"${ $d x y $. p $p a x $= fx "),
                Times(b"two ", 18),
                Text(b"fz cat fy "),
                Times(b"two ", 18),
                Text(b"fz cat dxy $. $}\n"),
            ],
        )],
        reply: b"no long.mm 5 p P11 43\n",
        status: 1,
    },
    Case {
        name: "the first symbol of the one and the others are no active pair",
        files: &[(
            b"long.mm",
            &[
                Text(LONG),
                Text(b"${ $d x y $. p $p a x $= fz fx "),
                Times(b"two ", 18),
                Text(b"cat fy "),
                Times(b"two ", 18),
                Text(b"dxy $. $}\n"),
            ],
        )],
        reply: b"no long.mm 5 p P12 41\n",
        status: 1,
    },
];
