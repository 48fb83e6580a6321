//! The acceptance cases of normal proofs as far as they are known.

use crate::Case;
use crate::Part::Text;
use mm_check::Command::{self, Lone};
use mm_check::LoneQuestion::KnownNormal;
use mm_core_tests::databases::{CAT, FIRST_HEAD};

/// Proofs of which all or a part is known.
pub(crate) const KNOWN_NORMAL: [(Command<'static>, Case); 4] = [
    (
        Lone {
            label: b"th",
            question: KnownNormal,
        },
        Case {
            name: "a right proof behind one at fault, each step as a label",
            files: &[(
                b"cat.mm",
                &[
                    Text(CAT),
                    Text(b"no $p e $= nope $.\nth $p e $= ( nil cat ) AABZCB $.\n"),
                ],
            )],
            reply: b"      nil nil cat nil nil cat cat\n",
            status: 0,
        },
    ),
    (
        Lone {
            label: b"th",
            question: KnownNormal,
        },
        Case {
            name: "the labels before an unknown step, of two entries",
            files: &[(
                b"cat.mm",
                &[Text(CAT), Text(b"th $p e $= ( nil cat ) AABZC?B $.\n")],
            )],
            reply: b"      nil nil cat nil nil cat ?\n",
            status: 3,
        },
    ),
    (
        Lone {
            label: b"th",
            question: KnownNormal,
        },
        Case {
            name: "an unknown step is the first",
            files: &[(b"cat.mm", &[Text(CAT), Text(b"th $p e $= ? $.\n")])],
            reply: b"      ?\n",
            status: 3,
        },
    ),
    (
        Lone {
            label: b"th",
            question: KnownNormal,
        },
        Case {
            name: "of a normal proof its labels before the `?`",
            files: &[(
                b"h.mm",
                &[
                    Text(FIRST_HEAD),
                    Text(b"th $p term ( 0 + 0 ) $= tze\n  ? tpl $.\n"),
                ],
            )],
            reply: b"      tze ?\n",
            status: 3,
        },
    ),
];

/// Proofs at fault, and a label that no theorem has.
pub(crate) const FAULTY_NORMAL: [(Command<'static>, Case); 5] = [
    (
        Lone {
            label: b"th",
            question: KnownNormal,
        },
        Case {
            name: "the labels before the step at fault",
            files: &[(
                b"cat.mm",
                &[Text(CAT), Text(b"th $p e $= ( nil cat ) AZABBB $.\n")],
            )],
            reply: b"      nil nil cat ?\n",
            status: 1,
        },
    ),
    (
        Lone {
            label: b"th",
            question: KnownNormal,
        },
        Case {
            name: "two entries are left",
            files: &[(
                b"cat.mm",
                &[Text(CAT), Text(b"th $p e $= ( nil cat ) AABZC $.\n")],
            )],
            reply: b"      nil nil cat nil nil cat ?\n",
            status: 1,
        },
    ),
    (
        Lone {
            label: b"th",
            question: KnownNormal,
        },
        Case {
            name: "a fault before an unknown step",
            files: &[(
                b"cat.mm",
                &[Text(CAT), Text(b"th $p e $= ( nil cat ) AB? $.\n")],
            )],
            reply: b"      nil ?\n",
            status: 1,
        },
    ),
    (
        Lone {
            label: b"th",
            question: KnownNormal,
        },
        Case {
            name: "of a fault over the whole proof nothing is known",
            files: &[(
                b"cat.mm",
                &[Text(CAT), Text(b"th $p e $= ( nil cat ) AABU $.\n")],
            )],
            reply: b"      ?\n",
            status: 1,
        },
    ),
    (
        Lone {
            label: b"nil",
            question: KnownNormal,
        },
        Case {
            name: "an axiom has no proof as far as it is known",
            files: &[(b"cat.mm", &[Text(CAT)])],
            reply: b"ask A2 nil\n",
            status: 1,
        },
    ),
];
