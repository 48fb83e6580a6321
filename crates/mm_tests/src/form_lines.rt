//! The acceptance cases of how normal and packed proofs are laid out in lines.

use crate::Asked;
use crate::Part::{Text, Times};
use mm_check::Command::About;
use mm_check::Question;
use mm_verdict::Form;

/// The lines of normal proofs.
pub(crate) const LINES_OF_LABELS: [Asked; 5] = [
    Asked {
        name: "twenty-four labels on one line",
        command: About {
            label: b"th",
            question: Question::Form {
                form: Form::Normal,
                whole: false,
            },
        },
        files: &[(
            b"l.mm",
            &[
                Text(b"$c term $. $v t $. tt $f term t $. aa $a term t $.\n"),
                Text(b"th $p term t $= tt "),
                Times(b"aa ", 23),
                Text(b"$.\n"),
            ],
        )],
        reply: &[Text(b"      tt "), Times(b"aa ", 22), Text(b"aa\n")],
        status: 0,
    },
    Asked {
        name: "a twenty-fifth label on a line of its own",
        command: About {
            label: b"th",
            question: Question::Form {
                form: Form::Normal,
                whole: false,
            },
        },
        files: &[(
            b"l.mm",
            &[
                Text(b"$c term $. $v t $. tt $f term t $. aa $a term t $.\n"),
                Text(b"th $p term t $= tt "),
                Times(b"aa ", 24),
                Text(b"$.\n"),
            ],
        )],
        reply: &[
            Text(b"      tt "),
            Times(b"aa ", 22),
            Text(b"aa\n"),
            Text(b"      aa\n"),
        ],
        status: 0,
    },
    Asked {
        name: "a line of exactly seventy-nine bytes",
        command: About {
            label: b"th",
            question: Question::Form {
                form: Form::Normal,
                whole: false,
            },
        },
        files: &[(
            b"l.mm",
            &[
                Text(b"$c term $. $v t $. tt $f term t $. "),
                Times(b"a", 70),
                Text(b" $a term t $.\n"),
                Text(b"th $p term t $= tt "),
                Times(b"a", 70),
                Text(b" $.\n"),
            ],
        )],
        reply: &[Text(b"      tt "), Times(b"a", 70), Text(b"\n")],
        status: 0,
    },
    Asked {
        name: "a label that would make a line of eighty bytes",
        command: About {
            label: b"th",
            question: Question::Form {
                form: Form::Normal,
                whole: false,
            },
        },
        files: &[(
            b"l.mm",
            &[
                Text(b"$c term $. $v t $. tt $f term t $. "),
                Times(b"a", 71),
                Text(b" $a term t $.\n"),
                Text(b"th $p term t $= tt "),
                Times(b"a", 71),
                Text(b" $.\n"),
            ],
        )],
        reply: &[
            Text(b"      tt\n"),
            Text(b"      "),
            Times(b"a", 71),
            Text(b"\n"),
        ],
        status: 0,
    },
    Asked {
        name: "labels longer than a line",
        command: About {
            label: b"th",
            question: Question::Form {
                form: Form::Normal,
                whole: false,
            },
        },
        files: &[(
            b"l.mm",
            &[
                Text(b"$c term $. $v t $. tt $f term t $. "),
                Times(b"a", 90),
                Text(b" $a term t $.\n"),
                Text(b"th $p term t $= tt "),
                Times(b"a", 90),
                Text(b" "),
                Times(b"a", 90),
                Text(b" $.\n"),
            ],
        )],
        reply: &[
            Text(b"      tt\n"),
            Text(b"      "),
            Times(b"a", 90),
            Text(b"\n"),
            Text(b"      "),
            Times(b"a", 90),
            Text(b"\n"),
        ],
        status: 0,
    },
];

/// The lines of packed proofs.
pub(crate) const LINES_OF_LETTERS: [Asked; 5] = [
    Asked {
        name: "the packed form with a label longer than a line",
        command: About {
            label: b"th",
            question: Question::Form {
                form: Form::Packed,
                whole: false,
            },
        },
        files: &[(
            b"l.mm",
            &[
                Text(b"$c term $. $v t $. tt $f term t $. "),
                Times(b"a", 90),
                Text(b" $a term t $.\n"),
                Text(b"th $p term t $= tt "),
                Times(b"a", 90),
                Text(b" $.\n"),
            ],
        )],
        reply: &[
            Text(b"      (\n"),
            Text(b"      "),
            Times(b"a", 90),
            Text(b"\n"),
            Text(b"      )\n"),
            Text(b"      AB\n"),
        ],
        status: 0,
    },
    Asked {
        name: "the packed form with a list of exactly seventy-nine bytes",
        command: About {
            label: b"th",
            question: Question::Form {
                form: Form::Packed,
                whole: false,
            },
        },
        files: &[(
            b"l.mm",
            &[
                Text(b"$c term $. $v t $. tt $f term t $. "),
                Times(b"a", 69),
                Text(b" $a term t $.\n"),
                Text(b"th $p term t $= tt "),
                Times(b"a", 69),
                Text(b" $.\n"),
            ],
        )],
        reply: &[
            Text(b"      ( "),
            Times(b"a", 69),
            Text(b" )\n"),
            Text(b"      AB\n"),
        ],
        status: 0,
    },
    Asked {
        name: "the packed form with a list that is cut before its bracket",
        command: About {
            label: b"th",
            question: Question::Form {
                form: Form::Packed,
                whole: false,
            },
        },
        files: &[(
            b"l.mm",
            &[
                Text(b"$c term $. $v t $. tt $f term t $. "),
                Times(b"a", 70),
                Text(b" $a term t $.\n"),
                Text(b"th $p term t $= tt "),
                Times(b"a", 70),
                Text(b" $.\n"),
            ],
        )],
        reply: &[
            Text(b"      ( "),
            Times(b"a", 70),
            Text(b"\n"),
            Text(b"      )\n"),
            Text(b"      AB\n"),
        ],
        status: 0,
    },
    Asked {
        name: "seventy-three letters on one line",
        command: About {
            label: b"th",
            question: Question::Form {
                form: Form::Packed,
                whole: false,
            },
        },
        files: &[(
            b"l.mm",
            &[
                Text(b"$c term $. $v t $. tt $f term t $. aa $a term t $.\n"),
                Text(b"th $p term t $= tt "),
                Times(b"aa ", 72),
                Text(b"$.\n"),
            ],
        )],
        reply: &[
            Text(b"      ( aa )\n"),
            Text(b"      A"),
            Times(b"B", 72),
            Text(b"\n"),
        ],
        status: 0,
    },
    Asked {
        name: "a seventy-fourth letter on a line of its own",
        command: About {
            label: b"th",
            question: Question::Form {
                form: Form::Packed,
                whole: false,
            },
        },
        files: &[(
            b"l.mm",
            &[
                Text(b"$c term $. $v t $. tt $f term t $. aa $a term t $.\n"),
                Text(b"th $p term t $= tt "),
                Times(b"aa ", 73),
                Text(b"$.\n"),
            ],
        )],
        reply: &[
            Text(b"      ( aa )\n"),
            Text(b"      A"),
            Times(b"B", 72),
            Text(b"\n"),
            Text(b"      B\n"),
        ],
        status: 0,
    },
];
