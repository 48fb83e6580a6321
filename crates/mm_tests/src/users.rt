//! The acceptance cases of the questions who uses an assertion, and what each theorem rests on.

use crate::Case;
use crate::Part::Text;
use mm_check::Command::{self, About, Whole};
use mm_check::{Question, WholeQuestion};
use mm_core_tests::databases::{FIRST, HEAD};
use mm_step::Profile;

/// Theorems that use one another: `a` uses an axiom, `b` uses `a`, `u` is unproved, `c` uses `b` and
/// `u`, and `d` uses `tze` alone.
const CHAIN: &[u8] = b"\
a $p term 0 $= tze $.
b $p term ( 0 + 0 ) $= a a tpl $.
u $p term ( 0 + 0 ) $= ? $.
c $p term ( ( 0 + 0 ) + ( 0 + 0 ) ) $= b u tpl $.
d $p term 0 $= tze $.
";

/// Theorems of two types.
const TYPES: &[u8] = b"\
$c a b $.
one $a a $.
${ h $e a $. step $a b $. $}
open $p a $= ? $.
half $p b $= open step $.
full $p b $= one step $.
";

/// Those whose proofs use it.
pub(crate) const USERS: [(Command<'static>, Case); 6] = [
    (
        About {
            label: b"tze",
            question: Question::Users { all: false },
        },
        Case {
            name: "the users of an axiom",
            files: &[(b"h.mm", &[Text(HEAD), Text(CHAIN)])],
            reply: b"a\nd\n",
            status: 0,
        },
    ),
    (
        About {
            label: b"tpl",
            question: Question::Users { all: false },
        },
        Case {
            name: "the users of an axiom with hypotheses",
            files: &[(b"h.mm", &[Text(HEAD), Text(CHAIN)])],
            reply: b"b\nc\n",
            status: 0,
        },
    ),
    (
        About {
            label: b"a",
            question: Question::Users { all: false },
        },
        Case {
            name: "the users of a theorem",
            files: &[(b"h.mm", &[Text(HEAD), Text(CHAIN)])],
            reply: b"b\n",
            status: 0,
        },
    ),
    (
        About {
            label: b"u",
            question: Question::Users { all: false },
        },
        Case {
            name: "the users of an unproved theorem",
            files: &[(b"h.mm", &[Text(HEAD), Text(CHAIN)])],
            reply: b"c\n",
            status: 0,
        },
    ),
    (
        About {
            label: b"mp",
            question: Question::Users { all: false },
        },
        Case {
            name: "an axiom that nothing uses",
            files: &[(b"h.mm", &[Text(HEAD), Text(CHAIN)])],
            reply: b"",
            status: 0,
        },
    ),
    (
        About {
            label: b"tze",
            question: Question::Users { all: false },
        },
        Case {
            name: "what stands before the first question mark uses nothing",
            files: &[(
                b"h.mm",
                &[Text(HEAD), Text(b"u1 $p term ( 0 + 0 ) $= tze ? tpl $.\n")],
            )],
            reply: b"",
            status: 0,
        },
    ),
];

/// All that rest on it.
pub(crate) const ALL_USERS: [(Command<'static>, Case); 5] = [
    (
        About {
            label: b"tze",
            question: Question::Users { all: true },
        },
        Case {
            name: "all that rest on an axiom",
            files: &[(b"h.mm", &[Text(HEAD), Text(CHAIN)])],
            reply: b"a\nb\nc\nd\n",
            status: 0,
        },
    ),
    (
        About {
            label: b"a",
            question: Question::Users { all: true },
        },
        Case {
            name: "all that rest on a theorem",
            files: &[(b"h.mm", &[Text(HEAD), Text(CHAIN)])],
            reply: b"b\nc\n",
            status: 0,
        },
    ),
    (
        About {
            label: b"u",
            question: Question::Users { all: true },
        },
        Case {
            name: "all that rest on an unproved theorem",
            files: &[(b"h.mm", &[Text(HEAD), Text(CHAIN)])],
            reply: b"c\n",
            status: 0,
        },
    ),
    (
        About {
            label: b"d",
            question: Question::Users { all: true },
        },
        Case {
            name: "nothing rests on the last theorem",
            files: &[(b"h.mm", &[Text(HEAD), Text(CHAIN)])],
            reply: b"",
            status: 0,
        },
    ),
    (
        About {
            label: b"tze",
            question: Question::Users { all: true },
        },
        Case {
            name: "an unproved theorem between rests on nothing",
            files: &[(
                b"h.mm",
                &[
                    Text(HEAD),
                    Text(b"u1 $p term ( 0 + 0 ) $= tze ? tpl $. "),
                    Text(b"v1 $p term ( 0 + 0 ) $= u1 $. w1 $p term 0 $= tze $.\n"),
                ],
            )],
            reply: b"w1\n",
            status: 0,
        },
    ),
];

/// What has no answer.
pub(crate) const USERS_UNANSWERED: [(Command<'static>, Case); 4] = [
    (
        About {
            label: b"nope",
            question: Question::Users { all: false },
        },
        Case {
            name: "the users of what no statement has for its label",
            files: &[(b"first.mm", &[Text(FIRST)])],
            reply: b"ask A1 nope\n",
            status: 1,
        },
    ),
    (
        About {
            label: b"nope",
            question: Question::Users { all: true },
        },
        Case {
            name: "all users of what no statement has for its label",
            files: &[(b"first.mm", &[Text(FIRST)])],
            reply: b"ask A1 nope\n",
            status: 1,
        },
    ),
    (
        About {
            label: b"tt",
            question: Question::Users { all: false },
        },
        Case {
            name: "the users of a hypothesis",
            files: &[(b"first.mm", &[Text(FIRST)])],
            reply: b"ask A2 tt\n",
            status: 1,
        },
    ),
    (
        About {
            label: b"maj",
            question: Question::Users { all: true },
        },
        Case {
            name: "all users of a hypothesis in a block",
            files: &[(b"h.mm", &[Text(HEAD)])],
            reply: b"ask A2 maj\n",
            status: 1,
        },
    ),
];

/// A database in which `p` is at fault, and `u` unproved: `q` and `t` use `one`, `r` uses `p`, and
/// `w` uses `q`.
const FAULTY: &[u8] = b"\
$c a $.
one $a a $.
${ h $e a $. two $a a $. $}
p $p a $= one one $.
q $p a $= one $.
r $p a $= p $.
u $p a $= one ? $.
t $p a $= one two $.
w $p a $= q two $.
";

/// Where proofs are at fault.
pub(crate) const USERS_BESIDE_FAULTS: [(Command<'static>, Case); 7] = [
    (
        About {
            label: b"one",
            question: Question::Users { all: false },
        },
        Case {
            name: "a faulty proof uses nothing",
            files: &[(b"f.mm", &[Text(FAULTY)])],
            reply: b"q\nt\n",
            status: 0,
        },
    ),
    (
        About {
            label: b"p",
            question: Question::Users { all: false },
        },
        Case {
            name: "what a faulty theorem is used by",
            files: &[(b"f.mm", &[Text(FAULTY)])],
            reply: b"r\n",
            status: 0,
        },
    ),
    (
        About {
            label: b"one",
            question: Question::Users { all: true },
        },
        Case {
            name: "nothing rests on it through a faulty proof",
            files: &[(b"f.mm", &[Text(FAULTY)])],
            reply: b"q\nt\nw\n",
            status: 0,
        },
    ),
    (
        About {
            label: b"nope",
            question: Question::Users { all: false },
        },
        Case {
            name: "no label beside a fault",
            files: &[(b"f.mm", &[Text(FAULTY)])],
            reply: b"ask A1 nope\n",
            status: 1,
        },
    ),
    (
        About {
            label: b"h",
            question: Question::Users { all: true },
        },
        Case {
            name: "a hypothesis beside a fault",
            files: &[(b"f.mm", &[Text(FAULTY)])],
            reply: b"ask A2 h\n",
            status: 1,
        },
    ),
    (
        About {
            label: b"one",
            question: Question::Users { all: false },
        },
        Case {
            name: "a rule of meaning is broken further down",
            files: &[(b"f.mm", &[Text(FAULTY), Text(b"z $a b $.\n")])],
            reply: b"no f.mm 4 p P13 3\n",
            status: 1,
        },
    ),
    (
        About {
            label: b"one",
            question: Question::Users { all: true },
        },
        Case {
            name: "a rule of the text is broken further down",
            files: &[(b"f.mm", &[Text(FAULTY), Text(b"${\n")])],
            reply: b"no f.mm 4 p P13 3\n",
            status: 1,
        },
    ),
];

const LINES: Command<'static> = Whole {
    profile: Profile::Lenient,
    question: WholeQuestion::Axioms { essential: false },
};

/// What each theorem rests on.
pub(crate) const ALL_AXIOMS: [(Command<'static>, Case); 5] = [
    (
        Whole {
            profile: Profile::Lenient,
            question: WholeQuestion::Axioms { essential: true },
        },
        Case {
            name: "which axioms of its type each theorem rests on",
            files: &[(b"types.mm", &[Text(TYPES)])],
            reply: b"? open\nhalf step ?open\nfull step\n",
            status: 3,
        },
    ),
    (
        LINES,
        Case {
            name: "what the only theorem rests on",
            files: &[(b"first.mm", &[Text(FIRST)])],
            reply: b"th tze tpl\n",
            status: 0,
        },
    ),
    (
        LINES,
        Case {
            name: "what each theorem rests on, one of them unproved",
            files: &[(b"h.mm", &[Text(HEAD), Text(CHAIN)])],
            reply: b"a tze\nb tze tpl\n? u\nc tze tpl ?u\nd tze\n",
            status: 3,
        },
    ),
    (
        LINES,
        Case {
            name: "no theorem at all",
            files: &[(b"h.mm", &[Text(HEAD)])],
            reply: b"",
            status: 0,
        },
    ),
    (
        LINES,
        Case {
            name: "what the theorems of a refused database rest on",
            files: &[(b"h.mm", &[Text(HEAD), Text(b"a $p term 0 $= tpl $.\n")])],
            reply: b"no h.mm 20 a P8 1\n",
            status: 1,
        },
    ),
];
