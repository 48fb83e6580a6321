//! The acceptance cases of `find`, of `statement --all`, and of the flags of `axioms`.

use crate::Case;
use crate::Part::Text;
use mm_check::Command::{self, About, Find};
use mm_check::Question;

/// Theorems over axioms of two type codes, one of them with an incomplete proof.
const RESTS: &[u8] = b"$c a b $. one $a a $.
${ h $e a $. step $a b $. $}
open $p a $= ? $.
half $p b $= open step $.
full $p b $= one step $.
";

/// The same, of which the last proof is at fault.
const FAULTY: &[u8] = b"$c a b $. one $a a $.
${ h $e a $. step $a b $. $}
full $p b $= step $.
";

/// Assertions over variables of two types, some of which are declared behind them.
const TYPED: &[u8] = b"$c 0 + = ( ) A B $. $v a b c $. fa $f A a $. fb $f A b $. fc $f B c $.
same $a A ( a + a ) $. other $a A ( a + c ) $.
${ h $e A 0 = b $. two $a A ( a + b ) $. $}
$v x y $. fx $f A x $. fy $f A y $.
";

/// Axioms by the type code of the theorem, and chains of uses.
pub(crate) const CHAINS: [(Command<'static>, Case); 8] = [
    (
        About {
            label: b"full",
            question: Question::Axioms { essential: true },
        },
        Case {
            name: "the axioms of the theorem's type code",
            files: &[(b"f.mm", &[Text(RESTS)])],
            reply: b"step\n",
            status: 0,
        },
    ),
    (
        About {
            label: b"half",
            question: Question::Axioms { essential: true },
        },
        Case {
            name: "an unproved theorem of another type code is listed",
            files: &[(b"f.mm", &[Text(RESTS)])],
            reply: b"step\n? open\n",
            status: 3,
        },
    ),
    (
        About {
            label: b"full",
            question: Question::Chain(b"one"),
        },
        Case {
            name: "a chain to an axiom",
            files: &[(b"f.mm", &[Text(RESTS)])],
            reply: b"full\none\n",
            status: 0,
        },
    ),
    (
        About {
            label: b"full",
            question: Question::Chain(b"full"),
        },
        Case {
            name: "the chain to the theorem itself",
            files: &[(b"f.mm", &[Text(RESTS)])],
            reply: b"full\n",
            status: 0,
        },
    ),
    (
        About {
            label: b"half",
            question: Question::Chain(b"one"),
        },
        Case {
            name: "no chain, as an incomplete proof uses nothing",
            files: &[(b"f.mm", &[Text(RESTS)])],
            reply: b"ask A4 half\n",
            status: 1,
        },
    ),
    (
        About {
            label: b"open",
            question: Question::Chain(b"one"),
        },
        Case {
            name: "no chain from an incomplete proof",
            files: &[(b"f.mm", &[Text(RESTS)])],
            reply: b"ask A3 open\n",
            status: 3,
        },
    ),
    (
        About {
            label: b"full",
            question: Question::Chain(b"none"),
        },
        Case {
            name: "no chain to an unknown label",
            files: &[(b"f.mm", &[Text(RESTS)])],
            reply: b"ask A1 none\n",
            status: 1,
        },
    ),
    (
        About {
            label: b"full",
            question: Question::Chain(b"h"),
        },
        Case {
            name: "no chain to a hypothesis",
            files: &[(b"f.mm", &[Text(RESTS)])],
            reply: b"ask A2 h\n",
            status: 1,
        },
    ),
];

/// Assertions that are found, or listed.
pub(crate) const FOUND: [(Command<'static>, Case); 6] = [
    (
        Find {
            patterns: &[b"b"],
            whole: true,
            shape: false,
            hypotheses: false,
        },
        Case {
            name: "assertions by their whole expression",
            files: &[(b"f.mm", &[Text(RESTS)])],
            reply: b"step $a : a => b\nhalf $p : b\nfull $p : b\n",
            status: 0,
        },
    ),
    (
        Find {
            patterns: &[b"a", b"$* b"],
            whole: false,
            shape: false,
            hypotheses: true,
        },
        Case {
            name: "assertions by two patterns, in hypotheses too",
            files: &[(b"f.mm", &[Text(RESTS)])],
            reply: b"step $a : a => b\n",
            status: 0,
        },
    ),
    (
        Find {
            patterns: &[b"( y + x )", b"0 = x"],
            whole: false,
            shape: true,
            hypotheses: true,
        },
        Case {
            name: "assertions by two patterns up to the names of variables, whose `$f` come later",
            files: &[(b"f.mm", &[Text(TYPED)])],
            reply: b"two $a : A 0 = b => A ( a + b )\n",
            status: 0,
        },
    ),
    (
        Find {
            patterns: &[b"c"],
            whole: false,
            shape: false,
            hypotheses: true,
        },
        Case {
            name: "nothing is found",
            files: &[(b"f.mm", &[Text(RESTS)])],
            reply: b"",
            status: 0,
        },
    ),
    (
        Find {
            patterns: &[],
            whole: false,
            shape: false,
            hypotheses: false,
        },
        Case {
            name: "all assertions where a proof is at fault",
            files: &[(b"f.mm", &[Text(FAULTY)])],
            reply: b"one $a : a\nstep $a : a => b\nfull $p : b\n",
            status: 0,
        },
    ),
    (
        Find {
            patterns: &[],
            whole: false,
            shape: false,
            hypotheses: false,
        },
        Case {
            name: "no assertion where a statement is at fault",
            files: &[(b"f.mm", &[Text(FAULTY), Text(b"one $a a $.\n")])],
            reply: b"no f.mm 4 one M5 0\n",
            status: 1,
        },
    ),
];
