//! The acceptance cases of names that are nearly alike.

use crate::Case;
use crate::Part::Text;

/// Names that differ in their length alone, or between their first bytes and their last, are
/// others; names that are the same are one, however long they are.
pub(crate) const NAMES: [Case; 8] = [
    Case {
        name: "symbols that differ in their length alone",
        files: &[(
            b"n.mm",
            &[
                Text(b"$c a aa aaa aaaa aaaaa aaaaaa aaaaaaa aaaaaaaa aaaaaaaaa aaaaaaaaaa $.\n"),
                Text(b"$c aaaaaaaaaaa aaaaaaaaaaaa aaaaaaaaaaaaa aaaaaaaaaaaaaa $.\n"),
                Text(b"$c aaaaaaaaaaaaaaa aaaaaaaaaaaaaaaa aaaaaaaaaaaaaaaaa $.\n"),
                Text(b"$c aaaaaaaaaaaaaaaaaa aaaaaaaaaaaaaaaaaaa $.\n"),
            ],
        )],
        reply: b"yes 4 statements 0 proofs\n",
        status: 0,
    },
    Case {
        name: "symbols that differ in one byte",
        files: &[(
            b"n.mm",
            &[
                Text(b"$c ab ac bb abc adc abcd abed abcdefg abcdxfg abcdefgh abcdefxh $.\n"),
                Text(b"$c abcdefghijklmnop abcdefghxjklmnop abcdefghijklmnox $.\n"),
                Text(b"$c abcdefghijklmnopq abcdefghxjklmnopq abcdefghijklmnopx $.\n"),
            ],
        )],
        reply: b"yes 3 statements 0 proofs\n",
        status: 0,
    },
    Case {
        name: "a symbol of two bytes declared again",
        files: &[(b"n.mm", &[Text(b"$c ab $.\n$c ab $.\n")])],
        reply: b"no n.mm 2 - M2 0\n",
        status: 1,
    },
    Case {
        name: "a symbol of sixteen bytes declared again",
        files: &[(
            b"n.mm",
            &[Text(b"$c abcdefghijklmnop $.\n$c abcdefghijklmnop $.\n")],
        )],
        reply: b"no n.mm 2 - M2 0\n",
        status: 1,
    },
    Case {
        name: "a symbol of seventeen bytes declared again",
        files: &[(
            b"n.mm",
            &[Text(b"$c abcdefghijklmnopq $.\n$c abcdefghijklmnopq $.\n")],
        )],
        reply: b"no n.mm 2 - M2 0\n",
        status: 1,
    },
    Case {
        name: "a symbol that differs from a declared one in its middle",
        files: &[(
            b"n.mm",
            &[
                Text(b"$c t the-first-of-these-two-symbols $.\n"),
                Text(b"x $a t the-first-or-these-two-symbols $.\n"),
            ],
        )],
        reply: b"no n.mm 2 x M7 0\n",
        status: 1,
    },
    Case {
        name: "a proof by the label that is meant, of two that differ in their middle",
        files: &[(
            b"n.mm",
            &[
                Text(b"$c t u v $.\n"),
                Text(b"the-first-of-two-axioms $a t u $.\n"),
                Text(b"the-firsx-of-two-axioms $a t v $.\n"),
                Text(b"p $p t v $= the-firsx-of-two-axioms $.\n"),
                Text(b"q $p t u $= ( the-first-of-two-axioms ) A $.\n"),
            ],
        )],
        reply: b"yes 5 statements 2 proofs\n",
        status: 0,
    },
    Case {
        name: "a proof by a label that differs from an axiom's in its middle",
        files: &[(
            b"n.mm",
            &[
                Text(b"$c t u $.\nthe-first-of-two-axioms $a t u $.\n"),
                Text(b"p $p t u $= the-firsx-of-two-axioms $.\n"),
            ],
        )],
        reply: b"no n.mm 3 p P2 0\n",
        status: 1,
    },
];
