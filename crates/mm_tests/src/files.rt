//! The acceptance cases of comments and inclusions.

use crate::Case;
use crate::Part::{Text, Times};

/// Comments, wherever they stand.
pub(crate) const COMMENTS: [Case; 14] = [
    Case {
        name: "a comment alone with no byte after it",
        files: &[(b"e.mm", &[Text(b"$( only this $)")])],
        reply: b"yes 0 statements 0 proofs\n",
        status: 0,
    },
    Case {
        name: "the end of a comment inside a token of a comment",
        files: &[(b"f.mm", &[Text(b"$( a$) $)\n")])],
        reply: b"no f.mm 1 - X3 0\n",
        status: 1,
    },
    Case {
        name: "comments inside an inclusion and inside a statement",
        files: &[
            (b"c.mm", &[Text(b"$[ $( a $) b.mm $( c $) $]")]),
            (b"b.mm", &[Text(b"$c $( d $) x $.")]),
        ],
        reply: b"yes 1 statements 0 proofs\n",
        status: 0,
    },
    Case {
        name: "a comment with a beginning of a comment inside a token",
        files: &[(b"c.mm", &[Text(b"$( a\nb$(c $)\n")])],
        reply: b"no c.mm 2 - X3 0\n",
        status: 1,
    },
    Case {
        name: "a byte out of range in a comment",
        files: &[(b"c.mm", &[Text(b"$( a\n\xc3\xa9 $)\n")])],
        reply: b"no c.mm 2 - X1 0\n",
        status: 1,
    },
    Case {
        name: "a byte out of range far into a comment",
        files: &[(
            b"c.mm",
            &[Text(b"$( "), Times(b"abc def\n", 100), Text(b"\x7f $)\n")],
        )],
        reply: b"no c.mm 101 - X1 0\n",
        status: 1,
    },
    Case {
        name: "a stray dollar sign in a comment is left alone",
        files: &[(b"c.mm", &[Text(b"$( $x $[ $. $t $c $)")])],
        reply: b"yes 0 statements 0 proofs\n",
        status: 0,
    },
    Case {
        name: "a file ends in a comment in a statement",
        files: &[(b"c.mm", &[Text(b"$c x\n$( open")])],
        reply: b"no c.mm 2 - X2 0\n",
        status: 1,
    },
    Case {
        name: "a label and a file that ends in a comment",
        files: &[(b"c.mm", &[Text(b"x $f a\n$( open")])],
        reply: b"no c.mm 2 x X2 0\n",
        status: 1,
    },
    Case {
        name: "a comment open in an inclusion",
        files: &[(b"c.mm", &[Text(b"$[ b.mm $( open\n")]), (b"b.mm", &[])],
        reply: b"no c.mm 1 - X2 0\n",
        status: 1,
    },
    Case {
        name: "a comment open in an inclusion in a block",
        files: &[(b"c.mm", &[Text(b"${ $[ b.mm $( open\n")]), (b"b.mm", &[])],
        reply: b"no c.mm 1 - X6 0\n",
        status: 1,
    },
    Case {
        name: "an included file ends in a comment",
        files: &[
            (b"top.mm", &[Text(b"$[ a.mm $]")]),
            (b"a.mm", &[Text(b"$( open")]),
        ],
        reply: b"no a.mm 1 - X2 0\n",
        status: 1,
    },
    Case {
        name: "the end of a comment in the place of an included name",
        files: &[(b"c.mm", &[Text(b"$[ $)")])],
        reply: b"no c.mm 1 - X4 0\n",
        status: 1,
    },
    Case {
        name: "the end of a comment after an included name",
        files: &[(b"c.mm", &[Text(b"$[ b.mm $)\n")]), (b"b.mm", &[])],
        reply: b"no c.mm 1 - X4 0\n",
        status: 1,
    },
];

/// Inclusions that are read, and what the included files do.
pub(crate) const INCLUSIONS: [Case; 10] = [
    Case {
        name: "a file included twice, by itself and the top file by another",
        files: &[
            (b"top.mm", &[Text(b"$[ a.mm $] $[ a.mm $] $[ top.mm $]")]),
            (b"a.mm", &[Text(b"$[ a.mm $] $c x $.")]),
        ],
        reply: b"yes 1 statements 0 proofs\n",
        status: 0,
    },
    Case {
        name: "a block left open by an included file",
        files: &[
            (b"top.mm", &[Text(b"$[ a.mm $] $}")]),
            (b"a.mm", &[Text(b"${")]),
        ],
        reply: b"yes 2 statements 0 proofs\n",
        status: 0,
    },
    Case {
        name: "a file included by two others stands at its first place",
        files: &[
            (b"top.mm", &[Text(b"$[ a.mm $] $[ b.mm $]")]),
            (b"a.mm", &[Text(b"$[ b.mm $]")]),
            (b"b.mm", &[Text(b"$c x $.")]),
        ],
        reply: b"yes 1 statements 0 proofs\n",
        status: 0,
    },
    Case {
        name: "an included file ends in a statement",
        files: &[
            (b"c.mm", &[Text(b"$[ b.mm $]")]),
            (b"b.mm", &[Text(b"$c x")]),
        ],
        reply: b"no b.mm 1 - X8 0\n",
        status: 1,
    },
    Case {
        name: "a statement goes on in another file",
        files: &[
            (b"top.mm", &[Text(b"$[ a.mm $] x $.")]),
            (b"a.mm", &[Text(b"$c")]),
        ],
        reply: b"no a.mm 1 - X8 0\n",
        status: 1,
    },
    Case {
        name: "a block that an included file leaves open is open at the end",
        files: &[
            (b"top.mm", &[Text(b"$[ a.mm $]\n")]),
            (b"a.mm", &[Text(b"$c x $.\n${\n")]),
        ],
        reply: b"no a.mm 2 - S7 0\n",
        status: 1,
    },
    Case {
        name: "a block of the top file closed by an included file would hold the inclusion",
        files: &[
            (b"top.mm", &[Text(b"${\n$[ a.mm $]")]),
            (b"a.mm", &[Text(b"$}")]),
        ],
        reply: b"no top.mm 2 - X6 0\n",
        status: 1,
    },
    Case {
        name: "a fault in an included file names that file and its line",
        files: &[
            (b"top.mm", &[Text(b"$c x $.\n\n$[ a.mm $]\n")]),
            (b"a.mm", &[Text(b"\n$v y $.\nf $f x z $.\n")]),
        ],
        reply: b"no a.mm 3 f M7 0\n",
        status: 1,
    },
    Case {
        name: "a file that was not handed in",
        files: &[(b"top.mm", &[Text(b"$[ b.mm $]")])],
        reply: b"no top.mm 1 - X7 0\n",
        status: 1,
    },
    Case {
        name: "an included name over two lines is the place of the fault",
        files: &[(b"c.mm", &[Text(b"$[\nb.mm\n$]")])],
        reply: b"no c.mm 2 - X7 0\n",
        status: 1,
    },
];

/// Inclusions where none may stand, and inclusions that are not whole.
pub(crate) const INDICES_OF_INCLUSIONS: [Case; 15] = [
    Case {
        name: "an inclusion in a block",
        files: &[(b"top.mm", &[Text(b"${ $[ a.mm $] $}")]), (b"a.mm", &[])],
        reply: b"no top.mm 1 - X6 0\n",
        status: 1,
    },
    Case {
        name: "an inclusion without a name",
        files: &[(b"f.mm", &[Text(b"$[ $]\n")])],
        reply: b"no f.mm 1 - X5 0\n",
        status: 1,
    },
    Case {
        name: "an inclusion in a statement",
        files: &[(b"c.mm", &[Text(b"$c $[ b.mm $] x $.")]), (b"b.mm", &[])],
        reply: b"no c.mm 1 - X6 0\n",
        status: 1,
    },
    Case {
        name: "a file ends in an inclusion",
        files: &[(b"c.mm", &[Text(b"$[ b.mm")])],
        reply: b"no c.mm 1 - X5 0\n",
        status: 1,
    },
    Case {
        name: "an inclusion in a block comes before what follows it",
        files: &[(b"c.mm", &[Text(b"${ $[ $x")])],
        reply: b"no c.mm 1 - X6 0\n",
        status: 1,
    },
    Case {
        name: "another token than the end after an included name",
        files: &[(b"c.mm", &[Text(b"$[ b.mm c.mm $]")]), (b"b.mm", &[])],
        reply: b"no c.mm 1 - X5 0\n",
        status: 1,
    },
    Case {
        name: "a repeated inclusion in a block",
        files: &[
            (b"top.mm", &[Text(b"$[ a.mm $] ${ $[ a.mm $] $}")]),
            (b"a.mm", &[]),
        ],
        reply: b"no top.mm 1 - X6 0\n",
        status: 1,
    },
    Case {
        name: "a stray dollar sign in the place of an included name",
        files: &[(b"c.mm", &[Text(b"$[ $x\n")]), (b"b.mm", &[])],
        reply: b"no c.mm 1 - X5 0\n",
        status: 1,
    },
    Case {
        name: "a keyword in the place of an included name",
        files: &[(b"c.mm", &[Text(b"$[ $c $]\n")]), (b"b.mm", &[])],
        reply: b"no c.mm 1 - X5 0\n",
        status: 1,
    },
    Case {
        name: "an inclusion in the place of an included name",
        files: &[(b"c.mm", &[Text(b"$[ $[ b.mm $] $]\n")]), (b"b.mm", &[])],
        reply: b"no c.mm 1 - X5 0\n",
        status: 1,
    },
    Case {
        name: "a name that holds a dollar sign",
        files: &[(b"c.mm", &[Text(b"$[ b$.mm $]\n")]), (b"b.mm", &[])],
        reply: b"no c.mm 1 - X5 0\n",
        status: 1,
    },
    Case {
        name: "a stray dollar sign after an included name",
        files: &[(b"c.mm", &[Text(b"$[ b.mm $x\n")]), (b"b.mm", &[])],
        reply: b"no c.mm 1 - X5 0\n",
        status: 1,
    },
    Case {
        name: "an inclusion after a label",
        files: &[
            (b"c.mm", &[Text(b"x $[ b.mm $] $a a $.\n")]),
            (b"b.mm", &[]),
        ],
        reply: b"no c.mm 1 x X6 0\n",
        status: 1,
    },
    Case {
        name: "an inclusion in a block of a file that was not handed in",
        files: &[(b"c.mm", &[Text(b"${ $[ none.mm $]\n")]), (b"b.mm", &[])],
        reply: b"no c.mm 1 - X6 0\n",
        status: 1,
    },
    Case {
        name: "a file ends after the beginning of an inclusion",
        files: &[(b"c.mm", &[Text(b"$[\n")]), (b"b.mm", &[])],
        reply: b"no c.mm 1 - X5 0\n",
        status: 1,
    },
];
