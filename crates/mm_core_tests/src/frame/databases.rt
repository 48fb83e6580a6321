//! The databases of the tests, each as one file.

use crate::databases;
use mm_base::File;

/// Terms and formulas, modus ponens in a block, and a theorem: `demo0.mm`.
pub(crate) const DEMO: [File<'static>; 1] = [File {
    name: b"demo0.mm",
    bytes: databases::DEMO,
}];

/// A distinct pair in a block, and a hypothesis in another: `dist.mm`.
pub(crate) const DIST: [File<'static>; 1] = [File {
    name: b"dist.mm",
    bytes: databases::DIST,
}];

/// An axiom with a hypothesis of its variable: `limit.mm`.
pub(crate) const LIMIT: [File<'static>; 1] = [File {
    name: b"limit.mm",
    bytes: databases::LIMIT,
}];

/// A variable of two blocks.
pub(crate) const TWICE: [File<'static>; 1] = [File {
    name: b"s.mm",
    bytes: b"\
$c a b $.
${ $v x $. fx $f a x $. $}
${ $v x $. fy $f a x $. $}
",
}];

/// Labels of one byte, and labels of more than 16 whose first 8 and last 8 are the same.
pub(crate) const SAME_ENDS: [File<'static>; 1] = [File {
    name: b"s.mm",
    bytes: b"\
$c c w $.
$v x y $.
a $f w x $.
b $f w y $.
same-ends-one-same-ends $a c $.
same-ends-two-same-ends $a c x $.
",
}];

/// A `$d` of 70 variables in a block: `wide.mm`.
pub(crate) const WIDE: [File<'static>; 1] = [File {
    name: b"wide.mm",
    bytes: b"\
$c set R $.
$v
a0 a1 a2 a3 a4 a5 a6 a7 a8 a9 a10 a11 a12 a13
a14 a15 a16 a17 a18 a19 a20 a21 a22 a23 a24 a25 a26 a27
a28 a29 a30 a31 a32 a33 a34 a35 a36 a37 a38 a39 a40 a41
a42 a43 a44 a45 a46 a47 a48 a49 a50 a51 a52 a53 a54 a55
a56 a57 a58 a59 a60 a61 a62 a63 a64 a65 a66 a67 a68 a69
z $.
f0 $f set a0 $.
f1 $f set a1 $.
f69 $f set a69 $.
fz $f set z $.
before $a set a0 R a69 $.
${
$d
a0 a1 a2 a3 a4 a5 a6 a7 a8 a9 a10 a11 a12 a13
a14 a15 a16 a17 a18 a19 a20 a21 a22 a23 a24 a25 a26 a27
a28 a29 a30 a31 a32 a33 a34 a35 a36 a37 a38 a39 a40 a41
a42 a43 a44 a45 a46 a47 a48 a49 a50 a51 a52 a53 a54 a55
a56 a57 a58 a59 a60 a61 a62 a63 a64 a65 a66 a67 a68 a69 $.
inside $a set a0 R a69 $.
${
$d
a0 a1 a2 a3 a4 a5 a6 a7 a8 a9 a10 a11 a12 a13
a14 a15 a16 a17 a18 a19 a20 a21 a22 a23 a24 a25 a26 a27
a28 a29 a30 a31 a32 a33 a34 a35 a36 a37 a38 a39 a40 a41
a42 a43 a44 a45 a46 a47 a48 a49 a50 a51 a52 a53 a54 a55
a56 a57 a58 a59 a60 a61 a62 a63 a64 a65 a66 a67 a68 a69 $.
nested $a set a0 R z $.
$}
still $a set a0 R a1 $.
$}
after $a set a0 R a69 $.
",
}];
