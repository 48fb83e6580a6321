//! The acceptance cases of `why` that tell where hypotheses stand.

use crate::Case;
use crate::Part::Text;
use mm_check::Command::{self, Whole};
use mm_check::WholeQuestion;
use mm_step::Profile::Lenient;

/// Databases whose faulty proofs name a hypothesis that isn't active, or have hypotheses of their
/// own.
pub(crate) const HYPOTHESES: [(Command<'static>, Case); 4] = [
    (
        Whole {
            profile: Lenient,
            question: WholeQuestion::Why { source: false },
        },
        Case {
            name: "P3: blocks in the block, before it and behind it, of another file",
            files: &[
                (
                    b"f.mm",
                    &[Text(b"$c a $. one $a a a $.\n$v x $.\n$[ g.mm $]\np $p a a $= one e $.\n")],
                ),
                (
                    b"g.mm",
                    &[
                        Text(b"${ ${ $}\n  e $e a a $. ${ $v y $. ${ $} $}\n"),
                        Text(b"  in $a a a $.\n$} ${ $}\n"),
                    ],
                ),
            ],
            reply: b"f.mm:4:17: P3: a hypothesis isn't active, in the proof of p
  token: e
  stated: g.mm:2:3
  its block ends: g.mm:4:1
1 fault
",
            status: 1,
        },
    ),
    (
        Whole {
            profile: Lenient,
            question: WholeQuestion::Why { source: false },
        },
        Case {
            name: "P3: the first hypothesis that isn't active, and its own block",
            files: &[(
                b"f.mm",
                &[
                    Text(b"$c a $.\n${\n  e $e a $.\n  ${\n    d $e a $.\n"),
                    Text(b"  $}\n  p $p a $= ( d ) A ? $.\n$}\nq $p a $= e d $.\n"),
                ],
            )],
            reply: b"f.mm:7:15: P3: a hypothesis isn't active, in the proof of p
  token: d
  stated: f.mm:5:5
  its block ends: f.mm:6:3
f.mm:9:11: P3: a hypothesis isn't active, in the proof of q
  token: e
  stated: f.mm:3:3
  its block ends: f.mm:8:1
2 faults
",
            status: 1,
        },
    ),
    (
        Whole {
            profile: Lenient,
            question: WholeQuestion::Why { source: false },
        },
        Case {
            name: "the theorem's hypotheses, in database order, where there are some",
            files: &[(
                b"f.mm",
                &[
                    Text(b"$c a |- $. $v x y z $.\nzz $f a x $. yy $f a y $. aa $f a z $.\n"),
                    Text(b"ax $a |- x $. two $a |- x y $. ${ e1 $e |- x $. mp $a |- x $. $}\n"),
                    Text(b"${ m2 $e |- y $.\n  ${ m1 $e |- x $. $}\n  m0 $e |- x $.\n"),
                    Text(b"  p8 $p |- x $= two $.\n  p9 $p |- x y $= zz m2 two $.\n"),
                    Text(b"  p10 $p |- y $= zz m2 mp $.\n$}\np13 $p |- z $= aa aa $.\n"),
                    Text(b"p14 $p |- z $= zz ax $.\nq14 $p |- a $= aa ax $.\n"),
                    Text(b"p6 $p |- z $= ( ) B $.\n"),
                ],
            )],
            reply: b"f.mm:7:17: P8: the stack has fewer entries than the step takes, \
in the proof of p8, at step 1
  step: two
  entries it takes: 2, entries there are: 0
  zz states
    a x
  yy states
    a y
  the theorem's hypotheses
    f.mm:2:1 zz
    f.mm:2:14 yy
    f.mm:4:4 m2
    f.mm:6:3 m0
f.mm:8:25: P9: an entry has another type than its hypothesis asks, \
in the proof of p9, at step 3
  step: two
  yy asks a a; step 2, m2 at 8:22, gives |- y
  takes a a; gets a |-
  the theorem's hypotheses
    f.mm:2:1 zz
    f.mm:2:14 yy
    f.mm:4:4 m2
    f.mm:6:3 m0
f.mm:9:24: P10: an entry isn't what its hypothesis asks, in the proof of p10, at step 3
  step: mp
  e1 asks
    |- x
  but step 2, m2 at 9:21, gives
    |- y
  they differ at symbol 2: y where x is asked
  zz asks, and step 1, zz at 9:18, gives
    a x
  the theorem's hypotheses
    f.mm:2:1 zz
    f.mm:2:14 yy
    f.mm:4:4 m2
    f.mm:6:3 m0
f.mm:11:22: P13: the proof doesn't leave exactly one entry, in the proof of p13, at step 3
  step 1, aa at 11:16, gives
    a z
  step 2, aa at 11:19, gives
    a z
  the theorem's hypotheses
    f.mm:2:27 aa
f.mm:12:22: P14: the proof proves something else than is stated, \
in the proof of p14, at step 3
  it states
    |- z
  but step 2, ax at 12:19, gives
    |- x
  they differ at symbol 2: x where z is asked
  the theorem's hypotheses
    f.mm:2:27 aa
f.mm:13:22: P14: the proof proves something else than is stated, \
in the proof of q14, at step 3
  it states
    |- a
  but step 2, ax at 13:19, gives
    |- z
  they differ at symbol 2: z where a is asked
f.mm:14:19: P6: a number exceeds those of hypotheses, listed labels and tags, \
in the proof of p6, at step 1
  it repeats Z number 1, and there are 0
7 faults
",
            status: 1,
        },
    ),
    (
        Whole {
            profile: Lenient,
            question: WholeQuestion::Why { source: false },
        },
        Case {
            name: "the hypotheses of a theorem, which stand in two files",
            files: &[
                (
                    b"f.mm",
                    &[Text(
                        b"$c a $.\n$[ g.mm $] d $e a $.\np $p a $= c c ? $.\nq $p a $= c c $.\n",
                    )],
                ),
                (b"g.mm", &[Text(b" c $e a $.\n")]),
            ],
            reply: b"f.mm:4:15: P13: the proof doesn't leave exactly one entry, \
in the proof of q, at step 3
  step 1, c at 4:11, gives
    a
  step 2, c at 4:13, gives
    a
  the theorem's hypotheses
    g.mm:1:2 c
    f.mm:2:12 d
1 fault
",
            status: 1,
        },
    ),
];
