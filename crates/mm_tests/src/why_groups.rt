//! The acceptance cases of what faulty proofs share, by `why`.

use crate::Case;
use crate::Part::Text;
use mm_check::Command::{self, Whole};
use mm_check::WholeQuestion;
use mm_step::Profile::{Lenient, Strict};

/// What three or more faulty proofs share.
pub(crate) const GROUPS: [(Command<'static>, Case); 5] = [
    (
        Whole {
            profile: Strict,
            question: WholeQuestion::Why { source: false },
        },
        Case {
            name: "four that have a hypothesis",
            files: &[(
                b"f.mm",
                &[
                    Text(b"$c a b $.\nbx $a b $.\n${ h $e b $. g $e b $.\n"),
                    Text(b"p $p b $= bx $.\n${ e $e b $.\nq $p a $= bx $.\n$}\n"),
                    Text(b"r $p a $= bx $.\ns $p a $= bx $.\nt $p a $= bx $.\n"),
                    Text(b"$c b $.\n"),
                ],
            )],
            reply: b"f.mm:11:1: M1: a $c stands in a block
  token: $c
f.mm:3:1: the block is opened here, and not closed
all 4 faulty proofs have the hypothesis g
f.mm:6:14: P14: the proof proves something else than is stated, in the proof of q, at step 2
  it states
    a
  but step 1, bx at 6:11, gives
    b
  they differ at symbol 1: b where a is asked
  the theorem's hypotheses
    f.mm:3:4 h
    f.mm:3:14 g
    f.mm:5:4 e
f.mm:8:14: P14: the proof proves something else than is stated, in the proof of r, at step 2
  it states
    a
  but step 1, bx at 8:11, gives
    b
  they differ at symbol 1: b where a is asked
  the theorem's hypotheses
    f.mm:3:4 h
    f.mm:3:14 g
f.mm:9:14: P14: the proof proves something else than is stated, in the proof of s, at step 2
  it states
    a
  but step 1, bx at 9:11, gives
    b
  they differ at symbol 1: b where a is asked
  the theorem's hypotheses
    f.mm:3:4 h
    f.mm:3:14 g
and 1 more, which mm faults --strict lists
5 faults
",
            status: 1,
        },
    ),
    (
        Whole {
            profile: Lenient,
            question: WholeQuestion::Why { source: false },
        },
        Case {
            name: "a theorem that states something else, and two of its users",
            files: &[(
                b"f.mm",
                &[
                    Text(b"$c a b $.\nax $a a $.\nth $p b $= ax $.\n"),
                    Text(b"p $p a $= ( th ) A $.\nq $p a $= th $.\nr $p b $= th $.\n"),
                ],
            )],
            reply: b"all 3 faulty proofs name th or prove it
f.mm:3:15: P14: the proof proves something else than is stated, in the proof of th, at step 2
  it states
    b
  but step 1, ax at 3:12, gives
    a
  they differ at symbol 1: a where b is asked
f.mm:4:20: P14: the proof proves something else than is stated, in the proof of p, at step 2
  it states
    a
  but step 1, th at 4:18, gives
    b
  they differ at symbol 1: b where a is asked
f.mm:5:14: P14: the proof proves something else than is stated, in the proof of q, at step 2
  it states
    a
  but step 1, th at 5:11, gives
    b
  they differ at symbol 1: b where a is asked
3 faults
",
            status: 1,
        },
    ),
    (
        Whole {
            profile: Lenient,
            question: WholeQuestion::Why { source: false },
        },
        Case {
            name: "three that name a label of no statement",
            files: &[(
                b"f.mm",
                &[
                    Text(b"$c a $.\np $p a $= nope $.\n"),
                    Text(b"q $p a $= ( nope ) A $.\nr $p a $= nope ? $.\n"),
                ],
            )],
            reply: b"all 3 faulty proofs name nope
f.mm:2:11: P2: no earlier statement has the label, in the proof of p
  token: nope
f.mm:3:13: P2: no earlier statement has the label, in the proof of q
  token: nope
f.mm:4:11: P2: no earlier statement has the label, in the proof of r
  token: nope
3 faults
",
            status: 1,
        },
    ),
    (
        Whole {
            profile: Lenient,
            question: WholeQuestion::Why { source: false },
        },
        Case {
            name: "three that name what as many others name",
            files: &[(
                b"f.mm",
                &[
                    Text(b"$c a b $.\nax $a a $.\n"),
                    Text(b"p $p b $= ax $.\nq $p b $= ax $.\nr $p b $= ax $.\n"),
                    Text(b"s $p a $= ax $.\nt $p a $= ax $.\nu $p a $= ax $.\n"),
                ],
            )],
            reply: b"f.mm:3:14: P14: the proof proves something else than is stated, in the proof of p, at step 2
  it states
    b
  but step 1, ax at 3:11, gives
    a
  they differ at symbol 1: a where b is asked
f.mm:4:14: P14: the proof proves something else than is stated, in the proof of q, at step 2
  it states
    b
  but step 1, ax at 4:11, gives
    a
  they differ at symbol 1: a where b is asked
f.mm:5:14: P14: the proof proves something else than is stated, in the proof of r, at step 2
  it states
    b
  but step 1, ax at 5:11, gives
    a
  they differ at symbol 1: a where b is asked
3 faults
",
            status: 1,
        },
    ),
    (
        Whole {
            profile: Lenient,
            question: WholeQuestion::Why { source: false },
        },
        Case {
            name: "three of which one names two labels the other way round, the first as rare",
            files: &[(
                b"f.mm",
                &[
                    Text(b"$c a $.\np10 $p a $= m n $.\n"),
                    Text(b"p11 $p a $= n m $.\np12 $p a $= n m $.\n"),
                ],
            )],
            reply: b"all 3 faulty proofs name m
f.mm:2:13: P2: no earlier statement has the label, in the proof of p10
  token: m
f.mm:3:13: P2: no earlier statement has the label, in the proof of p11
  token: n
f.mm:4:13: P2: no earlier statement has the label, in the proof of p12
  token: n
3 faults
",
            status: 1,
        },
    ),
];
