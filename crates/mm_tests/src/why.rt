//! The acceptance cases of `why`.

use crate::Case;
use crate::Part::Text;
use mm_check::Command::{self, Whole};
use mm_check::WholeQuestion;
use mm_core_tests::databases::FIRST;
use mm_step::Profile::{Lenient, Strict};

/// Databases with several faults, with one, and with none.
pub(crate) const EXPLAINED: [(Command<'static>, Case); 14] = [
    (
        Whole {
            profile: Lenient,
            question: WholeQuestion::Why { source: false },
        },
        Case {
            name: "no fault",
            files: &[(b"first.mm", &[Text(FIRST)])],
            reply: b"yes 7 statements 1 proofs\n",
            status: 0,
        },
    ),
    (
        Whole {
            profile: Lenient,
            question: WholeQuestion::Why { source: false },
        },
        Case {
            name: "a hypothesis that isn't active is no near label",
            files: &[(
                b"f.mm",
                &[Text(b"$c a $.\n${ hh1 $e a $. $}\nq $p a $= hh2 $.\n")],
            )],
            reply: b"f.mm:3:11: P2: no earlier statement has the label, in the proof of q
  token: hh2
1 fault
",
            status: 1,
        },
    ),
    (
        Whole {
            profile: Lenient,
            question: WholeQuestion::Why { source: false },
        },
        Case {
            name: "two faulty proofs, each at its own place",
            files: &[(
                b"f.mm",
                &[Text(b"$c a $.\np $p a $= nope $.\n  q $p a $= nope $.\n")],
            )],
            reply: b"f.mm:2:11: P2: no earlier statement has the label, in the proof of p
  token: nope
f.mm:3:13: P2: no earlier statement has the label, in the proof of q
  token: nope
2 faults
",
            status: 1,
        },
    ),
    (
        Whole {
            profile: Lenient,
            question: WholeQuestion::Why { source: false },
        },
        Case {
            name: "twelve faulty proofs, and then a rule of meaning",
            files: &[(
                b"f.mm",
                &[
                    Text(b"$c a $.\n"),
                    Text(b"p01 $p a $= b $.\np02 $p a $= c $.\np03 $p a $= d $.\n"),
                    Text(b"p04 $p a $= e $.\np05 $p a $= f $.\np06 $p a $= g $.\n"),
                    Text(b"p07 $p a $= h $.\np08 $p a $= i $.\np09 $p a $= j $.\n"),
                    Text(b"p10 $p a $= k $.\np11 $p a $= l $.\np12 $p a $= m $.\n"),
                    Text(b"  $c a $.\n"),
                ],
            )],
            reply: b"f.mm:14:6: M2: a symbol of a $c was declared before, or stands twice in it
  token: a
  declared: f.mm:1:4
f.mm:2:13: P2: no earlier statement has the label, in the proof of p01
  token: b
f.mm:3:13: P2: no earlier statement has the label, in the proof of p02
  token: c
f.mm:4:13: P2: no earlier statement has the label, in the proof of p03
  token: d
f.mm:5:13: P2: no earlier statement has the label, in the proof of p04
  token: e
f.mm:6:13: P2: no earlier statement has the label, in the proof of p05
  token: f
f.mm:7:13: P2: no earlier statement has the label, in the proof of p06
  token: g
f.mm:8:13: P2: no earlier statement has the label, in the proof of p07
  token: h
f.mm:9:13: P2: no earlier statement has the label, in the proof of p08
  token: i
f.mm:10:13: P2: no earlier statement has the label, in the proof of p09
  token: j
f.mm:11:13: P2: no earlier statement has the label, in the proof of p10
  token: k
and 2 more, which mm faults lists
13 faults
",
            status: 1,
        },
    ),
    (
        Whole {
            profile: Lenient,
            question: WholeQuestion::Why { source: false },
        },
        Case {
            name: "a fault of the text",
            files: &[(b"f.mm", &[Text(b"$c a $.\nq $a a $( open\n")])],
            reply: b"f.mm:2:8: X2: a comment isn't closed in its file, in q
  token: $(
  begun: f.mm:2:1
1 fault
",
            status: 1,
        },
    ),
    (
        Whole {
            profile: Lenient,
            question: WholeQuestion::Why { source: false },
        },
        Case {
            name: "a lost $d that two steps of a proof ask for",
            files: &[(
                b"f.mm",
                &[
                    Text(b"$c w $. $v p q r $.\nwp $f w p $. wq $f w q $. wr $f w r $.\n"),
                    Text(b"${ $d p q $. wa $a w p q $. $}\n"),
                    Text(b"th $p w p q r $= wp wq wr wa wa $.\n"),
                ],
            )],
            reply: b"f.mm:4:27: P12: variables aren't stated to be distinct, in the proof of th, at step 4
  step: wa
  it asks $d p q $., where p is
    q
  and q is
    r
  this step lacks: $d q r $.
  the whole proof lacks: $d p q $.
  the whole proof lacks: $d p r $.
  the whole proof lacks: $d q r $.
1 fault
",
            status: 1,
        },
    ),
    (
        Whole {
            profile: Lenient,
            question: WholeQuestion::Why { source: false },
        },
        Case {
            name: "a step that lacks two pairs for each of two",
            files: &[(
                b"f.mm",
                &[
                    Text(b"$c w ( ) $. $v p q r s $.\n"),
                    Text(b"wp $f w p $. wq $f w q $. wr $f w r $. ws $f w s $.\n"),
                    Text(b"both $a w ( p q ) $.\n"),
                    Text(b"${ $d p q $. $d p r $. wa $a w p q r $. $}\n"),
                    Text(b"th $p w ( p q ) r s $= wp wq both wr ws wa $.\n"),
                ],
            )],
            reply: b"f.mm:5:41: P12: variables aren't stated to be distinct, in the proof of th, at step 6
  step: wa
  it asks $d p q $., where p is
    ( p q )
  and q is
    r
  this step lacks: $d p r $.
  this step lacks: $d q r $.
  it asks $d p r $., where p is
    ( p q )
  and r is
    s
  this step lacks: $d p s $.
  this step lacks: $d q s $.
  the whole proof lacks: $d p r $.
  the whole proof lacks: $d p s $.
  the whole proof lacks: $d q r $.
  the whole proof lacks: $d q s $.
1 fault
",
            status: 1,
        },
    ),
    (
        Whole {
            profile: Lenient,
            question: WholeQuestion::Why { source: false },
        },
        Case {
            name: "one of three pairs shares a variable",
            files: &[(
                b"f.mm",
                &[
                    Text(b"$c w $. $v p q r $.\nwp $f w p $. wq $f w q $. wr $f w r $.\n"),
                    Text(b"${ $d p q r $. wa $a w p q r $. $}\n"),
                    Text(b"th $p w p q p $= wp wq wp wa $.\n"),
                ],
            )],
            reply: b"f.mm:4:27: P11: what replaces distinct variables shares a variable, in the proof of th, at step 4
  step: wa
  it asks $d p r $., where r is
    p
  both have: p
1 fault
",
            status: 1,
        },
    ),
    (
        Whole {
            profile: Lenient,
            question: WholeQuestion::Why { source: false },
        },
        Case {
            name: "faults of moves, each at its own place",
            files: &[(
                b"f.mm",
                &[
                    Text(b"$c a b $. $v x $. fx $f a x $. one $a a a $. two $a a x $.\n"),
                    Text(b"${ e $e a b $. bad $a a b $. $}\n"),
                    Text(b"p1 $p a a $= ( one ) AZ\n  ZB D $.\n"),
                    Text(b"p2 $p a a $= ( one ) ZA $.\n"),
                    Text(b"p3 $p a a $= ( one two ) A Z BC UF? $.\n"),
                    Text(b"p4 $p a a $= two $.\np5 $p a a $= one one\n  bad ? $.\n"),
                    Text(b"p6 $p a a $= ( one ) AZB $.\np7 $p a b $= ( one ) A $.\n"),
                    Text(b"p8 $p a a $= ( one ) AZYYYYYYYYYYYYA $.\n"),
                ],
            )],
            reply: b"f.mm:4:6: P6: a number exceeds those of hypotheses, listed labels and tags, \
in the proof of p1, at step 3
  it repeats Z number 3, and there are 2
f.mm:5:22: P7: a Z comes before any step, in the proof of p2, at step 1
f.mm:6:34: P6: a number exceeds those of hypotheses, listed labels and tags, \
in the proof of p3, at step 4
  it repeats Z number 24, and there are 1
f.mm:7:14: P8: the stack has fewer entries than the step takes, in the proof of p4, at step 1
  step: two
  entries it takes: 1, entries there are: 0
  fx states
    a x
f.mm:9:3: P10: an entry isn't what its hypothesis asks, in the proof of p5, at step 3
  step: bad
  e asks
    a b
  but step 2, one at 8:18, gives
    a a
  they differ at symbol 2: a where b is asked
f.mm:10:26: P13: the proof doesn't leave exactly one entry, in the proof of p6, at step 3
  step 1, one at 10:22, gives
    a a
  step 2, @1 at 10:24, gives
    a a
f.mm:11:24: P14: the proof proves something else than is stated, in the proof of p7, at step 2
  it states
    a b
  but step 1, one at 11:22, gives
    a a
  they differ at symbol 2: a where b is asked
f.mm:12:36: P6: a number exceeds those of hypotheses, listed labels and tags, \
in the proof of p8, at step 2
  it repeats Z number 1000000000 or a later one, and there are 1
8 faults
",
            status: 1,
        },
    ),
    (
        Whole {
            profile: Lenient,
            question: WholeQuestion::Why { source: false },
        },
        Case {
            name: "faults of whole proofs, each at its own place",
            files: &[(
                b"f.mm",
                &[
                    Text(b"$c a $. $v x y $. fx $f a x $. one $a a a $. two $a a x $.\n"),
                    Text(b"${ fy $f a y $. e $e a a $. three $a a y $. $}\n"),
                    Text(b"p1 $p a a $= one nope no $.\np2 $p a a $= ( one\n  nope no ) A $.\n"),
                    Text(b"p3 $p a a $= ( one A $.\np4 $p a a $= one fy e $.\n"),
                    Text(b"p5 $p a a $= ( one fy ) A $.\np6 $p a a $= ( one ) Aa\n  aB $.\n"),
                    Text(b"p7 $p a a $= ( one ) AU\n  U ZA $.\np8 $p a a $= ( one ) AZB UV $.\n"),
                    Text(b"s $p a $= one one one one one one one one ? $.\n"),
                ],
            )],
            reply: b"f.mm:3:18: P2: no earlier statement has the label, in the proof of p1
  token: nope
  near: one
f.mm:5:3: P2: no earlier statement has the label, in the proof of p2
  token: nope
f.mm:6:14: P1: the ( of a compressed proof isn't closed, in the proof of p3
f.mm:7:18: P3: a hypothesis isn't active, in the proof of p4
  token: fy
  stated: f.mm:2:4
  its block ends: f.mm:2:45
f.mm:8:20: P3: a hypothesis isn't active, in the proof of p5
  token: fy
  stated: f.mm:2:4
  its block ends: f.mm:2:45
f.mm:9:23: P4: a byte of the letters isn't one of A to Z, in the proof of p6
  token: Aa
f.mm:11:23: P5: a number in the letters isn't ended, in the proof of p7
f.mm:13:26: P5: a number in the letters isn't ended, in the proof of p8
8 faults
",
            status: 1,
        },
    ),
    (
        Whole {
            profile: Strict,
            question: WholeQuestion::Why { source: false },
        },
        Case {
            name: "faults of known prefixes as a whole, and of the form",
            files: &[(
                b"f.mm",
                &[
                    Text(b"$c a $. $v y $. one $a a a $. ${ fy $f a y $. three $a a y $. $}\n"),
                    Text(b"p1 $p a a $= one nope ? no $.\np2 $p a a $= ( one nope ) A? $.\n"),
                    Text(b"p3 $p a a $= one ? fy $.\np4 $p a a $= fy ? $.\n"),
                    Text(b"p5 $p a a $= ( one ) A aA? $.\np6 $p a a $= ( one ) A AV? ) $.\n"),
                    Text(b"p7 $p a a $= ( one one ) A $.\n"),
                ],
            )],
            reply: b"f.mm:2:18: P2: no earlier statement has the label, in the proof of p1
  token: nope
  near: one
f.mm:3:20: P2: no earlier statement has the label, in the proof of p2
  token: nope
f.mm:5:14: P3: a hypothesis isn't active, in the proof of p4
  token: fy
  stated: f.mm:1:34
  its block ends: f.mm:1:63
f.mm:6:24: P4: a byte of the letters isn't one of A to Z, in the proof of p5
  token: aA?
f.mm:7:25: P5: a number in the letters isn't ended, in the proof of p6
f.mm:8:20: P15: the list or a Z isn't as the strict profile demands, in the proof of p7
  token: one
6 faults
",
            status: 1,
        },
    ),
    (
        Whole {
            profile: Strict,
            question: WholeQuestion::Why { source: false },
        },
        Case {
            name: "labels and marks that aren't of the strict form",
            files: &[(
                b"f.mm",
                &[
                    Text(b"$c a b $. $v x y $. fx $f a x $. fy $f a y $. two $a a x b $.\n"),
                    Text(b"p1 $p a x b $= ( two fy two ) AB $.\n"),
                    Text(b"p2 $p a x b $= ( two fy\n  fx fx ) AZB $.\n"),
                    Text(b"p3 $p a x b $= ( two ) AZB $.\np4 $p a x b $= ( two fy ) CZ? $.\n"),
                    Text(b"p5 $p a x b $= ( two ) AB\n  Z Z $.\n"),
                    Text(b"p6 $p a x b b $= ( two ) ABZBC\n Z $.\n"),
                    Text(b"p7 $p a x b $= ( two ) Z AB $.\np8 $p a x b $= ( two ) ABZ $.\n"),
                    Text(b"s $p a x b $= fx two fx two fx two fx two fx two ? $.\n"),
                ],
            )],
            reply: b"\
f.mm:2:25: P15: the list or a Z isn't as the strict profile demands, in the proof of p1
  token: two
f.mm:4:3: P15: the list or a Z isn't as the strict profile demands, in the proof of p2
  token: fx
f.mm:5:25: P15: the list or a Z isn't as the strict profile demands, in the proof of p3
  token: AZB
f.mm:6:28: P15: the list or a Z isn't as the strict profile demands, in the proof of p4
  token: CZ?
f.mm:8:5: P15: the list or a Z isn't as the strict profile demands, in the proof of p5
  token: Z
f.mm:10:2: P15: the list or a Z isn't as the strict profile demands, in the proof of p6
  token: Z
f.mm:11:24: P15: the list or a Z isn't as the strict profile demands, in the proof of p7
  token: Z
7 faults
",
            status: 1,
        },
    ),
    (
        Whole {
            profile: Lenient,
            question: WholeQuestion::Why { source: false },
        },
        Case {
            name: "labels that are near to earlier ones, to their own and later ones, and to none",
            files: &[(
                b"f.mm",
                &[
                    Text(b"$c a $. one $a a $. three $a a $. there $a a $.\n"),
                    Text(b"p1 $p a $= thre $.\np2 $p a $= tehre $.\np3 $p a $= p4 $.\n"),
                    Text(b"q5 $p a $= q6 $. q7 $a a $.\nr $p a $= ( one thrax ) A $.\n"),
                    Text(b"s $p a $= on ? $.\nt $p a $= thrush $.\n"),
                ],
            )],
            reply: b"f.mm:2:12: P2: no earlier statement has the label, in the proof of p1
  token: thre
  near: three, there
f.mm:3:12: P2: no earlier statement has the label, in the proof of p2
  token: tehre
  near: there
f.mm:4:12: P2: no earlier statement has the label, in the proof of p3
  token: p4
  near: p1, p2
f.mm:5:12: P2: no earlier statement has the label, in the proof of q5
  token: q6
f.mm:6:17: P2: no earlier statement has the label, in the proof of r
  token: thrax
  near: three
f.mm:7:11: P2: no earlier statement has the label, in the proof of s
  token: on
  near: one
f.mm:8:11: P2: no earlier statement has the label, in the proof of t
  token: thrush
7 faults
",
            status: 1,
        },
    ),
    (
        Whole {
            profile: Lenient,
            question: WholeQuestion::Why { source: false },
        },
        Case {
            name: "files that cannot be taken",
            files: &[
                (b"f.mm", &[Text(b"$c a $.\np $p a $= nope $.\n")]),
                (b"f.mm", &[Text(b"")]),
            ],
            reply: b"load F2\n",
            status: 4,
        },
    ),
];

/// The order in which pairs are told, and the line on what isn't explained under the strict profile.
pub(crate) const ORDERED: [(Command<'static>, Case); 3] = [
    (
        Whole {
            profile: Strict,
            question: WholeQuestion::Why { source: false },
        },
        Case {
            name: "eleven faulty proofs, under the strict profile",
            files: &[(
                b"f.mm",
                &[
                    Text(b"$c a $.\n"),
                    Text(b"p01 $p a $= b $.\np02 $p a $= c $.\np03 $p a $= d $.\n"),
                    Text(b"p04 $p a $= e $.\np05 $p a $= f $.\np06 $p a $= g $.\n"),
                    Text(b"p07 $p a $= h $.\np08 $p a $= i $.\np09 $p a $= j $.\n"),
                    Text(b"p10 $p a $= k $.\np11 $p a $= l $.\n"),
                ],
            )],
            reply: b"f.mm:2:13: P2: no earlier statement has the label, in the proof of p01
  token: b
f.mm:3:13: P2: no earlier statement has the label, in the proof of p02
  token: c
f.mm:4:13: P2: no earlier statement has the label, in the proof of p03
  token: d
f.mm:5:13: P2: no earlier statement has the label, in the proof of p04
  token: e
f.mm:6:13: P2: no earlier statement has the label, in the proof of p05
  token: f
f.mm:7:13: P2: no earlier statement has the label, in the proof of p06
  token: g
f.mm:8:13: P2: no earlier statement has the label, in the proof of p07
  token: h
f.mm:9:13: P2: no earlier statement has the label, in the proof of p08
  token: i
f.mm:10:13: P2: no earlier statement has the label, in the proof of p09
  token: j
f.mm:11:13: P2: no earlier statement has the label, in the proof of p10
  token: k
and 1 more, which mm faults --strict lists
11 faults
",
            status: 1,
        },
    ),
    (
        Whole {
            profile: Lenient,
            question: WholeQuestion::Why { source: false },
        },
        Case {
            name: "a pair whose $f stand in the other order than its variables were declared",
            files: &[(
                b"f.mm",
                &[
                    Text(b"$c set |- R $. $v x y $.\nvy $f set y $. vx $f set x $.\n"),
                    Text(b"${ $d x y $. ax $a |- x R y $. $}\n"),
                    Text(b"q $p |- x R y $= vy vx ax $.\n"),
                ],
            )],
            reply: b"f.mm:4:24: P12: variables aren't stated to be distinct, in the proof of q, at step 3
  step: ax
  it asks $d x y $.
  this step lacks: $d x y $.
  the whole proof lacks: $d x y $.
1 fault
",
            status: 1,
        },
    ),
    (
        Whole {
            profile: Lenient,
            question: WholeQuestion::Why { source: false },
        },
        Case {
            name: "three pairs, of which a variable was first declared in a closed block",
            files: &[(
                b"f.mm",
                &[
                    Text(b"$c set |- R $. ${ $v z $. $} $v x y z u $.\n"),
                    Text(b"vx $f set x $. vy $f set y $. vz $f set z $. vu $f set u $.\n"),
                    Text(b"${ $d x y z $. ax $a |- x R y R z $. $}\n"),
                    Text(b"q $p |- x R y R u $= vx vy vu ax $.\n"),
                ],
            )],
            reply: b"f.mm:4:31: P12: variables aren't stated to be distinct, in the proof of q, at step 4
  step: ax
  it asks $d z x $., where z is
    u
  this step lacks: $d x u $.
  it asks $d z y $., where z is
    u
  this step lacks: $d y u $.
  it asks $d x y $.
  this step lacks: $d x y $.
  the whole proof lacks: $d x y $.
  the whole proof lacks: $d x u $.
  the whole proof lacks: $d y u $.
1 fault
",
            status: 1,
        },
    ),
];

/// A database in whose proofs no step is by some listed labels.
pub(crate) const UNUSED: [(Command<'static>, Case); 1] = [(
    Whole {
        profile: Lenient,
        question: WholeQuestion::Why { source: false },
    },
    Case {
        name: "listed labels that no step is by, but of an unknown step and of a whole proof",
        files: &[(
            b"f.mm",
            &[
                Text(b"$c a b $. one $a a $. two $a b $. three $a b $.\n"),
                Text(b"four $a b $. five $a b $.\np1 $p b $= ( one two ) A $.\n"),
                Text(b"p2 $p b $= ( five one two three\n  four ) B $.\n"),
                Text(b"p3 $p b $= ( one two ) ZA? $.\np4 $p b $= ( one two ) AV $.\n"),
                Text(b"p5 $p b $= one $.\n${ h $e a $.\n  p6 $p b $= ( one h two ) A $.\n"),
                Text(b"  p7 $p b $= ( one two ) B $. $}\np8 $p b $= ( one ) A $.\n"),
                Text(b"s $p a $= one one one one one one one one ? $.\n"),
            ],
        )],
        reply: b"f.mm:3:26: P14: the proof proves something else than is stated, in the proof of p1, at step 2
  it states
    b
  but step 1, one at 3:24, gives
    a
  they differ at symbol 1: a where b is asked
  no step is by: two
f.mm:5:12: P14: the proof proves something else than is stated, in the proof of p2, at step 2
  it states
    b
  but step 1, one at 5:10, gives
    a
  they differ at symbol 1: a where b is asked
  no step is by: five two three, and 1 more
f.mm:6:24: P7: a Z comes before any step, in the proof of p3, at step 1
f.mm:7:25: P5: a number in the letters isn't ended, in the proof of p4
f.mm:8:16: P14: the proof proves something else than is stated, in the proof of p5, at step 2
  it states
    b
  but step 1, one at 8:12, gives
    a
  they differ at symbol 1: a where b is asked
f.mm:10:30: P14: the proof proves something else than is stated, in the proof of p6, at step 2
  it states
    b
  but step 1, h at 10:28, gives
    a
  they differ at symbol 1: a where b is asked
  the theorem's hypotheses
    f.mm:9:4 h
  no step is by: one two
f.mm:11:28: P14: the proof proves something else than is stated, in the proof of p7, at step 2
  it states
    b
  but step 1, one at 11:26, gives
    a
  they differ at symbol 1: a where b is asked
  the theorem's hypotheses
    f.mm:9:4 h
  no step is by: two
f.mm:12:22: P14: the proof proves something else than is stated, in the proof of p8, at step 2
  it states
    b
  but step 1, one at 12:20, gives
    a
  they differ at symbol 1: a where b is asked
8 faults
",
        status: 1,
    },
)];
