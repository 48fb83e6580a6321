//! The acceptance cases of `why` for the faults of meaning, each with its facts.

use crate::Case;
use crate::Part::Text;
use mm_check::Command::{self, Whole};
use mm_check::WholeQuestion;
use mm_step::Profile::{Lenient, Strict};

/// Databases that declare a symbol where they may not.
pub(crate) const DECLARATIONS: [(Command<'static>, Case); 11] = [
    (
        Whole {
            profile: Lenient,
            question: WholeQuestion::Why { source: false },
        },
        Case {
            name: "M1: the innermost open block is told",
            files: &[(
                b"f.mm",
                &[Text(b"$c a $.\n${ $v x $.\n  ${ ${ $} $c b $. $} $}\n")],
            )],
            reply: b"f.mm:3:12: M1: a $c stands in a block
  token: $c
f.mm:3:3: the block is opened here, and not closed
1 fault
",
            status: 1,
        },
    ),
    (
        Whole {
            profile: Lenient,
            question: WholeQuestion::Why { source: false },
        },
        Case {
            name: "M2: a constant is a variable of a closed block",
            files: &[(
                b"f.mm",
                &[Text(b"$c a $. $v x $.\n${ $v y $. $}\n$c b c y $.\n")],
            )],
            reply: b"f.mm:3:8: M2: a symbol of a $c was declared before, or stands twice in it
  token: y
  declared: f.mm:2:7
1 fault
",
            status: 1,
        },
    ),
    (
        Whole {
            profile: Lenient,
            question: WholeQuestion::Why { source: false },
        },
        Case {
            name: "M2: the first symbol that stands twice",
            files: &[(b"f.mm", &[Text(b"$c a $.\n$c b b\n  a $.\n")])],
            reply: b"f.mm:2:6: M2: a symbol of a $c was declared before, or stands twice in it
  token: b
  declared: f.mm:2:4
1 fault
",
            status: 1,
        },
    ),
    (
        Whole {
            profile: Lenient,
            question: WholeQuestion::Why { source: false },
        },
        Case {
            name: "M3: a variable is active",
            files: &[(b"f.mm", &[Text(b"$c a $. $v x $.\n${ $v y x $. $}\n")])],
            reply: b"f.mm:2:9: M3: a symbol of a $v is active or a constant, or stands twice in it
  token: x
  declared: f.mm:1:12
1 fault
",
            status: 1,
        },
    ),
    (
        Whole {
            profile: Lenient,
            question: WholeQuestion::Why { source: false },
        },
        Case {
            name: "M3: a variable is a constant, and comments name both",
            files: &[(b"f.mm", &[Text(b"$c a $( a $) b $.\n$v $( b $) b $.\n")])],
            reply: b"f.mm:2:12: M3: a symbol of a $v is active or a constant, or stands twice in it
  token: b
  declared: f.mm:1:14
1 fault
",
            status: 1,
        },
    ),
    (
        Whole {
            profile: Lenient,
            question: WholeQuestion::Why { source: false },
        },
        Case {
            name: "M3: the last of two declarations is told",
            files: &[(b"f.mm", &[Text(b"${ $v x $. $}\n$v x $.\n$v x $.\n")])],
            reply: b"f.mm:3:4: M3: a symbol of a $v is active or a constant, or stands twice in it
  token: x
  declared: f.mm:2:4
1 fault
",
            status: 1,
        },
    ),
    (
        Whole {
            profile: Lenient,
            question: WholeQuestion::Why { source: false },
        },
        Case {
            name: "M3: a variable of a closed block stands twice",
            files: &[(b"f.mm", &[Text(b"${ $v x $. $}\n$v x y x $.\n")])],
            reply: b"f.mm:2:8: M3: a symbol of a $v is active or a constant, or stands twice in it
  token: x
  declared: f.mm:2:4
1 fault
",
            status: 1,
        },
    ),
    (
        Whole {
            profile: Lenient,
            question: WholeQuestion::Why { source: false },
        },
        Case {
            name: "M4: a variable is a label",
            files: &[(b"f.mm", &[Text(b"$c a $.\np $a a $.\n$v x p $.\n")])],
            reply: b"f.mm:3:6: M4: a declared symbol is an earlier label
  token: p
  labelled: f.mm:2:1
1 fault
",
            status: 1,
        },
    ),
    (
        Whole {
            profile: Lenient,
            question: WholeQuestion::Why { source: false },
        },
        Case {
            name: "M4: a constant is a label in a closed block",
            files: &[(b"f.mm", &[Text(b"$c a $.\n${ h $e a $. $}\n$c h $.\n")])],
            reply: b"f.mm:3:4: M4: a declared symbol is an earlier label
  token: h
  labelled: f.mm:2:4
1 fault
",
            status: 1,
        },
    ),
    (
        Whole {
            profile: Lenient,
            question: WholeQuestion::Why { source: false },
        },
        Case {
            name: "M2: a symbol is declared in an included file",
            files: &[
                (b"f.mm", &[Text(b"$[ g.mm $]\n$c x $.\n")]),
                (b"g.mm", &[Text(b"${ $v x $. $}\n")]),
            ],
            reply: b"f.mm:2:4: M2: a symbol of a $c was declared before, or stands twice in it
  token: x
  declared: g.mm:1:7
1 fault
",
            status: 1,
        },
    ),
    (
        Whole {
            profile: Strict,
            question: WholeQuestion::Why { source: false },
        },
        Case {
            name: "M3: an included file declares a symbol again",
            files: &[
                (b"f.mm", &[Text(b"$c a $.\n$[ g.mm $]\n")]),
                (b"g.mm", &[Text(b"$v x\n a $.\n")]),
            ],
            reply: b"g.mm:2:2: M3: a symbol of a $v is active or a constant, or stands twice in it
  token: a
  declared: f.mm:1:4
1 fault
",
            status: 1,
        },
    ),
];

/// Databases with a label, a `$f` or a first symbol that may not stand there.
pub(crate) const LABELS: [(Command<'static>, Case); 8] = [
    (
        Whole {
            profile: Lenient,
            question: WholeQuestion::Why { source: false },
        },
        Case {
            name: "M5: a label in a closed block",
            files: &[(
                b"f.mm",
                &[Text(b"$c a $.\n${ p $e a $. $}\n  p $a a a $.\n")],
            )],
            reply: b"f.mm:3:3: M5: the label is an earlier label, in p
  token: p
  labelled: f.mm:2:4
1 fault
",
            status: 1,
        },
    ),
    (
        Whole {
            profile: Lenient,
            question: WholeQuestion::Why { source: false },
        },
        Case {
            name: "M6: a label is a variable of a closed block",
            files: &[(b"f.mm", &[Text(b"$c a $. ${ $v x $. $}\nx $a a $.\n")])],
            reply: b"f.mm:2:1: M6: the label is a declared symbol, in x
  token: x
  declared: f.mm:1:15
1 fault
",
            status: 1,
        },
    ),
    (
        Whole {
            profile: Lenient,
            question: WholeQuestion::Why { source: false },
        },
        Case {
            name: "M10: the type code is a variable",
            files: &[(b"f.mm", &[Text(b"$c a $. $v x y $.\np $f x y $.\n")])],
            reply: b"f.mm:2:6: M10: the type code of a $f is a variable, in p
  token: x
  declared: f.mm:1:12
1 fault
",
            status: 1,
        },
    ),
    (
        Whole {
            profile: Lenient,
            question: WholeQuestion::Why { source: false },
        },
        Case {
            name: "M11: the second symbol is a constant",
            files: &[(b"f.mm", &[Text(b"$c a b $.\np $f a b $.\n")])],
            reply: b"f.mm:2:8: M11: the second symbol of a $f is a constant, in p
  token: b
  declared: f.mm:1:6
1 fault
",
            status: 1,
        },
    ),
    (
        Whole {
            profile: Lenient,
            question: WholeQuestion::Why { source: false },
        },
        Case {
            name: "M12: the active $f is told",
            files: &[(
                b"f.mm",
                &[Text(b"$c a b $. $v x $.\nfx $f a x $.\n${ gx $f b x $. $}\n")],
            )],
            reply: b"f.mm:3:12: M12: the variable of a $f has an active $f, in gx
  token: x
  typed: f.mm:2:1
1 fault
",
            status: 1,
        },
    ),
    (
        Whole {
            profile: Lenient,
            question: WholeQuestion::Why { source: false },
        },
        Case {
            name: "M13: a $f in a closed block is told",
            files: &[(
                b"f.mm",
                &[
                    Text(b"$c a b $.\n${ $v x $. fx $f a x $. $}\n"),
                    Text(b"${ $v x $. gx $f b x $. $}\n"),
                ],
            )],
            reply: b"f.mm:3:20: M13: an earlier $f gave the variable another type code, in gx
  token: x
  typed: f.mm:2:12
1 fault
",
            status: 1,
        },
    ),
    (
        Whole {
            profile: Lenient,
            question: WholeQuestion::Why { source: false },
        },
        Case {
            name: "M13: the last of two $f is told",
            files: &[(
                b"f.mm",
                &[
                    Text(b"$c a b $.\n${ $v x $. fx $f a x $. $}\n"),
                    Text(b"${ $v x $. gx $f a x $. $}\n${ $v x $. hx $f b x $. $}\n"),
                ],
            )],
            reply: b"f.mm:4:20: M13: an earlier $f gave the variable another type code, in hx
  token: x
  typed: f.mm:3:12
1 fault
",
            status: 1,
        },
    ),
    (
        Whole {
            profile: Lenient,
            question: WholeQuestion::Why { source: false },
        },
        Case {
            name: "M14: an expression begins with a variable",
            files: &[(b"f.mm", &[Text(b"$c a $. $v x $.\np $a x $.\n")])],
            reply: b"f.mm:2:6: M14: the first symbol is a variable, in p
  token: x
  declared: f.mm:1:12
1 fault
",
            status: 1,
        },
    ),
];

/// Databases with a symbol that isn't active, that has no type, or that no `$d` may hold.
pub(crate) const SYMBOLS: [(Command<'static>, Case); 8] = [
    (
        Whole {
            profile: Lenient,
            question: WholeQuestion::Why { source: false },
        },
        Case {
            name: "M7: a symbol was never declared",
            files: &[(b"f.mm", &[Text(b"$c a $.\np $a a (a $.\n")])],
            reply: b"f.mm:2:8: M7: a symbol isn't active, in p
  token: (a
1 fault
",
            status: 1,
        },
    ),
    (
        Whole {
            profile: Lenient,
            question: WholeQuestion::Why { source: false },
        },
        Case {
            name: "M7: a variable was declared in two closed blocks",
            files: &[(
                b"f.mm",
                &[Text(b"$c a $.\n${ $v x $. $} ${ $v x $. $}\np $a a x $.\n")],
            )],
            reply: b"f.mm:3:8: M7: a symbol isn't active, in p
  token: x
  declared: f.mm:2:21
1 fault
",
            status: 1,
        },
    ),
    (
        Whole {
            profile: Lenient,
            question: WholeQuestion::Why { source: false },
        },
        Case {
            name: "M7: a member of a $d was never declared",
            files: &[(b"f.mm", &[Text(b"$v x $.\n$d x y z $.\n")])],
            reply: b"f.mm:2:6: M7: a symbol isn't active
  token: y
1 fault
",
            status: 1,
        },
    ),
    (
        Whole {
            profile: Lenient,
            question: WholeQuestion::Why { source: false },
        },
        Case {
            name: "M8: a member of a $d is a constant",
            files: &[(b"f.mm", &[Text(b"$c a $. $v x $.\n$d x a $.\n")])],
            reply: b"f.mm:2:6: M8: a member of a $d is a constant
  token: a
  declared: f.mm:1:4
1 fault
",
            status: 1,
        },
    ),
    (
        Whole {
            profile: Lenient,
            question: WholeQuestion::Why { source: false },
        },
        Case {
            name: "M9: a member stands twice",
            files: &[(b"f.mm", &[Text(b"$v x y $.\n$d x\n  y x $.\n")])],
            reply: b"f.mm:3:5: M9: a member stands twice in a $d
  token: x
  before: f.mm:2:4
1 fault
",
            status: 1,
        },
    ),
    (
        Whole {
            profile: Lenient,
            question: WholeQuestion::Why { source: false },
        },
        Case {
            name: "M9: a member stands three times",
            files: &[(b"f.mm", &[Text(b"$v x $.\n$d x x x $.\n")])],
            reply: b"f.mm:2:6: M9: a member stands twice in a $d
  token: x
  before: f.mm:2:4
1 fault
",
            status: 1,
        },
    ),
    (
        Whole {
            profile: Lenient,
            question: WholeQuestion::Why { source: false },
        },
        Case {
            name: "M15: a variable has no $f",
            files: &[(
                b"f.mm",
                &[Text(b"$c a $. $v x y $. fx $f a x $.\np $a a x y $.\n")],
            )],
            reply: b"f.mm:2:10: M15: a variable has no active $f, in p
  token: y
  declared: f.mm:1:14
1 fault
",
            status: 1,
        },
    ),
    (
        Whole {
            profile: Lenient,
            question: WholeQuestion::Why { source: false },
        },
        Case {
            name: "M15: the $f of a variable stands in a closed block",
            files: &[(
                b"f.mm",
                &[Text(b"$c a $. $v x $.\n${ fx $f a x $. $}\np $e a x x $.\n")],
            )],
            reply: b"f.mm:3:8: M15: a variable has no active $f, in p
  token: x
  declared: f.mm:1:12
1 fault
",
            status: 1,
        },
    ),
];
